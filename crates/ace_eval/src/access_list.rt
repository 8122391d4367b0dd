//! The fixed access list of a self-locking drive: which access control elements (ACEs) may allow
//! which method of which object.

pub mod access;
pub mod laws;
mod opal;

pub use access::access_row;
pub use laws::laws_of_access_list;
