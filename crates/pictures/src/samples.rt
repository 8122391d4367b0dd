//! What a look at a drive or a port shows: stages, queue, sessions, transactions, locks and registers at one time.

mod calls;
mod frame;
mod locks;
mod name;
mod registers;
mod sample;

pub use calls::Calls;
pub use frame::Frame;
pub use locks::Locks;
pub(crate) use name::numbered_name;
pub use registers::Registers;
pub use sample::Sample;
