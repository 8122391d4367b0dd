//! What lifts a denial, in words: who may, by which access control element (ACE), by the rows in force.

mod called;
mod expression;
mod laws;
mod phrase;
mod remedy;
mod ways;
mod within;

pub use called::{append_column_name, append_object_name};
pub use laws::{laws_of_expressions, laws_of_remedies};
pub(crate) use remedy::append_set;
pub use remedy::{remedy_bytes, sp_object};
pub use within::remedy_within;
