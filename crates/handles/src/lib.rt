//! Numbers in place of addresses: which of them were given, which are of an object, and which of these are lent to a call.
#![tactic(auto)]

pub mod entry;
pub mod laws;
pub mod table;

pub use entry::{Entry, Number};
pub use laws::laws_of_numbers;
pub use table::{HandleError, give, lend, take_back};
