//! The rows in force of a drive's two security providers and the bytes of its byte tables, and what the open
//! transaction of a session makes of them.
#![tactic(auto)]

mod change;
mod laws;
mod log;
mod part;
mod store;
mod undo;
mod view;

pub use change::{Change, SessionId, TransactionError};
pub use laws::laws_of_transactions;
pub use store::Store;
pub use view::View;
