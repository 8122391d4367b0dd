//! The TPer (trusted peripheral: TCG Core 2.01): the session manager, sessions and transactions behind ComIDs, and the
//! response that waits on each.
#![tactic(auto)]

mod item;
mod laws;
mod response;
mod trusted;

pub use laws::{laws_of_answers, laws_of_sizes};
pub use response::{is_session_com_id, sized};
pub use trusted::{Sent, Tper};
