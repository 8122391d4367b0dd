//! Drives that are saved: what a drive keeps without power as bytes, and a drive of such bytes.
//!
//! The bytes are one reply of a token stream (TCG Core 2.01, section 3.2.2), so that `decode tokens` shows them.
#![tactic(auto)]

mod error;
mod laws;
mod loading;
mod reading;
mod saving;
mod stores;
mod values;

pub use error::{LoadError, SaveError};
pub use laws::laws_of_saving;
pub use loading::load;
pub use saving::save;
