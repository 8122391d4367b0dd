//! Token streams of the TCG Storage Architecture: method calls, their replies and the session's own
//! tokens, as bytes and as values.
//!
//! A stream of tokens is one [`Item`]. [`read_item`] reads it from bytes, [`write_item`] writes it, and
//! [`item_text`] shows it to people. The encoding is that of the TCG Storage Architecture Core
//! Specification 2.01, section 3.2.2. The limits of [`limits`] are this project's own.
#![tactic(auto)]

mod condition;
mod error;
pub mod form;
mod laws;
mod length;
pub mod limits;
mod read;
mod skip;
mod text;
mod token;
mod value;
mod write;

pub use basics::Bytes;
pub use condition::writable;
pub use error::TokenError;
pub use form::TINY_LIMIT;
pub use laws::laws_of_faults;
pub use length::item_len;
pub use limits::laws_of_limits;
pub use read::{read_item, tiny};
pub use text::{fault_text, item_text, show_hex, show_status, value_text};
pub use token::begins_with_end;
pub use value::{Call, Item, Value};
pub use write::{write_item, write_item_into};
