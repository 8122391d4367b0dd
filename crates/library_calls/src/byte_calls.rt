//! Calls from outside that keep nothing: tokens, frames and FISes as text and as bytes. What such calls are answered.

mod copied;
mod count;
mod error;
mod frames;
mod spelled;
mod texts;

pub use copied::{copy_out, copy_text};
pub use count::{Count, DONE};
pub use error::CallError;
pub use frames::{Carried, frame_out, opened};
pub use spelled::{Transfer, transfer_fis, trusted_fis};
pub use texts::{decoded_out, named_call_out, tokens_out};
