//! A pipe to a host: its requests, the answers to them, and its memory, which stays with it.

mod error;
mod memory;
mod wire;

pub use error::WireError;
pub use wire::Wire;
