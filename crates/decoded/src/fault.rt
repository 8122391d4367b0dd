//! What is wrong with bytes.

use compacket::FrameError;
use thiserror::Error;

/// What is wrong with bytes that are to be told.
#[derive(Clone, Copy, Debug, Error)]
pub enum DecodeFault {
    /// The bytes end within this field, or before it.
    #[error("the bytes end within {0}")]
    Cut(&'static str),
    /// The first byte is the type of no FIS that is known.
    #[error("no FIS begins with 0x{0:02x}")]
    UnknownType(u8),
    /// A bit that the FIS reserves is set in this byte.
    #[error("a reserved bit of byte {0} is set")]
    Reserved(usize),
    /// The bytes are no frame.
    #[error("no frame: {0}")]
    Frame(FrameError),
}
