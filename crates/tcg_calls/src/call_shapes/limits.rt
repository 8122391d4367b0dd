//! The limit of answers.

/// The most bytes of a response's tokens: those that a ComPacket of 65,536 bytes has room for.
pub const MOST_RESPONSE: u64 = 65_480;
