//! Why bytes are no frame.

use thiserror::Error;

/// Why bytes are no frame, in the numbers' order. Which one is told where several apply: see
/// `open`.
#[derive(Clone, Copy, Debug, PartialEq, Eq, Error)]
pub enum FrameError {
    /// The bytes end before the ComPacket does.
    #[error("the bytes end before the ComPacket")]
    Short,
    /// A Length does not fit what it stands in.
    #[error("a length does not fit")]
    Length,
    /// The subpacket is no data subpacket.
    #[error("the subpacket carries no data")]
    Kind,
    /// More than one packet or subpacket.
    #[error("more than one packet or subpacket")]
    Many,
    /// A ComPacket, packet or subpacket that carries nothing.
    #[error("nothing is carried")]
    Empty,
}
