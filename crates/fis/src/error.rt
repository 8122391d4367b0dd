//! Why bytes are no FIS.

use thiserror::Error;

/// Why bytes are no FIS. `UnknownType` is told first where there is a byte, then `Short`, then
/// `ReservedSet`; no bytes at all are `Short`.
#[derive(Clone, Copy, Debug, PartialEq, Eq, Error)]
pub enum FisError {
    /// The bytes end before the FIS does.
    #[error("the bytes end before the FIS")]
    Short,
    /// The first byte is the type of no FIS.
    #[error("the first byte names no FIS")]
    UnknownType,
    /// A bit that the type of FIS reserves is set.
    #[error("a reserved bit is set")]
    ReservedSet,
}
