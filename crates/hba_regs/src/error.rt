//! Why a register is not written.

use thiserror::Error;

/// Why a write of a register was refused. `BadOffset` is told first.
#[derive(Clone, Copy, Debug, PartialEq, Eq, Error)]
pub enum RegError {
    /// No register stands at the offset.
    #[error("no register stands at this offset")]
    BadOffset,
    /// The host can't write the register.
    #[error("the register is read-only")]
    ReadOnly,
}
