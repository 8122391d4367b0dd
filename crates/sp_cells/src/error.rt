//! Why cells of a row are not set.

use std::alloc::{AllocError, AllocFailed};
use thiserror::Error;

/// Why cells of a row were not set: of those that apply, the first in this order.
#[derive(Clone, Copy, Debug, PartialEq, Eq, Error)]
pub enum SetError {
    /// The object does not exist, or lacks a named column.
    #[error("no such cell")]
    NoCell,

    /// A column does not take its value.
    #[error("a value that its column does not take")]
    WrongType,

    /// The range would meet another numbered range.
    #[error("the range meets another one")]
    Overlap,

    /// The range would end beyond the drive, or the global range would have bounds.
    #[error("the range ends beyond the drive")]
    Beyond,

    /// An expression that writes no tree, or that names no authority of the Locking SP.
    #[error("not an expression over authorities")]
    Expr,

    /// A growth was refused.
    #[error("out of memory")]
    OutOfMemory,
}

impl From<AllocError> for SetError {
    ghost use Rattle.std.specs.Prelude.{◌≡◌};
    ghost use Rattle.sp_cells.specs.declared.error.SetError.TheVariants.{OutOfMemory};

    ghost from_gives = { λ _ e. e ≡ OutOfMemory };

    fn from(_: AllocError) -> SetError {
        SetError::OutOfMemory
    }
}

impl<T: Drop> From<AllocFailed<T>> for SetError {
    ghost use Rattle.std.specs.Prelude.{◌≡◌};
    ghost use Rattle.sp_cells.specs.declared.error.SetError.TheVariants.{OutOfMemory};

    ghost from_gives = { λ _ e. e ≡ OutOfMemory };

    fn from(_: AllocFailed<T>) -> SetError {
        SetError::OutOfMemory
    }
}
