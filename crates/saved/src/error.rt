//! Why a drive is not saved, and why bytes make none.

use std::alloc::AllocError;
use thiserror::Error;

/// Why a drive is not saved.
#[derive(Clone, Copy, Debug, PartialEq, Eq, Error)]
pub enum SaveError {
    /// It keeps a value that no token holds: a cell of 2^24 bytes or more, or a sector behind the last.
    #[error("the drive keeps what cannot be written")]
    Unwritable,

    /// A growth was refused.
    #[error("out of memory")]
    OutOfMemory,
}

impl From<AllocError> for SaveError {
    ghost use Rattle.std.specs.Prelude.{◌≡◌};
    ghost use Rattle.saved.specs.declared.error.SaveError.TheVariants.{OutOfMemory};

    ghost from_gives = { λ _ e. e ≡ OutOfMemory };

    fn from(_: AllocError) -> SaveError {
        SaveError::OutOfMemory
    }
}

/// Why bytes make no drive.
#[derive(Clone, Copy, Debug, PartialEq, Eq, Error)]
pub enum LoadError {
    /// They are no drive that was saved.
    #[error("not a saved drive")]
    NotADrive,

    /// They are one that was saved in another form, of a version that is not known here.
    #[error("a saved drive of another version")]
    Version,

    /// They begin as a saved drive does, and are none: something in them was changed, or is missing.
    #[error("a saved drive that is damaged")]
    Damaged,

    /// A growth was refused.
    #[error("out of memory")]
    OutOfMemory,
}

impl From<AllocError> for LoadError {
    ghost use Rattle.std.specs.Prelude.{◌≡◌};
    ghost use Rattle.saved.specs.declared.error.LoadError.TheVariants.{OutOfMemory};

    ghost from_gives = { λ _ e. e ≡ OutOfMemory };

    fn from(_: AllocError) -> LoadError {
        LoadError::OutOfMemory
    }
}
