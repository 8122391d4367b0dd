//! Why a call is refused.

use std::alloc::AllocError;
use thiserror::Error;

/// Why a call of the drive is refused.
#[derive(Clone, Copy, Debug, PartialEq, Eq, Error)]
pub enum DriveError {
    /// No command is held under the tag.
    #[error("no command is held under the tag")]
    NotHeld,
    /// A growth was refused; the drive is as before.
    #[error("out of memory")]
    OutOfMemory,
}

impl From<AllocError> for DriveError {
    ghost use Rattle.std.specs.Prelude.{◌≡◌};
    ghost use Rattle.drive.specs.declared.error.DriveError.TheVariants.{OutOfMemory};

    ghost from_gives = { λ _ e. e ≡ OutOfMemory };

    fn from(_error: AllocError) -> DriveError {
        DriveError::OutOfMemory
    }
}
