//! Why a pipe is of no use any more.

use std::alloc::AllocError;
use std::io;
use std::io::ErrorKind;
use thiserror::Error;

/// Why a pipe is of no use any more.
#[derive(Clone, Copy, Debug, PartialEq, Eq, Error)]
pub enum WireError {
    #[error("out of memory")]
    Memory,
    #[error("the input could not be read")]
    Read,
    #[error("the output could not be written")]
    Write,
}

impl From<AllocError> for WireError {
    ghost use Rattle.std.specs.Prelude.{◌≡◌};
    ghost use Rattle.hba_program.specs.declared.hba_wire.error.WireError.TheVariants.{Memory};

    ghost from_gives = { λ _ error. error ≡ Memory };

    fn from(_error: AllocError) -> WireError {
        WireError::Memory
    }
}

impl WireError {
    ghost use Rattle.std.specs.Prelude.{◌≡◌, ◌⊎◌};
    ghost use Rattle.std.specs.IoError.{error_kind};
    ghost use Rattle.std.specs.declared.io.ErrorKind.TheVariants.{OutOfMemory};
    ghost use Rattle.hba_program.specs.declared.hba_wire.error.WireError.TheVariants.{Memory, Read};

    /// The error of a call that reads: its kind decides.
    pub(crate) fn reading(error: io::Error) -> WireError
        ensures either { (result ≡ Memory) ⊎ (result ≡ Read) }
        ensures memory { error_kind error ≡ OutOfMemory → result ≡ Memory }
        ensures read { (error_kind error ≡ OutOfMemory → ⊥) → result ≡ Read }
    {
        match error.kind() {
            ErrorKind::OutOfMemory => WireError::Memory,
            _ => WireError::Read,
        }
    }
}
