//! Why a load is not run to its end.

use std::alloc::AllocError;
use thiserror::Error;

/// Why a load is not run to its end.
#[derive(Clone, Copy, Debug, PartialEq, Eq, Error)]
pub enum LoadError {
    #[error("out of memory")]
    Memory,
    #[error("the output could not be written")]
    Write,
    #[error("no thread could be started")]
    Thread,
}

impl From<AllocError> for LoadError {
    ghost use Rattle.std.specs.Prelude.{◌≡◌};
    ghost use Rattle.port_threads.specs.declared.error.LoadError.TheVariants.{Memory};

    ghost from_gives = { λ _ error. error ≡ Memory };

    fn from(_error: AllocError) -> LoadError {
        LoadError::Memory
    }
}
