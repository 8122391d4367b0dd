//! Why a run could not be recorded to its end.

use std::alloc::AllocError;
use thiserror::Error;
use tool::RunError;

/// Why a run could not be recorded to its end.
#[derive(Clone, Copy, Debug, PartialEq, Eq, Error)]
pub enum RecordError {
    #[error(transparent)]
    Run(#[from] RunError),
    #[error("the dump could not be written")]
    Dump,
    #[error("a picture has room for 2000 steps, and the script has more")]
    Full,
}

impl From<AllocError> for RecordError {
    ghost use Rattle.std.specs.Prelude.{◌≡◌};
    ghost use Rattle.runs.specs.declared.recorded.error.RecordError.TheVariants.{Run};
    ghost use Rattle.tool.specs.declared.ending.RunError.TheVariants.{Memory};

    ghost from_gives = { λ _ error. error ≡ Run Memory };

    fn from(_error: AllocError) -> RecordError {
        RecordError::Run(RunError::Memory)
    }
}
