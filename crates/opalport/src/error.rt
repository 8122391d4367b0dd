//! Why the program comes to no status of its own.

use decoded::DecodeError;
use hba_program::hba_tool::ServeError;
use port_threads::LoadError;
use runs::recorded::RecordError;
use thiserror::Error;
use tool::RunError;

/// Why the program comes to no status of its own.
#[derive(Clone, Copy, Debug, PartialEq, Eq, Error)]
pub(crate) enum ProgramError {
    #[error(transparent)]
    Run(#[from] RunError),
    #[error("the file of the dump could not be made")]
    DumpFile,
    #[error(transparent)]
    Record(#[from] RecordError),
    #[error(transparent)]
    Decode(#[from] DecodeError),
    #[error(transparent)]
    Hba(#[from] ServeError),
    #[error(transparent)]
    Threads(#[from] LoadError),
}
