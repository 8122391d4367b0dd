//! Why a run ends before its end.

use port::PortError;
use std::alloc::{AllocError, AllocFailed};
use std::io;
use thiserror::Error;

/// Why a run ends before its end.
#[derive(Clone, Copy, Debug, Error)]
pub enum SweepError {
    #[error("usage: port_sweeps, port_sweeps full, or port_sweeps refused < SCRIPT")]
    Usage,
    #[error("a line that no script of a port has")]
    Line,
    /// The port does not begin, or a step is refused for another cause than want of memory.
    #[error("the steps cannot be played")]
    Steps,
    #[error("the input cannot be read, or the output not be written")]
    Stream,
    /// A growth was refused.
    #[error("out of memory")]
    OutOfMemory,
}

impl SweepError {
    /// Why a script cannot be played.
    pub fn of_port(error: PortError) -> SweepError {
        match error {
            PortError::OutOfMemory => SweepError::OutOfMemory,
            _ => SweepError::Steps,
        }
    }

    /// Why a stream fails.
    pub fn of_stream(error: io::Error) -> SweepError {
        match error.kind() {
            io::ErrorKind::OutOfMemory => SweepError::OutOfMemory,
            _ => SweepError::Stream,
        }
    }
}

impl From<AllocError> for SweepError {
    fn from(_error: AllocError) -> SweepError {
        SweepError::OutOfMemory
    }
}

impl<T: Drop> From<AllocFailed<T>> for SweepError {
    fn from(_error: AllocFailed<T>) -> SweepError {
        SweepError::OutOfMemory
    }
}
