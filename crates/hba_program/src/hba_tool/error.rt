//! Why a host was not served to its end.

use crate::hba_wire::WireError;
use hba_waves::DumpError;
use thiserror::Error;

/// Why a host was not served to its end.
#[derive(Clone, Copy, Debug, PartialEq, Eq, Error)]
pub enum ServeError {
    #[error(transparent)]
    Wire(#[from] WireError),
    #[error(transparent)]
    Dump(#[from] DumpError),
}
