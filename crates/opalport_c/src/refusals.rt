//! What stands for an error of the crates below.

ghost use Rattle.std.specs.Prelude.{◌≡◌};
ghost use Rattle.opalport_c.specs.Refused.{set_refusal, drive_refusal};

use drive::{DriveError, SetError};
use library_calls::byte_calls::CallError;

/// Why a row of a range is refused.
pub(crate) fn of_set(error: SetError) -> CallError
    ensures { result ≡ set_refusal error }
{
    match error {
        SetError::OutOfMemory => CallError::OutOfMemory,
        SetError::Overlap => CallError::Overlap,
        SetError::Beyond => CallError::Beyond,
        SetError::NoCell | SetError::WrongType | SetError::Expr => CallError::NoRange,
    }
}

/// Why a completion is refused.
pub(crate) fn of_drive(error: DriveError) -> CallError
    ensures { result ≡ drive_refusal error }
{
    match error {
        DriveError::NotHeld => CallError::NotHeld,
        DriveError::OutOfMemory => CallError::OutOfMemory,
    }
}
