//! The numbers of a port's refusals.

ghost use Rattle.std.specs.Prelude.{◌≡◌};
ghost use Rattle.library_calls.specs.PortCallsTold.{code_of_port, told_step, told_turn};

use crate::byte_calls::{CallError, Count};
use port::PortError;

/// The number of a refusal: 100 and its number among those of a port. Want of memory has the number that it has
/// everywhere.
pub(crate) fn code_of(error: PortError) -> u32
    ensures { result ≡ code_of_port error }
{
    match error {
        PortError::SlotBusy => 101,
        PortError::NotPrepared => 102,
        PortError::Queue => 103,
        PortError::NotIssued => 104,
        PortError::NotAccepted => 105,
        PortError::NotFailed => 106,
        PortError::Failed => 107,
        PortError::NotAnswered => 108,
        PortError::NotYours => 109,
        PortError::Size => 110,
        PortError::HistoryFull => 111,
        PortError::OutOfMemory => CallError::OutOfMemory.code(),
    }
}

/// What a step is told by: its number, or why it was refused.
pub(crate) fn told(step: Result<u64, PortError>) -> Count
    ensures { result ≡ told_step step }
{
    match step {
        Ok(number) => Count::of(number as usize),
        Err(error) => Count {
            code: code_of(error),
            number: 0,
        },
    }
}

/// What a turn of the engine is told by: the number of its step, 0 where none was ready, or why it was refused.
pub(crate) fn told_turn(turn: Result<Option<u64>, PortError>) -> Count
    ensures { result ≡ told_turn turn }
{
    match turn {
        Ok(Some(number)) => Count::of(number as usize),
        Ok(None) => Count::of(0),
        Err(error) => told(Err(error)),
    }
}
