//! Calls of the table of numbers: which objects there are, for the handles that a caller from outside has.

ghost use Rattle.std.specs.Prelude.{◌≡◌};
ghost use Rattle.library_calls.specs.Refusals.{code_of_call};
ghost use Rattle.opalport_c.specs.Numbers.{GivesNumber, LendsNumber, TakesNumberBack, handle_refusal, refused_number};

use handles::{Entry, HandleError, Number, give, lend, take_back};
use library_calls::byte_calls::{CallError, DONE};

/// A number that was given, or the code of the refusal.
#[repr(C)]
#[derive(Clone, Copy, Debug, PartialEq, Eq)]
pub struct Given {
    pub code: u32,
    pub place: usize,
    pub generation: u64,
}

impl Given {
    ghost use Rattle.std.specs.Prelude.{◌≡◌};
    ghost use Rattle.opalport_c.specs.Numbers.{refused_number};

    /// None, and why.
    fn refused(error: CallError) -> Given
        ensures { result ≡ refused_number error }
    {
        Given {
            code: error.code(),
            place: 0,
            generation: 0,
        }
    }
}

/// The code of a number that is refused.
fn code_of(error: HandleError) -> u32
    ensures { result ≡ code_of_call (handle_refusal error) }
{
    match error {
        HandleError::NoHandle => CallError::NotOpen.code(),
        HandleError::Busy => CallError::Busy.code(),
    }
}

/// Gives a number that was never given before, of an object that is lent to the caller. `Room`, if the table is full.
#[unsafe(no_mangle)]
pub extern "C" fn opal_raw_number_give(entries: &mut [Entry]) -> Given
    ensures { GivesNumber entries.old entries.new result }
{
    match give(entries) {
        Some(number) => Given {
            code: DONE,
            place: number.place,
            generation: number.generation,
        },
        None => Given::refused(CallError::Room),
    }
}

/// Lends the object of a number. `NotOpen` of one that has none, `Busy` of one that is lent.
#[unsafe(no_mangle)]
pub extern "C" fn opal_raw_number_lend(entries: &mut [Entry], place: usize, generation: u64) -> u32
    ensures { LendsNumber entries.old entries.new record { place = place; generation = generation }
        result }
{
    match lend(entries, Number { place, generation }) {
        Ok(()) => DONE,
        Err(error) => code_of(error),
    }
}

/// Takes the object of a number back, or frees the number, if the object is gone. `NotOpen` of one that is not lent.
#[unsafe(no_mangle)]
pub extern "C" fn opal_raw_number_take_back(
    entries: &mut [Entry],
    place: usize,
    generation: u64,
    is_there: bool,
) -> u32
    ensures { TakesNumberBack entries.old entries.new
        record { place = place; generation = generation } is_there result }
{
    match take_back(entries, Number { place, generation }, is_there) {
        Ok(()) => DONE,
        Err(error) => code_of(error),
    }
}
