//! What is done with the numbers of a table.

ghost use Rattle.std.specs.Prelude.{◌≡◌, ◌<◌, true, None, Some, length, MatchOption, MatchResult};
ghost use Rattle.handles.specs.Numbers.{can_give, place_entry, IsGiven, IsFull, Lends, TakesBack, lending_fault, returning_fault};

use crate::entry::{Entry, Number};

/// Why a number is refused. Nothing was done then.
#[derive(Clone, Copy, Debug, PartialEq, Eq)]
pub enum HandleError {
    /// The number is of no object: it was never given, or its object was freed.
    NoHandle,
    /// The object of the number is lent to another call.
    Busy,
}

/// The first place of which a number can be given.
fn first_free(entries: &[Entry]) -> Option<usize>
    ensures { MatchOption result (IsFull entries.now)
        (λ place. (place < length entries.now)
        × (can_give (place_entry entries.now place) ≡ true)) }
{
    entries.iter().position(|entry| entry.can_give())
}

/// What is known of a place.
fn place_entry(entries: &[Entry], place: usize) -> Entry
    ensures { result ≡ place_entry entries.now place }
{
    match entries.get(place) {
        Some(entry) => *entry,
        None => Entry {
            generation: 0,
            is_live: false,
            is_lent: false,
        },
    }
}

/// Gives a number that was never given before, of an object that is lent to the caller. None, where the table is full.
pub fn give(entries: &mut [Entry]) -> Option<Number>
    ensures { MatchOption result (IsFull entries.old × (entries.new ≡ entries.old))
        (IsGiven entries.old entries.new) }
{
    let place = first_free(entries)?;
    let generation = entries[place].generation + 1;
    entries[place] = Entry {
        generation,
        is_live: true,
        is_lent: true,
    };
    Some(Number { place, generation })
}

/// Lends the object of a number to a call.
///
/// # Errors
///
/// `NoHandle`, `Busy`: the table is as before.
pub fn lend(entries: &mut [Entry], number: Number) -> Result<(), HandleError>
    ensures done { MatchResult result (λ _. Lends entries.old entries.new number)
        (λ e. entries.new ≡ entries.old) }
    ensures fault { MatchResult result (λ _. lending_fault entries.old number ≡ None)
        (λ e. lending_fault entries.old number ≡ Some e) }
{
    let entry = place_entry(entries, number.place);
    if !entry.is_numbered(number.generation) {
        return Err(HandleError::NoHandle);
    }
    if entry.is_lent {
        return Err(HandleError::Busy);
    }
    entries[number.place].is_lent = true;
    Ok(())
}

/// Takes the object of a number back from a call, or frees the number, if the object is gone.
///
/// # Errors
///
/// `NoHandle`: no object of this number is lent. The table is as before.
pub fn take_back(entries: &mut [Entry], number: Number, is_there: bool) -> Result<(), HandleError>
    ensures done { MatchResult result (λ _. TakesBack entries.old entries.new number is_there)
        (λ e. entries.new ≡ entries.old) }
    ensures fault { MatchResult result (λ _. returning_fault entries.old number ≡ None)
        (λ e. returning_fault entries.old number ≡ Some e) }
{
    let entry = place_entry(entries, number.place);
    if !entry.is_numbered(number.generation) || !entry.is_lent {
        return Err(HandleError::NoHandle);
    }
    entries[number.place] = Entry {
        generation: number.generation,
        is_live: is_there,
        is_lent: false,
    };
    Ok(())
}
