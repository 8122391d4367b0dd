//! The onsets of the flags of one range, and of where it lies.

ghost use Rattle.std.specs.Prelude.{◌≡◌};
ghost use Rattle.reasons.specs.Conditions.{is_in_force};
ghost use Rattle.reasons.specs.Onsets.{onset_after};
ghost use Rattle.reasons.specs.Chronicles.{onset_of_flag, onset_of_place, no_onsets, range_onsets_after};
ghost use Rattle.reasons.specs.declared.explained.condition.Condition.TheVariants.{Lock};

use crate::explained::condition::{Condition, Flag, Place};
use crate::explained::onset::{Onset, onset_after};
use sp_cells::Rows;

/// Since when each flag of a range has been set, where it is; and where the range lies, and since when.
#[derive(Clone, Copy, Debug, PartialEq, Eq)]
pub struct RangeOnsets {
    pub read_lock_enabled: Option<Onset>,
    pub write_lock_enabled: Option<Onset>,
    pub read_locked: Option<Onset>,
    pub write_locked: Option<Onset>,
    pub place: Place,
    pub placed: Option<Onset>,
}

impl RangeOnsets {
    /// No flag is set, and the range lies nowhere.
    pub(crate) fn none() -> RangeOnsets
        ensures { result ≡ no_onsets }
    {
        RangeOnsets {
            read_lock_enabled: None,
            write_lock_enabled: None,
            read_locked: None,
            write_locked: None,
            place: Place {
                start: 0,
                length: 0,
            },
            placed: None,
        }
    }

    /// The onset of one flag.
    pub(crate) fn of(&self, flag: Flag) -> Option<Onset>
        ensures { result ≡ onset_of_flag flag self.now }
    {
        match flag {
            Flag::ReadLockEnabled => self.read_lock_enabled,
            Flag::WriteLockEnabled => self.write_lock_enabled,
            Flag::ReadLocked => self.read_locked,
            Flag::WriteLocked => self.write_locked,
        }
    }

    /// Since when the range has been at a place; `None` where it is not there.
    pub(crate) fn at(&self, place: Place) -> Option<Onset>
        ensures { result ≡ onset_of_place place self.now }
    {
        if self.place.is_same(place) {
            self.placed
        } else {
            None
        }
    }

    /// The onset of one flag of the range of a number, by the rows as they are now.
    fn flag_after<R: Rows>(&self, rows: &R, range: u8, flag: Flag, now: Onset) -> Option<Onset>
        ensures { result ≡ onset_after (onset_of_flag flag self.now)
            (is_in_force (R.look_up rows.now) (Lock range flag)) now }
    {
        let holds = Condition::Lock { range, flag }.holds(rows);
        onset_after(self.of(flag), holds, now)
    }

    /// The onsets of the range of a number, by the rows as they are now.
    pub(crate) fn after<R: Rows>(&self, rows: &R, range: u8, now: Onset) -> RangeOnsets
        ensures { result ≡ range_onsets_after (R.look_up rows.now) range now self.now }
    {
        let place = Place::of_range(rows, range);
        RangeOnsets {
            read_lock_enabled: self.flag_after(rows, range, Flag::ReadLockEnabled, now),
            write_lock_enabled: self.flag_after(rows, range, Flag::WriteLockEnabled, now),
            read_locked: self.flag_after(rows, range, Flag::ReadLocked, now),
            write_locked: self.flag_after(rows, range, Flag::WriteLocked, now),
            place,
            placed: onset_after(self.at(place), true, now),
        }
    }
}
