//! What the denial of a transfer rests on (Opal SSC 2.01, 4.3.5.2 and 4.3.5.3).

ghost use Rattle.std.specs.Prelude.{◌≡◌};
ghost use Rattle.reasons.specs.Conditions.{range_named, conditions_of};

use arrayvec::ArrayVec;
use audit::Why;
use locking::is_shadow_up;
use sp_cells::{Column, RANGES, Rows, number_of_range};

/// A column of a locking range that says what is locked.
#[derive(Clone, Copy, Debug, PartialEq, Eq)]
pub enum Flag {
    ReadLockEnabled,
    WriteLockEnabled,
    ReadLocked,
    WriteLocked,
}

/// Where a range lies: RangeStart and RangeLength.
#[derive(Clone, Copy, Debug, Default, PartialEq, Eq)]
pub struct Place {
    pub start: u64,
    pub length: u64,
}

/// What is in force at a time, or is not.
#[derive(Clone, Copy, Debug, Default, PartialEq, Eq)]
pub enum Condition {
    /// The column of the range of this number is 1; 0 is the global range.
    Lock { range: u8, flag: Flag },
    /// The range of this number lies there.
    At { range: u8, place: Place },
    /// The shadow MBR is enabled, and not done.
    #[default]
    Shadow,
}

impl Flag {
    ghost use Rattle.reasons.specs.Conditions.{flag_column};

    /// The column of the Locking table.
    pub fn column(self) -> Column
        ensures { result ≡ flag_column self }
    {
        match self {
            Flag::ReadLockEnabled => Column::READ_LOCK_ENABLED,
            Flag::WriteLockEnabled => Column::WRITE_LOCK_ENABLED,
            Flag::ReadLocked => Column::READ_LOCKED,
            Flag::WriteLocked => Column::WRITE_LOCKED,
        }
    }
}

impl Place {
    ghost use Rattle.reasons.specs.Conditions.{place_in, same_place};

    /// Where the range of a number lies by these rows.
    pub fn of_range<R: Rows>(rows: &R, range: u8) -> Place
        ensures { result ≡ place_in (R.look_up rows.now) range }
    {
        Place {
            start: number_of_range(rows, range, Column::RANGE_START),
            length: number_of_range(rows, range, Column::RANGE_LENGTH),
        }
    }

    /// Whether it is that place.
    pub fn is_same(self, other: Place) -> bool
        ensures { result ≡ same_place self other }
    {
        self.start == other.start && self.length == other.length
    }
}

impl Condition {
    ghost use Rattle.reasons.specs.Conditions.{is_in_force, has_range};

    /// Whether it holds by these rows.
    pub fn holds<R: Rows>(self, rows: &R) -> bool
        ensures { result ≡ is_in_force (R.look_up rows.now) self }
    {
        match self {
            Condition::Lock { range, flag } => { number_of_range(rows, range, flag.column()) == 1 }
            Condition::At { range, place } => Place::of_range(rows, range).is_same(place),
            Condition::Shadow => is_shadow_up(rows),
        }
    }

    /// Whether there is a range of its number.
    pub fn has_range(self) -> bool
        ensures { result ≡ has_range self }
    {
        match self {
            Condition::Lock { range, .. } | Condition::At { range, .. } => range <= RANGES,
            Condition::Shadow => true,
        }
    }
}

/// The range that a denial names; the global one where it names none.
pub fn range_named(why: &Why) -> u8
    ensures { result ≡ range_named why.now }
{
    match *why {
        Why::ReadLocked { range, .. } | Why::WriteLocked { range, .. } => range,
        Why::ReadShadow { .. }
        | Why::WriteShadow { .. }
        | Why::NoEntryHolds { .. }
        | Why::NoAccessRow { .. }
        | Why::AttemptFailed { .. } => 0,
    }
}

/// What a denial rests on: the lock and what enables it, and where the range lies that it names, which is nowhere of the
/// global range; or the shadow MBR. Nothing where no transfer was denied.
pub fn conditions_of(why: &Why, place: Place) -> ArrayVec<Condition, 3>
    ensures { result.items ≡ conditions_of why.now place }
{
    let mut conditions = ArrayVec::new();
    match *why {
        Why::ReadLocked { range, .. } => {
            let flag = Flag::ReadLocked;
            conditions.push(Condition::Lock { range, flag });
            let flag = Flag::ReadLockEnabled;
            conditions.push(Condition::Lock { range, flag });
            if range > 0 {
                conditions.push(Condition::At { range, place });
            }
        }
        Why::WriteLocked { range, .. } => {
            let flag = Flag::WriteLocked;
            conditions.push(Condition::Lock { range, flag });
            let flag = Flag::WriteLockEnabled;
            conditions.push(Condition::Lock { range, flag });
            if range > 0 {
                conditions.push(Condition::At { range, place });
            }
        }
        Why::ReadShadow { .. } | Why::WriteShadow { .. } => conditions.push(Condition::Shadow),
        Why::NoEntryHolds { .. } | Why::NoAccessRow { .. } | Why::AttemptFailed { .. } => {}
    }
    conditions
}
