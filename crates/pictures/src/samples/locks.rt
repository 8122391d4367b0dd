//! Which locks of a range are in force.

ghost use Rattle.std.specs.Prelude.{◌≡◌, ◌==◌};
ghost use Rattle.sp_cells.specs.Ranges.{of_range};

use sp_cells::{Column, Rows, number_of_range};

/// Which locks of a range are in force: they are enabled and set (Opal SSC 2.01, 4.3.5.2).
#[derive(Clone, Copy, Debug, PartialEq, Eq)]
pub struct Locks {
    /// Reads are locked.
    pub read: bool,
    /// Writes are locked.
    pub write: bool,
}

/// Whether a cell of a range is 1.
fn is_set<R: Rows>(rows: &R, range: u8, column: Column) -> bool
    ensures { result ≡ (of_range (R.look_up rows.now) range column == 1) }
{
    number_of_range(rows, range, column) == 1
}

impl Locks {
    ghost use Rattle.std.specs.Prelude.{◌≡◌};
    ghost use Rattle.pictures.specs.Samples.{locks_by};

    /// The locks of a range by these rows; 0 is the global range.
    pub fn of<R: Rows>(rows: &R, range: u8) -> Locks
        ensures { result ≡ locks_by (R.look_up rows.now) range }
    {
        Locks {
            read: is_set(rows, range, Column::READ_LOCK_ENABLED)
                && is_set(rows, range, Column::READ_LOCKED),
            write: is_set(rows, range, Column::WRITE_LOCK_ENABLED)
                && is_set(rows, range, Column::WRITE_LOCKED),
        }
    }
}
