//! Which sectors a method erases, by rows.

ghost use Rattle.std.specs.Prelude.{◌≡◌, ◌≤◌, ◌<◌, ◌==◌, [], ◌∷◌};
ghost use Rattle.sp_cells.specs.Ranges.{of_range};
ghost use Rattle.sp_cells.specs.declared.names.TheConstants.{RANGES};
ghost use Rattle.methods.specs.Erasures.{run_of, numbered_runs, erased_by_key, erased_by_revert_sp, is_wholly_locked};

use shadow_mbr::{Erasure, Run, Runs};
use sp_cells::{Column, RANGES, Rows, number_of_range};

/// The sectors of a range.
fn run_of<R: Rows>(rows: &R, range: u8) -> Run
    ensures { result ≡ run_of (R.look_up rows.now) range }
{
    Run {
        start: number_of_range(rows, range, Column::RANGE_START),
        len: number_of_range(rows, range, Column::RANGE_LENGTH),
    }
}

/// The sectors of the numbered ranges.
#[tactic(auto, unfolding(crate::specs::Erasures::numbered_runs))]
fn numbered_runs<R: Rows>(rows: &R) -> Runs
    ensures { result ≡ record { items = numbered_runs (R.look_up rows.now) } }
{
    let mut runs = Runs::new();
    for range in 1..RANGES + 1 {
        runs.push(run_of(rows, range));
    }
    runs
}

/// What a new key of a range erases.
pub(crate) fn erased_by_key<R: Rows>(rows: &R, range: u8) -> Erasure
    ensures { result ≡ erased_by_key (R.look_up rows.now) range }
{
    if range == 0 {
        return Erasure::Outside(numbered_runs(rows));
    }
    let mut runs = Runs::new();
    runs.push(run_of(rows, range));
    Erasure::Within(runs)
}

/// What a RevertSP erases.
pub(crate) fn erased_by_revert_sp<R: Rows>(rows: &R, keep: bool) -> Erasure
    ensures { result ≡ erased_by_revert_sp (R.look_up rows.now) keep }
{
    if keep {
        Erasure::Within(numbered_runs(rows))
    } else {
        Erasure::all()
    }
}

/// Whether the global range is locked for reads and for writes, and both locks count.
pub(crate) fn is_wholly_locked<R: Rows>(rows: &R) -> bool
    ensures { result ≡ is_wholly_locked (R.look_up rows.now) }
{
    number_of_range(rows, 0, Column::READ_LOCK_ENABLED) == 1
        && number_of_range(rows, 0, Column::READ_LOCKED) == 1
        && number_of_range(rows, 0, Column::WRITE_LOCK_ENABLED) == 1
        && number_of_range(rows, 0, Column::WRITE_LOCKED) == 1
}
