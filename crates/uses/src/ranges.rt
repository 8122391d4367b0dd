//! A caller of `locking`.

ghost use Rattle.std.specs.Prelude.{◌≡◌, ◌+◌, ◌<◌, ◌≤◌, IfOk};
ghost use Rattle.basics.specs.Addresses.{address_limit};
ghost use Rattle.locking.specs.Ranges.{ranges_in};
ghost use Rattle.locking.specs.Verdict.{verdict_of};
ghost use Rattle.uses.specs.Serves.{serves};

use locking::{Op, Ranges, Verdict};
use sp_cells::Rows;
use std::alloc::{AllocError, Global};

/// Whether a transfer is served, by the rows of a drive: no sector of it is shadowed and the range of each permits
/// it, or it reads shadowed sectors alone.
pub fn is_served<R: Rows>(
    alloc: Global,
    rows: &R,
    op: Op,
    lba: u64,
    count: u32,
) -> Result<bool, AllocError>
    requires some { 0 < count }
    requires room { lba + count ≤ address_limit }
    ensures { IfOk result (λ is_so. is_so ≡ serves
        (verdict_of (ranges_in (R.shadow_sectors rows.now) (R.look_up rows.now)) op lba count)) }
{
    let ranges = Ranges::of(alloc, rows)?;
    let verdict = ranges.verdict(op, lba, count);
    Ok(!matches!(verdict, Verdict::Denied(_)))
}
