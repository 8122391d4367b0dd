//! How rows are read.

ghost use Rattle.std.specs.Prelude.{◌≡◌, ◌≤◌, ℕ, option_copied};
ghost use Rattle.sp_cells.specs.Flat.{LookUp};
ghost use Rattle.sp_cells.specs.Limits.{most_mbr_sectors, most_datastore_bytes};
ghost use Rattle.sp_cells.specs.declared.byte_tables.TableSizes.{TableSizes};
ghost use Rattle.sp_cells.specs.Ranges.{AreApart, number, of_range};
ghost use Rattle.basics.specs.declared.profile.Profile.{Profile};

use crate::byte_tables::TableSizes;
use crate::cells::Cell;
use crate::names::{Column, Sp, Uid};
use basics::Profile;

/// Rows that can be read: those in force, or those that a session sees.
pub trait Rows {
    ghost look_up: { Self → LookUp };

    ghost shadow_sectors: { Self → ℕ };

    ghost sizes_of: { Self → TableSizes };

    /// The cell at a place, where there is one. No two numbered ranges of the rows have a sector in common.
    fn cell(&self, sp: Sp, object: Uid, column: Column) -> Option<&Cell>
        ensures value { option_copied result ≡ look_up self.now sp object column }
        ensures apart { AreApart (look_up self.now) };

    ghost profile_of: { Self → Profile };

    /// The sectors of the drive that can be shadowed.
    fn mbr_sectors(&self) -> u64
        ensures { result ≡ shadow_sectors self.now };

    /// How large the byte tables of the drive are.
    fn table_sizes(&self) -> TableSizes
        ensures value { result ≡ sizes_of self.now }
        ensures shadow { result.mbr_sectors ≤ most_mbr_sectors }
        ensures few { result.datastore ≤ most_datastore_bytes };

    /// The profile of the drive.
    fn profile(&self) -> Profile
        ensures { result ≡ profile_of self.now };
}

/// The number in a column of a range of the Locking SP, 0 where there is none; range 0 is the global range.
pub fn number_of_range<R: Rows>(rows: &R, range: u8, column: Column) -> u64
    ensures { result ≡ of_range (R.look_up rows.now) range column }
{
    number_at(rows, Sp::Locking, Uid::range(range), column)
}

/// The number at a place; 0 where there is none.
pub fn number_at<R: Rows>(rows: &R, sp: Sp, object: Uid, column: Column) -> u64
    ensures { result ≡ number (R.look_up rows.now) sp object column }
{
    match rows.cell(sp, object, column) {
        Some(Cell::Number(number)) => *number,
        _ => 0,
    }
}
