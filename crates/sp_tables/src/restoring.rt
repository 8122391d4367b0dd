//! Tables that have given cells.

ghost use Rattle.std.specs.Prelude.{◌≡◌, ◌↔◌, ◌&&◌, nat_lt, map, IfOk, IfErr, OnOk, IsTrue, SomeIff};
ghost use Rattle.sp_cells.specs.Names.{range_uid};
ghost use Rattle.sp_cells.specs.Ranges.{cell_number, ranges_meet as ranges_meet_in};
ghost use Rattle.sp_tables.specs.declared.restoring.RestoreError.TheVariants as faults;
ghost use Rattle.sp_tables.specs.Items.{item_at, with_item, item_of};
ghost use Rattle.sp_tables.specs.Undo.{RangesApart};
ghost use Rattle.sp_tables.specs.Halves.{half_items};
ghost use Rattle.sp_tables.specs.Given.{look_of, meets_later as meets_later_in, any_meet as any_meet_in, with_placed, AreCellsOf, given_contents};

use crate::checks::meets;
use crate::sp_rows::{ListedCell, SpTables, new_halves};
use crate::whole::Tables;
use sp_cells::{Cell, Column, DriveConfig, RANGES, Uid};
use std::alloc::{AllocError, Global};
use thiserror::Error;

/// Why given cells make no tables.
#[derive(Clone, Copy, Debug, PartialEq, Eq, Error)]
pub enum RestoreError {
    /// They are not those of a drive that was made so, or two numbered ranges meet.
    #[error("not the cells of such a drive")]
    Foreign,

    /// A growth was refused.
    #[error("out of memory")]
    OutOfMemory,
}

impl From<AllocError> for RestoreError {
    ghost use Rattle.std.specs.Prelude.{◌≡◌};
    ghost use Rattle.sp_tables.specs.declared.restoring.RestoreError.TheVariants.{OutOfMemory};

    ghost from_gives = { λ _ e. e ≡ OutOfMemory };

    fn from(_: AllocError) -> RestoreError {
        RestoreError::OutOfMemory
    }
}

/// Puts a cell into its place, where there is one.
fn put_cell(half: &mut SpTables, item: &ListedCell) -> Result<(), AllocError>
    ensures { OnOk result (half_items half.new
        ≡ with_item (half_items half.old) item.now.0 item.now.1 item.now.2) }
{
    let mut cell = item.2.copy()?;
    half.swap(item.0, item.1, &mut cell);
    Ok(())
}

/// Puts each of these cells into its place, where there is one.
fn put_cells(half: &mut SpTables, items: &[ListedCell]) -> Result<(), AllocError>
    ensures { OnOk result (half_items half.new
        ≡ with_placed (half_items half.old) (map item_of items.now)) }
{
    for item in items {
        put_cell(half, item)?;
    }
    Ok(())
}

/// Whether two cells are the same, and at the same place.
fn is_same(one: &ListedCell, other: &ListedCell) -> bool
    ensures { IsTrue result ↔ (one.now ≡ other.now) }
{
    one.0 == other.0 && one.1 == other.1 && one.2.is(&other.2)
}

/// Whether two lists have the same cells in the same order.
fn are_same(these: &[ListedCell], those: &[ListedCell]) -> bool
    ensures { IsTrue result ↔ (these.now ≡ those.now) }
{
    if these.len() != those.len() {
        return false;
    }
    for i in 0..these.len() {
        if !is_same(&these[i], &those[i]) {
            return false;
        }
    }
    true
}

/// Whether the cells of an SP are just these.
fn holds(alloc: Global, half: &SpTables, items: &[ListedCell]) -> Result<bool, AllocError>
    ensures { IfOk result (λ same. IsTrue same
        ↔ (half_items half.now ≡ map item_of items.now)) }
{
    let held = half.cells(alloc)?;
    Ok(are_same(&held, items))
}

/// The number in a column of a range, 0 where there is none.
fn bound(half: &SpTables, range: u8, column: Column) -> u64
    ensures { result ≡ cell_number (item_at (half_items half.now) (range_uid range) column) }
{
    match half.cell(Uid::range(range), column) {
        Some(Cell::Number(number)) => *number,
        _ => 0,
    }
}

/// Whether two ranges have a sector in common.
fn ranges_meet(half: &SpTables, range: u8, other: u8) -> bool
    ensures { result ≡ ranges_meet_in (look_of (half_items half.now)) range other }
{
    let start = bound(half, range, Column::RANGE_START);
    let len = bound(half, range, Column::RANGE_LENGTH);
    let other_start = bound(half, other, Column::RANGE_START);
    let other_len = bound(half, other, Column::RANGE_LENGTH);
    meets(start, len, other_start, other_len)
}

/// Whether the other range is a later one, and has a sector in common with this.
fn meets_as_later(half: &SpTables, range: u8, other: u8) -> bool
    ensures { result
        ≡ (nat_lt range other && ranges_meet_in (look_of (half_items half.now)) range other) }
{
    range < other && ranges_meet(half, range, other)
}

/// Whether a range and a later one have a sector in common.
#[tactic(auto, using(crate::proofs::ChangeLemmas::testing))]
fn meets_later(half: &SpTables, range: u8) -> bool
    ensures { result ≡ meets_later_in (look_of (half_items half.now)) range }
{
    for i in 0..RANGES {
        if meets_as_later(half, range, i + 1) {
            return true;
        }
    }
    false
}

/// Whether two numbered ranges have a sector in common.
#[tactic(auto, using(crate::proofs::ChangeLemmas::testing))]
fn any_meet(half: &SpTables) -> bool
    ensures { result ≡ any_meet_in (look_of (half_items half.now)) }
{
    for i in 0..RANGES {
        if meets_later(half, i + 1) {
            return true;
        }
    }
    false
}

/// The tables of an SP with these cells, where those are its cells in their order.
fn half_with(
    alloc: Global,
    mut half: SpTables,
    items: &[ListedCell],
) -> Result<SpTables, RestoreError>
    ensures ok { IfOk result (λ made. half_items made ≡ map item_of items.now) }
    ensures foreign { IfErr result (λ e. e ≡ faults.Foreign
        → with_placed (half_items half) (map item_of items.now) ≡ map item_of items.now → ⊥) }
    ensures own { OnOk result
        (with_placed (half_items half) (map item_of items.now) ≡ map item_of items.now) }
{
    put_cells(&mut half, items)?;
    if !holds(alloc, &half, items)? {
        return Err(RestoreError::Foreign);
    }
    Ok(half)
}

/// The tables of these cells of both SPs, where no two numbered ranges meet.
fn joined(alloc: Global, config: DriveConfig, admin: SpTables, locking: SpTables) -> Option<Tables>
    ensures { SomeIff result (RangesApart (half_items locking))
        (given_contents config (half_items admin) (half_items locking)) }
{
    if any_meet(&locking) {
        return None;
    }
    Some(Tables {
        alloc,
        config,
        admin,
        locking,
    })
}

/// The tables of a drive that was made so, with these cells of its two SPs: all of them, in the order of `cells`.
pub fn restored(
    alloc: Global,
    config: DriveConfig,
    admin: &[ListedCell],
    locking: &[ListedCell],
) -> Result<Tables, RestoreError>
    ensures ok { IfOk result (λ t.
        t ≡ given_contents config (map item_of admin.now) (map item_of locking.now)) }
    ensures foreign { IfErr result (λ e. e ≡ faults.Foreign
        → AreCellsOf config (map item_of admin.now) (map item_of locking.now) → ⊥) }
    ensures own { OnOk result
        (AreCellsOf config (map item_of admin.now) (map item_of locking.now)) }
{
    let halves = new_halves(alloc, &config)?;
    let admin = half_with(alloc, halves.0, admin)?;
    let locking = half_with(alloc, halves.1, locking)?;
    match joined(alloc, config, admin, locking) {
        Some(tables) => Ok(tables),
        None => Err(RestoreError::Foreign),
    }
}
