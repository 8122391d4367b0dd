//! The cells of rows as a flat list.

ghost use Rattle.std.specs.Prelude.{◌≡◌, ◌+◌, ◌++◌, [], ◌∷◌, map, IfOk, OnOk};
ghost use Rattle.std.specs.List.{flat_map};
ghost use Rattle.sp_cells.specs.Names.{uid};
ghost use Rattle.sp_tables.specs.Items.{rows_from, row_items, item_of, AddsItems};
ghost use Rattle.sp_tables.specs.Runs.{run_items};

use crate::sp_rows::rows::Row;
use crate::sp_rows::runs::Run;
use sp_cells::{Cell, Column, Uid};
use std::alloc::AllocError;

/// A cell with its place: the object and the column.
pub type ListedCell = (Uid, Column, Cell);

/// Appends a cell.
#[tactic(auto, using(crate::proofs::sp_rows::ListLemmas::listing))]
fn list_cell(
    items: &mut Vec<ListedCell>,
    object: Uid,
    column: Column,
    cell: &Cell,
) -> Result<(), AllocError>
    ensures { OnOk result (AddsItems items.old.items items.new.items
        (record { object = object; column = column; value = cell.now } ∷ [])) }
{
    items.push((object, column, cell.copy()?))?;
    Ok(())
}

/// Appends the cells of a row.
pub(crate) fn list_cells(
    items: &mut Vec<ListedCell>,
    object: Uid,
    cells: &[(Column, Cell)],
) -> Result<(), AllocError>
    ensures { OnOk result
        (AddsItems items.old.items items.new.items (row_items object cells.now)) }
{
    for (column, cell) in cells {
        list_cell(items, object, *column, cell)?;
    }
    Ok(())
}

/// Appends the cells of a row, each with its column.
pub(crate) fn list_fields(
    items: &mut Vec<ListedCell>,
    object: Uid,
    fields: &[(Column, &Cell)],
) -> Result<(), AllocError>
    ensures { OnOk result (AddsItems items.old.items items.new.items
        (row_items object (map (λ p. (p.0, p.1.now)) fields.now))) }
{
    for (column, cell) in fields {
        list_cell(items, object, *column, cell)?;
    }
    Ok(())
}

/// The name of the row at a place of a run. One that is too great is refused as memory is.
fn name_at(first: Uid, place: usize) -> Result<Uid, AllocError>
    ensures { IfOk result (λ object. object ≡ uid (first.0 + place)) }
{
    match first.0.checked_add(place as u64) {
        Some(number) => Ok(Uid(number)),
        None => Err(AllocError),
    }
}

/// Appends the cells of rows whose names follow one another.
fn list_rows<R: Row>(items: &mut Vec<ListedCell>, first: Uid, rows: &[R]) -> Result<(), AllocError>
    ensures { OnOk result
        (AddsItems items.old.items items.new.items (rows_from R.held first.0 rows.now)) }
{
    for (i, row) in rows.iter().enumerate() {
        row.list(name_at(first, i)?, items)?;
    }
    Ok(())
}

/// Appends the cells of the rows of a table.
pub(crate) fn list_runs<R: Row>(
    items: &mut Vec<ListedCell>,
    runs: &[Run<R>],
) -> Result<(), AllocError>
    ensures { OnOk result (AddsItems items.old.items items.new.items
        (flat_map (run_items R.held) runs.now)) }
{
    for run in runs {
        list_rows(items, run.first, &run.rows)?;
    }
    Ok(())
}
