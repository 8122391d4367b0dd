//! The exchange of cells of one object, which takes no memory.

ghost use Rattle.std.specs.Prelude.{◌≡◌, ◌≤◌, ◌<◌, ◌+◌, ◌^◌, IfOk, map, unwrap_or};
ghost use Rattle.sp_tables.specs.Items.{item_at, with_item, with_items, replaced};
ghost use Rattle.sp_tables.specs.Halves.{half_items};

use crate::sp_rows::halves::SpTables;
use sp_cells::{Cell, Column, Uid};
use std::alloc::{AllocError, Global};

/// The new cells, copied.
pub fn new_cells(alloc: Global, changes: &[(Column, Cell)]) -> Result<Vec<Cell>, AllocError>
    ensures { IfOk result (λ cells. cells.items ≡ map (λ p. p.1) changes.now) }
{
    let mut cells = Vec::with_capacity(alloc, changes.len())?;
    for (_, cell) in changes {
        cells.push(cell.copy()?)?;
    }
    Ok(cells)
}

/// Exchanges these cells of the object, one after another: the vector then has the old ones.
pub fn exchange_all(
    half: &mut SpTables,
    object: Uid,
    changes: &[(Column, Cell)],
    cells: &mut Vec<Cell>,
)
    requires { cells.old.items ≡ map (λ p. p.1) changes.now }
    ensures changed { half_items half.new ≡ with_items (half_items half.old) object changes.now }
    ensures old { cells.new.items ≡ replaced (half_items half.old) object changes.now }
{
    for i in 0..changes.len() {
        exchange_one(half, object, &changes[i], &mut cells[i]);
    }
}

fn exchange_one(half: &mut SpTables, object: Uid, change: &(Column, Cell), cell: &mut Cell)
    requires { cell.old ≡ change.now.1 }
    ensures changed { half_items half.new
        ≡ with_item (half_items half.old) object change.now.0 change.now.1 }
    ensures old { cell.new
        ≡ unwrap_or (item_at (half_items half.old) object change.now.0) change.now.1 }
{
    half.swap(object, change.0, cell);
}
