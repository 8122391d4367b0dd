//! Which values Set takes.

ghost use Rattle.std.specs.Prelude.{◌≡◌, ◌≤◌, ◌<◌, ◌+◌, ◌*◌, ◌∷◌, ◌^◌, [], map, IfOk, option_map, None, Some};
ghost use Rattle.tcg_tokens.specs.Tree.{tree};
ghost use Rattle.sp_cells.specs.Values.{type_at as type_in};
ghost use Rattle.methods.specs.Settings.{cell_for as cell_by, cells_for, cells_of_ask, bytes_of_ask, setting};
ghost use Rattle.methods.specs.Changes.{setting_seen};
ghost use Rattle.methods.specs.Kinds.{kind_of as kind_of_object};

use crate::cases::method_cases;
use crate::kinds::{Kind, byte_table_of, kind_of};
use crate::set_columns::set_types;
use sp_cells::values::ColumnType;
use sp_cells::{ByteTable, Cell, Column, Rows, Sp, Uid};
use std::alloc::{AllocError, Global};
use tcg_calls::call_shapes::{Ask, Assignments, cell_of};
use tcg_tokens::Value;
use transactions::Change;

/// The type of a column among these.
fn type_at(types: &[(Column, ColumnType)], column: Column) -> Option<ColumnType>
    ensures { result ≡ type_in types.now column }
{
    for (other, kind) in types {
        if *other == column {
            return Some(*kind);
        }
    }
    None
}

/// The cell that is assigned to a column.
fn cell_for(
    alloc: Global,
    types: &[(Column, ColumnType)],
    column: u64,
    value: &Value,
) -> Result<Option<(Column, Cell)>, AllocError>
    ensures { IfOk result (λ c. c ≡ cell_by types.now (column, tree value.now)) }
{
    let column = Column(column);
    let Some(kind) = type_at(types, column) else {
        return Ok(None);
    };
    match cell_of(alloc, kind, value)? {
        Some(cell) => Ok(Some((column, cell))),
        None => Ok(None),
    }
}

/// The cells that are assigned, where each column takes its value.
#[tactic(auto, unfolding(crate::specs::Settings::cells_for))]
fn check_cells(
    alloc: Global,
    types: &[(Column, ColumnType)],
    assignments: &Assignments,
) -> Result<Option<Vec<(Column, Cell)>>, AllocError>
    ensures { IfOk result (λ cs. option_map (λ v. v.items) cs
        ≡ cells_for types.now assignments.now) }
{
    let mut cells = Vec::new(alloc);
    for (column, value) in assignments.as_slice() {
        let Some(cell) = cell_for(alloc, types, *column, value)? else {
            return Ok(None);
        };
        cells.push(cell)?;
    }
    Ok(Some(cells))
}

/// What Set of columns sets, by the types that they take.
fn cells_to_set(
    alloc: Global,
    object: Uid,
    ask: &Ask,
    types: &[(Column, ColumnType)],
) -> Result<Option<Change>, AllocError>
    ensures { IfOk result (λ c. option_map setting_seen c ≡ cells_of_ask object types.now ask.now) }
{
    let Ask::SetCells(assignments) = ask else {
        return Ok(None);
    };
    match check_cells(alloc, types, assignments)? {
        Some(cells) => Ok(Some(Change::Cells { object, cells })),
        None => Ok(None),
    }
}

/// What Set of bytes sets, within the byte table: at the places of its rows.
fn bytes_to_set<R: Rows>(
    alloc: Global,
    rows: &R,
    sp: Sp,
    table: ByteTable,
    ask: &Ask,
) -> Result<Option<Change>, AllocError>
    ensures { IfOk result (λ c. option_map setting_seen c
        ≡ bytes_of_ask sp (R.sizes_of rows.now) table ask.now) }
{
    if sp == Sp::Admin {
        return Ok(None);
    }
    let Ask::SetBytes { at, bytes } = ask else {
        return Ok(None);
    };
    let sizes = rows.table_sizes();
    if !sizes.fits(table, *at, bytes.as_slice()) {
        return Ok(None);
    }
    let mut items = Vec::new(alloc);
    items.extend_from_slice(bytes.as_slice())?;
    Ok(Some(Change::Mbr {
        at: sizes.begin_of(table) + *at,
        bytes: items,
    }))
}

/// What the row for Set among the rows of a kind makes of a call; a kind without one sets no cell.
macro_rules! set_row {
    ($alloc:ident $rows:ident $sp:ident $object:ident $table:ident $ask:ident SetCells [] $($rest:tt)*) => {
        cells_to_set($alloc, $object, $ask, set_types($rows.profile(), kind_of($sp, $object)))
    };
    ($alloc:ident $rows:ident $sp:ident $object:ident $table:ident $ask:ident SetBytes [] $($rest:tt)*) => {
        bytes_to_set($alloc, $rows, $sp, $table, $ask)
    };
    ($alloc:ident $rows:ident $sp:ident $object:ident $table:ident $ask:ident $other:ident $columns:tt $handler:ident, $($rest:tt)*) => {
        set_row!($alloc $rows $sp $object $table $ask $($rest)*)
    };
    ($alloc:ident $rows:ident $sp:ident $object:ident $table:ident $ask:ident $other:ident $columns:tt $handler:ident) => {
        cells_to_set($alloc, $object, $ask, &[])
    };
}

macro_rules! set_arms {
    (($kind:expr, $alloc:ident, $rows:ident, $sp:ident, $object:ident, $table:ident, $ask:ident) $([$k:ident: $($row:tt)*])*) => {
        match $kind {
            $(Some(Kind::$k) => set_row!($alloc $rows $sp $object $table $ask $($row)*),)*
            None => cells_to_set($alloc, $object, $ask, &[]),
        }
    };
}

/// What a call sets; None where a value is none that its place takes.
pub fn check_set<R: Rows>(
    alloc: Global,
    rows: &R,
    sp: Sp,
    object: Uid,
    ask: &Ask,
) -> Result<Option<Change>, AllocError>
    ensures { IfOk result (λ c. option_map setting_seen c
        ≡ setting (R.profile_of rows.now) sp (R.sizes_of rows.now) object
        (kind_of_object sp object) ask.now) }
{
    let kind = kind_of(sp, object);
    let table = byte_table_of(kind);
    method_cases!(set_arms(kind, alloc, rows, sp, object, table, ask))
}
