//! What Get lists.

ghost use Rattle.std.specs.Prelude.{◌≡◌, ◌≤◌, ◌/◌, ◌<◌, ◌==◌, ◌&&◌, ◌++◌, ◌∷◌, [], List, map, filter, nat_le, is_some, IfOk, OnOk, None, Some, option_copied};
ghost use Rattle.std.specs.List.{flat_map};
ghost use Rattle.tcg_tokens.specs.Tree.{tree, number, named};
ghost use Rattle.tcg_calls.specs.CellValues.{cell_tree};
ghost use Rattle.methods.specs.Columns.{columns_in};
ghost use Rattle.methods.specs.Listed.{is_listed as is_listed_by, shown_column, listed_among, listed, cell_value};

use crate::cases::method_cases;
use crate::grants::denial;
use crate::kinds::{Kind, kind_of};
use ace_eval::{Authorities, entry};
use sp_cells::values::ColumnType;
use sp_cells::{Cell, Column, Rows, Sp, Uid};
use std::alloc::{AllocError, Global};
use tcg_calls::call_shapes::{named_value, value_of};
use tcg_tokens::Value;

/// The columns of the row for Get among the rows of a kind, with the types of their values.
macro_rules! get_columns {
    (GetCells [$($column:ident $kind:ident),*] $($rest:tt)*) => { &[$((Column::$column, ColumnType::$kind)),*] };
    ($other:ident $columns:tt $handler:ident, $($rest:tt)*) => { get_columns!($($rest)*) };
    ($other:ident $columns:tt $handler:ident) => { &[] };
}

macro_rules! call_with {
    ($handler:ident ($($env:expr),*) $columns:expr) => { $handler($($env,)* $columns) };
}

macro_rules! column_arms {
    (($kind:expr, $handler:ident $env:tt) $([$k:ident: $($row:tt)*])*) => {
        match $kind {
            $(Some(Kind::$k) => call_with!($handler $env get_columns!($($row)*)),)*
            None => call_with!($handler $env &[]),
        }
    };
}

/// Whether a column is asked for and has an ACE.
fn is_listed<R: Rows>(
    rows: &R,
    sp: Sp,
    object: Uid,
    first: u64,
    last: u64,
    held: &Authorities,
    column: Column,
) -> bool
    ensures { result ≡ is_listed_by (R.profile_of rows.now) (R.look_up rows.now) sp object first
        last held.now column }
{
    first <= column.0
        && column.0 <= last
        && entry(rows, sp, object, Uid::GET, Some(column), held).is_ok()
}

/// Adds a column with its value, where there is one.
fn show<R: Rows>(
    alloc: Global,
    rows: &R,
    sp: Sp,
    object: Uid,
    column: Column,
    values: &mut Vec<Value>,
) -> Result<(), AllocError>
    ensures { OnOk result (map tree values.new.items
        ≡ map tree values.old.items
        ++ map cell_value (shown_column column (R.look_up rows.now sp object column))) }
{
    if let Some(cell) = rows.cell(sp, object, column) {
        let value = value_of(alloc, cell)?;
        let value = named_value(alloc, Value::Number(column.0), value)?;
        values.push(value)?;
    }
    Ok(())
}

/// Those of these columns that are asked for, exist and have an ACE, each with its value.
#[tactic(auto, unfolding(crate::specs::Listed::listed_among))]
fn list_each<R: Rows>(
    alloc: Global,
    rows: &R,
    sp: Sp,
    object: Uid,
    first: u64,
    last: u64,
    held: &Authorities,
    columns: &[(Column, ColumnType)],
) -> Result<Vec<Value>, AllocError>
    ensures { IfOk result (λ vs. map tree vs.items
        ≡ map cell_value (listed_among (R.profile_of rows.now) (R.look_up rows.now) sp object first
        last held.now
        (columns_in columns.now))) }
{
    let mut values = Vec::new(alloc);
    for (column, _) in columns {
        if is_listed(rows, sp, object, first, last, held, *column) {
            show(alloc, rows, sp, object, *column, &mut values)?;
        }
    }
    Ok(values)
}

/// What Get lists: the columns from `first` to `last` that the object has and that have an ACE, rising, each with its
/// value. A column has an ACE where one of Get's names it and holds for these authorities.
///
/// # Errors
///
/// A growth was refused.
pub fn list_columns<R: Rows>(
    alloc: Global,
    rows: &R,
    sp: Sp,
    object: Uid,
    first: u64,
    last: u64,
    held: &Authorities,
) -> Result<Vec<Value>, AllocError>
    ensures { IfOk result (λ vs. map tree vs.items
        ≡ map cell_value (listed (R.profile_of rows.now) (R.look_up rows.now) sp object first last
        held.now)) }
{
    method_cases!(column_arms(
        kind_of(sp, object),
        list_each(alloc, rows, sp, object, first, last, held)
    ))
}
