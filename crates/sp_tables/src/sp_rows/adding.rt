//! Adding rows to the rows of a table.

ghost use Rattle.std.specs.Prelude.{◌≡◌, ◌+◌, ◌<◌, ◌≤◌, ◌^◌, [], ◌∷◌, ◌++◌, IfOk, OnOk, string_bytes, map};
ghost use Rattle.std.specs.List.{flat_map};
ghost use Rattle.sp_cells.specs.declared.cells.Element.TheVariants as elements;
ghost use Rattle.sp_tables.specs.Items.{row_items, rows_from};
ghost use Rattle.sp_tables.specs.Columns.{authority_columns, c_pin_columns, ace_columns};
ghost use Rattle.sp_tables.specs.Factory.{AddsRows, new_group, new_pin, ace_row};

use crate::sp_rows::new_rows::{ace, group, only, pin, push_row};
use crate::sp_rows::{AceRow, AuthorityRow, CPinRow, Row, Run};
use sp_cells::{Column, Uid};
use std::alloc::{AllocError, Global};

/// Adds rows whose names follow one another.
#[tactic(auto, using(crate::proofs::sp_rows::FamilyLemmas::pushing))]
pub(crate) fn push_run<R: Row + Drop>(
    runs: &mut Vec<Run<R>>,
    first: Uid,
    rows: Vec<R>,
) -> Result<(), AllocError>
    ensures { OnOk result
        (AddsRows R.held runs.old.items runs.new.items (rows_from R.held first.0 rows.items)) }
{
    push_row(runs, Run { first, rows })?;
    Ok(())
}

/// Adds one row.
#[tactic(auto, using(crate::proofs::sp_rows::FamilyLemmas::pushing))]
pub(crate) fn push_one<R: Row + Drop>(
    alloc: Global,
    runs: &mut Vec<Run<R>>,
    object: Uid,
    row: R,
) -> Result<(), AllocError>
    ensures { OnOk result
        (AddsRows R.held runs.old.items runs.new.items (row_items object (R.held row))) }
{
    let mut rows = Vec::with_capacity(alloc, 1)?;
    push_row(&mut rows, row)?;
    push_run(runs, object, rows)?;
    Ok(())
}

/// Adds Anybody, or a class.
pub(crate) fn push_group(
    alloc: Global,
    runs: &mut Vec<Run<AuthorityRow>>,
    object: Uid,
    name: &str,
    is_class: u64,
) -> Result<(), AllocError>
    ensures { OnOk result (AddsRows authority_columns runs.old.items runs.new.items
        (row_items object (new_group object name.now is_class))) }
{
    let name = String::from_str(alloc, name)?;
    push_one(alloc, runs, object, group(alloc, object, name, is_class))?;
    Ok(())
}

/// Adds a C_PIN row.
pub(crate) fn push_pin(
    alloc: Global,
    runs: &mut Vec<Run<CPinRow>>,
    object: Uid,
    name: &str,
    secret: &[u8],
    limit: u64,
) -> Result<(), AllocError>
    ensures { OnOk result (AddsRows c_pin_columns runs.old.items runs.new.items
        (row_items object (new_pin object name.now secret.now limit))) }
{
    let name = String::from_str(alloc, name)?;
    push_one(
        alloc,
        runs,
        object,
        pin(alloc, object, name, secret, limit)?,
    )?;
    Ok(())
}

/// Adds an ACE that one authority, or one class, fulfils.
pub(crate) fn push_ace(
    alloc: Global,
    runs: &mut Vec<Run<AceRow>>,
    uid: Uid,
    name: &str,
    authority: Uid,
    columns: &[Column],
) -> Result<(), AllocError>
    ensures { OnOk result (AddsRows ace_columns runs.old.items runs.new.items
        (ace_row uid name.now authority columns.now)) }
{
    let name = String::from_str(alloc, name)?;
    let expr = only(alloc, authority)?;
    push_one(alloc, runs, uid, ace(alloc, uid, name, expr, columns)?)?;
    Ok(())
}
