//! What Next tells of the rows of a table, and GetACL of the access list.

ghost use Rattle.std.specs.Prelude.{◌≡◌, ◌∷◌, [], map, take, length, IfOk, IfErr, option_map};
ghost use Rattle.tcg_tokens.specs.Tree.{tree};
ghost use Rattle.tcg_calls.specs.CellValues.{uid_tree};
ghost use Rattle.ace_eval.specs.Aces.{acl_at};
ghost use Rattle.sp_cells.specs.Names.{table_of};
ghost use Rattle.sp_tables.specs.RowNames.{rows_of_table};
ghost use Rattle.methods.specs.Tables.{rows_past, rows_from_next, first_rows, rows_asked, uids_tree};
ghost use Rattle.methods.specs.Judgement.{names_given, rows_told, acl_told};
ghost use Rattle.methods.specs.Calls.{Tells};
ghost use Rattle.methods.specs.declared.outcome.MethodFault.TheVariants as faults;

use crate::outcome::{MethodFault, Outcome, fitting, refused};
use ace_eval::access_list::access_row;
use audit::rules::Rule;
use basics::Profile;
use sp_cells::{Cell, Sp, Uid};
use sp_tables::rows_of;
use std::alloc::{AllocError, Global};
use tcg_calls::call_shapes::{list_value, status, value_of};
use tcg_tokens::Value;

/// The names of objects as values.
fn uid_values(alloc: Global, names: &[Uid]) -> Result<Vec<Value>, AllocError>
    ensures { IfOk result (λ vs. map tree vs.items ≡ map uid_tree names.now) }
{
    let mut values = Vec::new(alloc);
    for name in names {
        values.push(value_of(alloc, &Cell::Uid(*name))?)?;
    }
    Ok(values)
}

/// The names of objects, in one list, as results.
fn names_outcome(alloc: Global, room: u64, names: &[Uid]) -> Result<Outcome, AllocError>
    ensures { IfOk result (Tells (names_given room names.now)) }
{
    let values = uid_values(alloc, names)?;
    let mut results = Vec::with_capacity(alloc, 1)?;
    results.push(list_value(values))?;
    Ok(fitting(alloc, room, results))
}

/// The rows behind one of them, where it is one.
fn behind(rows: &[Uid], row: Uid) -> Option<&[Uid]>
    ensures { option_map (λ s. s.now) result ≡ rows_past row rows.now }
{
    let mut rest = rows;
    while let [first, tail @ ..] = rest {
        if *first == row {
            return Some(tail);
        }
        rest = tail;
    }
    None
}

/// The rows behind one of them, or all.
fn after_row(rows: &[Uid], after: Option<Uid>) -> Option<&[Uid]>
    ensures { option_map (λ s. s.now) result ≡ rows_from_next after rows.now }
{
    match after {
        Some(row) => behind(rows, row),
        None => Some(rows),
    }
}

/// At most so many of the rows.
fn at_most(rows: &[Uid], count: Option<u64>) -> &[Uid]
    ensures { result.now ≡ first_rows count rows.now }
{
    match count {
        Some(count) if count < rows.len() as u64 => &rows[..count as usize],
        _ => rows,
    }
}

/// The rows that are told, or that there is no such row.
fn rows_outcome(
    alloc: Global,
    room: u64,
    rows: &[Uid],
    after: Option<Uid>,
    count: Option<u64>,
) -> Result<Outcome, AllocError>
    ensures { IfOk result (Tells (rows_told room (rows_asked after count rows.now))) }
{
    match after_row(rows, after) {
        Some(rows) => names_outcome(alloc, room, at_most(rows, count)),
        None => Ok(refused(alloc, status::INVALID_PARAMETER, Rule::NoSuchRow)),
    }
}

/// Next: the names of the rows of a table.
pub(crate) fn next(
    alloc: Global,
    room: u64,
    sp: Sp,
    table: Uid,
    after: Option<Uid>,
    count: Option<u64>,
) -> Result<Outcome, MethodFault>
    ensures tells { IfOk result
        (Tells (rows_told room (rows_asked after count (rows_of_table sp (table_of table))))) }
    ensures memory { IfErr result (λ e. e ≡ faults.OutOfMemory) }
{
    let rows = rows_of(alloc, sp, table.table())?;
    let outcome = rows_outcome(alloc, room, &rows, after, count)?;
    Ok(outcome)
}

/// GetACL: the ACEs that may allow a method of an object.
pub(crate) fn get_acl(
    alloc: Global,
    room: u64,
    profile: Profile,
    sp: Sp,
    object: Uid,
    method: Uid,
) -> Result<Outcome, MethodFault>
    ensures tells { IfOk result (Tells (acl_told room (acl_at profile sp object method))) }
    ensures memory { IfErr result (λ e. e ≡ faults.OutOfMemory) }
{
    match access_row(profile, sp, object, method) {
        Some(acl) => {
            let outcome = names_outcome(alloc, room, acl.as_slice())?;
            Ok(outcome)
        }
        None => Ok(refused(alloc, status::INVALID_PARAMETER, Rule::NoAccessLine)),
    }
}
