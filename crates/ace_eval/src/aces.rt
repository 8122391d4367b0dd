//! The ACE that allows a method.

ghost use Rattle.std.specs.Prelude.{◌≡◌, ◌≤◌, ◌<◌, ◌↔◌, ◌+◌, [], ◌∷◌, ◌++◌, length, filter, IsOk, MatchResult, Some, None, is_some, unwrap_or};
ghost use Rattle.ace_eval.specs.Aces.{has_column, names, names_in, holds_in, holds_at, naming, first_holding, acl_at, ace_of, Answers, HasAce};

use crate::access_list::access_row;
use crate::authorities::Authorities;
use crate::expressions::holds;
use arrayvec::ArrayVec;
use sp_cells::{Cell, Column, Rows, Sp, Uid};

/// Why a column has no ACE.
#[derive(Debug, Drop)]
pub struct Missing {
    /// Whether the method is offered at all.
    pub row: bool,

    /// The ACEs that name the column, in the order of the ACL; none of them holds.
    pub need: ArrayVec<Uid, 4>,
}

/// The ACE that allows a method of an object for a column, or for no column in particular: the first of the ACL
/// that names the column and whose expression holds for these authorities.
pub fn entry<R: Rows>(
    rows: &R,
    sp: Sp,
    object: Uid,
    method: Uid,
    column: Option<Column>,
    held: &Authorities,
) -> Result<Uid, Missing>
    ensures exact { Answers (R.profile_of rows.now) (R.look_up rows.now) sp object method column
        held.now result }
    ensures allowed { IsOk result ↔ HasAce (R.profile_of rows.now) (R.look_up rows.now) sp object
        method column held.now }
{
    find(rows, sp, object, method, column, held)
}

fn find<R: Rows>(
    rows: &R,
    sp: Sp,
    object: Uid,
    method: Uid,
    column: Option<Column>,
    held: &Authorities,
) -> Result<Uid, Missing>
    ensures { Answers (R.profile_of rows.now) (R.look_up rows.now) sp object method column held.now
        result }
{
    let Some(row) = access_row(rows.profile(), sp, object, method) else {
        return Err(Missing {
            row: false,
            need: ArrayVec::new(),
        });
    };
    if let Some(ace) = first(rows, sp, column, row.as_slice(), held) {
        return Ok(ace);
    }
    let need = named(rows, sp, column, &row);
    Err(Missing { row: true, need })
}

/// Those of the ACEs that name the column.
fn named<R: Rows>(
    rows: &R,
    sp: Sp,
    column: Option<Column>,
    row: &ArrayVec<Uid, 4>,
) -> ArrayVec<Uid, 4>
    ensures { result.items ≡ filter (names (R.look_up rows.now) sp column) row.now.items }
{
    let mut need = ArrayVec::new();
    for ace in row.as_slice() {
        if names_column(rows, sp, column, *ace) {
            need.push(*ace);
        }
    }
    need
}

/// Whether an ACE names the column.
fn names_column<R: Rows>(rows: &R, sp: Sp, column: Option<Column>, ace: Uid) -> bool
    ensures { result ≡ names (R.look_up rows.now) sp column ace }
{
    match column {
        None => true,
        Some(column) => match rows.cell(sp, ace, Column::COLUMNS) {
            Some(Cell::Columns(columns)) => has(columns.as_slice(), column),
            _ => false,
        },
    }
}

/// Whether these columns have this one; none stands for all.
fn has(columns: &[Column], column: Column) -> bool
    ensures { result ≡ has_column columns.now column }
{
    columns.is_empty() || columns.contains(&column)
}

/// The first of these ACEs that names the column, and whose expression holds.
fn first<R: Rows>(
    rows: &R,
    sp: Sp,
    column: Option<Column>,
    aces: &[Uid],
    held: &Authorities,
) -> Option<Uid>
    ensures { result ≡ first_holding (R.look_up rows.now) sp held.now
        (filter (names (R.look_up rows.now) sp column) aces.now) }
{
    for ace in aces {
        if names_column(rows, sp, column, *ace) && ace_holds(rows, sp, *ace, held) {
            return Some(*ace);
        }
    }
    None
}

/// Whether an ACE's expression holds.
fn ace_holds<R: Rows>(rows: &R, sp: Sp, ace: Uid, held: &Authorities) -> bool
    ensures { result ≡ holds_at (R.look_up rows.now) sp held.now ace }
{
    match rows.cell(sp, ace, Column::BOOLEAN_EXPR) {
        Some(Cell::Expr(expr)) => holds(expr, held),
        _ => false,
    }
}
