//! Whether a call is granted.

ghost use Rattle.std.specs.Prelude.{◌≡◌, ◌∷◌, [], map, None, Some};
ghost use Rattle.methods.specs.Grants.{denial as denial_of, first_some, denied as denied_by};
ghost use Rattle.sp_cells.specs.Names.{col};

use ace_eval::{Authorities, entry};
use audit::Why;
use sp_cells::{Column, Rows, Sp, Uid};
use tcg_calls::call_shapes::{Ask, Assignments};

/// Why a method is denied for a column, or for no column in particular; None where an ACE allows it.
pub fn denial<R: Rows>(
    rows: &R,
    sp: Sp,
    object: Uid,
    method: Uid,
    held: &Authorities,
    column: Option<Column>,
) -> Option<Why>
    ensures { result ≡ denial_of (R.profile_of rows.now) (R.look_up rows.now) sp object method
        held.now column }
{
    match entry(rows, sp, object, method, column, held) {
        Ok(_) => None,
        Err(missing) if missing.row => Some(Why::NoEntryHolds {
            sp,
            object,
            method,
            column,
            need: missing.need,
        }),
        Err(_) => Some(Why::NoAccessRow { sp, object, method }),
    }
}

/// Why the first of these columns that has no ACE is denied.
fn first_denial<R: Rows>(
    rows: &R,
    sp: Sp,
    object: Uid,
    method: Uid,
    held: &Authorities,
    assignments: &Assignments,
) -> Option<Why>
    ensures { result
        ≡ first_some (map (denial_of (R.profile_of rows.now) (R.look_up rows.now) sp object method
        held.now)
        (map (λ p. Some (col p.0)) assignments.now)) }
{
    for (column, _) in assignments.as_slice() {
        let why = denial(rows, sp, object, method, held, Some(Column(*column)));
        if why.is_some() {
            return why;
        }
    }
    None
}

/// Why a call is denied: by the first column that it sets, in its own order, that has no ACE, or, where it sets none,
/// because no ACE of the method holds. None where the call is granted.
pub fn denied<R: Rows>(
    rows: &R,
    sp: Sp,
    object: Uid,
    method: Uid,
    held: &Authorities,
    ask: &Ask,
) -> Option<Why>
    ensures { result ≡ denied_by (R.profile_of rows.now) (R.look_up rows.now) sp object method
        held.now ask.now }
{
    match ask {
        Ask::SetCells(assignments) if !assignments.is_empty() => {
            first_denial(rows, sp, object, method, held, assignments)
        }
        _ => denial(rows, sp, object, method, held, None),
    }
}
