//! The access control elements (ACEs) of which one would do, and who fulfils each.

ghost use Rattle.std.specs.Prelude.{◌≡◌, ◌++◌, filter, OnOk};
ghost use Rattle.sp_cells.specs.ColumnNames.{boolean_expr_column};
ghost use Rattle.reasons.specs.Remedies.{fulfilling_text, way_text, more_ways_text, ways_text, aces_for, elsewhere_aces, held_alone, is_beside};

use crate::remedies::called::append_object_name;
use crate::remedies::expression::append_expression;
use ace_eval::{Authorities, entry, holds};
use arrayvec::ArrayVec;
use sp_cells::{Cell, Column, Rows, Sp, Uid};
use std::alloc::{AllocError, Global};

/// The ACEs of a method of an object that name a column, or all of them where no column is named. They are what is
/// missing to somebody who holds no authority, since no expression is true of none.
pub(crate) fn aces_for<R: Rows>(
    rows: &R,
    sp: Sp,
    object: Uid,
    method: Uid,
    column: Option<Column>,
) -> ArrayVec<Uid, 4>
    ensures { result.items ≡ aces_for (R.profile_of rows.now) (R.look_up rows.now) sp object method
        column }
{
    let nobody = Authorities::new();
    match entry(rows, sp, object, method, column, &nobody) {
        Ok(_) => ArrayVec::new(),
        Err(missing) => missing.need,
    }
}

/// The ACEs of a method of an object in another session; none of ThisSP, which is another SP there.
pub(crate) fn aces_elsewhere<R: Rows>(
    rows: &R,
    sp: Sp,
    object: Uid,
    method: Uid,
) -> ArrayVec<Uid, 4>
    ensures { result.items ≡ elsewhere_aces (R.profile_of rows.now) (R.look_up rows.now) sp object
        method }
{
    if object == Uid::THIS_SP {
        return ArrayVec::new();
    }
    aces_for(rows, sp, object, method, None)
}

/// What an authority of an SP holds by itself: the class that its row names, too.
fn held_alone<R: Rows>(rows: &R, sp: Sp, authority: Uid) -> Authorities
    ensures { result ≡ held_alone (R.look_up rows.now) sp authority }
{
    let mut held = Authorities::new();
    held.insert(authority);
    if let Some(Cell::Uid(class)) = rows.cell(sp, authority, Column::CLASS) {
        held.insert(*class);
    }
    held
}

/// Whether an authority does not fulfil an ACE by itself.
fn is_beside<R: Rows>(rows: &R, sp: Sp, authority: Uid, ace: Uid) -> bool
    ensures { result ≡ is_beside (R.look_up rows.now) sp authority ace }
{
    let alone = held_alone(rows, sp, authority);
    match rows.cell(sp, ace, Column::BOOLEAN_EXPR) {
        Some(Cell::Expr(expr)) => !holds(expr, &alone),
        _ => true,
    }
}

/// Those of the ACEs that an authority does not fulfil by itself.
pub(crate) fn aces_beside<R: Rows>(
    rows: &R,
    sp: Sp,
    authority: Uid,
    aces: &ArrayVec<Uid, 4>,
) -> ArrayVec<Uid, 4>
    ensures { result.items ≡ filter (is_beside (R.look_up rows.now) sp authority) aces.now.items }
{
    let mut others = ArrayVec::new();
    for ace in aces.as_slice() {
        if is_beside(rows, sp, authority, *ace) {
            others.push(*ace);
        }
    }
    others
}

/// Appends the ACEs of which one would do, as `Admins or User1 (ACE_Locking_Range1_Set_RdLocked)`, the first of them
/// behind one text and each later one behind another; `nothing` where there are none.
pub(crate) fn append_ways<R: Rows>(
    alloc: Global,
    text: &mut Vec<u8>,
    rows: &R,
    sp: Sp,
    first: &[u8],
    later: &[u8],
    aces: &[Uid],
) -> Result<(), AllocError>
    ensures { OnOk result (text.new.items
        ≡ text.old.items ++ ways_text (R.look_up rows.now) sp first.now later.now aces.now) }
{
    match aces.split_first() {
        None => text.extend_from_slice(b"nothing")?,
        Some((ace, others)) => {
            text.extend_from_slice(first)?;
            append_way(alloc, text, rows, sp, *ace)?;
            append_more_ways(alloc, text, rows, sp, later, others)?;
        }
    }
    Ok(())
}

/// Appends ACEs, each behind this text.
fn append_more_ways<R: Rows>(
    alloc: Global,
    text: &mut Vec<u8>,
    rows: &R,
    sp: Sp,
    before: &[u8],
    aces: &[Uid],
) -> Result<(), AllocError>
    ensures { OnOk result (text.new.items
        ≡ text.old.items ++ more_ways_text (R.look_up rows.now) sp before.now aces.now) }
{
    for ace in aces {
        text.extend_from_slice(before)?;
        append_way(alloc, text, rows, sp, *ace)?;
    }
    Ok(())
}

/// Appends who fulfils an ACE, and the ACE.
fn append_way<R: Rows>(
    alloc: Global,
    text: &mut Vec<u8>,
    rows: &R,
    sp: Sp,
    ace: Uid,
) -> Result<(), AllocError>
    ensures { OnOk result (text.new.items
        ≡ text.old.items ++ way_text (R.look_up rows.now) sp ace) }
{
    append_fulfilling(alloc, text, rows, sp, ace)?;
    text.extend_from_slice(b" (")?;
    append_object_name(alloc, text, ace)?;
    text.extend_from_slice(b")")?;
    Ok(())
}

/// Appends who fulfils an ACE, as its BooleanExpr cell has it.
fn append_fulfilling<R: Rows>(
    alloc: Global,
    text: &mut Vec<u8>,
    rows: &R,
    sp: Sp,
    ace: Uid,
) -> Result<(), AllocError>
    ensures { OnOk result (text.new.items
        ≡ text.old.items ++ fulfilling_text (R.look_up rows.now sp ace boolean_expr_column)) }
{
    match rows.cell(sp, ace, Column::BOOLEAN_EXPR) {
        Some(Cell::Expr(expr)) => append_expression(alloc, text, expr)?,
        _ => text.extend_from_slice(b"nobody")?,
    }
    Ok(())
}
