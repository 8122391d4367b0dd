//! What lifts a denial in a session, which may have a transaction open.

ghost use Rattle.std.specs.Prelude.{◌≡◌, ◌++◌, IfOk, OnOk, option_copied};
ghost use Rattle.sessions.specs.Attempts.{credential};
ghost use Rattle.audit.specs.declared.reason.AttemptFailure.TheVariants.{Disabled, WrongPin};
ghost use Rattle.reasons.specs.Remedies.{remedy_text};
ghost use Rattle.reasons.specs.Within.{asker_with, is_enabled_in, pin_in, is_same_pin, commit_words, enabled_text, pins_text, disabled_within, wrong_within, attempt_within, remedy_within};

use crate::explained::{append_number, append_set_cell};
use crate::remedies::called::append_object_name;
use crate::remedies::remedy::remedy_bytes;
use audit::{AttemptFailure, Why};
use sp_cells::{Cell, Column, Rows, Sp, Uid, number_at};
use std::alloc::{AllocError, Global};

/// Whether an authority is enabled, by these rows.
fn is_enabled<R: Rows>(rows: &R, sp: Sp, authority: Uid) -> bool
    ensures { result ≡ is_enabled_in (R.look_up rows.now) sp authority }
{
    number_at(rows, sp, authority, Column::ENABLED) == 1
}

/// The C_PIN row of an authority.
fn credential<R: Rows>(rows: &R, sp: Sp, authority: Uid) -> Uid
    ensures { result ≡ credential (R.look_up rows.now) sp authority }
{
    match rows.cell(sp, authority, Column::CREDENTIAL) {
        Some(Cell::Uid(row)) => *row,
        _ => Uid::NONE,
    }
}

/// The PIN of an authority.
fn pin_of<R: Rows>(rows: &R, sp: Sp, authority: Uid) -> Option<&Cell>
    ensures { option_copied result ≡ pin_in (R.look_up rows.now) sp authority }
{
    rows.cell(sp, credential(rows, sp, authority), Column::PIN)
}

/// Whether two PINs are the same.
fn is_same_pin(pin: Option<&Cell>, other: Option<&Cell>) -> bool
    ensures { result ≡ is_same_pin (option_copied pin.entry) (option_copied other.entry) }
{
    match (pin, other) {
        (Some(Cell::Bytes(pin)), Some(Cell::Bytes(other))) => pin.as_slice() == other.as_slice(),
        _ => true,
    }
}

/// Appends the commit of a session.
fn append_commit(alloc: Global, text: &mut Vec<u8>, session: u32) -> Result<(), AllocError>
    ensures { OnOk result (text.new.items ≡ text.old.items ++ commit_words session) }
{
    append_number(alloc, text, b"the commit of session ", u64::from(session))
}

/// That the commit of a session enables an authority.
fn enabled_bytes(alloc: Global, session: u32, authority: Uid) -> Result<Vec<u8>, AllocError>
    ensures { IfOk result (λ text. text.items ≡ enabled_text session authority) }
{
    let mut text = Vec::new(alloc);
    text.extend_from_slice(b"lifted by: ")?;
    append_commit(alloc, &mut text, session)?;
    text.extend_from_slice(b", which set ")?;
    append_set_cell(alloc, &mut text, authority, Column::ENABLED)?;
    Ok(text)
}

/// That an authority has another PIN behind the commit of a session.
fn pins_bytes(alloc: Global, session: u32, authority: Uid) -> Result<Vec<u8>, AllocError>
    ensures { IfOk result (λ text. text.items ≡ pins_text session authority) }
{
    let mut text = Vec::new(alloc);
    text.extend_from_slice(b"lifted by: the PIN of ")?;
    append_object_name(alloc, &mut text, authority)?;
    text.extend_from_slice(b" in force, or behind ")?;
    append_commit(alloc, &mut text, session)?;
    text.extend_from_slice(b" the one that it set")?;
    Ok(text)
}

/// What lifts that an authority is not enabled, by the rows that a session sees.
fn disabled_within<S: Rows>(
    alloc: Global,
    seen: &S,
    session: u32,
    sp: Sp,
    authority: Uid,
) -> Result<Vec<u8>, AllocError>
    ensures { IfOk result (λ text. text.items
        ≡ disabled_within (asker_with (S.profile_of seen.now) session (S.look_up seen.now)) sp
        authority) }
{
    if is_enabled(seen, sp, authority) {
        return enabled_bytes(alloc, session, authority);
    }
    let failure = AttemptFailure::Disabled;
    remedy_bytes(
        alloc,
        seen,
        &Why::AttemptFailed {
            sp,
            authority,
            failure,
        },
    )
}

/// What lifts that a PIN is wrong, by the rows in force and by those that a session sees.
fn wrong_within<R: Rows, S: Rows>(
    alloc: Global,
    rows: &R,
    seen: &S,
    session: u32,
    sp: Sp,
    authority: Uid,
) -> Result<Vec<u8>, AllocError>
    ensures { IfOk result (λ text. text.items
        ≡ wrong_within (R.profile_of rows.now) (R.look_up rows.now)
        (asker_with (S.profile_of seen.now) session (S.look_up seen.now)) sp authority) }
{
    if !is_same_pin(pin_of(rows, sp, authority), pin_of(seen, sp, authority)) {
        return pins_bytes(alloc, session, authority);
    }
    let failure = AttemptFailure::WrongPin;
    remedy_bytes(
        alloc,
        rows,
        &Why::AttemptFailed {
            sp,
            authority,
            failure,
        },
    )
}

/// What lifts the failure of an attempt in a session.
fn attempt_within<R: Rows, S: Rows>(
    alloc: Global,
    rows: &R,
    seen: &S,
    session: u32,
    sp: Sp,
    authority: Uid,
    failure: AttemptFailure,
) -> Result<Vec<u8>, AllocError>
    ensures { IfOk result (λ text. text.items
        ≡ attempt_within (R.profile_of rows.now) (R.look_up rows.now)
        (asker_with (S.profile_of seen.now) session (S.look_up seen.now)) sp authority
        failure) }
{
    match failure {
        AttemptFailure::WrongPin => wrong_within(alloc, rows, seen, session, sp, authority),
        AttemptFailure::Disabled => disabled_within(alloc, seen, session, sp, authority),
        AttemptFailure::LockedOut | AttemptFailure::Blocked | AttemptFailure::Unknown => {
            let why = Why::AttemptFailed {
                sp,
                authority,
                failure,
            };
            remedy_bytes(alloc, rows, &why)
        }
    }
}

/// What lifts a denial, by the rows in force and by those that the session sees in which it was denied, as one line without a
/// line end: the ACEs of a method are told by what the session sees, and of an attempt what the session has set and not
/// committed.
///
/// # Errors
///
/// An allocation was refused.
pub fn remedy_within<R: Rows, S: Rows>(
    alloc: Global,
    rows: &R,
    seen: &S,
    session: u32,
    why: &Why,
) -> Result<Vec<u8>, AllocError>
    ensures { IfOk result (λ text. text.items
        ≡ remedy_within (R.profile_of rows.now) (R.look_up rows.now)
        (asker_with (S.profile_of seen.now) session (S.look_up seen.now)) why.now) }
{
    match why {
        Why::NoEntryHolds { .. } => remedy_bytes(alloc, seen, why),
        Why::AttemptFailed {
            sp,
            authority,
            failure,
        } => attempt_within(alloc, rows, seen, session, *sp, *authority, *failure),
        _ => remedy_bytes(alloc, rows, why),
    }
}
