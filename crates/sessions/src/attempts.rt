//! What comes of an attempt to authenticate.

ghost use Rattle.std.specs.Prelude.{◌≡◌, ◌<◌, ◌==◌, ◌≤◌, None, Some, option_copied};
ghost use Rattle.sessions.specs.Known.{is_known as is_known_to};
ghost use Rattle.sessions.specs.Attempts.{object_named as uid_in_cell, is_there as is_there_by, credential as credential_of, is_pin as is_pin_of, is_used_up as is_used_up_by, pin_failure as pin_failure_of, attempt_failure as failure_of};
ghost use Rattle.sp_cells.specs.ColumnNames.{pin_column};

use audit::AttemptFailure;
use sp_cells::{Cell, Column, Rows, Sp, Uid, is_locking_authority, number_at};
use trusted_cmds::SidBlock;

/// Whether an authority, or a class, is one of the SP.
pub(crate) fn is_known(sp: Sp, authority: Uid) -> bool
    ensures { result ≡ is_known_to sp authority }
{
    match sp {
        Sp::Admin => matches!(
            authority,
            Uid::ANYBODY | Uid::SID | Uid::PSID | Uid::ADMINS | Uid::MAKERS | Uid::ADMIN_SP_ADMIN
        ),
        Sp::Locking => is_locking_authority(authority),
    }
}

/// Whether the SP has this authority: it is one of its, and has a row.
fn is_there<R: Rows>(rows: &R, sp: Sp, authority: Uid) -> bool
    ensures { result ≡ is_there_by (R.look_up rows.now) sp authority }
{
    is_known(sp, authority) && rows.cell(sp, authority, Column::UID).is_some()
}

/// The object that a cell names; none where it names none.
pub(crate) fn uid_at<R: Rows>(rows: &R, sp: Sp, object: Uid, column: Column) -> Uid
    ensures { result ≡ uid_in_cell (R.look_up rows.now sp object column) }
{
    match rows.cell(sp, object, column) {
        Some(Cell::Uid(uid)) => *uid,
        _ => Uid::NONE,
    }
}

/// The PIN row of an authority.
pub(crate) fn credential<R: Rows>(rows: &R, sp: Sp, authority: Uid) -> Uid
    ensures { result ≡ credential_of (R.look_up rows.now) sp authority }
{
    uid_at(rows, sp, authority, Column::CREDENTIAL)
}

/// Whether the bytes are the PIN of a row.
fn is_pin<R: Rows>(rows: &R, sp: Sp, pin: Uid, proof: &[u8]) -> bool
    ensures { result ≡ is_pin_of proof.now (R.look_up rows.now sp pin pin_column) }
{
    match rows.cell(sp, pin, Column::PIN) {
        Some(Cell::Bytes(bytes)) => bytes.as_slice() == proof,
        _ => false,
    }
}

/// Whether the wrong attempts on a PIN row have reached its limit.
fn is_used_up(limit: u64, tries: u64) -> bool
    ensures { result ≡ is_used_up_by limit tries }
{
    limit != 0 && limit <= tries
}

/// How a PIN fails on a row; None where it is the row's.
fn pin_failure<R: Rows>(rows: &R, sp: Sp, pin: Uid, proof: &[u8]) -> Option<AttemptFailure>
    ensures { result ≡ pin_failure_of (R.look_up rows.now) sp pin proof.now }
{
    let limit = number_at(rows, sp, pin, Column::TRY_LIMIT);
    let tries = number_at(rows, sp, pin, Column::TRIES);
    if is_used_up(limit, tries) {
        Some(AttemptFailure::LockedOut)
    } else if is_pin(rows, sp, pin, proof) {
        None
    } else {
        Some(AttemptFailure::WrongPin)
    }
}

/// How an attempt on an authority fails by these rows; None where it is right. Anybody needs no PIN. While SID is
/// blocked its PIN is not looked at.
pub(crate) fn failure<R: Rows>(
    block: SidBlock,
    rows: &R,
    sp: Sp,
    authority: Uid,
    proof: &[u8],
) -> Option<AttemptFailure>
    ensures { result ≡ failure_of block (R.look_up rows.now) sp authority proof.now }
{
    if !is_there(rows, sp, authority) || number_at(rows, sp, authority, Column::IS_CLASS) == 1 {
        return Some(AttemptFailure::Unknown);
    }
    if number_at(rows, sp, authority, Column::ENABLED) != 1 {
        return Some(AttemptFailure::Disabled);
    }
    if block.is_blocked() && authority == Uid::SID {
        return Some(AttemptFailure::Blocked);
    }
    if authority == Uid::ANYBODY {
        return None;
    }
    pin_failure(rows, sp, credential(rows, sp, authority), proof)
}
