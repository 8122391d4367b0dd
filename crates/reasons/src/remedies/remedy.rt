//! What lifts a denial, as its bytes.

ghost use Rattle.std.specs.Prelude.{◌≡◌, ◌++◌, OnOk, IfOk};
ghost use Rattle.reasons.specs.Remedies.{set_words, set_text, sp_object, revert_words, reverted_text, revert_text, unlocking_text, unshadowing_text, locked_out_text, attempt_remedy, secret_text, unread_text, other_sp, elsewhere_words, elsewhere_text, lifting_text, remedy_text};

use crate::remedies::called::{append_column_name, append_object_name};
use crate::remedies::ways::{aces_beside, aces_elsewhere, aces_for, append_ways};
use audit::{AttemptFailure, Why};
use basics::append_decimal;
use sp_cells::names::tables;
use sp_cells::{Column, Rows, Sp, Uid};
use std::alloc::{AllocError, Global};

/// What lifts a denial, by the rows in force, as one line without a line end:
/// `lifted by: Set of Locking_Range1 ReadLocked = 0 by Admins or User1 (ACE_Locking_Range1_Set_RdLocked)`.
///
/// # Errors
///
/// An allocation was refused.
pub fn remedy_bytes<R: Rows>(alloc: Global, rows: &R, why: &Why) -> Result<Vec<u8>, AllocError>
    ensures { IfOk result (λ text. text.items
        ≡ remedy_text (R.profile_of rows.now) (R.look_up rows.now) why.now) }
{
    let mut text = Vec::new(alloc);
    text.extend_from_slice(b"lifted by: ")?;
    append_lifting(alloc, &mut text, rows, why)?;
    Ok(text)
}

/// Appends what stands behind `lifted by: `.
fn append_lifting<R: Rows>(
    alloc: Global,
    text: &mut Vec<u8>,
    rows: &R,
    why: &Why,
) -> Result<(), AllocError>
    ensures { OnOk result (text.new.items ≡ text.old.items
        ++ lifting_text (R.profile_of rows.now) (R.look_up rows.now) why.now) }
{
    match why {
        Why::ReadLocked { range, .. } => {
            append_unlocking(alloc, text, rows, *range, Column::READ_LOCKED)
        }
        Why::WriteLocked { range, .. } => {
            append_unlocking(alloc, text, rows, *range, Column::WRITE_LOCKED)
        }
        Why::ReadShadow { .. } | Why::WriteShadow { .. } => append_unshadowing(alloc, text, rows),
        Why::NoEntryHolds {
            sp,
            object,
            method,
            need,
            ..
        } => {
            append_ways(alloc, text, rows, *sp, b"", b", or ", need.as_slice())?;
            append_unread(text, rows, *sp, *object, *method)
        }
        Why::NoAccessRow { sp, object, method } => {
            append_elsewhere(alloc, text, rows, *object, *method, other_sp(*sp))
        }
        Why::AttemptFailed {
            sp,
            authority,
            failure,
        } => append_attempt_remedy(alloc, text, rows, *sp, *authority, *failure),
    }
}

/// Appends who may lift a lock of a range; range 0 is the global one.
fn append_unlocking<R: Rows>(
    alloc: Global,
    text: &mut Vec<u8>,
    rows: &R,
    range: u8,
    flag: Column,
) -> Result<(), AllocError>
    ensures { OnOk result (text.new.items ≡ text.old.items
        ++ unlocking_text (R.profile_of rows.now) (R.look_up rows.now) range flag) }
{
    append_set(alloc, text, rows, Sp::Locking, Uid::range(range), flag, 0)
}

/// Appends who may lift the shadow MBR.
fn append_unshadowing<R: Rows>(
    alloc: Global,
    text: &mut Vec<u8>,
    rows: &R,
) -> Result<(), AllocError>
    ensures { OnOk result (text.new.items ≡ text.old.items
        ++ unshadowing_text (R.profile_of rows.now) (R.look_up rows.now)) }
{
    append_set(
        alloc,
        text,
        rows,
        Sp::Locking,
        Uid::MBR_CONTROL,
        Column::MBR_DONE,
        1,
    )
}

/// Appends that nobody reads the PIN, where none of these may.
fn append_secret(text: &mut Vec<u8>, readers: &[Uid]) -> Result<(), AllocError>
    ensures { OnOk result (text.new.items ≡ text.old.items ++ secret_text readers.now) }
{
    match readers.split_first() {
        None => text.extend_from_slice(b", but for PIN, which nobody reads")?,
        Some(_) => {}
    }
    Ok(())
}

/// Appends that nobody reads the PIN, where a method is the Get of its row, and no ACE of it names the column.
fn append_unread<R: Rows>(
    text: &mut Vec<u8>,
    rows: &R,
    sp: Sp,
    object: Uid,
    method: Uid,
) -> Result<(), AllocError>
    ensures { OnOk result (text.new.items ≡ text.old.items
        ++ unread_text (R.profile_of rows.now) (R.look_up rows.now) sp object method) }
{
    if object.table() == tables::C_PIN && method == Uid::GET {
        let readers = aces_for(rows, sp, object, method, Some(Column::PIN));
        append_secret(text, readers.as_slice())?;
    }
    Ok(())
}

/// The other SP.
fn other_sp(sp: Sp) -> Sp
    ensures { result ≡ other_sp sp }
{
    match sp {
        Sp::Admin => Sp::Locking,
        Sp::Locking => Sp::Admin,
    }
}

/// What stands before who may call a method in a session on an SP.
fn elsewhere_words(alloc: Global, sp: Sp) -> Result<Vec<u8>, AllocError>
    ensures { IfOk result (λ words. words.items ≡ elsewhere_words sp) }
{
    let mut words = Vec::new(alloc);
    words.extend_from_slice(b"the same in a session on ")?;
    append_object_name(alloc, &mut words, sp_object(sp))?;
    words.extend_from_slice(b" by ")?;
    Ok(words)
}

/// Appends who may call a method in a session on an SP, as
/// `the same in a session on AdminSP by SID (ACE_SP_SID)`; `nothing` where nobody may.
fn append_elsewhere<R: Rows>(
    alloc: Global,
    text: &mut Vec<u8>,
    rows: &R,
    object: Uid,
    method: Uid,
    sp: Sp,
) -> Result<(), AllocError>
    ensures { OnOk result (text.new.items ≡ text.old.items
        ++ elsewhere_text (R.profile_of rows.now) (R.look_up rows.now) sp object method) }
{
    let words = elsewhere_words(alloc, sp)?;
    let aces = aces_elsewhere(rows, sp, object, method);
    append_ways(alloc, text, rows, sp, &words, b", or by ", aces.as_slice())
}

/// Appends what gives an authority its tries back.
fn append_locked_out<R: Rows>(
    alloc: Global,
    text: &mut Vec<u8>,
    rows: &R,
    authority: Uid,
    sp: Sp,
) -> Result<(), AllocError>
    ensures { OnOk result (text.new.items ≡ text.old.items
        ++ locked_out_text (R.profile_of rows.now) (R.look_up rows.now) sp authority) }
{
    text.extend_from_slice(b"a power cycle")?;
    append_revert(alloc, text, rows, sp, authority)?;
    Ok(())
}

/// Appends what makes an attempt to authenticate succeed, or possible again.
fn append_attempt_remedy<R: Rows>(
    alloc: Global,
    text: &mut Vec<u8>,
    rows: &R,
    sp: Sp,
    authority: Uid,
    failure: AttemptFailure,
) -> Result<(), AllocError>
    ensures { OnOk result (text.new.items ≡ text.old.items
        ++ attempt_remedy (R.profile_of rows.now) (R.look_up rows.now) sp authority failure) }
{
    match failure {
        AttemptFailure::WrongPin => {
            text.extend_from_slice(b"the PIN of ")?;
            append_object_name(alloc, text, authority)
        }
        AttemptFailure::LockedOut => append_locked_out(alloc, text, rows, authority, sp),
        AttemptFailure::Disabled => {
            append_set(alloc, text, rows, sp, authority, Column::ENABLED, 1)
        }
        AttemptFailure::Blocked => text.extend_from_slice(b"a power cycle"),
        AttemptFailure::Unknown => text.extend_from_slice(b"nothing"),
    }
}

/// Appends a Set that puts a number into a cell, and who may do it, as
/// `Set of MBRControl Done = 1 by Admins (ACE_MBRControl_Admins_Set)`.
pub(crate) fn append_set<R: Rows>(
    alloc: Global,
    text: &mut Vec<u8>,
    rows: &R,
    sp: Sp,
    object: Uid,
    column: Column,
    number: u64,
) -> Result<(), AllocError>
    ensures { OnOk result (text.new.items ≡ text.old.items
        ++ set_text (R.profile_of rows.now) (R.look_up rows.now) sp object column number) }
{
    let words = set_words(alloc, object, column, number)?;
    let aces = aces_for(rows, sp, object, Uid::SET, Some(column));
    append_ways(alloc, text, rows, sp, &words, b", or by ", aces.as_slice())
}

/// What stands before who may set a cell.
fn set_words(alloc: Global, object: Uid, column: Column, number: u64) -> Result<Vec<u8>, AllocError>
    ensures { IfOk result (λ words. words.items ≡ set_words object column number) }
{
    let mut words = Vec::new(alloc);
    words.extend_from_slice(b"Set of ")?;
    append_object_name(alloc, &mut words, object)?;
    words.extend_from_slice(b" ")?;
    append_column_name(alloc, &mut words, object, column)?;
    words.extend_from_slice(b" = ")?;
    append_decimal(alloc, &mut words, number)?;
    words.extend_from_slice(b" by ")?;
    Ok(words)
}

/// Appends behind these words the ACEs of the Admin SP of which one would do; nothing where there are none.
fn append_reverted<R: Rows>(
    alloc: Global,
    text: &mut Vec<u8>,
    rows: &R,
    words: &[u8],
    aces: &[Uid],
) -> Result<(), AllocError>
    ensures { OnOk result (text.new.items ≡ text.old.items
        ++ reverted_text (R.look_up rows.now) words.now aces.now) }
{
    match aces.split_first() {
        None => {}
        Some(_) => {
            text.extend_from_slice(b", or ")?;
            append_ways(alloc, text, rows, Sp::Admin, words, b", or by ", aces)?;
        }
    }
    Ok(())
}

/// Appends a Revert of an SP, and who but the authority may do it, as `, or Revert of LockingSP by SID (ACE_SP_SID)`.
fn append_revert<R: Rows>(
    alloc: Global,
    text: &mut Vec<u8>,
    rows: &R,
    sp: Sp,
    authority: Uid,
) -> Result<(), AllocError>
    ensures { OnOk result (text.new.items ≡ text.old.items
        ++ revert_text (R.profile_of rows.now) (R.look_up rows.now) sp authority) }
{
    let object = sp_object(sp);
    let words = revert_words(alloc, object)?;
    let aces = aces_for(rows, Sp::Admin, object, Uid::REVERT, None);
    let aces = aces_beside(rows, Sp::Admin, authority, &aces);
    append_reverted(alloc, text, rows, &words, aces.as_slice())
}

/// The row of an SP in the SP table.
pub fn sp_object(sp: Sp) -> Uid
    ensures { result ≡ sp_object sp }
{
    match sp {
        Sp::Admin => Uid::ADMIN_SP,
        Sp::Locking => Uid::LOCKING_SP,
    }
}

/// What stands before who may revert an SP.
fn revert_words(alloc: Global, object: Uid) -> Result<Vec<u8>, AllocError>
    ensures { IfOk result (λ words. words.items ≡ revert_words object) }
{
    let mut words = Vec::new(alloc);
    words.extend_from_slice(b"Revert of ")?;
    append_object_name(alloc, &mut words, object)?;
    words.extend_from_slice(b" by ")?;
    Ok(words)
}
