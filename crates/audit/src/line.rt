//! A line of the audit log, as its bytes.

ghost use Rattle.std.specs.Prelude.{◌≡◌, ◌++◌, OnOk, IfOk, codes, decimal};
ghost use Rattle.audit.specs.AuditText.{transfer_text, lock_text, shadow_text, call_text, column_text, need_text, failure_text, attempt_text, why_text, line_text};

use crate::names::{append_method, append_uid, append_uids, sp_name};
use crate::reason::{AttemptFailure, AuditLine, Why};
use basics::append_decimal;
use sp_cells::{Column, Sp, Uid};
use std::alloc::{AllocError, Global};

/// The text of the line, without a line end, as `3 7 deny read 95+6 range 1 ReadLocked`.
///
/// # Errors
///
/// An allocation was refused.
pub fn line_bytes(alloc: Global, line: &AuditLine) -> Result<Vec<u8>, AllocError>
    ensures { IfOk result (λ text. text.items ≡ line_text line.now) }
{
    let mut text = Vec::new(alloc);
    append_decimal(alloc, &mut text, line.step)?;
    text.extend_from_slice(b" ")?;
    append_decimal(alloc, &mut text, u64::from(line.client))?;
    text.extend_from_slice(b" deny ")?;
    append_why(alloc, &mut text, &line.why)?;
    Ok(text)
}

/// Appends what a transfer does and its sectors, as `read 95+6`.
fn append_transfer(
    alloc: Global,
    text: &mut Vec<u8>,
    verb: &[u8],
    lba: u64,
    count: u32,
) -> Result<(), AllocError>
    ensures { OnOk result (text.new.items ≡ text.old.items ++ transfer_text verb.now lba count) }
{
    text.extend_from_slice(verb)?;
    text.extend_from_slice(b" ")?;
    append_decimal(alloc, text, lba)?;
    text.extend_from_slice(b"+")?;
    append_decimal(alloc, text, u64::from(count))
}

/// Appends the range that denied, and its flag, as ` range 1 ReadLocked`.
fn append_lock(alloc: Global, text: &mut Vec<u8>, range: u8, flag: &[u8]) -> Result<(), AllocError>
    ensures { OnOk result (text.new.items ≡ text.old.items ++ lock_text range flag.now) }
{
    text.extend_from_slice(b" range ")?;
    append_decimal(alloc, text, u64::from(range))?;
    text.extend_from_slice(b" ")?;
    text.extend_from_slice(flag)
}

/// Appends a transfer that the shadow MBR denied, as `read 7+2 shadow MBR`.
fn append_shadow(
    alloc: Global,
    text: &mut Vec<u8>,
    verb: &[u8],
    lba: u64,
    count: u32,
) -> Result<(), AllocError>
    ensures { OnOk result (text.new.items ≡ text.old.items ++ shadow_text verb.now lba count) }
{
    append_transfer(alloc, text, verb, lba, count)?;
    text.extend_from_slice(b" shadow MBR")
}

/// Appends what was called, as `method Admin 0000000b00000001 Get`.
fn append_call(
    alloc: Global,
    text: &mut Vec<u8>,
    sp: Sp,
    object: Uid,
    method: Uid,
) -> Result<(), AllocError>
    ensures { OnOk result (text.new.items ≡ text.old.items ++ call_text sp object method) }
{
    text.extend_from_slice(b"method ")?;
    text.extend_from_slice(sp_name(sp))?;
    text.extend_from_slice(b" ")?;
    append_uid(text, object)?;
    text.extend_from_slice(b" ")?;
    append_method(text, method)?;
    Ok(())
}

/// Appends a column's number, or `-`.
fn append_column(
    alloc: Global,
    text: &mut Vec<u8>,
    column: Option<Column>,
) -> Result<(), AllocError>
    ensures { OnOk result (text.new.items ≡ text.old.items ++ column_text column) }
{
    match column {
        None => text.extend_from_slice(b"-")?,
        Some(column) => append_decimal(alloc, text, column.0)?,
    }
    Ok(())
}

/// Appends the column that was denied, and the ACEs that would have been needed, as ` col 7 need none`.
fn append_need(
    alloc: Global,
    text: &mut Vec<u8>,
    column: Option<Column>,
    need: &[Uid],
) -> Result<(), AllocError>
    ensures { OnOk result (text.new.items ≡ text.old.items ++ need_text column need.now) }
{
    text.extend_from_slice(b" col ")?;
    append_column(alloc, text, column)?;
    text.extend_from_slice(b" need ")?;
    append_uids(text, need)
}

/// The word for the failure of an attempt.
fn failure_name(failure: AttemptFailure) -> &'static [u8]
    ensures { result.now ≡ failure_text failure }
{
    match failure {
        AttemptFailure::WrongPin => b"pin",
        AttemptFailure::LockedOut => b"locked",
        AttemptFailure::Disabled => b"disabled",
        AttemptFailure::Blocked => b"blocked",
        AttemptFailure::Unknown => b"unknown",
    }
}

/// Appends a failed attempt, as `auth Locking 0000000900010001 locked`.
fn append_attempt(
    alloc: Global,
    text: &mut Vec<u8>,
    sp: Sp,
    authority: Uid,
    failure: AttemptFailure,
) -> Result<(), AllocError>
    ensures { OnOk result (text.new.items ≡ text.old.items ++ attempt_text sp authority failure) }
{
    text.extend_from_slice(b"auth ")?;
    text.extend_from_slice(sp_name(sp))?;
    text.extend_from_slice(b" ")?;
    append_uid(text, authority)?;
    text.extend_from_slice(b" ")?;
    text.extend_from_slice(failure_name(failure))?;
    Ok(())
}

/// Appends what stands after `deny`.
fn append_why(alloc: Global, text: &mut Vec<u8>, why: &Why) -> Result<(), AllocError>
    ensures { OnOk result (text.new.items ≡ text.old.items ++ why_text why.now) }
{
    match why {
        Why::ReadLocked { lba, count, range } => {
            append_transfer(alloc, text, b"read", *lba, *count)?;
            append_lock(alloc, text, *range, b"ReadLocked")
        }
        Why::WriteLocked { lba, count, range } => {
            append_transfer(alloc, text, b"write", *lba, *count)?;
            append_lock(alloc, text, *range, b"WriteLocked")
        }
        Why::ReadShadow { lba, count } => append_shadow(alloc, text, b"read", *lba, *count),
        Why::WriteShadow { lba, count } => append_shadow(alloc, text, b"write", *lba, *count),
        Why::NoEntryHolds {
            sp,
            object,
            method,
            column,
            need,
        } => {
            append_call(alloc, text, *sp, *object, *method)?;
            append_need(alloc, text, *column, need)
        }
        Why::NoAccessRow { sp, object, method } => {
            append_call(alloc, text, *sp, *object, *method)?;
            text.extend_from_slice(b" no row")
        }
        Why::AttemptFailed {
            sp,
            authority,
            failure,
        } => append_attempt(alloc, text, *sp, *authority, *failure),
    }
}
