//! A denial, as numbers.

ghost use Rattle.std.specs.Prelude.{◌≡◌};
ghost use Rattle.library_calls.specs.Denied.{sp_number, reason_number, failure_number};

use crate::byte_calls::{CallError, DONE};
use audit::{AttemptFailure, AuditLine, Why};
use sp_cells::{Sp, Uid};

/// A denial: which act of whom was denied, and by what. What a field is of is told at it; of another denial it is 0.
#[repr(C)]
#[derive(Clone, Copy, Debug, PartialEq, Eq)]
pub struct Denied {
    /// 0, or the number of the refusal; then all else is 0.
    pub code: u32,
    /// The client; at a controller, the tag.
    pub client: u32,
    /// What denied the act, from 1 on: 0 where there is no denial, and then all else is 0.
    pub reason: u8,
    /// Of a method or an attempt to authenticate: 1 the Admin SP, 2 the Locking SP.
    pub sp: u8,
    /// Of a locked range: the range. 0 is the global one.
    pub range: u8,
    /// Of a method that no ACE lets: whether it names columns.
    pub has_column: bool,
    /// Of a transfer: how many sectors.
    pub count: u32,
    /// The number of the act; at a port, of the step.
    pub step: u64,
    /// Of a transfer: the first sector.
    pub lba: u64,
    /// Of a method: the UID of the object. Of an attempt: the UID of the authority.
    pub object: u64,
    /// Of a method: its UID.
    pub method: u64,
    /// Of a method that names columns: the first of them that is denied.
    pub column: u64,
}

/// The number of a security provider.
fn sp_number(sp: Sp) -> u8
    ensures { result ≡ sp_number sp }
{
    match sp {
        Sp::Admin => 1,
        Sp::Locking => 2,
    }
}

/// The number of a failed attempt, behind those of the other reasons.
fn failure_number(failure: AttemptFailure) -> u8
    ensures { result ≡ failure_number failure }
{
    match failure {
        AttemptFailure::WrongPin => 7,
        AttemptFailure::LockedOut => 8,
        AttemptFailure::Disabled => 9,
        AttemptFailure::Blocked => 10,
        AttemptFailure::Unknown => 11,
    }
}

/// The number of a reason.
fn reason_number(why: &Why) -> u8
    ensures { result ≡ reason_number why.now }
{
    match why {
        Why::ReadLocked { .. } => 1,
        Why::WriteLocked { .. } => 2,
        Why::ReadShadow { .. } => 3,
        Why::WriteShadow { .. } => 4,
        Why::NoEntryHolds { .. } => 5,
        Why::NoAccessRow { .. } => 6,
        Why::AttemptFailed { failure, .. } => failure_number(*failure),
    }
}

impl Denied {
    ghost use Rattle.std.specs.Prelude.{◌≡◌, option_copied};
    ghost use Rattle.library_calls.specs.Denied.{no_denial, refused_denied, denied_numbers, line_numbers, of_transfer, of_call};

    /// There is no denial.
    pub fn none() -> Denied
        ensures { result ≡ no_denial }
    {
        Denied {
            code: DONE,
            client: 0,
            reason: 0,
            sp: 0,
            range: 0,
            has_column: false,
            count: 0,
            step: 0,
            lba: 0,
            object: 0,
            method: 0,
            column: 0,
        }
    }

    /// The call was refused.
    pub fn refused(error: CallError) -> Denied
        ensures { result ≡ refused_denied error }
    {
        Denied {
            code: error.code(),
            ..Denied::none()
        }
    }

    /// Of a transfer.
    fn of_transfer(self, lba: u64, count: u32, range: u8) -> Denied
        ensures { result ≡ of_transfer self lba count range }
    {
        Denied {
            lba,
            count,
            range,
            ..self
        }
    }

    /// Of an object of a security provider.
    fn of_call(self, sp: Sp, object: Uid, method: u64) -> Denied
        ensures { result ≡ of_call self sp object method }
    {
        Denied {
            sp: sp_number(sp),
            object: object.0,
            method,
            ..self
        }
    }

    /// A denial of an act of this number, of a client.
    pub fn by(step: u64, client: u32, why: &Why) -> Denied
        ensures { result ≡ denied_numbers step client why.now }
    {
        let told = Denied {
            step,
            client,
            reason: reason_number(why),
            ..Denied::none()
        };
        match why {
            Why::ReadLocked { lba, count, range } => told.of_transfer(*lba, *count, *range),
            Why::WriteLocked { lba, count, range } => told.of_transfer(*lba, *count, *range),
            Why::ReadShadow { lba, count } => told.of_transfer(*lba, *count, 0),
            Why::WriteShadow { lba, count } => told.of_transfer(*lba, *count, 0),
            Why::NoEntryHolds {
                sp,
                object,
                method,
                column,
                ..
            } => {
                let called = told.of_call(*sp, *object, method.0);
                match column {
                    Some(column) => Denied {
                        has_column: true,
                        column: column.0,
                        ..called
                    },
                    None => called,
                }
            }
            Why::NoAccessRow { sp, object, method } => told.of_call(*sp, *object, method.0),
            Why::AttemptFailed { sp, authority, .. } => told.of_call(*sp, *authority, 0),
        }
    }

    /// A line of the audit log, if there is one.
    pub fn of(line: Option<&AuditLine>) -> Denied
        ensures { result ≡ line_numbers (option_copied line.entry) }
    {
        match line {
            Some(line) => Denied::by(line.step, line.client, &line.why),
            None => Denied::none(),
        }
    }
}
