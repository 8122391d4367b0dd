//! A line of the audit log once more.

ghost use Rattle.std.specs.Prelude.{◌≡◌, IfOk};

use audit::{AuditLine, Why};
use std::alloc::AllocError;

/// The same reason once more.
fn copy_why(why: &Why) -> Result<Why, AllocError>
    ensures { IfOk result (λ copied. copied ≡ why.now) }
{
    Ok(match *why {
        Why::ReadLocked { lba, count, range } => Why::ReadLocked { lba, count, range },
        Why::WriteLocked { lba, count, range } => Why::WriteLocked { lba, count, range },
        Why::ReadShadow { lba, count } => Why::ReadShadow { lba, count },
        Why::WriteShadow { lba, count } => Why::WriteShadow { lba, count },
        Why::NoEntryHolds {
            sp,
            object,
            method,
            column,
            ref need,
        } => Why::NoEntryHolds {
            sp,
            object,
            method,
            column,
            need: need.clone()?,
        },
        Why::NoAccessRow { sp, object, method } => Why::NoAccessRow { sp, object, method },
        Why::AttemptFailed {
            sp,
            authority,
            failure,
        } => Why::AttemptFailed {
            sp,
            authority,
            failure,
        },
    })
}

/// The same line once more.
pub fn copy_line(line: &AuditLine) -> Result<AuditLine, AllocError>
    ensures { IfOk result (λ copied. copied ≡ line.now) }
{
    let why = copy_why(&line.why)?;
    Ok(AuditLine {
        step: line.step,
        client: line.client,
        why,
    })
}
