//! What the drive decides on a command, before it does it.

ghost use Rattle.std.specs.Prelude.{◌≡◌, ◌≤◌, ◌^◌, None, Some, Ok, IfSome};
ghost use Rattle.drive.specs.Decision.{policy, told, reason, ruling};

use crate::transfer::{Held, Transfer, Way};
use audit::Why;
use audit::rules::Rule;
use device_data::Failure;
use fis::Tag;
use locking::{Denier, Judgement, Ranges};
use trusted_cmds::Command;

/// A transfer that is denied, and what denies it.
#[derive(Clone, Copy, Debug, PartialEq, Eq)]
pub struct Denied {
    pub transfer: Transfer,
    pub by: Denier,
}

/// Why a command fails.
#[derive(Clone, Copy, Debug, PartialEq, Eq)]
pub enum Cause {
    /// A range or the shadow denies its transfer.
    Denial(Denied),
    /// A rule refuses it.
    Rule(Rule),
}

/// What the drive does with a command.
#[derive(Clone, Copy, Debug, PartialEq, Eq)]
pub enum Decision {
    /// The command fails, and nothing changes.
    Aborts { error: u8, cause: Cause },
    /// The command fails, and the queue with it.
    FailsQueue { failure: Failure, cause: Cause },
    /// A queued transfer is held until it is completed.
    Holds { tag: Tag, held: Held },
    /// An unqueued transfer moves its data, each in its way.
    Moves { held: Held, way: Way },
    /// Sectors are trimmed: the blocks that come say which, and they are judged only then.
    Trims { blocks: u16 },
    /// Another command that is not queued is executed.
    Executes(Command),
    /// The command resets the drive.
    Restarts(Command),
    /// The command blocks SID.
    Blocks(Command),
    /// The command asks the stack of a ComID.
    AsksStack(Command),
}

/// Why a transfer is refused.
#[derive(Clone, Copy, Debug, PartialEq, Eq)]
pub struct Refusal {
    pub error: u8,
    pub cause: Cause,
}

/// What denied an item or a command, or which rule refused it, where nothing denied it.
#[derive(Drop)]
pub(crate) struct Objection {
    pub denied: Option<Why>,
    pub rule: Option<Rule>,
}

impl Objection {
    /// None.
    pub(crate) fn none() -> Objection
        ensures denied { result.denied ≡ None }
        ensures rule { result.rule ≡ None }
    {
        Objection {
            denied: None,
            rule: None,
        }
    }

    /// By a rule.
    pub(crate) fn by(rule: Rule) -> Objection
        ensures denied { result.denied ≡ None }
        ensures rule { result.rule ≡ Some rule }
    {
        Objection {
            denied: None,
            rule: Some(rule),
        }
    }
}

/// The reason of a denial, or the rule.
pub(crate) fn objection_to(cause: &Cause) -> Objection
    ensures denied { result.denied ≡ reason cause.now }
    ensures rule { result.rule ≡ ruling cause.now }
{
    match cause {
        Cause::Denial(Denied { transfer, by }) => Objection {
            denied: Some(by.why(transfer.op, transfer.lba, transfer.count.number())),
            rule: None,
        },
        Cause::Rule(rule) => Objection::by(*rule),
    }
}

/// The error of the command that failed a queue.
pub(crate) fn error_of(failure: &Failure) -> u8
    ensures { result ≡ failure.now.error }
{
    failure.error
}

/// The error of a command that is aborted or denied (ACS-3, ABRT).
pub(crate) const ABORTED: u8 = 0x04;

/// The error of a command whose sectors are not all on the drive (ACS-3, IDNF).
pub(crate) const NOT_FOUND: u8 = 0x10;

/// Whether a transfer that is permitted reads the shadow, as [`policy`] says; none where it is refused. A refusal is
/// large, and most transfers are permitted.
#[inline(always)]
pub(crate) fn permission(sectors: u64, ranges: &Ranges, transfer: &Transfer) -> Option<bool>
    requires { sectors ≤ 2 ^ 48 }
    ensures { IfSome result (λ s. policy sectors ranges.now transfer.now ≡ Ok s) }
{
    if !transfer.fits(sectors) {
        return None;
    }
    let count = transfer.count.number();
    match ranges.judge(transfer.op, transfer.lba, count) {
        Judgement::Serves => Some(false),
        Judgement::GivesShadow => Some(true),
        Judgement::Denies(_) => None,
    }
}

/// Whether a transfer reads the shadow, or why it is refused: sectors that are not on the drive, then what the ranges
/// and the shadow say.
#[inline(always)]
pub(crate) fn policy(sectors: u64, ranges: &Ranges, transfer: &Transfer) -> Result<bool, Refusal>
    requires { sectors ≤ 2 ^ 48 }
    ensures { told result ≡ policy sectors ranges.now transfer.now }
{
    if !transfer.fits(sectors) {
        return Err(Refusal {
            error: NOT_FOUND,
            cause: Cause::Rule(Rule::BeyondDrive),
        });
    }
    match ranges.judge(transfer.op, transfer.lba, transfer.count.number()) {
        Judgement::Serves => Ok(false),
        Judgement::GivesShadow => Ok(true),
        Judgement::Denies(by) => Err(Refusal {
            error: ABORTED,
            cause: Cause::Denial(Denied {
                transfer: *transfer,
                by,
            }),
        }),
    }
}
