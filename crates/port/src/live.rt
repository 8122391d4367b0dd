//! A port that lives: it keeps no history.

ghost use Rattle.std.specs.Prelude.{◌≡◌, IfOk};
ghost use Rattle.port.specs.Live.{most_lines};

use crate::bare::BarePort;
use crate::lines::copy_line;
use audit::AuditLine;
use audit::rules::Rule;
use circular_buffer::HeapCircularBuffer;
use drive::Drive;
use fis::Tag;
use hba_regs::PortRegs;
use port_history::{PortError, Stage};
use slots::PortMemory;
use std::alloc::{AllocError, Global};
use std::marker::Model;

/// How many lines of the audit log are kept.
const MOST_LINES: usize = 64;

/// So many lines are 64.
pub fn laws_of_lines()
    ensures { most_lines ≡ 64 }
{}

/// A port and the drive behind it, as [`Port`](crate::Port), without the history of its steps: it has as much memory after
/// any number of steps, and refuses none for want of room. Of its audit log it has the 64 latest lines.
#[derive(Drop)]
pub struct LivePort {
    pub(crate) bare: BarePort,
    /// How many denials there were.
    pub(crate) denials: u64,
    /// The lines of the latest of them, the oldest first.
    pub(crate) latest: HeapCircularBuffer<AuditLine>,
}

impl Model for LivePort {
    ghost use Rattle.std.specs.Prelude.{◌≡◌, ◌≤◌};
    ghost use Rattle.port.specs.Live.{LiveState, most_lines};

    ghost Value = { LiveState };

    ghost view = { λ p. record {
      bare = p.bare;
      denials = p.denials;
      latest = p.latest.items;
    } };

    ghost invariant = { λ p. (p.latest.capacity ≡ most_lines) × (p.denials ≤ p.bare.count) };
}

/// The same lines once more.
fn copy_lines(
    alloc: Global,
    lines: &HeapCircularBuffer<AuditLine>,
) -> Result<HeapCircularBuffer<AuditLine>, AllocError>
    requires { lines.now.capacity ≡ most_lines }
    ensures { IfOk result (λ copied. copied ≡ lines.now) }
{
    let mut copies = HeapCircularBuffer::with_capacity(alloc, MOST_LINES)?;
    for at in 0..lines.len() {
        let Some(line) = lines.get(at) else {
            unreachable!()
        };
        copies.push_back(copy_line(line)?);
    }
    Ok(copies)
}

impl LivePort {
    ghost use Rattle.std.specs.Prelude.{◌≡◌, ◌+◌, ◌-◌, ◌||◌, ◌<◌, ℕ, [], List, length, reverse, option_copied, IfOk, IsOkUnless, Ok};
    ghost use Rattle.std.specs.Int.{bit_at};
    ghost use Rattle.fis.specs.Bytes.{bit};
    ghost use Rattle.fis.specs.Tags.{slot_count};
    ghost use Rattle.slots.specs.Fetch.{fetched};
    ghost use Rattle.history.specs.Opening.{Origin};
    ghost use Rattle.drive.specs.State.{Agrees as DriveAgrees};
    ghost use Rattle.port_history.specs.declared.stages.Put.{Put};
    ghost use Rattle.port_history.specs.declared.step.Step.{Step};
    ghost use Rattle.port_history.specs.Stages.{is_active, is_issued};
    ghost use Rattle.port_history.specs.Steps.{trace, stage, failed, is_tag, accepted_rule, audit};
    ghost use Rattle.port.specs.Answers.{stage_at};
    ghost use Rattle.port.specs.Host.{fetched_of};
    ghost use Rattle.port.specs.Live.{LiveAgrees, line_kept, latest_line};
    ghost use Rattle.port.specs.State.{IsFresh, with_history};

    /// A port over a drive on which nothing was done.
    ///
    /// # Errors
    ///
    /// `OutOfMemory`.
    pub fn new(alloc: Global, drive: Drive) -> Result<LivePort, PortError>
        ensures agrees { IfOk result (λ port. (o : Origin) → DriveAgrees drive o []
            → LiveAgrees port o []) }
        ensures memory { IsOkUnless result PortError.OutOfMemory }
    {
        let port = LivePort::over(alloc, drive)?;
        Ok(port)
    }

    fn over(alloc: Global, drive: Drive) -> Result<LivePort, AllocError>
        ensures fresh { IfOk result (λ port. IsFresh (with_history port.bare [] []) drive
            × (port.bare.count ≡ 0)) }
        ensures lines { IfOk result (λ port. (port.denials ≡ 0) × (port.latest ≡ [])) }
    {
        let latest = HeapCircularBuffer::with_capacity(alloc, MOST_LINES)?;
        let bare = BarePort::new(alloc, drive)?;
        Ok(LivePort {
            bare,
            denials: 0,
            latest,
        })
    }

    /// The same port once more, in memory of its own: the steps with which the one agrees are those with which the other does,
    /// so that both answer the same, and what is done with either from now on changes nothing of the other. Where memory is
    /// refused there is no copy.
    pub fn copy(&self) -> Result<LivePort, AllocError>
        ensures { IfOk result (λ copied. copied ≡ self.now) }
    {
        let latest = copy_lines(self.bare.alloc(), &self.latest)?;
        let bare = self.bare.copy()?;
        Ok(LivePort {
            bare,
            denials: self.denials,
            latest,
        })
    }

    /// The drive behind the port.
    pub fn drive(&self) -> &Drive
        ensures { result.now ≡ self.now.bare.drive }
    {
        self.bare.drive()
    }

    /// How many denials there were.
    pub fn denials(&self) -> u64
        ensures value { result ≡ self.now.denials }
        ensures told { (o : Origin) (list : List Step) → LiveAgrees self.now o list
            → result ≡ length (audit (trace o list)) }
    {
        self.denials
    }

    /// The line of the audit log at a place, 0 the oldest, if it is one of the 64 latest.
    pub fn denial(&self, place: u64) -> Option<&AuditLine>
        ensures value { option_copied result ≡ line_kept self.now place }
        ensures told { (o : Origin) (list : List Step) → LiveAgrees self.now o list
            → option_copied result ≡ latest_line (reverse (audit (trace o list))) place }
    {
        self.line_at(place)
    }

    fn line_at(&self, place: u64) -> Option<&AuditLine>
        ensures { option_copied result ≡ line_kept self.now place }
    {
        let gone = self.denials.saturating_sub(self.latest.len() as u64);
        if place < gone {
            return None;
        }
        self.latest.get((place - gone) as usize)
    }

    /// Which rule refused the command that was accepted last, or the item that it sent, where nothing denied it.
    pub fn rule(&self) -> Option<Rule>
        ensures stands { result ≡ self.now.bare.rule }
        ensures told { (o : Origin) (list : List Step) → LiveAgrees self.now o list
            → result ≡ accepted_rule (trace o list) }
    {
        self.bare.rule()
    }

    /// The registers. PxSACT has the queued tags that are issued or accepted, PxCI those that are issued, and the one
    /// that failed while the port is failed.
    pub fn regs(&self) -> &PortRegs
        ensures value { result.now ≡ self.now.bare.regs }
        ensures active { (o : Origin) (list : List Step) → LiveAgrees self.now o list
            → (tag : ℕ) → tag < slot_count
            → bit_at result.now.active tag ≡ bit (is_active (stage (trace o list) tag)) }
        ensures issued { (o : Origin) (list : List Step) → LiveAgrees self.now o list
            → (tag : ℕ) → tag < slot_count
            → bit_at result.now.issued tag
            ≡ bit (is_issued (stage (trace o list) tag) || is_tag tag (failed (trace o list))) }
    {
        self.bare.regs()
    }

    /// The memory that the host shares with the port. While a command is issued, its slot holds the FIS, the direction
    /// and the length of its request.
    pub fn memory(&self) -> &PortMemory
        ensures value { result.now ≡ self.now.bare.memory }
        ensures issued { (o : Origin) (list : List Step) → LiveAgrees self.now o list
            → (tag : ℕ) (put : Put) → tag < slot_count
            → stage (trace o list) tag ≡ Stage.Issued put
            → fetched result.now tag ≡ Ok (fetched_of put tag) }
    {
        self.bare.memory()
    }

    /// The stage of a slot.
    pub fn stage(&self, tag: Tag) -> Stage
        ensures { result ≡ stage_at self.now.bare.slots tag }
    {
        self.bare.stage(tag)
    }
}
