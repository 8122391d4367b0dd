//! A port, and what it shows.

use crate::bare::BarePort;
use audit::AuditLine;
use audit::rules::Rule;
use drive::Drive;
use fis::Tag;
use hba_regs::PortRegs;
use port_history::{Entries, PortError, Stage};
use slots::PortMemory;
use std::alloc::{AllocError, Global};
use std::marker::Model;

/// A port, the drive behind it, and the history of its steps.
#[derive(Drop)]
pub struct Port {
    pub(crate) bare: BarePort,
    pub(crate) history: Entries,
    pub(crate) audit: Vec<AuditLine>,
}

impl Model for Port {
    ghost use Rattle.std.specs.Prelude.{◌≡◌, ◌≤◌, length};
    ghost use Rattle.port_history.specs.Refusals.{most_steps};
    ghost use Rattle.port.specs.State.{PortState, with_history};

    ghost Value = { PortState };

    ghost view = { λ p. with_history p.bare p.history.items p.audit.items };

    ghost invariant = { λ p. (length p.history.items ≡ p.bare.count)
        × (length p.history.items ≤ most_steps) };
}

impl Port {
    ghost use Rattle.std.specs.Prelude.{◌≡◌, ◌||◌, ◌<◌, ℕ, [], List, IfOk, IsOkUnless, Ok};
    ghost use Rattle.std.specs.Int.{bit_at};
    ghost use Rattle.fis.specs.Bytes.{bit};
    ghost use Rattle.fis.specs.Tags.{slot_count};
    ghost use Rattle.slots.specs.Fetch.{fetched};
    ghost use Rattle.history.specs.Opening.{Origin};
    ghost use Rattle.drive.specs.State.{Agrees as DriveAgrees};
    ghost use Rattle.port_history.specs.declared.stages.Put.{Put};
    ghost use Rattle.port_history.specs.declared.step.Step.{Step};
    ghost use Rattle.port_history.specs.Stages.{is_active, is_issued};
    ghost use Rattle.port_history.specs.Steps.{trace, stage, failed, is_tag, accepted_rule};
    ghost use Rattle.port.specs.Agreement.{PortAgrees};
    ghost use Rattle.port.specs.Answers.{stage_at};
    ghost use Rattle.port.specs.Host.{fetched_of};
    ghost use Rattle.port.specs.State.{IsFresh};

    /// A port over a drive on which nothing was done.
    ///
    /// # Errors
    ///
    /// `OutOfMemory`.
    pub fn new(alloc: Global, drive: Drive) -> Result<Port, PortError>
        ensures agrees { IfOk result (λ port. (o : Origin) → DriveAgrees drive o []
            → PortAgrees port o []) }
        ensures memory { IsOkUnless result PortError.OutOfMemory }
    {
        let port = Port::over(alloc, drive)?;
        Ok(port)
    }

    fn over(alloc: Global, drive: Drive) -> Result<Port, AllocError>
        ensures { IfOk result (λ port. IsFresh port drive) }
    {
        Ok(Port {
            bare: BarePort::new(alloc, drive)?,
            history: Entries::new(alloc),
            audit: Vec::new(alloc),
        })
    }

    /// The steps so far, the oldest first, each with what it answered.
    pub fn history(&self) -> &Entries
        ensures { result.now.items ≡ self.now.history }
    {
        &self.history
    }

    /// The drive behind the port.
    pub fn drive(&self) -> &Drive
        ensures { result.now ≡ self.now.drive }
    {
        self.bare.drive()
    }

    /// The denials so far, the oldest first.
    pub fn audit(&self) -> &[AuditLine]
        ensures { result.now ≡ self.now.audit }
    {
        self.audit.as_slice()
    }

    /// Which rule refused the command that was accepted last, or the item that it sent, where nothing denied it.
    pub fn rule(&self) -> Option<Rule>
        ensures stands { result ≡ self.now.rule }
        ensures told { (o : Origin) (list : List Step) → PortAgrees self.now o list
            → result ≡ accepted_rule (trace o list) }
    {
        self.bare.rule()
    }

    /// The registers. PxSACT has the queued tags that are issued or accepted, PxCI those that are issued, and the one
    /// that failed while the port is failed.
    pub fn regs(&self) -> &PortRegs
        ensures value { result.now ≡ self.now.regs }
        ensures active { (o : Origin) (list : List Step) → PortAgrees self.now o list
            → (tag : ℕ) → tag < slot_count
            → bit_at result.now.active tag ≡ bit (is_active (stage (trace o list) tag)) }
        ensures issued { (o : Origin) (list : List Step) → PortAgrees self.now o list
            → (tag : ℕ) → tag < slot_count
            → bit_at result.now.issued tag
            ≡ bit (is_issued (stage (trace o list) tag) || is_tag tag (failed (trace o list))) }
    {
        self.bare.regs()
    }

    /// The memory that the host shares with the port. While a command is issued, its slot holds the FIS, the direction
    /// and the length of its request.
    pub fn memory(&self) -> &PortMemory
        ensures value { result.now ≡ self.now.memory }
        ensures issued { (o : Origin) (list : List Step) → PortAgrees self.now o list
            → (tag : ℕ) (put : Put) → tag < slot_count
            → stage (trace o list) tag ≡ Stage.Issued put
            → fetched result.now tag ≡ Ok (fetched_of put tag) }
    {
        self.bare.memory()
    }

    /// The stage of a slot.
    pub fn stage(&self, tag: Tag) -> Stage
        ensures { result ≡ stage_at self.now.slots tag }
    {
        self.bare.stage(tag)
    }
}
