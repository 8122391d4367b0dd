//! A port with nothing that grows.

use crate::outcome::Outcome;
use crate::stages::{Stages, no_outcomes};
use audit::rules::Rule;
use drive::{Accepted, Drive};
use fis::{SLOT_COUNT, Tag};
use hba_regs::PortRegs;
use port_history::{PortError, Stage};
use slots::PortMemory;
use std::alloc::{AllocError, Global};
use std::marker::Model;

/// A port and the drive behind it, with neither history nor audit log: what each step does stands here.
#[derive(Drop)]
pub(crate) struct BarePort {
    pub(crate) alloc: Global,
    pub(crate) drive: Drive,
    pub(crate) slots: Stages,
    pub(crate) outcomes: [Option<Outcome>; SLOT_COUNT],
    /// The tag whose queued command failed, while the port is failed.
    pub(crate) failed: Option<Tag>,
    pub(crate) memory: PortMemory,
    pub(crate) regs: PortRegs,
    /// How many steps it made.
    pub(crate) count: u64,
    pub(crate) rule: Option<Rule>,
    /// The room of the drive's next answer: an answer is large, and so it is not moved.
    pub(crate) answer: Accepted,
}

impl Model for BarePort {
    ghost use Rattle.port.specs.State.{BareState};

    ghost Value = { BareState };

    ghost view = { λ p. record {
      drive = p.drive;
      slots = p.slots;
      outcomes = p.outcomes;
      failed = p.failed;
      memory = p.memory;
      regs = p.regs;
      count = p.count;
      rule = p.rule;
    } };
}

impl BarePort {
    ghost use Rattle.std.specs.Prelude.{◌≡◌, ◌+◌, [], IfOk, MatchResult};
    ghost use Rattle.port.specs.Answers.{stage_at};
    ghost use Rattle.port.specs.State.{IsFresh, with_history};

    /// A port over a drive, which made no step.
    ///
    /// # Errors
    ///
    /// `AllocError`.
    pub(crate) fn new(alloc: Global, drive: Drive) -> Result<BarePort, AllocError>
        ensures { IfOk result (λ port. IsFresh (with_history port [] []) drive × (port.count ≡ 0)) }
    {
        Ok(BarePort {
            alloc,
            drive,
            slots: Stages::new(alloc)?,
            outcomes: no_outcomes(),
            failed: None,
            memory: PortMemory::new(alloc)?,
            regs: PortRegs::new(),
            count: 0,
            rule: None,
            answer: Accepted::none(alloc),
        })
    }

    /// The same port once more, in memory of its own.
    pub(crate) fn copy(&self) -> Result<BarePort, AllocError>
        ensures { IfOk result (λ copied. copied ≡ self.now) }
    {
        Ok(BarePort {
            alloc: self.alloc,
            drive: self.drive.copy()?,
            slots: self.slots.copy(self.alloc)?,
            outcomes: self.outcomes,
            failed: self.failed,
            memory: self.memory.copy()?,
            regs: self.regs.copy(),
            count: self.count,
            rule: self.rule,
            answer: Accepted::none(self.alloc),
        })
    }

    /// What allocates.
    pub(crate) fn alloc(&self) -> Global {
        self.alloc
    }

    /// The drive behind the port.
    pub(crate) fn drive(&self) -> &Drive
        ensures { result.now ≡ self.now.drive }
    {
        &self.drive
    }

    /// The registers.
    pub(crate) fn regs(&self) -> &PortRegs
        ensures { result.now ≡ self.now.regs }
    {
        &self.regs
    }

    /// The memory that the host shares with the port.
    pub(crate) fn memory(&self) -> &PortMemory
        ensures { result.now ≡ self.now.memory }
    {
        &self.memory
    }

    /// Which rule refused the command that was accepted last.
    pub(crate) fn rule(&self) -> Option<Rule>
        ensures { result ≡ self.now.rule }
    {
        self.rule
    }

    /// The stage of a slot.
    pub(crate) fn stage(&self, tag: Tag) -> Stage
        ensures { result ≡ stage_at self.now.slots tag }
    {
        self.slots.at(tag)
    }

    /// The number of the next step.
    ///
    /// # Errors
    ///
    /// `OutOfMemory`, where a port made as many steps as there are numbers.
    pub(crate) fn next_number(&self) -> Result<u64, PortError>
        ensures { MatchResult result (λ n. n ≡ 1 + self.now.count)
            (λ e. e ≡ PortError.OutOfMemory) }
    {
        if self.count == u64::MAX {
            return Err(PortError::OutOfMemory);
        }
        Ok(self.count + 1)
    }
}
