//! What each step makes of a port, at its number.

ghost use Rattle.std.specs.Prelude.{◌≡◌, option_to_list};
ghost use Rattle.history.specs.Audit.{line_for};

use crate::bare::BarePort;
use crate::outcome::{Outcome, outcome_then};
use crate::registers::{restart, show_answer};
use crate::stages::{LogEntry, accepted_stage, failed_then};
use crate::{host, registers};
use audit::{AuditLine, Why};
use drive::{DriveError, ResetKind};
use fis::Tag;
use port_history::{Answer, PortError, Put, Request, Stage, is_queued, show_all};
use slots::{BUFFER, CommandBlock};
use std::alloc::AllocError;

/// The line of a denial, if there was one.
fn line_of(step: u64, client: u32, denied: Option<Why>) -> Option<AuditLine>
    ensures { option_to_list result ≡ line_for step client denied }
{
    match denied {
        Some(why) => Some(AuditLine { step, client, why }),
        None => None,
    }
}

impl BarePort {
    ghost use Rattle.std.specs.Prelude.{◌≡◌, ◌+◌, ◌<◌, ◌≤◌, ℕ, is_some, Ok, OnOk, OnErr, IfOk, IfErr, true};
    ghost use Rattle.fis.specs.Tags.{slot_count};
    ghost use Rattle.slots.specs.Fetch.{fetched};
    ghost use Rattle.slots.specs.Layout.{buffer_size};
    ghost use Rattle.slots.specs.declared.fetched.Fetched.{Fetched};
    ghost use Rattle.history.specs.Answers.{payload_of};
    ghost use Rattle.port_history.specs.declared.step.Step.TheVariants as steps;
    ghost use Rattle.port_history.specs.Requests.{is_sized, request_command, command_fis};
    ghost use Rattle.port.specs.Answers.{stage_at, outcome_at, taken};
    ghost use Rattle.port.specs.State.{MakesBare, MakesNoted, entry_of, taken_entry, IsPut, IsIssued, IsAccepted, IsCompleted, IsRecovered, IsReset, IsTaken, IsReady};

    /// Put: a request, whose FIS is built, is laid in a slot with its data.
    pub(crate) fn lay_built(
        &mut self,
        client: u32,
        tag: Tag,
        fis: &CommandBlock,
        request: &Request,
        number: u64,
    )
        requires number { number ≡ 1 + self.old.count }
        requires sized { is_sized request.now ≡ true }
        requires built { fis.now ≡ command_fis (request_command request.now) tag }
        ensures state { MakesBare self.old self.new (entry_of (steps.Put client tag request.now))
            (λ p q. IsPut p q client tag request.now) }
        ensures count { self.new.count ≡ number }
        ensures slot { tag < slot_count }
    {
        let command = request.command();
        host::lay_block(&mut self.memory, tag, fis, command, request.payload());
        let put = Put {
            client,
            number,
            command,
        };
        self.slots.set(tag, Stage::Prepared(put));
        self.outcomes[usize::from(tag.number())] = None;
        self.count = number;
    }

    /// Put: a request is laid in a slot with its data.
    pub(crate) fn lay(&mut self, client: u32, tag: Tag, request: &Request, number: u64)
        requires number { number ≡ 1 + self.old.count }
        requires sized { is_sized request.now ≡ true }
        ensures state { MakesBare self.old self.new (entry_of (steps.Put client tag request.now))
            (λ p q. IsPut p q client tag request.now) }
        ensures count { self.new.count ≡ number }
        ensures slot { tag < slot_count }
    {
        let fis = host::command_block(request.command(), tag);
        self.lay_built(client, tag, &fis, request, number);
    }

    /// Issue: the command of a slot is issued.
    pub(crate) fn issue_put(&mut self, tag: Tag, put: Put, number: u64)
        requires number { number ≡ 1 + self.old.count }
        requires put { stage_at self.old.slots tag ≡ Stage.Prepared put }
        ensures state { MakesBare self.old self.new (entry_of (steps.Issue tag))
            (λ p q. IsIssued p q tag) }
        ensures count { self.new.count ≡ number }
        ensures slot { tag < slot_count }
    {
        self.slots.set(tag, Stage::Issued(put));
        self.regs.set_issue(tag, is_queued(put.command));
        self.count = number;
    }

    /// Accept: the device takes an issued command. It answers the audit line, where it was denied.
    ///
    /// # Errors
    ///
    /// `OutOfMemory`; `NotIssued`, where its memory holds no command. The port is then as before.
    pub(crate) fn accept_put(
        &mut self,
        tag: Tag,
        put: Put,
        number: u64,
    ) -> Result<Option<AuditLine>, PortError>
        requires number { number ≡ 1 + self.old.count }
        requires put { stage_at self.old.slots tag ≡ Stage.Issued put }
        ensures refused { (f : Fetched) → fetched self.old.memory tag ≡ Ok f
            → payload_of self.old.drive.tper.store.config f.fis ≤ buffer_size
            → IfErr result (λ e. e ≡ PortError.OutOfMemory) }
        ensures state { IfOk result (λ line. (f : Fetched) → fetched self.old.memory tag ≡ Ok f
            → MakesNoted self.old self.new (entry_of (steps.Accept tag)) line
            (λ p q. IsAccepted p q tag f.fis)) }
        ensures count { OnOk result (self.new.count ≡ number) }
        ensures slot { tag < slot_count }
        ensures err { OnErr result (self.new ≡ self.old) }
    {
        let Ok(command) = self.memory.fetch(tag) else {
            return Err(PortError::NotIssued);
        };
        let len = self.drive.payload_len(&command.fis);
        if len > BUFFER {
            return Err(PortError::NotIssued);
        }
        let payload = host::front(&self.memory, tag, len);
        let Ok(()) = self
            .drive
            .accept_into(&command.fis, payload, &mut self.answer)
        else {
            return Err(PortError::OutOfMemory);
        };
        let queued = is_queued(put.command);
        let has_failed = self.answer.has_failed();
        let told = self.answer.fises();
        let fises = told.as_slice();
        let bytes = &self.answer.bytes;
        let len = host::take_in(&mut self.memory, tag, queued, fises, bytes);
        show_answer(&mut self.regs, tag, queued, has_failed, fises);
        let slot = usize::from(tag.number());
        self.slots.set(tag, accepted_stage(put));
        self.outcomes[slot] = outcome_then(queued, &self.answer, len, self.outcomes[slot]);
        self.failed = failed_then(queued, has_failed, tag, self.failed);
        self.rule = self.answer.rule;
        self.count = number;
        Ok(line_of(number, put.client, self.answer.denied.take()))
    }

    /// Complete: the device moves the data of an accepted command and ends it.
    ///
    /// # Errors
    ///
    /// `OutOfMemory`; `NotAccepted`, where the drive holds no command. The port is then as before.
    pub(crate) fn complete_put(&mut self, tag: Tag, put: Put, number: u64) -> Result<(), PortError>
        requires number { number ≡ 1 + self.old.count }
        requires put { stage_at self.old.slots tag ≡ Stage.Accepted put }
        ensures refused { IsReady self.old.drive tag
            → IfErr result (λ e. e ≡ PortError.OutOfMemory) }
        ensures state { OnOk result (MakesBare self.old self.new (entry_of (steps.Complete tag))
            (λ p q. IsCompleted p q tag)) }
        ensures count { OnOk result (self.new.count ≡ number) }
        ensures slot { tag < slot_count }
        ensures err { OnErr result (self.new ≡ self.old) }
    {
        let len = self.drive.expects(tag);
        if len > BUFFER {
            return Err(PortError::NotAccepted);
        }
        let payload = host::front(&self.memory, tag, len);
        let done = match self.drive.complete(tag, payload) {
            Ok(done) => done,
            Err(DriveError::NotHeld) => return Err(PortError::NotAccepted),
            Err(DriveError::OutOfMemory) => return Err(PortError::OutOfMemory),
        };
        let told = done.fises();
        let fises = told.as_slice();
        let len = host::take_in(&mut self.memory, tag, false, fises, &done.bytes);
        show_all(&mut self.regs, tag, fises);
        let slot = usize::from(tag.number());
        self.slots.set(tag, Stage::Answered(put));
        self.outcomes[slot] = Some(Outcome::Done(len));
        self.drive.give_back(done.bytes);
        self.count = number;
        Ok(())
    }

    /// Recover: the port stops and starts, reads log page 10h of the device, answers the command that it names, and has
    /// the others that were out prepared again.
    ///
    /// # Errors
    ///
    /// `OutOfMemory`. The port is then as before.
    pub(crate) fn mend(&mut self, number: u64) -> Result<(), PortError>
        requires number { number ≡ 1 + self.old.count }
        requires failed { is_some self.old.failed ≡ true }
        ensures refused { IfErr result (λ e. e ≡ PortError.OutOfMemory) }
        ensures state { OnOk result (MakesBare self.old self.new (entry_of steps.Recover)
            (λ p q. IsRecovered p q)) }
        ensures count { OnOk result (self.new.count ≡ number) }
        ensures err { OnErr result (self.new ≡ self.old) }
    {
        let Ok(answer) = self.drive.accept(&host::log_fis(), &[]) else {
            return Err(PortError::OutOfMemory);
        };
        restart(&mut self.regs);
        let fises = answer.fises();
        show_all(&mut self.regs, Tag::low_bits(0), fises.as_slice());
        host::receive(&mut self.memory, fises.as_slice());
        let log = LogEntry::read(&answer.bytes);
        self.slots.recover(&mut self.outcomes, &log);
        self.failed = None;
        self.count = number;
        Ok(())
    }

    /// Reset: the port and the device are reset, and every command that waits is answered `Reset`.
    pub(crate) fn reset_all(&mut self, kind: ResetKind, number: u64)
        requires number { number ≡ 1 + self.old.count }
        ensures state { (client : ℕ)
            → MakesBare self.old self.new (entry_of (steps.Reset client kind))
            (λ p q. IsReset p q client kind) }
        ensures count { self.new.count ≡ number }
    {
        self.drive.reset(kind);
        registers::reset(&mut self.regs);
        self.slots.reset(&mut self.outcomes);
        self.failed = None;
        self.count = number;
    }

    /// What is answered in a slot.
    ///
    /// # Errors
    ///
    /// `AllocError`.
    pub(crate) fn answer(&self, tag: Tag) -> Result<Answer, AllocError>
        ensures { IfOk result (λ a. a
            ≡ taken self.now.memory tag (outcome_at self.now.outcomes tag)) }
    {
        let outcome = self.outcomes[usize::from(tag.number())].unwrap_or(Outcome::Done(0));
        host::answer(&self.memory, self.alloc, tag, outcome)
    }

    /// Take: a slot whose answer is taken is free.
    pub(crate) fn set_free(&mut self, tag: Tag, number: u64)
        requires number { number ≡ 1 + self.old.count }
        ensures state { (client : ℕ) → MakesBare self.old self.new
            (taken_entry client tag self.old.memory (outcome_at self.old.outcomes tag))
            (λ p q. IsTaken p q client tag) }
        ensures count { self.new.count ≡ number }
        ensures slot { tag < slot_count }
    {
        self.slots.set(tag, Stage::Free);
        self.outcomes[usize::from(tag.number())] = None;
        self.count = number;
    }
}
