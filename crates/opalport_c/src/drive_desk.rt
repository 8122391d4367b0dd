//! A drive, with what it answered last.

ghost use Rattle.std.specs.Prelude.{◌≡◌, None, Some};
ghost use Rattle.library_calls.specs.declared.byte_calls.error.CallError.{CallError};

use crate::answer::Answer;
use crate::failed::Failed;
use crate::refusals::of_drive;
use drive::{Accepted, Completed, Drive, ResetKind};
use fis::{H2D_LENGTH, Tag};
use library_calls::byte_calls::{CallError, Count, DONE, copy_out};
use std::alloc::Global;

/// The Status register of a device that completed a command (ACS-3, Status field).
const READY: u8 = 0x50;

/// A drive that a caller from outside works on, with what it answered last.
#[derive(Drop)]
pub struct DriveDesk {
    pub drive: Drive,
    /// The answer to the last command.
    pub answer: Accepted,
    /// What the last call gave, where it was a completion.
    pub done: Option<Completed>,
    /// How many acts the drive has done, modulo 2^64: commands, completions and resets.
    pub acts: u64,
    /// The number of the act that the last command was.
    pub answered: u64,
}

impl DriveDesk {
    ghost use Rattle.std.specs.Prelude.{◌≡◌, List, [], OnOk, OnErr, IfOk, IfErr, Some, None, MatchResult};
    ghost use Rattle.opalport_c.specs.Desks.{numbers_at, last_bytes, command_fault, completion_fault, payload_count, expected_count, TakesCommand, CompletesHeld, IsFirstFault, IsRefusedAs, IsTakenAs, IsFinishedAs, IsResetAs, IsNewDesk, IsCopyOf, laid_data};
    ghost use Rattle.library_calls.specs.Copies.{IsCopied};
    ghost use Rattle.opalport_c.specs.Failures.{failure_numbers};
    ghost use Rattle.library_calls.specs.declared.byte_calls.error.CallError.TheVariants.{OutOfMemory};

    /// A drive that has answered nothing yet.
    pub fn new(alloc: Global, drive: Drive) -> DriveDesk
        ensures drive { result.drive ≡ drive }
        ensures new { IsNewDesk result }
    {
        DriveDesk {
            drive,
            answer: Accepted::none(alloc),
            done: None,
            acts: 0,
            answered: 0,
        }
    }

    /// The same drive once more, in memory of its own, which has answered nothing yet.
    ///
    /// # Errors
    ///
    /// Want of memory.
    pub fn copy(&self, alloc: Global) -> Result<DriveDesk, CallError>
        ensures copied { IfOk result (λ desk. IsCopyOf self.now desk) }
        ensures why { IfErr result (λ e. e ≡ OutOfMemory) }
    {
        let drive = self.drive.copy()?;
        Ok(DriveDesk {
            acts: self.acts,
            ..DriveDesk::new(alloc, drive)
        })
    }

    /// Lets the data of the last answer go: the drive puts those of the next one in their place.
    fn forget(&mut self)
        ensures drive { self.new.drive ≡ self.old.drive }
        ensures done { self.new.done ≡ None }
        ensures bytes { self.new.answer.bytes.items ≡ [] }
        ensures denied { self.new.answer.denied ≡ self.old.answer.denied }
        ensures acts { self.new.acts ≡ self.old.acts }
        ensures answered { self.new.answered ≡ self.old.answered }
    {
        if let Some(done) = self.done.take() {
            self.drive.give_back(done.bytes);
        }
        self.drive.give_back_from(&mut self.answer.bytes);
        self.answer.bytes.clear();
    }

    /// Gives the drive the FIS of a command, with the payload that the command brings.
    ///
    /// # Errors
    ///
    /// `Length`: the FIS has not its 20 bytes, or the payload not as many as [`Drive::payload_len`] says. Want of
    /// memory. The drive is then as before, and without want of memory the last answer too.
    pub fn accept(&mut self, fis: &[u8], payload: &[u8]) -> Result<(), CallError>
        ensures done { OnOk result (TakesCommand self.old self.new fis.now payload.now) }
        ensures fault { MatchResult result
            (λ _. command_fault self.old.drive fis.now payload.now ≡ None)
            (λ e. IsFirstFault (command_fault self.old.drive fis.now payload.now) e) }
        ensures err { OnErr result (IsRefusedAs (command_fault self.old.drive fis.now payload.now)
            self.old self.new) }
    {
        let Some(fis) = fis.as_array::<H2D_LENGTH>() else {
            return Err(CallError::Length);
        };
        if payload.len() != self.drive.payload_len(fis) {
            return Err(CallError::Length);
        }
        self.forget();
        self.drive.accept_into(fis, payload, &mut self.answer)?;
        self.acts = self.acts.wrapping_add(1);
        self.answered = self.acts;
        Ok(())
    }

    /// Moves the data of a held command, and lets it go.
    ///
    /// # Errors
    ///
    /// `Tag` above 31; `NotHeld`; `Length`: the payload has not as many bytes as [`Drive::expects`] says. Want of
    /// memory. The drive is then as before, and without want of memory the last answer too.
    pub fn complete(&mut self, tag: u8, payload: &[u8]) -> Result<(), CallError>
        ensures done { OnOk result (CompletesHeld self.old self.new tag payload.now) }
        ensures fault { MatchResult result
            (λ _. completion_fault self.old.drive tag payload.now ≡ None)
            (λ e. IsFirstFault (completion_fault self.old.drive tag payload.now) e) }
        ensures err { OnErr result (IsRefusedAs (completion_fault self.old.drive tag payload.now)
            self.old self.new) }
    {
        let Some(tag) = Tag::new(tag) else {
            return Err(CallError::Tag);
        };
        if !self.drive.holds(tag) {
            return Err(CallError::NotHeld);
        }
        if payload.len() != self.drive.expects(tag) {
            return Err(CallError::Length);
        }
        self.forget();
        match self.drive.complete(tag, payload) {
            Ok(done) => {
                self.done = Some(done);
                self.acts = self.acts.wrapping_add(1);
                Ok(())
            }
            Err(error) => Err(of_drive(error)),
        }
    }

    /// What the last call gave, in numbers.
    pub fn answer(&self) -> Answer
        ensures { result ≡ numbers_at self.now }
    {
        match &self.done {
            Some(done) => Answer {
                code: DONE,
                status: READY,
                error: 0,
                held: false,
                denied: false,
                length: done.bytes.len(),
            },
            None => Answer {
                code: DONE,
                status: self.answer.status,
                error: self.answer.error,
                held: self.answer.held,
                denied: self.answer.denied.is_some(),
                length: self.answer.bytes.len(),
            },
        }
    }

    /// The data of the last answer.
    pub fn last_data(&self) -> &[u8]
        ensures { result.now ≡ last_bytes self.now }
    {
        match &self.done {
            Some(done) => &done.bytes,
            None => &self.answer.bytes,
        }
    }

    /// [`DriveDesk::accept`], answered in numbers.
    pub fn take_command(&mut self, fis: &[u8], payload: &[u8]) -> Answer
        ensures { IsTakenAs self.old self.new fis.now payload.now result }
    {
        match self.accept(fis, payload) {
            Ok(()) => self.answer(),
            Err(error) => Answer::refused(error),
        }
    }

    /// [`DriveDesk::complete`], answered in numbers.
    pub fn finish(&mut self, tag: u8, payload: &[u8]) -> Answer
        ensures { IsFinishedAs self.old self.new tag payload.now result }
    {
        match self.complete(tag, payload) {
            Ok(()) => self.answer(),
            Err(error) => Answer::refused(error),
        }
    }

    /// Puts the data of an answer at the front of a buffer, where they have room there.
    fn lay_data(&self, answer: &Answer, into: &mut [u8])
        ensures { into.new ≡ laid_data answer.now self.now into.old }
    {
        let data = self.last_data();
        if answer.code == DONE && data.len() <= into.len() {
            into[..data.len()].copy_from_slice(data);
        }
    }

    /// [`DriveDesk::take_command`], with the data of the answer in a buffer.
    pub fn take_command_into(&mut self, fis: &[u8], payload: &[u8], into: &mut [u8]) -> Answer
        ensures taken { IsTakenAs self.old self.new fis.now payload.now result }
        ensures laid { into.new ≡ laid_data result self.new into.old }
    {
        let told = self.take_command(fis, payload);
        self.lay_data(&told, into);
        told
    }

    /// [`DriveDesk::finish`], with the data of the answer in a buffer.
    pub fn finish_into(&mut self, tag: u8, payload: &[u8], into: &mut [u8]) -> Answer
        ensures finished { IsFinishedAs self.old self.new tag payload.now result }
        ensures laid { into.new ≡ laid_data result self.new into.old }
    {
        let told = self.finish(tag, payload);
        self.lay_data(&told, into);
        told
    }

    /// How many bytes a command brings, by its FIS.
    pub fn payload_length(&self, fis: &[u8]) -> Count
        ensures { result ≡ payload_count self.now.drive fis.now }
    {
        match fis.as_array::<H2D_LENGTH>() {
            Some(fis) => Count::of(self.drive.payload_len(fis)),
            None => Count::refused(CallError::Length),
        }
    }

    /// How many bytes a completion of what is held under a tag brings.
    pub fn expected_length(&self, tag: u8) -> Count
        ensures { result ≡ expected_count self.now.drive tag }
    {
        let Some(tag) = Tag::new(tag) else {
            return Count::refused(CallError::Tag);
        };
        if !self.drive.holds(tag) {
            return Count::refused(CallError::NotHeld);
        }
        Count::of(self.drive.expects(tag))
    }

    /// Resets the drive: 0 is a power cycle, 1 a hardware reset. It tells 0, or the number of the refusal.
    pub fn reset(&mut self, kind: u32) -> u32
        ensures { IsResetAs self.old self.new kind result }
    {
        let kind = match kind {
            0 => ResetKind::Power,
            1 => ResetKind::Hardware,
            _ => return CallError::Number.code(),
        };
        self.drive.reset(kind);
        self.acts = self.acts.wrapping_add(1);
        DONE
    }

    /// How the queue has failed, if it has.
    pub fn failure(&self) -> Failed
        ensures { result ≡ failure_numbers self.now.drive.queue.failure }
    {
        Failed::of(self.drive.failure())
    }

    /// Copies the data of the last answer into a buffer.
    pub fn copy_data(&self, into: &mut [u8]) -> Count
        ensures { IsCopied (last_bytes self.now) into.old into.new result }
    {
        copy_out(self.last_data(), into)
    }
}
