//! A port, with what was taken of it last.

ghost use Rattle.std.specs.Prelude.{◌≡◌};
ghost use Rattle.library_calls.specs.Desk.{kind_asked};

use crate::byte_calls::{CallError, Count, copy_out, copy_text};
use crate::denied::Denied;
use crate::port_calls::asked::{Asked, request_asked};
use crate::port_calls::ready::{ReadyStep, list_out};
use crate::port_calls::refusals::{code_of, told, told_turn};
use crate::port_calls::shown::Shown;
use crate::port_calls::taken::Taken;
use audit::line_bytes;
use drive::ResetKind;
use fis::Tag;
use port::{Answer, LivePort};
use std::alloc::Global;

/// A port that a caller from outside works on, with what was taken of it last.
#[derive(Drop)]
pub struct PortDesk {
    pub port: LivePort,
    /// What the last Take gave.
    pub last: Answer,
}

/// The reset of a number.
fn kind_asked(number: u32) -> Option<ResetKind>
    ensures { result ≡ kind_asked number }
{
    match number {
        0 => Some(ResetKind::Power),
        1 => Some(ResetKind::Hardware),
        _ => None,
    }
}

impl PortDesk {
    ghost use Rattle.std.specs.Prelude.{◌≡◌, ℕ, List, IfOk, IfErr};
    ghost use Rattle.library_calls.specs.declared.byte_calls.error.CallError.TheVariants.{OutOfMemory};
    ghost use Rattle.library_calls.specs.Copies.{IsCopied, IsWrittenOut};
    ghost use Rattle.history.specs.Opening.{Origin};
    ghost use Rattle.port.specs.Live.{line_kept};
    ghost use Rattle.port_history.specs.declared.step.Step.{Step};
    ghost use Rattle.port_history.specs.declared.step.Step.TheVariants as steps;
    ghost use Rattle.port_history.specs.Requests.{no_bytes};
    ghost use Rattle.library_calls.specs.Denied.{line_numbers};
    ghost use Rattle.library_calls.specs.Desk.{PutsBy, StepsUnder, TakesStep, ResetsBy, TakesUnder, TakesTurn, ListsReady};
    ghost use Rattle.library_calls.specs.Shown.{shown_numbers, logged_text};
    ghost use Rattle.library_calls.specs.PortCallsTold.{answer_bytes};

    /// A port of which nothing was taken yet.
    pub fn new(port: LivePort) -> PortDesk
        ensures port { result.port ≡ port }
        ensures last { result.last ≡ no_bytes }
    {
        PortDesk {
            port,
            last: Answer::nothing(),
        }
    }

    /// The same port once more, in memory of its own, of which nothing was taken yet.
    ///
    /// # Errors
    ///
    /// `OutOfMemory`.
    pub fn copy(&self) -> Result<PortDesk, CallError>
        ensures port { IfOk result (λ copied. copied.port ≡ self.now.port) }
        ensures last { IfOk result (λ copied. copied.last ≡ no_bytes) }
        ensures why { IfErr result (λ e. e ≡ OutOfMemory) }
    {
        let port = self.port.copy()?;
        Ok(PortDesk::new(port))
    }

    /// A client puts a request in the slot of a tag.
    pub fn put(
        &mut self,
        alloc: Global,
        client: u32,
        tag: u8,
        asked: &Asked,
        payload: &[u8],
    ) -> Count
        ensures { PutsBy self.old self.new client tag asked.now payload.now result }
    {
        let Some(tag) = Tag::new(tag) else {
            return Count::refused(CallError::Tag);
        };
        match request_asked(alloc, asked, payload) {
            Ok(request) => told(self.port.put(client, tag, &request)),
            Err(error) => Count::refused(error),
        }
    }

    /// Issues a prepared command.
    pub fn issue(&mut self, tag: u8) -> Count
        ensures { StepsUnder self.old self.new steps.Issue tag result }
    {
        match Tag::new(tag) {
            Some(tag) => told(self.port.issue(tag)),
            None => Count::refused(CallError::Tag),
        }
    }

    /// The device takes an issued command.
    pub fn accept(&mut self, tag: u8) -> Count
        ensures { StepsUnder self.old self.new steps.Accept tag result }
    {
        match Tag::new(tag) {
            Some(tag) => told(self.port.accept(tag)),
            None => Count::refused(CallError::Tag),
        }
    }

    /// The device moves the data of an accepted command, and ends it.
    pub fn complete(&mut self, tag: u8) -> Count
        ensures { StepsUnder self.old self.new steps.Complete tag result }
    {
        match Tag::new(tag) {
            Some(tag) => told(self.port.complete(tag)),
            None => Count::refused(CallError::Tag),
        }
    }

    /// The port recovers from a failed command.
    pub fn recover(&mut self) -> Count
        ensures { TakesStep self.old self.new steps.Recover result }
    {
        told(self.port.recover())
    }

    /// A client resets the port and the drive: 0 is a power cycle, 1 a hardware reset.
    pub fn reset(&mut self, client: u32, kind: u32) -> Count
        ensures { ResetsBy self.old self.new client kind result }
    {
        match kind_asked(kind) {
            Some(kind) => told(self.port.reset(client, kind)),
            None => Count::refused(CallError::Number),
        }
    }

    /// A client takes its answer, and the slot is free.
    pub fn take(&mut self, client: u32, tag: u8) -> Taken
        ensures { TakesUnder self.old self.new client tag result }
    {
        let Some(tag) = Tag::new(tag) else {
            return Taken::refused(CallError::Tag.code());
        };
        match self.port.take(client, tag) {
            Ok((number, answer)) => {
                let taken = Taken::of(number, &answer);
                self.last = answer;
                taken
            }
            Err(error) => Taken::refused(code_of(error)),
        }
    }

    /// The engine does the step at `choice`, modulo their number, of those that are ready.
    pub fn turn(&mut self, choice: usize) -> Count
        ensures { TakesTurn self.old self.new choice result }
    {
        told_turn(self.port.turn(choice))
    }

    /// Writes the steps that the engine may do now into a buffer.
    pub fn copy_ready(&self, into: &mut [ReadyStep]) -> Count
        ensures { ListsReady self.now into.old into.new result }
    {
        list_out(self.port.ready().as_slice(), into)
    }

    /// Copies the data of what was taken last into a buffer.
    pub fn copy_taken(&self, into: &mut [u8]) -> Count
        ensures { IsCopied (answer_bytes self.now.last) into.old into.new result }
    {
        match self.last.bytes() {
            Some(bytes) => copy_out(bytes, into),
            None => copy_out(&[], into),
        }
    }

    /// What the port shows.
    pub fn shown(&self) -> Shown
        ensures { result ≡ shown_numbers self.now.port }
    {
        Shown::of(&self.port)
    }

    /// The denial at a place of the audit log, 0 the oldest, as numbers, if it is one of the 64 latest: else none.
    pub fn denied(&self, place: usize) -> Denied
        ensures { result ≡ line_numbers (line_kept self.now.port place) }
    {
        Denied::of(self.port.denial(place as u64))
    }

    /// Copies the line of the audit log at a place, 0 the oldest, into a buffer, if it is one of the 64 latest: else no
    /// bytes.
    pub fn copy_logged(&self, alloc: Global, place: usize, into: &mut [u8]) -> Count
        ensures { IsWrittenOut (logged_text (line_kept self.now.port place))
            into.old into.new result }
    {
        match self.port.denial(place as u64) {
            Some(line) => copy_text(line_bytes(alloc, line), into),
            None => copy_out(&[], into),
        }
    }
}
