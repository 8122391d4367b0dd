//! What a handle has.

ghost use Rattle.std.specs.Prelude.{◌≡◌, IfOk, IfErr};
ghost use Rattle.opalport_c.specs.Calls.{OfDrive, WritesNone};
ghost use Rattle.library_calls.specs.Copies.{IsCopied, IsWrittenOut};
ghost use Rattle.library_calls.specs.Counts.{refused_count};
ghost use Rattle.library_calls.specs.Refusals.{code_of_call};
ghost use Rattle.library_calls.specs.declared.byte_calls.error.CallError.TheVariants.{OutOfMemory};
ghost use Rattle.opalport_c.specs.Answers.{refused_answer};
ghost use Rattle.opalport_c.specs.Denials.{denial_at};
ghost use Rattle.opalport_c.specs.Desks.{IsTakenAs, IsFinishedAs, IsResetAs, payload_count, expected_count, last_bytes, laid_data};
ghost use Rattle.opalport_c.specs.Failures.{failure_numbers, refused_failure};

use crate::answer::Answer;
use crate::drive_desk::DriveDesk;
use crate::failed::Failed;
use library_calls::byte_calls::{CallError, Count};
use library_calls::hba_calls::HbaDesk;
use library_calls::port_calls::PortDesk;
use std::alloc::Global;

/// What a handle has.
#[derive(Drop)]
pub enum Object {
    Drive(DriveDesk),
    Port(PortDesk),
    Hba(HbaDesk),
}

impl Object {
    /// In a box of its own.
    #[inline(always)]
    pub(crate) fn boxed(self, alloc: Global) -> Result<Box<Object>, CallError>
        ensures value { IfOk result (λ object. object.value ≡ self) }
        ensures memory { IfErr result (λ e. e ≡ OutOfMemory) }
    {
        match Box::new(alloc, self) {
            Ok(object) => Ok(object),
            // Named, it is dropped by a call; behind `_` the prover looks at each field of each kind.
            Err(refused) => {
                drop(refused.value);
                Err(CallError::OutOfMemory)
            }
        }
    }

    /// Gives a drive a command.
    pub(crate) fn take_command(&mut self, fis: &[u8], payload: &[u8]) -> Answer
        ensures { OfDrive self.old self.new (λ e. result ≡ refused_answer e)
            (λ d e. IsTakenAs d e fis.now payload.now result) }
    {
        match self {
            Object::Drive(desk) => desk.take_command(fis, payload),
            Object::Port(_) | Object::Hba(_) => Answer::refused(CallError::OtherKind),
        }
    }

    /// Has a drive complete what it holds under a tag.
    pub(crate) fn finish(&mut self, tag: u8, payload: &[u8]) -> Answer
        ensures { OfDrive self.old self.new (λ e. result ≡ refused_answer e)
            (λ d e. IsFinishedAs d e tag payload.now result) }
    {
        match self {
            Object::Drive(desk) => desk.finish(tag, payload),
            Object::Port(_) | Object::Hba(_) => Answer::refused(CallError::OtherKind),
        }
    }

    /// [`Object::take_command`], with the data of the answer in a buffer.
    pub(crate) fn take_command_into(
        &mut self,
        fis: &[u8],
        payload: &[u8],
        into: &mut [u8],
    ) -> Answer
        ensures { OfDrive self.old self.new
            (λ e. (result ≡ refused_answer e) × (into.new ≡ into.old))
            (λ d e. IsTakenAs d e fis.now payload.now result
            × (into.new ≡ laid_data result e into.old)) }
    {
        match self {
            Object::Drive(desk) => desk.take_command_into(fis, payload, into),
            Object::Port(_) | Object::Hba(_) => Answer::refused(CallError::OtherKind),
        }
    }

    /// [`Object::finish`], with the data of the answer in a buffer.
    pub(crate) fn finish_into(&mut self, tag: u8, payload: &[u8], into: &mut [u8]) -> Answer
        ensures { OfDrive self.old self.new
            (λ e. (result ≡ refused_answer e) × (into.new ≡ into.old))
            (λ d e. IsFinishedAs d e tag payload.now result
            × (into.new ≡ laid_data result e into.old)) }
    {
        match self {
            Object::Drive(desk) => desk.finish_into(tag, payload, into),
            Object::Port(_) | Object::Hba(_) => Answer::refused(CallError::OtherKind),
        }
    }

    /// Resets a drive.
    pub(crate) fn reset(&mut self, kind: u32) -> u32
        ensures { OfDrive self.old self.new (λ e. result ≡ code_of_call e)
            (λ d e. IsResetAs d e kind result) }
    {
        match self {
            Object::Drive(desk) => desk.reset(kind),
            Object::Port(_) | Object::Hba(_) => CallError::OtherKind.code(),
        }
    }

    /// How many bytes a command brings.
    pub(crate) fn payload_length(&mut self, fis: &[u8]) -> Count
        ensures { OfDrive self.old self.new (λ e. result ≡ refused_count e)
            (λ d e. (result ≡ payload_count d.drive fis.now) × (e ≡ d)) }
    {
        match self {
            Object::Drive(desk) => desk.payload_length(fis),
            Object::Port(_) | Object::Hba(_) => Count::refused(CallError::OtherKind),
        }
    }

    /// How many bytes a completion brings.
    pub(crate) fn expected_length(&mut self, tag: u8) -> Count
        ensures { OfDrive self.old self.new (λ e. result ≡ refused_count e)
            (λ d e. (result ≡ expected_count d.drive tag) × (e ≡ d)) }
    {
        match self {
            Object::Drive(desk) => desk.expected_length(tag),
            Object::Port(_) | Object::Hba(_) => Count::refused(CallError::OtherKind),
        }
    }

    /// How the queue of a drive has failed.
    pub(crate) fn failure(&mut self) -> Failed
        ensures { OfDrive self.old self.new (λ e. result ≡ refused_failure e)
            (λ d e. (result ≡ failure_numbers d.drive.queue.failure) × (e ≡ d)) }
    {
        match self {
            Object::Drive(desk) => desk.failure(),
            Object::Port(_) | Object::Hba(_) => Failed::refused(CallError::OtherKind),
        }
    }

    /// Copies the data of a drive's last answer.
    pub(crate) fn copy_data(&mut self, into: &mut [u8]) -> Count
        ensures { OfDrive self.old self.new (WritesNone into.old into.new result)
            (λ d e. IsCopied (last_bytes d) into.old into.new result × (e ≡ d)) }
    {
        match self {
            Object::Drive(desk) => desk.copy_data(into),
            Object::Port(_) | Object::Hba(_) => Count::refused(CallError::OtherKind),
        }
    }

    /// Copies what denied a drive's last command.
    pub(crate) fn copy_denial(&mut self, alloc: Global, client: u32, into: &mut [u8]) -> Count
        ensures { OfDrive self.old self.new (WritesNone into.old into.new result)
            (λ d e. IsWrittenOut (denial_at d client) into.old into.new result × (e ≡ d)) }
    {
        match self {
            Object::Drive(desk) => desk.copy_denial(alloc, client, into),
            Object::Port(_) | Object::Hba(_) => Count::refused(CallError::OtherKind),
        }
    }
}
