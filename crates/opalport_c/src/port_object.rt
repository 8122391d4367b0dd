//! What a handle has, where it is a port.

ghost use Rattle.std.specs.Prelude.{◌≡◌};
ghost use Rattle.library_calls.specs.Copies.{IsCopied, IsWrittenOut};
ghost use Rattle.library_calls.specs.Counts.{refused_count};
ghost use Rattle.library_calls.specs.Refusals.{code_of_call};
ghost use Rattle.opalport_c.specs.Calls.{WritesNone};
ghost use Rattle.opalport_c.specs.PortCalls.{OfPort};
ghost use Rattle.library_calls.specs.Desk.{TakesStep, StepsUnder, PutsBy, ResetsBy, TakesUnder, TakesTurn, ListsReady};
ghost use Rattle.library_calls.specs.Shown.{shown_numbers, refused_shown, logged_text};
ghost use Rattle.library_calls.specs.PortCallsTold.{refused_take, answer_bytes};
ghost use Rattle.port.specs.Live.{line_kept};
ghost use Rattle.port_history.specs.declared.step.Step.TheVariants as steps;

use crate::object::Object;
use library_calls::byte_calls::{CallError, Count};
use library_calls::port_calls::{Asked, ReadyStep, Shown, Taken};
use std::alloc::Global;

impl Object {
    /// A client of a port puts a request.
    pub(crate) fn put(
        &mut self,
        alloc: Global,
        client: u32,
        tag: u8,
        asked: &Asked,
        payload: &[u8],
    ) -> Count
        ensures { OfPort self.old self.new (λ e. result ≡ refused_count e)
            (λ d e. PutsBy d e client tag asked.now payload.now result) }
    {
        match self {
            Object::Port(desk) => desk.put(alloc, client, tag, asked, payload),
            Object::Drive(_) | Object::Hba(_) => Count::refused(CallError::OtherKind),
        }
    }

    /// Has a port issue a prepared command.
    pub(crate) fn issue(&mut self, tag: u8) -> Count
        ensures { OfPort self.old self.new (λ e. result ≡ refused_count e)
            (λ d e. StepsUnder d e steps.Issue tag result) }
    {
        match self {
            Object::Port(desk) => desk.issue(tag),
            Object::Drive(_) | Object::Hba(_) => Count::refused(CallError::OtherKind),
        }
    }

    /// Has the device of a port take an issued command.
    pub(crate) fn accept(&mut self, tag: u8) -> Count
        ensures { OfPort self.old self.new (λ e. result ≡ refused_count e)
            (λ d e. StepsUnder d e steps.Accept tag result) }
    {
        match self {
            Object::Port(desk) => desk.accept(tag),
            Object::Drive(_) | Object::Hba(_) => Count::refused(CallError::OtherKind),
        }
    }

    /// Has the device of a port end an accepted command.
    pub(crate) fn complete(&mut self, tag: u8) -> Count
        ensures { OfPort self.old self.new (λ e. result ≡ refused_count e)
            (λ d e. StepsUnder d e steps.Complete tag result) }
    {
        match self {
            Object::Port(desk) => desk.complete(tag),
            Object::Drive(_) | Object::Hba(_) => Count::refused(CallError::OtherKind),
        }
    }

    /// Has a port recover from a failed command.
    pub(crate) fn recover(&mut self) -> Count
        ensures { OfPort self.old self.new (λ e. result ≡ refused_count e)
            (λ d e. TakesStep d e steps.Recover result) }
    {
        match self {
            Object::Port(desk) => desk.recover(),
            Object::Drive(_) | Object::Hba(_) => Count::refused(CallError::OtherKind),
        }
    }

    /// A client resets a port and its drive.
    pub(crate) fn reset_port(&mut self, client: u32, kind: u32) -> Count
        ensures { OfPort self.old self.new (λ e. result ≡ refused_count e)
            (λ d e. ResetsBy d e client kind result) }
    {
        match self {
            Object::Port(desk) => desk.reset(client, kind),
            Object::Drive(_) | Object::Hba(_) => Count::refused(CallError::OtherKind),
        }
    }

    /// A client of a port takes its answer.
    pub(crate) fn take_answer(&mut self, client: u32, tag: u8) -> Taken
        ensures { OfPort self.old self.new (λ e. result ≡ refused_take (code_of_call e))
            (λ d e. TakesUnder d e client tag result) }
    {
        match self {
            Object::Port(desk) => desk.take(client, tag),
            Object::Drive(_) | Object::Hba(_) => Taken::refused(CallError::OtherKind.code()),
        }
    }

    /// The engine of a port does a step of those that are ready.
    pub(crate) fn turn(&mut self, choice: usize) -> Count
        ensures { OfPort self.old self.new (λ e. result ≡ refused_count e)
            (λ d e. TakesTurn d e choice result) }
    {
        match self {
            Object::Port(desk) => desk.turn(choice),
            Object::Drive(_) | Object::Hba(_) => Count::refused(CallError::OtherKind),
        }
    }

    /// Writes the steps that the engine of a port may do.
    pub(crate) fn copy_ready(&mut self, into: &mut [ReadyStep]) -> Count
        ensures { OfPort self.old self.new (WritesNone into.old into.new result)
            (λ d e. ListsReady d into.old into.new result × (e ≡ d)) }
    {
        match self {
            Object::Port(desk) => desk.copy_ready(into),
            Object::Drive(_) | Object::Hba(_) => Count::refused(CallError::OtherKind),
        }
    }

    /// Copies the data of what was taken of a port last.
    pub(crate) fn copy_taken(&mut self, into: &mut [u8]) -> Count
        ensures { OfPort self.old self.new (WritesNone into.old into.new result)
            (λ d e. IsCopied (answer_bytes d.last) into.old into.new result × (e ≡ d)) }
    {
        match self {
            Object::Port(desk) => desk.copy_taken(into),
            Object::Drive(_) | Object::Hba(_) => Count::refused(CallError::OtherKind),
        }
    }

    /// What a port shows.
    pub(crate) fn shown(&mut self) -> Shown
        ensures { OfPort self.old self.new (λ e. result ≡ refused_shown e)
            (λ d e. (result ≡ shown_numbers d.port) × (e ≡ d)) }
    {
        match self {
            Object::Port(desk) => desk.shown(),
            Object::Drive(_) | Object::Hba(_) => Shown::refused(CallError::OtherKind),
        }
    }

    /// Copies a line of the audit log of a port.
    pub(crate) fn copy_logged(&mut self, alloc: Global, place: usize, into: &mut [u8]) -> Count
        ensures { OfPort self.old self.new (WritesNone into.old into.new result)
            (λ d e. IsWrittenOut (logged_text (line_kept d.port place)) into.old
            into.new result × (e ≡ d)) }
    {
        match self {
            Object::Port(desk) => desk.copy_logged(alloc, place, into),
            Object::Drive(_) | Object::Hba(_) => Count::refused(CallError::OtherKind),
        }
    }
}
