//! What a handle has, where it is a controller.

ghost use Rattle.std.specs.Prelude.{◌≡◌};
ghost use Rattle.library_calls.specs.Copies.{IsWrittenOut};
ghost use Rattle.library_calls.specs.Counts.{refused_count, given_count};
ghost use Rattle.library_calls.specs.Refusals.{code_of_call};
ghost use Rattle.fis.specs.Bytes.{bit};
ghost use Rattle.hba.specs.Registers.{word_at, line};
ghost use Rattle.host_memory.specs.Window.{StandsSo};
ghost use Rattle.library_calls.specs.Regions.{StandsWithin};
ghost use Rattle.library_calls.specs.HbaCallsDesk.{WritesHba, CyclesHba, TurnsDesk, denied_text};
ghost use Rattle.library_calls.specs.Worked.{refused_worked};
ghost use Rattle.opalport_c.specs.Calls.{WritesNone};
ghost use Rattle.opalport_c.specs.HbaCalls.{OfHba};

use crate::object::Object;
use library_calls::byte_calls::{CallError, Count};
use library_calls::hba_calls::{Region, Worked};
use std::alloc::Global;

impl Object {
    /// The word that the host of a controller reads.
    pub(crate) fn read(&mut self, offset: u32) -> Count
        ensures { OfHba self.old self.new (λ e. result ≡ refused_count e)
            (λ d e. (result ≡ given_count (word_at d.hba.registers offset)) × (e ≡ d)) }
    {
        match self {
            Object::Hba(desk) => desk.read(offset),
            Object::Drive(_) | Object::Port(_) => Count::refused(CallError::OtherKind),
        }
    }

    /// The host of a controller writes a word.
    pub(crate) fn write(&mut self, offset: u32, value: u32) -> u32
        ensures { OfHba self.old self.new (λ e. result ≡ code_of_call e)
            (λ d e. WritesHba d e offset value result) }
    {
        match self {
            Object::Hba(desk) => desk.write(offset, value),
            Object::Drive(_) | Object::Port(_) => CallError::OtherKind.code(),
        }
    }

    /// A controller loses power, and has it again.
    pub(crate) fn power_cycle(&mut self) -> u32
        ensures { OfHba self.old self.new (λ e. result ≡ code_of_call e)
            (λ d e. CyclesHba d e result) }
    {
        match self {
            Object::Hba(desk) => desk.power_cycle(),
            Object::Drive(_) | Object::Port(_) => CallError::OtherKind.code(),
        }
    }

    /// The interrupt line of a controller.
    pub(crate) fn interrupt(&mut self) -> Count
        ensures { OfHba self.old self.new (λ e. result ≡ refused_count e)
            (λ d e. (result ≡ given_count (bit (line d.hba.registers))) × (e ≡ d)) }
    {
        match self {
            Object::Hba(desk) => desk.interrupt(),
            Object::Drive(_) | Object::Port(_) => Count::refused(CallError::OtherKind),
        }
    }

    /// A controller does a turn over bytes.
    pub(crate) fn work(&mut self, choice: usize, base: u64, bytes: &mut [u8]) -> Worked
        ensures { OfHba self.old self.new
            (λ e. (result ≡ refused_worked e) × (bytes.new ≡ bytes.old))
            (λ d e. TurnsDesk d e choice (StandsSo base) bytes.old bytes.new result) }
    {
        match self {
            Object::Hba(desk) => desk.turn(choice, base, bytes),
            Object::Drive(_) | Object::Port(_) => Worked::refused(CallError::OtherKind),
        }
    }

    /// A controller does a turn over those of the bytes that lie in regions.
    pub(crate) fn work_within(
        &mut self,
        choice: usize,
        base: u64,
        bytes: &mut [u8],
        regions: &[Region],
    ) -> Worked
        ensures { OfHba self.old self.new
            (λ e. (result ≡ refused_worked e) × (bytes.new ≡ bytes.old))
            (λ d e. TurnsDesk d e choice (StandsWithin regions.now base) bytes.old bytes.new
            result) }
    {
        match self {
            Object::Hba(desk) => desk.turn_within(choice, base, bytes, regions),
            Object::Drive(_) | Object::Port(_) => Worked::refused(CallError::OtherKind),
        }
    }

    /// Copies what denied the command of a controller's last turn.
    pub(crate) fn copy_denied(&mut self, alloc: Global, into: &mut [u8]) -> Count
        ensures { OfHba self.old self.new (WritesNone into.old into.new result)
            (λ d e. IsWrittenOut (denied_text d.denied) into.old into.new result × (e ≡ d)) }
    {
        match self {
            Object::Hba(desk) => desk.copy_denied(alloc, into),
            Object::Drive(_) | Object::Port(_) => Count::refused(CallError::OtherKind),
        }
    }
}
