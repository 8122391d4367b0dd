//! A controller, with what denied the command of its last turn.

use crate::byte_calls::{CallError, Count, DONE, copy_out, copy_text};
use crate::denied::Denied;
use crate::hba_calls::over::{turn_over, turn_within};
use crate::hba_calls::regions::Region;
use crate::hba_calls::worked::{Worked, worked_tag};
use audit::{AuditLine, line_bytes};
use hba::{Hba, Turned};
use port::copy_line;
use std::alloc::{AllocError, Global};

/// A controller that a caller from outside works on, with what denied the command of its last turn.
#[derive(Drop)]
pub struct HbaDesk {
    pub hba: Hba,
    /// The number of the drive's act, the tag, and the reason.
    pub denied: Option<AuditLine>,
}

impl HbaDesk {
    ghost use Rattle.std.specs.Prelude.{◌≡◌, None, IfOk, IfErr};
    ghost use Rattle.library_calls.specs.declared.byte_calls.error.CallError.TheVariants.{OutOfMemory};
    ghost use Rattle.library_calls.specs.Copies.{IsWrittenOut};
    ghost use Rattle.library_calls.specs.Counts.{given_count};
    ghost use Rattle.library_calls.specs.Denied.{line_numbers};
    ghost use Rattle.fis.specs.Bytes.{bit};
    ghost use Rattle.hba.specs.Registers.{word_at, line};
    ghost use Rattle.host_memory.specs.Window.{StandsSo};
    ghost use Rattle.library_calls.specs.Regions.{StandsWithin};
    ghost use Rattle.library_calls.specs.HbaCallsDesk.{WritesHba, CyclesHba, TurnsDesk, denied_line, denied_after, denied_text};

    /// A controller that did no turn.
    pub fn new(hba: Hba) -> HbaDesk
        ensures hba { result.hba ≡ hba }
        ensures denied { result.denied ≡ None }
    {
        HbaDesk { hba, denied: None }
    }

    /// The same controller once more, in memory of its own, with what denied the command of its last turn.
    ///
    /// # Errors
    ///
    /// `OutOfMemory`.
    pub fn copy(&self) -> Result<HbaDesk, CallError>
        ensures copied { IfOk result (λ copied. (copied.hba ≡ self.now.hba)
            × (copied.denied ≡ self.now.denied)) }
        ensures why { IfErr result (λ e. e ≡ OutOfMemory) }
    {
        let hba = self.hba.copy()?;
        let denied = match &self.denied {
            Some(line) => Some(copy_line(line)?),
            None => None,
        };
        Ok(HbaDesk { hba, denied })
    }

    /// The word that the host reads at an offset: 0 where no register stands.
    pub fn read(&self, offset: u32) -> Count
        ensures { result ≡ given_count (word_at self.now.hba.registers offset) }
    {
        Count::of(self.hba.read(offset) as usize)
    }

    /// The host's write of a word at an offset. It tells 0.
    pub fn write(&mut self, offset: u32, value: u32) -> u32
        ensures { WritesHba self.old self.new offset value result }
    {
        self.hba.write(offset, value);
        DONE
    }

    /// The controller and its drive lose power, and have it again. It tells 0.
    pub fn power_cycle(&mut self) -> u32
        ensures { CyclesHba self.old self.new result }
    {
        self.hba.power_cycle();
        DONE
    }

    /// The interrupt line, as 0 or 1.
    pub fn interrupt(&self) -> Count
        ensures { result ≡ given_count (bit (line self.now.hba.registers)) }
    {
        Count::of(usize::from(self.hba.interrupt()))
    }

    /// Keeps what denied the command of a turn that was done.
    fn keep(&mut self, outcome: Result<Option<Turned>, AllocError>)
        ensures hba { self.new.hba ≡ self.old.hba }
        ensures denied { self.new.denied ≡ denied_after self.old.hba.acts self.old.denied outcome }
    {
        let Ok(Some(turned)) = outcome else {
            return;
        };
        let Turned { work, denied, .. } = turned;
        let step = self.hba.acts();
        let client = u32::from(worked_tag(work));
        self.denied = match denied {
            Some(why) => Some(AuditLine { step, client, why }),
            None => None,
        };
    }

    /// The controller does the work of this number, modulo how many there are, over the bytes that stand at a base address.
    pub fn turn(&mut self, choice: usize, base: u64, bytes: &mut [u8]) -> Worked
        ensures { TurnsDesk self.old self.new choice (StandsSo base) bytes.old bytes.new result }
    {
        let outcome = turn_over(&mut self.hba, choice, base, bytes);
        let told = Worked::told(&outcome);
        self.keep(outcome);
        told
    }

    /// The same, where of those bytes the ones that lie in the regions alone are memory: an access is answered where all its
    /// bytes lie in one region.
    pub fn turn_within(
        &mut self,
        choice: usize,
        base: u64,
        bytes: &mut [u8],
        regions: &[Region],
    ) -> Worked
        ensures { TurnsDesk self.old self.new choice (StandsWithin regions.now base) bytes.old
            bytes.new result }
    {
        let outcome = turn_within(&mut self.hba, choice, base, bytes, regions);
        let told = Worked::told(&outcome);
        self.keep(outcome);
        told
    }

    /// What denied the command of the last turn, as numbers.
    pub fn denied(&self) -> Denied
        ensures { result ≡ line_numbers self.now.denied }
    {
        Denied::of(self.denied.as_ref())
    }

    /// Copies the line of the audit log that tells what denied the command of the last turn, into a buffer: no bytes, where
    /// nothing did.
    pub fn copy_denied(&self, alloc: Global, into: &mut [u8]) -> Count
        ensures { IsWrittenOut (denied_text self.now.denied) into.old into.new result }
    {
        match &self.denied {
            Some(line) => copy_text(line_bytes(alloc, line), into),
            None => copy_out(&[], into),
        }
    }
}
