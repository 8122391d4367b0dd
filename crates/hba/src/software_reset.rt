//! FISes that carry no command, and the software reset that a pair of them makes (AHCI 1.3.1, 10.4.1).

ghost use Rattle.std.specs.Prelude.{◌≡◌, ◌<◌, ◌^◌, OnErr, IfOk, None, slice_index, true, false};
ghost use Rattle.fis.specs.Types.{h2d_type};
ghost use Rattle.hba.specs.declared.work.Done.TheVariants as dones;

use crate::engine::signature_fis;
use crate::hba::{Hba, one_more};
use crate::registers::{AWAITED, Registers};
use crate::work::{Done, Outcome};
use fis::{H2D_LENGTH, H2D_TYPE, Tag};
use host_memory::HostMemory;
use host_memory::hba_memory::{Place, post_all};
use std::alloc::AllocError;

/// Where the Control field of a register FIS stands, and its bit SRST (ACS-3, Device Control).
const CONTROL_FIELD: usize = 15;

const SOFTWARE_RESET: u8 = 0x04;

/// What a FIS that carries no command was done with.
fn of_control() -> Outcome
    ensures { result ≡ record { done = dones.Control; heard = None } }
{
    Outcome {
        done: Done::Control,
        heard: None,
    }
}

impl Registers {
    ghost use Rattle.hba.specs.SoftwareReset.{resets_behind, asserted, reset_ended, unheard};

    /// Whether SRST is set behind a FIS that carries no command.
    fn resets_behind(&self, fis: &[u8; H2D_LENGTH]) -> bool
        ensures { result ≡ resets_behind self.now.in_reset fis.now }
    {
        if fis[0] == H2D_TYPE {
            fis[CONTROL_FIELD] & SOFTWARE_RESET == SOFTWARE_RESET
        } else {
            self.in_reset
        }
    }

    /// A FIS sets SRST.
    fn enter_reset(&mut self, tag: Tag)
        ensures { self.new ≡ asserted tag self.old }
    {
        self.control(tag);
        self.in_reset = true;
    }

    /// A FIS clears SRST, and the device tells its signature.
    fn leave_reset(&mut self, tag: Tag)
        ensures { self.new ≡ reset_ended tag self.old }
    {
        self.control(tag);
        self.in_reset = false;
        self.sign();
    }

    /// A device in reset takes no command.
    fn stay_busy(&mut self, tag: Tag)
        ensures { self.new ≡ unheard tag self.old }
    {
        let (status, error) = (self.port.status(), self.port.error());
        self.port.set_task(status | AWAITED, error);
        self.fetch(tag);
    }
}

impl Hba {
    ghost use Rattle.hba.specs.History.{Controlled, Asserted, Restarted, Unheard, Adds, IsHeard};
    ghost use Rattle.hba.specs.Engine.{HasRead, Controls, ControlsTo, HearsIf, TurnsAs};
    ghost use Rattle.hba.specs.declared.work.Done.TheVariants as dones;

    /// A FIS without a command, which leaves SRST clear, is done.
    fn drop_control(&mut self, tag: Tag)
        ensures { Adds (Controlled tag) self.old self.new }
    {
        self.registers.control(tag);
    }

    /// The device is in reset.
    fn enter_reset(&mut self, tag: Tag)
        ensures { Adds (Asserted tag) self.old self.new }
    {
        self.registers.enter_reset(tag);
    }

    /// The drive's queue ends, and the device is out of reset.
    fn leave_reset(&mut self, tag: Tag)
        ensures { Adds (Restarted tag) self.old self.new }
    {
        self.drive.software_reset();
        self.acts = one_more(self.acts);
        self.registers.leave_reset(tag);
    }

    /// A device in reset takes no command.
    fn stay_busy(&mut self, tag: Tag)
        ensures { Adds (Unheard tag) self.old self.new }
    {
        self.registers.stay_busy(tag);
    }

    /// The device tells its signature, and is out of reset.
    fn restart<M: HostMemory>(&mut self, tag: Tag, memory: &mut M)
        ensures { TurnsAs M.does (λ o a. ControlsTo false true a tag)
            self.old memory.old self.new memory.new dones.Control (IsHeard None) }
    {
        let to = self.registers.received_at();
        let _ = post_all(memory, self.width(), to, &[signature_fis()]);
        self.leave_reset(tag);
    }

    /// A FIS that carries no command is taken.
    fn take_control<M: HostMemory>(&mut self, tag: Tag, fis: &[u8; H2D_LENGTH], memory: &mut M)
        ensures { TurnsAs M.does (λ o a. Controls a tag fis.now)
            self.old memory.old self.new memory.new dones.Control (IsHeard None) }
    {
        if self.registers.resets_behind(fis) {
            self.enter_reset(tag);
        } else if self.registers.in_reset {
            self.restart(tag, memory);
        } else {
            self.drop_control(tag);
        }
    }

    /// A FIS that carries no command is done.
    pub(crate) fn control<M: HostMemory>(
        &mut self,
        tag: Tag,
        fis: &[u8; H2D_LENGTH],
        memory: &mut M,
    ) -> Outcome
        ensures { TurnsAs M.does (λ o a. Controls a tag fis.now)
            self.old memory.old self.new memory.new result.done (IsHeard result.heard) }
    {
        self.take_control(tag, fis, memory);
        of_control()
    }

    /// The engine executes the command of a slot, unless the device is in reset.
    pub(crate) fn hear<M: HostMemory>(
        &mut self,
        fis: &[u8; H2D_LENGTH],
        tag: Tag,
        place: Place,
        memory: &mut M,
    ) -> Result<Outcome, AllocError>
        requires near { place.at < 2 ^ 65 }
        requires kind { slice_index fis.now 0 ≡ h2d_type }
        ensures done { IfOk result (λ r. TurnsAs M.does
            (λ o a. HearsIf a.registers.in_reset o a place tag fis.now)
            self.old memory.old self.new memory.new r.done (IsHeard r.heard)) }
        ensures err { OnErr result (self.new ≡ self.old) }
        ensures kept { OnErr result (HasRead M.does self.old memory.old memory.new) }
    {
        if self.registers.in_reset {
            self.stay_busy(tag);
            return Ok(of_control());
        }
        self.execute(tag, place, fis, memory)
    }
}
