//! What the engine's work makes of the registers (AHCI 1.3.1, 5.5 and 6.2).

ghost use Rattle.std.specs.Prelude.{◌≡◌};
ghost use Rattle.hba.specs.Showing.{bits_of, shows_fises};

use crate::registers::Registers;
use fis::{Fis, Tag};
use hba_regs::PxIs;
use host_memory::hba_memory::{Arrival, Miss};
use port_history::show_all;

/// The status of a device that is ready.
const READY: u8 = 0x50;

/// The code of a device that passed its diagnostics (ACS-3, Error field).
const PASSED: u8 = 0x01;

/// PxIS.HBFS: bytes are no memory.
const MEMORY: u32 = 0x2000_0000;

/// PxIS.DPS: a block is done whose descriptor asks to tell of it.
const PROCESSED: u32 = 0x20;

/// PxIS.OFS: data are more than the PRDT names.
const OVERFLOW: u32 = 0x0100_0000;

/// The bit of PxIS that tells what was not there.
fn bits_of(miss: Miss) -> PxIs
    ensures { result.0 ≡ bits_of miss }
{
    match miss {
        Miss::Overflow => PxIs(OVERFLOW),
        Miss::List | Miss::Table | Miss::Block | Miss::Fis => PxIs(MEMORY),
    }
}

/// Whether the registers show the drive's FISes all the same.
fn shows_fises(miss: Miss) -> bool
    ensures { result ≡ shows_fises miss }
{
    match miss {
        Miss::Fis => true,
        Miss::List | Miss::Table | Miss::Block | Miss::Overflow => false,
    }
}

impl Registers {
    ghost use Rattle.std.specs.Prelude.{◌≡◌, if◌then◌else◌};
    ghost use Rattle.hba.specs.Showing.{signed, faulted, beginning, controlled, fetching, halting, answered, served, shortened, processed, moved, arrived};

    /// The device's first FIS after a reset.
    pub(crate) fn sign(&mut self)
        ensures { self.new ≡ signed self.old }
    {
        self.port.set_task(READY, PASSED);
        self.is_signed = true;
    }

    /// Memory that is not there.
    pub(crate) fn fault(&mut self, miss: Miss)
        ensures { self.new ≡ faulted miss self.old }
    {
        self.port.raise(bits_of(miss));
        self.is_halted = true;
        self.note();
    }

    /// A FIS that carries no command is done.
    pub(crate) fn control(&mut self, tag: Tag)
        ensures { self.new ≡ controlled tag self.old }
    {
        self.port.clear_issue(tag);
        self.fetch(tag);
    }

    /// A fetch under a tag begins, or a completion.
    pub(crate) fn begin(&mut self, fetched: Option<Tag>)
        ensures { self.new ≡ beginning fetched self.old }
    {
        if let Some(tag) = fetched {
            self.current = tag;
        }
    }

    /// The command of a tag is fetched.
    pub(crate) fn fetch(&mut self, tag: Tag)
        ensures { self.new ≡ fetching tag self.old }
    {
        self.current = tag;
    }

    /// A status with ERR halts the port.
    fn halt(&mut self)
        ensures { self.new ≡ halting self.old }
    {
        self.is_halted = self.is_halted || self.port.status() % 2 == 1;
    }

    /// FISes of the drive for the command of a tag, in their order.
    fn answer(&mut self, tag: Tag, fises: &[Fis])
        ensures { self.new ≡ answered tag fises.now self.old }
    {
        show_all(&mut self.port, tag, fises);
        self.halt();
        self.note();
    }

    /// FISes of the drive for the command of a tag, by how what it gave arrived.
    pub(crate) fn arrive(&mut self, tag: Tag, fises: &[Fis], arrival: Arrival)
        ensures { self.new ≡ arrived tag fises.now arrival self.old }
    {
        self.show_moved(arrival);
        self.serve(tag, fises, arrival.missed);
    }

    /// How data moved.
    fn show_moved(&mut self, arrival: Arrival)
        ensures { self.new ≡ moved arrival self.old }
    {
        self.process(arrival.is_processed);
        self.shorten(arrival.is_short);
    }

    /// A block that is done, whose descriptor asks to tell of it, raises DPS.
    fn process(&mut self, is_processed: bool)
        ensures { self.new ≡ processed is_processed self.old }
    {
        if is_processed {
            self.port.raise(PxIs(PROCESSED));
        }
    }

    /// Data past the PRDT raise OFS.
    fn shorten(&mut self, is_short: bool)
        ensures { self.new ≡ shortened is_short self.old }
    {
        if is_short {
            self.port.raise(PxIs(OVERFLOW));
        }
    }

    /// FISes of the drive for the command of a tag, unless memory failed before they came.
    fn serve(&mut self, tag: Tag, fises: &[Fis], missed: Option<Miss>)
        ensures { self.new ≡ served tag fises.now missed self.old }
    {
        match missed {
            None => self.answer(tag, fises),
            Some(miss) => {
                self.answer_if(shows_fises(miss), tag, fises);
                self.fault(miss);
            }
        }
    }

    fn answer_if(&mut self, shows: bool, tag: Tag, fises: &[Fis])
        ensures { self.new ≡ (if shows then answered tag fises.now self.old else self.old) }
    {
        if shows {
            self.answer(tag, fises);
        }
    }
}
