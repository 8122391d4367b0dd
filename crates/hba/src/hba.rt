//! An HBA with one port, and the drive behind it.

ghost use Rattle.std.specs.Prelude.{◌≡◌, List, ◌∷◌, ◌++◌, IfOk, if◌then◌else◌};
ghost use Rattle.history.specs.Opening.{Origin};
ghost use Rattle.history.specs.History.{Act, Reset};
ghost use Rattle.sp_cells.specs.Resets.{hardware};
ghost use Rattle.drive.specs.State.{Agrees};
ghost use Rattle.hba.specs.History.{act_count};

use crate::registers::Registers;
use drive::{Drive, ResetKind};
use host_memory::AddressWidth;
use std::alloc::{AllocError, Global};
use std::marker::Model;

/// An HBA with one port, and the drive behind it.
#[derive(Drop)]
pub struct Hba {
    pub(crate) alloc: Global,
    pub(crate) drive: Drive,
    /// How many acts the drive has done since the HBA was made, modulo 2^64.
    pub(crate) acts: u64,
    pub(crate) registers: Registers,
    /// Room for what comes with the next command.
    pub(crate) room: Vec<u8>,
}

impl Model for Hba {
    ghost use Rattle.hba.specs.History.{State};

    ghost Value = { State };

    ghost view = { λ h. record {
      drive = h.drive;
      acts = h.acts;
      registers = h.registers;
    } };
}

/// Resets the drive, where it is to be.
fn reset_if(resets: bool, drive: &mut Drive)
    ensures { (o : Origin) (acts earlier : List Act) → Agrees drive.old o (acts ++ earlier)
        → Agrees drive.new o ((if resets then Reset hardware ∷ acts else acts) ++ earlier) }
{
    if resets {
        drive.reset(ResetKind::Hardware);
    }
}

/// One act more.
#[tactic(auto, using(crate::proofs::Counts::one_more))]
pub(crate) fn one_more(count: u64) -> u64
    ensures { (list : List Act) (act : Act) → count ≡ act_count list
        → result ≡ act_count (act ∷ list) }
{
    count.wrapping_add(1)
}

/// One act more, where there is one.
fn count_if(acts: bool, count: u64) -> u64
    ensures { (list : List Act) (act : Act) → count ≡ act_count list
        → result ≡ act_count (if acts then act ∷ list else list) }
{
    if acts { one_more(count) } else { count }
}

impl Hba {
    ghost use Rattle.std.specs.Prelude.{[]};
    ghost use Rattle.hba.specs.Registers.{word_at, line};
    ghost use Rattle.host_memory.specs.declared.width.AddressWidth.TheVariants as widths;
    ghost use Rattle.hba.specs.History.{Opened, Operation, Wrote, Powered, AgreesHba, Adds, acts_of, regs_of, act_count};

    /// An HBA after its reset, over a drive that is new, or that has done acts before: it counts those from now on. Its addresses
    /// are below 4 GiB.
    pub fn new(alloc: Global, drive: Drive) -> Hba
        ensures { (o : Opened) → o.width ≡ widths.Bits32 → Agrees drive o.origin o.earlier
            → AgreesHba result o [] }
    {
        let hba = Hba::with_addresses(alloc, drive, AddressWidth::Bits32);
        hba
    }

    /// The same, whose addresses have so many bits: CAP.S64A tells it.
    pub fn with_addresses(alloc: Global, drive: Drive, width: AddressWidth) -> Hba
        ensures { (o : Opened) → o.width ≡ width → Agrees drive o.origin o.earlier
            → AgreesHba result o [] }
    {
        Hba {
            alloc,
            drive,
            acts: 0,
            registers: Registers::new(width),
            room: Vec::new(alloc),
        }
    }

    /// The same HBA once more, with its drive, in memory of their own: the operations with which the one agrees are those with
    /// which the other does. Where memory is refused there is no copy.
    pub fn copy(&self) -> Result<Hba, AllocError>
        ensures { IfOk result (λ copied. copied ≡ self.now) }
    {
        let drive = self.drive.copy()?;
        Ok(Hba {
            alloc: self.alloc,
            drive,
            acts: self.acts,
            registers: self.registers.copy(),
            room: Vec::new(self.alloc),
        })
    }

    /// The word that the host reads at an offset: 0 where no register stands. Nothing changes.
    pub fn read(&self, offset: u32) -> u32
        ensures stands { result ≡ word_at self.now.registers offset }
        ensures told { (o : Opened) (list : List Operation) → AgreesHba self.now o list
            → result ≡ word_at (regs_of o list) offset }
    {
        self.registers.read(offset)
    }

    /// The interrupt line.
    pub fn interrupt(&self) -> bool
        ensures stands { result ≡ line self.now.registers }
        ensures told { (o : Opened) (list : List Operation) → AgreesHba self.now o list
            → result ≡ line (regs_of o list) }
    {
        self.registers.line()
    }

    /// The drive.
    pub fn drive(&self) -> &Drive
        ensures { result.now ≡ self.now.drive }
    {
        &self.drive
    }

    /// How many acts the drive has done since the HBA was made, modulo 2^64: fetched commands, completions and resets.
    pub fn acts(&self) -> u64
        ensures stands { result ≡ self.now.acts }
        ensures told { (o : Opened) (list : List Operation) → AgreesHba self.now o list
            → result ≡ act_count (acts_of o list) }
    {
        self.acts
    }

    /// The host's write of a word at an offset. It touches registers, and the drive by a reset alone; never
    /// the host's memory, and needs none.
    pub fn write(&mut self, offset: u32, value: u32)
        ensures { Adds (Wrote offset value) self.old self.new }
    {
        let resets = self.registers.resets(offset, value);
        self.registers.write(offset, value);
        reset_if(resets, &mut self.drive);
        self.acts = count_if(resets, self.acts);
    }

    /// A power cycle: the drive's reset of that kind, and all registers as at the start.
    pub fn power_cycle(&mut self)
        ensures { Adds Powered self.old self.new }
    {
        self.drive.reset(ResetKind::Power);
        self.acts = one_more(self.acts);
        self.registers = Registers::new(self.registers.width());
    }
}
