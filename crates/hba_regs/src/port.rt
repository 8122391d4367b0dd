//! The registers of one port, as a host reads and writes them.

use crate::command::PxCmd;
use crate::error::RegError;
use crate::interrupt::PxIs;
use crate::register::Register;
use bitflags::Flags;
use fis::Tag;
use std::marker::Model;

/// The registers of a port.
#[derive(Drop)]
pub struct PortRegs {
    list_base: u32,
    fis_base: u32,
    interrupts: PxIs,
    enabled: u32,
    /// ST and FRE count; CR and FR follow them.
    command: PxCmd,
    status: u8,
    error: u8,
    control: u32,
    link_errors: u32,
    active: u32,
    issued: u32,
}

impl Model for PortRegs {
    ghost use Rattle.hba_regs.specs.Registers.{Regs, has_bits, start_bit, receive_bit};

    ghost Value = { Regs };

    ghost view = { λ a. record {
      list_base = a.list_base;
      fis_base = a.fis_base;
      interrupts = a.interrupts.0;
      enabled = a.enabled;
      running = has_bits a.command.0 start_bit;
      receiving = has_bits a.command.0 receive_bit;
      status = a.status;
      error = a.error;
      control = a.control;
      link_errors = a.link_errors;
      active = a.active;
      issued = a.issued;
    } };
}

/// PxCLB keeps bits 31 to 10.
const LIST_BASE: u32 = 0xffff_fc00;

/// PxFB keeps bits 31 to 8.
const FIS_BASE: u32 = 0xffff_ff00;

/// Where received FISes stand before the host writes another place.
const FIRST_FIS_BASE: u32 = 0x400;

/// The status of a device that is ready.
const READY: u8 = 0x50;

/// PxSIG of a disk.
const SIGNATURE: u32 = 0x0101;

/// PxSSTS of a device at the third generation's speed, with its link up.
const SATA_STATUS: u32 = 0x0133;

impl PortRegs {
    ghost use Rattle.std.specs.Prelude.{◌≡◌, ◌+◌, ◌*◌, ◌^◌, ◌↔◌, MatchResult, OnErr, IsErrOf, Some, None, bit_or, if◌then◌else◌};
    ghost use Rattle.hba_regs.specs.declared.register.Register.TheVariants.{Command};
    ghost use Rattle.hba_regs.specs.Registers.{start_registers, word_at, written_at, write_fault, register_at, without, stopped, after_start, command_word, rewritten};

    /// The registers of a port that runs, with a device that is ready.
    pub fn new() -> PortRegs
        ensures { result ≡ start_registers }
    {
        PortRegs {
            list_base: 0,
            fis_base: FIRST_FIS_BASE,
            interrupts: PxIs::empty(),
            enabled: 0,
            command: PxCmd::ST.union(PxCmd::FRE),
            status: READY,
            error: 0,
            control: 0,
            link_errors: 0,
            active: 0,
            issued: 0,
        }
    }

    /// The same registers once more.
    pub fn copy(&self) -> PortRegs
        ensures { result ≡ self.now }
    {
        PortRegs {
            list_base: self.list_base,
            fis_base: self.fis_base,
            interrupts: self.interrupts,
            enabled: self.enabled,
            command: self.command,
            status: self.status,
            error: self.error,
            control: self.control,
            link_errors: self.link_errors,
            active: self.active,
            issued: self.issued,
        }
    }

    fn command_word(&self) -> u32
        ensures { result ≡ command_word self.now.running self.now.receiving }
    {
        let running = if self.command.contains(PxCmd::ST) {
            PxCmd::CR.bits() + PxCmd::ST.bits()
        } else {
            0
        };
        let receiving = if self.command.contains(PxCmd::FRE) {
            PxCmd::FR.bits() + PxCmd::FRE.bits()
        } else {
            0
        };
        running + receiving
    }

    /// The word at an offset in the port's block, or `None` where no register stands.
    pub fn read(&self, offset: u32) -> Option<u32>
        ensures { result ≡ word_at self.now offset }
    {
        let word = match Register::at(offset)? {
            Register::ListBase => self.list_base,
            Register::ListBaseUpper => 0,
            Register::FisBase => self.fis_base,
            Register::FisBaseUpper => 0,
            Register::InterruptStatus => self.interrupts.bits(),
            Register::InterruptEnable => self.enabled,
            Register::Command => self.command_word(),
            Register::TaskFile => u32::from(self.status) + 256 * u32::from(self.error),
            Register::Signature => SIGNATURE,
            Register::SataStatus => SATA_STATUS,
            Register::SataControl => self.control,
            Register::SataError => self.link_errors,
            Register::Active => self.active,
            Register::Issue => self.issued,
        };
        Some(word)
    }

    fn write_command(&mut self, value: u32)
        ensures { self.new ≡ rewritten self.old Command value }
    {
        let asked = PxCmd::from_bits_retain(value);
        self.command = asked;
        if !asked.contains(PxCmd::ST) {
            self.active = 0;
            self.issued = 0;
        }
    }

    /// The host's write of a word. A refused one changes nothing.
    ///
    /// The errors come in this order: `BadOffset`, `ReadOnly`.
    pub fn write(&mut self, offset: u32, value: u32) -> Result<(), RegError>
        ensures exact { self.new ≡ written_at self.old offset value }
        ensures fault { MatchResult result (λ _. write_fault (register_at offset) ≡ None)
            (λ e. write_fault (register_at offset) ≡ Some e) }
        ensures bad { IsErrOf result RegError.BadOffset ↔ (word_at self.old offset ≡ None) }
        ensures err { OnErr result (self.new ≡ self.old) }
    {
        match Register::at(offset).ok_or(RegError::BadOffset)? {
            Register::ListBase => self.list_base = value & LIST_BASE,
            Register::ListBaseUpper => {}
            Register::FisBase => self.fis_base = value & FIS_BASE,
            Register::FisBaseUpper => {}
            Register::InterruptStatus => self.interrupts.remove(PxIs::from_bits_retain(value)),
            Register::InterruptEnable => self.enabled = value,
            Register::Command => self.write_command(value),
            Register::TaskFile => return Err(RegError::ReadOnly),
            Register::Signature => return Err(RegError::ReadOnly),
            Register::SataStatus => return Err(RegError::ReadOnly),
            Register::SataControl => self.control = value,
            Register::SataError => self.link_errors &= !value,
            Register::Active => {
                if self.command.contains(PxCmd::ST) {
                    self.active |= value;
                }
            }
            Register::Issue => {
                if self.command.contains(PxCmd::ST) {
                    self.issued |= value;
                }
            }
        }
        Ok(())
    }

    /// Marks the command of a tag as issued, and as active too where it is queued.
    pub fn set_issue(&mut self, tag: Tag, queued: bool)
        ensures { self.new ≡ record self.old {
          active =
              (if queued then bit_or self.old.active (2 ^ tag) else self.old.active);
          issued =
              bit_or self.old.issued (2 ^ tag);
        } }
    {
        let bit = 1 << tag.number();
        if queued {
            self.active |= bit;
        }
        self.issued |= bit;
    }

    /// The port took the command of a tag.
    pub fn clear_issue(&mut self, tag: Tag)
        ensures { self.new ≡ record self.old { issued = without self.old.issued (2 ^ tag) } }
    {
        self.issued &= !(1 << tag.number());
    }

    /// The queued commands of these tags are done.
    pub fn clear_active(&mut self, mask: u32)
        ensures { self.new ≡ record self.old { active = without self.old.active mask } }
    {
        self.active &= !mask;
    }

    /// The Status field of PxTFD.
    pub fn status(&self) -> u8
        ensures { result ≡ self.now.status }
    {
        self.status
    }

    /// The Error field of PxTFD.
    pub fn error(&self) -> u8
        ensures { result ≡ self.now.error }
    {
        self.error
    }

    /// Sets status and error of the device (PxTFD).
    pub fn set_task(&mut self, status: u8, error: u8)
        ensures { self.new ≡ record self.old { status = status; error = error } }
    {
        self.status = status;
        self.error = error;
    }

    /// Sets bits of the interrupt status.
    pub fn raise(&mut self, bits: PxIs)
        ensures { self.new ≡ record self.old { interrupts = bit_or self.old.interrupts bits.0 } }
    {
        self.interrupts.insert(bits);
    }

    /// Clears ST, and with it every tag that is active or issued.
    #[tactic(auto, using(crate::proofs::Bits::start_clear, crate::proofs::Bits::receive_stays))]
    pub fn stop(&mut self)
        ensures { self.new ≡ stopped self.old }
    {
        self.command.remove(PxCmd::ST);
        self.active = 0;
        self.issued = 0;
    }

    /// Sets ST.
    pub fn start(&mut self)
        ensures { self.new ≡ after_start self.old }
    {
        self.command.insert(PxCmd::ST);
    }
}
