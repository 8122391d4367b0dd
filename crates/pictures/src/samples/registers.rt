//! The registers of a port that a picture or a waveform shows.

ghost use Rattle.std.specs.Prelude.{◌≡◌};
ghost use Rattle.hba_regs.specs.Registers.{word_at};
ghost use Rattle.std.specs.Prelude.{unwrap_or};

use hba_regs::PortRegs;

/// Registers of a port (AHCI 1.3.1, 3.3).
#[derive(Clone, Copy, Debug, PartialEq, Eq)]
pub struct Registers {
    /// PxIS.
    pub interrupts: u32,
    /// PxIE.
    pub enabled: u32,
    /// PxCMD.
    pub command: u32,
    /// PxTFD.
    pub task: u32,
    /// PxSACT.
    pub active: u32,
    /// PxCI.
    pub issued: u32,
}

/// The word at an offset in the port's block; 0 where no register stands.
fn word(regs: &PortRegs, offset: u32) -> u32
    ensures { result ≡ unwrap_or (word_at regs.now offset) 0 }
{
    regs.read(offset).unwrap_or(0)
}

impl Registers {
    ghost use Rattle.std.specs.Prelude.{◌≡◌};
    ghost use Rattle.pictures.specs.Samples.{registers_of};

    /// The registers of a port.
    pub fn of(regs: &PortRegs) -> Registers
        ensures { result ≡ registers_of regs.now }
    {
        Registers {
            interrupts: word(regs, 0x10),
            enabled: word(regs, 0x14),
            command: word(regs, 0x18),
            task: word(regs, 0x20),
            active: word(regs, 0x34),
            issued: word(regs, 0x38),
        }
    }
}
