//! The registers of a controller that a waveform shows.

use hba::Hba;

/// Registers of a controller, and of its port (AHCI 1.3.1, 3.1 and 3.3).
#[derive(Clone, Copy, Debug, PartialEq, Eq)]
pub struct Words {
    /// GHC.
    pub control: u32,
    /// IS.
    pub pending: u32,
    /// PxIS.
    pub interrupts: u32,
    /// PxIE.
    pub enabled: u32,
    /// PxCMD.
    pub command: u32,
    /// PxTFD.
    pub task: u32,
    /// PxSIG.
    pub signature: u32,
    /// PxSSTS.
    pub link: u32,
    /// PxSERR.
    pub errors: u32,
    /// PxSACT.
    pub active: u32,
    /// PxCI.
    pub issued: u32,
}

impl Words {
    ghost use Rattle.std.specs.Prelude.{◌≡◌};
    ghost use Rattle.hba_waves.specs.Looks.{words_shown};

    /// The registers of a controller.
    pub fn of(hba: &Hba) -> Words
        ensures { result ≡ words_shown hba.now.registers }
    {
        Words {
            control: hba.read(0x4),
            pending: hba.read(0x8),
            interrupts: hba.read(0x110),
            enabled: hba.read(0x114),
            command: hba.read(0x118),
            task: hba.read(0x120),
            signature: hba.read(0x124),
            link: hba.read(0x128),
            errors: hba.read(0x130),
            active: hba.read(0x134),
            issued: hba.read(0x138),
        }
    }
}
