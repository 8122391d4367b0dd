//! Which register stands at which offset.

/// A register of a port (AHCI 1.3.1, 3.3).
#[derive(Clone, Copy, Debug, PartialEq, Eq)]
pub enum Register {
    /// PxCLB: where the command list stands.
    ListBase,
    /// PxCLBU: its upper half.
    ListBaseUpper,
    /// PxFB: where received FISes are stored.
    FisBase,
    /// PxFBU: its upper half.
    FisBaseUpper,
    /// PxIS: why the port interrupts.
    InterruptStatus,
    /// PxIE: for what it may interrupt.
    InterruptEnable,
    /// PxCMD: what the port is to do, and does.
    Command,
    /// PxTFD: status and error of the device.
    TaskFile,
    /// PxSIG: what kind of device there is.
    Signature,
    /// PxSSTS: the state of the link.
    SataStatus,
    /// PxSCTL: what the link is to do.
    SataControl,
    /// PxSERR: errors of the link.
    SataError,
    /// PxSACT: tags of queued commands.
    Active,
    /// PxCI: tags of issued commands.
    Issue,
}

impl Register {
    ghost use Rattle.std.specs.Prelude.{◌≡◌};
    ghost use Rattle.hba_regs.specs.Registers.{register_at};

    /// The register at an offset in the port's block.
    pub fn at(offset: u32) -> Option<Register>
        ensures { result ≡ register_at offset }
    {
        match offset {
            0x00 => Some(Register::ListBase),
            0x04 => Some(Register::ListBaseUpper),
            0x08 => Some(Register::FisBase),
            0x0c => Some(Register::FisBaseUpper),
            0x10 => Some(Register::InterruptStatus),
            0x14 => Some(Register::InterruptEnable),
            0x18 => Some(Register::Command),
            0x20 => Some(Register::TaskFile),
            0x24 => Some(Register::Signature),
            0x28 => Some(Register::SataStatus),
            0x2c => Some(Register::SataControl),
            0x30 => Some(Register::SataError),
            0x34 => Some(Register::Active),
            0x38 => Some(Register::Issue),
            _ => None,
        }
    }
}
