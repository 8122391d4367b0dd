//! The bits of PxCMD.

ghost use Rattle.std.specs.Prelude.{⊤, ◌≡◌, [], ◌∷◌, codes};
ghost use Rattle.hba_regs.specs.Registers.{start_bit, receive_bit, receiving_bit, running_bit};

use bitflags::{Flag, Flags, bitflag_items};

/// Bits of PxCMD, the command and status of a port (AHCI 1.3.1, 3.3.7).
#[derive(Clone, Copy, Debug, PartialEq, Eq)]
pub struct PxCmd(u32);

bitflag_items! {
    impl PxCmd: u32 {
        // The host lets the port take commands from its list.
        const ST = 0x0001;
        // The host lets the port store the FISes that it receives.
        const FRE = 0x0010;
        // The port stores them.
        const FR = 0x4000;
        // The port takes commands.
        const CR = 0x8000;
    }
}

impl Flags for PxCmd {
    type Bits = u32;

    ghost exact = { ⊤ };

    ghost table = { (codes "ST", start_bit) ∷ (codes "FRE", receive_bit)
        ∷ (codes "FR", receiving_bit) ∷ (codes "CR", running_bit) ∷ [] };

    ghost set_of = { λ p. p.0 };

    fn flags<'a>() -> &'a [Flag<PxCmd>] {
        PxCmd::FLAGS
    }

    fn bits(&self) -> u32 {
        self.0
    }

    fn from_bits_retain(bits: u32) -> PxCmd {
        PxCmd(bits)
    }
}
