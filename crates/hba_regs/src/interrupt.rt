//! The bits of PxIS.

ghost use Rattle.std.specs.Prelude.{⊤, ◌≡◌, [], ◌∷◌, codes};

use bitflags::{Flag, Flags, bitflag_items};

/// Bits of PxIS, the interrupt status of a port (AHCI 1.3.1, 3.3.5).
#[derive(Clone, Copy, Debug, PartialEq, Eq)]
pub struct PxIs(pub u32);

bitflag_items! {
    impl PxIs: u32 {
        // A Register FIS came with its I bit.
        const DHRS = 0x0000_0001;
        // A PIO Setup FIS came with its I bit.
        const PSS = 0x0000_0002;
        // A DMA Setup FIS came with its I bit.
        const DSS = 0x0000_0004;
        // A Set Device Bits FIS came with its I bit.
        const SDBS = 0x0000_0008;
        // The status took its ERR bit.
        const TFES = 0x4000_0000;
    }
}

impl Flags for PxIs {
    type Bits = u32;

    ghost exact = { ⊤ };

    ghost table = { (codes "DHRS", 1) ∷ (codes "PSS", 2) ∷ (codes "DSS", 4) ∷ (codes "SDBS", 8)
        ∷ (codes "TFES", 0x40000000) ∷ [] };

    ghost set_of = { λ p. p.0 };

    fn flags<'a>() -> &'a [Flag<PxIs>] {
        PxIs::FLAGS
    }

    fn bits(&self) -> u32 {
        self.0
    }

    fn from_bits_retain(bits: u32) -> PxIs {
        PxIs(bits)
    }
}
