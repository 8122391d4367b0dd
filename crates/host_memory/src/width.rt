//! How many bits an address has (AHCI 1.3.1, 3.1.1: CAP.S64A).

ghost use Rattle.std.specs.Prelude.{◌≡◌};
ghost use Rattle.host_memory.specs.Access.{address_end, width_by};

/// How many bits an address has: 32 where CAP.S64A is 0, and 64 where it is 1.
#[derive(Clone, Copy, Debug, PartialEq, Eq)]
pub enum AddressWidth {
    /// Each address is below 4 GiB.
    Bits32,
    /// Each address has 64 bits.
    Bits64,
}

impl AddressWidth {
    /// How many bits an address has, by CAP.S64A.
    pub fn by(is_wide: bool) -> AddressWidth
        ensures { result ≡ width_by is_wide }
    {
        if is_wide {
            AddressWidth::Bits64
        } else {
            AddressWidth::Bits32
        }
    }

    /// The first address that no byte has.
    pub(crate) fn end(self) -> u64
        ensures { result ≡ address_end self }
    {
        match self {
            AddressWidth::Bits32 => 0x1_0000_0000,
            AddressWidth::Bits64 => u64::MAX,
        }
    }
}
