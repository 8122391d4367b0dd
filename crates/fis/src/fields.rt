//! Fields that are no whole number of bytes.

ghost use Rattle.std.specs.Prelude.{◌≡◌, ◌<◌, ◌%◌, ◌^◌, ◌↔◌, IsSome, IfSome};
ghost use Rattle.fis.specs.Bytes.{number_6, IsStatusBits};

use std::marker::Model;

/// The number of a port behind a multiplier.
#[derive(Clone, Copy, Debug, Default, PartialEq, Eq)]
pub struct PortNumber {
    number: u8,
}

impl Model for PortNumber {
    ghost use Rattle.std.specs.Prelude.{ℕ, ◌<◌};

    ghost Value = { ℕ };

    ghost view = { λ p. p.number };

    ghost invariant = { λ p. p.number < 16 };

    ghost inverse = { λ n. record { number = n } };
}

impl PortNumber {
    /// The port of this number, or `None` from 16 on.
    pub fn new(number: u8) -> Option<PortNumber>
        ensures some { IsSome result ↔ (number < 16) }
        ensures value { IfSome result (λ p. p ≡ number) }
    {
        if number < 16 {
            Some(PortNumber { number })
        } else {
            None
        }
    }

    /// The low four bits.
    pub fn low_bits(byte: u8) -> PortNumber
        ensures { result ≡ byte % 16 }
    {
        PortNumber {
            number: byte & 0x0f,
        }
    }

    /// The number, 0 to 15.
    pub fn number(self) -> u8
        ensures value { result ≡ self }
        ensures below { result < 16 }
    {
        self.number
    }
}

/// Bits 6 to 4 and 2 to 0 of a status.
#[derive(Clone, Copy, Debug, Default, PartialEq, Eq)]
pub struct StatusBits {
    bits: u8,
}

impl Model for StatusBits {
    ghost use Rattle.std.specs.Prelude.{ℕ, ◌<◌, ◌≡◌};
    ghost use Rattle.fis.specs.Bytes.{IsStatusBits};

    ghost Value = { ℕ };

    ghost view = { λ s. s.bits };

    ghost invariant = { λ s. IsStatusBits s.bits };

    ghost inverse = { λ n. record { bits = n } };
}

impl StatusBits {
    /// These bits of a status, or `None` where bit 7 or bit 3 is set.
    pub fn new(bits: u8) -> Option<StatusBits>
        ensures some { IsSome result ↔ IsStatusBits bits }
        ensures value { IfSome result (λ s. s ≡ bits) }
    {
        if bits & 0x88 == 0 {
            Some(StatusBits { bits })
        } else {
            None
        }
    }

    /// The bits, at their places in a status.
    pub fn bits(self) -> u8
        ensures value { result ≡ self }
        ensures fits { IsStatusBits result }
    {
        self.bits
    }
}

/// The number of a sector, of 48 bits.
#[derive(Clone, Copy, Debug, Default, PartialEq, Eq, PartialOrd, Ord)]
pub struct Lba {
    sector: u64,
}

impl Model for Lba {
    ghost use Rattle.std.specs.Prelude.{ℕ, ◌<◌, ◌^◌};

    ghost Value = { ℕ };

    ghost view = { λ l. l.sector };

    ghost invariant = { λ l. l.sector < 2 ^ 48 };

    ghost inverse = { λ n. record { sector = n } };
}

impl Lba {
    /// The sector of this number, or `None` from 2^48 on.
    pub fn new(number: u64) -> Option<Lba>
        ensures some { IsSome result ↔ (number < 2 ^ 48) }
        ensures value { IfSome result (λ l. l ≡ number) }
    {
        if number < 1 << 48 {
            Some(Lba { sector: number })
        } else {
            None
        }
    }

    /// The number in six bytes, the lowest first.
    pub fn from_bytes(bytes: [u8; 6]) -> Lba
        ensures { result ≡ number_6 bytes 0 1 2 3 4 5 }
    {
        let [a, b, c, d, e, f] = bytes;
        Lba {
            sector: u64::from_le_bytes([a, b, c, d, e, f, 0, 0]),
        }
    }

    /// The number, below 2^48.
    pub fn number(self) -> u64
        ensures value { result ≡ self }
        ensures below { result < 2 ^ 48 }
    {
        self.sector
    }
}
