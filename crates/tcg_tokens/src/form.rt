//! The first bytes of atoms (TCG Core 2.01, section 3.2.2).

ghost use Rattle.std.specs.Prelude.{◌≡◌, ◌<◌, ◌≤◌};
ghost use Rattle.tcg_tokens.specs.Atoms.{least, upper_range, length_bytes, first_byte};

/// A byte that stands for nothing.
pub(crate) const EMPTY_ATOM: u8 = 0xff;

/// A tiny atom is a number below this, in one byte.
pub const TINY_LIMIT: u8 = 64;

/// The form of an atom that has a length. The first byte says, from the top down, the form, the kind, the
/// sign and the upper bits of the length.
#[derive(Clone, Copy)]
pub(crate) enum Form {
    Short,
    Medium,
    Long,
}

impl Form {
    /// The least first byte.
    pub(crate) fn least(self) -> u8
        ensures { result ≡ least self }
    {
        match self {
            Form::Short => 0x80,
            Form::Medium => 0xc0,
            Form::Long => 0xe0,
        }
    }

    /// How many values the upper bits of the length have.
    pub(crate) fn upper_range(self) -> u8
        ensures value { result ≡ upper_range self }
        ensures some { 0 < result }
        ensures bound { result ≤ 16 }
    {
        match self {
            Form::Short => 16,
            Form::Medium => 8,
            Form::Long => 1,
        }
    }

    /// How many bytes of length follow.
    pub(crate) fn length_bytes(self) -> usize
        ensures value { result ≡ length_bytes self }
        ensures bound { result ≤ 3 }
    {
        match self {
            Form::Short => 0,
            Form::Medium => 1,
            Form::Long => 3,
        }
    }

    /// The first byte of bytes or of a number, where the upper bits of the length are 0.
    pub(crate) fn first_byte(self, is_bytes: bool) -> u8
        ensures { result ≡ first_byte self is_bytes }
    {
        self.least() + 2 * self.upper_range() * u8::from(is_bytes)
    }
}
