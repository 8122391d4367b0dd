//! The zeros behind the data of a subpacket.

ghost use Rattle.std.specs.Prelude.{◌≡◌, ◌<◌, ◌^◌};
ghost use Rattle.compacket.specs.Frames.{padded};
ghost use Rattle.compacket.specs.Spelling.{padding};

/// The data of a subpacket are padded to a multiple of this (TCG Core 2.01, 3.2.3).
const UNIT: usize = 4;

/// A count of bytes with its padding: the least multiple of the unit that is not below it.
pub(crate) fn padded(len: usize) -> usize
    requires { len < 2 ^ 32 }
    ensures { result ≡ padded len }
{
    len.next_multiple_of(UNIT)
}

/// The zeros that pad so many bytes.
pub(crate) fn padding(len: usize) -> &'static [u8]
    ensures { result.now ≡ padding len }
{
    match len % UNIT {
        0 => &[],
        1 => &[0, 0, 0],
        2 => &[0, 0],
        _ => &[0],
    }
}
