//! Numbers in the bytes of a FIS, the lowest byte first.

ghost use Rattle.std.specs.Prelude.{◌≡◌, ◌+◌, ◌≤◌, length};
ghost use Rattle.fis.specs.Bytes.{number_2, number_4};

use byteorder::{ByteOrder, LittleEndian};

pub(crate) fn u16_at(bytes: &[u8], at: usize) -> u16
    requires { at + 2 ≤ length bytes.now }
    ensures { result ≡ number_2 bytes.now at (at + 1) }
{
    LittleEndian::read_u16(&bytes[at..])
}

pub(crate) fn u32_at(bytes: &[u8], at: usize) -> u32
    requires { at + 4 ≤ length bytes.now }
    ensures { result ≡ number_4 bytes.now at (at + 1) (at + 2) (at + 3) }
{
    LittleEndian::read_u32(&bytes[at..])
}
