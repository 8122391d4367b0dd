//! The fields of command headers and descriptors, and where FISes are received (AHCI 1.3.1, 4.2).

ghost use Rattle.std.specs.Prelude.{◌≡◌, ◌≤◌, ◌<◌, ◌-◌, ◌^◌, length};
ghost use Rattle.fis.specs.Types.{h2d_length};
ghost use Rattle.fis.specs.declared.any.Fis.{Fis};
ghost use Rattle.slots.specs.Layout.{header_size, descriptor_size, received_at, received_place};
ghost use Rattle.slots.specs.Header.{fis_words, is_write, entry_count, table_at, table_upper};
ghost use Rattle.slots.specs.Table.{address, upper, descriptor_range, byte_count_field, is_command};

use byteorder::{ByteOrder, LittleEndian};
use fis::{Fis, H2D_TYPE};

/// How many bytes a command header has (4.2.2).
pub const HEADER: usize = 32;

/// Where the descriptors stand in a command table (4.2.3).
pub const DESCRIPTORS: usize = 0x80;

/// How many bytes a descriptor has (4.2.3.3).
pub const DESCRIPTOR: usize = 16;

/// W, a bit of a header's first byte (4.2.2).
pub(crate) const WRITE_BIT: u8 = 64;

/// How many bytes one descriptor can name (4.2.3.3).
const DESCRIPTOR_RANGE: u32 = 0x40_0000;

/// CFL: how many words of four bytes the command FIS has.
pub fn fis_words(header: &[u8]) -> u8
    requires { header_size ≤ length header.now }
    ensures { result ≡ fis_words header.now }
{
    header[0] % 32
}

/// W: the data go to the device.
pub fn is_write(header: &[u8]) -> bool
    requires { header_size ≤ length header.now }
    ensures { result ≡ is_write header.now }
{
    header[0] / WRITE_BIT % 2 == 1
}

/// PRDTL: how many descriptors the table has.
pub fn entries(header: &[u8]) -> u16
    requires { header_size ≤ length header.now }
    ensures { result ≡ entry_count header.now }
{
    LittleEndian::read_u16(&header[2..])
}

/// CTBA: where the command table stands.
pub fn table_at(header: &[u8]) -> u32
    requires { header_size ≤ length header.now }
    ensures { result ≡ table_at header.now }
{
    LittleEndian::read_u32(&header[8..])
}

/// CTBAU: the upper half of that address.
pub fn table_upper(header: &[u8]) -> u32
    requires { header_size ≤ length header.now }
    ensures { result ≡ table_upper header.now }
{
    LittleEndian::read_u32(&header[12..])
}

/// DBA: where the data of a descriptor stand.
pub fn address(entry: &[u8]) -> u32
    requires { descriptor_size ≤ length entry.now }
    ensures { result ≡ address entry.now }
{
    LittleEndian::read_u32(entry)
}

/// DBAU: the upper half of that address.
pub fn upper(entry: &[u8]) -> u32
    requires { descriptor_size ≤ length entry.now }
    ensures { result ≡ upper entry.now }
{
    LittleEndian::read_u32(&entry[4..])
}

/// How many bytes a descriptor is of: DBC, which counts them less one.
pub fn byte_count(entry: &[u8]) -> u32
    requires { descriptor_size ≤ length entry.now }
    ensures value { result ≡ byte_count_field entry.now }
    ensures fits { result ≤ descriptor_range }
{
    LittleEndian::read_u32(&entry[12..]) % DESCRIPTOR_RANGE + 1
}

/// Whether bytes begin as a Register FIS to the device does whose C bit is set.
pub fn is_command(bytes: &[u8]) -> bool
    requires { h2d_length ≤ length bytes.now }
    ensures { result ≡ is_command bytes.now }
{
    bytes[0] == H2D_TYPE && bytes[1] >= 0x80
}

/// Where a FIS of this type stands among those received (4.2.1). One that no device sends is stored as unknown.
pub fn received_offset(fis: &Fis) -> usize
    ensures value { result ≡ received_place fis.now - received_at }
    ensures small { result < 256 }
{
    match fis {
        Fis::DmaSetup(_) => 0,
        Fis::PioSetup(_) => 0x20,
        Fis::D2h(_) => 0x40,
        Fis::SetDeviceBits(_) => 0x58,
        Fis::H2d(_) => 0x60,
    }
}
