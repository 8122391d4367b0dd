//! What the engine reads of the host's memory: command headers, FISes, and data (AHCI 1.3.1, section 4).

ghost use Rattle.std.specs.Prelude.{◌≡◌, ◌≤◌, ◌<◌, ◌+◌, ◌*◌, ◌-◌, ◌^◌, List, length, true, false, ◌||◌, IfOk};
ghost use Rattle.host_memory.specs.Access.{Access, IsAccess, Accessed};
ghost use Rattle.slots.specs.Table.{is_command};
ghost use Rattle.host_memory.specs.Memory.{has_upper, command_table_of, header_of, header_by, data_at, data_len, descriptors_of, processes, moved_by, Gathers, brought_as};

use crate::hba_memory::miss::Miss;
use crate::{AddressWidth, HostMemory, read_array, read_at};
use byteorder::{ByteOrder, LittleEndian};
use fis::H2D_LENGTH;
use slots::fields::{self, DESCRIPTOR, DESCRIPTORS, HEADER};

/// What a 1 in the upper half of an address counts.
const UPPER: u64 = 0x1_0000_0000;

/// How many words of four bytes a command's FIS has.
const FIS_WORDS: u8 = 5;

/// What a command header names: where the command table stands, and how many descriptors it has.
#[derive(Clone, Copy, Debug, PartialEq, Eq)]
pub struct Header {
    pub table: u64,
    pub entries: u16,
}

impl Header {
    /// Where the descriptors stand.
    pub fn descriptors(self) -> u128
        ensures value { result ≡ descriptors_of self }
        ensures near { result < 2 ^ 65 }
    {
        u128::from(self.table) + DESCRIPTORS as u128
    }
}

/// Whether the bytes of a FIS are a command.
pub fn is_command(fis: &[u8; H2D_LENGTH]) -> bool
    ensures { result ≡ is_command fis.now }
{
    fields::is_command(fis)
}

/// Whether an address has an upper half by these bits.
fn has_upper(width: AddressWidth) -> bool
    ensures { result ≡ has_upper width }
{
    match width {
        AddressWidth::Bits32 => false,
        AddressWidth::Bits64 => true,
    }
}

/// CTBA and CTBAU.
fn table_of(bytes: &[u8; HEADER]) -> u64
    ensures { result ≡ command_table_of bytes.now }
{
    let table = fields::table_at(bytes);
    u64::from(table - table % 128) + UPPER * u64::from(fields::table_upper(bytes))
}

/// What the bytes of a header name.
fn header_of(width: AddressWidth, bytes: &[u8; HEADER]) -> Result<Header, Miss>
    ensures { result ≡ header_of width bytes.now }
{
    let words = fields::fis_words(bytes);
    if words < FIS_WORDS || 16 < words || !has_upper(width) && fields::table_upper(bytes) != 0 {
        return Err(Miss::Table);
    }
    Ok(Header {
        table: table_of(bytes),
        entries: fields::entries(bytes),
    })
}

/// What a header names, by how many bits addresses have, and by the answer of memory.
pub fn header_by(width: AddressWidth, answer: Option<[u8; HEADER]>) -> Result<Header, Miss>
    ensures { result ≡ header_by width answer }
{
    match answer {
        None => Err(Miss::List),
        Some(bytes) => header_of(width, &bytes),
    }
}

/// DBA and DBAU.
pub(crate) fn data_at(entry: &[u8; DESCRIPTOR]) -> u128
    ensures { result ≡ data_at entry.now }
{
    let at = LittleEndian::read_u64(entry);
    u128::from(at - at % 2)
}

/// How many bytes DBC names. Its bit 0 is always 1, since an even count less one is odd: where a host leaves it 0, the
/// byte behind is counted too (AHCI 1.3.1, 4.2.3.3).
pub(crate) fn data_len(entry: &[u8; DESCRIPTOR]) -> usize
    ensures value { result ≡ data_len entry.now }
    ensures small { result ≤ 2 ^ 22 }
{
    let count = fields::byte_count(entry) as usize;
    2 * (count / 2) + 2 * (count % 2)
}

/// I, a bit of a descriptor's last byte (4.2.3.3).
const INTERRUPT: u8 = 0x80;

/// Whether a block of which so many bytes moved is done, and its descriptor asks to tell of it.
pub(crate) fn processes(entry: &[u8; DESCRIPTOR], moved: usize) -> bool
    ensures { result ≡ processes entry.now moved }
{
    entry[DESCRIPTOR - 1] >= INTERRUPT && moved == data_len(entry)
}

/// How data moved by a PRDT.
#[derive(Clone, Copy, Debug, PartialEq, Eq)]
pub struct Moved {
    /// How many bytes.
    pub len: usize,
    /// A block is done whose descriptor asks to tell of it.
    pub is_processed: bool,
}

impl Moved {
    /// Nothing.
    pub(crate) fn none() -> Moved
        ensures { result ≡ record { len = 0; is_processed = false } }
    {
        Moved {
            len: 0,
            is_processed: false,
        }
    }

    /// With the data of a descriptor's block, which end behind so many bytes.
    pub(crate) fn with(self, entry: &[u8; DESCRIPTOR], end: usize) -> Moved
        requires { self.len ≤ end }
        ensures { result ≡ record {
          len = end;
          is_processed = self.is_processed || processes entry.now (end - self.len);
        } }
    {
        Moved {
            len: end,
            is_processed: self.is_processed || processes(entry, end - self.len),
        }
    }
}

/// Fills `room` with the first bytes of the blocks that so many descriptors from an address on name. A descriptor is read
/// where bytes are wanted of its block alone.
///
/// # Errors
///
/// Where memory failed. What stands in `room` then is not said.
pub fn gather<M: HostMemory>(
    memory: &mut M,
    width: AddressWidth,
    at: u128,
    entries: u16,
    room: &mut [u8],
) -> Result<Moved, Miss>
    requires { at < 2 ^ 65 }
    ensures { (talk : List Access) × Accessed (IsAccess width M.does) memory.old talk memory.new
        × Gathers at entries (length room.old) talk (brought_as (λ done. room.new) result)
        × IfOk result (λ moved. moved ≡ moved_by talk (length room.old)) }
{
    if room.is_empty() {
        return Ok(Moved::none());
    }
    gather_blocks(memory, width, at, entries, room)
}

/// The same of any number of bytes, descriptor by descriptor.
fn gather_blocks<M: HostMemory>(
    memory: &mut M,
    width: AddressWidth,
    at: u128,
    entries: u16,
    into: &mut [u8],
) -> Result<Moved, Miss>
    requires { at < 2 ^ 65 }
    ensures { (talk : List Access) × Accessed (IsAccess width M.does) memory.old talk memory.new
        × Gathers at entries (length into.old) talk (brought_as (λ done. into.new) result)
        × IfOk result (λ moved. moved ≡ moved_by talk (length into.old)) }
{
    let mut moved = Moved::none();
    for k in 0..entries {
        if moved.len == into.len() {
            return Ok(moved);
        }
        let Some(entry) = read_array(memory, width, at + DESCRIPTOR as u128 * u128::from(k)) else {
            return Err(Miss::Table);
        };
        let end = moved.len + data_len(&entry).min(into.len() - moved.len);
        if !read_at(memory, width, data_at(&entry), &mut into[moved.len..end]) {
            return Err(Miss::Block);
        }
        moved = moved.with(&entry, end);
    }
    if moved.len == into.len() {
        Ok(moved)
    } else {
        Err(Miss::Overflow)
    }
}
