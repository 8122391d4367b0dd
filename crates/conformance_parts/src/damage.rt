//! The memory of a port in which one byte of a command's header or table is another (AHCI 1.3.1, 4.2.2 and 4.2.3). What is
//! expected was worked out by hand from the formats.

ghost use Rattle.std.specs.Prelude.{◌<◌};

use fis::Tag;
use slots::{CommandBlock, FetchError, Fetched, MEMORY, PortMemory};
use std::alloc::{AllocError, Global};

/// Slot 5: its header, its table, and the place of its first descriptor in the table.
const SLOT: u8 = 5;

const HEADER: usize = 0xa0;

const HEADER_SIZE: usize = 32;

const TABLE: usize = 0xd00;

const TABLE_SIZE: usize = 256;

/// READ FPDMA QUEUED of 8 sectors from 123456h under tag 5 (ACS-3).
const READ: [u8; 20] = [
    0x27, 0x80, 0x60, 0x08, 0x56, 0x34, 0x12, 0x40, 0, 0, 0, 0, 0x28, 0, 0, 0, 0, 0, 0, 0,
];

/// What is fetched of it where nothing is changed.
const PLACED: Fetched = Fetched {
    fis: READ,
    write: false,
    len: 4096,
};

/// What is fetched where byte `at` of the header is another. The header is `05000100 00000000 000d0000 00000000` and zeros.
fn in_header(at: usize, byte: u8) -> Result<Fetched, FetchError> {
    match (at, byte) {
        // five words of FIS, and the bits A, W and P: none of the bytes tried has five
        (0, _) => Err(FetchError::BadLength),
        // no descriptor
        (2, 0x00) => Ok(Fetched { len: 0, ..PLACED }),
        // 254 or more descriptors: those behind the first are zeros, one odd byte each
        (2, _) | (3, 0xff) => Err(FetchError::BadPrdt),
        // not at a multiple of 128
        (8, 0xff) => Err(FetchError::BadAddress),
        // at 0, F200h or FF00h, where the descriptor is zeros
        (9, _) => Err(FetchError::BadPrdt),
        // outside of the memory, or above 4 GiB
        (10..=15, 0xff) => Err(FetchError::BadAddress),
        // R, B, C and PMP; PRDBC; what is reserved; and bytes that stay as they are
        _ => Ok(PLACED),
    }
}

/// The FIS with another byte.
fn with_byte(at: usize, byte: u8) -> Fetched {
    let mut fetched = PLACED;
    if at < fetched.fis.len() {
        fetched.fis[at] = byte;
    }
    fetched
}

/// What is fetched where byte `at` of the table is another. The descriptor at 80h is `00000b00 00000000 00000000 ff0f0000`.
fn in_table(at: usize, byte: u8) -> Result<Fetched, FetchError> {
    match (at, byte) {
        // no register FIS from a host
        (0, _) => Err(FetchError::BadFis),
        // bit C
        (1, 0x00 | 0x7f) => Err(FetchError::BadFis),
        (1..=19, _) => Ok(with_byte(at, byte)),
        // an odd address
        (0x80, 0xff) => Err(FetchError::BadPrdt),
        // FF0000h or F40000h, outside of the memory; 0 is within
        (0x82, 0xf4 | 0xff) | (0x83, 0xff) => Err(FetchError::BadPrdt),
        // above 4 GiB
        (0x84..=0x87, 0xff) => Err(FetchError::BadPrdt),
        // F01h bytes
        (0x8c, 0x00) => Err(FetchError::BadPrdt),
        // 100h, F100h and 10000h bytes
        (0x8d, 0x00) => Ok(Fetched {
            len: 0x100,
            ..PLACED
        }),
        (0x8d, 0xf0) => Ok(Fetched {
            len: 0xf100,
            ..PLACED
        }),
        (0x8d, 0xff) => Ok(Fetched {
            len: 0x1_0000,
            ..PLACED
        }),
        // 3F1000h bytes: more than a buffer has
        (0x8e, 0xff) => Err(FetchError::BadPrdt),
        // the rest of the place of the FIS; ACMD; what is reserved; bit I; what no descriptor has
        _ => Ok(PLACED),
    }
}

/// The bytes of a memory in which the command is placed.
fn placed(alloc: Global) -> Result<Vec<u8>, AllocError> {
    let mut memory = PortMemory::new(alloc)?;
    if let Some(command) = CommandBlock::new(READ) {
        memory.place(Tag::low_bits(SLOT), &command, false, 4096);
    }
    memory.part(0, MEMORY).to_vec(alloc)
}

/// Whether this is fetched of a memory with these bytes, of which one is another.
fn is_fetched(
    alloc: Global,
    bytes: &[u8],
    at: usize,
    byte: u8,
    want: Result<Fetched, FetchError>,
) -> Result<bool, AllocError> {
    let mut damaged = bytes.to_vec(alloc)?;
    if let Some(place) = damaged.get_mut(at) {
        *place = byte;
    }
    match PortMemory::of_bytes(damaged) {
        Some(memory) => Ok(memory.fetch(Tag::low_bits(SLOT)) == want),
        None => Ok(false),
    }
}

/// What a byte becomes: 00h, FFh and its complement.
fn others(bytes: &[u8], at: usize) -> [u8; 3] {
    let byte = bytes.get(at).copied().unwrap_or(0);
    [0x00, 0xff, 0xff - byte]
}

/// Whether what is fetched is told where byte `at` of the header is another.
fn header_is_told(alloc: Global, bytes: &[u8], at: usize) -> Result<bool, AllocError>
    requires { at < HEADER_SIZE }
{
    let mut is_told = true;
    for byte in others(bytes, HEADER + at) {
        is_told &= is_fetched(alloc, bytes, HEADER + at, byte, in_header(at, byte))?;
    }
    Ok(is_told)
}

/// Whether what is fetched is told where byte `at` of the table is another.
fn table_is_told(alloc: Global, bytes: &[u8], at: usize) -> Result<bool, AllocError>
    requires { at < TABLE_SIZE }
{
    let mut is_told = true;
    for byte in others(bytes, TABLE + at) {
        is_told &= is_fetched(alloc, bytes, TABLE + at, byte, in_table(at, byte))?;
    }
    Ok(is_told)
}

/// The first byte of the header, or of the table, of which something else is fetched.
fn other_byte(alloc: Global) -> Result<Option<usize>, AllocError> {
    let bytes = placed(alloc)?;
    for at in 0..HEADER_SIZE {
        if !header_is_told(alloc, &bytes, at)? {
            return Ok(Some(HEADER + at));
        }
    }
    for at in 0..TABLE_SIZE {
        if !table_is_told(alloc, &bytes, at)? {
            return Ok(Some(TABLE + at));
        }
    }
    Ok(None)
}

/// Each byte of the header, and of the table.
#[test]
fn fetches_by_a_damaged_command(rt: HostRuntime) {
    let other = other_byte(rt.alloc());
    assert!(rt; other == Ok(None), "{other:?}");
}
