//! The memory of a port (AHCI 1.3.1, chapter 4).

use fis::{Fis, Tag};
use slots::*;
use std::alloc::{AllocError, Global};

/// READ FPDMA QUEUED of 8 sectors from 123456h under tag 5 (Serial ATA, "Register - Host to Device";
/// ACS-3, READ FPDMA QUEUED).
const READ: [u8; 20] = [
    0x27, 0x80, 0x60, 0x08, 0x56, 0x34, 0x12, 0x40, 0, 0, 0, 0, 0x28, 0, 0, 0, 0, 0, 0, 0,
];

/// The header of that command, which reads 4096 bytes (AHCI 1.3.1, 4.2.2).
const HEADER: [u8; 16] = [
    0x05, 0x00, 0x01, 0x00, 0, 0, 0, 0, 0x00, 0x0d, 0x00, 0x00, 0, 0, 0, 0,
];

/// Its descriptor (AHCI 1.3.1, 4.2.3.3).
const ENTRY: [u8; 16] = [
    0x00, 0x00, 0x0b, 0x00, 0, 0, 0, 0, 0, 0, 0, 0, 0xff, 0x0f, 0x00, 0x00,
];

/// A Set Device Bits FIS (Serial ATA, "Set Device Bits - Device to Host").
const RECEIVED: [u8; 8] = [0xa1, 0x40, 0x40, 0, 0x20, 0, 0, 0];

/// Bytes of the memory that are changed, and the fault of the command then.
const FAULTS: [(usize, u8, FetchError); 4] = [
    (0xa0, 0x04, FetchError::BadLength),
    (0xa8, 0x04, FetchError::BadAddress),
    (0xd8c, 0xfe, FetchError::BadPrdt),
    (0xd01, 0x00, FetchError::BadFis),
];

/// The bytes of a memory in which slot 5 has that command, as the standard writes it, but for one byte.
fn written(alloc: Global, at: usize, byte: u8) -> Result<Vec<u8>, AllocError> {
    let mut bytes = vec![in alloc; 0; MEMORY]?;
    if bytes.len() == MEMORY && at < MEMORY {
        bytes[0xa0..0xb0].copy_from_slice(&HEADER);
        bytes[0xd00..0xd14].copy_from_slice(&READ);
        bytes[0xd80..0xd90].copy_from_slice(&ENTRY);
        bytes[at] = byte;
    }
    Ok(bytes)
}

/// Whether the first fault of such a memory is this.
fn is_told(alloc: Global, at: usize, byte: u8, want: FetchError) -> Result<bool, AllocError> {
    let bytes = written(alloc, at, byte)?;
    match PortMemory::of_bytes(bytes) {
        Some(memory) => Ok(memory.fetch(Tag::low_bits(5)) == Err(want)),
        None => Ok(false),
    }
}

/// Whether the parts of a memory in which the command is placed are those of the standard, and it is fetched.
fn is_placed(memory: &PortMemory) -> bool {
    let want = Fetched {
        fis: READ,
        write: false,
        len: 4096,
    };
    memory.part(0xa0, 16) == HEADER.as_slice()
        && memory.part(0xd00, 20) == READ.as_slice()
        && memory.part(0xd80, 16) == ENTRY.as_slice()
        && memory.fetch(Tag::low_bits(5)) == Ok(want)
}

/// Whether the command is placed in a new memory.
fn places(alloc: Global) -> Result<bool, AllocError> {
    let mut memory = PortMemory::new(alloc)?;
    let Some(command) = CommandBlock::new(READ) else {
        return Ok(false);
    };
    memory.place(Tag::low_bits(5), &command, false, 4096);
    Ok(is_placed(&memory))
}

/// Whether a FIS that is received stands at 58h of the received FISes (AHCI 1.3.1, 4.2.1), and a buffer keeps what is
/// written into it.
fn receives(alloc: Global) -> Result<bool, AllocError> {
    let mut memory = PortMemory::new(alloc)?;
    let Ok(fis) = Fis::read(&RECEIVED) else {
        return Ok(false);
    };
    memory.post(&fis);
    let buffer = memory.buffer_mut(Tag::low_bits(31));
    buffer[BUFFER - 2..].copy_from_slice(&[1, 2]);
    let last = memory.buffer(Tag::low_bits(31)).last().copied();
    Ok(memory.part(0x458, 8) == RECEIVED.as_slice() && last == Some(2))
}

/// Whether each changed byte is told.
fn are_told(alloc: Global) -> bool {
    let mut are = true;
    for (at, byte, want) in FAULTS {
        are &= is_told(alloc, at, byte, want) == Ok(true);
    }
    are
}

#[test]
fn memories_are_fetched_from(rt: HostRuntime) {
    let is_kept = receives(rt.alloc()) == Ok(true) && places(rt.alloc()) == Ok(true);
    assert!(rt; is_kept && are_told(rt.alloc()));
}
