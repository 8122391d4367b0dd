//! Command headers, tables and descriptors as bytes (AHCI 1.3.1, 4.2.2 and 4.2.3).

ghost use Rattle.std.specs.Prelude.{◌≡◌, ◌≤◌, ◌<◌, ◌+◌, ◌*◌, ◌-◌, ◌^◌, length};
ghost use Rattle.slots.specs.Layout.{header_size, command_table_size, descriptor_size, zero_bytes, memory_with, table_place, buffer_place};
ghost use Rattle.slots.specs.Header.{header_bytes, has_table, entries_for};
ghost use Rattle.slots.specs.Table.{entry_bytes, table_bytes, is_sound};

use crate::fields::{
    DESCRIPTOR, DESCRIPTORS, HEADER, WRITE_BIT, address, byte_count, entries, table_at,
    table_upper, upper,
};
use crate::layout::{MEMORY, TABLE, buffer_place, table_place};
use byteorder::{ByteOrder, LittleEndian};
use fis::{H2D_LENGTH, Tag};

/// How many words of four bytes a command FIS has.
pub(crate) const COMMAND_WORDS: u8 = (H2D_LENGTH / 4) as u8;

/// A command table stands at a multiple of this (AHCI 1.3.1, 4.2.2).
const TABLE_ALIGNMENT: usize = 128;

/// Lays bytes among others from a place on.
pub(crate) fn lay(memory: &mut [u8], at: usize, bytes: &[u8])
    requires { at + length bytes.now ≤ length memory.old }
    ensures { memory.new ≡ memory_with memory.old at bytes.now }
{
    memory[at..at + bytes.len()].copy_from_slice(bytes);
}

/// The header of a command of `len` bytes of data, none or in one piece.
pub(crate) fn header(tag: Tag, write: bool, len: u32) -> [u8; HEADER]
    ensures { result ≡ header_bytes write (entries_for len) (table_place tag) }
{
    let entries = if len == 0 { 0 } else { 1 };
    let mut header = [0; HEADER];
    LittleEndian::write_u16(
        &mut header[0..2],
        u16::from(COMMAND_WORDS + WRITE_BIT * u8::from(write)),
    );
    LittleEndian::write_u16(&mut header[2..4], entries);
    LittleEndian::write_u32(&mut header[8..12], table_place(tag) as u32);
    header
}

/// The descriptor of the data in one piece.
fn entry(tag: Tag, len: u32) -> [u8; DESCRIPTOR]
    requires { 0 < len }
    ensures { result ≡ entry_bytes (buffer_place tag) len }
{
    let mut entry = [0; DESCRIPTOR];
    LittleEndian::write_u32(&mut entry[0..4], buffer_place(tag) as u32);
    LittleEndian::write_u32(&mut entry[12..16], len - 1);
    entry
}

#[tactic(auto, unfolding(crate::specs::Layout::zero_bytes))]
fn zeros() -> [u8; TABLE]
    ensures { result ≡ zero_bytes command_table_size }
{
    [0; TABLE]
}

/// The command table: the FIS, and the descriptor of the data where there are any.
pub(crate) fn table(tag: Tag, command: &[u8; H2D_LENGTH], len: u32) -> [u8; TABLE]
    ensures { result ≡ table_bytes (buffer_place tag) command.now len }
{
    let mut table = zeros();
    lay(&mut table, 0, command);
    if len != 0 {
        lay(&mut table, DESCRIPTORS, &entry(tag, len));
    }
    table
}

/// Whether the table that the header names stands in the memory, its entries included.
pub(crate) fn has_table(header: &[u8]) -> bool
    requires { header_size ≤ length header.now }
    ensures { result ≡ has_table header.now }
{
    let at = table_at(header) as usize;
    at % TABLE_ALIGNMENT == 0
        && table_upper(header) == 0
        && at + DESCRIPTORS + DESCRIPTOR * usize::from(entries(header)) <= MEMORY
}

/// Whether the bytes that the descriptor names stand in the memory.
pub(crate) fn is_sound(entry: &[u8]) -> bool
    requires { descriptor_size ≤ length entry.now }
    ensures { result ≡ is_sound entry.now }
{
    address(entry) % 2 == 0
        && upper(entry) == 0
        && byte_count(entry) % 2 == 0
        && address(entry) as usize + byte_count(entry) as usize <= MEMORY
}
