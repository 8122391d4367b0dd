//! The host's memory, as a port and its host share it.

ghost use Rattle.std.specs.Prelude.{◌≡◌, ℕ, IfOk, length, slice_index};

use crate::command_block::CommandBlock;
use crate::error::FetchError;
use crate::fetched::Fetched;
use crate::fields::{self, DESCRIPTOR, DESCRIPTORS, HEADER, is_command};
use crate::layout::{BUFFER, MEMORY, buffer_place, header_place, received_place, table_place};
use crate::parts::{self, COMMAND_WORDS};
use fis::{Fis, H2D_LENGTH, Tag};
use std::alloc::{AllocError, Global};
use std::marker::Model;

/// The memory of a port.
#[derive(Drop)]
pub struct PortMemory {
    bytes: Vec<u8>,
}

impl Model for PortMemory {
    ghost use Rattle.std.specs.Prelude.{ℕ, List, ◌≡◌, length};
    ghost use Rattle.slots.specs.Layout.{memory_size};

    ghost Value = { List ℕ };

    ghost view = { λ m. m.bytes.items };

    ghost invariant = { λ m. length m.bytes.items ≡ memory_size };
}

/// So many zeros.
fn zeros(alloc: Global, len: usize) -> Result<Vec<u8>, AllocError>
    ensures { IfOk result (λ v. (length v.items ≡ len) × ((k : ℕ) → slice_index v.items k ≡ 0)) }
{
    vec![in alloc; 0; len]
}

impl PortMemory {
    ghost use Rattle.std.specs.Prelude.{◌≡◌, ◌+◌, ◌*◌, ◌≤◌, ◌<◌, ◌%◌, ◌^◌, ◌↔◌, ℕ, List, Bool, true, IfOk, IfSome, IsSome, Ok, Some, None, length, slice_index, if◌then◌else◌};
    ghost use Rattle.fis.specs.Tags.{slot_count};
    ghost use Rattle.slots.specs.Layout.{memory_size, header_size, received_at, received_size, command_table_size, buffer_size, descriptors_at, descriptor_size, memory_with, memory_part, header_place, table_place, buffer_place, received_place, fis_length};
    ghost use Rattle.slots.specs.Fetch.{fetched, placed, transfer, table_fis, HoldsCommand, IsApartFromParts};
    ghost use Rattle.slots.specs.Table.{is_command, descriptors};
    ghost use Rattle.fis.specs.Types.{h2d_length};
    ghost use Rattle.fis.specs.Fis.{IsSpelling};
    ghost use Rattle.std.specs.Borrow.{sem};
    ghost use Rattle.slots.specs.Lending.{with_part, LendsPart};

    /// A memory of zeros.
    pub fn new(alloc: Global) -> Result<PortMemory, AllocError>
        ensures { IfOk result (λ m. (length m ≡ memory_size) × ((k : ℕ) → slice_index m k ≡ 0)) }
    {
        Ok(PortMemory {
            bytes: zeros(alloc, MEMORY)?,
        })
    }

    /// The same memory once more.
    pub fn copy(&self) -> Result<PortMemory, AllocError>
        ensures { IfOk result (λ copied. copied ≡ self.now) }
    {
        let bytes = self.bytes.clone()?;
        Ok(PortMemory { bytes })
    }

    /// The memory with these bytes, or `None` where they are not as many as a memory has.
    pub fn of_bytes(bytes: Vec<u8>) -> Option<PortMemory>
        ensures some { IsSome result ↔ (length bytes.items ≡ memory_size) }
        ensures value { IfSome result (λ m. m ≡ bytes.items) }
    {
        if bytes.len() == MEMORY {
            Some(PortMemory { bytes })
        } else {
            None
        }
    }

    pub fn part(&self, at: usize, len: usize) -> &[u8]
        requires { at + len ≤ memory_size }
        ensures value { result.now ≡ memory_part self.now at len }
        ensures len { length result.now ≡ len }
    {
        &self.bytes[at..at + len]
    }

    fn part_mut(&mut self, at: usize, len: usize) -> &mut [u8]
        requires { at + len ≤ memory_size }
        ensures* writes_back { sem 𝓛 (LendsPart self.entry at result) }
        ensures value { result.now ≡ memory_part self.old at len }
        ensures len { length result.now ≡ len }
        ensures whole { (bytes : List ℕ) → length bytes ≡ len
            → with_part self.old at bytes ≡ memory_with self.old at bytes }
        ensures inside { (i : ℕ) (bytes : List ℕ) → i + length bytes ≤ len
            → with_part self.old at (memory_with (memory_part self.old at len) i bytes)
            ≡ memory_with self.old (at + i) bytes }
    {
        self.bytes.slice_mut(at..at + len)
    }

    fn lay(&mut self, at: usize, bytes: &[u8])
        requires { at + length bytes.now ≤ memory_size }
        ensures { self.new ≡ memory_with self.old at bytes.now }
    {
        parts::lay(&mut self.bytes, at, bytes);
    }

    /// Lays a command with `len` bytes of data in its slot. What no field names is 0.
    pub fn place(&mut self, tag: Tag, command: &CommandBlock, write: bool, len: u32)
        requires even { len % 2 ≡ 0 }
        requires fits { len ≤ buffer_size }
        ensures exact { self.new ≡ placed self.old tag command.now write len }

        // The slot holds the command then, and no other byte changes.
        ensures holds { HoldsCommand self.new tag command.now write len }
        ensures elsewhere { (place n : ℕ) → IsApartFromParts place n (header_place tag) header_size
            → IsApartFromParts place n (table_place tag) command_table_size
            → memory_part self.new place n ≡ memory_part self.old place n }
    {
        self.lay_command(tag, command, write, len);
    }

    /// There are as many bytes as a memory has: the type promises it, and says so where the field is used.
    fn is_whole(&self)
        ensures { length self.now ≡ memory_size }
    {
        let _ = &self.bytes;
    }

    fn lay_command(&mut self, tag: Tag, command: &CommandBlock, write: bool, len: u32)
        requires { len ≤ buffer_size }
        ensures exact { self.new ≡ placed self.old tag command.now write len }
        ensures memory_len { length self.old ≡ memory_size }
        ensures command_len { length command.now ≡ h2d_length }
        ensures tag { tag < slot_count }
    {
        self.is_whole();
        let bytes = command.bytes();
        let header = parts::header(tag, write, len);
        let table = parts::table(tag, bytes, len);
        self.lay(header_place(tag), &header);
        self.lay(table_place(tag), &table);
    }

    /// How many bytes the descriptors of a table name, or `None` where one is wrong or there are
    /// too many.
    #[tactic(auto, using(crate::proofs::Sums::one_more_sound, crate::proofs::Sums::one_more_sum, crate::proofs::Sums::unsound))]
    fn transfer(&self, table: usize, entries: usize) -> Option<u32>
        requires few { entries < 2 ^ 16 }
        requires inside { table + descriptors_at + descriptor_size * entries ≤ memory_size }
        ensures { result ≡ transfer (descriptors self.now table entries) }
    {
        let mut total = 0;
        for k in 0..entries {
            let entry = self.part(table + DESCRIPTORS + DESCRIPTOR * k, DESCRIPTOR);
            if !parts::is_sound(entry) {
                return None;
            }
            total += u64::from(fields::byte_count(entry));
        }
        if total > BUFFER as u64 {
            return None;
        }
        Some(total as u32)
    }

    /// The FIS in a command table, or `None` where it is no command.
    fn command_fis(&self, table: usize) -> Option<[u8; H2D_LENGTH]>
        requires { table + descriptors_at ≤ memory_size }
        ensures { result ≡ table_fis self.now table }
    {
        let bytes = self.part(table, H2D_LENGTH);
        if !is_command(bytes) {
            return None;
        }
        let mut fis = [0; H2D_LENGTH];
        fis.copy_from_slice(bytes);
        Some(fis)
    }

    /// The command in a slot, whatever bytes stand there.
    ///
    /// The errors come in this order: `BadLength`, `BadAddress`, `BadPrdt`, `BadFis`.
    pub fn fetch(&self, tag: Tag) -> Result<Fetched, FetchError>
        ensures exact { result ≡ fetched self.now tag }

        // What was placed is fetched, as long as the slot holds it.
        ensures held { (command : List ℕ) (write : Bool) (len : ℕ) → length command ≡ h2d_length
            → is_command command ≡ true → len % 2 ≡ 0 → len ≤ buffer_size
            → HoldsCommand self.now tag command write len
            → result ≡ Ok (record { fis = command; write = write; len = len }) }
    {
        self.read_slot(tag)
    }

    fn read_slot(&self, tag: Tag) -> Result<Fetched, FetchError>
        ensures exact { result ≡ fetched self.now tag }
        ensures tag { tag < slot_count }
    {
        let header = self.part(header_place(tag), HEADER);
        if fields::fis_words(header) != COMMAND_WORDS {
            return Err(FetchError::BadLength);
        }
        if !parts::has_table(header) {
            return Err(FetchError::BadAddress);
        }
        let table = fields::table_at(header) as usize;
        let len = self
            .transfer(table, usize::from(fields::entries(header)))
            .ok_or(FetchError::BadPrdt)?;
        let fis = self.command_fis(table).ok_or(FetchError::BadFis)?;
        Ok(Fetched {
            fis,
            write: fields::is_write(header),
            len,
        })
    }

    /// Stores a FIS of the device where the port receives one of its type.
    pub fn post(&mut self, fis: &Fis)
        ensures exact { (bytes : List ℕ) × IsSpelling bytes fis.now
            × (self.new ≡ memory_with self.old (received_place fis.now) bytes) }

        // No byte outside the received FISes changes.
        ensures elsewhere { (place n : ℕ) → IsApartFromParts place n received_at received_size
            → memory_part self.new place n ≡ memory_part self.old place n }

        // The FIS stands at its place, and the others stay.
        ensures stands { IsSpelling
            (memory_part self.new (received_place fis.now) (fis_length fis.now)) fis.now }
        ensures beside { (place n : ℕ)
            → IsApartFromParts place n (received_place fis.now) (fis_length fis.now)
            → memory_part self.new place n ≡ memory_part self.old place n }
    {
        self.store(fis);
    }

    fn store(&mut self, fis: &Fis)
        ensures exact { (bytes : List ℕ) × IsSpelling bytes fis.now
            × (self.new ≡ memory_with self.old (received_place fis.now) bytes) }
        ensures memory_len { length self.old ≡ memory_size }
    {
        self.is_whole();
        let at = received_place(fis);
        match fis {
            Fis::H2d(f) => self.lay(at, &f.to_bytes()),
            Fis::D2h(f) => self.lay(at, &f.to_bytes()),
            Fis::SetDeviceBits(f) => self.lay(at, &f.to_bytes()),
            Fis::DmaSetup(f) => self.lay(at, &f.to_bytes()),
            Fis::PioSetup(f) => self.lay(at, &f.to_bytes()),
        }
    }

    /// The data of a slot.
    pub fn buffer(&self, tag: Tag) -> &[u8]
        ensures value { result.now ≡ memory_part self.now (buffer_place tag) buffer_size }
        ensures len { length result.now ≡ buffer_size }
    {
        self.part(buffer_place(tag), BUFFER)
    }

    /// The data of a slot, to be changed.
    pub fn buffer_mut(&mut self, tag: Tag) -> &mut [u8]
        ensures* writes_back { sem 𝓛 (LendsPart self.entry (buffer_place tag) result) }
        ensures value { result.now ≡ memory_part self.old (buffer_place tag) buffer_size }
        ensures len { length result.now ≡ buffer_size }

        // The slice keeps its length, so that no byte outside the buffer changes. What is written
        // into the slice from a place on stands in the memory.
        ensures whole { (bytes : List ℕ) → length bytes ≡ buffer_size
            → with_part self.old (buffer_place tag) bytes ≡ memory_with self.old
            (buffer_place tag) bytes }
        ensures inside { (i : ℕ) (bytes : List ℕ) → i + length bytes ≤ buffer_size
            → with_part self.old (buffer_place tag)
            (memory_with (memory_part self.old (buffer_place tag) buffer_size) i bytes)
            ≡ memory_with self.old (buffer_place tag + i) bytes }
    {
        self.part_mut(buffer_place(tag), BUFFER)
    }
}
