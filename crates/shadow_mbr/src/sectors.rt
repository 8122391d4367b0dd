//! Sectors of which those that were never written are not kept.

ghost use Rattle.std.specs.Prelude.{◌≡◌, ◌+◌, ◌-◌, ◌%◌, ◌^◌, ◌*◌, ◌<◌, ◌≤◌, ◌++◌, ◌&&◌, ◌||◌, ℕ, nat_eq, nat_le, nat_lt, OnOk, length, replicate};
ghost use Rattle.std.specs.List.{list_any};
ghost use Rattle.shadow_mbr.specs.Stored.{sector_size, zeros, has_byte};

use crate::erasure::Erasure;
use crate::kept::{Block, HEAD_SIZE, Kept, SECTOR_SIZE};
use crate::piece::{SECTOR, piece_len, sectors_of};
use crate::shrinking::without_zeros;
use std::alloc::{AllocError, Global};
use std::marker::Model;

/// So many sectors, of which those that were never written are not kept.
#[derive(Drop)]
pub(crate) struct Sectors {
    alloc: Global,
    sectors: u64,
    kept: Kept,
}

impl Model for Sectors {
    ghost use Rattle.std.specs.Prelude.{◌≡◌, ℕ, ◌≤◌, ◌^◌, length};
    ghost use Rattle.shadow_mbr.specs.Stored.{StoredSectors, IsSound};

    ghost Value = { StoredSectors };

    ghost view = { λ a. record { sectors = a.sectors; kept = a.kept } };

    ghost invariant = { λ a. IsSound (record { sectors = a.sectors; kept = a.kept }) };
}

impl Sectors {
    ghost use Rattle.std.specs.Prelude.{◌≡◌, ◌+◌, ◌*◌, ◌/◌, ◌%◌, ◌≤◌, ◌<◌, ◌^◌, ◌==◌, ◌++◌, ℕ, length, OnOk, OnErr, IfOk, IsTrue, ◌↔◌, [], true, false, is_some, slice_index, take, drop, if◌then◌else◌};
    ghost use Rattle.std.specs.Prelude.{IfOk, nat_eq, ◌||◌, None, Some};
    ghost use Rattle.std.specs.List.{list_any};
    ghost use Rattle.std.specs.Map.{keys_of};
    ghost use Rattle.shadow_mbr.specs.Stored.{IsSound, AreKept, ListsMissing, sector_size, sector_limit, heads, is_among, sector_filled, zeros, kept_at, sector_at, byte_at, byte_after, has_byte, sectors_from};
    ghost use Rattle.shadow_mbr.specs.Erasure.{is_erased};

    pub(crate) fn new(alloc: Global, sectors: u64) -> Sectors
        requires { sectors ≤ sector_limit }
        ensures exact { result ≡ record { sectors = sectors; kept = [] } }
        ensures sound { IsSound result }
    {
        Sectors {
            alloc,
            sectors,
            kept: Kept::new(alloc),
        }
    }

    /// The same sectors once more, in memory of their own.
    #[inline(always)]
    pub(crate) fn copy(&self) -> Result<Sectors, AllocError>
        ensures { IfOk result (λ c. c ≡ self.now) }
    {
        Ok(Sectors {
            alloc: self.alloc,
            sectors: self.sectors,
            kept: self.kept.copy(self.alloc)?,
        })
    }

    /// Lets all go that is kept, and gives back its memory.
    pub(crate) fn clear(&mut self)
        ensures exact { self.new ≡ record self.old { kept = [] } }
        ensures sound { IsSound self.new }
    {
        self.kept = Kept::new(self.alloc);
    }

    /// The sectors are few and whole: the type promises it, and says so where a field is used.
    fn is_sound(&self)
        ensures { IsSound self.now }
    {
        let _ = &self.kept;
    }

    pub(crate) fn sectors(&self) -> u64
        ensures { result ≡ self.now.sectors }
    {
        self.sectors
    }

    pub(crate) fn sector(&self, sector: u64) -> &Block
        ensures value { result.now ≡ sector_at self.now sector }
        ensures sound { IsSound self.now }
    {
        self.kept.sector(sector)
    }

    fn has(&self, sector: u64) -> bool
        ensures { result ≡ is_some (kept_at self.now sector) }
    {
        self.kept.has(sector)
    }

    /// The sectors that are kept, rising.
    pub(crate) fn kept(&self, alloc: Global) -> Result<Vec<u64>, AllocError>
        ensures { IfOk result (λ v. v.items ≡ keys_of self.now.kept) }
    {
        self.kept.sectors(alloc)
    }

    /// Some bytes of one sector, from a place on.
    #[tactic(auto, using(crate::proofs::Pieces::part_of_sector))]
    fn part(&self, place: u64, len: usize) -> &[u8]
        requires { place % sector_size + len ≤ sector_size }
        ensures len { length result.now ≡ len }
        ensures bytes { (i : ℕ) → i < len → slice_index result.now i
            ≡ byte_at self.now (place + i) }
    {
        let block = self.sector(place / SECTOR);
        let from = (place % SECTOR) as usize;
        &block[from..from + len]
    }

    /// The bytes from a place on.
    pub(crate) fn read(&self, at: u64, buffer: &mut [u8])
        requires { at + length buffer.old ≤ sector_size * self.now.sectors }
        ensures bytes { (k : ℕ) → k < length buffer.new
            → slice_index buffer.new k ≡ byte_at self.now (at + k) }
        ensures sound { IsSound self.now }
    {
        self.is_sound();
        let mut done = 0;
        while done < buffer.len() {
            let place = at + done as u64;
            let len = piece_len(place, buffer.len() - done);
            buffer[done..done + len].copy_from_slice(self.part(place, len));
            done += len;
        }
    }

    /// The bytes of so many sectors from one on.
    pub(crate) fn read_sectors(&self, first: u64, count: u32) -> Result<Vec<u8>, AllocError>
        requires { first + count ≤ self.now.sectors }
        ensures { IfOk result (λ bytes. bytes.items
            ≡ sectors_from (sector_at self.now) first count) }
    {
        self.read_sectors_into(Vec::new(self.alloc), first, count)
    }

    /// The bytes of so many sectors from one on, in the memory of a vector that is given.
    pub(crate) fn read_sectors_into(
        &self,
        buffer: Vec<u8>,
        first: u64,
        count: u32,
    ) -> Result<Vec<u8>, AllocError>
        requires { first + count ≤ self.now.sectors }
        ensures { IfOk result (λ bytes. bytes.items
            ≡ sectors_from (sector_at self.now) first count) }
    {
        self.is_sound();
        let end = first + u64::from(count);
        let mut bytes = buffer;
        bytes.clear();
        bytes.reserve(SECTOR_SIZE * count as usize)?;
        self.kept.append_run(&mut bytes, first, end)?;
        Ok(bytes)
    }

    /// The first bytes of so many sectors from one on, in the memory of a vector that is given.
    #[tactic(auto, using(crate::proofs::Heads::heads_from))]
    pub(crate) fn read_heads_into(
        &self,
        buffer: Vec<u8>,
        first: u64,
        count: u32,
    ) -> Result<Vec<u8>, AllocError>
        requires { first + count ≤ self.now.sectors }
        ensures { IfOk result (λ bytes. bytes.items
            ≡ heads (sectors_from (sector_at self.now) first count)) }
    {
        self.is_sound();
        let end = first + u64::from(count);
        let mut bytes = buffer;
        bytes.clear();
        bytes.reserve(HEAD_SIZE * count as usize)?;
        self.kept.append_heads(&mut bytes, first, end)?;
        Ok(bytes)
    }

    /// Fills so many sectors from one on with a byte. Where memory is refused, nothing changes.
    pub(crate) fn fill(&mut self, first: u64, count: u32, byte: u8) -> Result<(), AllocError>
        requires { first + count ≤ self.old.sectors }
        ensures size { self.new.sectors ≡ self.old.sectors }
        ensures kept { OnOk result ((s : ℕ) → is_some (kept_at self.new s)
            ≡ (is_some (kept_at self.old s) || is_among first (first + count) s)) }
        ensures sectors { OnOk result ((s : ℕ) → sector_at self.new s
            ≡ sector_filled first (first + count) byte (sector_at self.old s) s) }
        ensures err { OnErr result (self.new ≡ self.old) }
        ensures sound { IsSound self.new }
    {
        self.is_sound();
        let end = first + u64::from(count);
        if !self.kept.fills(first, end, byte) {
            self.keep(first, end)?;
            self.kept.fill(first, end, byte);
        }
        Ok(())
    }

    /// Writes bytes from a place on, into sectors that are kept.
    pub(crate) fn overwrite(&mut self, at: u64, bytes: &[u8])
        requires inside { at + length bytes.now ≤ sector_size * self.old.sectors }
        requires kept { AreKept self.old at (length bytes.now) }
        ensures size { self.new.sectors ≡ self.old.sectors }
        ensures kept { (s : ℕ) → is_some (kept_at self.new s) ≡ is_some (kept_at self.old s) }
        ensures bytes { (p : ℕ) → byte_at self.new p
            ≡ byte_after at bytes.now (byte_at self.old p) p }
        ensures sound { IsSound self.new }
    {
        self.is_sound();
        self.kept.overwrite(at, bytes);
    }

    /// Writes bytes from a place on if each of their sectors is kept, and else changes nothing.
    fn overwrites(&mut self, at: u64, bytes: &[u8]) -> bool
        requires { at + length bytes.now ≤ sector_size * self.old.sectors }
        ensures size { self.new.sectors ≡ self.old.sectors }
        ensures covered { IsTrue result ↔ AreKept self.old at (length bytes.now) }
        ensures kept { (s : ℕ) → is_some (kept_at self.new s) ≡ is_some (kept_at self.old s) }
        ensures bytes { result ≡ true → (p : ℕ)
            → byte_at self.new p ≡ byte_after at bytes.now (byte_at self.old p) p }
        ensures misses { result ≡ false → self.new ≡ self.old }
        ensures sound { IsSound self.new }
    {
        self.is_sound();
        self.kept.overwrites(at, bytes)
    }

    /// Whether each sector that has one of so many bytes is kept.
    pub(crate) fn covers(&self, at: u64, len: usize) -> bool
        requires { at + len ≤ sector_size * self.now.sectors }
        ensures { IsTrue result ↔ AreKept self.now at len }
    {
        self.is_sound();
        let mut done = 0;
        while done < len {
            let place = at + done as u64;
            if !self.has(place / SECTOR) {
                return false;
            }
            done += piece_len(place, len - done);
        }
        true
    }

    /// The sectors of a run that are not kept.
    fn missing(&self, first: u64, end: u64) -> Result<Vec<u64>, AllocError>
        requires from { first ≤ end }
        requires within { end ≤ self.now.sectors }
        ensures lists { IfOk result (λ v. ListsMissing self.now first end v.items) }
        ensures sound { IsSound self.now }
    {
        self.is_sound();
        let mut missing = Vec::new(self.alloc);
        self.kept.list_missing(&mut missing, first, end)?;
        Ok(missing)
    }

    /// Keeps each sector of a run. Where memory is refused, nothing changes.
    fn keep(&mut self, first: u64, end: u64) -> Result<(), AllocError>
        requires from { first ≤ end }
        requires within { end ≤ self.old.sectors }
        ensures size { self.new.sectors ≡ self.old.sectors }
        ensures kept { OnOk result ((s : ℕ) → is_some (kept_at self.new s)
            ≡ (is_some (kept_at self.old s) || is_among first end s)) }
        ensures bytes { (s : ℕ) → sector_at self.new s ≡ sector_at self.old s }
        ensures err { OnErr result (self.new ≡ self.old) }
        ensures sound { IsSound self.new }
    {
        let missing = self.missing(first, end)?;
        self.kept.add_all(&missing)?;
        Ok(())
    }

    /// Keeps each sector that has one of so many bytes.
    fn prepare(&mut self, at: u64, len: usize) -> Result<(), AllocError>
        requires { at + len ≤ sector_size * self.old.sectors }
        ensures size { self.new.sectors ≡ self.old.sectors }
        ensures kept { OnOk result ((s : ℕ) → is_some (kept_at self.new s)
            ≡ (is_some (kept_at self.old s) || has_byte at len s)) }
        ensures bytes { (s : ℕ) → sector_at self.new s ≡ sector_at self.old s }
        ensures err { OnErr result (self.new ≡ self.old) }
        ensures sound { IsSound self.new }
    {
        self.is_sound();
        let (first, end) = sectors_of(at, len);
        self.keep(first, end)?;
        Ok(())
    }

    /// Writes bytes from a place on. Where memory is refused, nothing changes.
    #[tactic(auto, using(crate::proofs::Touched::touched))]
    pub(crate) fn write(&mut self, at: u64, bytes: &[u8]) -> Result<(), AllocError>
        requires { at + length bytes.now ≤ sector_size * self.old.sectors }
        ensures size { self.new.sectors ≡ self.old.sectors }
        ensures kept { OnOk result ((s : ℕ) → is_some (kept_at self.new s)
            ≡ (is_some (kept_at self.old s) || has_byte at (length bytes.now) s)) }
        ensures bytes { OnOk result ((p : ℕ) → byte_at self.new p
            ≡ byte_after at bytes.now (byte_at self.old p) p) }
        ensures err { OnErr result (self.new ≡ self.old) }
        ensures sound { IsSound self.new }
    {
        if !self.overwrites(at, bytes) {
            self.prepare(at, bytes.len())?;
            self.overwrite(at, bytes);
        }
        Ok(())
    }

    /// Makes zeros of the sectors that are erased, and gives back the memory of zeros: of all where all are erased, else
    /// where most of what is kept are zeros.
    pub(crate) fn erase(&mut self, erasure: &Erasure)
        ensures size { self.new.sectors ≡ self.old.sectors }
        ensures sectors { (s : ℕ) → sector_at self.new s
            ≡ (if is_erased erasure.now s then zeros else sector_at self.old s) }
        ensures sound { IsSound self.new }
    {
        self.is_sound();
        if erasure.names_all() {
            self.clear();
        } else {
            self.kept.erase(erasure);
            self.shrink();
        }
    }

    /// Keeps the sectors that hold zeros no more, where these are most of those that are kept, and gives back their memory.
    /// Where memory for those that stay is refused, all are kept.
    fn shrink(&mut self)
        ensures size { self.new.sectors ≡ self.old.sectors }
        ensures sectors { (s : ℕ) → sector_at self.new s ≡ sector_at self.old s }
        ensures sound { IsSound self.new }
    {
        self.is_sound();
        if self.kept.is_mostly_zeros() {
            if let Ok(fewer) = without_zeros(&self.kept, self.alloc) {
                fewer.is_sorted();
                self.kept = fewer;
            }
        }
    }
}
