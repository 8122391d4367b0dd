//! The sectors of a drive.

use crate::erased::Erased;
use crate::kept::Block;
use crate::piece::SECTOR;
use crate::sectors::Sectors;
use std::alloc::{AllocError, Global};
use std::marker::Model;

/// The sectors of a drive, of 512 bytes each (ACS-3, IDENTIFY DEVICE word 106), zeros where nothing
/// was written.
#[derive(Drop)]
pub struct Media {
    held: Sectors,
}

impl Model for Media {
    ghost use Rattle.shadow_mbr.specs.Stored.{StoredSectors, IsSound};

    ghost Value = { StoredSectors };

    ghost view = { λ a. a.held };

    ghost invariant = { λ a. IsSound a.held };
}

impl Media {
    ghost use Rattle.std.specs.Prelude.{◌≡◌, ◌+◌, ◌*◌, ◌/◌, ◌%◌, ◌≤◌, ◌<◌, ◌^◌, ℕ, length, is_some, nat_eq, ◌||◌, OnOk, OnErr, IfOk, [], slice_index, slice_range, replicate, if◌then◌else◌};
    ghost use Rattle.std.specs.List.{list_any};
    ghost use Rattle.std.specs.Map.{keys_of};
    ghost use Rattle.shadow_mbr.specs.Stored.{IsSound, sector_size, sector_limit, heads, zeros, kept_at, has_byte, sector_at, byte_at, byte_after, sector_after, sectors_from};
    ghost use Rattle.shadow_mbr.specs.Erasure.{is_erased};

    /// So many sectors of zeros.
    #[tactic(auto, using(crate::proofs::Zeros::blank_byte))]
    pub fn new(alloc: Global, sectors: u64) -> Media
        requires { sectors ≤ sector_limit }
        ensures exact { result ≡ record { sectors = sectors; kept = [] } }
        ensures blank { (sector : ℕ) → sector_at result sector ≡ zeros }
        ensures zero { (place : ℕ) → byte_at result place ≡ 0 }
    {
        Media {
            held: Sectors::new(alloc, sectors),
        }
    }

    /// The same sectors once more, in memory of their own. Where memory is refused there is no copy.
    #[inline(always)]
    pub fn copy(&self) -> Result<Media, AllocError>
        ensures { IfOk result (λ c. c ≡ self.now) }
    {
        Ok(Media {
            held: self.held.copy()?,
        })
    }

    /// How many sectors the media have.
    pub fn sectors(&self) -> u64
        ensures { result ≡ self.now.sectors }
    {
        self.held.sectors()
    }

    /// The numbers of the sectors that are kept, rising.
    #[tactic(auto, using(crate::proofs::Same::is_kept))]
    pub fn kept(&self, alloc: Global) -> Result<Vec<u64>, AllocError>
        ensures exact { IfOk result (λ v. v.items ≡ keys_of self.now.kept) }
        ensures each { IfOk result (λ v. (sector : ℕ)
            → is_some (kept_at self.now sector) ≡ list_any (nat_eq sector) v.items) }
        ensures sound { IsSound self.now }
    {
        self.held.kept(alloc)
    }

    /// What the sector holds.
    pub fn sector(&self, sector: u64) -> &Block
        requires { sector < self.now.sectors }
        ensures value { result.now ≡ sector_at self.now sector }
        ensures len { length result.now ≡ sector_size }
    {
        self.held.sector(sector)
    }

    /// Fills the buffer with whole sectors from `lba` on.
    #[tactic(auto, using(crate::proofs::Whole::read_chunks, crate::proofs::Whole::read_exact))]
    pub fn read(&self, lba: u64, buffer: &mut [u8])
        requires whole { length buffer.old % sector_size ≡ 0 }
        requires inside { sector_size * lba + length buffer.old ≤ sector_size * self.now.sectors }
        ensures bytes { (k : ℕ) → k < length buffer.new
            → slice_index buffer.new k ≡ byte_at self.now (sector_size * lba + k) }
        ensures chunks { (k : ℕ) → sector_size * k < length buffer.new
            → slice_range buffer.new (sector_size * k) (sector_size * k + sector_size)
            ≡ sector_at self.now (lba + k) }
        ensures exact { buffer.new
            ≡ sectors_from (sector_at self.now) lba (length buffer.old / sector_size) }
        ensures each { (sector : ℕ) → length (sector_at self.now sector) ≡ sector_size }
    {
        self.held.read(SECTOR * lba, buffer);
    }

    /// The bytes of so many sectors from `lba` on, in a vector of their own.
    pub fn read_sectors(&self, lba: u64, count: u32) -> Result<Vec<u8>, AllocError>
        requires { lba + count ≤ self.now.sectors }
        ensures { IfOk result (λ bytes. bytes.items ≡ sectors_from (sector_at self.now) lba count) }
    {
        self.held.read_sectors(lba, count)
    }

    /// The bytes of so many sectors from `lba` on, in the memory of a vector that is given: what it
    /// held is gone, and where its room is enough none is taken.
    pub fn read_sectors_into(
        &self,
        buffer: Vec<u8>,
        lba: u64,
        count: u32,
    ) -> Result<Vec<u8>, AllocError>
        requires { lba + count ≤ self.now.sectors }
        ensures { IfOk result (λ bytes. bytes.items ≡ sectors_from (sector_at self.now) lba count) }
    {
        self.held.read_sectors_into(buffer, lba, count)
    }

    /// The first four bytes of each of so many sectors from `lba` on, in the memory of a vector that
    /// is given: what it held is gone, and where its room is enough none is taken.
    pub fn read_heads_into(
        &self,
        buffer: Vec<u8>,
        lba: u64,
        count: u32,
    ) -> Result<Vec<u8>, AllocError>
        requires { lba + count ≤ self.now.sectors }
        ensures { IfOk result (λ bytes. bytes.items
            ≡ heads (sectors_from (sector_at self.now) lba count)) }
    {
        self.held.read_heads_into(buffer, lba, count)
    }

    /// Writes so many sectors from `lba` on, each byte the same. Where memory is refused, nothing
    /// changes.
    #[tactic(auto, using(crate::proofs::Fills::filled_among))]
    pub fn fill(&mut self, lba: u64, count: u32, byte: u8) -> Result<(), AllocError>
        requires { lba + count ≤ self.old.sectors }
        ensures size { self.new.sectors ≡ self.old.sectors }
        ensures sectors { OnOk result ((sector : ℕ)
            → sector_at self.new sector
            ≡ sector_after lba (replicate (sector_size * count) byte) (sector_at self.old sector)
            sector) }
        ensures bytes { OnOk result ((place : ℕ)
            → byte_at self.new place
            ≡ byte_after (sector_size * lba) (replicate (sector_size * count) byte)
            (byte_at self.old place) place) }
        ensures kept { OnOk result ((sector : ℕ)
            → is_some (kept_at self.new sector)
            ≡ (is_some (kept_at self.old sector)
            || has_byte (sector_size * lba) (sector_size * count) sector)) }
        ensures err { OnErr result (self.new ≡ self.old) }
    {
        self.held.fill(lba, count, byte)?;
        Ok(())
    }

    /// Writes whole sectors from `lba` on. Where memory is refused, nothing changes.
    #[tactic(auto, using(crate::proofs::Whole::write_sectors))]
    pub fn write(&mut self, lba: u64, bytes: &[u8]) -> Result<(), AllocError>
        requires whole { length bytes.now % sector_size ≡ 0 }
        requires inside { sector_size * lba + length bytes.now ≤ sector_size * self.old.sectors }
        ensures size { self.new.sectors ≡ self.old.sectors }
        ensures sectors { OnOk result ((sector : ℕ)
            → sector_at self.new sector
            ≡ sector_after lba bytes.now (sector_at self.old sector) sector) }
        ensures bytes { OnOk result ((place : ℕ)
            → byte_at self.new place
            ≡ byte_after (sector_size * lba) bytes.now (byte_at self.old place) place) }
        ensures kept { OnOk result ((sector : ℕ)
            → is_some (kept_at self.new sector)
            ≡ (is_some (kept_at self.old sector)
            || has_byte (sector_size * lba) (length bytes.now) sector)) }
        ensures err { OnErr result (self.new ≡ self.old) }
    {
        self.held.write(SECTOR * lba, bytes)?;
        Ok(())
    }

    /// Makes zeros of the sectors that are erased; each other keeps its bytes. It needs no memory, and gives back that of
    /// sectors which hold zeros: of all where all are erased, else where they are most of what is kept.
    pub fn erase(&mut self, erased: &Erased)
        ensures size { self.new.sectors ≡ self.old.sectors }
        ensures sectors { (sector : ℕ) → sector_at self.new sector
            ≡ (if is_erased erased.now sector then zeros else sector_at self.old sector) }
    {
        if let Some(erasure) = erased.erasure() {
            self.held.erase(erasure);
        }
    }
}
