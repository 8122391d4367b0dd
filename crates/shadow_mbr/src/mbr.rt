//! The bytes of the MBR table.

use crate::kept::Block;
use crate::sectors::Sectors;
use std::alloc::{AllocError, Global};
use std::marker::Model;

/// The bytes of the MBR table (Opal SSC 2.01, 4.3.5.4), zeros where nothing was written.
#[derive(Drop)]
pub struct Mbr {
    held: Sectors,
}

impl Model for Mbr {
    ghost use Rattle.shadow_mbr.specs.Stored.{StoredSectors, IsSound};

    ghost Value = { StoredSectors };

    ghost view = { λ a. a.held };

    ghost invariant = { λ a. IsSound a.held };
}

impl Mbr {
    ghost use Rattle.std.specs.Prelude.{IfOk, ◌≡◌, ◌+◌, ◌*◌, ◌^◌, ◌≤◌, ◌<◌, ◌↔◌, ℕ, length, IsTrue, is_some, nat_eq, ◌||◌, OnOk, OnErr, [], slice_index};
    ghost use Rattle.std.specs.List.{list_any};
    ghost use Rattle.std.specs.Map.{keys_of};
    ghost use Rattle.shadow_mbr.specs.Stored.{IsSound, sector_size, sector_limit, AreKept, kept_at, has_byte, sector_at, byte_at, byte_after};

    /// A table of so many sectors of 512 zeros.
    #[tactic(auto, using(crate::proofs::Zeros::blank_byte))]
    pub fn new(alloc: Global, sectors: u64) -> Mbr
        requires { sectors ≤ sector_limit }
        ensures exact { result ≡ record { sectors = sectors; kept = [] } }
        ensures zero { (place : ℕ) → byte_at result place ≡ 0 }
    {
        Mbr {
            held: Sectors::new(alloc, sectors),
        }
    }

    /// The same sectors once more, in memory of their own. Where memory is refused there is no copy.
    #[inline(always)]
    pub fn copy(&self) -> Result<Mbr, AllocError>
        ensures { IfOk result (λ c. c ≡ self.now) }
    {
        Ok(Mbr {
            held: self.held.copy()?,
        })
    }

    /// How many sectors the table has.
    pub fn sectors(&self) -> u64
        ensures { result ≡ self.now.sectors }
    {
        self.held.sectors()
    }

    /// What the sector holds.
    pub fn sector(&self, sector: u64) -> &Block
        requires { sector < self.now.sectors }
        ensures value { result.now ≡ sector_at self.now sector }
        ensures len { length result.now ≡ sector_size }
    {
        self.held.sector(sector)
    }

    /// Fills the buffer with the bytes from a place on.
    pub fn read(&self, at: u64, buffer: &mut [u8])
        requires { at + length buffer.old ≤ sector_size * self.now.sectors }
        ensures { (k : ℕ) → k < length buffer.new
            → slice_index buffer.new k ≡ byte_at self.now (at + k) }
    {
        self.held.read(at, buffer);
    }

    /// Writes bytes from a place on. Where memory is refused, nothing changes.
    #[tactic(auto, using(crate::proofs::Touched::touched))]
    pub fn write(&mut self, at: u64, bytes: &[u8]) -> Result<(), AllocError>
        requires { at + length bytes.now ≤ sector_size * self.old.sectors }
        ensures size { self.new.sectors ≡ self.old.sectors }
        ensures bytes { OnOk result ((place : ℕ)
            → byte_at self.new place ≡ byte_after at bytes.now (byte_at self.old place) place) }

        // What was written is covered then, and what was covered stays so.
        ensures covered { OnOk result (AreKept self.new at (length bytes.now)) }
        ensures kept { OnOk result ((s : ℕ) → is_some (kept_at self.new s)
            ≡ (is_some (kept_at self.old s) || has_byte at (length bytes.now) s)) }
        ensures stays { (from len : ℕ) → AreKept self.old from len → AreKept self.new from len }
        ensures err { OnErr result (self.new ≡ self.old) }
    {
        self.held.write(at, bytes)?;
        Ok(())
    }

    /// Whether `overwrite` may write so many bytes from a place on: each sector that has one of
    /// them was written before.
    pub fn covers(&self, at: u64, len: usize) -> bool
        requires { at + len ≤ sector_size * self.now.sectors }
        ensures { IsTrue result ↔ AreKept self.now at len }
    {
        self.held.covers(at, len)
    }

    /// Writes bytes from a place on where the table covers them, without taking memory.
    pub fn overwrite(&mut self, at: u64, bytes: &[u8])
        requires inside { at + length bytes.now ≤ sector_size * self.old.sectors }
        requires covered { AreKept self.old at (length bytes.now) }
        ensures size { self.new.sectors ≡ self.old.sectors }
        ensures bytes { (place : ℕ) → byte_at self.new place
            ≡ byte_after at bytes.now (byte_at self.old place) place }
        ensures stays { (from len : ℕ) → AreKept self.old from len → AreKept self.new from len }
    {
        self.held.overwrite(at, bytes);
    }

    /// The numbers of the sectors that are kept, rising.
    #[tactic(auto, using(crate::proofs::Same::is_kept))]
    pub fn kept(&self, alloc: Global) -> Result<Vec<u64>, AllocError>
        ensures exact { IfOk result (λ v. v.items ≡ keys_of self.now.kept) }
        ensures each { IfOk result (λ v. (sector : ℕ)
            → is_some (kept_at self.now sector) ≡ list_any (nat_eq sector) v.items) }
        ensures sound { IsSound self.now }
    {
        self.held.kept(alloc)
    }

    /// Makes every byte zero, and gives back the memory.
    #[tactic(auto, using(crate::proofs::Zeros::blank_byte))]
    pub fn wipe(&mut self)
        ensures exact { self.new ≡ record self.old { kept = [] } }
        ensures zero { (place : ℕ) → byte_at self.new place ≡ 0 }
    {
        self.held.clear();
    }
}
