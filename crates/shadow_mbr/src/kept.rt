//! The sectors that are kept, by the places of their blocks.

ghost use Rattle.std.specs.Prelude.{IfSome, is_some, option_map, unwrap_or, ◌≡◌, ◌+◌, ◌<◌, ◌≤◌, ◌++◌, ◌^◌, ◌==◌, ℕ, None, OnOk, OnErr, true, if◌then◌else◌, length, nat_eq, replicate, set, take, drop, vec_len};
ghost use Rattle.std.specs.List.{list_any};
ghost use Rattle.std.specs.List.Sorted.{IsStrictlySortedBy};
ghost use Rattle.std.specs.Map.{keys_of};
ghost use Rattle.std.specs.Ordering.{nat_cmp};
ghost use Rattle.shadow_mbr.specs.Stored.{sector_size, head_size, zeros, HaveBlocks, kept_byte, byte_after, kept_sector, sector_filled};
ghost use Rattle.shadow_mbr.specs.Places.{place_at, block_at, blocks_of, blocks_after, AreOwn, AddsPlaces};

use crate::erasure::Erasure;
use crate::piece::{SECTOR, piece_len, sectors_of};
use crate::places::{Finder, Places};
use crate::shrinking::is_zeros;
use std::alloc::{AllocError, Global};
use std::marker::Model;

/// How many bytes a sector has (ACS-3, IDENTIFY DEVICE word 106).
pub const SECTOR_SIZE: usize = 512;

/// What a sector holds.
pub type Block = [u8; SECTOR_SIZE];

/// How many bytes of a sector are its head.
pub const HEAD_SIZE: usize = 4;

static ZEROS: Block = [0; SECTOR_SIZE];

/// The blocks of the sectors that are kept, and where each stands.
#[derive(Drop)]
pub(crate) struct Kept {
    places: Places,
    blocks: Vec<Block>,
}

impl Model for Kept {
    ghost use Rattle.std.specs.Prelude.{List, ℕ};
    ghost use Rattle.shadow_mbr.specs.Places.{blocks_of, AreOwn};

    ghost Value = { List (ℕ × List ℕ) };

    ghost view = { λ a. blocks_of a.places a.blocks.items };

    ghost invariant = { λ a. AreOwn a.places a.blocks.items };
}

/// A sector of zeros.
#[tactic(auto, unfolding(crate::specs::Stored::zeros))]
pub(crate) fn zeros() -> &'static Block
    ensures { result.now ≡ zeros }
{
    &ZEROS
}

/// The block at a place, zeros for none.
fn block_or_zeros(blocks: &[Block], place: Option<usize>) -> &Block
    requires { IfSome place (λ p. p < length blocks.now) }
    ensures { result.now ≡ unwrap_or (option_map (block_at blocks.now) place) zeros }
{
    match place {
        Some(place) => &blocks[place],
        None => zeros(),
    }
}

/// Appends the block at a place, zeros for none.
#[tactic(auto, unfolding(crate::specs::Stored::zeros))]
fn append_block(
    bytes: &mut Vec<u8>,
    blocks: &[Block],
    place: Option<usize>,
) -> Result<(), AllocError>
    requires { IfSome place (λ p. p < length blocks.now) }
    ensures { OnOk result (bytes.new.items
        ≡ bytes.old.items ++ unwrap_or (option_map (block_at blocks.now) place) zeros) }
{
    match place {
        Some(place) => bytes.extend_from_slice(&blocks[place])?,
        None => bytes.resize(bytes.len() + SECTOR_SIZE, 0)?,
    }
    Ok(())
}

/// Writes some bytes of one block.
fn write_block(blocks: &mut Vec<Block>, place: usize, from: usize, bytes: &[u8])
    requires there { place < vec_len blocks.old }
    requires fits { from + length bytes.now ≤ sector_size }
    ensures { blocks.new.items ≡ blocks_after blocks.old.items place from bytes.now }
{
    blocks[place][from..from + bytes.len()].copy_from_slice(bytes);
}

/// Writes some bytes of the block at a place, if there is one.
fn write_piece(blocks: &mut Vec<Block>, place: Option<usize>, from: usize, bytes: &[u8])
    requires there { IfSome place (λ p. p < vec_len blocks.old) }
    requires fits { from + length bytes.now ≤ sector_size }
    ensures { IfSome place
        (λ p. blocks.new.items ≡ blocks_after blocks.old.items p from bytes.now) }
{
    if let Some(place) = place {
        write_block(blocks, place, from, bytes);
    }
}

/// Writes bytes from a place on into the blocks of their sectors, which each have one.
fn write_blocks(finder: &mut Finder<'_>, blocks: &mut Vec<Block>, at: u64, bytes: &[u8])
    requires inside { at + length bytes.now < 2 ^ 64 }
    requires own { AreOwn finder.old blocks.old.items }
    requires kept { HaveBlocks (blocks_of finder.old blocks.old.items) at (length bytes.now) }
    ensures own { AreOwn finder.old blocks.new.items }
    ensures bytes { (p : ℕ) → kept_byte (blocks_of finder.old blocks.new.items) p
        ≡ byte_after at bytes.now (kept_byte (blocks_of finder.old blocks.old.items) p) p }
{
    let mut done = 0;
    while done < bytes.len() {
        let place = at + done as u64;
        let len = piece_len(place, bytes.len() - done);
        let block = finder.at(place / SECTOR);
        write_piece(
            blocks,
            block,
            (place % SECTOR) as usize,
            &bytes[done..done + len],
        );
        done += len;
    }
}

/// Appends the first bytes of the block at a place, zeros for none.
fn append_head(
    bytes: &mut Vec<u8>,
    blocks: &[Block],
    place: Option<usize>,
) -> Result<(), AllocError>
    requires { IfSome place (λ p. p < length blocks.now) }
    ensures { OnOk result (bytes.new.items ≡ bytes.old.items
        ++ take head_size (unwrap_or (option_map (block_at blocks.now) place) zeros)) }
{
    let block = block_or_zeros(blocks, place);
    bytes.extend_from_slice(&block[..HEAD_SIZE])?;
    Ok(())
}

/// Fills the block at a place with a byte, if there is one.
fn fill_block(blocks: &mut Vec<Block>, place: Option<usize>, byte: u8)
    requires { IfSome place (λ p. p < vec_len blocks.old) }
    ensures { IfSome place
        (λ p. blocks.new.items ≡ set blocks.old.items p (replicate sector_size byte)) }
{
    if let Some(place) = place {
        blocks[place] = [byte; SECTOR_SIZE];
    }
}

/// Fills the blocks of sectors, which each have one, with a byte.
fn fill_blocks(finder: &mut Finder<'_>, blocks: &mut Vec<Block>, first: u64, end: u64, byte: u8)
    requires from { first ≤ end }
    requires own { AreOwn finder.old blocks.old.items }
    requires placed { (s : ℕ) → first ≤ s → s < end → is_some (place_at finder.old s) ≡ true }
    ensures own { AreOwn finder.old blocks.new.items }
    ensures sectors { (s : ℕ) → kept_sector (blocks_of finder.old blocks.new.items) s
        ≡ sector_filled first end byte (kept_sector (blocks_of finder.old blocks.old.items) s) s }
{
    for sector in first..end {
        let place = finder.at(sector);
        fill_block(blocks, place, byte);
    }
}

/// Another block stands at a place, if there is one.
fn put_block(blocks: &mut Vec<Block>, place: Option<usize>, block: &Block)
    requires { IfSome place (λ p. p < vec_len blocks.old) }
    ensures { IfSome place (λ p. blocks.new.items ≡ set blocks.old.items p block.now) }
{
    if let Some(place) = place {
        blocks[place] = *block;
    }
}

/// Takes the places of sectors away.
fn remove_all(places: &mut Places, sectors: &[u64])
    ensures removed { (s : ℕ) → place_at places.new s
        ≡ (if list_any (nat_eq s) sectors.now then None else place_at places.old s) }
    ensures sorted { IsStrictlySortedBy nat_cmp (keys_of places.old)
        → IsStrictlySortedBy nat_cmp (keys_of places.new) }
{
    for sector in sectors {
        places.remove(*sector);
    }
}

/// Gives sectors that have no place the places from one on. Where memory is refused, nothing
/// changes.
fn place_all(places: &mut Places, sectors: &[u64], from: usize) -> Result<(), AllocError>
    requires sorted { IsStrictlySortedBy nat_cmp (keys_of places.old) }
    requires fresh { (s : ℕ) → list_any (nat_eq s) sectors.now ≡ true
        → place_at places.old s ≡ None }
    requires fits { from + length sectors.now < 2 ^ 64 }
    ensures adds { OnOk result (AddsPlaces places.old places.new sectors.now from) }
    ensures sorted { IsStrictlySortedBy nat_cmp (keys_of places.new) }
    ensures err { OnErr result (places.new ≡ places.old) }
{
    for (i, sector) in sectors.iter().enumerate() {
        if let Err(refused) = places.set(*sector, from + i) {
            remove_all(places, &sectors[..i]);
            return Err(refused);
        }
    }
    Ok(())
}

impl Kept {
    ghost use Rattle.std.specs.Prelude.{IfOk, take, ◌≡◌, ◌==◌, ◌-◌, ◌&&◌, nat_le, nat_lt, not, ◌+◌, ◌<◌, ◌≤◌, ◌++◌, ℕ, [], None, Some, OnOk, OnErr, IsTrue, ◌↔◌, ◌^◌, true, false, length, nat_eq, is_some, unwrap_or, if◌then◌else◌};
    ghost use Rattle.std.specs.List.{list_any};
    ghost use Rattle.std.specs.List.Sorted.{IsStrictlySortedBy};
    ghost use Rattle.std.specs.Map.{keys_of};
    ghost use Rattle.std.specs.Ordering.{nat_cmp};
    ghost use Rattle.shadow_mbr.specs.Stored.{sector_size, head_size, zeros, block_in, kept_sector, sector_filled, HaveBlocks, kept_byte, byte_after, sectors_from};
    ghost use Rattle.shadow_mbr.specs.Erasure.{is_erased};

    pub(crate) fn new(alloc: Global) -> Kept
        ensures { result ≡ [] }
    {
        Kept {
            places: Places::new(alloc),
            blocks: Vec::new(alloc),
        }
    }

    /// The same sectors once more, in memory of their own.
    #[inline(always)]
    pub(crate) fn copy(&self, alloc: Global) -> Result<Kept, AllocError>
        ensures { IfOk result (λ c. c ≡ self.now) }
    {
        let mut blocks = Vec::with_capacity(alloc, self.blocks.len())?;
        blocks.extend_from_slice(&self.blocks)?;
        Ok(Kept {
            places: self.places.copy()?,
            blocks,
        })
    }

    /// Whether the sector is kept.
    pub(crate) fn has(&self, sector: u64) -> bool
        ensures value { result ≡ is_some (block_in self.now sector) }
        ensures sorted { IsStrictlySortedBy nat_cmp (keys_of self.now) }
    {
        self.places.get(sector).is_some()
    }

    /// The sectors that are kept, rising.
    pub(crate) fn sectors(&self, alloc: Global) -> Result<Vec<u64>, AllocError>
        ensures { IfOk result (λ v. v.items ≡ keys_of self.now) }
    {
        self.places.sectors(alloc)
    }

    /// What the sector holds, zeros where it is not kept.
    pub(crate) fn sector(&self, sector: u64) -> &Block
        ensures value { result.now ≡ unwrap_or (block_in self.now sector) zeros }
        ensures whole { length result.now ≡ sector_size }
    {
        block_or_zeros(&self.blocks, self.places.get(sector))
    }

    /// Appends what sectors hold, from one to before another, zeros where one is not kept.
    #[tactic(auto, using(crate::proofs::Walks::no_sector))]
    pub(crate) fn append_run(
        &self,
        bytes: &mut Vec<u8>,
        first: u64,
        end: u64,
    ) -> Result<(), AllocError>
        requires { first ≤ end }
        ensures { OnOk result (bytes.new.items
            ≡ bytes.old.items ++ sectors_from (λ s. unwrap_or (block_in self.now s) zeros) first
            (end - first)) }
    {
        let blocks = &self.blocks;
        let mut finder = self.places.finder(first);
        for sector in first..end {
            append_block(bytes, blocks, finder.at(sector))?;
        }
        Ok(())
    }

    /// Appends the first bytes of each sector, from one to before another, zeros where one is not
    /// kept.
    #[tactic(auto, using(crate::proofs::Walks::no_sector))]
    pub(crate) fn append_heads(
        &self,
        bytes: &mut Vec<u8>,
        first: u64,
        end: u64,
    ) -> Result<(), AllocError>
        requires { first ≤ end }
        ensures { OnOk result (bytes.new.items
            ≡ bytes.old.items ++ sectors_from (λ s. take head_size (kept_sector self.now s)) first
            (end - first)) }
    {
        let blocks = &self.blocks;
        let mut finder = self.places.finder(first);
        for sector in first..end {
            append_head(bytes, blocks, finder.at(sector))?;
        }
        Ok(())
    }

    /// Lists the sectors of a run that are not kept.
    pub(crate) fn list_missing(
        &self,
        missing: &mut Vec<u64>,
        first: u64,
        end: u64,
    ) -> Result<(), AllocError>
        requires from { first ≤ end }
        requires none { missing.old.items ≡ [] }
        ensures { OnOk result ((s : ℕ) → list_any (nat_eq s) missing.new.items
            ≡ (nat_le first s && nat_lt s end && not (is_some (block_in self.now s)))) }
    {
        // Each place has a block: the fields say so once they are used.
        let _ = &self.blocks;
        let mut finder = self.places.finder(first);
        for sector in first..end {
            if finder.at(sector).is_none() {
                missing.push(sector)?;
            }
        }
        Ok(())
    }

    /// Writes bytes from a place on, into sectors that are kept.
    #[tactic(auto, using(crate::proofs::Blocks::sorted_blocks))]
    pub(crate) fn overwrite(&mut self, at: u64, bytes: &[u8])
        requires inside { at + length bytes.now < 2 ^ 64 }
        requires kept { HaveBlocks self.old at (length bytes.now) }
        ensures kept { (s : ℕ) → is_some (block_in self.new s) ≡ is_some (block_in self.old s) }
        ensures bytes { (p : ℕ) → kept_byte self.new p
            ≡ byte_after at bytes.now (kept_byte self.old p) p }
        ensures whole { (s : ℕ) → length (unwrap_or (block_in self.new s) zeros) ≡ sector_size }
        ensures sorted { IsStrictlySortedBy nat_cmp (keys_of self.new) }
    {
        let mut finder = self.places.finder(at / SECTOR);
        write_blocks(&mut finder, &mut self.blocks, at, bytes);
    }

    /// Writes bytes from a place on if each of their sectors is kept, and else changes nothing.
    #[tactic(auto, using(crate::proofs::Blocks::sorted_blocks))]
    pub(crate) fn overwrites(&mut self, at: u64, bytes: &[u8]) -> bool
        requires { at + length bytes.now < 2 ^ 64 }
        ensures covered { IsTrue result ↔ HaveBlocks self.old at (length bytes.now) }
        ensures kept { (s : ℕ) → is_some (block_in self.new s) ≡ is_some (block_in self.old s) }
        ensures bytes { result ≡ true → (p : ℕ)
            → kept_byte self.new p ≡ byte_after at bytes.now (kept_byte self.old p) p }
        ensures misses { result ≡ false → self.new ≡ self.old }
        ensures whole { (s : ℕ) → length (unwrap_or (block_in self.new s) zeros) ≡ sector_size }
        ensures sorted { IsStrictlySortedBy nat_cmp (keys_of self.new) }
    {
        let (first, end) = sectors_of(at, bytes.len());
        let mut finder = self.places.finder(first);
        let all = finder.has_all(first, end);
        if all {
            write_blocks(&mut finder, &mut self.blocks, at, bytes);
        }
        all
    }

    /// Fills the sectors of a run with a byte if each is kept, and else changes nothing.
    #[tactic(auto, using(crate::proofs::Blocks::sorted_blocks))]
    pub(crate) fn fills(&mut self, first: u64, end: u64, byte: u8) -> bool
        requires { first ≤ end }
        ensures all { result ≡ true
            → (s : ℕ) → first ≤ s → s < end → is_some (block_in self.old s) ≡ true }
        ensures kept { (s : ℕ) → is_some (block_in self.new s) ≡ is_some (block_in self.old s) }
        ensures sectors { result ≡ true → (s : ℕ) → kept_sector self.new s
            ≡ sector_filled first end byte (kept_sector self.old s) s }
        ensures misses { result ≡ false → self.new ≡ self.old }
        ensures whole { (s : ℕ) → length (kept_sector self.new s) ≡ sector_size }
        ensures sorted { IsStrictlySortedBy nat_cmp (keys_of self.new) }
    {
        let mut finder = self.places.finder(first);
        let all = finder.has_all(first, end);
        if all {
            fill_blocks(&mut finder, &mut self.blocks, first, end, byte);
        }
        all
    }

    /// Fills the sectors of a run, which are kept, with a byte.
    #[tactic(auto, using(crate::proofs::Blocks::sorted_blocks))]
    pub(crate) fn fill(&mut self, first: u64, end: u64, byte: u8)
        requires from { first ≤ end }
        requires all { (s : ℕ) → first ≤ s → s < end → is_some (block_in self.old s) ≡ true }
        ensures kept { (s : ℕ) → is_some (block_in self.new s) ≡ is_some (block_in self.old s) }
        ensures sectors { (s : ℕ) → kept_sector self.new s
            ≡ sector_filled first end byte (kept_sector self.old s) s }
        ensures whole { (s : ℕ) → length (kept_sector self.new s) ≡ sector_size }
        ensures sorted { IsStrictlySortedBy nat_cmp (keys_of self.new) }
    {
        let mut finder = self.places.finder(first);
        fill_blocks(&mut finder, &mut self.blocks, first, end, byte);
    }

    /// Keeps the listed sectors too, as zeros. Where memory is refused, nothing changes.
    #[tactic(auto, using(crate::proofs::Blocks::sorted_blocks))]
    pub(crate) fn add_all(&mut self, sectors: &[u64]) -> Result<(), AllocError>
        requires { (s : ℕ) → list_any (nat_eq s) sectors.now ≡ true → block_in self.old s ≡ None }
        ensures kept { OnOk result ((s : ℕ) → block_in self.new s
            ≡ (if list_any (nat_eq s) sectors.now then Some zeros else block_in self.old s)) }
        ensures sorted { IsStrictlySortedBy nat_cmp (keys_of self.new) }
        ensures err { OnErr result (self.new ≡ self.old) }
    {
        let count = self.blocks.len();
        self.blocks.resize(count + sectors.len(), *zeros())?;
        if let Err(refused) = place_all(&mut self.places, sectors, count) {
            self.blocks.truncate(count);
            return Err(refused);
        }
        Ok(())
    }

    /// Makes zeros of the sectors that are erased, and keeps them.
    #[tactic(auto, using(crate::proofs::Blocks::sorted_blocks))]
    pub(crate) fn erase(&mut self, erasure: &Erasure)
        ensures sectors { (s : ℕ) → unwrap_or (block_in self.new s) zeros
            ≡ (if is_erased erasure.now s then zeros else unwrap_or (block_in self.old s) zeros) }
        ensures whole { (s : ℕ) → length (unwrap_or (block_in self.new s) zeros) ≡ sector_size }
        ensures sorted { IsStrictlySortedBy nat_cmp (keys_of self.new) }
    {
        self.places.erase(erasure, &mut self.blocks);
    }

    /// The sectors ascend: the type promises it, and says so where a field is used.
    #[tactic(auto, using(crate::proofs::Blocks::sorted_blocks))]
    pub(crate) fn is_sorted(&self)
        ensures { IsStrictlySortedBy nat_cmp (keys_of self.now) }
    {
        let _ = &self.blocks;
    }

    /// Gives a sector that is kept other bytes.
    pub(crate) fn put(&mut self, sector: u64, block: &Block)
        requires { is_some (block_in self.old sector) ≡ true }
        ensures { (s : ℕ) → block_in self.new s
            ≡ (if s == sector then Some block.now else block_in self.old s) }
    {
        let place = self.places.get(sector);
        put_block(&mut self.blocks, place, block);
    }

    /// Whether more than half of the blocks are zeros. Nothing is said of it: it is asked for the sake of memory alone.
    pub(crate) fn is_mostly_zeros(&self) -> bool {
        let zeros = self.blocks.iter().filter(|block| is_zeros(block)).count();
        zeros > self.blocks.len() / 2
    }
}
