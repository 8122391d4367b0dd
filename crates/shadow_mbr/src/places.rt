//! Where the blocks of sectors stand, by groups of neighbouring sectors, so that a search goes over
//! few keys.

ghost use Rattle.std.specs.Prelude.{◌≡◌, ◌%◌, None, slice_index_or};
ghost use Rattle.shadow_mbr.specs.Places.{group_size};

use crate::erasure::Erasure;
use crate::group_map::{GROUP, Group, Groups, index_of};
use crate::kept::Block;
use std::alloc::{AllocError, Global};
use std::marker::Model;

/// Where the block of each sector stands that has one.
#[derive(Drop)]
pub(crate) struct Places {
    groups: Groups,
}

impl Model for Places {
    ghost use Rattle.std.specs.Prelude.{List, ℕ};
    ghost use Rattle.std.specs.Ordering.{nat_cmp};
    ghost use Rattle.std.specs.Map.{keys_of};
    ghost use Rattle.std.specs.List.Sorted.{IsStrictlySortedBy};
    ghost use Rattle.shadow_mbr.specs.Places.{placed_in};

    ghost Value = { List (ℕ × ℕ) };

    ghost view = { λ a. placed_in a.groups };

    ghost invariant = { λ a. IsStrictlySortedBy nat_cmp (keys_of a.groups) };
}

/// A search that remembers the group that it found last.
#[derive(Drop)]
pub(crate) struct Finder<'a> {
    groups: &'a Groups,
    number: u64,
    found: Option<&'a Group>,
}

impl<'a> Model for Finder<'a> {
    ghost use Rattle.std.specs.Prelude.{◌≡◌, List, ℕ};
    ghost use Rattle.std.specs.Option.{option_copied};
    ghost use Rattle.std.specs.Ordering.{nat_cmp};
    ghost use Rattle.std.specs.Map.{keys_of};
    ghost use Rattle.std.specs.List.Sorted.{IsStrictlySortedBy};
    ghost use Rattle.shadow_mbr.specs.Places.{placed_in, group_in};

    ghost Value = { List (ℕ × ℕ) };

    ghost view = { λ a. placed_in a.groups.now };

    ghost invariant = { λ a. IsStrictlySortedBy nat_cmp (keys_of a.groups.now)
        × (option_copied a.found ≡ group_in a.groups.now a.number) };
}

/// Where a sector stands by its group.
fn place_in(group: &Group, sector: u64) -> Option<usize>
    ensures { result ≡ slice_index_or group.now (sector % group_size) None }
{
    match group[(sector % GROUP) as usize] {
        Some(place) => Some(place as usize),
        None => None,
    }
}

impl<'a> Finder<'a> {
    ghost use Rattle.std.specs.Prelude.{◌≡◌, ◌≤◌, ◌<◌, ◌↔◌, ℕ, IsTrue, is_some, true};
    ghost use Rattle.shadow_mbr.specs.Places.{place_at};

    /// Where the sector stands. The search is left to a call, so that the rest fits into a loop.
    #[inline(always)]
    pub(crate) fn at(&mut self, sector: u64) -> Option<usize>
        ensures value { result ≡ place_at self.old sector }
        ensures same { self.new ≡ self.old }
    {
        let number = sector / GROUP;
        if number != self.number {
            self.number = number;
            self.found = self.groups.get(number);
        }
        match self.found {
            Some(group) => place_in(group, sector),
            None => None,
        }
    }

    /// Whether each sector of a run stands somewhere.
    pub(crate) fn has_all(&mut self, first: u64, end: u64) -> bool
        requires { first ≤ end }
        ensures value { IsTrue result
            ↔ ((s : ℕ) → first ≤ s → s < end → is_some (place_at self.old s) ≡ true) }
        ensures same { self.new ≡ self.old }
    {
        for sector in first..end {
            if self.at(sector).is_none() {
                return false;
            }
        }
        true
    }
}

impl Places {
    ghost use Rattle.std.specs.Prelude.{IfOk, ◌≡◌, ◌==◌, ℕ, [], None, Some, OnOk, OnErr, if◌then◌else◌};
    ghost use Rattle.std.specs.Ordering.{nat_cmp};
    ghost use Rattle.std.specs.Map.{keys_of};
    ghost use Rattle.std.specs.List.Sorted.{IsStrictlySortedBy};
    ghost use Rattle.shadow_mbr.specs.Places.{place_at};
    ghost use Rattle.shadow_mbr.specs.Erasure.{is_erased, blocks_erased};

    pub(crate) fn new(alloc: Global) -> Places
        ensures { result ≡ [] }
    {
        Places {
            groups: Groups::new(alloc),
        }
    }

    /// The same places once more.
    #[inline(always)]
    pub(crate) fn copy(&self) -> Result<Places, AllocError>
        ensures { IfOk result (λ c. c ≡ self.now) }
    {
        Ok(Places {
            groups: self.groups.copy()?,
        })
    }

    /// Where the sector stands.
    #[tactic(auto, using(crate::proofs::Groups::sorted_in))]
    pub(crate) fn get(&self, sector: u64) -> Option<usize>
        ensures value { result ≡ place_at self.now sector }
        ensures sorted { IsStrictlySortedBy nat_cmp (keys_of self.now) }
    {
        match self.groups.get(sector / GROUP) {
            Some(group) => place_in(group, sector),
            None => None,
        }
    }

    /// A search that begins at a sector.
    pub(crate) fn finder(&self, sector: u64) -> Finder<'_>
        ensures { result ≡ self.now }
    {
        let number = sector / GROUP;
        Finder {
            groups: &self.groups,
            number,
            found: self.groups.get(number),
        }
    }

    /// The sector stands there from now on.
    #[tactic(auto, using(crate::proofs::Groups::sorted_in))]
    pub(crate) fn set(&mut self, sector: u64, place: usize) -> Result<(), AllocError>
        ensures set { OnOk result ((s : ℕ) → place_at self.new s
            ≡ (if s == sector then Some place else place_at self.old s)) }
        ensures err { OnErr result (self.new ≡ self.old) }
        ensures sorted { IsStrictlySortedBy nat_cmp (keys_of self.new) }
    {
        // The groups are sorted: the field says so once it is used.
        let _ = &self.groups;
        let place = index_of(place)?;
        self.groups
            .set(sector / GROUP, (sector % GROUP) as usize, place)?;
        Ok(())
    }

    /// The sector stands nowhere from now on.
    #[tactic(auto, using(crate::proofs::Groups::sorted_in))]
    pub(crate) fn remove(&mut self, sector: u64)
        ensures removed { (s : ℕ) → place_at self.new s
            ≡ (if s == sector then None else place_at self.old s) }
        ensures sorted { IsStrictlySortedBy nat_cmp (keys_of self.new) }
    {
        self.groups
            .remove(sector / GROUP, (sector % GROUP) as usize);
    }

    /// The sectors that stand somewhere, rising.
    pub(crate) fn sectors(&self, alloc: Global) -> Result<Vec<u64>, AllocError>
        ensures { IfOk result (λ v. v.items ≡ keys_of self.now) }
    {
        self.groups.sectors(alloc)
    }

    /// Makes zeros of the blocks of the sectors that are erased.
    pub(crate) fn erase(&self, erasure: &Erasure, blocks: &mut Vec<Block>)
        ensures { blocks.new.items
            ≡ blocks_erased (is_erased erasure.now) self.now blocks.old.items }
    {
        self.groups.erase(erasure, blocks);
    }
}
