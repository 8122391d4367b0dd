//! Groups of the places of neighbouring sectors, by their numbers.

ghost use Rattle.std.specs.Prelude.{◌≡◌, ◌+◌, ◌<◌, ◌≤◌, ◌^◌, ◌++◌, IfOk, OnOk, Some, length, set, vec_len};
ghost use Rattle.std.specs.Map.{keys_of};
ghost use Rattle.shadow_mbr.specs.Places.{group_size, group_at, groups_of, no_places, placed_from, placed_in};
ghost use Rattle.shadow_mbr.specs.Erasure.{is_erased, blocks_erased};

use crate::erasing::erase_group;
use crate::erasure::Erasure;
use crate::indexes::Indexes;
use crate::kept::Block;
use crate::listing::list_group;
use std::alloc::{AllocError, Global};
use std::collections::BTreeMap;
use std::marker::Model;

/// How many neighbouring sectors are one group.
pub(crate) const GROUP_SIZE: usize = 16;

pub(crate) const GROUP: u64 = GROUP_SIZE as u64;

/// Where the blocks of the sectors of a group stand.
pub(crate) type Group = [Option<u32>; GROUP_SIZE];

/// Groups, one behind another, and where each stands: an ordered map of small values takes a new
/// one in little time, and whoever chooses the numbers cannot make it slow.
#[derive(Drop)]
pub(crate) struct Groups {
    indexes: Indexes,
    groups: Vec<Group>,
}

impl Model for Groups {
    ghost use Rattle.std.specs.Prelude.{List, Option, ℕ};
    ghost use Rattle.shadow_mbr.specs.Places.{groups_of, AreGrouped};

    ghost Value = { List (ℕ × List (Option ℕ)) };

    ghost view = { λ a. groups_of a.indexes a.groups.items };

    ghost invariant = { λ a. AreGrouped a.indexes a.groups.items };
}

/// Puts a place, or none, into a group.
fn put_place(group: &mut Group, index: usize, place: Option<u32>)
    requires { index < GROUP_SIZE }
    ensures put { group.new ≡ set group.old index place }
    ensures long { length group.old ≡ group_size }
{
    group[index] = place;
}

/// Puts a place, or none, into one of the groups.
fn put_at(groups: &mut Vec<Group>, at: usize, index: usize, place: Option<u32>)
    requires there { at < vec_len groups.old }
    requires index { index < GROUP_SIZE }
    ensures put { groups.new.items
        ≡ set groups.old.items at (set (group_at groups.old.items at) index place) }
    ensures long { length (group_at groups.old.items at) ≡ group_size }
{
    put_place(&mut groups[at], index, place);
}

/// One of the groups.
fn group_of(groups: &[Group], at: usize) -> &Group
    requires { at < length groups.now }
    ensures { result.now ≡ group_at groups.now at }
{
    &groups[at]
}

/// A group in which one sector has a place.
#[tactic(auto, unfolding(crate::specs::Places::no_places))]
fn group_with(index: usize, place: u32) -> Group
    requires { index < GROUP_SIZE }
    ensures { result ≡ set no_places index (Some place) }
{
    let mut group = [None; GROUP_SIZE];
    group[index] = Some(place);
    group
}

/// An index in four bytes. One that is too great is refused as memory is.
pub(crate) fn index_of(len: usize) -> Result<u32, AllocError>
    ensures { IfOk result (λ index. index ≡ len) }
{
    if len <= u32::MAX as usize {
        Ok(len as u32)
    } else {
        Err(AllocError)
    }
}

/// Makes zeros of the blocks of the sectors that are erased, of the group at an index.
fn erase_at(erasure: &Erasure, first: u128, groups: &[Group], at: usize, blocks: &mut Vec<Block>)
    requires { first + group_size < 2 ^ 128 }
    ensures erased { blocks.new.items ≡ blocks_erased (is_erased erasure.now)
        (placed_from first (group_at groups.now at)) blocks.old.items }
    ensures long { length (group_at groups.now at) ≤ group_size }
{
    if at < groups.len() {
        erase_group(erasure, first, &groups[at], blocks);
    }
}

/// Makes zeros of the blocks of the sectors that are erased, of all groups.
fn erase_groups(
    erasure: &Erasure,
    indexes: &BTreeMap<u64, u32>,
    groups: &[Group],
    blocks: &mut Vec<Block>,
)
    ensures { blocks.new.items ≡ blocks_erased (is_erased erasure.now)
        (placed_in (groups_of indexes.now.entries groups.now)) blocks.old.items }
{
    for (number, at) in indexes {
        let first = u128::from(*number) * u128::from(GROUP);
        erase_at(erasure, first, groups, *at as usize, blocks);
    }
}

/// Appends the sectors of the group at an index that have a place.
fn list_at(
    sectors: &mut Vec<u64>,
    first: u128,
    groups: &[Group],
    at: usize,
) -> Result<(), AllocError>
    requires { first + group_size < 2 ^ 128 }
    ensures listed { OnOk result (sectors.new.items
        ≡ sectors.old.items ++ keys_of (placed_from first (group_at groups.now at))) }
    ensures long { length (group_at groups.now at) ≤ group_size }
{
    if at < groups.len() {
        list_group(sectors, first, &groups[at])?;
    }
    Ok(())
}

/// The sectors of all groups that have a place.
fn list_groups(
    alloc: Global,
    indexes: &BTreeMap<u64, u32>,
    groups: &[Group],
) -> Result<Vec<u64>, AllocError>
    ensures { IfOk result (λ v. v.items
        ≡ keys_of (placed_in (groups_of indexes.now.entries groups.now))) }
{
    let mut sectors = Vec::new(alloc);
    for (number, at) in indexes {
        let first = u128::from(*number) * u128::from(GROUP);
        list_at(&mut sectors, first, groups, *at as usize)?;
    }
    Ok(sectors)
}

impl Groups {
    ghost use Rattle.std.specs.Prelude.{IfOk, ◌≡◌, ◌<◌, ℕ, [], None, Some, IfSome, OnOk, OnErr, length, option_map, set, unwrap_or};
    ghost use Rattle.std.specs.Option.{option_copied};
    ghost use Rattle.std.specs.Ordering.{nat_cmp};
    ghost use Rattle.std.specs.Map.{keys_of};
    ghost use Rattle.std.specs.List.Sorted.{IsStrictlySortedBy};
    ghost use Rattle.shadow_mbr.specs.Places.{group_size, placed_in, group_in, no_places, group_after};
    ghost use Rattle.shadow_mbr.specs.Erasure.{is_erased, blocks_erased};

    pub(crate) fn new(alloc: Global) -> Groups
        ensures { result ≡ [] }
    {
        Groups {
            indexes: Indexes::new(alloc),
            groups: Vec::new(alloc),
        }
    }

    /// The same groups once more.
    #[inline(always)]
    pub(crate) fn copy(&self) -> Result<Groups, AllocError>
        ensures { IfOk result (λ c. c ≡ self.now) }
    {
        Ok(Groups {
            indexes: self.indexes.copy()?,
            groups: self.groups.clone()?,
        })
    }

    /// The group of a number.
    #[inline(never)]
    #[tactic(auto, using(crate::proofs::Grouped::sorted_groups))]
    pub(crate) fn get(&self, number: u64) -> Option<&Group>
        ensures value { option_copied result ≡ group_in self.now number }
        ensures sorted { IsStrictlySortedBy nat_cmp (keys_of self.now) }
    {
        match self.indexes.get(number) {
            Some(at) => Some(group_of(&self.groups, at as usize)),
            None => None,
        }
    }

    /// A sector of a group stands at a place from now on. Where memory is refused, nothing changes.
    #[tactic(auto, using(crate::proofs::Grouped::sorted_groups))]
    pub(crate) fn set(&mut self, number: u64, index: usize, place: u32) -> Result<(), AllocError>
        requires { index < GROUP_SIZE }
        ensures set { OnOk result ((n : ℕ) → group_in self.new n ≡ group_after number
            (Some (set (unwrap_or (group_in self.old number) no_places) index (Some place)))
            (group_in self.old n) n) }
        ensures long { OnOk result
            (length (unwrap_or (group_in self.old number) no_places) ≡ group_size) }
        ensures err { OnErr result (self.new ≡ self.old) }
        ensures sorted { IsStrictlySortedBy nat_cmp (keys_of self.new) }
    {
        if let Some(at) = self.indexes.get(number) {
            put_at(&mut self.groups, at as usize, index, Some(place));
            return Ok(());
        }
        let at = index_of(self.groups.len())?;
        self.groups.reserve(1)?;
        self.indexes.insert(number, at)?;
        self.groups.push_reserved(group_with(index, place));
        Ok(())
    }

    /// A sector of a group stands nowhere from now on.
    #[tactic(auto, using(crate::proofs::Grouped::sorted_groups))]
    pub(crate) fn remove(&mut self, number: u64, index: usize)
        requires { index < GROUP_SIZE }
        ensures removed { (n : ℕ) → group_in self.new n ≡ group_after number
            (option_map (λ group. set group index None) (group_in self.old number))
            (group_in self.old n) n }
        ensures long { IfSome (group_in self.old number) (λ group. length group ≡ group_size) }
        ensures sorted { IsStrictlySortedBy nat_cmp (keys_of self.new) }
    {
        if let Some(at) = self.indexes.get(number) {
            put_at(&mut self.groups, at as usize, index, None);
        }
    }

    /// The sectors that have a place, rising.
    pub(crate) fn sectors(&self, alloc: Global) -> Result<Vec<u64>, AllocError>
        ensures { IfOk result (λ v. v.items ≡ keys_of (placed_in self.now)) }
    {
        list_groups(alloc, self.indexes.tree(), &self.groups)
    }

    /// Makes zeros of the blocks of the sectors that are erased.
    pub(crate) fn erase(&self, erasure: &Erasure, blocks: &mut Vec<Block>)
        ensures { blocks.new.items
            ≡ blocks_erased (is_erased erasure.now) (placed_in self.now) blocks.old.items }
    {
        erase_groups(erasure, self.indexes.tree(), &self.groups, blocks);
    }
}
