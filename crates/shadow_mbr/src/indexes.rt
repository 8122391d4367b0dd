//! Where groups stand, by their numbers.

ghost use Rattle.std.specs.Prelude.{◌≡◌, ◌%◌, None, Some, set, slice_index_or, ℕ};
ghost use Rattle.shadow_mbr.specs.Places.{recent_size};

use std::alloc::{AllocError, Global};
use std::collections::BTreeMap;
use std::marker::Model;

/// How many numbers stand beside the tree.
const RECENT_SIZE: usize = 64;

const RECENT: u64 = RECENT_SIZE as u64;

/// A number, and where its group stands.
type Entry = Option<(u64, u32)>;

/// An ordered map: whoever chooses the numbers cannot make it slow. Of the numbers that came last some stand beside
/// it too, each in the one place that it can have, so that few are searched where few are used. Until a number comes,
/// and where memory is refused, there is no such place.
#[derive(Drop)]
pub(crate) struct Indexes {
    tree: BTreeMap<u64, u32>,
    recent: Vec<Entry>,
}

impl Model for Indexes {
    ghost use Rattle.std.specs.Prelude.{List, ℕ};
    ghost use Rattle.shadow_mbr.specs.Places.{AreIndexed};

    ghost Value = { List (ℕ × ℕ) };

    ghost view = { λ a. a.tree.entries };

    ghost invariant = { λ a. AreIndexed a.tree.entries a.recent.items };
}

/// What stands in the one place that a number can have.
fn entry_of(recent: &[Entry], number: u64) -> Entry
    ensures { result ≡ slice_index_or recent.now (number % recent_size) None }
{
    match recent.get((number % RECENT) as usize) {
        Some(entry) => *entry,
        None => None,
    }
}

/// Makes the places, where there are none yet and memory is not refused.
fn make_places(recent: &mut Vec<Entry>)
    ensures { (i : ℕ) → slice_index_or recent.new.items i None
        ≡ slice_index_or recent.old.items i None }
{
    if recent.is_empty() {
        recent.resize(RECENT_SIZE, None).unwrap_or(());
    }
}

/// Puts a number into the one place that it can have, if there is one.
fn put_entry(recent: &mut Vec<Entry>, number: u64, index: u32)
    ensures { recent.new.items
        ≡ set recent.old.items (number % recent_size) (Some (number, index)) }
{
    let at = (number % RECENT) as usize;
    if at < recent.len() {
        recent[at] = Some((number, index));
    }
}

impl Indexes {
    ghost use Rattle.std.specs.Prelude.{IfOk, ◌≡◌, ℕ, [], None, Some, OnOk, OnErr, cond};
    ghost use Rattle.std.specs.BTreeMap.{is_at};
    ghost use Rattle.std.specs.Map.{keys_of};
    ghost use Rattle.std.specs.List.Sorted.{IsStrictlySortedBy};
    ghost use Rattle.std.specs.Ordering.{nat_cmp};
    ghost use Rattle.shadow_mbr.specs.Places.{place_at};

    pub(crate) fn new(alloc: Global) -> Indexes
        ensures { result ≡ [] }
    {
        Indexes {
            tree: BTreeMap::new(alloc),
            recent: Vec::new(alloc),
        }
    }

    /// The same numbers once more.
    #[inline(always)]
    pub(crate) fn copy(&self) -> Result<Indexes, AllocError>
        ensures { IfOk result (λ c. c ≡ self.now) }
    {
        Ok(Indexes {
            tree: self.tree.clone()?,
            recent: self.recent.clone()?,
        })
    }

    /// Where the group of a number stands.
    #[inline(always)]
    pub(crate) fn get(&self, number: u64) -> Option<u32>
        ensures { result ≡ place_at self.now number }
    {
        if let Some((it, index)) = entry_of(&self.recent, number) {
            if it == number {
                return Some(index);
            }
        }
        self.search(number)
    }

    /// Where the group of a number stands, by the tree.
    #[inline(never)]
    fn search(&self, number: u64) -> Option<u32>
        ensures { result ≡ place_at self.now number }
    {
        match self.tree.get(&number) {
            Some(index) => Some(*index),
            None => None,
        }
    }

    /// The group of another number stands there. Where memory is refused, nothing changes.
    pub(crate) fn insert(&mut self, number: u64, index: u32) -> Result<(), AllocError>
        requires { place_at self.old number ≡ None }
        ensures looks { OnOk result ((n : ℕ) → place_at self.new n
            ≡ cond (is_at (nat_cmp number) n) (Some index) (place_at self.old n)) }
        ensures sorted { OnOk result (IsStrictlySortedBy nat_cmp (keys_of self.new)) }
        ensures err { OnErr result (self.new ≡ self.old) }
    {
        self.tree.insert(number, index)?;
        make_places(&mut self.recent);
        put_entry(&mut self.recent, number, index);
        Ok(())
    }

    /// All of them, in the order of the numbers.
    pub(crate) fn tree(&self) -> &BTreeMap<u64, u32>
        ensures { result.now.entries ≡ self.now }
    {
        &self.tree
    }
}
