//! The lists of one length that a part of a search meets.

ghost use Rattle.std.specs.Prelude.{◌≡◌, ◌∷◌, [], ◌-◌, ◌==◌, false, true, ◌||◌, take, drop, length, IfOk, OnOk};
ghost use Rattle.std.specs.Prelude.{if◌then◌else◌};
ghost use Rattle.runs.specs.Shares.{IsShare, own_lists, divided, told_in};

use crate::explored::lines::Lines;
use crate::explored::share::{Share, edge};
use basics::Bytes;
use std::alloc::{AllocError, Global};

/// Lists are divided at the first length that has so many for each part.
const LISTS_FOR_EACH: usize = 16;

/// The lists of one length that a part of a search meets.
#[derive(Drop)]
pub struct Front {
    pub lists: Lines,
    /// Whether they are its own; every part meets short lists.
    pub is_divided: bool,
}

/// When lists are divided, as a number.
pub fn laws_of_fronts()
    ensures { LISTS_FOR_EACH ≡ 16 }
{}

/// Lists as lines of their own.
fn copied(alloc: Global, lists: &[Bytes]) -> Result<Lines, AllocError>
    ensures { IfOk result (λ lines. lines ≡ lists.now) }
{
    let mut lines = Lines::new(alloc);
    for list in lists {
        lines.push(alloc, list.as_slice())?;
    }
    Ok(lines)
}

/// The lists of a part.
fn own_lists(alloc: Global, share: Share, lists: &[Bytes]) -> Result<Lines, AllocError>
    requires { IsShare share }
    ensures { IfOk result (λ own. own ≡ own_lists share lists.now) }
{
    let start = edge(share.count, lists.len(), share.number - 1);
    let end = edge(share.count, lists.len(), share.number);
    copied(alloc, lists.get(start..end).unwrap_or(&[]))
}

impl Front {
    /// The list without a letter.
    pub fn new(alloc: Global) -> Result<Front, AllocError>
        ensures { IfOk result (λ front. front ≡ record { lists = [] ∷ []; is_divided = false }) }
    {
        let mut lists = Lines::new(alloc);
        lists.push(alloc, b"")?;
        Ok(Front {
            lists,
            is_divided: false,
        })
    }

    /// The lists of a part, where there are enough for each.
    pub fn divided(self, alloc: Global, share: Share) -> Result<Front, AllocError>
        requires { IsShare share }
        ensures { IfOk result (λ front. front ≡ divided share self) }
    {
        if self.is_divided || self.lists.len() < LISTS_FOR_EACH * share.count as usize {
            return Ok(self);
        }
        let lists = own_lists(alloc, share, self.lists.as_slice())?;
        Ok(Front {
            lists,
            is_divided: true,
        })
    }

    /// Whether a part tells of these lists: what is every part's is told by the first.
    pub fn is_told(&self, share: Share) -> bool
        ensures { told_in share self.now ≡ (if result then self.now.lists else []) }
    {
        self.is_divided || share.number == 1
    }
}
