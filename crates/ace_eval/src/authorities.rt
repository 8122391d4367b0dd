//! The authorities of a session.

ghost use Rattle.std.specs.Prelude.{◌≡◌, ◌≤◌, ◌<◌, ◌↔◌, ◌⊎◌, ◌==◌, ◌||◌, List, [], ◌∷◌, ◌++◌, length, IsTrue, IfOk, if◌then◌else◌};
ghost use Rattle.sp_cells.specs.declared.names.Uid.{Uid as UidValue};
ghost use Rattle.ace_eval.specs.Truth.{has};
ghost use Rattle.ace_eval.specs.declared.authorities.TheConstants.{MOST_AUTHORITIES};

use arrayvec::ArrayVec;
use sp_cells::Uid;
use std::alloc::AllocError;
use std::marker::Model;

/// How many authorities a set has room for.
pub const MOST_AUTHORITIES: usize = 32;

/// A set of authorities, with room for [`MOST_AUTHORITIES`], seen as the list of those that were put in.
#[derive(Drop)]
pub struct Authorities {
    uids: ArrayVec<Uid, MOST_AUTHORITIES>,
}

impl Model for Authorities {
    ghost use Rattle.std.specs.Prelude.{List, length, ◌≤◌};
    ghost use Rattle.ace_eval.specs.declared.authorities.TheConstants.{MOST_AUTHORITIES};
    ghost use Rattle.sp_cells.specs.declared.names.Uid.{Uid};

    ghost Value = { List Uid };

    ghost view = { λ a. a.uids.items };

    ghost invariant = { λ a. length a.uids.items ≤ MOST_AUTHORITIES };
}

impl Authorities {
    /// The empty set.
    pub fn new() -> Authorities
        ensures { result ≡ [] }
    {
        Authorities {
            uids: ArrayVec::new(),
        }
    }

    /// The same set once more.
    pub fn copy(&self) -> Result<Authorities, AllocError>
        ensures { IfOk result (λ copied. copied ≡ self.now) }
    {
        let uids = self.uids.clone()?;
        Ok(Authorities { uids })
    }

    /// Whether the authority is in the set.
    pub fn contains(&self, authority: Uid) -> bool
        ensures { result ≡ has self.now authority }
    {
        self.uids.as_slice().contains(&authority)
    }

    /// Whether there is no room for another authority.
    pub fn is_full(&self) -> bool
        ensures full { IsTrue result ↔ (length self.now ≡ MOST_AUTHORITIES) }
        ensures room { length self.now ≤ MOST_AUTHORITIES }
    {
        self.uids.is_full()
    }

    /// Puts an authority into the set.
    pub fn insert(&mut self, authority: Uid)
        requires { (length self.old < MOST_AUTHORITIES) ⊎ IsTrue (has self.old authority) }
        ensures set { (other : UidValue)
            → has self.new other ≡ (has self.old other || (authority.0 == other.0)) }
        ensures exact { self.new
            ≡ (if has self.old authority then self.old else self.old ++ authority ∷ []) }
    {
        if !self.contains(authority) {
            self.uids.push(authority);
        }
    }
}

/// A set has room for this many.
pub fn laws_of_limits()
    ensures { MOST_AUTHORITIES ≡ 32 }
{}
