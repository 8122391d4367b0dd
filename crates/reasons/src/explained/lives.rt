//! Since which act a session has lived on an SP, or none has.

ghost use Rattle.std.specs.Prelude.{◌≡◌, ◌&&◌, ◌||◌, is_some, List};
ghost use Rattle.reasons.specs.Lives.{no_life, begins_now, number_after, life_after, next_after};

use crate::explained::onset::{Cause, Onset, Source, onset_after};
use sp_cells::Sp;
use std::marker::Model;

/// The number of the first session of a drive (TCG Core 2.01, 3.3.7; the number is this drive's).
const FIRST_SESSION: u64 = 0x1000;

/// What is known of the sessions of an SP.
#[derive(Clone, Copy, Debug, PartialEq, Eq)]
pub struct SpLife {
    /// Since when a session lives there, if one does.
    pub busy: Option<Onset>,
    /// Since when none lives there, if none does.
    pub free: Option<Onset>,
    /// The number of the session that began there last.
    pub last: Option<u64>,
}

impl SpLife {
    /// Nothing is known.
    fn none() -> SpLife
        ensures { result ≡ no_life }
    {
        SpLife {
            busy: None,
            free: None,
            last: None,
        }
    }

    /// Whether a session begins now: none lived there, and one lives there now.
    fn begins(&self, lives: bool) -> bool
        ensures { result ≡ begins_now lives self.now }
    {
        self.free.is_some() && lives
    }

    /// The number of the last session, where the next one has this number.
    fn number_after(&self, lives: bool, next: u64) -> Option<u64>
        ensures { result ≡ number_after lives next self.now }
    {
        if self.begins(lives) {
            Some(next)
        } else {
            self.last
        }
    }

    /// The same where a session lives there now, or none does.
    fn after(&self, lives: bool, next: u64, now: Onset) -> SpLife
        ensures { result ≡ life_after lives next now self.now }
    {
        SpLife {
            busy: onset_after(self.busy, lives, now),
            free: onset_after(self.free, !lives, now),
            last: self.number_after(lives, next),
        }
    }
}

/// The number behind the next one, where a session begins.
fn next_after(begins: bool, next: u64) -> u64
    ensures { result ≡ next_after begins next }
{
    if begins { next.wrapping_add(1) } else { next }
}

/// Since which act a session has lived on each SP of a drive, or none has, and which number the last one has.
#[derive(Drop)]
pub struct SessionChronicle {
    acts: u64,
    next: u64,
    admin: SpLife,
    locking: SpLife,
}

impl Model for SessionChronicle {
    ghost use Rattle.reasons.specs.Lives.{KeptLives};

    ghost Value = { KeptLives };

    ghost view = { λ c. record {
      acts = c.acts;
      next = c.next;
      admin = c.admin;
      locking = c.locking;
    } };
}

impl SessionChronicle {
    ghost use Rattle.std.specs.Prelude.{◌∷◌, []};
    ghost use Rattle.sp_cells.specs.declared.names.Sp.TheVariants.{Admin, Locking};
    ghost use Rattle.history.specs.Opening.{Origin};
    ghost use Rattle.reasons.specs.declared.explained.onset.Onset.TheVariants.{AtAct};
    ghost use Rattle.reasons.specs.Onsets.{Sourced, cause_at};
    ghost use Rattle.reasons.specs.Lives.{KeptLives, lives_after, life_on, RecountsLives};

    /// Of a drive that has done no act: no session lives.
    #[tactic(auto, using(crate::proofs::explained::Living::opens))]
    pub fn opened() -> SessionChronicle
        ensures { (o : Origin) → RecountsLives result o [] }
    {
        let now = Onset::AtOpening;
        SessionChronicle {
            acts: 0,
            next: FIRST_SESSION,
            admin: SpLife::none().after(false, FIRST_SESSION, now),
            locking: SpLife::none().after(false, FIRST_SESSION, now),
        }
    }

    /// Notes on which SP a session lives.
    fn note(&mut self, admin: bool, locking: bool, now: Onset)
        ensures acts { self.new.acts ≡ self.old.acts }
        ensures next { self.new.next ≡ next_after
            (begins_now admin self.old.admin || begins_now locking self.old.locking)
            self.old.next }
        ensures on_admin { self.new.admin ≡ life_after admin self.old.next now self.old.admin }
        ensures on_locking { self.new.locking
            ≡ life_after locking self.old.next now self.old.locking }
    {
        let next = self.next;
        let begins = self.admin.begins(admin) || self.locking.begins(locking);
        self.admin = self.admin.after(admin, next, now);
        self.locking = self.locking.after(locking, next, now);
        self.next = next_after(begins, next);
    }

    /// Notes behind an act of this source and cause, or behind a step of a port that does none, on which SP a session lives
    /// then.
    pub fn note_act(&mut self, admin: bool, locking: bool, source: Source, cause: Cause)
        ensures { (o : Origin) (s : Sourced) (past : List Sourced) → s.source ≡ source
            → cause_at s.act ≡ cause → admin ≡ lives_after o Admin (s ∷ past)
            → locking ≡ lives_after o Locking (s ∷ past)
            → RecountsLives self.old o past → RecountsLives self.new o (s ∷ past) }
    {
        self.acts = self.acts.wrapping_add(1);
        let number = self.acts;
        let now = Onset::AtAct {
            number,
            source,
            cause,
        };
        self.note(admin, locking, now);
    }

    /// What is known of the sessions of an SP.
    pub fn on(&self, sp: Sp) -> SpLife
        ensures { result ≡ life_on self.now sp }
    {
        match sp {
            Sp::Admin => self.admin,
            Sp::Locking => self.locking,
        }
    }
}
