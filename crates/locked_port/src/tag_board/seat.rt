//! The board and its seats.

ghost use Rattle.std.specs.Prelude.{◌≡◌, ◌<◌, ◌^◌};
ghost use Rattle.fis.specs.Tags.{slot_count};

use crate::tag_board::plays::{Both, Claims, Empty, Frees, Looks, OneHolder, View};
use atomic_table::{Seat, Table};
use fis::{SLOT_COUNT, Tag};
use std::alloc::{AllocError, Global};
use std::marker::Model;
use std::sync::Arc;

type Word = Table<(), View, (), OneHolder, Global>;

/// The board. Its seats share the word, so it may be let go before them.
#[derive(Drop)]
pub struct TagBoard {
    word: Arc<Word>,
}

/// A place at a board, with the tags that it holds.
#[derive(Drop)]
pub struct TagSeat {
    word: Arc<Word>,
    place: Seat<(), View>,
    held: u64,
}

impl Model for TagSeat {
    ghost use Rattle.std.specs.Prelude.{◌≡◌, ◌<◌, ◌^◌, []};
    ghost use Rattle.std.specs.Arc.{arc_value};
    ghost use Rattle.locked_port.specs.Seats.{Seated, seated_code};

    ghost Value = { Seated };

    ghost coded = { seated_code };

    ghost view = { λ s. record {
      board = s.place.table_id;
      held = s.held;
      tried = s.place.me.0.tried;
    } };

    ghost invariant = { λ s. (s.place.table_id ≡ (arc_value s.word).shared.table_id)
        × (s.place.table_id.words ≡ 1) × (s.place.table_id.slots ≡ 0)
        × (s.place.me.0.held ≡ s.held) × (s.place.me.1 ≡ []) × (s.held < 2 ^ 64) };
}

/// The bit of a tag.
fn mask(tag: Tag) -> u64
    ensures bit { result ≡ 2 ^ tag }
    ensures below { tag < slot_count }
{
    1 << tag.number()
}

impl TagBoard {
    ghost use Rattle.std.specs.Prelude.{◌≡◌, [], IfOk};

    /// A board with all tags free, and its first seat.
    ///
    /// # Errors
    ///
    /// `AllocError`, when a growth is refused.
    pub fn new(alloc: Global) -> Result<(TagBoard, TagSeat), AllocError>
        ensures { IfOk result (λ made. (made.1.held ≡ 0) × (made.1.tried ≡ [])) }
    {
        let (table, place) = Word::of_words(alloc, &[0], &())?;
        let word = Arc::new(alloc, table)?;
        let other = Arc::try_clone(&word)?;
        Ok((
            TagBoard { word },
            TagSeat {
                word: other,
                place,
                held: 0,
            },
        ))
    }
}

impl TagSeat {
    ghost use Rattle.std.specs.Prelude.{◌≡◌, ℕ, ◌^◌, ◌++◌, [], ◌∷◌, true, false, not, bit_or, IfOk, IfSome, IfNone, IsTrue};
    ghost use Rattle.std.specs.Int.{bit_at};
    ghost use mathlib.Core.Logic.{◌↔◌, ◌≢◌};
    ghost use Rattle.fis.specs.Tags.{slot_count};
    ghost use Rattle.locked_port.specs.Rule.{takens};
    ghost use Rattle.locked_port.specs.Seats.{HasTag, Lacks, after_try, idle, both};

    /// Whether the seat holds the tag.
    pub fn holds(&self, tag: Tag) -> bool
        ensures { IsTrue result ↔ HasTag self.now tag }
    {
        self.held & mask(tag) != 0
    }

    /// Tries one tag, by one exchange. It answers whether the seat holds it now.
    fn try_tag(&mut self, tag: Tag) -> bool
        ensures tried { self.new ≡ after_try tag (not result) self.old }
        ensures free { IsTrue result → Lacks self.old tag }
    {
        let mask = mask(tag);
        let found = self
            .word
            .shared
            .fetch_or::<Claims>(&mut self.place, 0, mask);
        let free = found & mask == 0;
        if free {
            self.held |= mask;
        }
        free
    }

    /// Claims the least tag that it finds free: it tries tag 0, then 1, and so on, each once, by one exchange. `None`:
    /// each of the 32 was found taken at some moment of the call.
    pub fn claim(&mut self) -> Option<Tag>
        ensures board { self.new.board ≡ self.old.board }
        ensures some { IfSome result (λ tag. Lacks self.old tag
            × (self.new.held ≡ bit_or self.old.held (2 ^ tag))
            × (self.new.tried ≡ (self.old.tried ++ takens tag) ++ (tag, false) ∷ [])) }
        ensures none { IfNone result ((self.new.held ≡ self.old.held)
            × (self.new.tried ≡ self.old.tried ++ takens slot_count)) }
        ensures holds { IfSome result (λ tag. HasTag self.new tag) }
    {
        for number in 0..SLOT_COUNT as u8 {
            let tag = Tag::low_bits(number);
            if self.try_tag(tag) {
                return Some(tag);
            }
        }
        None
    }

    /// Gives a tag back.
    pub fn release(&mut self, tag: Tag)
        requires { HasTag self.old tag }
        ensures board { self.new.board ≡ self.old.board }
        ensures gone { Lacks self.new tag }
        ensures others { (k : ℕ) → k ≢ tag → bit_at self.new.held k ≡ bit_at self.old.held k }
        ensures tried { self.new.tried ≡ self.old.tried }
    {
        let keep = !mask(tag);
        self.word
            .shared
            .fetch_and::<Frees>(&mut self.place, 0, keep);
        self.held &= keep;
    }

    /// Another seat at the board, which holds nothing.
    ///
    /// # Errors
    ///
    /// `AllocError`, when a growth is refused.
    pub fn split(&mut self) -> Result<TagSeat, AllocError>
        ensures seat { IfOk result (λ seat. seat ≡ idle self.old.board) }
        ensures same { self.new ≡ self.old }
    {
        let word = Arc::try_clone(&self.word)?;
        let place = word.shared.split_seat::<Empty>(&mut self.place);
        Ok(TagSeat {
            word,
            place,
            held: 0,
        })
    }

    /// One seat of the board that holds what two held. No tag was held by both.
    pub fn join(self, other: TagSeat) -> TagSeat
        requires { other.board ≡ self.board }
        ensures joined { result ≡ both self other }
        ensures apart { (tag : ℕ) → HasTag self tag → Lacks other tag }
    {
        let TagSeat {
            word,
            mut place,
            held,
        } = self;
        let TagSeat {
            word: _,
            place: theirs,
            held: more,
        } = other;
        word.shared.join_seat::<Both>(&mut place, theirs);
        word.shared.load::<Looks>(&mut place, 0);
        TagSeat {
            word,
            place,
            held: held | more,
        }
    }
}
