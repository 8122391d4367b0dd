//! The rule of the board's one word, and what each step on it tells the seat that steps.

use atomic_table::{Join, Play, Split, TableRule};
use std::collections::LinkedList;

/// What a seat knows: the tags that it holds, one bit each, and the tags that it tried, each with whether it was found
/// taken; and, where it was joined of two seats, what each of them held. No value of it is made.
pub struct View {
    pub held: u64,
    pub tried: LinkedList<(u64, bool)>,
    pub halves: (u64, u64),
}

/// Each tag is held by one seat.
pub struct OneHolder;

impl TableRule<(), View, ()> for OneHolder {
    ghost use Rattle.locked_port.specs.Rule.{Kept, new_view};

    ghost holds = { λ _ s. Kept s };

    ghost first = { λ _. new_view };
}

/// A try of one tag.
pub struct Claims;

impl Play<(), View> for Claims {
    ghost use Rattle.locked_port.specs.Rule.{Claimed};

    ghost then = { Claimed };
}

/// Tags are given back.
pub struct Frees;

impl Play<(), View> for Frees {
    ghost use Rattle.locked_port.specs.Rule.{Freed};

    ghost then = { Freed };
}

/// A new seat, which holds nothing.
pub struct Empty;

impl Split<View> for Empty {
    ghost use Rattle.locked_port.specs.Rule.{new_view};

    ghost left = { λ v. v };

    ghost right = { λ _. new_view };
}

/// One seat that holds what two held.
pub struct Both;

impl Join<View> for Both {
    ghost use Rattle.locked_port.specs.Rule.{new_view, joined};

    ghost both = { joined };

    ghost spent = { new_view };
}

/// A look at the word.
pub struct Looks;

impl Play<(), View> for Looks {
    ghost use Rattle.locked_port.specs.Rule.{ToldApart};

    ghost then = { ToldApart };
}
