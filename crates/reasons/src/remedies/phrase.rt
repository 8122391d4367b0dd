//! Texts of expressions, and those that wait for an operator.

ghost use Rattle.std.specs.Prelude.{◌≡◌, ◌++◌, [], ◌∷◌, OnOk, IfOk, IfSome, IfNone, Some};
ghost use Rattle.reasons.specs.Trees.{lone};
ghost use Rattle.reasons.specs.Phrases.{in_parentheses, wording_text, authority_worded, both_worded, either_worded};

use crate::remedies::called::append_object_name;
use sp_cells::Uid;
use std::alloc::{AllocError, Global};
use std::marker::Model;

/// The text of an expression, and whether it is that of an `or`, which stands in parentheses under an `and`.
#[derive(Drop)]
pub(crate) struct Phrase {
    text: Vec<u8>,
    is_either: bool,
}

impl Model for Phrase {
    ghost use Rattle.reasons.specs.Phrases.{Wording};

    ghost Value = { Wording };

    ghost view = { λ a. (a.text.items, a.is_either) };
}

impl Phrase {
    /// An authority by its name.
    pub(crate) fn of_authority(alloc: Global, authority: Uid) -> Result<Phrase, AllocError>
        ensures { IfOk result (λ phrase. phrase ≡ authority_worded authority) }
    {
        let mut text = Vec::new(alloc);
        append_object_name(alloc, &mut text, authority)?;
        Ok(Phrase {
            text,
            is_either: false,
        })
    }

    /// Both operands.
    pub(crate) fn both(alloc: Global, left: &Phrase, right: &Phrase) -> Result<Phrase, AllocError>
        ensures { IfOk result (λ phrase. phrase ≡ both_worded left.now right.now) }
    {
        let mut text = Vec::new(alloc);
        left.append_operand(&mut text)?;
        text.extend_from_slice(b" and ")?;
        right.append_operand(&mut text)?;
        Ok(Phrase {
            text,
            is_either: false,
        })
    }

    /// One of two operands.
    pub(crate) fn either(alloc: Global, left: &Phrase, right: &Phrase) -> Result<Phrase, AllocError>
        ensures { IfOk result (λ phrase. phrase ≡ either_worded left.now right.now) }
    {
        let mut text = Vec::new(alloc);
        left.append(&mut text)?;
        text.extend_from_slice(b" or ")?;
        right.append(&mut text)?;
        Ok(Phrase {
            text,
            is_either: true,
        })
    }

    /// Appends the text.
    pub(crate) fn append(&self, text: &mut Vec<u8>) -> Result<(), AllocError>
        ensures { OnOk result (text.new.items ≡ text.old.items ++ wording_text self.now) }
    {
        text.extend_from_slice(&self.text)?;
        Ok(())
    }

    /// Appends the text as an operand of `and`.
    fn append_operand(&self, text: &mut Vec<u8>) -> Result<(), AllocError>
        ensures { OnOk result (text.new.items
            ≡ text.old.items ++ in_parentheses self.now.1 self.now.0) }
    {
        if self.is_either {
            text.extend_from_slice(b"(")?;
            text.extend_from_slice(&self.text)?;
            text.extend_from_slice(b")")?;
        } else {
            text.extend_from_slice(&self.text)?;
        }
        Ok(())
    }
}

/// The phrases that wait for an operator, seen with the latest first.
#[derive(Drop)]
pub(crate) struct Waiting {
    phrases: Vec<Phrase>,
}

impl Model for Waiting {
    ghost use Rattle.std.specs.Prelude.{List, reverse};
    ghost use Rattle.reasons.specs.Phrases.{Wording};

    ghost Value = { List Wording };

    ghost view = { λ a. reverse a.phrases.items };
}

impl Waiting {
    pub(crate) fn new(alloc: Global) -> Waiting
        ensures { result ≡ [] }
    {
        Waiting {
            phrases: Vec::new(alloc),
        }
    }

    pub(crate) fn push(&mut self, phrase: Phrase) -> Result<(), AllocError>
        ensures { OnOk result (self.new ≡ phrase ∷ self.old) }
    {
        self.phrases.push(phrase)?;
        Ok(())
    }

    pub(crate) fn pop(&mut self) -> Option<Phrase>
        ensures some { IfSome result (λ phrase. self.old ≡ phrase ∷ self.new) }
        ensures none { IfNone result (self.old ≡ []) }
    {
        self.phrases.pop()
    }

    /// The phrase that waits, where there is one and no more.
    pub(crate) fn take_lone(&mut self) -> Option<Phrase>
        ensures { result ≡ lone (Some self.old) }
    {
        let phrase = self.pop()?;
        match self.pop() {
            None => Some(phrase),
            Some(_) => None,
        }
    }
}
