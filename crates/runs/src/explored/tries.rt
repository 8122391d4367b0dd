//! Lists of letters that were run, each with what its last letter printed.

ghost use Rattle.std.specs.Prelude.{◌≡◌, [], ◌∷◌, ◌++◌, OnOk};

use basics::Bytes;
use std::alloc::{AllocError, Global};
use std::marker::Model;

/// A list of letters, as lines of a script, and what its last letter printed.
#[derive(Drop)]
pub struct Try {
    pub list: Bytes,
    pub answer: Bytes,
}

/// Lists that were run, in order.
#[derive(Drop)]
pub struct Tries {
    items: Vec<Try>,
}

impl Model for Tries {
    ghost use Rattle.std.specs.Prelude.{List};
    ghost use Rattle.runs.specs.declared.explored.tries.Try.{Try};

    ghost Value = { List Try };

    ghost view = { λ a. a.items.items };
}

impl Tries {
    /// Nothing was run.
    pub fn new(alloc: Global) -> Tries
        ensures { result ≡ [] }
    {
        Tries {
            items: Vec::new(alloc),
        }
    }

    /// One more, behind the others.
    pub fn push(&mut self, item: Try) -> Result<(), AllocError>
        ensures { OnOk result (self.new ≡ self.old ++ item ∷ []) }
    {
        self.items.push(item)?;
        Ok(())
    }

    /// All, one after the other.
    pub fn as_slice(&self) -> &[Try]
        ensures { result.now ≡ self.now }
    {
        self.items.as_slice()
    }
}
