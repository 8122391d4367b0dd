//! How the answers to a line stand to the model's.

use crate::freedom::Freedom;
use basics::Bytes;
use std::alloc::{AllocError, Global};
use std::marker::Model;

/// How the answers to a line stand to the model's.
#[derive(Drop)]
pub enum Verdict {
    /// They are the model's.
    Agrees,
    /// They differ by this freedom alone.
    Allowed(Freedom),
    /// They are wrong: what is told of it, and why the model says something else.
    Wrong(Bytes),
}

/// How the answers to a line were judged.
#[derive(Drop)]
pub struct Ruling {
    /// The number of the line in the transcript.
    pub number: u64,
    /// Whether they are wrong, and later ones may follow from it: the drive may be in another state than the model.
    pub is_cause: bool,
    pub verdict: Verdict,
}

/// Rulings, in the order of their lines.
#[derive(Drop)]
pub struct Rulings {
    items: Vec<Ruling>,
}

impl Model for Rulings {
    ghost use Rattle.std.specs.Prelude.{List};
    ghost use Rattle.judged.specs.declared.ruling.Ruling.{Ruling};

    ghost Value = { List Ruling };

    ghost view = { λ a. a.items.items };
}

impl Verdict {
    ghost use Rattle.std.specs.Prelude.{◌≡◌};
    ghost use Rattle.judged.specs.Judgements.{is_agreement, is_allowance, is_wrong};

    /// Whether the answers are the model's.
    pub fn is_agreement(&self) -> bool
        ensures { result ≡ is_agreement self.now }
    {
        matches!(self, Verdict::Agrees)
    }

    /// Whether a freedom allows the answers.
    pub fn is_allowance(&self) -> bool
        ensures { result ≡ is_allowance self.now }
    {
        matches!(self, Verdict::Allowed(_))
    }

    /// Whether the answers are wrong.
    pub fn is_wrong(&self) -> bool
        ensures { result ≡ is_wrong self.now }
    {
        matches!(self, Verdict::Wrong(_))
    }
}

impl Rulings {
    ghost use Rattle.std.specs.Prelude.{◌≡◌, ◌++◌, ◌∷◌, [], OnOk};
    ghost use Rattle.judged.specs.Judgements.{how_many, is_agreement, is_allowance, is_wrong};

    /// Nothing was judged.
    pub fn new(alloc: Global) -> Rulings
        ensures { result ≡ [] }
    {
        Rulings {
            items: Vec::new(alloc),
        }
    }

    /// One more, behind the others.
    pub fn push(&mut self, ruling: Ruling) -> Result<(), AllocError>
        ensures { OnOk result (self.new ≡ self.old ++ ruling ∷ []) }
    {
        self.items.push(ruling)?;
        Ok(())
    }

    /// All, one after the other.
    pub fn as_slice(&self) -> &[Ruling]
        ensures { result.now ≡ self.now }
    {
        self.items.as_slice()
    }
}
