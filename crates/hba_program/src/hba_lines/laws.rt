//! Laws over the definitions.

ghost use Rattle.hba_program.specs.Laws.{NumberLaw};

/// A number that is printed in hex reads back.
#[tactic(auto, using(crate::proofs::hba_lines::Numbers::numbers))]
pub fn laws_of_numbers()
    ensures { NumberLaw }
{}
