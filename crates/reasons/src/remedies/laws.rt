//! What holds of expressions, and of what is told to lift a denial.

ghost use Rattle.reasons.specs.Lifts.{LiftLaw, FulfilLaw};
ghost use Rattle.reasons.specs.Trees.{WrittenTreeLaw};

/// The elements of an expression write a tree exactly where they are its postorder.
#[tactic(auto, using(crate::proofs::remedies::WrittenTrees::both_ways))]
pub fn laws_of_expressions()
    ensures { WrittenTreeLaw }
{}

/// The remedy of a denied transfer lifts it.
///
/// `lifts`: the remedy names a Set and tells it. By the rows with that cell set no sector is denied by its range that was
/// not, and the same transfer is permitted, where nothing but the reason denied a sector of it. `fulfils`: who fulfils one
/// of the ACEs that are told has an ACE.
#[tactic(auto, using(crate::proofs::remedies::Lifted::lifts, crate::proofs::remedies::Lifted::fulfils))]
pub fn laws_of_remedies()
    ensures lifts { LiftLaw }
    ensures fulfils { FulfilLaw }
{}
