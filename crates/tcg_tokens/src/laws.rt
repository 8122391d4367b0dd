//! Laws over the definitions.

ghost use Rattle.tcg_tokens.specs.Leftmost.{LeftmostLaw, CutLaw, NoWantLaw};

/// Which fault bytes have. It is that of their shortest front which has one: whatever follows that front has the fault
/// and is no item, and with fewer bytes nothing is wrong so far, they are an item or end too early (`leftmost`). Where
/// the bytes end too early, nothing is wrong with any front of them (`cut`). Want of memory is no fault of bytes
/// (`memory`).
#[tactic(auto, using(crate::proofs::LeftmostProofs::of_faults))]
pub fn laws_of_faults()
    ensures leftmost { LeftmostLaw }
    ensures cut { CutLaw }
    ensures memory { NoWantLaw }
{}
