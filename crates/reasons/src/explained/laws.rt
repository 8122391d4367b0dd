//! What is so of onsets, over every list of acts.

ghost use Rattle.reasons.specs.Onsets.{OnsetLaw, NeverLaw};
ghost use Rattle.reasons.specs.Rests.{RestLaw, ReasonLaw};

/// Onsets, over every list of acts and whatever is asked of them.
///
/// `since`: an onset is told exactly where it is the latest act since which it holds: it held after that act and after
/// each since, and not before it, or the onset is the opening. `never`: none is told exactly where it does not hold.
#[tactic(auto, using(crate::proofs::explained::OnsetLaws::since, crate::proofs::explained::OnsetLaws::never))]
pub fn laws_of_onsets()
    ensures since { OnsetLaw }
    ensures never { NeverLaw }
{}

/// The reasons of denied transfers.
///
/// `rest`: a denied transfer rests on something, and all that it rests on is in force before its act. `reasons`: so of
/// whatever list of acts, it has a condition, and each of its conditions has an onset.
#[tactic(auto, using(crate::proofs::explained::RestLaws::rests, crate::proofs::explained::RestLaws::reasons))]
pub fn laws_of_reasons()
    ensures rest { RestLaw }
    ensures reasons { ReasonLaw }
{}
