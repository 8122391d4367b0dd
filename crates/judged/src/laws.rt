//! Laws of verdicts and of transcripts.

ghost use Rattle.judged.specs.Laws.{AgreesLaw, AllowsLaw, NamesLaw, OwnAnswersLaw, WrongLaw};

/// Answers agree exactly if they are what must be said; they are allowed only by a freedom that is given, and wrong exactly
/// if they differ, and by none of these alone.
#[tactic(auto, using(crate::proofs::Verdicts::agrees))]
pub fn laws_of_verdicts()
    ensures agrees { AgreesLaw }
    ensures allows { AllowsLaw }
    ensures wrong { WrongLaw }
{}

/// A freedom is named by its name.
#[tactic(auto, using(crate::proofs::Verdicts::named))]
pub fn laws_of_names()
    ensures named { NamesLaw }
{}

/// The transcript that the model's own answers to a script make agrees whole.
#[tactic(auto, using(crate::proofs::OwnAnswers::own))]
pub fn laws_of_transcripts()
    ensures own { OwnAnswersLaw }
{}
