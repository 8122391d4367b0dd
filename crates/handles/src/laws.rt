//! What the definitions of numbers say together.

ghost use Rattle.handles.specs.Laws.{NewNumberLaw, GivenLaw, LentLaw, FreedLaw, GoneLaw, ReturnedLaw, ZeroLaw};

/// The laws of numbers: one that is given was never given before, and is of an object from then on; freed, it is of none, and
/// stays so; a number changes by what is done with it alone.
pub fn laws_of_numbers()
    ensures fresh { NewNumberLaw }
    ensures given { GivenLaw }
    ensures lent { LentLaw }
    ensures returned { ReturnedLaw }
    ensures freed { FreedLaw }
    ensures gone { GoneLaw }
    ensures zero { ZeroLaw }
{}
