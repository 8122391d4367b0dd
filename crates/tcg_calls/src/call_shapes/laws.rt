//! Laws over the definitions.

ghost use Rattle.std.specs.Prelude.{◌≡◌};
ghost use Rattle.tcg_calls.specs.CallShapesLaws.{RoundTrip};
ghost use Rattle.tcg_calls.specs.Limits.{most_response};
ghost use Rattle.tcg_calls.specs.declared.call_shapes.limits.TheConstants as limits;

/// What Get writes of a cell, Set reads back as that cell, in a column of the cell's type.
#[tactic(auto, using(crate::proofs::call_shapes::RoundTrips::round_trip))]
pub fn laws_of_cells()
    ensures back { RoundTrip }
{}

/// The limit of the code is that of the definitions, and this number.
pub fn laws_of_limits()
    ensures response { (limits.MOST_RESPONSE ≡ most_response) × (most_response ≡ 65480) }
{}
