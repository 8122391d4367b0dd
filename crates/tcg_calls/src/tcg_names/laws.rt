//! What holds of names.

ghost use Rattle.tcg_calls.specs.Laws.{ObjectNameLaw, ColumnNameLaw};

/// An object has a name exactly where the name is that object's.
#[tactic(auto, using(crate::proofs::tcg_names::BothWays::both_ways))]
pub fn laws_of_object_names()
    ensures { ObjectNameLaw }
{}

/// A column of a table has a name exactly where the name is that column's there.
#[tactic(auto, using(crate::proofs::tcg_names::ColumnsBothWays::columns_both_ways))]
pub fn laws_of_column_names()
    ensures { ColumnNameLaw }
{}
