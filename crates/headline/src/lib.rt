//! The headline, over every lawful list of steps of a port: what a self-locking drive promises to those who use it.
#![tactic(auto)]

ghost use Rattle.headline.specs.Denials.{AuditLaw};
ghost use Rattle.headline.specs.Methods.{MethodLaw};
ghost use Rattle.headline.specs.NoTrace.{OpenLaw, AbortLaw};
ghost use Rattle.headline.specs.Transfers.{TransferLaw, TakenLaw};

pub mod law_rows;

/// A read or write that the drive answers is served exactly where every range that it touches permits it by the rows
/// in force at its last acceptance; and what is no write that was done, as one that a reset stopped, moves nothing. Both
/// whatever quiet items do; `taken` says it of what a client takes.
///
/// Not said: that a transfer is ever answered.
pub fn law_of_transfers()
    ensures served { TransferLaw }
    ensures taken { TakenLaw }
{}

/// Each act that was denied has exactly one line in the audit, at its step, with its client, in the words of what
/// denied it; no other act has one. The lines stand in the order of the steps.
///
/// Not said: anything of faults that are no denials, as addresses beyond the drive, calls of a wrong shape, invalid
/// values. They leave no line.
pub fn law_of_denials()
    ensures audited { AuditLaw }
{}

/// A call of a right shape with valid values takes effect, and a column is listed, exactly where an access entry that
/// names it holds of the session's authorities in its view. Listed columns rise. A Next tells the rows that there are, and
/// a GetACL the ACEs of the line of the access list.
///
/// Not said: what shapes and values are right, which the definitions of the calls say.
pub fn law_of_methods()
    ensures granted { MethodLaw }
{}

/// Nothing is made from a Set of an open or aborted transaction, but in its session's own view while it is open.
///
/// Not said: that attempts made within it are undone. They count, and authorities that they gained stay.
pub fn law_of_transactions()
    ensures hidden { OpenLaw }
    ensures forgotten { AbortLaw }
{}
