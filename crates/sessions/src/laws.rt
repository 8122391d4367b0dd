//! Laws over the definitions.

ghost use Rattle.sessions.specs.Orders.{AttemptOrder, StartOrder};

/// What comes of an attempt on an authority, and of a StartSession, is that of the first rule that applies, in the order of the
/// lists.
pub fn laws_of_orders()
    ensures attempts { AttemptOrder }
    ensures starts { StartOrder }
{}
