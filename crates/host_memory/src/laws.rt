//! What follows from the definitions alone.

ghost use Rattle.host_memory.specs.DeliveryLaws.{DeliveredLaw};
ghost use Rattle.host_memory.specs.HeaderLaws.{HeaderLaw};
ghost use Rattle.host_memory.specs.OrderLaws.{GatherOrder, ScatterOrder};
ghost use Rattle.host_memory.specs.WindowLaws.{WrittenLaw, ReadLaw};
ghost use Rattle.host_memory.specs.Windows.{WindowsReadLaw, OneWindowLaw, OthersLaw};

/// Laws of windows, over every list of accesses.
///
/// `written`: a window's bytes are the old ones with exactly the writes that were done, in their order. `read`: reads
/// leave them as they are. Of several windows: `all_read`: reads leave all as they are; `one`: one alone does as it does by
/// itself; `others`: a write leaves all windows that do not have its bytes as they are.
pub fn laws_of_windows()
    ensures written { WrittenLaw }
    ensures read { ReadLaw }
    ensures all_read { WindowsReadLaw }
    ensures one { OneWindowLaw }
    ensures others { OthersLaw }
{}

/// The law of command headers: CFL, PRDTL, CTBA and CTBAU say what a header names, and no other field, W and P among them.
pub fn laws_of_headers()
    ensures { HeaderLaw }
{}

/// The law of deliveries: where memory misses nothing and the PRDT has room, all data of an act lie over the blocks that its
/// descriptors name, PRDBC counts them with those that it took, its FISes stand in their places, and nothing else is accessed.
pub fn laws_of_deliveries()
    ensures { DeliveredLaw }
{}

/// The law of misses: of bytes that are brought (`gathered`) and of bytes that are laid (`scattered`), the first access that is
/// refused is the last one, and is told by what it was for; too few bytes in the PRDT are told where none is refused.
pub fn laws_of_orders()
    ensures gathered { GatherOrder }
    ensures scattered { ScatterOrder }
{}
