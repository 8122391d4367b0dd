//! What follows from the definitions alone.

ghost use Rattle.hba.specs.AddressLaws.{WidthLaw, UppersLaw, PlacesLaw};
ghost use Rattle.hba.specs.AccessTypes.{UpperRowsLaw, RowsLaw, generic_rows, place_rows, command_rows, state_rows, UnreachedRegistersLaw, FollowedLaw, WrittenStartLaw};
ghost use Rattle.hba.specs.Blocks.{BlocksLaw, read_setup, write_setup};
ghost use Rattle.hba.specs.BitLaws.{RunningLaw, IssuedLaw, QueuedLaw, RaisedLaw, ErrorsLaw, ChangesLaw, SignatureLaw};
ghost use Rattle.hba.specs.Laws.{HostFailureLaw, HostDenialLaw, ActiveLaw, CurrentLaw};
ghost use Rattle.hba.specs.Orders.{ReadyOrder, FetchOrder, CompletionOrder, ErrorOrder, ArrivalOrder};
ghost use Rattle.hba.specs.OwnBits.{OwnBitsLaw};
ghost use Rattle.hba.specs.Service.{ReadServedLaw, WriteServedLaw, HeldReadLaw, HeldWriteLaw, WaitsLaw};
ghost use Rattle.hba.specs.TaskLaws.{TaskLaw, LinkStatusLaw};
ghost use Rattle.hba.specs.Writes.{WritesLaw};

/// Laws of the definitions, over every drive that an HBA is opened over, and every list of operations.
///
/// `failed`: where the drive fails a fetched command, PxTFD tells the error, PxIS has TFES, PxCI and PxSACT keep their
/// bits, the port is halted, and nothing reaches the host's memory but the FIS of the error. `denied`: so it is for each
/// transfer that comes to the policy and that a range denies by the rows in force at its fetch.
pub fn laws_of_failures()
    ensures failed { HostFailureLaw }
    ensures denied { HostDenialLaw }
{}

/// The law of queued commands: a bit of PxSACT falls by the Set Device Bits FIS of its own tag alone, but for what the
/// host writes and a power cycle.
pub fn laws_of_queues()
    ensures { ActiveLaw }
{}

/// The law of PxCMD.CCS: it names the slot whose command was fetched last, also where memory failed or its FIS was no
/// command, since the host cleared ST or a reset came; else it is 0.
pub fn laws_of_slots()
    ensures { CurrentLaw }
{}

/// The law of PIO in several blocks: the registers after a PIO Setup FIS for each block are those after the last one
/// alone, to the host (`read`) and to the device (`written`). The FISes of later blocks stand in the place of the first.
pub fn laws_of_blocks()
    ensures read { BlocksLaw read_setup }
    ensures written { BlocksLaw write_setup }
{}

/// Laws of bits, over every list of operations of 32-bit words: what a driver reads is what set a bit and cleared it since.
///
/// `running`: ST of PxCMD is as it was written last since a reset. `issued`: PxCI has the bit of a slot exactly if its
/// command was issued while ST was 1, and since then none of these came: a FIS of the device that ends it, ST 0, a reset.
/// `queued`: so it is of PxSACT, which Set Device Bits FISes end. `raised`: PxIS has a bit exactly if a FIS, data or a fault
/// of memory raised it since a 1 was written to it and a reset came. `errors`: PxSERR has DIAG.X exactly if the link has
/// come up, and DIAG.N exactly if it has come up or gone down, since a 1 was written to it; a reset brings it up.
/// `changes`: PCS and PRCS of PxIS are 1 with them. `signature`: PxSIG is that of a disk exactly if the device has told it
/// since the link went down and since a reset. `task`: PxTFD is what the latest of these left: a FIS of the device, its
/// signature, a reset, a written PxSCTL that takes the link down or brings it up, CLO, a command to a device in reset.
/// `link`: PxSSTS tells a device, an active link and its speed while PxSCTL.DET is 0 as it was written last, 4 while that is
/// 4, and else 0; the speed is that with which the link came up last.
pub fn laws_of_bits()
    ensures running { RunningLaw }
    ensures issued { IssuedLaw }
    ensures queued { QueuedLaw }
    ensures raised { RaisedLaw }
    ensures errors { ErrorsLaw }
    ensures changes { ChangesLaw }
    ensures signature { SignatureLaw }
    ensures task { TaskLaw }
    ensures link { LinkStatusLaw }
{}

/// The law of writes, over every drive, list of operations and answers of memory: a piece of work writes nothing but parts
/// of blocks that descriptors name which it read just before, PRDBC of its slot's header, and received FISes in their places
/// at PxFB, while FRE is set.
pub fn laws_of_writes()
    ensures { WritesLaw }
{}

/// Laws of the access types, over any registers and any written 32-bit word (AHCI 1.3.1, section 3).
///
/// `generic`, `places`, `upper`, `command`, `state`: behind a write each bit of its register reads what the bit's type says: RO bits
/// stay, RW bits are as written, a written 1 clears an RWC bit, and sets an RW1 bit while ST is 1; reserved bits read 0. So
/// it is but for a written GHC.HR, and for IS while PxIS asks. `unreached`: each other register stays, but for IS and for
/// those that PxCMD, PxSCTL and PxSERR reach. `follows`: CR, FR, PCS and PRCS read as ST, FRE, DIAG.X and DIAG.N. `start`:
/// ST 0 clears PxSACT, PxCI and CCS. `own`: after each list of operations the registers have no bits but their own.
pub fn laws_of_access()
    ensures generic { RowsLaw generic_rows }
    ensures places { RowsLaw place_rows }
    ensures upper { UpperRowsLaw }
    ensures command { RowsLaw command_rows }
    ensures state { RowsLaw state_rows }
    ensures unreached { UnreachedRegistersLaw }
    ensures follows { FollowedLaw }
    ensures start { WrittenStartLaw }
    ensures own { OwnBitsLaw }
{}

/// Laws of service, over every drive that an HBA is opened over, and every list of operations: a command that did its work,
/// where memory missed nothing and the PRDT has room.
///
/// `read`, `written`: a transfer by DMA or by PIO, or a verification, that the rows in force at its fetch permit. Its data
/// lie over the blocks that its table names, or the media have what was brought; PRDBC counts what moved, its FISes are
/// posted, nothing else is accessed, and its bit of PxCI is clear. `held_read`, `held_write`: a queued transfer at its
/// completion. So it is with it, with DMA Setup and Set Device Bits, and its bit of PxSACT is clear. `rests`: where nothing
/// is ready, as behind `run`, each command that was issued has ended, or the port does not work, or the device is busy in a
/// software reset.
pub fn laws_of_service()
    ensures read { ReadServedLaw }
    ensures written { WriteServedLaw }
    ensures held_read { HeldReadLaw }
    ensures held_write { HeldWriteLaw }
    ensures rests { WaitsLaw }
{}

/// The law of orders, over every such drive, every list of operations and every memory: of several things that keep a command
/// from its act, the first of one list is told.
///
/// `ready`: only what is ready is done. `fetched`, `completed`: the operation is that of the first rule that applies, of the
/// header, the FIS, the software reset, and of the PRDT, descriptor after descriptor; where none applies, the drive acts.
/// `failed`: its error stands in PxTFD, whatever memory misses behind it. `arrived`: of what memory misses behind an act,
/// data are told first, then PRDBC, then the places of FISes.
pub fn laws_of_orders()
    ensures ready { ReadyOrder }
    ensures fetched { FetchOrder }
    ensures completed { CompletionOrder }
    ensures failed { ErrorOrder }
    ensures arrived { ArrivalOrder }
{}

/// Laws of addresses, over every drive that an HBA is opened over, and every list of operations.
///
/// `width`: an HBA has one width of addresses, and CAP.S64A tells it. `uppers`: PxCLBU and PxFBU read as they were written last
/// since power on, also behind GHC.HR, where addresses have 64 bits, and else 0. `places`: the headers and the FISes stand where
/// a driver reads that, by both halves.
pub fn laws_of_addresses()
    ensures width { WidthLaw }
    ensures uppers { UppersLaw }
    ensures places { PlacesLaw }
{}
