//! Which rule refuses.

use sp_cells::SetError;
use trusted_cmds::CommandError;

/// The rule by which a command, a frame or an item is refused, where no access control denies it.
#[derive(Clone, Copy, Debug, PartialEq, Eq)]
pub enum Rule {
    /// The FIS is no Register - Host to Device FIS that carries a command (Serial ATA 3.x, bit C).
    NoCommand,
    /// The command is none that the drive takes, or has a field that it does not take (ACS-3).
    Unreadable(CommandError),
    /// The queue has failed: log page 10h is to be read first (ACS-3, NCQ feature set, error handling).
    QueueFailed,
    /// A command that is not queued came while queued commands were held (ACS-3, NCQ feature set).
    Mixed,
    /// The tag of a queued command was held already (ACS-3, READ FPDMA QUEUED, NCQ Tag).
    TagHeld,
    /// A transfer would end behind the last sector (ACS-3, IDNF).
    BeyondDrive,
    /// A trusted command of another security protocol than 01h, or of no block (ACS-3, TRUSTED SEND).
    Protocol,
    /// A trusted command on a ComID that the drive does not have (Opal SSC 2.01, section 3.1.1).
    ComId,
    /// A send on a ComID whose response waits to be received (Core 2.01, section 3.3.10).
    ResponseWaits,
    /// A send of more bytes than the largest ComPacket has (Core 2.01, section 3.3.10; SIIS, invalid transfer length).
    LongTransfer,
    /// SID has a PIN of its own, or is blocked already (Block SID Authentication feature set 1.00).
    SidKept,
    /// What was sent is no frame of its ComID (Core 2.01, section 3.2.3).
    NoFrame,
    /// The frame names a session that does not live on its ComID (Core 2.01, section 3.3.7).
    NoSession,
    /// The payload is no item that can stand there (Core 2.01, section 3.2.4).
    NoItem,
    /// The session manager, or the kind of the object, has no such method.
    NoMethod,
    /// The arguments have not the shape of the method (Core 2.01, section 5.3.3).
    Shape,
    /// A StartSession names no SP of the drive (Core 2.01, section 5.2.3.1).
    UnknownSp,
    /// The SP is not in use: it was never activated (Opal SSC 2.01, section 4.1.1).
    NotInUse,
    /// Another session lives on the SP.
    SpBusy,
    /// No number is left for another session.
    NoNumber,
    /// The rows that a Get names are not all within the byte table (Core 2.01, section 5.3.3.6).
    OutsideTable,
    /// The response would be longer than a response may be.
    TooLong,
    /// A Set has a value that its column does not take, or bytes that are not all within the table (Core 2.01, section
    /// 5.3.3.7).
    WrongValue,
    /// The cells of a Set are refused for this fault.
    NotSet(SetError),
    /// What is no item ended the session that it was sent to (Opal SSC 2.01, section 3.3.4.1.3).
    BrokenOff,
    /// What was sent to the session manager calls neither of its methods, and was discarded (the same section).
    Discarded,
    /// What carries no subpacket ended the session that it was sent to (Opal SSC 2.01, section 3.3.4.1.3).
    NoSubpacket,
    /// What was sent to the stack of a ComID does not reset it (Core 2.01, section 3.3.4.7.5).
    NoStackReset,
    /// A Random asks for more bytes than it gives (Core 2.01, section 5.6.4.1; Opal SSC 2.01, section 4.2.6).
    ManyRandomBytes,
    /// The row behind which a Next should go on is none of its table (Core 2.01, section 5.3.3.8).
    NoSuchRow,
    /// The access list has no line for the object and the method that a GetACL names (Core 2.01, section 5.3.3.13).
    NoAccessLine,
    /// Activate, Revert, RevertSP and GenKey do nothing within a transaction.
    InTransaction,
    /// GenKey of an object that is no key of a range.
    NoKey,
    /// A RevertSP that keeps the global range, which is locked both ways (Opal SSC 2.01, section 5.1.3).
    GlobalLocked,
    /// A transaction begins while one is open on the SP (Core 2.01, section 3.3.9).
    AlreadyOpen,
    /// A transaction ends where the session has none open (Core 2.01, section 3.3.9).
    NoneOpen,
}
