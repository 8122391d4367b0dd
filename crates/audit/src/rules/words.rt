//! A rule in words.

ghost use Rattle.std.specs.Prelude.{◌≡◌};
ghost use Rattle.audit.specs.Words.{fault_words, command_words, rule_words as words_of};

use crate::rules::rule::Rule;
use sp_cells::SetError;
use trusted_cmds::CommandError;

/// A fault of cells in words.
fn of_fault(fault: SetError) -> &'static [u8]
    ensures { result.now ≡ fault_words fault }
{
    match fault {
        SetError::NoCell => b"the object has no such column, or it can't be set",
        SetError::WrongType => b"a column does not take its value",
        SetError::Overlap => b"the range would meet another range",
        SetError::Beyond =>
            b"the range would end beyond the drive, or the global range would have bounds",
        SetError::Expr => b"an expression that is no tree, or that names no authority of the SP",
        SetError::OutOfMemory => b"no memory",
    }
}

/// A fault of a command's fields in words.
fn of_command(fault: CommandError) -> &'static [u8]
    ensures { result.now ≡ command_words fault }
{
    match fault {
        CommandError::Unknown => b"the drive does not know the command",
        CommandError::NotCommand => b"the FIS carries no command",
        CommandError::LogPage => b"the drive has no such log page",
        CommandError::Device => b"bit 6 of Device is clear",
    }
}

/// A rule in words, as they stand behind `because `.
pub fn rule_words(rule: Rule) -> &'static [u8]
    ensures { result.now ≡ words_of rule }
{
    match rule {
        Rule::NoCommand => b"the FIS carries no command",
        Rule::Unreadable(fault) => of_command(fault),
        Rule::QueueFailed => b"the queue has failed, and log page 10h was not read yet",
        Rule::Mixed => b"queued commands are held, and this one is not queued",
        Rule::TagHeld => b"the tag is held by a queued command",
        Rule::BeyondDrive => b"the transfer would end behind the last sector",
        Rule::Protocol => b"not security protocol 01h with one block at least",
        Rule::ComId => b"the drive has no such ComID",
        Rule::ResponseWaits => b"a response waits on the ComID",
        Rule::LongTransfer => b"the transfer is longer than a ComPacket may be",
        Rule::SidKept => b"SID has a PIN of its own, or is blocked already",
        Rule::NoFrame => b"no frame of this ComID was sent",
        Rule::NoSession => b"no such session lives on this ComID",
        Rule::NoItem => b"the payload is no item that can stand here",
        Rule::NoMethod => b"the object has no such method",
        Rule::Shape => b"the arguments have not the shape of the method",
        Rule::UnknownSp => b"no such SP",
        Rule::NotInUse => b"the SP is not in use: it was not activated",
        Rule::SpBusy => b"another session lives on the SP",
        Rule::NoNumber => b"no number is left for a session",
        Rule::OutsideTable => b"rows that are not within the table",
        Rule::TooLong => b"the response would be longer than a response may be",
        Rule::WrongValue =>
            b"a value that its column does not take, or bytes behind the table's end",
        Rule::NotSet(fault) => of_fault(fault),
        Rule::BrokenOff => b"the payload is no item: it ended the session",
        Rule::Discarded => b"no call of Properties or StartSession: it was discarded",
        Rule::NoSubpacket => b"the subpacket is no part of its packet: it ended the session",
        Rule::NoStackReset => b"no reset of the stack of this ComID: nothing was done",
        Rule::ManyRandomBytes => b"Random gives at most 32 bytes",
        Rule::NoSuchRow => b"the table has no such row",
        Rule::NoAccessLine => b"the access list has no line for that object and that method",
        Rule::InTransaction => b"the session has a transaction open",
        Rule::NoKey => b"the object is no key of a range",
        Rule::GlobalLocked => b"the global range would be kept, and is locked both ways",
        Rule::AlreadyOpen => b"a transaction is open on the SP",
        Rule::NoneOpen => b"the session has no transaction open",
    }
}
