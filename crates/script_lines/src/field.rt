//! The words of a line behind the first one, each of which has a field of its own.

ghost use Rattle.std.specs.Prelude.{◌≡◌};
ghost use Rattle.script_lines.specs.Fields.{most_of};

use compacket::MAX_PAYLOAD;
use std::fmt;
use trusted_cmds::SECTOR_SIZE;

/// The most bytes of a call's tokens: those that a ComPacket can carry.
pub const MOST_CALL_BYTES: usize = MAX_PAYLOAD;

/// The most bytes of a ComPacket that is sent: the most blocks that a transfer has.
pub const MOST_SEND_BYTES: usize = 65_535 * SECTOR_SIZE;

/// The limits are these numbers.
pub fn laws_of_limits()
    ensures call { MOST_CALL_BYTES ≡ 65480 }
    ensures send { MOST_SEND_BYTES ≡ 33553920 }
{}

/// What a word of a line stands for.
#[derive(Clone, Copy, Debug, PartialEq, Eq)]
pub enum Field {
    Range,
    Start,
    Length,
    ReadLockEnabled,
    WriteLockEnabled,
    ReadLocked,
    WriteLocked,
    Client,
    Tag,
    Address,
    Count,
    Byte,
    DmaAddress,
    DmaCount,
    DmaByte,
    ComId,
    TperSession,
    HostSession,
    Tokens,
    ComPacket,
    Blocks,
    /// The words of a line that names a security protocol.
    Protocol,
    SpSpecific,
    SecurityBlocks,
    SecurityBytes,
    ResetKind,
    /// The tag of a slot, behind a verb of a port script.
    Slot,
    /// The words of a `put` line behind the name of its request.
    PutAddress,
    PutCount,
    PutByte,
    PutComId,
    PutTperSession,
    PutHostSession,
    PutTokens,
    PutComPacket,
    PutBlocks,
    PutProtocol,
    PutSpSpecific,
    PutSecurityBlocks,
    PutSecurityBytes,
}

impl Field {
    /// The largest number that the field holds; of hex text the most bytes.
    pub fn most(self) -> u64
        ensures { result ≡ most_of self }
    {
        match self {
            Field::ReadLockEnabled
            | Field::WriteLockEnabled
            | Field::ReadLocked
            | Field::WriteLocked
            | Field::ResetKind => 1,
            Field::Tag | Field::Slot => 31,
            Field::Range
            | Field::Byte
            | Field::DmaByte
            | Field::PutByte
            | Field::Protocol
            | Field::PutProtocol => u64::from(u8::MAX),
            Field::Count
            | Field::DmaCount
            | Field::ComId
            | Field::Blocks
            | Field::PutCount
            | Field::PutComId
            | Field::PutBlocks
            | Field::SpSpecific
            | Field::SecurityBlocks
            | Field::PutSpSpecific
            | Field::PutSecurityBlocks => u64::from(u16::MAX),
            Field::Client
            | Field::TperSession
            | Field::HostSession
            | Field::PutTperSession
            | Field::PutHostSession => u64::from(u32::MAX),
            Field::Address | Field::DmaAddress | Field::PutAddress => u64::MAX >> 16,
            Field::Start | Field::Length => u64::MAX,
            Field::Tokens | Field::PutTokens => MOST_CALL_BYTES as u64,
            Field::ComPacket
            | Field::PutComPacket
            | Field::SecurityBytes
            | Field::PutSecurityBytes => MOST_SEND_BYTES as u64,
        }
    }

    /// Which word of the line it is.
    fn place(self) -> u8 {
        match self {
            Field::Range | Field::Client | Field::Slot => 2,
            Field::Start
            | Field::Tag
            | Field::DmaAddress
            | Field::ComId
            | Field::Protocol
            | Field::ResetKind => 3,
            Field::Length
            | Field::Address
            | Field::DmaCount
            | Field::TperSession
            | Field::ComPacket
            | Field::Blocks
            | Field::SpSpecific => 4,
            Field::ReadLockEnabled
            | Field::Count
            | Field::DmaByte
            | Field::HostSession
            | Field::SecurityBlocks
            | Field::SecurityBytes
            | Field::PutAddress
            | Field::PutComId
            | Field::PutProtocol => 5,
            Field::WriteLockEnabled
            | Field::Byte
            | Field::Tokens
            | Field::PutCount
            | Field::PutTperSession
            | Field::PutComPacket
            | Field::PutBlocks
            | Field::PutSpSpecific => 6,
            Field::ReadLocked
            | Field::PutByte
            | Field::PutHostSession
            | Field::PutSecurityBlocks
            | Field::PutSecurityBytes => 7,
            Field::WriteLocked | Field::PutTokens => 8,
        }
    }

    /// What the word stands for, by its name.
    fn name(self) -> &'static str {
        match self {
            Field::Range => "the range N",
            Field::Start => "RangeStart",
            Field::Length => "RangeLength",
            Field::ReadLockEnabled => "ReadLockEnabled",
            Field::WriteLockEnabled => "WriteLockEnabled",
            Field::ReadLocked => "ReadLocked",
            Field::WriteLocked => "WriteLocked",
            Field::Client => "the client C",
            Field::Tag | Field::Slot => "the tag T",
            Field::Address | Field::DmaAddress | Field::PutAddress => "the first sector L",
            Field::Count | Field::DmaCount | Field::PutCount => "the count N",
            Field::Byte | Field::DmaByte | Field::PutByte => "the byte HH",
            Field::ComId | Field::PutComId => "the ComID",
            Field::TperSession | Field::PutTperSession => "the TPer session number TSN",
            Field::HostSession | Field::PutHostSession => "the host session number HSN",
            Field::Tokens | Field::PutTokens => "the tokens HEX",
            Field::ComPacket | Field::PutComPacket => "the ComPacket HEX",
            Field::Blocks | Field::PutBlocks | Field::SecurityBlocks | Field::PutSecurityBlocks =>
                "the count of blocks",
            Field::Protocol | Field::PutProtocol => "the protocol P",
            Field::SpSpecific | Field::PutSpSpecific => "the SP Specific field S",
            Field::SecurityBytes | Field::PutSecurityBytes => "the bytes HEX",
            Field::ResetKind => "the kind of reset K",
        }
    }
}

impl fmt::Display for Field {
    fn fmt<W: fmt::Write>(&self, f: &mut fmt::Formatter<W>) -> fmt::Result {
        write!(f, "word {}, {},", self.place(), self.name())
    }
}
