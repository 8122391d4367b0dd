//! The fields of a FIS, as the commands read them (ACS-3, the commands' tables of inputs).

ghost use Rattle.std.specs.Prelude.{◌≡◌, ◌<◌, ◌≤◌, ◌+◌, ◌*◌, ◌/◌, ◌%◌, ◌==◌, ◌&&◌};
ghost use Rattle.trusted_cmds.specs.Commands.{most_sectors, sectors, sectors_field, has_lba_bit, tag_of, protocol_of, sp_specific_of, blocks, names_error_log, error_log_address, short_lba, short_sectors};

use fis::{RegH2d, Tag};

/// How many sectors a command moves at most.
const MOST_SECTORS: u32 = 65_536;

/// The field Device of a command that wants its bit 6 set.
pub(crate) const LBA_DEVICE: u8 = 0x40;

/// The address of the NCQ Command Error log.
pub(crate) const ERROR_LOG_ADDRESS: u64 = 0x10;

/// How many sectors a count field stands for: 65,536 for 0.
pub fn sectors(field: u16) -> u32
    ensures value { result ≡ sectors field }
    ensures some { 0 < result }
    ensures most { result ≤ most_sectors }
{
    if field == 0 {
        MOST_SECTORS
    } else {
        u32::from(field)
    }
}

/// The count field of so many sectors.
pub(crate) fn sectors_field(count: u32) -> u16
    requires { count ≤ most_sectors }
    ensures { result ≡ sectors_field count }
{
    if count == MOST_SECTORS {
        0
    } else {
        count as u16
    }
}

/// Whether bit 6 of Device is set.
pub(crate) fn has_lba_bit(device: u8) -> bool
    ensures { result ≡ has_lba_bit device }
{
    device / LBA_DEVICE % 2 == 1
}

/// The tag of a queued command: bits 7 to 3 of Count.
pub fn tag_of(h: &RegH2d) -> Tag
    ensures { result ≡ tag_of h.now }
{
    Tag::low_bits((h.count >> 3 & 0x1f) as u8)
}

/// The protocol of a trusted command: Feature 7:0.
pub(crate) fn protocol_of(h: &RegH2d) -> u8
    ensures { result ≡ protocol_of h.now }
{
    (h.feature % 256) as u8
}

/// The SP Specific field of a trusted command: LBA 23:8.
pub(crate) fn sp_specific_of(h: &RegH2d) -> u16
    ensures { result ≡ sp_specific_of h.now }
{
    (h.lba.number() / 256 % 65_536) as u16
}

/// The blocks of a trusted command: their number has its low byte in Count 7:0, its high byte in LBA 7:0.
pub(crate) fn blocks(h: &RegH2d) -> u16
    ensures { result ≡ blocks h.now }
{
    h.count % 256 + 256 * (h.lba.number() % 256) as u16
}

/// Whether a read of a log names the NCQ Command Error log: address 10h in LBA 7:0, page number 0 in LBA 15:8 and
/// 39:32, one page.
pub(crate) fn names_error_log(h: &RegH2d) -> bool
    ensures { result ≡ names_error_log h.now }
{
    let lba = h.lba.number();
    lba % 256 == ERROR_LOG_ADDRESS
        && lba / 256 % 256 == 0
        && lba / 0x1_0000_0000 % 256 == 0
        && h.count == 1
}

/// The first sector of a transfer of 28 bits: LBA 23:0, and LBA 27:24 in Device 3:0.
pub(crate) fn short_lba(h: &RegH2d) -> u64
    ensures { result ≡ short_lba h.now }
{
    h.lba.number() % 0x100_0000 + 0x100_0000 * u64::from(h.device % 16)
}

/// The sectors of a transfer of 28 bits: Count 7:0, and 256 for 0.
pub(crate) fn short_sectors(h: &RegH2d) -> u32
    ensures value { result ≡ short_sectors h.now }
    ensures some { 0 < result }
    ensures most { result ≤ 256 }
{
    match h.count % 256 {
        0 => 256,
        count => u32::from(count),
    }
}
