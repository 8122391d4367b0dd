//! Commands that the field profile reads beside those of each drive (ACS-3, the commands' tables of inputs).

use basics::Profile;
use fis::{Fis, RegH2d};
use trusted_cmds::*;

/// WRITE DMA of 256 sectors from ABCDEF0h: LBA 27:24 stands in Device 3:0, and a count of 0 is 256.
const WRITE_DMA: [u8; 20] = [
    0x27, 0x80, 0xca, 0, 0xf0, 0xde, 0xbc, 0x4a, 0, 0, 0, 0, 0, 0, 0, 0, 0, 0, 0, 0,
];

/// READ DMA of one sector, with fields that a transfer of 28 bits does not have.
const READ_DMA: [u8; 20] = [
    0x27, 0x80, 0xc8, 0xe0, 5, 0, 0, 0xe0, 9, 9, 9, 0, 1, 9, 0, 0, 0, 0, 0, 0,
];

/// SET FEATURES, of a transfer mode.
const SET_FEATURES: [u8; 20] = [
    0x27, 0x80, 0xef, 0x03, 0, 0, 0, 0xa0, 0, 0, 0, 0, 0x46, 0, 0, 0, 0, 0, 0, 0,
];

/// READ LOG DMA EXT of the page on security: address 30h, page 06h.
const SECURITY: [u8; 20] = [
    0x27, 0x80, 0x47, 1, 0x30, 0x06, 0, 0xa0, 0, 0, 0, 0, 1, 0, 0, 0, 0, 0, 0, 0,
];

/// The FIS from host to device that bytes are.
fn h2d(bytes: &[u8; 20]) -> Option<RegH2d> {
    match Fis::read(bytes.as_slice()) {
        Ok(Fis::H2d(fis)) => Some(fis),
        _ => None,
    }
}

/// Whether the field profile reads this command, which the base profile does not know.
fn is_added(bytes: &[u8; 20], command: Command, error: CommandError) -> bool {
    let Some(fis) = h2d(bytes) else {
        return false;
    };
    of_fis(Profile::Field, &fis) == Ok((command, None)) && of_fis(Profile::Base, &fis) == Err(error)
}

/// Whether the command carries 256 sectors in the field profile, and nothing in the base profile.
fn has_payload(bytes: &[u8; 20]) -> bool {
    let Some(fis) = h2d(bytes) else {
        return false;
    };
    payload_len(Profile::Field, &fis) == 131_072 && payload_len(Profile::Base, &fis) == 0
}

/// Addresses and counts of 28 bits.
fn are_short() -> bool {
    let write = Command::WriteDma {
        lba: 0xabc_def0,
        count: 256,
    };
    let read = Command::ReadDma { lba: 5, count: 1 };
    is_added(&WRITE_DMA, write, CommandError::Unknown)
        && is_added(&READ_DMA, read, CommandError::Unknown)
        && has_payload(&WRITE_DMA)
}

/// Commands that the base profile has in no spelling.
fn are_further() -> bool {
    let feature = Feature::TransferMode { mode: 0x46 };
    let security = LogPages::IdentifyData { first: 6, count: 1 };
    let log = Command::ReadLog {
        pages: security,
        dma: true,
    };
    is_added(
        &SET_FEATURES,
        Command::SetFeatures { feature },
        CommandError::Unknown,
    ) && is_added(&SECURITY, log, CommandError::LogPage)
}

#[test]
fn the_field_profile_reads_more(rt: HostRuntime) {
    let are = are_short() && are_further();
    assert!(rt; are);
}
