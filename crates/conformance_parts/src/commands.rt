//! ATA commands in their FISes (ACS-3, the commands' tables of inputs).

ghost use Rattle.std.specs.Prelude.{◌<◌, ◌^◌, IfSome};
ghost use Rattle.trusted_cmds.specs.Commands.{lba_of, IsCounted};

use basics::Profile;
use fis::{Lba, RegH2d, Tag};
use trusted_cmds::*;

/// READ FPDMA QUEUED of 8 sectors from 123456h under tag 5.
const READ_QUEUED: [u8; 20] = [
    0x27, 0x80, 0x60, 0x08, 0x56, 0x34, 0x12, 0x40, 0, 0, 0, 0, 0x28, 0, 0, 0, 0, 0, 0, 0,
];

/// WRITE FPDMA QUEUED of 65,536 sectors up to the last address, under the last tag.
const WRITE_QUEUED: [u8; 20] = [
    0x27, 0x80, 0x61, 0, 0xff, 0xff, 0xff, 0x40, 0xff, 0xff, 0xff, 0, 0xf8, 0, 0, 0, 0, 0, 0, 0,
];

/// READ FPDMA QUEUED of 0807h sectors from 060504030201h under tag 21.
const READ_BY_BYTES: [u8; 20] = [
    0x27, 0x80, 0x60, 0x07, 0x01, 0x02, 0x03, 0x40, 0x04, 0x05, 0x06, 0x08, 0xa8, 0, 0, 0, 0, 0, 0,
    0,
];

/// WRITE DMA EXT of 0807h sectors from there.
const WRITE_BY_BYTES: [u8; 20] = [
    0x27, 0x80, 0x35, 0, 0x01, 0x02, 0x03, 0x40, 0x04, 0x05, 0x06, 0, 0x07, 0x08, 0, 0, 0, 0, 0, 0,
];

/// TRUSTED RECEIVE of 0304h blocks by the protocol EEh from what F0F1h names.
const RECEIVE: [u8; 20] = [
    0x27, 0x80, 0x5c, 0xee, 0x03, 0xf1, 0xf0, 0, 0, 0, 0, 0, 0x04, 0, 0, 0, 0, 0, 0, 0,
];

/// READ DMA EXT has its sectors in Count, and no tag.
const READ_DMA: [u8; 20] = [
    0x27, 0x80, 0x25, 0, 0x56, 0x34, 0x12, 0x40, 0, 0, 0, 0, 8, 0, 0, 0, 0, 0, 0, 0,
];

/// TRUSTED SEND DMA: protocol in Feature, the ComID in LBA 23:8, the number of blocks in Count 7:0 and LBA 7:0.
const SEND_DMA: [u8; 20] = [
    0x27, 0x80, 0x5f, 1, 0x01, 0xfe, 0x07, 0, 0, 0, 0, 0, 0x02, 0, 0, 0, 0, 0, 0, 0,
];

/// READ LOG EXT of the NCQ Command Error log: address 10h, page 0, one page.
const READ_LOG: [u8; 20] = [
    0x27, 0x80, 0x2f, 0, 0x10, 0, 0, 0, 0, 0, 0, 0, 1, 0, 0, 0, 0, 0, 0, 0,
];

/// Whether a command has this FIS under a tag, is read back from it, with the tag where it is queued, and brings so many
/// bytes.
fn is_spelled(command: Command, tag: u8, queued: bool, bytes: &[u8; 20], payload: usize) -> bool
    requires address { IfSome (lba_of command) (λ lba. lba < 2 ^ 48) }
    requires counted { IsCounted command }
{
    let tag = Tag::low_bits(tag);
    let told = if queued { Some(tag) } else { None };
    let fis = to_fis(&command, tag);
    fis.to_bytes() == *bytes
        && of_fis(Profile::Base, &fis) == Ok((command, told))
        && payload_len(Profile::Base, &fis) == payload
}

/// A count field of 0 is 65,536 sectors, both ways.
fn are_queued() -> bool {
    let read = Command::ReadQueued {
        lba: 0x12_3456,
        count: 8,
    };
    let write = Command::WriteQueued {
        lba: 0xffff_ffff_ffff,
        count: 65_536,
    };
    is_spelled(read, 5, true, &READ_QUEUED, 0) && is_spelled(write, 31, true, &WRITE_QUEUED, 0)
}

fn are_unqueued() -> bool {
    let read = Command::ReadDma {
        lba: 0x12_3456,
        count: 8,
    };
    let send = Command::Send {
        protocol: 1,
        sp_specific: 0x07fe,
        blocks: 0x0102,
        dma: true,
    };
    let log = Command::ReadLog10 { dma: false };
    is_spelled(read, 5, false, &READ_DMA, 0)
        && is_spelled(send, 0, false, &SEND_DMA, 0x0102 * 512)
        && is_spelled(log, 0, false, &READ_LOG, 0)
}

/// Fields with a value of its own in each byte.
fn are_by_bytes() -> bool {
    let read = Command::ReadQueued {
        lba: 0x0605_0403_0201,
        count: 0x0807,
    };
    let write = Command::WriteDma {
        lba: 0x0605_0403_0201,
        count: 0x0807,
    };
    let receive = Command::Receive {
        protocol: 0xee,
        sp_specific: 0xf0f1,
        blocks: 0x0304,
        dma: false,
    };
    is_spelled(read, 21, true, &READ_BY_BYTES, 0)
        && is_spelled(write, 5, false, &WRITE_BY_BYTES, 0x0807 * 512)
        && is_spelled(receive, 0, false, &RECEIVE, 0)
}

/// The code of each command that has no fields of its own, or that receives.
fn are_codes() -> bool {
    let tag = Tag::low_bits(0);
    let receive = Command::Receive {
        protocol: 0,
        sp_specific: 1,
        blocks: 1,
        dma: false,
    };
    to_fis(&receive, tag).command == 0x5c
        && to_fis(&Command::Identify, tag).command == 0xec
        && to_fis(&Command::Flush, tag).command == 0xea
}

/// Another page of the log than page 0 there is none of.
fn is_no_page() -> bool {
    let Some(lba) = Lba::new(0x01_0000_0010) else {
        return false;
    };
    let log = to_fis(&Command::ReadLog10 { dma: false }, Tag::low_bits(0));
    of_fis(Profile::Base, &RegH2d { lba, ..log }) == Err(CommandError::LogPage)
}

/// Whether a count field of 0 is 65,536 sectors.
fn are_counted() -> bool {
    sectors(0) == 65_536 && sectors(1) == 1 && sectors(0xffff) == 65_535
}

#[test]
fn commands_have_their_fis(rt: HostRuntime) {
    let are_spelled = are_queued() && are_unqueued() && are_by_bytes() && are_codes();
    assert!(rt; are_spelled && is_no_page() && are_counted());
}
