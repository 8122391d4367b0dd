//! The rules of a drive's queue (ACS-3, NCQ feature set; Opal SSC, Locking table), and the FISes of
//! its answers (Serial ATA, FISes to the host). What is expected was worked out by hand.

use arrayvec::ArrayVec;
use drive::{Accepted, Drive, DriveConfig, DriveError, RangeRow, SetError, Why};
use fis::{Fis, Tag};
use std::alloc::Global;

/// What is done to a drive, and what comes of it.
#[derive(Clone, Copy)]
enum Row {
    /// A queued read under a tag, from a sector on, of so many sectors.
    Read(u8, u16, u16, Told),
    /// A queued write.
    Write(u8, u16, u16, Told),
    /// Any FIS, with bytes AAh where it brings data.
    Fis(&'static [u8; 20], Told),
    /// A FIS, and the first bytes of the one that answers it; the others are 0.
    Answer(&'static [u8; 20], [u8; 4]),
    /// IDENTIFY DEVICE gives its words.
    Identity,
    /// The command under a tag is completed with data of one byte: its answer is so many bytes, all the same.
    Done(u8, u8, Data),
    /// The same, with the first bytes of each sector.
    Heads(u8, u8, Data),
    /// The command under a tag is completed with zeros, and told by two FISes.
    DoneBy(u8, &'static [u8; 28], &'static [u8; 8]),
    /// No command is held under a tag.
    Free(u8),
    /// How many bytes the command under a tag takes.
    Takes(u8, usize),
    /// How the queue has failed: tag, error, LBA, Device and Count.
    Failed(Option<u8>, u8, u64, u8, u16),
    NotFailed,
}

/// So many bytes, all the same.
type Data = (usize, u8);

/// How a command is answered.
#[derive(Clone, Copy)]
enum Told {
    /// It is held, or served.
    Served,
    Aborted,
    /// Its sectors are not all on the drive.
    Beyond,
    /// A range denies a read, or a write, of these sectors.
    ReadDenied(u64, u32, u8),
    WriteDenied(u64, u32, u8),
}

impl Told {
    /// Status, error and reason.
    fn words(self) -> (u8, u8, Option<Why>) {
        match self {
            Told::Served => (0x50, 0x00, None),
            Told::Aborted => (0x51, 0x04, None),
            Told::Beyond => (0x51, 0x10, None),
            Told::ReadDenied(lba, count, range) => {
                (0x51, 0x04, Some(Why::ReadLocked { lba, count, range }))
            }
            Told::WriteDenied(lba, count, range) => {
                (0x51, 0x04, Some(Why::WriteLocked { lba, count, range }))
            }
        }
    }
}

/// READ FPDMA QUEUED and WRITE FPDMA QUEUED.
const READ: u8 = 0x60;

const WRITE: u8 = 0x61;

/// IDENTIFY DEVICE, which is not queued.
const IDENTIFY: &[u8; 20] = &[
    0x27, 0x80, 0xec, 0, 0, 0, 0, 0, 0, 0, 0, 0, 0, 0, 0, 0, 0, 0, 0, 0,
];

/// A command that the drive does not know.
const UNKNOWN: &[u8; 20] = &[
    0x27, 0x80, 0x10, 0, 0, 0, 0, 0, 0, 0, 0, 0, 0, 0, 0, 0, 0, 0, 0, 0,
];

/// WRITE DMA EXT of sector 8.
const WRITE_DMA: &[u8; 20] = &[
    0x27, 0x80, 0x35, 0, 8, 0, 0, 0x40, 0, 0, 0, 0, 1, 0, 0, 0, 0, 0, 0, 0,
];

/// READ LOG EXT of page 10h.
const READ_LOG: &[u8; 20] = &[
    0x27, 0x80, 0x2f, 0, 0x10, 0, 0, 0, 0, 0, 0, 0, 1, 0, 0, 0, 0, 0, 0, 0,
];

/// A queued read of sector 5 under tag 7 whose Device bit 6 is clear.
const CLEAR_BIT: &[u8; 20] = &[
    0x27, 0x80, 0x60, 1, 5, 0, 0, 0, 0, 0, 0, 0, 0x38, 0, 0, 0, 0, 0, 0, 0,
];

/// A queued read of sector 5 with bit C clear, and one of another type.
const CONTROL: &[u8; 20] = &[
    0x27, 0x00, 0x60, 1, 5, 0, 0, 0x40, 0, 0, 0, 0, 0, 0, 0, 0, 0, 0, 0, 0,
];

const OTHER_TYPE: &[u8; 20] = &[
    0x34, 0x80, 0x60, 1, 5, 0, 0, 0x40, 0, 0, 0, 0, 0, 0, 0, 0, 0, 0, 0, 0,
];

/// A device's FIS, which carries no command and brings no data, though its Status is the code of WRITE DMA EXT.
const NO_WRITE: &[u8; 20] = &[
    0x34, 0x80, 0x35, 0, 8, 0, 0, 0x40, 0, 0, 0, 0, 1, 0, 0, 0, 0, 0, 0, 0,
];

/// Queued reads: of five sectors from 95 on under tag 5, of sector 100 under tag 3, and of sector 1,000 under tag 5.
const READ_95: &[u8; 20] = &[
    0x27, 0x80, 0x60, 5, 95, 0, 0, 0x40, 0, 0, 0, 0, 0x28, 0, 0, 0, 0, 0, 0, 0,
];

const READ_100: &[u8; 20] = &[
    0x27, 0x80, 0x60, 1, 100, 0, 0, 0x40, 0, 0, 0, 0, 0x18, 0, 0, 0, 0, 0, 0, 0,
];

const READ_1000: &[u8; 20] = &[
    0x27, 0x80, 0x60, 1, 0xe8, 0x03, 0, 0x40, 0, 0, 0, 0, 0x28, 0, 0, 0, 0, 0, 0, 0,
];

/// DMA Setup: bit D, the tag and the count of bytes. Set Device Bits: bit I, Status, and SActive. Of a read of five sectors
/// under tag 5, and of a write of a sector under tag 31.
const READ_SETUP: &[u8; 28] = &[
    0x41, 0x20, 0, 0, 5, 0, 0, 0, 0, 0, 0, 0, 0, 0, 0, 0, 0, 0, 0, 0, 0x00, 0x0a, 0, 0, 0, 0, 0, 0,
];

const READ_END: &[u8; 8] = &[0xa1, 0x40, 0x50, 0, 0x20, 0, 0, 0];

const WRITE_SETUP: &[u8; 28] = &[
    0x41, 0x00, 0, 0, 31, 0, 0, 0, 0, 0, 0, 0, 0, 0, 0, 0, 0, 0, 0, 0, 0x00, 0x02, 0, 0, 0, 0, 0, 0,
];

const WRITE_END: &[u8; 8] = &[0xa1, 0x40, 0x50, 0, 0, 0, 0, 0x80];

/// What a range denies, as the first command of a drive.
const FIRST: [Row; 19] = [
    // a range denies what it locks
    Row::Read(3, 100, 1, Told::ReadDenied(100, 1, 1)),
    Row::Write(3, 100, 1, Told::Served),
    Row::Read(5, 95, 6, Told::ReadDenied(95, 6, 1)),
    Row::Read(5, 95, 5, Told::Served),
    Row::Write(4, 205, 2, Told::WriteDenied(205, 2, 2)),
    Row::Read(4, 205, 2, Told::Served),
    // a lock counts with its own enable
    Row::Read(0, 220, 10, Told::Served),
    Row::Write(0, 220, 10, Told::Served),
    Row::Read(0, 250, 10, Told::Served),
    Row::Write(0, 250, 10, Told::Served),
    Row::Write(1, 230, 1, Told::Served),
    Row::Read(1, 230, 1, Told::ReadDenied(230, 1, 4)),
    // the least denied sector gives the reason
    Row::Read(2, 105, 10, Told::ReadDenied(105, 10, 1)),
    Row::Write(2, 105, 10, Told::WriteDenied(105, 10, 6)),
    // the addresses come before the policy; a count of 0 is 65,536 sectors
    Row::Read(5, 0, 0, Told::Beyond),
    Row::Read(5, 100, 901, Told::Beyond),
    Row::Read(5, 999, 1, Told::Served),
    Row::Read(5, 1000, 1, Told::Beyond),
    Row::Write(5, 1000, 1, Told::Beyond),
];

/// A failed queue drops what it held, and all that follows is aborted.
const DROPPED: [Row; 7] = [
    Row::Write(0, 5, 1, Told::Served),
    Row::Takes(0, 512),
    Row::Read(3, 100, 1, Told::ReadDenied(100, 1, 1)),
    Row::Takes(0, 0),
    Row::Free(0),
    Row::Read(2, 5, 1, Told::Aborted),
    // log page 10h tells of the denied read: 03 .. 04 64 00 00 40 .. 18 00
    Row::Failed(Some(3), 0x04, 0x64, 0x40, 0x18),
];

/// A command that is not queued, beside a held one, fails the queue.
const MIXED: [Row; 5] = [
    Row::Fis(IDENTIFY, Told::Served),
    Row::Write(0, 5, 1, Told::Served),
    Row::Fis(IDENTIFY, Told::Aborted),
    Row::Free(0),
    Row::Failed(None, 0x04, 0, 0, 0),
];

/// So does a write that is not queued, and it moves nothing.
const MIXED_WRITE: [Row; 7] = [
    Row::Read(3, 5, 1, Told::Served),
    Row::Fis(WRITE_DMA, Told::Aborted),
    Row::Free(3),
    Row::Failed(None, 0x04, 8, 0x40, 1),
    Row::Fis(READ_LOG, Told::Served),
    Row::Read(3, 8, 1, Told::Served),
    Row::Done(3, 0, (512, 0)),
];

/// A tag is free once its command is completed, and fails the queue while it is held.
const HELD_TAG: [Row; 7] = [
    Row::Write(3, 5, 1, Told::Served),
    Row::Done(3, 0, (0, 0)),
    Row::Read(3, 8, 1, Told::Served),
    Row::Read(31, 8, 1, Told::Served),
    Row::Read(3, 9, 2, Told::Aborted),
    Row::Free(31),
    Row::Failed(Some(3), 0x04, 9, 0x40, 0x18),
];

/// A queued command whose Device bit 6 is clear fails the queue.
const DEVICE_BIT: [Row; 3] = [
    Row::Fis(CLEAR_BIT, Told::Aborted),
    Row::Failed(Some(7), 0x04, 5, 0, 0x38),
    Row::Read(2, 5, 1, Told::Aborted),
];

/// What carries no command changes nothing.
const NO_COMMAND: [Row; 6] = [
    Row::Write(0, 5, 1, Told::Served),
    Row::Fis(CONTROL, Told::Aborted),
    Row::Fis(OTHER_TYPE, Told::Aborted),
    Row::Fis(NO_WRITE, Told::Aborted),
    Row::NotFailed,
    Row::Done(0, 0, (0, 0)),
];

/// The FIS of a command that is held, and of one that is denied.
const ANSWERS: [Row; 2] = [
    Row::Answer(READ_95, [0x34, 0x00, 0x50, 0x00]),
    Row::Answer(READ_100, [0x34, 0x40, 0x51, 0x04]),
];

/// Of one that is not known, and of one beyond the drive.
const ABORTS: [Row; 2] = [
    Row::Answer(UNKNOWN, [0x34, 0x40, 0x51, 0x04]),
    Row::Answer(READ_1000, [0x34, 0x40, 0x51, 0x10]),
];

/// The two FISes of a read, and of a write.
const ENDS: [Row; 4] = [
    Row::Read(5, 95, 5, Told::Served),
    Row::DoneBy(5, READ_SETUP, READ_END),
    Row::Write(31, 5, 1, Told::Served),
    Row::DoneBy(31, WRITE_SETUP, WRITE_END),
];

/// A queued write moves its data as it is completed, and a read gives the bytes of its completion.
const MOVED_LATE: [Row; 6] = [
    Row::Write(0, 5, 1, Told::Served),
    Row::Read(1, 5, 1, Told::Served),
    Row::Done(1, 0, (512, 0)),
    Row::Read(1, 5, 1, Told::Served),
    Row::Done(0, 0xaa, (0, 0)),
    Row::Done(1, 0, (512, 0xaa)),
];

/// A completion whose bytes are all the same, and which gives the first four of each sector.
const BY_HEADS: [Row; 6] = [
    Row::Write(0, 5, 2, Told::Served),
    Row::Heads(0, 0xbb, (0, 0)),
    Row::Read(1, 5, 2, Told::Served),
    Row::Heads(1, 0, (8, 0xbb)),
    Row::Read(1, 5, 2, Told::Served),
    Row::Done(1, 0, (1024, 0xbb)),
];

/// The lists, each for a drive on which nothing was done.
const LISTS: [&[Row]; 12] = [
    &DROPPED,
    &MIXED,
    &MIXED_WRITE,
    &HELD_TAG,
    &DEVICE_BIT,
    &NO_COMMAND,
    &ANSWERS,
    &ABORTS,
    &ENDS,
    &MOVED_LATE,
    &BY_HEADS,
    &[Row::Identity],
];

/// Ten sectors of a range with its two enables and its two locks.
fn range_row(range: u8, start: u64, enables: (bool, bool), locks: (bool, bool)) -> RangeRow {
    RangeRow {
        range,
        start,
        length: 10,
        read_enabled: enables.0,
        write_enabled: enables.1,
        read_locked: locks.0,
        write_locked: locks.1,
    }
}

/// A drive of 1,000 sectors. Range 1 denies reads, range 2 writes; range 3 has locks without their
/// enables, range 4 both locks with the enable of reads alone, range 5 enables without locks; range 6
/// denies both, behind range 1.
fn drive(alloc: Global) -> Result<Drive, SetError> {
    let rows = [
        range_row(1, 100, (true, false), (true, false)),
        range_row(2, 200, (false, true), (false, true)),
        range_row(3, 220, (false, false), (true, true)),
        range_row(4, 230, (true, false), (true, true)),
        range_row(5, 250, (true, true), (false, false)),
        range_row(6, 110, (true, true), (true, true)),
    ];
    let config = DriveConfig::new(1000, 8, b"OPALMSID").ok_or(SetError::WrongType)?;
    Drive::with_ranges(alloc, config, &rows)
}

/// The FIS of a queued command.
fn queued(code: u8, tag: u8, lba: u16, count: u16) -> [u8; 20] {
    let tags = 8 * Tag::low_bits(tag).number();
    let lba = lba.to_le_bytes();
    let count = count.to_le_bytes();
    [
        0x27, 0x80, code, count[0], lba[0], lba[1], 0, 0x40, 0, 0, 0, count[1], tags, 0, 0, 0, 0,
        0, 0, 0,
    ]
}

/// Whether a FIS is answered so, with bytes AAh where it brings data.
fn is_told(
    alloc: Global,
    drive: &mut Drive,
    fis: &[u8; 20],
    told: Told,
) -> Result<bool, DriveError> {
    let data = vec![in alloc; 0xaa; drive.payload_len(fis)]?;
    let accepted = drive.accept(fis, &data)?;
    Ok(is_answer(&accepted, told))
}

/// Whether an answer says so.
fn is_answer(accepted: &Accepted, told: Told) -> bool {
    let (status, error, denied) = told.words();
    accepted.status == status && accepted.error == error && accepted.denied == denied
}

/// Whether a FIS that brings no data is answered by one FIS that begins so, and no data.
fn is_answered(drive: &mut Drive, fis: &[u8; 20], front: [u8; 4]) -> Result<bool, DriveError> {
    if drive.payload_len(fis) != 0 {
        return Ok(false);
    }
    let accepted = drive.accept(fis, &[])?;
    let mut expected = [0; 20];
    expected[..4].copy_from_slice(&front);
    let fises = accepted.fises();
    let is_one = fises.len() == 1 && accepted.bytes.is_empty();
    Ok(is_one && is_fis(&fises, 0, &expected))
}

/// Whether the FIS at a place has these bytes.
fn is_fis(fises: &ArrayVec<Fis, 2>, place: usize, expected: &[u8]) -> bool {
    match fises.get(place) {
        Some(fis) => fis.to_bytes().as_slice() == expected,
        None => false,
    }
}

/// Whether bytes are so many, all the same.
fn are_bytes(bytes: &[u8], data: Data) -> bool {
    let (size, byte) = data;
    bytes.len() == size && bytes.iter().all(|it| *it == byte)
}

/// Whether the command under a tag, completed with data of one byte, gives so many bytes, all the same.
fn gives(
    alloc: Global,
    drive: &mut Drive,
    tag: u8,
    byte: u8,
    data: Data,
) -> Result<bool, DriveError> {
    let tag = Tag::low_bits(tag);
    let given = vec![in alloc; byte; drive.expects(tag)]?;
    let done = drive.complete(tag, &given)?;
    Ok(are_bytes(&done.bytes, data))
}

/// Whether it gives the first bytes of its sectors so.
fn gives_heads(drive: &mut Drive, tag: u8, byte: u8, data: Data) -> Result<bool, DriveError> {
    let done = drive.complete_with_heads(Tag::low_bits(tag), byte)?;
    Ok(are_bytes(&done.bytes, data))
}

/// Whether the command under a tag, completed with zeros, is told by these FISes.
fn is_done_by(
    alloc: Global,
    drive: &mut Drive,
    tag: u8,
    setup: &[u8; 28],
    end: &[u8; 8],
) -> Result<bool, DriveError> {
    let tag = Tag::low_bits(tag);
    let given = vec![in alloc; 0; drive.expects(tag)]?;
    let done = drive.complete(tag, &given)?;
    let fises = done.fises();
    let are_two = fises.len() == 2;
    Ok(are_two && is_fis(&fises, 0, setup) && is_fis(&fises, 1, end))
}

/// Whether no command is held under a tag.
fn is_free(drive: &mut Drive, tag: u8) -> bool {
    let tag = Tag::low_bits(tag);
    drive.expects(tag) == 0 && drive.complete(tag, &[]).err() == Some(DriveError::NotHeld)
}

/// Tag, error, LBA, Device and Count of the command that made the queue fail.
fn failure(drive: &Drive) -> Option<(Option<u8>, u8, u64, u8, u16)> {
    let failure = drive.failure()?;
    Some((
        failure.tag.map(|tag| tag.number()),
        failure.error,
        failure.lba.number(),
        failure.device,
        failure.count,
    ))
}

/// Whether IDENTIFY DEVICE of a drive of 1,000 sectors gives the words 48 (trusted computing), 75 and 76 (native command
/// queuing, 32 deep), 83, and 100 for the sectors, and all others 0.
fn is_identity(drive: &mut Drive) -> Result<bool, DriveError> {
    let mut expected = [0; 512];
    expected[96] = 0x01;
    expected[97] = 0x40;
    expected[150] = 0x1f;
    expected[153] = 0x01;
    expected[167] = 0x64;
    expected[200] = 0xe8;
    expected[201] = 0x03;
    if drive.payload_len(IDENTIFY) != 0 {
        return Ok(false);
    }
    let accepted = drive.accept(IDENTIFY, &[])?;
    Ok(accepted.bytes.as_slice() == expected.as_slice())
}

/// Does what a row says, and tells whether that came of it.
fn is_right(alloc: Global, drive: &mut Drive, row: Row) -> Result<bool, DriveError> {
    match row {
        Row::Read(tag, lba, count, told) => {
            is_told(alloc, drive, &queued(READ, tag, lba, count), told)
        }
        Row::Write(tag, lba, count, told) => {
            is_told(alloc, drive, &queued(WRITE, tag, lba, count), told)
        }
        Row::Fis(fis, told) => is_told(alloc, drive, fis, told),
        Row::Answer(fis, front) => is_answered(drive, fis, front),
        Row::Identity => is_identity(drive),
        Row::Done(tag, byte, data) => gives(alloc, drive, tag, byte, data),
        Row::Heads(tag, byte, data) => gives_heads(drive, tag, byte, data),
        Row::DoneBy(tag, setup, end) => is_done_by(alloc, drive, tag, setup, end),
        Row::Free(tag) => Ok(is_free(drive, tag)),
        Row::Takes(tag, size) => Ok(drive.expects(Tag::low_bits(tag)) == size),
        Row::Failed(tag, error, lba, device, count) => {
            Ok(failure(drive) == Some((tag, error, lba, device, count)))
        }
        Row::NotFailed => Ok(drive.failure().is_none()),
    }
}

/// Whether that came of each row of a list.
fn are_right(alloc: Global, drive: &mut Drive, rows: &[Row]) -> bool {
    let mut are = true;
    for row in rows {
        are &= is_right(alloc, drive, *row) == Ok(true);
    }
    are
}

/// Whether it does on a drive on which nothing was done.
fn are_right_first(alloc: Global, rows: &[Row]) -> bool {
    match drive(alloc) {
        Ok(mut drive) => are_right(alloc, &mut drive, rows),
        Err(_) => false,
    }
}

/// The first of the commands, each the first of a drive, that is answered otherwise; behind these, of the lists.
fn wrong_list(alloc: Global) -> Option<usize> {
    for at in 0..FIRST.len() {
        if !are_right_first(alloc, &[FIRST[at]]) {
            return Some(at);
        }
    }
    for at in 0..LISTS.len() {
        if !are_right_first(alloc, LISTS[at]) {
            return Some(FIRST.len() + at);
        }
    }
    None
}

/// What a drive denies first, and the rules of the queue.
#[test]
fn keeps_the_rules_of_the_queue(rt: HostRuntime) {
    let wrong = wrong_list(rt.alloc());
    assert!(rt; wrong.is_none(), "{wrong:?}");
}
