//! Lists of steps on a port, by `play` and by `turn` (AHCI 1.3.1, 5.5 and 6.2; ACS-3, NCQ feature set). What is expected
//! was worked out by hand. What scripts of a port can say stands in `worked/`.

use audit::line_bytes;
use basics::Bytes;
use compacket::{Session, frame};
use drive::{Drive, DriveConfig, RangeRow, ResetKind, SetError};
use fis::Tag;
use port::{Answer, Port, PortError, ReplyBytes, Request, Step};
use std::alloc::{AllocError, Global};
use std::slice;

/// The ComID of a send and of a receive.
const COM_ID: u16 = 4096;

/// What a client asks of the drive: transfers of one sector, a write of one byte.
#[derive(Clone, Copy)]
enum Ask {
    Read(u64),
    Write(u64, u8),
    Send(Session, &'static [u8]),
    Receive,
    /// TPER_RESET: one block of zeros to the ComID 0004h of protocol 02h.
    TperReset,
}

/// A step: of a put the client and the tag, of the others the tag.
#[derive(Clone, Copy)]
enum Row {
    Put(u32, u8, Ask),
    Issue(u8),
    Accept(u8),
    Complete(u8),
    Recover,
    Reset(ResetKind),
    Take(u32, u8),
}

/// A send of tokens in a session, in one block; of no bytes, which no port takes, where there are too few or too many.
fn send(alloc: Global, session: Session, tokens: &[u8]) -> Result<Request, AllocError> {
    let mut bytes = Vec::new(alloc);
    if !tokens.is_empty() && tokens.len() <= 400 {
        bytes = frame(alloc, COM_ID, session, tokens)?;
        bytes.resize(512, 0)?;
    }
    Ok(Request::Send {
        protocol: 1,
        com_id: COM_ID,
        bytes: Bytes::from_vec(bytes),
    })
}

/// The request that is asked.
fn request(alloc: Global, ask: Ask) -> Result<Request, AllocError> {
    match ask {
        Ask::Read(lba) => Ok(Request::Read { lba, count: 1 }),
        Ask::Write(lba, byte) => {
            let bytes = Bytes::from_vec(vec![in alloc; byte; 512]?);
            Ok(Request::Write { lba, bytes })
        }
        Ask::Send(session, tokens) => send(alloc, session, tokens),
        Ask::Receive => Ok(Request::Receive {
            protocol: 1,
            com_id: COM_ID,
            blocks: 1,
        }),
        Ask::TperReset => {
            let bytes = Bytes::from_vec(vec![in alloc; 0; 512]?);
            Ok(Request::Send {
                protocol: 2,
                com_id: 4,
                bytes,
            })
        }
    }
}

/// The step of a row.
fn step(alloc: Global, row: Row) -> Result<Step, AllocError> {
    match row {
        Row::Put(client, tag, ask) => {
            let request = request(alloc, ask)?;
            let tag = Tag::low_bits(tag);
            Ok(Step::Put {
                client,
                tag,
                request,
            })
        }
        Row::Issue(tag) => Ok(Step::Issue {
            tag: Tag::low_bits(tag),
        }),
        Row::Accept(tag) => Ok(Step::Accept {
            tag: Tag::low_bits(tag),
        }),
        Row::Complete(tag) => Ok(Step::Complete {
            tag: Tag::low_bits(tag),
        }),
        Row::Recover => Ok(Step::Recover),
        Row::Reset(kind) => Ok(Step::Reset { client: 1, kind }),
        Row::Take(client, tag) => Ok(Step::Take {
            client,
            tag: Tag::low_bits(tag),
        }),
    }
}

/// What a list has for a step: one that is played, or a choice among those that are ready, and the one that it is.
#[derive(Clone, Copy)]
enum Next {
    Play(Row),
    Turn(usize, Row),
}

/// What a step replies.
#[derive(Clone, Copy)]
enum Reply {
    Failed(u8, u8),
    Reset,
    /// It is done with no bytes.
    Nothing,
    /// It is done with a sector of zeros.
    Zeros,
    /// It is done with a block that has these tokens.
    Tokens(&'static [u8]),
}

/// A list of steps on a port over a drive of 1,000 sectors with some ranges; some of their replies by the numbers of the
/// steps, and the audit log.
#[derive(Clone, Copy)]
struct List {
    ranges: &'static [RangeRow],
    next: &'static [Next],
    replies: &'static [(usize, Reply)],
    audit: &'static [&'static str],
}

/// The first of two ranges locks reads.
const TWO_RANGES: [RangeRow; 2] = [
    RangeRow {
        range: 1,
        start: 100,
        length: 10,
        read_enabled: true,
        write_enabled: false,
        read_locked: true,
        write_locked: false,
    },
    RangeRow {
        range: 2,
        start: 200,
        length: 10,
        read_enabled: true,
        write_enabled: false,
        read_locked: false,
        write_locked: false,
    },
];

/// A range that is not locked.
const ONE_RANGE: [RangeRow; 1] = [RangeRow {
    range: 1,
    start: 100,
    length: 10,
    read_enabled: true,
    write_enabled: true,
    read_locked: false,
    write_locked: false,
}];

/// The session manager.
const MANAGER: Session = Session { tsn: 0, hsn: 0 };

/// The first session, as its host numbered it.
const FIRST: Session = Session {
    tsn: 0x1000,
    hsn: 7,
};

/// StartSession to the Locking SP by Admin1 with the MSID.
const START: &[u8] =
    b"\xf8\xa8\x00\x00\x00\x00\x00\x00\x00\xff\xa8\x00\x00\x00\x00\x00\x00\xff\x02\xf0\x07\
    \xa8\x00\x00\x02\x05\x00\x00\x00\x02\x01\xf2\x00\xa8OPALMSID\xf3\xf2\x03\xa8\x00\x00\x00\x09\x00\x01\x00\x01\xf3\xf1\
    \xf9\xf0\x00\x00\x00\xf1";

/// Set of ReadLocked of range 2.
const LOCK: &[u8] =
    b"\xf8\xa8\x00\x00\x08\x02\x00\x03\x00\x02\xa8\x00\x00\x00\x06\x00\x00\x00\x17\xf0\xf2\x01\xf0\
    \xf2\x07\x01\xf3\xf1\xf3\xf1\xf9\xf0\x00\x00\x00\xf1";

/// SyncSession: the first number of a session is 1000h.
const SYNC: &[u8] =
    b"\xf8\xa8\x00\x00\x00\x00\x00\x00\x00\xff\xa8\x00\x00\x00\x00\x00\x00\xff\x03\xf0\x07\x82\x10\x00\xf1\
    \xf9\xf0\x00\x00\x00\xf1";

/// A denied read fails the port; after the recovery another client locks a range, and the read that was accepted before
/// is issued again and denied.
const DENIED_STEPS: [Next; 24] = [
    Next::Play(Row::Put(1, 3, Ask::Read(100))),
    Next::Play(Row::Put(1, 5, Ask::Read(200))),
    // Issue 3 and 5; then Issue 3 and Accept 5; then Accept 3 and 5; then Accept 3 and Complete 5
    Next::Turn(1, Row::Issue(5)),
    Next::Turn(0, Row::Issue(3)),
    Next::Turn(1, Row::Accept(5)),
    Next::Turn(0, Row::Accept(3)),
    // Recover alone
    Next::Turn(9, Row::Recover),
    Next::Play(Row::Put(2, 0, Ask::Send(MANAGER, START))),
    // Issue 0 and 5; then Accept 0 alone, since no queued command goes beside it
    Next::Turn(0, Row::Issue(0)),
    Next::Turn(3, Row::Accept(0)),
    Next::Play(Row::Put(2, 1, Ask::Receive)),
    Next::Turn(0, Row::Issue(1)),
    Next::Turn(0, Row::Accept(1)),
    Next::Play(Row::Put(2, 2, Ask::Send(FIRST, LOCK))),
    Next::Turn(0, Row::Issue(2)),
    Next::Turn(0, Row::Accept(2)),
    // Issue 5, Accept 5, Recover, each alone
    Next::Turn(0, Row::Issue(5)),
    Next::Turn(1, Row::Accept(5)),
    Next::Turn(2, Row::Recover),
    Next::Play(Row::Take(1, 3)),
    Next::Play(Row::Take(1, 5)),
    Next::Play(Row::Take(2, 0)),
    Next::Play(Row::Take(2, 1)),
    Next::Play(Row::Take(2, 2)),
];

const DENIED: List = List {
    ranges: &TWO_RANGES,
    next: &DENIED_STEPS,
    replies: &[
        (20, Reply::Failed(0x51, 0x04)),
        (21, Reply::Failed(0x51, 0x04)),
        (22, Reply::Nothing),
        (23, Reply::Tokens(SYNC)),
        (24, Reply::Nothing),
    ],
    audit: &[
        "6 1 deny read 100+1 range 1 ReadLocked",
        "18 1 deny read 200+1 range 2 ReadLocked",
    ],
};

/// A block that is no frame.
const NO_FRAME: &[u8] = b"\x00";

/// What is not queued waits for all that is.
const HELD_STEPS: [Next; 10] = [
    Next::Play(Row::Put(1, 0, Ask::Read(100))),
    Next::Play(Row::Put(1, 1, Ask::Read(101))),
    // Issue 0 and 1; then Issue 1 and Accept 0; then Issue 1 and Complete 0; then Accept 1 and Complete 0
    Next::Turn(0, Row::Issue(0)),
    Next::Turn(1, Row::Accept(0)),
    Next::Turn(0, Row::Issue(1)),
    Next::Turn(0, Row::Accept(1)),
    Next::Play(Row::Put(2, 2, Ask::Send(MANAGER, NO_FRAME))),
    // Complete 0 and 1; then Complete 1 alone; then Issue 2 alone
    Next::Turn(2, Row::Complete(0)),
    Next::Turn(0, Row::Complete(1)),
    Next::Turn(0, Row::Issue(2)),
];

const HELD: List = List {
    ranges: &[],
    next: &HELD_STEPS,
    replies: &[],
    audit: &[],
};

/// StartSession to the Admin SP by SID with the MSID.
const START_SID: &[u8] =
    b"\xf8\xa8\x00\x00\x00\x00\x00\x00\x00\xff\xa8\x00\x00\x00\x00\x00\x00\xff\x02\xf0\x07\
    \xa8\x00\x00\x02\x05\x00\x00\x00\x01\x01\xf2\x00\xa8OPALMSID\xf3\xf2\x03\xa8\x00\x00\x00\x09\x00\x00\x00\x06\xf3\xf1\
    \xf9\xf0\x00\x00\x00\xf1";

/// Set of ProgrammaticResetEnable.
const LET_RESET: &[u8] =
    b"\xf8\xa8\x00\x00\x02\x01\x00\x03\x00\x01\xa8\x00\x00\x00\x06\x00\x00\x00\x17\xf0\xf2\x01\xf0\
    \xf2\x08\x01\xf3\xf1\xf3\xf1\xf9\xf0\x00\x00\x00\xf1";

/// A reset that a command makes leaves a read that is prepared, which is then served.
const RESET_STEPS: [Next; 19] = [
    Next::Play(Row::Put(2, 0, Ask::Send(MANAGER, START_SID))),
    Next::Play(Row::Issue(0)),
    Next::Play(Row::Accept(0)),
    Next::Play(Row::Put(2, 1, Ask::Receive)),
    Next::Play(Row::Issue(1)),
    Next::Play(Row::Accept(1)),
    Next::Play(Row::Put(2, 2, Ask::Send(FIRST, LET_RESET))),
    Next::Play(Row::Issue(2)),
    Next::Play(Row::Accept(2)),
    Next::Play(Row::Put(1, 5, Ask::Read(200))),
    Next::Play(Row::Put(2, 3, Ask::TperReset)),
    Next::Play(Row::Issue(3)),
    Next::Play(Row::Accept(3)),
    Next::Play(Row::Take(2, 3)),
    Next::Play(Row::Issue(5)),
    Next::Play(Row::Accept(5)),
    Next::Play(Row::Complete(5)),
    Next::Play(Row::Take(1, 5)),
    Next::Play(Row::Take(2, 2)),
];

/// The reset and the Set are done with no bytes, and the read gives a sector.
const RESET_BY_COMMAND: List = List {
    ranges: &TWO_RANGES,
    next: &RESET_STEPS,
    replies: &[
        (14, Reply::Nothing),
        (18, Reply::Zeros),
        (19, Reply::Nothing),
    ],
    audit: &[],
};

/// A write that a reset stops moves nothing; a power cycle sets the locks of a range.
const STOPPED_STEPS: [Next; 14] = [
    Next::Play(Row::Put(1, 0, Ask::Write(100, 0xaa))),
    Next::Turn(0, Row::Issue(0)),
    Next::Turn(7, Row::Accept(0)),
    Next::Play(Row::Reset(ResetKind::Hardware)),
    Next::Play(Row::Take(1, 0)),
    Next::Play(Row::Put(1, 0, Ask::Read(100))),
    Next::Turn(0, Row::Issue(0)),
    Next::Turn(0, Row::Accept(0)),
    Next::Turn(0, Row::Complete(0)),
    Next::Play(Row::Take(1, 0)),
    Next::Play(Row::Reset(ResetKind::Power)),
    Next::Play(Row::Put(1, 0, Ask::Read(100))),
    Next::Turn(0, Row::Issue(0)),
    Next::Turn(0, Row::Accept(0)),
];

const STOPPED_WRITE: List = List {
    ranges: &ONE_RANGE,
    next: &STOPPED_STEPS,
    replies: &[(5, Reply::Reset), (10, Reply::Zeros)],
    audit: &["14 1 deny read 100+1 range 1 ReadLocked"],
};

/// A drive of 1,000 sectors with these ranges.
fn drive(alloc: Global, rows: &[RangeRow]) -> Result<Drive, SetError> {
    let config = DriveConfig::new(1000, 8, b"OPALMSID").ok_or(SetError::WrongType)?;
    Drive::with_ranges(alloc, config, rows)
}

/// A port over it.
fn port(alloc: Global, rows: &[RangeRow]) -> Result<Port, PortError> {
    match drive(alloc, rows) {
        Ok(drive) => Port::new(alloc, drive),
        Err(_) => Err(PortError::OutOfMemory),
    }
}

/// Whether a step is played.
fn plays(port: &mut Port, step: &Step) -> bool {
    port.play(slice::from_ref(step)).is_ok()
}

/// Whether there is a step to choose, and it is done.
fn turns(port: &mut Port, choice: usize) -> bool {
    matches!(port.turn(choice), Ok(Some(_)))
}

/// Whether the last step of a history is this one.
fn is_last(port: &Port, step: &Step) -> bool {
    let history = port.history();
    match history.get(history.len().saturating_sub(1)) {
        Some(entry) => entry.step.matches(step),
        None => false,
    }
}

/// Does what a list has for a step, and tells whether the step that it should be was done.
fn goes(alloc: Global, port: &mut Port, next: Next) -> Result<bool, AllocError> {
    match next {
        Next::Play(row) => {
            let step = step(alloc, row)?;
            Ok(plays(port, &step) && is_last(port, &step))
        }
        Next::Turn(choice, row) => {
            let step = step(alloc, row)?;
            Ok(turns(port, choice) && is_last(port, &step))
        }
    }
}

/// Whether all steps of a list are done, and no other.
fn go(alloc: Global, port: &mut Port, list: &[Next]) -> bool {
    let mut are_done = true;
    for next in list {
        are_done &= goes(alloc, port, *next) == Ok(true);
    }
    are_done && port.history().len() == list.len()
}

/// Whether the audit log of a port has these lines.
fn has_told(alloc: Global, port: &Port, texts: &[&str]) -> Result<bool, AllocError> {
    let lines = port.audit();
    let mut has = lines.len() == texts.len();
    for (line, text) in lines.iter().zip(texts) {
        has &= line_bytes(alloc, line)?.as_slice() == text.as_bytes();
    }
    Ok(has)
}

/// Whether an answer is this one.
fn is_reply(answer: &Answer, reply: Reply) -> bool {
    match (answer, reply) {
        (Answer::Failed { status, error }, Reply::Failed(told, why)) => {
            *status == told && *error == why
        }
        (Answer::Reset, Reply::Reset) => true,
        (Answer::Done(bytes), Reply::Nothing) => bytes.as_slice().is_empty(),
        (Answer::Done(bytes), Reply::Zeros) => bytes.as_slice() == [0; 512].as_slice(),
        (Answer::Done(bytes), Reply::Tokens(tokens)) => {
            bytes.as_slice().len() == 512 && bytes.as_slice()[56..].starts_with(tokens)
        }
        _ => false,
    }
}

/// Whether a port has these replies.
fn has_replied(port: &Port, replies: &[(usize, Reply)]) -> bool {
    let mut has = true;
    for (number, reply) in replies {
        has &= match port.history().get(number.saturating_sub(1)) {
            Some(entry) => is_reply(entry.reply, *reply),
            None => false,
        };
    }
    has
}

/// Whether a port that does a list comes to what the list says.
fn comes_to(alloc: Global, port: &mut Port, list: &List) -> bool {
    let has_done = go(alloc, port, list.next);
    has_done && has_replied(port, list.replies) && has_told(alloc, port, list.audit) == Ok(true)
}

/// Whether a new port does.
fn is_right(alloc: Global, list: &List) -> bool {
    match port(alloc, list.ranges) {
        Ok(mut port) => comes_to(alloc, &mut port, list),
        Err(_) => false,
    }
}

/// The first of the lists that does not come to what it says.
fn wrong_list(alloc: Global) -> Option<usize> {
    let lists = [DENIED, HELD, RESET_BY_COMMAND, STOPPED_WRITE];
    for at in 0..lists.len() {
        if !is_right(alloc, &lists[at]) {
            return Some(at);
        }
    }
    None
}

#[test]
fn lists_of_steps(rt: HostRuntime) {
    let wrong = wrong_list(rt.alloc());
    assert!(rt; wrong.is_none(), "{wrong:?}");
}

/// Whether bytes come back from a reply that was made of a vector of them, and it is that which is made of the bytes.
fn gives_back(alloc: Global, bytes: &[u8]) -> Result<bool, AllocError> {
    let made = ReplyBytes::from_vec(alloc, bytes.to_vec(alloc)?)?;
    let is_same = made == ReplyBytes::new(alloc, bytes)?;
    let back = made.into_vec(alloc)?;
    Ok(is_same && back.as_slice() == bytes)
}

/// Whether the text of an answer is this.
fn is_printed(alloc: Global) -> Result<bool, AllocError> {
    let done = Answer::Done(ReplyBytes::new(alloc, &[1, 2])?);
    let text = format!(in alloc; "{done:?}")?;
    Ok(text.as_str() == "Done([1, 2])")
}

#[test]
fn bytes_of_a_reply(rt: HostRuntime) {
    let zeros = gives_back(rt.alloc(), &[0; 512]) == Ok(true);
    let others = gives_back(rt.alloc(), &[0xaa; 512]) == Ok(true);
    assert!(rt; zeros && others && is_printed(rt.alloc()) == Ok(true));
}
