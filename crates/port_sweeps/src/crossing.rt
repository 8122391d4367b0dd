//! Commands of two clients that are under way at once, of which two cross: each is held back until the other has come so
//! far. What both are told, and the same steps on a port that one caller has.

use crate::locked::{LOCKED, Logs};
use crate::ports::{are_same, port_with};
use basics::Bytes;
use fis::Tag;
use locked_port::{Gate, LockedPort, Pass, Pick, PortName, Receipt, Ticket, check_receipts};
use port::{Answer, EngineStep, Entries, Port, PortError, Request, Step};
use std::alloc::{AllocError, Global};
use std::sync::Wait;
use std::sync::atomic::{AtomicBool, Ordering};
use std::thread::{Threads, join};

/// How many bytes a sector has.
const BLOCK: usize = 512;

/// The turns of an engine.
const TURNS: u64 = 10_000;

/// What a client asks: to read so many sectors from one on, or to write one byte over a sector.
#[derive(Clone, Copy)]
enum Ask {
    Read(u64, u32),
    Write(u64, u8),
}

/// What both clients ask at a time, and whether their commands are to cross: each writes its sector; then the first one
/// reads its own while the second one writes its own again; then each reads its own; then the first one reads into the
/// locked range, which fails while the other's command is out.
const PHASES: [(Ask, Ask, bool); 4] = [
    (Ask::Write(300, 0x11), Ask::Write(200, 0x22), false),
    (Ask::Read(300, 1), Ask::Write(200, 0xaa), true),
    (Ask::Read(300, 1), Ask::Read(200, 1), false),
    (Ask::Read(95, 6), Ask::Read(200, 1), false),
];

/// How a command is answered.
#[derive(Clone, Copy)]
enum Reply {
    Nothing,
    Sector(u8),
    /// It failed: DRDY, DF and ERR, and ABRT.
    Denied,
}

/// What the first client is answered, and the second.
const FIRST: [Reply; 4] = [
    Reply::Nothing,
    Reply::Sector(0x11),
    Reply::Sector(0x11),
    Reply::Denied,
];

const SECOND: [Reply; 4] = [
    Reply::Nothing,
    Reply::Nothing,
    Reply::Sector(0xaa),
    Reply::Sector(0xaa),
];

/// The request that is asked.
fn request_of(alloc: Global, ask: Ask) -> Result<Request, AllocError> {
    match ask {
        Ask::Read(lba, count) => Ok(Request::Read { lba, count }),
        Ask::Write(lba, byte) => {
            let bytes = Bytes::from_vec(Vec::from_elem(alloc, byte, BLOCK)?);
            Ok(Request::Write { lba, bytes })
        }
    }
}

/// Picks the first step that it does not hold, and stops where nothing is ready. It holds the end of a write until the drive
/// is given a read, and the end of the read until the write has ended, where these are to cross.
#[derive(Drop)]
struct Order {
    read: Tag,
    write: Tag,
    has_given_read: AtomicBool,
    has_ended_write: AtomicBool,
}

impl Order {
    fn new(read: &Ticket, write: &Ticket, cross: bool) -> Order {
        Order {
            read: read.tag,
            write: write.tag,
            has_given_read: AtomicBool::new(!cross),
            has_ended_write: AtomicBool::new(!cross),
        }
    }

    /// Holds nothing from now on.
    fn open(&self) {
        self.has_given_read.store(true, Ordering::SeqCst);
        self.has_ended_write.store(true, Ordering::SeqCst);
    }

    fn holds(&self, step: &EngineStep) -> bool {
        match *step {
            EngineStep::Complete { tag } if tag == self.write => {
                !self.has_given_read.load(Ordering::SeqCst)
            }
            EngineStep::Complete { tag } if tag == self.read => {
                !self.has_ended_write.load(Ordering::SeqCst)
            }
            _ => false,
        }
    }

    /// Notes that a step is picked.
    fn note(&self, step: &EngineStep) {
        match *step {
            EngineStep::Accept { tag } if tag == self.read => {
                self.has_given_read.store(true, Ordering::SeqCst);
            }
            EngineStep::Complete { tag } if tag == self.write => {
                self.has_ended_write.store(true, Ordering::SeqCst);
            }
            _ => {}
        }
    }
}

impl Gate for Order {
    fn pick(&self, ready: &[EngineStep]) -> Pick {
        if ready.is_empty() {
            return Pick::Stop;
        }
        for at in 0..ready.len() {
            if !self.holds(&ready[at]) {
                self.note(&ready[at]);
                return Pick::Do(at);
            }
        }
        Pick::Hold
    }
}

/// Puts what a client asks, with a receipt of it.
fn put<L: PortName, R: Wait>(
    rt: &R,
    alloc: Global,
    port: &LockedPort<L>,
    pass: &mut Pass<L>,
    log: &mut Vec<Receipt>,
    ask: Ask,
) -> Result<Ticket, PortError> {
    let request = request_of(alloc, ask)?;
    log.reserve(1)?;
    let ticket = port.submit(rt, pass, &request)?;
    log.push_reserved(Receipt {
        number: ticket.number,
        step: Step::Put {
            client: ticket.client,
            tag: ticket.tag,
            request,
        },
        reply: Answer::nothing(),
    });
    Ok(ticket)
}

/// Waits for an answer and takes it, with a receipt of it.
fn take<L: PortName, R: Wait>(
    rt: &R,
    port: &LockedPort<L>,
    pass: &mut Pass<L>,
    log: &mut Vec<Receipt>,
    ticket: Ticket,
) -> Result<(), PortError> {
    log.reserve(1)?;
    let taken = port.await_answer(rt, pass, ticket)?;
    log.push_reserved(taken);
    Ok(())
}

/// Both clients put what they ask, each in a thread of its own.
fn put_both<L: PortName + Send + Sync, R: Threads + Wait + Sync>(
    rt: &R,
    alloc: Global,
    port: &LockedPort<L>,
    one: &mut Pass<L>,
    two: &mut Pass<L>,
    logs: &mut Logs,
    asked: (Ask, Ask),
) -> Result<(Ticket, Ticket), PortError> {
    let Logs {
        one: first,
        two: second,
    } = logs;
    let (one, two) = join(
        rt,
        || put(rt, alloc, port, one, first, asked.0),
        || put(rt, alloc, port, two, second, asked.1),
    );
    Ok((one?, two?))
}

/// Runs the engine, and once more with nothing that it holds, which ends at once where the first run did not use all turns.
/// Then no engine is to come: so a client whose answer did not come does not wait for it.
fn serve<L: PortName, R: Wait>(
    rt: &R,
    port: &LockedPort<L>,
    engine: &mut Pass<L>,
    order: &Order,
) -> Result<u64, PortError> {
    let left = port.engine(rt, engine, order, TURNS);
    order.open();
    let _left = port.engine(rt, engine, order, TURNS);
    port.give_up(rt);
    left
}

/// Both clients take their answers, each in a thread of its own, beside an engine. It gives the turns that the engine has
/// left. An engine of no turns begins before the threads do, so that clients may wait.
fn take_both<L: PortName + Send + Sync, R: Threads + Wait + Sync>(
    rt: &R,
    port: &LockedPort<L>,
    one: &mut Pass<L>,
    two: &mut Pass<L>,
    engine: &mut Pass<L>,
    logs: &mut Logs,
    tickets: &(Ticket, Ticket),
    order: &Order,
) -> Result<u64, PortError> {
    port.engine(rt, engine, order, 0)?;
    let (read, write) = *tickets;
    let Logs {
        one: first,
        two: second,
    } = logs;
    let (left, (one, two)) = join(
        rt,
        || serve(rt, port, engine, order),
        || {
            join(
                rt,
                || take(rt, port, one, first, read),
                || take(rt, port, two, second, write),
            )
        },
    );
    one?;
    two?;
    left
}

/// Both clients ask at a time, and the engine serves them. It tells whether that took less than all turns.
fn ask_both<L: PortName + Send + Sync, R: Threads + Wait + Sync>(
    rt: &R,
    alloc: Global,
    port: &LockedPort<L>,
    one: &mut Pass<L>,
    two: &mut Pass<L>,
    engine: &mut Pass<L>,
    logs: &mut Logs,
    asked: (Ask, Ask, bool),
) -> Result<bool, PortError> {
    let (first, second, is_crossing) = asked;
    let (read, write) = put_both(rt, alloc, port, one, two, logs, (first, second))?;
    let order = Order::new(&read, &write, is_crossing);
    let tickets = (read, write);
    let left = take_both(rt, port, one, two, engine, logs, &tickets, &order)?;
    Ok(left > 0)
}

/// Both clients ask in turn what the table has. It tells whether all was served within the turns.
pub fn cross<L: PortName + Send + Sync, R: Threads + Wait + Sync>(
    rt: &R,
    alloc: Global,
    port: &LockedPort<L>,
    one: &mut Pass<L>,
    two: &mut Pass<L>,
    engine: &mut Pass<L>,
    logs: &mut Logs,
) -> bool {
    let mut is_served = true;
    for asked in PHASES {
        let served = ask_both(rt, alloc, port, one, two, engine, logs, asked);
        is_served &= matches!(served, Ok(true));
    }
    is_served
}

/// The first place of a history behind a Put at which a step stands.
fn place_of(history: &Entries, put: u64, step: &Step) -> Option<usize> {
    for at in 0..history.len() {
        match history.get(at) {
            Some(entry) if at as u64 >= put && entry.step.matches(step) => return Some(at),
            _ => {}
        }
    }
    None
}

/// The tag of a Put.
fn tag_of(receipt: &Receipt) -> Option<Tag> {
    match &receipt.step {
        Step::Put { tag, .. } => Some(*tag),
        _ => None,
    }
}

/// Whether the drive was given the read before the write ended, and the write ended before the read did.
fn is_crossed(history: &Entries, read: &Receipt, write: &Receipt) -> Option<bool> {
    let (was_read, tag) = (tag_of(read)?, tag_of(write)?);
    let given = place_of(history, read.number, &Step::Accept { tag: was_read })?;
    let written = place_of(history, write.number, &Step::Complete { tag })?;
    let ended = place_of(history, read.number, &Step::Complete { tag: was_read })?;
    Some(given < written && written < ended)
}

/// Whether the second command of the one client crossed the second one of the other.
fn have_crossed(history: &Entries, logs: &Logs) -> bool {
    match (logs.one.get(2), logs.two.get(2)) {
        (Some(read), Some(write)) => is_crossed(history, read, write) == Some(true),
        _ => false,
    }
}

/// Whether these are the bytes of one sector, all of them this one.
fn is_sector_of(bytes: &[u8], byte: u8) -> bool {
    bytes.len() == BLOCK && bytes.iter().all(|it| *it == byte)
}

/// Whether an answer is this one.
fn is_reply(answer: &Answer, reply: Reply) -> bool {
    match reply {
        Reply::Nothing => answer.bytes() == Some(&[]),
        Reply::Sector(byte) => answer
            .bytes()
            .is_some_and(|bytes| is_sector_of(bytes, byte)),
        Reply::Denied => matches!(
            answer,
            Answer::Failed {
                status: 0x51,
                error: 0x04
            }
        ),
    }
}

/// Whether a client was told of these commands, each put and then answered so.
fn is_told(log: &[Receipt], replies: [Reply; 4]) -> bool {
    let mut is_told = log.len() == 8;
    for at in 0..4usize {
        is_told &= match log.get(2 * at + 1) {
            Some(taken) => is_reply(&taken.reply, replies[at]),
            None => false,
        };
    }
    is_told
}

/// Whether both clients were told what they should be, and the commands crossed.
fn are_told(port: &Port, logs: &Logs) -> bool {
    is_told(&logs.one, FIRST)
        && is_told(&logs.two, SECOND)
        && have_crossed(port.history(), logs)
        && port.audit().len() == 1
}

/// Whether the receipts of both clients are just the client steps of the history. They are put together.
fn are_receipts(port: &Port, logs: &mut Logs) -> bool {
    let Logs { one, two } = logs;
    one.append(two).is_ok() && check_receipts(port.history(), one)
}

/// Whether a port does the steps of another one, with the same answers and denials.
fn has_replayed(alloc: Global, was: &Port, again: &mut Port) -> Result<bool, PortError> {
    let history = was.history();
    for at in 0..history.len() {
        if let Some(entry) = history.get(at) {
            again.step(&entry.step.to_step(alloc)?)?;
        }
    }
    Ok(are_same(was, again))
}

/// Whether a new port does.
fn is_same_again(alloc: Global, was: &Port) -> bool {
    match port_with(alloc, &LOCKED) {
        Ok(mut again) => {
            let is_same = has_replayed(alloc, was, &mut again) == Ok(true);
            drop(again);
            is_same
        }
        Err(_) => false,
    }
}

/// Whether all was answered as it should be, all receipts are those of the history, and a new port does the same steps.
pub fn has_crossed(alloc: Global, port: &Port, client_steps: u64, logs: &mut Logs) -> bool {
    let are_told = are_told(port, logs);
    let are_receipts = are_receipts(port, logs);
    are_told && are_receipts && client_steps == 16 && is_same_again(alloc, port)
}
