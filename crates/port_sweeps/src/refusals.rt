//! What is refused before anything waits.

use crate::locked::First;
use fis::Tag;
use locked_port::{Gate, LockedPort, Pass, Pick, PortName, Ticket};
use port::{EngineStep, PortError, Request};
use std::sync::Wait;

const READ: Request = Request::Read { lba: 200, count: 1 };

/// A request of no blocks.
const NO_BLOCKS: Request = Request::Read { lba: 200, count: 0 };

/// Each of the 32 reads is issued, accepted and completed.
const TURNS: u64 = 32 * 3;

/// Never lets the engine do a step.
struct Never;

impl Gate for Never {
    fn pick(&self, _ready: &[EngineStep]) -> Pick {
        Pick::Hold
    }
}

/// Puts 32 reads, the first steps of the history, and gives the last ticket.
fn fill<L: PortName, R: Wait>(rt: &R, port: &LockedPort<L>, pass: &mut Pass<L>) -> Option<Ticket> {
    let mut last = None;
    for number in 1..=32u64 {
        match port.submit(rt, pass, &READ) {
            Ok(ticket) if ticket.number == number => last = Some(ticket),
            _ => return None,
        }
    }
    last
}

/// Whether a client's request is refused with this error.
fn refuses<L: PortName, R: Wait>(
    rt: &R,
    port: &LockedPort<L>,
    pass: &mut Pass<L>,
    request: &Request,
    error: PortError,
) -> bool {
    match port.submit(rt, pass, request) {
        Ok(_) => false,
        Err(told) => told == error,
    }
}

/// Whether a client's request gets this tag.
fn claims<L: PortName, R: Wait>(
    rt: &R,
    port: &LockedPort<L>,
    pass: &mut Pass<L>,
    tag: Tag,
) -> bool {
    match port.submit(rt, pass, &READ) {
        Ok(ticket) => ticket.tag == tag,
        Err(_) => false,
    }
}

/// Whether a client is refused the answer of a ticket with this error.
fn withholds<L: PortName, R: Wait>(
    rt: &R,
    port: &LockedPort<L>,
    pass: &mut Pass<L>,
    ticket: &Ticket,
    error: PortError,
) -> bool {
    match port.await_answer(rt, pass, *ticket) {
        Ok(_) => false,
        Err(told) => told == error,
    }
}

/// Whether a client takes the answer of a ticket by the step of this number.
fn gives<L: PortName, R: Wait>(
    rt: &R,
    port: &LockedPort<L>,
    pass: &mut Pass<L>,
    ticket: &Ticket,
    number: u64,
) -> bool {
    match port.await_answer(rt, pass, *ticket) {
        Ok(receipt) => receipt.number == number,
        Err(_) => false,
    }
}

/// Whether no client gets a tag where one client has all, and neither waits for an answer that is not its own: that of
/// another client's ticket, and that of another Put.
fn is_full<L: PortName, R: Wait>(
    rt: &R,
    port: &LockedPort<L>,
    one: &mut Pass<L>,
    two: &mut Pass<L>,
    last: &Ticket,
) -> bool {
    let other = Ticket { number: 1, ..*last };
    refuses(rt, port, one, &READ, PortError::SlotBusy)
        && refuses(rt, port, two, &READ, PortError::SlotBusy)
        && refuses(rt, port, two, &NO_BLOCKS, PortError::Size)
        && withholds(rt, port, two, last, PortError::NotYours)
        && withholds(rt, port, one, &other, PortError::NotAnswered)
}

/// Whether no client waits for an answer where no engine is to give it.
fn is_not_awaited<L: PortName, R: Wait>(
    rt: &R,
    port: &LockedPort<L>,
    one: &mut Pass<L>,
    last: &Ticket,
) -> bool {
    port.give_up(rt);
    withholds(rt, port, one, last, PortError::NotAnswered)
}

/// Whether an answer that is there is its client's alone, and taken once; the other client then claims its tag.
fn is_given_once<L: PortName, R: Wait>(
    rt: &R,
    port: &LockedPort<L>,
    one: &mut Pass<L>,
    two: &mut Pass<L>,
    last: &Ticket,
) -> bool {
    withholds(rt, port, two, last, PortError::NotYours)
        && gives(rt, port, one, last, 32 + TURNS + 1)
        && withholds(rt, port, one, last, PortError::NotAnswered)
        && claims(rt, port, two, last.tag)
}

/// Whether all is refused as it should be, before the engine does its steps and after. A turn that is held is none of
/// them.
pub fn is_refusing<L: PortName, R: Wait>(
    rt: &R,
    port: &LockedPort<L>,
    one: &mut Pass<L>,
    two: &mut Pass<L>,
    engine: &mut Pass<L>,
) -> bool {
    let Some(last) = fill(rt, port, one) else {
        return false;
    };
    is_full(rt, port, one, two, &last)
        && is_not_awaited(rt, port, one, &last)
        && matches!(port.engine(rt, engine, &Never, 3), Ok(0))
        && matches!(port.engine(rt, engine, &First, TURNS), Ok(0))
        && is_given_once(rt, port, one, two, &last)
}
