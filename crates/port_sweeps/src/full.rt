//! A history that has no room left.

use crate::locked::First;
use drive::ResetKind;
use fis::Tag;
use locked_port::{Gate, LockedPort, Pass, Pick, PortName};
use port::{EngineStep, Port, PortError, Request, Step};
use std::sync::Wait;
use std::sync::atomic::{AtomicU64, Ordering};
use std::thread::{Threads, join};

/// The steps of a history that has no room left.
const MOST_STEPS: usize = 1_048_576;

/// A command that ends as it is accepted takes four steps: it is put, issued and accepted, and its answer is taken. Behind
/// so many of them there is room for four steps: two Puts, and two steps of the engine.
const COMMANDS: usize = MOST_STEPS / 4 - 1;

/// How often the gate holds the engine, so that a client waits.
const HOLDS: u64 = 10_000;

const READ: Request = Request::Read { lba: 200, count: 1 };

/// A read behind the drive's last sector, which ends as it is accepted, with no bytes.
const BEYOND: Request = Request::ReadDma {
    lba: 1_000,
    count: 1,
};

/// A request of no blocks, which has no size that a port takes.
const NO_BLOCKS: Request = Request::Read { lba: 200, count: 0 };

/// Holds the engine for a while, and then has it do the first step that is ready.
#[derive(Drop)]
struct Later {
    turns: AtomicU64,
}

impl Gate for Later {
    fn pick(&self, _ready: &[EngineStep]) -> Pick {
        if self.turns.fetch_add(1, Ordering::SeqCst) < HOLDS {
            Pick::Hold
        } else {
            Pick::Do(0)
        }
    }
}

/// Does commands one after the other, up to the last four steps.
fn fill<L: PortName, R: Wait>(
    rt: &R,
    port: &LockedPort<L>,
    client: &mut Pass<L>,
    engine: &mut Pass<L>,
) -> Result<(), PortError> {
    for _ in 0..COMMANDS {
        let ticket = port.submit(rt, client, &BEYOND)?;
        port.engine(rt, engine, &First, 2)?;
        port.await_answer(rt, client, ticket)?;
    }
    Ok(())
}

/// Whether a call ended with `HistoryFull`.
fn is_full<T>(answer: &Result<T, PortError>) -> bool {
    matches!(answer, &Err(PortError::HistoryFull))
}

/// Whether a full port refuses each step of a command, the Put of no blocks too.
fn refuses_commands(port: &mut Port) -> bool {
    let tag = Tag::low_bits(0);
    is_full(&port.put(1, tag, READ))
        && is_full(&port.put(1, Tag::low_bits(7), NO_BLOCKS))
        && is_full(&port.issue(tag))
        && is_full(&port.accept(tag))
        && is_full(&port.complete(tag))
        && is_full(&port.take(1, tag))
}

/// Whether it refuses every other step, and none is ready.
fn refuses_others(port: &mut Port) -> bool {
    let played = port.play(&[Step::Recover]);
    let is_refused =
        matches!(played, Err(told) if told.at == 0 && told.error == PortError::HistoryFull);
    is_refused
        && is_full(&port.recover())
        && is_full(&port.reset(1, ResetKind::Power))
        && is_full(&port.step(&Step::Recover))
        && !port.may(&Step::Recover)
        && port.ready().is_empty()
}

/// Whether a full port refuses all, and does nothing.
pub fn refuses_all(port: &mut Port) -> bool {
    let is_refused = refuses_commands(port) && refuses_others(port);
    is_refused && port.history().len() == MOST_STEPS
}

/// Whether a client's wait and the engine end where the engine does the last step.
fn ends_a_wait<L: PortName + Send + Sync, R: Threads + Wait + Sync>(
    rt: &R,
    port: &LockedPort<L>,
    client: &mut Pass<L>,
    engine: &mut Pass<L>,
) -> Result<bool, PortError> {
    let ticket = port.submit(rt, client, &READ)?;
    let gate = Later {
        turns: AtomicU64::new(0),
    };
    let (left, waited) = join(
        rt,
        || port.engine(rt, engine, &gate, u64::MAX),
        || port.await_answer(rt, client, ticket),
    );
    Ok(is_full(&left) && is_full(&waited))
}

/// Whether all ends under the lock where the last step is done, and from then on each call is refused, a request of no
/// blocks for its size.
fn ends_calls<L: PortName + Send + Sync, R: Threads + Wait + Sync>(
    rt: &R,
    port: &LockedPort<L>,
    one: &mut Pass<L>,
    two: &mut Pass<L>,
    engine: &mut Pass<L>,
) -> Result<bool, PortError> {
    fill(rt, port, one, engine)?;
    let ticket = port.submit(rt, two, &READ)?;
    let ended = ends_a_wait(rt, port, one, engine)?;
    let is_sized = matches!(port.submit(rt, one, &NO_BLOCKS), Err(PortError::Size));
    let are_refused = is_full(&port.await_answer(rt, two, ticket))
        && is_full(&port.submit(rt, two, &READ))
        && is_full(&port.engine(rt, engine, &First, 1));
    Ok(ended && is_sized && are_refused)
}

/// Fills a history under the lock, and tells whether all ends and is refused there.
pub fn ends_all<L: PortName + Send + Sync, R: Threads + Wait + Sync>(
    rt: &R,
    port: &LockedPort<L>,
    one: &mut Pass<L>,
    two: &mut Pass<L>,
    engine: &mut Pass<L>,
) -> bool {
    matches!(ends_calls(rt, port, one, two, engine), Ok(true))
}
