//! A script that is played while an allocation is refused.

use crate::ports::{are_same, port_of};
use crate::script::Script;
use port::{PlayError, Port, PortError, Step};
use std::alloc::Global;

/// What came of a script that was played on two ports, one after the other.
#[derive(Clone, Copy)]
pub struct Outcome {
    /// The steps that were done, and the denials.
    pub steps: usize,
    pub denials: usize,
    /// Whether both ports have the same history, answers and audit log.
    pub is_same: bool,
    /// How often a step was refused memory.
    pub times: u64,
}

/// Where to go on behind a step that was refused, and whether for want of memory.
fn next_place(done: usize, refused: PlayError) -> (usize, bool) {
    let at = done.saturating_add(refused.at);
    match refused.error {
        PortError::OutOfMemory => (at, true),
        _ => (at.saturating_add(1), false),
    }
}

/// Plays steps. Where memory is refused it goes on at the very step that was refused, and behind a step that is
/// refused for another cause. It tells how often memory was refused.
fn play_on(port: &mut Port, steps: &[Step]) -> Result<u64, PortError> {
    let mut done: usize = 0;
    let mut times: u64 = 0;
    for _ in 0..steps.len().saturating_mul(2) {
        let rest = steps.get(done..).unwrap_or(&[]);
        let Err(refused) = port.play(rest) else {
            return Ok(times);
        };
        let (next, is_memory) = next_place(done, refused);
        done = next;
        times = times.saturating_add(u64::from(is_memory));
    }
    if done < steps.len() {
        return Err(PortError::OutOfMemory);
    }
    Ok(times)
}

/// Plays steps on a second port, and compares it with the first.
fn compared(one: &Port, two: &mut Port, steps: &[Step], times: u64) -> Result<Outcome, PortError> {
    let more = play_on(two, steps)?;
    Ok(Outcome {
        steps: one.history().len(),
        denials: one.audit().len(),
        is_same: are_same(one, two),
        times: times.saturating_add(more),
    })
}

/// The same on a new port.
fn played_again(
    alloc: Global,
    script: &Script,
    one: &Port,
    times: u64,
) -> Result<Outcome, PortError> {
    match port_of(alloc, &script.rows) {
        Ok(mut two) => {
            let outcome = compared(one, &mut two, &script.steps, times);
            drop(two);
            outcome
        }
        Err(error) => Err(error),
    }
}

/// Plays the steps of a script on a port, and on a new one.
fn played_on(alloc: Global, script: &Script, one: &mut Port) -> Result<Outcome, PortError> {
    let times = play_on(one, &script.steps)?;
    played_again(alloc, script, one, times)
}

/// Plays a script on two new ports.
pub fn played(alloc: Global, script: &Script) -> Result<Outcome, PortError> {
    match port_of(alloc, &script.rows) {
        Ok(mut one) => {
            let outcome = played_on(alloc, script, &mut one);
            drop(one);
            outcome
        }
        Err(error) => Err(error),
    }
}
