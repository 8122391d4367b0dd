//! A port under its lock, with the passes of two clients and of an engine.

ghost use Rattle.std.specs.Prelude.{◌≡◌};

use crate::crossing::{cross, has_crossed};
use crate::full::{ends_all, refuses_all};
use crate::ports::port_with;
use crate::refusals::is_refusing;
use drive::RangeRow;
use locked_port::{Gate, LockedPort, Pass, Pick, PortName, Receipt};
use port::{EngineStep, Port, PortError};
use std::alloc::Global;
use std::marker::Brand;
use std::sync::Wait;
use std::sync::ledger::Blank;
use std::thread::Threads;

/// Sectors 100 to 109, whose reads are locked.
pub const LOCKED: [RangeRow; 1] = [RangeRow {
    range: 1,
    start: 100,
    length: 10,
    read_enabled: true,
    write_enabled: false,
    read_locked: true,
    write_locked: false,
}];

/// What is tried at a port under its lock, and behind it.
#[derive(Clone, Copy)]
pub enum Trial {
    Crossing,
    Refusals,
    Full,
}

/// What both clients are told of their steps.
#[derive(Drop)]
pub struct Logs {
    pub one: Vec<Receipt>,
    pub two: Vec<Receipt>,
}

/// Always the first step that is ready.
pub struct First;

impl Gate for First {
    fn pick(&self, _ready: &[EngineStep]) -> Pick {
        Pick::Do(0)
    }
}

impl Trial {
    /// Whether it comes to what it should, under the lock.
    fn is_right<L: PortName + Send + Sync, R: Threads + Wait + Sync>(
        self,
        rt: &R,
        alloc: Global,
        port: &LockedPort<L>,
        passes: &mut [Pass<L>],
        logs: &mut Logs,
    ) -> bool {
        let [one, two, engine] = passes else {
            return false;
        };
        match self {
            Trial::Crossing => cross(rt, alloc, port, one, two, engine, logs),
            Trial::Refusals => is_refusing(rt, port, one, two, engine),
            Trial::Full => ends_all(rt, port, one, two, engine),
        }
    }

    /// Whether the port is as it should be that is out of its lock.
    fn is_right_then(
        self,
        alloc: Global,
        port: &mut Port,
        client_steps: u64,
        logs: &mut Logs,
    ) -> bool {
        match self {
            Trial::Crossing => has_crossed(alloc, port, client_steps, logs),
            Trial::Refusals => true,
            Trial::Full => refuses_all(port),
        }
    }
}

/// Takes the port out of its lock, and tells whether it is as it should be.
fn closes<L: PortName>(
    alloc: Global,
    port: LockedPort<L>,
    passes: Vec<Pass<L>>,
    logs: &mut Logs,
    trial: Trial,
) -> bool
    requires { L.passes ≡ L.parts }
{
    match port.close(passes) {
        Ok(mut closed) => {
            let is_right = trial.is_right_then(alloc, &mut closed.port, closed.client_steps, logs);
            drop(closed);
            is_right
        }
        Err(back) => {
            drop(back);
            false
        }
    }
}

/// A new port under its lock, with the passes of two clients and of the engine.
fn new_locked<L: PortName>(
    alloc: Global,
    blank: Blank,
) -> Result<(LockedPort<L>, Vec<Pass<L>>), PortError>
    requires name { blank.name ≡ L.name }
    requires parts { (blank.parts ≡ L.parts) × (blank.parts ≡ 3) × (L.passes ≡ L.parts) }
{
    let port = port_with(alloc, &LOCKED)?;
    LockedPort::<L>::new(alloc, blank, port, 2)
}

/// Whether a trial comes to what it should at a new port.
fn is_right_at<L: PortName + Send + Sync, R: Threads + Wait + Sync>(
    rt: &R,
    alloc: Global,
    blank: Blank,
    trial: Trial,
) -> bool
    requires name { blank.name ≡ L.name }
    requires parts { (blank.parts ≡ L.parts) × (blank.parts ≡ 3) × (L.passes ≡ L.parts) }
{
    let mut logs = Logs {
        one: Vec::new(alloc),
        two: Vec::new(alloc),
    };
    match new_locked::<L>(alloc, blank) {
        Ok((port, mut passes)) => {
            let is_right = trial.is_right(rt, alloc, &port, passes.as_mut_slice(), &mut logs);
            closes(alloc, port, passes, &mut logs, trial) && is_right
        }
        Err(_) => false,
    }
}

/// The same under a name of its own.
pub fn is_right<R: Threads + Wait + Sync>(rt: &R, alloc: Global, trial: Trial) -> bool {
    is_right_at::<Brand, R>(rt, alloc, Blank::new(3), trial)
}
