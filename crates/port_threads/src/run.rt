//! Clients and an engine, each in a thread of its own, and what they tell.

ghost use Rattle.std.specs.Prelude.{◌≡◌, ◌+◌, ◌*◌, ◌≤◌, ◌<◌, ℕ, map, vec_len, slice_index_or, OnOk, IfOk, IfErr, ◌⊎◌};
ghost use Rattle.locked_port.specs.Counts.{Stands};
ghost use Rattle.locked_port.specs.Hands.{hands};
ghost use Rattle.port_threads.specs.declared.error.LoadError.{LoadError};
ghost use Rattle.port_threads.specs.Loads.{default_clients, default_rounds};
ghost use Rattle.port_threads.specs.Rounds.{steps_of_round, Made, AreOf, rounds_of, receipts_of};
ghost use Rattle.port_threads.specs.Works.{AreFactsOf, Ran, are_facts_right};

use crate::error::LoadError;
use crate::facts::{Facts, facts_text};
use crate::load::Load;
use crate::work::{Work, make_rounds};
use drive::{Drive, DriveConfig};
use locked_port::{Closed, Gate, LockedPort, Pass, Pick, PortName, Receipt};
use port::{EngineStep, Port, PortError};
use std::alloc::{AllocError, Global};
use std::io::Write;
use std::marker::Brand;
use std::sync::Wait;
use std::sync::atomic::{AtomicBool, Ordering};
use std::sync::ledger::Blank;
use std::thread;
use std::thread::Threads;

/// The engine does three steps for a transfer: Issue, Accept and Complete; a round has two transfers.
const ENGINE_STEPS: u64 = 6;

/// A round is a write and a read, each of them a Put and a Take.
const STEPS_OF_ROUND: u64 = 4;

/// The first of the steps that are ready, until the clients have ended.
#[derive(Drop)]
struct WhileServed {
    has_ended: AtomicBool,
}

impl WhileServed {
    fn new() -> WhileServed {
        WhileServed {
            has_ended: AtomicBool::new(false),
        }
    }
}

impl Gate for WhileServed {
    fn pick(&self, _ready: &[EngineStep]) -> Pick {
        if self.has_ended.load(Ordering::SeqCst) {
            Pick::Stop
        } else {
            Pick::Do(0)
        }
    }
}

/// What came of the engine, and what each client did.
#[derive(Drop)]
struct Served<L: PortName> {
    left: Result<u64, PortError>,
    engine: Pass<L>,
    works: Result<Vec<Work<L>>, AllocError>,
}

/// What all clients did.
#[derive(Drop)]
struct Works<L: PortName> {
    passes: Vec<Pass<L>>,
    receipts: Vec<Receipt>,
    rounds: u64,
    ghost told: { steps_of_round * rounds ≤ vec_len receipts },
}

impl<L: PortName> Works<L> {
    /// Puts the engine's pass beside the clients'.
    fn add_engine(&mut self, engine: Pass<L>) -> Result<(), AllocError>
        ensures rounds { self.new.rounds ≡ self.old.rounds }
        ensures receipts { self.new.receipts ≡ self.old.receipts }
        ensures passes { OnOk result (vec_len self.new.passes ≡ vec_len self.old.passes + 1) }
    {
        if self.passes.push(engine).is_err() {
            return Err(AllocError);
        }
        Ok(())
    }
}

/// What all clients did, in one. A client that was refused memory makes it an error.
#[tactic(auto, using(crate::proofs::Logs::rounds_more, crate::proofs::Logs::receipts_more))]
fn gather<L: PortName>(alloc: Global, works: Vec<Work<L>>) -> Result<Works<L>, AllocError>
    ensures rounds { IfOk result (λ all. all.rounds
        ≡ rounds_of (map (λ w. (w.rounds, w.receipts.items)) works.items)) }
    ensures receipts { IfOk result (λ all. all.receipts.items
        ≡ receipts_of (map (λ w. (w.rounds, w.receipts.items)) works.items)) }
    ensures passes { IfOk result (λ all. vec_len all.passes ≡ vec_len works) }
{
    let mut passes = Vec::new(alloc);
    let mut receipts = Vec::new(alloc);
    let mut rounds = 0u64;
    for work in works {
        let Work {
            pass,
            receipts: mut more,
            rounds: made,
            refusal,
        } = work;
        if matches!(refusal, Some(PortError::OutOfMemory)) {
            return Err(AllocError);
        }
        receipts.append(&mut more)?;
        if passes.push(pass).is_err() {
            return Err(AllocError);
        }
        rounds += made;
    }
    Ok(Works {
        passes,
        receipts,
        rounds,
    })
}

/// The default drive behind a port: 1,000 sectors, a shadow of 8, and the MSID of the command line's default.
fn default_port(alloc: Global) -> Result<Port, LoadError>
    ensures stands { IfOk result (λ port. Stands port 0) }
    ensures memory { IfErr result (λ error. error ≡ LoadError.Memory) }
{
    let config = DriveConfig::new(1_000, 8, b"OPALMSID").unwrap();
    let Ok(drive) = Drive::new(alloc, config) else {
        return Err(LoadError::Memory);
    };
    let Ok(port) = Port::new(alloc, drive) else {
        return Err(LoadError::Memory);
    };
    Ok(port)
}

/// Runs each client in a thread of its own, and lets the engine end when all have ended.
fn run_clients<L: PortName + Send + Sync, R: Threads + Wait + Sync>(
    rt: &R,
    port: &LockedPort<L>,
    alloc: Global,
    gate: &WhileServed,
    passes: Vec<Pass<L>>,
    rounds: u32,
) -> Result<Vec<Work<L>>, AllocError>
    ensures made { IfOk result (λ works. (i : ℕ) (d : _) (p : _) → i < vec_len works
        → Made (slice_index_or passes.items i p).client rounds
        (slice_index_or works.items i d).rounds (slice_index_or works.items i d).receipts.items) }
    ensures clients { IfOk result (λ works. vec_len works ≡ vec_len passes) }
{
    let works = thread::map_vec(
        rt,
        passes,
        &|pass| make_rounds(rt, alloc, port, pass, rounds),
    );
    gate.has_ended.store(true, Ordering::SeqCst);
    port.wake(rt);
    works
}

/// Runs the engine, and gives its pass back. No engine comes behind it, so no client waits for one then.
fn serve<L: PortName, R: Wait>(
    rt: &R,
    port: &LockedPort<L>,
    mut engine: Pass<L>,
    gate: &WhileServed,
    turns: u64,
) -> (Result<u64, PortError>, Pass<L>) {
    let left = port.engine(rt, &mut engine, gate, turns);
    port.give_up(rt);
    (left, engine)
}

/// Runs the engine in a thread of its own, and all clients beside it. Where no thread is started for the engine no client
/// is begun, since it would wait for an answer that nobody gives.
fn run_beside<L: PortName + Send + Sync, R: Threads + Wait + Sync>(
    rt: &R,
    alloc: Global,
    port: &LockedPort<L>,
    engine: Pass<L>,
    clients: Vec<Pass<L>>,
    turns: u64,
    rounds: u32,
) -> Result<Served<L>, LoadError>
    ensures made { IfOk result (λ served. IfOk served.works
        (λ works. (i : ℕ) (d : _) (p : _) → i < vec_len works
        → Made (slice_index_or clients.items i p).client rounds
        (slice_index_or works.items i d).rounds (slice_index_or works.items i d).receipts.items)) }
    ensures clients { IfOk result (λ served. IfOk served.works
        (λ works. vec_len works ≡ vec_len clients)) }
    ensures errors { IfErr result (λ error. error ≡ LoadError.Thread) }
{
    let gate = WhileServed::new();
    let gate = &gate;
    thread::scope(thread::scope_env(), rt, |scope| {
        match scope.spawn(move || serve(rt, port, engine, gate, turns)) {
            Ok(serving) => {
                let works = run_clients(rt, port, alloc, gate, clients, rounds);
                let (left, engine) = serving.join(rt);
                Ok(Served {
                    left,
                    engine,
                    works,
                })
            }
            Err(_) => Err(LoadError::Thread),
        }
    })
}

/// Runs the engine and all clients at once.
fn run_all<L: PortName + Send + Sync, R: Threads + Wait + Sync>(
    rt: &R,
    alloc: Global,
    port: &LockedPort<L>,
    mut passes: Vec<Pass<L>>,
    load: &Load,
) -> Result<Works<L>, LoadError>
    ensures made { IfOk result (λ all. AreOf load.now.rounds passes.items all.rounds
        all.receipts.items) }
    ensures passes { IfOk result (λ all. vec_len all.passes ≡ vec_len passes) }
    ensures errors { IfErr result
        (λ error. (error ≡ LoadError.Memory) ⊎ (error ≡ LoadError.Thread)) }
{
    let Some(engine) = passes.pop() else {
        return Err(LoadError::Memory);
    };
    let turns = ENGINE_STEPS * u64::from(load.clients) * u64::from(load.rounds);
    let Served {
        left,
        engine,
        works,
    } = run_beside(rt, alloc, port, engine, passes, turns, load.rounds)?;
    if left.is_err() {
        return Err(LoadError::Memory);
    }
    let mut works = gather(alloc, works?)?;
    works.add_engine(engine)?;
    Ok(works)
}

/// What the clients of a load tell of a port, which is let go then.
fn facts_at<L: PortName + Send + Sync, R: Threads + Wait + Sync>(
    rt: &R,
    alloc: Global,
    shared: LockedPort<L>,
    passes: Vec<Pass<L>>,
    load: &Load,
) -> Result<Facts, LoadError>
    requires parts { L.passes ≡ L.parts }
    requires whole { passes.items ≡ hands (load.now.clients + 1) }
    ensures told { IfOk result (λ facts. AreFactsOf load.now.clients load.now.rounds facts) }
    ensures errors { IfErr result
        (λ error. (error ≡ LoadError.Memory) ⊎ (error ≡ LoadError.Thread)) }
{
    let works = run_all(rt, alloc, &shared, passes, load);
    let Works {
        passes,
        receipts,
        rounds,
    } = match works {
        Ok(works) => works,
        Err(error) => {
            drop(shared);
            return Err(error);
        }
    };
    // no pass is missing
    match shared.close(passes) {
        Ok(closed) => {
            let facts = Facts::of(&closed, rounds, &receipts);
            drop(closed);
            Ok(facts)
        }
        Err(back) => {
            drop(back);
            Err(LoadError::Memory)
        }
    }
}

/// What the clients of a load tell of a new port.
fn facts_of<L: PortName + Send + Sync, R: Threads + Wait + Sync>(
    rt: &R,
    alloc: Global,
    blank: Blank,
    load: &Load,
) -> Result<Facts, LoadError>
    requires name { blank.name ≡ L.name }
    requires parts { (blank.parts ≡ L.parts) × (blank.parts ≡ load.now.clients + 1)
        × (L.passes ≡ L.parts) }
    ensures told { IfOk result (λ facts. AreFactsOf load.now.clients load.now.rounds facts) }
    ensures errors { IfErr result
        (λ error. (error ≡ LoadError.Memory) ⊎ (error ≡ LoadError.Thread)) }
{
    let port = default_port(alloc)?;
    // nothing but memory is refused here
    let Ok((shared, passes)) = LockedPort::<L>::new(alloc, blank, port, load.clients) else {
        return Err(LoadError::Memory);
    };
    facts_at(rt, alloc, shared, passes, load)
}

/// Whether all rounds were made, no client step is beside them, and the receipts are those of the history.
fn is_right(load: &Load, facts: &Facts) -> bool
    ensures { result ≡ are_facts_right load.now.clients load.now.rounds facts.now }
{
    let rounds = u64::from(load.clients) * u64::from(load.rounds);
    facts.rounds == rounds && facts.client_steps == STEPS_OF_ROUND * rounds && facts.receipts
}

/// Runs the clients of a load and an engine, each in a thread of its own, at a port with a new drive behind it: each
/// client fills its own sector and reads it back, round by round. Prints how many rounds were made, how many steps of
/// the port's history are clients', and whether the clients' receipts are those of the history; gives status 0 where
/// all is as the load says, else 1.
///
/// # Errors
///
/// Want of memory, also of a client or of the engine; a call of the writer that fails; a system that starts no thread for
/// the engine. Clients for which it starts none run one after the other.
pub fn run_load<R: Threads + Wait + Sync, W: Write>(
    rt: &R,
    alloc: Global,
    blank: Blank,
    output: &mut W,
    load: &Load,
) -> Result<u8, LoadError>
    requires { blank.parts ≡ load.now.clients + 1 }
    ensures ran { IfOk result (λ status.
        Ran load.now.clients load.now.rounds status (W.contents output.old)
        (W.contents output.new)) }
    ensures errors { IfErr result (λ error. (error ≡ LoadError.Memory)
        ⊎ (error ≡ LoadError.Write) ⊎ (error ≡ LoadError.Thread)) }
{
    let facts = facts_of::<Brand, R>(rt, alloc, blank, load)?;
    let text = facts_text(alloc, &facts)?;
    output
        .write_all(text.as_bytes())
        .map_err(|_| LoadError::Write)?;
    output.flush().map_err(|_| LoadError::Write)?;
    Ok(u8::from(!is_right(load, &facts)))
}

/// Runs two clients, each of which makes 100 rounds, and an engine, as `run_load` does.
///
/// # Errors
///
/// Those of `run_load`.
pub fn run_threads<R: Threads + Wait + Sync, W: Write>(
    rt: &R,
    alloc: Global,
    blank: Blank,
    output: &mut W,
) -> Result<u8, LoadError>
    requires { blank.parts ≡ default_clients + 1 }
    ensures ran { IfOk result (λ status.
        Ran default_clients default_rounds status (W.contents output.old) (W.contents output.new)) }
    ensures errors { IfErr result (λ error. (error ≡ LoadError.Memory)
        ⊎ (error ≡ LoadError.Write) ⊎ (error ≡ LoadError.Thread)) }
{
    let status = run_load(rt, alloc, blank, output, &Load::usual())?;
    Ok(status)
}
