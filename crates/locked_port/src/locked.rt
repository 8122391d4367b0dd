//! The lock, and the calls of clients and of the engine.

ghost use Rattle.std.specs.Prelude.{◌≡◌, ◌+◌, true, IfOk, IsOkUnless};
ghost use Rattle.locked_port.specs.Hands.{hands};
ghost use Rattle.port_history.specs.Requests.{is_sized};
ghost use Rattle.locked_port.specs.Counts.{client_steps};

use crate::desk::Desk;
use crate::gate::{Gate, Pick};
use crate::pass::{Pass, PortName, gather};
use crate::receipts::is_client_at;
use crate::tag_board::TagBoard;
use crate::ticket::{Receipt, Ticket};
use fis::Tag;
use port::{Built, Entries, Port, PortError, Request, fits};
use std::alloc::Global;
use std::sync::ledger::{Blank, Share};
use std::sync::{Condvar, Mutex, Wait};

/// A port under one lock.
#[derive(Drop)]
pub struct LockedPort<L: PortName> {
    alloc: Global,
    desk: Mutex<Desk<L>>,
    moved: Condvar,
    clients: u16,
    ghost enough: { clients + 1 ≡ L.passes },
}

/// A port that is out of its lock, with the number of its client steps.
#[derive(Drop)]
pub struct Closed {
    pub port: Port,
    pub client_steps: u64,
}

impl<L: PortName> LockedPort<L> {
    ghost use Rattle.std.specs.Prelude.{◌≡◌, ◌+◌, ◌<◌, ◌≤◌, vec_len, sum_by, true, false, Err, IfOk, IfErr, IsOk, IsOkUnless, MatchResult};
    ghost use mathlib.Core.Logic.{◌↔◌};
    ghost use Rattle.port_history.specs.declared.error.PortError.{PortError};
    ghost use Rattle.port_history.specs.declared.step.Step.TheVariants as steps;
    ghost use Rattle.port_history.specs.Requests.{is_sized};
    ghost use Rattle.locked_port.specs.Awaits.{is_of_submit, is_of_wait, is_of_engine};
    ghost use Rattle.locked_port.specs.Counts.{Stands, client_steps};
    ghost use Rattle.locked_port.specs.Hands.{hands, counted, hand_count, Claims, Frees};

    /// Puts a port under a lock: with the passes of the clients 1 to `clients`, and behind them one for the engine.
    ///
    /// # Errors
    ///
    /// `OutOfMemory`.
    pub fn new(
        alloc: Global,
        blank: Blank,
        port: Port,
        clients: u16,
    ) -> Result<(LockedPort<L>, Vec<Pass<L>>), PortError>
        requires name { blank.name ≡ L.name }
        requires parts { (blank.parts ≡ L.parts) × (blank.parts ≡ clients + 1)
            × (L.passes ≡ L.parts) }
        requires fresh { Stands port 0 }
        ensures passes { IfOk result (λ made. made.1.items ≡ hands (clients + 1)) }
        ensures memory { IsOkUnless result PortError.OutOfMemory }
    {
        let (book, whole) = blank.open::<L>();
        let desk = Desk::new(port, book);
        match deal(alloc, whole, clients as u32 + 1) {
            Ok(passes) => Ok((
                LockedPort {
                    alloc,
                    desk: Mutex::new(desk),
                    moved: Condvar::new(),
                    clients,
                },
                passes,
            )),
            Err(error) => {
                drop(desk);
                Err(error)
            }
        }
    }

    /// A client puts a request. It claims a tag on the board and builds the command first, and takes the lock then.
    ///
    /// # Errors
    ///
    /// In this order: `Size`; `SlotBusy`, where each of the 32 tags was found taken at some moment of the call;
    /// `OutOfMemory` of building; `HistoryFull`; `OutOfMemory`. The pass is then as before, and no tag stays claimed.
    pub fn submit<R: Wait>(
        &self,
        rt: &R,
        pass: &mut Pass<L>,
        request: &Request,
    ) -> Result<Ticket, PortError>
        ensures hand { MatchResult result
            (λ t. (t.client ≡ pass.old.client) × Claims t.tag (counted pass.old) pass.new)
            (λ _. pass.new ≡ pass.old) }
        ensures size { is_sized request.now ≡ false → result ≡ Err PortError.Size }
        ensures errors { IfErr result (λ e. is_of_submit (is_sized request.now) e ≡ true) }
    {
        if !fits(request) {
            return Err(PortError::Size);
        }
        let Some(tag) = pass.claim() else {
            return Err(PortError::SlotBusy);
        };
        let put = match build(self.alloc, request, tag) {
            Ok(built) => pass.submit(&mut self.desk.lock(rt), built),
            Err(error) => Err(error),
        };
        match put {
            Ok(ticket) => {
                self.moved.notify_all();
                Ok(ticket)
            }
            Err(error) => {
                pass.release(tag);
                Err(error)
            }
        }
    }

    /// A client waits for the answer of a ticket, and takes it. Its tag is given back behind the lock.
    ///
    /// # Errors
    ///
    /// Before it waits, in this order: `HistoryFull`; `NotAnswered`, where the slot is free or has another Put than the
    /// ticket's; `NotYours`. A history that becomes full ends the wait, and `NotAnswered` ends it where the answer is
    /// still to come and no engine is to give it (`give_up`). `OutOfMemory`. The ticket is then as good as before.
    pub fn await_answer<R: Wait>(
        &self,
        rt: &R,
        pass: &mut Pass<L>,
        ticket: Ticket,
    ) -> Result<Receipt, PortError>
        ensures hand { MatchResult result
            (λ r. (r.step ≡ steps.Take pass.old.client ticket.tag) × (ticket.number < r.number)
            × Frees ticket.tag (counted pass.old) pass.new)
            (λ _. pass.new ≡ pass.old) }
        ensures errors { IfErr result (λ e. is_of_wait e ≡ true) }
    {
        let receipt = self.taken(rt, pass, &ticket)?;
        self.moved.notify_all();
        pass.release(ticket.tag);
        Ok(receipt)
    }

    /// Waits for the answer of a ticket, and takes it, under the lock.
    fn taken<R: Wait>(
        &self,
        rt: &R,
        pass: &mut Pass<L>,
        ticket: &Ticket,
    ) -> Result<Receipt, PortError>
        ensures hand { MatchResult result
            (λ r. (r.step ≡ steps.Take pass.old.client ticket.now.tag)
            × (ticket.now.number < r.number)
            × (pass.new ≡ counted pass.old))
            (λ _. pass.new ≡ pass.old) }
        ensures errors { IfErr result (λ e. is_of_wait e ≡ true) }
    {
        let mut desk = self.desk.lock(rt);
        for _ in rt.forever() {
            match pass.take(&mut desk, ticket) {
                Ok(None) if desk.is_given_up => return Err(PortError::NotAnswered),
                Ok(None) => desk = self.moved.wait(rt, desk),
                Ok(Some(receipt)) => return Ok(receipt),
                Err(error) => return Err(error),
            }
        }
        unreachable!()
    }

    /// Does steps as the gate chooses, one in a turn, and gives the turns that are left. Where nothing is ready it waits
    /// for a client's step, or until it is woken, and counts no turn. Where it ends by an error it gives up.
    ///
    /// # Errors
    ///
    /// `HistoryFull`, `OutOfMemory`.
    pub fn engine<G: Gate, R: Wait>(
        &self,
        rt: &R,
        pass: &mut Pass<L>,
        gate: &G,
        turns: u64,
    ) -> Result<u64, PortError>
        ensures turns { IfOk result (λ left. left ≤ turns) }
        ensures errors { IfErr result (λ e. is_of_engine e ≡ true) }
        ensures pass { pass.new ≡ pass.old }
    {
        let _engine = pass.client();
        self.desk.lock(rt).set_given_up(false);
        let left = self.serve(rt, gate, turns);
        if left.is_err() {
            self.give_up(rt);
        }
        left
    }

    /// Does steps as the gate chooses, until it says so, the turns are used or a step is refused.
    fn serve<G: Gate, R: Wait>(&self, rt: &R, gate: &G, turns: u64) -> Result<u64, PortError>
        ensures turns { IfOk result (λ left. left ≤ turns) }
        ensures errors { IfErr result (λ e. is_of_engine e ≡ true) }
    {
        let mut left = turns;
        for _ in rt.forever() {
            if left == 0 {
                break;
            }
            let mut desk = self.desk.lock(rt);
            let ready = desk.ready()?;
            let pick = gate.pick(ready.as_slice());
            if pick == Pick::Stop {
                break;
            }
            if ready.is_empty() {
                let _desk = self.moved.wait(rt, desk);
                continue;
            }
            left -= 1;
            if let Pick::Do(choice) = pick {
                desk.turn(choice)?;
                self.moved.notify_all();
            }
        }
        Ok(left)
    }

    /// Says that no engine is to come. It ends the waits of clients for answers that are still to come, those that
    /// begin later too, until an engine begins.
    pub fn give_up<R: Wait>(&self, rt: &R) {
        self.desk.lock(rt).set_given_up(true);
        self.moved.notify_all();
    }

    /// Wakes all that wait. An engine that waits asks its gate again: so a gate that is to stop it can be heard where
    /// nothing is ready.
    pub fn wake<R: Wait>(&self, rt: &R) {
        let _desk = self.desk.lock(rt);
        self.moved.notify_all();
    }

    /// Takes the port out of its lock. Where a pass is missing, all comes back.
    ///
    /// # Errors
    ///
    /// The port under its lock, and the passes.
    pub fn close(self, passes: Vec<Pass<L>>) -> Result<Closed, (LockedPort<L>, Vec<Pass<L>>)>
        requires { L.passes ≡ L.parts }
        ensures missing { IsOk result ↔ (vec_len passes ≡ L.passes) }
        ensures back { IfErr result (λ back. back ≡ (self, passes)) }
        ensures stands { IfOk result (λ closed. Stands closed.port closed.client_steps) }
        ensures steps { IfOk result (λ closed. closed.client_steps
            ≡ sum_by hand_count passes.items) }
    {
        if passes.len() != self.clients as usize + 1 {
            return Err((self, passes));
        }
        let LockedPort {
            alloc: _,
            desk,
            moved: _,
            clients: _,
        } = self;
        let (port, mut book) = desk.into_inner().into_parts();
        let mut all = gather(passes);
        book.audit(&mut all);
        let client_steps = count_client_steps(port.history());
        Ok(Closed { port, client_steps })
    }
}

/// The passes of clients and engine, so many, with seats at a board of their own.
fn deal<L: PortName>(alloc: Global, whole: Share<L>, many: u32) -> Result<Vec<Pass<L>>, PortError>
    requires { (whole.parts ≡ many) × (whole.amount ≡ 0) }
    ensures passes { IfOk result (λ passes. passes.items ≡ hands many) }
    ensures memory { IsOkUnless result PortError.OutOfMemory }
{
    let (_board, seat) = TagBoard::new(alloc)?;
    Pass::deal(alloc, whole, seat, many)
}

/// Builds the command of a copy of a request. Nothing but memory is refused.
fn build(alloc: Global, request: &Request, tag: Tag) -> Result<Built, PortError>
    requires { is_sized request.now ≡ true }
    ensures built { IfOk result (λ built. (built.request ≡ request.now) × (built.tag ≡ tag)) }
    ensures memory { IsOkUnless result PortError.OutOfMemory }
{
    match request.copy(alloc) {
        Ok(request) => Ok(Built::new(request, tag)),
        Err(_) => Err(PortError::OutOfMemory),
    }
}

/// How many steps of a history are clients'.
fn count_client_steps(history: &Entries) -> u64
    ensures { result ≡ client_steps history.now.items }
{
    let mut count = 0;
    for place in 0..history.len() {
        if is_client_at(history, place) {
            count += 1;
        }
    }
    count
}
