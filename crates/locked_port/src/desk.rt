//! What lies under the lock.

ghost use Rattle.std.specs.Prelude.{◌≡◌, true, IfErr};
ghost use Rattle.locked_port.specs.Awaits.{awaited_at, is_of_wait};
ghost use Rattle.locked_port.specs.Counts.{Stands, client_steps};

use crate::pass::PortName;
use crate::ticket::{Receipt, Ticket};
use arrayvec::ArrayVec;
use drive::ResetKind;
use fis::{SLOT_COUNT, Tag};
use port::{Built, EngineStep, Port, PortError, Stage, Step};
use std::sync::ledger::{Book, Share};

/// The port, the book of its client steps, and whether no engine is to come. The port agrees with an origin of its drive and the list of steps that its history stores, and the book has as
/// many as are clients' among them.
#[derive(Drop)]
pub(crate) struct Desk<L: PortName> {
    pub(crate) port: Port,
    pub(crate) book: Book<L>,
    pub(crate) is_given_up: bool,
    ghost stands: { Stands port book.total },
}

/// Whether the answer of a client's ticket has come, by whether the history is full and the stage of the ticket's slot.
fn awaited(full: bool, client: u32, ticket: &Ticket, stage: Stage) -> Result<bool, PortError>
    ensures told { result ≡ awaited_at full client ticket.now stage }
    ensures errors { IfErr result (λ e. is_of_wait e ≡ true) }
{
    if full {
        return Err(PortError::HistoryFull);
    }
    let Some(put) = stage.put() else {
        return Err(PortError::NotAnswered);
    };
    if put.number != ticket.number {
        return Err(PortError::NotAnswered);
    }
    if put.client != client {
        return Err(PortError::NotYours);
    }
    Ok(matches!(stage, Stage::Answered(_)))
}

impl<L: PortName> Desk<L> {
    ghost use Rattle.std.specs.Prelude.{◌≡◌, ◌+◌, ◌<◌, ◌≤◌, List, ◌∷◌, length, Ok, Err, is_some, true, false, IfOk, IfErr, MatchResult, MatchOption};
    ghost use Rattle.fis.specs.Tags.{slot_count};
    ghost use Rattle.history.specs.Opening.{Origin};
    ghost use Rattle.port_history.specs.declared.step.Step.{Step};
    ghost use Rattle.port_history.specs.declared.step.Step.TheVariants as steps;
    ghost use Rattle.port_history.specs.Ready.{with_step, chosen, engine_ready};
    ghost use Rattle.port_history.specs.Refusals.{refusal, IsRefusedBy};
    ghost use Rattle.port_history.specs.Requests.{is_sized};
    ghost use Rattle.port_history.specs.Steps.{trace};
    ghost use Rattle.port.specs.Agreement.{PortAgrees};
    ghost use Rattle.port.specs.Answers.{stage_at};
    ghost use Rattle.locked_port.specs.Awaits.{is_trace_full, awaited, IsReceiptOfTake, IsWaitRefused, is_of_submit, is_of_wait, is_of_engine};

    /// A port over the book that counted its client steps.
    pub(crate) fn new(port: Port, book: Book<L>) -> Desk<L>
        requires { Stands port book.total }
    {
        Desk {
            port,
            book,
            is_given_up: false,
        }
    }

    /// Says whether no engine is to come.
    pub(crate) fn set_given_up(&mut self, is_given_up: bool)
        ensures { (self.new.port ≡ self.old.port) × (self.new.is_given_up ≡ is_given_up) }
    {
        self.is_given_up = is_given_up;
    }

    /// The port, and the book that counted its client steps.
    pub(crate) fn into_parts(self) -> (Port, Book<L>)
        ensures stands { Stands result.0 result.1.total }
        ensures counted { client_steps result.0.history ≡ result.1.total }
    {
        let Desk {
            port,
            book,
            is_given_up: _,
        } = self;
        (port, book)
    }

    /// Whether the history has no room: a reset is refused for nothing else.
    fn is_full(&self) -> bool
        ensures { (o : Origin) (list : List Step) → PortAgrees self.now.port o list
            → result ≡ is_trace_full (trace o list) }
    {
        let reset = Step::Reset {
            client: 0,
            kind: ResetKind::Power,
        };
        !self.port.may(&reset)
    }

    /// Puts what was built.
    ///
    /// # Errors
    ///
    /// Those of `put_built`. The port is then as before.
    pub(crate) fn submit(
        &mut self,
        mine: &mut Share<L>,
        client: u32,
        built: Built,
    ) -> Result<Ticket, PortError>
        requires parts { 0 < mine.old.parts }
        requires sized { is_sized built.request ≡ true }
        ensures step { MatchResult result
            (λ t. (t.client ≡ client) × (t.tag ≡ built.tag)
            × ((o : Origin) (list : List Step) → PortAgrees self.old.port o list
            → (t.number ≡ 1 + length (trace o list))
            × PortAgrees self.new.port o (steps.Put client built.tag built.request ∷ list)))
            (λ _. self.new.port ≡ self.old.port) }
        ensures refused { (o : Origin) (list : List Step) → PortAgrees self.old.port o list
            → IsRefusedBy
            (refusal (trace o list) (steps.Put client built.tag built.request)) result }
        ensures errors { IfErr result (λ e. is_of_submit true e ≡ true) }
        ensures count { MatchResult result
            (λ _. mine.new.amount ≡ mine.old.amount + 1) (λ _. mine.new.amount ≡ mine.old.amount) }
        ensures parts { mine.new.parts ≡ mine.old.parts }
    {
        let tag = built.tag();
        let Desk {
            port,
            book,
            is_given_up: _,
        } = self;
        match port.put_built(client, built) {
            Ok(number) => {
                book.add(mine, 1);
                Ok(Ticket {
                    client,
                    tag,
                    number,
                })
            }
            Err((error, _built)) => Err(error),
        }
    }

    /// Takes the answer of a ticket, or tells by `None` that it is still to come.
    ///
    /// # Errors
    ///
    /// In this order: `HistoryFull`, `NotAnswered`, `NotYours`, `OutOfMemory`. The port is then as before.
    pub(crate) fn take(
        &mut self,
        mine: &mut Share<L>,
        client: u32,
        ticket: &Ticket,
    ) -> Result<Option<Receipt>, PortError>
        requires { 0 < mine.old.parts }
        ensures step { MatchResult result
            (λ o. MatchOption o (self.new.port ≡ self.old.port)
            (λ r. (r.step ≡ steps.Take client ticket.now.tag) × (ticket.now.number < r.number)
            × ((o : Origin) (list : List Step) → PortAgrees self.old.port o list
            → IsReceiptOfTake (trace o list) ticket.now.tag r
            × PortAgrees self.new.port o (r.step ∷ list))))
            (λ _. self.new.port ≡ self.old.port) }
        ensures told { (o : Origin) (list : List Step) → PortAgrees self.old.port o list
            → MatchResult result
            (λ taken. awaited (trace o list) client ticket.now ≡ Ok (is_some taken))
            (λ e. IsWaitRefused (awaited (trace o list) client ticket.now) e) }
        ensures errors { IfErr result (λ e. is_of_wait e ≡ true) }
        ensures count { MatchResult result
            (λ o. MatchOption o (mine.new.amount ≡ mine.old.amount)
            (λ _. mine.new.amount ≡ mine.old.amount + 1))
            (λ _. mine.new.amount ≡ mine.old.amount) }
        ensures parts { mine.new.parts ≡ mine.old.parts }
    {
        if !self.is_answered(client, ticket)? {
            return Ok(None);
        }
        let Desk {
            port,
            book,
            is_given_up: _,
        } = self;
        let (number, reply) = port.take(client, ticket.tag)?;
        book.add(mine, 1);
        Ok(Some(Receipt {
            number,
            step: Step::Take {
                client,
                tag: ticket.tag,
            },
            reply,
        }))
    }

    /// The stage of a slot.
    fn stage(&self, tag: Tag) -> Stage
        ensures value { result ≡ stage_at self.now.port.slots tag }
        ensures slot { tag < slot_count }
    {
        let number = tag.number();
        prove!(usize::from(number) < SLOT_COUNT);
        self.port.stage(tag)
    }

    /// Whether the answer of a ticket has come.
    fn is_answered(&self, client: u32, ticket: &Ticket) -> Result<bool, PortError>
        ensures told { (o : Origin) (list : List Step) → PortAgrees self.now.port o list
            → result ≡ awaited (trace o list) client ticket.now }
        ensures number { IfOk result (λ _. ticket.now.number ≤ length self.now.port.history) }
        ensures errors { IfErr result (λ e. is_of_wait e ≡ true) }
    {
        let full = self.is_full();
        let stage = self.stage(ticket.tag);
        awaited(full, client, ticket, stage)
    }

    /// The steps that the engine may do.
    ///
    /// # Errors
    ///
    /// `HistoryFull`.
    pub(crate) fn ready(&self) -> Result<ArrayVec<EngineStep, SLOT_COUNT>, PortError>
        ensures steps { (o : Origin) (list : List Step) → PortAgrees self.now.port o list
            → MatchResult result
            (λ steps. (is_trace_full (trace o list) ≡ false) × (steps.items ≡ engine_ready o list))
            (λ e. (is_trace_full (trace o list) ≡ true) × (e ≡ PortError.HistoryFull)) }
        ensures errors { IfErr result (λ e. is_of_engine e ≡ true) }
    {
        if self.is_full() {
            return Err(PortError::HistoryFull);
        }
        Ok(self.port.ready())
    }

    /// Does one of the steps that the engine may do.
    ///
    /// # Errors
    ///
    /// `OutOfMemory`. The port is then as before.
    pub(crate) fn turn(&mut self, choice: usize) -> Result<(), PortError>
        ensures step { MatchResult result
            (λ _. (o : Origin) (list : List Step) → PortAgrees self.old.port o list
            → PortAgrees self.new.port o (with_step (chosen choice (engine_ready o list)) list))
            (λ _. self.new.port ≡ self.old.port) }
        ensures memory { IfErr result (λ e. (o : Origin) (list : List Step)
            → PortAgrees self.old.port o list → e ≡ PortError.OutOfMemory) }
        ensures errors { IfErr result (λ e. is_of_engine e ≡ true) }
    {
        let Desk {
            port,
            book: _,
            is_given_up: _,
        } = self;
        port.turn(choice)?;
        Ok(())
    }
}
