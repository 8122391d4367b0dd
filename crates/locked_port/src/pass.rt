//! Passes: the right to act as one client, or as the engine.

ghost use Rattle.std.specs.Prelude.{◌≡◌, ◌<◌, vec_len, sum_by};
ghost use Rattle.locked_port.specs.Hands.{hand_count};

use crate::desk::Desk;
use crate::tag_board::TagSeat;
use crate::ticket::{Receipt, Ticket};
use fis::Tag;
use port::{Built, PortError};
use std::alloc::Global;
use std::marker::{Brand, Model};
use std::sync::ledger::{Ledger, Share};

/// Names one locked port.
pub trait PortName: Ledger {
    ghost use Rattle.std.specs.Prelude.{ℕ};

    /// How many passes there are, the engine's too.
    ghost passes: { ℕ };
}

impl PortName for Brand {
    ghost passes = { 0 };
}

/// The right to act as one client, or as the engine. Contracts see the client, how many of its calls put or took
/// something, and the tags that it holds.
#[derive(Drop)]
pub struct Pass<L: PortName> {
    client: u32,
    share: Share<L>,
    seat: TagSeat,
}

impl<L: PortName> Model for Pass<L> {
    ghost use Rattle.std.specs.Prelude.{◌≡◌};
    ghost use Rattle.locked_port.specs.Hands.{Hand, hand};

    ghost Value = { Hand };

    ghost view = { λ p. hand p.client p.share.amount p.seat.held };

    ghost invariant = { λ p. p.share.parts ≡ 1 };
}

impl<L: PortName> Pass<L> {
    ghost use Rattle.std.specs.Prelude.{◌≡◌, ◌+◌, ◌<◌, List, ◌∷◌, length, ◌++◌, [], Ok, Err, is_some, true, IfOk, IfErr, OnOk, IsOkUnless, MatchResult, MatchOption};
    ghost use Rattle.history.specs.Opening.{Origin};
    ghost use Rattle.port_history.specs.declared.error.PortError.{PortError};
    ghost use Rattle.port_history.specs.declared.step.Step.{Step};
    ghost use Rattle.port_history.specs.declared.step.Step.TheVariants as steps;
    ghost use Rattle.port_history.specs.Refusals.{refusal, IsRefusedBy};
    ghost use Rattle.port_history.specs.Requests.{is_sized};
    ghost use Rattle.port_history.specs.Steps.{trace};
    ghost use Rattle.port.specs.Agreement.{PortAgrees};
    ghost use Rattle.locked_port.specs.Awaits.{awaited, IsReceiptOfTake, IsWaitRefused, is_of_submit, is_of_wait};
    ghost use Rattle.locked_port.specs.Hands.{hand, hands, counted, Claims, Frees};

    /// The client: 1 and up, and the engine's one behind the last client's.
    pub fn client(&self) -> u32
        ensures { result ≡ self.now.client }
    {
        self.client
    }

    /// Deals one more pass, with a seat at the board.
    fn deal_one(
        passes: &mut Vec<Pass<L>>,
        whole: &mut Share<L>,
        first: &mut TagSeat,
        client: u32,
    ) -> Result<(), PortError>
        requires { (0 < whole.old.parts) × (whole.old.amount ≡ 0) }
        ensures passes { OnOk result (passes.new.items
            ≡ passes.old.items ++ hand client 0 0 ∷ []) }
        ensures whole { OnOk result ((whole.new.parts + 1 ≡ whole.old.parts)
            × (whole.new.amount ≡ 0)) }
        ensures memory { IsOkUnless result PortError.OutOfMemory }
    {
        let share = whole.split_off(1, 0);
        let seat = first.split()?;
        let pass = Pass {
            client,
            share,
            seat,
        };
        if passes.push(pass).is_err() {
            return Err(PortError::OutOfMemory);
        }
        Ok(())
    }

    /// The passes 1 to `many`, each with a seat at the board.
    pub(crate) fn deal(
        alloc: Global,
        whole: Share<L>,
        mut first: TagSeat,
        many: u32,
    ) -> Result<Vec<Pass<L>>, PortError>
        requires { (whole.parts ≡ many) × (whole.amount ≡ 0) }
        ensures passes { IfOk result (λ passes. passes.items ≡ hands many) }
        ensures memory { IsOkUnless result PortError.OutOfMemory }
    {
        let mut whole = whole;
        let mut passes = Vec::new(alloc);
        for k in 0..many {
            Self::deal_one(&mut passes, &mut whole, &mut first, k + 1)?;
        }
        Ok(passes)
    }

    /// Claims a tag, without the lock.
    pub(crate) fn claim(&mut self) -> Option<Tag>
        ensures { MatchOption result (self.new ≡ self.old) (λ tag. Claims tag self.old self.new) }
    {
        self.seat.claim()
    }

    /// Gives a tag back, without the lock, where the seat holds it.
    pub(crate) fn release(&mut self, tag: Tag)
        ensures { Frees tag self.old self.new }
    {
        if self.seat.holds(tag) {
            self.seat.release(tag);
        }
    }

    /// Puts what was built.
    pub(crate) fn submit(&mut self, desk: &mut Desk<L>, built: Built) -> Result<Ticket, PortError>
        requires { is_sized built.request ≡ true }
        ensures hand { MatchResult result
            (λ t. (t.client ≡ self.old.client) × (t.tag ≡ built.tag)
            × (self.new ≡ counted self.old))
            (λ _. self.new ≡ self.old) }
        ensures step { MatchResult result
            (λ t. (o : Origin) (list : List Step) → PortAgrees desk.old.port o list
            → (t.number ≡ 1 + length (trace o list))
            × PortAgrees desk.new.port o (steps.Put self.old.client built.tag built.request ∷ list))
            (λ _. desk.new.port ≡ desk.old.port) }
        ensures refused { (o : Origin) (list : List Step) → PortAgrees desk.old.port o list
            → IsRefusedBy
            (refusal (trace o list) (steps.Put self.old.client built.tag built.request)) result }
        ensures errors { IfErr result (λ e. is_of_submit true e ≡ true) }
    {
        let ticket = desk.submit(&mut self.share, self.client, built)?;
        Ok(ticket)
    }

    /// Takes the answer of a ticket, or tells by `None` that it is still to come.
    pub(crate) fn take(
        &mut self,
        desk: &mut Desk<L>,
        ticket: &Ticket,
    ) -> Result<Option<Receipt>, PortError>
        ensures hand { MatchResult result
            (λ o. MatchOption o (self.new ≡ self.old)
            (λ r. (r.step ≡ steps.Take self.old.client ticket.now.tag)
            × (ticket.now.number < r.number)
            × (self.new ≡ counted self.old)))
            (λ _. self.new ≡ self.old) }
        ensures step { MatchResult result
            (λ o. MatchOption o (desk.new.port ≡ desk.old.port)
            (λ r. (o : Origin) (list : List Step) → PortAgrees desk.old.port o list
            → IsReceiptOfTake (trace o list) ticket.now.tag r × PortAgrees desk.new.port o (r.step
            ∷ list)))
            (λ _. desk.new.port ≡ desk.old.port) }
        ensures told { (o : Origin) (list : List Step) → PortAgrees desk.old.port o list
            → MatchResult result
            (λ taken. awaited (trace o list) self.old.client ticket.now ≡ Ok (is_some taken))
            (λ e. IsWaitRefused (awaited (trace o list) self.old.client ticket.now) e) }
        ensures errors { IfErr result (λ e. is_of_wait e ≡ true) }
    {
        match desk.take(&mut self.share, self.client, ticket)? {
            None => Ok(None),
            Some(receipt) => Ok(Some(receipt)),
        }
    }
}

/// The shares of all passes in one.
pub(crate) fn gather<L: PortName>(mut passes: Vec<Pass<L>>) -> Share<L>
    requires { 0 < vec_len passes }
    ensures { (result.parts ≡ vec_len passes) × (result.amount ≡ sum_by hand_count passes.items) }
{
    let Some(
        Pass {
            client: _,
            share: mut all,
            seat: _,
        },
    ) = passes.pop()
    else {
        unreachable!()
    };
    while let Some(
        Pass {
            client: _,
            share,
            seat: _,
        },
    ) = passes.pop()
    {
        all.merge(share);
    }
    all
}
