//! Which steps a port refuses, and in which order.

ghost use Rattle.std.specs.Prelude.{◌≡◌, true};
ghost use Rattle.port_history.specs.Refusals.{has_slot};

use crate::port::Port;
use fis::{SLOT_COUNT, Tag};
use port_history::{PortError, Put, Request, Stage, Step};

/// How many steps a history has room for.
const MOST_STEPS: usize = 1_048_576;

/// Every tag numbers a slot.
fn has_slot(step: &Step) -> bool
    ensures value { result ≡ true }
    ensures slot { has_slot step.now ≡ true }
{
    match *step {
        Step::Put { tag, .. }
        | Step::Issue { tag }
        | Step::Accept { tag }
        | Step::Complete { tag }
        | Step::Take { tag, .. } => usize::from(tag.number()) < SLOT_COUNT,
        Step::Recover | Step::Reset { .. } => true,
    }
}

impl Port {
    ghost use Rattle.std.specs.Prelude.{◌≡◌, ◌+◌, ◌⊎◌, ℕ, List, length, is_some, is_none, IfOk, MatchResult, None, Some, true, false};
    ghost use Rattle.history.specs.declared.reset.ResetKind.{ResetKind};
    ghost use Rattle.history.specs.Opening.{Origin};
    ghost use Rattle.port_history.specs.declared.step.Step.{Step};
    ghost use Rattle.port_history.specs.declared.step.Step.TheVariants as steps;
    ghost use Rattle.port_history.specs.Refusals.{refusal, IsTold, most_steps};
    ghost use Rattle.port_history.specs.Requests.{is_sized};
    ghost use Rattle.port_history.specs.Steps.{trace};
    ghost use Rattle.port.specs.Agreement.{PortAgrees};
    ghost use Rattle.port.specs.Answers.{stage_at};
    ghost use Rattle.port.specs.State.{is_history_full, refusal_on};

    /// Why the step would be refused, for another cause than memory; None where it would not be.
    pub fn refuses(&self, step: &Step) -> Option<PortError>
        ensures { (o : Origin) (list : List Step) → PortAgrees self.now o list
            → result ≡ refusal (trace o list) step.now }
    {
        if has_slot(step) {
            self.refuses_so(step)
        } else {
            None
        }
    }

    fn refuses_so(&self, step: &Step) -> Option<PortError>
        ensures { result ≡ refusal_on self.now step.now }
    {
        match *step {
            Step::Put {
                tag,
                ref request,
                ..
            } => self.may_put(tag, request).err(),
            Step::Issue { tag } => self.prepared(tag).err(),
            Step::Accept { tag } => self.issued(tag).err(),
            Step::Complete { tag } => self.accepted(tag).err(),
            Step::Recover => self.has_failed().err(),
            Step::Reset { .. } => self.may_reset().err(),
            Step::Take { client, tag } => self.answered(client, tag).err(),
        }
    }

    /// Whether the step would not be refused for another cause than memory.
    pub fn may(&self, step: &Step) -> bool
        ensures { (o : Origin) (list : List Step) → PortAgrees self.now o list
            → result ≡ is_none (refusal (trace o list) step.now) }
    {
        self.refuses(step).is_none()
    }

    /// There is room for a step.
    pub(crate) fn room(&self) -> Result<(), PortError>
        ensures { MatchResult result (λ _. is_history_full self.now ≡ false)
            (λ e. (is_history_full self.now ≡ true) × (e ≡ PortError.HistoryFull)) }
    {
        if self.history.len() >= MOST_STEPS {
            return Err(PortError::HistoryFull);
        }
        Ok(())
    }

    /// A request may be put in the slot.
    pub(crate) fn may_put(&self, tag: Tag, request: &Request) -> Result<(), PortError>
        ensures order { (client : ℕ)
            → IsTold (refusal_on self.now (steps.Put client tag request.now)) result }
        ensures sized { IfOk result (λ _. is_sized request.now ≡ true) }
        ensures room { IfOk result (λ _. is_history_full self.now ≡ false) }
    {
        self.room()?;
        self.bare.may_put(tag, request)
    }

    /// The Put of a slot that may be issued.
    pub(crate) fn prepared(&self, tag: Tag) -> Result<Put, PortError>
        ensures order { IsTold (refusal_on self.now (steps.Issue tag)) result }
        ensures put { IfOk result (λ put. stage_at self.now.slots tag ≡ Stage.Prepared put) }
    {
        self.room()?;
        self.bare.prepared(tag)
    }

    /// The Put of a slot that the device may take.
    pub(crate) fn issued(&self, tag: Tag) -> Result<Put, PortError>
        ensures order { IsTold (refusal_on self.now (steps.Accept tag)) result }
        ensures put { IfOk result (λ put. stage_at self.now.slots tag ≡ Stage.Issued put) }
    {
        self.room()?;
        self.bare.issued(tag)
    }

    /// The Put of a slot that the device may complete.
    pub(crate) fn accepted(&self, tag: Tag) -> Result<Put, PortError>
        ensures order { IsTold (refusal_on self.now (steps.Complete tag)) result }
        ensures put { IfOk result (λ put. stage_at self.now.slots tag ≡ Stage.Accepted put) }
        ensures mended { IfOk result (λ _. self.now.failed ≡ None) }
    {
        self.room()?;
        self.bare.accepted(tag)
    }

    /// The port may recover.
    pub(crate) fn has_failed(&self) -> Result<(), PortError>
        ensures order { IsTold (refusal_on self.now steps.Recover) result }
        ensures failed { IfOk result (λ _. is_some self.now.failed ≡ true) }
    {
        self.room()?;
        self.bare.has_failed()
    }

    /// The port may be reset.
    pub(crate) fn may_reset(&self) -> Result<(), PortError>
        ensures order { (client : ℕ) (kind : ResetKind)
            → IsTold (refusal_on self.now (steps.Reset client kind)) result }
        ensures room { IfOk result (λ _. is_history_full self.now ≡ false) }
    {
        self.room()
    }

    /// The Put of a slot whose answer the client may take.
    pub(crate) fn answered(&self, client: u32, tag: Tag) -> Result<Put, PortError>
        ensures order { IsTold (refusal_on self.now (steps.Take client tag)) result }
        ensures put { IfOk result (λ put. stage_at self.now.slots tag ≡ Stage.Answered put) }
    {
        self.room()?;
        self.bare.answered(client, tag)
    }
}
