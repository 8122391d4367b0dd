//! Which steps a port refuses where there is room for them, and in which order.

use crate::bare::BarePort;
use fis::Tag;
use port_history::{PortError, Put, Request, Stage};

impl BarePort {
    ghost use Rattle.std.specs.Prelude.{◌≡◌, ℕ, is_some, IfOk, MatchResult, None, true};
    ghost use Rattle.port_history.specs.declared.step.Step.TheVariants as steps;
    ghost use Rattle.port_history.specs.Refusals.{IsTold};
    ghost use Rattle.port_history.specs.Requests.{is_sized};
    ghost use Rattle.port.specs.Answers.{stage_at};
    ghost use Rattle.port.specs.State.{refusal_on_bare};

    /// No command has failed.
    fn running(&self) -> Result<(), PortError>
        ensures { MatchResult result (λ _. self.now.failed ≡ None)
            (λ e. (is_some self.now.failed ≡ true) × (e ≡ PortError.Failed)) }
    {
        if self.failed.is_some() {
            return Err(PortError::Failed);
        }
        Ok(())
    }

    /// A request may be put in the slot.
    pub(crate) fn may_put(&self, tag: Tag, request: &Request) -> Result<(), PortError>
        ensures order { (client : ℕ)
            → IsTold (refusal_on_bare self.now (steps.Put client tag request.now)) result }
        ensures sized { IfOk result (λ _. is_sized request.now ≡ true) }
    {
        if !request.is_sized() {
            return Err(PortError::Size);
        }
        match self.stage(tag) {
            Stage::Free => Ok(()),
            Stage::Prepared(_) | Stage::Issued(_) | Stage::Accepted(_) | Stage::Answered(_) => {
                Err(PortError::SlotBusy)
            }
        }
    }

    /// The Put of a slot that may be issued.
    pub(crate) fn prepared(&self, tag: Tag) -> Result<Put, PortError>
        ensures order { IsTold (refusal_on_bare self.now (steps.Issue tag)) result }
        ensures put { IfOk result (λ put. stage_at self.now.slots tag ≡ Stage.Prepared put) }
    {
        self.running()?;
        match self.stage(tag) {
            Stage::Prepared(put) => {
                if self.slots.mixes(put) {
                    return Err(PortError::Queue);
                }
                Ok(put)
            }
            Stage::Free | Stage::Issued(_) | Stage::Accepted(_) | Stage::Answered(_) => {
                Err(PortError::NotPrepared)
            }
        }
    }

    /// The Put of a slot that the device may take.
    pub(crate) fn issued(&self, tag: Tag) -> Result<Put, PortError>
        ensures order { IsTold (refusal_on_bare self.now (steps.Accept tag)) result }
        ensures put { IfOk result (λ put. stage_at self.now.slots tag ≡ Stage.Issued put) }
    {
        self.running()?;
        match self.stage(tag) {
            Stage::Issued(put) => Ok(put),
            Stage::Free | Stage::Prepared(_) | Stage::Accepted(_) | Stage::Answered(_) => {
                Err(PortError::NotIssued)
            }
        }
    }

    /// The Put of a slot that the device may complete.
    pub(crate) fn accepted(&self, tag: Tag) -> Result<Put, PortError>
        ensures order { IsTold (refusal_on_bare self.now (steps.Complete tag)) result }
        ensures put { IfOk result (λ put. stage_at self.now.slots tag ≡ Stage.Accepted put) }
        ensures mended { IfOk result (λ _. self.now.failed ≡ None) }
    {
        self.running()?;
        match self.stage(tag) {
            Stage::Accepted(put) => Ok(put),
            Stage::Free | Stage::Prepared(_) | Stage::Issued(_) | Stage::Answered(_) => {
                Err(PortError::NotAccepted)
            }
        }
    }

    /// The port may recover.
    pub(crate) fn has_failed(&self) -> Result<(), PortError>
        ensures order { IsTold (refusal_on_bare self.now steps.Recover) result }
        ensures failed { IfOk result (λ _. is_some self.now.failed ≡ true) }
    {
        if self.failed.is_none() {
            return Err(PortError::NotFailed);
        }
        Ok(())
    }

    /// The Put of a slot whose answer the client may take.
    pub(crate) fn answered(&self, client: u32, tag: Tag) -> Result<Put, PortError>
        ensures order { IsTold (refusal_on_bare self.now (steps.Take client tag)) result }
        ensures put { IfOk result (λ put. stage_at self.now.slots tag ≡ Stage.Answered put) }
    {
        match self.stage(tag) {
            Stage::Answered(put) => {
                if put.client != client {
                    return Err(PortError::NotYours);
                }
                Ok(put)
            }
            Stage::Free | Stage::Prepared(_) | Stage::Issued(_) | Stage::Accepted(_) => {
                Err(PortError::NotAnswered)
            }
        }
    }
}
