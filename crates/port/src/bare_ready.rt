//! Which steps of the engine may be done where there is room for them.

use crate::bare::BarePort;
use arrayvec::ArrayVec;
use fis::{SLOT_COUNT, Tag};
use port_history::EngineStep;

impl BarePort {
    ghost use Rattle.std.specs.Prelude.{◌≡◌, ◌+◌, ◌++◌, length, is_none};
    ghost use Rattle.fis.specs.Tags.{slot_count};
    ghost use Rattle.port_history.specs.declared.step.EngineStep.TheVariants as engine;
    ghost use Rattle.port_history.specs.declared.step.Step.TheVariants as steps;
    ghost use Rattle.port_history.specs.Ready.{those, ready_steps, count_passing};
    ghost use Rattle.port.specs.State.{refusal_on_bare};

    /// The steps that the engine may do now: Issue, Accept, Complete and Recover, each by tag.
    pub(crate) fn ready(&self) -> ArrayVec<EngineStep, SLOT_COUNT>
        ensures { result.items ≡ ready_steps (λ step. is_none (refusal_on_bare self.now step)) }
    {
        let mut ready = ArrayVec::new();
        self.add_issues(&mut ready);
        self.add_accepts(&mut ready);
        self.add_completes(&mut ready);
        if self.has_failed().is_ok() {
            ready.push(EngineStep::Recover);
        }
        ready
    }

    /// Adds the tags that may be issued.
    fn add_issues(&self, ready: &mut ArrayVec<EngineStep, SLOT_COUNT>)
        requires { length ready.old.items ≡ 0 }
        ensures { ready.new.items ≡ ready.old.items
            ++ those engine.Issue (λ t. is_none (refusal_on_bare self.now (steps.Issue t)))
            slot_count }
    {
        for number in 0..SLOT_COUNT as u8 {
            let tag = Tag::low_bits(number);
            if self.prepared(tag).is_ok() {
                ready.push(EngineStep::Issue { tag });
            }
        }
    }

    /// Adds the tags that the device may take.
    fn add_accepts(&self, ready: &mut ArrayVec<EngineStep, SLOT_COUNT>)
        requires { length ready.old.items
            ≡ count_passing (λ t. is_none (refusal_on_bare self.now (steps.Issue t))) slot_count }
        ensures { ready.new.items ≡ ready.old.items
            ++ those engine.Accept (λ t. is_none (refusal_on_bare self.now (steps.Accept t)))
            slot_count }
    {
        for number in 0..SLOT_COUNT as u8 {
            let tag = Tag::low_bits(number);
            if self.issued(tag).is_ok() {
                ready.push(EngineStep::Accept { tag });
            }
        }
    }

    /// Adds the tags that the device may complete.
    fn add_completes(&self, ready: &mut ArrayVec<EngineStep, SLOT_COUNT>)
        requires { length ready.old.items
            ≡ count_passing (λ t. is_none (refusal_on_bare self.now (steps.Issue t))) slot_count
            + count_passing (λ t. is_none (refusal_on_bare self.now (steps.Accept t))) slot_count }
        ensures { ready.new.items ≡ ready.old.items
            ++ those engine.Complete (λ t. is_none (refusal_on_bare self.now (steps.Complete t)))
            slot_count }
    {
        for number in 0..SLOT_COUNT as u8 {
            let tag = Tag::low_bits(number);
            if self.accepted(tag).is_ok() {
                ready.push(EngineStep::Complete { tag });
            }
        }
    }
}
