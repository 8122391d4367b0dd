//! What the engine may do, and lists of steps.

use crate::port::Port;
use arrayvec::ArrayVec;
use fis::{SLOT_COUNT, Tag};
use port_history::{EngineStep, PlayError, PortError, Request, Step};

impl Port {
    ghost use Rattle.std.specs.Prelude.{◌≡◌, ◌+◌, ◌<◌, ◌++◌, ℕ, List, [], ◌∷◌, length, reverse, option_map, is_none, Ok, None, OnOk, OnErr, IfOk, IfErr};
    ghost use Rattle.fis.specs.Tags.{slot_count};
    ghost use Rattle.history.specs.Opening.{Origin};
    ghost use Rattle.port_history.specs.declared.step.EngineStep.TheVariants as engine;
    ghost use Rattle.port_history.specs.declared.step.Step.{Step};
    ghost use Rattle.port_history.specs.declared.step.Step.TheVariants as steps;
    ghost use Rattle.port_history.specs.Ready.{those, ready_steps, engine_ready, chosen, with_step, as_step, count_passing};
    ghost use Rattle.port_history.specs.Refusals.{refusal, IsRefusedBy};
    ghost use Rattle.port_history.specs.Steps.{trace};
    ghost use Rattle.port.specs.Agreement.{PortAgrees, IsStopped, MakesStep, NumbersStep, RefusesStep};
    ghost use Rattle.port.specs.State.{refusal_on, IsPut};

    /// Does a step.
    ///
    /// # Errors
    ///
    /// Those of its call. The port is then as before.
    pub fn step(&mut self, step: &Step) -> Result<(), PortError>
        ensures agrees { MakesStep self.old self.new step.now result }
        ensures refused { RefusesStep self.old step.now result }
        ensures err { OnErr result (self.new ≡ self.old) }
    {
        match *step {
            Step::Put {
                client,
                tag,
                ref request,
            } => {
                self.put_copy(client, tag, request)?;
            }
            Step::Issue { tag } => {
                self.issue(tag)?;
            }
            Step::Accept { tag } => {
                self.accept(tag)?;
            }
            Step::Complete { tag } => {
                self.complete(tag)?;
            }
            Step::Recover => {
                self.recover()?;
            }
            Step::Reset { client, kind } => {
                self.reset(client, kind)?;
            }
            Step::Take { client, tag } => {
                self.take(client, tag)?;
            }
        }
        Ok(())
    }

    /// Puts a copy of a request.
    fn put_copy(&mut self, client: u32, tag: Tag, request: &Request) -> Result<u64, PortError>
        ensures agrees { MakesStep self.old self.new (steps.Put client tag request.now) result }
        ensures refused { RefusesStep self.old (steps.Put client tag request.now) result }
        ensures err { OnErr result (self.new ≡ self.old) }
    {
        self.do_put_copy(client, tag, request)
    }

    fn do_put_copy(&mut self, client: u32, tag: Tag, request: &Request) -> Result<u64, PortError>
        ensures refused { IsRefusedBy (refusal_on self.old (steps.Put client tag request.now))
            result }
        ensures state { OnOk result (IsPut self.old self.new client tag request.now) }
        ensures slot { tag < slot_count }
        ensures err { OnErr result (self.new ≡ self.old) }
    {
        self.may_put(tag, request)?;
        let request = request.copy(self.bare.alloc())?;
        self.do_put(client, tag, request)
    }

    /// Does steps one after the other, and stops at the first refused one: the steps before it are done.
    ///
    /// # Errors
    ///
    /// The place of the refused step, and why it is refused.
    pub fn play(&mut self, steps: &[Step]) -> Result<(), PlayError>
        ensures done { OnOk result ((o : Origin) (list : List Step) → PortAgrees self.old o list
            → PortAgrees self.new o (reverse steps.now ++ list)) }
        ensures stops { IfErr result (λ e. (o : Origin) (list : List Step)
            → PortAgrees self.old o list
            → IsStopped self.new o steps.now e.at e.error list) }
    {
        let mut at = 0;
        for step in steps {
            if let Err(error) = self.step(step) {
                return Err(PlayError { at, error });
            }
            at += 1;
        }
        Ok(())
    }

    /// Does the step at `choice`, modulo their number, of those that are ready. It answers the number of the step, and
    /// `None` where no step is ready.
    ///
    /// # Errors
    ///
    /// `OutOfMemory`. The port is then as before.
    pub fn turn(&mut self, choice: usize) -> Result<Option<u64>, PortError>
        ensures agrees { OnOk result ((o : Origin) (list : List Step) → PortAgrees self.old o list
            → PortAgrees self.new o (with_step (chosen choice (engine_ready o list)) list)) }
        ensures number { IfOk result (λ n. (o : Origin) (list : List Step)
            → PortAgrees self.old o list
            → n ≡ option_map (λ _. 1 + length (trace o list)) (chosen choice
            (engine_ready o list))) }
        ensures idle { (o : Origin) (list : List Step) → PortAgrees self.old o list
            → engine_ready o list ≡ []
            → (result ≡ Ok None) × (self.new ≡ self.old) }
        ensures none { (o : Origin) (list : List Step) → PortAgrees self.old o list
            → result ≡ Ok None
            → engine_ready o list ≡ [] }
        ensures memory { IfErr result (λ e. (o : Origin) (list : List Step)
            → PortAgrees self.old o list
            → e ≡ PortError.OutOfMemory) }
        ensures err { OnErr result (self.new ≡ self.old) }
    {
        let Some(step) = self.pick(choice) else {
            return Ok(None);
        };
        let number = self.engine_step(step)?;
        Ok(Some(number))
    }

    /// The step at `choice`, modulo their number, of those that are ready.
    fn pick(&self, choice: usize) -> Option<EngineStep>
        ensures { (o : Origin) (list : List Step) → PortAgrees self.now o list
            → result ≡ chosen choice (engine_ready o list) }
    {
        let ready = self.ready();
        let steps = ready.as_slice();
        if steps.is_empty() {
            return None;
        }
        steps.get(choice % steps.len()).copied()
    }

    /// Does a step of the engine.
    fn engine_step(&mut self, step: EngineStep) -> Result<u64, PortError>
        ensures agrees { MakesStep self.old self.new (as_step step) result }
        ensures number { NumbersStep self.old result }
        ensures refused { RefusesStep self.old (as_step step) result }
        ensures err { OnErr result (self.new ≡ self.old) }
    {
        match step {
            EngineStep::Issue { tag } => self.issue(tag),
            EngineStep::Accept { tag } => self.accept(tag),
            EngineStep::Complete { tag } => self.complete(tag),
            EngineStep::Recover => self.recover(),
        }
    }

    /// The steps that the engine may do now: Issue, Accept, Complete and Recover, each by tag.
    pub fn ready(&self) -> ArrayVec<EngineStep, SLOT_COUNT>
        ensures { (o : Origin) (list : List Step) → PortAgrees self.now o list
            → result.items ≡ engine_ready o list }
    {
        self.engine_steps()
    }

    fn engine_steps(&self) -> ArrayVec<EngineStep, SLOT_COUNT>
        ensures { result.items ≡ ready_steps (λ step. is_none (refusal_on self.now step)) }
    {
        match self.room() {
            Ok(()) => self.bare.ready(),
            Err(_) => ArrayVec::new(),
        }
    }
}
