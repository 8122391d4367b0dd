//! The steps of a port that lives.

use crate::live::LivePort;
use arrayvec::ArrayVec;
use audit::AuditLine;
use drive::ResetKind;
use fis::{SLOT_COUNT, Tag};
use port_history::{Answer, EngineStep, PortError, Request};

impl LivePort {
    ghost use Rattle.std.specs.Prelude.{◌≡◌, ◌+◌, ◌<◌, ◌≤◌, ℕ, List, [], ◌∷◌, length, unwrap_or, is_none, option_map, Ok, OnOk, OnErr, IfOk, IfErr, None};
    ghost use Rattle.fis.specs.Tags.{slot_count};
    ghost use Rattle.slots.specs.Fetch.{fetched};
    ghost use Rattle.slots.specs.Layout.{buffer_size};
    ghost use Rattle.slots.specs.declared.fetched.Fetched.{Fetched};
    ghost use Rattle.history.specs.Answers.{payload_of};
    ghost use Rattle.history.specs.Opening.{Origin};
    ghost use Rattle.history.specs.Tcg.{tcg};
    ghost use Rattle.port_history.specs.declared.stages.Put.{Put};
    ghost use Rattle.port_history.specs.declared.stages.Stage.TheVariants as stages;
    ghost use Rattle.port_history.specs.declared.step.Step.{Step};
    ghost use Rattle.port_history.specs.declared.step.Step.TheVariants as steps;
    ghost use Rattle.port_history.specs.Ready.{engine_may, ready_steps, chosen, with_step, as_step};
    ghost use Rattle.port_history.specs.Refusals.{IsRefusedBy};
    ghost use Rattle.port_history.specs.Requests.{no_bytes};
    ghost use Rattle.port_history.specs.Steps.{trace, answer};
    ghost use Rattle.headline.specs.Transfers.{IsServedAnswer};
    ghost use Rattle.port.specs.Answers.{stage_at, outcome_at, taken};
    ghost use Rattle.port.specs.Live.{LiveAgrees, LiveAccepted, LiveMade, IsNoted, MakesStep, NumbersStep, RefusesStep};
    ghost use Rattle.port.specs.State.{refusal_on_bare, entry_of, taken_entry, IsPut, IsIssued, IsCompleted, IsRecovered, IsReset, IsTaken, IsReady};

    /// A client puts a request in a free slot, and its data in the slot's buffer. It answers the number of the step.
    ///
    /// # Errors
    ///
    /// In this order: `Size`, `SlotBusy`, `OutOfMemory`. The port is then as before.
    pub fn put(&mut self, client: u32, tag: Tag, request: &Request) -> Result<u64, PortError>
        ensures agrees { MakesStep self.old self.new (steps.Put client tag request.now) result }
        ensures number { NumbersStep self.old result }
        ensures refused { RefusesStep self.old (steps.Put client tag request.now) result }
        ensures err { OnErr result (self.new ≡ self.old) }
    {
        self.do_put(client, tag, request)
    }

    fn do_put(&mut self, client: u32, tag: Tag, request: &Request) -> Result<u64, PortError>
        ensures refused { IsRefusedBy
            (refusal_on_bare self.old.bare (steps.Put client tag request.now)) result }
        ensures number { IfOk result (λ n. n ≡ 1 + self.old.bare.count) }
        ensures state { OnOk result (LiveMade self.old self.new
            (entry_of (steps.Put client tag request.now))
            (λ p q. IsPut p q client tag request.now)) }
        ensures slot { tag < slot_count }
        ensures err { OnErr result (self.new ≡ self.old) }
    {
        self.bare.may_put(tag, request)?;
        let number = self.bare.next_number()?;
        self.bare.lay(client, tag, request, number);
        Ok(number)
    }

    /// Issues a prepared command. It answers the number of the step.
    ///
    /// # Errors
    ///
    /// In this order: `Failed`, `NotPrepared`, `Queue`, `OutOfMemory`. The port is then as before.
    pub fn issue(&mut self, tag: Tag) -> Result<u64, PortError>
        ensures agrees { MakesStep self.old self.new (steps.Issue tag) result }
        ensures number { NumbersStep self.old result }
        ensures refused { RefusesStep self.old (steps.Issue tag) result }
        ensures err { OnErr result (self.new ≡ self.old) }
    {
        self.do_issue(tag)
    }

    fn do_issue(&mut self, tag: Tag) -> Result<u64, PortError>
        ensures refused { IsRefusedBy (refusal_on_bare self.old.bare (steps.Issue tag)) result }
        ensures number { IfOk result (λ n. n ≡ 1 + self.old.bare.count) }
        ensures state { OnOk result (LiveMade self.old self.new (entry_of (steps.Issue tag))
            (λ p q. IsIssued p q tag)) }
        ensures slot { tag < slot_count }
        ensures err { OnErr result (self.new ≡ self.old) }
    {
        let put = self.bare.prepared(tag)?;
        let number = self.bare.next_number()?;
        self.bare.issue_put(tag, put, number);
        Ok(number)
    }

    /// The device takes an issued command. A queued one is held, or fails the port; every other is executed whole and
    /// answered. It answers the number of the step.
    ///
    /// # Errors
    ///
    /// In this order: `Failed`, `NotIssued`, `OutOfMemory`. The port is then as before.
    pub fn accept(&mut self, tag: Tag) -> Result<u64, PortError>
        ensures agrees { MakesStep self.old self.new (steps.Accept tag) result }
        ensures number { NumbersStep self.old result }
        ensures refused { RefusesStep self.old (steps.Accept tag) result }
        ensures err { OnErr result (self.new ≡ self.old) }
    {
        self.do_accept(tag)
    }

    fn do_accept(&mut self, tag: Tag) -> Result<u64, PortError>
        ensures refused { ((put : Put) → stage_at self.old.bare.slots tag ≡ stages.Issued put
            → (f : Fetched) × (fetched self.old.bare.memory tag ≡ Ok f)
            × (payload_of self.old.bare.drive.tper.store.config f.fis ≤ buffer_size))
            → IsRefusedBy (refusal_on_bare self.old.bare (steps.Accept tag)) result }
        ensures number { IfOk result (λ n. n ≡ 1 + self.old.bare.count) }
        ensures state { OnOk result (LiveAccepted self.old self.new tag) }
        ensures slot { tag < slot_count }
        ensures err { OnErr result (self.new ≡ self.old) }
    {
        let put = self.bare.issued(tag)?;
        let number = self.bare.next_number()?;
        let line = self.bare.accept_put(tag, put, number)?;
        self.note(line, number);
        Ok(number)
    }

    /// Notes the line of a denial, if there was one, in the step of this number.
    fn note(&mut self, line: Option<AuditLine>, number: u64)
        requires number { number ≡ self.old.bare.count }
        requires more { self.old.denials < number }
        ensures bare { self.new.bare ≡ self.old.bare }
        ensures noted { IsNoted self.old.denials self.old.latest self.new line }
    {
        if let Some(line) = line {
            self.denials += 1;
            self.latest.push_back(line);
        }
    }

    /// The device moves the data of an accepted command and ends it. It answers the number of the step.
    ///
    /// # Errors
    ///
    /// In this order: `Failed`, `NotAccepted`, `OutOfMemory`. The port is then as before.
    pub fn complete(&mut self, tag: Tag) -> Result<u64, PortError>
        ensures agrees { MakesStep self.old self.new (steps.Complete tag) result }
        ensures number { NumbersStep self.old result }
        ensures refused { RefusesStep self.old (steps.Complete tag) result }
        ensures err { OnErr result (self.new ≡ self.old) }
    {
        self.do_complete(tag)
    }

    fn do_complete(&mut self, tag: Tag) -> Result<u64, PortError>
        ensures refused { ((put : Put) → stage_at self.old.bare.slots tag ≡ stages.Accepted put
            → self.old.bare.failed ≡ None → IsReady self.old.bare.drive tag)
            → IsRefusedBy (refusal_on_bare self.old.bare (steps.Complete tag)) result }
        ensures number { IfOk result (λ n. n ≡ 1 + self.old.bare.count) }
        ensures state { OnOk result (LiveMade self.old self.new (entry_of (steps.Complete tag))
            (λ p q. IsCompleted p q tag)) }
        ensures slot { tag < slot_count }
        ensures err { OnErr result (self.new ≡ self.old) }
    {
        let put = self.bare.accepted(tag)?;
        let number = self.bare.next_number()?;
        self.bare.complete_put(tag, put, number)?;
        Ok(number)
    }

    /// Recovers from a failed command: the port stops and starts, reads log page 10h of the device, answers the command
    /// that it names, and has the others that were out prepared again. It answers the number of the step.
    ///
    /// # Errors
    ///
    /// In this order: `NotFailed`, `OutOfMemory`. The port is then as before.
    pub fn recover(&mut self) -> Result<u64, PortError>
        ensures agrees { MakesStep self.old self.new steps.Recover result }
        ensures number { NumbersStep self.old result }
        ensures refused { RefusesStep self.old steps.Recover result }
        ensures err { OnErr result (self.new ≡ self.old) }
    {
        self.do_recover()
    }

    fn do_recover(&mut self) -> Result<u64, PortError>
        ensures refused { IsRefusedBy (refusal_on_bare self.old.bare steps.Recover) result }
        ensures number { IfOk result (λ n. n ≡ 1 + self.old.bare.count) }
        ensures state { OnOk result (LiveMade self.old self.new (entry_of steps.Recover)
            (λ p q. IsRecovered p q)) }
        ensures err { OnErr result (self.new ≡ self.old) }
    {
        self.bare.has_failed()?;
        let number = self.bare.next_number()?;
        self.bare.mend(number)?;
        Ok(number)
    }

    /// Resets the port and the device: every command that waits is answered `Reset`. It answers the number of the step.
    ///
    /// # Errors
    ///
    /// `OutOfMemory`. The port is then as before.
    pub fn reset(&mut self, client: u32, kind: ResetKind) -> Result<u64, PortError>
        ensures agrees { MakesStep self.old self.new (steps.Reset client kind) result }
        ensures number { NumbersStep self.old result }
        ensures refused { RefusesStep self.old (steps.Reset client kind) result }
        ensures err { OnErr result (self.new ≡ self.old) }
    {
        self.do_reset(client, kind)
    }

    fn do_reset(&mut self, client: u32, kind: ResetKind) -> Result<u64, PortError>
        ensures refused { IsRefusedBy (refusal_on_bare self.old.bare (steps.Reset client kind))
            result }
        ensures number { IfOk result (λ n. n ≡ 1 + self.old.bare.count) }
        ensures state { OnOk result (LiveMade self.old self.new
            (entry_of (steps.Reset client kind)) (λ p q. IsReset p q client kind)) }
        ensures err { OnErr result (self.new ≡ self.old) }
    {
        let _client = client;
        let number = self.bare.next_number()?;
        self.bare.reset_all(kind, number);
        Ok(number)
    }

    /// A client takes its answer, and the slot is free. It answers the number of the step and the answer.
    ///
    /// `served`: what it is answered to a read or write, and not by a reset, is done exactly where every range that the
    /// transfer touches permits it by the rows in force at its last acceptance.
    ///
    /// # Errors
    ///
    /// In this order: `NotAnswered`, `NotYours`, `OutOfMemory`. The port is then as before.
    pub fn take(&mut self, client: u32, tag: Tag) -> Result<(u64, Answer), PortError>
        ensures agrees { MakesStep self.old self.new (steps.Take client tag) result }
        ensures answer { IfOk result (λ r. (o : Origin) (list : List Step)
            → LiveAgrees self.old o list
            → (r.0 ≡ 1 + length (trace o list))
            × (r.1 ≡ unwrap_or (answer (trace o list) tag) no_bytes)) }
        ensures served { IfOk result (λ r. (o : Origin) (list : List Step)
            → LiveAgrees self.old o list
            → IsServedAnswer tcg o list tag r.1) }
        ensures refused { RefusesStep self.old (steps.Take client tag) result }
        ensures err { OnErr result (self.new ≡ self.old) }
    {
        self.do_take(client, tag)
    }

    fn do_take(&mut self, client: u32, tag: Tag) -> Result<(u64, Answer), PortError>
        ensures refused { IsRefusedBy (refusal_on_bare self.old.bare (steps.Take client tag))
            result }
        ensures number { IfOk result (λ r. (r.0 ≡ 1 + self.old.bare.count)
            × (r.1 ≡ taken self.old.bare.memory tag (outcome_at self.old.bare.outcomes tag))) }
        ensures state { OnOk result (LiveMade self.old self.new
            (taken_entry client tag self.old.bare.memory (outcome_at self.old.bare.outcomes tag))
            (λ p q. IsTaken p q client tag)) }
        ensures slot { tag < slot_count }
        ensures err { OnErr result (self.new ≡ self.old) }
    {
        let _put = self.bare.answered(client, tag)?;
        let number = self.bare.next_number()?;
        let answer = self.bare.answer(tag)?;
        self.bare.set_free(tag, number);
        Ok((number, answer))
    }

    /// The steps that the engine may do now: Issue, Accept, Complete and Recover, each by tag.
    pub fn ready(&self) -> ArrayVec<EngineStep, SLOT_COUNT>
        ensures { (o : Origin) (list : List Step) → LiveAgrees self.now o list
            → result.items ≡ engine_may o list }
    {
        self.engine_steps()
    }

    fn engine_steps(&self) -> ArrayVec<EngineStep, SLOT_COUNT>
        ensures { result.items
            ≡ ready_steps (λ step. is_none (refusal_on_bare self.now.bare step)) }
    {
        self.bare.ready()
    }

    /// The step at `choice`, modulo their number, of those that are ready.
    fn pick(&self, choice: usize) -> Option<EngineStep>
        ensures { (o : Origin) (list : List Step) → LiveAgrees self.now o list
            → result ≡ chosen choice (engine_may o list) }
    {
        let ready = self.ready();
        let steps = ready.as_slice();
        if steps.is_empty() {
            return None;
        }
        steps.get(choice % steps.len()).copied()
    }

    /// Does a step of the engine.
    fn engine_step(&mut self, step: EngineStep) -> Result<u64, PortError>
        ensures agrees { MakesStep self.old self.new (as_step step) result }
        ensures number { NumbersStep self.old result }
        ensures refused { RefusesStep self.old (as_step step) result }
        ensures err { OnErr result (self.new ≡ self.old) }
    {
        match step {
            EngineStep::Issue { tag } => self.issue(tag),
            EngineStep::Accept { tag } => self.accept(tag),
            EngineStep::Complete { tag } => self.complete(tag),
            EngineStep::Recover => self.recover(),
        }
    }

    /// Does the step at `choice`, modulo their number, of those that are ready. It answers the number of the step, and
    /// `None` where no step is ready.
    ///
    /// # Errors
    ///
    /// `OutOfMemory`. The port is then as before.
    pub fn turn(&mut self, choice: usize) -> Result<Option<u64>, PortError>
        ensures agrees { OnOk result ((o : Origin) (list : List Step) → LiveAgrees self.old o list
            → LiveAgrees self.new o (with_step (chosen choice (engine_may o list)) list)) }
        ensures number { IfOk result (λ n. (o : Origin) (list : List Step)
            → LiveAgrees self.old o list
            → n ≡ option_map (λ _. 1 + length (trace o list)) (chosen choice
            (engine_may o list))) }
        ensures idle { (o : Origin) (list : List Step) → LiveAgrees self.old o list
            → engine_may o list ≡ []
            → (result ≡ Ok None) × (self.new ≡ self.old) }
        ensures none { (o : Origin) (list : List Step) → LiveAgrees self.old o list
            → result ≡ Ok None
            → engine_may o list ≡ [] }
        ensures memory { IfErr result (λ e. (o : Origin) (list : List Step)
            → LiveAgrees self.old o list
            → e ≡ PortError.OutOfMemory) }
        ensures err { OnErr result (self.new ≡ self.old) }
    {
        let Some(step) = self.pick(choice) else {
            return Ok(None);
        };
        let number = self.engine_step(step)?;
        Ok(Some(number))
    }
}
