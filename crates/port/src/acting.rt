//! The steps of clients and of the engine.

ghost use Rattle.std.specs.Prelude.{◌≡◌, ◌<◌, ◌++◌, vec_len, vec_capacity, option_to_list};

use crate::port::Port;
use audit::AuditLine;
use fis::Tag;
use port_history::{Answer, EngineStep, PortError, Request};

/// Adds the line of a denial, if there was one.
fn note(audit: &mut Vec<AuditLine>, line: Option<AuditLine>)
    requires { vec_len audit.old < vec_capacity audit.old }
    ensures { audit.new.items ≡ audit.old.items ++ option_to_list line }
{
    if let Some(line) = line {
        audit.push_reserved(line);
    }
}

impl Port {
    ghost use Rattle.std.specs.Prelude.{◌≡◌, ◌+◌, ◌<◌, ◌≤◌, ℕ, List, ◌∷◌, length, unwrap_or, Ok, OnOk, OnErr, IfOk, None};
    ghost use Rattle.fis.specs.Tags.{slot_count};
    ghost use Rattle.slots.specs.Fetch.{fetched};
    ghost use Rattle.slots.specs.Layout.{buffer_size};
    ghost use Rattle.slots.specs.declared.fetched.Fetched.{Fetched};
    ghost use Rattle.history.specs.Answers.{payload_of};
    ghost use Rattle.history.specs.Opening.{Origin};
    ghost use Rattle.history.specs.Tcg.{tcg};
    ghost use Rattle.port_history.specs.declared.stages.Put.{Put};
    ghost use Rattle.port_history.specs.declared.stages.Stage.TheVariants as stages;
    ghost use Rattle.port_history.specs.declared.step.Step.{Step};
    ghost use Rattle.port_history.specs.declared.step.Step.TheVariants as steps;
    ghost use Rattle.port_history.specs.Refusals.{refusal, IsRefusedBy};
    ghost use Rattle.port_history.specs.Requests.{no_bytes};
    ghost use Rattle.port_history.specs.Steps.{trace, answer};
    ghost use Rattle.headline.specs.Transfers.{IsServedAnswer};
    ghost use Rattle.port.specs.Agreement.{PortAgrees, MakesStep, NumbersStep, RefusesStep};
    ghost use Rattle.port.specs.Answers.{stage_at, outcome_at, taken};
    ghost use Rattle.port.specs.State.{refusal_on, IsPut, IsIssued, IsAccepted, IsCompleted, IsTaken, IsReady};

    /// A client puts a request in a free slot, and its data in the slot's buffer. It answers the number of the step.
    ///
    /// # Errors
    ///
    /// In this order: `HistoryFull`, `Size`, `SlotBusy`, `OutOfMemory`. The port is then as before.
    pub fn put(&mut self, client: u32, tag: Tag, request: Request) -> Result<u64, PortError>
        ensures agrees { MakesStep self.old self.new (steps.Put client tag request) result }
        ensures number { NumbersStep self.old result }
        ensures refused { RefusesStep self.old (steps.Put client tag request) result }
        ensures err { OnErr result (self.new ≡ self.old) }
    {
        self.do_put(client, tag, request)
    }

    pub(crate) fn do_put(
        &mut self,
        client: u32,
        tag: Tag,
        request: Request,
    ) -> Result<u64, PortError>
        ensures refused { IsRefusedBy (refusal_on self.old (steps.Put client tag request))
            result }
        ensures number { IfOk result (λ n. n ≡ 1 + length self.old.history) }
        ensures state { OnOk result (IsPut self.old self.new client tag request) }
        ensures slot { tag < slot_count }
        ensures err { OnErr result (self.new ≡ self.old) }
    {
        self.may_put(tag, &request)?;
        let number = self.bare.next_number()?;
        self.history.reserve_put()?;
        self.bare.lay(client, tag, &request, number);
        self.history.push_put(client, tag, request);
        Ok(number)
    }

    /// Issues a prepared command. It answers the number of the step.
    ///
    /// # Errors
    ///
    /// In this order: `HistoryFull`, `Failed`, `NotPrepared`, `Queue`, `OutOfMemory`. The port is then as before.
    pub fn issue(&mut self, tag: Tag) -> Result<u64, PortError>
        ensures agrees { MakesStep self.old self.new (steps.Issue tag) result }
        ensures number { NumbersStep self.old result }
        ensures refused { RefusesStep self.old (steps.Issue tag) result }
        ensures err { OnErr result (self.new ≡ self.old) }
    {
        self.do_issue(tag)
    }

    fn do_issue(&mut self, tag: Tag) -> Result<u64, PortError>
        ensures refused { IsRefusedBy (refusal_on self.old (steps.Issue tag)) result }
        ensures number { IfOk result (λ n. n ≡ 1 + length self.old.history) }
        ensures state { OnOk result (IsIssued self.old self.new tag) }
        ensures slot { tag < slot_count }
        ensures err { OnErr result (self.new ≡ self.old) }
    {
        let put = self.prepared(tag)?;
        let number = self.bare.next_number()?;
        self.history.reserve()?;
        self.bare.issue_put(tag, put, number);
        self.history.push_engine(EngineStep::Issue { tag });
        Ok(number)
    }

    /// The device takes an issued command. A queued one is held, or fails the port; every other is executed whole and
    /// answered. It answers the number of the step.
    ///
    /// # Errors
    ///
    /// In this order: `HistoryFull`, `Failed`, `NotIssued`, `OutOfMemory`. The port is then as before.
    pub fn accept(&mut self, tag: Tag) -> Result<u64, PortError>
        ensures agrees { MakesStep self.old self.new (steps.Accept tag) result }
        ensures number { NumbersStep self.old result }
        ensures refused { RefusesStep self.old (steps.Accept tag) result }
        ensures err { OnErr result (self.new ≡ self.old) }
    {
        self.do_accept(tag)
    }

    fn do_accept(&mut self, tag: Tag) -> Result<u64, PortError>
        ensures refused { ((put : Put) → stage_at self.old.slots tag ≡ stages.Issued put
            → (f : Fetched) × (fetched self.old.memory tag ≡ Ok f)
            × (payload_of self.old.drive.tper.store.config f.fis ≤ buffer_size))
            → IsRefusedBy (refusal_on self.old (steps.Accept tag)) result }
        ensures number { IfOk result (λ n. n ≡ 1 + length self.old.history) }
        ensures state { OnOk result ((f : Fetched) → fetched self.old.memory tag ≡ Ok f
            → IsAccepted self.old self.new tag f.fis) }
        ensures slot { tag < slot_count }
        ensures err { OnErr result (self.new ≡ self.old) }
    {
        let put = self.issued(tag)?;
        let number = self.bare.next_number()?;
        self.history.reserve()?;
        self.audit.reserve(1)?;
        let line = self.bare.accept_put(tag, put, number)?;
        note(&mut self.audit, line);
        self.history.push_engine(EngineStep::Accept { tag });
        Ok(number)
    }

    /// The device moves the data of an accepted command and ends it. It answers the number of the step.
    ///
    /// # Errors
    ///
    /// In this order: `HistoryFull`, `Failed`, `NotAccepted`, `OutOfMemory`. The port is then as before.
    pub fn complete(&mut self, tag: Tag) -> Result<u64, PortError>
        ensures agrees { MakesStep self.old self.new (steps.Complete tag) result }
        ensures number { NumbersStep self.old result }
        ensures refused { RefusesStep self.old (steps.Complete tag) result }
        ensures err { OnErr result (self.new ≡ self.old) }
    {
        self.do_complete(tag)
    }

    fn do_complete(&mut self, tag: Tag) -> Result<u64, PortError>
        ensures refused { ((put : Put) → stage_at self.old.slots tag ≡ stages.Accepted put
            → self.old.failed ≡ None → IsReady self.old.drive tag)
            → IsRefusedBy (refusal_on self.old (steps.Complete tag)) result }
        ensures number { IfOk result (λ n. n ≡ 1 + length self.old.history) }
        ensures state { OnOk result (IsCompleted self.old self.new tag) }
        ensures slot { tag < slot_count }
        ensures err { OnErr result (self.new ≡ self.old) }
    {
        let put = self.accepted(tag)?;
        let number = self.bare.next_number()?;
        self.history.reserve()?;
        self.bare.complete_put(tag, put, number)?;
        self.history.push_engine(EngineStep::Complete { tag });
        Ok(number)
    }

    /// A client takes its answer, and the slot is free. It answers the number of the step and the answer.
    ///
    /// `served`: what it is answered to a read or write, and not by a reset, is done exactly where every range that the
    /// transfer touches permits it by the rows in force at its last acceptance.
    ///
    /// # Errors
    ///
    /// In this order: `HistoryFull`, `NotAnswered`, `NotYours`, `OutOfMemory`. The port is then as before.
    pub fn take(&mut self, client: u32, tag: Tag) -> Result<(u64, Answer), PortError>
        ensures agrees { MakesStep self.old self.new (steps.Take client tag) result }
        ensures answer { IfOk result (λ r. (o : Origin) (list : List Step)
            → PortAgrees self.old o list
            → (r.0 ≡ 1 + length (trace o list))
            × (r.1 ≡ unwrap_or (answer (trace o list) tag) no_bytes)) }
        ensures served { IfOk result (λ r. (o : Origin) (list : List Step)
            → PortAgrees self.old o list
            → IsServedAnswer tcg o list tag r.1) }
        ensures refused { RefusesStep self.old (steps.Take client tag) result }
        ensures err { OnErr result (self.new ≡ self.old) }
    {
        self.do_take(client, tag)
    }

    fn do_take(&mut self, client: u32, tag: Tag) -> Result<(u64, Answer), PortError>
        ensures refused { IsRefusedBy (refusal_on self.old (steps.Take client tag)) result }
        ensures number { IfOk result (λ r. (r.0 ≡ 1 + length self.old.history)
            × (r.1 ≡ taken self.old.memory tag (outcome_at self.old.outcomes tag))) }
        ensures state { OnOk result (IsTaken self.old self.new client tag) }
        ensures slot { tag < slot_count }
        ensures err { OnErr result (self.new ≡ self.old) }
    {
        let _put = self.answered(client, tag)?;
        let number = self.bare.next_number()?;
        let answer = self.bare.answer(tag)?;
        let reply = answer.share()?;
        self.history.reserve_take()?;
        self.bare.set_free(tag, number);
        self.history.push_take(client, tag, reply);
        Ok((number, answer))
    }
}
