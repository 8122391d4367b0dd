//! Recovery from a failed command, and resets.

use crate::port::Port;
use drive::ResetKind;
use port_history::{EngineStep, PortError};

impl Port {
    ghost use Rattle.std.specs.Prelude.{◌≡◌, ◌+◌, ℕ, List, ◌∷◌, length, OnOk, OnErr, IfOk};
    ghost use Rattle.history.specs.Opening.{Origin};
    ghost use Rattle.port_history.specs.declared.step.Step.{Step};
    ghost use Rattle.port_history.specs.declared.step.Step.TheVariants as steps;
    ghost use Rattle.port_history.specs.Refusals.{refusal, IsRefusedBy};
    ghost use Rattle.port_history.specs.Steps.{trace};
    ghost use Rattle.port.specs.Agreement.{MakesStep, NumbersStep, RefusesStep};
    ghost use Rattle.port.specs.State.{refusal_on, IsRecovered, IsReset};

    /// Recovers from a failed command: the port stops and starts, reads log page 10h of the device, answers the command
    /// that it names, and has the others that were out prepared again. It answers the number of the step.
    ///
    /// # Errors
    ///
    /// In this order: `HistoryFull`, `NotFailed`, `OutOfMemory`. The port is then as before.
    pub fn recover(&mut self) -> Result<u64, PortError>
        ensures agrees { MakesStep self.old self.new steps.Recover result }
        ensures number { NumbersStep self.old result }
        ensures refused { RefusesStep self.old steps.Recover result }
        ensures err { OnErr result (self.new ≡ self.old) }
    {
        self.do_recover()
    }

    fn do_recover(&mut self) -> Result<u64, PortError>
        ensures refused { IsRefusedBy (refusal_on self.old steps.Recover) result }
        ensures number { IfOk result (λ n. n ≡ 1 + length self.old.history) }
        ensures state { OnOk result (IsRecovered self.old self.new) }
        ensures err { OnErr result (self.new ≡ self.old) }
    {
        self.has_failed()?;
        let number = self.bare.next_number()?;
        self.history.reserve()?;
        self.bare.mend(number)?;
        self.history.push_engine(EngineStep::Recover);
        Ok(number)
    }

    /// Resets the port and the device: every command that waits is answered `Reset`. It answers the number of the step.
    ///
    /// # Errors
    ///
    /// In this order: `HistoryFull`, `OutOfMemory`. The port is then as before.
    pub fn reset(&mut self, client: u32, kind: ResetKind) -> Result<u64, PortError>
        ensures agrees { MakesStep self.old self.new (steps.Reset client kind) result }
        ensures number { NumbersStep self.old result }
        ensures refused { RefusesStep self.old (steps.Reset client kind) result }
        ensures err { OnErr result (self.new ≡ self.old) }
    {
        self.do_reset(client, kind)
    }

    fn do_reset(&mut self, client: u32, kind: ResetKind) -> Result<u64, PortError>
        ensures refused { IsRefusedBy (refusal_on self.old (steps.Reset client kind)) result }
        ensures number { IfOk result (λ n. n ≡ 1 + length self.old.history) }
        ensures state { OnOk result (IsReset self.old self.new client kind) }
        ensures err { OnErr result (self.new ≡ self.old) }
    {
        self.may_reset()?;
        let number = self.bare.next_number()?;
        self.history.reserve()?;
        self.bare.reset_all(kind, number);
        self.history.push_reset(client, kind);
        Ok(number)
    }
}
