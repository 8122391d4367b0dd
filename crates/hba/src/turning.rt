//! The engine's turns: one piece of work after the other (AHCI 1.3.1, 5.3).

ghost use Rattle.std.specs.Prelude.{◌≡◌, ◌<◌, ◌^◌, ◌-◌, ℕ, List, ◌∷◌, Option, OnOk, OnErr, IfOk, IfSome, IsErrOf, ◌↔◌, [], true, false, Some, None};

use crate::hba::Hba;
use crate::work::{HbaError, Heard, Turned, TurnedHeard, Work};
use drive::Why;
use host_memory::HostMemory;
use std::alloc::AllocError;

impl Hba {
    ghost use Rattle.hba.specs.History.{denial_heard};
    ghost use Rattle.hba.specs.Engine.{HasRead, TurnsTo, HearsTo, Runs, HasStopped};
    ghost use Rattle.hba.specs.Ready.{is_ready_on, ready_on, picked, takes_memory, picks_memory};

    /// The engine does a piece of work that may be done.
    fn proceed<M: HostMemory>(
        &mut self,
        work: Work,
        memory: &mut M,
    ) -> Result<TurnedHeard, AllocError>
        requires { is_ready_on self.old work ≡ true }
        ensures done { IfOk result (λ t. HearsTo M.does self.old memory.old self.new memory.new t) }
        ensures work { IfOk result (λ t. t.work ≡ work) }
        ensures refused { OnErr result (takes_memory work ≡ true) }
        ensures err { OnErr result (self.new ≡ self.old) }
        ensures kept { OnErr result (HasRead M.does self.old memory.old memory.new) }
    {
        let outcome = self.act(&work, memory)?;
        Ok(TurnedHeard {
            work,
            done: outcome.done,
            heard: outcome.heard,
        })
    }

    /// The engine does a piece of work that may be done, and tells what denied its command alone.
    fn advance<M: HostMemory>(&mut self, work: Work, memory: &mut M) -> Result<Turned, AllocError>
        requires { is_ready_on self.old work ≡ true }
        ensures done { IfOk result (λ t. TurnsTo M.does self.old memory.old self.new memory.new t) }
        ensures work { IfOk result (λ t. t.work ≡ work) }
        ensures refused { OnErr result (takes_memory work ≡ true) }
        ensures err { OnErr result (self.new ≡ self.old) }
        ensures kept { OnErr result (HasRead M.does self.old memory.old memory.new) }
    {
        let outcome = self.act(&work, memory)?;
        let denied = self.denial_in(outcome.heard);
        Ok(Turned {
            work,
            done: outcome.done,
            denied,
        })
    }

    /// What denied a command that was told; its bytes are taken back.
    fn denial_in(&mut self, heard: Option<Heard>) -> Option<Why>
        ensures denied { result ≡ denial_heard heard }
        ensures same { self.new ≡ self.old }
    {
        let heard = heard?;
        self.put_back(heard.payload);
        heard.denied
    }

    /// The engine does a piece of work, over the host's memory. It tells how the work went, and what denied the
    /// command that it fetched, if one was denied.
    ///
    /// # Errors
    ///
    /// `NotReady` for what may not be done now, else want of memory, which the signature never has. The HBA is then as
    /// before, and the host's memory was read at most.
    pub fn step<M: HostMemory>(&mut self, work: &Work, memory: &mut M) -> Result<Turned, HbaError>
        ensures done { IfOk result (λ t. TurnsTo M.does self.old memory.old self.new memory.new t) }
        ensures work { IfOk result (λ t. t.work ≡ work.now) }
        ensures ready { OnOk result (is_ready_on self.old work.now ≡ true) }
        ensures unready { IsErrOf result HbaError.NotReady
            ↔ (is_ready_on self.old work.now ≡ false) }
        ensures refused { IsErrOf result HbaError.OutOfMemory → takes_memory work.now ≡ true }
        ensures err { OnErr result (self.new ≡ self.old) }
        ensures kept { OnErr result (HasRead M.does self.old memory.old memory.new) }
    {
        if !self.is_ready(work) {
            return Err(HbaError::NotReady);
        }
        match self.advance(*work, memory) {
            Ok(turned) => Ok(turned),
            Err(AllocError) => Err(HbaError::OutOfMemory),
        }
    }

    /// The engine does the work of this number, modulo how many there are; `None` where there is none. It tells the
    /// command that it gave to the drive, with its bytes: `put_back` takes them, as room for those of the next.
    ///
    /// # Errors
    ///
    /// Want of memory, for a fetch or a completion. The HBA is then as before, and the host's memory was read at most.
    pub fn turn_heard<M: HostMemory>(
        &mut self,
        choice: usize,
        memory: &mut M,
    ) -> Result<Option<TurnedHeard>, AllocError>
        ensures done { IfOk result (λ turned. IfSome turned (λ t.
            HearsTo M.does self.old memory.old self.new memory.new t)) }
        ensures picked { IfOk result (λ turned. IfSome turned (λ t.
            picked choice (ready_on self.old) ≡ Some t.work)) }
        ensures idle { IfOk result (λ turned. turned ≡ None → ready_on self.old ≡ []) }
        ensures still { IfOk result (λ turned. turned ≡ None → self.new ≡ self.old) }
        ensures none_moved { IfOk result (λ turned. turned ≡ None → memory.new ≡ memory.old) }
        ensures refused { OnErr result
            (picks_memory (picked choice (ready_on self.old)) ≡ true) }
        ensures err { OnErr result (self.new ≡ self.old) }
        ensures kept { OnErr result (HasRead M.does self.old memory.old memory.new) }
    {
        let Some(work) = self.pick(choice) else {
            return Ok(None);
        };
        let turned = self.proceed(work, memory)?;
        Ok(Some(turned))
    }

    /// The engine does the work of this number, modulo how many there are; `None` where there is none.
    ///
    /// # Errors
    ///
    /// Want of memory, for a fetch or a completion. The HBA is then as before, and the host's memory was read at most.
    pub fn turn<M: HostMemory>(
        &mut self,
        choice: usize,
        memory: &mut M,
    ) -> Result<Option<Turned>, AllocError>
        ensures done { IfOk result (λ turned. IfSome turned (λ t.
            TurnsTo M.does self.old memory.old self.new memory.new t)) }
        ensures idle { IfOk result (λ turned. turned ≡ None → ready_on self.old ≡ []) }
        ensures still { IfOk result (λ turned. turned ≡ None → self.new ≡ self.old) }
        ensures none_moved { IfOk result (λ turned. turned ≡ None → memory.new ≡ memory.old) }
        ensures picked { IfOk result (λ turned. IfSome turned (λ t.
            picked choice (ready_on self.old) ≡ Some t.work)) }
        ensures err { OnErr result (self.new ≡ self.old) }
        ensures kept { OnErr result (HasRead M.does self.old memory.old memory.new) }
        ensures refused { OnErr result
            (picks_memory (picked choice (ready_on self.old)) ≡ true) }
    {
        let Some(work) = self.pick(choice) else {
            return Ok(None);
        };
        let turned = self.advance(work, memory)?;
        Ok(Some(turned))
    }

    /// The engine does the first work that may be done, turn after turn, until none may be. It tells how
    /// many turns it did; it does no more than 4,294,967,295.
    ///
    /// # Errors
    ///
    /// Want of memory, for a fetch or a completion. The HBA is then as the turns before left it, and the host's memory was
    /// read at most since.
    #[tactic(auto, using(crate::proofs::Turns::runs_none))]
    pub fn run<M: HostMemory>(&mut self, memory: &mut M) -> Result<u32, AllocError>
        ensures ran { IfOk result (λ n. Runs M.does n self.old memory.old self.new memory.new) }
        ensures idle { IfOk result (λ n. n < 2 ^ 32 - 1 → ready_on self.new ≡ []) }
        ensures stopped { OnErr result
            (HasStopped M.does self.old memory.old self.new memory.new) }
        ensures refused { OnErr result (picks_memory (picked 0 (ready_on self.new)) ≡ true) }
    {
        for count in 0..u32::MAX {
            match self.turn(0, memory) {
                Ok(Some(_)) => {}
                Ok(None) => return Ok(count),
                Err(error) => return Err(error),
            }
        }
        Ok(u32::MAX)
    }
}
