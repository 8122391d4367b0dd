//! What is asked of the stack of a ComID: that it be reset, and what came of it (TCG Core 2.01, section 3.3.4.7.5).

ghost use Rattle.std.specs.Prelude.{◌≡◌, ◌∷◌, List, IfOk, OnOk, OnErr};

use crate::answer::{Accepted, served_form};
use crate::decision::Objection;
use crate::drive::Drive;
use audit::rules::Rule;
use compacket::ComId;
use device_data::{is_stack_reset, stack_answer};
use fis::RegH2d;
use shadow_mbr::SECTOR_SIZE;
use std::alloc::AllocError;
use tper::sized;
use trusted_cmds::Command;

impl Drive {
    ghost use Rattle.std.specs.Prelude.{Option, None, ℕ, true};
    ghost use Rattle.audit.specs.declared.rules.rule.Rule.{Rule};
    ghost use Rattle.device_data.specs.ErrorLog.{sized};
    ghost use Rattle.device_data.specs.StackReset.{stack_answer};
    ghost use Rattle.sessions.specs.Beside.{channel_of};
    ghost use Rattle.history.specs.Opening.{Origin};
    ghost use Rattle.history.specs.Decisions.{is_session_com_id};
    ghost use Rattle.history.specs.Tcg.{data_of, stack_reset, stack_sent};
    ghost use Rattle.history.specs.Events.{Event};
    ghost use Rattle.history.specs.Facts.{Facts, facts};
    ghost use Rattle.history.specs.History.{Act, log};
    ghost use Rattle.tper.specs.Tper.{told_event};
    ghost use Rattle.drive.specs.declared.decision.Decision.{Decision};
    ghost use Rattle.drive.specs.Decision.{decision_event, is_for_stack, asked_of_stack, IsDue};
    ghost use Rattle.drive.specs.State.{KeepsDrive, Agrees};
    ghost use Rattle.drive.specs.Answers.{IsDoneAndAnswered};

    /// Does what a command asks of the stack of a ComID, and answers. Where memory is refused nothing is said.
    pub(crate) fn ask_stack(
        &mut self,
        h: &RegH2d,
        command: Command,
        payload: &[u8],
        answer: &mut Accepted,
    ) -> Result<(), AllocError>
        requires { IsDue self.old h.now (Decision.AsksStack command) }
        ensures done { OnOk result ((o : Origin) (acts : List Act) → Agrees self.old o acts
            → IsDoneAndAnswered (facts o (log o acts)) h.now
            (decision_event (facts o (log o acts)) payload.now (Decision.AsksStack command))
            self.new o (log o acts) answer.new) }
        ensures err { OnErr result (self.new ≡ self.old) }
        ensures unsaid { OnErr result (answer.new ≡ answer.old) }
    {
        let settings = self.chosen();
        let (bytes, objection) = self.asked_of_stack(&command, payload)?;
        answer.set_served(served_form(&command, &settings), bytes, objection);
        Ok(())
    }

    /// What comes of it: the data of a receive, and which rule refused what was sent.
    fn asked_of_stack(
        &mut self,
        command: &Command,
        payload: &[u8],
    ) -> Result<(Vec<u8>, Objection), AllocError>
        requires { is_for_stack self.old.tper.store.config.profile command.now ≡ true }
        ensures kept { OnOk result ((o : Origin) (acts : List Act) → Agrees self.old o acts
            → KeepsDrive self.new o (asked_of_stack (facts o (log o acts)) payload.now command.now
            ∷ log o acts)) }
        ensures data { IfOk result (λ r. (o : Origin) (acts : List Act) → Agrees self.old o acts
            → r.0.items ≡ data_of (facts o (log o acts)) command.now) }
        ensures denied { IfOk result (λ r. (f : Facts)
            → r.1.denied ≡ (asked_of_stack f payload.now command.now).denied) }
        ensures rule { IfOk result (λ r. (f : Facts)
            → r.1.rule ≡ (asked_of_stack f payload.now command.now).rule) }
        ensures err { OnErr result (self.new ≡ self.old) }
    {
        match *command {
            Command::Send { sp_specific, .. } => {
                let objection = self.send_to_stack(sp_specific, payload);
                Ok((Vec::new(self.allocator()), objection))
            }
            Command::Receive {
                sp_specific,
                blocks,
                ..
            } => {
                let room = SECTOR_SIZE * usize::from(blocks);
                let bytes = self.receive_of_stack(sp_specific, room)?;
                Ok((bytes, Objection::none()))
            }
            _ => unreachable!(),
        }
    }

    /// What is sent: a reset is done, and of anything else nothing comes.
    fn send_to_stack(&mut self, com_id: ComId, payload: &[u8]) -> Objection
        requires { is_session_com_id com_id ≡ true }
        ensures kept { (o : Origin) (past : List Event) → KeepsDrive self.old o past
            → KeepsDrive self.new o (stack_sent (facts o past) com_id payload.now ∷ past) }
        ensures denied { (f : Facts) → result.denied ≡ (stack_sent f com_id payload.now).denied }
        ensures rule { (f : Facts) → result.rule ≡ (stack_sent f com_id payload.now).rule }
    {
        if is_stack_reset(com_id, payload) {
            self.reset_stack(com_id);
            return Objection::none();
        }
        self.tell_stack(com_id);
        Objection::by(Rule::NoStackReset)
    }

    /// What is received: it is told once.
    fn receive_of_stack(&mut self, com_id: ComId, room: usize) -> Result<Vec<u8>, AllocError>
        requires { is_session_com_id com_id ≡ true }
        ensures data { IfOk result (λ v. v.items ≡ sized room
            (stack_answer com_id (channel_of self.old.tper.live.beside com_id).was_reset)) }
        ensures kept { OnOk result ((o : Origin) (past : List Event) → KeepsDrive self.old o past
            → KeepsDrive self.new o (told_event com_id None ∷ past)) }
        ensures err { OnErr result (self.new ≡ self.old) }
    {
        let bytes = self.stack_told(com_id, room)?;
        self.tell_stack(com_id);
        Ok(bytes)
    }

    /// What is to be told of the stack of a ComID: as many bytes as the transfer has.
    fn stack_told(&self, com_id: ComId, room: usize) -> Result<Vec<u8>, AllocError>
        ensures { IfOk result (λ v. v.items ≡ sized room
            (stack_answer com_id (channel_of self.now.tper.live.beside com_id).was_reset)) }
    {
        let was_reset = self.tper.was_reset(com_id);
        sized(self.alloc, &stack_answer(com_id, was_reset), room)
    }

    /// Resets the stack of a ComID: its sessions end, and their transactions with them.
    fn reset_stack(&mut self, com_id: ComId)
        requires { is_session_com_id com_id ≡ true }
        ensures { (o : Origin) (past : List Event) → KeepsDrive self.old o past
            → KeepsDrive self.new o (stack_reset (facts o past) com_id ∷ past) }
    {
        self.tper.reset_stack(com_id);
        self.ranges.refresh(&self.tper.in_force());
    }

    /// Nothing is to be told any more of the stack of a ComID.
    fn tell_stack(&mut self, com_id: ComId)
        requires { is_session_com_id com_id ≡ true }
        ensures { (o : Origin) (past : List Event) (rule : Option Rule)
            → KeepsDrive self.old o past
            → KeepsDrive self.new o (told_event com_id rule ∷ past) }
    {
        self.tper.tell_stack(com_id);
        self.ranges.refresh(&self.tper.in_force());
    }
}
