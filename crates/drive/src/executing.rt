//! What the drive does with a command, once it has decided.

ghost use Rattle.std.specs.Prelude.{◌≡◌, ◌∷◌, List, length, IfOk, OnOk, OnErr};

use crate::answer::{Accepted, moved_form, served_form};
use crate::deciding::DISCOVERY_COM_ID;
use crate::decision::{Decision, Objection, error_of, objection_to};
use crate::drive::Drive;
use crate::reset::PROGRAMMATIC;
use crate::transfer::{Held, Way};
use fis::{H2D_LENGTH, RegH2d, Tag};
use shadow_mbr::SECTOR_SIZE;
use std::alloc::AllocError;
use trusted_cmds::{Command, SidBlock, is_protocol_list};

impl Drive {
    ghost use Rattle.trusted_cmds.specs.Profiles.{payload_length_in};
    ghost use Rattle.history.specs.Opening.{Origin};
    ghost use Rattle.std.specs.Prelude.{◌==◌, ◌||◌, ◌*◌, ℕ, true, false, slice_index};
    ghost use Rattle.fis.specs.H2d.{h2d_at};
    ghost use Rattle.fis.specs.Types.{h2d_type};
    ghost use Rattle.shadow_mbr.specs.Stored.{sector_at, sector_size};
    ghost use Rattle.history.specs.Tcg.{data_of, receive_data, commanded};
    ghost use Rattle.history.specs.Decisions.{is_session_com_id, discovery_com_id, received};
    ghost use Rattle.history.specs.Events.{Event};
    ghost use Rattle.history.specs.Readers.{waiting};
    ghost use Rattle.history.specs.Facts.{Facts, facts};
    ghost use Rattle.history.specs.History.{Act, Accept, log, event};
    ghost use Rattle.drive.specs.Decision.{decision_event, executed, is_for_stack, CanExecute, IsDue};
    ghost use Rattle.drive.specs.State.{kept_facts, KeepsDrive, Agrees};
    ghost use Rattle.drive.specs.Transfer.{CanGo, StandsOnDrive, moved_bytes, payload_size_of, sector_then};
    ghost use Rattle.drive.specs.Answers.{IsDoneAndAnswered};

    /// Holds the queued transfer of a command.
    #[inline(always)]
    pub(crate) fn hold_so(
        &mut self,
        fis: &[u8; H2D_LENGTH],
        h: &RegH2d,
        tag: Tag,
        held: Held,
        payload: &[u8],
        answer: &mut Accepted,
    )
        requires kind { slice_index fis.now 0 ≡ h2d_type }
        requires read { h.now ≡ h2d_at fis.now }
        requires event { (f : Facts) (bytes : List ℕ) → decision_event
            (kept_facts self.old f) bytes (Decision.Holds tag held)
            ≡ commanded (kept_facts self.old f) h.now bytes }
        requires due { IsDue self.old h.now (Decision.Holds tag held) }
        ensures { (o : Origin) (acts : List Act) → Agrees self.old o acts
            → IsDoneAndAnswered (facts o (log o acts)) (h2d_at fis.now)
            (event o (log o acts) (Accept fis.now payload.now)) self.new o (log o acts)
            answer.new }
    {
        self.hold(tag, held);
        answer.set_held();
    }

    /// Does what was decided on the command of a FIS, and answers. Where memory is refused nothing is said.
    #[inline(always)]
    pub(crate) fn act(
        &mut self,
        h: &RegH2d,
        decision: Decision,
        payload: &[u8],
        answer: &mut Accepted,
    ) -> Result<(), AllocError>
        requires due { IsDue self.old h.now decision }
        requires payload { length payload.now
            ≡ payload_length_in self.old.tper.store.config.profile h.now }
        ensures done { OnOk result ((o : Origin) (acts : List Act) → Agrees self.old o acts
            → IsDoneAndAnswered (facts o (log o acts)) h.now
            (decision_event (facts o (log o acts)) payload.now decision) self.new o
            (log o acts) answer.new) }
        ensures err { OnErr result (self.new ≡ self.old) }
        ensures unsaid { OnErr result (answer.new ≡ answer.old) }
    {
        let settings = self.chosen();
        match decision {
            Decision::Aborts { error, cause } => {
                answer.set_failed(error, objection_to(&cause));
                Ok(())
            }
            Decision::FailsQueue { failure, cause } => {
                answer.set_failed(error_of(&failure), objection_to(&cause));
                self.fail_queue(failure);
                Ok(())
            }
            Decision::Holds { tag, held } => {
                self.hold(tag, held);
                answer.set_held();
                Ok(())
            }
            Decision::Moves { held, way } => {
                let bytes = self.move_so(&held, way, payload)?;
                self.wake();
                answer.set_served(moved_form(way, &held.transfer), bytes, Objection::none());
                Ok(())
            }
            Decision::Trims { blocks } => self.trim(h, blocks, payload, answer),
            Decision::Executes(command) => {
                let (bytes, objection) = self.execute(&command, payload)?;
                answer.set_served(served_form(&command, &settings), bytes, objection);
                Ok(())
            }
            Decision::Restarts(command) => {
                self.restart(PROGRAMMATIC);
                answer.set_done(served_form(&command, &settings));
                Ok(())
            }
            Decision::Blocks(command) => {
                self.block_sid(SidBlock::asked(payload));
                answer.set_done(served_form(&command, &settings));
                Ok(())
            }
            Decision::AsksStack(command) => self.ask_stack(h, command, payload, answer),
        }
    }

    /// Moves the data of a transfer that is not queued: gives the bytes that go to the host.
    fn move_so(&mut self, held: &Held, way: Way, payload: &[u8]) -> Result<Vec<u8>, AllocError>
        requires length { length payload.now ≡ payload_size_of held.now.transfer }
        requires fits { StandsOnDrive self.old.tper.store.config.sectors
            self.old.tper.store.config.mbr_sectors held.now }
        requires goes { CanGo way held.now.transfer.op }
        ensures data { IfOk result (λ v. (f : Facts)
            → v.items ≡ moved_bytes (kept_facts self.old f) way held.now) }
        ensures tper { self.new.tper ≡ self.old.tper }
        ensures queue { self.new.queue ≡ self.old.queue }
        ensures settings { self.new.settings ≡ self.old.settings }
        ensures media { OnOk result ((s : ℕ) → sector_at self.new.media s
            ≡ sector_then held.now.transfer payload.now (sector_at self.old.media s) s) }
        ensures err { OnErr result (self.new ≡ self.old) }
    {
        match way {
            Way::Dma | Way::Pio => self.carry_out(held, payload),
            Way::Verify => Ok(Vec::new(self.allocator())),
        }
    }

    /// Executes a command that moves no sectors: gives its data, and what denied or refused the item that
    /// it sent.
    fn execute(
        &mut self,
        command: &Command,
        payload: &[u8],
    ) -> Result<(Vec<u8>, Objection), AllocError>
        requires can { CanExecute command.now }
        requires apart { is_for_stack self.old.tper.store.config.profile command.now ≡ false }
        ensures kept { OnOk result ((o : Origin) (acts : List Act) → Agrees self.old o acts
            → KeepsDrive self.new o (executed (facts o (log o acts)) payload.now command.now
            ∷ log o acts)) }
        ensures data { IfOk result (λ r. (o : Origin) (acts : List Act) → Agrees self.old o acts
            → r.0.items ≡ data_of (facts o (log o acts)) command.now) }
        ensures denied { IfOk result (λ r. (o : Origin) (acts : List Act) → Agrees self.old o acts
            → r.1.denied ≡ (executed (facts o (log o acts)) payload.now command.now).denied) }
        ensures rule { IfOk result (λ r. (o : Origin) (acts : List Act) → Agrees self.old o acts
            → r.1.rule ≡ (executed (facts o (log o acts)) payload.now command.now).rule) }
        ensures err { OnErr result (self.new ≡ self.old) }
    {
        match *command {
            Command::Send { sp_specific, .. } => {
                let objection = self.send(sp_specific, payload)?;
                Ok((Vec::new(self.allocator()), objection))
            }
            Command::Receive {
                sp_specific,
                blocks,
                ..
            } => {
                let room = SECTOR_SIZE * usize::from(blocks);
                if is_protocol_list(command) {
                    return Ok((self.protocols(room)?, Objection::none()));
                }
                if self.asks_certificates(command) {
                    return Ok((self.certificates(room)?, Objection::none()));
                }
                Ok((self.received(sp_specific, room)?, Objection::none()))
            }
            Command::Identify => Ok((self.identify()?, Objection::none())),
            Command::ReadLog10 { .. } => Ok((self.read_log()?, Objection::none())),
            Command::Flush => Ok((Vec::new(self.allocator()), Objection::none())),
            Command::SetFeatures { feature } => {
                self.choose(feature);
                Ok((Vec::new(self.allocator()), Objection::none()))
            }
            Command::ReadLog { pages, .. } => Ok((self.device_log(&pages)?, Objection::none())),
            Command::Control { control } => {
                self.set_power(control);
                Ok((Vec::new(self.allocator()), Objection::none()))
            }
            Command::ReadQueued { .. }
            | Command::WriteQueued { .. }
            | Command::ReadDma { .. }
            | Command::WriteDma { .. }
            | Command::ReadPio { .. }
            | Command::WritePio { .. }
            | Command::Verify { .. }
            | Command::Trim { .. } => unreachable!(),
        }
    }

    /// The data of a receive: Level 0 discovery on its ComID, else what waits on one of those of sessions.
    fn received(&mut self, com_id: u16, room: usize) -> Result<Vec<u8>, AllocError>
        requires { (is_session_com_id com_id || com_id == discovery_com_id) ≡ true }
        ensures kept { OnOk result ((o : Origin) (past : List Event) (blocks : ℕ)
            → room ≡ sector_size * blocks → KeepsDrive self.old o past
            → KeepsDrive self.new o (received com_id blocks (waiting past com_id) ∷ past)) }
        ensures data { IfOk result (λ v. (o : Origin) (acts : List Act) → Agrees self.old o acts
            → v.items ≡ receive_data (facts o (log o acts)) com_id room) }
        ensures err { OnErr result (self.new ≡ self.old) }
    {
        if com_id == DISCOVERY_COM_ID {
            let bytes = self.discover(room)?;
            return Ok(bytes);
        }
        let bytes = self.receive(com_id, room)?;
        Ok(bytes)
    }
}
