//! A drive.

ghost use Rattle.std.specs.Prelude.{◌≡◌, ℕ, false, length, OnOk, OnErr, IfOk, if◌then◌else◌};
ghost use Rattle.device_data.specs.ErrorLog.{sized};
ghost use Rattle.fis.specs.Tags.{slot_count};
ghost use Rattle.locking.specs.Ranges.{ranges_in};
ghost use Rattle.transactions.specs.Sights.{look_up};

use crate::answer::{Accepted, Completed};
use crate::boxes::{copy_media, copy_queue, copy_tper, new_media, new_queue, tper_over};
use crate::decision::{ABORTED, Decision, Objection, Refusal, permission, policy};
use crate::error::DriveError;
use crate::heads::heads;
use crate::opening::Opening;
use crate::queue::Queue;
use crate::transfer::{Held, Transfer};
use audit::rules::Rule;
use basics::Profile;
use device_data::{Failure, Settings, discovery, error_log, field_discovery};
use fis::{H2D_LENGTH, H2D_TYPE, RegH2d, Tag};
use history::ResetKind;
use locking::{Op, RangeRow, Ranges};
use shadow_mbr::Media;
use sp_cells::{DriveConfig, SetError, Sp};
use sp_tables::Tables;
use std::alloc::{AllocError, Global};
use std::marker::Model;
use std::mem::replace;
use tper::{Tper, sized};
use transactions::View;
use trusted_cmds::{Command, SidBlock, is_block_sid, is_programmatic_reset};

/// Makes these the ranges that the rows describe, where they may be others.
fn refresh_where(changes: bool, ranges: &mut Ranges, rows: &View<'_>)
    requires { changes ≡ false → ranges.old
        ≡ ranges_in rows.now.config.mbr_sectors (look_up rows.now) }
    ensures { ranges.new ≡ ranges_in rows.now.config.mbr_sectors (look_up rows.now) }
{
    if changes {
        ranges.refresh(rows);
    }
}

/// A drive.
#[derive(Drop)]
pub struct Drive {
    pub(crate) alloc: Global,
    pub(crate) sectors: u64,
    pub(crate) profile: Profile,
    pub(crate) ranges: Ranges,
    pub(crate) tper: Box<Tper>,
    pub(crate) queue: Box<Queue>,
    pub(crate) media: Box<Media>,
    pub(crate) settings: Settings,
    /// A vector for the bytes of the next read, or of the next response.
    pub(crate) spare: Vec<u8>,
}

impl Model for Drive {
    ghost use Rattle.std.specs.Prelude.{◌≡◌, ◌≤◌, ◌^◌};
    ghost use Rattle.drive.specs.Decision.{ranges_of};
    ghost use Rattle.drive.specs.Queue.{AllFit};
    ghost use Rattle.drive.specs.State.{DriveState};

    ghost Value = { DriveState };

    ghost view = { λ a. record {
      tper = a.tper.value;
      queue = a.queue.value;
      media = a.media.value;
      settings = a.settings;
    } };

    ghost invariant = { λ a. (a.sectors ≤ 2 ^ 48)
        × (a.tper.value.store.config.sectors ≡ a.sectors)
        × (a.ranges ≡ ranges_of a.tper.value)
        × (a.media.value.sectors ≡ a.sectors)
        × AllFit a.sectors a.tper.value.store.config.mbr_sectors a.queue.value
        × (a.tper.value.store.config.profile ≡ a.profile) };
}

impl Drive {
    ghost use Rattle.std.specs.Prelude.{replicate, slice_index, ◌⊎◌, ◌||◌, [], ◌∷◌, ◌++◌, ℕ, List, Option, ◌<◌, ◌↔◌, ◌*◌, IfErr, IfSome, IsErrOf, IsOk, None, Some, Ok, Err, is_some, true, false};
    ghost use Rattle.fis.specs.H2d.{h2d_at};
    ghost use Rattle.fis.specs.Types.{h2d_type};
    ghost use Rattle.fis.specs.declared.h2d.RegH2d.{RegH2d};
    ghost use Rattle.shadow_mbr.specs.Stored.{sector_at, sector_size, heads};
    ghost use Rattle.device_data.specs.Discovery.{has_owner, discovery_of};
    ghost use Rattle.device_data.specs.Settings.{active};
    ghost use Rattle.trusted_cmds.specs.BlockSid.{is_block_sid, is_blocked};
    ghost use Rattle.device_data.specs.ErrorLog.{sized, error_log as log_page};
    ghost use Rattle.transactions.specs.Sights.{look_up, committed_sight};
    ghost use Rattle.history.specs.Opening.{Origin, origin_on, factory_origin, origin_with, opened_with};
    ghost use Rattle.history.specs.Agreement.{HasNoTries};
    ghost use Rattle.history.specs.KeptStore.{HasKnownRows};
    ghost use Rattle.history.specs.Answers.{expected, payload_of};
    ghost use Rattle.history.specs.Tcg.{received_bytes, sent, commanded};
    ghost use Rattle.history.specs.Decisions.{any_below, is_session_com_id, resets, received};
    ghost use Rattle.history.specs.Events.{Event, WasReset, BlockedSid, did};
    ghost use Rattle.history.specs.Facts.{Facts, facts};
    ghost use Rattle.history.specs.History.{Act, Accept, Complete, Reset, log, event};
    ghost use Rattle.history.specs.Resets.{reset_kind_number};
    ghost use Rattle.history.specs.Readers.{failure as failure_in, held as held_in, in_force as rows_after_all, waiting, session_on, open_on};
    ghost use Rattle.transactions.specs.Stored.{part};
    ghost use Rattle.sessions.specs.Live.{lives_on};
    ghost use Rattle.tper.specs.Tper.{response_at};
    ghost use Rattle.drive.specs.Queue.{slot_at, held_at, with_slot, failed_queue, mended_queue, SlotFits};
    ghost use Rattle.drive.specs.Transfer.{payload_size_of, held_bytes, sector_then, StandsOnDrive};
    ghost use Rattle.drive.specs.Decision.{told, policy_on, FitsPolicy, IsDue, decision_event};
    ghost use Rattle.drive.specs.State.{kept_facts, KeepsDrive, Agrees, AgreesInOrder};
    ghost use Rattle.drive.specs.Answers.{IsAnswer, IsCompletion, IsCompletionByHeads, IsDoneAndAnswered, IsFinished};

    // What is opened.

    /// A drive as it leaves the factory, on which nothing was done.
    pub fn new(alloc: Global, config: DriveConfig) -> Result<Drive, AllocError>
        ensures agrees { IfOk result (λ drive. Agrees drive (factory_origin config) []) }
    {
        let tables = Tables::factory(alloc, &config)?;
        let drive = Drive::over(alloc, tables)?;
        Ok(drive)
    }

    /// A drive with the given cells of ranges, on which nothing was done: the factory's tables after an
    /// Activate of the Locking SP, whose Admin1 has the MSID as its PIN. The rows are set one after the
    /// other, and the first refused one decides: `NoCell` for a range above the last, `Overlap`, `Beyond`.
    pub fn with_ranges(
        alloc: Global,
        config: DriveConfig,
        rows: &[RangeRow],
    ) -> Result<Drive, SetError>
        ensures agrees { IfOk result (λ drive.
            (o : Origin) × (origin_with config rows.now ≡ Ok o) × Agrees drive o []) }
        ensures err { IfErr result (λ e.
            (e ≡ SetError.OutOfMemory) ⊎ (origin_with config rows.now ≡ Err e)) }
    {
        let mut opening = Opening::new(alloc, config)?;
        for row in rows {
            if let Err(error) = opening.set_range(row) {
                return Err(error);
            }
        }
        Ok(opening.into_drive()?)
    }

    /// A drive as it leaves the factory where no row is given, else with these rows, as
    /// [`Drive::with_ranges`] opens it.
    ///
    /// # Errors
    ///
    /// Those of `with_ranges`.
    pub fn opened(alloc: Global, config: DriveConfig, rows: &[RangeRow]) -> Result<Drive, SetError>
        ensures agrees { IfOk result (λ drive.
            (o : Origin) × (opened_with config rows.now ≡ Ok o) × Agrees drive o []) }
        ensures err { IfErr result (λ e.
            (e ≡ SetError.OutOfMemory) ⊎ (opened_with config rows.now ≡ Err e)) }
    {
        if rows.is_empty() {
            return Ok(Drive::new(alloc, config)?);
        }
        Drive::with_ranges(alloc, config, rows)
    }

    /// A drive over its tables.
    pub(crate) fn over(alloc: Global, tables: Tables) -> Result<Drive, AllocError>
        ensures { IfOk result (λ drive. HasNoTries (origin_on tables)
            → HasKnownRows (origin_on tables) → Agrees drive (origin_on tables) []) }
    {
        let config = tables.config();
        let sectors = config.sectors();
        let profile = config.profile();
        let tper = tper_over(alloc, tables)?;
        let ranges = Ranges::of(alloc, &tper.in_force())?;
        let queue = new_queue(alloc)?;
        let media = new_media(alloc, sectors)?;
        Ok(Drive {
            alloc,
            sectors,
            profile,
            ranges,
            tper,
            queue,
            media,
            settings: Settings::first(),
            spare: Vec::new(alloc),
        })
    }

    /// The same drive once more, in memory of its own: what was done with the one was done with the other, so that both
    /// answer the same, and what is done with either from now on changes nothing of the other. Where memory is refused
    /// there is no copy.
    pub fn copy(&self) -> Result<Drive, AllocError>
        ensures { IfOk result (λ copied. copied ≡ self.now) }
    {
        let tper = copy_tper(self.alloc, &self.tper)?;
        let ranges = Ranges::of(self.alloc, &tper.in_force())?;
        let queue = copy_queue(self.alloc, &self.queue)?;
        let media = copy_media(self.alloc, &self.media)?;
        Ok(Drive {
            alloc: self.alloc,
            sectors: self.sectors,
            profile: self.profile,
            ranges,
            tper,
            queue,
            media,
            settings: self.settings,
            spare: Vec::new(self.alloc),
        })
    }

    // What is kept, as the rules ask it.

    /// What is held under the tag.
    pub(crate) fn held(&self, tag: Tag) -> Option<Held>
        ensures value { result ≡ slot_at self.now.queue.slots tag }
        ensures slot { tag < slot_count }
        ensures fits { SlotFits self.now.tper.store.config.sectors
            self.now.tper.store.config.mbr_sectors result }
    {
        self.queue.at(tag)
    }

    /// Whether something is held.
    pub(crate) fn is_busy(&self) -> bool
        ensures { result ≡ any_below (λ tag. is_some (held_at self.now.queue tag)) slot_count }
    {
        self.queue.is_busy()
    }

    /// Whether a transfer reads the shadow, or why it is refused.
    #[inline(always)]
    pub(crate) fn policy(&self, transfer: &Transfer) -> Result<bool, Refusal>
        ensures value { told result ≡ policy_on self.now transfer.now }
        ensures fits { IfOk result (FitsPolicy self.now transfer.now) }
    {
        policy(self.sectors, &self.ranges, transfer)
    }

    /// Whether a transfer that is permitted reads the shadow; none where it is refused.
    #[inline(always)]
    pub(crate) fn permission(&self, transfer: &Transfer) -> Option<bool>
        ensures value { IfSome result (λ s. policy_on self.now transfer.now ≡ Ok s) }
        ensures fits { IfSome result (FitsPolicy self.now transfer.now) }
    {
        permission(self.sectors, &self.ranges, transfer)
    }

    /// Whether a response waits on a ComID.
    pub(crate) fn is_waiting(&self, com_id: u16) -> bool
        ensures { result ≡ is_some (response_at self.now.tper.waiting com_id) }
    {
        self.tper.is_waiting(com_id)
    }

    /// Whether a command resets the drive, by the rows in force.
    pub(crate) fn resets(&self, command: &Command) -> bool
        ensures { result ≡ resets (look_up (committed_sight self.now.tper.store)) command.now }
    {
        is_programmatic_reset(command) && self.tper.lets_reset()
    }

    /// Whether a command is the one that blocks SID, on a drive of this profile.
    pub(crate) fn blocks_sid(&self, command: &Command) -> bool
        ensures { result ≡ is_block_sid self.now.tper.store.config.profile command.now }
    {
        is_block_sid(self.profile, command)
    }

    /// Whether that one is refused: SID has a PIN of its own, or is blocked.
    pub(crate) fn keeps_sid(&self) -> bool
        ensures { result ≡ (has_owner (look_up (committed_sight self.now.tper.store))
            || is_blocked self.now.tper.live.beside.block) }
    {
        self.tper.keeps_sid()
    }

    /// How many bytes a completion of the tag has to bring: 512 for each sector of a held write,
    /// else 0.
    pub fn expects(&self, tag: Tag) -> usize
        ensures stands { result ≡ expected (held_at self.now.queue tag) }
        ensures told { (o : Origin) (acts : List Act) → Agrees self.now o acts
            → result ≡ expected (held_in (log o acts) tag) }
    {
        match self.held(tag) {
            None => 0,
            Some(held) => held.transfer.payload_size(),
        }
    }

    /// Whether something is held under the tag.
    pub fn holds(&self, tag: Tag) -> bool
        ensures stands { result ≡ is_some (held_at self.now.queue tag) }
        ensures told { (o : Origin) (acts : List Act) → Agrees self.now o acts
            → result ≡ is_some (held_in (log o acts) tag) }
    {
        self.held(tag).is_some()
    }

    /// The rows in force: a transfer is judged by them.
    pub fn in_force(&self) -> View<'_>
        ensures stands { result ≡ committed_sight self.now.tper.store }
        ensures told { (o : Origin) (acts : List Act) → Agrees self.now o acts
            → look_up result ≡ rows_after_all o (log o acts) }
    {
        self.tper.in_force()
    }

    /// What the drive knows beside the commands of each drive.
    pub(crate) fn profile(&self) -> Profile
        ensures { result ≡ self.now.tper.store.config.profile }
    {
        self.profile
    }

    /// Whether a session of the SP lives.
    pub fn has_session(&self, sp: Sp) -> bool
        ensures stands { result ≡ lives_on sp self.now.tper.live }
        ensures told { (o : Origin) (acts : List Act) → Agrees self.now o acts
            → result ≡ is_some (session_on (log o acts) sp) }
    {
        self.tper.has_session(sp)
    }

    /// Whether a transaction is open on the SP.
    pub fn has_transaction(&self, sp: Sp) -> bool
        ensures stands { result ≡ is_some (part self.now.tper.store sp).pending }
        ensures told { (o : Origin) (acts : List Act) → Agrees self.now o acts
            → result ≡ is_some (open_on (log o acts) sp) }
    {
        self.tper.has_transaction(sp)
    }

    /// How the queue has failed, if it has: what log page 10h tells.
    pub fn failure(&self) -> Option<Failure>
        ensures stands { result ≡ self.now.queue.failure }
        ensures told { (o : Origin) (acts : List Act) → Agrees self.now o acts
            → result ≡ failure_in (log o acts) }
    {
        self.queue.failure
    }

    // What is done.

    /// Holds a transfer under the tag.
    pub(crate) fn hold(&mut self, tag: Tag, held: Held)
        requires { StandsOnDrive self.old.tper.store.config.sectors
            self.old.tper.store.config.mbr_sectors
            held }
        ensures { self.new ≡ record self.old { queue = with_slot tag (Some held) self.old.queue } }
    {
        self.queue.hold(tag, held);
    }

    /// Fails the queue: it drops all that is held.
    pub(crate) fn fail_queue(&mut self, failure: Failure)
        ensures { self.new ≡ record self.old { queue = failed_queue failure } }
    {
        self.queue.fail(failure);
    }

    /// Moves the data of a transfer, and gives the bytes that were read.
    pub(crate) fn carry_out(&mut self, held: &Held, payload: &[u8]) -> Result<Vec<u8>, AllocError>
        requires length { length payload.now ≡ payload_size_of held.now.transfer }
        requires fits { StandsOnDrive self.old.tper.store.config.sectors
            self.old.tper.store.config.mbr_sectors held.now }
        ensures data { IfOk result (λ v. (f : Facts)
            → v.items ≡ held_bytes (kept_facts self.old f) held.now) }
        ensures tper { self.new.tper ≡ self.old.tper }
        ensures queue { self.new.queue ≡ self.old.queue }
        ensures settings { self.new.settings ≡ self.old.settings }
        ensures media { OnOk result ((s : ℕ) → sector_at self.new.media s
            ≡ sector_then held.now.transfer payload.now (sector_at self.old.media s) s) }
        ensures err { OnErr result (self.new ≡ self.old) }
    {
        let (lba, count) = (held.transfer.lba, held.transfer.count.number());
        match held.transfer.op {
            Op::Read => {
                if held.is_shadowed {
                    return self.tper.read_shadow(lba, count);
                }
                let buffer = replace(&mut self.spare, Vec::new(self.alloc));
                self.media.read_sectors_into(buffer, lba, count)
            }
            Op::Write => {
                self.media.write(lba, payload)?;
                Ok(Vec::new(self.alloc))
            }
        }
    }

    /// Sends to the TPer, and does to media and ranges what came of it; gives what denied or refused the
    /// item.
    pub(crate) fn send(&mut self, com_id: u16, payload: &[u8]) -> Result<Objection, AllocError>
        requires { is_session_com_id com_id ≡ true }
        ensures kept { OnOk result ((o : Origin) (acts : List Act) → Agrees self.old o acts
            → KeepsDrive self.new o (sent (facts o (log o acts)) com_id payload.now
            ∷ log o acts)) }
        ensures denied { IfOk result (λ r. (o : Origin) (acts : List Act) → Agrees self.old o acts
            → r.denied ≡ (sent (facts o (log o acts)) com_id payload.now).denied) }
        ensures rule { IfOk result (λ r. (o : Origin) (acts : List Act) → Agrees self.old o acts
            → r.rule ≡ (sent (facts o (log o acts)) com_id payload.now).rule) }
        ensures err { OnErr result (self.new ≡ self.old) }
    {
        let sent = self.tper.send(com_id, payload, &mut self.spare)?;
        self.media.erase(&sent.erases);
        refresh_where(sent.changes, &mut self.ranges, &self.tper.in_force());
        Ok(Objection {
            denied: sent.denied,
            rule: sent.rule,
        })
    }

    /// Blocks SID so.
    pub(crate) fn block_sid(&mut self, block: SidBlock)
        ensures { (o : Origin) (past : List Event) → KeepsDrive self.old o past
            → KeepsDrive self.new o (did (BlockedSid block) ∷ past) }
    {
        self.tper.block_sid(block);
    }

    /// Receives from the TPer on one of the ComIDs of sessions.
    pub(crate) fn receive(&mut self, com_id: u16, room: usize) -> Result<Vec<u8>, AllocError>
        requires { is_session_com_id com_id ≡ true }
        ensures data { IfOk result (λ v. v.items
            ≡ sized room (received_bytes com_id room (response_at self.old.tper.waiting com_id))) }
        ensures kept { OnOk result ((o : Origin) (past : List Event) (blocks : ℕ)
            → room ≡ sector_size * blocks → KeepsDrive self.old o past
            → KeepsDrive self.new o (received com_id blocks (waiting past com_id) ∷ past)) }
        ensures err { OnErr result (self.new ≡ self.old) }
    {
        let bytes = self.tper.receive(com_id, room)?;
        Ok(bytes)
    }

    /// The data of Level 0 discovery: as many bytes as the transfer has.
    pub(crate) fn discover(&self, room: usize) -> Result<Vec<u8>, AllocError>
        ensures { IfOk result (λ v. v.items
            ≡ sized room (discovery_of self.now.tper.store.config.profile
            (look_up (committed_sight self.now.tper.store)) self.now.tper.live.beside.block)) }
    {
        match self.profile {
            Profile::Base => {
                let bytes = discovery(&self.tper.in_force());
                sized(self.alloc, &bytes, room)
            }
            Profile::Field | Profile::Opal => {
                let bytes = field_discovery(&self.tper.in_force(), self.tper.block());
                sized(self.alloc, &bytes, room)
            }
        }
    }

    /// The data of log page 10h, which ends a failure.
    pub(crate) fn read_log(&mut self) -> Result<Vec<u8>, AllocError>
        ensures data { IfOk result (λ v. v.items ≡ log_page self.old.queue.failure) }
        ensures mended { OnOk result (self.new
            ≡ record self.old { queue = mended_queue self.old.queue }) }
        ensures err { OnErr result (self.new ≡ self.old) }
    {
        let page = error_log(self.alloc, &self.queue.failure)?;
        self.queue.mend();
        Ok(page)
    }

    /// The allocator of what the drive gives.
    pub(crate) fn allocator(&self) -> Global {
        self.alloc
    }

    // Acts.

    /// Takes a FIS of 20 bytes with its payload, and says what was done with it.
    ///
    /// In this order: bytes that carry no command are aborted (51h 04h) and change nothing. While the
    /// queue has failed, log page 10h is read, which ends the failure; anything else is aborted. A
    /// command that is not queued while one is held, a queued command whose Device bit 6 is clear and
    /// a tag that is held fail the queue (51h 04h); an unknown command is aborted. Then, for a
    /// transfer, the addresses (51h 10h) and the ranges (51h 04h, with the reason); a queued transfer
    /// that fails makes the queue fail. A queued transfer is held (50h); every other command is
    /// executed whole. A failed queue holds nothing.
    ///
    /// # Errors
    ///
    /// Want of memory, and then the drive is as before.
    pub fn accept(&mut self, fis: &[u8; H2D_LENGTH], payload: &[u8]) -> Result<Accepted, AllocError>
        requires { length payload.now ≡ payload_of self.old.tper.store.config fis.now }
        ensures agrees { OnOk result ((o : Origin) (acts : List Act) → Agrees self.old o acts
            → Agrees self.new o (Accept fis.now payload.now ∷ acts)) }
        ensures in_order { OnOk result ((o : Origin) (acts : List Act)
            → AgreesInOrder self.old o acts
            → AgreesInOrder self.new o (acts ++ Accept fis.now payload.now ∷ [])) }
        ensures answer { IfOk result (λ accepted. (o : Origin) (acts : List Act)
            → Agrees self.old o acts
            → IsAnswer (facts o (log o acts)) (h2d_at fis.now)
            (event o (log o acts) (Accept fis.now payload.now)) accepted) }
        ensures err { OnErr result (self.new ≡ self.old) }
    {
        let mut answer = Accepted::none(self.alloc);
        self.accept_into(fis, payload, &mut answer)?;
        Ok(answer)
    }

    /// [`Drive::accept`], whose answer takes the place of another one: an answer is large, and so it
    /// is not moved.
    ///
    /// # Errors
    ///
    /// Want of memory, and then the drive and the answer are as before.
    #[inline(always)]
    pub fn accept_into(
        &mut self,
        fis: &[u8; H2D_LENGTH],
        payload: &[u8],
        answer: &mut Accepted,
    ) -> Result<(), AllocError>
        requires { length payload.now ≡ payload_of self.old.tper.store.config fis.now }
        ensures agrees { OnOk result ((o : Origin) (acts : List Act) → Agrees self.old o acts
            → Agrees self.new o (Accept fis.now payload.now ∷ acts)) }
        ensures in_order { OnOk result ((o : Origin) (acts : List Act)
            → AgreesInOrder self.old o acts
            → AgreesInOrder self.new o (acts ++ Accept fis.now payload.now ∷ [])) }
        ensures answer { OnOk result ((o : Origin) (acts : List Act)
            → Agrees self.old o acts
            → IsAnswer (facts o (log o acts)) (h2d_at fis.now)
            (event o (log o acts) (Accept fis.now payload.now)) answer.new) }
        ensures err { OnErr result (self.new ≡ self.old) }
        ensures unsaid { OnErr result (answer.new ≡ answer.old) }
    {
        self.take(fis, payload, answer)?;
        Ok(())
    }

    /// Decides on a FIS, and does it.
    #[inline(always)]
    fn take(
        &mut self,
        fis: &[u8; H2D_LENGTH],
        payload: &[u8],
        answer: &mut Accepted,
    ) -> Result<(), AllocError>
        requires { length payload.now ≡ payload_of self.old.tper.store.config fis.now }
        ensures done { OnOk result ((o : Origin) (acts : List Act) → Agrees self.old o acts
            → IsDoneAndAnswered (facts o (log o acts)) (h2d_at fis.now)
            (event o (log o acts) (Accept fis.now payload.now)) self.new o (log o acts)
            answer.new) }
        ensures err { OnErr result (self.new ≡ self.old) }
        ensures unsaid { OnErr result (answer.new ≡ answer.old) }
    {
        if fis[0] != H2D_TYPE {
            answer.set_failed(ABORTED, Objection::by(Rule::NoCommand));
            return Ok(());
        }
        self.take_command(fis, &RegH2d::read(fis), payload, answer, false)?;
        Ok(())
    }

    /// Moves the data of a held command, and lets it go. `NotHeld` where nothing is held under the
    /// tag.
    ///
    /// # Errors
    ///
    /// `NotHeld`, and want of memory: then the drive is as before.
    pub fn complete(&mut self, tag: Tag, payload: &[u8]) -> Result<Completed, DriveError>
        requires { length payload.now ≡ expected (held_at self.old.queue tag) }
        ensures agrees { OnOk result ((o : Origin) (acts : List Act) → Agrees self.old o acts
            → Agrees self.new o (Complete tag payload.now ∷ acts)) }
        ensures in_order { OnOk result ((o : Origin) (acts : List Act)
            → AgreesInOrder self.old o acts
            → AgreesInOrder self.new o (acts ++ Complete tag payload.now ∷ [])) }
        ensures answer { IfOk result (λ done. (o : Origin) (acts : List Act)
            → Agrees self.old o acts
            → IsCompletion (facts o (log o acts)) tag (held_in (log o acts) tag) done) }
        ensures stands { IsErrOf result DriveError.NotHeld
            ↔ (slot_at self.old.queue.slots tag ≡ None) }
        ensures not_held { (o : Origin) (acts : List Act) → Agrees self.old o acts
            → (IsErrOf result DriveError.NotHeld ↔ (held_in (log o acts) tag ≡ None)) }
        ensures err { OnErr result (self.new ≡ self.old) }
    {
        self.finish(tag, payload)
    }

    fn finish(&mut self, tag: Tag, payload: &[u8]) -> Result<Completed, DriveError>
        requires { length payload.now ≡ expected (held_at self.old.queue tag) }
        ensures slot { tag < slot_count }
        ensures done { IfOk result (λ done. IsFinished (λ bytes. bytes) tag payload.now
            (slot_at self.old.queue.slots tag) self.old self.new done) }
        ensures not_held { IsErrOf result DriveError.NotHeld
            ↔ (slot_at self.old.queue.slots tag ≡ None) }
        ensures err { OnErr result (self.new ≡ self.old) }
    {
        match self.held(tag) {
            None => Err(DriveError::NotHeld),
            Some(held) => {
                let bytes = self.carry_out(&held, payload)?;
                self.release(tag);
                Ok(Completed::of(tag, &held.transfer, bytes))
            }
        }
    }

    /// Completes a held command as [`Drive::complete`] does with a payload that is one byte, again and
    /// again, and gives of each sector of a read the first four bytes alone: who needs no more of it
    /// neither fills a payload nor takes the sectors.
    ///
    /// # Errors
    ///
    /// `NotHeld`, and want of memory: then the drive is as before.
    pub fn complete_with_heads(&mut self, tag: Tag, byte: u8) -> Result<Completed, DriveError>
        ensures agrees { OnOk result ((o : Origin) (acts : List Act) → Agrees self.old o acts
            → Agrees self.new o (Complete tag
            (replicate (expected (held_at self.old.queue tag)) byte) ∷ acts)) }
        ensures in_order { OnOk result ((o : Origin) (acts : List Act)
            → AgreesInOrder self.old o acts
            → AgreesInOrder self.new o (acts ++ Complete tag
            (replicate (expected (held_at self.old.queue tag)) byte) ∷ [])) }
        ensures answer { IfOk result (λ done. (o : Origin) (acts : List Act)
            → Agrees self.old o acts
            → IsCompletionByHeads (facts o (log o acts)) tag (held_in (log o acts) tag) done) }
        ensures stands { IsErrOf result DriveError.NotHeld
            ↔ (slot_at self.old.queue.slots tag ≡ None) }
        ensures not_held { (o : Origin) (acts : List Act) → Agrees self.old o acts
            → (IsErrOf result DriveError.NotHeld ↔ (held_in (log o acts) tag ≡ None)) }
        ensures err { OnErr result (self.new ≡ self.old) }
    {
        self.finish_with_heads(tag, byte)
    }

    fn finish_with_heads(&mut self, tag: Tag, byte: u8) -> Result<Completed, DriveError>
        ensures slot { tag < slot_count }
        ensures done { IfOk result (λ done. IsFinished heads tag
            (replicate (expected (held_at self.old.queue tag)) byte)
            (slot_at self.old.queue.slots tag) self.old self.new done) }
        ensures not_held { IsErrOf result DriveError.NotHeld
            ↔ (slot_at self.old.queue.slots tag ≡ None) }
        ensures err { OnErr result (self.new ≡ self.old) }
    {
        match self.held(tag) {
            None => Err(DriveError::NotHeld),
            Some(held) => {
                let bytes = self.carry_out_with_heads(&held, byte)?;
                self.release(tag);
                Ok(Completed::of(tag, &held.transfer, bytes))
            }
        }
    }

    /// Moves the data of a transfer, each byte of a write the same, and gives the first bytes of each
    /// sector that was read.
    fn carry_out_with_heads(&mut self, held: &Held, byte: u8) -> Result<Vec<u8>, AllocError>
        requires { StandsOnDrive self.old.tper.store.config.sectors
            self.old.tper.store.config.mbr_sectors held.now }
        ensures data { IfOk result (λ v. (f : Facts)
            → v.items ≡ heads (held_bytes (kept_facts self.old f) held.now)) }
        ensures tper { self.new.tper ≡ self.old.tper }
        ensures queue { self.new.queue ≡ self.old.queue }
        ensures settings { self.new.settings ≡ self.old.settings }
        ensures media { OnOk result ((s : ℕ) → sector_at self.new.media s
            ≡ sector_then held.now.transfer
            (replicate (payload_size_of held.now.transfer) byte) (sector_at self.old.media s) s) }
        ensures err { OnErr result (self.new ≡ self.old) }
    {
        let (lba, count) = (held.transfer.lba, held.transfer.count.number());
        match held.transfer.op {
            Op::Read if held.is_shadowed => {
                let bytes = self.tper.read_shadow(lba, count)?;
                heads(self.alloc, &bytes)
            }
            Op::Read => {
                let buffer = replace(&mut self.spare, Vec::new(self.alloc));
                self.media.read_heads_into(buffer, lba, count)
            }
            Op::Write => {
                self.media.fill(lba, count, byte)?;
                Ok(Vec::new(self.alloc))
            }
        }
    }

    /// Lets what is held under the tag go, whose data moved: the drive is active.
    fn release(&mut self, tag: Tag)
        ensures { self.new ≡ record self.old {
          queue = with_slot tag None self.old.queue;
          settings = active self.old.settings;
        } }
    {
        self.queue.release(tag);
        self.settings = self.settings.active();
    }

    /// Ends sessions and transactions, drops the responses that wait, what is held and the failure of
    /// the queue, locks what LockOnReset names, and makes Done 0 where DoneOnReset has the kind; a
    /// power cycle makes all Tries 0 too, and frees SID. What a host has chosen by SET FEATURES is as at
    /// first. It takes no memory.
    pub fn reset(&mut self, kind: ResetKind)
        ensures agrees { (o : Origin) (acts : List Act) → Agrees self.old o acts
            → Agrees self.new o (Reset (reset_kind_number kind) ∷ acts) }
        ensures in_order { (o : Origin) (acts : List Act) → AgreesInOrder self.old o acts
            → AgreesInOrder self.new o (acts ++ Reset (reset_kind_number kind) ∷ []) }
    {
        self.restart(kind.number());
    }

    /// What a reset of this kind makes of each part, whatever was done before.
    pub(crate) fn restart(&mut self, kind: u8)
        ensures { (o : Origin) (past : List Event) → KeepsDrive self.old o past
            → KeepsDrive self.new o (did (WasReset kind) ∷ past) }
    {
        self.tper.reset(kind);
        *self.queue = Queue::new();
        self.settings = self.settings.after_reset(kind);
        self.ranges.refresh(&self.tper.in_force());
    }
}
