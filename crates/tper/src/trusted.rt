//! The TPer: what is kept behind the ComIDs, and what a send and a receive do with it.

ghost use Rattle.std.specs.Prelude.{◌≡◌, ◌≢◌, ℕ, List, [], ◌∷◌, Option, None, Some, if◌then◌else◌, ◌==◌, true, false, IfOk, OnErr, OnOk, is_some, length, option_copied, option_map, slice_index, ◌||◌, ◌<◌, ◌≤◌, ◌+◌, ◌*◌};
ghost use Rattle.device_data.specs.ErrorLog.{sized};
ghost use Rattle.sp_tables.specs.Contents.{Contents};
ghost use Rattle.shadow_mbr.specs.Erasure.{no_sectors};
ghost use Rattle.shadow_mbr.specs.Stored.{sector_size};
ghost use Rattle.transactions.specs.Bytes.{bytes_from};
ghost use Rattle.transactions.specs.Sights.{look_up, committed_sight};
ghost use Rattle.transactions.specs.Stored.{after_reset, new_store, part};
ghost use Rattle.sp_cells.specs.Config.{table_sectors};
ghost use Rattle.sessions.specs.Live.{session_at, session_room, lives_on, lives_of, AreNumberedOf};
ghost use Rattle.sessions.specs.Made.{closed_if};
ghost use Rattle.sessions.specs.Beside.{beside_at_reset, channel_of, new_beside, with_reset_stack, with_told_stack};
ghost use Rattle.sp_cells.specs.declared.names.Sp.TheVariants.{Admin, Locking};
ghost use Rattle.trusted_cmds.specs.BlockSid.{is_blocked};
ghost use Rattle.device_data.specs.Discovery.{has_owner};
ghost use Rattle.history.specs.Agreement.{HasNoTries};
ghost use Rattle.history.specs.Tcg.{received_bytes, sent, broken_of as broken_in_profile, stack_reset, to_manager, in_session, item_in};
ghost use Rattle.history.specs.Decisions.{is_session_com_id, lets_reset, received};
ghost use Rattle.history.specs.Events.{Event, WasReset, BlockedSid, did};
ghost use Rattle.history.specs.Facts.{facts};
ghost use Rattle.history.specs.History.{Act, log};
ghost use Rattle.history.specs.KeptStore.{HasKnownRows};
ghost use Rattle.history.specs.Opening.{Origin, origin_on};
ghost use Rattle.history.specs.Readers.{waiting, session_on, open_on};
ghost use Rattle.tcg_calls.specs.Carried.{is_carried};
ghost use Rattle.tcg_tokens.specs.Message.{message, end_session};
ghost use Rattle.tcg_tokens.specs.Reading.{reading as message_in};
ghost use Rattle.methods.specs.Effects.{live_holder};
ghost use Rattle.tper.specs.Items.{OfManager, OfSession};
ghost use Rattle.tper.specs.Tper.{Keeps, IsToldOfSend, Handles, BreaksOff, IsUnframed, Manages, ServesSession, Responds, Takes, response_at, unless_on_if, told_event};
ghost use Rattle.tper.specs.Seen.{living_session, rows_of_session, held_of_session, room_of_session, sight_kept, HoldsAlike};
ghost use Rattle.sessions.specs.Deeds.{Ended, says};

use crate::item::{breaks_off, end_session, in_session, is_discarded, to_manager};
use crate::response::{Responses, Room};
use ace_eval::Authorities;
use audit::Why;
use audit::rules::Rule;
use basics::Profile;
use compacket::{ComId, Named, Session, broken, open};
use device_data::has_owner;
use methods::Outcome;
use sessions::Sessions;
use shadow_mbr::{Erased, Mbr, SECTOR_SIZE};
use sp_cells::{Column, Sp, Uid, number_at};
use sp_tables::{Rows, Tables};
use std::alloc::{AllocError, Global};
use std::marker::Model;
use transactions::{SessionId, Store, View};
use trusted_cmds::SidBlock;

/// What became of what was sent.
#[derive(Drop)]
pub struct Sent {
    /// What denied the item.
    pub denied: Option<Why>,
    /// Which rule refused it, where nothing denied it.
    pub rule: Option<Rule>,
    /// Which sectors become zeros.
    pub erases: Erased,
    /// Whether rows or bytes may have changed.
    pub changes: bool,
}

/// The rows and the bytes of the shadow MBR, the sessions that live, and the response that waits on
/// each ComID.
#[derive(Drop)]
pub struct Tper {
    alloc: Global,
    store: Store,
    sessions: Sessions,
    responses: Responses,
}

impl Model for Tper {
    ghost use Rattle.tper.specs.Tper.{Tper};

    ghost Value = { Tper };

    ghost view = { λ t. record {
      store = t.store;
      live = t.sessions;
      waiting =
          t.responses.waiting;
    } };

    ghost use Rattle.std.specs.Prelude.{◌≤◌};
    ghost use Rattle.sp_cells.specs.Limits.{most_mbr_sectors};

    ghost invariant = { λ t. t.store.config.mbr_sectors ≤ most_mbr_sectors };
}

/// What a payload names that carries no whole subpacket, on a drive of the profile `Opal`.
fn broken_of(profile: Profile, payload: &[u8]) -> Option<Named>
    ensures { result ≡ broken_in_profile profile payload.now }
{
    if profile.has_opal() {
        broken(payload)
    } else {
        None
    }
}

/// Nothing became of it, by a rule.
fn nothing(rule: Rule) -> Sent
    ensures denied { result.denied ≡ None }
    ensures rule { result.rule ≡ Some rule }
    ensures erases { result.erases ≡ no_sectors }
{
    Sent {
        denied: None,
        rule: Some(rule),
        erases: Erased::none(),
        changes: false,
    }
}

impl Tper {
    /// No session lives, and nothing was done with the tables.
    pub fn new(alloc: Global, tables: Tables) -> Tper
        ensures kept { HasNoTries (origin_on tables) → HasKnownRows (origin_on tables)
            → Keeps result (origin_on tables) [] }
        ensures config { result.store.config ≡ tables.config }
    {
        let mbr = Mbr::new(alloc, tables.config().table_sizes().sectors());
        Tper {
            alloc,
            store: Store::new(alloc, tables, mbr),
            sessions: Sessions::new(alloc),
            responses: Responses::new(),
        }
    }

    /// No session lives and nothing waits, where there were sessions before: the next one will have this number, and so
    /// many random bytes were given.
    pub fn resumed(alloc: Global, tables: Tables, mbr: Mbr, next: u64, drawn: u64) -> Tper
        requires { mbr.sectors ≡ table_sectors tables.config }
        ensures store { result.store ≡ new_store tables mbr }
        ensures sessions { (n : ℕ) → session_at result.live n ≡ None }
        ensures next { result.live.next ≡ next }
        ensures beside { result.live.beside ≡ record new_beside { drawn = drawn } }
        ensures waiting { (com_id : ℕ) → response_at result.waiting com_id ≡ None }
    {
        // The tables have limits, which the number of the shadow's sectors says.
        let _ = tables.config().table_sizes();
        Tper {
            alloc,
            store: Store::new(alloc, tables, mbr),
            sessions: Sessions::resumed(alloc, next, drawn),
            responses: Responses::new(),
        }
    }

    /// The tables, and the bytes of the byte tables. Where no transaction is open they are all that is kept of both.
    pub fn kept(&self) -> (&Tables, &Mbr)
        ensures alone { (part self.now.store Admin).pending ≡ None
            → (part self.now.store Locking).pending ≡ None
            → self.now.store ≡ new_store result.0.now result.1.now }
        ensures config { result.0.now.config ≡ self.now.store.config }
        ensures sectors { result.1.now.sectors ≡ table_sectors self.now.store.config }
    {
        self.store.kept()
    }

    /// The number that the next session will have.
    pub fn next_session(&self) -> u64
        ensures { result ≡ self.now.live.next }
    {
        self.sessions.next()
    }

    /// How many random bytes were given.
    pub fn drawn(&self) -> u64
        ensures { result ≡ self.now.live.beside.drawn }
    {
        self.sessions.beside().drawn
    }

    /// The same once more, in memory of its own.
    #[inline(always)]
    pub fn copy(&self) -> Result<Tper, AllocError>
        ensures { IfOk result (λ copied. copied ≡ self.now) }
    {
        Ok(Tper {
            alloc: self.alloc,
            store: self.store.copy()?,
            sessions: self.sessions.copy()?,
            responses: self.responses.copy()?,
        })
    }

    /// The rows and the bytes of the shadow MBR in force.
    pub fn in_force(&self) -> View<'_>
        ensures { result ≡ committed_sight self.now.store }
    {
        self.store.committed()
    }

    /// Whether a session of the SP lives.
    pub fn has_session(&self, sp: Sp) -> bool
        ensures stands { result ≡ lives_on sp self.now.live }
        ensures told { (o : Origin) (past : List Event) → Keeps self.now o past
            → result ≡ is_some (session_on past sp) }
    {
        self.sessions.numbered();
        self.sessions.any_on(sp)
    }

    /// Whether a transaction is open on the SP.
    pub fn has_transaction(&self, sp: Sp) -> bool
        ensures stands { result ≡ is_some (part self.now.store sp).pending }
        ensures told { (o : Origin) (past : List Event) → Keeps self.now o past
            → result ≡ is_some (open_on past sp) }
    {
        self.store.open_on(sp).is_some()
    }

    /// Whether a session lives.
    fn lives(&self, session: SessionId) -> bool
        ensures { result ≡ is_some (live_holder self.now.live session) }
    {
        self.sessions.authorities(session).is_some()
    }

    /// What a session sees, or what is in force where it does not live.
    fn sight(&self, session: SessionId) -> View<'_>
        ensures { result ≡ sight_kept self.now session }
    {
        if self.lives(session) {
            self.store.view(session)
        } else {
            self.store.committed()
        }
    }

    /// The rows as a session sees them: its calls are judged by them. Those in force where it does not live.
    #[tactic(auto, using(crate::proofs::Seen::config_kept))]
    pub fn seen_by(&self, session: SessionId) -> View<'_>
        ensures stands { result ≡ sight_kept self.now session }
        ensures told { (o : Origin) (acts : List Act) → Keeps self.now o (log o acts)
            → look_up result
            ≡ rows_of_session o (log o acts) (living_session (log o acts) session) }
        ensures config { result.config ≡ self.now.store.config }
    {
        self.sight(session)
    }

    /// What a session holds, by what is kept.
    fn held_by(&self, session: SessionId) -> Option<&Authorities>
        ensures { option_copied result
            ≡ option_map (λ h. h.held) (live_holder self.now.live session) }
    {
        self.sessions.authorities(session)
    }

    /// The authorities that a session holds; none where it does not live.
    #[tactic(auto, using(crate::proofs::Seen::held_alike))]
    pub fn authorities(&self, session: SessionId) -> Option<&Authorities>
        ensures stands { option_copied result
            ≡ option_map (λ h. h.held) (live_holder self.now.live session) }
        ensures told { (o : Origin) (past : List Event) → Keeps self.now o past
            → HoldsAlike (option_copied result)
            (held_of_session past (living_session past session)) }
    {
        self.held_by(session)
    }

    /// How many bytes a response to a session has room for, by what is kept.
    fn room_kept(&self, session: SessionId) -> u64
        ensures { result ≡ session_room self.now.store.config.profile self.now.live session }
    {
        self.sessions.room(self.profile(), session)
    }

    /// How many bytes of tokens a response to a session has room for.
    #[tactic(auto, using(crate::proofs::Seen::room_alike))]
    pub fn room(&self, session: SessionId) -> u64
        ensures stands { result
            ≡ session_room self.now.store.config.profile self.now.live session }
        ensures told { (o : Origin) (past : List Event) → Keeps self.now o past
            → result ≡ room_of_session o.tables.config.profile past (living_session past session) }
    {
        self.room_kept(session)
    }

    /// The sectors of the drive that can be shadowed.
    pub fn mbr_sectors(&self) -> u64
        ensures { result ≡ self.now.store.config.mbr_sectors }
    {
        self.in_force().mbr_sectors()
    }

    /// So many sectors of the shadow MBR, as they are in force, from one of its sectors on.
    pub fn read_shadow(&self, lba: u64, count: u32) -> Result<Vec<u8>, AllocError>
        requires { lba + count ≤ self.now.store.config.mbr_sectors }
        ensures { IfOk result (λ v. v.items ≡ bytes_from (slice_index self.now.store.locking.bytes)
            (sector_size * lba) (sector_size * count)) }
    {
        let mut bytes = vec![in self.alloc; 0; count as usize * SECTOR_SIZE]?;
        self.fill(lba * SECTOR_SIZE as u64, &mut bytes);
        Ok(bytes)
    }

    /// Fills the buffer with the shadow MBR's bytes in force, from a place on.
    #[tactic(auto, using(transactions::proofs::ByteLemmas::reading))]
    fn fill(&self, place: u64, buffer: &mut [u8])
        requires { place + length buffer.old ≤ sector_size * self.now.store.config.mbr_sectors }
        ensures { buffer.new ≡ bytes_from (slice_index self.now.store.locking.bytes) place
            (length buffer.old) }
    {
        self.in_force().read_bytes(place, buffer);
    }

    /// Whether a command may reset the drive, by the rows in force.
    pub fn lets_reset(&self) -> bool
        ensures { result ≡ lets_reset (look_up (committed_sight self.now.store)) }
    {
        let enable = Column::PROGRAMMATIC_RESET_ENABLE;
        number_at(&self.store.committed(), Sp::Admin, Uid::TPER_INFO, enable) == 1
    }

    /// Whether attempts on SID are blocked.
    pub fn block(&self) -> SidBlock
        ensures { result ≡ self.now.live.beside.block }
    {
        self.sessions.block()
    }

    /// Whether the command that blocks SID is refused: SID has a PIN of its own by the rows in force, or is blocked.
    pub fn keeps_sid(&self) -> bool
        ensures { result ≡ (has_owner (look_up (committed_sight self.now.store))
            || is_blocked self.now.live.beside.block) }
    {
        has_owner(&self.store.committed()) || self.sessions.block().is_blocked()
    }

    /// Blocks attempts on SID so. All sessions go on.
    pub fn block_sid(&mut self, block: SidBlock)
        ensures store { self.new.store ≡ self.old.store }
        ensures kept { (o : Origin) (past : List Event) → Keeps self.old o past
            → Keeps self.new o (did (BlockedSid block) ∷ past) }
    {
        self.put_block(block);
    }

    /// What a block of SID makes of each part.
    fn put_block(&mut self, block: SidBlock)
        ensures store { self.new.store ≡ self.old.store }
        ensures live { self.new.live ≡ record self.old.live {
          beside = record self.old.live.beside { block = block };
        } }
        ensures waiting { self.new.waiting ≡ self.old.waiting }
    {
        self.sessions.set_block(block);
    }

    /// Whether a response waits on a ComID.
    pub fn is_waiting(&self, com_id: ComId) -> bool
        ensures { result ≡ is_some (response_at self.now.waiting com_id) }
    {
        self.responses.at(com_id).is_some()
    }

    /// Takes what is sent to one of the ComIDs of sessions, and keeps the response. What is no frame of that
    /// ComID, or is for no live session, is taken and has no response. The response is written into the spare vector,
    /// where that has the room. After an error nothing has changed.
    pub fn send(
        &mut self,
        com_id: ComId,
        payload: &[u8],
        spare: &mut Vec<u8>,
    ) -> Result<Sent, AllocError>
        requires { is_session_com_id com_id ≡ true }
        ensures kept { OnOk result ((o : Origin) (acts : List Act) → Keeps self.old o (log o acts)
            → Keeps self.new o (sent (facts o (log o acts)) com_id payload.now
            ∷ log o acts)) }
        ensures answer { IfOk result (λ s. (o : Origin) (acts : List Act)
            → Keeps self.old o (log o acts)
            → IsToldOfSend (sent (facts o (log o acts)) com_id payload.now) s) }
        ensures unchanged { IfOk result (λ s. s.changes ≡ false → self.new.store ≡ self.old.store) }
        ensures err { OnErr result (self.new ≡ self.old) }
        ensures config { self.new.store.config ≡ self.old.store.config }
    {
        let Ok(frame) = open(payload) else {
            return Ok(self.send_unframed(com_id, payload));
        };
        if frame.com_id != com_id {
            return Ok(nothing(Rule::NoFrame));
        }
        let session = frame.session;
        if session.tsn == 0 && session.hsn == 0 {
            return self.manage(com_id, session, frame.payload, spare);
        }
        match self.sessions.find(com_id, session.tsn, session.hsn) {
            None => Ok(nothing(Rule::NoSession)),
            Some(id) => self.serve(com_id, session, id, frame.payload, spare),
        }
    }

    /// What is no frame: under the profile `Opal` what carries no whole subpacket ends the session that it names.
    fn send_unframed(&mut self, com_id: ComId, payload: &[u8]) -> Sent
        ensures handled { IsUnframed com_id payload.now result self.old self.new }
        ensures unchanged { result.changes ≡ false → self.new.store ≡ self.old.store }
        ensures config { self.new.store.config ≡ self.old.store.config }
    {
        let Some(named) = broken_of(self.profile(), payload) else {
            return nothing(Rule::NoFrame);
        };
        if named.com_id != com_id {
            return nothing(Rule::NoFrame);
        }
        match self
            .sessions
            .find(com_id, named.session.tsn, named.session.hsn)
        {
            None => nothing(Rule::NoFrame),
            Some(id) => self.break_off(id, Rule::NoSubpacket),
        }
    }

    /// The profile of the drive.
    fn profile(&self) -> Profile
        ensures { result ≡ self.now.store.config.profile }
    {
        self.in_force().config().profile()
    }

    /// What is sent to the session manager.
    fn manage(
        &mut self,
        com_id: ComId,
        session: Session,
        tokens: &[u8],
        spare: &mut Vec<u8>,
    ) -> Result<Sent, AllocError>
        requires { is_session_com_id com_id ≡ true }
        ensures handled { IfOk result
            (λ s. Manages com_id session tokens.now s self.old self.new) }
        ensures unchanged { IfOk result (λ s. s.changes ≡ false → self.new.store ≡ self.old.store) }
        ensures err { OnErr result (self.new ≡ self.old) }
        ensures config { self.new.store.config ≡ self.old.store.config }
    {
        if is_discarded(self.alloc, self.profile(), tokens)? {
            return Ok(nothing(Rule::Discarded));
        }
        self.answer_manager(com_id, session, tokens, spare)
    }

    /// What the session manager answers.
    fn answer_manager(
        &mut self,
        com_id: ComId,
        session: Session,
        tokens: &[u8],
        spare: &mut Vec<u8>,
    ) -> Result<Sent, AllocError>
        requires { is_session_com_id com_id ≡ true }
        ensures handled { IfOk result
            (λ s. Handles (λ said. OfManager (λ f. to_manager f com_id (message_in tokens.now)) said
            self.old.store self.new.store self.old.live self.new.live) com_id session s self.old
            self.new) }
        ensures unchanged { IfOk result (λ s. s.changes ≡ false → self.new.store ≡ self.old.store) }
        ensures err { OnErr result (self.new ≡ self.old) }
        ensures config { self.new.store.config ≡ self.old.store.config }
    {
        let room = Room::over(self.alloc, spare)?;
        let outcome = to_manager(
            self.alloc,
            &mut self.store,
            &mut self.sessions,
            com_id,
            tokens,
        )?;
        Ok(self.respond(com_id, session, outcome, room))
    }

    /// What is sent to a live session.
    fn serve(
        &mut self,
        com_id: ComId,
        session: Session,
        id: SessionId,
        tokens: &[u8],
        spare: &mut Vec<u8>,
    ) -> Result<Sent, AllocError>
        requires com_id { is_session_com_id com_id ≡ true }
        requires lives { live_holder self.old.live id ≢ None }
        ensures handled { IfOk result
            (λ s. ServesSession com_id session id tokens.now s self.old self.new) }
        ensures unchanged { IfOk result (λ s. s.changes ≡ false → self.new.store ≡ self.old.store) }
        ensures err { OnErr result (self.new ≡ self.old) }
        ensures config { self.new.store.config ≡ self.old.store.config }
    {
        if breaks_off(self.alloc, self.profile(), tokens)? {
            return Ok(self.break_off(id, Rule::BrokenOff));
        }
        self.answer_session(com_id, session, id, tokens, spare)
    }

    /// A session ends by a rule, and nothing is answered.
    fn break_off(&mut self, id: SessionId, rule: Rule) -> Sent
        ensures ends { BreaksOff rule (λ said. OfSession
            (λ f its. says (Ended its.sp) end_session) id
            said self.old.store self.new.store self.old.live self.new.live) result self.old
            self.new }
        ensures changes { result.changes ≡ true }
        ensures config { self.new.store.config ≡ self.old.store.config }
    {
        end_session(&mut self.store, &mut self.sessions, id);
        Sent {
            denied: None,
            rule: Some(rule),
            erases: Erased::none(),
            changes: true,
        }
    }

    /// What a live session answers.
    fn answer_session(
        &mut self,
        com_id: ComId,
        session: Session,
        id: SessionId,
        tokens: &[u8],
        spare: &mut Vec<u8>,
    ) -> Result<Sent, AllocError>
        requires com_id { is_session_com_id com_id ≡ true }
        requires lives { live_holder self.old.live id ≢ None }
        ensures handled { IfOk result
            (λ s. Handles (λ said. OfSession
            (λ f its. in_session f its (item_in f.config.profile tokens.now)) id said
            self.old.store self.new.store self.old.live self.new.live) com_id session s self.old
            self.new) }
        ensures unchanged { IfOk result (λ s. s.changes ≡ false → self.new.store ≡ self.old.store) }
        ensures err { OnErr result (self.new ≡ self.old) }
        ensures config { self.new.store.config ≡ self.old.store.config }
    {
        let room = Room::over(self.alloc, spare)?;
        let outcome = in_session(self.alloc, &mut self.store, &mut self.sessions, id, tokens)?;
        Ok(self.respond(com_id, session, outcome, room))
    }

    /// Keeps the response that carries an answer.
    fn respond(&mut self, com_id: ComId, session: Session, outcome: Outcome, room: Room) -> Sent
        requires com_id { is_session_com_id com_id ≡ true }
        requires carried { is_carried (message outcome.reply) ≡ true }
        ensures store { self.new.store ≡ self.old.store }
        ensures live { self.new.live ≡ self.old.live }
        ensures waiting { Responds com_id session (message outcome.reply) self.old self.new }
        ensures denied { result.denied ≡ outcome.denied }
        ensures rule { result.rule ≡ outcome.rule }
        ensures erases { result.erases ≡ outcome.erases }
        ensures changes { result.changes ≡ outcome.changes }
    {
        let Outcome {
            reply,
            denied,
            rule,
            erases,
            changes,
        } = outcome;
        let response = room.framed(com_id, session, &reply);
        self.responses.put(com_id, Some(response));
        Sent {
            denied,
            rule,
            erases,
            changes,
        }
    }

    /// The data of a receive on one of the ComIDs of sessions: as many bytes as the transfer has. A response that
    /// has room in it is taken.
    pub fn receive(&mut self, com_id: ComId, room: usize) -> Result<Vec<u8>, AllocError>
        requires { is_session_com_id com_id ≡ true }
        ensures data { IfOk result (λ v. v.items
            ≡ sized room (received_bytes com_id room (response_at self.old.waiting com_id))) }
        ensures store { self.new.store ≡ self.old.store }
        ensures live { self.new.live ≡ self.old.live }
        ensures waiting { OnOk result (Takes com_id room self.old self.new) }
        ensures err { OnErr result (self.new ≡ self.old) }
        ensures config { self.new.store.config ≡ self.old.store.config }
        ensures kept { OnOk result ((o : Origin) (past : List Event) (blocks : ℕ)
            → room ≡ sector_size * blocks → Keeps self.old o past
            → Keeps self.new o (received com_id blocks (waiting past com_id) ∷ past)) }
    {
        if self.responses.fits(com_id, room) {
            let data = self.responses.take(com_id, room)?;
            return Ok(data);
        }
        let data = self.responses.data(self.alloc, com_id, room)?;
        Ok(data)
    }

    /// Resets the stack of a ComID: its sessions end, their transactions are aborted, and the response that waits there is
    /// dropped. It takes no memory.
    pub fn reset_stack(&mut self, com_id: ComId)
        requires { is_session_com_id com_id ≡ true }
        ensures config { self.new.store.config ≡ self.old.store.config }
        ensures kept { (o : Origin) (past : List Event) → Keeps self.old o past
            → Keeps self.new o (stack_reset (facts o past) com_id ∷ past) }
    {
        self.clear_stack(com_id);
    }

    /// What a reset of the stack of a ComID makes of each part.
    fn clear_stack(&mut self, com_id: ComId)
        requires { is_session_com_id com_id ≡ true }
        ensures store { self.new.store
            ≡ closed_if (lives_of com_id Locking self.old.live) Locking
            (closed_if (lives_of com_id Admin self.old.live) Admin self.old.store) }
        ensures points { (n : ℕ) → session_at self.new.live n
            ≡ unless_on_if (lives_of com_id Locking self.old.live) Locking
            (unless_on_if (lives_of com_id Admin self.old.live) Admin
            (session_at self.old.live n)) }
        ensures next { self.new.live.next ≡ self.old.live.next }
        ensures beside { self.new.live.beside ≡ with_reset_stack com_id self.old.live.beside }
        ensures waiting { (other : ℕ) → response_at self.new.waiting other
            ≡ (if com_id == other then None else response_at self.old.waiting other) }
        ensures numbered { AreNumberedOf self.old.live }
    {
        self.sessions.numbered_of();
        let admin = self.sessions.any_of(Sp::Admin, com_id);
        let locking = self.sessions.any_of(Sp::Locking, com_id);
        self.end_if(Sp::Admin, admin);
        self.end_if(Sp::Locking, locking);
        self.sessions.reset_stack(com_id);
        self.responses.put(com_id, None);
    }

    /// Ends the session of an SP, with its transaction, or does nothing.
    fn end_if(&mut self, sp: Sp, ends: bool)
        ensures store { self.new.store ≡ closed_if ends sp self.old.store }
        ensures points { (n : ℕ) → session_at self.new.live n
            ≡ unless_on_if ends sp (session_at self.old.live n) }
        ensures next { self.new.live.next ≡ self.old.live.next }
        ensures beside { self.new.live.beside ≡ self.old.live.beside }
        ensures waiting { self.new.waiting ≡ self.old.waiting }
    {
        if ends {
            self.store.close(sp);
            self.sessions.end_on(sp);
        }
    }

    /// Whether a reset of the stack of a ComID is to be told.
    pub fn was_reset(&self, com_id: ComId) -> bool
        ensures { result ≡ (channel_of self.now.live.beside com_id).was_reset }
    {
        self.sessions.beside().channel(com_id).was_reset
    }

    /// Nothing is to be told any more of the stack of a ComID, by a rule or as it was told.
    pub fn tell_stack(&mut self, com_id: ComId)
        requires { is_session_com_id com_id ≡ true }
        ensures config { self.new.store.config ≡ self.old.store.config }
        ensures kept { (o : Origin) (past : List Event) (rule : Option Rule) → Keeps self.old o past
            → Keeps self.new o (told_event com_id rule ∷ past) }
    {
        self.forget_stack(com_id);
    }

    /// What that makes of each part.
    fn forget_stack(&mut self, com_id: ComId)
        requires { is_session_com_id com_id ≡ true }
        ensures store { self.new.store ≡ self.old.store }
        ensures live { self.new.live ≡ record self.old.live {
          beside = with_told_stack com_id self.old.live.beside;
        } }
        ensures waiting { self.new.waiting ≡ self.old.waiting }
    {
        self.sessions.tell_stack(com_id);
    }

    /// Ends all sessions and transactions, drops the responses that wait, and does what a reset of this kind does to
    /// the rows and to a block of SID. It takes no memory.
    pub fn reset(&mut self, kind: u8)
        ensures config { self.new.store.config ≡ self.old.store.config }
        ensures kept { (o : Origin) (past : List Event) → Keeps self.old o past
            → Keeps self.new o (did (WasReset kind) ∷ past) }
    {
        self.start_anew(kind);
    }

    /// What a reset of this kind makes of each part.
    fn start_anew(&mut self, kind: u8)
        ensures store { self.new.store ≡ after_reset kind self.old.store }
        ensures none { (n : ℕ) → session_at self.new.live n ≡ None }
        ensures next { self.new.live.next ≡ self.old.live.next }
        ensures beside { self.new.live.beside ≡ beside_at_reset kind self.old.live.beside }
        ensures waiting { (com_id : ℕ) → response_at self.new.waiting com_id ≡ None }
    {
        self.store.reset_rows(kind);
        self.sessions.reset(kind);
        self.responses.clear();
    }
}
