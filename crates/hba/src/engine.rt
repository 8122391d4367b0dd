//! What the engine does (AHCI 1.3.1, 5.5).

ghost use Rattle.std.specs.Prelude.{◌≡◌, ◌<◌, ◌≤◌, ◌^◌, List, ◌∷◌, Option, OnOk, OnErr, IfOk, length, is_some, true, Some, None};
ghost use Rattle.history.specs.Answers.{payload_of, expected};
ghost use Rattle.host_memory.specs.Access.{Access, IsAccess, Accessed};
ghost use Rattle.host_memory.specs.Memory.{Gathers, brought_as, moved_by};
ghost use Rattle.hba.specs.Engine.{signature_fis};

use crate::blocks::by_blocks;
use crate::gift::Gift;
use crate::hba::{Hba, one_more};
use crate::work::{Done, Heard, Outcome, Work, fault_of};
use drive::{Accepted, Completed, DriveError, Run};
use fis::{Fis, H2D_LENGTH, Lba, RegD2h, RegH2d, Tag};
use host_memory::hba_memory::{
    Arrival, Header, Miss, Moved, Place, deliver, gather, header_by, is_command, post_all,
};
use host_memory::{AddressWidth, HostMemory, read_array};
use std::alloc::AllocError;
use std::mem::replace;

/// The device's first FIS after a reset: ready, with its signature.
pub(crate) fn signature_fis() -> Fis
    ensures { result ≡ signature_fis }
{
    Fis::D2h(RegD2h {
        status: 0x50,
        error: 1,
        lba: Lba::new(1).unwrap(),
        count: 1,
        ..RegD2h::default()
    })
}

/// Fills a room by the blocks that so many descriptors from an address on name, as `gather` fills bytes.
fn bring<M: HostMemory>(
    memory: &mut M,
    width: AddressWidth,
    at: u128,
    entries: u16,
    room: &mut Vec<u8>,
) -> Result<Moved, Miss>
    requires { at < 2 ^ 65 }
    ensures brings { (talk : List Access)
        × Accessed (IsAccess width M.does) memory.old talk memory.new
        × Gathers at entries (length room.old.items) talk
        (brought_as (λ done. room.new.items) result)
        × IfOk result (λ moved. moved ≡ moved_by talk (length room.old.items)) }
    ensures long { length room.new.items ≡ length room.old.items }
{
    let moved = gather(memory, width, at, entries, room);
    moved
}

impl Hba {
    ghost use Rattle.history.specs.History.{Accept, Complete};
    ghost use Rattle.std.specs.Prelude.{slice_index};
    ghost use Rattle.fis.specs.H2d.{h2d_at};
    ghost use Rattle.fis.specs.Types.{h2d_type};
    ghost use Rattle.drive.specs.Answers.{fises_in, fises_done};
    ghost use Rattle.drive.specs.Lending.{given_bytes, HaveRun};
    ghost use Rattle.drive.specs.Queue.{held_at};
    ghost use Rattle.hba.specs.History.{Opened, Operation, Completed as CompletedTag, Signed, Missed, AgreesHba, HasActed, Adds, account, acts_of, drive_effect, effect_after, IsHeard};
    ghost use Rattle.hba.specs.Showing.{fetching, fault_of, arrived};
    ghost use Rattle.hba.specs.Engine.{HasRead, IsEffect, header_at, fises_at, place_of, done_by, Executes, Fetches, Completes, CompletesFrom, ServesSo, IsWork, TurnsAs, TurnsBy, Signs};
    ghost use Rattle.hba.specs.Ready.{is_ready_on, takes_memory};
    ghost use Rattle.hba.specs.declared.work.Done.TheVariants as dones;

    /// The drive takes a command.
    fn take(
        &mut self,
        fis: &[u8; H2D_LENGTH],
        h: &RegH2d,
        payload: &[u8],
        answer: &mut Accepted,
    ) -> Result<Option<Run>, AllocError>
        requires kind { slice_index fis.now 0 ≡ h2d_type }
        requires read { h.now ≡ h2d_at fis.now }
        requires payload { length payload.now
            ≡ payload_of self.old.drive.tper.store.config fis.now }
        ensures acted { OnOk result ((o : Opened) (list : List Operation)
            → AgreesHba self.old o list
            → HasActed self.new o (Accept fis.now payload.now ∷ acts_of o list)) }
        ensures effect { IfOk result (λ lent. (o : Opened) (list : List Operation)
            → AgreesHba self.old o list
            → IsEffect (drive_effect o (account o list) (Accept fis.now payload.now))
            (fises_in answer.new)
            (given_bytes self.new.drive.media lent answer.new.bytes.items)) }
        ensures there { IfOk result (λ lent.
            HaveRun self.new.drive.tper.store.config.sectors lent) }
        ensures denied { OnOk result ((o : Opened) (list : List Operation)
            → AgreesHba self.old o list
            → answer.new.denied
            ≡ (effect_after o (account o list) (Accept fis.now payload.now)).event.denied) }
        ensures rule { OnOk result ((o : Opened) (list : List Operation)
            → AgreesHba self.old o list
            → answer.new.rule
            ≡ (effect_after o (account o list) (Accept fis.now payload.now)).event.rule) }
        ensures registers { self.new.registers ≡ self.old.registers }
        ensures err { OnErr result (self.new ≡ self.old) }
    {
        let lent = self.drive.accept_lending(fis, h, payload, answer)?;
        self.acts = one_more(self.acts);
        Ok(lent)
    }

    /// What an answer of the drive gives, as bytes for the host's memory.
    fn gift<'a>(&'a self, lent: Option<Run>, bytes: &'a [u8]) -> Gift<'a>
        requires { HaveRun self.now.drive.tper.store.config.sectors lent }
        ensures { result.given ≡ given_bytes self.now.drive.media lent bytes.now }
    {
        Gift {
            given: self.drive.given(lent, bytes),
        }
    }

    /// The drive completes what it holds under a tag.
    fn finish(&mut self, tag: Tag, payload: &[u8]) -> Result<Completed, AllocError>
        requires length { length payload.now ≡ expected (held_at self.old.drive.queue tag) }
        requires held { is_some (held_at self.old.drive.queue tag) ≡ true }
        ensures acted { OnOk result ((o : Opened) (list : List Operation)
            → AgreesHba self.old o list
            → HasActed self.new o (Complete tag payload.now ∷ acts_of o list)) }
        ensures effect { IfOk result (λ a. (o : Opened) (list : List Operation)
            → AgreesHba self.old o list
            → IsEffect (effect_after o (account o list) (Complete tag payload.now))
            (fises_done a) a.bytes.items) }
        ensures registers { self.new.registers ≡ self.old.registers }
        ensures err { OnErr result (self.new ≡ self.old) }
    {
        let completed = match self.drive.complete(tag, payload) {
            Ok(completed) => completed,
            Err(DriveError::OutOfMemory) => return Err(AllocError),
            Err(DriveError::NotHeld) => unreachable!(),
        };
        self.acts = one_more(self.acts);
        Ok(completed)
    }

    /// Room for just so many bytes of a payload. What stands there is not said.
    fn take_room(&mut self, len: usize) -> Result<Vec<u8>, AllocError>
        ensures long { IfOk result (λ room. length room.items ≡ len) }
        ensures same { self.new ≡ self.old }
    {
        if len == 0 {
            return Ok(Vec::new(self.alloc));
        }
        let mut room = replace(&mut self.room, Vec::new(self.alloc));
        room.resize(len, 0)?;
        Ok(room)
    }

    /// Takes the bytes of a command back, as room for those of the next.
    pub fn put_back(&mut self, room: Vec<u8>)
        ensures { self.new ≡ self.old }
    {
        if !room.is_empty() {
            self.room = room;
        }
    }

    /// Gives the vector of an answer back to the drive, for its next answer.
    fn give_back(&mut self, bytes: Vec<u8>)
        ensures { self.new ≡ self.old }
    {
        self.drive.give_back(bytes);
    }

    /// Where the header of a slot stands.
    fn header_at(&self, tag: Tag) -> u128
        ensures value { result ≡ header_at self.now.registers tag }
        ensures near { result < 2 ^ 65 }
    {
        u128::from(self.registers.list_base()) + 32 * u128::from(tag.number())
    }

    /// How many bits addresses have.
    pub(crate) fn width(&self) -> AddressWidth
        ensures { result ≡ self.now.registers.width }
    {
        self.registers.width()
    }

    /// Where received FISes go.
    fn received_at(&self) -> Option<u64>
        ensures { result ≡ fises_at self.now.registers }
    {
        self.registers.received_at()
    }

    /// The device has told its signature.
    fn note_signature(&mut self)
        ensures { Adds Signed self.old self.new }
    {
        self.registers.sign();
    }

    /// The places of the command of a slot.
    fn place_of(&self, tag: Tag, header: Header) -> Place
        ensures value { result ≡ place_of self.now.registers tag header }
        ensures near { result.at < 2 ^ 65 }
    {
        Place {
            at: self.header_at(tag),
            header,
            to: self.received_at(),
        }
    }

    /// Memory failed before the drive's act, of the fetch under a tag or of a completion.
    fn miss(&mut self, fetched: Option<Tag>, miss: Miss) -> Outcome
        ensures agrees { Adds (Missed fetched miss) self.old self.new }
        ensures told { result ≡ record { done = dones.Fault (fault_of miss); heard = None } }
    {
        self.registers.begin(fetched);
        self.registers.fault(miss);
        Outcome {
            done: Done::Fault(fault_of(miss)),
            heard: None,
        }
    }

    /// The command of a tag is fetched.
    fn note_fetch(&mut self, tag: Tag)
        ensures { self.new ≡ record self.old { registers = fetching tag self.old.registers } }
    {
        self.registers.fetch(tag);
    }

    /// The registers after an act, by how what it gave arrived.
    fn show(&mut self, tag: Tag, fises: &[Fis], arrival: Arrival) -> Done
        ensures shown { self.new ≡ record self.old {
          registers = arrived tag fises.now arrival self.old.registers;
        } }
        ensures told { result ≡ done_by arrival.missed }
    {
        self.registers.arrive(tag, fises, arrival);
        match arrival.missed {
            None => Done::Served,
            Some(miss) => Done::Fault(fault_of(miss)),
        }
    }

    /// The engine executes the command of a slot, whose data fill a room.
    fn execute_in<M: HostMemory>(
        &mut self,
        tag: Tag,
        place: Place,
        fis: &[u8; H2D_LENGTH],
        header: RegH2d,
        mut room: Vec<u8>,
        memory: &mut M,
    ) -> Result<Outcome, AllocError>
        requires near { place.at < 2 ^ 65 }
        requires kind { slice_index fis.now 0 ≡ h2d_type }
        requires read { header ≡ h2d_at fis.now }
        requires long { length room.items ≡ payload_of self.old.drive.tper.store.config fis.now }
        ensures done { IfOk result (λ r. TurnsAs M.does (λ o a. Executes o a place tag fis.now)
            self.old memory.old self.new memory.new r.done (IsHeard r.heard)) }
        ensures err { OnErr result (self.new ≡ self.old) }
        ensures kept { OnErr result (HasRead M.does self.old memory.old memory.new) }
    {
        let at = place.header.descriptors();
        let width = self.width();
        let brought = match bring(memory, width, at, place.header.entries, &mut room) {
            Ok(brought) => brought,
            Err(miss) => return Ok(self.miss(Some(tag), miss)),
        };
        let mut answer = Accepted::none(self.alloc);
        let payload = room.as_slice();
        let lent = self.take(fis, &header, payload, &mut answer)?;
        let gift = self.gift(lent, answer.bytes.as_slice());
        let told = by_blocks(answer.fises(), payload.len() + gift.given.len());
        let fises = told.as_slice();
        let delivered = deliver(memory, width, place, brought, fises, &gift);
        self.note_fetch(tag);
        let done = self.show(tag, fises, delivered);
        self.give_back(answer.bytes);
        let heard = Some(Heard {
            header,
            payload: room,
            denied: answer.denied,
            rule: answer.rule,
        });
        Ok(Outcome { done, heard })
    }

    /// The engine executes the command of a slot.
    pub(crate) fn execute<M: HostMemory>(
        &mut self,
        tag: Tag,
        place: Place,
        fis: &[u8; H2D_LENGTH],
        memory: &mut M,
    ) -> Result<Outcome, AllocError>
        requires near { place.at < 2 ^ 65 }
        requires kind { slice_index fis.now 0 ≡ h2d_type }
        ensures done { IfOk result (λ r. TurnsAs M.does (λ o a. Executes o a place tag fis.now)
            self.old memory.old self.new memory.new r.done (IsHeard r.heard)) }
        ensures err { OnErr result (self.new ≡ self.old) }
        ensures kept { OnErr result (HasRead M.does self.old memory.old memory.new) }
    {
        let h = RegH2d::read(fis);
        let len = self.drive.payload_len_of(fis, &h);
        let room = self.take_room(len)?;
        let outcome = self.execute_in(tag, place, fis, h, room, memory);
        outcome
    }

    /// The engine fetches the command under a tag.
    fn fetch<M: HostMemory>(&mut self, tag: Tag, memory: &mut M) -> Result<Outcome, AllocError>
        ensures done { IfOk result (λ r. TurnsAs M.does (λ o a. Fetches o a tag)
            self.old memory.old self.new memory.new r.done (IsHeard r.heard)) }
        ensures err { OnErr result (self.new ≡ self.old) }
        ensures kept { OnErr result (HasRead M.does self.old memory.old memory.new) }
    {
        let width = self.width();
        let header = match header_by(width, read_array(memory, width, self.header_at(tag))) {
            Ok(header) => header,
            Err(miss) => return Ok(self.miss(Some(tag), miss)),
        };
        let Some(fis) = read_array(memory, width, u128::from(header.table)) else {
            return Ok(self.miss(Some(tag), Miss::Table));
        };
        if !is_command(&fis) {
            return Ok(self.control(tag, &fis, memory));
        }
        let place = self.place_of(tag, header);
        self.hear(&fis, tag, place, memory)
    }

    /// The engine completes the command of a slot, whose data fill a room.
    fn end_in<M: HostMemory>(
        &mut self,
        tag: Tag,
        place: Place,
        len: usize,
        room: &mut [u8],
        memory: &mut M,
    ) -> Result<Outcome, AllocError>
        requires near { place.at < 2 ^ 65 }
        requires long { length room.old ≡ len }
        requires asked { len ≡ expected (held_at self.old.drive.queue tag) }
        requires held { is_some (held_at self.old.drive.queue tag) ≡ true }
        ensures done { IfOk result (λ r. TurnsAs M.does
            (λ o a. ServesSo o a place len None (Complete tag) (CompletedTag tag))
            self.old memory.old self.new memory.new r.done (IsHeard r.heard)) }
        ensures err { OnErr result (self.new ≡ self.old) }
        ensures kept { OnErr result (HasRead M.does self.old memory.old memory.new) }
    {
        let at = place.header.descriptors();
        let width = self.width();
        let brought = match gather(memory, width, at, place.header.entries, room) {
            Ok(brought) => brought,
            Err(miss) => return Ok(self.miss(None, miss)),
        };
        let completed = self.finish(tag, room)?;
        let told = completed.fises();
        let (fises, bytes) = (told.as_slice(), completed.bytes.as_slice());
        let delivered = deliver(memory, width, place, brought, fises, &bytes);
        let done = self.show(tag, fises, delivered);
        self.give_back(completed.bytes);
        Ok(Outcome { done, heard: None })
    }

    /// The engine completes the command of a slot, whose data are so many.
    fn end<M: HostMemory>(
        &mut self,
        tag: Tag,
        place: Place,
        len: usize,
        memory: &mut M,
    ) -> Result<Outcome, AllocError>
        requires near { place.at < 2 ^ 65 }
        requires asked { len ≡ expected (held_at self.old.drive.queue tag) }
        requires held { is_some (held_at self.old.drive.queue tag) ≡ true }
        ensures done { IfOk result (λ r. TurnsAs M.does
            (λ o a. ServesSo o a place len None (Complete tag) (CompletedTag tag))
            self.old memory.old self.new memory.new r.done (IsHeard r.heard)) }
        ensures err { OnErr result (self.new ≡ self.old) }
        ensures kept { OnErr result (HasRead M.does self.old memory.old memory.new) }
    {
        let mut room = self.take_room(len)?;
        let outcome = self.end_in(tag, place, len, &mut room[..len], memory);
        self.put_back(room);
        outcome
    }

    /// The engine completes what the drive holds under a tag.
    fn complete<M: HostMemory>(&mut self, tag: Tag, memory: &mut M) -> Result<Outcome, AllocError>
        requires { is_some (held_at self.old.drive.queue tag) ≡ true }
        ensures done { IfOk result (λ r. TurnsAs M.does
            (λ o a. Completes o a tag (expected (held_at self.old.drive.queue tag)))
            self.old memory.old self.new memory.new r.done (IsHeard r.heard)) }
        ensures err { OnErr result (self.new ≡ self.old) }
        ensures kept { OnErr result (HasRead M.does self.old memory.old memory.new) }
    {
        let width = self.width();
        let header = match header_by(width, read_array(memory, width, self.header_at(tag))) {
            Ok(header) => header,
            Err(miss) => return Ok(self.miss(None, miss)),
        };
        let len = self.drive.expects(tag);
        let place = self.place_of(tag, header);
        self.end(tag, place, len, memory)
    }

    /// The device tells its signature.
    fn sign<M: HostMemory>(&mut self, memory: &mut M) -> Outcome
        ensures { TurnsAs M.does (λ o a. Signs a) self.old memory.old self.new memory.new
            result.done (IsHeard result.heard) }
    {
        let to = self.received_at();
        let _ = post_all(memory, self.width(), to, &[signature_fis()]);
        self.note_signature();
        Outcome {
            done: Done::Posted,
            heard: None,
        }
    }

    /// The engine does a piece of work that may be done.
    #[tactic(auto, using(crate::proofs::Works::both))]
    pub(crate) fn act<M: HostMemory>(
        &mut self,
        work: &Work,
        memory: &mut M,
    ) -> Result<Outcome, AllocError>
        requires { is_ready_on self.old work.now ≡ true }
        ensures done { IfOk result (λ r. TurnsBy M.does work.now
            self.old memory.old self.new memory.new r.done (IsHeard r.heard)) }
        ensures refused { OnErr result (takes_memory work.now ≡ true) }
        ensures err { OnErr result (self.new ≡ self.old) }
        ensures kept { OnErr result (HasRead M.does self.old memory.old memory.new) }
    {
        match *work {
            Work::Signature => Ok(self.sign(memory)),
            Work::Fetch(tag) => self.fetch(tag, memory),
            Work::Complete(tag) => self.complete(tag, memory),
        }
    }
}
