//! What an answer gives to the host, where it stands.

ghost use Rattle.std.specs.Prelude.{◌≡◌, ◌≤◌, ◌<◌, ◌+◌, ◌*◌, ◌^◌, ℕ, length, slice_index, IfSome, Some};
ghost use Rattle.shadow_mbr.specs.Stored.{byte_at, sector_size};
ghost use Rattle.drive.specs.Lending.{AllAreWhole, lent_of};

use crate::answer::{Accepted, moved_form};
use crate::decision::Decision;
use crate::drive::Drive;
use crate::transfer::{Held, Way};
use fis::{H2D_LENGTH, RegH2d};
use locking::Op;
use shadow_mbr::{Media, SECTOR_SIZE};
use std::alloc::AllocError;
use std::marker::Model;

/// Sectors of the media, one behind the other: whatever they hold.
#[derive(Clone, Copy, Debug, PartialEq, Eq)]
pub struct Run {
    pub lba: u64,
    pub count: u32,
}

/// Bytes that an answer gives to the host: its own, or sectors of the media, which stay where they are.
#[derive(Drop)]
pub struct Given<'a> {
    media: &'a Media,
    lent: Option<Run>,
    bytes: &'a [u8],
}

impl<'a> Model for Given<'a> {
    ghost use Rattle.std.specs.Prelude.{◌≤◌, ◌^◌, ℕ, List};
    ghost use Rattle.drive.specs.Lending.{given_bytes, HaveRun, AllAreWhole};

    ghost Value = { List ℕ };

    ghost view = { λ g. given_bytes g.media.now g.lent g.bytes.now };

    ghost invariant = { λ g. HaveRun g.media.now.sectors g.lent × AllAreWhole g.media.now
        × (g.media.now.sectors ≤ 2 ^ 48) };
}

/// Sees that each sector is whole. Nothing is read.
fn see_whole(media: &Media)
    ensures { AllAreWhole media.now }
{
    let mut none: [u8; 0] = [];
    media.read(0, &mut none);
}

/// Fills with bytes of the media, those from a place of a sector on.
fn read_parts(media: &Media, lba: u64, from: usize, into: &mut [u8])
    requires inside { sector_size * lba + from + length into.old ≤ sector_size * media.now.sectors }
    requires small { from + length into.old < 2 ^ 60 }
    requires few { media.now.sectors ≤ 2 ^ 48 }
    ensures { (k : ℕ) → k < length into.new
        → slice_index into.new k ≡ byte_at media.now (sector_size * lba + from + k) }
{
    for i in 0..into.len() {
        let place = from + i;
        let sector = media.sector(lba + (place / SECTOR_SIZE) as u64);
        into[i] = sector.as_slice()[place % SECTOR_SIZE];
    }
}

/// Fills with bytes of the media, those from a place of a sector on; as whole sectors where they are.
fn read_from(media: &Media, lba: u64, from: usize, into: &mut [u8])
    requires inside { sector_size * lba + from + length into.old ≤ sector_size * media.now.sectors }
    requires small { from + length into.old < 2 ^ 60 }
    requires few { media.now.sectors ≤ 2 ^ 48 }
    ensures { (k : ℕ) → k < length into.new
        → slice_index into.new k ≡ byte_at media.now (sector_size * lba + from + k) }
{
    if from % SECTOR_SIZE == 0 && into.len() % SECTOR_SIZE == 0 {
        media.read(lba + (from / SECTOR_SIZE) as u64, into);
    } else {
        read_parts(media, lba, from, into);
    }
}

impl<'a> Given<'a> {
    ghost use Rattle.std.specs.Prelude.{Option, slice_range};
    ghost use Rattle.drive.specs.Lending.{given_bytes, HaveRun};

    /// The bytes of an answer, or those of a run of sectors.
    pub(crate) fn of(media: &'a Media, lent: Option<Run>, bytes: &'a [u8]) -> Given<'a>
        requires there { HaveRun media.now.sectors lent }
        requires few { media.now.sectors ≤ 2 ^ 48 }
        ensures { result ≡ given_bytes media.now lent bytes.now }
    {
        see_whole(media);
        Given { media, lent, bytes }
    }

    /// How many bytes there are.
    pub fn len(&self) -> usize
        ensures value { result ≡ length self.now }
        ensures small { result < 2 ^ 63 }
    {
        match self.lent {
            Some(run) => SECTOR_SIZE * run.count as usize,
            None => self.bytes.len(),
        }
    }

    /// Fills `into` with the bytes from a place on.
    pub fn fill(&self, from: usize, into: &mut [u8])
        requires { from + length into.old ≤ length self.now }
        ensures { into.new ≡ slice_range self.now from (from + length into.old) }
    {
        match self.lent {
            Some(run) => read_from(self.media, run.lba, from, into),
            None => into.copy_from_slice(&self.bytes[from..from + into.len()]),
        }
    }
}

/// The sectors that a permitted transfer lends, where it may: those of a read whose data go to the host, and not those of the
/// shadow.
fn lent_of(lends: bool, held: &Held, way: Way) -> Option<Run>
    ensures { result ≡ lent_of lends held.now way }
{
    if !lends || held.is_shadowed {
        return None;
    }
    match (way, held.transfer.op) {
        (Way::Dma | Way::Pio, Op::Read) => Some(Run {
            lba: held.transfer.lba,
            count: held.transfer.count.number(),
        }),
        (Way::Verify, _) | (_, Op::Write) => None,
    }
}

/// The transfer of a decision that lends sectors, where it may, and these.
fn lent_by(lends: bool, decision: &Decision) -> Option<(Held, Way, Run)>
    ensures { IfSome result (λ it. (decision.now ≡ Decision.Moves it.0 it.1)
        × (lent_of lends it.0 it.1 ≡ Some it.2)) }
{
    match *decision {
        Decision::Moves { held, way } => {
            let run = lent_of(lends, &held, way)?;
            Some((held, way, run))
        }
        _ => None,
    }
}

impl Drive {
    ghost use Rattle.std.specs.Prelude.{List, ◌∷◌, ◌++◌, [], OnOk, OnErr, IfOk, slice_index, None, false};
    ghost use Rattle.fis.specs.H2d.{h2d_at};
    ghost use Rattle.fis.specs.Types.{h2d_type};
    ghost use Rattle.history.specs.Answers.{payload_of};
    ghost use Rattle.history.specs.Facts.{Facts, facts};
    ghost use Rattle.history.specs.History.{Act, Accept, log, event};
    ghost use Rattle.history.specs.Opening.{Origin};
    ghost use Rattle.history.specs.Tcg.{commanded};
    ghost use Rattle.drive.specs.Answers.{IsAnswer};
    ghost use Rattle.drive.specs.Decision.{IsDue, decision_event};
    ghost use Rattle.drive.specs.Lending.{TakesAct, TakesInOrder, HaveRun, given_bytes, IsAnswerWith, IsDoneAndGiven};
    ghost use Rattle.drive.specs.State.{kept_facts, Agrees, AgreesInOrder};

    /// What an answer gives to the host: its bytes, or the sectors that it lends.
    pub fn given<'a>(&'a self, lent: Option<Run>, bytes: &'a [u8]) -> Given<'a>
        requires { HaveRun self.now.tper.store.config.sectors lent }
        ensures { result ≡ given_bytes self.now.media lent bytes.now }
    {
        Given::of(&self.media, lent, bytes)
    }

    /// Decides on a command, and does it; a read that is not queued lends its sectors, where it may.
    #[inline(always)]
    pub(crate) fn take_command(
        &mut self,
        fis: &[u8; H2D_LENGTH],
        h: &RegH2d,
        payload: &[u8],
        answer: &mut Accepted,
        lends: bool,
    ) -> Result<Option<Run>, AllocError>
        requires kind { slice_index fis.now 0 ≡ h2d_type }
        requires read { h.now ≡ h2d_at fis.now }
        requires payload { length payload.now ≡ payload_of self.old.tper.store.config fis.now }
        ensures done { IfOk result (λ lent. (o : Origin) (acts : List Act)
            → Agrees self.old o acts
            → IsDoneAndGiven (facts o (log o acts)) (h2d_at fis.now)
            (event o (log o acts) (Accept fis.now payload.now)) self.new o (log o acts)
            answer.new lent) }
        ensures there { IfOk result (λ lent. HaveRun self.new.tper.store.config.sectors lent) }
        ensures kept { IfOk result (λ lent. lends ≡ false → lent ≡ None) }
        ensures err { OnErr result (self.new ≡ self.old) }
        ensures unsaid { OnErr result (answer.new ≡ answer.old) }
    {
        // Most commands are queued transfers that are held: no decision is put together for them.
        if let Some((tag, held)) = self.held_at_once(h) {
            self.hold_so(fis, h, tag, held, payload, answer);
            return Ok(None);
        }
        let decision = self.decide(h);
        self.carry(fis, h, decision, payload, answer, lends)
    }

    /// Does what was decided on a command; a read that is not queued lends its sectors, where it may.
    #[inline(always)]
    fn carry(
        &mut self,
        fis: &[u8; H2D_LENGTH],
        h: &RegH2d,
        decision: Decision,
        payload: &[u8],
        answer: &mut Accepted,
        lends: bool,
    ) -> Result<Option<Run>, AllocError>
        requires kind { slice_index fis.now 0 ≡ h2d_type }
        requires read { h.now ≡ h2d_at fis.now }
        requires payload { length payload.now ≡ payload_of self.old.tper.store.config fis.now }
        requires event { (f : Facts) (bytes : List ℕ) → decision_event
            (kept_facts self.old f) bytes decision
            ≡ commanded (kept_facts self.old f) h.now bytes }
        requires due { IsDue self.old h.now decision }
        ensures done { IfOk result (λ lent. (o : Origin) (acts : List Act)
            → Agrees self.old o acts
            → IsDoneAndGiven (facts o (log o acts)) (h2d_at fis.now)
            (event o (log o acts) (Accept fis.now payload.now)) self.new o (log o acts)
            answer.new lent) }
        ensures there { IfOk result (λ lent. HaveRun self.new.tper.store.config.sectors lent) }
        ensures kept { IfOk result (λ lent. lends ≡ false → lent ≡ None) }
        ensures err { OnErr result (self.new ≡ self.old) }
        ensures unsaid { OnErr result (answer.new ≡ answer.old) }
    {
        if let Some((held, way, run)) = lent_by(lends, &decision) {
            self.wake();
            answer.set_done(moved_form(way, &held.transfer));
            return Ok(Some(run));
        }
        self.act(h, decision, payload, answer)?;
        Ok(None)
    }

    /// [`Drive::accept_into`] of a FIS whose fields were read, so that they are not read again.
    ///
    /// # Errors
    ///
    /// Want of memory, and then the drive and the answer are as before.
    #[inline(always)]
    pub fn accept_command(
        &mut self,
        fis: &[u8; H2D_LENGTH],
        h: &RegH2d,
        payload: &[u8],
        answer: &mut Accepted,
    ) -> Result<(), AllocError>
        requires kind { slice_index fis.now 0 ≡ h2d_type }
        requires read { h.now ≡ h2d_at fis.now }
        requires payload { length payload.now ≡ payload_of self.old.tper.store.config fis.now }
        ensures agrees { OnOk result ((o : Origin) (acts : List Act) → Agrees self.old o acts
            → Agrees self.new o (Accept fis.now payload.now ∷ acts)) }
        ensures in_order { OnOk result ((o : Origin) (acts : List Act)
            → AgreesInOrder self.old o acts
            → AgreesInOrder self.new o (acts ++ Accept fis.now payload.now ∷ [])) }
        ensures answer { OnOk result ((o : Origin) (acts : List Act)
            → Agrees self.old o acts
            → IsAnswer (facts o (log o acts)) (h2d_at fis.now)
            (event o (log o acts) (Accept fis.now payload.now)) answer.new) }
        ensures err { OnErr result (self.new ≡ self.old) }
        ensures unsaid { OnErr result (answer.new ≡ answer.old) }
    {
        self.take_command(fis, h, payload, answer, false)?;
        Ok(())
    }

    /// [`Drive::accept_command`], whose answer has no bytes where a read that is not queued is served of the media: its sectors
    /// are told, and [`Drive::given`] has their bytes until the next act.
    ///
    /// # Errors
    ///
    /// Want of memory, and then the drive and the answer are as before.
    #[inline(always)]
    pub fn accept_lending(
        &mut self,
        fis: &[u8; H2D_LENGTH],
        h: &RegH2d,
        payload: &[u8],
        answer: &mut Accepted,
    ) -> Result<Option<Run>, AllocError>
        requires kind { slice_index fis.now 0 ≡ h2d_type }
        requires read { h.now ≡ h2d_at fis.now }
        requires payload { length payload.now ≡ payload_of self.old.tper.store.config fis.now }
        ensures agrees { OnOk result (TakesAct (Accept fis.now payload.now) self.old self.new) }
        ensures in_order { OnOk result
            (TakesInOrder (Accept fis.now payload.now) self.old self.new) }
        ensures answer { IfOk result (λ lent. (o : Origin) (acts : List Act)
            → Agrees self.old o acts
            → IsAnswerWith (facts o (log o acts)) (h2d_at fis.now)
            (event o (log o acts) (Accept fis.now payload.now)) answer.new
            (given_bytes self.new.media lent answer.new.bytes.items)) }
        ensures there { IfOk result (λ lent. HaveRun self.new.tper.store.config.sectors lent) }
        ensures err { OnErr result (self.new ≡ self.old) }
        ensures unsaid { OnErr result (answer.new ≡ answer.old) }
    {
        let lent = self.take_command(fis, h, payload, answer, true)?;
        Ok(lent)
    }
}
