//! A TRIM: sectors whose bytes a host needs no more become zeros (ACS-3, "DATA SET MANAGEMENT").

ghost use Rattle.std.specs.Prelude.{◌≡◌, ◌+◌, ℕ, List, map, nat_le, true, IfOk};
ghost use Rattle.std.specs.List.{list_all};
ghost use Rattle.locking.specs.declared.range.Op.TheVariants.{Write};
ghost use Rattle.shadow_mbr.specs.Stored.{sector_at};
ghost use Rattle.history.specs.Decisions.{are_on_drive};
ghost use Rattle.drive.specs.Trims.{has_some, as_write, erasure_of, erased_by_each};

use crate::answer::{Accepted, served_form};
use crate::decision::{Cause, NOT_FOUND, Refusal, objection_to};
use crate::drive::Drive;
use crate::transfer::Transfer;
use audit::rules::Rule;
use fis::RegH2d;
use locking::Op;
use shadow_mbr::{Erased, Erasure, Media, Run, Runs};
use std::alloc::{AllocError, Global};
use trusted_cmds::{Command, Extent, extents_in};

/// The write that an extent is judged as.
fn as_write(extent: &Extent) -> Transfer
    requires { has_some extent.now ≡ true }
    ensures { result ≡ as_write extent.now }
{
    Transfer::by(Op::Write, extent.lba, u32::from(extent.count))
}

/// Whether a drive of so many sectors has each of an extent.
fn is_on_drive(sectors: u64, extent: &Extent) -> bool
    ensures { result ≡ nat_le (extent.now.lba + extent.now.count) sectors }
{
    extent.lba <= sectors && u64::from(extent.count) <= sectors - extent.lba
}

/// Whether it has those of all of them.
fn are_on_drive(sectors: u64, extents: &[Extent]) -> bool
    ensures { result ≡ are_on_drive sectors extents.now }
{
    extents.iter().all(|extent| is_on_drive(sectors, extent))
}

/// What makes zeros of the sectors of an extent.
fn erasure_of(extent: &Extent) -> Erasure
    ensures { result ≡ erasure_of extent.now }
{
    let mut runs = Runs::new();
    runs.push(Run {
        start: extent.lba,
        len: u64::from(extent.count),
    });
    Erasure::Within(runs)
}

/// The same for each extent.
fn erasures_of(alloc: Global, extents: &[Extent]) -> Result<Vec<Erased>, AllocError>
    ensures { IfOk result (λ erasures. erasures.items ≡ map erasure_of extents.now) }
{
    let mut erasures = Vec::new(alloc);
    for extent in extents {
        let erased = Erased::of(alloc, erasure_of(extent))?;
        erasures.push(erased)?;
    }
    Ok(erasures)
}

/// Makes zeros of the sectors of each.
fn erase_each(media: &mut Media, erasures: &[Erased])
    ensures size { media.new.sectors ≡ media.old.sectors }
    ensures sectors { (s : ℕ) → sector_at media.new s
        ≡ erased_by_each erasures.now s (sector_at media.old s) }
{
    for erased in erasures {
        media.erase(erased);
    }
}

impl Drive {
    ghost use Rattle.std.specs.Prelude.{◌∷◌, Option, Some, None, OnOk, OnErr, unwrap_or};
    ghost use Rattle.history.specs.Opening.{Origin};
    ghost use Rattle.history.specs.Readers.{trimming};
    ghost use Rattle.history.specs.Facts.{Facts, facts};
    ghost use Rattle.history.specs.History.{Act, log};
    ghost use Rattle.drive.specs.declared.decision.Decision.{Decision};
    ghost use Rattle.drive.specs.Decision.{decision_event, IsDue};
    ghost use Rattle.drive.specs.Trims.{first_refused, trim_refusal, refusal_told};
    ghost use Rattle.drive.specs.State.{Agrees};
    ghost use Rattle.drive.specs.Answers.{IsDoneAndAnswered};

    /// Does a TRIM, and answers: the sectors that its payload names become zeros where all of them are on the drive and may be
    /// written, and else none of them does. Where memory is refused nothing is said.
    #[tactic(auto, using(crate::proofs::Trims::extents_some))]
    pub(crate) fn trim(
        &mut self,
        h: &RegH2d,
        blocks: u16,
        payload: &[u8],
        answer: &mut Accepted,
    ) -> Result<(), AllocError>
        requires { IsDue self.old h.now (Decision.Trims blocks) }
        ensures done { OnOk result ((o : Origin) (acts : List Act) → Agrees self.old o acts
            → IsDoneAndAnswered (facts o (log o acts)) h.now
            (decision_event (facts o (log o acts)) payload.now (Decision.Trims blocks))
            self.new o (log o acts) answer.new) }
        ensures err { OnErr result (self.new ≡ self.old) }
        ensures unsaid { OnErr result (answer.new ≡ answer.old) }
    {
        let extents = extents_in(self.allocator(), payload)?;
        if let Some(refusal) = self.trim_refusal(&extents) {
            answer.set_failed(refusal.error, objection_to(&refusal.cause));
            return Ok(());
        }
        let settings = self.chosen();
        self.wipe(&extents)?;
        self.wake();
        answer.set_done(served_form(&Command::Trim { blocks }, &settings));
        Ok(())
    }

    /// Why a TRIM of these extents is refused, if it is: sectors that are not on the drive, then what the ranges and the
    /// shadow say.
    fn trim_refusal(&self, extents: &[Extent]) -> Option<Refusal>
        requires { list_all has_some extents.now ≡ true }
        ensures { refusal_told result ≡ trim_refusal self.now extents.now }
    {
        if !are_on_drive(self.media.sectors(), extents) {
            return Some(Refusal {
                error: NOT_FOUND,
                cause: Cause::Rule(Rule::BeyondDrive),
            });
        }
        self.first_refused(extents)
    }

    /// Why the first of the extents is refused that is.
    fn first_refused(&self, extents: &[Extent]) -> Option<Refusal>
        requires { list_all has_some extents.now ≡ true }
        ensures { refusal_told result ≡ first_refused self.now extents.now }
    {
        for extent in extents {
            if let Err(refusal) = self.policy(&as_write(extent)) {
                return Some(refusal);
            }
        }
        None
    }

    /// Makes zeros of the sectors of the extents. All memory is taken before any of them changes.
    #[tactic(auto, using(crate::proofs::Trims::erased_is_trimmed))]
    fn wipe(&mut self, extents: &[Extent]) -> Result<(), AllocError>
        ensures tper { self.new.tper ≡ self.old.tper }
        ensures queue { self.new.queue ≡ self.old.queue }
        ensures settings { self.new.settings ≡ self.old.settings }
        ensures media { OnOk result ((s : ℕ) → sector_at self.new.media s
            ≡ unwrap_or (trimming s extents.now) (sector_at self.old.media s)) }
        ensures err { OnErr result (self.new ≡ self.old) }
    {
        let erasures = erasures_of(self.alloc, extents)?;
        erase_each(&mut self.media, &erasures);
        Ok(())
    }
}
