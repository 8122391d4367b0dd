//! The slots: how far each command has come.

ghost use Rattle.std.specs.Prelude.{◌≡◌, ◌<◌, ◌==◌, ℕ, List, length, slice_index, Option, Some, None, true, false};
ghost use Rattle.fis.specs.Tags.{slot_count};
ghost use Rattle.history.specs.Decisions.{any_below};
ghost use Rattle.port_history.specs.Stages.{keeps_back, is_out, mixes_put, recovered, stage_after_reset, is_pending, accepted_stage};
ghost use Rattle.port_history.specs.Steps.{is_tag};
ghost use Rattle.port.specs.Answers.{stage_at, outcome_at, outcome_after_reset, outcome_recovered, may_keep_back};
ghost use Rattle.port.specs.State.{failed_then, named_in};

use crate::outcome::{Outcome, outcome_after_reset, outcome_recovered};
use fis::{SLOT_COUNT, Tag};
use port_history::{Put, Stage, is_queued};
use std::alloc::{AllocError, Global};
use std::marker::Model;

/// The stages of the slots, seen as their list.
#[derive(Drop)]
pub(crate) struct Stages {
    /// On the heap: so a port is small where it is moved.
    stages: Box<[Stage; SLOT_COUNT]>,
    /// Whether it is known that none of them can keep back a queued command: then they are not looked through.
    all_queued: bool,
}

impl Model for Stages {
    ghost use Rattle.std.specs.Prelude.{◌≡◌, ◌<◌, ℕ, List, true, false};
    ghost use Rattle.fis.specs.Tags.{slot_count};
    ghost use Rattle.port.specs.Answers.{stage_at, may_keep_back};
    ghost use Rattle.port_history.specs.declared.stages.Stage.{Stage};

    ghost Value = { List Stage };

    ghost view = { λ s. s.stages.value };

    ghost invariant = { λ s. s.all_queued ≡ true
        → (tag : ℕ) → tag < slot_count → may_keep_back (stage_at s.stages.value tag) ≡ false };
}

/// The slots of a port that did nothing.
fn free_slots() -> [Stage; SLOT_COUNT]
    ensures { (tag : ℕ) → stage_at result tag ≡ Stage.Free }
{
    [Stage::Free; SLOT_COUNT]
}

pub(crate) fn no_outcomes() -> [Option<Outcome>; SLOT_COUNT]
    ensures { (tag : ℕ) → outcome_at result tag ≡ None }
{
    [None; SLOT_COUNT]
}

/// Whether the command of a stage keeps back a queued one that was put at this number.
fn keeps_back(number: u64, stage: Stage) -> bool
    ensures { result ≡ keeps_back number stage }
{
    match stage {
        Stage::Prepared(put) => !is_queued(put.command) && put.number < number,
        Stage::Issued(put) => !is_queued(put.command),
        Stage::Free | Stage::Accepted(_) | Stage::Answered(_) => false,
    }
}

/// Whether the command of a stage is with the device.
fn is_out(stage: Stage) -> bool
    ensures { result ≡ is_out stage }
{
    match stage {
        Stage::Issued(_) | Stage::Accepted(_) => true,
        Stage::Free | Stage::Prepared(_) | Stage::Answered(_) => false,
    }
}

/// Whether a slot keeps back a queued command that was put at this number.
#[tactic(auto, using(crate::proofs::Tests::any_below_at, crate::proofs::Tests::none_below))]
fn is_kept_back(slots: &[Stage; SLOT_COUNT], number: u64) -> bool
    ensures { result ≡ any_below (λ tag. keeps_back number (stage_at slots.now tag)) slot_count }
{
    for tag in 0..SLOT_COUNT {
        if keeps_back(number, slots[tag]) {
            return true;
        }
    }
    false
}

/// Whether a command is with the device.
#[tactic(auto, using(crate::proofs::Tests::any_below_at, crate::proofs::Tests::none_below))]
fn is_any_out(slots: &[Stage; SLOT_COUNT]) -> bool
    ensures { result ≡ any_below (λ tag. is_out (stage_at slots.now tag)) slot_count }
{
    for tag in 0..SLOT_COUNT {
        if is_out(slots[tag]) {
            return true;
        }
    }
    false
}

/// Whether the command of a stage can keep back a queued one.
fn may_keep_back(stage: Stage) -> bool
    ensures { result ≡ may_keep_back stage }
{
    match stage {
        Stage::Prepared(put) | Stage::Issued(put) => !is_queued(put.command),
        Stage::Free | Stage::Accepted(_) | Stage::Answered(_) => false,
    }
}

/// Whether no slot can keep back a queued command.
fn are_all_queued(slots: &[Stage; SLOT_COUNT]) -> bool
    ensures { result ≡ true
        → (tag : ℕ) → tag < slot_count → may_keep_back (stage_at slots.now tag) ≡ false }
{
    for tag in 0..SLOT_COUNT {
        if may_keep_back(slots[tag]) {
            return false;
        }
    }
    true
}

impl Stages {
    ghost use Rattle.std.specs.Prelude.{◌≡◌, ◌<◌, ℕ, length, slice_set, Some, IfOk};
    ghost use Rattle.fis.specs.Tags.{slot_count};
    ghost use Rattle.history.specs.Decisions.{any_below};
    ghost use Rattle.port_history.specs.Stages.{keeps_back, mixes_put, recovered, stage_after_reset, is_pending};
    ghost use Rattle.port_history.specs.Steps.{is_tag};
    ghost use Rattle.port.specs.Answers.{stage_at, outcome_at, outcome_after_reset, outcome_recovered};

    /// The slots of a port that did nothing.
    ///
    /// # Errors
    ///
    /// `AllocError`.
    pub(crate) fn new(alloc: Global) -> Result<Stages, AllocError>
        ensures stages { IfOk result (λ s. (tag : ℕ) → stage_at s tag ≡ Stage.Free) }
        ensures len { IfOk result (λ s. length s ≡ slot_count) }
    {
        let stages = Box::new(alloc, free_slots())?;
        Ok(Stages {
            stages,
            all_queued: true,
        })
    }

    /// The same slots once more.
    pub(crate) fn copy(&self, alloc: Global) -> Result<Stages, AllocError>
        ensures { IfOk result (λ copied. copied ≡ self.now) }
    {
        let stages = Box::new(alloc, *self.stages)?;
        Ok(Stages {
            stages,
            all_queued: self.all_queued,
        })
    }

    /// The stage of a slot.
    pub(crate) fn at(&self, tag: Tag) -> Stage
        ensures { result ≡ stage_at self.now tag }
    {
        self.stages[usize::from(tag.number())]
    }

    /// Sets the stage of a slot.
    pub(crate) fn set(&mut self, tag: Tag, stage: Stage)
        ensures value { self.new ≡ slice_set self.old tag stage }
        ensures slot { tag < slot_count }
    {
        self.stages[usize::from(tag.number())] = stage;
        self.all_queued = !may_keep_back(stage)
            && (self.all_queued || are_all_queued(&self.stages));
    }

    /// Whether a slot keeps back a queued command that was put at this number.
    fn keeps_back(&self, number: u64) -> bool
        ensures { result ≡ any_below (λ tag. keeps_back number (stage_at self.now tag)) slot_count }
    {
        if self.all_queued {
            return false;
        }
        is_kept_back(&self.stages, number)
    }

    /// Whether a command must not be issued beside those in the slots.
    pub(crate) fn mixes(&self, put: Put) -> bool
        ensures { result ≡ mixes_put (stage_at self.now) (Some put) }
    {
        if is_queued(put.command) {
            self.keeps_back(put.number)
        } else {
            is_any_out(&self.stages)
        }
    }

    /// Answers the slot that a log page names, and gives the others that are out back to the port.
    pub(crate) fn recover(&mut self, outcomes: &mut [Option<Outcome>; SLOT_COUNT], log: &LogEntry)
        ensures stages { (tag : ℕ) → tag < slot_count → stage_at self.new tag
            ≡ recovered (is_tag tag log.now.tag) (stage_at self.old tag) }
        ensures len { (length self.new ≡ slot_count) × (length outcomes.new ≡ slot_count) }
        ensures outcomes { (tag : ℕ) → tag < slot_count → outcome_at outcomes.new tag
            ≡ outcome_recovered (is_tag tag log.now.tag) log.now.status log.now.error
            (outcome_at outcomes.old tag) }
    {
        recover_slots(&mut self.stages, outcomes, log);
        self.all_queued = are_all_queued(&self.stages);
    }

    /// Answers every slot that waits.
    pub(crate) fn reset(&mut self, outcomes: &mut [Option<Outcome>; SLOT_COUNT])
        ensures stages { (tag : ℕ) → tag < slot_count → stage_at self.new tag
            ≡ stage_after_reset (stage_at self.old tag) }
        ensures len { (length self.new ≡ slot_count) × (length outcomes.new ≡ slot_count) }
        ensures outcomes { (tag : ℕ) → tag < slot_count → outcome_at outcomes.new tag
            ≡ outcome_after_reset (is_pending (stage_at self.old tag))
            (outcome_at outcomes.old tag) }
    {
        reset_slots(&mut self.stages, outcomes);
        self.all_queued = are_all_queued(&self.stages);
    }
}

/// The stage of a command that the device has accepted.
pub(crate) fn accepted_stage(put: Put) -> Stage
    ensures { result ≡ accepted_stage put }
{
    if is_queued(put.command) {
        Stage::Accepted(put)
    } else {
        Stage::Answered(put)
    }
}

/// The tag whose queued command has failed, after an acceptance.
pub(crate) fn failed_then(queued: bool, fails: bool, tag: Tag, before: Option<Tag>) -> Option<Tag>
    ensures { result ≡ failed_then queued fails tag before }
{
    if queued && fails { Some(tag) } else { before }
}

/// What log page 10h tells of the command that failed the queue.
#[derive(Clone, Copy, Debug, PartialEq, Eq)]
pub(crate) struct LogEntry {
    /// The tag, or `None` where the command was not queued.
    pub tag: Option<Tag>,
    pub status: u8,
    pub error: u8,
}

/// Byte number `place` of a log page, 0 where the page has no such byte.
fn byte_at(page: &[u8], place: usize) -> u8
    ensures { result ≡ slice_index page.now place }
{
    page.get(place).copied().unwrap_or(0)
}

impl LogEntry {
    /// Reads the page (ACS-3, NCQ Command Error log): in its first byte bit 7 is NQ, bits 4 to 0 the tag; bytes 2 and 3
    /// are the status and the error.
    pub(crate) fn read(page: &[u8]) -> LogEntry
        ensures tag { result.tag ≡ named_in page.now }
        ensures status { result.status ≡ slice_index page.now 2 }
        ensures error { result.error ≡ slice_index page.now 3 }
    {
        let first = byte_at(page, 0);
        LogEntry {
            tag: if first < 0x80 {
                Some(Tag::low_bits(first))
            } else {
                None
            },
            status: byte_at(page, 2),
            error: byte_at(page, 3),
        }
    }

    /// Whether it names the tag.
    fn names(&self, tag: Tag) -> bool
        ensures { result ≡ is_tag tag self.now.tag }
    {
        self.tag == Some(tag)
    }
}

/// The stage after a recovery.
fn recovered(has_failed: bool, stage: Stage) -> Stage
    ensures { result ≡ recovered has_failed stage }
{
    match stage {
        Stage::Issued(put) | Stage::Accepted(put) => {
            if has_failed {
                Stage::Answered(put)
            } else {
                Stage::Prepared(put)
            }
        }
        Stage::Free | Stage::Prepared(_) | Stage::Answered(_) => stage,
    }
}

/// The stage after a reset.
fn after_reset(stage: Stage) -> Stage
    ensures { result ≡ stage_after_reset stage }
{
    match stage {
        Stage::Prepared(put) | Stage::Issued(put) | Stage::Accepted(put) => Stage::Answered(put),
        Stage::Free | Stage::Answered(_) => stage,
    }
}

/// Whether a reset stops the command of a stage.
fn is_pending(stage: Stage) -> bool
    ensures { result ≡ is_pending stage }
{
    match stage {
        Stage::Prepared(_) | Stage::Issued(_) | Stage::Accepted(_) => true,
        Stage::Free | Stage::Answered(_) => false,
    }
}

/// Answers the slot that a log page names, and gives the others that are out back to the port.
fn recover_slots(
    slots: &mut [Stage; SLOT_COUNT],
    outcomes: &mut [Option<Outcome>; SLOT_COUNT],
    log: &LogEntry,
)
    ensures stages { (tag : ℕ) → tag < slot_count → stage_at slots.new tag
        ≡ recovered (is_tag tag log.now.tag) (stage_at slots.old tag) }
    ensures len { (length slots.new ≡ slot_count) × (length outcomes.new ≡ slot_count) }
    ensures outcomes { (tag : ℕ) → tag < slot_count → outcome_at outcomes.new tag
        ≡ outcome_recovered (is_tag tag log.now.tag) log.now.status log.now.error
        (outcome_at outcomes.old tag) }
{
    let (status, error) = (log.status, log.error);
    for slot in 0..SLOT_COUNT {
        let fails = log.names(Tag::low_bits(slot as u8));
        outcomes[slot] = outcome_recovered(fails, status, error, outcomes[slot]);
        slots[slot] = recovered(fails, slots[slot]);
    }
}

/// Answers every slot that waits.
fn reset_slots(slots: &mut [Stage; SLOT_COUNT], outcomes: &mut [Option<Outcome>; SLOT_COUNT])
    ensures stages { (tag : ℕ) → tag < slot_count → stage_at slots.new tag
        ≡ stage_after_reset (stage_at slots.old tag) }
    ensures len { (length slots.new ≡ slot_count) × (length outcomes.new ≡ slot_count) }
    ensures outcomes { (tag : ℕ) → tag < slot_count → outcome_at outcomes.new tag
        ≡ outcome_after_reset (is_pending (stage_at slots.old tag)) (outcome_at outcomes.old tag) }
{
    for slot in 0..SLOT_COUNT {
        outcomes[slot] = outcome_after_reset(is_pending(slots[slot]), outcomes[slot]);
        slots[slot] = after_reset(slots[slot]);
    }
}
