//! Since which act each lock, and the shadow MBR, has been in force, and each range where it is.

ghost use Rattle.std.specs.Prelude.{◌≡◌, ◌≤◌, ℕ, List, []};
ghost use Rattle.std.specs.Prelude.{◌∷◌, ◌++◌, slice_index_or, option_copied, IfOk, OnOk};
ghost use Rattle.sp_cells.specs.declared.names.TheConstants.{RANGES};
ghost use Rattle.reasons.specs.Chronicles.{no_onsets, range_onsets_after};
ghost use Rattle.reasons.specs.Within.{holdings_text};

use crate::explained::condition::{Condition, Place, conditions_of, range_named};
use crate::explained::onset::{Cause, Counted, Onset, Source, onset_after};
use crate::explained::onsets::RangeOnsets;
use crate::explained::reason::append_line;
use crate::holdings::append_holds;
use crate::remedies::{remedy_bytes, remedy_within};
use ace_eval::Authorities;
use audit::Why;
use sp_cells::{RANGES, Rows};
use std::alloc::{AllocError, Global};
use std::marker::Model;

/// The global range and the numbered ones.
const RANGE_COUNT: usize = RANGES as usize + 1;

/// Since which act each lock, and the shadow MBR, has been in force without a break, and each range where it is.
#[derive(Drop)]
pub struct Chronicle {
    acts: u64,
    ranges: [RangeOnsets; RANGE_COUNT],
    shadow: Option<Onset>,
}

impl Model for Chronicle {
    ghost use Rattle.reasons.specs.Chronicles.{KeptOnsets};

    ghost Value = { KeptOnsets };

    ghost view = { λ c. record { acts = c.acts; ranges = c.ranges; shadow = c.shadow } };
}

/// Notes of each range which flags are set now, and where it lies.
fn note_ranges<R: Rows>(ranges: &mut [RangeOnsets; RANGE_COUNT], rows: &R, now: Onset)
    ensures { (k : ℕ) → k ≤ RANGES → slice_index_or ranges.new k no_onsets
        ≡ range_onsets_after (R.look_up rows.now) k now (slice_index_or ranges.old k no_onsets) }
{
    for range in 0..RANGES + 1 {
        let k = usize::from(range);
        ranges[k] = ranges[k].after(rows, range, now);
    }
}

/// Appends what a session holds, where its authorities were asked for.
fn append_holdings(
    alloc: Global,
    text: &mut Vec<u8>,
    session: u32,
    held: Option<&Authorities>,
    why: &Why,
) -> Result<(), AllocError>
    ensures { OnOk result (text.new.items
        ≡ text.old.items ++ holdings_text session (option_copied held.entry) why.now) }
{
    match why {
        Why::NoEntryHolds { sp, .. } => append_holds(alloc, text, *sp, session, held),
        _ => Ok(()),
    }
}

impl Chronicle {
    ghost use Rattle.sp_cells.specs.Flat.{LookUp};
    ghost use Rattle.history.specs.Opening.{Origin};
    ghost use Rattle.history.specs.Readers.{in_force};
    ghost use Rattle.history.specs.History.{log};
    ghost use Rattle.reasons.specs.declared.explained.onset.Onset.TheVariants.{AtOpening};
    ghost use Rattle.reasons.specs.Conditions.{HasRange, is_in_force, range_place, conditions_of};
    ghost use Rattle.reasons.specs.Onsets.{Sourced, bare_acts, cause_at, onset_after, held_since, holds_after};
    ghost use Rattle.reasons.specs.Chronicles.{KeptOnsets, kept_onset, kept_place, Recounts};
    ghost use Rattle.reasons.specs.Within.{asker_with, told_within};
    ghost use Rattle.reasons.specs.Reasons.{reason_text, reasons_text, told_with, explanation_text};

    /// Nothing holds yet.
    #[tactic(auto, using(crate::proofs::explained::Keeping::none_set, crate::proofs::explained::Keeping::none_placed))]
    fn empty() -> Chronicle
        ensures acts { result.acts ≡ 0 }
        ensures onsets { (condition : Condition) → HasRange condition
            → kept_onset result condition ≡ None }
    {
        Chronicle {
            acts: 0,
            ranges: [RangeOnsets::none(); RANGE_COUNT],
            shadow: None,
        }
    }

    /// Notes what holds now, by the rows.
    #[tactic(auto, using(crate::proofs::explained::Keeping::noted, crate::proofs::explained::Keeping::placed))]
    fn note<R: Rows>(&mut self, rows: &R, now: Onset)
        ensures acts { self.new.acts ≡ self.old.acts }
        ensures onsets { (condition : Condition) → HasRange condition
            → kept_onset self.new condition
            ≡ onset_after (kept_onset self.old condition)
            (is_in_force (R.look_up rows.now) condition) now }
        ensures places { (range : ℕ)
            → kept_place self.new range ≡ range_place (R.look_up rows.now) range }
    {
        note_ranges(&mut self.ranges, rows, now);
        self.shadow = onset_after(self.shadow, Condition::Shadow.holds(rows), now);
    }

    /// What holds at the opening, by the rows then.
    pub fn opened<R: Rows>(rows: &R) -> Chronicle
        ensures { (o : Origin) → R.look_up rows.now ≡ in_force o [] → Recounts result o [] }
    {
        let mut chronicle = Chronicle::empty();
        chronicle.note(rows, Onset::AtOpening);
        chronicle
    }

    /// Notes what holds after an act of this source and cause, or behind a step of a port that does none, by the rows in
    /// force then.
    pub fn note_act<R: Rows>(&mut self, rows: &R, source: Source, cause: Cause)
        ensures { (o : Origin) (s : Sourced) (past : List Sourced) → s.source ≡ source
            → cause_at s.act ≡ cause
            → R.look_up rows.now ≡ in_force o (log o (bare_acts (s ∷ past)))
            → Recounts self.old o past → Recounts self.new o (s ∷ past) }
    {
        self.acts = self.acts.wrapping_add(1);
        let number = self.acts;
        let now = Onset::AtAct {
            number,
            source,
            cause,
        };
        self.note(rows, now);
    }

    /// Since when a condition holds without a break; `None` where it does not hold.
    pub fn since(&self, condition: Condition) -> Option<Onset>
        requires { HasRange condition }
        ensures stands { result ≡ kept_onset self.now condition }
        ensures told { (o : Origin) (past : List Sourced) → Recounts self.now o past
            → result ≡ held_since (holds_after o condition) past }
    {
        match condition {
            Condition::Lock { range, flag } => self.ranges[usize::from(range)].of(flag),
            Condition::At { range, place } => self.ranges[usize::from(range)].at(place),
            Condition::Shadow => self.shadow,
        }
    }

    /// Where the range of a number lies; nowhere where there is none.
    fn place(&self, range: u8) -> Place
        ensures { result ≡ kept_place self.now range }
    {
        if range <= RANGES {
            self.ranges[usize::from(range)].place
        } else {
            Place {
                start: 0,
                length: 0,
            }
        }
    }

    /// Appends the line of a condition, with its line feed: since when it has been in force. Nothing where it does not
    /// hold, or where there is no such range.
    fn append_reason(
        &self,
        alloc: Global,
        text: &mut Vec<u8>,
        counted: Counted,
        condition: Condition,
    ) -> Result<(), AllocError>
        ensures { OnOk result (text.new.items
            ≡ text.old.items ++ reason_text counted condition (kept_onset self.now condition)) }
    {
        if condition.has_range() {
            append_line(alloc, text, counted, condition, self.since(condition))?;
        }
        Ok(())
    }

    /// Appends the lines of these conditions.
    fn append_reasons(
        &self,
        alloc: Global,
        text: &mut Vec<u8>,
        counted: Counted,
        conditions: &[Condition],
    ) -> Result<(), AllocError>
        ensures { OnOk result (text.new.items
            ≡ text.old.items ++ reasons_text counted (kept_onset self.now) conditions.now) }
    {
        for condition in conditions {
            self.append_reason(alloc, text, counted, *condition)?;
        }
        Ok(())
    }

    /// The lines of a denial, and what would lift it, which is told in this line.
    fn explanation(
        &self,
        alloc: Global,
        counted: Counted,
        why: &Why,
        remedy: &[u8],
    ) -> Result<Vec<u8>, AllocError>
        ensures { IfOk result (λ text. text.items
            ≡ told_with counted (kept_onset self.now) (kept_place self.now) why.now remedy.now) }
    {
        let mut text = Vec::new(alloc);
        let place = self.place(range_named(why));
        self.append_reasons(
            alloc,
            &mut text,
            counted,
            conditions_of(why, place).as_slice(),
        )?;
        text.extend_from_slice(remedy)?;
        text.extend_from_slice(b"\n")?;
        Ok(text)
    }

    /// The same, by the acts.
    #[tactic(auto, using(crate::proofs::explained::Keeping::same_explanation))]
    fn explanation_since(
        &self,
        alloc: Global,
        counted: Counted,
        why: &Why,
        remedy: &[u8],
    ) -> Result<Vec<u8>, AllocError>
        ensures { IfOk result (λ text. (o : Origin) (past : List Sourced)
            → Recounts self.now o past → text.items
            ≡ told_with counted (λ c. held_since (holds_after o c) past)
            (range_place (in_force o (log o (bare_acts past)))) why.now remedy.now) }
    {
        let text = self.explanation(alloc, counted, why, remedy)?;
        Ok(text)
    }

    /// The lines that say of a denial what the session of a number holds in which a method was denied, since when each condition
    /// that the denial rests on has been in force, and what would lift it, by the rows in force and by those that the session
    /// sees, each with its line feed: since which act of a drive, or since which step of a port.
    ///
    /// # Errors
    ///
    /// An allocation was refused.
    pub fn explain_by<R: Rows, S: Rows>(
        &self,
        alloc: Global,
        counted: Counted,
        rows: &R,
        seen: &S,
        session: u32,
        held: Option<&Authorities>,
        why: &Why,
    ) -> Result<Vec<u8>, AllocError>
        ensures { IfOk result (λ text. (o : Origin) (past : List Sourced)
            → Recounts self.now o past → text.items
            ≡ told_within counted (λ c. held_since (holds_after o c) past)
            (range_place (in_force o (log o (bare_acts past))))
            (R.profile_of rows.now) (R.look_up rows.now)
            (asker_with (S.profile_of seen.now) session (S.look_up seen.now))
            (option_copied held.entry) why.now) }
    {
        let mut text = Vec::new(alloc);
        append_holdings(alloc, &mut text, session, held, why)?;
        let remedy = remedy_within(alloc, rows, seen, session, why)?;
        let told = self.explanation_since(alloc, counted, why, &remedy)?;
        text.extend_from_slice(&told)?;
        Ok(text)
    }

    /// The lines that say of a denial since which act of a drive each condition that it rests on has been in force, and what would
    /// lift it by the rows in force, each with its line feed.
    ///
    /// # Errors
    ///
    /// An allocation was refused.
    pub fn explain<R: Rows>(
        &self,
        alloc: Global,
        rows: &R,
        why: &Why,
    ) -> Result<Vec<u8>, AllocError>
        ensures { IfOk result (λ text. (o : Origin) (past : List Sourced)
            → Recounts self.now o past → text.items
            ≡ explanation_text (λ c. held_since (holds_after o c) past)
            (range_place (in_force o (log o (bare_acts past))))
            (R.profile_of rows.now) (R.look_up rows.now) why.now) }
    {
        let remedy = remedy_bytes(alloc, rows, why)?;
        let text = self.explanation_since(alloc, Counted::Acts, why, &remedy)?;
        Ok(text)
    }
}
