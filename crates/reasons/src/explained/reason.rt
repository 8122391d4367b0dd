//! The lines that say since when what denied a transfer has been in force.

ghost use Rattle.std.specs.Prelude.{◌≡◌, ◌++◌, OnOk, codes, decimal};
ghost use Rattle.reasons.specs.declared.explained.condition.Condition.TheVariants.{Shadow};
ghost use Rattle.reasons.specs.declared.explained.onset.Onset.TheVariants.{AtOpening};
ghost use Rattle.reasons.specs.Reasons.{worded_number, set_cell_text, not_done_text, range_number_text, place_text, condition_text, reset_column_text, reset_kind_text, client_text, cause_text, counted_words, onset_text, line_since};

use crate::explained::condition::{Condition, Place};
use crate::explained::onset::{Cause, Counted, Onset, Source};
use crate::remedies::{append_column_name, append_object_name};
use basics::append_decimal;
use sp_cells::{Column, Uid};
use std::alloc::{AllocError, Global};

/// Appends words, and a number in decimal behind them.
#[tactic(auto, unfolding(crate::specs::Reasons::worded_number))]
pub(crate) fn append_number(
    alloc: Global,
    text: &mut Vec<u8>,
    words: &[u8],
    number: u64,
) -> Result<(), AllocError>
    ensures { OnOk result (text.new.items ≡ text.old.items ++ worded_number words.now number) }
{
    text.extend_from_slice(words)?;
    append_decimal(alloc, text, number)?;
    Ok(())
}

/// Appends that a cell is 1, by its names.
#[tactic(auto, unfolding(crate::specs::Reasons::set_cell_text))]
pub(crate) fn append_set_cell(
    alloc: Global,
    text: &mut Vec<u8>,
    object: Uid,
    column: Column,
) -> Result<(), AllocError>
    ensures { OnOk result (text.new.items ≡ text.old.items ++ set_cell_text object column) }
{
    append_object_name(alloc, text, object)?;
    text.extend_from_slice(b" ")?;
    append_column_name(alloc, text, object, column)?;
    text.extend_from_slice(b" = 1")?;
    Ok(())
}

/// Appends that the shadow MBR is not done.
#[tactic(auto, unfolding(crate::specs::Reasons::not_done_text))]
fn append_not_done(alloc: Global, text: &mut Vec<u8>) -> Result<(), AllocError>
    ensures { OnOk result (text.new.items ≡ text.old.items ++ not_done_text) }
{
    append_column_name(alloc, text, Uid::MBR_CONTROL, Column::MBR_DONE)?;
    text.extend_from_slice(b" = 0")?;
    Ok(())
}

/// Appends that the shadow MBR is up.
#[tactic(auto, unfolding(crate::specs::Reasons::condition_text))]
fn append_shadow(alloc: Global, text: &mut Vec<u8>) -> Result<(), AllocError>
    ensures { OnOk result (text.new.items ≡ text.old.items ++ condition_text Shadow) }
{
    append_set_cell(alloc, text, Uid::MBR_CONTROL, Column::MBR_ENABLE)?;
    text.extend_from_slice(b" and ")?;
    append_not_done(alloc, text)?;
    Ok(())
}

/// Appends a column of a range as a number, as `RangeLength = 20`.
#[tactic(auto, unfolding(crate::specs::Reasons::range_number_text, crate::specs::Reasons::worded_number))]
fn append_range_number(
    alloc: Global,
    text: &mut Vec<u8>,
    range: u8,
    column: Column,
    number: u64,
) -> Result<(), AllocError>
    ensures { OnOk result (text.new.items
        ≡ text.old.items ++ range_number_text range column number) }
{
    append_column_name(alloc, text, Uid::range(range), column)?;
    text.extend_from_slice(b" = ")?;
    append_decimal(alloc, text, number)?;
    Ok(())
}

/// Appends where a range lies.
#[tactic(auto, unfolding(crate::specs::Reasons::place_text))]
pub(crate) fn append_place(
    alloc: Global,
    text: &mut Vec<u8>,
    range: u8,
    place: Place,
) -> Result<(), AllocError>
    ensures { OnOk result (text.new.items ≡ text.old.items ++ place_text range place) }
{
    append_object_name(alloc, text, Uid::range(range))?;
    text.extend_from_slice(b" ")?;
    append_range_number(alloc, text, range, Column::RANGE_START, place.start)?;
    text.extend_from_slice(b" and ")?;
    append_range_number(alloc, text, range, Column::RANGE_LENGTH, place.length)?;
    Ok(())
}

/// Appends a condition that holds.
#[tactic(auto, unfolding(crate::specs::Reasons::condition_text))]
fn append_condition(
    alloc: Global,
    text: &mut Vec<u8>,
    condition: Condition,
) -> Result<(), AllocError>
    ensures { OnOk result (text.new.items ≡ text.old.items ++ condition_text condition) }
{
    match condition {
        Condition::Lock { range, flag } => {
            append_set_cell(alloc, text, Uid::range(range), flag.column())?
        }
        Condition::At { range, place } => append_place(alloc, text, range, place)?,
        Condition::Shadow => append_shadow(alloc, text)?,
    }
    Ok(())
}

/// Appends the column by which a reset brings a condition into force.
#[tactic(auto, unfolding(crate::specs::Reasons::reset_column_text))]
fn append_reset_column(
    alloc: Global,
    text: &mut Vec<u8>,
    condition: Condition,
) -> Result<(), AllocError>
    ensures { OnOk result (text.new.items ≡ text.old.items ++ reset_column_text condition) }
{
    match condition {
        Condition::Lock { range, .. } => {
            append_column_name(alloc, text, Uid::range(range), Column::LOCK_ON_RESET)?;
        }
        Condition::At { range, .. } => {
            append_column_name(alloc, text, Uid::range(range), Column::RANGE_START)?;
        }
        Condition::Shadow => {
            append_column_name(alloc, text, Uid::MBR_CONTROL, Column::MBR_DONE_ON_RESET)?;
        }
    }
    Ok(())
}

/// The kind of a reset in words.
pub(crate) fn reset_kind(kind: u8) -> &'static [u8]
    ensures { result.now ≡ reset_kind_text kind }
{
    match kind {
        0 => b"a power cycle",
        1 => b"a hardware reset",
        _ => b"TPER_RESET",
    }
}

/// Appends who did it.
#[tactic(auto, unfolding(crate::specs::Reasons::client_text))]
pub(crate) fn append_client(
    alloc: Global,
    text: &mut Vec<u8>,
    source: Source,
    session: u32,
) -> Result<(), AllocError>
    ensures { OnOk result (text.new.items ≡ text.old.items ++ client_text source session) }
{
    append_number(alloc, text, b" by client ", u64::from(source.client))?;
    append_number(alloc, text, b" in session ", u64::from(session))?;
    Ok(())
}

/// Appends that a condition was set in a session, or committed there.
fn append_call(
    alloc: Global,
    text: &mut Vec<u8>,
    verb: &[u8],
    condition: Condition,
    source: Source,
    session: u32,
) -> Result<(), AllocError>
    ensures { OnOk result (text.new.items ≡ text.old.items
        ++ verb.now ++ condition_text condition ++ client_text source session) }
{
    text.extend_from_slice(verb)?;
    append_condition(alloc, text, condition)?;
    append_client(alloc, text, source, session)?;
    Ok(())
}

/// Appends that a reset of this kind brought a condition into force.
fn append_reset(
    alloc: Global,
    text: &mut Vec<u8>,
    condition: Condition,
    kind: u8,
) -> Result<(), AllocError>
    ensures { OnOk result (text.new.items ≡ text.old.items ++ reset_kind_text kind ++ codes ", "
        ++ reset_column_text condition ++ codes ": " ++ condition_text condition) }
{
    text.extend_from_slice(reset_kind(kind))?;
    text.extend_from_slice(b", ")?;
    append_reset_column(alloc, text, condition)?;
    text.extend_from_slice(b": ")?;
    append_condition(alloc, text, condition)?;
    Ok(())
}

/// Appends what brought a condition into force.
#[tactic(auto, unfolding(crate::specs::Reasons::cause_text))]
fn append_cause(
    alloc: Global,
    text: &mut Vec<u8>,
    condition: Condition,
    source: Source,
    cause: Cause,
) -> Result<(), AllocError>
    ensures { OnOk result (text.new.items ≡ text.old.items ++ cause_text condition source cause) }
{
    match cause {
        Cause::SetIn(session) => append_call(alloc, text, b"Set of ", condition, source, session)?,
        Cause::CommittedIn(session) => {
            append_call(alloc, text, b"commit of ", condition, source, session)?;
        }
        Cause::ResetBy(kind) => append_reset(alloc, text, condition, kind)?,
        Cause::NoCause => append_condition(alloc, text, condition)?,
    }
    Ok(())
}

/// What is counted, in a word.
pub(crate) fn counted_word(counted: Counted) -> &'static [u8]
    ensures { result.now ≡ counted_words counted }
{
    match counted {
        Counted::Acts => b"act ",
        Counted::Steps => b"step ",
    }
}

/// Appends that a condition holds from the opening on.
#[tactic(auto, unfolding(crate::specs::Reasons::onset_text))]
fn append_at_opening(
    alloc: Global,
    text: &mut Vec<u8>,
    counted: Counted,
    condition: Condition,
) -> Result<(), AllocError>
    ensures { OnOk result
        (text.new.items ≡ text.old.items ++ onset_text counted condition AtOpening) }
{
    text.extend_from_slice(b"the opening: ")?;
    append_condition(alloc, text, condition)?;
    Ok(())
}

/// Appends since when a condition holds.
#[tactic(auto, unfolding(crate::specs::Reasons::onset_text))]
fn append_onset(
    alloc: Global,
    text: &mut Vec<u8>,
    counted: Counted,
    condition: Condition,
    onset: Onset,
) -> Result<(), AllocError>
    ensures { OnOk result (text.new.items ≡ text.old.items ++ onset_text counted condition onset) }
{
    match onset {
        Onset::AtOpening => append_at_opening(alloc, text, counted, condition)?,
        Onset::AtAct {
            number,
            source,
            cause,
        } => {
            append_number(alloc, text, counted_word(counted), number)?;
            text.extend_from_slice(b": ")?;
            append_cause(alloc, text, condition, source, cause)?;
            append_number(alloc, text, b", line ", source.line)?;
        }
    }
    Ok(())
}

/// Appends the line of a condition that holds since then, with its line feed.
pub(crate) fn append_line(
    alloc: Global,
    text: &mut Vec<u8>,
    counted: Counted,
    condition: Condition,
    onset: Option<Onset>,
) -> Result<(), AllocError>
    ensures { OnOk result (text.new.items ≡ text.old.items ++ line_since counted condition onset) }
{
    if let Some(onset) = onset {
        text.extend_from_slice(b"because ")?;
        append_onset(alloc, text, counted, condition, onset)?;
        text.extend_from_slice(b"\n")?;
    }
    Ok(())
}
