//! What is told of a step of a port that is refused.

ghost use Rattle.std.specs.Prelude.{◌≡◌, ◌<◌, ◌++◌, Some, List, IfSome, IfOk, OnOk};
ghost use Rattle.fis.specs.Tags.{slot_count};
ghost use Rattle.history.specs.Opening.{Origin};
ghost use Rattle.port.specs.Live.{LiveAgrees};
ghost use Rattle.port_history.specs.Steps.{trace};
ghost use Rattle.port_history.specs.declared.step.Step.{Step as StepOf};
ghost use Rattle.port_scripts.specs.PortActs.{slot_of};
ghost use Rattle.port_scripts.specs.PortReasons.{step_refusal_text, error_words, stage_words, labelled_number, put_text, slot_text, slot_refusal_text, port_refusal_text};

use basics::append_decimal;
use fis::{SLOT_COUNT, Tag};
use port::LivePort;
use port_history::{PortError, Put, Stage, Step};
use std::alloc::{AllocError, Global};

/// An error of a port in words.
fn words_of(error: PortError) -> &'static [u8]
    ensures { result.now ≡ error_words error }
{
    match error {
        PortError::SlotBusy => b"the slot is not free",
        PortError::NotPrepared => b"the slot has no prepared command",
        PortError::Queue => b"queued and unqueued commands would mix",
        PortError::NotIssued => b"the slot has no issued command",
        PortError::NotAccepted => b"the slot has no accepted command",
        PortError::NotFailed => b"the port has not failed",
        PortError::Failed => b"the port has failed, and waits for recover or reset",
        PortError::NotAnswered => b"the slot has no answer",
        PortError::NotYours => b"the answer is another client's",
        PortError::Size => b"no sector, too many, or data of another size",
        PortError::HistoryFull => b"the history has no room for another step",
        PortError::OutOfMemory => b"no memory",
    }
}

/// How far the command of a slot has come, in a word.
fn stage_word(stage: Stage) -> &'static [u8]
    ensures { result.now ≡ stage_words stage }
{
    match stage {
        Stage::Free => b"free",
        Stage::Prepared(_) => b"prepared",
        Stage::Issued(_) => b"issued",
        Stage::Accepted(_) => b"accepted",
        Stage::Answered(_) => b"answered",
    }
}

/// Appends words, and a number in decimal behind them.
#[tactic(auto, unfolding(crate::specs::PortReasons::labelled_number))]
fn append_number(
    alloc: Global,
    text: &mut Vec<u8>,
    words: &[u8],
    number: u64,
) -> Result<(), AllocError>
    ensures { OnOk result (text.new.items ≡ text.old.items ++ labelled_number words.now number) }
{
    text.extend_from_slice(words)?;
    append_decimal(alloc, text, number)?;
    Ok(())
}

/// Appends who put a command, and in which step.
#[tactic(auto, unfolding(crate::specs::PortReasons::put_text))]
fn append_put(alloc: Global, text: &mut Vec<u8>, put: Option<Put>) -> Result<(), AllocError>
    ensures { OnOk result (text.new.items ≡ text.old.items ++ put_text put) }
{
    if let Some(put) = put {
        append_number(alloc, text, b", put by client ", u64::from(put.client))?;
        append_number(alloc, text, b" in step ", put.number)?;
    }
    Ok(())
}

/// Appends how far the command of a slot has come, and who put it there.
#[tactic(auto, unfolding(crate::specs::PortReasons::slot_text))]
fn append_slot(alloc: Global, text: &mut Vec<u8>, tag: Tag, stage: Stage) -> Result<(), AllocError>
    ensures { OnOk result (text.new.items ≡ text.old.items ++ slot_text tag stage) }
{
    append_number(alloc, text, b": slot ", u64::from(tag.number()))?;
    text.extend_from_slice(b" is ")?;
    text.extend_from_slice(stage_word(stage))?;
    append_put(alloc, text, stage.put())?;
    Ok(())
}

/// Why a step was refused that names a slot, in a line with its line feed.
///
/// # Errors
///
/// Want of memory.
#[tactic(auto, unfolding(crate::specs::PortReasons::slot_refusal_text))]
pub fn slot_refusal(
    alloc: Global,
    error: PortError,
    tag: Tag,
    stage: Stage,
) -> Result<Vec<u8>, AllocError>
    ensures { IfOk result (λ text. text.items ≡ slot_refusal_text error tag stage) }
{
    let mut text = Vec::new(alloc);
    text.extend_from_slice(b"because ")?;
    text.extend_from_slice(words_of(error))?;
    append_slot(alloc, &mut text, tag, stage)?;
    text.extend_from_slice(b"\n")?;
    Ok(text)
}

/// Why a step was refused that names no slot, in a line with its line feed.
///
/// # Errors
///
/// Want of memory.
#[tactic(auto, unfolding(crate::specs::PortReasons::port_refusal_text))]
pub fn port_refusal(alloc: Global, error: PortError) -> Result<Vec<u8>, AllocError>
    ensures { IfOk result (λ text. text.items ≡ port_refusal_text error) }
{
    let mut text = Vec::new(alloc);
    text.extend_from_slice(b"because ")?;
    text.extend_from_slice(words_of(error))?;
    text.extend_from_slice(b"\n")?;
    Ok(text)
}

/// A tag, which numbers a slot.
fn numbered(tag: Tag) -> Option<Tag>
    ensures value { result ≡ Some tag }
    ensures slot { IfSome result (λ tag. tag < slot_count) }
{
    (usize::from(tag.number()) < SLOT_COUNT).then_some(tag)
}

/// The slot that a step names.
pub(crate) fn slot_of(step: &Step) -> Option<Tag>
    ensures value { result ≡ slot_of step.now }
    ensures slot { IfSome result (λ tag. tag < slot_count) }
{
    match *step {
        Step::Put { tag, .. }
        | Step::Issue { tag }
        | Step::Accept { tag }
        | Step::Complete { tag }
        | Step::Take { tag, .. } => numbered(tag),
        Step::Recover | Step::Reset { .. } => None,
    }
}

/// Why a port refused a step, which left it as it was, in a line with its line feed.
///
/// # Errors
///
/// Want of memory.
pub(crate) fn step_refusal(
    alloc: Global,
    port: &LivePort,
    step: &Step,
    error: PortError,
) -> Result<Vec<u8>, AllocError>
    ensures { IfOk result (λ text. (o : Origin) (list : List StepOf) → LiveAgrees port.now o list
        → text.items ≡ step_refusal_text (trace o list) step.now error) }
{
    match slot_of(step) {
        Some(tag) => slot_refusal(alloc, error, tag, port.stage(tag)),
        None => port_refusal(alloc, error),
    }
}
