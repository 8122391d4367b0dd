//! What is told of the answers of a transcript.

ghost use Rattle.std.specs.Prelude.{◌≡◌, ◌++◌, IfOk, OnOk, codes, decimal};
ghost use Rattle.std.specs.List.{flat_map};
ghost use Rattle.judged.specs.Judgements.{verdict_text, first_cause, follow_text, ruling_text, how_many, is_agreement, is_allowance, is_wrong, count_between, summary_text, rulings_text};

use crate::ruling::{Ruling, Verdict};
use basics::append_decimal;
use std::alloc::{AllocError, Global};

/// Appends where an answer stands.
fn append_place(alloc: Global, text: &mut Vec<u8>, number: u64) -> Result<(), AllocError>
    ensures { OnOk result (text.new.items ≡ text.old.items ++ codes "line " ++ decimal number) }
{
    text.extend_from_slice(b"line ")?;
    append_decimal(alloc, text, number)
}

/// The line of the first wrong answer from which others may follow.
fn first_cause(rulings: &[Ruling]) -> Option<u64>
    ensures { result ≡ first_cause rulings.now }
{
    for ruling in rulings {
        if ruling.is_cause {
            return Some(ruling.number);
        }
    }
    None
}

/// Appends from which line an answer may follow.
fn append_follow(
    alloc: Global,
    text: &mut Vec<u8>,
    cause: Option<u64>,
    number: u64,
) -> Result<(), AllocError>
    ensures { OnOk result (text.new.items ≡ text.old.items ++ follow_text cause number) }
{
    let Some(cause) = cause else {
        return Ok(());
    };
    if cause >= number {
        return Ok(());
    }
    text.extend_from_slice(b"may follow from line ")?;
    append_decimal(alloc, text, cause)?;
    text.extend_from_slice(b"\n")
}

/// Appends how the answers to a line were judged.
fn append_verdict(
    alloc: Global,
    text: &mut Vec<u8>,
    quiet: bool,
    ruling: &Ruling,
) -> Result<(), AllocError>
    ensures { OnOk result (text.new.items ≡ text.old.items
        ++ verdict_text quiet ruling.now.number ruling.now.verdict) }
{
    match &ruling.verdict {
        Verdict::Agrees => Ok(()),
        Verdict::Allowed(freedom) => {
            if quiet {
                return Ok(());
            }
            append_place(alloc, text, ruling.number)?;
            text.extend_from_slice(b": allowed: ")?;
            text.extend_from_slice(freedom.name())?;
            text.extend_from_slice(b"\n")
        }
        Verdict::Wrong(wrong) => {
            append_place(alloc, text, ruling.number)?;
            text.extend_from_slice(b": wrong: ")?;
            text.extend_from_slice(wrong.as_slice())
        }
    }
}

/// Appends what is told of the answers to a line, where this is the first cause.
fn append_ruling(
    alloc: Global,
    text: &mut Vec<u8>,
    quiet: bool,
    cause: Option<u64>,
    ruling: &Ruling,
) -> Result<(), AllocError>
    ensures { OnOk result (text.new.items ≡ text.old.items ++ ruling_text quiet cause ruling.now) }
{
    append_verdict(alloc, text, quiet, ruling)?;
    if !ruling.verdict.is_wrong() {
        return Ok(());
    }
    append_follow(alloc, text, cause, ruling.number)
}

/// Appends what is told of each, where this is the first cause.
fn append_rulings(
    alloc: Global,
    text: &mut Vec<u8>,
    quiet: bool,
    cause: Option<u64>,
    rulings: &[Ruling],
) -> Result<(), AllocError>
    ensures { OnOk result (text.new.items ≡ text.old.items
        ++ flat_map (ruling_text quiet cause) rulings.now) }
{
    for ruling in rulings {
        append_ruling(alloc, text, quiet, cause, ruling)?;
    }
    Ok(())
}

/// How many agree.
fn agreements(rulings: &[Ruling]) -> usize
    ensures { result ≡ how_many is_agreement rulings.now }
{
    rulings
        .iter()
        .filter(|ruling| ruling.verdict.is_agreement())
        .count()
}

/// How many a freedom allows.
fn allowances(rulings: &[Ruling]) -> usize
    ensures { result ≡ how_many is_allowance rulings.now }
{
    rulings
        .iter()
        .filter(|ruling| ruling.verdict.is_allowance())
        .count()
}

/// How many are wrong.
pub(crate) fn faults_in(rulings: &[Ruling]) -> usize
    ensures { result ≡ how_many is_wrong rulings.now }
{
    rulings
        .iter()
        .filter(|ruling| ruling.verdict.is_wrong())
        .count()
}

/// Appends a number between two words.
fn append_count(
    alloc: Global,
    text: &mut Vec<u8>,
    front: &[u8],
    number: usize,
    behind: &[u8],
) -> Result<(), AllocError>
    ensures { OnOk result (text.new.items ≡ text.old.items
        ++ count_between front.now number behind.now) }
{
    text.extend_from_slice(front)?;
    append_decimal(alloc, text, number as u64)?;
    text.extend_from_slice(behind)
}

/// Appends how many answers were judged, and how.
fn append_summary(alloc: Global, text: &mut Vec<u8>, rulings: &[Ruling]) -> Result<(), AllocError>
    ensures { OnOk result (text.new.items ≡ text.old.items ++ summary_text rulings.now) }
{
    append_count(alloc, text, b"judged ", rulings.len(), b" answers: ")?;
    append_count(alloc, text, b"", agreements(rulings), b" agree, ")?;
    append_count(alloc, text, b"", allowances(rulings), b" by a freedom, ")?;
    append_count(alloc, text, b"", faults_in(rulings), b" wrong\n")
}

/// What is told of the answers of a transcript.
pub(crate) fn rulings_text(
    alloc: Global,
    quiet: bool,
    rulings: &[Ruling],
) -> Result<Vec<u8>, AllocError>
    ensures { IfOk result (λ text. text.items ≡ rulings_text quiet rulings.now) }
{
    let mut text = Vec::new(alloc);
    append_rulings(alloc, &mut text, quiet, first_cause(rulings), rulings)?;
    append_summary(alloc, &mut text, rulings)?;
    Ok(text)
}
