//! A transcript that is judged, from a reader to a writer.

ghost use Rattle.std.specs.Prelude.{◌≡◌, ◌≤◌, IfOk};
ghost use Rattle.std.specs.Io.KnownBytes.{Appends};
ghost use Rattle.tool.specs.Outcomes.{Yields};
ghost use Rattle.judged.specs.Judgements.{rulings_told, judgement_of_entries, JudgesTranscript};

use crate::answers::behind;
use crate::entry::Entry;
use crate::freedom::Freedoms;
use crate::judging::{judge_all, judge_each};
use crate::reading::entries_of;
use crate::ruling::Ruling;
use crate::telling::{faults_in, rulings_text};
use runs::explored::{Lines, whole_text};
use script_lines::number_up_to;
use std::alloc::Global;
use std::io;
use std::io::{Read, Write};
use tool::{Options, RunError, run_script_with_faults, write_text};

/// How a transcript is judged.
#[derive(Drop)]
pub struct Terms {
    /// What is left to the drive.
    pub freedoms: Freedoms,
    /// Whether nothing is told of what a freedom allows.
    pub quiet: bool,
}

/// Writes what is wrong with a line, which stands in what was told of it behind the word `line` and its place in the script.
fn tell_line<E: Write>(
    alloc: Global,
    entries: &[Entry],
    told: &[u8],
    faults: &mut E,
) -> Result<(), RunError> {
    let lines = Lines::of_script(alloc, told)?;
    let last = match lines.as_slice() {
        [.., last] => last.as_slice(),
        [] => &[],
    };
    let place = last.iter().position(|byte| *byte == b':').unwrap_or(0);
    let number = number_up_to(u64::MAX, behind(&last[..place], 5)).unwrap_or(0);
    let number = number_in_transcript(entries, number);
    write!(faults, "line {number}").map_err(|_| RunError::Write)?;
    faults
        .write_all(&last[place..])
        .map_err(|_| RunError::Write)?;
    writeln!(faults).map_err(|_| RunError::Write)
}

/// The number in the transcript of a line of the script.
fn number_in_transcript(entries: &[Entry], number: u64) -> u64 {
    let mut left = number;
    for entry in entries {
        let lines = (entry.behind.len() as u64).saturating_add(u64::from(entry.number != 0));
        if left <= lines {
            return entry.number;
        }
        left -= lines;
    }
    0
}

/// Tells at which line the script of a transcript ends before its end, and why.
fn tell_end<E: Write>(
    alloc: Global,
    options: &Options,
    freedoms: &Freedoms,
    entries: &[Entry],
    faults: &mut E,
) -> Result<(), RunError> {
    let (judging, _) = judge_each(alloc, options, freedoms, entries)?;
    let mut told = Vec::new(alloc);
    let text = judging.script.as_slice();
    run_script_with_faults(alloc, text, &mut io::sink(), &mut told, options)?;
    tell_line(alloc, entries, &told, faults)
}

/// Writes what is told of answers, and gives the status: 1 where one is wrong.
fn tell_rulings<W: Write>(
    alloc: Global,
    quiet: bool,
    rulings: &[Ruling],
    output: &mut W,
) -> Result<u8, RunError>
    ensures most { IfOk result (λ status. status ≤ 2) }
    ensures told { IfOk result (λ status. Yields (rulings_told quiet rulings.now) status
        (W.contents output.old) (W.contents output.new)) }
{
    let text = rulings_text(alloc, quiet, rulings)?;
    write_text(output, &text)?;
    if faults_in(rulings) == 0 {
        return Ok(0);
    }
    Ok(1)
}

/// Judges a transcript by its lines.
fn judge_script<W: Write, E: Write>(
    alloc: Global,
    entries: &[Entry],
    output: &mut W,
    faults: &mut E,
    options: &Options,
    terms: &Terms,
) -> Result<u8, RunError>
    ensures most { IfOk result (λ status. status ≤ 2) }
    ensures told { IfOk result (λ status. Yields (judgement_of_entries options.now terms.now
        entries.now) status (W.contents output.old) (W.contents output.new)) }
{
    let (rulings, status) = judge_all(alloc, options, &terms.freedoms, entries)?;
    if status != 0 {
        tell_end(alloc, options, &terms.freedoms, entries, faults)?;
        return Ok(2);
    }
    tell_rulings(alloc, terms.quiet, rulings.as_slice(), output)
}

/// Reads a transcript, a script in which lines `= ANSWER` stand behind a line and say what another drive answered to it, and
/// writes to `output` which of these answers differ from the model's by a freedom, which are wrong, and how many it judged.
/// It gives the status: 0 where none is wrong, 1 where one is, 2 where the script of the transcript does not run to its end;
/// then `faults` is told at which line it ends, and why.
///
/// A line without answers is not judged. Behind a line whose answers are wrong the model goes on by its own. Answers that
/// have no line of the audit are compared with what the model says without its audit.
///
/// # Errors
///
/// Want of memory, and the first call of the reader or of a writer that fails.
pub fn judge_transcript<R: Read + Drop, W: Write, E: Write>(
    alloc: Global,
    input: R,
    output: &mut W,
    faults: &mut E,
    options: &Options,
    terms: &Terms,
) -> Result<u8, RunError>
    ensures most { IfOk result (λ status. status ≤ 2) }
    ensures judges { IfOk result (λ status. JudgesTranscript options.now terms.now
        (R.remaining input) status (W.contents output.old) (W.contents output.new)) }
{
    let text = whole_text(alloc, input)?;
    let entries = entries_of(alloc, &text)?;
    judge_script(alloc, entries.as_slice(), output, faults, options, terms)
}
