//! A script that is explored, from a reader to a writer.

ghost use Rattle.std.specs.Prelude.{◌≡◌, ◌≤◌, ◌<◌, ◌-◌, true, false, not, IfOk, IfSome, OnOk, is_some, take, drop, length};
ghost use Rattle.std.specs.List.{list_any};
ghost use Rattle.std.specs.Io.KnownBytes.{Appends};
ghost use Rattle.script_lines.specs.PortLines.{is_port_line};
ghost use Rattle.tool.specs.Outcomes.{Yields, run_outcome_of};
ghost use Rattle.tool.specs.Openings.{row_said};
ghost use Rattle.tool.specs.Scripts.{kind_of_script};
ghost use Rattle.runs.specs.Alphabets.{opening_size, letters_of};
ghost use Rattle.runs.specs.Tellings.{is_none_behind, kind_behind, is_wrong_letter, has_wrong_letter, is_unfit, search_by, told_of, explored_lines, exploration_of, Explores};

use crate::explored::alphabet::{letters_of, opening_lines_text, opening_size};
use crate::explored::findings::Findings;
use crate::explored::lines::Lines;
use crate::explored::plan::Plan;
use crate::explored::search::Search;
use crate::explored::telling::findings_text;
use crate::explored::words::is_letter;
use basics::Bytes;
use script_lines::named_lines::call_verb_in;
use script_lines::{Line, PortLine, is_port_line};
use std::alloc::{AllocError, Global};
use std::io;
use std::io::{Read, Write};
use tool::{
    Fault, Options, RunError, ScriptKind, may_hold_remarks, run_script_with_faults, write_text,
};

/// All that a reader gives.
///
/// # Errors
///
/// Want of memory, and a read that fails.
pub fn whole_text<R: Read + Drop>(alloc: Global, input: R) -> Result<Vec<u8>, RunError>
    ensures { IfOk result (λ text. IfSome (R.remaining input) (λ given. text.items ≡ given)) }
{
    let mut input = input;
    let mut text = Vec::new(alloc);
    input.read_to_end(&mut text).map_err(RunError::reading)?;
    Ok(text)
}

/// Why a line of a port script can be no letter.
fn port_letter_fault(line: &[u8]) -> Option<Fault>
    ensures { is_some result ≡ is_none_behind (row_said ScriptKind.Port line.now) }
{
    match PortLine::parse(line) {
        Ok(PortLine::Range(_)) => Some(Fault::LateRange),
        Ok(_) => None,
        Err(fault) => Some(Fault::Line(fault)),
    }
}

/// Why a line of a script on a drive can be no letter.
fn drive_letter_fault(line: &[u8]) -> Option<Fault>
    ensures { is_some result ≡ is_none_behind (row_said ScriptKind.Drive line.now) }
{
    match Line::parse(line) {
        Ok(Line::Range(_)) => Some(Fault::LateRange),
        Ok(_) => None,
        Err(fault) => Some(Fault::Line(fault)),
    }
}

/// The same of a script whose lines may write calls by name: such a line may be one, whatever its words are.
fn named_letter_fault(line: &[u8]) -> Option<Fault>
    ensures { is_some result ≡ is_none_behind (row_said ScriptKind.DriveWithNames line.now) }
{
    match call_verb_in(line) {
        Some(_) => None,
        None => drive_letter_fault(line),
    }
}

/// Why a letter can't stand behind the opening.
fn letter_fault(kind: ScriptKind, line: &[u8]) -> Option<Fault>
    ensures { is_some result ≡ is_wrong_letter kind line.now }
{
    if !is_letter(line) {
        return None;
    }
    match kind {
        ScriptKind::Drive => drive_letter_fault(line),
        ScriptKind::DriveWithNames => named_letter_fault(line),
        ScriptKind::Port => port_letter_fault(line),
    }
}

/// Whether one of the lines says that what follows is a port script.
fn has_port_line(lines: &[Bytes]) -> bool
    ensures { result ≡ list_any is_port_line lines.now }
{
    for line in lines {
        if is_port_line(line.as_slice()) {
            return true;
        }
    }
    false
}

/// What the lines of a script are, where none says that it is one of a port.
fn kind_of_script(lines: &[Bytes]) -> ScriptKind
    ensures { result ≡ kind_of_script lines.now }
{
    match lines {
        [] => ScriptKind::Drive,
        [first, ..] => ScriptKind::of_drive(may_hold_remarks(first.as_slice())),
    }
}

/// What the lines behind the opening are.
fn kind_behind(lines: &[Bytes]) -> ScriptKind
    ensures { result ≡ kind_behind lines.now }
{
    let size = opening_size(lines);
    if has_port_line(&lines[..size]) {
        ScriptKind::Port
    } else {
        kind_of_script(lines)
    }
}

/// The first line behind so many that can be no letter, and why.
fn wrong_letter(kind: ScriptKind, size: usize, lines: &[Bytes]) -> Option<(usize, Fault)>
    requires { size ≤ length lines.now }
    ensures some { is_some result ≡ list_any (is_wrong_letter kind) (drop size lines.now) }
    ensures within { IfSome result (λ found. found.0 < length lines.now) }
    ensures first { IfSome result (λ found.
        list_any (is_wrong_letter kind) (take (found.0 - size) (drop size lines.now)) ≡ false) }
{
    let rest = &lines[size..];
    for i in 0..rest.len() {
        if let Some(fault) = letter_fault(kind, rest[i].as_slice()) {
            return Some((size + i, fault));
        }
    }
    None
}

/// Whether the lines behind the opening can be letters; tells why, where they can't.
fn are_letters<E: Write>(lines: &[Bytes], faults: &mut E) -> Result<bool, RunError>
    ensures { IfOk result (λ fit. fit ≡ not (has_wrong_letter lines.now)) }
{
    let size = opening_size(lines);
    match wrong_letter(kind_behind(lines), size, lines) {
        Some((place, fault)) => {
            writeln!(faults, "line {}: {fault}", place + 1).map_err(|_| RunError::Write)?;
            Ok(false)
        }
        None => Ok(true),
    }
}

/// Whether there is something to explore; tells why, where there is not.
pub(crate) fn is_fit<E: Write>(
    letters: &Lines,
    lines: &[Bytes],
    faults: &mut E,
) -> Result<bool, RunError>
    requires { letters.now ≡ letters_of lines.now }
    ensures { IfOk result (λ fit. fit ≡ not (is_unfit lines.now)) }
{
    if letters.len() == 0 {
        writeln!(
            faults,
            "error: no line stands behind the opening, so there is nothing to explore"
        )
        .map_err(|_| RunError::Write)?;
        return Ok(false);
    }
    are_letters(lines, faults)
}

/// What is explored, by a plan and the lines of a script.
pub(crate) fn search_by(alloc: Global, plan: &Plan, lines: &[Bytes]) -> Result<Search, AllocError>
    ensures { IfOk result (λ search. search ≡ search_by plan.now lines.now) }
{
    Ok(Search {
        opening: opening_lines_text(alloc, lines)?,
        letters: letters_of(alloc, lines)?,
        limit: plan.limit,
        find: plan.find.copy()?,
    })
}

/// Tells what was found, and gives the status: 1 where a text was looked for and not found.
pub(crate) fn tell_findings<W: Write>(
    alloc: Global,
    find: &[u8],
    findings: &Findings,
    output: &mut W,
) -> Result<u8, RunError>
    ensures most { IfOk result (λ status. status ≤ 2) }
    ensures told { IfOk result (λ status. Yields (told_of find.now findings.now) status
        (W.contents output.old) (W.contents output.new)) }
{
    let text = findings_text(alloc, findings)?;
    write_text(output, &text)?;
    if findings.kinds.as_slice().is_empty() && !find.is_empty() {
        return Ok(1);
    }
    Ok(0)
}

/// Runs each list of at most so many letters behind the opening, and tells what it leads to.
fn explore_lines<W: Write, E: Write>(
    alloc: Global,
    search: &Search,
    lines: &[Bytes],
    output: &mut W,
    faults: &mut E,
    options: &Options,
    plan: &Plan,
) -> Result<u8, RunError>
    requires { search.now ≡ search_by plan.now lines.now }
    ensures most { IfOk result (λ status. status ≤ 2) }
    ensures told { IfOk result (λ status. Yields (explored_lines options.now plan.now lines.now)
        status (W.contents output.old) (W.contents output.new)) }
{
    if !is_fit(&search.letters, lines, faults)? {
        return Ok(2);
    }
    let findings = search.run(alloc, options, plan.steps, faults)?;
    tell_findings(alloc, plan.find.as_slice(), &findings, output)
}

/// Reads a script, and runs each list of at most so many of its letters behind its opening, from the shortest on. It
/// writes to `output` how many lists were run, how many states letters tell apart, and for each kind of line that is
/// looked for how often it was printed and the first list behind which it was; and to `faults` why a script can't be
/// explored, and on long work how far it has come. It gives the status: 0 done, 1 where a text is looked for and not
/// found, 2 where a line of the script is wrong, or where it has no letter.
///
/// The opening is what stands in front of a comment `# letters`, or, where there is none, the comments, the line `port`
/// and the range lines in front. The letters are the lines behind it, each once, without comments and `expect` lines. A
/// list whose last step a port refuses is not gone on from, since it left all as it was.
///
/// # Errors
///
/// Want of memory, and the first call of the reader or of a writer that fails.
pub fn explore_script<R: Read + Drop, W: Write, E: Write>(
    alloc: Global,
    input: R,
    output: &mut W,
    faults: &mut E,
    options: &Options,
    plan: &Plan,
) -> Result<u8, RunError>
    ensures most { IfOk result (λ status. status ≤ 2) }
    ensures explores { IfOk result (λ status. Explores options.now plan.now (R.remaining input)
        status (W.contents output.old) (W.contents output.new)) }
{
    let text = whole_text(alloc, input)?;
    let lines = Lines::of_script(alloc, &text)?;
    let lines = lines.as_slice();
    let search = search_by(alloc, plan, lines)?;
    let opening = search.opening.as_slice();
    let status = run_script_with_faults(alloc, opening, &mut io::sink(), faults, options)?;
    if status != 0 {
        return Ok(status);
    }
    explore_lines(alloc, &search, lines, output, faults, options, plan)
}
