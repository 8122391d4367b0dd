//! A whole script, from a reader to a writer.

ghost use Rattle.std.specs.Prelude.{◌≡◌, ◌≤◌, ◌<◌, ◌⊎◌, ◌∷◌, [], ℕ, Err, Some, IfOk, IfSome};
ghost use Rattle.std.specs.Io.Buffered.{reader_remaining};
ghost use Rattle.std.specs.Io.KnownBytes.{Appends};
ghost use Rattle.tool.specs.declared.ending.RunError.{RunError};
ghost use Rattle.tool.specs.Ends.{OpenedStands, exit_status};
ghost use Rattle.tool.specs.Courses.{PhaseStands};
ghost use Rattle.tool.specs.Openings.{opens_with};
ghost use Rattle.tool.specs.Outcomes.{ExplainedScriptYields, ScriptYields, YieldsBy};
ghost use Rattle.tool.specs.Progress.{BeginsScript, FirstLine, LinesOpenTo, RunLeads, ScriptLeads, SkipsTo};
ghost use Rattle.tool.specs.Scripts.{bare, with_numbers, script_lines};

use crate::ending::{End, RunError, tell, tell_abort};
use crate::head::{Head, ScriptKind};
use crate::opening::{OpeningPhase, OpeningTurn};
use crate::options::Options;
use crate::phase::Phase;
use crate::reading::{READ_AT_ONCE, answer, line_at_hand, lines_within, read_line, without_end};
use crate::remarks::{is_skipped, may_hold_remarks};
use drive_scripts::Turn;
use script_lines::{Report, is_port_line};
use std::alloc::Global;
use std::io;
use std::io::{BufReader, Read, Write};

/// The most lines that are read.
const READ_LIMIT: u64 = 4_294_967_296;

/// The limits of a script, as numbers.
pub fn laws_of_limits()
    ensures { READ_LIMIT ≡ 4294967296 }
{}

/// What the opening phase comes to.
#[derive(Drop)]
pub enum Opened {
    /// The script ended.
    Ended(End),
    /// So many lines were range lines or remarks, and the one behind them is none.
    Runs { run: Phase, lines: u64 },
}

/// Goes on from the line at hand to the first that is not skipped, and tells how many lines stand
/// before it; `None` where none is left.
fn skip_remarks<R: Read + Drop>(
    remarks: bool,
    reader: &mut BufReader<R>,
    report: &Report,
    line: &mut Vec<u8>,
) -> Result<Option<u64>, RunError>
    requires { report.now.pending.items ≡ [] }
    ensures limit { IfOk result (λ found. IfSome found (λ lines. lines < READ_LIMIT)) }
    ensures skips { IfOk result (λ found. IfSome (reader_remaining R.remaining reader.old)
        (λ text. SkipsTo remarks found (with_numbers 0 (bare line.old.items ∷ script_lines text))
        line.new.items (reader_remaining R.remaining reader.new))) }
{
    for number in 0..READ_LIMIT {
        if !is_skipped(remarks, without_end(line)) {
            return Ok(Some(number));
        }
        if !read_line(reader, line_at_hand(reader), line, report)? {
            return Ok(None);
        }
    }
    Err(RunError::ReadLimit)
}

/// Reads the first line, which says whether the script may hold remarks, and goes on to the first
/// that is none; `None` where no line is at hand.
fn begin<R: Read + Drop>(
    explains: bool,
    reader: &mut BufReader<R>,
    report: &Report,
    line: &mut Vec<u8>,
) -> Result<Option<Head>, RunError>
    requires { report.now.pending.items ≡ [] }
    ensures limit { IfOk result (λ first. IfSome first (λ head. head.lines < READ_LIMIT)) }
    ensures begins { IfOk result (λ first. IfSome (reader_remaining R.remaining reader.old)
        (λ text. BeginsScript explains first text line.new.items
        (reader_remaining R.remaining reader.new))) }
{
    if !read_line(reader, line_at_hand(reader), line, report)? {
        return Ok(None);
    }
    let remarks = may_hold_remarks(without_end(line));
    let Some(lines) = skip_remarks(remarks, reader, report, line)? else {
        return Ok(None);
    };
    Ok(Some(Head {
        remarks,
        explains,
        kind: ScriptKind::of_drive(remarks),
        lines,
    }))
}

/// Reads the first line that is no remark, and, where it says that a port script follows, the one
/// behind it. It tells what these lines say of the script; `None` where no line is at hand.
fn first_line<R: Read + Drop>(
    explains: bool,
    reader: &mut BufReader<R>,
    report: &Report,
    line: &mut Vec<u8>,
) -> Result<Option<Head>, RunError>
    requires { report.now.pending.items ≡ [] }
    ensures { IfOk result (λ first. IfSome (reader_remaining R.remaining reader.old)
        (λ text. FirstLine explains first text line.new.items
        (reader_remaining R.remaining reader.new))) }
{
    let Some(head) = begin(explains, reader, report, line)? else {
        return Ok(None);
    };
    if !is_port_line(without_end(line)) {
        return Ok(Some(head));
    }
    if !read_line(reader, line_at_hand(reader), line, report)? {
        return Ok(None);
    }
    Ok(Some(Head {
        kind: ScriptKind::Port,
        lines: head.lines + 1,
        ..head
    }))
}

/// Does the range lines from the line at hand on, and reads the line behind them.
fn opening_lines<R: Read + Drop>(
    alloc: Global,
    options: &Options,
    head: Head,
    reader: &mut BufReader<R>,
    report: &Report,
    line: &mut Vec<u8>,
) -> Result<Opened, RunError>
    requires { report.now.pending.items ≡ [] }
    ensures stands { IfOk result OpenedStands }
    ensures leads { IfOk result (λ opened.
        LinesOpenTo head opened (opens_with options.now) line.old.items
        (reader_remaining R.remaining reader.old)
        line.new.items (reader_remaining R.remaining reader.new)) }
{
    let mut phase = OpeningPhase::Factory(options.config());
    for number in head.lines..READ_LIMIT {
        match phase.turn_or_skip(alloc, head, without_end(line))? {
            OpeningTurn::Goes(next) => phase = next,
            OpeningTurn::Runs(run) => return Ok(Opened::Runs { run, lines: number }),
            OpeningTurn::Bad(fault) => {
                let line = number + 1;
                return Ok(Opened::Ended(End::Bad { line, fault }));
            }
        }
        if !read_line(reader, line_at_hand(reader), line, report)? {
            return Ok(Opened::Ended(End::Done));
        }
    }
    Err(RunError::ReadLimit)
}

/// Does the line at hand, and those behind it.
fn running_lines<R: Read + Drop, W: Write, E: Write>(
    run: &mut Phase,
    head: Head,
    reader: &mut BufReader<R>,
    report: &mut Report,
    line: &mut Vec<u8>,
    output: &mut W,
    faults: &mut E,
) -> Result<End, RunError>
    requires { PhaseStands run.old }
    ensures { IfOk result (λ end.
        RunLeads head run.old line.old.items (reader_remaining R.remaining reader.old) end
        report.old report.new (W.contents output.old) (W.contents output.new)) }
{
    for number in head.lines..READ_LIMIT {
        match run.turn_or_skip(head.remarks, number + 1, without_end(line), report)? {
            Turn::Goes { aborted } => tell_abort(aborted, number + 1, faults)?,
            Turn::ExpectationFailed => return Ok(End::ExpectationFailed { line: number + 1 }),
            Turn::Bad(fault) => {
                return Ok(End::Bad {
                    line: number + 1,
                    fault,
                });
            }
        }
        let at_hand = answer(reader, report, output)?;
        if !read_line(reader, at_hand, line, report)? {
            return Ok(End::Done);
        }
    }
    Err(RunError::ReadLimit)
}

/// Does the line at hand, and those behind it, and then lets the drive, or the port, go.
fn remaining_lines<R: Read + Drop, W: Write, E: Write>(
    mut run: Phase,
    head: Head,
    reader: &mut BufReader<R>,
    report: &mut Report,
    line: &mut Vec<u8>,
    output: &mut W,
    faults: &mut E,
) -> Result<End, RunError>
    requires { PhaseStands run }
    ensures { IfOk result (λ end.
        RunLeads head run line.old.items (reader_remaining R.remaining reader.old) end
        report.old report.new (W.contents output.old) (W.contents output.new)) }
{
    let end = running_lines(&mut run, head, reader, report, line, output, faults);
    drop(run);
    end
}

/// Does the lines of a script, and hands on most of the answers.
fn all_lines<R: Read + Drop, W: Write, E: Write>(
    alloc: Global,
    options: &Options,
    explains: bool,
    reader: &mut BufReader<R>,
    report: &mut Report,
    line: &mut Vec<u8>,
    output: &mut W,
    faults: &mut E,
) -> Result<End, RunError>
    requires pending { report.old.pending.items ≡ [] }
    requires last { report.old.last.items ≡ [] }
    ensures { IfOk result (λ end.
        ScriptLeads explains options.now (reader_remaining R.remaining reader.old) end
        report.old report.new (W.contents output.old) (W.contents output.new)) }
{
    let Some(head) = first_line(explains, reader, report, line)? else {
        return Ok(End::Done);
    };
    let opened = opening_lines(alloc, options, head, reader, report, line)?;
    match opened {
        Opened::Ended(end) => Ok(end),
        Opened::Runs { run, lines } => {
            let head = Head { lines, ..head };
            remaining_lines(run, head, reader, report, line, output, faults)
        }
    }
}

/// Hands on what is pending, whatever ended the lines.
fn hand_on_behind<W: Write>(
    end: Result<End, RunError>,
    report: &mut Report,
    output: &mut W,
) -> Result<End, RunError>
    ensures cleared { report.new.pending.items ≡ [] }
    ensures last { report.new.last ≡ report.old.last }
    ensures written { ((result ≡ end)
        × Appends (W.contents output.old) (W.contents output.new) report.old.pending.items)
        ⊎ (result ≡ Err RunError.Write) }
{
    report.hand_on(output).map_err(|_| RunError::Write)?;
    end
}

/// Does the lines of a script, and hands on all answers, also where an error ends the lines.
fn all_answers<R: Read + Drop, W: Write, E: Write>(
    alloc: Global,
    options: &Options,
    explains: bool,
    reader: &mut BufReader<R>,
    report: &mut Report,
    line: &mut Vec<u8>,
    output: &mut W,
    faults: &mut E,
) -> Result<End, RunError>
    requires pending { report.old.pending.items ≡ [] }
    requires last { report.old.last.items ≡ [] }
    ensures handed_on { report.new.pending.items ≡ [] }
    ensures yields { IfOk result (λ end.
        YieldsBy explains options.now (reader_remaining R.remaining reader.old)
        (exit_status end) (W.contents output.old) (W.contents output.new)) }
{
    let end = all_lines(
        alloc, options, explains, reader, report, line, output, faults,
    );
    hand_on_behind(end, report, output)
}

/// Runs a script, with reasons or without, of which so many bytes are read at once.
fn run_by<R: Read + Drop, W: Write, E: Write>(
    alloc: Global,
    options: &Options,
    explains: bool,
    room: usize,
    input: R,
    output: &mut W,
    faults: &mut E,
) -> Result<u8, RunError>
    requires { 0 < room }
    ensures most { IfOk result (λ status. status ≤ 2) }
    ensures whole { IfOk result (λ status. YieldsBy explains options.now (R.remaining input)
        status (W.contents output.old) (W.contents output.new)) }
{
    let mut reader = lines_within(alloc, room, input)?;
    let mut report = Report::new(alloc);
    let mut line = Vec::new(alloc);
    let end = all_answers(
        alloc,
        options,
        explains,
        &mut reader,
        &mut report,
        &mut line,
        output,
        faults,
    )?;
    tell(end, without_end(&line), &report.last, faults)
}

/// Runs the script that a reader gives, writes what it prints to `output` and the fault that ended
/// it to `faults`, and gives its status: 0 done, 1 an expectation failed, 2 a bad line or a refused
/// range row. A script whose first line is `port` runs on a port, any other on a drive. Without a
/// `range` line the drive is as it leaves the factory. In a script whose first line begins with `#`
/// remarks do nothing, wherever they stand: blank lines, and lines that begin with `#`, behind blanks
/// or not. The first line that is none may be `port`; where it is not, lines may write calls by name (`NamedPhase`). Answers are written before each read that could
/// wait, and whenever more than 65,536 bytes of them wait.
///
/// # Errors
///
/// Want of memory, and the first call of the reader or of a writer that fails. What was printed
/// before is written, but for what a failed call was given: that is not written once more.
pub fn run_script_with_faults<R: Read + Drop, W: Write, E: Write>(
    alloc: Global,
    input: R,
    output: &mut W,
    faults: &mut E,
    options: &Options,
) -> Result<u8, RunError>
    ensures most { IfOk result (λ status. status ≤ 2) }
    ensures whole { IfOk result (λ status. ScriptYields options.now (R.remaining input)
        status (W.contents output.old) (W.contents output.new)) }
{
    run_by(alloc, options, false, READ_AT_ONCE, input, output, faults)
}

/// Runs the script that a reader gives, as `run_script_with_faults` does, and tells each refusal with its reason: behind what a
/// line prints, lines that begin with `because` and `lifted by`. An `expect` line is not held against these.
///
/// # Errors
///
/// As `run_script_with_faults`.
pub fn run_explained_script<R: Read + Drop, W: Write, E: Write>(
    alloc: Global,
    input: R,
    output: &mut W,
    faults: &mut E,
    options: &Options,
) -> Result<u8, RunError>
    ensures most { IfOk result (λ status. status ≤ 2) }
    ensures whole { IfOk result (λ status. ExplainedScriptYields options.now (R.remaining input)
        status (W.contents output.old) (W.contents output.new)) }
{
    run_by(alloc, options, true, READ_AT_ONCE, input, output, faults)
}

/// Runs the script that a reader gives, as `run_script_with_faults` does, and drops the text of the
/// fault.
pub fn run_script<R: Read + Drop, W: Write>(
    alloc: Global,
    input: R,
    output: &mut W,
    options: &Options,
) -> Result<u8, RunError>
    ensures most { IfOk result (λ status. status ≤ 2) }
    ensures whole { IfOk result (λ status. ScriptYields options.now (R.remaining input)
        status (W.contents output.old) (W.contents output.new)) }
{
    run_script_with_faults(alloc, input, output, &mut io::sink(), options)
}

/// Runs the script that is given, as `run_script` does. It takes no more room to read than the script has bytes.
///
/// # Errors
///
/// As `run_script`.
pub fn run_text<W: Write>(
    alloc: Global,
    text: &[u8],
    output: &mut W,
    options: &Options,
) -> Result<u8, RunError>
    ensures most { IfOk result (λ status. status ≤ 2) }
    ensures whole { IfOk result (λ status. ScriptYields options.now (Some text.now)
        status (W.contents output.old) (W.contents output.new)) }
{
    let room = text.len().clamp(1, READ_AT_ONCE);
    run_by(alloc, options, false, room, text, output, &mut io::sink())
}
