//! A whole script, run from a reader to a writer, with the frames that its lines leave behind.

ghost use Rattle.std.specs.Prelude.{◌≡◌, ◌≤◌, ◌⊎◌, [], Ok, Err, IfOk, OnOk};
ghost use Rattle.std.specs.Io.Buffered.{reader_buffer, reader_remaining};
ghost use Rattle.std.specs.Io.KnownBytes.{Appends};
ghost use Rattle.history.specs.Opening.{Origin};
ghost use Rattle.tool.specs.Courses.{Course, PhaseRunsOn, PhaseStands};
ghost use Rattle.tool.specs.Ends.{exit_status};
ghost use Rattle.tool.specs.Openings.{opens_with};
ghost use Rattle.tool.specs.Outcomes.{YieldsBy};
ghost use Rattle.tool.specs.Progress.{HandsOn, Steps, step_or_skip};
ghost use Rattle.tool.specs.Scripts.{IsAtHand, LeavesNobodyWaiting, may_hold_remarks, bare};
ghost use Rattle.tool.specs.declared.ending.RunError.{RunError};
ghost use Rattle.runs.specs.declared.recorded.error.RecordError.TheVariants.{Run};
ghost use Rattle.runs.specs.Progress.{FrontLeads, FrontStands, HoldsMore, LinesEnd, OpenedEnds, Records, ScriptEnds, frames_made, line_at};

use crate::recorded::error::RecordError;
use crate::recorded::front::{Front, FrontTurn};
use crate::recorded::look::{record_line, record_opening};
use crate::recorded::recorder::Recorder;
use script_lines::Report;
use std::alloc::Global;
use std::io::{BufReader, Read, Write};
use tool::{
    End, Options, Phase, RunError, Turn, answer, line_at_hand, lines_of, may_hold_remarks,
    read_line, tell, tell_abort, without_end,
};

/// The most lines that are read.
const READ_LIMIT: u64 = 4_294_967_296;

/// What the lines in front come to.
#[derive(Drop)]
enum Opened {
    /// The script ended.
    Ended(End),
    /// So many lines stood in front, and the one behind them runs.
    Runs { run: Phase, lines: u64 },
}

/// Does the lines in front from the line at hand on, and reads the line behind them.
fn front_lines<R: Read + Drop>(
    alloc: Global,
    options: &Options,
    explains: bool,
    remarks: bool,
    reader: &mut BufReader<R>,
    report: &Report,
    line: &mut Vec<u8>,
) -> Result<Opened, RunError>
    requires { report.now.pending.items ≡ [] }
    ensures stands { IfOk result FrontStands }
    ensures leads { IfOk result (λ opened.
        FrontLeads explains remarks opened (opens_with options.now) line.old.items
        (reader_remaining R.remaining reader.old)
        line.new.items (reader_remaining R.remaining reader.new)) }
{
    let mut front = Front::new(options, remarks);
    for number in 0..READ_LIMIT {
        match front.turn(alloc, explains, remarks, without_end(line))? {
            FrontTurn::Goes(next) => front = next,
            FrontTurn::Runs(run) => return Ok(Opened::Runs { run, lines: number }),
            FrontTurn::Bad(fault) => {
                let line = number + 1;
                return Ok(Opened::Ended(End::Bad { line, fault }));
            }
        }
        if !read_line(reader, line_at_hand(reader), line, report)? {
            return Ok(Opened::Ended(End::Done));
        }
    }
    Err(RunError::ReadLimit)
}

/// Does what one line says, and records what it left behind, where it printed something. A line that prints nothing does
/// nothing.
fn turn<K: Recorder>(
    alloc: Global,
    run: &mut Phase,
    remarks: bool,
    number: u64,
    text: &[u8],
    report: &mut Report,
    recorder: &mut K,
) -> Result<Turn, RecordError>
    requires { PhaseStands run.old }
    ensures steps { IfOk result (λ turn. (o : Origin) (course : Course)
        → PhaseRunsOn run.old o course
        → Steps turn
        (step_or_skip remarks o course report.old.last.items (line_at number text.now))
        run.new o report.old report.new) }
    ensures keeps { IfOk result (λ _. (o : Origin) (course : Course) → PhaseRunsOn run.old o course
        → HoldsMore (frames_made o report.old.last.items (line_at number text.now)
        (step_or_skip remarks o course report.old.last.items (line_at number text.now)))
        (λ base came. K.holds base recorder.old came)
        (λ base came. K.holds base recorder.new came)) }
{
    let pending = report.pending.len();
    let turn = run.turn_or_skip(remarks, number, text, report)?;
    record_line(alloc, run, number, text, pending, report, recorder)?;
    Ok(turn)
}

/// Hands on what is printed and what is recorded where the next read could wait.
fn hand_on<R: Read + Drop, W: Write, K: Recorder>(
    reader: &BufReader<R>,
    report: &mut Report,
    output: &mut W,
    recorder: &mut K,
) -> Result<Option<usize>, RecordError>
    ensures at_hand { IfOk result (IsAtHand (reader_buffer reader.now)) }
    ensures answered { OnOk result (LeavesNobodyWaiting (reader_buffer reader.now)
        report.new.pending.items) }
    ensures written { OnOk result
        (HandsOn (W.contents output.old) (W.contents output.new) report.old.pending.items
        report.new.pending.items) }
    ensures last { report.new.last ≡ report.old.last }
    ensures keeps { OnOk result (HoldsMore [] (λ base came. K.holds base recorder.old came)
        (λ base came. K.holds base recorder.new came)) }
{
    let at_hand = answer(reader, report, output)?;
    if at_hand.is_none() {
        recorder.hand_on()?;
    }
    Ok(at_hand)
}

/// Does the line at hand, behind so many others, and those behind it.
fn running_lines<R: Read + Drop, W: Write, E: Write, K: Recorder>(
    alloc: Global,
    run: &mut Phase,
    remarks: bool,
    lines: u64,
    reader: &mut BufReader<R>,
    report: &mut Report,
    line: &mut Vec<u8>,
    output: &mut W,
    faults: &mut E,
    recorder: &mut K,
) -> Result<End, RecordError>
    requires { PhaseStands run.old }
    ensures { IfOk result (λ end.
        LinesEnd remarks lines run.old line.old.items (reader_remaining R.remaining reader.old) end
        report.old report.new (W.contents output.old) (W.contents output.new)
        (λ base came. K.holds base recorder.old came)
        (λ base came. K.holds base recorder.new came)) }
{
    for before in lines..READ_LIMIT {
        let number = before + 1;
        let text = without_end(line);
        match turn(alloc, run, remarks, number, text, report, recorder)? {
            Turn::Goes { aborted } => tell_abort(aborted, number, faults)?,
            Turn::ExpectationFailed => return Ok(End::ExpectationFailed { line: number }),
            Turn::Bad(fault) => {
                return Ok(End::Bad {
                    line: number,
                    fault,
                });
            }
        }
        let at_hand = hand_on(reader, report, output, recorder)?;
        if !read_line(reader, at_hand, line, report)? {
            return Ok(End::Done);
        }
    }
    Err(RecordError::Run(RunError::ReadLimit))
}

/// Records the opening, and does the line at hand and those behind it.
fn opened_lines<R: Read + Drop, W: Write, E: Write, K: Recorder>(
    alloc: Global,
    run: &mut Phase,
    remarks: bool,
    lines: u64,
    reader: &mut BufReader<R>,
    report: &mut Report,
    line: &mut Vec<u8>,
    output: &mut W,
    faults: &mut E,
    recorder: &mut K,
) -> Result<End, RecordError>
    requires stands { PhaseStands run.old }
    requires last { report.old.last.items ≡ [] }
    ensures { IfOk result (λ end.
        OpenedEnds remarks lines run.old line.old.items (reader_remaining R.remaining reader.old)
        end report.old report.new (W.contents output.old) (W.contents output.new)
        (λ base came. K.holds base recorder.old came)
        (λ base came. K.holds base recorder.new came)) }
{
    record_opening(alloc, run, recorder)?;
    running_lines(
        alloc, run, remarks, lines, reader, report, line, output, faults, recorder,
    )
}

/// Records the opening, does the line at hand and those behind it, and then lets the drive, or the port, go.
fn remaining_lines<R: Read + Drop, W: Write, E: Write, K: Recorder>(
    alloc: Global,
    mut run: Phase,
    remarks: bool,
    lines: u64,
    reader: &mut BufReader<R>,
    report: &mut Report,
    line: &mut Vec<u8>,
    output: &mut W,
    faults: &mut E,
    recorder: &mut K,
) -> Result<End, RecordError>
    requires stands { PhaseStands run }
    requires last { report.old.last.items ≡ [] }
    ensures { IfOk result (λ end.
        OpenedEnds remarks lines run line.old.items (reader_remaining R.remaining reader.old) end
        report.old report.new (W.contents output.old) (W.contents output.new)
        (λ base came. K.holds base recorder.old came)
        (λ base came. K.holds base recorder.new came)) }
{
    let end = opened_lines(
        alloc, &mut run, remarks, lines, reader, report, line, output, faults, recorder,
    );
    drop(run);
    end
}

/// Does the lines of a script, and hands on most of what they print and leave behind.
fn all_lines<R: Read + Drop, W: Write, E: Write, K: Recorder>(
    alloc: Global,
    options: &Options,
    explains: bool,
    reader: &mut BufReader<R>,
    report: &mut Report,
    line: &mut Vec<u8>,
    output: &mut W,
    faults: &mut E,
    recorder: &mut K,
) -> Result<End, RecordError>
    requires pending { report.old.pending.items ≡ [] }
    requires last { report.old.last.items ≡ [] }
    ensures { IfOk result (λ end.
        ScriptEnds explains options.now (reader_remaining R.remaining reader.old) end
        report.old report.new (W.contents output.old) (W.contents output.new)
        (λ base came. K.holds base recorder.old came)
        (λ base came. K.holds base recorder.new came)) }
{
    if !read_line(reader, line_at_hand(reader), line, report)? {
        return Ok(End::Done);
    }
    let remarks = may_hold_remarks(without_end(line));
    match front_lines(alloc, options, explains, remarks, reader, report, line)? {
        Opened::Ended(end) => Ok(end),
        Opened::Runs { run, lines } => remaining_lines(
            alloc, run, remarks, lines, reader, report, line, output, faults, recorder,
        ),
    }
}

/// Hands on what is pending, and what is recorded, whatever ended the lines.
fn hand_on_behind<W: Write, K: Recorder>(
    end: Result<End, RecordError>,
    report: &mut Report,
    output: &mut W,
    recorder: &mut K,
) -> Result<End, RecordError>
    ensures last { report.new.last ≡ report.old.last }
    ensures is { IfOk result (λ e. end ≡ Ok e) }
    ensures cleared { report.new.pending.items ≡ [] }
    ensures written { OnOk result (Appends (W.contents output.old) (W.contents output.new)
        report.old.pending.items) }
    ensures told { Appends (W.contents output.old) (W.contents output.new)
        report.old.pending.items ⊎ (result ≡ Err (Run RunError.Write)) }
    ensures keeps { OnOk result (HoldsMore [] (λ base came. K.holds base recorder.old came)
        (λ base came. K.holds base recorder.new came)) }
{
    if report.hand_on(output).is_err() {
        return Err(RecordError::Run(RunError::Write));
    }
    recorder.hand_on()?;
    end
}

/// Runs the script that a reader gives, as `tool::run_script_with_faults` does, and hands the recorder what each line
/// leaves behind.
///
/// # Errors
///
/// Those of a run, and those of the recorder.
pub fn record_script<R: Read + Drop, W: Write, E: Write, K: Recorder>(
    alloc: Global,
    input: R,
    output: &mut W,
    faults: &mut E,
    recorder: &mut K,
    options: &Options,
    explains: bool,
) -> Result<u8, RecordError>
    ensures most { IfOk result (λ status. status ≤ 2) }
    ensures whole { IfOk result (λ status. YieldsBy explains options.now (R.remaining input)
        status (W.contents output.old) (W.contents output.new)) }
    ensures records { IfOk result (λ status. Records explains options.now (R.remaining input)
        status (W.contents output.old) (W.contents output.new)
        (λ base came. K.holds base recorder.old came)
        (λ base came. K.holds base recorder.new came)) }
{
    let mut reader = lines_of(alloc, input)?;
    let mut report = Report::new(alloc);
    let mut line = Vec::new(alloc);
    let end = all_lines(
        alloc,
        options,
        explains,
        &mut reader,
        &mut report,
        &mut line,
        output,
        faults,
        recorder,
    );
    let end = hand_on_behind(end, &mut report, output, recorder)?;
    let status = tell(end, without_end(&line), &report.last, faults)?;
    Ok(status)
}
