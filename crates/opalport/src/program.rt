//! What the program does with the words of its command line.

ghost use Rattle.std.specs.Prelude.{◌≡◌, ◌≢◌, ◌≤◌, IfOk, MatchOption, map, string_bytes};
ghost use Rattle.clap.specs.Words.{kind_of};
ghost use Rattle.tool.specs.OptionTexts.{IsOfDrive, WritesConfig, drive_text};
ghost use Rattle.tool.specs.Outcomes.{YieldsBy};
ghost use Rattle.opalport.specs.Program.{WritesLimitedConfig, EndsByWords, DrawEnds, JudgeEnds, JudgesOn, RunEnds, Level0Ends, ThreadsEnd, TokensEnd, Ends};

use crate::command_line::{JudgeTexts, LoadTexts, Request, RunTexts, TokenTexts, request_of};
use crate::controller::serve_controller;
use crate::error::ProgramError;
use crate::exploration::explore;
use clap::error::ErrorKind;
use decoded::run_decode;
use judged::{FreedomFault, Freedoms, Terms, judge_transcript};
use port_threads::{Load, LoadError, run_load};
use runs::recorded::{RecordError, draw_script, run_script_with_dump};
use std::alloc::Global;
use std::fs;
use std::fs::Files;
use std::io::{Read, Write};
use std::sync::Wait;
use std::thread::Threads;
use tool::{
    DriveTexts, Options, OptionsFault, RunError, run_explained_script, run_level0,
    run_script_with_faults, run_tokens_with_faults,
};

/// Runs a script, with reasons or without.
fn run_plainly<R: Read + Drop, W: Write, E: Write>(
    alloc: Global,
    options: &Options,
    explains: bool,
    input: R,
    output: &mut W,
    faults: &mut E,
) -> Result<u8, RunError>
    ensures most { IfOk result (λ status. status ≤ 2) }
    ensures ends { IfOk result (λ status. YieldsBy explains options.now (R.remaining input)
        status (W.contents output.old) (W.contents output.new)) }
{
    if explains {
        return run_explained_script(alloc, input, output, faults, options);
    }
    run_script_with_faults(alloc, input, output, faults, options)
}

/// Runs a script, and writes its waveforms to the file that is named, where one is.
fn run_on<F: Files, R: Read + Drop, W: Write, E: Write>(
    files: &F,
    alloc: Global,
    options: &Options,
    texts: &RunTexts<'_>,
    input: R,
    output: &mut W,
    faults: &mut E,
) -> Result<u8, ProgramError>
    ensures most { IfOk result (λ status. status ≤ 2) }
    ensures ends { IfOk result (λ status. YieldsBy texts.now.explains options.now
        (R.remaining input) status (W.contents output.old) (W.contents output.new)) }
{
    let explains = texts.explains;
    if texts.vcd.is_empty() {
        let status = run_plainly(alloc, options, explains, input, output, faults)?;
        return Ok(status);
    }
    let file = fs::create(files, texts.vcd).map_err(|_| ProgramError::DumpFile)?;
    let (status, _) = run_script_with_dump(alloc, input, output, faults, file, options, explains)?;
    Ok(status)
}

/// The options that texts write; `None` where they write none, and then `faults` is told why.
///
/// # Errors
///
/// An allocation was refused, or the writer failed.
pub(crate) fn options_in<E: Write>(
    alloc: Global,
    texts: &DriveTexts<'_>,
    faults: &mut E,
) -> Result<Option<Options>, RunError>
    ensures { IfOk result (λ found.
        MatchOption found (WritesLimitedConfig (drive_text texts.now) → ⊥)
        (λ options. WritesConfig (drive_text texts.now) options × IsOfDrive options)) }
{
    match Options::parse(alloc, texts) {
        Ok(options) => Ok(Some(options)),
        Err(OptionsFault::OutOfMemory) => Err(RunError::Memory),
        Err(fault) => {
            writeln!(faults, "error: {fault}").map_err(|_| RunError::Write)?;
            Ok(None)
        }
    }
}

/// Runs a script on the drive that the options open, and gives the status.
fn run<F: Files, R: Read + Drop, W: Write, E: Write>(
    files: &F,
    alloc: Global,
    texts: &RunTexts<'_>,
    input: R,
    output: &mut W,
    faults: &mut E,
) -> Result<u8, ProgramError>
    ensures most { IfOk result (λ status. status ≤ 2) }
    ensures ends { IfOk result (λ status. RunEnds texts.now.explains (drive_text texts.now.drive)
        (R.remaining input) status (W.contents output.old) (W.contents output.new)) }
{
    let Some(options) = options_in(alloc, &texts.drive, faults)? else {
        return Ok(2);
    };
    run_on(files, alloc, &options, texts, input, output, faults)
}

/// Draws the run of a script on the drive that the options open, and gives the status.
fn draw<R: Read + Drop, W: Write, E: Write>(
    alloc: Global,
    drive: &DriveTexts<'_>,
    input: R,
    output: &mut W,
    faults: &mut E,
) -> Result<u8, RecordError>
    ensures most { IfOk result (λ status. status ≤ 2) }
    ensures ends { IfOk result (λ status. DrawEnds (drive_text drive.now) (R.remaining input)
        status (W.contents output.old) (W.contents output.new)) }
{
    let Some(options) = options_in(alloc, drive, faults)? else {
        return Ok(2);
    };
    draw_script(alloc, input, output, faults, &options)
}

/// Judges what another drive answered to a script, with the freedoms of these names, and gives the status.
fn judge_on<R: Read + Drop, W: Write, E: Write>(
    alloc: Global,
    options: &Options,
    strict: bool,
    names: &[&str],
    quiet: bool,
    input: R,
    output: &mut W,
    faults: &mut E,
) -> Result<u8, RunError>
    ensures most { IfOk result (λ status. status ≤ 2) }
    ensures ends { IfOk result (λ status. JudgesOn options.now strict (map (λ s. s.now) names.now)
        quiet (R.remaining input) status (W.contents output.old) (W.contents output.new)) }
{
    match Freedoms::asked(alloc, strict, names) {
        Ok(freedoms) => {
            let terms = Terms { freedoms, quiet };
            judge_transcript(alloc, input, output, faults, options, &terms)
        }
        Err(FreedomFault::OutOfMemory) => Err(RunError::Memory),
        Err(fault) => {
            writeln!(faults, "error: {fault}").map_err(|_| RunError::Write)?;
            Ok(2)
        }
    }
}

/// Judges what another drive answered to a script by the drive that the options open, and gives the status.
fn judge<R: Read + Drop, W: Write, E: Write>(
    alloc: Global,
    texts: &JudgeTexts<'_>,
    input: R,
    output: &mut W,
    faults: &mut E,
) -> Result<u8, RunError>
    ensures most { IfOk result (λ status. status ≤ 2) }
    ensures ends { IfOk result (λ status. JudgeEnds (drive_text texts.now.drive)
        (map (λ s. s.now) texts.now.freedoms.items) texts.now.strict texts.now.quiet
        (R.remaining input) status (W.contents output.old) (W.contents output.new)) }
{
    let Some(options) = options_in(alloc, &texts.drive, faults)? else {
        return Ok(2);
    };
    let names = texts.freedoms.as_slice();
    judge_on(
        alloc,
        &options,
        texts.strict,
        names,
        texts.quiet,
        input,
        output,
        faults,
    )
}

/// Prints the Level 0 discovery of a new drive, and gives the status.
fn level0<W: Write, E: Write>(
    alloc: Global,
    drive: &DriveTexts<'_>,
    output: &mut W,
    faults: &mut E,
) -> Result<u8, RunError>
    ensures most { IfOk result (λ status. status ≤ 2) }
    ensures ends { IfOk result (λ status. Level0Ends (drive_text drive.now) status
        (W.contents output.old) (W.contents output.new)) }
{
    let Some(options) = options_in(alloc, drive, faults)? else {
        return Ok(2);
    };
    run_level0(alloc, output, &options)
}

/// Runs clients and an engine at one port, prints what they tell, and gives the status.
fn threads<R: Threads + Wait + Sync, W: Write, E: Write>(
    rt: &R,
    alloc: Global,
    load: &LoadTexts<'_>,
    output: &mut W,
    faults: &mut E,
) -> Result<u8, LoadError>
    ensures most { IfOk result (λ status. status ≤ 2) }
    ensures ends { IfOk result (λ status. ThreadsEnd load.now.clients.now load.now.rounds.now
        status (W.contents output.old) (W.contents output.new)) }
{
    match Load::parse(load.clients.as_bytes(), load.rounds.as_bytes()) {
        Ok(load) => run_load(rt, alloc, load.blank(), output, &load),
        Err(fault) => {
            writeln!(faults, "error: {fault}").map_err(|_| LoadError::Write)?;
            Ok(2)
        }
    }
}

/// Tells a token stream as text, and gives the status.
fn tokens<W: Write, E: Write>(
    alloc: Global,
    texts: &TokenTexts<'_>,
    output: &mut W,
    faults: &mut E,
) -> Result<u8, RunError>
    ensures { IfOk result (λ status. TokensEnd texts.now.hex.now texts.now.naming status
        (W.contents output.old)
        (W.contents output.new)) }
{
    let status = run_tokens_with_faults(alloc, texts.hex, texts.naming, output, faults)?;
    Ok(status)
}

/// Prints the help or the version that the words ask for, or tells what is wrong with them, and gives the status.
fn tell<W: Write, E: Write>(
    error: &clap::Error,
    output: &mut W,
    faults: &mut E,
) -> Result<u8, RunError>
    ensures told { IfOk result (λ status. EndsByWords (kind_of error.now) status
        (W.contents output.old)
        (W.contents output.new)) }
    ensures memory { IfOk result (λ _. kind_of error.now ≢ ErrorKind.OutOfMemory) }
{
    match error.kind() {
        ErrorKind::OutOfMemory => Err(RunError::Memory),
        ErrorKind::DisplayHelp => {
            write!(output, "{error}").map_err(|_| RunError::Write)?;
            Ok(0)
        }
        ErrorKind::DisplayVersion => {
            write!(output, "{error}").map_err(|_| RunError::Write)?;
            Ok(0)
        }
        _ => {
            write!(faults, "{error}").map_err(|_| RunError::Write)?;
            Ok(2)
        }
    }
}

/// Does what the words of a command line ask for, and gives the status: 0 done, 1 an expectation
/// failed, 2 a bad line or bad usage. Faults are written to `faults`, and all else to `output`.
///
/// # Errors
///
/// An allocation was refused, the reader or a writer failed, or no thread could be started.
pub fn ends<T: Threads + Wait + Sync + Files, R: Read + Drop, W: Write, E: Write>(
    rt: &T,
    alloc: Global,
    words: &[String],
    input: R,
    output: &mut W,
    faults: &mut E,
) -> Result<u8, ProgramError>
    ensures most { IfOk result (λ status. status ≤ 2) }
    ensures ends { IfOk result (λ status. Ends R.remaining W.contents (map string_bytes words.now)
        (R.remaining input) status (W.contents output.old) (W.contents output.new)) }
{
    match request_of(alloc, words) {
        Ok(Some(Request::Run(texts))) => run(rt, alloc, &texts, input, output, faults),
        Ok(Some(Request::Draw(drive))) => Ok(draw(alloc, &drive, input, output, faults)?),
        Ok(Some(Request::Level0(drive))) => Ok(level0(alloc, &drive, output, faults)?),
        Ok(Some(Request::Threads(load))) => Ok(threads(rt, alloc, &load, output, faults)?),
        Ok(Some(Request::Tokens(texts))) => Ok(tokens(alloc, &texts, output, faults)?),
        Ok(Some(Request::Decode(texts))) => {
            let status = run_decode(alloc, texts.kind, texts.hex, input, output, faults)?;
            Ok(status)
        }
        Ok(Some(Request::Hba(texts))) => {
            serve_controller(rt, alloc, &texts, input, output, faults)
        }
        Ok(Some(Request::Explore(texts))) => {
            let status = explore(rt, alloc, &texts, input, output, faults)?;
            Ok(status)
        }
        Ok(Some(Request::Judge(texts))) => Ok(judge(alloc, &texts, input, output, faults)?),
        Ok(None) => Ok(2),
        Err(error) => Ok(tell(&error, output, faults)?),
    }
}
