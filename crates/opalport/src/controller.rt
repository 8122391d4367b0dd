//! A controller that serves a host.

ghost use Rattle.std.specs.Prelude.{◌≤◌, IfOk, map};
ghost use Rattle.tool.specs.OptionTexts.{drive_text};
ghost use Rattle.opalport.specs.Program.{ControllerEnds, HbaEnds};

use crate::command_line::HbaTexts;
use crate::error::ProgramError;
use hba_program::hba_tool::{RangeFault, Way, drive_with_ranges, serve};
use hba_waves::Dump;
use std::alloc::Global;
use std::fs;
use std::fs::Files;
use std::io::{Read, Write};
use tool::{Options, OptionsFault, RunError};

/// Serves a host on the drive of a configuration and of ranges, and gives the status: 2 where a range is refused.
fn on_drive<R: Read + Drop, W: Write, E: Write, D: Write + Drop>(
    alloc: Global,
    options: &Options,
    ranges: &[&str],
    way: Way,
    dump: &mut Option<Dump<D>>,
    input: R,
    output: &mut W,
    faults: &mut E,
) -> Result<u8, ProgramError>
    ensures most { IfOk result (λ status. status ≤ 2) }
    ensures ends { IfOk result (λ status. ControllerEnds R.remaining W.contents way options.now
        (map (λ s. s.now) ranges.now) (R.remaining input) status (W.contents output.old)
        (W.contents output.new)) }
{
    match drive_with_ranges(alloc, options.config(), ranges) {
        Ok(drive) => Ok(serve(alloc, input, output, drive, way, dump)?),
        Err(RangeFault::OutOfMemory) => Err(ProgramError::Run(RunError::Memory)),
        Err(fault) => {
            writeln!(faults, "error: {fault}").map_err(|_| RunError::Write)?;
            Ok(2)
        }
    }
}

/// Serves a host on the drive of a configuration and of ranges, and writes its waveforms to the file that is named, where one
/// is.
fn serve_on<F: Files, R: Read + Drop, W: Write, E: Write>(
    files: &F,
    alloc: Global,
    options: &Options,
    texts: &HbaTexts<'_>,
    input: R,
    output: &mut W,
    faults: &mut E,
) -> Result<u8, ProgramError>
    ensures most { IfOk result (λ status. status ≤ 2) }
    ensures ends { IfOk result (λ status. ControllerEnds R.remaining W.contents texts.now.way
        options.now (map (λ s. s.now) texts.now.ranges.items) (R.remaining input) status
        (W.contents output.old) (W.contents output.new)) }
{
    let way = texts.way;
    let mut dump = None;
    if !texts.vcd.is_empty() {
        let file = fs::create(files, texts.vcd).map_err(|_| ProgramError::DumpFile)?;
        dump = Some(Dump::new(alloc, file));
    }
    let ranges = &texts.ranges;
    on_drive(
        alloc, options, ranges, way, &mut dump, input, output, faults,
    )
}

/// Serves a host on the drive that the options open, and gives the status: 2 where they open none.
pub(crate) fn serve_controller<F: Files, R: Read + Drop, W: Write, E: Write>(
    files: &F,
    alloc: Global,
    texts: &HbaTexts<'_>,
    input: R,
    output: &mut W,
    faults: &mut E,
) -> Result<u8, ProgramError>
    ensures most { IfOk result (λ status. status ≤ 2) }
    ensures ends { IfOk result (λ status. HbaEnds R.remaining W.contents texts.now.way
        (drive_text texts.now.drive) (map (λ s. s.now) texts.now.ranges.items)
        (R.remaining input) status (W.contents output.old) (W.contents output.new)) }
{
    match Options::parse(alloc, &texts.drive) {
        Ok(options) => serve_on(files, alloc, &options, texts, input, output, faults),
        Err(OptionsFault::OutOfMemory) => Err(ProgramError::Run(RunError::Memory)),
        Err(fault) => {
            writeln!(faults, "error: {fault}").map_err(|_| RunError::Write)?;
            Ok(2)
        }
    }
}
