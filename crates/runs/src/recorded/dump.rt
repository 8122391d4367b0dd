//! A value change dump that is written as a run goes.

ghost use Rattle.std.specs.Prelude.{◌≡◌, ◌≤◌, IfOk, IfSome, OnOk};
ghost use Rattle.std.specs.Io.KnownBytes.{Appends};
ghost use Rattle.tool.specs.Outcomes.{YieldsBy};
ghost use Rattle.pictures.specs.Dumps.{dump_text};
ghost use Rattle.runs.specs.Recordings.{recording_by};

use crate::recorded::error::RecordError;
use crate::recorded::recorder::Recorder;
use crate::recorded::script::record_script;
use pictures::samples::{Frame, Sample};
use pictures::waved::append_frame;
use script_lines::write_whole;
use std::alloc::{AllocError, Global};
use std::io;
use std::io::{Read, Write};
use tool::Options;

/// How many bytes of a dump wait at most while whole lines stand in the reader's buffer.
const MOST_PENDING: usize = 65_536;

/// A dump that is written as a run goes.
#[derive(Drop)]
pub struct Dump<D> {
    alloc: Global,
    /// What the last look showed.
    shown: Option<Sample>,
    pending: Vec<u8>,
    out: D,
}

impl<D: Write + Drop> Dump<D> {
    ghost use Rattle.std.specs.Prelude.{◌≡◌, ◌++◌, [], Some, None, OnOk};
    ghost use Rattle.std.specs.Io.KnownBytes.{Appends};
    ghost use Rattle.pictures.specs.Dumps.{frame_text};

    /// A dump of no frames.
    pub fn new(alloc: Global, out: D) -> Dump<D>
        ensures out { result.out ≡ out }
        ensures shown { result.shown ≡ None }
        ensures pending { result.pending.items ≡ [] }
    {
        Dump {
            alloc,
            shown: None,
            pending: Vec::new(alloc),
            out,
        }
    }

    /// The writer.
    pub fn into_inner(self) -> D
        ensures { result ≡ self.out }
    {
        self.out
    }

    /// Appends what a frame adds.
    fn append(&mut self, frame: Frame) -> Result<(), AllocError>
        ensures out { self.new.out ≡ self.old.out }
        ensures pending { OnOk result (self.new.pending.items
            ≡ self.old.pending.items ++ frame_text self.old.shown frame) }
        ensures shown { OnOk result (self.new.shown ≡ Some frame.sample) }
    {
        append_frame(self.alloc, &mut self.pending, self.shown.as_ref(), &frame)?;
        self.shown = Some(frame.sample);
        Ok(())
    }

    /// Writes what is pending. Nothing is pending then, also where the writer failed.
    fn write(&mut self) -> Result<(), RecordError>
        ensures shown { self.new.shown ≡ self.old.shown }
        ensures cleared { self.new.pending.items ≡ [] }
        ensures written { OnOk result (Appends (D.contents self.old.out) (D.contents self.new.out)
            self.old.pending.items) }
    {
        if self.pending.is_empty() {
            return Ok(());
        }
        let written = write_whole(&mut self.out, &self.pending);
        self.pending.clear();
        written.map_err(|_| RecordError::Dump)
    }
}

impl<D: Write + Drop> Recorder for Dump<D> {
    ghost use Rattle.std.specs.Prelude.{◌≡◌};
    ghost use Rattle.runs.specs.Dumped.{IsDumped};

    ghost holds = { λ before s frames. IsDumped before (D.contents s.out) s.shown s.pending.items
        frames };

    fn record(&mut self, frame: Frame) -> Result<(), RecordError> {
        self.append(frame)?;
        if self.pending.len() <= MOST_PENDING {
            return Ok(());
        }
        self.write()
    }

    fn hand_on(&mut self) -> Result<(), RecordError> {
        self.write()
    }
}

/// Runs the script that a reader gives, as `tool::run_script_with_faults` does, and writes the dump of the run as it
/// goes. It gives the status and the dump's writer.
///
/// # Errors
///
/// Those of a run, and that the dump could not be written.
pub fn run_script_with_dump<R: Read + Drop, W: Write, E: Write, D: Write + Drop>(
    alloc: Global,
    input: R,
    output: &mut W,
    faults: &mut E,
    out: D,
    options: &Options,
    explains: bool,
) -> Result<(u8, D), RecordError>
    ensures most { IfOk result (λ r. r.0 ≤ 2) }
    ensures whole { IfOk result (λ r. YieldsBy explains options.now (R.remaining input)
        r.0 (W.contents output.old) (W.contents output.new)) }
    ensures dump { IfOk result (λ r. IfSome (R.remaining input)
        (λ text. Appends (D.contents out) (D.contents r.1)
        (dump_text (recording_by explains options.now text).frames))) }
{
    let mut dump = Dump::new(alloc, out);
    let status = record_script(alloc, input, output, faults, &mut dump, options, explains)?;
    dump.write()?;
    Ok((status, dump.into_inner()))
}
