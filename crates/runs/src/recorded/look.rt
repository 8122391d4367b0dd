//! What a look at a run shows.

ghost use Rattle.std.specs.Prelude.{◌≡◌, ◌≤◌, ◌<◌, ◌∷◌, [], length, IfOk, OnOk};
ghost use Rattle.history.specs.Opening.{Origin};
ghost use Rattle.tool.specs.Courses.{Course, PhaseRunsOn};
ghost use Rattle.runs.specs.Frames.{sample_on, frame_by, opening_frame};
ghost use Rattle.runs.specs.Progress.{HoldsMore};

use crate::recorded::error::RecordError;
use crate::recorded::recorder::Recorder;
use basics::Bytes;
use pictures::samples::{Frame, Sample};
use script_lines::Report;
use std::alloc::{AllocError, Global};
use tool::Phase;

/// What a look at what runs shows.
fn sample_of(alloc: Global, run: &Phase) -> Result<Sample, AllocError>
    ensures { IfOk result (λ sample. (o : Origin) (course : Course) → PhaseRunsOn run.now o course
        → sample ≡ sample_on o course) }
{
    match run {
        Phase::Drive(drive) => Sample::of_drive(alloc, drive.drive()),
        Phase::Named(named) => Sample::of_drive(alloc, named.drive()),
        Phase::Port(desk) => Sample::of_port(alloc, desk.port()),
    }
}

/// What a line left behind, of this number and with this text, where this line was printed last.
fn frame_of(
    alloc: Global,
    run: &Phase,
    number: u64,
    text: &[u8],
    last: &[u8],
) -> Result<Frame, AllocError>
    ensures { IfOk result (λ frame. (o : Origin) (course : Course) → PhaseRunsOn run.now o course
        → frame ≡ frame_by o course number text.now last.now) }
{
    let sample = sample_of(alloc, run)?;
    let line = Vec::from_slice(alloc, text)?;
    let last = Vec::from_slice(alloc, last)?;
    Ok(Frame {
        number,
        line: Bytes::from_vec(line),
        last: Bytes::from_vec(last),
        sample,
    })
}

/// Records what an opening shows, before a line runs.
pub(crate) fn record_opening<K: Recorder>(
    alloc: Global,
    run: &Phase,
    recorder: &mut K,
) -> Result<(), RecordError>
    ensures { OnOk result ((o : Origin) (course : Course) → PhaseRunsOn run.now o course
        → HoldsMore (opening_frame o course ∷ []) (λ base came. K.holds base recorder.old came)
        (λ base came. K.holds base recorder.new came)) }
{
    let frame = frame_of(alloc, run, 0, b"", b"")?;
    recorder.record(frame)
}

/// Records what a line left behind, where more is pending than so many bytes. A line that prints nothing does nothing.
pub(crate) fn record_line<K: Recorder>(
    alloc: Global,
    run: &Phase,
    number: u64,
    text: &[u8],
    pending: usize,
    report: &Report,
    recorder: &mut K,
) -> Result<(), RecordError>
    ensures silent { OnOk result (length report.now.pending.items ≤ pending
        → HoldsMore [] (λ base came. K.holds base recorder.old came)
        (λ base came. K.holds base recorder.new came)) }
    ensures records { OnOk result (pending < length report.now.pending.items
        → (o : Origin) (course : Course) → PhaseRunsOn run.now o course
        → HoldsMore (frame_by o course number text.now report.now.last.items ∷ [])
        (λ base came. K.holds base recorder.old came)
        (λ base came. K.holds base recorder.new came)) }
{
    if report.pending.len() <= pending {
        return Ok(());
    }
    let frame = frame_of(alloc, run, number, text, &report.last)?;
    recorder.record(frame)
}
