//! The picture of a run.

ghost use Rattle.std.specs.Prelude.{◌≡◌, ◌≤◌, IfOk, OnOk};
ghost use Rattle.std.specs.Io.KnownBytes.{Appends};
ghost use Rattle.drawing.specs.Svg.{svg_text};
ghost use Rattle.pictures.specs.Bars.{picture_by};
ghost use Rattle.runs.specs.Pictures.{Draws, picture_title};

use crate::recorded::error::RecordError;
use crate::recorded::frames::Frames;
use crate::recorded::script::record_script;
use basics::Bytes;
use drawing::svg_of;
use pictures::pictured::{MOST_FRAMES, picture_of};
use pictures::samples::Frame;
use std::alloc::{AllocError, Global};
use std::io;
use std::io::{Read, Write};
use tool::{Options, write_text};

/// The words above a picture.
#[tactic(auto, unfolding(crate::specs::Pictures::picture_title))]
fn title(alloc: Global) -> Result<Bytes, AllocError>
    ensures { IfOk result (λ title. title ≡ picture_title) }
{
    let title = Vec::from_slice(alloc, b"The run of a script")?;
    Ok(Bytes::from_vec(title))
}

/// The picture of frames, as SVG.
fn drawn(alloc: Global, frames: &[Frame]) -> Result<Vec<u8>, RecordError>
    ensures { IfOk result (λ text. text.items ≡ svg_text (picture_by picture_title frames.now)) }
{
    if frames.len() > MOST_FRAMES {
        return Err(RecordError::Full);
    }
    let picture = picture_of(alloc, title(alloc)?, frames)?;
    let text = svg_of(alloc, &picture)?;
    Ok(text)
}

/// Runs the script that a reader gives, writes the picture of the run to `output`, and the fault that ended it to
/// `faults`, and gives the status of the run.
///
/// # Errors
///
/// Those of a run, and that the picture has no room for all its steps.
pub fn draw_script<R: Read + Drop, W: Write, E: Write>(
    alloc: Global,
    input: R,
    output: &mut W,
    faults: &mut E,
    options: &Options,
) -> Result<u8, RecordError>
    ensures most { IfOk result (λ status. status ≤ 2) }
    ensures draws { IfOk result (λ status. Draws options.now (R.remaining input)
        status (W.contents output.old) (W.contents output.new)) }
{
    let mut frames = Frames::new(alloc);
    let status = record_script(
        alloc,
        input,
        &mut io::sink(),
        faults,
        &mut frames,
        options,
        false,
    )?;
    let text = drawn(alloc, &frames.frames)?;
    write_text(output, &text)?;
    Ok(status)
}
