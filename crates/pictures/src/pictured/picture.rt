//! The picture of frames.

ghost use Rattle.std.specs.Prelude.{◌≡◌, ◌≤◌, ◌<◌, ◌^◌, IfOk, OnOk, length, codes};
ghost use Rattle.pictures.specs.Bars.{denial_marks, denials_from, with_marks, with_lane, with_lanes, lane_count, most_frames, picture_by};
ghost use Rattle.pictures.specs.declared.pictured.picture.TheConstants.{MOST_FRAMES};

use crate::pictured::ending::is_denial;
use crate::pictured::lane::{LANES, Lane, lane_at, lane_name};
use crate::pictured::lanes::{add_bars, is_seen};
use crate::samples::Frame;
use basics::Bytes;
use drawing::{Mark, Picture};
use std::alloc::{AllocError, Global};

/// How many frames are drawn at most: that of the opening, and those of 2,000 lines.
pub const MOST_FRAMES: usize = 2001;

/// Adds the mark of a denial, where a frame has one.
fn add_denial(picture: &mut Picture, at: u32, frame: &Frame) -> Result<(), AllocError>
    ensures { OnOk result (picture.new ≡ with_marks (denial_marks at frame.now) picture.old) }
{
    if is_denial(frame.last.as_slice()) {
        let says = frame.last.copy()?;
        picture.add_mark(Mark { row: 0, at, says })?;
    }
    Ok(())
}

/// Adds the marks of the denials.
fn add_denials(picture: &mut Picture, frames: &[Frame]) -> Result<(), AllocError>
    requires { length frames.now ≤ most_frames }
    ensures { OnOk result (picture.new ≡ with_marks (denials_from 0 frames.now) picture.old) }
{
    for (place, frame) in frames.iter().enumerate() {
        add_denial(picture, place as u32, frame)?;
    }
    Ok(())
}

/// Adds the row of a lane, where the lane shows something.
fn add_lane(
    alloc: Global,
    picture: &mut Picture,
    lane: Lane,
    frames: &[Frame],
) -> Result<(), AllocError>
    requires { length frames.now ≤ most_frames }
    ensures { OnOk result (picture.new ≡ with_lane frames.now lane picture.old) }
{
    if !is_seen(lane, frames) {
        return Ok(());
    }
    let row = picture.add_row(lane_name(alloc, lane)?)?;
    add_bars(alloc, picture, lane, row, frames)
}

/// Adds the rows of all lanes.
fn add_lanes(alloc: Global, picture: &mut Picture, frames: &[Frame]) -> Result<(), AllocError>
    requires { length frames.now ≤ most_frames }
    ensures { OnOk result (picture.new ≡ with_lanes frames.now lane_count picture.old) }
{
    for place in 0..LANES {
        add_lane(alloc, picture, lane_at(place), frames)?;
    }
    Ok(())
}

/// The picture of frames, one column for each: a row of the denials, and one of each lane that shows something.
///
/// # Errors
///
/// An allocation was refused.
pub fn picture_of(alloc: Global, title: Bytes, frames: &[Frame]) -> Result<Picture, AllocError>
    requires { length frames.now ≤ MOST_FRAMES }
    ensures { IfOk result (λ picture. picture ≡ picture_by title frames.now) }
{
    let mut picture = Picture::new(alloc, title, frames.len() as u32);
    let name = Vec::from_slice(alloc, b"denied")?;
    picture.add_row(Bytes::from_vec(name))?;
    add_denials(&mut picture, frames)?;
    add_lanes(alloc, &mut picture, frames)?;
    Ok(picture)
}
