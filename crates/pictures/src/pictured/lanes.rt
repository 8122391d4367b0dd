//! The bars of a lane.

ghost use Rattle.std.specs.Prelude.{◌≡◌, ◌≤◌, ◌<◌, ◌+◌, ◌^◌, None, length, slice_get, option_copied, IfOk, OnOk};
ghost use Rattle.pictures.specs.Bars.{lasting, ending_at, paint_by, words_by, bar_at, begun_at, bars_from, is_seen, with_bars, most_frames};

use crate::pictured::ending::ending_of;
use crate::pictured::lane::{Lane, lane_paint, lane_word};
use crate::pictured::look::{Look, is_shown, locks_paint, locks_word, look_at};
use crate::samples::Frame;
use basics::Bytes;
use drawing::{Bar, Paint, Picture};
use std::alloc::{AllocError, Global};

/// How many of the frames from a place on still show this.
fn lasting(lane: Lane, look: Look, at: u32, frames: &[Frame]) -> u32
    requires { at + length frames.now < 2 ^ 32 }
    ensures value { result ≡ lasting lane look at frames.now }
    ensures most { result ≤ length frames.now }
{
    for (place, frame) in frames.iter().enumerate() {
        let count = place as u32;
        if !is_shown(look, look_at(lane, at + count, frame)) {
            return count;
        }
    }
    frames.len() as u32
}

/// How a command ended, by the frame at which it is gone.
fn ending_at(frame: Option<&Frame>) -> Paint
    ensures { result ≡ ending_at (option_copied frame.entry) }
{
    match frame {
        Some(frame) => ending_of(frame.last.as_slice()),
        None => Paint::Waiting,
    }
}

/// The colour of a bar, by what it shows and the first frame that shows it no more.
fn paint_by(lane: Lane, look: Look, frame: &Frame, next: Option<&Frame>) -> Paint
    ensures { result ≡ paint_by lane look frame.now (option_copied next.entry) }
{
    match look {
        Look::Line(_) => ending_of(frame.last.as_slice()),
        Look::Command(_) => ending_at(next),
        Look::Locked(locks) => locks_paint(locks),
        Look::Up => lane_paint(lane),
    }
}

/// What a bar says.
fn words_by<'a>(lane: Lane, look: Look, frame: &'a Frame) -> &'a [u8]
    ensures { result.now ≡ words_by lane look frame.now }
{
    match look {
        Look::Line(_) | Look::Command(_) => frame.line.as_slice(),
        Look::Locked(locks) => locks_word(locks),
        Look::Up => lane_word(lane),
    }
}

/// The bar of what a lane shows from a frame on.
fn bar_at(
    alloc: Global,
    lane: Lane,
    row: u32,
    at: u32,
    frame: &Frame,
    frames: &[Frame],
    look: Look,
) -> Result<Bar, AllocError>
    requires { at + 1 + length frames.now < 2 ^ 32 }
    ensures { IfOk result (λ bar. bar ≡ bar_at lane row at frame.now frames.now look) }
{
    let count = lasting(lane, look, at + 1, frames);
    let words = Vec::from_slice(alloc, words_by(lane, look, frame))?;
    Ok(Bar {
        row,
        from: at,
        columns: 1 + count,
        paint: paint_by(lane, look, frame, frames.get(count as usize)),
        says: Bytes::from_vec(words),
    })
}

/// Adds the bar that begins at a frame, if one does.
fn add_begun(
    alloc: Global,
    picture: &mut Picture,
    lane: Lane,
    row: u32,
    shown: Option<Look>,
    at: u32,
    frame: &Frame,
    frames: &[Frame],
    look: Option<Look>,
) -> Result<(), AllocError>
    requires { at + 1 + length frames.now < 2 ^ 32 }
    ensures { OnOk result (picture.new
        ≡ with_bars (begun_at lane row shown at frame.now frames.now look) picture.old) }
{
    let Some(look) = look else {
        return Ok(());
    };
    if !is_shown(look, shown) {
        picture.add_bar(bar_at(alloc, lane, row, at, frame, frames, look)?)?;
    }
    Ok(())
}

/// Adds the bars of a lane.
pub(crate) fn add_bars(
    alloc: Global,
    picture: &mut Picture,
    lane: Lane,
    row: u32,
    frames: &[Frame],
) -> Result<(), AllocError>
    requires { length frames.now ≤ most_frames }
    ensures { OnOk result
        (picture.new ≡ with_bars (bars_from lane row None 0 frames.now) picture.old) }
{
    let mut shown = None;
    for (place, frame) in frames.iter().enumerate() {
        let at = place as u32;
        let look = look_at(lane, at, frame);
        let behind = &frames[place + 1..];
        add_begun(alloc, picture, lane, row, shown, at, frame, behind, look)?;
        shown = look;
    }
    Ok(())
}

/// Whether a lane shows something at one of the frames.
pub(crate) fn is_seen(lane: Lane, frames: &[Frame]) -> bool
    requires { length frames.now ≤ most_frames }
    ensures { result ≡ is_seen lane 0 frames.now }
{
    for (place, frame) in frames.iter().enumerate() {
        if look_at(lane, place as u32, frame).is_some() {
            return true;
        }
    }
    false
}
