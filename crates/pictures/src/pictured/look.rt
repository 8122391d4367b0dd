//! What a lane shows at a frame.

ghost use Rattle.std.specs.Prelude.{◌≡◌, ◌==◌, None, slice_get, option_copied};
ghost use Rattle.pictures.specs.Looks.{line_look, slot_look, up_where, range_look, locks_look, look_at, is_same, is_shown, locks_paint, locks_word};

use crate::pictured::lane::Lane;
use crate::samples::{Frame, Locks};
use drawing::Paint;
use port::Stage;

/// What a lane shows.
#[derive(Clone, Copy, Debug, PartialEq, Eq)]
pub(crate) enum Look {
    /// The line of the frame at this place.
    Line(u32),
    /// The command that the step of this number put.
    Command(u64),
    /// These locks are in force.
    Locked(Locks),
    /// What the lane tells of is so.
    Up,
}

/// The line of a frame; the frame of the opening has none.
fn line_look(at: u32, line: &[u8]) -> Option<Look>
    ensures { result ≡ line_look at line.now }
{
    if line.is_empty() {
        None
    } else {
        Some(Look::Line(at))
    }
}

/// The command in a slot.
fn slot_look(stage: Option<&Stage>) -> Option<Look>
    ensures { result ≡ slot_look (option_copied stage.entry) }
{
    match stage {
        Some(
            Stage::Prepared(put) | Stage::Issued(put) | Stage::Accepted(put) | Stage::Answered(put),
        ) => Some(Look::Command(put.number)),
        Some(Stage::Free) | None => None,
    }
}

/// What is so, or is not.
fn up_where(holds: bool) -> Option<Look>
    ensures { result ≡ up_where holds }
{
    if holds { Some(Look::Up) } else { None }
}

/// Locks of which one is in force.
fn locks_look(locks: Locks) -> Option<Look>
    ensures { result ≡ locks_look locks }
{
    if locks.read || locks.write {
        Some(Look::Locked(locks))
    } else {
        None
    }
}

/// The locks of a range.
fn range_look(locks: Option<&Locks>) -> Option<Look>
    ensures { result ≡ range_look (option_copied locks.entry) }
{
    match locks {
        Some(locks) => locks_look(*locks),
        None => None,
    }
}

/// What a lane shows at the frame of this place.
pub(crate) fn look_at(lane: Lane, at: u32, frame: &Frame) -> Option<Look>
    ensures { result ≡ look_at lane at frame.now }
{
    let sample = &frame.sample;
    match lane {
        Lane::Lines => line_look(at, frame.line.as_slice()),
        Lane::Slot(tag) => slot_look(sample.slots().get(usize::from(tag))),
        Lane::Failure => up_where(sample.has_failed()),
        Lane::Session(sp) => up_where(sample.calls(sp).session),
        Lane::Transaction(sp) => up_where(sample.calls(sp).transaction),
        Lane::Shadow => up_where(sample.is_shadow_up()),
        Lane::Range(range) => range_look(sample.locks().get(usize::from(range))),
    }
}

/// Whether two looks are the same.
fn is_same(look: Look, other: Look) -> bool
    ensures { result ≡ is_same look other }
{
    match (look, other) {
        (Look::Line(a), Look::Line(b)) => a == b,
        (Look::Command(a), Look::Command(b)) => a == b,
        (Look::Locked(a), Look::Locked(b)) => a.read == b.read && a.write == b.write,
        (Look::Up, Look::Up) => true,
        _ => false,
    }
}

/// Whether a lane that shows `shown` shows this.
pub(crate) fn is_shown(look: Look, shown: Option<Look>) -> bool
    ensures { result ≡ is_shown look shown }
{
    match shown {
        Some(other) => is_same(look, other),
        None => false,
    }
}

/// The colour of locks.
pub(crate) fn locks_paint(locks: Locks) -> Paint
    ensures { result ≡ locks_paint locks }
{
    match (locks.read, locks.write) {
        (true, true) => Paint::Locked,
        (true, false) => Paint::ReadLocked,
        _ => Paint::WriteLocked,
    }
}

/// What is said of locks.
#[tactic(auto, unfolding(crate::specs::Looks::locks_word))]
pub(crate) fn locks_word(locks: Locks) -> &'static [u8]
    ensures { result.now ≡ locks_word locks }
{
    match (locks.read, locks.write) {
        (true, true) => b"reads and writes locked",
        (true, false) => b"reads locked",
        _ => b"writes locked",
    }
}
