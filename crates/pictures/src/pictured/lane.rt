//! What a row of the picture tells of.

ghost use Rattle.std.specs.Prelude.{◌≡◌, IfOk};
ghost use Rattle.pictures.specs.Looks.{lane_at, lane_word, lane_number, lane_name, lane_paint};

use crate::samples::numbered_name;
use basics::Bytes;
use drawing::Paint;
use sp_cells::Sp;
use std::alloc::{AllocError, Global};

/// What a row of the picture tells of.
#[derive(Clone, Copy, Debug, PartialEq, Eq)]
pub enum Lane {
    /// The lines of the script, each with how it ended.
    Lines,
    /// The commands in the slot of this tag.
    Slot(u8),
    /// That the queue has failed.
    Failure,
    /// The sessions of a security provider.
    Session(Sp),
    /// The transactions of a security provider.
    Transaction(Sp),
    /// That the shadow MBR is up.
    Shadow,
    /// The locks of the range of this number; 0 is the global range.
    Range(u8),
}

/// How many lanes there are.
pub(crate) const LANES: u8 = 56;

/// The lane at a place from above.
pub(crate) fn lane_at(place: u8) -> Lane
    ensures { result ≡ lane_at place }
{
    match place {
        0 => Lane::Lines,
        1..=32 => Lane::Slot(place - 1),
        33 => Lane::Failure,
        34 => Lane::Session(Sp::Admin),
        35 => Lane::Transaction(Sp::Admin),
        36 => Lane::Session(Sp::Locking),
        37 => Lane::Transaction(Sp::Locking),
        38 => Lane::Shadow,
        _ => Lane::Range(place - 39),
    }
}

/// The words of a lane's name.
#[tactic(auto, unfolding(crate::specs::Looks::lane_word))]
pub(crate) fn lane_word(lane: Lane) -> &'static [u8]
    ensures { result.now ≡ lane_word lane }
{
    match lane {
        Lane::Lines => b"lines",
        Lane::Slot(_) => b"slot ",
        Lane::Failure => b"queue failed",
        Lane::Session(Sp::Admin) => b"Admin SP session",
        Lane::Session(Sp::Locking) => b"Locking SP session",
        Lane::Transaction(Sp::Admin) => b"Admin SP transaction",
        Lane::Transaction(Sp::Locking) => b"Locking SP transaction",
        Lane::Shadow => b"shadow MBR",
        Lane::Range(_) => b"range ",
    }
}

/// The number in a lane's name.
fn lane_number(lane: Lane) -> Option<u8>
    ensures { result ≡ lane_number lane }
{
    match lane {
        Lane::Slot(tag) => Some(tag),
        Lane::Range(range) => Some(range),
        Lane::Lines | Lane::Failure | Lane::Session(_) | Lane::Transaction(_) | Lane::Shadow =>
            None,
    }
}

/// The name of a lane.
pub(crate) fn lane_name(alloc: Global, lane: Lane) -> Result<Bytes, AllocError>
    ensures { IfOk result (λ name. name ≡ lane_name lane) }
{
    let name = numbered_name(alloc, lane_word(lane), lane_number(lane))?;
    Ok(Bytes::from_vec(name))
}

/// The colour of what a lane shows, where it is the same for all of it.
pub(crate) fn lane_paint(lane: Lane) -> Paint
    ensures { result ≡ lane_paint lane }
{
    match lane {
        Lane::Session(_) => Paint::Session,
        Lane::Transaction(_) => Paint::Transaction,
        Lane::Shadow => Paint::Shadow,
        Lane::Lines | Lane::Slot(_) | Lane::Failure | Lane::Range(_) => Paint::Failure,
    }
}
