//! Frames (TCG Core 2.01, 3.2.3).

ghost use Rattle.std.specs.Prelude.{◌≡◌};
ghost use Rattle.library_calls.specs.Carries.{FramedAs, IsOpened, refused_carried, carried_of};

use crate::byte_calls::copied::copy_text;
use crate::byte_calls::count::{Count, DONE};
use crate::byte_calls::error::CallError;
use compacket::{HEADERS, MAX_PAYLOAD, Session, frame, open};
use std::alloc::Global;

/// What a frame carries, and for whom.
#[repr(C)]
#[derive(Clone, Copy, Debug, PartialEq, Eq)]
pub struct Carried {
    /// 0, or the number of the refusal; then all else is 0.
    pub code: u32,
    /// The session's number at the TPer, and at the host; both are 0 for the session manager.
    pub tsn: u32,
    pub hsn: u32,
    pub com_id: u16,
    /// Where the payload begins, and how many bytes it has.
    pub at: usize,
    pub length: usize,
}

impl Carried {
    /// The bytes are no frame.
    fn refused(error: CallError) -> Carried
        ensures { result ≡ refused_carried error }
    {
        Carried {
            code: error.code(),
            tsn: 0,
            hsn: 0,
            com_id: 0,
            at: 0,
            length: 0,
        }
    }
}

/// Copies the frame of a payload: a ComPacket of one packet of a session with one data subpacket. Refused with `Length`
/// where the payload has no bytes, or more than 65,480.
pub fn frame_out(
    alloc: Global,
    com_id: u16,
    session: Session,
    payload: &[u8],
    into: &mut [u8],
) -> Count
    ensures { FramedAs com_id session payload.now into.old into.new result }
{
    if payload.is_empty() || payload.len() > MAX_PAYLOAD {
        return Count::refused(CallError::Length);
    }
    copy_text(frame(alloc, com_id, session, payload), into)
}

/// What the frame carries that the bytes begin with. Refused with `Malformed` where they begin with none.
pub fn opened(bytes: &[u8]) -> Carried
    ensures { IsOpened bytes.now result }
{
    match open(bytes) {
        Ok(frame) => Carried {
            code: DONE,
            tsn: frame.session.tsn,
            hsn: frame.session.hsn,
            com_id: frame.com_id,
            at: HEADERS,
            length: frame.payload.len(),
        },
        Err(_) => Carried::refused(CallError::Malformed),
    }
}
