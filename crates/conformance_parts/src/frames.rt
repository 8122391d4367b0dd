//! Frames: ComPackets as they are written and read.

use compacket::{
    FrameError, Opened, Session, empty_header, frame, frame_into, frame_len, open, short_header,
};
use std::alloc::{AllocError, Global};

/// A Get of the PIN of C_PIN_MSID in the session 1000h/1, on ComID 1000h: 37 bytes of tokens in a
/// subpacket of 37, a packet of 52, a ComPacket of 76.
const VECTOR: [u8; 96] = [
    0, 0, 0, 0, 0x10, 0, 0, 0, 0, 0, 0, 0, 0, 0, 0, 0, 0, 0, 0, 0x4c, //
    0, 0, 0x10, 0, 0, 0, 0, 1, 0, 0, 0, 0, 0, 0, 0, 0, 0, 0, 0, 0, 0, 0, 0, 0x34, //
    0, 0, 0, 0, 0, 0, 0, 0, 0, 0, 0, 0x25, //
    0xf8, 0xa8, 0, 0, 0, 0x0b, 0, 0, 0x84, 0x02, 0xa8, 0, 0, 0, 0x06, 0, 0, 0, 0x16, 0xf0, 0xf0,
    0xf2, 0x03, 0x03, 0xf3, 0xf2, 0x04, 0x03, 0xf3, 0xf1, 0xf1, 0xf9, 0xf0, 0, 0, 0, 0xf1, 0, 0, 0,
];

const SESSION: Session = Session {
    tsn: 0x1000,
    hsn: 1,
};

/// Bytes of the vector that are changed, and the fault that a frame has then.
const FAULTS: [(usize, u8, FrameError); 9] = [
    (19, 0x4d, FrameError::Short),
    (19, 0, FrameError::Empty),
    (19, 0x17, FrameError::Length),
    (43, 0x35, FrameError::Length),
    (43, 0x33, FrameError::Many),
    (51, 1, FrameError::Kind),
    (55, 0, FrameError::Empty),
    (55, 0x29, FrameError::Length),
    (55, 0x24, FrameError::Many),
];

/// The headers of a frame with 300 bytes, whose ComID, TSN and HSN have a byte of their own at each place.
const HEADERS: [u8; 56] = [
    0, 0, 0, 0, 0x21, 0x22, 0, 0, 0, 0, 0, 0, 0, 0, 0, 0, 0, 0, 0x01, 0x50, //
    0x11, 0x12, 0x13, 0x14, 0x15, 0x16, 0x17, 0x18, 0, 0, 0, 0, 0, 0, 0, 0, 0, 0, 0, 0, 0, 0, 0x01,
    0x38, //
    0, 0, 0, 0, 0, 0, 0, 0, 0, 0, 0x01, 0x2c,
];

/// What no reader looks at: reserved bytes, the ComID extension, OutstandingData, MinTransfer; SeqNumber, reserved bytes,
/// AckType, Acknowledgement; reserved bytes.
const NOT_LOOKED_AT: [(usize, usize); 4] = [(0, 4), (6, 16), (28, 40), (44, 50)];

/// The headers of no response on 2122h, and of one of 11121314h bytes that is longer than the transfer.
const NO_RESPONSE: [u8; 20] = [
    0, 0, 0, 0, 0x21, 0x22, 0, 0, 0, 0, 0, 0, 0, 0, 0, 0, 0, 0, 0, 0,
];

const LONG_RESPONSE: [u8; 20] = [
    0, 0, 0, 0, 0x21, 0x22, 0, 0, 0x11, 0x12, 0x13, 0x14, 0x11, 0x12, 0x13, 0x14, 0, 0, 0, 0,
];

/// The fault of a copy of the vector in which one byte is another.
fn fault_at(place: usize, byte: u8) -> Option<FrameError> {
    let mut bytes = VECTOR;
    if place < bytes.len() {
        bytes[place] = byte;
    }
    open(&bytes).err()
}

/// Whether bytes are a frame of the session with this payload.
fn is_frame(bytes: &[u8], payload: &[u8]) -> bool {
    let want = Opened {
        com_id: 0x1000,
        session: SESSION,
        payload,
    };
    open(bytes) == Ok(want)
}

/// Whether so many bytes of the vector are no frame alone, and behind them zeros, but for its padding, what they should be.
fn is_cut_told(size: usize) -> bool {
    let mut padded = [0; 512];
    for i in 0..size.min(96) {
        padded[i] = VECTOR[i];
    }
    let want = match size {
        0..=19 | 44..=55 => Some(FrameError::Empty),
        20..=43 => Some(FrameError::Many),
        _ => None,
    };
    let bare = match VECTOR.get(..size) {
        Some(bytes) if size < 96 => open(bytes).err() == Some(FrameError::Short),
        _ => true,
    };
    open(&padded).err() == want && bare
}

/// The headers where no response waits on 1002h, and where one of 600 bytes is longer than the transfer.
fn are_headers() -> bool {
    let mut empty = [0; 20];
    empty[4] = 0x10;
    empty[5] = 2;
    let mut short = [0; 20];
    short[4] = 0x10;
    short[10] = 2;
    short[11] = 0x58;
    short[14] = 2;
    short[15] = 0x58;
    empty_header(0x1002) == empty && short_header(0x1000, 600) == short
}

/// Whether the vector is written, alone and behind other bytes.
fn is_written(alloc: Global) -> Result<bool, AllocError> {
    let tokens = &VECTOR[56..93];
    let bytes = frame(alloc, 0x1000, SESSION, tokens)?;
    let mut response = Vec::with_capacity(alloc, 100)?;
    frame_into(0x1000, SESSION, tokens, &mut response);
    Ok(bytes.as_slice() == VECTOR.as_slice() && response.as_slice() == VECTOR.as_slice())
}

/// Whether a ComPacket of 65,536 bytes carries 65,480 bytes.
fn is_longest_written(alloc: Global) -> Result<bool, AllocError> {
    let payload = vec![in alloc; 0xa5; 65_480]?;
    let bytes = frame(alloc, 0x1000, SESSION, payload.as_slice())?;
    Ok(bytes.len() == 65_536 && is_frame(bytes.as_slice(), payload.as_slice()))
}

/// Whether one whose length is a byte more is none.
fn is_longer_refused(alloc: Global) -> Result<bool, AllocError> {
    let mut longer = vec![in alloc; 0; 65_540]?;
    longer[18] = 0xff;
    longer[19] = 0xed;
    Ok(open(longer.as_slice()).err() == Some(FrameError::Length))
}

/// Whether the headers of a frame with so many bytes are these, and are read so.
fn is_headed(alloc: Global) -> Result<bool, AllocError> {
    let session = Session {
        tsn: 0x1112_1314,
        hsn: 0x1516_1718,
    };
    let payload = vec![in alloc; 0xa5; 300]?;
    let bytes = frame(alloc, 0x2122, session, payload.as_slice())?;
    let want = Opened {
        com_id: 0x2122,
        session,
        payload: payload.as_slice(),
    };
    let is_written = bytes.as_slice().starts_with(&HEADERS) && bytes.len() == 356;
    Ok(is_written && open(bytes.as_slice()) == Ok(want))
}

/// Whether a vector with ones at these places is read as the vector is.
fn is_read_past(from: usize, to: usize) -> bool {
    let mut bytes = VECTOR;
    for i in from..to.min(96) {
        bytes[i] = 0xff;
    }
    is_frame(&bytes, &VECTOR[56..93])
}

/// Whether no reader looks at what is not for it.
fn are_read_past() -> bool {
    let mut are = true;
    for (from, to) in NOT_LOOKED_AT {
        are &= is_read_past(from, to);
    }
    are
}

/// Whether each changed byte is told.
fn are_faults_told() -> bool {
    let mut are = true;
    for (place, byte, want) in FAULTS {
        are &= fault_at(place, byte) == Some(want);
    }
    are
}

/// Whether each cut is told.
fn are_cuts_told() -> bool {
    let mut are = true;
    for size in 0..=96 {
        are &= is_cut_told(size);
    }
    are
}

#[test]
fn frames_are_written_and_read(rt: HostRuntime) {
    let is_vector = is_written(rt.alloc()) == Ok(true) && is_frame(&VECTOR, &VECTOR[56..93]);
    let is_longest = is_longest_written(rt.alloc()) == Ok(true);
    let is_told = is_longer_refused(rt.alloc()) == Ok(true) && are_faults_told() && are_cuts_told();
    assert!(rt; is_vector && is_longest && is_told && are_headers() && frame_len(37) == 96);
}

#[test]
fn fields_of_headers(rt: HostRuntime) {
    let is_headed = is_headed(rt.alloc()) == Ok(true);
    let are_alone = empty_header(0x2122) == NO_RESPONSE
        && short_header(0x2122, 0x1112_1314) == LONG_RESPONSE;
    assert!(rt; is_headed && are_alone && are_read_past());
}
