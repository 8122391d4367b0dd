//! Frames as they are written.

ghost use Rattle.std.specs.Prelude.{ℕ, List, Ok, ◌≡◌, ◌+◌, ◌-◌, ◌^◌, ◌<◌, ◌≤◌, ◌++◌, IfOk, length, drop, replicate, vec_len, vec_capacity};
ghost use Rattle.compacket.specs.declared.headers.TheConstants.{MAX_COM_PACKET, COM_PACKET_HEADER};
ghost use Rattle.compacket.specs.declared.writer.TheConstants.{MAX_PAYLOAD};
ghost use Rattle.compacket.specs.Frames.{IsFrame, reading, headers_size, padded};
ghost use Rattle.compacket.specs.Spelling.{frame_bytes, frame_length, headers_bytes, padding};

use crate::headers::{
    COM_PACKET_HEADER, HEADERS, MAX_COM_PACKET, PACKET_HEADER, SUBPACKET_HEADER, com_packet_header,
    packet_header, subpacket_header,
};
use crate::padding::{padded, padding};
use crate::session::{ComId, Session};
use std::alloc::{AllocError, Global};

/// The most bytes that a frame can carry: those of a ComPacket less its three headers.
pub const MAX_PAYLOAD: usize = MAX_COM_PACKET - HEADERS;

/// The limits are these numbers.
pub fn laws_of_limits()
    ensures com_packet { MAX_COM_PACKET ≡ 65536 }
    ensures header { COM_PACKET_HEADER ≡ 20 }
    ensures payload { MAX_PAYLOAD ≡ 65480 }
{}

/// How many bytes the frame of so many has.
pub fn frame_len(payload: usize) -> usize
    requires { payload ≤ MAX_PAYLOAD }
    ensures { result ≡ frame_length payload }
{
    HEADERS + padded(payload)
}

/// Adds bytes for which there is room.
fn append(out: &mut Vec<u8>, bytes: &[u8])
    requires { vec_len out.old + length bytes.now ≤ vec_capacity out.old }
    ensures items { out.new.items ≡ out.old.items ++ bytes.now }
    ensures len { vec_len out.new ≡ vec_len out.old + length bytes.now }
    ensures room { vec_capacity out.old ≤ vec_capacity out.new }
{
    let _ = out.extend_from_slice(bytes);
}

/// The headers that stand before so many bytes of a payload.
fn headers(com_id: ComId, session: Session, len: usize) -> [u8; HEADERS]
    requires { len ≤ MAX_PAYLOAD }
    ensures exact { result ≡ headers_bytes com_id session len }
    ensures fits { (session.tsn < 2 ^ 32) × (session.hsn < 2 ^ 32) }
{
    let whole = padded(len);
    let content = PACKET_HEADER + SUBPACKET_HEADER + whole;
    let mut headers = [0; HEADERS];
    let (com_packet, rest) = headers.split_at_mut(COM_PACKET_HEADER);
    let (packet, subpacket) = rest.split_at_mut(PACKET_HEADER);
    com_packet.copy_from_slice(&com_packet_header(com_id, 0, 0, content as u32));
    packet.copy_from_slice(&packet_header(session, (SUBPACKET_HEADER + whole) as u32));
    subpacket.copy_from_slice(&subpacket_header(len as u32));
    headers
}

/// Adds the headers that stand before so many bytes of a payload, without taking memory.
fn headers_into(com_id: ComId, session: Session, len: usize, out: &mut Vec<u8>)
    requires fits { len ≤ MAX_PAYLOAD }
    requires room { vec_len out.old + headers_size ≤ vec_capacity out.old }
    ensures items { out.new.items ≡ out.old.items ++ headers_bytes com_id session len }
    ensures fits { (session.tsn < 2 ^ 32) × (session.hsn < 2 ^ 32) }
    ensures len { vec_len out.new ≡ vec_len out.old + headers_size }
    ensures room_stays { vec_capacity out.old ≤ vec_capacity out.new }
{
    append(out, &headers(com_id, session, len));
}

/// Adds room for the headers of a payload that is to come behind it, without taking memory.
pub fn headers_room(out: &mut Vec<u8>)
    requires room { vec_len out.old + headers_size ≤ vec_capacity out.old }
    ensures items { out.new.items ≡ out.old.items ++ replicate headers_size 0 }
    ensures len { vec_len out.new ≡ vec_len out.old + headers_size }
    ensures room_stays { vec_capacity out.old ≤ vec_capacity out.new }
{
    append(out, &[0; HEADERS]);
}

/// Puts bytes in the place of those at the front.
fn put_in_front(bytes: &[u8], out: &mut [u8])
    requires { length bytes.now ≤ length out.old }
    ensures items { out.new ≡ bytes.now ++ drop (length bytes.now) out.old }
{
    let (front, _) = out.split_at_mut(bytes.len());
    front.copy_from_slice(bytes);
}

/// Writes the headers of a payload into the room that stands before it, at the front of the vector, without taking
/// memory.
pub fn headers_before(com_id: ComId, session: Session, out: &mut Vec<u8>)
    requires room { headers_size ≤ vec_len out.old }
    requires fits { vec_len out.old - headers_size ≤ MAX_PAYLOAD }
    ensures items { out.new.items ≡ headers_bytes com_id session (vec_len out.old - headers_size)
        ++ drop headers_size out.old.items }
    ensures fits { (session.tsn < 2 ^ 32) × (session.hsn < 2 ^ 32) }
    ensures len { vec_len out.new ≡ vec_len out.old }
    ensures room_stays { vec_capacity out.old ≤ vec_capacity out.new }
{
    let len = out.len() - HEADERS;
    put_in_front(&headers(com_id, session, len), out.as_mut_slice());
}

/// Adds the zeros that stand behind so many bytes of a payload, without taking memory.
pub fn padding_into(len: usize, out: &mut Vec<u8>)
    requires fits { len ≤ MAX_PAYLOAD }
    requires room { vec_len out.old + padded len ≤ vec_capacity out.old + len }
    ensures items { out.new.items ≡ out.old.items ++ padding len }
    ensures len { vec_len out.new + len ≡ vec_len out.old + padded len }
    ensures room_stays { vec_capacity out.old ≤ vec_capacity out.new }
{
    append(out, padding(len));
}

/// Adds the frame of the payload, without taking memory.
pub fn frame_into(com_id: ComId, session: Session, payload: &[u8], out: &mut Vec<u8>)
    requires some { 0 < length payload.now }
    requires fits { length payload.now ≤ MAX_PAYLOAD }
    requires room { vec_len out.old + frame_length (length payload.now) ≤ vec_capacity out.old }
    ensures items { out.new.items ≡ out.old.items ++ frame_bytes com_id session payload.now }
    ensures len { vec_len out.new ≡ vec_len out.old + frame_length (length payload.now) }
    ensures room_stays { vec_capacity out.old ≤ vec_capacity out.new }

    // `open` gives back what was framed, whatever follows.
    ensures is_frame { (rest : List ℕ)
        → IsFrame (frame_bytes com_id session payload.now ++ rest)
        (record { com_id = com_id; session = session; payload = payload.now }) }
    ensures opens { (rest : List ℕ)
        → reading (frame_bytes com_id session payload.now ++ rest)
        ≡ Ok (record { com_id = com_id; session = session; payload = payload.now }) }
{
    headers_into(com_id, session, payload.len(), out);
    append(out, payload);
    padding_into(payload.len(), out);
}

/// The frame of the payload: a ComPacket of one packet of the session with one data subpacket
/// (TCG Core 2.01, 3.2.3). Fails only where memory was refused.
pub fn frame(
    alloc: Global,
    com_id: ComId,
    session: Session,
    payload: &[u8],
) -> Result<Vec<u8>, AllocError>
    requires some { 0 < length payload.now }
    requires fits { length payload.now ≤ MAX_PAYLOAD }
    ensures exact { IfOk result (λ v. v.items ≡ frame_bytes com_id session payload.now) }

    // `open` gives back what was framed, whatever follows.
    ensures is_frame { IfOk result
        (λ v. (rest : List ℕ)
        → IsFrame (v.items ++ rest)
        (record { com_id = com_id; session = session; payload = payload.now })) }
    ensures opens { IfOk result
        (λ v. (rest : List ℕ)
        → reading (v.items ++ rest)
        ≡ Ok (record { com_id = com_id; session = session; payload = payload.now })) }
{
    let mut out = Vec::with_capacity(alloc, frame_len(payload.len()))?;
    frame_into(com_id, session, payload, &mut out);
    Ok(out)
}
