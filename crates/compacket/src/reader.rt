//! Frames as they are read.

ghost use Rattle.std.specs.Prelude.{◌≡◌, ◌+◌, ◌^◌, ◌<◌, ◌≤◌, IfOk, IsOkAnd, MatchResult, Ok, Err, Some, None, length, drop, slice_range};
ghost use Rattle.compacket.specs.Orders.{FaultOrder};
ghost use Rattle.compacket.specs.Frames.{Frame, IsComPacket, IsPacket, IsDataSubpacket, IsFrame, reading, fault_of, com_packet_fault, com_packet_content, packet_fault, packet_content, subpacket_fault, subpacket_content, com_id_of, session_of, big_endian_at, com_packet_header_size, packet_header_size, subpacket_header_size, headers_size, exceeds_packet, lacks_subpacket, broken_in};

use crate::error::FrameError;
use crate::headers::{
    COM_PACKET_HEADER, DATA_KIND, MAX_COM_PACKET, PACKET_HEADER, SUBPACKET_HEADER,
};
use crate::padding::padded;
use crate::session::{ComId, Named, Opened, Session};
use byteorder::{BigEndian, ByteOrder};

/// The fault of bytes is that of the first of the checks that applies, in their order: none of those before it applies.
pub fn laws_of_orders()
    ensures { FaultOrder }
{}

fn length_at(bytes: &[u8], place: usize) -> usize
    requires { place + 4 ≤ length bytes.now }
    ensures value { result ≡ big_endian_at 4 bytes.now place }
    ensures fits { result < 2 ^ 32 }
{
    BigEndian::read_u32(&bytes[place..]) as usize
}

/// What a ComPacket carries.
fn com_packet(bytes: &[u8]) -> Result<&[u8], FrameError>
    ensures found { IfOk result
        (λ content. IsComPacket bytes.now (com_id_of bytes.now) content.now) }
    ensures exact { MatchResult result
        (λ content. (com_packet_fault bytes.now ≡ None)
        × (content.now ≡ com_packet_content bytes.now)) (λ e. com_packet_fault bytes.now ≡ Some e) }
    ensures room { IfOk result
        (λ content. (com_packet_header_size ≤ length bytes.now)
        × (packet_header_size ≤ length content.now)) }
{
    if bytes.len() < COM_PACKET_HEADER {
        return Err(FrameError::Short);
    }
    let len = length_at(bytes, 16);
    if bytes.len() < COM_PACKET_HEADER + len {
        return Err(FrameError::Short);
    }
    if len == 0 {
        return Err(FrameError::Empty);
    }
    if len < PACKET_HEADER {
        return Err(FrameError::Length);
    }
    if COM_PACKET_HEADER + len > MAX_COM_PACKET {
        return Err(FrameError::Length);
    }
    Ok(&bytes[COM_PACKET_HEADER..COM_PACKET_HEADER + len])
}

/// What the one packet of a ComPacket carries.
fn packet(bytes: &[u8]) -> Result<&[u8], FrameError>
    requires { packet_header_size ≤ length bytes.now }
    ensures found { IfOk result (λ content. IsPacket bytes.now (session_of bytes.now) content.now) }
    ensures exact { MatchResult result
        (λ content. (packet_fault bytes.now ≡ None) × (content.now ≡ packet_content bytes.now))
        (λ e. packet_fault bytes.now ≡ Some e) }
    ensures room { IfOk result (λ content. subpacket_header_size ≤ length content.now) }
{
    let len = length_at(bytes, 20);
    if PACKET_HEADER + len > bytes.len() {
        return Err(FrameError::Length);
    }
    if PACKET_HEADER + len < bytes.len() {
        return Err(FrameError::Many);
    }
    if len == 0 {
        return Err(FrameError::Empty);
    }
    if len < SUBPACKET_HEADER {
        return Err(FrameError::Length);
    }
    Ok(&bytes[PACKET_HEADER..])
}

/// The data of the one subpacket of a packet.
fn subpacket(bytes: &[u8]) -> Result<&[u8], FrameError>
    requires { subpacket_header_size ≤ length bytes.now }
    ensures found { IfOk result (λ payload. IsDataSubpacket bytes.now payload.now) }
    ensures exact { MatchResult result
        (λ content. (subpacket_fault bytes.now ≡ None)
        × (content.now ≡ subpacket_content bytes.now)) (λ e. subpacket_fault bytes.now ≡ Some e) }
{
    if BigEndian::read_u16(&bytes[6..]) != DATA_KIND {
        return Err(FrameError::Kind);
    }
    let len = length_at(bytes, 8);
    if len == 0 {
        return Err(FrameError::Empty);
    }
    let end = SUBPACKET_HEADER + padded(len);
    if end > bytes.len() {
        return Err(FrameError::Length);
    }
    if end < bytes.len() {
        return Err(FrameError::Many);
    }
    Ok(&bytes[SUBPACKET_HEADER..SUBPACKET_HEADER + len])
}

/// The session that a packet names.
fn session_of(packet: &[u8]) -> Session
    requires { packet_header_size ≤ length packet.now }
    ensures { result ≡ session_of packet.now }
{
    Session {
        tsn: BigEndian::read_u32(packet),
        hsn: BigEndian::read_u32(&packet[4..]),
    }
}

/// The ComID of a ComPacket.
fn com_id_of(com_packet: &[u8]) -> ComId
    requires { com_packet_header_size ≤ length com_packet.now }
    ensures { result ≡ com_id_of com_packet.now }
{
    BigEndian::read_u16(&com_packet[4..])
}

/// The frame that the bytes begin with. Bytes behind it, the padding, and the header fields other
/// than ComID, TSN, HSN, Kind and the Lengths are not looked at.
///
/// The ComPacket is judged first, then its packet, then the subpacket: `Short` where the bytes end
/// before the ComPacket; `Empty` where it carries nothing; `Length` where it has no room for a
/// packet header, or where it is longer than `MAX_COM_PACKET`. The packet: `Length` or `Many` where
/// it ends behind or before the ComPacket, `Empty` where it carries nothing, `Length` where it has
/// no room for a subpacket header. The subpacket: `Kind` where it carries no data, `Empty` where
/// it has none, `Length` or `Many` where it ends, padding included, behind or before the packet.
pub fn open(bytes: &[u8]) -> Result<Opened<'_>, FrameError>
    // What it gives is a frame that the bytes begin with, and a frame that they begin with is given.
    ensures found { IfOk result
        (λ o. IsFrame bytes.now
        (record { com_id = o.com_id; session = o.session; payload = o.payload.now })) }
    ensures only { (frame : Frame) → IsFrame bytes.now frame
        → IsOkAnd result (λ o. record {
          com_id = o.com_id;
          session = o.session;
          payload = o.payload.now;
        } ≡ frame) }

    // An error is the first fault in the order of the checks.
    ensures fault { MatchResult result (λ _. fault_of bytes.now ≡ None)
        (λ e. fault_of bytes.now ≡ Some e) }

    // The payload is the part of the bytes behind the three headers.
    ensures place { IfOk result
        (λ o. o.payload.now ≡ slice_range bytes.now headers_size
        (headers_size + length o.payload.now)) }

    // The same as one function of the bytes, for the crates above.
    ensures exact { MatchResult result
        (λ o. reading bytes.now
        ≡ Ok (record { com_id = o.com_id; session = o.session; payload = o.payload.now }))
        (λ e. reading bytes.now ≡ Err e) }
{
    let content = com_packet(bytes)?;
    let data = packet(content)?;
    let payload = subpacket(data)?;
    Ok(Opened {
        com_id: com_id_of(bytes),
        session: session_of(content),
        payload,
    })
}

/// Whether what a packet carries is no whole subpacket: it has no room for the header of one, or its data end behind the
/// packet.
fn exceeds_packet(bytes: &[u8]) -> bool
    ensures { result ≡ exceeds_packet bytes.now }
{
    if bytes.len() < SUBPACKET_HEADER {
        return !bytes.is_empty();
    }
    BigEndian::read_u16(&bytes[6..]) == DATA_KIND
        && SUBPACKET_HEADER + padded(length_at(bytes, 8)) > bytes.len()
}

/// Whether a packet ends where its ComPacket does, and carries no whole subpacket.
fn lacks_subpacket(bytes: &[u8]) -> bool
    requires { packet_header_size ≤ length bytes.now }
    ensures { result ≡ lacks_subpacket bytes.now }
{
    PACKET_HEADER + length_at(bytes, 20) == bytes.len() && exceeds_packet(&bytes[PACKET_HEADER..])
}

/// What the ComPacket names that the bytes begin with, where its headers fit one another down to its packet, while what
/// the packet carries is no whole subpacket (Opal SSC 2.01, section 3.3.4.1.3). None of what `open` gives, and of what
/// has any other fault.
pub fn broken(bytes: &[u8]) -> Option<Named>
    ensures { result ≡ broken_in bytes.now }
{
    match com_packet(bytes) {
        Ok(content) if lacks_subpacket(content) => Some(Named {
            com_id: com_id_of(bytes),
            session: session_of(content),
        }),
        _ => None,
    }
}
