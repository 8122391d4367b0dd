//! The headers of a frame, and how long a frame may be.

ghost use Rattle.std.specs.Prelude.{◌≡◌, ◌<◌, ◌^◌};
ghost use Rattle.compacket.specs.Spelling.{com_packet_header, packet_header, subpacket_header};

use crate::session::{ComId, Session};
use byteorder::{BigEndian, ByteOrder};

/// The most bytes that a ComPacket may have, its header included (MaxComPacketSize of the TPer's
/// Properties).
pub const MAX_COM_PACKET: usize = 65_536;

/// How many bytes the header of a ComPacket has (TCG Core 2.01, 3.2.3).
pub const COM_PACKET_HEADER: usize = 20;

/// How many bytes the header of a packet has.
pub(crate) const PACKET_HEADER: usize = 24;

/// How many bytes the header of a subpacket has.
pub(crate) const SUBPACKET_HEADER: usize = 12;

/// How many bytes the three headers have.
pub const HEADERS: usize = COM_PACKET_HEADER + PACKET_HEADER + SUBPACKET_HEADER;

/// The Kind of a data subpacket.
pub(crate) const DATA_KIND: u16 = 0;

/// The header of a ComPacket. All numbers are counts of bytes.
pub(crate) fn com_packet_header(
    com_id: ComId,
    outstanding_data: u32,
    min_transfer: u32,
    len: u32,
) -> [u8; COM_PACKET_HEADER]
    ensures { result ≡ com_packet_header com_id outstanding_data min_transfer len }
{
    let mut header = [0; COM_PACKET_HEADER];
    BigEndian::write_u16(&mut header[4..6], com_id);
    BigEndian::write_u32(&mut header[8..12], outstanding_data);
    BigEndian::write_u32(&mut header[12..16], min_transfer);
    BigEndian::write_u32(&mut header[16..20], len);
    header
}

/// The header of a packet whose content has `len` bytes.
pub(crate) fn packet_header(session: Session, len: u32) -> [u8; PACKET_HEADER]
    ensures exact { result ≡ packet_header session len }
    ensures fits { (session.tsn < 2 ^ 32) × (session.hsn < 2 ^ 32) }
{
    let mut header = [0; PACKET_HEADER];
    BigEndian::write_u32(&mut header[0..4], session.tsn);
    BigEndian::write_u32(&mut header[4..8], session.hsn);
    BigEndian::write_u32(&mut header[20..24], len);
    header
}

/// The header of a data subpacket whose data have `len` bytes, padding not counted.
pub(crate) fn subpacket_header(len: u32) -> [u8; SUBPACKET_HEADER]
    ensures { result ≡ subpacket_header len }
{
    let mut header = [0; SUBPACKET_HEADER];
    BigEndian::write_u16(&mut header[6..8], DATA_KIND);
    BigEndian::write_u32(&mut header[8..12], len);
    header
}

/// The ComPacket without a packet that answers a receive where no response waits (TCG Core 2.01,
/// 3.2.3).
pub fn empty_header(com_id: ComId) -> [u8; COM_PACKET_HEADER]
    ensures { result ≡ com_packet_header com_id 0 0 0 }
{
    com_packet_header(com_id, 0, 0, 0)
}

/// The ComPacket without a packet that answers a receive whose transfer is too short for the
/// response that waits: both its OutstandingData and its MinTransfer are the bytes of that
/// response (TCG Core 2.01, 3.2.3).
pub fn short_header(com_id: ComId, size: u32) -> [u8; COM_PACKET_HEADER]
    ensures { result ≡ com_packet_header com_id size size 0 }
{
    com_packet_header(com_id, size, size, 0)
}
