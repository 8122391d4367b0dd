//! ComPackets (Core 2.01, section 3.2.3), with what they carry.

ghost use Rattle.std.specs.Prelude.{◌≡◌, ◌==◌, ◌++◌, OnOk, length, codes};
ghost use Rattle.compacket.specs.Frames.{reading, fault_of, com_packet_length};
ghost use Rattle.tcg_calls.specs.NamedText.{or_text};
ghost use Rattle.decoded.specs.Fields.{rows_of, cut_field};
ghost use Rattle.decoded.specs.Faults.{Checks};
ghost use Rattle.decoded.specs.Carried.{com_packet_fields, packet_fields, payload_line, carried_lines, com_packet_lines, frame_fault_said, com_packet_wrong};

use crate::fault::DecodeFault;
use crate::field::{
    Field, Form, append_hex_line, append_line, append_rows, behind, byte_at, check_fields,
    cut_field,
};
use byteorder::{BigEndian, ByteOrder};
use compacket::{FrameError, open};
use std::alloc::{AllocError, Global};
use tcg_calls::named_tokens::named_item_text;
use tcg_tokens::{TokenError, read_item};

const COM_PACKET: [Field; 5] = [
    Field("ComID", &[4, 5], Form::Hex),
    Field("ComIDExtension", &[6, 7], Form::Hex),
    Field("OutstandingData", &[8, 9, 10, 11], Form::Decimal),
    Field("MinTransfer", &[12, 13, 14, 15], Form::Decimal),
    Field("ComPacketLength", &[16, 17, 18, 19], Form::Decimal),
];

/// Where the length of the ComPacket stands.
const LENGTH_PLACE: usize = 16;

/// The headers of the packet and of the subpacket.
const PACKET: [Field; 8] = [
    Field("TSN", &[20, 21, 22, 23], Form::Decimal),
    Field("HSN", &[24, 25, 26, 27], Form::Decimal),
    Field("SeqNumber", &[28, 29, 30, 31], Form::Decimal),
    Field("AckType", &[34, 35], Form::Hex),
    Field("Acknowledgement", &[36, 37, 38, 39], Form::Decimal),
    Field("PacketLength", &[40, 41, 42, 43], Form::Decimal),
    Field("SubpacketKind", &[50, 51], Form::Hex),
    Field("SubpacketLength", &[52, 53, 54, 55], Form::Decimal),
];

#[tactic(auto, unfolding(crate::specs::Carried::com_packet_fields))]
fn com_packet_fields() -> &'static [Field]
    ensures { rows_of result.now ≡ com_packet_fields }
{
    &COM_PACKET
}

#[tactic(auto, unfolding(crate::specs::Carried::packet_fields))]
fn packet_fields() -> &'static [Field]
    ensures { rows_of result.now ≡ packet_fields }
{
    &PACKET
}

/// Whether a ComPacket carries nothing, by its length.
fn is_empty(bytes: &[u8]) -> bool
    ensures { result ≡ (com_packet_length bytes.now == 0) }
{
    let rest = behind(bytes, LENGTH_PLACE);
    let length = [
        byte_at(rest, 0),
        byte_at(rest, 1),
        byte_at(rest, 2),
        byte_at(rest, 3),
    ];
    BigEndian::read_u32(&length) == 0
}

/// The field within which the bytes of a ComPacket end that is not all there.
fn cut_part(bytes: &[u8]) -> &'static str
    ensures { result.now ≡ or_text (cut_field packet_fields (length bytes.now)) (codes "Payload") }
{
    match cut_field(packet_fields(), bytes.len()) {
        Some(name) => name,
        None => "Payload",
    }
}

/// Sees that bytes have a ComPacket in them that carries a payload.
fn check_carried(bytes: &[u8]) -> Result<(), DecodeFault>
    ensures { Checks (frame_fault_said (fault_of bytes.now) bytes.now) result }
{
    match open(bytes) {
        Ok(_) => Ok(()),
        Err(FrameError::Short) => Err(DecodeFault::Cut(cut_part(bytes))),
        Err(fault) => Err(DecodeFault::Frame(fault)),
    }
}

/// Sees that bytes have a ComPacket in them, whole.
pub(crate) fn check_com_packet(bytes: &[u8]) -> Result<(), DecodeFault>
    ensures { Checks (com_packet_wrong bytes.now) result }
{
    check_fields(com_packet_fields(), bytes)?;
    if is_empty(bytes) {
        return Ok(());
    }
    check_carried(bytes)?;
    Ok(())
}

/// Appends the line of a payload.
fn append_payload(alloc: Global, text: &mut Vec<u8>, payload: &[u8]) -> Result<(), AllocError>
    ensures { OnOk result (text.new.items ≡ text.old.items ++ payload_line payload.now) }
{
    match read_item(alloc, payload) {
        Ok(item) => {
            let told = named_item_text(alloc, &item)?;
            append_line(text, "Tokens", told.as_bytes())?;
            Ok(())
        }
        Err(TokenError::OutOfMemory) => Err(AllocError),
        Err(_) => {
            append_hex_line(alloc, text, "Payload", payload)?;
            Ok(())
        }
    }
}

/// Appends what stands behind the header of a ComPacket.
fn append_carried(alloc: Global, text: &mut Vec<u8>, bytes: &[u8]) -> Result<(), AllocError>
    ensures { OnOk result
        (text.new.items ≡ text.old.items ++ carried_lines (reading bytes.now) bytes.now) }
{
    match open(bytes) {
        Ok(opened) => {
            append_rows(alloc, text, packet_fields(), bytes)?;
            append_payload(alloc, text, opened.payload)?;
            Ok(())
        }
        Err(_) => Ok(()),
    }
}

/// Appends the lines of a ComPacket.
pub(crate) fn append_com_packet(
    alloc: Global,
    text: &mut Vec<u8>,
    bytes: &[u8],
) -> Result<(), AllocError>
    ensures { OnOk result (text.new.items ≡ text.old.items ++ com_packet_lines bytes.now) }
{
    append_rows(alloc, text, com_packet_fields(), bytes)?;
    append_carried(alloc, text, bytes)?;
    Ok(())
}
