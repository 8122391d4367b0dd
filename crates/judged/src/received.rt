//! What a line tells that was received: a ComPacket, and the number that it hands out to a session.

ghost use Rattle.std.specs.Prelude.{◌≡◌, ◌≤◌, true, IfOk, IfSome};
ghost use Rattle.compacket.specs.Frames.{reading};
ghost use Rattle.judged.specs.SessionNumbers.{received_line, packet_told, received_by_frame, received_if, may_be_carried, token_number, token_size, hosts_size, hosts_part, number_part, is_sync, not_zero, number_handed, number_told, differs_in_number, differs_by_number};

use crate::answers::behind;
use crate::blanks::front;
use crate::text::Text;
use basics::{Bytes, append_hex};
use compacket::{ComId, MAX_PAYLOAD, Session, frame, open};
use hex::FromHexError;
use std::alloc::{AllocError, Global};

/// How many bytes stand in front of the digits in a line `data HEX`.
pub(crate) const DATA_PLACE: usize = 5;

/// How many bytes stand in front of the host's number in a SyncSession.
const FRONT_LENGTH: usize = 20;

/// What a SyncSession begins with: a call of the session manager's method, and a list.
const SYNC_FRONT: [u8; FRONT_LENGTH] = [
    0xf8, 0xa8, 0, 0, 0, 0, 0, 0, 0, 0xff, 0xa8, 0, 0, 0, 0, 0, 0, 0xff, 0x03, 0xf0,
];

/// How many bytes stand behind the TPer's number.
const BEHIND_LENGTH: usize = 7;

/// What it ends with: the end of the list, the end of data, and a status of 0.
const SYNC_BEHIND: [u8; BEHIND_LENGTH] = [0xf1, 0xf9, 0xf0, 0, 0, 0, 0xf1];

/// A ComPacket that was received, of one packet with one data subpacket.
#[derive(Drop)]
pub struct Received {
    pub com_id: ComId,
    pub session: Session,
    pub payload: Bytes,
}

/// Whether a ComPacket carries something, and has room for it.
fn may_be_carried(payload: &[u8]) -> bool
    ensures { result ≡ may_be_carried payload.now }
{
    0 < payload.len() && payload.len() <= MAX_PAYLOAD
}

/// The line that tells that this was received.
pub(crate) fn received_line(alloc: Global, received: &Received) -> Result<Text, AllocError>
    requires { may_be_carried received.now.payload ≡ true }
    ensures { IfOk result (λ line. line ≡ received_line received.now) }
{
    let payload = received.payload.as_slice();
    let bytes = frame(alloc, received.com_id, received.session, payload)?;
    let mut digits = Vec::new(alloc);
    append_hex(&mut digits, &bytes)?;
    let mut line = Text::new(alloc);
    line.append(b"data ")?;
    line.append(&digits)?;
    Ok(line)
}

/// What was received, where it is a ComPacket that a line tells byte by byte.
fn received_if(
    alloc: Global,
    line: &[u8],
    received: Received,
) -> Result<Option<Received>, AllocError>
    ensures exact { IfOk result (λ found. found ≡ received_if line.now received) }
    ensures carried { IfOk result (λ found. IfSome found
        (λ packet. may_be_carried packet.payload ≡ true)) }
{
    if !may_be_carried(received.payload.as_slice()) {
        return Ok(None);
    }
    let told = received_line(alloc, &received)?;
    if line == told.as_slice() {
        Ok(Some(received))
    } else {
        Ok(None)
    }
}

/// What bytes tell that was received, which a line has.
fn received_by_frame(
    alloc: Global,
    line: &[u8],
    bytes: &[u8],
) -> Result<Option<Received>, AllocError>
    ensures exact { IfOk result (λ found. found ≡ received_by_frame line.now (reading bytes.now)) }
    ensures carried { IfOk result (λ found. IfSome found
        (λ packet. may_be_carried packet.payload ≡ true)) }
{
    let Ok(opened) = open(bytes) else {
        return Ok(None);
    };
    let payload = Vec::from_slice(alloc, opened.payload)?;
    let received = Received {
        com_id: opened.com_id,
        session: opened.session,
        payload: Bytes::from_vec(payload),
    };
    received_if(alloc, line, received)
}

/// What a line tells that was received, where it tells of a ComPacket.
pub(crate) fn packet_told(alloc: Global, line: &[u8]) -> Result<Option<Received>, AllocError>
    ensures exact { IfOk result (λ found. found ≡ packet_told line.now) }
    ensures carried { IfOk result (λ found. IfSome found
        (λ packet. may_be_carried packet.payload ≡ true)) }
{
    match hex::decode(alloc, behind(line, DATA_PLACE)) {
        Ok(bytes) => received_by_frame(alloc, line, &bytes),
        Err(FromHexError::OutOfMemory) => Err(AllocError),
        Err(_) => Ok(None),
    }
}

/// The number of 32 bits that a token writes, a tiny atom or a short one.
fn token_number(token: &[u8]) -> Option<u32>
    ensures { result ≡ token_number token.now }
{
    match token {
        [a] if *a < 64 => Some(u32::from(*a)),
        [0x81, b] => Some(u32::from(*b)),
        [0x82, b, c] => Some(u32::from(*b) * 256 + u32::from(*c)),
        [0x83, b, c, d] => Some(u32::from(*b) * 65_536 + u32::from(*c) * 256 + u32::from(*d)),
        [0x84, b, c, d, e] => {
            let low = u32::from(*c) * 65_536 + u32::from(*d) * 256 + u32::from(*e);
            Some(u32::from(*b) * 16_777_216 + low)
        }
        _ => None,
    }
}

/// How many bytes the token has that tokens begin with, a tiny or a short atom.
pub(crate) fn token_size(tokens: &[u8]) -> usize
    ensures exact { result ≡ token_size tokens.now }
    ensures most { result ≤ 128 }
{
    match tokens {
        [first, ..] if *first >= 0x80 => (*first - 0x7f) as usize,
        _ => 1,
    }
}

/// How many bytes a SyncSession has through the host's number.
fn hosts_size(payload: &[u8]) -> usize
    ensures { result ≡ hosts_size payload.now }
{
    FRONT_LENGTH + token_size(behind(payload, FRONT_LENGTH))
}

/// A SyncSession through the host's number.
fn hosts_part(payload: &[u8]) -> &[u8]
    ensures { result.now ≡ hosts_part payload.now }
{
    front(payload, hosts_size(payload))
}

/// Whether these tokens are a SyncSession of success.
fn is_sync(payload: &[u8]) -> bool
    ensures { result ≡ is_sync payload.now }
{
    let size = payload.len();
    size > FRONT_LENGTH + BEHIND_LENGTH
        && front(payload, FRONT_LENGTH) == SYNC_FRONT.as_slice()
        && behind(payload, size - BEHIND_LENGTH) == SYNC_BEHIND.as_slice()
}

/// The token of the number that a SyncSession hands out.
fn number_part(payload: &[u8]) -> &[u8]
    ensures { result.now ≡ number_part payload.now }
{
    let size = payload.len().saturating_sub(BEHIND_LENGTH);
    behind(front(payload, size), hosts_size(payload))
}

/// A number, unless it is 0, which names the session manager.
fn not_zero(number: Option<u32>) -> Option<u32>
    ensures { result ≡ not_zero number }
{
    match number {
        Some(0) => None,
        _ => number,
    }
}

/// The number that a SyncSession hands out.
fn number_handed(payload: &[u8]) -> Option<u32>
    ensures { result ≡ number_handed payload.now }
{
    if is_sync(payload) {
        not_zero(token_number(number_part(payload)))
    } else {
        None
    }
}

/// The number that a line tells, of a session that begins.
pub(crate) fn number_told(alloc: Global, line: &[u8]) -> Result<Option<u32>, AllocError>
    ensures { IfOk result (λ number. number ≡ number_told line.now) }
{
    match packet_told(alloc, line)? {
        Some(received) => Ok(number_handed(received.payload.as_slice())),
        None => Ok(None),
    }
}

/// Whether two that were received are SyncSessions that differ in the TPer's number alone.
fn differs_in_number(heard: &Received, wanted: &Received) -> bool
    ensures { result ≡ differs_in_number heard.now wanted.now }
{
    let answer = heard.payload.as_slice();
    let model = wanted.payload.as_slice();
    heard.com_id == wanted.com_id
        && heard.session.tsn == wanted.session.tsn
        && heard.session.hsn == wanted.session.hsn
        && number_handed(answer).is_some()
        && number_handed(model).is_some()
        && hosts_part(answer) == hosts_part(model)
}

/// Whether two lines tell of SyncSessions that differ in the TPer's number alone.
pub(crate) fn differs_by_number(
    alloc: Global,
    heard: &[u8],
    wanted: &[u8],
) -> Result<bool, AllocError>
    ensures { IfOk result (λ differs. differs ≡ differs_by_number heard.now wanted.now) }
{
    match (packet_told(alloc, heard)?, packet_told(alloc, wanted)?) {
        (Some(heard), Some(wanted)) => Ok(differs_in_number(&heard, &wanted)),
        _ => Ok(false),
    }
}
