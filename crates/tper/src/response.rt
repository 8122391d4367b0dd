//! The responses that wait, and the room of one (TCG Core 2.01, section 3.3.10.3).

ghost use Rattle.std.specs.Prelude.{◌≡◌, ◌==◌, ◌<◌, ◌≤◌, ◌++◌, ◌-◌, ◌∷◌, [], ℕ, List, true, Option, option_copied, None, Some, length, IfOk, OnOk, OnErr, replicate, slice_index_or, if◌then◌else◌, false};
ghost use Rattle.compacket.specs.declared.headers.TheConstants.{MAX_COM_PACKET};
ghost use Rattle.device_data.specs.ErrorLog.{sized};
ghost use Rattle.history.specs.Decisions.{is_session_com_id};
ghost use Rattle.history.specs.Tcg.{received_bytes};
ghost use Rattle.tper.specs.Tper.{response_at, fits_in};

use compacket::{
    ComId, HEADERS, MAX_COM_PACKET, Session, empty_header, headers_before, headers_room,
    padding_into, short_header,
};
use std::alloc::{AllocError, Global};
use std::marker::Model;
use std::mem::replace;
use tcg_tokens::{Item, write_item_into};

/// How many ComIDs sessions have.
const COM_IDS: usize = 4;

/// The first of them.
const FIRST_COM_ID: ComId = 0x1000;

/// Whether it is one of the four ComIDs of sessions, 1000h to 1003h.
pub fn is_session_com_id(com_id: ComId) -> bool
    ensures { result ≡ is_session_com_id com_id }
{
    (FIRST_COM_ID..=FIRST_COM_ID + 3).contains(&com_id)
}

/// The bytes of a response, a ComPacket: 65,536 at most.
#[derive(Drop)]
pub struct Response {
    bytes: Vec<u8>,
}

impl Model for Response {
    ghost use Rattle.std.specs.Prelude.{ℕ, List, ◌≤◌, length};
    ghost use Rattle.compacket.specs.declared.headers.TheConstants.{MAX_COM_PACKET};

    ghost Value = { List ℕ };

    ghost view = { λ r. r.bytes.items };

    ghost invariant = { λ r. length r.bytes.items ≤ MAX_COM_PACKET };
}

impl Response {
    ghost use Rattle.std.specs.Prelude.{◌≡◌, ◌≤◌, length, IfOk, MatchResult};
    ghost use Rattle.compacket.specs.declared.headers.TheConstants.{MAX_COM_PACKET};

    pub fn new(bytes: Vec<u8>) -> Response
        requires { length bytes.items ≤ MAX_COM_PACKET }
        ensures { result ≡ bytes.items }
    {
        Response { bytes }
    }

    /// The same response once more.
    fn copy(&self) -> Result<Response, AllocError>
        ensures { IfOk result (λ copied. copied ≡ self.now) }
    {
        let bytes = self.bytes.clone()?;
        Ok(Response { bytes })
    }

    /// The bytes with zeros behind them up to a length, in the vector that they stand in; where memory is refused, the
    /// response as it was.
    fn padded(self, room: usize) -> Result<Vec<u8>, Response>
        requires { length self ≤ room }
        ensures { MatchResult result (λ v. v.items ≡ sized room self) (λ r. r ≡ self) }
    {
        let Response { mut bytes } = self;
        match bytes.resize(room, 0) {
            Ok(()) => Ok(bytes),
            Err(_) => Err(Response { bytes }),
        }
    }

    fn as_slice(&self) -> &[u8]
        ensures value { result.now ≡ self.now }
        ensures most { length result.now ≤ MAX_COM_PACKET }
    {
        self.bytes.as_slice()
    }
}

/// The response that waits on each ComID.
#[derive(Drop)]
pub struct Responses {
    pub waiting: [Option<Response>; COM_IDS],
}

/// Bytes with zeros behind them up to a length, or cut at it.
pub fn sized(alloc: Global, bytes: &[u8], length: usize) -> Result<Vec<u8>, AllocError>
    ensures { IfOk result (λ v. v.items ≡ sized length bytes.now) }
{
    let mut out = Vec::with_capacity(alloc, length)?;
    let shown = bytes.len().min(length);
    out.extend_from_slice(&bytes[..shown])?;
    out.resize(length, 0)?;
    Ok(out)
}

/// How many bytes a response has.
fn size_of(response: &[u8]) -> u32
    requires { length response.now ≤ MAX_COM_PACKET }
    ensures { result ≡ length response.now }
{
    response.len() as u32
}

/// The same response once more, where one waits.
fn copy_waiting(waiting: &Option<Response>) -> Result<Option<Response>, AllocError>
    ensures { IfOk result (λ copied. copied ≡ waiting.now) }
{
    match waiting {
        Some(response) => Ok(Some(response.copy()?)),
        None => Ok(None),
    }
}

impl Responses {
    /// None waits.
    pub fn new() -> Responses
        ensures { (com_id : ℕ) → response_at result.waiting com_id ≡ None }
    {
        Responses {
            waiting: [None, None, None, None],
        }
    }

    /// The same responses once more, in memory of their own.
    pub fn copy(&self) -> Result<Responses, AllocError>
        ensures { IfOk result (λ copied. copied.waiting ≡ self.now.waiting) }
    {
        let [first, second, third, fourth] = &self.waiting;
        Ok(Responses {
            waiting: [
                copy_waiting(first)?,
                copy_waiting(second)?,
                copy_waiting(third)?,
                copy_waiting(fourth)?,
            ],
        })
    }

    /// The response that waits on a ComID.
    pub fn at(&self, com_id: ComId) -> Option<&Response>
        ensures { option_copied result ≡ response_at self.now.waiting com_id }
    {
        if !is_session_com_id(com_id) {
            return None;
        }
        self.waiting[usize::from(com_id - FIRST_COM_ID)].as_ref()
    }

    /// A response waits on a ComID, or none does.
    pub fn put(&mut self, com_id: ComId, response: Option<Response>)
        requires { is_session_com_id com_id ≡ true }
        ensures { (other : ℕ) → response_at self.new.waiting other
            ≡ (if com_id == other then response else response_at self.old.waiting other) }
    {
        self.waiting[usize::from(com_id - FIRST_COM_ID)] = response;
    }

    /// None waits any more.
    pub fn clear(&mut self)
        ensures { (com_id : ℕ) → response_at self.new.waiting com_id ≡ None }
    {
        self.waiting = [None, None, None, None];
    }

    /// The data of a receive on a ComID where no response waits that has room: a header that tells the size of the longer
    /// one, and an empty header where none waits.
    pub fn data(&self, alloc: Global, com_id: ComId, room: usize) -> Result<Vec<u8>, AllocError>
        requires { fits_in room (response_at self.now.waiting com_id) ≡ false }
        ensures { IfOk result (λ v. v.items
            ≡ sized room (received_bytes com_id room (response_at self.now.waiting com_id))) }
    {
        match self.at(com_id) {
            None => sized(alloc, &empty_header(com_id), room),
            Some(response) => sized(
                alloc,
                &short_header(com_id, size_of(response.as_slice())),
                room,
            ),
        }
    }

    /// Takes the response that waits on a ComID and has room in a transfer: the data of the receive, in the vector that
    /// the response stood in. Where memory is refused, it waits on.
    pub fn take(&mut self, com_id: ComId, room: usize) -> Result<Vec<u8>, AllocError>
        requires com_id { is_session_com_id com_id ≡ true }
        requires fits { fits_in room (response_at self.old.waiting com_id) ≡ true }
        ensures data { IfOk result (λ v. v.items
            ≡ sized room (received_bytes com_id room (response_at self.old.waiting com_id))) }
        ensures taken { OnOk result ((other : ℕ) → response_at self.new.waiting other
            ≡ (if com_id == other then None else response_at self.old.waiting other)) }
        ensures err { OnErr result (self.new.waiting ≡ self.old.waiting) }
    {
        let place = usize::from(com_id - FIRST_COM_ID);
        let Some(response) = replace(&mut self.waiting[place], None) else {
            unreachable!()
        };
        match response.padded(room) {
            Ok(data) => Ok(data),
            Err(response) => {
                self.waiting[place] = Some(response);
                Err(AllocError)
            }
        }
    }

    /// Whether the response that waits on a ComID, if one does, has room in a transfer.
    pub fn fits(&self, com_id: ComId, room: usize) -> bool
        ensures { result ≡ fits_in room (response_at self.now.waiting com_id) }
    {
        match self.at(com_id) {
            None => false,
            Some(response) => response.as_slice().len() <= room,
        }
    }
}

/// Room for the longest frame.
#[derive(Drop)]
pub struct Room {
    frame: Vec<u8>,
}

impl Model for Room {
    ghost use Rattle.std.specs.Prelude.{vec_capacity, ◌≤◌};
    ghost use Rattle.compacket.specs.declared.headers.TheConstants.{MAX_COM_PACKET};

    ghost Value = { Unit {0} };

    ghost view = { λ r. tt };

    ghost invariant = { λ r. MAX_COM_PACKET ≤ vec_capacity r.frame };
}

impl Room {
    ghost use Rattle.std.specs.Prelude.{◌≡◌, true};
    ghost use Rattle.tcg_tokens.specs.Message.{message};
    ghost use Rattle.tcg_tokens.specs.Spelling.{item_spelling_of};
    ghost use Rattle.tcg_calls.specs.Carried.{is_carried};
    ghost use Rattle.compacket.specs.Spelling.{frame_bytes};

    /// All memory that an answer can want: that of a vector at hand, where it is enough.
    pub fn over(alloc: Global, spare: &mut Vec<u8>) -> Result<Room, AllocError> {
        let mut frame = replace(spare, Vec::new(alloc));
        frame.clear();
        frame.reserve(MAX_COM_PACKET)?;
        Ok(Room { frame })
    }

    /// The frame of an answer.
    pub fn framed(self, com_id: ComId, session: Session, answer: &Item) -> Response
        requires { is_carried (message answer.now) ≡ true }
        ensures { result ≡ frame_bytes com_id session (item_spelling_of (message answer.now)) }
    {
        let Room { mut frame } = self;
        frame.clear();
        headers_room(&mut frame);
        write_item_into(answer, &mut frame);
        headers_before(com_id, session, &mut frame);
        let len = frame.len() - HEADERS;
        padding_into(len, &mut frame);
        Response::new(frame)
    }
}
