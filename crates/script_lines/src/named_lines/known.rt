//! The sessions that the clients of a script know, and the `call` lines that lines by name stand for.

ghost use Rattle.std.specs.Prelude.{◌≡◌, ◌++◌, codes, decimal, IfOk, OnOk};
ghost use Rattle.tcg_tokens.specs.Message.{message};
ghost use Rattle.tcg_tokens.specs.Tree.{tree, trees};
ghost use Rattle.script_lines.specs.CallVerbs.{call_verb_of};
ghost use Rattle.script_lines.specs.Words.{first_word};
ghost use Rattle.script_lines.specs.KnownSessions.{call_line_text, manager_at, session_of_numbers, session_behind, session_among, is_sync_session, is_success, session_of_call, session_begun, session_in, received_in, session_told, receiver_of};

use crate::line::Line;
use crate::named_lines::fault::CallFault;
use crate::named_lines::line::NamedLine;
use crate::named_lines::verb::{CallVerb, call_verb_of};
use crate::named_lines::words::hex_or_none;
use crate::words::{Words, is_word};
use basics::{append_decimal, append_hex};
use compacket::{Session, open};
use indexmap::IndexMap;
use sp_cells::Uid;
use std::alloc::{AllocError, Global};
use std::marker::Model;
use tcg_calls::call_shapes::{number_in, uid_of};
use tcg_tokens::{Bytes, Call, Item, TokenError, Value, read_item};

/// The largest number of a session, of the host or of the TPer.
const MOST: u64 = 0xffff_ffff;

/// A session that a client knows: the ComID that it is reached by, and its numbers.
#[derive(Clone, Copy, Debug, PartialEq, Eq)]
pub struct KnownSession {
    pub com_id: u16,
    pub session: Session,
}

/// The session manager, by a ComID.
fn manager_at(com_id: u16) -> KnownSession
    ensures { result ≡ manager_at com_id }
{
    KnownSession {
        com_id,
        session: Session { tsn: 0, hsn: 0 },
    }
}

/// Appends a blank and a number.
fn append_number(alloc: Global, text: &mut Vec<u8>, number: u64) -> Result<(), AllocError>
    ensures { OnOk result (text.new.items ≡ text.old.items ++ codes " " ++ decimal number) }
{
    text.push(b' ')?;
    append_decimal(alloc, text, number)?;
    Ok(())
}

/// The `call` line of these tokens in a session.
fn call_line_text(
    alloc: Global,
    client: u32,
    known: KnownSession,
    tokens: &[u8],
) -> Result<Bytes, AllocError>
    ensures { IfOk result (λ line. line ≡ call_line_text client known tokens.now) }
{
    let mut line = Vec::new(alloc);
    line.extend_from_slice(b"call ")?;
    append_decimal(alloc, &mut line, u64::from(client))?;
    append_number(alloc, &mut line, u64::from(known.com_id))?;
    append_number(alloc, &mut line, u64::from(known.session.tsn))?;
    append_number(alloc, &mut line, u64::from(known.session.hsn))?;
    line.push(b' ')?;
    append_hex(&mut line, tokens)?;
    Ok(Bytes::from_vec(line))
}

/// Two numbers of 32 bits, that of the host and that of the TPer.
fn session_of_numbers(hsn: Option<u64>, tsn: Option<u64>) -> Option<Session>
    ensures { result ≡ session_of_numbers hsn tsn }
{
    match (hsn, tsn) {
        (Some(hsn), Some(tsn)) if hsn <= MOST && tsn <= MOST => Some(Session {
            tsn: tsn as u32,
            hsn: hsn as u32,
        }),
        _ => None,
    }
}

/// The session of a SyncSession whose arguments are a first one and others.
fn session_behind(hsn: &Value, others: &[Value]) -> Option<Session>
    ensures { result ≡ session_behind (tree hsn.now) (trees others.now) }
{
    match others {
        [] => None,
        [tsn, ..] => session_of_numbers(number_in(hsn), number_in(tsn)),
    }
}

/// The session of the arguments of a SyncSession.
fn session_among(args: &[Value]) -> Option<Session>
    ensures { result ≡ session_among (trees args.now) }
{
    match args {
        [] => None,
        [hsn, others @ ..] => session_behind(hsn, others),
    }
}

/// Whether a call is a SyncSession of the session manager.
fn is_sync_session(object: Uid, method: Uid) -> bool
    ensures { result ≡ is_sync_session object method }
{
    object == Uid::SESSION_MANAGER && method == Uid::SYNC_SESSION
}

/// Whether a status list tells success.
fn is_success(status: &[u64]) -> bool
    ensures { result ≡ is_success status.now }
{
    match status {
        [] => false,
        [status, ..] => *status == 0,
    }
}

/// The session that a call says was begun.
fn session_of_call(call: &Call) -> Option<Session>
    ensures { result ≡ session_of_call call.now.object call.now.method (trees call.now.args.items)
        call.now.status }
{
    if !is_sync_session(uid_of(&call.object), uid_of(&call.method)) {
        return None;
    }
    if !is_success(&call.status) {
        return None;
    }
    session_among(&call.args)
}

/// The session that an item says was begun.
fn session_begun(item: &Item) -> Option<Session>
    ensures { result ≡ session_begun (message item.now) }
{
    match item {
        Item::Call(call) => session_of_call(call),
        Item::Reply { .. } => None,
        Item::EndSession => None,
        Item::Begin(_) => None,
        Item::End(_) => None,
    }
}

/// The session that a ComPacket says was begun.
fn session_in(alloc: Global, received: &[u8]) -> Result<Option<Session>, AllocError>
    ensures { IfOk result (λ session. session ≡ session_in received.now) }
{
    let Ok(frame) = open(received) else {
        return Ok(None);
    };
    match read_item(alloc, frame.payload) {
        Ok(item) => Ok(session_begun(&item)),
        Err(TokenError::OutOfMemory) => Err(AllocError),
        Err(_) => Ok(None),
    }
}

/// The bytes that a printed line shows, where it shows what was received.
fn received_in(alloc: Global, printed: &[u8]) -> Result<Option<Bytes>, AllocError>
    ensures { IfOk result (λ received. received ≡ received_in printed.now) }
{
    let mut words = Words::new(printed);
    if is_word(words.next_word(), b"data") {
        return hex_or_none(alloc, words.next_word());
    }
    Ok(None)
}

/// The session that a printed line says was begun.
fn session_told(alloc: Global, printed: &[u8]) -> Result<Option<Session>, AllocError>
    ensures { IfOk result (λ session. session ≡ session_told printed.now) }
{
    match received_in(alloc, printed)? {
        Some(received) => session_in(alloc, received.as_slice()),
        None => Ok(None),
    }
}

/// The client that receives by a line, and its ComID.
fn receiver_of(line: &Line<'_>) -> Option<(u32, u16)>
    ensures { result ≡ receiver_of line.now }
{
    match line {
        Line::Receive { client, com_id, .. } => Some((*client, *com_id)),
        _ => None,
    }
}

/// The verb of a line that writes a call by name.
pub fn call_verb_in(text: &[u8]) -> Option<CallVerb>
    ensures { result ≡ call_verb_of (first_word text.now) }
{
    let mut words = Words::new(text);
    call_verb_of(words.next_word())
}

/// The sessions that the clients of a script know: of each client the one that was begun last of those whose SyncSession it
/// received (TCG Core 2.01, 5.2.3.2).
#[derive(Drop)]
pub struct KnownSessions {
    of_clients: IndexMap<u32, KnownSession>,
}

impl Model for KnownSessions {
    ghost use Rattle.script_lines.specs.KnownSessions.{Known};

    ghost Value = { Known };

    ghost view = { λ k. k.of_clients.entries };
}

impl KnownSessions {
    ghost use Rattle.std.specs.Prelude.{◌≡◌, [], IfOk, OnOk, OnErr, nat_eq, option_copied};
    ghost use Rattle.std.specs.Map.{lookup};
    ghost use Rattle.script_lines.specs.KnownSessions.{call_of, called_by, knows_too, session_told, told_to, learned};

    /// No client knows one.
    pub fn new(alloc: Global) -> KnownSessions
        ensures { result ≡ [] }
    {
        KnownSessions {
            of_clients: IndexMap::new(alloc),
        }
    }

    /// The `call` line of a line in the session that its client knows, or with the session manager, where it begins one.
    fn called_by(
        &self,
        alloc: Global,
        line: &NamedLine,
    ) -> Result<Result<Bytes, CallFault>, AllocError>
        ensures { IfOk result (λ call. call ≡ called_by self.now line.now line.now.com_id) }
    {
        let tokens = line.tokens.as_slice();
        if let Some(com_id) = line.com_id {
            let call = call_line_text(alloc, line.client, manager_at(com_id), tokens)?;
            return Ok(Ok(call));
        }
        match self.of_clients.get(&line.client) {
            Some(known) => Ok(Ok(call_line_text(alloc, line.client, *known, tokens)?)),
            None => Ok(Err(CallFault::NoSession(line.client))),
        }
    }

    /// The `call` line that a line of this verb stands for, by the sessions that are known, or why it stands for none.
    ///
    /// # Errors
    ///
    /// An allocation was refused.
    pub fn call_of(
        &self,
        alloc: Global,
        verb: CallVerb,
        text: &[u8],
    ) -> Result<Result<Bytes, CallFault>, AllocError>
        ensures { IfOk result (λ call. call ≡ call_of self.now verb text.now) }
    {
        match NamedLine::of_verb(alloc, verb, text)? {
            Some(line) => self.called_by(alloc, &line),
            None => Ok(Err(CallFault::NoCall(verb))),
        }
    }

    /// The client knows this session, and no other any more.
    fn add(&mut self, client: u32, com_id: u16, session: Session) -> Result<(), AllocError>
        ensures added { OnOk result (self.new ≡ knows_too self.old client com_id (Some session)) }
        ensures err { OnErr result (self.new ≡ self.old) }
    {
        let known = KnownSession { com_id, session };
        self.of_clients.insert(client, known)?;
        Ok(())
    }

    /// A receiver is told what a line printed: it knows the session that a SyncSession says was begun.
    fn tell(
        &mut self,
        alloc: Global,
        receiver: Option<(u32, u16)>,
        printed: &[u8],
    ) -> Result<(), AllocError>
        ensures told { OnOk result
            (self.new ≡ told_to self.old receiver (session_told printed.now)) }
        ensures err { OnErr result (self.new ≡ self.old) }
    {
        let Some((client, com_id)) = receiver else {
            return Ok(());
        };
        match session_told(alloc, printed)? {
            Some(session) => self.add(client, com_id, session),
            None => Ok(()),
        }
    }

    /// Learns from what a line printed: a `recv` line that printed a SyncSession tells its client of a session.
    ///
    /// # Errors
    ///
    /// An allocation was refused. Then nothing is learned.
    pub fn learn(&mut self, alloc: Global, text: &[u8], printed: &[u8]) -> Result<(), AllocError>
        ensures learned { OnOk result (self.new ≡ learned self.old text.now printed.now) }
        ensures err { OnErr result (self.new ≡ self.old) }
    {
        match Line::parse(text) {
            Ok(line) => self.tell(alloc, receiver_of(&line), printed),
            Err(_) => Ok(()),
        }
    }
}
