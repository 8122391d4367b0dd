//! What is told behind a rule of what was sent: who holds the SP, what ended the session, which argument is at fault.

ghost use Rattle.std.specs.Prelude.{◌≡◌, ◌++◌, IfOk, OnOk, map, option_map};
ghost use Rattle.tcg_tokens.specs.Tree.{tree};
ghost use Rattle.reasons.specs.Lives.{life_on};
ghost use Rattle.reasons.specs.Asked.{seen_with, MetLaw, LongLaw};
ghost use Rattle.reasons.specs.Sent.{call_seen, sp_wanted};
ghost use Rattle.reasons.specs.Arguments.{ArgumentLaw};
ghost use Rattle.reasons.specs.Untaken.{UntakenColumnLaw, UntakenLaw};
ghost use Rattle.reasons.specs.Details.{session_words, act_line, started_words, freed_line, busy_since, busy_if, busy_text, ended_words, ended_since, elsewhere_line, ended_if, lost_on, lost_text, writes_fault, sp_fault, is_host_number, start_fault, start_words, start_line, is_start_call, shape_text, lifted_text, detail_text, details_text, StartFaultLaw};

use crate::arguments::append_arguments;
use crate::asked::{append_asked, is_last};
use crate::explained::{
    Cause, Counted, Onset, SessionChronicle, Source, append_client, append_number, counted_word,
    reset_kind,
};
use crate::remedies::{append_object_name, sp_object};
use crate::rulings::append_because;
use crate::sent::{call_sent, session_named, sp_of_args};
use crate::untaken::append_untaken;
use audit::rules::Rule;
use sp_cells::{Rows, Sp, Uid};
use std::alloc::{AllocError, Global};
use tcg_calls::call_shapes::{number_in, uid_in, uid_of};
use tcg_tokens::{Call, Value};

/// What is wrong with the required arguments of a StartSession.
#[derive(Clone, Copy, Debug, PartialEq, Eq)]
pub enum StartFault {
    /// There are not three.
    TooFew,
    /// HostSessionID is no number of 32 bits.
    HostSession,
    /// SPID is no name.
    Spid,
    /// Write is not 1.
    Write,
}

/// Appends a session by its number and its SP.
pub(crate) fn append_session(
    alloc: Global,
    text: &mut Vec<u8>,
    sp: Sp,
    session: u64,
) -> Result<(), AllocError>
    ensures { OnOk result (text.new.items ≡ text.old.items ++ session_words sp session) }
{
    append_number(alloc, text, b"session ", session)?;
    text.extend_from_slice(b" on ")?;
    append_object_name(alloc, text, sp_object(sp))?;
    Ok(())
}

/// Appends what an act did, with its number and its line, as a line with its line feed.
fn append_act(
    alloc: Global,
    text: &mut Vec<u8>,
    counted: Counted,
    number: u64,
    source: Source,
    words: &[u8],
) -> Result<(), AllocError>
    ensures { OnOk result (text.new.items
        ≡ text.old.items ++ act_line counted number source words.now) }
{
    let mut line = Vec::new(alloc);
    append_number(alloc, &mut line, counted_word(counted), number)?;
    line.extend_from_slice(b": ")?;
    line.extend_from_slice(words)?;
    append_number(alloc, &mut line, b", line ", source.line)?;
    append_because(text, &line)?;
    Ok(())
}

/// The StartSession of a session.
fn started_words(alloc: Global, sp: Sp, session: u64, source: Source) -> Result<Vec<u8>, AllocError>
    ensures { IfOk result (λ words. words.items ≡ started_words sp session source) }
{
    let mut words = Vec::new(alloc);
    words.extend_from_slice(b"StartSession of ")?;
    append_session(alloc, &mut words, sp, session)?;
    append_number(alloc, &mut words, b" by client ", u64::from(source.client))?;
    Ok(words)
}

/// Appends what ends a session, as a line with its line feed.
fn append_freed(alloc: Global, text: &mut Vec<u8>, session: u64) -> Result<(), AllocError>
    ensures { OnOk result (text.new.items ≡ text.old.items ++ freed_line session) }
{
    append_number(alloc, text, b"lifted by: the end of session ", session)?;
    text.extend_from_slice(b", or a reset")?;
    text.extend_from_slice(b"\n")?;
    Ok(())
}

/// Appends since when a session has lived on an SP, and what ends it.
fn append_busy_since(
    alloc: Global,
    text: &mut Vec<u8>,
    counted: Counted,
    sp: Sp,
    session: u64,
    onset: Onset,
) -> Result<(), AllocError>
    ensures { OnOk result (text.new.items
        ≡ text.old.items ++ busy_since counted sp session onset) }
{
    match onset {
        Onset::AtOpening => {}
        Onset::AtAct { number, source, .. } => {
            let words = started_words(alloc, sp, session, source)?;
            append_act(alloc, text, counted, number, source, &words)?;
            append_freed(alloc, text, session)?;
        }
    }
    Ok(())
}

/// The same of the session of a number, where both are known.
fn append_busy_if(
    alloc: Global,
    text: &mut Vec<u8>,
    counted: Counted,
    sp: Sp,
    since: Option<Onset>,
    last: Option<u64>,
) -> Result<(), AllocError>
    ensures { OnOk result (text.new.items ≡ text.old.items ++ busy_if counted sp since last) }
{
    match (since, last) {
        (Some(onset), Some(session)) => append_busy_since(alloc, text, counted, sp, session, onset),
        (Some(_), None) => Ok(()),
        (None, _) => Ok(()),
    }
}

/// Appends who holds an SP.
fn append_busy(
    alloc: Global,
    text: &mut Vec<u8>,
    counted: Counted,
    sessions: &SessionChronicle,
    sp: Option<Sp>,
) -> Result<(), AllocError>
    ensures { OnOk result (text.new.items
        ≡ text.old.items ++ busy_text counted (life_on sessions.now) sp) }
{
    match sp {
        Some(sp) => {
            let life = sessions.on(sp);
            append_busy_if(alloc, text, counted, sp, life.busy, life.last)
        }
        None => Ok(()),
    }
}

/// What ended a session.
fn ended_words(
    alloc: Global,
    sp: Sp,
    session: u64,
    source: Source,
    cause: Cause,
) -> Result<Vec<u8>, AllocError>
    ensures { IfOk result (λ words. words.items ≡ ended_words sp session source cause) }
{
    let mut words = Vec::new(alloc);
    match cause {
        Cause::ResetBy(kind) => {
            words.extend_from_slice(reset_kind(kind))?;
            words.extend_from_slice(b", which ended ")?;
            append_session(alloc, &mut words, sp, session)?;
        }
        Cause::SetIn(its) | Cause::CommittedIn(its) => {
            words.extend_from_slice(b"end of ")?;
            append_session(alloc, &mut words, sp, session)?;
            append_client(alloc, &mut words, source, its)?;
        }
        Cause::NoCause => {
            words.extend_from_slice(b"end of ")?;
            append_session(alloc, &mut words, sp, session)?;
        }
    }
    Ok(words)
}

/// Appends since when a session is gone.
fn append_ended_since(
    alloc: Global,
    text: &mut Vec<u8>,
    counted: Counted,
    sp: Sp,
    session: u64,
    onset: Onset,
) -> Result<(), AllocError>
    ensures { OnOk result (text.new.items
        ≡ text.old.items ++ ended_since counted sp session onset) }
{
    match onset {
        Onset::AtOpening => {}
        Onset::AtAct {
            number,
            source,
            cause,
        } => {
            let words = ended_words(alloc, sp, session, source, cause)?;
            append_act(alloc, text, counted, number, source, &words)?;
        }
    }
    Ok(())
}

/// Appends that a session lives under other numbers than those that were named.
fn append_elsewhere(
    alloc: Global,
    text: &mut Vec<u8>,
    sp: Sp,
    session: u64,
) -> Result<(), AllocError>
    ensures { OnOk result (text.new.items ≡ text.old.items ++ elsewhere_line sp session) }
{
    let mut words = Vec::new(alloc);
    append_session(alloc, &mut words, sp, session)?;
    words.extend_from_slice(b" lives with another number of its host, or on another ComID")?;
    append_because(text, &words)?;
    Ok(())
}

/// Appends what ended a session, or that it lives.
fn append_ended_if(
    alloc: Global,
    text: &mut Vec<u8>,
    counted: Counted,
    sp: Sp,
    session: u64,
    since: Option<Onset>,
) -> Result<(), AllocError>
    ensures { OnOk result (text.new.items
        ≡ text.old.items ++ ended_if counted sp session since) }
{
    match since {
        Some(onset) => append_ended_since(alloc, text, counted, sp, session, onset),
        None => append_elsewhere(alloc, text, sp, session),
    }
}

/// Appends what is known of a session that is named, where it is the last one of an SP.
fn append_lost_on(
    alloc: Global,
    text: &mut Vec<u8>,
    counted: Counted,
    sessions: &SessionChronicle,
    session: u64,
    sp: Sp,
) -> Result<(), AllocError>
    ensures { OnOk result (text.new.items
        ≡ text.old.items ++ lost_on counted (life_on sessions.now) session sp) }
{
    let life = sessions.on(sp);
    if is_last(session, life.last) {
        append_ended_if(alloc, text, counted, sp, session, life.free)?;
    }
    Ok(())
}

/// Appends what is known of a session that is named.
fn append_lost(
    alloc: Global,
    text: &mut Vec<u8>,
    counted: Counted,
    sessions: &SessionChronicle,
    session: u64,
) -> Result<(), AllocError>
    ensures { OnOk result (text.new.items
        ≡ text.old.items ++ lost_text counted (life_on sessions.now) session) }
{
    append_lost_on(alloc, text, counted, sessions, session, Sp::Admin)?;
    append_lost_on(alloc, text, counted, sessions, session, Sp::Locking)?;
    Ok(())
}

/// What is wrong with Write.
fn writes_fault(writes: Option<u64>) -> Option<StartFault>
    ensures { result ≡ writes_fault writes }
{
    match writes {
        Some(1) => None,
        Some(_) => Some(StartFault::Write),
        None => Some(StartFault::Write),
    }
}

/// What is wrong with SPID, or with Write.
fn sp_fault(spid: &Value, writes: &Value) -> Option<StartFault>
    ensures { result ≡ sp_fault (tree spid.now) (tree writes.now) }
{
    if uid_in(spid).is_some() {
        writes_fault(number_in(writes))
    } else {
        Some(StartFault::Spid)
    }
}

/// Whether it is a number of 32 bits.
fn is_host_number(host: Option<u64>) -> bool
    ensures { result ≡ is_host_number host }
{
    match host {
        Some(host) => host <= u64::from(u32::MAX),
        None => false,
    }
}

/// What is wrong with the required arguments of a StartSession.
fn start_fault(args: &[Value]) -> Option<StartFault>
    ensures { result ≡ start_fault (map tree args.now) }
{
    let [host, spid, writes, ..] = args else {
        return Some(StartFault::TooFew);
    };
    if is_host_number(number_in(host)) {
        sp_fault(spid, writes)
    } else {
        Some(StartFault::HostSession)
    }
}

/// The same in words.
fn start_words(fault: StartFault) -> &'static [u8]
    ensures { result.now ≡ start_words fault }
{
    match fault {
        StartFault::TooFew => b"StartSession wants HostSessionID, SPID and Write",
        StartFault::HostSession => b"HostSessionID of StartSession is no number of 32 bits",
        StartFault::Spid => b"SPID of StartSession is no name of eight bytes",
        StartFault::Write => {
            b"Write of StartSession is not 1: each session of this drive reads and writes"
        }
    }
}

/// Appends the line of a fault, if there is one.
fn append_start(text: &mut Vec<u8>, fault: Option<StartFault>) -> Result<(), AllocError>
    ensures { OnOk result (text.new.items ≡ text.old.items ++ start_line fault) }
{
    if let Some(fault) = fault {
        append_because(text, start_words(fault))?;
    }
    Ok(())
}

/// Whether a call is a StartSession.
fn is_start_call(call: &Call) -> bool
    ensures { result ≡ is_start_call (call_seen call.now) }
{
    uid_of(&call.object) == Uid::SESSION_MANAGER && uid_of(&call.method) == Uid::START_SESSION
}

/// Appends which argument of a call is at fault, where it is known.
fn append_shape(text: &mut Vec<u8>, call: Option<&Call>) -> Result<(), AllocError>
    ensures { OnOk result (text.new.items
        ≡ text.old.items ++ shape_text (option_map (λ c. call_seen c.now) call.entry)) }
{
    match call {
        Some(call) if is_start_call(call) => append_start(text, start_fault(&call.args)),
        _ => Ok(()),
    }
}

/// The SP that a call names, which is a StartSession.
fn sp_wanted(call: Option<&Call>) -> Option<Sp>
    ensures { result ≡ sp_wanted (option_map (λ c. call_seen c.now) call.entry) }
{
    sp_of_args(&call?.args)
}

/// Appends what would be taken, as a line with its line feed.
fn append_lifted(text: &mut Vec<u8>, words: &[u8]) -> Result<(), AllocError>
    ensures { OnOk result (text.new.items ≡ text.old.items ++ lifted_text words.now) }
{
    text.extend_from_slice(b"lifted by: ")?;
    text.extend_from_slice(words)?;
    text.extend_from_slice(b"\n")?;
    Ok(())
}

/// Appends what is told behind the line of a rule.
fn append_detail<R: Rows>(
    alloc: Global,
    text: &mut Vec<u8>,
    counted: Counted,
    rows: &R,
    room: u64,
    sessions: &SessionChronicle,
    payload: &[u8],
    rule: Rule,
) -> Result<(), AllocError>
    ensures { OnOk result (text.new.items ≡ text.old.items
        ++ detail_text counted (seen_with (R.profile_of rows.now) (R.look_up rows.now)
        (R.sizes_of rows.now) room) (life_on sessions.now) payload.now rule) }
{
    match rule {
        Rule::SpBusy => {
            let call = call_sent(alloc, payload)?;
            append_busy(alloc, text, counted, sessions, sp_wanted(call.as_ref()))
        }
        Rule::NoSession => {
            let session = u64::from(session_named(payload));
            append_lost(alloc, text, counted, sessions, session)
        }
        Rule::Shape => {
            let call = call_sent(alloc, payload)?;
            append_shape(text, call.as_ref())?;
            append_arguments(alloc, text, rows.profile(), sessions, payload)
        }
        Rule::WrongValue => {
            append_asked(alloc, text, rows, room, sessions, payload, rule)?;
            append_untaken(alloc, text, rows.profile(), sessions, payload)
        }
        Rule::OutsideTable | Rule::TooLong | Rule::NotSet(_) => {
            append_asked(alloc, text, rows, room, sessions, payload, rule)
        }
        Rule::ManyRandomBytes => append_lifted(text, b"Random of at most 32 bytes"),
        Rule::NoStackReset => append_lifted(text, b"the ComID, two bytes of zeros, and 00000002h"),
        Rule::NoSubpacket => append_lifted(text, b"a StartSession"),
        _ => Ok(()),
    }
}

/// The lines that tell more of what was sent and a rule refused, each with its line feed: who holds the SP that is busy, what
/// ended the session, which argument, range or row is at fault, what would be taken. Nothing where more is not known.
/// `rows` are those that the session sees which is named, and `room` is how many bytes of tokens a response to it has room for.
///
/// # Errors
///
/// An allocation was refused.
pub fn details_of<R: Rows>(
    alloc: Global,
    counted: Counted,
    rows: &R,
    room: u64,
    sessions: &SessionChronicle,
    payload: &[u8],
    rule: Option<Rule>,
) -> Result<Vec<u8>, AllocError>
    ensures { IfOk result (λ text. text.items
        ≡ details_text counted (seen_with (R.profile_of rows.now) (R.look_up rows.now)
        (R.sizes_of rows.now) room) (life_on sessions.now) payload.now rule) }
{
    let mut text = Vec::new(alloc);
    if let Some(rule) = rule {
        append_detail(
            alloc, &mut text, counted, rows, room, sessions, payload, rule,
        )?;
    }
    Ok(text)
}

/// What is told of refused calls.
///
/// `starts`: a StartSession with an argument that is told to be at fault asks for nothing, whatever the others are. `met`: a
/// range that is told to be met has a sector of the other one. `long`: a response of so many bytes has as many bytes of tokens
/// as are told. `untaken`: a column of a Set is told exactly where a Set of these values sets nothing. `column`: that column
/// takes no such value, and those before it take theirs. `arguments`: an argument of a method is told exactly where a call
/// asks nothing.
pub fn laws_of_details()
    ensures starts { StartFaultLaw }
    ensures met { MetLaw }
    ensures long { LongLaw }
    ensures untaken { UntakenLaw }
    ensures column { UntakenColumnLaw }
    ensures arguments { ArgumentLaw }
{}
