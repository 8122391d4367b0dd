//! What a call is answered.

ghost use Rattle.std.specs.Prelude.{◌≡◌, ◌&&◌, true, false, [], ◌∷◌, map, None, Some, is_some, nat_le, IfOk, IfSome};
ghost use Rattle.tcg_tokens.specs.Tree.{tree, number};
ghost use Rattle.tcg_tokens.specs.Message.{message};
ghost use Rattle.tcg_tokens.specs.Length.{len_of};
ghost use Rattle.tcg_calls.specs.Carried.{is_carried};
ghost use Rattle.sessions.specs.Live.{session_room};
ghost use Rattle.tcg_calls.specs.Statuses.{success, not_authorized};
ghost use Rattle.shadow_mbr.specs.Erasure.{no_sectors};
ghost use Rattle.methods.specs.Said.{reply_of, refusal_of};
ghost use Rattle.methods.specs.Judgement.{Denies, Refuses, fits as fits_in, gives};
ghost use Rattle.methods.specs.Calls.{Tells};

use audit::Why;
use audit::rules::Rule;
use sessions::Sessions;
use shadow_mbr::Erased;
use std::alloc::{AllocError, AllocFailed, Global};
use tcg_calls::call_shapes::limits::MOST_RESPONSE;
use tcg_calls::call_shapes::status;
use tcg_tokens::{Item, Value, item_len, writable};
use thiserror::Error;
use transactions::{SessionId, Store};

/// What comes of a call: the reply, why it was denied, which rule refused it where nothing denied it, which sectors
/// become zeros, and whether rows or bytes may have changed.
#[derive(Drop)]
pub struct Outcome {
    pub reply: Item,
    pub denied: Option<Why>,
    pub rule: Option<Rule>,
    pub erases: Erased,
    pub changes: bool,
}

/// Why a call was not made.
#[derive(Clone, Copy, Debug, PartialEq, Eq, Error)]
pub enum MethodFault {
    /// The session does not live.
    #[error("the session does not live")]
    NoSession,

    /// A growth was refused.
    #[error("out of memory")]
    OutOfMemory,
}

impl From<AllocError> for MethodFault {
    ghost use Rattle.std.specs.Prelude.{◌≡◌};
    ghost use Rattle.methods.specs.declared.outcome.MethodFault.TheVariants as faults;

    ghost from_gives = { λ _ e. e ≡ faults.OutOfMemory };

    fn from(_: AllocError) -> MethodFault {
        MethodFault::OutOfMemory
    }
}

impl<T: Drop> From<AllocFailed<T>> for MethodFault {
    ghost use Rattle.std.specs.Prelude.{◌≡◌};
    ghost use Rattle.methods.specs.declared.outcome.MethodFault.TheVariants as faults;

    ghost from_gives = { λ _ e. e ≡ faults.OutOfMemory };

    fn from(_: AllocFailed<T>) -> MethodFault {
        MethodFault::OutOfMemory
    }
}

/// A reply with these results and this status.
fn reply(results: Vec<Value>, status: u64) -> Item
    ensures { message result ≡ reply_of (map tree results.items) status }
{
    Item::Reply {
        results,
        status: [status, 0, 0],
    }
}

/// These results of a call that may change something, and what was denied beside them.
pub(crate) fn said(results: Vec<Value>, denied: Option<Why>, erases: Erased) -> Outcome
    ensures reply { message result.reply ≡ reply_of (map tree results.items) success }
    ensures denied { result.denied ≡ denied }
    ensures rule { result.rule ≡ None }
    ensures erases { result.erases ≡ erases }
    ensures changes { result.changes ≡ true }
{
    Outcome {
        reply: reply(results, status::SUCCESS),
        denied,
        rule: None,
        erases,
        changes: true,
    }
}

/// A denial, which changes nothing: this status, and why.
pub(crate) fn denied(alloc: Global, status: u64, why: Why) -> Outcome
    ensures reply { message result.reply ≡ refusal_of status }
    ensures denied { result.denied ≡ Some why }
    ensures rule { result.rule ≡ None }
    ensures erases { result.erases ≡ no_sectors }
    ensures changes { result.changes ≡ false }
    ensures tells { status ≡ not_authorized → Tells (Denies why) result }
{
    Outcome {
        reply: reply(Vec::new(alloc), status),
        denied: Some(why),
        rule: None,
        erases: Erased::none(),
        changes: false,
    }
}

/// A refusal by a rule, which changes nothing.
pub(crate) fn refused(alloc: Global, status: u64, rule: Rule) -> Outcome
    ensures reply { message result.reply ≡ refusal_of status }
    ensures denied { result.denied ≡ None }
    ensures rule { result.rule ≡ Some rule }
    ensures erases { result.erases ≡ no_sectors }
    ensures changes { result.changes ≡ false }
    ensures tells { Tells (Refuses status rule) result }
{
    Outcome {
        reply: reply(Vec::new(alloc), status),
        denied: None,
        rule: Some(rule),
        erases: Erased::none(),
        changes: false,
    }
}

/// Whether a response can carry an answer, which has room for so many bytes.
fn fits(room: u64, reply: &Item) -> bool
    ensures { result
        ≡ (is_carried (message reply.now) && nat_le (len_of (message reply.now)) room) }
{
    if !writable(reply) {
        return false;
    }
    let len = item_len(reply) as u64;
    len <= MOST_RESPONSE && len <= room
}

/// How many bytes of tokens a response to a session has room for.
pub(crate) fn room_of(store: &Store, sessions: &Sessions, session: SessionId) -> u64
    ensures { result ≡ session_room store.now.config.profile sessions.now session }
{
    sessions.room(store.committed().config().profile(), session)
}

/// These results of a call that draws random bytes, where a response can carry them; None where it can't.
pub(crate) fn drawn(room: u64, results: Vec<Value>) -> Option<Outcome>
    ensures fits { is_some result ≡ fits_in room (map tree results.items) }
    ensures reply { IfSome result
        (λ out. message out.reply ≡ reply_of (map tree results.items) success) }
    ensures denied { IfSome result (λ out. out.denied ≡ None) }
    ensures rule { IfSome result (λ out. out.rule ≡ None) }
    ensures erases { IfSome result (λ out. out.erases ≡ no_sectors) }
{
    let reply = reply(results, status::SUCCESS);
    if !fits(room, &reply) {
        return None;
    }
    Some(Outcome {
        reply,
        denied: None,
        rule: None,
        erases: Erased::none(),
        changes: false,
    })
}

/// These results of a call that changes nothing, where a response can carry them.
pub(crate) fn fitting(alloc: Global, room: u64, results: Vec<Value>) -> Outcome
    ensures { Tells (gives room (map tree results.items)) result }
{
    let reply = reply(results, status::SUCCESS);
    if fits(room, &reply) {
        return Outcome {
            reply,
            denied: None,
            rule: None,
            erases: Erased::none(),
            changes: false,
        };
    }
    refused(alloc, status::RESPONSE_OVERFLOW, Rule::TooLong)
}

/// One number as the results.
pub(crate) fn number_result(alloc: Global, flag: u64) -> Result<Vec<Value>, AllocError>
    ensures { IfOk result (λ vs. map tree vs.items ≡ number flag ∷ []) }
{
    let mut results = Vec::new(alloc);
    results.push(Value::Number(flag))?;
    Ok(results)
}
