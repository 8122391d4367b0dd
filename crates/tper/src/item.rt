//! What an item does, sent to the session manager or to a live session (TCG Core 2.01, sections 3.3.7 to 3.3.9).

ghost use Rattle.std.specs.Prelude.{◌≡◌, ◌≢◌, ◌||◌, None, Some, true, false, IfOk, OnErr, OnOk};
ghost use Rattle.tcg_calls.specs.Asks.{uid_of as uid_in};
ghost use Rattle.tcg_calls.specs.Carried.{is_carried};
ghost use Rattle.tcg_calls.specs.Named.{values_of};
ghost use Rattle.tcg_calls.specs.Statuses.{fail};
ghost use Rattle.tcg_tokens.specs.declared.error.TokenError.TheVariants.{OutOfMemory};
ghost use Rattle.tcg_tokens.specs.Message.{message, end_session};
ghost use Rattle.tcg_tokens.specs.Reading.{reading as message_in};
ghost use Rattle.tcg_tokens.specs.Tree.{trees};
ghost use Rattle.methods.specs.Effects.{live_holder};
ghost use Rattle.audit.specs.declared.rules.rule.Rule.TheVariants.{NoItem};
ghost use Rattle.shadow_mbr.specs.Erasure.{no_sectors};
ghost use Rattle.sessions.specs.Live.{Live};
ghost use Rattle.sessions.specs.Deeds.{Ended, says};
ghost use Rattle.history.specs.Tcg.{to_manager, called_manager, item_in, is_discarded as is_discarded_by, breaks_off as breaks_off_by, is_method_of_manager, ends_session, in_session, judgement_on, begins_on, ends_on};
ghost use Rattle.sp_cells.specs.Names.{properties, start_session};
ghost use Rattle.methods.specs.Calls.{outcome_of};
ghost use Rattle.methods.specs.PlainGets.{IsPlainGet};
ghost use Rattle.methods.specs.Said.{refusal_of};
ghost use Rattle.history.specs.Decisions.{is_session_com_id};
ghost use Rattle.history.specs.Facts.{has_open};
ghost use Rattle.tper.specs.Items.{OfManager, OfSession};

use audit::rules::Rule;
use basics::Profile;
use compacket::ComId;
use methods::{MethodFault, Outcome, PlainGet, get_plainly, invoke, read_plain_get};
use sessions::Sessions;
use shadow_mbr::Erased;
use sp_cells::Uid;
use std::alloc::{AllocError, Global};
use tcg_calls::call_shapes::{status, uid_of};
use tcg_tokens::{Call, Item, TokenError, begins_with_end, read_item};
use transactions::{SessionId, Store};

/// An answer that nothing denied, by the rule that refused what it answers, if one did, and whether rows or bytes may have
/// changed.
fn answer(reply: Item, rule: Option<Rule>, changes: bool) -> Outcome
    ensures reply { message result.reply ≡ message reply }
    ensures denied { result.denied ≡ None }
    ensures rule { result.rule ≡ rule }
    ensures erases { result.erases ≡ no_sectors }
    ensures changes { result.changes ≡ changes }
{
    Outcome {
        reply,
        denied: None,
        rule,
        erases: Erased::none(),
        changes,
    }
}

/// The refusal of an item, by a rule.
fn failed(alloc: Global, rule: Rule) -> Outcome
    ensures reply { message result.reply ≡ refusal_of fail }
    ensures denied { result.denied ≡ None }
    ensures rule { result.rule ≡ Some rule }
    ensures erases { result.erases ≡ no_sectors }
    ensures carried { is_carried (message result.reply) ≡ true }
{
    let reply = Item::Reply {
        results: Vec::new(alloc),
        status: [status::FAIL, 0, 0],
    };
    answer(reply, Some(rule), false)
}

/// The refusal of what is no item; want of memory stays an error.
fn no_item(alloc: Global, fault: TokenError) -> Result<Outcome, AllocError>
    ensures fault { OnOk result (fault ≢ OutOfMemory) }
    ensures reply { IfOk result (λ said. message said.reply ≡ refusal_of fail) }
    ensures denied { IfOk result (λ said. said.denied ≡ None) }
    ensures rule { IfOk result (λ said. said.rule ≡ Some NoItem) }
    ensures erases { IfOk result (λ said. said.erases ≡ no_sectors) }
    ensures carried { IfOk result (λ said. is_carried (message said.reply) ≡ true) }
{
    if fault == TokenError::OutOfMemory {
        return Err(AllocError);
    }
    Ok(failed(alloc, Rule::NoItem))
}

/// A method of the session manager.
fn call_manager(
    alloc: Global,
    store: &mut Store,
    sessions: &mut Sessions,
    com_id: ComId,
    call: &Call,
) -> Result<Outcome, AllocError>
    requires com_id { is_session_com_id com_id ≡ true }
    ensures met { IfOk result (λ said. OfManager
        (λ f. called_manager f com_id (uid_in call.now.object) (uid_in call.now.method)
        (values_of (trees call.now.args.items))) said store.old store.new sessions.old
        sessions.new) }
    ensures carried { IfOk result (λ said. is_carried (message said.reply) ≡ true) }
    ensures unchanged { IfOk result (λ said. said.changes ≡ false → store.new ≡ store.old) }
    ensures err_store { OnErr result (store.new ≡ store.old) }
    ensures err_sessions { OnErr result (sessions.new ≡ sessions.old) }
    ensures config { store.new.config ≡ store.old.config }
{
    if uid_of(&call.object) == Uid::SESSION_MANAGER && uid_of(&call.method) == Uid::PROPERTIES {
        let profile = store.committed().config().profile();
        let reply = sessions.properties(profile, com_id, call)?;
        return Ok(answer(reply, None, false));
    }
    if uid_of(&call.object) == Uid::SESSION_MANAGER && uid_of(&call.method) == Uid::START_SESSION {
        let started = sessions.start(store, com_id, call)?;
        return Ok(Outcome {
            reply: started.reply,
            denied: started.denied,
            rule: started.rule,
            erases: Erased::none(),
            changes: true,
        });
    }
    Ok(failed(alloc, Rule::NoMethod))
}

/// Whether a call is one of a method of the session manager.
fn is_of_manager(call: &Call) -> bool
    ensures { result
        ≡ (is_method_of_manager properties (uid_in call.now.object) (uid_in call.now.method)
        || is_method_of_manager start_session (uid_in call.now.object) (uid_in call.now.method)) }
{
    let method = uid_of(&call.method);
    uid_of(&call.object) == Uid::SESSION_MANAGER
        && (method == Uid::PROPERTIES || method == Uid::START_SESSION)
}

/// Whether what is sent to the session manager is discarded there, as it calls neither of its methods.
pub(crate) fn is_discarded(
    alloc: Global,
    profile: Profile,
    tokens: &[u8],
) -> Result<bool, AllocError>
    ensures { IfOk result (λ b. b ≡ is_discarded_by profile (message_in tokens.now)) }
{
    if !profile.has_opal() {
        return Ok(false);
    }
    match read_item(alloc, tokens) {
        Ok(Item::Call(call)) => Ok(!is_of_manager(&call)),
        Err(TokenError::OutOfMemory) => Err(AllocError),
        _ => Ok(true),
    }
}

/// Whether a payload is no item, and so ends the session that it is sent to without an answer.
pub(crate) fn breaks_off(alloc: Global, profile: Profile, tokens: &[u8]) -> Result<bool, AllocError>
    ensures { IfOk result (λ b. b ≡ breaks_off_by profile (item_in profile tokens.now)) }
{
    if !profile.has_opal() || begins_with_end(tokens) {
        return Ok(false);
    }
    match read_item(alloc, tokens) {
        Ok(Item::Reply { .. }) => Ok(true),
        Ok(_) => Ok(false),
        Err(TokenError::OutOfMemory) => Err(AllocError),
        Err(_) => Ok(true),
    }
}

/// What is sent to the session manager.
pub(crate) fn to_manager(
    alloc: Global,
    store: &mut Store,
    sessions: &mut Sessions,
    com_id: ComId,
    tokens: &[u8],
) -> Result<Outcome, AllocError>
    requires com_id { is_session_com_id com_id ≡ true }
    ensures met { IfOk result (λ said. OfManager
        (λ f. to_manager f com_id (message_in tokens.now)) said
        store.old store.new sessions.old sessions.new) }
    ensures carried { IfOk result (λ said. is_carried (message said.reply) ≡ true) }
    ensures unchanged { IfOk result (λ said. said.changes ≡ false → store.new ≡ store.old) }
    ensures err_store { OnErr result (store.new ≡ store.old) }
    ensures err_sessions { OnErr result (sessions.new ≡ sessions.old) }
    ensures config { store.new.config ≡ store.old.config }
{
    match read_item(alloc, tokens) {
        Ok(Item::Call(call)) => call_manager(alloc, store, sessions, com_id, &call),
        Ok(Item::Reply { .. }) => Ok(failed(alloc, Rule::NoItem)),
        Ok(Item::EndSession) => Ok(failed(alloc, Rule::NoItem)),
        Ok(Item::Begin(_)) => Ok(failed(alloc, Rule::NoItem)),
        Ok(Item::End(_)) => Ok(failed(alloc, Rule::NoItem)),
        Err(fault) => no_item(alloc, fault),
    }
}

/// A method that a live session calls.
fn call_in_session(
    alloc: Global,
    store: &mut Store,
    sessions: &mut Sessions,
    session: SessionId,
    call: &Call,
) -> Result<Outcome, AllocError>
    requires lives { live_holder sessions.old session ≢ None }
    ensures met { IfOk result (λ said. OfSession
        (λ f its. outcome_of f.rows its.sp (judgement_on f its (uid_in call.now.object)
        (uid_in call.now.method) (trees call.now.args.items))) session said
        store.old store.new sessions.old sessions.new) }
    ensures carried { IfOk result (λ said. is_carried (message said.reply) ≡ true) }
    ensures unchanged { IfOk result (λ said. said.changes ≡ false → store.new ≡ store.old) }
    ensures err_store { OnErr result (store.new ≡ store.old) }
    ensures err_sessions { OnErr result (sessions.new ≡ sessions.old) }
    ensures config { store.new.config ≡ store.old.config }
{
    match invoke(alloc, store, sessions, session, call) {
        Ok(outcome) => Ok(outcome),
        Err(MethodFault::OutOfMemory) => Err(AllocError),
        Err(MethodFault::NoSession) => unreachable!(),
    }
}

/// A Get of columns, as most are written, of a live session.
fn get_in_session(
    alloc: Global,
    store: &mut Store,
    sessions: &mut Sessions,
    session: SessionId,
    tokens: &[u8],
    get: &PlainGet,
) -> Result<Outcome, AllocError>
    requires lives { live_holder sessions.old session ≢ None }
    requires plain { IsPlainGet tokens.now get.now }
    ensures met { IfOk result (λ said. OfSession
        (λ f its. in_session f its (message_in tokens.now)) session said
        store.old store.new sessions.old sessions.new) }
    ensures carried { IfOk result (λ said. is_carried (message said.reply) ≡ true) }
    ensures unchanged { IfOk result (λ said. said.changes ≡ false → store.new ≡ store.old) }
    ensures err_store { OnErr result (store.new ≡ store.old) }
    ensures err_sessions { OnErr result (sessions.new ≡ sessions.old) }
    ensures config { store.new.config ≡ store.old.config }
{
    match get_plainly(alloc, store, sessions, session, get) {
        Ok(outcome) => Ok(outcome),
        Err(MethodFault::OutOfMemory) => Err(AllocError),
        Err(MethodFault::NoSession) => unreachable!(),
    }
}

/// A transaction opens, where none is open on the session's SP; else it fails.
#[tactic(auto, using(crate::proofs::Configs::part_config))]
fn begin(store: &mut Store, session: SessionId) -> Outcome
    ensures met { (live : Live) → OfSession
        (λ f its. begins_on its.sp its.number (f.open_on its.sp)) session result
        store.old store.new live live }
    ensures carried { is_carried (message result.reply) ≡ true }
    ensures changes { result.changes ≡ true }
    ensures config { store.new.config ≡ store.old.config }
{
    match store.begin(session) {
        Ok(()) => answer(Item::Begin(0), None, true),
        Err(_) => answer(
            Item::Begin(status::TRANSACTION_FAILURE),
            Some(Rule::AlreadyOpen),
            true,
        ),
    }
}

/// The session's transaction ends: 0 commits it, any other number aborts it. Where the session has none open, this fails.
#[tactic(auto, using(crate::proofs::Configs::part_config))]
fn end(store: &mut Store, session: SessionId, number: u64) -> Outcome
    ensures met { (live : Live) → OfSession
        (λ f its. ends_on its.sp number (has_open f its)) session result
        store.old store.new live live }
    ensures carried { is_carried (message result.reply) ≡ true }
    ensures changes { result.changes ≡ true }
    ensures config { store.new.config ≡ store.old.config }
{
    if number == 0 {
        return match store.commit(session) {
            Ok(()) => answer(Item::End(0), None, true),
            Err(_) => answer(
                Item::End(status::TRANSACTION_FAILURE),
                Some(Rule::NoneOpen),
                true,
            ),
        };
    }
    match store.abort(session) {
        Ok(()) => answer(Item::End(1), None, true),
        Err(_) => answer(
            Item::End(status::TRANSACTION_FAILURE),
            Some(Rule::NoneOpen),
            true,
        ),
    }
}

/// The session ends, and its transaction is aborted.
#[tactic(auto, using(crate::proofs::Configs::part_config))]
pub(crate) fn end_session(store: &mut Store, sessions: &mut Sessions, session: SessionId) -> Outcome
    ensures met { OfSession (λ f its. says (Ended its.sp) end_session) session result
        store.old store.new sessions.old sessions.new }
    ensures carried { is_carried (message result.reply) ≡ true }
    ensures changes { result.changes ≡ true }
    ensures config { store.new.config ≡ store.old.config }
{
    store.close(session.sp);
    sessions.end_on(session.sp);
    answer(Item::EndSession, None, true)
}

/// What an item comes to in a live session.
fn read_in_session(
    alloc: Global,
    store: &mut Store,
    sessions: &mut Sessions,
    session: SessionId,
    tokens: &[u8],
) -> Result<Outcome, AllocError>
    requires lives { live_holder sessions.old session ≢ None }
    ensures met { IfOk result (λ said. OfSession
        (λ f its. in_session f its (message_in tokens.now)) session said
        store.old store.new sessions.old sessions.new) }
    ensures carried { IfOk result (λ said. is_carried (message said.reply) ≡ true) }
    ensures unchanged { IfOk result (λ said. said.changes ≡ false → store.new ≡ store.old) }
    ensures err_store { OnErr result (store.new ≡ store.old) }
    ensures err_sessions { OnErr result (sessions.new ≡ sessions.old) }
    ensures config { store.new.config ≡ store.old.config }
{
    // Most calls are a Get: its columns are known with no value in memory.
    if let Some(get) = read_plain_get(tokens) {
        return get_in_session(alloc, store, sessions, session, tokens, &get);
    }
    match read_item(alloc, tokens) {
        Ok(Item::Call(call)) => call_in_session(alloc, store, sessions, session, &call),
        Ok(Item::Begin(_)) => Ok(begin(store, session)),
        Ok(Item::End(number)) => Ok(end(store, session, number)),
        Ok(Item::EndSession) => Ok(end_session(store, sessions, session)),
        Ok(Item::Reply { .. }) => Ok(failed(alloc, Rule::NoItem)),
        Err(fault) => no_item(alloc, fault),
    }
}

/// Whether a payload ends the session that it is sent to, whatever follows.
fn ends_session(store: &Store, tokens: &[u8]) -> bool
    ensures { result ≡ ends_session store.now.config.profile tokens.now }
{
    store.committed().config().profile().has_field() && begins_with_end(tokens)
}

/// What is sent to a live session.
pub(crate) fn in_session(
    alloc: Global,
    store: &mut Store,
    sessions: &mut Sessions,
    session: SessionId,
    tokens: &[u8],
) -> Result<Outcome, AllocError>
    requires lives { live_holder sessions.old session ≢ None }
    ensures met { IfOk result (λ said. OfSession
        (λ f its. in_session f its (item_in f.config.profile tokens.now)) session said
        store.old store.new sessions.old sessions.new) }
    ensures carried { IfOk result (λ said. is_carried (message said.reply) ≡ true) }
    ensures unchanged { IfOk result (λ said. said.changes ≡ false → store.new ≡ store.old) }
    ensures err_store { OnErr result (store.new ≡ store.old) }
    ensures err_sessions { OnErr result (sessions.new ≡ sessions.old) }
    ensures config { store.new.config ≡ store.old.config }
{
    if ends_session(store, tokens) {
        return Ok(end_session(store, sessions, session));
    }
    let outcome = read_in_session(alloc, store, sessions, session, tokens)?;
    Ok(outcome)
}
