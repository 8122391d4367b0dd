//! Methods called in a session.

ghost use Rattle.std.specs.Prelude.{◌≡◌, ◌≢◌, ◌↔◌, true, Err, Some, None, IfOk, OnErr, IfSome, is_some, map};
ghost use Rattle.tcg_tokens.specs.Tree.{tree};
ghost use Rattle.methods.specs.Grants.{denied as denied_by};
ghost use Rattle.methods.specs.Effects.{seen_by, live_holder, held_in, has_ask, handles};
ghost use Rattle.methods.specs.Judgement.{denial, does, judged};
ghost use Rattle.methods.specs.Calls.{standing_in, judged_with, judged_call, outcome_in, Fulfils};
ghost use Rattle.methods.specs.declared.outcome.MethodFault.TheVariants as faults;

use crate::cases::method_cases;
use crate::grants::denied;
use crate::kinds::{Handler, Kind, byte_table_of, kind_of};
use crate::outcome::{self, MethodFault, Outcome, refused, room_of};
use crate::{handlers, random, tables};
use ace_eval::Authorities;
use audit::Why;
use audit::rules::Rule;
use sessions::Sessions;
use sp_cells::{Sp, Uid};
use std::alloc::Global;
use tcg_calls::call_shapes::{Ask, read_ask, status, uid_of};
use tcg_tokens::{Call, Value};
use transactions::{SessionId, Store};

macro_rules! handler_arms {
    (($kind:expr, $ask:ident) $([$k:ident: $($method:ident $columns:tt $handler:ident),*])*) => {
        match $kind {
            $(Some(Kind::$k) => match $ask {
                $(Ask::$method { .. } => Some(Handler::$handler),)*
                _ => None,
            },)*
            None => None,
        }
    };
}

/// The handler of a call, where the object's kind has what is asked.
fn handler_of(kind: Option<Kind>, ask: &Ask) -> Option<Handler>
    ensures cased { is_some result ≡ has_ask kind ask.now }
    ensures handles { IfSome result (λ handler. handles handler ask.now ≡ true) }
{
    method_cases!(handler_arms(kind, ask))
}

/// Fulfils what a granted call asks, by the kind of its object.
fn perform(
    alloc: Global,
    store: &mut Store,
    sessions: &mut Sessions,
    session: SessionId,
    object: Uid,
    ask: &Ask,
) -> Result<Outcome, MethodFault>
    requires lives { live_holder sessions.old session ≢ None }
    ensures fulfils { IfOk result (λ out.
        Fulfils (outcome_in store.old session
        (does (standing_in store.old sessions.old session) object ask.now))
        out store.old store.new sessions.old sessions.new) }
    ensures err { OnErr result ((store.new ≡ store.old) × (sessions.new ≡ sessions.old)) }
    ensures no_session { (result ≡ Err faults.NoSession) → (live_holder sessions.old session
        ≡ None) }
{
    let kind = kind_of(session.sp, object);
    let Some(handler) = handler_of(kind, ask) else {
        return Ok(refused(alloc, status::FAIL, Rule::NoMethod));
    };
    match (handler, ask) {
        (Handler::ReadCells, Ask::GetCells { first, last }) => {
            handlers::read_cells(alloc, store, sessions, session, object, *first, *last)
        }
        (Handler::ReadBytes, Ask::GetBytes { first, last }) => {
            let table = byte_table_of(kind);
            handlers::read_bytes(alloc, store, sessions, session, table, *first, *last)
        }
        (Handler::WriteCells, Ask::SetCells(_)) | (Handler::WriteBytes, Ask::SetBytes { .. }) => {
            handlers::write(alloc, store, session, object, ask)
        }
        (Handler::Authenticate, Ask::Authenticate { authority, proof }) => {
            let proof = proof.as_slice();
            handlers::authenticate(alloc, store, sessions, session, *authority, proof)
        }
        (Handler::Activate, _) => handlers::activate(alloc, store, session),
        (Handler::Revert, _) => handlers::revert(alloc, store, sessions, session, object),
        (Handler::GenKey, _) => handlers::gen_key(alloc, store, session, object),
        (Handler::RevertSp, Ask::RevertSp { keep }) => {
            handlers::revert_sp(alloc, store, sessions, session, *keep)
        }
        (Handler::ListRows, Ask::Next { after, count }) => {
            let room = room_of(store, sessions, session);
            tables::next(alloc, room, session.sp, object, *after, *count)
        }
        (Handler::ReadAcl, Ask::GetAcl { object, method }) => {
            let profile = store.committed().config().profile();
            let room = room_of(store, sessions, session);
            tables::get_acl(alloc, room, profile, session.sp, *object, *method)
        }
        (Handler::Draw, Ask::Random { count }) => {
            random::draw(alloc, store, sessions, session, *count)
        }
        _ => Ok(refused(alloc, status::FAIL, Rule::NoMethod)),
    }
}

/// Why a call is denied in a session, by what it sees and what it holds.
fn denied_in(
    store: &Store,
    sessions: &Sessions,
    session: SessionId,
    object: Uid,
    method: Uid,
    ask: &Ask,
) -> Option<Why>
    ensures { result
        ≡ denial (standing_in store.now sessions.now session) object method ask.now }
{
    match sessions.authorities(session) {
        Some(held) => denied(&store.view(session), session.sp, object, method, held, ask),
        None => denied(
            &store.view(session),
            session.sp,
            object,
            method,
            &Authorities::new(),
            ask,
        ),
    }
}

/// A call that has its shape.
pub(crate) fn call_asked(
    alloc: Global,
    store: &mut Store,
    sessions: &mut Sessions,
    session: SessionId,
    object: Uid,
    method: Uid,
    ask: &Ask,
) -> Result<Outcome, MethodFault>
    requires lives { live_holder sessions.old session ≢ None }
    ensures fulfils { IfOk result (λ out.
        Fulfils (outcome_in store.old session
        (judged (standing_in store.old sessions.old session) object method (Some ask.now)))
        out store.old store.new sessions.old sessions.new) }
    ensures err { OnErr result ((store.new ≡ store.old) × (sessions.new ≡ sessions.old)) }
    ensures no_session { (result ≡ Err faults.NoSession) → (live_holder sessions.old session
        ≡ None) }
{
    match denied_in(store, sessions, session, object, method, ask) {
        Some(why) => Ok(outcome::denied(alloc, status::NOT_AUTHORIZED, why)),
        None => perform(alloc, store, sessions, session, object, ask),
    }
}

/// A call of a method of an object.
fn called(
    alloc: Global,
    store: &mut Store,
    sessions: &mut Sessions,
    session: SessionId,
    object: Uid,
    method: Uid,
    args: &[Value],
) -> Result<Outcome, MethodFault>
    requires lives { live_holder sessions.old session ≢ None }
    ensures fulfils { IfOk result (λ out.
        Fulfils (outcome_in store.old session
        (judged_with store.old sessions.old session object method (map tree args.now)))
        out store.old store.new sessions.old sessions.new) }
    ensures err { OnErr result ((store.new ≡ store.old) × (sessions.new ≡ sessions.old)) }
    ensures no_session { (result ≡ Err faults.NoSession) → (live_holder sessions.old session
        ≡ None) }
{
    let profile = store.committed().config().profile();
    match read_ask(alloc, profile, session.sp, object, method, args)? {
        Some(ask) => call_asked(alloc, store, sessions, session, object, method, &ask),
        None => Ok(refused(alloc, status::INVALID_PARAMETER, Rule::Shape)),
    }
}

/// What a method called in a session comes to.
///
/// # Errors
///
/// The session does not live, or a growth was refused: then nothing has changed.
pub fn invoke(
    alloc: Global,
    store: &mut Store,
    sessions: &mut Sessions,
    session: SessionId,
    call: &Call,
) -> Result<Outcome, MethodFault>
    ensures fulfils { IfOk result (λ out.
        Fulfils (outcome_in store.old session
        (judged_call store.old sessions.old session call.now))
        out store.old store.new sessions.old sessions.new) }
    ensures err { OnErr result ((store.new ≡ store.old) × (sessions.new ≡ sessions.old)) }
    ensures no_session { (result ≡ Err faults.NoSession) ↔ (live_holder sessions.old session
        ≡ None) }
{
    if sessions.authorities(session).is_none() {
        return Err(MethodFault::NoSession);
    }
    let object = uid_of(&call.object);
    let method = uid_of(&call.method);
    called(
        alloc,
        store,
        sessions,
        session,
        object,
        method,
        call.args.as_slice(),
    )
}
