//! The handlers of granted calls. In each, all that can fail comes before the first change.

ghost use Rattle.std.specs.Prelude.{◌≡◌, ◌≢◌, ◌==◌, ◌↔◌, ◌+◌, ◌*◌, ◌≤◌, ◌<◌, ◌-◌, length, slice_index, ℕ, Err, [], ◌∷◌, Some, None, true, false, not, is_some, map, option_map, IfOk, OnOk, OnErr, IfErr, if◌then◌else◌};
ghost use Rattle.shadow_mbr.specs.Stored.{sector_size};
ghost use Rattle.tcg_tokens.specs.Tree.{tree};
ghost use Rattle.transactions.specs.Bytes.{bytes_from};
ghost use Rattle.transactions.specs.Sights.{sight_of, is_manufactured};
ghost use Rattle.sessions.specs.Beside.{new_beside};
ghost use Rattle.sessions.specs.Live.{Live, session_room};
ghost use Rattle.methods.specs.Kinds.{kind_of as kind_of_object};
ghost use Rattle.methods.specs.Changes.{setting_seen};
ghost use Rattle.sessions.specs.Answers.{rows_in_force};
ghost use Rattle.methods.specs.Erasures.{erased_by_revert};
ghost use Rattle.sp_cells.specs.Config.{sizes_in, table_sectors};
ghost use Rattle.sp_cells.specs.Numbers.{key_number};
ghost use Rattle.methods.specs.Effects.{live_holder, seen_by, has_transaction, has_set, sp_of_row as sp_of};
ghost use Rattle.methods.specs.Judgement.{Attempts, Activates, Reverts, list_given, listing, gives, table_given, to_set, makes, unless_open, erases, reverts_sp};
ghost use Rattle.methods.specs.Calls.{standing_on, standing_in, outcome_in, Tells, Fulfils};
ghost use Rattle.methods.specs.declared.outcome.MethodFault.TheVariants as faults;

use crate::changes::apply_set;
use crate::erasures::{erased_by_key, erased_by_revert_sp, is_wholly_locked};
use crate::lists::list_columns;
use crate::outcome::{
    MethodFault, Outcome, denied, fitting, number_result, refused, room_of, said,
};
use crate::settings::check_set;
use ace_eval::Authorities;
use audit::rules::Rule;
use audit::{AttemptFailure, Why};
use sessions::{AuthAnswer, Sessions};
use shadow_mbr::{Erased, Erasure};
use sp_cells::limits::MANUFACTURED;
use sp_cells::{ByteTable, Column, Rows, Sp, Uid, number_at};
use std::alloc::{AllocError, Global};
use tcg_calls::call_shapes::{Ask, list_value, status};
use tcg_tokens::{Bytes, Value};
use transactions::{SessionId, Store, View};
use trusted_cmds::SidBlock;

/// What Get lists, as results.
fn columns_given<R: Rows>(
    alloc: Global,
    rows: &R,
    sp: Sp,
    object: Uid,
    first: u64,
    last: u64,
    held: &Authorities,
) -> Result<Vec<Value>, AllocError>
    ensures { IfOk result (λ results. map tree results.items
        ≡ list_given (R.profile_of rows.now) (R.look_up rows.now) sp object first last held.now) }
{
    let listed = list_columns(alloc, rows, sp, object, first, last, held)?;
    let mut results = Vec::with_capacity(alloc, 1)?;
    results.push(list_value(listed))?;
    Ok(results)
}

/// Get of columns.
pub(crate) fn read_cells(
    alloc: Global,
    store: &Store,
    sessions: &Sessions,
    session: SessionId,
    object: Uid,
    first: u64,
    last: u64,
) -> Result<Outcome, MethodFault>
    ensures fulfils { IfOk result (λ out.
        Fulfils (outcome_in store.now session
        (gives (session_room store.now.config.profile sessions.now session)
        (listing (standing_in store.now sessions.now session) object first last)))
        out store.now store.now sessions.now sessions.now) }
    ensures no_session { (result ≡ Err faults.NoSession) ↔ (live_holder sessions.now session
        ≡ None) }
{
    let Some(held) = sessions.authorities(session) else {
        return Err(MethodFault::NoSession);
    };
    let rows = store.view(session);
    let results = columns_given(alloc, &rows, session.sp, object, first, last, held)?;
    Ok(fitting(alloc, room_of(store, sessions, session), results))
}

/// What Get of the bytes of a table reads.
fn bytes_outcome(
    alloc: Global,
    room: u64,
    view: &View<'_>,
    table: ByteTable,
    first: u64,
    last: Option<u64>,
) -> Result<Outcome, AllocError>
    ensures { IfOk result (Tells (table_given room (slice_index view.now.bytes)
        (sizes_in view.now.config) table first last)) }
{
    let sizes = view.table_sizes();
    let size = u128::from(sizes.bytes_of(table));
    if size == 0 {
        return Ok(refused(alloc, status::INVALID_PARAMETER, Rule::OutsideTable));
    }
    let last = match last {
        Some(last) => u128::from(last),
        None => size - 1,
    };
    if size <= last || last < u128::from(first) {
        return Ok(refused(alloc, status::INVALID_PARAMETER, Rule::OutsideTable));
    }
    let count = last + 1 - u128::from(first);
    if count > u128::from(room) {
        return Ok(refused(alloc, status::RESPONSE_OVERFLOW, Rule::TooLong));
    }
    let read = read_rows(alloc, view, sizes.begin_of(table) + first, count as usize)?;
    let mut results = Vec::new(alloc);
    results.push(Value::Bytes(Bytes::from_vec(read)))?;
    Ok(fitting(alloc, room, results))
}

/// Fills a buffer with the bytes of the byte tables from a place on.
fn fill(view: &View<'_>, first: u64, buffer: &mut [u8])
    requires { first + length buffer.old ≤ sector_size * table_sectors view.now.config }
    ensures { buffer.new ≡ bytes_from (slice_index view.now.bytes) first (length buffer.old) }
{
    view.read_bytes(first, buffer);
}

/// So many bytes of the byte tables, from a place on.
fn read_rows(
    alloc: Global,
    view: &View<'_>,
    first: u64,
    count: usize,
) -> Result<Vec<u8>, AllocError>
    requires { first + count ≤ sector_size * table_sectors view.now.config }
    ensures { IfOk result (λ v. v.items ≡ bytes_from (slice_index view.now.bytes) first count) }
{
    let mut buffer = vec![in alloc; 0; count]?;
    fill(view, first, &mut buffer);
    Ok(buffer)
}

/// Get of the bytes of a table.
pub(crate) fn read_bytes(
    alloc: Global,
    store: &Store,
    sessions: &Sessions,
    session: SessionId,
    table: ByteTable,
    first: u64,
    last: Option<u64>,
) -> Result<Outcome, MethodFault>
    ensures fulfils { IfOk result (λ out.
        Fulfils (outcome_in store.now session
        (table_given (session_room store.now.config.profile sessions.now session)
        (slice_index (sight_of store.now session).bytes)
        (sizes_in store.now.config) table first last))
        out store.now store.now sessions.now sessions.now) }
    ensures memory { IfErr result (λ e. e ≡ faults.OutOfMemory) }
{
    let room = room_of(store, sessions, session);
    let outcome = bytes_outcome(alloc, room, &store.view(session), table, first, last)?;
    Ok(outcome)
}

/// Set, of columns or of bytes.
pub(crate) fn write(
    alloc: Global,
    store: &mut Store,
    session: SessionId,
    object: Uid,
    ask: &Ask,
) -> Result<Outcome, MethodFault>
    requires { has_set (kind_of_object session.sp object) ≡ true }
    ensures fulfils { (l : Live) → IfOk result (λ out.
        Fulfils (outcome_in store.old session
        (makes (to_set (standing_on new_beside 0 store.old session []) object ask.now)))
        out store.old store.new l l) }
    ensures err { OnErr result (store.new ≡ store.old) }
    ensures memory { IfErr result (λ e. e ≡ faults.OutOfMemory) }
{
    let Some(change) = check_set(alloc, &store.view(session), session.sp, object, ask)? else {
        return Ok(refused(alloc, status::INVALID_PARAMETER, Rule::WrongValue));
    };
    match apply_set(alloc, store, session, &change)? {
        None => Ok(said(Vec::new(alloc), None, Erased::none())),
        Some(fault) => Ok(refused(alloc, status::INVALID_PARAMETER, Rule::NotSet(fault))),
    }
}

/// Authenticate.
pub(crate) fn authenticate(
    alloc: Global,
    store: &mut Store,
    sessions: &mut Sessions,
    session: SessionId,
    authority: Uid,
    proof: &[u8],
) -> Result<Outcome, MethodFault>
    requires lives { live_holder sessions.old session ≢ None }
    ensures fulfils { IfOk result (λ out.
        Fulfils (outcome_in store.old session
        (Attempts sessions.old.beside.block authority proof.now))
        out store.old store.new sessions.old sessions.new) }
    ensures err { OnErr result ((store.new ≡ store.old) × (sessions.new ≡ sessions.old)) }
    ensures memory { IfErr result (λ e. e ≡ faults.OutOfMemory) }
{
    sessions.are_apart();
    let right = number_result(alloc, 1)?;
    let wrong = number_result(alloc, 0)?;
    match sessions.authenticate(store, session, authority, proof) {
        AuthAnswer::Right => Ok(said(right, None, Erased::none())),
        AuthAnswer::Wrong(why) => Ok(said(wrong, Some(why), Erased::none())),
        AuthAnswer::LockedOut => Ok(denied(
            alloc,
            status::AUTHORITY_LOCKED_OUT,
            Why::AttemptFailed {
                sp: session.sp,
                authority,
                failure: AttemptFailure::LockedOut,
            },
        )),
    }
}

/// Activate.
pub(crate) fn activate(
    alloc: Global,
    store: &mut Store,
    session: SessionId,
) -> Result<Outcome, MethodFault>
    ensures fulfils { (l : Live) → IfOk result (λ out.
        Fulfils (outcome_in store.old session
        (unless_open (has_transaction store.old session) Activates))
        out store.old store.new l l) }
    ensures err { OnErr result (store.new ≡ store.old) }
    ensures memory { IfErr result (λ e. e ≡ faults.OutOfMemory) }
{
    if store.is_open(session) {
        return Ok(refused(alloc, status::FAIL, Rule::InTransaction));
    }
    store.activate()?;
    Ok(said(Vec::new(alloc), None, Erased::none()))
}

/// Whether the Locking SP is in use.
fn is_in_use(store: &Store) -> bool
    ensures { result ≡ is_manufactured store.now }
{
    number_at(
        &store.committed(),
        Sp::Admin,
        Uid::LOCKING_SP,
        Column::LIFE_CYCLE_STATE,
    ) == MANUFACTURED
}

/// What a Revert erases: all sectors where the Locking SP is in use, and else none.
fn erased_by_revert(store: &Store) -> Erasure
    ensures { result ≡ erased_by_revert (rows_in_force store.now) }
{
    if is_in_use(store) {
        Erasure::all()
    } else {
        Erasure::none()
    }
}

/// The SP that a row of the SP table names.
fn sp_of_row(object: Uid) -> Sp
    ensures { result ≡ sp_of object }
{
    if object == Uid::ADMIN_SP {
        Sp::Admin
    } else {
        Sp::Locking
    }
}

/// Revert. That of the Admin SP frees SID.
pub(crate) fn revert(
    alloc: Global,
    store: &mut Store,
    sessions: &mut Sessions,
    session: SessionId,
    object: Uid,
) -> Result<Outcome, MethodFault>
    ensures fulfils { IfOk result (λ out.
        Fulfils (outcome_in store.old session
        (unless_open (has_transaction store.old session) (Reverts (sp_of object))))
        out store.old store.new sessions.old sessions.new) }
    ensures err { OnErr result ((store.new ≡ store.old) × (sessions.new ≡ sessions.old)) }
    ensures memory { IfErr result (λ e. e ≡ faults.OutOfMemory) }
{
    if store.is_open(session) {
        return Ok(refused(alloc, status::FAIL, Rule::InTransaction));
    }
    let erases = Erased::of(alloc, erased_by_revert(store))?;
    let sp = sp_of_row(object);
    store.revert(sp)?;
    match sp {
        Sp::Admin => {
            sessions.end_all();
            sessions.set_block(SidBlock::Free);
        }
        Sp::Locking => sessions.end_on(Sp::Locking),
    }
    Ok(said(Vec::new(alloc), None, erases))
}

/// GenKey of a range's key. The rows stay.
pub(crate) fn gen_key(
    alloc: Global,
    store: &Store,
    session: SessionId,
    object: Uid,
) -> Result<Outcome, MethodFault>
    ensures fulfils { (l : Live) → IfOk result (λ out.
        Fulfils (outcome_in store.now session
        (unless_open (has_transaction store.now session) (erases (key_number object))))
        out store.now store.now l l) }
    ensures memory { IfErr result (λ e. e ≡ faults.OutOfMemory) }
{
    if store.is_open(session) {
        return Ok(refused(alloc, status::FAIL, Rule::InTransaction));
    }
    match object.key_number() {
        Some(range) => {
            let erases = Erased::of(alloc, erased_by_key(&store.committed(), range))?;
            Ok(said(Vec::new(alloc), None, erases))
        }
        None => Ok(refused(alloc, status::FAIL, Rule::NoKey)),
    }
}

/// RevertSP: the Locking SP's own Revert, by its session.
pub(crate) fn revert_sp(
    alloc: Global,
    store: &mut Store,
    sessions: &mut Sessions,
    session: SessionId,
    keep: bool,
) -> Result<Outcome, MethodFault>
    ensures fulfils { IfOk result (λ out.
        Fulfils (outcome_in store.old session
        (unless_open (has_transaction store.old session)
        (reverts_sp (seen_by store.old session) keep)))
        out store.old store.new sessions.old sessions.new) }
    ensures err { OnErr result ((store.new ≡ store.old) × (sessions.new ≡ sessions.old)) }
    ensures memory { IfErr result (λ e. e ≡ faults.OutOfMemory) }
{
    if store.is_open(session) {
        return Ok(refused(alloc, status::FAIL, Rule::InTransaction));
    }
    if keep && is_wholly_locked(&store.view(session)) {
        return Ok(refused(alloc, status::FAIL, Rule::GlobalLocked));
    }
    let erases = Erased::of(alloc, erased_by_revert_sp(&store.committed(), keep))?;
    store.revert(Sp::Locking)?;
    sessions.end_on(Sp::Locking);
    Ok(said(Vec::new(alloc), None, erases))
}
