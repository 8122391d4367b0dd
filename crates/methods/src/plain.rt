//! A Get of columns as most are written, from its bytes and in a session.

ghost use Rattle.std.specs.Prelude.{◌≡◌, ◌≢◌, ◌<◌, ◌≤◌, ◌++◌, ◌∷◌, [], length, Err, None, Some, IfOk, IfSome, IsTrue, OnErr, Ok};
ghost use Rattle.tcg_calls.specs.Asks.{uid_of as uid_in};
ghost use Rattle.tcg_calls.specs.declared.call_shapes.ask.Ask.TheVariants.{GetCells};
ghost use Rattle.methods.specs.Calls.{standing_in, outcome_in, Fulfils};
ghost use Rattle.methods.specs.Effects.{live_holder};
ghost use Rattle.methods.specs.Judgement.{judged};
ghost use Rattle.methods.specs.PlainGets.{IsPlainGet};
ghost use Rattle.methods.specs.declared.outcome.MethodFault.TheVariants as faults;
ghost use Rattle.sp_cells.specs.Names.{get, mbr_table, datastore_table};
ghost use Rattle.tcg_tokens.specs.declared.form.TheConstants.{TINY_LIMIT};

use crate::calls::call_asked;
use crate::outcome::{MethodFault, Outcome};
use sessions::Sessions;
use sp_cells::Uid;
use std::alloc::Global;
use tcg_calls::call_shapes::{Ask, parameter, uid_of};
use tcg_tokens::tiny;
use transactions::{SessionId, Store};

/// The bytes of the marks that a Get has, and that of a short atom of eight bytes.
const CALL: u8 = 0xf8;

const START_LIST: u8 = 0xf0;

const END_LIST: u8 = 0xf1;

const START_NAME: u8 = 0xf2;

const END_NAME: u8 = 0xf3;

const END_OF_DATA: u8 = 0xf9;

const SHORT_UID: u8 = 0xa8;

/// A Get of the columns from the first to the last.
#[derive(Clone, Copy, Debug)]
pub struct PlainGet {
    /// The UID of the object, the highest byte first.
    pub object: [u8; 8],
    /// The UID of Get, the highest byte first.
    pub method: [u8; 8],
    pub first: u64,
    pub last: u64,
}

/// What is behind that byte, where the bytes begin with it.
#[inline(always)]
fn behind(code: u8, bytes: &[u8]) -> Option<&[u8]>
    ensures { IfSome result (λ rest. bytes.now ≡ code ∷ rest.now) }
{
    match bytes {
        [first, rest @ ..] if *first == code => Some(rest),
        _ => None,
    }
}

/// A UID in a short atom at the front, and what is behind it.
#[inline(always)]
fn uid(bytes: &[u8]) -> Option<(&[u8; 8], &[u8])>
    ensures { IfSome result (λ x. (length x.0.now ≡ 8)
        × (bytes.now ≡ SHORT_UID ∷ (x.0.now ++ x.1.now))) }
{
    behind(SHORT_UID, bytes)?.split_first_chunk::<8>()
}

/// The number of one byte that a small number names, and what is behind it.
#[inline(always)]
fn named(name: u8, bytes: &[u8]) -> Option<(u8, &[u8])>
    ensures { IfSome result (λ x. (x.0 < TINY_LIMIT)
        × (bytes.now ≡ START_NAME ∷ name ∷ x.0 ∷ END_NAME ∷ x.1.now)) }
{
    let rest = behind(name, behind(START_NAME, bytes)?)?;
    let (number, rest) = tiny(rest)?;
    let rest = behind(END_NAME, rest)?;
    Some((number, rest))
}

/// The numbers of the two ends of a cellblock of columns, which begins the arguments of a call, and what is behind it.
#[inline(always)]
fn columns(bytes: &[u8]) -> Option<(u8, u8, &[u8])>
    ensures { IfSome result (λ x. (x.0 < TINY_LIMIT) × (x.1 < TINY_LIMIT)
        × (bytes.now ≡ START_LIST ∷ START_LIST
        ∷ START_NAME ∷ 3 ∷ x.0 ∷ END_NAME
        ∷ START_NAME ∷ 4 ∷ x.1 ∷ END_NAME ∷ END_LIST ∷ x.2.now)) }
{
    let rest = behind(START_LIST, behind(START_LIST, bytes)?)?;
    let (first, rest) = named(parameter::START_COLUMN as u8, rest)?;
    let (last, rest) = named(parameter::END_COLUMN as u8, rest)?;
    let rest = behind(END_LIST, rest)?;
    Some((first, last, rest))
}

/// What is behind the end of the arguments of a call, and its status 0.
#[inline(always)]
fn behind_end(bytes: &[u8]) -> Option<&[u8]>
    ensures { IfSome result (λ rest. bytes.now ≡ END_LIST ∷ END_OF_DATA
        ∷ START_LIST ∷ 0 ∷ 0 ∷ 0 ∷ END_LIST ∷ rest.now) }
{
    let rest = behind(END_OF_DATA, behind(END_LIST, bytes)?)?;
    let rest = behind(0, behind(START_LIST, rest)?)?;
    behind(END_LIST, behind(0, behind(0, rest)?)?)
}

/// Whether it is a Get of no byte table.
#[inline(always)]
fn is_get(object: &[u8; 8], method: &[u8; 8]) -> bool
    ensures method { IsTrue result → uid_in method.now ≡ get }
    ensures mbr { IsTrue result → uid_in object.now ≢ mbr_table }
    ensures datastore { IsTrue result → uid_in object.now ≢ datastore_table }
{
    let object = uid_of(object);
    uid_of(method) == Uid::GET && object != Uid::MBR_TABLE && object != Uid::DATASTORE_TABLE
}

/// A Get of columns, of no byte table, that names the first column and the last by numbers of one byte, where each token
/// is as short as it can be, and no FF stands anywhere. It takes no memory. None says nothing of the bytes: a call of
/// any kind and writing is read by [`read_item`](tcg_tokens::read_item), and done by [`invoke`](crate::invoke).
pub fn read_plain_get(tokens: &[u8]) -> Option<PlainGet>
    ensures { IfSome result (IsPlainGet tokens.now) }
{
    let (object, rest) = uid(behind(CALL, tokens)?)?;
    let (method, rest) = uid(rest)?;
    let (first, last, rest) = columns(rest)?;
    let rest = behind_end(rest)?;
    if !rest.is_empty() || last < first || !is_get(object, method) {
        return None;
    }
    Some(PlainGet {
        object: *object,
        method: *method,
        first: u64::from(first),
        last: u64::from(last),
    })
}

/// What a Get of columns comes to in a session that lives.
///
/// # Errors
///
/// A growth was refused: then nothing has changed.
pub fn get_plainly(
    alloc: Global,
    store: &mut Store,
    sessions: &mut Sessions,
    session: SessionId,
    get: &PlainGet,
) -> Result<Outcome, MethodFault>
    requires lives { live_holder sessions.old session ≢ None }
    ensures fulfils { IfOk result (λ out.
        Fulfils (outcome_in store.old session
        (judged (standing_in store.old sessions.old session) (uid_in get.now.object)
        (uid_in get.now.method) (Some (GetCells get.now.first get.now.last))))
        out store.old store.new sessions.old sessions.new) }
    ensures err { OnErr result ((store.new ≡ store.old) × (sessions.new ≡ sessions.old)) }
    ensures no_session { result ≢ Err faults.NoSession }
{
    let ask = Ask::GetCells {
        first: get.first,
        last: get.last,
    };
    let object = uid_of(&get.object);
    let method = uid_of(&get.method);
    call_asked(alloc, store, sessions, session, object, method, &ask)
}
