//! The random bytes that a drive gives (TCG Core 2.01, section 5.6.4.1).

ghost use Rattle.std.specs.Prelude.{◌≡◌, ◌≤◌, ◌<◌, ◌+◌, ◌^◌, ◌∷◌, [], Err, IfOk, IfErr, OnErr};
ghost use Rattle.sessions.specs.Live.{session_room};
ghost use Rattle.methods.specs.Random.{most_random_bytes, random_byte, random_bytes};
ghost use Rattle.methods.specs.Judgement.{draws};
ghost use Rattle.methods.specs.Calls.{outcome_in, Fulfils};
ghost use Rattle.methods.specs.declared.outcome.MethodFault.TheVariants as faults;

use crate::outcome::{MethodFault, Outcome, drawn, refused, room_of};
use audit::rules::Rule;
use sessions::Sessions;
use std::alloc::{AllocError, Global};
use tcg_calls::call_shapes::status;
use tcg_tokens::{Bytes, Value};
use transactions::{SessionId, Store};

/// How many bytes a call gives at most (Opal SSC 2.01, section 4.2.6).
pub const MOST_RANDOM_BYTES: u64 = 32;

/// What each byte's number adds.
const RANDOM_STEP: u128 = 0x9e37_79b9_7f4a_7c15;

/// The byte of a place in the row of a seed. Numbers of 128 bits hold each sum and product of them.
fn random_byte(seed: u64, place: u128) -> u8
    requires { place < 2 ^ 64 + most_random_bytes }
    ensures { result ≡ random_byte seed place }
{
    let sum = u128::from(seed) + (place + 1) * RANDOM_STEP;
    (sum % (1 << 64) / (1 << 56)) as u8
}

/// So many random bytes of a seed, where others were given before.
fn random_bytes(alloc: Global, seed: u64, before: u64, count: u64) -> Result<Vec<u8>, AllocError>
    requires { count ≤ most_random_bytes }
    ensures { IfOk result (λ v. v.items ≡ random_bytes seed before count) }
{
    let mut bytes = Vec::with_capacity(alloc, count as usize)?;
    for number in 0..count {
        bytes.push(random_byte(seed, u128::from(before) + u128::from(number)))?;
    }
    Ok(bytes)
}

/// Random: so many bytes, which are counted where they are given.
pub(crate) fn draw(
    alloc: Global,
    store: &Store,
    sessions: &mut Sessions,
    session: SessionId,
    count: u64,
) -> Result<Outcome, MethodFault>
    ensures fulfils { IfOk result (λ out.
        Fulfils (outcome_in store.now session
        (draws (session_room store.now.config.profile sessions.old session)
        (random_bytes store.now.config.seed sessions.old.beside.drawn) count))
        out store.now store.now sessions.old sessions.new) }
    ensures err { OnErr result (sessions.new ≡ sessions.old) }
    ensures memory { IfErr result (λ e. e ≡ faults.OutOfMemory) }
{
    if count > MOST_RANDOM_BYTES {
        return Ok(refused(alloc, status::INVALID_PARAMETER, Rule::ManyRandomBytes));
    }
    let seed = store.committed().config().seed();
    let bytes = random_bytes(alloc, seed, sessions.beside().drawn, count)?;
    let mut results = Vec::with_capacity(alloc, 1)?;
    results.push(Value::Bytes(Bytes::from_vec(bytes)))?;
    match drawn(room_of(store, sessions, session), results) {
        Some(outcome) => {
            sessions.draw(count);
            Ok(outcome)
        }
        None => Ok(refused(alloc, status::RESPONSE_OVERFLOW, Rule::TooLong)),
    }
}
