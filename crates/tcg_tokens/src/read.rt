//! Items from bytes.

ghost use Rattle.std.specs.Prelude.{◌≡◌, ◌≢◌, ◌<◌, ◌++◌, ◌∷◌, IfSome, ◌==◌, false, List, ℕ, Err, length, Some, None, Ok, IfOk, if◌then◌else◌};
ghost use Rattle.tcg_tokens.specs.declared.error.TokenError.{TokenError};
ghost use Rattle.tcg_tokens.specs.declared.error.TokenError.TheVariants.{Truncated, OutOfMemory};
ghost use Rattle.tcg_tokens.specs.Gives.{Fails, Gives, TellsReadingFault, is_fault};
ghost use Rattle.tcg_tokens.specs.Grammar.{Spells};
ghost use Rattle.tcg_tokens.specs.Lexeme.{seen};
ghost use Rattle.tcg_tokens.specs.Tree.{tree, trees};
ghost use Rattle.tcg_tokens.specs.Message.{Message, message};
ghost use Rattle.tcg_tokens.specs.Reading.{expect, number_at, uid_at, list_with, list_value_with, named_with, name_of, value_after_token, list_at, status_at, call_at, reply_at, marked_of, message_at, reading};

use crate::error::TokenError;
use crate::form::TINY_LIMIT;
use crate::limits::NESTING_LIMIT;
use crate::skip::skip_whole;
use crate::token::{Mark, Token, next_token, skipped};
use crate::value::{Call, Item, Value};
use basics::Bytes;
use std::alloc::Global;

/// What is behind that byte, where the bytes begin with it.
#[inline(always)]
fn behind_code(code: u8, bytes: &[u8]) -> Option<&[u8]>
    ensures { IfSome result (λ rest. bytes.now ≡ code ∷ rest.now) }
{
    match bytes {
        [first, rest @ ..] if *first == code => Some(rest),
        _ => None,
    }
}

/// What is behind that mark.
#[tactic(auto, unfolding(crate::specs::Reading::expect), using(crate::proofs::FirstBytes::mark_in_front))]
#[inline(always)]
pub(crate) fn after_mark(mark: Mark, bytes: &[u8]) -> Result<&[u8], TokenError>
    ensures { TellsReadingFault (λ x. x.now) result (expect mark bytes.now) }
{
    // Nearly always the mark stands there, with nothing to skip.
    if let Some(rest) = behind_code(mark.code(), bytes) {
        return Ok(rest);
    }
    let (token, rest) = next_token(bytes)?;
    match token {
        Token::Mark(found) => {
            if found.is(mark) {
                Ok(rest)
            } else {
                Err(TokenError::Unbalanced)
            }
        }
        Token::Number(_) => Err(TokenError::Unbalanced),
        Token::Bytes(_) => Err(TokenError::Unbalanced),
    }
}

/// A number in one byte at the front, and what is behind it.
#[inline(always)]
pub fn tiny(bytes: &[u8]) -> Option<(u8, &[u8])>
    ensures { IfSome result (λ x. (x.0 < TINY_LIMIT) × (bytes.now ≡ x.0 ∷ x.1.now)) }
{
    match bytes {
        [first, rest @ ..] if *first < TINY_LIMIT => Some((*first, rest)),
        _ => None,
    }
}

/// A number, and what is behind it.
#[tactic(auto, unfolding(crate::specs::Reading::number_at), using(crate::proofs::FirstBytes::tiny_in_front))]
#[inline(always)]
pub(crate) fn number(bytes: &[u8]) -> Result<(u64, &[u8]), TokenError>
    ensures { TellsReadingFault (λ x. (x.0, x.1.now)) result (number_at bytes.now) }
{
    // Nearly always it is a tiny atom, with nothing to skip.
    if let Some((number, rest)) = tiny(bytes) {
        return Ok((u64::from(number), rest));
    }
    let (token, rest) = next_token(bytes)?;
    match token {
        Token::Number(number) => Ok((number, rest)),
        Token::Mark(_) => Err(TokenError::Unbalanced),
        Token::Bytes(_) => Err(TokenError::Unbalanced),
    }
}

/// Eight bytes as a UID.
fn uid_from(content: &[u8]) -> Option<[u8; 8]>
    ensures { result ≡ (if length content.now == 8 then Some content.now else None) }
{
    match content.split_first_chunk::<8>() {
        Some((uid, [])) => Some(*uid),
        _ => None,
    }
}

/// The first byte of a short atom of eight bytes.
const SHORT_UID: u8 = 0xa8;

/// Eight bytes as a short atom at the front, and what is behind it.
#[inline(always)]
fn short_uid(bytes: &[u8]) -> Option<(&[u8; 8], &[u8])>
    ensures { IfSome result (λ x. (length x.0.now ≡ 8)
        × (bytes.now ≡ SHORT_UID ∷ (x.0.now ++ x.1.now))) }
{
    match bytes {
        [SHORT_UID, behind @ ..] => behind.split_first_chunk::<8>(),
        _ => None,
    }
}

/// A UID, and what is behind it.
#[tactic(auto, unfolding(crate::specs::Reading::uid_at), using(crate::proofs::FirstBytes::uid_in_front))]
#[inline(always)]
pub(crate) fn uid(bytes: &[u8]) -> Result<([u8; 8], &[u8]), TokenError>
    ensures { TellsReadingFault (λ x. (x.0, x.1.now)) result (uid_at bytes.now) }
{
    // Nearly always it is a short atom, with nothing to skip.
    if let Some((uid, rest)) = short_uid(bytes) {
        return Ok((*uid, rest));
    }
    let (token, rest) = next_token(bytes)?;
    match token {
        Token::Bytes(content) => match uid_from(content) {
            Some(uid) => Ok((uid, rest)),
            None => Err(TokenError::Unbalanced),
        },
        Token::Number(_) => Err(TokenError::Unbalanced),
        Token::Mark(_) => Err(TokenError::Unbalanced),
    }
}

/// The three numbers of a status, and what is behind it.
#[tactic(auto, unfolding(crate::specs::Reading::status_at))]
#[inline(always)]
pub(crate) fn status(bytes: &[u8]) -> Result<([u64; 3], &[u8]), TokenError>
    ensures { TellsReadingFault (λ x. (x.0, x.1.now)) result (status_at bytes.now) }
{
    let rest = after_mark(Mark::StartList, bytes)?;
    let (a, rest) = number(rest)?;
    let (b, rest) = number(rest)?;
    let (c, rest) = number(rest)?;
    let rest = after_mark(Mark::EndList, rest)?;
    Ok(([a, b, c], rest))
}

/// A value behind its first token, where `room` more lists and named values may be nested.
#[cycle(value)]
#[tactic(auto, using(crate::proofs::Loop::nesting))]
fn value<'a>(
    alloc: Global,
    token: Token<'a>,
    rest: &'a [u8],
    room: u8,
) -> Result<(Value, &'a [u8]), TokenError>
    ensures { Gives (λ x. (tree x.0, x.1.now)) result (value_after_token room
        (seen token.entry) rest.now) }
{
    match token {
        Token::Number(number) => Ok((Value::Number(number), rest)),
        Token::Bytes(content) => {
            let items = Vec::from_slice(alloc, content)?;
            Ok((Value::Bytes(Bytes::from_vec(items)), rest))
        }
        Token::Mark(mark) => {
            if mark.is(Mark::StartList) {
                if room == 0 {
                    return Err(TokenError::Deep);
                }
                return list(alloc, rest, room - 1);
            }
            if mark.is(Mark::StartName) {
                if room == 0 {
                    return Err(TokenError::Deep);
                }
                return named(alloc, rest, room - 1);
            }
            Err(TokenError::Unbalanced)
        }
    }
}

/// A list behind its first token.
#[cycle(value)]
#[tactic(auto, unfolding(crate::specs::Reading::list_value_with))]
fn list<'a>(alloc: Global, bytes: &'a [u8], room: u8) -> Result<(Value, &'a [u8]), TokenError>
    ensures { Gives (λ x. (tree x.0, x.1.now)) result (list_value_with
        (value_after_token room) bytes.now) }
{
    let (items, rest) = values(alloc, bytes, room)?;
    Ok((Value::List(items), rest))
}

/// The name of a named value.
#[inline(always)]
fn name(alloc: Global, token: Token<'_>) -> Result<Value, TokenError>
    ensures { Gives (λ x. tree x) result (name_of (seen token.entry)) }
{
    match token {
        Token::Number(number) => Ok(Value::Number(number)),
        Token::Bytes(content) => {
            let items = Vec::from_slice(alloc, content)?;
            Ok(Value::Bytes(Bytes::from_vec(items)))
        }
        Token::Mark(_) => Err(TokenError::Unbalanced),
    }
}

/// A named value behind its first token.
#[cycle(value)]
#[tactic(auto, unfolding(crate::specs::Reading::named_with))]
fn named<'a>(alloc: Global, bytes: &'a [u8], room: u8) -> Result<(Value, &'a [u8]), TokenError>
    ensures { Gives (λ x. (tree x.0, x.1.now)) result (named_with
        (value_after_token room) bytes.now) }
{
    let (token, rest) = next_token(bytes)?;
    let name = name(alloc, token)?;
    let (token, rest) = next_token(rest)?;
    let (inner, rest) = value(alloc, token, rest, room)?;
    let rest = after_mark(Mark::EndName, rest)?;
    let both = Box::new(alloc, (name, inner))?;
    Ok((Value::Named(both), rest))
}

/// The values up to the end of their list.
#[cycle(value)]
#[tactic(auto, unfolding(crate::specs::Reading::list_with))]
fn values<'a>(
    alloc: Global,
    bytes: &'a [u8],
    room: u8,
) -> Result<(Vec<Value>, &'a [u8]), TokenError>
    ensures { Gives (λ x. (trees x.0.items, x.1.now)) result (list_with
        (value_after_token room) bytes.now) }
{
    let mut items = Vec::new(alloc);
    let mut rest = bytes;
    // Each value has a byte at least, so there are no more of them than bytes.
    for _ in 0..bytes.len() {
        let (token, after) = next_token(rest)?;
        if token.is_end() {
            return Ok((items, after));
        }
        let (item, after) = value(alloc, token, after, room)?;
        items.push(item)?;
        rest = after;
    }
    Err(TokenError::Truncated)
}

/// The values of an outermost list, behind its first token.
#[tactic(auto, unfolding(crate::specs::Reading::list_at))]
#[inline(always)]
fn outermost(alloc: Global, bytes: &[u8]) -> Result<(Vec<Value>, &[u8]), TokenError>
    ensures { Gives (λ x. (trees x.0.items, x.1.now)) result (list_at bytes.now) }
{
    values(alloc, bytes, NESTING_LIMIT - 1)
}

/// A call behind its first token.
#[tactic(auto, unfolding(crate::specs::Reading::call_at))]
#[inline(always)]
fn call(alloc: Global, bytes: &[u8]) -> Result<(Item, &[u8]), TokenError>
    ensures { Gives (λ x. (message x.0, x.1.now)) result (call_at bytes.now) }
{
    let (object, rest) = uid(bytes)?;
    let (method, rest) = uid(rest)?;
    let rest = after_mark(Mark::StartList, rest)?;
    let (args, rest) = outermost(alloc, rest)?;
    let rest = after_mark(Mark::EndOfData, rest)?;
    let (status, rest) = status(rest)?;
    Ok((
        Item::Call(Call {
            object,
            method,
            args,
            status,
        }),
        rest,
    ))
}

/// A reply behind its first token.
#[tactic(auto, unfolding(crate::specs::Reading::reply_at))]
fn reply(alloc: Global, bytes: &[u8]) -> Result<(Item, &[u8]), TokenError>
    ensures { Gives (λ x. (message x.0, x.1.now)) result (reply_at bytes.now) }
{
    let (results, rest) = outermost(alloc, bytes)?;
    let rest = after_mark(Mark::EndOfData, rest)?;
    let (status, rest) = status(rest)?;
    Ok((Item::Reply { results, status }, rest))
}

/// An item behind its first token, a mark.
#[inline(always)]
fn marked(alloc: Global, mark: Mark, rest: &[u8]) -> Result<(Item, &[u8]), TokenError>
    ensures { Gives (λ x. (message x.0, x.1.now)) result (marked_of mark rest.now) }
{
    match mark {
        Mark::Call => call(alloc, rest),
        Mark::StartList => reply(alloc, rest),
        Mark::EndOfSession => Ok((Item::EndSession, rest)),
        Mark::StartTransaction => {
            let (number, rest) = number(rest)?;
            Ok((Item::Begin(number), rest))
        }
        Mark::EndTransaction => {
            let (number, rest) = number(rest)?;
            Ok((Item::End(number), rest))
        }
        Mark::EndList | Mark::StartName | Mark::EndName | Mark::EndOfData => Err(
            TokenError::Unbalanced,
        ),
    }
}

/// The item at the front, and what is behind it.
#[tactic(auto, unfolding(crate::specs::Reading::message_at))]
#[inline(always)]
fn item(alloc: Global, bytes: &[u8]) -> Result<(Item, &[u8]), TokenError>
    ensures { Gives (λ x. (message x.0, x.1.now)) result (message_at bytes.now) }
{
    let (token, rest) = next_token(bytes)?;
    match token {
        Token::Mark(mark) => marked(alloc, mark, rest),
        Token::Number(_) => Err(TokenError::Unbalanced),
        Token::Bytes(_) => Err(TokenError::Unbalanced),
    }
}

/// The item that the bytes spell, all of the bytes but for FF behind it; where memory runs out, no fault of the
/// bytes behind is seen.
#[tactic(auto, unfolding(crate::specs::Reading::reading))]
#[inline(always)]
fn read_once(alloc: Global, bytes: &[u8]) -> Result<Item, TokenError>
    ensures { Gives message result (reading bytes.now) }
{
    let (item, rest) = item(alloc, bytes)?;
    if skipped(rest).is_empty() {
        Ok(item)
    } else {
        Err(TokenError::Extra)
    }
}

/// The item that the bytes spell, all of the bytes but for FF behind it. Want of memory is told only where the bytes
/// have no fault.
fn read_whole(alloc: Global, bytes: &[u8]) -> Result<Item, TokenError>
    ensures given { Gives message result (reading bytes.now) }
    ensures memory { result ≡ Err OutOfMemory → is_fault (reading bytes.now) ≡ false }
{
    match read_once(alloc, bytes) {
        Err(TokenError::OutOfMemory) => Err(fault_or_memory(bytes)),
        read => read,
    }
}

/// The fault of bytes; want of memory where they have none.
fn fault_or_memory(bytes: &[u8]) -> TokenError
    ensures given { Fails result (reading bytes.now) }
    ensures memory { result ≡ OutOfMemory → is_fault (reading bytes.now) ≡ false }
{
    match skip_whole(bytes) {
        Ok(()) => TokenError::OutOfMemory,
        Err(fault) => fault,
    }
}

/// The item that the bytes spell, all of the bytes but for FF behind it.
///
/// FF is skipped before, between and behind tokens, and an atom may have any of its forms. The bytes are
/// looked at once, from left to right, and once more where memory ran out; no call is nested deeper than the values are.
///
/// # Errors
///
/// The fault of the leftmost token that earns one, as [`TokenError`] says; `OutOfMemory` only where an
/// allocation was refused and the bytes have no fault.
pub fn read_item(alloc: Global, bytes: &[u8]) -> Result<Item, TokenError>
    // What is read is spelled so.
    ensures found { IfOk result (λ i. Spells bytes.now (message i)) }
    // What is spelled so is read, unless memory runs out: so an error says that there is no item.
    ensures only { (m : Message) → Spells bytes.now m → Gives message result (Ok m) }
    // Want of memory is told only of bytes that spell an item.
    ensures memory { result ≡ Err OutOfMemory → (m : Message) × Spells bytes.now m }
    // Which error it is: the one that is met first from the left.
    ensures exact { Gives message result (reading bytes.now) }
    // A fault is decided where it stands: whatever bytes follow, it stays. Truncated alone is due to their end.
    ensures settled { (e : TokenError) → result ≡ Err e → e ≢ Truncated → e ≢ OutOfMemory
        → (more : List ℕ) → reading (bytes.now ++ more) ≡ Err e }
{
    read_whole(alloc, bytes)
}
