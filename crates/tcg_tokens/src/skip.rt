//! Which fault bytes have, found without memory: what they spell is passed over.

ghost use Rattle.std.specs.Prelude.{◌≡◌, false, Err, MatchResult};
ghost use Rattle.tcg_tokens.specs.Gives.{TellsReadingFault, rest_of, is_fault};
ghost use Rattle.tcg_tokens.specs.Lexeme.{seen};
ghost use Rattle.tcg_tokens.specs.Reading.{name_of, named_with, value_after_token, list_with, call_at, reply_at, marked_of, message_at, reading};

use crate::error::TokenError;
use crate::limits::NESTING_LIMIT;
use crate::read::{after_mark, number, status, uid};
use crate::token::{Mark, Token, next_token, skipped};

/// What is behind a value, whose first token this is, where `room` more lists and named values may be nested.
#[cycle(skip)]
#[tactic(auto, using(crate::proofs::Skips::nesting))]
fn skip_value<'a>(token: Token<'a>, rest: &'a [u8], room: u8) -> Result<&'a [u8], TokenError>
    ensures { TellsReadingFault (λ x. x.now) result (rest_of (value_after_token room
        (seen token.entry) rest.now)) }
{
    match token {
        Token::Number(_) => Ok(rest),
        Token::Bytes(_) => Ok(rest),
        Token::Mark(mark) => {
            if mark.is(Mark::StartList) {
                if room == 0 {
                    return Err(TokenError::Deep);
                }
                return skip_values(rest, room - 1);
            }
            if mark.is(Mark::StartName) {
                if room == 0 {
                    return Err(TokenError::Deep);
                }
                return skip_named(rest, room - 1);
            }
            Err(TokenError::Unbalanced)
        }
    }
}

/// A number or bytes can be a name, a mark cannot.
fn check_name(token: Token<'_>) -> Result<(), TokenError>
    ensures { MatchResult result (λ _. is_fault (name_of (seen token.entry)) ≡ false)
        (λ e. name_of (seen token.entry) ≡ Err e) }
{
    match token {
        Token::Number(_) | Token::Bytes(_) => Ok(()),
        Token::Mark(_) => Err(TokenError::Unbalanced),
    }
}

/// What is behind a named value, behind its first token.
#[cycle(skip)]
#[tactic(auto, using(crate::proofs::Skips::naming))]
fn skip_named<'a>(bytes: &'a [u8], room: u8) -> Result<&'a [u8], TokenError>
    ensures { TellsReadingFault (λ x. x.now) result (rest_of (named_with
        (value_after_token room) bytes.now)) }
{
    let (name, rest) = next_token(bytes)?;
    check_name(name)?;
    let (token, rest) = next_token(rest)?;
    let rest = skip_value(token, rest, room)?;
    let rest = after_mark(Mark::EndName, rest)?;
    Ok(rest)
}

/// What is behind the end of a list, from its values on.
#[cycle(skip)]
#[tactic(auto, unfolding(crate::specs::Reading::list_with))]
fn skip_values<'a>(bytes: &'a [u8], room: u8) -> Result<&'a [u8], TokenError>
    ensures { TellsReadingFault (λ x. x.now) result (rest_of (list_with
        (value_after_token room) bytes.now)) }
{
    let mut rest = bytes;
    // Each value has a byte at least, so there are no more of them than bytes.
    for _ in 0..bytes.len() {
        let (token, after) = next_token(rest)?;
        if token.is_end() {
            return Ok(after);
        }
        rest = skip_value(token, after, room)?;
    }
    Err(TokenError::Truncated)
}

/// What is behind a call, behind its first token.
#[tactic(auto, using(crate::proofs::Skips::calling))]
fn skip_call(bytes: &[u8]) -> Result<&[u8], TokenError>
    ensures { TellsReadingFault (λ x. x.now) result (rest_of (call_at bytes.now)) }
{
    let (_, rest) = uid(bytes)?;
    let (_, rest) = uid(rest)?;
    let rest = after_mark(Mark::StartList, rest)?;
    let rest = skip_reply(rest)?;
    Ok(rest)
}

/// What is behind a reply, behind its first token; what is behind a call, from its arguments on, is the same.
#[tactic(auto, using(crate::proofs::Skips::replying))]
fn skip_reply(bytes: &[u8]) -> Result<&[u8], TokenError>
    ensures { TellsReadingFault (λ x. x.now) result (rest_of (reply_at bytes.now)) }
{
    let rest = skip_values(bytes, NESTING_LIMIT - 1)?;
    let rest = after_mark(Mark::EndOfData, rest)?;
    let (_, rest) = status(rest)?;
    Ok(rest)
}

/// What is behind an item, behind its first token, a mark.
fn skip_marked(mark: Mark, rest: &[u8]) -> Result<&[u8], TokenError>
    ensures { TellsReadingFault (λ x. x.now) result (rest_of (marked_of mark rest.now)) }
{
    match mark {
        Mark::Call => skip_call(rest),
        Mark::StartList => skip_reply(rest),
        Mark::EndOfSession => Ok(rest),
        Mark::StartTransaction | Mark::EndTransaction => {
            let (_, rest) = number(rest)?;
            Ok(rest)
        }
        Mark::EndList | Mark::StartName | Mark::EndName | Mark::EndOfData => Err(
            TokenError::Unbalanced,
        ),
    }
}

/// What is behind the item at the front.
#[tactic(auto, unfolding(crate::specs::Reading::message_at))]
fn skip_item(bytes: &[u8]) -> Result<&[u8], TokenError>
    ensures { TellsReadingFault (λ x. x.now) result (rest_of (message_at bytes.now)) }
{
    let (token, rest) = next_token(bytes)?;
    match token {
        Token::Mark(mark) => skip_marked(mark, rest),
        Token::Number(_) => Err(TokenError::Unbalanced),
        Token::Bytes(_) => Err(TokenError::Unbalanced),
    }
}

/// Whether the bytes spell an item, all of them but for FF behind it: the fault that they have, if any.
#[tactic(auto, using(crate::proofs::Skips::all_read))]
pub(crate) fn skip_whole(bytes: &[u8]) -> Result<(), TokenError>
    ensures { MatchResult result (λ _. is_fault (reading bytes.now) ≡ false)
        (λ e. reading bytes.now ≡ Err e) }
{
    let rest = skip_item(bytes)?;
    if skipped(rest).is_empty() {
        Ok(())
    } else {
        Err(TokenError::Extra)
    }
}
