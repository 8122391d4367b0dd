//! One token at the front of bytes.

ghost use Rattle.std.specs.Prelude.{◌≡◌, ◌≤◌, ◌<◌, ◌^◌, ◌∷◌, ℕ, List, length, nat_lt, Ok, Some, None, IfSome, if◌then◌else◌};
ghost use Rattle.tcg_tokens.specs.Gives.{TellsReadingFault};
ghost use Rattle.tcg_tokens.specs.Lex.{content_at, atom_at, form_at, mark_of, mark_at, lexeme_at, token_at, skip, begins_with_end};
ghost use Rattle.tcg_tokens.specs.Lexeme.{code_of, number_from, same, is_mark, seen};
ghost use Rattle.tcg_tokens.specs.declared.token.Mark.TheVariants.{EndList};

use crate::error::TokenError;
use crate::form::{EMPTY_ATOM, Form, TINY_LIMIT};
use crate::limits::NUMBER_BITS;

/// A token that is one byte.
#[derive(Clone, Copy, Debug, PartialEq, Eq)]
pub(crate) enum Mark {
    StartList,
    EndList,
    StartName,
    EndName,
    Call,
    EndOfData,
    EndOfSession,
    StartTransaction,
    EndTransaction,
}

/// A token. The bytes of an atom lie in the input.
#[derive(Clone, Copy)]
pub(crate) enum Token<'a> {
    Number(u64),
    Bytes(&'a [u8]),
    Mark(Mark),
}

/// The number that the bytes spell, the highest first, where it fits.
fn number_of(content: &[u8]) -> Option<u64>
    ensures { result ≡ (if nat_lt (number_from 0 content.now) (2 ^ NUMBER_BITS) then Some
        (number_from 0 content.now) else None) }
{
    let mut number: u64 = 0;
    for byte in content {
        if number >= 1 << (NUMBER_BITS - 8) {
            return None;
        }
        number = 256 * number + u64::from(*byte);
    }
    Some(number)
}

/// An atom behind its header, from `len` bytes of content.
#[inline(always)]
fn content(is_bytes: bool, len: usize, rest: &[u8]) -> Result<(Token<'_>, &[u8]), TokenError>
    ensures { TellsReadingFault (λ x. (seen x.0, x.1.now)) result
        (content_at is_bytes len rest.now) }
{
    if rest.len() < len {
        return Err(TokenError::Truncated);
    }
    let (content, rest) = rest.split_at(len);
    if is_bytes {
        return Ok((Token::Bytes(content), rest));
    }
    match number_of(content) {
        Some(number) => Ok((Token::Number(number), rest)),
        None => Err(TokenError::TooBig),
    }
}

/// The length of an atom: the upper bits in its first byte, and the bytes of length behind it.
fn length_of(upper: u8, bytes: &[u8]) -> usize
    requires upper { upper < 16 }
    requires width { length bytes.now ≤ 3 }
    ensures { result ≡ number_from upper bytes.now }
{
    match bytes {
        [] => usize::from(upper),
        [a] => 256 * usize::from(upper) + usize::from(*a),
        [a, b] => 256 * (256 * usize::from(upper) + usize::from(*a)) + usize::from(*b),
        [a, b, c] => {
            256 * (256 * (256 * usize::from(upper) + usize::from(*a)) + usize::from(*b))
                + usize::from(*c)
        }
        _ => unreachable!(),
    }
}

/// An atom behind its first byte, which says its kind and the upper bits of its length; `width` bytes of
/// length follow.
#[inline(always)]
fn atom(
    is_bytes: bool,
    is_signed: bool,
    upper: u8,
    width: usize,
    rest: &[u8],
) -> Result<(Token<'_>, &[u8]), TokenError>
    requires upper { upper < 16 }
    requires width { width ≤ 3 }
    ensures { TellsReadingFault (λ x. (seen x.0, x.1.now)) result
        (atom_at is_bytes is_signed upper width rest.now) }
{
    if is_signed {
        return Err(if is_bytes {
            TokenError::Continued
        } else {
            TokenError::Signed
        });
    }
    if rest.len() < width {
        return Err(TokenError::Truncated);
    }
    let (len, rest) = rest.split_at(width);
    content(is_bytes, length_of(upper, len), rest)
}

/// An atom of a form, from its first byte on.
#[inline(always)]
fn form_at(form: Form, first: u8, rest: &[u8]) -> Result<(Token<'_>, &[u8]), TokenError>
    ensures { TellsReadingFault (λ x. (seen x.0, x.1.now)) result (form_at form first rest.now) }
{
    let sign_bit = form.upper_range();
    let is_bytes = first / (2 * sign_bit) % 2 == 1;
    let is_signed = first / sign_bit % 2 == 1;
    atom(
        is_bytes,
        is_signed,
        first % form.upper_range(),
        form.length_bytes(),
        rest,
    )
}

/// The mark that a byte is.
#[inline(always)]
fn mark_of(byte: u8) -> Option<Mark>
    ensures { result ≡ mark_of byte }
{
    match byte {
        0xf0 => Some(Mark::StartList),
        0xf1 => Some(Mark::EndList),
        0xf2 => Some(Mark::StartName),
        0xf3 => Some(Mark::EndName),
        0xf8 => Some(Mark::Call),
        0xf9 => Some(Mark::EndOfData),
        0xfa => Some(Mark::EndOfSession),
        0xfb => Some(Mark::StartTransaction),
        0xfc => Some(Mark::EndTransaction),
        _ => None,
    }
}

/// The mark that a byte is, and what is behind it.
#[inline(always)]
fn mark_from(byte: u8, rest: &[u8]) -> Result<(Token<'_>, &[u8]), TokenError>
    ensures { TellsReadingFault (λ x. (seen x.0, x.1.now)) result (mark_at byte rest.now) }
{
    match mark_of(byte) {
        Some(mark) => Ok((Token::Mark(mark), rest)),
        None => Err(TokenError::Reserved),
    }
}

/// The bytes without the empty atoms in front.
#[inline(always)]
pub(crate) fn skipped(bytes: &[u8]) -> &[u8]
    ensures { result.now ≡ skip bytes.now }
{
    let mut rest = bytes;
    while let [EMPTY_ATOM, after @ ..] = rest {
        rest = after;
    }
    rest
}

/// Whether the first token is the end of a session, whatever follows.
pub fn begins_with_end(bytes: &[u8]) -> bool
    ensures { result ≡ begins_with_end bytes.now }
{
    match skipped(bytes) {
        [] => false,
        [first, ..] => *first == Mark::EndOfSession.code(),
    }
}

/// A token behind its first byte.
#[inline(always)]
fn token_from(first: u8, rest: &[u8]) -> Result<(Token<'_>, &[u8]), TokenError>
    ensures { TellsReadingFault (λ x. (seen x.0, x.1.now)) result (lexeme_at first rest.now) }
{
    if first < TINY_LIMIT {
        return Ok((Token::Number(u64::from(first)), rest));
    }
    if first < Form::Short.least() {
        return Err(TokenError::Signed);
    }
    if first < Form::Medium.least() {
        return form_at(Form::Short, first, rest);
    }
    if first < Form::Long.least() {
        return form_at(Form::Medium, first, rest);
    }
    if first < Form::Long.least() + 4 * Form::Long.upper_range() {
        return form_at(Form::Long, first, rest);
    }
    mark_from(first, rest)
}

/// The first byte, and what is behind it.
#[inline(always)]
fn front(bytes: &[u8]) -> Option<(u8, &[u8])>
    ensures { IfSome result (λ x. bytes.now ≡ x.0 ∷ x.1.now) }
{
    match bytes {
        [] => None,
        [first, rest @ ..] => Some((*first, rest)),
    }
}

/// The token that one byte is: a tiny atom or a mark.
#[tactic(auto, using(crate::proofs::FirstBytes::tiny_token, crate::proofs::FirstBytes::mark_token))]
#[inline(always)]
fn token_of<'a>(byte: u8) -> Option<Token<'a>>
    ensures { IfSome result (λ t. (rest : List ℕ) → token_at (byte ∷ rest) ≡ Ok (seen t, rest)) }
{
    if byte < TINY_LIMIT {
        return Some(Token::Number(u64::from(byte)));
    }
    match mark_of(byte) {
        Some(mark) => Some(Token::Mark(mark)),
        None => None,
    }
}

/// The token at the front, and what is behind it.
#[inline(always)]
pub(crate) fn next_token(bytes: &[u8]) -> Result<(Token<'_>, &[u8]), TokenError>
    ensures { TellsReadingFault (λ x. (seen x.0, x.1.now)) result (token_at bytes.now) }
{
    // Nearly always it is a token of one byte, with nothing to skip.
    if let Some((first, rest)) = front(bytes) {
        if let Some(token) = token_of(first) {
            return Ok((token, rest));
        }
    }
    any_token(bytes)
}

/// The token at the front, of any form, and what is behind it.
#[tactic(auto, unfolding(crate::specs::Lex::first_lexeme))]
#[inline(never)]
fn any_token(bytes: &[u8]) -> Result<(Token<'_>, &[u8]), TokenError>
    ensures { TellsReadingFault (λ x. (seen x.0, x.1.now)) result (token_at bytes.now) }
{
    match skipped(bytes) {
        [] => Err(TokenError::Truncated),
        [first, rest @ ..] => token_from(*first, rest),
    }
}

impl Mark {
    /// The byte of the mark.
    pub(crate) fn code(self) -> u8
        ensures { result ≡ code_of self }
    {
        match self {
            Mark::StartList => 0xf0,
            Mark::EndList => 0xf1,
            Mark::StartName => 0xf2,
            Mark::EndName => 0xf3,
            Mark::Call => 0xf8,
            Mark::EndOfData => 0xf9,
            Mark::EndOfSession => 0xfa,
            Mark::StartTransaction => 0xfb,
            Mark::EndTransaction => 0xfc,
        }
    }

    /// Whether it is that mark.
    pub(crate) fn is(self, other: Mark) -> bool
        ensures { result ≡ same self other }
    {
        self == other
    }
}

impl Token<'_> {
    /// Whether it ends a list.
    pub(crate) fn is_end(&self) -> bool
        ensures { result ≡ is_mark EndList (seen self.now) }
    {
        match self {
            Token::Mark(mark) => mark.is(Mark::EndList),
            Token::Number(_) => false,
            Token::Bytes(_) => false,
        }
    }
}
