//! The values that a TPer tells of itself by Properties.

ghost use Rattle.std.specs.Prelude.{◌≡◌, IfOk};
ghost use Rattle.judged.specs.Properties.{bytes_number, value_of, is_at_least, begins_with, differs_in_values, differs_in_properties, tells_properties, behind_answer_front, differs_in_answer, differs_by_properties};

use crate::answers::behind;
use crate::blanks::front;
use crate::received::{Received, packet_told, token_size};
use std::alloc::{AllocError, Global};

/// A property that a TPer tells of itself (TCG Core 2.01, section 5.2.2).
#[derive(Clone, Copy, Debug, PartialEq, Eq)]
pub enum Property {
    MaxMethods,
    MaxSubpackets,
    MaxPacketSize,
    MaxPackets,
    MaxComPacketSize,
    MaxIndTokenSize,
    MaxResponseComPacketSize,
    MaxSessions,
    MaxAuthentications,
    MaxTransactionLimit,
    DefSessionTimeout,
}

/// All, in the order in which the model tells them.
const ALL_PROPERTIES: [Property; 11] = [
    Property::MaxMethods,
    Property::MaxSubpackets,
    Property::MaxPacketSize,
    Property::MaxPackets,
    Property::MaxComPacketSize,
    Property::MaxIndTokenSize,
    Property::MaxResponseComPacketSize,
    Property::MaxSessions,
    Property::MaxAuthentications,
    Property::MaxTransactionLimit,
    Property::DefSessionTimeout,
];

/// How many bytes stand in front of the first property.
const FRONT_LENGTH: usize = 21;

/// What an answer to Properties begins with: a call of the session manager's method, and the list of its properties.
const ANSWER_FRONT: [u8; FRONT_LENGTH] = [
    0xf8, 0xa8, 0, 0, 0, 0, 0, 0, 0, 0xff, 0xa8, 0, 0, 0, 0, 0, 0, 0xff, 0x01, 0xf0, 0xf0,
];

/// The end of a named value.
const NAMED_END: [u8; 1] = [0xf3];

/// Whether tokens begin so.
fn begins_with(start: &[u8], tokens: &[u8]) -> bool
    ensures { result ≡ begins_with start.now tokens.now }
{
    front(tokens, start.len()) == start
}

/// The number of so many bytes, eight at most.
fn bytes_number(bytes: &[u8]) -> Option<u64>
    ensures { result ≡ bytes_number bytes.now }
{
    let bytes = match bytes {
        [a] => [0, 0, 0, 0, 0, 0, 0, *a],
        [a, b] => [0, 0, 0, 0, 0, 0, *a, *b],
        [a, b, c] => [0, 0, 0, 0, 0, *a, *b, *c],
        [a, b, c, d] => [0, 0, 0, 0, *a, *b, *c, *d],
        [a, b, c, d, e] => [0, 0, 0, *a, *b, *c, *d, *e],
        [a, b, c, d, e, f] => [0, 0, *a, *b, *c, *d, *e, *f],
        [a, b, c, d, e, f, g] => [0, *a, *b, *c, *d, *e, *f, *g],
        [a, b, c, d, e, f, g, h] => [*a, *b, *c, *d, *e, *f, *g, *h],
        _ => return None,
    };
    Some(u64::from_be_bytes(bytes))
}

/// The number in one token, a tiny atom or a short one.
fn value_of(token: &[u8]) -> Option<u64>
    ensures { result ≡ value_of token.now }
{
    match token {
        [] => None,
        [first] => {
            if *first < 64 {
                return Some(u64::from(*first));
            }
            None
        }
        [first, bytes @ ..] => {
            if *first as usize == 0x80 + bytes.len() {
                return bytes_number(bytes);
            }
            None
        }
    }
}

/// Whether there is a value, which is no less.
fn is_at_least(least: u64, value: Option<u64>) -> bool
    ensures { result ≡ is_at_least least value }
{
    match value {
        Some(value) => least <= value,
        None => false,
    }
}

impl Property {
    ghost use Rattle.std.specs.Prelude.{◌≡◌};
    ghost use Rattle.judged.specs.Properties.{least_value, property_front, behind_front, value_token, behind_value, tells, may_be_told, behind_property};

    /// What stands in front of its value: the token by which a named value begins, and its name in a short or a medium atom.
    fn front(self) -> &'static [u8]
        ensures { result.now ≡ property_front self }
    {
        match self {
            Property::MaxMethods => b"\xf2\xaaMaxMethods",
            Property::MaxSubpackets => b"\xf2\xadMaxSubpackets",
            Property::MaxPacketSize => b"\xf2\xadMaxPacketSize",
            Property::MaxPackets => b"\xf2\xaaMaxPackets",
            Property::MaxComPacketSize => b"\xf2\xd0\x10MaxComPacketSize",
            Property::MaxIndTokenSize => b"\xf2\xafMaxIndTokenSize",
            Property::MaxResponseComPacketSize => b"\xf2\xd0\x18MaxResponseComPacketSize",
            Property::MaxSessions => b"\xf2\xabMaxSessions",
            Property::MaxAuthentications => b"\xf2\xd0\x12MaxAuthentications",
            Property::MaxTransactionLimit => b"\xf2\xd0\x13MaxTransactionLimit",
            Property::DefSessionTimeout => b"\xf2\xd0\x11DefSessionTimeout",
        }
    }

    /// The least value that the TPer of an Opal drive owes (Opal SSC 2.01, section 4.1.1.1).
    fn least(self) -> u64
        ensures { result ≡ least_value self }
    {
        match self {
            Property::MaxMethods
            | Property::MaxSubpackets
            | Property::MaxPackets
            | Property::MaxSessions
            | Property::MaxTransactionLimit => 1,
            Property::MaxPacketSize => 2028,
            Property::MaxComPacketSize | Property::MaxResponseComPacketSize => 2048,
            Property::MaxIndTokenSize => 1992,
            Property::MaxAuthentications => 2,
            Property::DefSessionTimeout => 0,
        }
    }

    /// Whether tokens begin with it.
    fn is_told(self, tokens: &[u8]) -> bool
        ensures { result ≡ tells self tokens.now }
    {
        begins_with(self.front(), tokens)
    }

    /// What stands behind its front.
    fn behind_front(self, tokens: &[u8]) -> &[u8]
        ensures { result.now ≡ behind_front self tokens.now }
    {
        behind(tokens, self.front().len())
    }

    /// The token of its value.
    fn value_token(self, tokens: &[u8]) -> &[u8]
        ensures { result.now ≡ value_token self tokens.now }
    {
        let value = self.behind_front(tokens);
        front(value, token_size(value))
    }

    /// What stands behind its value.
    fn behind_value(self, tokens: &[u8]) -> &[u8]
        ensures { result.now ≡ behind_value self tokens.now }
    {
        let value = self.behind_front(tokens);
        behind(value, token_size(value))
    }

    /// Whether tokens begin with it, and its value is a number that an Opal drive may tell.
    fn may_be_told(self, tokens: &[u8]) -> bool
        ensures { result ≡ may_be_told self tokens.now }
    {
        self.is_told(tokens)
            && is_at_least(self.least(), value_of(self.value_token(tokens)))
            && begins_with(&NAMED_END, self.behind_value(tokens))
    }

    /// What stands behind it.
    fn behind(self, tokens: &[u8]) -> &[u8]
        ensures { result.now ≡ behind_property self tokens.now }
    {
        behind(self.behind_value(tokens), 1)
    }
}

/// Whether tokens tell those of these properties that others tell, with values of their own, and behind them the same.
fn differs_in_values(properties: &[Property], heard: &[u8], wanted: &[u8]) -> bool
    ensures { result ≡ differs_in_values properties.now heard.now wanted.now }
{
    let mut answer = heard;
    let mut model = wanted;
    for property in properties {
        if property.is_told(model) {
            if !property.may_be_told(answer) {
                return false;
            }
            answer = property.behind(answer);
            model = property.behind(model);
        }
    }
    answer == model
}

/// The same of all properties.
#[tactic(auto, unfolding(crate::specs::Properties::differs_in_properties))]
fn differs_in_properties(heard: &[u8], wanted: &[u8]) -> bool
    ensures { result ≡ differs_in_properties heard.now wanted.now }
{
    differs_in_values(&ALL_PROPERTIES, heard, wanted)
}

/// Whether tokens begin as an answer to Properties does.
fn tells_properties(payload: &[u8]) -> bool
    ensures { result ≡ tells_properties payload.now }
{
    begins_with(&ANSWER_FRONT, payload)
}

/// The properties of such an answer, and what stands behind them.
fn behind_answer_front(payload: &[u8]) -> &[u8]
    ensures { result.now ≡ behind_answer_front payload.now }
{
    behind(payload, FRONT_LENGTH)
}

/// Whether two that were received are answers to Properties that differ in the TPer's values alone.
fn differs_in_answer(heard: &Received, wanted: &Received) -> bool
    ensures { result ≡ differs_in_answer heard.now wanted.now }
{
    let answer = heard.payload.as_slice();
    let model = wanted.payload.as_slice();
    heard.com_id == wanted.com_id
        && heard.session.tsn == wanted.session.tsn
        && heard.session.hsn == wanted.session.hsn
        && tells_properties(answer)
        && tells_properties(model)
        && differs_in_properties(behind_answer_front(answer), behind_answer_front(model))
}

/// Whether two lines tell of answers to Properties that differ in the TPer's values alone.
pub(crate) fn differs_by_properties(
    alloc: Global,
    heard: &[u8],
    wanted: &[u8],
) -> Result<bool, AllocError>
    ensures { IfOk result (λ differs. differs ≡ differs_by_properties heard.now wanted.now) }
{
    match (packet_told(alloc, heard)?, packet_told(alloc, wanted)?) {
        (Some(heard), Some(wanted)) => Ok(differs_in_answer(&heard, &wanted)),
        _ => Ok(false),
    }
}
