//! Which items can be written.

ghost use Rattle.std.specs.Prelude.{◌≡◌, ◌↔◌, IsTrue, ℕ, List};
ghost use Rattle.std.specs.List.{list_all};
ghost use Rattle.tcg_tokens.specs.Grammar.{Spells};
ghost use Rattle.tcg_tokens.specs.Message.{message, reply};
ghost use Rattle.tcg_tokens.specs.Tree.{tree, trees};
ghost use Rattle.tcg_tokens.specs.Writable.{fits_number, fits_atom, is_name, is_writable_value, are_writable_values, is_writable, IsShaped};

use crate::limits::{LENGTH_BITS, NESTING_LIMIT, NUMBER_BITS};
use crate::value::{Call, Item, Value};

/// Whether an item can be written: names are numbers or bytes, atoms of bytes are shorter than 2^24, and
/// nothing is nested deeper than the limit.
pub fn writable(item: &Item) -> bool
    // Exactly the items that some bytes spell.
    ensures spelled { IsTrue result ↔ ((text : List ℕ) × Spells text (message item.now)) }
    ensures exact { result ≡ is_writable (message item.now) }
{
    is_writable_item(item)
}

/// Whether the tests say that the item can be written.
fn is_writable_item(item: &Item) -> bool
    ensures exact { result ≡ is_writable (message item.now) }
    ensures shaped { IsShaped (message item.now) }
{
    match item {
        Item::Call(call) => is_writable_call(call),
        Item::Reply { results, status } => is_writable_reply(results, status),
        Item::EndSession => true,
        Item::Begin(number) => is_number(*number),
        Item::End(number) => is_number(*number),
    }
}

fn is_writable_call(call: &Call) -> bool
    ensures exact { result ≡ is_writable (message (Item.Call call.now)) }
    ensures shaped { IsShaped (message (Item.Call call.now)) }
{
    are_writable(&call.args, NESTING_LIMIT - 1) && are_numbers(&call.status)
}

fn is_writable_reply(results: &Vec<Value>, status: &[u64; 3]) -> bool
    ensures exact { result ≡ is_writable (reply (trees results.now.items) status.now) }
    ensures shaped { IsShaped (reply (trees results.now.items) status.now) }
{
    are_writable(results, NESTING_LIMIT - 1) && are_numbers(status)
}

/// Whether it is a number of at most the bits of the limit.
fn is_number(number: u64) -> bool
    ensures { result ≡ fits_number number }
{
    number <= u64::MAX >> (u64::BITS - NUMBER_BITS)
}

/// Whether each of the numbers is one of the limit's bits.
fn are_numbers(numbers: &[u64]) -> bool
    ensures { result ≡ list_all fits_number numbers.now }
{
    numbers.iter().all(|number| is_number(*number))
}

/// Whether the bytes are short enough for an atom.
fn is_atom(content: &[u8]) -> bool
    ensures { result ≡ fits_atom content.now }
{
    content.len() < 1 << LENGTH_BITS
}

/// Whether the value can be a name: a number or bytes.
fn is_name_value(name: &Value) -> bool
    ensures { result ≡ is_name (tree name.now) }
{
    match name {
        Value::Number(number) => is_number(*number),
        Value::Bytes(content) => is_atom(content.as_slice()),
        Value::List(_) => false,
        Value::Named(_) => false,
    }
}

/// Whether the value can be written where `room` more lists and named values may be nested.
#[cycle(writable)]
fn is_writable_in(value: &Value, room: u8) -> bool
    ensures { result ≡ is_writable_value room (tree value.now) }
{
    match value {
        Value::Number(number) => is_number(*number),
        Value::Bytes(content) => is_atom(content.as_slice()),
        Value::List(items) => room > 0 && are_writable(items, room - 1),
        Value::Named(both) => {
            let (name, inner) = &**both;
            if room == 0 || !is_name_value(name) {
                return false;
            }
            is_writable_in(inner, room - 1)
        }
    }
}

/// Whether each of the values can be written there.
#[cycle(writable)]
#[tactic(auto, using(crate::proofs::Trees::trees_drop))]
fn are_writable(values: &Vec<Value>, room: u8) -> bool
    ensures { result ≡ are_writable_values room (trees values.now.items) }
{
    for value in values {
        if !is_writable_in(value, room) {
            return false;
        }
    }
    true
}
