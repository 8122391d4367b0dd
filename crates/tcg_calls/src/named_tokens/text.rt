//! Values and items as text, with names.

ghost use Rattle.std.specs.Prelude.{◌≡◌, ◌++◌, string_bytes, OnOk, IfOk, MatchOption, Some, None, codes, if◌then◌else◌, option_map};
ghost use Rattle.tcg_tokens.specs.Message.{message};
ghost use Rattle.tcg_tokens.specs.Text.{status_text};
ghost use Rattle.tcg_tokens.specs.Tree.{tree, trees, list};
ghost use Rattle.tcg_calls.specs.NamedText.{number_text, octets_text, name_of_bytes, named_bytes_text, name_number, text_at, call_text_of, reply_text_of, named_item_text_of};
ghost use Rattle.tcg_calls.specs.declared.named_tokens.place.Place.TheVariants.{Plain};

use crate::named_tokens::place::Place;
use crate::tcg_names::object_name;
use sp_cells::Uid;
use std::alloc::{AllocError, Global};
use std::fmt::Write;
use tcg_tokens::{Call, Item, Value, item_text, show_hex, show_status};

/// The text of an item, with the names of objects, methods and columns: `call C_PIN_MSID Get
/// [[{startColumn=PIN} {endColumn=PIN}]] 0 0 0`. It is otherwise that of [`tcg_tokens::item_text`].
///
/// # Errors
///
/// An allocation was refused.
pub fn named_item_text(alloc: Global, item: &Item) -> Result<String, AllocError>
    ensures { IfOk result (λ text. string_bytes text ≡ named_item_text_of (message item.now)) }
{
    match item {
        Item::Call(call) => call_text(alloc, call),
        Item::Reply { results, status } => reply_text(alloc, results, status),
        other => item_text(alloc, other),
    }
}

/// The name of the object whose eight bytes these are.
fn name_of_bytes(alloc: Global, content: &[u8]) -> Result<Option<String>, AllocError>
    ensures { IfOk result (λ name. option_map string_bytes name ≡ name_of_bytes content.now) }
{
    match <[u8; 8]>::try_from(content) {
        Ok(octets) => object_name(alloc, Uid::from_bytes(octets)),
        Err(_) => Ok(None),
    }
}

/// An object or a method by its name, or as its eight bytes, behind the text.
fn show_octets(alloc: Global, octets: [u8; 8], text: &mut String) -> Result<(), AllocError>
    ensures { OnOk result
        (string_bytes text.new ≡ string_bytes text.old ++ octets_text octets) }
{
    match object_name(alloc, Uid::from_bytes(octets))? {
        Some(name) => text.push_str(name.as_str())?,
        None => show_hex(alloc, &octets, text)?,
    }
    Ok(())
}

/// Bytes by the name of their object, or as hex, behind the text.
fn show_bytes(alloc: Global, content: &[u8], text: &mut String) -> Result<(), AllocError>
    ensures { OnOk result
        (string_bytes text.new ≡ string_bytes text.old ++ named_bytes_text content.now) }
{
    match name_of_bytes(alloc, content)? {
        Some(name) => text.push_str(name.as_str())?,
        None => {
            text.push_str("x")?;
            show_hex(alloc, content, text)?;
        }
    }
    Ok(())
}

/// A number by its name where it stands, or in decimal, behind the text.
fn show_number(place: Place, number: u64, text: &mut String) -> Result<(), AllocError>
    ensures { OnOk result
        (string_bytes text.new ≡ string_bytes text.old ++ number_text place number) }
{
    match place.number_name(number) {
        Some(name) => text.push_str(name)?,
        None => write!(text, "{number}")?,
    }
    Ok(())
}

/// The number that a name is.
fn name_number(name: &Value) -> Option<u64>
    ensures { result ≡ name_number (tree name.now) }
{
    match name {
        Value::Number(number) => Some(*number),
        _ => None,
    }
}

/// A value where it stands, behind the text.
#[cycle(show)]
#[tactic(auto, using(crate::proofs::named_tokens::Trees::trees_drop))]
fn show_value(
    alloc: Global,
    place: Place,
    value: &Value,
    text: &mut String,
) -> Result<(), AllocError>
    ensures { OnOk result
        (string_bytes text.new ≡ string_bytes text.old ++ text_at place (tree value.now)) }
{
    match value {
        Value::Number(number) => {
            show_number(place, *number, text)?;
            Ok(())
        }
        Value::Bytes(bytes) => {
            show_bytes(alloc, bytes.as_slice(), text)?;
            Ok(())
        }
        Value::List(items) => {
            show_list(alloc, place, items, text)?;
            Ok(())
        }
        Value::Named(both) => {
            let (name, inner) = &**both;
            let behind = place.behind(name_number(name));
            text.push_str("{")?;
            show_value(alloc, place.of_name(), name, text)?;
            text.push_str("=")?;
            show_value(alloc, behind, inner, text)?;
            text.push_str("}")?;
            Ok(())
        }
    }
}

/// What stands before a value of a list: a blank between each two.
fn gap(is_first: bool) -> &'static str
    ensures { result.now ≡ (if is_first then codes "" else codes " ") }
{
    if is_first { "" } else { " " }
}

/// A list of values where it stands, behind the text.
#[cycle(show)]
#[tactic(auto, using(crate::proofs::named_tokens::Trees::trees_drop))]
fn show_list(
    alloc: Global,
    place: Place,
    items: &Vec<Value>,
    text: &mut String,
) -> Result<(), AllocError>
    ensures { OnOk result (string_bytes text.new
        ≡ string_bytes text.old ++ text_at place (list (trees items.now.items))) }
{
    text.push_str("[")?;
    let mut is_first = true;
    for item in items {
        text.push_str(gap(is_first))?;
        show_value(alloc, place, item, text)?;
        is_first = false;
    }
    text.push_str("]")?;
    Ok(())
}

/// The text of a call.
fn call_text(alloc: Global, call: &Call) -> Result<String, AllocError>
    ensures { IfOk result (λ text. string_bytes text
        ≡ call_text_of call.now.object call.now.method (trees call.now.args.items)
        call.now.status) }
{
    let place = Place::of_call(Uid::from_bytes(call.object), Uid::from_bytes(call.method));
    let mut text = String::new(alloc);
    text.push_str("call ")?;
    show_octets(alloc, call.object, &mut text)?;
    text.push_str(" ")?;
    show_octets(alloc, call.method, &mut text)?;
    text.push_str(" ")?;
    show_list(alloc, place, &call.args, &mut text)?;
    show_status(&call.status, &mut text)?;
    Ok(text)
}

/// The text of a reply.
fn reply_text(alloc: Global, results: &Vec<Value>, status: &[u64; 3]) -> Result<String, AllocError>
    ensures { IfOk result (λ text. string_bytes text
        ≡ reply_text_of (trees results.now.items) status.now) }
{
    let mut text = String::new(alloc);
    text.push_str("reply ")?;
    show_list(alloc, Place::Plain, results, &mut text)?;
    show_status(status, &mut text)?;
    Ok(text)
}
