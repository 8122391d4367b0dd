//! Values, items and faults as text.

ghost use Rattle.std.specs.Prelude.{◌≡◌, ◌++◌, string_bytes, OnOk, IfOk, codes, decimal, if◌then◌else◌};
ghost use Rattle.hex.specs.Hex.{encode_lower};
ghost use Rattle.tcg_tokens.specs.Message.{message, reply};
ghost use Rattle.tcg_tokens.specs.Text.{text_of, status_text, item_text_of, fault_text_of};
ghost use Rattle.tcg_tokens.specs.Tree.{tree, trees, list};

use crate::error::TokenError;
use crate::value::{Call, Item, Value};
use std::alloc::{AllocError, Global};

/// A value's text: a number in decimal, bytes as `x` and lower-case hex, a list as `[a b]`, a named value
/// as `{n=v}`.
///
/// # Errors
///
/// An allocation was refused.
pub fn value_text(alloc: Global, value: &Value) -> Result<String, AllocError>
    ensures { IfOk result (λ text. string_bytes text ≡ text_of (tree value.now)) }
{
    let mut text = String::new(alloc);
    show_value(alloc, value, &mut text)?;
    Ok(text)
}

/// An item's text: `call OBJECT METHOD ARGS s s s` with the UIDs as sixteen hex digits,
/// `reply RESULTS s s s`, `end-session`, `begin N` or `end N`.
///
/// # Errors
///
/// An allocation was refused.
pub fn item_text(alloc: Global, item: &Item) -> Result<String, AllocError>
    ensures { IfOk result (λ text. string_bytes text ≡ item_text_of (message item.now)) }
{
    let mut text = String::new(alloc);
    match item {
        Item::Call(call) => show_call(alloc, call, &mut text)?,
        Item::Reply { results, status } => show_reply(alloc, results, status, &mut text)?,
        Item::EndSession => text.push_str("end-session")?,
        Item::Begin(number) => write!(text, "begin {number}")?,
        Item::End(number) => write!(text, "end {number}")?,
    }
    Ok(text)
}

/// The text of a fault: `malformed N NAME`, with its number and its name.
///
/// # Errors
///
/// An allocation was refused.
pub fn fault_text(alloc: Global, fault: TokenError) -> Result<String, AllocError>
    ensures { IfOk result (λ text. string_bytes text ≡ fault_text_of fault) }
{
    let mut text = String::new(alloc);
    let code = fault.code();
    write!(text, "malformed {code} ")?;
    text.push_str(fault.name())?;
    Ok(text)
}

/// Bytes as hex, behind the text.
///
/// # Errors
///
/// An allocation was refused.
pub fn show_hex(alloc: Global, content: &[u8], text: &mut String) -> Result<(), AllocError>
    ensures { OnOk result
        (string_bytes text.new ≡ string_bytes text.old ++ encode_lower content.now) }
{
    let digits = hex::encode(alloc, content)?;
    text.push_str(digits.as_str())?;
    Ok(())
}

/// A value behind the text.
#[cycle(show)]
#[tactic(auto, using(crate::proofs::Trees::trees_drop))]
fn show_value(alloc: Global, value: &Value, text: &mut String) -> Result<(), AllocError>
    ensures { OnOk result
        (string_bytes text.new ≡ string_bytes text.old ++ text_of (tree value.now)) }
{
    match value {
        Value::Number(number) => {
            write!(text, "{number}")?;
            Ok(())
        }
        Value::Bytes(bytes) => {
            text.push_str("x")?;
            show_hex(alloc, bytes.as_slice(), text)?;
            Ok(())
        }
        Value::List(items) => {
            show_list(alloc, items, text)?;
            Ok(())
        }
        Value::Named(both) => {
            let (name, inner) = &**both;
            text.push_str("{")?;
            show_value(alloc, name, text)?;
            text.push_str("=")?;
            show_value(alloc, inner, text)?;
            text.push_str("}")?;
            Ok(())
        }
    }
}

/// What stands before a value of a list: a blank between each two.
fn gap(is_first: bool) -> &'static str
    ensures { result.now ≡ (if is_first then codes "" else codes " ") }
{
    if is_first { "" } else { " " }
}

/// A list of values behind the text.
#[cycle(show)]
#[tactic(auto, using(crate::proofs::Trees::trees_drop))]
fn show_list(alloc: Global, items: &Vec<Value>, text: &mut String) -> Result<(), AllocError>
    ensures { OnOk result
        (string_bytes text.new ≡ string_bytes text.old ++ text_of (list (trees items.now.items))) }
{
    text.push_str("[")?;
    let mut is_first = true;
    for item in items {
        text.push_str(gap(is_first))?;
        show_value(alloc, item, text)?;
        is_first = false;
    }
    text.push_str("]")?;
    Ok(())
}

/// The numbers of a status behind the text.
///
/// # Errors
///
/// An allocation was refused.
pub fn show_status(status: &[u64], text: &mut String) -> Result<(), AllocError>
    ensures { OnOk result
        (string_bytes text.new ≡ string_bytes text.old ++ status_text status.now) }
{
    for number in status {
        write!(text, " {number}")?;
    }
    Ok(())
}

/// A call behind the text.
fn show_call(alloc: Global, call: &Call, text: &mut String) -> Result<(), AllocError>
    ensures { OnOk result
        (string_bytes text.new
        ≡ string_bytes text.old ++ item_text_of (message (Item.Call call.now))) }
{
    text.push_str("call ")?;
    show_hex(alloc, &call.object, text)?;
    text.push_str(" ")?;
    show_hex(alloc, &call.method, text)?;
    text.push_str(" ")?;
    show_list(alloc, &call.args, text)?;
    show_status(&call.status, text)?;
    Ok(())
}

/// A reply behind the text.
fn show_reply(
    alloc: Global,
    results: &Vec<Value>,
    status: &[u64; 3],
    text: &mut String,
) -> Result<(), AllocError>
    ensures { OnOk result (string_bytes text.new ≡ string_bytes text.old
        ++ item_text_of (reply (trees results.now.items) status.now)) }
{
    text.push_str("reply ")?;
    show_list(alloc, results, text)?;
    show_status(status, text)?;
    Ok(())
}
