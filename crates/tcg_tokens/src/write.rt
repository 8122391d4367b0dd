//! Items as bytes.

ghost use Rattle.std.specs.Prelude.{◌≡◌, ◌<◌, ◌≤◌, ◌+◌, ◌^◌, ◌++◌, ◌∷◌, [], List, ℕ, length, true, IfOk, IsTrue, Ok, vec_len, vec_capacity};
ghost use Rattle.std.specs.List.{flat_map};
ghost use Rattle.tcg_tokens.specs.declared.limits.TheConstants.{LENGTH_BITS};
ghost use Rattle.tcg_tokens.specs.Grammar.{IsFill, Spells};
ghost use Rattle.tcg_tokens.specs.Length.{len_of};
ghost use Rattle.tcg_tokens.specs.Lexeme.{AreBytes, code_of};
ghost use Rattle.tcg_tokens.specs.Message.{message, reply};
ghost use Rattle.tcg_tokens.specs.Reading.{reading};
ghost use Rattle.tcg_tokens.specs.Spelling.{header, significant, number_spelling, bytes_spelling, spelling_of, spellings_of, status_spelling, item_spelling_of};
ghost use Rattle.tcg_tokens.specs.Tree.{tree, trees, list};
ghost use Rattle.tcg_tokens.specs.Writable.{has_short_atoms, have_short_atoms, is_writable, IsShaped};

use crate::form::{Form, TINY_LIMIT};
use crate::length::item_len;
use crate::token::Mark;
use crate::value::{Call, Item, Value};
use std::alloc::{AllocError, Global};

/// The one spelling of an item: the shortest atoms, and no FF.
///
/// Ask [`writable`](crate::writable) first where the item is not known to have one. The memory is taken at
/// once, and is that of the bytes.
///
/// # Errors
///
/// The allocation was refused.
pub fn write_item(alloc: Global, item: &Item) -> Result<Vec<u8>, AllocError>
    requires { IsTrue (is_writable (message item.now)) }
    ensures spelling { IfOk result (λ bytes. bytes.items ≡ item_spelling_of (message item.now)) }
    // No bytes that spell the item are fewer.
    ensures shortest { IfOk result
        (λ bytes. (text : List ℕ) → AreBytes text → Spells text (message item.now)
        → length bytes.items ≤ length text) }
    // What is written is read again as the item, also with FF behind it.
    ensures read_again { IfOk result
        (λ bytes. (fill : List ℕ) → IsFill fill
        → reading (bytes.items ++ fill) ≡ Ok (message item.now)) }
{
    let mut out = Vec::with_capacity(alloc, item_len(item))?;
    put_item(&mut out, item);
    Ok(out)
}

/// Adds the bytes of [`write_item`] to a vector that has room for them, and takes no memory.
pub fn write_item_into(item: &Item, out: &mut Vec<u8>)
    requires writable { IsTrue (is_writable (message item.now)) }
    // Spare room of `item_len`.
    requires room { vec_len out.old + len_of (message item.now) ≤ vec_capacity out.old }
    ensures items { out.new.items ≡ out.old.items ++ item_spelling_of (message item.now) }
    ensures len { vec_len out.new ≡ vec_len out.old + len_of (message item.now) }
    ensures kept { vec_capacity out.old ≤ vec_capacity out.new }
{
    put_item(out, item);
}

// Each function here adds to `out`, whose room the caller has made: none takes memory.

/// One byte.
#[inline(always)]
fn put(out: &mut Vec<u8>, byte: u8)
    requires room { vec_len out.old + length (byte ∷ []) ≤ vec_capacity out.old }
    ensures items { out.new.items ≡ out.old.items ++ byte ∷ [] }
    ensures len { vec_len out.new ≡ vec_len out.old + length (byte ∷ []) }
    ensures kept { vec_capacity out.old ≤ vec_capacity out.new }
{
    out.push(byte).unwrap();
}

/// Bytes as they are.
#[inline(always)]
fn put_all(out: &mut Vec<u8>, bytes: &[u8])
    requires room { vec_len out.old + length (bytes.now) ≤ vec_capacity out.old }
    ensures items { out.new.items ≡ out.old.items ++ bytes.now }
    ensures len { vec_len out.new ≡ vec_len out.old + length (bytes.now) }
    ensures kept { vec_capacity out.old ≤ vec_capacity out.new }
{
    out.extend_from_slice(bytes).unwrap();
}

/// A mark.
#[inline(always)]
fn put_mark(out: &mut Vec<u8>, mark: Mark)
    requires room { vec_len out.old + length (code_of mark ∷ []) ≤ vec_capacity out.old }
    ensures items { out.new.items ≡ out.old.items ++ code_of mark ∷ [] }
    ensures len { vec_len out.new ≡ vec_len out.old + length (code_of mark ∷ []) }
    ensures kept { vec_capacity out.old ≤ vec_capacity out.new }
{
    put(out, mark.code());
}

/// What stands before the content of an atom, in its shortest form.
#[inline(always)]
fn put_header(out: &mut Vec<u8>, is_bytes: bool, len: usize)
    requires short { len < 2 ^ LENGTH_BITS }
    requires room { vec_len out.old + length (header is_bytes len) ≤ vec_capacity out.old }
    ensures items { out.new.items ≡ out.old.items ++ header is_bytes len }
    ensures len { vec_len out.new ≡ vec_len out.old + length (header is_bytes len) }
    ensures kept { vec_capacity out.old ≤ vec_capacity out.new }
{
    if len < usize::from(Form::Short.upper_range()) {
        put(out, Form::Short.first_byte(is_bytes) + len as u8);
        return;
    }
    if len < 256 * usize::from(Form::Medium.upper_range()) {
        put_all(
            out,
            &[
                Form::Medium.first_byte(is_bytes) + (len / 256) as u8,
                (len % 256) as u8,
            ],
        );
        return;
    }
    put_all(
        out,
        &[
            Form::Long.first_byte(is_bytes),
            (len / 65536) as u8,
            (len / 256 % 256) as u8,
            (len % 256) as u8,
        ],
    );
}

/// The bytes without the zeros in front.
pub(crate) fn without_zeros(bytes: &[u8]) -> &[u8]
    ensures { result.now ≡ significant bytes.now }
{
    let mut rest = bytes;
    while let [0, after @ ..] = rest {
        rest = after;
    }
    rest
}

/// A number in the shortest atom.
#[tactic(auto, unfolding(crate::specs::Spelling::number_spelling))]
#[inline(always)]
fn put_number(out: &mut Vec<u8>, number: u64)
    requires room { vec_len out.old + length (number_spelling number) ≤ vec_capacity out.old }
    ensures items { out.new.items ≡ out.old.items ++ number_spelling number }
    ensures len { vec_len out.new ≡ vec_len out.old + length (number_spelling number) }
    ensures kept { vec_capacity out.old ≤ vec_capacity out.new }
{
    if number < u64::from(TINY_LIMIT) {
        put(out, number as u8);
        return;
    }
    let bytes = number.to_be_bytes();
    let content = without_zeros(&bytes);
    put_header(out, false, content.len());
    put_all(out, content);
}

/// Bytes in the shortest atom.
#[tactic(auto, unfolding(crate::specs::Spelling::bytes_spelling))]
#[inline(always)]
fn put_bytes(out: &mut Vec<u8>, content: &[u8])
    requires short { length content.now < 2 ^ LENGTH_BITS }
    requires room { vec_len out.old + length (bytes_spelling content.now) ≤ vec_capacity out.old }
    ensures items { out.new.items ≡ out.old.items ++ bytes_spelling content.now }
    ensures len { vec_len out.new ≡ vec_len out.old + length (bytes_spelling content.now) }
    ensures kept { vec_capacity out.old ≤ vec_capacity out.new }
{
    put_header(out, true, content.len());
    put_all(out, content);
}

/// A value.
#[cycle(put)]
#[tactic(auto, using(crate::proofs::Trees::trees_drop))]
fn put_value(out: &mut Vec<u8>, value: &Value)
    requires short { has_short_atoms (tree value.now) ≡ true }
    requires room { vec_len out.old + length (spelling_of (tree value.now)) ≤ vec_capacity out.old }
    ensures items { out.new.items ≡ out.old.items ++ spelling_of (tree value.now) }
    ensures len { vec_len out.new ≡ vec_len out.old + length (spelling_of (tree value.now)) }
    ensures kept { vec_capacity out.old ≤ vec_capacity out.new }
{
    match value {
        Value::Number(number) => put_number(out, *number),
        Value::Bytes(content) => put_bytes(out, content.as_slice()),
        Value::List(items) => put_list(out, items),
        Value::Named(both) => {
            let (name, inner) = &**both;
            put_mark(out, Mark::StartName);
            put_value(out, name);
            put_value(out, inner);
            put_mark(out, Mark::EndName);
        }
    }
}

/// A list of values.
#[cycle(put)]
#[tactic(auto, using(crate::proofs::Trees::trees_drop))]
fn put_list(out: &mut Vec<u8>, items: &Vec<Value>)
    requires short { have_short_atoms (trees items.now.items) ≡ true }
    requires room { vec_len out.old + length (spelling_of (list (trees items.now.items)))
        ≤ vec_capacity out.old }
    ensures items { out.new.items ≡ out.old.items ++ spelling_of (list (trees items.now.items)) }
    ensures len { vec_len out.new
        ≡ vec_len out.old + length (spelling_of (list (trees items.now.items))) }
    ensures kept { vec_capacity out.old ≤ vec_capacity out.new }
{
    put_mark(out, Mark::StartList);
    for item in items {
        put_value(out, item);
    }
    put_mark(out, Mark::EndList);
}

/// The numbers of a status as a list.
#[inline(always)]
fn put_status(out: &mut Vec<u8>, status: &[u64; 3])
    requires room { vec_len out.old + length (status_spelling status.now) ≤ vec_capacity out.old }
    ensures items { out.new.items ≡ out.old.items ++ status_spelling status.now }
    ensures len { vec_len out.new ≡ vec_len out.old + length (status_spelling status.now) }
    ensures kept { vec_capacity out.old ≤ vec_capacity out.new }
{
    let [first, second, third] = *status;
    put_mark(out, Mark::StartList);
    put_number(out, first);
    put_number(out, second);
    put_number(out, third);
    put_mark(out, Mark::EndList);
}

/// A call.
fn put_call(out: &mut Vec<u8>, call: &Call)
    requires short { have_short_atoms (trees call.now.args.items) ≡ true }
    requires room { vec_len out.old + length (item_spelling_of (message (Item.Call call.now)))
        ≤ vec_capacity out.old }
    ensures items { out.new.items
        ≡ out.old.items ++ item_spelling_of (message (Item.Call call.now)) }
    ensures len { vec_len out.new
        ≡ vec_len out.old + length (item_spelling_of (message (Item.Call call.now))) }
    ensures kept { vec_capacity out.old ≤ vec_capacity out.new }
    ensures shaped { IsShaped (message (Item.Call call.now)) }
{
    put_mark(out, Mark::Call);
    put_bytes(out, &call.object);
    put_bytes(out, &call.method);
    put_list(out, &call.args);
    put_mark(out, Mark::EndOfData);
    put_status(out, &call.status);
}

/// A reply.
fn put_reply(out: &mut Vec<u8>, results: &Vec<Value>, status: &[u64; 3])
    requires short { have_short_atoms (trees results.now.items) ≡ true }
    requires room { vec_len out.old
        + length (item_spelling_of (reply (trees results.now.items) status.now))
        ≤ vec_capacity out.old }
    ensures items { out.new.items ≡ out.old.items
        ++ item_spelling_of (reply (trees results.now.items) status.now) }
    ensures len { vec_len out.new ≡ vec_len out.old
        + length (item_spelling_of (reply (trees results.now.items) status.now)) }
    ensures kept { vec_capacity out.old ≤ vec_capacity out.new }
    ensures shaped { IsShaped (reply (trees results.now.items) status.now) }
{
    put_list(out, results);
    put_mark(out, Mark::EndOfData);
    put_status(out, status);
}

/// An item.
#[tactic(auto, using(crate::proofs::Short::short_args))]
fn put_item(out: &mut Vec<u8>, item: &Item)
    requires writable { is_writable (message item.now) ≡ true }
    requires room { vec_len out.old + length (item_spelling_of (message item.now))
        ≤ vec_capacity out.old }
    ensures items { out.new.items ≡ out.old.items ++ item_spelling_of (message item.now) }
    ensures len { vec_len out.new ≡ vec_len out.old + length (item_spelling_of (message item.now)) }
    ensures kept { vec_capacity out.old ≤ vec_capacity out.new }
    ensures shaped { IsShaped (message item.now) }
{
    match item {
        Item::Call(call) => put_call(out, call),
        Item::Reply { results, status } => put_reply(out, results, status),
        Item::EndSession => put_mark(out, Mark::EndOfSession),
        Item::Begin(number) => {
            put_mark(out, Mark::StartTransaction);
            put_number(out, *number);
        }
        Item::End(number) => {
            put_mark(out, Mark::EndTransaction);
            put_number(out, *number);
        }
    }
}
