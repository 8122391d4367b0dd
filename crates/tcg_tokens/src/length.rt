//! How many bytes an item takes when it is written.

ghost use Rattle.std.specs.Prelude.{◌≡◌, ◌≤◌, length};
ghost use Rattle.tcg_tokens.specs.Length.{capped_length, len_of};
ghost use Rattle.tcg_tokens.specs.Message.{message, reply};
ghost use Rattle.tcg_tokens.specs.Spelling.{number_spelling, bytes_spelling, spelling_of, status_spelling};
ghost use Rattle.tcg_tokens.specs.Tree.{tree, trees, list};

use crate::form::{Form, TINY_LIMIT};
use crate::value::{Call, Item, Value};
use crate::write::without_zeros;

/// The number of bytes that [`write_item`](crate::write_item) gives for an item that can be written, or
/// `usize::MAX` where there are more. It takes no memory.
pub fn item_len(item: &Item) -> usize
    ensures { result ≡ len_of (message item.now) }
{
    match item {
        Item::Call(call) => call_len(call),
        Item::Reply { results, status } => reply_len(results, status),
        Item::EndSession => 1,
        Item::Begin(number) => 1 + number_len(*number),
        Item::End(number) => 1 + number_len(*number),
    }
}

/// The bytes of a call: its mark, its UIDs, its arguments, the mark behind them, its status.
fn call_len(call: &Call) -> usize
    ensures { result ≡ len_of (message (Item.Call call.now)) }
{
    let uids = bytes_len(&call.object).saturating_add(bytes_len(&call.method));
    let list = list_len(&call.args).saturating_add(status_len(&call.status));
    uids.saturating_add(list).saturating_add(2)
}

/// The bytes of a reply: its results, the mark behind them, its status.
fn reply_len(results: &Vec<Value>, status: &[u64; 3]) -> usize
    ensures { result ≡ len_of (reply (trees results.now.items) status.now) }
{
    list_len(results)
        .saturating_add(status_len(status))
        .saturating_add(1)
}

/// The bytes of a number.
#[tactic(auto, unfolding(crate::specs::Spelling::number_spelling))]
fn number_len(number: u64) -> usize
    ensures value { result ≡ length (number_spelling number) }
    ensures bound { result ≤ 9 }
{
    if number < u64::from(TINY_LIMIT) {
        return 1;
    }
    1 + without_zeros(&number.to_be_bytes()).len()
}

/// The bytes of an atom of bytes.
#[tactic(auto, unfolding(crate::specs::Spelling::bytes_spelling))]
fn bytes_len(content: &[u8]) -> usize
    ensures { result ≡ capped_length (length (bytes_spelling content.now)) }
{
    let len = content.len();
    let header = if len < usize::from(Form::Short.upper_range()) {
        1
    } else if len < 256 * usize::from(Form::Medium.upper_range()) {
        2
    } else {
        4
    };
    len.saturating_add(header)
}

/// The bytes of a value.
#[cycle(len)]
#[tactic(auto, using(crate::proofs::Trees::trees_drop))]
fn value_len(value: &Value) -> usize
    ensures { result ≡ capped_length (length (spelling_of (tree value.now))) }
{
    match value {
        Value::Number(number) => number_len(*number),
        Value::Bytes(content) => bytes_len(content.as_slice()),
        Value::List(items) => list_len(items),
        Value::Named(both) => {
            let (name, inner) = &**both;
            value_len(name)
                .saturating_add(value_len(inner))
                .saturating_add(2)
        }
    }
}

/// The bytes of a list of values.
#[cycle(len)]
#[tactic(auto, using(crate::proofs::Trees::trees_drop))]
fn list_len(items: &Vec<Value>) -> usize
    ensures { result ≡ capped_length (length (spelling_of (list (trees items.now.items)))) }
{
    let mut len: usize = 2;
    for item in items {
        len = len.saturating_add(value_len(item));
    }
    len
}

/// The bytes of a status.
fn status_len(status: &[u64; 3]) -> usize
    ensures { result ≡ length (status_spelling status.now) }
{
    let [first, second, third] = *status;
    2 + number_len(first) + number_len(second) + number_len(third)
}
