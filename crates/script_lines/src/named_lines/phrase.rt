//! What stands behind the verb of a line, and behind the client.

ghost use Rattle.std.specs.Prelude.{◌≡◌, map, option_map, IfOk};
ghost use Rattle.tcg_tokens.specs.Message.{message};
ghost use Rattle.tcg_tokens.specs.Tree.{tree};
ghost use Rattle.script_lines.specs.Said.{message_ended, start_said, get_said, cells_up_to, most_cells, set_said, authenticate_said, revert_said, phrase_behind, tokens_behind};

use crate::Words;
use crate::named_lines::calls::{
    activate_call, authenticate_call, get_call, revert_call, set_call, start_call,
};
use crate::named_lines::verb::CallVerb;
use crate::named_lines::words::{
    bytes_if_any, cell_said, column_if_any, object_if_any, object_said,
};
use std::alloc::{AllocError, Global};
use tcg_tokens::{Bytes, Item, Value, writable, write_item};

/// How many cells a phrase sets at most.
const MOST_CELLS: usize = 32;

/// An item, where no word is left.
fn ended(word: &[u8], item: Item) -> Option<Item>
    ensures { option_map message result ≡ message_ended word.now (message item) }
{
    if word.is_empty() { Some(item) } else { None }
}

/// What stands behind `start`.
fn start_said(alloc: Global, words: &mut Words<'_>) -> Result<Option<Item>, AllocError>
    ensures { IfOk result (λ item. option_map message item ≡ start_said words.old.rest.now) }
{
    let Some(sp) = object_said(alloc, words.next_word())? else {
        return Ok(None);
    };
    let Some(authority) = object_if_any(alloc, words.next_word())? else {
        return Ok(None);
    };
    let Some(pin) = bytes_if_any(alloc, words.next_word())? else {
        return Ok(None);
    };
    let item = start_call(alloc, sp, authority, pin)?;
    Ok(ended(words.next_word(), item))
}

/// What stands behind `get`.
fn get_said(alloc: Global, words: &mut Words<'_>) -> Result<Option<Item>, AllocError>
    ensures { IfOk result (λ item. option_map message item ≡ get_said words.old.rest.now) }
{
    let Some(object) = object_said(alloc, words.next_word())? else {
        return Ok(None);
    };
    let Some(first) = column_if_any(object.table(), words.next_word()) else {
        return Ok(None);
    };
    let Some(last) = column_if_any(object.table(), words.next_word()) else {
        return Ok(None);
    };
    let item = get_call(alloc, object, first, last)?;
    Ok(ended(words.next_word(), item))
}

/// The cells that the words write, each with its column as its name.
fn cells_said(
    alloc: Global,
    table: u64,
    words: &mut Words<'_>,
) -> Result<Option<Vec<Value>>, AllocError>
    ensures { IfOk result (λ cells. option_map (λ values. map tree values.items) cells
        ≡ cells_up_to most_cells table words.old.rest.now) }
{
    let mut cells = Vec::new(alloc);
    for number in 0..MOST_CELLS {
        let word = words.next_word();
        if word.is_empty() {
            return Ok(Some(cells));
        }
        match cell_said(alloc, table, word)? {
            Some(cell) => cells.push(cell)?,
            None => return Ok(None),
        }
    }
    Ok(None)
}

/// What stands behind `set`.
fn set_said(alloc: Global, words: &mut Words<'_>) -> Result<Option<Item>, AllocError>
    ensures { IfOk result (λ item. option_map message item ≡ set_said words.old.rest.now) }
{
    let Some(object) = object_said(alloc, words.next_word())? else {
        return Ok(None);
    };
    match cells_said(alloc, object.table(), words)? {
        Some(cells) => Ok(Some(set_call(alloc, object, cells)?)),
        None => Ok(None),
    }
}

/// What stands behind `authenticate`.
fn authenticate_said(alloc: Global, words: &mut Words<'_>) -> Result<Option<Item>, AllocError>
    ensures { IfOk result (λ item. option_map message item ≡ authenticate_said words.old.rest.now) }
{
    let Some(authority) = object_said(alloc, words.next_word())? else {
        return Ok(None);
    };
    let Some(proof) = bytes_if_any(alloc, words.next_word())? else {
        return Ok(None);
    };
    let item = authenticate_call(alloc, authority, proof)?;
    Ok(ended(words.next_word(), item))
}

/// What stands behind `revert`.
fn revert_said(alloc: Global, words: &mut Words<'_>) -> Result<Option<Item>, AllocError>
    ensures { IfOk result (λ item. option_map message item ≡ revert_said words.old.rest.now) }
{
    let Some(sp) = object_said(alloc, words.next_word())? else {
        return Ok(None);
    };
    Ok(ended(words.next_word(), revert_call(alloc, sp)))
}

/// What stands behind a verb.
fn phrase_behind(
    alloc: Global,
    verb: CallVerb,
    words: &mut Words<'_>,
) -> Result<Option<Item>, AllocError>
    ensures { IfOk result
        (λ item. option_map message item ≡ phrase_behind verb words.old.rest.now) }
{
    match verb {
        CallVerb::Start => start_said(alloc, words),
        CallVerb::Get => get_said(alloc, words),
        CallVerb::Set => set_said(alloc, words),
        CallVerb::Authenticate => authenticate_said(alloc, words),
        CallVerb::Activate => Ok(ended(words.next_word(), activate_call(alloc))),
        CallVerb::Revert => revert_said(alloc, words),
        CallVerb::Begin => Ok(ended(words.next_word(), Item::Begin(0))),
        CallVerb::Commit => Ok(ended(words.next_word(), Item::End(0))),
        CallVerb::Abort => Ok(ended(words.next_word(), Item::End(1))),
        CallVerb::End => Ok(ended(words.next_word(), Item::EndSession)),
    }
}

/// The tokens of what a verb and the words behind it say, in their shortest spelling. `None` where they say nothing, or
/// bytes are too long.
pub(crate) fn tokens_behind(
    alloc: Global,
    verb: CallVerb,
    words: &mut Words<'_>,
) -> Result<Option<Bytes>, AllocError>
    ensures { IfOk result (λ tokens. tokens ≡ tokens_behind verb words.old.rest.now) }
{
    let Some(item) = phrase_behind(alloc, verb, words)? else {
        return Ok(None);
    };
    if !writable(&item) {
        return Ok(None);
    }
    let tokens = write_item(alloc, &item)?;
    Ok(Some(Bytes::from_vec(tokens)))
}
