//! What the words of a phrase write: numbers, bytes, objects and columns.

ghost use Rattle.std.specs.Prelude.{◌≡◌, ◌≤◌, length, drop, option_map, IfOk};
ghost use Rattle.hex.specs.Hex.{decode_of};
ghost use Rattle.tcg_tokens.specs.Tree.{tree};
ghost use Rattle.tcg_calls.specs.CellValues.{uid_tree};
ghost use Rattle.script_lines.specs.Phrases.{hex_or_none, first_place, between_quotes, marked_bytes, bytes_said, object_said, column_said, value_said, equals_sign, cell_said, if_any};

use crate::number_up_to;
use hex::FromHexError;
use sp_cells::{Column, Uid};
use std::alloc::{AllocError, Global};
use std::str;
use tcg_calls::call_shapes::{bytes_value, named_value};
use tcg_calls::tcg_names::{column_by_name, object_by_name};
use tcg_tokens::{Bytes, Value};

/// The bytes that hex digits write.
pub(crate) fn hex_or_none(alloc: Global, digits: &[u8]) -> Result<Option<Bytes>, AllocError>
    ensures { IfOk result (λ content. content ≡ hex_or_none (decode_of digits.now)) }
{
    match hex::decode(alloc, digits) {
        Ok(content) => Ok(Some(Bytes::from_vec(content))),
        Err(FromHexError::OutOfMemory) => Err(AllocError),
        Err(_) => Ok(None),
    }
}

/// How many bytes stand before the first that is this one.
fn first_place(sign: u8, word: &[u8]) -> usize
    ensures value { result ≡ first_place sign word.now }
    ensures within { result ≤ length word.now }
{
    for i in 0..word.len() {
        if word[i] == sign {
            return i;
        }
    }
    word.len()
}

/// A text in front of a `"`, which is its last byte and its only one.
fn between_quotes(alloc: Global, text: &[u8]) -> Result<Option<Bytes>, AllocError>
    ensures { IfOk result (λ content. content ≡ between_quotes text.now) }
{
    let place = first_place(b'"', text);
    if place + 1 != text.len() {
        return Ok(None);
    }
    let content = Vec::from_slice(alloc, &text[..place])?;
    Ok(Some(Bytes::from_vec(content)))
}

/// The bytes of a text behind this mark.
fn marked_bytes(alloc: Global, mark: u8, text: &[u8]) -> Result<Option<Bytes>, AllocError>
    ensures { IfOk result (λ content. content ≡ marked_bytes mark text.now) }
{
    if mark == b'"' {
        return between_quotes(alloc, text);
    }
    if mark == b'x' {
        return hex_or_none(alloc, text);
    }
    Ok(None)
}

/// The bytes that a word writes: a text between `"`, or `x` and hex digits.
pub(crate) fn bytes_said(alloc: Global, word: &[u8]) -> Result<Option<Bytes>, AllocError>
    ensures { IfOk result (λ content. content ≡ bytes_said word.now) }
{
    match word {
        [] => Ok(None),
        [mark, text @ ..] => marked_bytes(alloc, *mark, text),
    }
}

/// The object of a name.
#[tactic(auto, using(crate::proofs::named_lines::Texts::texts))]
pub(crate) fn object_said(alloc: Global, word: &[u8]) -> Result<Option<Uid>, AllocError>
    ensures { IfOk result (λ object. object ≡ object_said word.now) }
{
    match str::from_utf8(word) {
        Ok(name) => object_by_name(alloc, name),
        Err(_) => Ok(None),
    }
}

/// The column of a name, in the table that has these upper four bytes in its rows' names.
#[tactic(auto, using(crate::proofs::named_lines::Texts::texts))]
pub(crate) fn column_said(table: u64, word: &[u8]) -> Option<Column>
    ensures { result ≡ column_said table word.now }
{
    match str::from_utf8(word) {
        Ok(name) => column_by_name(table, name),
        Err(_) => None,
    }
}

/// An object as a value: its eight bytes.
pub(crate) fn uid_value(alloc: Global, object: Uid) -> Result<Value, AllocError>
    ensures { IfOk result (λ value. tree value ≡ uid_tree object) }
{
    let value = bytes_value(alloc, &object.0.to_be_bytes())?;
    Ok(value)
}

/// The value that a word writes: a decimal number, bytes, or an object.
pub(crate) fn value_said(alloc: Global, word: &[u8]) -> Result<Option<Value>, AllocError>
    ensures { IfOk result (λ value. option_map tree value ≡ value_said word.now) }
{
    if let Some(number) = number_up_to(u64::MAX, word) {
        return Ok(Some(Value::Number(number)));
    }
    if let Some(content) = bytes_said(alloc, word)? {
        return Ok(Some(Value::Bytes(content)));
    }
    match object_said(alloc, word)? {
        Some(object) => Ok(Some(uid_value(alloc, object)?)),
        None => Ok(None),
    }
}

/// What stands behind one byte.
fn behind_one(text: &[u8]) -> &[u8]
    ensures { result.now ≡ drop 1 text.now }
{
    match text {
        [] => &[],
        [_, behind @ ..] => behind,
    }
}

/// The cell that COLUMN=VALUE writes, as a value with a name.
pub(crate) fn cell_said(alloc: Global, table: u64, word: &[u8]) -> Result<Option<Value>, AllocError>
    ensures { IfOk result (λ cell. option_map tree cell ≡ cell_said table word.now) }
{
    let place = first_place(b'=', word);
    let Some(column) = column_said(table, &word[..place]) else {
        return Ok(None);
    };
    match value_said(alloc, behind_one(&word[place..]))? {
        Some(value) => Ok(Some(named_value(alloc, Value::Number(column.0), value)?)),
        None => Ok(None),
    }
}

/// The object of a name, where there is a word.
pub(crate) fn object_if_any(alloc: Global, word: &[u8]) -> Result<Option<Option<Uid>>, AllocError>
    ensures { IfOk result (λ said. said ≡ if_any object_said word.now) }
{
    if word.is_empty() {
        return Ok(Some(None));
    }
    match object_said(alloc, word)? {
        Some(object) => Ok(Some(Some(object))),
        None => Ok(None),
    }
}

/// The bytes that a word writes, where there is one.
pub(crate) fn bytes_if_any(alloc: Global, word: &[u8]) -> Result<Option<Option<Bytes>>, AllocError>
    ensures { IfOk result (λ said. said ≡ if_any bytes_said word.now) }
{
    if word.is_empty() {
        return Ok(Some(None));
    }
    match bytes_said(alloc, word)? {
        Some(content) => Ok(Some(Some(content))),
        None => Ok(None),
    }
}

/// The column of a name, where there is a word.
pub(crate) fn column_if_any(table: u64, word: &[u8]) -> Option<Option<Column>>
    ensures { result ≡ if_any (column_said table) word.now }
{
    if word.is_empty() {
        return Some(None);
    }
    match column_said(table, word) {
        Some(column) => Some(Some(column)),
        None => None,
    }
}
