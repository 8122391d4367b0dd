//! Scripts that are run, and what they print.

ghost use Rattle.std.specs.Prelude.{◌≡◌, ◌++◌, drop, length, IfOk, OnOk};
ghost use Rattle.runs.specs.Answers.{printed_text, longer, answer_behind, try_behind, tries_behind, goes_on};

use crate::explored::lines::Lines;
use crate::explored::tries::{Tries, Try};
use basics::Bytes;
use script_lines::Words;
use std::alloc::{AllocError, Global};
use tool::{Options, RunError, run_text};

/// What a script of these bytes prints.
///
/// # Errors
///
/// Want of memory.
pub fn printed_text(alloc: Global, options: &Options, text: &[u8]) -> Result<Vec<u8>, RunError>
    ensures { IfOk result (λ printed. printed.items ≡ printed_text options.now text.now) }
{
    let mut printed = Vec::new(alloc);
    run_text(alloc, text, &mut printed, options)?;
    Ok(printed)
}

/// What a list prints behind an opening.
fn printed_behind(
    alloc: Global,
    options: &Options,
    opening: &[u8],
    list: &[u8],
) -> Result<Vec<u8>, RunError>
    ensures { IfOk result (λ printed. printed.items
        ≡ printed_text options.now (opening.now ++ list.now)) }
{
    let mut text = Vec::from_slice(alloc, opening)?;
    text.extend_from_slice(list)?;
    printed_text(alloc, options, &text)
}

/// A list with one letter more.
fn longer(alloc: Global, list: &[u8], letter: &[u8]) -> Result<Vec<u8>, AllocError>
    ensures { IfOk result (λ text. text.items ≡ longer list.now letter.now) }
{
    let mut text = Vec::from_slice(alloc, list)?;
    text.extend_from_slice(letter)?;
    text.extend_from_slice(b"\n")?;
    Ok(text)
}

/// What stands behind so many bytes.
fn behind(alloc: Global, text: &[u8], size: usize) -> Result<Bytes, AllocError>
    ensures { IfOk result (λ rest. rest ≡ drop size text.now) }
{
    let rest = text.get(size..).unwrap_or(&[]);
    Ok(Bytes::from_vec(Vec::from_slice(alloc, rest)?))
}

/// A list with one letter more, and what the letter prints, where the list prints so many bytes.
fn try_behind(
    alloc: Global,
    options: &Options,
    opening: &[u8],
    list: &[u8],
    size: usize,
    letter: &[u8],
) -> Result<Try, RunError>
    requires { size ≡ length (printed_text options.now (opening.now ++ list.now)) }
    ensures { IfOk result (λ item. item ≡ try_behind options.now opening.now list.now letter.now) }
{
    let list = longer(alloc, list, letter)?;
    let printed = printed_behind(alloc, options, opening, &list)?;
    let answer = behind(alloc, &printed, size)?;
    Ok(Try {
        list: Bytes::from_vec(list),
        answer,
    })
}

/// A list with each of the letters behind it.
pub(crate) fn tries_behind(
    alloc: Global,
    options: &Options,
    opening: &[u8],
    letters: &Lines,
    list: &[u8],
) -> Result<Tries, RunError>
    ensures { IfOk result (λ tries. tries
        ≡ tries_behind options.now opening.now letters.now list.now) }
{
    let size = printed_behind(alloc, options, opening, list)?.len();
    let mut tries = Tries::new(alloc);
    for letter in letters.as_slice() {
        tries.push(try_behind(alloc, options, opening, list, size, letter.as_slice())?)?;
    }
    Ok(tries)
}

/// Whether something can come behind a letter that prints this: a step that a port refuses leaves all as it was.
pub(crate) fn goes_on(answer: &[u8]) -> bool
    ensures { result ≡ goes_on answer.now }
{
    Words::new(answer).next_word() != b"refused".as_slice()
}
