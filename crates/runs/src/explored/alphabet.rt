//! The opening of a script, and the letters that stand behind it.

ghost use Rattle.std.specs.Prelude.{◌≡◌, ◌≤◌, take, drop, length, IfOk};
ghost use Rattle.std.specs.List.{list_any};
ghost use Rattle.runs.specs.Alphabets.{is_letters_mark, opening_size, opening_lines_text, letters_of, text_of_lines, letters_in};

use crate::explored::lines::Lines;
use crate::explored::words::{is_letter, is_letters_mark, opens};
use basics::Bytes;
use std::alloc::{AllocError, Global};

/// Whether one of the lines is the mark.
fn has_mark(lines: &[Bytes]) -> bool
    ensures { result ≡ list_any is_letters_mark lines.now }
{
    for line in lines {
        if is_letters_mark(line.as_slice()) {
            return true;
        }
    }
    false
}

/// How many lines the opening has.
pub(crate) fn opening_size(lines: &[Bytes]) -> usize
    ensures value { result ≡ opening_size lines.now }
    ensures within { result ≤ length lines.now }
{
    let marked = has_mark(lines);
    for i in 0..lines.len() {
        if !opens(marked, lines[i].as_slice()) {
            return i;
        }
    }
    lines.len()
}

/// Lines as text.
pub(crate) fn text_of_lines(alloc: Global, lines: &[Bytes]) -> Result<Bytes, AllocError>
    ensures { IfOk result (λ text. text ≡ text_of_lines lines.now) }
{
    let mut text = Vec::new(alloc);
    for line in lines {
        text.extend_from_slice(line.as_slice())?;
        text.extend_from_slice(b"\n")?;
    }
    Ok(Bytes::from_vec(text))
}

/// The opening of a script, as text.
pub(crate) fn opening_lines_text(alloc: Global, lines: &[Bytes]) -> Result<Bytes, AllocError>
    ensures { IfOk result (λ text. text ≡ opening_lines_text lines.now) }
{
    let size = opening_size(lines);
    text_of_lines(alloc, &lines[..size])
}

/// The letters among lines, each once.
fn letters_in(alloc: Global, lines: &[Bytes]) -> Result<Lines, AllocError>
    ensures { IfOk result (λ letters. letters ≡ letters_in lines.now) }
{
    let mut letters = Lines::new(alloc);
    for line in lines {
        if is_letter(line.as_slice()) {
            letters.add(alloc, line.as_slice())?;
        }
    }
    Ok(letters)
}

/// The letters behind the opening of a script.
pub(crate) fn letters_of(alloc: Global, lines: &[Bytes]) -> Result<Lines, AllocError>
    ensures { IfOk result (λ letters. letters ≡ letters_of lines.now) }
{
    let size = opening_size(lines);
    letters_in(alloc, &lines[size..])
}
