//! Rows of what a part of a search prints.

ghost use Rattle.std.specs.Prelude.{◌≡◌, ◌++◌, ◌∷◌, [], false, None, Some, List, ℕ, length, codes, IfOk, OnOk};
ghost use Rattle.std.specs.List.{fold};
ghost use Rattle.runs.specs.Rows.{row_word, row_named, line_of_row, cell, number_in_cell, row_of_cells, row_written, summed_byte, summed_line, sum_of_lines};

use crate::explored::cells::{append_escaped, unescaped};
use crate::explored::share::split_at_byte;
use basics::{Bytes, append_decimal};
use script_lines::number_up_to;
use std::alloc::{AllocError, Global};
use std::marker::Model;

/// What a row says.
#[derive(Clone, Copy, PartialEq, Eq)]
pub enum RowName {
    /// The sum over the rows behind it.
    Check,
    /// Which part it is.
    Place,
    /// What is searched, and how far.
    Asked,
    /// How many lists of a length were run.
    Lists,
    /// What letters print behind a list.
    State,
    /// A kind of line that was printed.
    Found,
}

/// A row of what a part prints.
#[derive(Drop)]
pub struct Row {
    pub name: RowName,
    /// How many letters the lists have that are gone on from.
    pub size: u64,
    pub count: u64,
    pub text: Bytes,
    pub list: Bytes,
}

/// Rows, in order.
#[derive(Drop)]
pub struct Rows {
    items: Vec<Row>,
}

impl Model for Rows {
    ghost use Rattle.std.specs.Prelude.{List};
    ghost use Rattle.runs.specs.declared.explored.rows.Row.{Row};

    ghost Value = { List Row };

    ghost view = { λ a. a.items.items };
}

impl Rows {
    /// No row.
    pub fn new(alloc: Global) -> Rows
        ensures { result ≡ [] }
    {
        Rows {
            items: Vec::new(alloc),
        }
    }

    /// One more, behind the others.
    pub fn push(&mut self, row: Row) -> Result<(), AllocError>
        ensures { OnOk result (self.new ≡ self.old ++ row ∷ []) }
    {
        self.items.push(row)?;
        Ok(())
    }

    /// All, one after the other.
    pub fn as_slice(&self) -> &[Row]
        ensures { result.now ≡ self.now }
    {
        self.items.as_slice()
    }
}

/// The word that a row begins with.
fn row_word(name: RowName) -> &'static [u8]
    ensures { result.now ≡ row_word name }
{
    match name {
        RowName::Check => b"check",
        RowName::Place => b"part",
        RowName::Asked => b"search",
        RowName::Lists => b"lists",
        RowName::State => b"state",
        RowName::Found => b"found",
    }
}

/// The name that a word says.
fn row_named(word: &[u8]) -> Option<RowName>
    ensures { result ≡ row_named word.now }
{
    if word == b"check".as_slice() {
        return Some(RowName::Check);
    }
    if word == b"part".as_slice() {
        return Some(RowName::Place);
    }
    if word == b"search".as_slice() {
        return Some(RowName::Asked);
    }
    if word == b"lists".as_slice() {
        return Some(RowName::Lists);
    }
    if word == b"state".as_slice() {
        return Some(RowName::State);
    }
    if word == b"found".as_slice() {
        return Some(RowName::Found);
    }
    None
}

/// A row as a line: five cells, each of which ends with a tab.
pub(crate) fn line_of_row(alloc: Global, row: &Row) -> Result<Vec<u8>, AllocError>
    ensures { IfOk result (λ line. line.items ≡ line_of_row row.now) }
{
    let mut line = Vec::from_slice(alloc, row_word(row.name))?;
    line.push(b'\t')?;
    append_decimal(alloc, &mut line, row.size)?;
    line.push(b'\t')?;
    append_decimal(alloc, &mut line, row.count)?;
    line.push(b'\t')?;
    append_escaped(&mut line, row.text.as_slice())?;
    line.push(b'\t')?;
    append_escaped(&mut line, row.list.as_slice())?;
    line.push(b'\t')?;
    Ok(line)
}

/// A row, by its cells.
fn row_of_cells(
    alloc: Global,
    name: Option<RowName>,
    size: Option<u64>,
    count: Option<u64>,
    text: &[u8],
    list: &[u8],
) -> Result<Option<Row>, AllocError>
    ensures { IfOk result (λ row. row ≡ row_of_cells name size count text.now list.now) }
{
    match (name, size, count) {
        (Some(name), Some(size), Some(count)) => {
            let text = unescaped(alloc, text)?;
            let list = unescaped(alloc, list)?;
            Ok(Some(Row {
                name,
                size,
                count,
                text,
                list,
            }))
        }
        _ => Ok(None),
    }
}

/// The row that a line writes.
pub(crate) fn row_written(alloc: Global, line: &[u8]) -> Result<Option<Row>, AllocError>
    ensures { IfOk result (λ row. row ≡ row_written line.now) }
{
    let (word, behind) = split_at_byte(b'\t', line);
    let (size, behind) = split_at_byte(b'\t', behind);
    let (count, behind) = split_at_byte(b'\t', behind);
    let (text, behind) = split_at_byte(b'\t', behind);
    let (list, _) = split_at_byte(b'\t', behind);
    let size = number_up_to(u64::MAX, size);
    let count = number_up_to(u64::MAX, count);
    row_of_cells(alloc, row_named(word), size, count, text, list)
}

/// The sum with one byte more.
#[tactic(auto, unfolding(crate::specs::Rows::summed_byte))]
fn summed_byte(sum: u64, byte: u8) -> u64
    ensures { result ≡ summed_byte sum byte }
{
    sum.wrapping_mul(1_099_511_628_211)
        .wrapping_add(u64::from(byte))
}

/// The sum with the bytes of a line, and of its end.
fn summed_line(sum: u64, line: &[u8]) -> u64
    ensures { result ≡ summed_line sum line.now }
{
    let mut sum = sum;
    for byte in line {
        sum = summed_byte(sum, *byte);
    }
    summed_byte(sum, b'\n')
}

/// The sum over the bytes of lines, each with its end.
pub(crate) fn sum_of_lines(lines: &[Bytes]) -> u64
    ensures { result ≡ sum_of_lines lines.now }
{
    let mut sum = 0;
    for line in lines {
        sum = summed_line(sum, line.as_slice());
    }
    sum
}
