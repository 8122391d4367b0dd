//! A part of a search, read from what it printed.

ghost use Rattle.std.specs.Prelude.{◌≡◌, ◌++◌, ◌∷◌, [], IfOk, OnOk};
ghost use Rattle.runs.specs.Merges.{rows_written, is_check, is_place, is_asked_row, part_of_rows, has_its_sum, part_of_written, part_in};

use crate::explored::lines::Lines;
use crate::explored::plan::MOST_STEPS;
use crate::explored::rows::{Row, RowName, Rows, row_written, sum_of_lines};
use basics::Bytes;
use std::alloc::{AllocError, Global};
use std::marker::Model;

/// A part of a search: which of how many it is, what was searched, and the rows of what was found.
#[derive(Drop)]
pub struct Part {
    pub number: u64,
    pub count: u64,
    pub asked: Row,
    pub rows: Rows,
}

/// Parts, in order.
#[derive(Drop)]
pub struct Parts {
    items: Vec<Part>,
}

impl Model for Parts {
    ghost use Rattle.std.specs.Prelude.{List};
    ghost use Rattle.runs.specs.declared.explored.part.Part.{Part};

    ghost Value = { List Part };

    ghost view = { λ a. a.items.items };
}

impl Parts {
    /// No part.
    pub fn new(alloc: Global) -> Parts
        ensures { result ≡ [] }
    {
        Parts {
            items: Vec::new(alloc),
        }
    }

    /// One more, behind the others.
    pub fn push(&mut self, part: Part) -> Result<(), AllocError>
        ensures { OnOk result (self.new ≡ self.old ++ part ∷ []) }
    {
        self.items.push(part)?;
        Ok(())
    }

    /// All, one after the other.
    pub fn as_slice(&self) -> &[Part]
        ensures { result.now ≡ self.now }
    {
        self.items.as_slice()
    }
}

/// Whether a row has the sum over those behind it.
fn is_check(name: RowName) -> bool
    ensures { result ≡ is_check name }
{
    name == RowName::Check
}

/// Whether a row says which part it is.
fn is_place(name: RowName) -> bool
    ensures { result ≡ is_place name }
{
    name == RowName::Place
}

/// Whether a row says what is searched.
fn is_asked_row(name: RowName) -> bool
    ensures { result ≡ is_asked_row name }
{
    name == RowName::Asked
}

/// What the rows behind the sum say.
fn part_of_rows(place: Option<Row>, asked: Option<Row>, rows: Option<Rows>) -> Option<Part>
    ensures { result ≡ part_of_rows place asked rows }
{
    match (place, asked, rows) {
        (Some(place), Some(asked), Some(rows)) => {
            if is_place(place.name) && is_asked_row(asked.name) && asked.size <= MOST_STEPS {
                return Some(Part {
                    number: place.size,
                    count: place.count,
                    asked,
                    rows,
                });
            }
            None
        }
        _ => None,
    }
}

/// Whether a row has this sum.
fn has_its_sum(sum: u64, row: &Option<Row>) -> bool
    ensures { result ≡ has_its_sum sum row.now }
{
    match row {
        Some(row) => is_check(row.name) && row.count == sum,
        None => false,
    }
}

/// The rows that lines write; none where one of them writes no row.
fn rows_written(alloc: Global, lines: &[Bytes]) -> Result<Option<Rows>, AllocError>
    ensures { IfOk result (λ rows. rows ≡ rows_written lines.now) }
{
    let mut rows = Rows::new(alloc);
    for line in lines {
        match row_written(alloc, line.as_slice())? {
            Some(row) => rows.push(row)?,
            None => return Ok(None),
        }
    }
    Ok(Some(rows))
}

/// The part that lines are; none where their sum is not the sum over them.
fn part_of_written(alloc: Global, lines: &[Bytes]) -> Result<Option<Part>, AllocError>
    ensures { IfOk result (λ part. part ≡ part_of_written lines.now) }
{
    match lines {
        [check, place, asked, behind @ ..] => {
            let check = row_written(alloc, check.as_slice())?;
            if !has_its_sum(sum_of_lines(&lines[1..]), &check) {
                return Ok(None);
            }
            let place = row_written(alloc, place.as_slice())?;
            let asked = row_written(alloc, asked.as_slice())?;
            let rows = rows_written(alloc, behind)?;
            Ok(part_of_rows(place, asked, rows))
        }
        _ => Ok(None),
    }
}

/// The part that a text is.
pub(crate) fn part_in(alloc: Global, text: &[u8]) -> Result<Option<Part>, AllocError>
    ensures { IfOk result (λ part. part ≡ part_in text.now) }
{
    let lines = Lines::of_script(alloc, text)?;
    part_of_written(alloc, lines.as_slice())
}
