//! What a part of a search finds, as rows and as text.

ghost use Rattle.std.specs.Prelude.{◌≡◌, ◌++◌, ◌∷◌, [], map, decimal, IfOk, OnOk};
ghost use Rattle.runs.specs.Rows.{lists_row, state_row, kind_row, segment_rows, line_of_row};
ghost use Rattle.runs.specs.Merges.{profile_word, drive_asked, search_asked, asked_row, summed_text, part_text};

use crate::explored::alphabet::text_of_lines;
use crate::explored::findings::Findings;
use crate::explored::kinds::Kind;
use crate::explored::lines::Lines;
use crate::explored::rows::{Row, RowName, Rows, line_of_row, sum_of_lines};
use crate::explored::search::Search;
use crate::explored::share::Share;
use basics::{Bytes, Profile, append_decimal};
use sp_cells::DriveConfig;
use std::alloc::{AllocError, Global};
use tool::Options;

/// A row without texts.
fn bare_row(alloc: Global, name: RowName, size: u64, count: u64) -> Row
    ensures { result ≡ record { name = name; size = size; count = count; text = []; list = [] } }
{
    Row {
        name,
        size,
        count,
        text: Bytes::from_vec(Vec::new(alloc)),
        list: Bytes::from_vec(Vec::new(alloc)),
    }
}

/// Appends the rows of states.
fn append_states(
    alloc: Global,
    rows: &mut Rows,
    size: u64,
    states: &[Bytes],
) -> Result<(), AllocError>
    ensures { OnOk result (rows.new ≡ rows.old ++ map (state_row size) states.now) }
{
    for state in states {
        rows.push(Row {
            name: RowName::State,
            size,
            count: 1,
            text: state.copy()?,
            list: Bytes::from_vec(Vec::new(alloc)),
        })?;
    }
    Ok(())
}

/// Appends the rows of kinds.
fn append_kinds(rows: &mut Rows, size: u64, kinds: &[Kind]) -> Result<(), AllocError>
    ensures { OnOk result (rows.new ≡ rows.old ++ map (kind_row size) kinds.now) }
{
    for kind in kinds {
        rows.push(Row {
            name: RowName::Found,
            size,
            count: kind.times,
            text: kind.text.copy()?,
            list: kind.list.copy()?,
        })?;
    }
    Ok(())
}

/// Appends the rows of what was found behind lists of so many letters.
pub(crate) fn append_segment(
    alloc: Global,
    rows: &mut Rows,
    size: u64,
    found: &Findings,
) -> Result<(), AllocError>
    ensures { OnOk result (rows.new ≡ rows.old ++ segment_rows size found.now) }
{
    rows.push(bare_row(alloc, RowName::Lists, size, found.lists))?;
    append_states(alloc, rows, size, found.states.as_slice())?;
    append_kinds(rows, size, found.kinds.as_slice())
}

/// The word of a profile.
fn profile_word(profile: Profile) -> &'static [u8]
    ensures { result.now ≡ profile_word profile }
{
    match profile {
        Profile::Base => b"base",
        Profile::Field => b"field",
        Profile::Opal => b"opal",
    }
}

/// Appends a line.
fn append_line(text: &mut Vec<u8>, line: &[u8]) -> Result<(), AllocError>
    ensures { OnOk result (text.new.items ≡ text.old.items ++ line.now ++ 10 ∷ []) }
{
    text.extend_from_slice(line)?;
    text.push(b'\n')?;
    Ok(())
}

/// Appends a line of a number.
fn append_number(alloc: Global, text: &mut Vec<u8>, number: u64) -> Result<(), AllocError>
    ensures { OnOk result (text.new.items ≡ text.old.items ++ decimal number ++ 10 ∷ []) }
{
    append_decimal(alloc, text, number)?;
    text.push(b'\n')?;
    Ok(())
}

/// Which drive is asked.
fn drive_asked(alloc: Global, config: &DriveConfig) -> Result<Vec<u8>, AllocError>
    ensures { IfOk result (λ text. text.items ≡ drive_asked config.now) }
{
    let mut text = Vec::new(alloc);
    append_number(alloc, &mut text, config.sectors())?;
    append_number(alloc, &mut text, config.mbr_sectors())?;
    append_line(&mut text, config.msid())?;
    append_line(&mut text, profile_word(config.profile()))?;
    append_line(&mut text, config.serial())?;
    append_line(&mut text, config.model())?;
    append_line(&mut text, config.psid())?;
    append_number(alloc, &mut text, config.datastore())?;
    append_number(alloc, &mut text, config.seed())?;
    Ok(text)
}

/// What is searched.
fn search_asked(alloc: Global, options: &Options, search: &Search) -> Result<Bytes, AllocError>
    ensures { IfOk result (λ text. text ≡ search_asked options.now search.now) }
{
    let mut text = drive_asked(alloc, &options.config())?;
    text.extend_from_slice(search.opening.as_slice())?;
    append_line(&mut text, b"# letters")?;
    text.extend_from_slice(text_of_lines(alloc, search.letters.as_slice())?.as_slice())?;
    Ok(Bytes::from_vec(text))
}

/// The row of what is searched, and how far.
fn asked_row(
    alloc: Global,
    options: &Options,
    search: &Search,
    steps: u32,
) -> Result<Row, AllocError>
    ensures { IfOk result (λ row. row ≡ asked_row options.now search.now steps) }
{
    let list = search_asked(alloc, options, search)?;
    Ok(Row {
        name: RowName::Asked,
        size: u64::from(steps),
        count: 0,
        text: search.find.copy()?,
        list,
    })
}

/// Appends the lines of rows.
fn append_row_lines(alloc: Global, lines: &mut Lines, rows: &[Row]) -> Result<(), AllocError>
    ensures { OnOk result (lines.new ≡ lines.old ++ map line_of_row rows.now) }
{
    for row in rows {
        let line = line_of_row(alloc, row)?;
        lines.push(alloc, &line)?;
    }
    Ok(())
}

/// Lines as a text, behind the sum over them.
fn summed_text(alloc: Global, lines: &[Bytes]) -> Result<Vec<u8>, AllocError>
    ensures { IfOk result (λ text. text.items ≡ summed_text lines.now) }
{
    let check = bare_row(alloc, RowName::Check, 0, sum_of_lines(lines));
    let mut whole = Lines::new(alloc);
    whole.push(alloc, &line_of_row(alloc, &check)?)?;
    for line in lines {
        whole.push(alloc, line.as_slice())?;
    }
    Ok(text_of_lines(alloc, whole.as_slice())?.into_vec())
}

/// What a part prints of these rows.
pub(crate) fn part_text(
    alloc: Global,
    options: &Options,
    search: &Search,
    steps: u32,
    share: Share,
    rows: &Rows,
) -> Result<Vec<u8>, AllocError>
    ensures { IfOk result (λ text. text.items
        ≡ part_text options.now search.now steps share rows.now) }
{
    let number = u64::from(share.number);
    let count = u64::from(share.count);
    let place = bare_row(alloc, RowName::Place, number, count);
    let asked = asked_row(alloc, options, search, steps)?;
    let mut lines = Lines::new(alloc);
    lines.push(alloc, &line_of_row(alloc, &place)?)?;
    lines.push(alloc, &line_of_row(alloc, &asked)?)?;
    append_row_lines(alloc, &mut lines, rows.as_slice())?;
    summed_text(alloc, lines.as_slice())
}
