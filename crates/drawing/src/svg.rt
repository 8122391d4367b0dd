//! A picture as SVG.

ghost use Rattle.std.specs.Prelude.{◌≡◌, ◌≤◌, ◌<◌, ◌^◌, ◌++◌, ◌/◌, ◌+◌, OnOk, IfOk, length};
ghost use Rattle.std.specs.List.{flat_map};
ghost use Rattle.drawing.specs.Svg.{column_width, left_edge, top_edge, whole_width, whole_height};
ghost use Rattle.drawing.specs.Svg.{bar_place, bar_face, fitted, bar_words, bar_text, mark_place, mark_text};
ghost use Rattle.drawing.specs.Svg.{row_name, row_rule, row_text, rows_text, tick_number, tick_line, tick_text, ticks_text};
ghost use Rattle.drawing.specs.Svg.{legend_square, legend_word, legend_item, endings_legend, denials_legend, states_legend, locks_legend, legend_text};
ghost use Rattle.drawing.specs.Svg.{head_place, shown_title, head_words, drawn_head, body_text, svg_text};

use crate::markup::{Piece, append_piece};
use crate::paint::Paint;
use crate::picture::{Bar, Mark, Picture};
use crate::text::{append_escaped, append_numbered, append_title};
use basics::{Bytes, append_decimal};
use std::alloc::{AllocError, Global};

/// How wide the legend is.
const LEGEND_WIDTH: u64 = 1000;

/// No letter is wider.
const LETTER_WIDTH: u64 = 7;

/// How wide a column is.
fn column_width(columns: u32) -> u8
    ensures { result ≡ column_width columns }
{
    if columns <= 50 {
        24
    } else if columns <= 400 {
        12
    } else {
        6
    }
}

/// Where a column begins.
fn left_edge(width: u8, column: u64) -> u64
    requires { column < 2 ^ 36 }
    ensures value { result ≡ left_edge width column }
    ensures most { result < 2 ^ 47 }
{
    180 + u64::from(width) * column
}

/// Where a row begins.
fn top_edge(row: u64) -> u64
    requires { row ≤ 2 ^ 47 }
    ensures value { result ≡ top_edge row }
    ensures most { result < 2 ^ 56 }
{
    64 + 20 * row
}

/// Appends where a bar stands, and how large it is.
#[tactic(auto, unfolding(crate::specs::Svg::bar_place))]
fn append_bar_place(
    alloc: Global,
    text: &mut Vec<u8>,
    width: u8,
    bar: &Bar,
) -> Result<(), AllocError>
    ensures { OnOk result (text.new.items ≡ text.old.items ++ bar_place width bar.now) }
{
    let left = left_edge(width, u64::from(bar.from));
    append_numbered(alloc, text, Piece::BarLeft, left)?;
    let top = top_edge(u64::from(bar.row));
    append_numbered(alloc, text, Piece::Top, top + 2)?;
    let size = u64::from(width) * u64::from(bar.columns);
    append_numbered(alloc, text, Piece::Width, size)?;
    append_piece(text, Piece::BarHeight)?;
    Ok(())
}

/// Appends the colour of a bar.
#[tactic(auto, unfolding(crate::specs::Svg::bar_face))]
fn append_bar_face(text: &mut Vec<u8>, paint: Paint) -> Result<(), AllocError>
    ensures { OnOk result (text.new.items ≡ text.old.items ++ bar_face paint) }
{
    append_piece(text, Piece::Face)?;
    text.extend_from_slice(paint.colour())?;
    append_piece(text, Piece::Closed)?;
    Ok(())
}

/// Appends a text as far as there is room for its letters.
#[tactic(auto, unfolding(crate::specs::Svg::fitted))]
fn append_fitted(text: &mut Vec<u8>, room: usize, says: &[u8]) -> Result<(), AllocError>
    ensures { OnOk result (text.new.items ≡ text.old.items ++ fitted room says.now) }
{
    if says.len() <= room {
        append_escaped(text, says)?;
    } else if 3 <= room {
        append_escaped(text, &says[..room - 2])?;
        text.extend_from_slice(b"..")?;
    }
    Ok(())
}

/// Appends what a bar says.
#[tactic(auto, unfolding(crate::specs::Svg::bar_words))]
fn append_bar_words(text: &mut Vec<u8>, room: usize, says: &[u8]) -> Result<(), AllocError>
    ensures { OnOk result (text.new.items ≡ text.old.items ++ bar_words room says.now) }
{
    append_piece(text, Piece::BarWords)?;
    append_fitted(text, room, says)?;
    append_piece(text, Piece::BarEnd)?;
    Ok(())
}

/// Appends a bar.
#[tactic(auto, unfolding(crate::specs::Svg::bar_text))]
fn append_bar(alloc: Global, text: &mut Vec<u8>, width: u8, bar: &Bar) -> Result<(), AllocError>
    ensures { OnOk result (text.new.items ≡ text.old.items ++ bar_text width bar.now) }
{
    append_bar_place(alloc, text, width, bar)?;
    append_title(text, bar.says.as_slice())?;
    append_bar_face(text, bar.paint)?;
    let room = u64::from(width) * u64::from(bar.columns) / LETTER_WIDTH;
    append_bar_words(text, room as usize, bar.says.as_slice())?;
    Ok(())
}

/// Appends the bars.
fn append_bars(alloc: Global, text: &mut Vec<u8>, width: u8, bars: &[Bar]) -> Result<(), AllocError>
    ensures { OnOk result
        (text.new.items ≡ text.old.items ++ flat_map (bar_text width) bars.now) }
{
    for bar in bars {
        append_bar(alloc, text, width, bar)?;
    }
    Ok(())
}

/// Appends where a mark stands.
#[tactic(auto, unfolding(crate::specs::Svg::mark_place))]
fn append_mark_place(
    alloc: Global,
    text: &mut Vec<u8>,
    width: u8,
    mark: &Mark,
) -> Result<(), AllocError>
    ensures { OnOk result (text.new.items ≡ text.old.items ++ mark_place width mark.now) }
{
    let left = left_edge(width, u64::from(mark.at));
    append_numbered(alloc, text, Piece::MarkLeft, left + u64::from(width / 2))?;
    let top = top_edge(u64::from(mark.row));
    append_numbered(alloc, text, Piece::MarkTop, top + 10)?;
    append_piece(text, Piece::MarkFace)?;
    Ok(())
}

/// Appends a mark.
#[tactic(auto, unfolding(crate::specs::Svg::mark_text))]
fn append_mark(alloc: Global, text: &mut Vec<u8>, width: u8, mark: &Mark) -> Result<(), AllocError>
    ensures { OnOk result (text.new.items ≡ text.old.items ++ mark_text width mark.now) }
{
    append_mark_place(alloc, text, width, mark)?;
    append_title(text, mark.says.as_slice())?;
    append_piece(text, Piece::MarkEnd)?;
    Ok(())
}

/// Appends the marks.
fn append_marks(
    alloc: Global,
    text: &mut Vec<u8>,
    width: u8,
    marks: &[Mark],
) -> Result<(), AllocError>
    ensures { OnOk result
        (text.new.items ≡ text.old.items ++ flat_map (mark_text width) marks.now) }
{
    for mark in marks {
        append_mark(alloc, text, width, mark)?;
    }
    Ok(())
}

/// Appends the name of a row.
#[tactic(auto, unfolding(crate::specs::Svg::row_name))]
fn append_row_name(
    alloc: Global,
    text: &mut Vec<u8>,
    row: u64,
    name: &[u8],
) -> Result<(), AllocError>
    requires { row ≤ 2 ^ 47 }
    ensures { OnOk result (text.new.items ≡ text.old.items ++ row_name row name.now) }
{
    append_numbered(alloc, text, Piece::NameTop, top_edge(row) + 14)?;
    append_piece(text, Piece::Opened)?;
    append_escaped(text, name)?;
    append_piece(text, Piece::TextEnd)?;
    Ok(())
}

/// Appends the line below a row.
#[tactic(auto, unfolding(crate::specs::Svg::row_rule))]
fn append_row_line(alloc: Global, text: &mut Vec<u8>, row: u64) -> Result<(), AllocError>
    requires { row ≤ 2 ^ 47 }
    ensures { OnOk result (text.new.items ≡ text.old.items ++ row_rule row) }
{
    append_numbered(alloc, text, Piece::LineTop, top_edge(row) + 19)?;
    append_piece(text, Piece::LineFace)?;
    Ok(())
}

/// Appends a row.
fn append_row(alloc: Global, text: &mut Vec<u8>, row: u64, name: &[u8]) -> Result<(), AllocError>
    requires { row ≤ 2 ^ 47 }
    ensures { OnOk result (text.new.items ≡ text.old.items ++ row_text row name.now) }
{
    append_row_name(alloc, text, row, name)?;
    append_row_line(alloc, text, row)?;
    Ok(())
}

/// Appends the names of the rows.
fn append_rows(alloc: Global, text: &mut Vec<u8>, rows: &[Bytes]) -> Result<(), AllocError>
    requires { length rows.now < 2 ^ 32 }
    ensures { OnOk result (text.new.items ≡ text.old.items ++ rows_text 0 rows.now) }
{
    for (row, name) in rows.iter().enumerate() {
        append_row(alloc, text, row as u64, name.as_slice())?;
    }
    Ok(())
}

/// Appends the number of a tenth column.
#[tactic(auto, unfolding(crate::specs::Svg::tick_number))]
fn append_tick_number(
    alloc: Global,
    text: &mut Vec<u8>,
    width: u8,
    tick: u32,
) -> Result<(), AllocError>
    ensures { OnOk result (text.new.items ≡ text.old.items ++ tick_number width tick) }
{
    let column = 10 * u64::from(tick);
    let left = left_edge(width, column);
    append_numbered(alloc, text, Piece::TextLeft, left)?;
    append_piece(text, Piece::TickWords)?;
    append_decimal(alloc, text, column)?;
    append_piece(text, Piece::TextEnd)?;
    Ok(())
}

/// Appends the line of a tenth column.
#[tactic(auto, unfolding(crate::specs::Svg::tick_line))]
fn append_tick_line(
    alloc: Global,
    text: &mut Vec<u8>,
    width: u8,
    rows: u64,
    tick: u32,
) -> Result<(), AllocError>
    requires { rows ≤ 2 ^ 47 }
    ensures { OnOk result (text.new.items ≡ text.old.items ++ tick_line width rows tick) }
{
    let left = left_edge(width, 10 * u64::from(tick));
    append_numbered(alloc, text, Piece::RectLeft, left)?;
    append_numbered(alloc, text, Piece::TickHeight, 20 * rows + 4)?;
    append_piece(text, Piece::TickFace)?;
    Ok(())
}

/// Appends the line of a tenth column, and its number.
fn append_tick(
    alloc: Global,
    text: &mut Vec<u8>,
    width: u8,
    rows: u64,
    tick: u32,
) -> Result<(), AllocError>
    requires { rows ≤ 2 ^ 47 }
    ensures { OnOk result (text.new.items ≡ text.old.items ++ tick_text width rows tick) }
{
    append_tick_number(alloc, text, width, tick)?;
    append_tick_line(alloc, text, width, rows, tick)?;
    Ok(())
}

/// Appends the lines of the first so many tenth columns.
fn append_ticks(
    alloc: Global,
    text: &mut Vec<u8>,
    width: u8,
    rows: u64,
    count: u32,
) -> Result<(), AllocError>
    requires { rows ≤ 2 ^ 47 }
    ensures { OnOk result (text.new.items ≡ text.old.items ++ ticks_text width rows count) }
{
    for tick in 0..count {
        append_tick(alloc, text, width, rows, tick)?;
    }
    Ok(())
}

/// Appends a square of a colour to the legend.
#[tactic(auto, unfolding(crate::specs::Svg::legend_square))]
fn append_legend_square(
    alloc: Global,
    text: &mut Vec<u8>,
    at: u64,
    paint: Paint,
) -> Result<(), AllocError>
    ensures { OnOk result (text.new.items ≡ text.old.items ++ legend_square at paint) }
{
    append_numbered(alloc, text, Piece::RectLeft, at)?;
    append_piece(text, Piece::SquareFace)?;
    text.extend_from_slice(paint.colour())?;
    append_piece(text, Piece::Closed)?;
    Ok(())
}

/// Appends a word of the legend.
#[tactic(auto, unfolding(crate::specs::Svg::legend_word))]
fn append_legend_word(
    alloc: Global,
    text: &mut Vec<u8>,
    at: u64,
    word: &[u8],
) -> Result<(), AllocError>
    ensures { OnOk result (text.new.items ≡ text.old.items ++ legend_word at word.now) }
{
    append_numbered(alloc, text, Piece::TextLeft, at)?;
    append_piece(text, Piece::WordPlace)?;
    text.extend_from_slice(word)?;
    append_piece(text, Piece::TextEnd)?;
    Ok(())
}

/// Appends a square of a colour to the legend, and the word for it.
#[tactic(auto, unfolding(crate::specs::Svg::legend_item))]
fn append_legend_item(
    alloc: Global,
    text: &mut Vec<u8>,
    at: u16,
    paint: Paint,
    word: &[u8],
) -> Result<(), AllocError>
    ensures { OnOk result (text.new.items ≡ text.old.items ++ legend_item at paint word.now) }
{
    let at = u64::from(at);
    append_legend_square(alloc, text, at, paint)?;
    append_legend_word(alloc, text, at + 16, word)?;
    Ok(())
}

/// Appends how commands end.
#[tactic(auto, unfolding(crate::specs::Svg::endings_legend))]
fn append_endings_legend(alloc: Global, text: &mut Vec<u8>) -> Result<(), AllocError>
    ensures { OnOk result (text.new.items ≡ text.old.items ++ endings_legend) }
{
    append_legend_item(alloc, text, 8, Paint::Done, b"done")?;
    append_legend_item(alloc, text, 68, Paint::Failed, b"failed")?;
    append_legend_item(alloc, text, 142, Paint::Stopped, b"not done")?;
    Ok(())
}

/// Appends that commands wait, or are denied.
#[tactic(auto, unfolding(crate::specs::Svg::denials_legend))]
fn append_denials_legend(alloc: Global, text: &mut Vec<u8>) -> Result<(), AllocError>
    ensures { OnOk result (text.new.items ≡ text.old.items ++ denials_legend) }
{
    append_legend_item(alloc, text, 232, Paint::Waiting, b"waits")?;
    append_piece(text, Piece::DeniedMark)?;
    append_piece(text, Piece::DeniedWord)?;
    Ok(())
}

/// Appends what is open, and what is up.
#[tactic(auto, unfolding(crate::specs::Svg::states_legend))]
fn append_states_legend(alloc: Global, text: &mut Vec<u8>) -> Result<(), AllocError>
    ensures { OnOk result (text.new.items ≡ text.old.items ++ states_legend) }
{
    append_legend_item(alloc, text, 374, Paint::Session, b"session")?;
    append_legend_item(alloc, text, 458, Paint::Transaction, b"transaction")?;
    append_legend_item(alloc, text, 926, Paint::Shadow, b"shadow")?;
    Ok(())
}

/// Appends what is locked.
#[tactic(auto, unfolding(crate::specs::Svg::locks_legend))]
fn append_locks_legend(alloc: Global, text: &mut Vec<u8>) -> Result<(), AllocError>
    ensures { OnOk result (text.new.items ≡ text.old.items ++ locks_legend) }
{
    append_legend_item(alloc, text, 570, Paint::ReadLocked, b"reads locked")?;
    append_legend_item(alloc, text, 690, Paint::WriteLocked, b"writes locked")?;
    append_legend_item(alloc, text, 814, Paint::Locked, b"both locked")?;
    Ok(())
}

/// Appends the legend.
fn append_legend(alloc: Global, text: &mut Vec<u8>) -> Result<(), AllocError>
    ensures { OnOk result (text.new.items ≡ text.old.items ++ legend_text) }
{
    append_endings_legend(alloc, text)?;
    append_denials_legend(alloc, text)?;
    append_states_legend(alloc, text)?;
    append_locks_legend(alloc, text)?;
    Ok(())
}

/// How wide the drawing is.
fn whole_width(columns: u32) -> u64
    ensures { result ≡ whole_width columns }
{
    let edge = left_edge(column_width(columns), u64::from(columns));
    LEGEND_WIDTH.max(edge + 20)
}

/// How high the drawing is.
fn whole_height(rows: u64) -> u64
    requires { rows ≤ 2 ^ 47 }
    ensures { result ≡ whole_height rows }
{
    top_edge(rows) + 8
}

/// Appends the size of the drawing.
#[tactic(auto, unfolding(crate::specs::Svg::head_place))]
fn append_head_size(
    alloc: Global,
    text: &mut Vec<u8>,
    columns: u32,
    rows: u64,
) -> Result<(), AllocError>
    requires { rows ≤ 2 ^ 47 }
    ensures { OnOk result (text.new.items ≡ text.old.items ++ head_place columns rows) }
{
    append_numbered(alloc, text, Piece::HeadWidth, whole_width(columns))?;
    append_numbered(alloc, text, Piece::Height, whole_height(rows))?;
    append_piece(text, Piece::HeadFont)?;
    Ok(())
}

/// Appends the title as it is shown.
#[tactic(auto, unfolding(crate::specs::Svg::shown_title))]
fn append_shown_title(text: &mut Vec<u8>, title: &[u8]) -> Result<(), AllocError>
    ensures { OnOk result (text.new.items ≡ text.old.items ++ shown_title title.now) }
{
    append_piece(text, Piece::TitleText)?;
    append_escaped(text, title)?;
    append_piece(text, Piece::TextEndLine)?;
    Ok(())
}

/// Appends the title.
#[tactic(auto, unfolding(crate::specs::Svg::head_words))]
fn append_head_words(text: &mut Vec<u8>, title: &[u8]) -> Result<(), AllocError>
    ensures { OnOk result (text.new.items ≡ text.old.items ++ head_words title.now) }
{
    append_title(text, title)?;
    append_piece(text, Piece::Ground)?;
    append_shown_title(text, title)?;
    Ok(())
}

/// Appends the beginning of the drawing.
#[tactic(auto, unfolding(crate::specs::Svg::drawn_head))]
fn append_head(
    alloc: Global,
    text: &mut Vec<u8>,
    title: &[u8],
    columns: u32,
    rows: u64,
) -> Result<(), AllocError>
    requires { rows ≤ 2 ^ 47 }
    ensures { OnOk result (text.new.items ≡ text.old.items ++ drawn_head title.now columns rows) }
{
    append_head_size(alloc, text, columns, rows)?;
    append_head_words(text, title)?;
    append_legend(alloc, text)?;
    append_piece(text, Piece::LineEnd)?;
    Ok(())
}

/// Appends the rows, the bars and the marks of a picture.
#[tactic(auto, unfolding(crate::specs::Svg::body_text))]
fn append_body(alloc: Global, text: &mut Vec<u8>, picture: &Picture) -> Result<(), AllocError>
    ensures { OnOk result (text.new.items ≡ text.old.items ++ body_text picture.now) }
{
    let width = column_width(picture.columns());
    append_rows(alloc, text, picture.rows())?;
    append_bars(alloc, text, width, picture.bars())?;
    append_marks(alloc, text, width, picture.marks())?;
    append_piece(text, Piece::SvgEnd)?;
    Ok(())
}

/// The picture as SVG.
///
/// # Errors
///
/// An allocation was refused.
pub fn svg_of(alloc: Global, picture: &Picture) -> Result<Vec<u8>, AllocError>
    ensures { IfOk result (λ text. text.items ≡ svg_text picture.now) }
{
    let mut text = Vec::new(alloc);
    let columns = picture.columns();
    let rows = picture.rows().len() as u64;
    append_head(alloc, &mut text, picture.title(), columns, rows)?;
    let width = column_width(columns);
    append_ticks(alloc, &mut text, width, rows, columns / 10 + 1)?;
    append_body(alloc, &mut text, picture)?;
    Ok(text)
}
