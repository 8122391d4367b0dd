//! Pieces of text.

ghost use Rattle.std.specs.Prelude.{◌≡◌, ◌++◌, OnOk, decimal};
ghost use Rattle.std.specs.List.{flat_map};
ghost use Rattle.drawing.specs.Svg.{escaped_byte, escaped, attribute, title_text};

use crate::markup::{Piece, append_piece};
use basics::append_decimal;
use std::alloc::{AllocError, Global};

/// Appends an attribute whose value is a number, behind the piece that ends with its name and a quote.
#[tactic(auto, unfolding(crate::specs::Svg::attribute))]
pub(crate) fn append_numbered(
    alloc: Global,
    text: &mut Vec<u8>,
    piece: Piece,
    number: u64,
) -> Result<(), AllocError>
    ensures { OnOk result (text.new.items ≡ text.old.items ++ attribute piece number) }
{
    append_piece(text, piece)?;
    append_decimal(alloc, text, number)?;
    text.extend_from_slice(b"'")?;
    Ok(())
}

/// Appends a byte of a text, without markup.
#[tactic(auto, unfolding(crate::specs::Svg::escaped_byte))]
fn append_escaped_byte(text: &mut Vec<u8>, byte: u8) -> Result<(), AllocError>
    ensures { OnOk result (text.new.items ≡ text.old.items ++ escaped_byte byte) }
{
    match byte {
        b'&' => text.extend_from_slice(b"&amp;")?,
        b'<' => text.extend_from_slice(b"&lt;")?,
        b'>' => text.extend_from_slice(b"&gt;")?,
        32..=126 => text.push(byte)?,
        _ => text.extend_from_slice(b".")?,
    }
    Ok(())
}

/// Appends a text, without markup.
pub(crate) fn append_escaped(text: &mut Vec<u8>, bytes: &[u8]) -> Result<(), AllocError>
    ensures { OnOk result (text.new.items ≡ text.old.items ++ escaped bytes.now) }
{
    for byte in bytes {
        append_escaped_byte(text, *byte)?;
    }
    Ok(())
}

/// Appends a text that is shown while a pointer stands over what it belongs to.
#[tactic(auto, unfolding(crate::specs::Svg::title_text))]
pub(crate) fn append_title(text: &mut Vec<u8>, says: &[u8]) -> Result<(), AllocError>
    ensures { OnOk result (text.new.items ≡ text.old.items ++ title_text says.now) }
{
    append_piece(text, Piece::TitleBegin)?;
    append_escaped(text, says)?;
    append_piece(text, Piece::TitleEnd)?;
    Ok(())
}
