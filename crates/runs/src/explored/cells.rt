//! Texts in cells, whose ends of lines and tabs are escaped.

ghost use Rattle.std.specs.Prelude.{◌≡◌, ◌++◌, ◌∷◌, [], false, IfOk, OnOk};
ghost use Rattle.std.specs.List.{flat_map};
ghost use Rattle.runs.specs.Rows.{escaped_for_cell, escaped_text, meant, unescaped};

use basics::Bytes;
use std::alloc::{AllocError, Global};

/// Appends a byte, with a backslash in front of itself, and of the letters that mean a tab and the ends of lines.
fn append_escaped_byte(text: &mut Vec<u8>, byte: u8) -> Result<(), AllocError>
    ensures { OnOk result (text.new.items ≡ text.old.items ++ escaped_for_cell byte) }
{
    if byte == b'\\' {
        return text.extend_from_slice(b"\\\\");
    }
    if byte == b'\t' {
        return text.extend_from_slice(b"\\t");
    }
    if byte == b'\n' {
        return text.extend_from_slice(b"\\n");
    }
    if byte == b'\r' {
        return text.extend_from_slice(b"\\r");
    }
    text.push(byte)?;
    Ok(())
}

/// Appends a text, escaped.
pub(crate) fn append_escaped(text: &mut Vec<u8>, bytes: &[u8]) -> Result<(), AllocError>
    ensures { OnOk result (text.new.items ≡ text.old.items ++ escaped_text bytes.now) }
{
    for byte in bytes {
        append_escaped_byte(text, *byte)?;
    }
    Ok(())
}

/// What a letter behind a backslash means.
fn meant(byte: u8) -> u8
    ensures { result ≡ meant byte }
{
    if byte == b't' {
        return b'\t';
    }
    if byte == b'n' {
        return b'\n';
    }
    if byte == b'r' {
        return b'\r';
    }
    byte
}

/// The text that was escaped.
pub(crate) fn unescaped(alloc: Global, bytes: &[u8]) -> Result<Bytes, AllocError>
    ensures { IfOk result (λ text. text ≡ unescaped false bytes.now) }
{
    let mut text = Vec::new(alloc);
    let mut behind = false;
    for byte in bytes {
        if behind {
            text.push(meant(*byte))?;
            behind = false;
        } else if *byte == b'\\' {
            behind = true;
        } else {
            text.push(*byte)?;
        }
    }
    Ok(Bytes::from_vec(text))
}
