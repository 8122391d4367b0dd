//! Bytes as text, and text as bytes.

ghost use Rattle.std.specs.Prelude.{◌≡◌, Some, None};
ghost use Rattle.library_calls.specs.Copies.{IsWrittenOut};
ghost use Rattle.library_calls.specs.Told.{kind_numbered, DecodedAs, NamedAs};
ghost use Rattle.tcg_calls.specs.TokenTexts.{token_text};

use crate::byte_calls::copied::{copy_out, copy_text};
use crate::byte_calls::count::Count;
use crate::byte_calls::error::CallError;
use decoded::{Kind, check, lines};
use script_lines::named_lines::NamedLine;
use std::alloc::Global;
use tcg_calls::named_tokens::{Naming, token_text};

/// Copies the text of the item that a token stream spells, or of what is wrong with it, `malformed N NAME`: with the
/// names that the standards give to objects, methods and columns, or with their numbers. It is what `opalport tokens`
/// prints, without the end of the line.
pub fn tokens_out(alloc: Global, naming: Naming, bytes: &[u8], into: &mut [u8]) -> Count
    ensures { IsWrittenOut (token_text naming bytes.now) into.old into.new result }
{
    let text = token_text(alloc, naming, bytes);
    copy_text(text.map(String::into_bytes), into)
}

/// Copies the tokens of the call that a line of a script writes by name, as `set 1 Locking_Range1 ReadLocked=0`: what the
/// `call` line sends for which it stands. Refused with `Malformed` where it writes none.
pub fn named_call_out(alloc: Global, line: &[u8], into: &mut [u8]) -> Count
    ensures { NamedAs line.now into.old into.new result }
{
    match NamedLine::parse(alloc, line) {
        Ok(Some(named)) => copy_out(named.tokens.as_slice(), into),
        Ok(None) => Count::refused(CallError::Malformed),
        Err(_) => Count::refused(CallError::OutOfMemory),
    }
}

/// What bytes are, by a number, in the order of the kinds.
fn kind_numbered(number: u32) -> Option<Kind>
    ensures { result ≡ kind_numbered number }
{
    match number {
        0 => Some(Kind::Level0),
        1 => Some(Kind::ComPacket),
        2 => Some(Kind::Fis),
        3 => Some(Kind::Identify),
        4 => Some(Kind::LogDirectory),
        5 => Some(Kind::QueuedError),
        6 => Some(Kind::DataPage),
        _ => None,
    }
}

/// Copies the lines that tell the fields of bytes, as `opalport decode` prints them: 0 is Level 0 discovery, 1 a
/// ComPacket, 2 a FIS, 3 IDENTIFY DEVICE, 4 log 00h, 5 log 10h, 6 log 30h. Refused with `Number` for another kind, and
/// with `Malformed` for bytes that are none of the kind.
pub fn decoded_out(alloc: Global, kind: u32, bytes: &[u8], into: &mut [u8]) -> Count
    ensures { DecodedAs kind bytes.now into.old into.new result }
{
    let Some(kind) = kind_numbered(kind) else {
        return Count::refused(CallError::Number);
    };
    if check(kind, bytes).is_err() {
        return Count::refused(CallError::Malformed);
    }
    copy_text(lines(alloc, kind, bytes), into)
}
