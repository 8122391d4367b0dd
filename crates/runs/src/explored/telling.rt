//! What is told of what was found.

ghost use Rattle.std.specs.Prelude.{◌≡◌, ◌++◌, IfOk, OnOk};
ghost use Rattle.std.specs.List.{flat_map};
ghost use Rattle.runs.specs.Tellings.{count_line, list_lines, kind_lines_told, findings_text};

use crate::explored::findings::Findings;
use crate::explored::kinds::Kind;
use crate::explored::lines::Lines;
use basics::append_decimal;
use std::alloc::{AllocError, Global};

/// Appends a line of a word and a number.
fn append_count(
    alloc: Global,
    text: &mut Vec<u8>,
    name: &[u8],
    count: u64,
) -> Result<(), AllocError>
    ensures { OnOk result (text.new.items ≡ text.old.items ++ count_line name.now count) }
{
    text.extend_from_slice(name)?;
    text.extend_from_slice(b" ")?;
    append_decimal(alloc, text, count)?;
    text.extend_from_slice(b"\n")
}

/// Appends the lines of a list.
fn append_list(alloc: Global, text: &mut Vec<u8>, list: &[u8]) -> Result<(), AllocError>
    ensures { OnOk result (text.new.items ≡ text.old.items ++ list_lines list.now) }
{
    let lines = Lines::of_script(alloc, list)?;
    for line in lines.as_slice() {
        text.extend_from_slice(b"  ")?;
        text.extend_from_slice(line.as_slice())?;
        text.extend_from_slice(b"\n")?;
    }
    Ok(())
}

/// Appends a kind, how often it was seen, and behind which list first.
fn append_kind(alloc: Global, text: &mut Vec<u8>, kind: &Kind) -> Result<(), AllocError>
    ensures { OnOk result (text.new.items ≡ text.old.items ++ kind_lines_told kind.now) }
{
    text.extend_from_slice(b"found ")?;
    append_decimal(alloc, text, kind.times)?;
    text.extend_from_slice(b" ")?;
    text.extend_from_slice(kind.text.as_slice())?;
    text.extend_from_slice(b"\n")?;
    append_list(alloc, text, kind.list.as_slice())
}

/// Appends kinds, one after the other.
fn append_kinds(alloc: Global, text: &mut Vec<u8>, kinds: &[Kind]) -> Result<(), AllocError>
    ensures { OnOk result (text.new.items ≡ text.old.items ++ flat_map kind_lines_told kinds.now) }
{
    for kind in kinds {
        append_kind(alloc, text, kind)?;
    }
    Ok(())
}

/// What was found, as lines.
pub(crate) fn findings_text(alloc: Global, findings: &Findings) -> Result<Vec<u8>, AllocError>
    ensures { IfOk result (λ text. text.items ≡ findings_text findings.now) }
{
    let mut text = Vec::new(alloc);
    append_count(alloc, &mut text, b"lists", findings.lists)?;
    append_count(alloc, &mut text, b"states", findings.states.len() as u64)?;
    append_kinds(alloc, &mut text, findings.kinds.as_slice())?;
    Ok(text)
}
