//! What is known of the drive, and what it must say by that.

ghost use Rattle.std.specs.Prelude.{◌≡◌, IfOk};
ghost use Rattle.judged.specs.Judgements.{said_at, named_at, model_other, wanted_at, other_at, changed_at_entry, reasons_at, own_reasons};

use crate::answers::{behind, reasons_told, wanted_of};
use crate::bench::Printed;
use crate::blanks::first_answer;
use crate::entry::Entry;
use crate::pairs::SessionPairs;
use crate::shown::{ShownSectors, first_read};
use crate::text::Text;
use runs::explored::Lines;
use std::alloc::{AllocError, Global};

/// What is known of the drive.
#[derive(Drop)]
pub struct Known {
    /// The numbers of the sessions that began.
    pub pairs: SessionPairs,
    /// What blank sectors were shown to hold.
    pub shown: ShownSectors,
}

/// What the model says to a line that a drive must say, too.
pub(crate) fn said_at(alloc: Global, entry: &Entry, printed: &Printed) -> Result<Lines, AllocError>
    ensures { IfOk result (λ said. said ≡ said_at entry.now printed.now) }
{
    let said = Lines::of_script(alloc, printed.said.as_slice())?;
    wanted_of(alloc, entry.answers.as_slice(), said.as_slice())
}

/// The same, with the drive's number of the session.
fn named_at(
    alloc: Global,
    pairs: &SessionPairs,
    entry: &Entry,
    printed: &Printed,
) -> Result<Lines, AllocError>
    ensures { IfOk result (λ named. named ≡ named_at pairs.now entry.now printed.now) }
{
    let said = said_at(alloc, entry, printed)?;
    pairs.drives_lines(alloc, said.as_slice())
}

/// What the model answers where every write before writes another byte, and random bytes are others.
fn model_other(alloc: Global, printed: &Printed) -> Result<Text, AllocError>
    ensures { IfOk result (λ other. other ≡ model_other printed.now) }
{
    let lines = Lines::of_script(alloc, printed.other.as_slice())?;
    Text::of(alloc, first_answer(lines.as_slice()))
}

/// What must be said to a line.
pub(crate) fn wanted_at(
    alloc: Global,
    known: &Known,
    entry: &Entry,
    printed: &Printed,
) -> Result<Lines, AllocError>
    ensures { IfOk result (λ wanted. wanted ≡ wanted_at known.now entry.now printed.now) }
{
    let named = named_at(alloc, &known.pairs, entry, printed)?;
    let other = model_other(alloc, printed)?;
    let first = first_read(entry.line.as_slice());
    known
        .shown
        .lines(alloc, first, other.as_slice(), named.as_slice())
}

/// What of it is left open.
pub(crate) fn other_at(
    alloc: Global,
    known: &Known,
    entry: &Entry,
    printed: &Printed,
) -> Result<Text, AllocError>
    ensures { IfOk result (λ other. other ≡ other_at known.now entry.now printed.now) }
{
    let named = named_at(alloc, &known.pairs, entry, printed)?;
    let other = model_other(alloc, printed)?;
    let first = first_read(entry.line.as_slice());
    let wanted = first_answer(named.as_slice());
    known.shown.other(alloc, first, wanted, other.as_slice())
}

/// Why sectors must be told as they were shown.
fn changed_at_entry(
    alloc: Global,
    known: &Known,
    entry: &Entry,
    printed: &Printed,
) -> Result<Text, AllocError>
    ensures { IfOk result (λ text. text ≡ changed_at_entry known.now entry.now printed.now) }
{
    let named = named_at(alloc, &known.pairs, entry, printed)?;
    let other = model_other(alloc, printed)?;
    let first = first_read(entry.line.as_slice());
    let heard = first_answer(entry.answers.as_slice());
    let wanted = first_answer(named.as_slice());
    known
        .shown
        .changed_reasons(alloc, first, heard, wanted, other.as_slice())
}

/// The reasons of what a line prints.
pub(crate) fn own_reasons(printed: &Printed) -> &[u8]
    ensures { result.now ≡ own_reasons printed.now }
{
    behind(printed.explained.as_slice(), printed.said.as_slice().len())
}

/// Why it must be said.
pub(crate) fn reasons_at(
    alloc: Global,
    known: &Known,
    asked: &[u8],
    entry: &Entry,
    printed: &Printed,
) -> Result<Text, AllocError>
    ensures { IfOk result (λ text. text ≡ reasons_at known.now asked.now entry.now printed.now) }
{
    let line = entry.line.as_slice();
    let mut text = Text::of(alloc, reasons_told(line, own_reasons(printed), asked))?;
    let changed = changed_at_entry(alloc, known, entry, printed)?;
    text.append(changed.as_slice())?;
    Ok(text)
}

impl Known {
    ghost use Rattle.std.specs.Prelude.{◌≡◌};
    ghost use Rattle.judged.specs.Judgements.{nothing_known};

    /// Nothing is known.
    pub fn new(alloc: Global) -> Known
        ensures { result ≡ nothing_known }
    {
        Known {
            pairs: SessionPairs::new(alloc),
            shown: ShownSectors::new(alloc),
        }
    }
}
