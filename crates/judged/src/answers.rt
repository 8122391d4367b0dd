//! What the model answers to a line, and what of it another drive must say.

ghost use Rattle.std.specs.Prelude.{◌≡◌, ◌++◌, ℕ, Bool, List, drop, length, IfOk, OnOk};
ghost use Rattle.std.specs.List.{list_any};
ghost use Rattle.tool.specs.Scripts.{script_lines};
ghost use Rattle.judged.specs.Judgements.{are_same};
ghost use Rattle.runs.specs.Stepped.{RanTo, RunStands, WholeLines};
ghost use Rattle.judged.specs.Answers.{text_behind, is_receiving, reasons_told, is_audit, lines_kept, wanted_of};

use crate::text::Text;
use basics::Bytes;
use runs::explored::{Lines, first_line};
use runs::recorded::SteppedRun;
use script_lines::Words;
use std::alloc::{AllocError, Global};
use tool::{Options, RunError};

/// What stands behind so many bytes.
pub(crate) fn behind(text: &[u8], size: usize) -> &[u8]
    ensures { result.now ≡ drop size text.now }
{
    text.get(size..).unwrap_or(&[])
}

/// Does the lines of a text, and gives what they print.
pub(crate) fn print_text(
    alloc: Global,
    options: &Options,
    run: &mut SteppedRun,
    text: &[u8],
) -> Result<Text, RunError>
    requires stands { RunStands run.old }
    requires whole { WholeLines text.now }
    ensures stands { OnOk result (RunStands run.new) }
    ensures ran { OnOk result ((explains : Bool) (before : List ℕ)
        → RanTo run.old explains options.now before
        → RanTo run.new explains options.now (before ++ text.now)) }
    ensures printed { IfOk result (λ printed. (explains : Bool) (before : List ℕ)
        → RanTo run.old explains options.now before
        → printed ≡ text_behind explains options.now before (before ++ text.now)) }
{
    let size = run.printed().len();
    run.go_on(options, text)?;
    let mut printed = Text::new(alloc);
    printed.append(behind(run.printed(), size))?;
    Ok(printed)
}

/// Whether a line receives what the drive answers to another.
pub(crate) fn is_receiving(line: &[u8]) -> bool
    ensures { result ≡ is_receiving line.now }
{
    Words::new(line).next_word() == b"recv".as_slice()
}

/// The reasons that are told of a line that is wrong.
pub(crate) fn reasons_told<'a>(line: &[u8], own: &'a [u8], asked: &'a [u8]) -> &'a [u8]
    ensures { result.now ≡ reasons_told line.now own.now asked.now }
{
    if own.is_empty() && is_receiving(line) {
        asked
    } else {
        own
    }
}

/// Whether a line is of the audit.
fn is_audit(line: &[u8]) -> bool
    ensures { result ≡ is_audit line.now }
{
    Words::new(line).next_word() == b"audit".as_slice()
}

/// Whether one of the lines is of the audit.
fn have_audit(lines: &[Bytes]) -> bool
    ensures { result ≡ list_any is_audit lines.now }
{
    for line in lines {
        if is_audit(line.as_slice()) {
            return true;
        }
    }
    false
}

/// Whether answers are what a drive must say, where the model says the lines of this text, all of which count, or those alone
/// that are not of the audit.
fn are_said(answers: &[Bytes], whole: bool, said: &[u8]) -> bool
    ensures { result ≡ are_same answers.now (lines_kept whole (script_lines said.now)) }
{
    let mut left = answers;
    let mut rest = said;
    while !rest.is_empty() {
        let (line, behind) = first_line(rest);
        rest = behind;
        if whole || !is_audit(line) {
            let [answer, more @ ..] = left else {
                return false;
            };
            if answer.as_slice() != line {
                return false;
            }
            left = more;
        }
    }
    left.is_empty()
}

/// Whether answers are what a drive must say, where the model says the lines of this text.
pub(crate) fn agree_with(answers: &[Bytes], said: &[u8]) -> bool
    ensures { result ≡ are_same answers.now (wanted_of answers.now (script_lines said.now)) }
{
    are_said(answers, have_audit(answers), said)
}

/// The lines, without those of the audit where they are to be left out.
fn lines_said(alloc: Global, whole: bool, said: &[Bytes]) -> Result<Lines, AllocError>
    ensures { IfOk result (λ lines. lines ≡ lines_kept whole said.now) }
{
    let mut lines = Lines::new(alloc);
    for line in said {
        if whole || !is_audit(line.as_slice()) {
            lines.push(alloc, line.as_slice())?;
        }
    }
    Ok(lines)
}

/// What a drive must say that gave these answers, where the model says this.
pub(crate) fn wanted_of(
    alloc: Global,
    answers: &[Bytes],
    said: &[Bytes],
) -> Result<Lines, AllocError>
    ensures { IfOk result (λ wanted. wanted ≡ wanted_of answers.now said.now) }
{
    lines_said(alloc, have_audit(answers), said)
}
