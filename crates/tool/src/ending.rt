//! How a script ends, and what is told of it.

ghost use Rattle.std.specs.Prelude.{◌≡◌, false, IfOk, IfErr, IsOk};
ghost use Rattle.tool.specs.Ends.{exit_status};
ghost use Rattle.tool.specs.declared.ending.End.TheVariants as ends;
ghost use Rattle.tool.specs.declared.ending.RunError.{RunError};

use drive_scripts::Fault;
use script_lines::expected_text;
use std::alloc::AllocError;
use std::io::{ErrorKind, Write};
use std::{fmt, io};
use thiserror::Error;

/// Why a script could not be run to its end.
#[derive(Clone, Copy, Debug, PartialEq, Eq, Error)]
pub enum RunError {
    #[error("out of memory")]
    Memory,
    #[error("the input could not be read")]
    Read,
    #[error("the output could not be written")]
    Write,
    #[error("the script has more than 4294967295 lines")]
    ReadLimit,
}

impl From<AllocError> for RunError {
    ghost use Rattle.std.specs.Prelude.{◌≡◌};
    ghost use Rattle.tool.specs.declared.ending.RunError.TheVariants.{Memory};

    ghost from_gives = { λ _ error. error ≡ Memory };

    fn from(_error: AllocError) -> RunError {
        RunError::Memory
    }
}

impl RunError {
    ghost use Rattle.std.specs.Prelude.{◌≡◌, ◌⊎◌};
    ghost use Rattle.std.specs.IoError.{error_kind};
    ghost use Rattle.std.specs.declared.io.ErrorKind.TheVariants.{OutOfMemory};
    ghost use Rattle.tool.specs.declared.ending.RunError.TheVariants.{Memory, Read};

    /// The error of a call that reads: its kind decides.
    pub fn reading(error: io::Error) -> RunError
        ensures either { (result ≡ Memory) ⊎ (result ≡ Read) }
        ensures memory { error_kind error ≡ OutOfMemory → result ≡ Memory }
        ensures read { (error_kind error ≡ OutOfMemory → ⊥) → result ≡ Read }
    {
        match error.kind() {
            ErrorKind::OutOfMemory => RunError::Memory,
            _ => RunError::Read,
        }
    }
}

/// How a script ended.
#[derive(Clone, Copy, Debug, PartialEq, Eq)]
pub enum End {
    Done,
    ExpectationFailed { line: u64 },
    Bad { line: u64, fault: Fault },
}

/// How many bytes of a line are shown.
const SHOWN: usize = 200;

/// Writes a line as far as it is shown.
fn show<E: Write>(text: &[u8], faults: &mut E) -> io::Result<()> {
    let shown = text.len().min(SHOWN);
    faults.write_all(&text[..shown])?;
    if shown == text.len() {
        return Ok(());
    }
    write!(faults, ".. ({} bytes)", text.len())
}

/// Writes which line was expected, and which one came.
fn tell_difference<E: Write>(
    line: u64,
    text: &[u8],
    last: &[u8],
    faults: &mut E,
) -> io::Result<()> {
    write!(faults, "line {line}: expected \"")?;
    show(expected_text(text), faults)?;
    if last.is_empty() {
        return writeln!(faults, "\", but nothing is printed yet");
    }
    write!(faults, "\", but the last line is \"")?;
    show(last, faults)?;
    writeln!(faults, "\"")
}

/// Writes that a line's command is the first one that the failed queue aborts. It is not inlined,
/// since its places would be cleared on each line.
#[inline(never)]
fn write_abort<E: Write>(line: u64, faults: &mut E) -> Result<(), RunError>
    ensures errors { IfErr result (λ error. error ≡ RunError.Write) }
{
    writeln!(
        faults,
        "line {line}: aborted: an earlier command failed, and a failed queue serves nothing"
    )
    .map_err(|_| RunError::Write)
}

/// Writes that a line's command is the first one that the failed queue aborts, where it is.
///
/// # Errors
///
/// `Write`.
pub fn tell_abort<E: Write>(aborted: bool, line: u64, faults: &mut E) -> Result<(), RunError>
    ensures quiet { aborted ≡ false → IsOk result × (faults.new ≡ faults.old) }
    ensures errors { IfErr result (λ error. error ≡ RunError.Write) }
{
    if aborted {
        return write_abort(line, faults);
    }
    Ok(())
}

/// The status that a run ends with; writes why, where it is not 0. The line that ended the run is
/// `text`, and `last` is the last one printed.
///
/// # Errors
///
/// `Write`.
pub fn tell<E: Write>(end: End, text: &[u8], last: &[u8], faults: &mut E) -> Result<u8, RunError>
    ensures status { IfOk result (λ status. status ≡ exit_status end) }
    ensures quiet { end ≡ ends.Done → IsOk result × (faults.new ≡ faults.old) }
    ensures errors { IfErr result (λ error. error ≡ RunError.Write) }
{
    match end {
        End::Done => Ok(0),
        End::ExpectationFailed { line } => {
            tell_difference(line, text, last, faults).map_err(|_| RunError::Write)?;
            Ok(1)
        }
        End::Bad { line, fault } => {
            writeln!(faults, "line {line}: {fault}").map_err(|_| RunError::Write)?;
            Ok(2)
        }
    }
}
