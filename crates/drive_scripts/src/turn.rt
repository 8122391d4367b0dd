//! How a script goes on behind a line, and what ends it.

ghost use Rattle.std.specs.Prelude.{◌≡◌, false, if◌then◌else◌};
ghost use Rattle.std.specs.Str.{bytes_eq};
ghost use Rattle.script_lines.specs.Lines.{expected_text};

use drive::SetError;
use script_lines::named_lines::CallFault;
use script_lines::{LineFault, Report, expected_text};
use std::fmt;

/// What ends a script with status 2.
#[derive(Clone, Copy, Debug, PartialEq, Eq)]
pub enum Fault {
    Line(LineFault),
    /// The line writes a call by name, and stands for none.
    Call(CallFault),
    LateRange,
    RefusedRow { range: u8, error: SetError },
}

impl fmt::Display for Fault {
    fn fmt<W: fmt::Write>(&self, f: &mut fmt::Formatter<W>) -> fmt::Result {
        match *self {
            Fault::Line(fault) => write!(f, "{fault}"),
            Fault::Call(fault) => write!(f, "{fault}"),
            Fault::LateRange => f.write_str("a range line stands behind another line"),
            Fault::RefusedRow {
                range,
                error: SetError::NoCell,
            } => write!(f, "there is no range {range} (0 to 16)"),
            Fault::RefusedRow {
                range: 0,
                error: SetError::Beyond,
            } => f.write_str("the global range has no place: its start and length are 0"),
            Fault::RefusedRow { range, error } => write!(f, "range {range} is refused: {error}"),
        }
    }
}

/// How a script goes on behind a line.
#[derive(Clone, Copy, Debug, PartialEq, Eq)]
pub enum Turn {
    /// To the next line; `aborted` where this one's command is the first that the failed queue aborts.
    Goes { aborted: bool },
    ExpectationFailed,
    Bad(Fault),
}

/// What becomes of an `expect` line, behind what was printed.
pub fn expectation(text: &[u8], report: &Report) -> Turn
    ensures { result ≡ (if bytes_eq report.now.last.items (expected_text text.now)
        then Turn.Goes false else Turn.ExpectationFailed) }
{
    if report.last.as_slice() == expected_text(text) {
        Turn::Goes { aborted: false }
    } else {
        Turn::ExpectationFailed
    }
}
