//! The drive behind the controller, with the ranges that the options give.

ghost use Rattle.std.specs.Prelude.{◌≡◌, ◌⊎◌, ◌++◌, ◌∷◌, [], Ok, Err, OnOk, IfOk, IfErr, map};
ghost use Rattle.history.specs.Opening.{Origin, opened_with};
ghost use Rattle.drive.specs.State.{Agrees};
ghost use Rattle.hba_program.specs.Openings.{option_row, option_rows, IsRangeFault, OpensAs, IsFaultOf};
ghost use Rattle.hba_program.specs.declared.hba_tool.opening.RangeFault.{RangeFault};

use drive::{Drive, DriveConfig, RangeRow, SetError};
use script_lines::{Line, LineFault};
use std::alloc::{AllocError, Global};
use std::error::Error;
use std::fmt;

/// Why ranges open no drive.
#[derive(Clone, Copy, Debug, PartialEq, Eq)]
pub enum RangeFault {
    /// The text is none of a range line.
    Line(LineFault),
    /// The text is that of another line.
    Other,
    /// The row is refused.
    Refused(SetError),
    OutOfMemory,
}

impl From<AllocError> for RangeFault {
    ghost use Rattle.std.specs.Prelude.{◌≡◌};
    ghost use Rattle.hba_program.specs.declared.hba_tool.opening.RangeFault.TheVariants.{OutOfMemory};

    ghost from_gives = { λ _ fault. fault ≡ OutOfMemory };

    fn from(_error: AllocError) -> RangeFault {
        RangeFault::OutOfMemory
    }
}

impl fmt::Display for RangeFault {
    fn fmt<W: fmt::Write>(&self, f: &mut fmt::Formatter<W>) -> fmt::Result {
        match *self {
            RangeFault::Line(fault) => write!(f, "--range: behind the word range, {fault}"),
            RangeFault::Other => f.write_str("--range: there are words of another line"),
            RangeFault::Refused(error) => write!(f, "--range: a range is refused: {error}"),
            RangeFault::OutOfMemory => f.write_str("out of memory"),
        }
    }
}

impl Error for RangeFault {}

/// The row that the words of a range line write, without their first.
fn row_of(alloc: Global, text: &str) -> Result<RangeRow, RangeFault>
    ensures read { IfOk result (λ row. option_row text.now ≡ Ok row) }
    ensures fault { IfErr result
        (λ fault. (fault ≡ RangeFault.OutOfMemory) ⊎ (option_row text.now ≡ Err fault)) }
{
    let line = format!(in alloc; "range {text}")?;
    match Line::parse(line.as_bytes()) {
        Ok(Line::Range(row)) => Ok(row),
        Ok(_) => Err(RangeFault::Other),
        Err(fault) => Err(RangeFault::Line(fault)),
    }
}

/// The rows that texts write.
fn rows_of(alloc: Global, texts: &[&str]) -> Result<Vec<RangeRow>, RangeFault>
    ensures read { IfOk result (λ rows. option_rows (map (λ text. text.now) texts.now)
        ≡ Ok rows.items) }
    ensures fault { IfErr result (λ fault. (fault ≡ RangeFault.OutOfMemory)
        ⊎ (option_rows (map (λ text. text.now) texts.now) ≡ Err fault)) }
{
    let mut rows = Vec::new(alloc);
    for i in 0..texts.len() {
        match row_of(alloc, texts[i]) {
            Ok(row) => push(&mut rows, row)?,
            Err(fault) => return Err(fault),
        }
    }
    Ok(rows)
}

/// Appends a row.
fn push(rows: &mut Vec<RangeRow>, row: RangeRow) -> Result<(), AllocError>
    ensures { OnOk result (rows.new.items ≡ rows.old.items ++ row ∷ []) }
{
    rows.push(row)?;
    Ok(())
}

/// A drive with these ranges.
fn with_rows(alloc: Global, config: DriveConfig, rows: &[RangeRow]) -> Result<Drive, RangeFault>
    ensures opened { IfOk result (λ drive. (o : Origin) × (opened_with config rows.now ≡ Ok o)
        × Agrees drive o []) }
    ensures fault { IfErr result (λ fault. (fault ≡ RangeFault.OutOfMemory)
        ⊎ IsRangeFault config rows.now fault) }
{
    match Drive::opened(alloc, config, rows) {
        Ok(drive) => Ok(drive),
        Err(SetError::OutOfMemory) => Err(RangeFault::OutOfMemory),
        Err(error) => Err(RangeFault::Refused(error)),
    }
}

/// A drive with the ranges that texts write, each the words of a script's range line behind the first.
/// Without a text it is as it leaves the factory.
///
/// # Errors
///
/// The first text that is none of a range line; else the first row that is refused; want of memory.
pub fn drive_with_ranges(
    alloc: Global,
    config: DriveConfig,
    ranges: &[&str],
) -> Result<Drive, RangeFault>
    ensures opened { IfOk result (λ drive. (o : Origin) × Agrees drive o []
        × OpensAs config (option_rows (map (λ text. text.now) ranges.now)) o) }
    ensures fault { IfErr result (λ fault. (fault ≡ RangeFault.OutOfMemory)
        ⊎ IsFaultOf config (option_rows (map (λ text. text.now) ranges.now)) fault) }
{
    let rows = rows_of(alloc, ranges)?;
    let drive = with_rows(alloc, config, &rows)?;
    Ok(drive)
}
