//! The opening phase of a script: its range lines.

ghost use Rattle.std.specs.Prelude.{◌≡◌};
ghost use Rattle.tool.specs.Openings.{row_of_line, row_or_fault, row_in_port, said_of_port, row_said};
ghost use Rattle.script_lines.specs.Lines.{line_said};
ghost use Rattle.script_lines.specs.PortLines.{port_line_of};

use crate::head::{Head, ScriptKind};
use crate::named_phase::NamedPhase;
use crate::phase::Phase;
use crate::remarks::is_skipped;
use drive::{Drive, DriveConfig, Opening, RangeRow, SetError};
use drive_scripts::{DrivePhase, Fault};
use port::LivePort;
use port_scripts::{PortDesk, PortPhase};
use script_lines::named_lines::call_verb_in;
use script_lines::{Line, LineFault, PortLine};
use std::alloc::{AllocError, Global};

/// What the range lines so far make.
#[derive(Drop)]
pub enum OpeningPhase {
    /// There was none: the drive is as it leaves the factory.
    Factory(DriveConfig),
    /// There was one, and the Locking SP is active.
    Activated(Opening),
}

/// How a script goes on behind a line of the opening phase.
#[derive(Drop)]
pub enum OpeningTurn {
    /// The line gave the cells of a range.
    Goes(OpeningPhase),
    /// The line is none of a range, and is still to be done.
    Runs(Phase),
    Bad(Fault),
}

/// The row of a range line.
fn row_in(line: &Line<'_>) -> Option<RangeRow>
    ensures { result ≡ row_of_line line.now }
{
    match line {
        Line::Range(row) => Some(*row),
        _ => None,
    }
}

/// The row of a range line of a port script.
fn row_in_port(line: &PortLine<'_>) -> Option<RangeRow>
    ensures { result ≡ row_in_port line.now }
{
    match line {
        PortLine::Range(row) => Some(*row),
        _ => None,
    }
}

/// The row that a line on a drive gives, if it is a range line.
fn row_on_drive(text: &[u8]) -> Result<Option<RangeRow>, LineFault>
    ensures { result ≡ row_or_fault (line_said text.now) }
{
    let line = Line::parse(text)?;
    Ok(row_in(&line))
}

/// The row that a line of a port script gives, if it is a range line.
fn row_on_port(text: &[u8]) -> Result<Option<RangeRow>, LineFault>
    ensures { result ≡ said_of_port (port_line_of text.now) }
{
    let line = PortLine::parse(text)?;
    Ok(row_in_port(&line))
}

/// The row that a line gives, if it is a range line, by what the lines of its script are.
fn row_said(kind: ScriptKind, text: &[u8]) -> Result<Option<RangeRow>, LineFault>
    ensures { result ≡ row_said kind text.now }
{
    match kind {
        ScriptKind::Drive => row_on_drive(text),
        ScriptKind::DriveWithNames => match call_verb_in(text) {
            Some(_) => Ok(None),
            None => row_on_drive(text),
        },
        ScriptKind::Port => row_on_port(text),
    }
}

impl OpeningPhase {
    ghost use Rattle.std.specs.Prelude.{◌≡◌, ◌⊎◌, [], Option, None, Some, Ok, Err, IfOk, IfErr, true, false};
    ghost use Rattle.locking.specs.declared.range.RangeRow.{RangeRow};
    ghost use Rattle.script_lines.specs.declared.fault.LineFault.{LineFault};
    ghost use Rattle.sp_cells.specs.declared.error.SetError.{SetError};
    ghost use Rattle.history.specs.Opening.{row_fault, with_range};
    ghost use Rattle.drive.specs.State.{Agrees};
    ghost use Rattle.port_scripts.specs.PortEffects.{PortRunsOn};
    ghost use Rattle.tool.specs.Openings.{origin_of, base_of, OpensBy, RunsFrom, TurnStands, row_said};
    ghost use Rattle.tool.specs.Scripts.{is_skipped};
    ghost use Rattle.tool.specs.declared.opening.OpeningPhase.TheVariants.{Activated};

    /// The opening that the next row is set over.
    fn activate(self, alloc: Global) -> Result<Opening, AllocError>
        ensures { IfOk result (λ opening. opening ≡ base_of self) }
    {
        match self {
            OpeningPhase::Factory(config) => Opening::new(alloc, config),
            OpeningPhase::Activated(opening) => Ok(opening),
        }
    }

    /// Sets the cells of a range. The first row makes the Locking SP active.
    #[tactic(auto, using(crate::proofs::Rows::memory_or_fault))]
    pub fn set(self, alloc: Global, row: &RangeRow) -> Result<OpeningPhase, SetError>
        ensures fits { IfOk result (λ _. row_fault (base_of self) row.now ≡ None) }
        ensures set { IfOk result (λ phase. phase ≡ Activated (with_range row.now (base_of self))) }
        ensures refused { IfErr result
            (λ e. (e ≡ SetError.OutOfMemory) ⊎ (row_fault (base_of self) row.now ≡ Some e)) }
    {
        let mut opening = self.activate(alloc)?;
        match opening.set_range(row) {
            Ok(()) => Ok(OpeningPhase::Activated(opening)),
            Err(error) => Err(error),
        }
    }

    /// The drive that the range lines open.
    pub fn into_drive(self, alloc: Global) -> Result<Drive, AllocError>
        ensures { IfOk result (λ drive. Agrees drive (origin_of self) []) }
    {
        match self {
            OpeningPhase::Factory(config) => Drive::new(alloc, config),
            OpeningPhase::Activated(opening) => opening.into_drive(),
        }
    }

    /// The port in front of the drive that the range lines open.
    pub fn into_port(self, alloc: Global) -> Result<PortPhase, AllocError>
        ensures { IfOk result (λ phase. PortRunsOn phase (origin_of self) []) }
    {
        let drive = self.into_drive(alloc)?;
        // nothing but memory is refused here
        let Ok(port) = LivePort::new(alloc, drive) else {
            return Err(AllocError);
        };
        Ok(PortPhase::new(alloc, port))
    }

    /// Does what one line says, where it gives the cells of a range; any other line ends the phase.
    fn turn(self, alloc: Global, head: Head, text: &[u8]) -> Result<OpeningTurn, AllocError>
        ensures stands { IfOk result TurnStands }
        ensures does { (row : Option RangeRow) → row_said head.kind text.now ≡ Ok row
            → IfOk result (OpensBy head self row) }
        ensures bad_line { (fault : LineFault) → row_said head.kind text.now ≡ Err fault
            → result ≡ Ok (OpeningTurn.Bad (Fault.Line fault)) }
    {
        match row_said(head.kind, text) {
            Ok(row) => self.act(alloc, head, row),
            Err(fault) => Ok(OpeningTurn::Bad(Fault::Line(fault))),
        }
    }

    /// Does what one line says, and nothing where it is a remark of a script that may hold some.
    pub fn turn_or_skip(
        self,
        alloc: Global,
        head: Head,
        text: &[u8],
    ) -> Result<OpeningTurn, AllocError>
        ensures stands { IfOk result TurnStands }
        ensures skips { is_skipped head.remarks text.now ≡ true
            → result ≡ Ok (OpeningTurn.Goes self) }
        ensures does { is_skipped head.remarks text.now ≡ false → (row : Option RangeRow)
            → row_said head.kind text.now ≡ Ok row → IfOk result (OpensBy head self row) }
        ensures bad_line { is_skipped head.remarks text.now ≡ false → (fault : LineFault)
            → row_said head.kind text.now ≡ Err fault
            → result ≡ Ok (OpeningTurn.Bad (Fault.Line fault)) }
    {
        if is_skipped(head.remarks, text) {
            return Ok(OpeningTurn::Goes(self));
        }
        self.turn(alloc, head, text)
    }

    fn act(
        self,
        alloc: Global,
        head: Head,
        row: Option<RangeRow>,
    ) -> Result<OpeningTurn, AllocError>
        ensures { IfOk result (OpensBy head self row) }
    {
        let Some(row) = row else {
            return self.run(alloc, head);
        };
        match self.set(alloc, &row) {
            Ok(phase) => Ok(OpeningTurn::Goes(phase)),
            Err(SetError::OutOfMemory) => Err(AllocError),
            Err(error) => {
                let range = row.range;
                Ok(OpeningTurn::Bad(Fault::RefusedRow { range, error }))
            }
        }
    }

    /// Opens the drive, and the port in front of it.
    fn run(self, alloc: Global, head: Head) -> Result<OpeningTurn, AllocError>
        ensures { IfOk result (RunsFrom head (origin_of self)) }
    {
        match head.kind {
            ScriptKind::Drive => {
                let drive = DrivePhase::new(alloc, self.into_drive(alloc)?, head.explains);
                Ok(OpeningTurn::Runs(Phase::Drive(drive)))
            }
            ScriptKind::DriveWithNames => {
                let drive = DrivePhase::new(alloc, self.into_drive(alloc)?, head.explains);
                Ok(OpeningTurn::Runs(Phase::Named(NamedPhase::new(alloc, drive))))
            }
            ScriptKind::Port => {
                let desk = PortDesk::new(self.into_port(alloc)?, head.explains);
                Ok(OpeningTurn::Runs(Phase::Port(desk)))
            }
        }
    }
}
