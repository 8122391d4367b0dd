//! What a script runs on: a drive, or a port.

use crate::named_phase::NamedPhase;
use crate::remarks::is_skipped;
use drive_scripts::{DrivePhase, Turn};
use port_scripts::PortDesk;
use script_lines::Report;
use std::alloc::AllocError;

/// What a script runs on.
#[derive(Drop)]
pub enum Phase {
    Drive(DrivePhase),
    /// A drive, whose lines may write calls by name.
    Named(NamedPhase),
    Port(PortDesk),
}

impl Phase {
    ghost use Rattle.std.specs.Prelude.{IfOk};
    ghost use Rattle.history.specs.Opening.{Origin};
    ghost use Rattle.tool.specs.Courses.{Course, PhaseRunsOn, PhaseStands, course_step};
    ghost use Rattle.tool.specs.Progress.{Steps, step_or_skip};

    /// Does what the line of a number says.
    #[inline(always)]
    fn turn(&mut self, number: u64, text: &[u8], report: &mut Report) -> Result<Turn, AllocError>
        requires { PhaseStands self.old }
        ensures steps { IfOk result (λ turn. (o : Origin) (course : Course)
            → PhaseRunsOn self.old o course
            → Steps turn
            (course_step o course report.old.last.items
            (record { number = number; text = text.now }))
            self.new o report.old report.new) }
    {
        match self {
            Phase::Drive(drive) => drive.turn(number, text, report),
            Phase::Named(named) => named.turn(number, text, report),
            Phase::Port(port) => port.turn(number, text, report),
        }
    }

    /// Does what the line of a number says, and nothing where it is a remark of a script that may hold
    /// some.
    #[inline(always)]
    pub fn turn_or_skip(
        &mut self,
        remarks: bool,
        number: u64,
        text: &[u8],
        report: &mut Report,
    ) -> Result<Turn, AllocError>
        requires { PhaseStands self.old }
        ensures steps { IfOk result (λ turn. (o : Origin) (course : Course)
            → PhaseRunsOn self.old o course
            → Steps turn
            (step_or_skip remarks o course report.old.last.items
            (record { number = number; text = text.now }))
            self.new o report.old report.new) }
    {
        if is_skipped(remarks, text) {
            return Ok(Turn::Goes { aborted: false });
        }
        self.turn(number, text, report)
    }
}
