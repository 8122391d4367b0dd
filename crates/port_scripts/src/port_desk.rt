//! A port that a script runs on, and what is kept of it where reasons are told.

ghost use Rattle.std.specs.Prelude.{◌≡◌, List, IfOk};
ghost use Rattle.history.specs.Opening.{Origin};
ghost use Rattle.drive_scripts.specs.Turns.{StepsBy};
ghost use Rattle.script_lines.specs.PortLines.{port_line_of};
ghost use Rattle.port_scripts.specs.PortActs.{LinedStep};
ghost use Rattle.port_scripts.specs.PortCourses.{KeepsCourse, KeepsPort, PortCourse, ExplainedPort, explained_step, port_course_step, step_said};

use crate::ahead::ahead_of;
use crate::explaining::explain_step;
use crate::port_phase::{PortPhase, step_in};
use drive_scripts::{Explainer, Turn};
use port::{LivePort, Step};
use script_lines::{PortLine, Report};
use std::alloc::{AllocError, Global};

/// The step that a line of text asks for, if it asks for one.
fn step_said(alloc: Global, text: &[u8]) -> Result<Option<Step>, AllocError>
    ensures { IfOk result (λ step. step ≡ step_said (port_line_of text.now)) }
{
    match &PortLine::parse(text) {
        Ok(line) => step_in(alloc, line),
        Err(_) => Ok(None),
    }
}

/// Does a step that the line of a number asks for, and tells why it was refused, or of the command that it accepted.
fn stepped_turn(
    phase: &mut PortPhase,
    explainer: &mut Explainer,
    step: &Step,
    number: u64,
    report: &mut Report,
) -> Result<Turn, AllocError>
    ensures { IfOk result (λ turn. (o : Origin) (past : List LinedStep)
        → KeepsPort phase.old explainer.old o past
        → StepsBy PortCourse (KeepsCourse phase.new explainer.new o) turn
        (explained_step o past number step.now) report.old report.new) }
{
    let alloc = phase.allocator();
    let ahead = ahead_of(alloc, phase.port(), step)?;
    let refused = phase.step(step, report)?;
    let port = phase.port();
    explain_step(
        alloc, port, explainer, step, refused, &ahead, number, report,
    )?;
    Ok(Turn::Goes { aborted: false })
}

/// Does what the line of a number says, and tells why its step was refused, or of the command that it accepted.
fn explained_turn(
    phase: &mut PortPhase,
    explainer: &mut Explainer,
    number: u64,
    text: &[u8],
    report: &mut Report,
) -> Result<Turn, AllocError>
    ensures { IfOk result (λ turn. (o : Origin) (past : List LinedStep)
        → KeepsPort phase.old explainer.old o past
        → StepsBy PortCourse (KeepsCourse phase.new explainer.new o) turn
        (port_course_step o (ExplainedPort past) report.old.last.items number text.now)
        report.old report.new) }
{
    match step_said(phase.allocator(), text)? {
        Some(step) => stepped_turn(phase, explainer, &step, number, report),
        None => phase.turn(text, report),
    }
}

/// A port that a script runs on. Where reasons are told, something keeps what they need.
#[derive(Drop)]
pub struct PortDesk {
    phase: PortPhase,
    explainer: Option<Explainer>,
}

impl PortDesk {
    ghost use Rattle.std.specs.Prelude.{◌≡◌, [], IfOk};
    ghost use Rattle.history.specs.Opening.{Origin};
    ghost use Rattle.drive_scripts.specs.Turns.{StepsBy};
    ghost use Rattle.port_scripts.specs.PortCourses.{PortCourse, DeskRunsOn, port_course_step, port_start};
    ghost use Rattle.port_scripts.specs.PortEffects.{PortRunsOn};

    /// A port on which nothing was done, and whether reasons are told.
    pub fn new(phase: PortPhase, explains: bool) -> PortDesk
        ensures { (o : Origin) → PortRunsOn phase o [] → DeskRunsOn result o (port_start explains) }
    {
        if explains {
            let explainer = Some(Explainer::new(phase.allocator(), phase.port().drive()));
            return PortDesk { phase, explainer };
        }
        PortDesk {
            phase,
            explainer: None,
        }
    }

    /// The port.
    pub fn port(&self) -> &LivePort
        ensures { result.now ≡ self.now.phase.port }
    {
        self.phase.port()
    }

    /// Does what the line of a number says.
    #[inline(always)]
    pub fn turn(
        &mut self,
        number: u64,
        text: &[u8],
        report: &mut Report,
    ) -> Result<Turn, AllocError>
        ensures { IfOk result (λ turn. (o : Origin) (course : PortCourse)
            → DeskRunsOn self.old o course
            → StepsBy PortCourse (DeskRunsOn self.new o) turn
            (port_course_step o course report.old.last.items number text.now)
            report.old report.new) }
    {
        match &mut self.explainer {
            Some(explainer) => explained_turn(&mut self.phase, explainer, number, text, report),
            None => self.phase.turn(text, report),
        }
    }
}
