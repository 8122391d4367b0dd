//! A drive that a script runs on, and what is kept of it where reasons are told.

ghost use Rattle.std.specs.Prelude.{◌≡◌, List, IfOk, OnOk, Ok};
ghost use Rattle.history.specs.History.{Act};
ghost use Rattle.history.specs.Opening.{Origin};
ghost use Rattle.reasons.specs.Onsets.{Sourced, bare_acts};
ghost use Rattle.drive_scripts.specs.Kept.{RecountsAll};
ghost use Rattle.drive_scripts.specs.Sources.{source_of};
ghost use Rattle.script_lines.specs.Lines.{line_said};
ghost use Rattle.script_lines.specs.declared.line.Line.{Line as LineOf};
ghost use Rattle.drive_scripts.specs.DriveCourses.{Explains, ExplainedSteps, line_course, source_said};
ghost use Rattle.drive_scripts.specs.Effects.{Acted, IsReached, RunsOn};

use crate::explainer::Explainer;
use crate::running::RunningPhase;
use crate::source::source_of;
use crate::turn::Turn;
use drive::Drive;
use script_lines::{Line, Report};
use std::alloc::{AllocError, Global};

/// A drive that a script runs on. Where reasons are told, something keeps what they need.
#[derive(Drop)]
pub struct DrivePhase {
    run: RunningPhase,
    explainer: Option<Explainer>,
}

/// Tells, behind what the line of a number printed that was done, why its command was refused, where
/// it was, and notes what it did.
fn explain_line(
    run: &RunningPhase,
    explainer: &mut Explainer,
    number: u64,
    text: &[u8],
    report: &mut Report,
) -> Result<(), AllocError>
    ensures { OnOk result ((line : LineOf) → line_said text.now ≡ Ok line
        → (o : Origin) (past : List Sourced) (acts : List Act)
        → RunsOn run.now o acts → Acted line run.now o (bare_acts past) acts
        → RecountsAll explainer.old o past
        → Explains (source_of number line) o past acts explainer.new report.old report.new) }
{
    match &Line::parse(text) {
        Ok(line) => run.explain(source_of(number, line), line, explainer, report),
        Err(_) => Ok(()),
    }
}

/// Does what the line of a number says, and tells why it was refused, where it was.
fn explained_turn(
    run: &mut RunningPhase,
    explainer: &mut Explainer,
    number: u64,
    text: &[u8],
    report: &mut Report,
) -> Result<Turn, AllocError>
    requires { IsReached run.old }
    ensures { IfOk result (λ turn. (o : Origin) (past : List Sourced)
        → RunsOn run.old o (bare_acts past) → RecountsAll explainer.old o past
        → ExplainedSteps turn (line_course o (bare_acts past) report.old.last.items text.now
        (line_said text.now)) (source_said number (line_said text.now)) o past
        run.new explainer.new report.old report.new) }
{
    let turn = run.turn(text, report)?;
    match turn {
        Turn::Goes { .. } => {
            explain_line(run, explainer, number, text, report)?;
            Ok(turn)
        }
        Turn::ExpectationFailed => Ok(turn),
        Turn::Bad(_) => Ok(turn),
    }
}

impl DrivePhase {
    ghost use Rattle.std.specs.Prelude.{◌≡◌, [], IfOk};
    ghost use Rattle.history.specs.Opening.{Origin};
    ghost use Rattle.drive.specs.State.{Agrees};
    ghost use Rattle.drive_scripts.specs.DriveCourses.{DriveCourse, DriveRunsOn, DriveStands, drive_course_step, drive_start};
    ghost use Rattle.drive_scripts.specs.Turns.{StepsBy};

    /// A drive on which nothing was done.
    pub fn new(alloc: Global, drive: Drive, explains: bool) -> DrivePhase
        ensures { (o : Origin) → Agrees drive o [] → DriveRunsOn result o (drive_start explains) }
    {
        if explains {
            let explainer = Some(Explainer::new(alloc, &drive));
            let run = RunningPhase::new(alloc, drive);
            return DrivePhase { run, explainer };
        }
        DrivePhase {
            run: RunningPhase::new(alloc, drive),
            explainer: None,
        }
    }

    /// The drive.
    pub fn drive(&self) -> &Drive
        ensures { result.now ≡ self.now.run.drive }
    {
        self.run.drive()
    }

    /// Does what the line of a number says.
    #[inline(always)]
    pub fn turn(
        &mut self,
        number: u64,
        text: &[u8],
        report: &mut Report,
    ) -> Result<Turn, AllocError>
        requires { DriveStands self.old }
        ensures { IfOk result (λ turn. (o : Origin) (course : DriveCourse)
            → DriveRunsOn self.old o course
            → StepsBy DriveCourse (DriveRunsOn self.new o) turn
            (drive_course_step o course report.old.last.items number text.now)
            report.old report.new) }
    {
        match &mut self.explainer {
            Some(explainer) => explained_turn(&mut self.run, explainer, number, text, report),
            None => self.run.turn(text, report),
        }
    }
}
