//! A drive that a script runs on whose lines may write calls by name.

use drive::Drive;
use drive_scripts::{DrivePhase, Fault, Turn};
use script_lines::Report;
use script_lines::named_lines::{KnownSessions, call_verb_in};
use std::alloc::{AllocError, Global};

/// A drive that a script runs on whose lines may write calls by name, and the sessions that its clients know.
#[derive(Drop)]
pub struct NamedPhase {
    alloc: Global,
    drive: DrivePhase,
    known: KnownSessions,
}

impl NamedPhase {
    ghost use Rattle.std.specs.Prelude.{◌≡◌, [], Ok, IfOk};
    ghost use Rattle.history.specs.Opening.{Origin};
    ghost use Rattle.drive_scripts.specs.DriveCourses.{DriveCourse, DriveStands, DriveRunsOn};
    ghost use Rattle.script_lines.specs.KnownSessions.{Known, plain_line};
    ghost use Rattle.tool.specs.Courses.{NamedRunsOn, named_step};
    ghost use Rattle.tool.specs.Progress.{NamedSteps};

    /// A drive on which nothing was done. No client knows a session.
    pub fn new(alloc: Global, drive: DrivePhase) -> NamedPhase
        ensures { (o : Origin) (course : DriveCourse) → DriveRunsOn drive o course
            → NamedRunsOn result o [] course }
    {
        NamedPhase {
            alloc,
            drive,
            known: KnownSessions::new(alloc),
        }
    }

    /// The drive.
    pub fn drive(&self) -> &Drive
        ensures { result.now ≡ self.now.drive.run.drive }
    {
        self.drive.drive()
    }

    /// Does what a line says that writes no call by name, and learns from what it printed.
    fn plain_turn(
        &mut self,
        text: &[u8],
        number: u64,
        report: &mut Report,
    ) -> Result<Turn, AllocError>
        requires { DriveStands self.old.drive }
        ensures { IfOk result (λ turn. (o : Origin) (known : Known) (course : DriveCourse)
            → NamedRunsOn self.old o known course
            → NamedSteps turn
            (named_step o known course report.old.last.items number (Ok text.now))
            self.new o report.old report.new) }
    {
        let turn = self.drive.turn(number, text, report)?;
        self.known.learn(self.alloc, text, &report.last)?;
        Ok(turn)
    }

    /// Does what the line of a number says: where it writes a call by name, what the `call` line says that it stands for.
    pub fn turn(
        &mut self,
        number: u64,
        text: &[u8],
        report: &mut Report,
    ) -> Result<Turn, AllocError>
        requires { DriveStands self.old.drive }
        ensures { IfOk result (λ turn. (o : Origin) (known : Known) (course : DriveCourse)
            → NamedRunsOn self.old o known course
            → NamedSteps turn
            (named_step o known course report.old.last.items number (plain_line known text.now))
            self.new o report.old report.new) }
    {
        let Some(verb) = call_verb_in(text) else {
            return self.plain_turn(text, number, report);
        };
        match self.known.call_of(self.alloc, verb, text)? {
            Ok(call) => self.plain_turn(call.as_slice(), number, report),
            Err(fault) => Ok(Turn::Bad(Fault::Call(fault))),
        }
    }
}
