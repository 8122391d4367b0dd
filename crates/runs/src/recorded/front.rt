//! The lines in front of those that run: remarks, the line `port`, and range lines.

ghost use Rattle.std.specs.Prelude.{◌≡◌, IfOk};
ghost use Rattle.runs.specs.Progress.{OpensSo, front_turn};

use script_lines::is_port_line;
use std::alloc::{AllocError, Global};
use tool::{Fault, Head, OpeningPhase, OpeningTurn, Options, Phase, ScriptKind, is_skipped};

/// What the lines in front make so far.
#[derive(Drop)]
pub(crate) enum Front {
    /// There were remarks at most; this is what the lines are, unless one says that they are of a port script.
    Bare {
        kind: ScriptKind,
        phase: OpeningPhase,
    },
    /// A line told what the lines are, and range lines made this.
    Told {
        kind: ScriptKind,
        phase: OpeningPhase,
    },
}

/// How a script goes on behind a line in front.
#[derive(Drop)]
pub(crate) enum FrontTurn {
    Goes(Front),
    /// The line runs, and is still to be done.
    Runs(Phase),
    Bad(Fault),
}

/// What a line in front comes to, in a script of this kind.
fn front_turn(kind: ScriptKind, turn: OpeningTurn) -> FrontTurn
    ensures { result ≡ front_turn kind turn }
{
    match turn {
        OpeningTurn::Goes(phase) => FrontTurn::Goes(Front::Told { kind, phase }),
        OpeningTurn::Runs(run) => FrontTurn::Runs(run),
        OpeningTurn::Bad(fault) => FrontTurn::Bad(fault),
    }
}

/// What a line that is no remark comes to behind what range lines made so far, in a script of this kind.
fn opens(
    alloc: Global,
    explains: bool,
    kind: ScriptKind,
    phase: OpeningPhase,
    text: &[u8],
) -> Result<OpeningTurn, AllocError>
    ensures { IfOk result (OpensSo explains kind phase text.now) }
{
    let head = Head {
        remarks: false,
        explains,
        kind,
        lines: 0,
    };
    let turn = phase.turn_or_skip(alloc, head, text)?;
    Ok(turn)
}

impl Front {
    ghost use Rattle.std.specs.Prelude.{◌≡◌, false, IfOk};
    ghost use Rattle.tool.specs.Scripts.{drive_kind, is_skipped};
    ghost use Rattle.tool.specs.declared.opening.OpeningPhase.TheVariants.{Factory};
    ghost use Rattle.runs.specs.Progress.{TurnsSo};
    ghost use Rattle.runs.specs.declared.recorded.front.Front.TheVariants.{Bare};

    /// What a script begins with, in which remarks may stand or not.
    pub(crate) fn new(options: &Options, remarks: bool) -> Front
        ensures { result ≡ Bare (drive_kind remarks) (Factory options.now) }
    {
        Front::Bare {
            kind: ScriptKind::of_drive(remarks),
            phase: OpeningPhase::Factory(options.config()),
        }
    }

    /// Does what one line says, where it is one in front; a remark does nothing.
    pub(crate) fn turn(
        self,
        alloc: Global,
        explains: bool,
        remarks: bool,
        text: &[u8],
    ) -> Result<FrontTurn, AllocError>
        ensures { IfOk result (TurnsSo explains remarks self text.now) }
    {
        if is_skipped(remarks, text) {
            return Ok(FrontTurn::Goes(self));
        }
        self.turn_of_line(alloc, explains, remarks, text)
    }

    /// Does what a line says that is no remark.
    fn turn_of_line(
        self,
        alloc: Global,
        explains: bool,
        remarks: bool,
        text: &[u8],
    ) -> Result<FrontTurn, AllocError>
        requires { is_skipped remarks text.now ≡ false }
        ensures { IfOk result (TurnsSo explains remarks self text.now) }
    {
        match self {
            Front::Bare { kind, phase } => {
                Front::bare_turn(alloc, explains, remarks, kind, phase, text)
            }
            Front::Told { kind, phase } => {
                let turn = opens(alloc, explains, kind, phase, text)?;
                Ok(front_turn(kind, turn))
            }
        }
    }

    /// The same of the first such line, which tells whether the script runs on a port.
    fn bare_turn(
        alloc: Global,
        explains: bool,
        remarks: bool,
        kind: ScriptKind,
        phase: OpeningPhase,
        text: &[u8],
    ) -> Result<FrontTurn, AllocError>
        requires { is_skipped remarks text.now ≡ false }
        ensures { IfOk result (TurnsSo explains remarks (Bare kind phase) text.now) }
    {
        if is_port_line(text) {
            return Ok(FrontTurn::Goes(Front::Told {
                kind: ScriptKind::Port,
                phase,
            }));
        }
        let turn = opens(alloc, explains, kind, phase, text)?;
        Ok(front_turn(kind, turn))
    }
}
