//! A run of a script whose lines come piece by piece: what was printed can be seen behind each.

ghost use Rattle.std.specs.Prelude.{◌≡◌, ◌+◌, Bool, false, None, IfOk, IfSome, OnOk};
ghost use Rattle.sp_cells.specs.Config.{Config};
ghost use Rattle.tool.specs.Courses.{PhaseStands};
ghost use Rattle.runs.specs.Stepped.{script_end, stage_by, stage_behind, runs_at, TurnsInPlace, FrontMakes, LineMakes, RunMakes, StageStands};
ghost use Rattle.runs.specs.declared.recorded.stepped.Stage.TheVariants as stages;

use crate::explored::first_line;
use crate::recorded::front::{Front, FrontTurn};
use script_lines::Report;
use std::alloc::Global;
use std::mem;
use tool::{Options, Phase, RunError, Turn, may_hold_remarks};

/// The most lines that come.
const LINE_LIMIT: u64 = 4_294_967_296;

/// What the lines that came made.
#[derive(Drop)]
pub(crate) enum Stage {
    /// None came.
    Untold,
    /// Lines in front alone came, in a script in which remarks may stand or not.
    InFront { remarks: bool, front: Front },
    /// Lines run.
    Runs { remarks: bool, run: Phase },
    /// A line ended the script, with this status.
    Ended { status: u8 },
}

/// Lets go what ran.
fn ended(run: Phase, status: u8) -> Stage
    ensures { result ≡ stages.Ended status }
{
    drop(run);
    Stage::Ended { status }
}

/// What a turn makes of what ran.
fn stage_behind(turn: Turn, remarks: bool, run: Phase) -> Stage
    ensures { result ≡ stage_behind turn remarks run }
{
    match turn {
        Turn::Goes { .. } => Stage::Runs { remarks, run },
        Turn::ExpectationFailed => ended(run, 1),
        Turn::Bad(_) => ended(run, 2),
    }
}

/// Does a line of this number on what begins to run.
fn run_line(
    remarks: bool,
    mut run: Phase,
    number: u64,
    text: &[u8],
    report: &mut Report,
) -> Result<Stage, RunError>
    requires { PhaseStands run }
    ensures stands { IfOk result StageStands }
    ensures makes { IfOk result (λ stage.
        RunMakes remarks run number text.now report.old stage report.new) }
{
    match run.turn_or_skip(remarks, number, text, report) {
        Ok(turn) => Ok(stage_behind(turn, remarks, run)),
        Err(error) => {
            drop(run);
            Err(RunError::from(error))
        }
    }
}

/// Does a line of this number behind lines in front.
fn front_line(
    alloc: Global,
    explains: bool,
    remarks: bool,
    front: Front,
    number: u64,
    text: &[u8],
    report: &mut Report,
) -> Result<Stage, RunError>
    ensures stands { IfOk result StageStands }
    ensures makes { IfOk result (λ stage. (config : Config)
        → FrontMakes explains config remarks front number text.now report.old stage report.new) }
{
    match front.turn(alloc, explains, remarks, text)? {
        FrontTurn::Goes(front) => Ok(Stage::InFront { remarks, front }),
        FrontTurn::Runs(run) => run_line(remarks, run, number, text, report),
        FrontTurn::Bad(_) => Ok(Stage::Ended { status: 2 }),
    }
}

/// The status that a turn ends the script with, if it does.
fn script_end(turn: Turn) -> Option<u8>
    ensures { result ≡ script_end turn }
{
    match turn {
        Turn::Goes { .. } => None,
        Turn::ExpectationFailed => Some(1),
        Turn::Bad(_) => Some(2),
    }
}

/// Does a line of this number on what runs, which stays in its place, where something does.
fn turn_in_place(
    stage: &mut Stage,
    number: u64,
    text: &[u8],
    report: &mut Report,
) -> Result<Option<Turn>, RunError>
    requires { StageStands stage.old }
    ensures waits { IfOk result (λ turn. turn ≡ None → (runs_at stage.old ≡ false)
        × (stage.new ≡ stage.old) × (report.new ≡ report.old)) }
    ensures turns { IfOk result (λ turn. IfSome turn (λ made.
        TurnsInPlace stage.old number text.now report.old made stage.new report.new)) }
{
    match stage {
        Stage::Runs { remarks, run } => {
            let turn = run.turn_or_skip(*remarks, number, text, report)?;
            Ok(Some(turn))
        }
        _ => Ok(None),
    }
}

/// Ends what runs, where a turn ends the script.
fn end_by(turn: Turn, stage: &mut Stage)
    ensures { stage.new ≡ stage_by (script_end turn) stage.old }
{
    if let Some(status) = script_end(turn) {
        drop(mem::replace(stage, Stage::Ended { status }));
    }
}

/// Does a line of this number where nothing runs.
fn waiting_line(
    alloc: Global,
    options: &Options,
    explains: bool,
    stage: Stage,
    number: u64,
    text: &[u8],
    report: &mut Report,
) -> Result<Stage, RunError>
    requires { runs_at stage ≡ false }
    ensures stands { IfOk result StageStands }
    ensures makes { IfOk result (λ next.
        LineMakes explains options.now stage number text.now report.old next report.new) }
{
    match stage {
        Stage::Untold => {
            let remarks = may_hold_remarks(text);
            let front = Front::new(options, remarks);
            front_line(alloc, explains, remarks, front, number, text, report)
        }
        Stage::InFront { remarks, front } => {
            front_line(alloc, explains, remarks, front, number, text, report)
        }
        _ => Ok(stage),
    }
}

/// Does a line of this number, at any stage.
fn stage_line(
    alloc: Global,
    options: &Options,
    explains: bool,
    stage: &mut Stage,
    number: u64,
    text: &[u8],
    report: &mut Report,
) -> Result<(), RunError>
    requires { StageStands stage.old }
    ensures stands { OnOk result (StageStands stage.new) }
    ensures makes { OnOk result (LineMakes explains options.now stage.old number text.now report.old
        stage.new report.new) }
{
    if let Some(turn) = turn_in_place(stage, number, text, report)? {
        end_by(turn, stage);
        return Ok(());
    }
    let old = mem::replace(stage, Stage::Untold);
    let next = waiting_line(alloc, options, explains, old, number, text, report)?;
    drop(mem::replace(stage, next));
    Ok(())
}

/// A run of a script whose lines come piece by piece.
#[derive(Drop)]
pub struct SteppedRun {
    alloc: Global,
    /// Whether each refusal is told with its reason.
    explains: bool,
    /// How many lines came.
    lines: u64,
    report: Report,
    stage: Stage,
}

impl SteppedRun {
    ghost use Rattle.std.specs.Prelude.{◌≡◌, ◌++◌, ◌∷◌, [], ℕ, Bool, List, OnOk};
    ghost use Rattle.sp_cells.specs.Config.{Config};
    ghost use Rattle.tool.specs.Outcomes.{outcome_by};
    ghost use Rattle.runs.specs.Stepped.{LinesCame, RanTo, RunStands, WholeLines};

    /// A run of a script of which no line came, with reasons or without.
    pub fn new(alloc: Global, explains: bool) -> SteppedRun
        ensures stands { RunStands result }
        ensures ran { (config : Config) → RanTo result explains config [] }
    {
        SteppedRun {
            alloc,
            explains,
            lines: 0,
            report: Report::new(alloc),
            stage: Stage::Untold,
        }
    }

    /// Does one line more.
    fn add_line(&mut self, options: &Options, text: &[u8]) -> Result<(), RunError>
        requires { RunStands self.old }
        ensures explains { self.new.explains ≡ self.old.explains }
        ensures stands { OnOk result (RunStands self.new) }
        ensures came { OnOk result ((came : List (List ℕ)) → LinesCame self.old options.now came
            → LinesCame self.new options.now (came ++ text.now ∷ [])) }
    {
        if self.lines >= LINE_LIMIT {
            return Err(RunError::ReadLimit);
        }
        let number = self.lines + 1;
        let stage = &mut self.stage;
        let report = &mut self.report;
        let explains = self.explains;
        stage_line(self.alloc, options, explains, stage, number, text, report)?;
        self.lines = number;
        Ok(())
    }

    /// Does the lines of a text, behind those that came.
    ///
    /// # Errors
    ///
    /// Want of memory, and `ReadLimit`. Then what was printed is not known.
    pub fn go_on(&mut self, options: &Options, text: &[u8]) -> Result<(), RunError>
        requires stands { RunStands self.old }
        requires whole { WholeLines text.now }
        ensures stands { OnOk result (RunStands self.new) }
        ensures ran { OnOk result ((explains : Bool) (before : List ℕ)
            → RanTo self.old explains options.now before
            → RanTo self.new explains options.now (before ++ text.now)) }
    {
        let mut rest = text;
        while !rest.is_empty() {
            let (line, behind) = first_line(rest);
            self.add_line(options, line)?;
            rest = behind;
        }
        Ok(())
    }

    /// What was printed.
    pub fn printed(&self) -> &[u8]
        ensures { (explains : Bool) (config : Config) (text : List ℕ)
            → RanTo self.now explains config text
            → result.now ≡ (outcome_by explains config text).text }
    {
        &self.report.pending
    }

    /// The status that the script has if no line comes.
    pub fn status(&self) -> u8
        ensures { (explains : Bool) (config : Config) (text : List ℕ)
            → RanTo self.now explains config text
            → result ≡ (outcome_by explains config text).status }
    {
        match &self.stage {
            Stage::Ended { status } => *status,
            _ => 0,
        }
    }
}
