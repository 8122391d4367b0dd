//! The runs of a transcript's script on the model.

ghost use Rattle.std.specs.Prelude.{◌≡◌, ◌++◌, ℕ, Bool, List, IfOk, OnOk};
ghost use Rattle.runs.specs.Stepped.{RanTo, RunStands};
ghost use Rattle.judged.specs.Answers.{text_behind};
ghost use Rattle.judged.specs.Judgements.{through};
ghost use Rattle.judged.specs.Transcripts.{entry_text};

use crate::answers::print_text;
use crate::blanks::{append_other_text, other_options};
use crate::entry::Entry;
use crate::text::Text;
use runs::recorded::SteppedRun;
use std::alloc::Global;
use tool::{Options, RunError};

/// What the model prints for a line.
#[derive(Drop)]
pub struct Printed {
    pub said: Text,
    /// The same where reasons are told.
    pub explained: Text,
    /// What it prints where every write before wrote another byte, and random bytes are others.
    pub other: Text,
}

/// The runs of a transcript's script on the model.
#[derive(Drop)]
pub struct Bench {
    /// The script as it stands.
    model: SteppedRun,
    /// The same, with reasons.
    explained: SteppedRun,
    /// The script with another byte in each line that writes one, on a drive whose random bytes are others.
    other: SteppedRun,
}

/// Does a line and the remarks behind it, and gives what the line prints.
fn print_entry(
    alloc: Global,
    options: &Options,
    run: &mut SteppedRun,
    entry: &Entry,
) -> Result<Text, RunError>
    requires { RunStands run.old }
    ensures stands { OnOk result (RunStands run.new) }
    ensures ran { OnOk result ((explains : Bool) (before : List ℕ)
        → RanTo run.old explains options.now before
        → RanTo run.new explains options.now (before ++ entry_text entry.now)) }
    ensures printed { IfOk result (λ printed. (explains : Bool) (before : List ℕ)
        → RanTo run.old explains options.now before
        → printed ≡ text_behind explains options.now before (through before entry.now)) }
{
    let mut line = Text::new(alloc);
    entry.append_line_text(&mut line)?;
    let printed = print_text(alloc, options, run, line.as_slice())?;
    let mut remarks = Text::new(alloc);
    entry.append_remarks(&mut remarks)?;
    run.go_on(options, remarks.as_slice())?;
    Ok(printed)
}

impl Bench {
    ghost use Rattle.std.specs.Prelude.{◌≡◌, IfOk, OnOk};
    ghost use Rattle.sp_cells.specs.Config.{Config};
    ghost use Rattle.tool.specs.Outcomes.{run_outcome_of};
    ghost use Rattle.judged.specs.Benches.{BenchFits, BenchStands, ScriptsGoOn};
    ghost use Rattle.judged.specs.Judgements.{nothing_judged, printed_at};
    ghost use Rattle.judged.specs.declared.judging.Judging.{Judging};

    /// No line has run.
    pub fn new(alloc: Global) -> Bench
        ensures stands { BenchStands result }
        ensures fits { (config : Config) → BenchFits result config nothing_judged }
    {
        Bench {
            model: SteppedRun::new(alloc, false),
            explained: SteppedRun::new(alloc, true),
            other: SteppedRun::new(alloc, false),
        }
    }

    /// Does a line and the remarks behind it, and gives what the line prints.
    pub fn print(
        &mut self,
        alloc: Global,
        options: &Options,
        entry: &Entry,
    ) -> Result<Printed, RunError>
        requires { BenchStands self.old }
        ensures stands { OnOk result (BenchStands self.new) }
        ensures printed { IfOk result (λ printed. (judging : Judging)
            → BenchFits self.old options.now judging
            → printed ≡ printed_at options.now judging entry.now) }
        ensures fits { OnOk result ((judging later : Judging)
            → BenchFits self.old options.now judging → ScriptsGoOn judging later entry.now
            → BenchFits self.new options.now later) }
    {
        let said = print_entry(alloc, options, &mut self.model, entry)?;
        let explained = print_entry(alloc, options, &mut self.explained, entry)?;
        let mut text = Text::new(alloc);
        append_other_text(&mut text, entry)?;
        let others = other_options(options);
        let other = print_text(alloc, &others, &mut self.other, text.as_slice())?;
        Ok(Printed {
            said,
            explained,
            other,
        })
    }

    /// The status of the script so far.
    pub fn status(&self) -> u8
        ensures { (config : Config) (judging : Judging) → BenchFits self.now config judging
            → result ≡ (run_outcome_of config judging.script).status }
    {
        self.model.status()
    }
}
