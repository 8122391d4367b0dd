//! A script that is explored, whole or in parts.

ghost use Rattle.std.specs.Prelude.{◌≡◌, ◌≤◌, IfOk, IfSome, length, map, option_map};
ghost use Rattle.tool.specs.OptionTexts.{drive_text};
ghost use Rattle.runs.specs.Plans.{WritesPlan, WritesSomePlan};
ghost use Rattle.opalport.specs.Program.{ExploresShare, ExploresOn, SearchEnds, MergeEnds, ExploreEnds};

use crate::command_line::ExploreTexts;
use crate::program::options_in;
use runs::explored::{
    Lines, Plan, PlanFault, Share, explore_part, explore_script, merge_parts, whole_text,
};
use std::alloc::Global;
use std::fs;
use std::fs::Files;
use std::io::{Read, Write};
use tool::{Options, RunError};

/// Tells what is wrong with the words.
fn tell_usage<E: Write>(fault: &str, faults: &mut E) -> Result<u8, RunError>
    ensures { IfOk result (λ status. status ≡ 2) }
{
    writeln!(faults, "error: {fault}").map_err(|_| RunError::Write)?;
    Ok(2)
}

/// Runs all short lists of the lines of a script, or those of one part, and gives the status.
fn explore_share<R: Read + Drop, W: Write, E: Write>(
    alloc: Global,
    options: &Options,
    plan: &Plan,
    part: Option<&str>,
    input: R,
    output: &mut W,
    faults: &mut E,
) -> Result<u8, RunError>
    ensures most { IfOk result (λ status. status ≤ 2) }
    ensures ends { IfOk result (λ status. ExploresShare options.now plan.now
        (option_map (λ s. s.now) part.entry) (R.remaining input) status
        (W.contents output.old) (W.contents output.new)) }
{
    match part {
        None => explore_script(alloc, input, output, faults, options, plan),
        Some(part) => match Share::parse(part.as_bytes()) {
            Some(share) => explore_part(alloc, input, output, faults, options, plan, share),
            None => tell_usage(
                "--part is no K/N, where K is a number from 1 to N, and N one up to 100000",
                faults,
            ),
        },
    }
}

/// Runs all short lists of the lines of a script on a drive, as far as the options say, and gives the status.
fn explore_on<R: Read + Drop, W: Write, E: Write>(
    alloc: Global,
    options: &Options,
    texts: &ExploreTexts<'_>,
    input: R,
    output: &mut W,
    faults: &mut E,
) -> Result<u8, RunError>
    ensures most { IfOk result (λ status. status ≤ 2) }
    ensures ends { IfOk result (λ status. ExploresOn options.now texts.now.steps.now
        texts.now.limit.now texts.now.find.now (option_map (λ s. s.now) texts.now.part)
        (R.remaining input) status (W.contents output.old) (W.contents output.new)) }
{
    let find = texts.find.as_bytes();
    match Plan::parse(alloc, texts.steps.as_bytes(), texts.limit.as_bytes(), find) {
        Ok(plan) => explore_share(alloc, options, &plan, texts.part, input, output, faults),
        Err(PlanFault::OutOfMemory) => Err(RunError::Memory),
        Err(fault) => {
            writeln!(faults, "error: {fault}").map_err(|_| RunError::Write)?;
            Ok(2)
        }
    }
}

/// The same on the drive that the options open.
fn search<R: Read + Drop, W: Write, E: Write>(
    alloc: Global,
    input: R,
    texts: &ExploreTexts<'_>,
    output: &mut W,
    faults: &mut E,
) -> Result<u8, RunError>
    ensures most { IfOk result (λ status. status ≤ 2) }
    ensures ends { IfOk result (λ status. SearchEnds (drive_text texts.now.drive)
        texts.now.steps.now texts.now.limit.now texts.now.find.now
        (option_map (λ s. s.now) texts.now.part) (R.remaining input) status
        (W.contents output.old) (W.contents output.new)) }
{
    let Some(options) = options_in(alloc, &texts.drive, faults)? else {
        return Ok(2);
    };
    explore_on(alloc, &options, texts, input, output, faults)
}

/// All that a file has; `None` where it can't be read.
fn file_text<F: Files>(files: &F, alloc: Global, name: &str) -> Result<Option<Vec<u8>>, RunError> {
    let Ok(file) = fs::open(files, name) else {
        return Ok(None);
    };
    match whole_text(alloc, file) {
        Ok(text) => Ok(Some(text)),
        Err(RunError::Memory) => Err(RunError::Memory),
        Err(_) => Ok(None),
    }
}

/// What the files have, a text for each; tells of the first that can't be read.
fn file_texts<F: Files, E: Write>(
    files: &F,
    alloc: Global,
    names: &[&str],
    faults: &mut E,
) -> Result<Option<Lines>, RunError>
    ensures { IfOk result (λ found. IfSome found (λ texts. length texts ≡ length names.now)) }
{
    let mut texts = Lines::new(alloc);
    for i in 0..names.len() {
        let name = names[i];
        match file_text(files, alloc, name)? {
            Some(text) => texts.push(alloc, &text)?,
            None => {
                writeln!(faults, "error: {name}: it can't be read").map_err(|_| RunError::Write)?;
                return Ok(None);
            }
        }
    }
    Ok(Some(texts))
}

/// Joins what parts printed to files, and gives the status.
fn merge<F: Files, W: Write, E: Write>(
    files: &F,
    alloc: Global,
    names: &[&str],
    output: &mut W,
    faults: &mut E,
) -> Result<u8, RunError>
    ensures most { IfOk result (λ status. status ≤ 2) }
    ensures ends { IfOk result (λ status. MergeEnds (map (λ s. s.now) names.now) status
        (W.contents output.old) (W.contents output.new)) }
{
    let Some(texts) = file_texts(files, alloc, names, faults)? else {
        return Ok(2);
    };
    merge_parts(alloc, names, texts.as_slice(), output, faults)
}

/// Runs short lists of the lines of a script, or joins what parts of such a search printed, and gives the status.
pub(crate) fn explore<F: Files, R: Read + Drop, W: Write, E: Write>(
    files: &F,
    alloc: Global,
    texts: &ExploreTexts<'_>,
    input: R,
    output: &mut W,
    faults: &mut E,
) -> Result<u8, RunError>
    ensures most { IfOk result (λ status. status ≤ 2) }
    ensures ends { IfOk result (λ status. ExploreEnds (drive_text texts.now.drive)
        texts.now.steps.now texts.now.limit.now texts.now.find.now
        (option_map (λ s. s.now) texts.now.part) texts.now.merges
        (map (λ s. s.now) texts.now.files.items) (R.remaining input) status
        (W.contents output.old) (W.contents output.new)) }
{
    let names = texts.files.as_slice();
    match (texts.merges, texts.part, names) {
        (true, Some(_), _) => tell_usage("--part and --merge stand not together", faults),
        (true, None, []) => tell_usage("--merge wants the files of the parts", faults),
        (true, None, _) => merge(files, alloc, names, output, faults),
        (false, _, []) => search(alloc, input, texts, output, faults),
        (false, _, _) => tell_usage("a file stands only behind --merge", faults),
    }
}
