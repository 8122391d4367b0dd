//! A part of the exploration of a script, from a reader to a writer.

ghost use Rattle.std.specs.Prelude.{◌≡◌, ◌≤◌, IfOk};
ghost use Rattle.tool.specs.Outcomes.{Yields};
ghost use Rattle.runs.specs.Shares.{IsShare};
ghost use Rattle.runs.specs.Tellings.{search_by};
ghost use Rattle.runs.specs.Merges.{part_of_search, part_of_lines, ExploresPart};

use crate::explored::lines::Lines;
use crate::explored::part_rows::part_text;
use crate::explored::plan::Plan;
use crate::explored::script::{is_fit, search_by, whole_text};
use crate::explored::search::Search;
use crate::explored::share::Share;
use basics::Bytes;
use std::alloc::Global;
use std::io;
use std::io::{Read, Write};
use tool::{Options, RunError, run_script_with_faults, write_text};

/// Writes the rows of a part; tells where it has none, since lists of one length reach the limit.
fn write_part<W: Write, E: Write>(
    alloc: Global,
    options: &Options,
    search: &Search,
    steps: u32,
    share: Share,
    output: &mut W,
    faults: &mut E,
) -> Result<u8, RunError>
    requires { IsShare share }
    ensures most { IfOk result (λ status. status ≤ 2) }
    ensures told { IfOk result (λ status. Yields
        (part_of_search options.now search.now steps share) status
        (W.contents output.old) (W.contents output.new)) }
{
    match search.rows_found(alloc, options, steps, share, faults)? {
        Some(rows) => {
            let text = part_text(alloc, options, search, steps, share, &rows)?;
            write_text(output, &text)?;
            Ok(0)
        }
        None => {
            writeln!(
                faults,
                "error: a part leaves no list out, and lists of one length reach --limit"
            )
            .map_err(|_| RunError::Write)?;
            Ok(2)
        }
    }
}

/// Runs the lists of a part, where there is something to explore.
fn explore_part_lines<W: Write, E: Write>(
    alloc: Global,
    search: &Search,
    lines: &[Bytes],
    share: Share,
    output: &mut W,
    faults: &mut E,
    options: &Options,
    plan: &Plan,
) -> Result<u8, RunError>
    requires search { search.now ≡ search_by plan.now lines.now }
    requires share { IsShare share }
    ensures most { IfOk result (λ status. status ≤ 2) }
    ensures told { IfOk result (λ status. Yields
        (part_of_lines options.now plan.now share lines.now) status
        (W.contents output.old) (W.contents output.new)) }
{
    if !is_fit(&search.letters, lines, faults)? {
        return Ok(2);
    }
    write_part(alloc, options, search, plan.steps, share, output, faults)
}

/// Reads a script as `explore_script` does, and runs the lists of one part of its exploration. It writes to `output` the
/// rows of what it found, which `merge_parts` joins to those of the other parts, and to `faults` why a script can't be
/// explored, and on long work how far it has come. It gives the status: 0 done, 2 where a line of the script is wrong, where
/// it has no letter, or where lists of one length reach the limit, since a part leaves none out.
///
/// # Errors
///
/// Want of memory, and the first call of the reader or of a writer that fails.
pub fn explore_part<R: Read + Drop, W: Write, E: Write>(
    alloc: Global,
    input: R,
    output: &mut W,
    faults: &mut E,
    options: &Options,
    plan: &Plan,
    share: Share,
) -> Result<u8, RunError>
    requires { IsShare share }
    ensures most { IfOk result (λ status. status ≤ 2) }
    ensures explores { IfOk result (λ status. ExploresPart options.now plan.now share
        (R.remaining input) status (W.contents output.old) (W.contents output.new)) }
{
    let text = whole_text(alloc, input)?;
    let lines = Lines::of_script(alloc, &text)?;
    let lines = lines.as_slice();
    let search = search_by(alloc, plan, lines)?;
    let status = run_script_with_faults(
        alloc,
        search.opening.as_slice(),
        &mut io::sink(),
        faults,
        options,
    )?;
    if status != 0 {
        return Ok(status);
    }
    explore_part_lines(alloc, &search, lines, share, output, faults, options, plan)
}
