//! The same rows once more, in memory of their own.

ghost use Rattle.std.specs.Prelude.{◌≡◌, map, IfOk};
ghost use Rattle.std.specs.List.{flat_map};
ghost use Rattle.sp_tables.specs.Runs.{run_items};

use crate::sp_rows::rows::Row;
use crate::sp_rows::runs::Run;
use std::alloc::{AllocError, Global};

/// The same rows once more.
fn copy_rows<R: Row + Drop>(alloc: Global, rows: &[R]) -> Result<Vec<R>, AllocError>
    ensures { IfOk result (λ v. map R.held v.items ≡ map R.held rows.now) }
{
    let mut copies = Vec::with_capacity(alloc, rows.len())?;
    for row in rows {
        copies.push(row.copy(alloc)?)?;
    }
    Ok(copies)
}

/// The same run once more.
#[tactic(auto, using(crate::proofs::sp_rows::CopyLemmas::same_run))]
fn copy_run<R: Row + Drop>(alloc: Global, run: &Run<R>) -> Result<Run<R>, AllocError>
    ensures { IfOk result (λ copied. run_items R.held copied ≡ run_items R.held run.now) }
{
    let rows = copy_rows(alloc, &run.rows)?;
    Ok(Run {
        first: run.first,
        rows,
    })
}

/// The same runs once more.
pub fn copy_runs<R: Row + Drop>(alloc: Global, runs: &[Run<R>]) -> Result<Vec<Run<R>>, AllocError>
    ensures { IfOk result (λ v. flat_map (run_items R.held) v.items
        ≡ flat_map (run_items R.held) runs.now) }
{
    let mut copies = Vec::with_capacity(alloc, runs.len())?;
    for run in runs {
        copies.push(copy_run(alloc, run)?)?;
    }
    Ok(copies)
}
