//! Runs of rows: rows whose names follow one another, so that a row is found by its name alone.

ghost use Rattle.std.specs.Prelude.{◌≡◌, ◌≤◌, ◌<◌, ◌+◌, ◌-◌, List, length, MatchOption, option_copied, is_some, Some, None, true};
ghost use Rattle.std.specs.List.{flat_map};
ghost use Rattle.std.specs.Bool.{OnTrue, OnFalse};
ghost use Rattle.sp_tables.specs.Items.{item_at, with_item, rows_from};
ghost use Rattle.sp_tables.specs.Runs.{run_items, FindsRun};

use crate::sp_rows::rows::Row;
use sp_cells::{Cell, Column, Uid};

/// Rows whose names follow one another.
#[derive(Drop)]
pub struct Run<R> {
    /// The name of the first row.
    pub first: Uid,

    pub rows: Vec<R>,
}

impl<R: Row> Run<R> {
    /// The place of an object among the rows.
    fn place(&self, object: Uid) -> Option<usize>
        ensures { MatchOption result
            (((self.now.first.0 ≤ object.0)
            × (object.0 - self.now.first.0 < length self.now.rows.items)) → ⊥)
            (λ i. (object.0 ≡ self.now.first.0 + i) × (i < length self.now.rows.items)) }
    {
        if object.0 < self.first.0 || object.0 - self.first.0 >= self.rows.len() as u64 {
            return None;
        }
        Some((object.0 - self.first.0) as usize)
    }

    /// The cell, where one of the rows has it.
    #[tactic(auto, using(crate::proofs::sp_rows::RunLemmas::placed))]
    fn cell(&self, object: Uid, column: Column) -> Option<&Cell>
        ensures { option_copied result ≡ item_at (run_items R.held self.now) object column }
    {
        match self.place(object) {
            Some(i) => self.rows[i].cell(column),
            None => None,
        }
    }

    /// Exchanges the cell, where one of the rows has it.
    #[tactic(auto, using(crate::proofs::sp_rows::RunLemmas::placed))]
    fn swap(&mut self, object: Uid, column: Column, cell: &mut Cell) -> bool
        requires { is_some (item_at (run_items R.held self.old) object column) ≡ true }
        ensures found { result ≡ is_some (item_at (run_items R.held self.old) object column) }
        ensures old { OnTrue result
            (item_at (run_items R.held self.old) object column ≡ Some cell.new) }
        ensures unchanged { OnFalse result (cell.new ≡ cell.old) }
        ensures changed { run_items R.held self.new
            ≡ with_item (run_items R.held self.old) object column cell.old }
    {
        let Some(i) = self.place(object) else {
            unreachable!()
        };
        self.rows[i].swap(column, cell)
    }
}

/// Where the first run stands that has this cell.
#[tactic(auto, using(crate::proofs::sp_rows::RunLemmas::searching))]
fn index_of<R: Row>(runs: &Vec<Run<R>>, object: Uid, column: Column) -> Option<usize>
    ensures { MatchOption result
        (item_at (flat_map (run_items R.held) runs.now.items) object column ≡ None)
        (FindsRun (run_items R.held) runs.now.items object column) }
{
    for (i, run) in runs.iter().enumerate() {
        if run.cell(object, column).is_some() {
            return Some(i);
        }
    }
    None
}

/// The cell, where one of the rows of a table has it.
#[tactic(auto, using(crate::proofs::sp_rows::RunLemmas::searching))]
pub fn find_cell<R: Row>(runs: &[Run<R>], object: Uid, column: Column) -> Option<&Cell>
    ensures { option_copied result ≡ item_at (flat_map (run_items R.held) runs.now) object column }
{
    for run in runs {
        if let Some(cell) = run.cell(object, column) {
            return Some(cell);
        }
    }
    None
}

/// Exchanges the cell, where one of the rows of a table has it.
#[tactic(auto, using(crate::proofs::sp_rows::RunLemmas::searching))]
pub fn swap_in<R: Row>(runs: &mut Vec<Run<R>>, object: Uid, column: Column, cell: &mut Cell) -> bool
    ensures found { result
        ≡ is_some (item_at (flat_map (run_items R.held) runs.old.items) object column) }
    ensures old { OnTrue result
        (item_at (flat_map (run_items R.held) runs.old.items) object column ≡ Some cell.new) }
    ensures unchanged { OnFalse result (cell.new ≡ cell.old) }
    ensures changed { flat_map (run_items R.held) runs.new.items
        ≡ with_item (flat_map (run_items R.held) runs.old.items) object column cell.old }
{
    match index_of(runs, object, column) {
        Some(i) => runs[i].swap(object, column, cell),
        None => false,
    }
}
