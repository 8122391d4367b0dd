//! The rows of a table of a new drive, as a table of the code has them.

ghost use Rattle.std.specs.Prelude.{◌≡◌, ◌+◌, ℕ, List, ◌++◌, IfOk, OnOk};
ghost use Rattle.std.specs.List.{flat_map};
ghost use Rattle.sp_cells.specs.declared.names.Column.{Column};
ghost use Rattle.sp_cells.specs.declared.cells.Cell.{Cell};
ghost use Rattle.sp_cells.specs.Names.{uid};
ghost use Rattle.sp_tables.specs.Items.{Item};
ghost use Rattle.sp_tables.specs.Factory.{AddsRows, IsFamily, family};
ghost use Rattle.sp_tables.specs.Entries.{is_in, entry_items};

use crate::sp_rows::adding::push_run;
use crate::sp_rows::new_rows::push_row;
use crate::sp_rows::{Row, Run};
use basics::Profile;
use sp_cells::Uid;
use std::alloc::{AllocError, Global};

/// The drives that have the rows of an entry.
pub(crate) enum Drives {
    All,
    Base,
    /// Those of `Field` and of `Opal`, which has all of it.
    Field,
    Opal,
    /// All but those of `Opal`.
    ButOpal,
}

impl Drives {
    /// A drive of this profile is one of them.
    pub(crate) fn has(&self, profile: Profile) -> bool
        ensures { result ≡ is_in self.now profile }
    {
        match self {
            Drives::All => true,
            Drives::Base => !profile.has_field(),
            Drives::Field => profile.has_field(),
            Drives::Opal => profile == Profile::Opal,
            Drives::ButOpal => profile != Profile::Opal,
        }
    }
}

/// Rows, and the drives that have them.
pub(crate) struct Entry<E> {
    pub(crate) drives: Drives,
    pub(crate) rows: E,
}

/// What adds rows to a table: the cells that it adds are its `items`.
pub(crate) trait Adds<R: Row + Drop> {
    ghost items: { Self → List Item };

    /// Adds its rows.
    fn add(&self, alloc: Global, runs: &mut Vec<Run<R>>) -> Result<(), AllocError>
        ensures { OnOk result (AddsRows R.held runs.old.items runs.new.items (items self.now)) };
}

/// Rows that have a number, from 1 on: their names follow one another behind that of `base`, and `values` are the
/// cells of each.
pub(crate) trait Numbered<R: Row + Drop> {
    ghost base: { Self → ℕ };

    ghost values: { Self → ℕ → List (Column × Cell) };

    /// The name of the first.
    fn first(&self) -> Uid
        ensures { result ≡ uid (base self.now + 1) };

    /// The row of a number.
    fn row(&self, alloc: Global, n: u8) -> Result<R, AllocError>
        ensures { IfOk result (λ r. R.held r ≡ values self.now n) };
}

/// The rows of the numbers 1 to `count`.
fn rows_of<R: Row + Drop, F: Numbered<R>>(
    alloc: Global,
    family: &F,
    count: u8,
) -> Result<Vec<R>, AllocError>
    ensures { IfOk result (λ rows.
        IsFamily R.held (F.base family.now) (F.values family.now) count rows.items) }
{
    let mut rows = Vec::with_capacity(alloc, usize::from(count))?;
    for i in 0..count {
        push_row(&mut rows, family.row(alloc, i + 1)?)?;
    }
    Ok(rows)
}

/// Adds the rows of the numbers 1 to `count`.
pub(crate) fn push_family<R: Row + Drop, F: Numbered<R>>(
    alloc: Global,
    runs: &mut Vec<Run<R>>,
    members: &F,
    count: u8,
) -> Result<(), AllocError>
    ensures { OnOk result (AddsRows R.held runs.old.items runs.new.items
        (family (F.base members.now) (F.values members.now) count)) }
{
    let rows = rows_of(alloc, members, count)?;
    push_run(runs, members.first(), rows)?;
    Ok(())
}

/// Adds the rows of an entry, where the profile has them.
fn push_entry<R: Row + Drop, E: Adds<R>>(
    alloc: Global,
    profile: Profile,
    runs: &mut Vec<Run<R>>,
    entry: &Entry<E>,
) -> Result<(), AllocError>
    ensures { OnOk result (AddsRows R.held runs.old.items runs.new.items
        (entry_items E.items profile entry.now)) }
{
    if entry.drives.has(profile) {
        entry.rows.add(alloc, runs)?;
    }
    Ok(())
}

/// Adds the rows of all entries.
pub(crate) fn push_entries<R: Row + Drop, E: Adds<R>>(
    alloc: Global,
    profile: Profile,
    runs: &mut Vec<Run<R>>,
    entries: &[Entry<E>],
) -> Result<(), AllocError>
    ensures { OnOk result (AddsRows R.held runs.old.items runs.new.items
        (flat_map (entry_items E.items profile) entries.now)) }
{
    for entry in entries {
        push_entry(alloc, profile, runs, entry)?;
    }
    Ok(())
}
