//! Rows whose cells no host sets, and further columns of other rows: a list of cells, which a table of the code writes.

ghost use Rattle.std.specs.Prelude.{◌≡◌, ◌+◌, List, IfOk, OnOk, option_copied, is_some, Some, string_bytes};
ghost use Rattle.std.specs.Bool.{OnTrue, OnFalse};
ghost use Rattle.sp_tables.specs.Items.{column_at, with_column, row_items};
ghost use Rattle.sp_tables.specs.Columns.{constant_columns};
ghost use Rattle.sp_tables.specs.Factory.{AddsRows, new_key};
ghost use Rattle.sp_tables.specs.Entries.{constant_cell, constant_cells};

use crate::sp_rows::adding::push_one;
use crate::sp_rows::entries::{Adds, Numbered, push_family};
use crate::sp_rows::families::AUTHORITIES;
use crate::sp_rows::listing::{ListedCell, list_cells};
use crate::sp_rows::new_rows::{no_text, text};
use crate::sp_rows::{Row, Run};
use sp_cells::{Bytes, Cell, Column, RANGES, ResetTypes, Uid, copy_cells};
use std::alloc::{AllocError, Global};
use std::mem;

/// A row whose cells no host sets, or further columns of one.
#[derive(Drop)]
pub struct ConstantRow {
    pub cells: Vec<(Column, Cell)>,
}

/// The cell of a column, where it is among these.
fn cell_among(cells: &[(Column, Cell)], column: Column) -> Option<&Cell>
    ensures { option_copied result ≡ column_at cells.now column }
{
    for held in cells {
        if held.0 == column {
            return Some(&held.1);
        }
    }
    None
}

/// Exchanges the cell of a column, where it is among these.
fn swap_among(cells: &mut Vec<(Column, Cell)>, column: Column, cell: &mut Cell) -> bool
    ensures found { result ≡ is_some (column_at cells.old.items column) }
    ensures old { OnTrue result (column_at cells.old.items column ≡ Some cell.new) }
    ensures unchanged { OnFalse result (cell.new ≡ cell.old) }
    ensures changed { cells.new.items ≡ with_column cells.old.items column cell.old }
{
    for i in 0..cells.len() {
        if cells[i].0 == column {
            mem::swap(&mut cells[i].1, cell);
            return true;
        }
    }
    false
}

impl Row for ConstantRow {
    ghost use Rattle.sp_tables.specs.Columns.{constant_columns};

    ghost held = { constant_columns };

    fn cell(&self, column: Column) -> Option<&Cell> {
        cell_among(self.cells.as_slice(), column)
    }

    fn swap(&mut self, column: Column, cell: &mut Cell) -> bool {
        swap_among(&mut self.cells, column, cell)
    }

    fn fill(&mut self, alloc: Global, row: &ConstantRow) -> Result<(), AllocError> {
        self.cells = copy_cells(alloc, &row.cells)?;
        Ok(())
    }

    fn copy(&self, alloc: Global) -> Result<ConstantRow, AllocError> {
        let cells = copy_cells(alloc, &self.cells)?;
        Ok(ConstantRow { cells })
    }

    fn list(&self, object: Uid, items: &mut Vec<ListedCell>) -> Result<(), AllocError> {
        list_cells(items, object, &self.cells)?;
        Ok(())
    }
}

/// The value of a cell that no host sets.
pub(crate) enum Constant {
    Number(u64),
    Text(&'static str),
    Bytes(&'static [u8]),
    Uid(Uid),
    Resets(ResetTypes),
    OneName(&'static str),
}

impl Constant {
    /// The cell that has the value.
    fn cell(&self, alloc: Global) -> Result<Cell, AllocError>
        ensures { IfOk result (λ cell. cell ≡ constant_cell self.now) }
    {
        Ok(match self {
            Constant::Number(number) => Cell::Number(*number),
            Constant::Text(text) => Cell::Bytes(copied(alloc, text.as_bytes())?),
            Constant::Bytes(bytes) => Cell::Bytes(copied(alloc, bytes)?),
            Constant::Uid(object) => Cell::Uid(*object),
            Constant::Resets(resets) => Cell::Numbers(*resets),
            Constant::OneName(name) => Cell::OneName(copied(alloc, name.as_bytes())?),
        })
    }
}

/// The same bytes once more.
fn copied(alloc: Global, bytes: &[u8]) -> Result<Bytes, AllocError>
    ensures { IfOk result (λ copy. copy ≡ bytes.now) }
{
    let bytes = bytes.to_vec(alloc)?;
    Ok(Bytes::from_vec(bytes))
}

/// The row of these values.
fn constant_row(alloc: Global, values: &[(Column, Constant)]) -> Result<ConstantRow, AllocError>
    ensures { IfOk result (λ r. constant_columns r ≡ constant_cells values.now) }
{
    let mut cells = Vec::with_capacity(alloc, values.len())?;
    for (column, value) in values {
        cells.push((*column, value.cell(alloc)?))?;
    }
    Ok(ConstantRow { cells })
}

/// The cells of one row.
pub(crate) struct OneRow {
    pub(crate) object: Uid,
    pub(crate) cells: &'static [(Column, Constant)],
}

/// The cells that each authority of a family has: in what its name ends where its number is 0, how many they are, and
/// the cells.
pub(crate) struct AuthorityCells {
    pub(crate) number: u32,
    pub(crate) count: u8,
    pub(crate) cells: &'static [(Column, Constant)],
}

/// The cells of an entry.
pub(crate) enum Constants {
    One(OneRow),
    OfAuthorities(AuthorityCells),
    /// The keys of the numbered ranges.
    OfKeys,
}

impl Numbered<ConstantRow> for AuthorityCells {
    ghost use Rattle.sp_cells.specs.Names.{authority_table};
    ghost use Rattle.sp_tables.specs.Entries.{row_base, constant_cells};

    ghost base = { λ it. row_base authority_table + it.number };

    ghost values = { λ it _. constant_cells it.cells.now };

    fn first(&self) -> Uid {
        Uid(AUTHORITIES + u64::from(self.number) + 1)
    }

    fn row(&self, alloc: Global, _n: u8) -> Result<ConstantRow, AllocError> {
        constant_row(alloc, self.cells)
    }
}

/// What Mode is of a key in XTS mode.
pub(crate) const XTS: u64 = 7;

/// The row of a key, without the key itself.
fn key_row(alloc: Global, object: Uid, name: String) -> Result<ConstantRow, AllocError>
    ensures { IfOk result (λ r. constant_columns r ≡ new_key object (string_bytes name)) }
{
    let mut cells = Vec::with_capacity(alloc, 4)?;
    cells.push((Column::UID, Cell::Uid(object)))?;
    cells.push((Column::NAME, text(name)))?;
    cells.push((Column::COMMON_NAME, no_text(alloc)))?;
    cells.push((Column::MODE, Cell::Number(XTS)))?;
    Ok(ConstantRow { cells })
}

/// The keys of the numbered ranges.
struct Keys;

impl Numbered<ConstantRow> for Keys {
    ghost use Rattle.sp_cells.specs.Names.{key_base};
    ghost use Rattle.sp_tables.specs.Factory.{numbered_key};

    ghost base = { λ it. key_base };

    ghost values = { λ it. numbered_key };

    fn first(&self) -> Uid {
        Uid::key(1)
    }

    fn row(&self, alloc: Global, n: u8) -> Result<ConstantRow, AllocError> {
        let name = format!(in alloc; "K_AES_256_Range{n}_Key")?;
        let row = key_row(alloc, Uid::key(n), name)?;
        Ok(row)
    }
}

impl Adds<ConstantRow> for Constants {
    ghost use Rattle.sp_tables.specs.Entries.{constant_items};

    ghost items = { constant_items };

    fn add(&self, alloc: Global, runs: &mut Vec<Run<ConstantRow>>) -> Result<(), AllocError> {
        match self {
            Constants::One(it) => push_constants(alloc, runs, it)?,
            Constants::OfAuthorities(members) => push_family(alloc, runs, members, members.count)?,
            Constants::OfKeys => push_family(alloc, runs, &Keys, RANGES)?,
        }
        Ok(())
    }
}

/// Adds the cells of one row.
fn push_constants(
    alloc: Global,
    runs: &mut Vec<Run<ConstantRow>>,
    it: &OneRow,
) -> Result<(), AllocError>
    ensures { OnOk result (AddsRows constant_columns runs.old.items runs.new.items
        (row_items it.now.object (constant_cells it.now.cells.now))) }
{
    let row = constant_row(alloc, it.cells)?;
    push_one(alloc, runs, it.object, row)?;
    Ok(())
}
