//! The tables of one SP: one half of what a drive keeps.

ghost use Rattle.std.specs.Prelude.{◌≡◌, map, option_copied, is_some, IfOk, OnOk, Some, IsTrue};
ghost use Rattle.std.specs.Bool.{OnTrue, OnFalse};
ghost use Rattle.sp_tables.specs.Items.{item_at, with_item, item_of, AddsItems};
ghost use Rattle.sp_tables.specs.Halves.{last_items};

use crate::sp_rows::constants::ConstantRow;
use crate::sp_rows::copies::copy_runs;
use crate::sp_rows::listing::{ListedCell, list_runs};
use crate::sp_rows::rows::{
    AceRow, AuthorityRow, CPinRow, DataRemovalRow, LockingInfoRow, LockingRow, MbrControlRow,
    RangeKeyRow, SpRow, TableRow, TperInfoRow,
};
use crate::sp_rows::runs::{Run, find_cell, swap_in};
use sp_cells::{Cell, Column, Uid};
use std::alloc::{AllocError, Global};

/// The tables that a drive of the profile `Base` has not, each as runs of rows, and the rows whose cells no host sets.
#[derive(Drop)]
pub struct FieldTables {
    pub range_keys: Vec<Run<RangeKeyRow>>,
    pub locking_infos: Vec<Run<LockingInfoRow>>,
    pub tables: Vec<Run<TableRow>>,
    pub data_removals: Vec<Run<DataRemovalRow>>,
    pub constants: Vec<Run<ConstantRow>>,
}

#[tactic(auto, using(crate::proofs::sp_rows::ItemLemmas::joined))]
impl FieldTables {
    ghost use Rattle.sp_tables.specs.Halves.{field_items};

    /// The cell at a place.
    fn cell(&self, object: Uid, column: Column) -> Option<&Cell>
        ensures { option_copied result ≡ item_at (field_items self.now) object column }
    {
        if let Some(cell) = find_cell(self.range_keys.as_slice(), object, column) {
            return Some(cell);
        }
        if let Some(cell) = find_cell(self.locking_infos.as_slice(), object, column) {
            return Some(cell);
        }
        if let Some(cell) = find_cell(self.tables.as_slice(), object, column) {
            return Some(cell);
        }
        if let Some(cell) = find_cell(self.data_removals.as_slice(), object, column) {
            return Some(cell);
        }
        find_cell(self.constants.as_slice(), object, column)
    }

    /// Exchanges the cell at a place, where there is one.
    fn swap(&mut self, object: Uid, column: Column, cell: &mut Cell) -> bool
        ensures found { result ≡ is_some (item_at (field_items self.old) object column) }
        ensures old { OnTrue result (item_at (field_items self.old) object column ≡ Some cell.new) }
        ensures unchanged { OnFalse result (cell.new ≡ cell.old) }
        ensures changed { field_items self.new
            ≡ with_item (field_items self.old) object column cell.old }
    {
        swap_in(&mut self.range_keys, object, column, cell)
            || swap_in(&mut self.locking_infos, object, column, cell)
            || swap_in(&mut self.tables, object, column, cell)
            || swap_in(&mut self.data_removals, object, column, cell)
            || swap_in(&mut self.constants, object, column, cell)
    }

    /// Tables without rows.
    fn empty(alloc: Global) -> FieldTables {
        FieldTables {
            range_keys: Vec::new(alloc),
            locking_infos: Vec::new(alloc),
            tables: Vec::new(alloc),
            data_removals: Vec::new(alloc),
            constants: Vec::new(alloc),
        }
    }

    /// Makes the rows those of other tables.
    fn fill(&mut self, alloc: Global, tables: &FieldTables) -> Result<(), AllocError>
        ensures { OnOk result (field_items self.new ≡ field_items tables.now) }
    {
        self.range_keys = copy_runs(alloc, &tables.range_keys)?;
        self.locking_infos = copy_runs(alloc, &tables.locking_infos)?;
        self.tables = copy_runs(alloc, &tables.tables)?;
        self.data_removals = copy_runs(alloc, &tables.data_removals)?;
        self.constants = copy_runs(alloc, &tables.constants)?;
        Ok(())
    }

    /// Appends the cells.
    #[tactic(auto, using(crate::proofs::sp_rows::ListLemmas::listing))]
    fn list(&self, items: &mut Vec<ListedCell>) -> Result<(), AllocError>
        ensures { OnOk result (AddsItems items.old.items items.new.items (field_items self.now)) }
    {
        list_runs(items, &self.range_keys)?;
        list_runs(items, &self.locking_infos)?;
        list_runs(items, &self.tables)?;
        list_runs(items, &self.data_removals)?;
        list_runs(items, &self.constants)?;
        Ok(())
    }
}

/// Exchanges the cell at a place among the ACEs and the tables of the profile `Field`, where there is one.
#[tactic(auto, using(crate::proofs::sp_rows::ItemLemmas::joined))]
fn swap_last(
    aces: &mut Vec<Run<AceRow>>,
    field: &mut FieldTables,
    object: Uid,
    column: Column,
    cell: &mut Cell,
) -> bool
    ensures found { result
        ≡ is_some (item_at (last_items aces.old.items field.old) object column) }
    ensures old { OnTrue result
        (item_at (last_items aces.old.items field.old) object column ≡ Some cell.new) }
    ensures unchanged { OnFalse result (cell.new ≡ cell.old) }
    ensures changed { last_items aces.new.items field.new
        ≡ with_item (last_items aces.old.items field.old) object column cell.old }
{
    swap_in(aces, object, column, cell) || field.swap(object, column, cell)
}

/// The tables of one SP, each as runs of rows. A table that the SP lacks is empty.
#[derive(Drop)]
pub struct SpTables {
    pub sps: Vec<Run<SpRow>>,
    pub authorities: Vec<Run<AuthorityRow>>,
    pub pins: Vec<Run<CPinRow>>,
    pub ranges: Vec<Run<LockingRow>>,
    pub mbr_controls: Vec<Run<MbrControlRow>>,
    pub tper_infos: Vec<Run<TperInfoRow>>,
    pub aces: Vec<Run<AceRow>>,
    pub field: FieldTables,
}

#[tactic(auto, using(crate::proofs::sp_rows::ItemLemmas::joined))]
impl SpTables {
    ghost use Rattle.sp_tables.specs.Halves.{half_items};

    /// The cell at a place.
    pub fn cell(&self, object: Uid, column: Column) -> Option<&Cell>
        ensures { option_copied result ≡ item_at (half_items self.now) object column }
    {
        if let Some(cell) = find_cell(self.sps.as_slice(), object, column) {
            return Some(cell);
        }
        if let Some(cell) = find_cell(self.authorities.as_slice(), object, column) {
            return Some(cell);
        }
        if let Some(cell) = find_cell(self.pins.as_slice(), object, column) {
            return Some(cell);
        }
        if let Some(cell) = find_cell(self.ranges.as_slice(), object, column) {
            return Some(cell);
        }
        if let Some(cell) = find_cell(self.mbr_controls.as_slice(), object, column) {
            return Some(cell);
        }
        if let Some(cell) = find_cell(self.tper_infos.as_slice(), object, column) {
            return Some(cell);
        }
        if let Some(cell) = find_cell(self.aces.as_slice(), object, column) {
            return Some(cell);
        }
        self.field.cell(object, column)
    }

    /// Exchanges the cell at a place, where there is one.
    pub fn swap(&mut self, object: Uid, column: Column, cell: &mut Cell) -> bool
        ensures found { result ≡ is_some (item_at (half_items self.old) object column) }
        ensures old { OnTrue result (item_at (half_items self.old) object column ≡ Some cell.new) }
        ensures unchanged { OnFalse result (cell.new ≡ cell.old) }
        ensures changed { half_items self.new
            ≡ with_item (half_items self.old) object column cell.old }
    {
        swap_in(&mut self.sps, object, column, cell)
            || swap_in(&mut self.authorities, object, column, cell)
            || swap_in(&mut self.pins, object, column, cell)
            || swap_in(&mut self.ranges, object, column, cell)
            || swap_in(&mut self.mbr_controls, object, column, cell)
            || swap_in(&mut self.tper_infos, object, column, cell)
            || swap_last(&mut self.aces, &mut self.field, object, column, cell)
    }

    /// Tables without rows.
    fn empty(alloc: Global) -> SpTables {
        SpTables {
            sps: Vec::new(alloc),
            authorities: Vec::new(alloc),
            pins: Vec::new(alloc),
            ranges: Vec::new(alloc),
            mbr_controls: Vec::new(alloc),
            tper_infos: Vec::new(alloc),
            aces: Vec::new(alloc),
            field: FieldTables::empty(alloc),
        }
    }

    /// Makes the rows those of other tables.
    fn fill(&mut self, alloc: Global, tables: &SpTables) -> Result<(), AllocError>
        ensures { OnOk result (half_items self.new ≡ half_items tables.now) }
    {
        self.sps = copy_runs(alloc, &tables.sps)?;
        self.authorities = copy_runs(alloc, &tables.authorities)?;
        self.pins = copy_runs(alloc, &tables.pins)?;
        self.ranges = copy_runs(alloc, &tables.ranges)?;
        self.mbr_controls = copy_runs(alloc, &tables.mbr_controls)?;
        self.tper_infos = copy_runs(alloc, &tables.tper_infos)?;
        self.aces = copy_runs(alloc, &tables.aces)?;
        self.field.fill(alloc, &tables.field)?;
        Ok(())
    }

    /// The same tables once more.
    pub fn copy(&self, alloc: Global) -> Result<SpTables, AllocError>
        ensures { IfOk result (λ copied. half_items copied ≡ half_items self.now) }
    {
        let mut copied = SpTables::empty(alloc);
        copied.fill(alloc, self)?;
        Ok(copied)
    }

    /// Appends the cells.
    #[tactic(auto, using(crate::proofs::sp_rows::ListLemmas::listing))]
    fn list(&self, items: &mut Vec<ListedCell>) -> Result<(), AllocError>
        ensures { OnOk result (AddsItems items.old.items items.new.items (half_items self.now)) }
    {
        list_runs(items, &self.sps)?;
        list_runs(items, &self.authorities)?;
        list_runs(items, &self.pins)?;
        list_runs(items, &self.ranges)?;
        list_runs(items, &self.mbr_controls)?;
        list_runs(items, &self.tper_infos)?;
        list_runs(items, &self.aces)?;
        self.field.list(items)?;
        Ok(())
    }

    /// All cells, table by table.
    pub fn cells(&self, alloc: Global) -> Result<Vec<ListedCell>, AllocError>
        ensures { IfOk result (λ v. map item_of v.items ≡ half_items self.now) }
    {
        let mut items = Vec::new(alloc);
        self.list(&mut items)?;
        Ok(items)
    }
}
