//! The rows of the tables: for each table of the standard a struct with its columns.

ghost use Rattle.std.specs.Prelude.{◌≡◌, List, [], ◌∷◌, option_copied, is_some, IfOk, OnOk, Some};
ghost use Rattle.std.specs.Bool.{OnTrue, OnFalse};
ghost use Rattle.sp_cells.specs.declared.names.Column.{Column};
ghost use Rattle.sp_cells.specs.declared.cells.Cell.{Cell};
ghost use Rattle.sp_tables.specs.Items.{column_at, with_column, row_items, AddsItems};

use crate::sp_rows::listing::{ListedCell, list_fields};
use sp_cells::{Cell, Column, Uid};
use std::alloc::{AllocError, Global};
use std::mem;

/// A row of a table, seen as its columns.
pub trait Row {
    ghost held: { Self → List (Column × Cell) };

    /// The cell of a column, where the row has it.
    fn cell(&self, column: Column) -> Option<&Cell>
        ensures { option_copied result ≡ column_at (held self.now) column };

    /// Exchanges the cell of a column, where the row has it.
    fn swap(&mut self, column: Column, cell: &mut Cell) -> bool
        ensures found { result ≡ is_some (column_at (held self.old) column) }
        ensures old { OnTrue result (column_at (held self.old) column ≡ Some cell.new) }
        ensures unchanged { OnFalse result (cell.new ≡ cell.old) }
        ensures changed { held self.new ≡ with_column (held self.old) column cell.old };

    /// Makes the cells those of another row.
    fn fill(&mut self, alloc: Global, row: &Self) -> Result<(), AllocError>
        ensures { OnOk result (held self.new ≡ held row.now) };

    /// The same row once more.
    fn copy(&self, alloc: Global) -> Result<Self, AllocError>
        ensures { IfOk result (λ row. held row ≡ held self.now) };

    /// Appends the cells, which are those of an object.
    fn list(&self, object: Uid, items: &mut Vec<ListedCell>) -> Result<(), AllocError>
        ensures { OnOk result
            (AddsItems items.old.items items.new.items (row_items object (held self.now))) };
}

/// The match of `cell`: which field has the cell of a column.
macro_rules! cell_of {
    ($row:ident, $column:ident; $($name:ident: $field:ident),+) => {
        match $column {
            $(Column::$name => Some(&$row.$field),)+
            _ => None,
        }
    };
}

/// The match of `swap`: the field that has the cell of a column exchanges it.
macro_rules! swap_of {
    ($row:ident, $column:ident, $cell:ident; $($name:ident: $field:ident),+) => {{
        match $column {
            $(Column::$name => mem::swap(&mut $row.$field, $cell),)+
            _ => return false,
        }
        true
    }};
}

/// The statements of `fill`: each field is the other row's once more.
macro_rules! fill_of {
    ($row:ident, $other:ident; $($name:ident: $field:ident),+) => {{
        $(put(&mut $row.$field, &$other.$field)?;)+
        Ok(())
    }};
}

/// The statements of `copy`: a row of zeros is filled.
macro_rules! copy_of {
    ($row:ident, $kind:ident, $alloc:ident; $($name:ident: $field:ident),+) => {{
        let mut copied = $kind { $($field: Cell::Number(0),)+ };
        copied.fill($alloc, $row)?;
        Ok(copied)
    }};
}

/// The statements of `list`: each field is one more cell.
macro_rules! list_of {
    ($row:ident, $object:ident, $items:ident; $($name:ident: $field:ident),+) => {{
        list_fields($items, $object, &[$((Column::$name, &$row.$field)),+])?;
        Ok(())
    }};
}

/// Puts the same cell once more in a place.
fn put(place: &mut Cell, cell: &Cell) -> Result<(), AllocError>
    ensures { OnOk result (place.new ≡ cell.now) }
{
    *place = cell.copy()?;
    Ok(())
}

/// A row of the SP table.
#[derive(Drop)]
pub struct SpRow {
    pub uid: Cell,
    pub name: Cell,
    pub life_cycle_state: Cell,
}

/// The columns of the table, and the field of each, for one of the two matches.
macro_rules! sp_columns {
    ($matched:ident $($given:ident),+) => {
        $matched!(
            $($given),+;
            UID: uid,
            NAME: name,
            LIFE_CYCLE_STATE: life_cycle_state
        )
    };
}

impl Row for SpRow {
    ghost use Rattle.sp_tables.specs.Columns.{sp_columns};

    ghost held = { sp_columns };

    fn cell(&self, column: Column) -> Option<&Cell> {
        sp_columns!(cell_of self, column)
    }

    fn swap(&mut self, column: Column, cell: &mut Cell) -> bool {
        sp_columns!(swap_of self, column, cell)
    }

    fn fill(&mut self, _alloc: Global, row: &SpRow) -> Result<(), AllocError> {
        sp_columns!(fill_of self, row)
    }

    fn copy(&self, alloc: Global) -> Result<SpRow, AllocError> {
        sp_columns!(copy_of self, SpRow, alloc)
    }

    fn list(&self, object: Uid, items: &mut Vec<ListedCell>) -> Result<(), AllocError> {
        sp_columns!(list_of self, object, items)
    }
}

/// A row of the Authority table.
#[derive(Drop)]
pub struct AuthorityRow {
    pub uid: Cell,
    pub name: Cell,
    pub common_name: Cell,
    pub is_class: Cell,
    pub class: Cell,
    pub enabled: Cell,
    pub operation: Cell,
    pub credential: Cell,
}

/// The columns of the table, and the field of each, for one of the two matches.
macro_rules! authority_columns {
    ($matched:ident $($given:ident),+) => {
        $matched!(
            $($given),+;
            UID: uid,
            NAME: name,
            COMMON_NAME: common_name,
            IS_CLASS: is_class,
            CLASS: class,
            ENABLED: enabled,
            OPERATION: operation,
            CREDENTIAL: credential
        )
    };
}

impl Row for AuthorityRow {
    ghost use Rattle.sp_tables.specs.Columns.{authority_columns};

    ghost held = { authority_columns };

    fn cell(&self, column: Column) -> Option<&Cell> {
        authority_columns!(cell_of self, column)
    }

    fn swap(&mut self, column: Column, cell: &mut Cell) -> bool {
        authority_columns!(swap_of self, column, cell)
    }

    fn fill(&mut self, _alloc: Global, row: &AuthorityRow) -> Result<(), AllocError> {
        authority_columns!(fill_of self, row)
    }

    fn copy(&self, alloc: Global) -> Result<AuthorityRow, AllocError> {
        authority_columns!(copy_of self, AuthorityRow, alloc)
    }

    fn list(&self, object: Uid, items: &mut Vec<ListedCell>) -> Result<(), AllocError> {
        authority_columns!(list_of self, object, items)
    }
}

/// A row of the C_PIN table.
#[derive(Drop)]
pub struct CPinRow {
    pub uid: Cell,
    pub name: Cell,
    pub common_name: Cell,
    pub pin: Cell,
    pub char_set: Cell,
    pub try_limit: Cell,
    pub tries: Cell,
    pub persistence: Cell,
}

/// The columns of the table, and the field of each, for one of the two matches.
macro_rules! c_pin_columns {
    ($matched:ident $($given:ident),+) => {
        $matched!(
            $($given),+;
            UID: uid,
            NAME: name,
            COMMON_NAME: common_name,
            PIN: pin,
            CHAR_SET: char_set,
            TRY_LIMIT: try_limit,
            TRIES: tries,
            PERSISTENCE: persistence
        )
    };
}

impl Row for CPinRow {
    ghost use Rattle.sp_tables.specs.Columns.{c_pin_columns};

    ghost held = { c_pin_columns };

    fn cell(&self, column: Column) -> Option<&Cell> {
        c_pin_columns!(cell_of self, column)
    }

    fn swap(&mut self, column: Column, cell: &mut Cell) -> bool {
        c_pin_columns!(swap_of self, column, cell)
    }

    fn fill(&mut self, _alloc: Global, row: &CPinRow) -> Result<(), AllocError> {
        c_pin_columns!(fill_of self, row)
    }

    fn copy(&self, alloc: Global) -> Result<CPinRow, AllocError> {
        c_pin_columns!(copy_of self, CPinRow, alloc)
    }

    fn list(&self, object: Uid, items: &mut Vec<ListedCell>) -> Result<(), AllocError> {
        c_pin_columns!(list_of self, object, items)
    }
}

/// A row of the Locking table: a range, or the global range.
#[derive(Drop)]
pub struct LockingRow {
    pub uid: Cell,
    pub name: Cell,
    pub common_name: Cell,
    pub start: Cell,
    pub len: Cell,
    pub read_lock_enabled: Cell,
    pub write_lock_enabled: Cell,
    pub read_locked: Cell,
    pub write_locked: Cell,
    pub lock_on_reset: Cell,
}

/// The columns of the table, and the field of each, for one of the two matches.
macro_rules! locking_columns {
    ($matched:ident $($given:ident),+) => {
        $matched!(
            $($given),+;
            UID: uid,
            NAME: name,
            COMMON_NAME: common_name,
            RANGE_START: start,
            RANGE_LENGTH: len,
            READ_LOCK_ENABLED: read_lock_enabled,
            WRITE_LOCK_ENABLED: write_lock_enabled,
            READ_LOCKED: read_locked,
            WRITE_LOCKED: write_locked,
            LOCK_ON_RESET: lock_on_reset
        )
    };
}

impl Row for LockingRow {
    ghost use Rattle.sp_tables.specs.Columns.{locking_columns};

    ghost held = { locking_columns };

    fn cell(&self, column: Column) -> Option<&Cell> {
        locking_columns!(cell_of self, column)
    }

    fn swap(&mut self, column: Column, cell: &mut Cell) -> bool {
        locking_columns!(swap_of self, column, cell)
    }

    fn fill(&mut self, _alloc: Global, row: &LockingRow) -> Result<(), AllocError> {
        locking_columns!(fill_of self, row)
    }

    fn copy(&self, alloc: Global) -> Result<LockingRow, AllocError> {
        locking_columns!(copy_of self, LockingRow, alloc)
    }

    fn list(&self, object: Uid, items: &mut Vec<ListedCell>) -> Result<(), AllocError> {
        locking_columns!(list_of self, object, items)
    }
}

/// The row of the MBRControl table.
#[derive(Drop)]
pub struct MbrControlRow {
    pub uid: Cell,
    pub enable: Cell,
    pub done: Cell,
    pub done_on_reset: Cell,
}

/// The columns of the table, and the field of each, for one of the two matches.
macro_rules! mbr_control_columns {
    ($matched:ident $($given:ident),+) => {
        $matched!(
            $($given),+;
            UID: uid,
            MBR_ENABLE: enable,
            MBR_DONE: done,
            MBR_DONE_ON_RESET: done_on_reset
        )
    };
}

impl Row for MbrControlRow {
    ghost use Rattle.sp_tables.specs.Columns.{mbr_control_columns};

    ghost held = { mbr_control_columns };

    fn cell(&self, column: Column) -> Option<&Cell> {
        mbr_control_columns!(cell_of self, column)
    }

    fn swap(&mut self, column: Column, cell: &mut Cell) -> bool {
        mbr_control_columns!(swap_of self, column, cell)
    }

    fn fill(&mut self, _alloc: Global, row: &MbrControlRow) -> Result<(), AllocError> {
        mbr_control_columns!(fill_of self, row)
    }

    fn copy(&self, alloc: Global) -> Result<MbrControlRow, AllocError> {
        mbr_control_columns!(copy_of self, MbrControlRow, alloc)
    }

    fn list(&self, object: Uid, items: &mut Vec<ListedCell>) -> Result<(), AllocError> {
        mbr_control_columns!(list_of self, object, items)
    }
}

/// The row of the TPerInfo table.
#[derive(Drop)]
pub struct TperInfoRow {
    pub uid: Cell,
    pub programmatic_reset_enable: Cell,
}

/// The columns of the table, and the field of each, for one of the two matches.
macro_rules! tper_info_columns {
    ($matched:ident $($given:ident),+) => {
        $matched!(
            $($given),+;
            UID: uid,
            PROGRAMMATIC_RESET_ENABLE: programmatic_reset_enable
        )
    };
}

impl Row for TperInfoRow {
    ghost use Rattle.sp_tables.specs.Columns.{tper_info_columns};

    ghost held = { tper_info_columns };

    fn cell(&self, column: Column) -> Option<&Cell> {
        tper_info_columns!(cell_of self, column)
    }

    fn swap(&mut self, column: Column, cell: &mut Cell) -> bool {
        tper_info_columns!(swap_of self, column, cell)
    }

    fn fill(&mut self, _alloc: Global, row: &TperInfoRow) -> Result<(), AllocError> {
        tper_info_columns!(fill_of self, row)
    }

    fn copy(&self, alloc: Global) -> Result<TperInfoRow, AllocError> {
        tper_info_columns!(copy_of self, TperInfoRow, alloc)
    }

    fn list(&self, object: Uid, items: &mut Vec<ListedCell>) -> Result<(), AllocError> {
        tper_info_columns!(list_of self, object, items)
    }
}

/// A row of the ACE table: an access control element, which may allow methods.
#[derive(Drop)]
pub struct AceRow {
    pub uid: Cell,
    pub name: Cell,
    pub common_name: Cell,
    pub boolean_expr: Cell,
    pub columns: Cell,
}

/// The columns of the table, and the field of each, for one of the two matches.
macro_rules! ace_columns {
    ($matched:ident $($given:ident),+) => {
        $matched!(
            $($given),+;
            UID: uid,
            NAME: name,
            COMMON_NAME: common_name,
            BOOLEAN_EXPR: boolean_expr,
            COLUMNS: columns
        )
    };
}

impl Row for AceRow {
    ghost use Rattle.sp_tables.specs.Columns.{ace_columns};

    ghost held = { ace_columns };

    fn cell(&self, column: Column) -> Option<&Cell> {
        ace_columns!(cell_of self, column)
    }

    fn swap(&mut self, column: Column, cell: &mut Cell) -> bool {
        ace_columns!(swap_of self, column, cell)
    }

    fn fill(&mut self, _alloc: Global, row: &AceRow) -> Result<(), AllocError> {
        ace_columns!(fill_of self, row)
    }

    fn copy(&self, alloc: Global) -> Result<AceRow, AllocError> {
        ace_columns!(copy_of self, AceRow, alloc)
    }

    fn list(&self, object: Uid, items: &mut Vec<ListedCell>) -> Result<(), AllocError> {
        ace_columns!(list_of self, object, items)
    }
}

/// The column of the Locking table that tells the key of a range.
#[derive(Drop)]
pub struct RangeKeyRow {
    pub active_key: Cell,
}

/// The columns, and the field of each, for one of the two matches.
macro_rules! range_key_columns {
    ($matched:ident $($given:ident),+) => {
        $matched!(
            $($given),+;
            ACTIVE_KEY: active_key
        )
    };
}

impl Row for RangeKeyRow {
    ghost use Rattle.sp_tables.specs.Columns.{range_key_columns};

    ghost held = { range_key_columns };

    fn cell(&self, column: Column) -> Option<&Cell> {
        range_key_columns!(cell_of self, column)
    }

    fn swap(&mut self, column: Column, cell: &mut Cell) -> bool {
        range_key_columns!(swap_of self, column, cell)
    }

    fn fill(&mut self, _alloc: Global, row: &RangeKeyRow) -> Result<(), AllocError> {
        range_key_columns!(fill_of self, row)
    }

    fn copy(&self, alloc: Global) -> Result<RangeKeyRow, AllocError> {
        range_key_columns!(copy_of self, RangeKeyRow, alloc)
    }

    fn list(&self, object: Uid, items: &mut Vec<ListedCell>) -> Result<(), AllocError> {
        range_key_columns!(list_of self, object, items)
    }
}

/// The row of the LockingInfo table.
#[derive(Drop)]
pub struct LockingInfoRow {
    pub uid: Cell,
    pub name: Cell,
    pub version: Cell,
    pub encrypt_support: Cell,
    pub max_ranges: Cell,
    pub max_re_encryptions: Cell,
    pub keys_available_cfg: Cell,
    pub alignment_required: Cell,
    pub logical_block_size: Cell,
    pub alignment_granularity: Cell,
    pub lowest_aligned_lba: Cell,
}

/// The columns of the table, and the field of each, for one of the two matches.
macro_rules! locking_info_columns {
    ($matched:ident $($given:ident),+) => {
        $matched!(
            $($given),+;
            UID: uid,
            NAME: name,
            VERSION: version,
            ENCRYPT_SUPPORT: encrypt_support,
            MAX_RANGES: max_ranges,
            MAX_RE_ENCRYPTIONS: max_re_encryptions,
            KEYS_AVAILABLE_CFG: keys_available_cfg,
            ALIGNMENT_REQUIRED: alignment_required,
            LOGICAL_BLOCK_SIZE: logical_block_size,
            ALIGNMENT_GRANULARITY: alignment_granularity,
            LOWEST_ALIGNED_LBA: lowest_aligned_lba
        )
    };
}

impl Row for LockingInfoRow {
    ghost use Rattle.sp_tables.specs.Columns.{locking_info_columns};

    ghost held = { locking_info_columns };

    fn cell(&self, column: Column) -> Option<&Cell> {
        locking_info_columns!(cell_of self, column)
    }

    fn swap(&mut self, column: Column, cell: &mut Cell) -> bool {
        locking_info_columns!(swap_of self, column, cell)
    }

    fn fill(&mut self, _alloc: Global, row: &LockingInfoRow) -> Result<(), AllocError> {
        locking_info_columns!(fill_of self, row)
    }

    fn copy(&self, alloc: Global) -> Result<LockingInfoRow, AllocError> {
        locking_info_columns!(copy_of self, LockingInfoRow, alloc)
    }

    fn list(&self, object: Uid, items: &mut Vec<ListedCell>) -> Result<(), AllocError> {
        locking_info_columns!(list_of self, object, items)
    }
}

/// A row of the Table table, which tells of another table.
#[derive(Drop)]
pub struct TableRow {
    pub uid: Cell,
    pub name: Cell,
    pub common_name: Cell,
    pub kind: Cell,
    pub rows: Cell,
    pub mandatory_write_granularity: Cell,
    pub recommended_access_granularity: Cell,
}

/// The columns of the table, and the field of each, for one of the two matches.
macro_rules! table_columns {
    ($matched:ident $($given:ident),+) => {
        $matched!(
            $($given),+;
            UID: uid,
            NAME: name,
            COMMON_NAME: common_name,
            KIND: kind,
            ROWS: rows,
            MANDATORY_WRITE_GRANULARITY: mandatory_write_granularity,
            RECOMMENDED_ACCESS_GRANULARITY: recommended_access_granularity
        )
    };
}

impl Row for TableRow {
    ghost use Rattle.sp_tables.specs.Columns.{table_columns};

    ghost held = { table_columns };

    fn cell(&self, column: Column) -> Option<&Cell> {
        table_columns!(cell_of self, column)
    }

    fn swap(&mut self, column: Column, cell: &mut Cell) -> bool {
        table_columns!(swap_of self, column, cell)
    }

    fn fill(&mut self, _alloc: Global, row: &TableRow) -> Result<(), AllocError> {
        table_columns!(fill_of self, row)
    }

    fn copy(&self, alloc: Global) -> Result<TableRow, AllocError> {
        table_columns!(copy_of self, TableRow, alloc)
    }

    fn list(&self, object: Uid, items: &mut Vec<ListedCell>) -> Result<(), AllocError> {
        table_columns!(list_of self, object, items)
    }
}

/// The row of the DataRemovalMechanism table.
#[derive(Drop)]
pub struct DataRemovalRow {
    pub uid: Cell,
    pub active: Cell,
}

/// The columns of the table, and the field of each, for one of the two matches.
macro_rules! data_removal_columns {
    ($matched:ident $($given:ident),+) => {
        $matched!(
            $($given),+;
            UID: uid,
            ACTIVE_DATA_REMOVAL_MECHANISM: active
        )
    };
}

impl Row for DataRemovalRow {
    ghost use Rattle.sp_tables.specs.Columns.{data_removal_columns};

    ghost held = { data_removal_columns };

    fn cell(&self, column: Column) -> Option<&Cell> {
        data_removal_columns!(cell_of self, column)
    }

    fn swap(&mut self, column: Column, cell: &mut Cell) -> bool {
        data_removal_columns!(swap_of self, column, cell)
    }

    fn fill(&mut self, _alloc: Global, row: &DataRemovalRow) -> Result<(), AllocError> {
        data_removal_columns!(fill_of self, row)
    }

    fn copy(&self, alloc: Global) -> Result<DataRemovalRow, AllocError> {
        data_removal_columns!(copy_of self, DataRemovalRow, alloc)
    }

    fn list(&self, object: Uid, items: &mut Vec<ListedCell>) -> Result<(), AllocError> {
        data_removal_columns!(list_of self, object, items)
    }
}
