//! A new row of each table.

ghost use Rattle.std.specs.Prelude.{◌≡◌, ◌+◌, ◌≤◌, ◌<◌, ◌^◌, [], ◌∷◌, ◌++◌, IfOk, OnOk, string_bytes, map, true, false};
ghost use Rattle.std.specs.List.{flat_map};
ghost use Rattle.sp_cells.specs.declared.cells.Cell.TheVariants as cells;
ghost use Rattle.sp_cells.specs.declared.cells.Element.TheVariants as elements;
ghost use Rattle.sp_cells.specs.Names.{uid, ace_uid};
ghost use Rattle.sp_tables.specs.Items.{row_items, rows_from};
ghost use Rattle.sp_tables.specs.Runs.{run_items};
ghost use Rattle.sp_tables.specs.Columns.{sp_columns, authority_columns, c_pin_columns, locking_columns, mbr_control_columns, tper_info_columns, ace_columns, range_key_columns, locking_info_columns, table_columns, data_removal_columns};
ghost use Rattle.sp_tables.specs.Factory.{new_sp, new_group, new_member, new_pin, new_range, new_mbr_control, new_tper_info, new_ace, new_range_key, new_locking_info, new_byte_table, new_data_removal};

use crate::sp_rows::{
    AceRow, AuthorityRow, CPinRow, DataRemovalRow, LockingInfoRow, LockingRow, MbrControlRow,
    RangeKeyRow, Row, Run, SpRow, TableRow, TperInfoRow,
};
use arrayvec::ArrayVec;
use shadow_mbr::SECTOR_SIZE;
use sp_cells::limits::CRYPTOGRAPHIC_ERASE;
use sp_cells::{Bytes, Cell, Column, Columns, Element, Expr, RANGES, ResetTypes, Uid};
use std::alloc::{AllocError, Global};

/// A name as a cell.
pub fn text(name: String) -> Cell
    ensures { result ≡ cells.Bytes (string_bytes name) }
{
    Cell::Bytes(Bytes::from_vec(name.into_bytes()))
}

/// A CommonName that no host has set.
pub fn no_text(alloc: Global) -> Cell
    ensures { result ≡ cells.Bytes [] }
{
    Cell::Bytes(Bytes::from_vec(Vec::new(alloc)))
}

/// A row of the SP table.
pub fn sp_row(object: Uid, name: String, state: u64) -> SpRow
    ensures { sp_columns result ≡ new_sp object (string_bytes name) state }
{
    SpRow {
        uid: Cell::Uid(object),
        name: text(name),
        life_cycle_state: Cell::Number(state),
    }
}

/// Anybody, or a class: always enabled, with no PIN.
pub fn group(alloc: Global, object: Uid, name: String, is_class: u64) -> AuthorityRow
    ensures { authority_columns result ≡ new_group object (string_bytes name) is_class }
{
    AuthorityRow {
        uid: Cell::Uid(object),
        name: text(name),
        common_name: no_text(alloc),
        is_class: Cell::Number(is_class),
        class: Cell::Uid(Uid::NONE),
        enabled: Cell::Number(1),
        operation: Cell::Number(0),
        credential: Cell::Uid(Uid::NONE),
    }
}

/// An authority that signs in with a PIN.
pub fn member(
    alloc: Global,
    object: Uid,
    name: String,
    class: Uid,
    enabled: u64,
    credential: Uid,
) -> AuthorityRow
    ensures { authority_columns result
        ≡ new_member object (string_bytes name) class enabled credential }
{
    AuthorityRow {
        uid: Cell::Uid(object),
        name: text(name),
        common_name: no_text(alloc),
        is_class: Cell::Number(0),
        class: Cell::Uid(class),
        enabled: Cell::Number(enabled),
        operation: Cell::Number(1),
        credential: Cell::Uid(credential),
    }
}

/// A C_PIN row with no wrong attempt.
pub fn pin(
    alloc: Global,
    object: Uid,
    name: String,
    secret: &[u8],
    limit: u64,
) -> Result<CPinRow, AllocError>
    ensures { IfOk result
        (λ r. c_pin_columns r ≡ new_pin object (string_bytes name) secret.now limit) }
{
    let secret = secret.to_vec(alloc)?;
    Ok(CPinRow {
        uid: Cell::Uid(object),
        name: text(name),
        common_name: no_text(alloc),
        pin: Cell::Bytes(Bytes::from_vec(secret)),
        char_set: Cell::Uid(Uid::NONE),
        try_limit: Cell::Number(limit),
        tries: Cell::Number(0),
        persistence: Cell::Number(0),
    })
}

/// The set that has the power cycle alone.
fn power_cycle_alone() -> Cell
    ensures { result ≡ cells.Numbers
        (record { power_cycle = true; hardware = false; programmatic = false }) }
{
    Cell::Numbers(ResetTypes {
        power_cycle: true,
        hardware: false,
        programmatic: false,
    })
}

/// A range that covers nothing, or the global range.
pub fn range(alloc: Global, object: Uid, name: String) -> LockingRow
    ensures { locking_columns result ≡ new_range object (string_bytes name) }
{
    LockingRow {
        uid: Cell::Uid(object),
        name: text(name),
        common_name: no_text(alloc),
        start: Cell::Number(0),
        len: Cell::Number(0),
        read_lock_enabled: Cell::Number(0),
        write_lock_enabled: Cell::Number(0),
        read_locked: Cell::Number(0),
        write_locked: Cell::Number(0),
        lock_on_reset: power_cycle_alone(),
    }
}

/// The row of a shadow MBR that is not in use.
pub fn mbr_control(object: Uid) -> MbrControlRow
    ensures { mbr_control_columns result ≡ new_mbr_control object }
{
    MbrControlRow {
        uid: Cell::Uid(object),
        enable: Cell::Number(0),
        done: Cell::Number(0),
        done_on_reset: power_cycle_alone(),
    }
}

/// The row of a TPer that no command resets.
pub fn tper_info(object: Uid) -> TperInfoRow
    ensures { tper_info_columns result ≡ new_tper_info object }
{
    TperInfoRow {
        uid: Cell::Uid(object),
        programmatic_reset_enable: Cell::Number(0),
    }
}

/// The key of a range.
pub fn range_key(key: Uid) -> RangeKeyRow
    ensures { range_key_columns result ≡ new_range_key key }
{
    RangeKeyRow {
        active_key: Cell::Uid(key),
    }
}

/// The row of LockingInfo: this drive has so many ranges, and encrypts; they need not be aligned.
pub fn locking_info(object: Uid, name: String) -> LockingInfoRow
    ensures { locking_info_columns result ≡ new_locking_info object (string_bytes name) }
{
    LockingInfoRow {
        uid: Cell::Uid(object),
        name: text(name),
        version: Cell::Number(1),
        encrypt_support: Cell::Number(1),
        max_ranges: Cell::Number(u64::from(RANGES)),
        max_re_encryptions: Cell::Number(0),
        keys_available_cfg: Cell::Number(0),
        alignment_required: Cell::Number(0),
        logical_block_size: Cell::Number(SECTOR_SIZE as u64),
        alignment_granularity: Cell::Number(1),
        lowest_aligned_lba: Cell::Number(0),
    }
}

/// What Kind is of a byte table.
const BYTE_TABLE: u64 = 2;

/// The row of a byte table of so many bytes.
pub fn byte_table(alloc: Global, object: Uid, name: String, bytes: u64) -> TableRow
    ensures { table_columns result ≡ new_byte_table object (string_bytes name) bytes }
{
    TableRow {
        uid: Cell::Uid(object),
        name: text(name),
        common_name: no_text(alloc),
        kind: Cell::Number(BYTE_TABLE),
        rows: Cell::Number(bytes),
        mandatory_write_granularity: Cell::Number(1),
        recommended_access_granularity: Cell::Number(1),
    }
}

/// The row of how the drive removes data: in the one way that it has.
pub fn data_removal(object: Uid) -> DataRemovalRow
    ensures { data_removal_columns result ≡ new_data_removal object }
{
    DataRemovalRow {
        uid: Cell::Uid(object),
        active: Cell::Number(CRYPTOGRAPHIC_ERASE),
    }
}

/// An ACE.
pub fn ace(
    alloc: Global,
    object: Uid,
    name: String,
    expr: Expr,
    columns: &[Column],
) -> Result<AceRow, AllocError>
    ensures { IfOk result
        (λ r. ace_columns r ≡ new_ace object (string_bytes name) expr columns.now) }
{
    let columns = columns.to_vec(alloc)?;
    Ok(AceRow {
        uid: Cell::Uid(object),
        name: text(name),
        common_name: no_text(alloc),
        boolean_expr: Cell::Expr(expr),
        columns: Cell::Columns(Columns::from_vec(columns)),
    })
}

/// The expression of one authority.
pub fn only(alloc: Global, authority: Uid) -> Result<Expr, AllocError>
    ensures { IfOk result (λ e. e ≡ elements.Authority authority ∷ []) }
{
    let mut elements = ArrayVec::new();
    elements.push(Element::Authority(authority));
    Expr::new(alloc, elements)
}

/// The expression that either of two authorities fulfils.
pub fn either(alloc: Global, authority: Uid, other: Uid) -> Result<Expr, AllocError>
    ensures { IfOk result
        (λ e. e ≡ elements.Authority authority ∷ elements.Authority other ∷ elements.Or ∷ []) }
{
    let mut elements = ArrayVec::new();
    elements.push(Element::Authority(authority));
    elements.push(Element::Authority(other));
    elements.push(Element::Or);
    Expr::new(alloc, elements)
}

/// Adds a row to rows whose names follow one another.
pub fn push_row<R: Drop>(rows: &mut Vec<R>, row: R) -> Result<(), AllocError>
    ensures { OnOk result (rows.new.items ≡ rows.old.items ++ row ∷ []) }
{
    rows.push(row)?;
    Ok(())
}
