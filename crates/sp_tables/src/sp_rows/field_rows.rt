//! The rows that a drive has under the profile `Field`, and under each that has all of it, and the PIN that one of
//! `Opal` has.

ghost use Rattle.std.specs.Prelude.{◌≡◌, ◌+◌, ◌<◌, ◌≤◌, ◌^◌, [], ◌∷◌, ◌++◌, IfOk, OnOk, string_bytes, map, codes};
ghost use Rattle.std.specs.List.{flat_map};
ghost use Rattle.sp_cells.specs.Limits.{most_mbr_sectors};
ghost use Rattle.sp_tables.specs.Items.{row_items};
ghost use Rattle.sp_tables.specs.Columns.{c_pin_columns, range_key_columns, locking_info_columns, table_columns, data_removal_columns};
ghost use Rattle.sp_tables.specs.Factory.{HasRows, AddsRows, in_field, in_opal, label_pins, opal_pins, new_byte_table, range_keys, locking_infos, byte_tables, data_removals};

use crate::sp_rows::adding::{push_one, push_pin};
use crate::sp_rows::entries::{Drives, push_family};
use crate::sp_rows::families::RangeKeys;
use crate::sp_rows::new_rows::{byte_table, data_removal, locking_info, range_key};
use crate::sp_rows::{CPinRow, DataRemovalRow, LockingInfoRow, RangeKeyRow, Run, TableRow};
use basics::Profile;
use sp_cells::limits::NEW_TRY_LIMIT;
use sp_cells::{ByteTable, RANGES, TableSizes, Uid};
use std::alloc::{AllocError, Global};

/// Adds the PIN of the label.
#[tactic(auto, using(crate::proofs::sp_rows::FamilyLemmas::pushing), unfolding(crate::specs::Factory::label_pins))]
pub(crate) fn push_label_pin(
    alloc: Global,
    profile: Profile,
    psid: &[u8],
    runs: &mut Vec<Run<CPinRow>>,
) -> Result<(), AllocError>
    ensures { OnOk result (AddsRows c_pin_columns runs.old.items runs.new.items
        (in_field profile (label_pins psid.now))) }
{
    if !profile.has_field() {
        return Ok(());
    }
    push_pin(
        alloc,
        runs,
        Uid::C_PIN_PSID,
        "C_PIN_PSID",
        psid,
        NEW_TRY_LIMIT,
    )?;
    Ok(())
}

/// Adds the PIN of the Admin SP's Admin1.
#[tactic(auto, using(crate::proofs::sp_rows::FamilyLemmas::pushing), unfolding(crate::specs::Factory::opal_pins))]
pub(crate) fn push_opal_pin(
    alloc: Global,
    profile: Profile,
    runs: &mut Vec<Run<CPinRow>>,
) -> Result<(), AllocError>
    ensures { OnOk result (AddsRows c_pin_columns runs.old.items runs.new.items
        (in_opal profile opal_pins)) }
{
    if !Drives::Opal.has(profile) {
        return Ok(());
    }
    push_pin(
        alloc,
        runs,
        Uid::C_PIN_ADMIN_SP_ADMIN,
        "C_PIN_Admin1",
        &[],
        NEW_TRY_LIMIT,
    )?;
    Ok(())
}

/// The keys of the ranges.
#[tactic(auto, unfolding(crate::specs::Factory::range_keys))]
pub(crate) fn range_keys_made(
    alloc: Global,
    profile: Profile,
) -> Result<Vec<Run<RangeKeyRow>>, AllocError>
    ensures { IfOk result
        (λ runs. HasRows range_key_columns runs.items (in_field profile range_keys)) }
{
    let mut runs = Vec::new(alloc);
    if profile.has_field() {
        push_one(alloc, &mut runs, Uid::range(0), range_key(Uid::key(0)))?;
        push_family(alloc, &mut runs, &RangeKeys, RANGES)?;
    }
    Ok(runs)
}

/// What the drive says of its ranges.
#[tactic(auto, unfolding(crate::specs::Factory::locking_infos))]
pub(crate) fn locking_infos_made(
    alloc: Global,
    profile: Profile,
) -> Result<Vec<Run<LockingInfoRow>>, AllocError>
    ensures { IfOk result
        (λ runs. HasRows locking_info_columns runs.items (in_field profile locking_infos)) }
{
    let mut runs = Vec::new(alloc);
    if profile.has_field() {
        let name = String::from_str(alloc, "LockingInfo")?;
        let row = locking_info(Uid::LOCKING_INFO, name);
        push_one(alloc, &mut runs, Uid::LOCKING_INFO, row)?;
    }
    Ok(runs)
}

/// Adds the row of a byte table.
fn push_byte_table(
    alloc: Global,
    runs: &mut Vec<Run<TableRow>>,
    object: Uid,
    name: &str,
    bytes: u64,
) -> Result<(), AllocError>
    ensures { OnOk result (AddsRows table_columns runs.old.items runs.new.items
        (row_items object (new_byte_table object name.now bytes))) }
{
    let name = String::from_str(alloc, name)?;
    push_one(alloc, runs, object, byte_table(alloc, object, name, bytes))?;
    Ok(())
}

/// What the drive says of its byte tables.
#[tactic(auto, unfolding(crate::specs::Factory::byte_tables))]
pub(crate) fn byte_tables_made(
    alloc: Global,
    profile: Profile,
    sizes: TableSizes,
) -> Result<Vec<Run<TableRow>>, AllocError>
    requires { sizes.mbr_sectors ≤ most_mbr_sectors }
    ensures { IfOk result (λ runs. HasRows table_columns runs.items
        (in_field profile (byte_tables sizes))) }
{
    let mut runs = Vec::new(alloc);
    if profile.has_field() {
        let mbr = sizes.bytes_of(ByteTable::ShadowMbr);
        push_byte_table(alloc, &mut runs, Uid::MBR_TABLE_ROW, "MBR", mbr)?;
        let datastore = sizes.bytes_of(ByteTable::DataStore);
        push_byte_table(
            alloc,
            &mut runs,
            Uid::DATASTORE_TABLE_ROW,
            "DataStore",
            datastore,
        )?;
    }
    Ok(runs)
}

/// How the drive removes data.
#[tactic(auto, unfolding(crate::specs::Factory::data_removals))]
pub(crate) fn data_removals_made(
    alloc: Global,
    profile: Profile,
) -> Result<Vec<Run<DataRemovalRow>>, AllocError>
    ensures { IfOk result
        (λ runs. HasRows data_removal_columns runs.items (in_field profile data_removals)) }
{
    let mut runs = Vec::new(alloc);
    if profile.has_field() {
        let row = data_removal(Uid::DATA_REMOVAL);
        push_one(alloc, &mut runs, Uid::DATA_REMOVAL, row)?;
    }
    Ok(runs)
}
