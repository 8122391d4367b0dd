//! The tables of a new drive, row by row.

ghost use Rattle.std.specs.Prelude.{◌≡◌, List, ℕ, ◌+◌, ◌<◌, ◌≤◌, ◌^◌, [], ◌∷◌, ◌++◌, IfOk, OnOk, string_bytes, map};
ghost use Rattle.std.specs.List.{flat_map};
ghost use Rattle.sp_tables.specs.Halves.{half_items, field_items};
ghost use Rattle.sp_tables.specs.Columns.{sp_columns, authority_columns, c_pin_columns, locking_columns, mbr_control_columns, tper_info_columns, ace_columns};
ghost use Rattle.sp_tables.specs.Factory.{HasRows, AddsRows, in_field, in_opal, admin_sps, admin_authorities, label_authorities, admin_pins, label_pins, admin_tper_infos, admin_aces, label_aces, removal_aces, data_removals, locking_authorities, locking_pins, locking_ranges, locking_mbr_controls, locking_aces, range_keys, locking_infos, byte_tables, opal_authorities, opal_pins, opal_admin_aces, admin_constants, locking_constants, authority_aces, pin_aces, range_aces, mbr_aces, gen_key_aces, datastore_aces, admin_factory, locking_factory};
ghost use Rattle.basics.specs.declared.profile.Profile.TheVariants.{Base, Field};
ghost use Rattle.sp_cells.specs.declared.byte_tables.TableSizes.{TableSizes};
ghost use Rattle.sp_tables.specs.Entries.{entry_items};
ghost use Rattle.sp_cells.specs.Config.{sizes_in};
ghost use Rattle.sp_cells.specs.Limits.{most_mbr_sectors};

use crate::sp_rows::ace_tables::{
    admin_entries, authority_entries, key_entries, label_entries, mbr_entries, opal_admin_entries,
    opal_locking_entries, pin_entries, range_entries,
};
use crate::sp_rows::adding::{push_one, push_pin};
use crate::sp_rows::constant_tables::{admin_constant_entries, locking_constant_entries};
use crate::sp_rows::entries::{Adds, Entry, push_entries, push_family};
use crate::sp_rows::families::{
    Ranges, admin_authority_entries, locking_authority_entries, locking_pin_entries,
};
use crate::sp_rows::field_rows::{
    byte_tables_made, data_removals_made, locking_infos_made, push_label_pin, push_opal_pin,
    range_keys_made,
};
use crate::sp_rows::new_rows::{mbr_control, range, sp_row, tper_info};
use crate::sp_rows::{
    AceRow, AuthorityRow, CPinRow, FieldTables, LockingRow, MbrControlRow, Row, Run, SpRow,
    SpTables, TperInfoRow,
};
use basics::Profile;
use sp_cells::limits::{MANUFACTURED, MANUFACTURED_INACTIVE, NEW_TRY_LIMIT, NO_TRY_LIMIT};
use sp_cells::{DriveConfig, RANGES, TableSizes, Uid};
use std::alloc::{AllocError, Global};

#[tactic(auto, unfolding(crate::specs::Factory::admin_sps))]
fn admin_sps_made(alloc: Global) -> Result<Vec<Run<SpRow>>, AllocError>
    ensures { IfOk result (λ runs. HasRows sp_columns runs.items admin_sps) }
{
    let mut runs = Vec::new(alloc);
    let admin = String::from_str(alloc, "Admin")?;
    push_one(
        alloc,
        &mut runs,
        Uid::ADMIN_SP,
        sp_row(Uid::ADMIN_SP, admin, MANUFACTURED),
    )?;
    let locking = String::from_str(alloc, "Locking")?;
    push_one(
        alloc,
        &mut runs,
        Uid::LOCKING_SP,
        sp_row(Uid::LOCKING_SP, locking, MANUFACTURED_INACTIVE),
    )?;
    Ok(runs)
}

/// The rows of the entries of a table that this profile has.
fn made<R: Row + Drop, E: Adds<R>>(
    alloc: Global,
    profile: Profile,
    entries: &[Entry<E>],
) -> Result<Vec<Run<R>>, AllocError>
    ensures { IfOk result
        (λ runs. HasRows R.held runs.items (flat_map (entry_items E.items profile) entries.now)) }
{
    let mut runs = Vec::new(alloc);
    push_entries(alloc, profile, &mut runs, entries)?;
    Ok(runs)
}

fn admin_authorities_made(
    alloc: Global,
    profile: Profile,
) -> Result<Vec<Run<AuthorityRow>>, AllocError>
    ensures { IfOk result (λ runs. HasRows authority_columns runs.items
        (admin_authorities ++ in_field profile label_authorities
        ++ in_opal profile opal_authorities)) }
{
    let runs = made(alloc, profile, admin_authority_entries())?;
    Ok(runs)
}

fn locking_authorities_made(
    alloc: Global,
    profile: Profile,
) -> Result<Vec<Run<AuthorityRow>>, AllocError>
    ensures { IfOk result (λ runs. HasRows authority_columns runs.items locking_authorities) }
{
    let runs = made(alloc, profile, locking_authority_entries())?;
    Ok(runs)
}

/// Adds the PINs of the Admin SP.
#[tactic(auto, using(crate::proofs::sp_rows::FamilyLemmas::pushing), unfolding(crate::specs::Factory::admin_pins))]
fn push_admin_pins(
    alloc: Global,
    msid: &[u8],
    runs: &mut Vec<Run<CPinRow>>,
) -> Result<(), AllocError>
    ensures { OnOk result
        (AddsRows c_pin_columns runs.old.items runs.new.items (admin_pins msid.now)) }
{
    push_pin(
        alloc,
        runs,
        Uid::C_PIN_SID,
        "C_PIN_SID",
        msid,
        NEW_TRY_LIMIT,
    )?;
    push_pin(
        alloc,
        runs,
        Uid::C_PIN_MSID,
        "C_PIN_MSID",
        msid,
        NO_TRY_LIMIT,
    )?;
    Ok(())
}

fn admin_pins_made(alloc: Global, config: &DriveConfig) -> Result<Vec<Run<CPinRow>>, AllocError>
    ensures { IfOk result (λ runs. HasRows c_pin_columns runs.items
        (admin_pins config.now.msid
        ++ in_field config.now.profile (label_pins config.now.psid)
        ++ in_opal config.now.profile opal_pins)) }
{
    let mut runs = Vec::new(alloc);
    push_admin_pins(alloc, config.msid(), &mut runs)?;
    push_label_pin(alloc, config.profile(), config.psid(), &mut runs)?;
    push_opal_pin(alloc, config.profile(), &mut runs)?;
    Ok(runs)
}

fn locking_pins_made(alloc: Global, profile: Profile) -> Result<Vec<Run<CPinRow>>, AllocError>
    ensures { IfOk result (λ runs. HasRows c_pin_columns runs.items locking_pins) }
{
    let runs = made(alloc, profile, locking_pin_entries())?;
    Ok(runs)
}

#[tactic(auto, unfolding(crate::specs::Factory::locking_ranges))]
fn locking_ranges_made(alloc: Global) -> Result<Vec<Run<LockingRow>>, AllocError>
    ensures { IfOk result (λ runs. HasRows locking_columns runs.items locking_ranges) }
{
    let mut runs = Vec::new(alloc);
    let global = String::from_str(alloc, "Locking_GlobalRange")?;
    push_one(
        alloc,
        &mut runs,
        Uid::range(0),
        range(alloc, Uid::range(0), global),
    )?;
    push_family(alloc, &mut runs, &Ranges, RANGES)?;
    Ok(runs)
}

#[tactic(auto, unfolding(crate::specs::Factory::locking_mbr_controls))]
fn mbr_controls_made(alloc: Global) -> Result<Vec<Run<MbrControlRow>>, AllocError>
    ensures { IfOk result (λ runs. HasRows mbr_control_columns runs.items locking_mbr_controls) }
{
    let mut runs = Vec::new(alloc);
    push_one(
        alloc,
        &mut runs,
        Uid::MBR_CONTROL,
        mbr_control(Uid::MBR_CONTROL),
    )?;
    Ok(runs)
}

fn tper_infos_made(alloc: Global) -> Result<Vec<Run<TperInfoRow>>, AllocError>
    ensures { IfOk result (λ runs. HasRows tper_info_columns runs.items admin_tper_infos) }
{
    let mut runs = Vec::new(alloc);
    push_one(alloc, &mut runs, Uid::TPER_INFO, tper_info(Uid::TPER_INFO))?;
    Ok(runs)
}

/// Adds the ACEs of the Admin SP.
fn push_admin_aces(
    alloc: Global,
    profile: Profile,
    runs: &mut Vec<Run<AceRow>>,
) -> Result<(), AllocError>
    ensures { OnOk result (AddsRows ace_columns runs.old.items runs.new.items
        (admin_aces profile ++ in_field profile label_aces ++ in_field profile removal_aces
        ++ in_opal profile opal_admin_aces)) }
{
    push_entries(alloc, profile, runs, admin_entries())?;
    push_entries(alloc, profile, runs, label_entries())?;
    push_entries(alloc, profile, runs, opal_admin_entries())?;
    Ok(())
}

fn admin_aces_made(alloc: Global, profile: Profile) -> Result<Vec<Run<AceRow>>, AllocError>
    ensures { IfOk result (λ runs. HasRows ace_columns runs.items
        (admin_aces profile ++ in_field profile label_aces ++ in_field profile removal_aces
        ++ in_opal profile opal_admin_aces)) }
{
    let mut runs = Vec::new(alloc);
    push_admin_aces(alloc, profile, &mut runs)?;
    Ok(runs)
}

/// Adds the ACEs of the Locking SP.
fn push_locking_aces(
    alloc: Global,
    profile: Profile,
    runs: &mut Vec<Run<AceRow>>,
) -> Result<(), AllocError>
    ensures { OnOk result
        (AddsRows ace_columns runs.old.items runs.new.items (locking_aces profile)) }
{
    push_entries(alloc, profile, runs, authority_entries())?;
    push_entries(alloc, profile, runs, pin_entries())?;
    push_entries(alloc, profile, runs, range_entries())?;
    push_entries(alloc, profile, runs, mbr_entries())?;
    push_entries(alloc, profile, runs, key_entries())?;
    push_entries(alloc, profile, runs, opal_locking_entries())?;
    Ok(())
}

fn locking_aces_made(alloc: Global, profile: Profile) -> Result<Vec<Run<AceRow>>, AllocError>
    ensures { IfOk result (λ runs. HasRows ace_columns runs.items (locking_aces profile)) }
{
    let mut runs = Vec::new(alloc);
    push_locking_aces(alloc, profile, &mut runs)?;
    Ok(runs)
}

/// The tables of the Admin SP that `Base` leaves empty.
fn admin_field_made(alloc: Global, profile: Profile) -> Result<FieldTables, AllocError>
    ensures { IfOk result (λ t. field_items t
        ≡ in_field profile data_removals ++ in_opal profile admin_constants) }
{
    Ok(FieldTables {
        data_removals: data_removals_made(alloc, profile)?,
        range_keys: Vec::new(alloc),
        locking_infos: Vec::new(alloc),
        tables: Vec::new(alloc),
        constants: made(alloc, profile, admin_constant_entries())?,
    })
}

/// The tables of a new Admin SP.
pub fn new_admin_sp(alloc: Global, config: &DriveConfig) -> Result<SpTables, AllocError>
    ensures { IfOk result (λ t. half_items t
        ≡ admin_factory config.now.profile config.now.msid config.now.psid) }
{
    let profile = config.profile();
    Ok(SpTables {
        sps: admin_sps_made(alloc)?,
        authorities: admin_authorities_made(alloc, profile)?,
        pins: admin_pins_made(alloc, config)?,
        tper_infos: tper_infos_made(alloc)?,
        aces: admin_aces_made(alloc, profile)?,
        field: admin_field_made(alloc, profile)?,
        ranges: Vec::new(alloc),
        mbr_controls: Vec::new(alloc),
    })
}

/// The tables of the Locking SP that `Base` leaves empty.
fn locking_field_made(
    alloc: Global,
    profile: Profile,
    sizes: TableSizes,
) -> Result<FieldTables, AllocError>
    requires { sizes.mbr_sectors ≤ most_mbr_sectors }
    ensures { IfOk result (λ t. field_items t ≡ in_field profile range_keys
        ++ (in_field profile locking_infos ++ (in_field profile (byte_tables sizes)
        ++ in_opal profile locking_constants))) }
{
    Ok(FieldTables {
        range_keys: range_keys_made(alloc, profile)?,
        locking_infos: locking_infos_made(alloc, profile)?,
        tables: byte_tables_made(alloc, profile, sizes)?,
        data_removals: Vec::new(alloc),
        constants: made(alloc, profile, locking_constant_entries())?,
    })
}

/// The tables of a new Locking SP.
pub fn new_locking_sp(alloc: Global, config: &DriveConfig) -> Result<SpTables, AllocError>
    ensures { IfOk result
        (λ t. half_items t ≡ locking_factory config.now.profile (sizes_in config.now)) }
{
    let profile = config.profile();
    Ok(SpTables {
        authorities: locking_authorities_made(alloc, profile)?,
        pins: locking_pins_made(alloc, profile)?,
        ranges: locking_ranges_made(alloc)?,
        mbr_controls: mbr_controls_made(alloc)?,
        aces: locking_aces_made(alloc, profile)?,
        field: locking_field_made(alloc, profile, config.table_sizes())?,
        sps: Vec::new(alloc),
        tper_infos: Vec::new(alloc),
    })
}

/// The tables of a new drive: those of the Admin SP, and those of the Locking SP.
pub fn new_halves(alloc: Global, config: &DriveConfig) -> Result<(SpTables, SpTables), AllocError>
    ensures { IfOk result (λ t.
        (half_items t.0 ≡ admin_factory config.now.profile config.now.msid config.now.psid)
        × (half_items t.1 ≡ locking_factory config.now.profile (sizes_in config.now))) }
{
    let admin = new_admin_sp(alloc, config)?;
    let locking = new_locking_sp(alloc, config)?;
    Ok((admin, locking))
}

/// A new drive of `Base`, and one of `Field`, has no row of `Opal` alone.
pub fn laws_of_factory()
    ensures base { (msid psid : List ℕ) → admin_factory Base msid psid
        ≡ admin_sps ++ (admin_authorities
        ++ (admin_pins msid ++ (admin_tper_infos ++ admin_aces Base))) }
    ensures base_locking { (sizes : TableSizes) → locking_factory Base sizes
        ≡ locking_authorities ++ (locking_pins ++ (locking_ranges ++ (locking_mbr_controls
        ++ (authority_aces ++ pin_aces ++ range_aces Base ++ mbr_aces)))) }
    ensures field { (msid psid : List ℕ) → admin_factory Field msid psid
        ≡ admin_sps ++ ((admin_authorities ++ label_authorities)
        ++ ((admin_pins msid ++ label_pins psid) ++ (admin_tper_infos
        ++ ((admin_aces Field ++ label_aces ++ removal_aces) ++ data_removals)))) }
    ensures field_locking { (sizes : TableSizes) → locking_factory Field sizes
        ≡ locking_authorities ++ (locking_pins ++ (locking_ranges ++ (locking_mbr_controls
        ++ ((authority_aces ++ pin_aces ++ range_aces Field ++ mbr_aces
        ++ gen_key_aces ++ datastore_aces)
        ++ (range_keys ++ (locking_infos ++ byte_tables sizes)))))) }
    ensures same_aces { admin_aces Base ≡ admin_aces Field }
{}
