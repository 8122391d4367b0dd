//! What a drive keeps as values of a token stream.

ghost use Rattle.std.specs.Prelude.{◌≡◌, [], ◌∷◌, ◌++◌, map, IfOk, OnOk};
ghost use Rattle.sp_tables.specs.Items.{item_of};
ghost use Rattle.shadow_mbr.specs.Stored.{IsSound};
ghost use Rattle.tcg_tokens.specs.Tree.{tree, trees, trees_of, number, bytes};
ghost use Rattle.saved.specs.Saved.{kind, flag_tree, list_tree, saved_element, saved_cell, item_tree, sector_tree, sectors_tree, saved_profile, config_tree};

use crate::error::SaveError;
use crate::stores::Store;
use basics::Profile;
use sp_cells::{Cell, Column, DriveConfig, Element, ResetTypes};
use sp_tables::ListedCell;
use std::alloc::{AllocError, Global};
use tcg_calls::call_shapes::{bytes_value, list_value, named_value};
use tcg_tokens::Value;

/// A value behind the number of its kind.
fn kind_value(alloc: Global, number: u64, value: Value) -> Result<Value, AllocError>
    ensures { IfOk result (λ v. tree v ≡ kind number (tree value)) }
{
    Ok(named_value(alloc, Value::Number(number), value)?)
}

/// A flag.
fn flag_value(set: bool) -> Value
    ensures { tree result ≡ flag_tree set }
{
    Value::Number(u64::from(set))
}

/// Which resets a set has.
fn resets_value(alloc: Global, resets: &ResetTypes) -> Result<Value, AllocError>
    ensures { IfOk result (λ v. tree v ≡ list_tree (flag_tree resets.now.power_cycle
        ∷ flag_tree resets.now.hardware ∷ flag_tree resets.now.programmatic ∷ [])) }
{
    let flags = vec![in alloc;
        flag_value(resets.power_cycle),
        flag_value(resets.hardware),
        flag_value(resets.programmatic),
    ]?;
    Ok(list_value(flags))
}

/// An element of an expression.
fn element_value(alloc: Global, element: Element) -> Result<Value, AllocError>
    ensures { IfOk result (λ v. tree v ≡ saved_element element) }
{
    match element {
        Element::Authority(authority) => Ok(kind_value(alloc, 0, Value::Number(authority.0))?),
        Element::And => Ok(Value::Number(0)),
        Element::Or => Ok(Value::Number(1)),
    }
}

/// The elements of an expression.
fn element_values(alloc: Global, elements: &[Element]) -> Result<Vec<Value>, AllocError>
    ensures { IfOk result (λ vs. map tree vs.items ≡ map saved_element elements.now) }
{
    let mut values = Vec::new(alloc);
    for element in elements {
        values.push(element_value(alloc, *element)?)?;
    }
    Ok(values)
}

/// The numbers of columns.
fn column_values(alloc: Global, columns: &[Column]) -> Result<Vec<Value>, AllocError>
    ensures { IfOk result (λ vs. map tree vs.items ≡ map (λ c. number c.0) columns.now) }
{
    let mut values = Vec::new(alloc);
    for column in columns {
        values.push(Value::Number(column.0))?;
    }
    Ok(values)
}

/// A cell.
fn cell_value(alloc: Global, cell: &Cell) -> Result<Value, AllocError>
    ensures { IfOk result (λ v. tree v ≡ saved_cell cell.now) }
{
    match cell {
        Cell::Number(number) => kind_value(alloc, 0, Value::Number(*number)),
        Cell::Bytes(content) => kind_value(alloc, 1, bytes_value(alloc, content.as_slice())?),
        Cell::Uid(object) => kind_value(alloc, 2, Value::Number(object.0)),
        Cell::Numbers(resets) => kind_value(alloc, 3, resets_value(alloc, resets)?),
        Cell::Expr(expr) => {
            let elements = list_value(element_values(alloc, expr.as_slice())?);
            kind_value(alloc, 4, elements)
        }
        Cell::Columns(columns) => {
            let numbers = list_value(column_values(alloc, columns.as_slice())?);
            kind_value(alloc, 5, numbers)
        }
        Cell::OneName(name) => kind_value(alloc, 6, bytes_value(alloc, name.as_slice())?),
    }
}

/// A cell behind the numbers of its object and its column.
fn item_value(alloc: Global, item: &ListedCell) -> Result<Value, AllocError>
    ensures { IfOk result (λ v. tree v ≡ item_tree (item_of item.now)) }
{
    let value = cell_value(alloc, &item.2)?;
    let column = kind_value(alloc, item.1.0, value)?;
    Ok(kind_value(alloc, item.0.0, column)?)
}

/// The cells of an SP.
fn item_values(alloc: Global, items: &[ListedCell]) -> Result<Vec<Value>, AllocError>
    ensures { IfOk result (λ vs. map tree vs.items ≡ map item_tree (map item_of items.now)) }
{
    let mut values = Vec::with_capacity(alloc, items.len())?;
    for item in items {
        values.push(item_value(alloc, item)?)?;
    }
    Ok(values)
}

/// The cells of an SP as one value.
pub(crate) fn items_value(alloc: Global, items: &[ListedCell]) -> Result<Value, AllocError>
    ensures { IfOk result (λ v. tree v ≡ list_tree (map item_tree (map item_of items.now))) }
{
    let values = item_values(alloc, items)?;
    Ok(list_value(values))
}

/// The bytes of a sector behind its number.
fn sector_value(alloc: Global, sector: u64, content: &[u8]) -> Result<Value, AllocError>
    ensures { IfOk result (λ v. tree v ≡ kind sector (bytes content.now)) }
{
    let content = bytes_value(alloc, content)?;
    Ok(kind_value(alloc, sector, content)?)
}

/// What a sector holds, behind its number; none behind the last.
fn stored_sector<S: Store>(alloc: Global, store: &S, sector: u64) -> Result<Value, SaveError>
    ensures { IfOk result (λ v. tree v ≡ sector_tree (S.stored store.now) sector) }
{
    if sector >= store.sectors() {
        return Err(SaveError::Unwritable);
    }
    Ok(sector_value(alloc, sector, store.sector(sector))?)
}

/// Appends a value.
fn push(values: &mut Vec<Value>, value: Value) -> Result<(), AllocError>
    ensures { OnOk result (values.new.items ≡ values.old.items ++ value ∷ []) }
{
    values.push(value)?;
    Ok(())
}

/// What these sectors hold.
fn stored_sectors<S: Store>(
    alloc: Global,
    store: &S,
    sectors: &[u64],
) -> Result<Vec<Value>, SaveError>
    ensures { IfOk result (λ vs. map tree vs.items
        ≡ map (sector_tree (S.stored store.now)) sectors.now) }
{
    let mut values = Vec::with_capacity(alloc, sectors.len())?;
    for sector in sectors {
        let value = stored_sector(alloc, store, *sector)?;
        push(&mut values, value)?;
    }
    Ok(values)
}

/// The sectors that are kept.
pub(crate) fn sectors_value<S: Store>(alloc: Global, store: &S) -> Result<Value, SaveError>
    ensures written { IfOk result (λ v. tree v ≡ sectors_tree (S.stored store.now)) }
    ensures sound { IsSound (S.stored store.now) }
{
    let sectors = store.kept(alloc)?;
    let values = stored_sectors(alloc, store, &sectors)?;
    Ok(list_value(values))
}

/// The number of a profile.
fn saved_profile(profile: Profile) -> u64
    ensures { result ≡ saved_profile profile }
{
    match profile {
        Profile::Base => 0,
        Profile::Field => 1,
        Profile::Opal => 2,
    }
}

/// What a drive was made with.
pub(crate) fn config_value(alloc: Global, config: &DriveConfig) -> Result<Value, AllocError>
    ensures { IfOk result (λ v. tree v ≡ config_tree config.now) }
{
    let values = vec![in alloc;
        Value::Number(saved_profile(config.profile())),
        Value::Number(config.sectors()),
        Value::Number(config.mbr_sectors()),
        bytes_value(alloc, config.msid())?,
        bytes_value(alloc, config.serial())?,
        bytes_value(alloc, config.model())?,
        bytes_value(alloc, config.psid())?,
        Value::Number(config.datastore()),
        Value::Number(config.seed()),
    ]?;
    Ok(list_value(values))
}
