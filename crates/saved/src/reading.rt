//! A drive of values.

ghost use Rattle.std.specs.Prelude.{◌≡◌, IfOk, OnOk, IfSome};
ghost use Rattle.sp_cells.specs.Config.{table_sectors};
ghost use Rattle.drive.specs.Rest.{IsOff};

use crate::error::LoadError;
use crate::saving::{FORM_NAME, FORM_VERSION};
use crate::stores::Store;
use arrayvec::ArrayVec;
use basics::Profile;
use drive::Drive;
use shadow_mbr::{Block, Mbr, Media, SECTOR_SIZE};
use sp_cells::limits::MOST_ELEMENTS;
use sp_cells::{Bytes, Cell, Column, Columns, DriveConfig, Element, Expr, ResetTypes, Uid};
use sp_tables::{ListedCell, RestoreError, restored};
use std::alloc::{AllocError, Global};
use tcg_tokens::Value;

/// A number.
fn number(value: &Value) -> Result<u64, LoadError> {
    match value {
        Value::Number(number) => Ok(*number),
        _ => Err(LoadError::Damaged),
    }
}

/// Bytes.
fn bytes(value: &Value) -> Result<&[u8], LoadError> {
    match value {
        Value::Bytes(content) => Ok(content.as_slice()),
        _ => Err(LoadError::Damaged),
    }
}

/// The values of a list.
fn list(value: &Value) -> Result<&[Value], LoadError> {
    match value {
        Value::List(values) => Ok(values.as_slice()),
        _ => Err(LoadError::Damaged),
    }
}

/// A value behind the number of its kind.
fn kind(value: &Value) -> Result<(u64, &Value), LoadError> {
    match value {
        Value::Named(both) => {
            let (name, content) = &**both;
            Ok((number(name)?, content))
        }
        _ => Err(LoadError::Damaged),
    }
}

/// A flag.
fn flag(value: &Value) -> Result<bool, LoadError> {
    match number(value)? {
        0 => Ok(false),
        1 => Ok(true),
        _ => Err(LoadError::Damaged),
    }
}

/// Bytes that are kept.
fn owned(alloc: Global, content: &[u8]) -> Result<Bytes, LoadError> {
    Ok(Bytes::from_vec(Vec::from_slice(alloc, content)?))
}

/// Which resets a set has.
fn resets(value: &Value) -> Result<ResetTypes, LoadError> {
    let [power_cycle, hardware, programmatic] = list(value)? else {
        return Err(LoadError::Damaged);
    };
    Ok(ResetTypes {
        power_cycle: flag(power_cycle)?,
        hardware: flag(hardware)?,
        programmatic: flag(programmatic)?,
    })
}

/// An element of an expression.
fn element(value: &Value) -> Result<Element, LoadError> {
    match value {
        Value::Number(0) => Ok(Element::And),
        Value::Number(1) => Ok(Element::Or),
        _ => Ok(Element::Authority(Uid(number(kind(value)?.1)?))),
    }
}

/// An expression.
fn expression(alloc: Global, value: &Value) -> Result<Expr, LoadError> {
    let mut elements: ArrayVec<Element, MOST_ELEMENTS> = ArrayVec::new();
    for value in list(value)? {
        if elements.is_full() {
            return Err(LoadError::Damaged);
        }
        elements.push(element(value)?);
    }
    Ok(Expr::new(alloc, elements)?)
}

/// Appends a value.
fn push<T: Drop>(values: &mut Vec<T>, value: T) -> Result<(), AllocError> {
    values.push(value)?;
    Ok(())
}

/// Columns by their numbers.
fn columns(alloc: Global, value: &Value) -> Result<Columns, LoadError> {
    let mut columns = Vec::new(alloc);
    for value in list(value)? {
        push(&mut columns, Column(number(value)?))?;
    }
    Ok(Columns::from_vec(columns))
}

/// A cell.
fn cell(alloc: Global, value: &Value) -> Result<Cell, LoadError> {
    let (kind, content) = kind(value)?;
    Ok(match kind {
        0 => Cell::Number(number(content)?),
        1 => Cell::Bytes(owned(alloc, bytes(content)?)?),
        2 => Cell::Uid(Uid(number(content)?)),
        3 => Cell::Numbers(resets(content)?),
        4 => Cell::Expr(expression(alloc, content)?),
        5 => Cell::Columns(columns(alloc, content)?),
        6 => Cell::OneName(owned(alloc, bytes(content)?)?),
        _ => return Err(LoadError::Damaged),
    })
}

/// A cell behind the numbers of its object and its column.
fn placed(alloc: Global, value: &Value) -> Result<ListedCell, LoadError> {
    let (object, rest) = kind(value)?;
    let (column, content) = kind(rest)?;
    Ok((Uid(object), Column(column), cell(alloc, content)?))
}

/// The cells of an SP.
fn cells(alloc: Global, value: &Value) -> Result<Vec<ListedCell>, LoadError> {
    let mut cells = Vec::new(alloc);
    for value in list(value)? {
        let cell = placed(alloc, value)?;
        push(&mut cells, cell)?;
    }
    Ok(cells)
}

/// A profile by its number.
fn profile(value: &Value) -> Result<Profile, LoadError> {
    match number(value)? {
        0 => Ok(Profile::Base),
        1 => Ok(Profile::Field),
        2 => Ok(Profile::Opal),
        _ => Err(LoadError::Damaged),
    }
}

/// What the drive was made with.
fn config(value: &Value) -> Result<DriveConfig, LoadError> {
    let [
        of,
        sectors,
        shadow,
        msid,
        serial,
        model,
        psid,
        datastore,
        seed,
    ] = list(value)?
    else {
        return Err(LoadError::Damaged);
    };
    let config = DriveConfig::of_profile(
        profile(of)?,
        number(sectors)?,
        number(shadow)?,
        bytes(msid)?,
    );
    let config = config.ok_or(LoadError::Damaged)?;
    let config = config.with_names(bytes(serial)?, bytes(model)?);
    let config = config.ok_or(LoadError::Damaged)?.with_psid(bytes(psid)?);
    let config = config
        .ok_or(LoadError::Damaged)?
        .with_datastore(number(datastore)?);
    Ok(config.ok_or(LoadError::Damaged)?.with_seed(number(seed)?))
}

/// Writes a sector that a value says.
fn put_sector<S: Store>(store: &mut S, value: &Value) -> Result<(), LoadError>
    ensures { (S.stored store.new).sectors ≡ (S.stored store.old).sectors }
{
    let (sector, content) = kind(value)?;
    if sector >= store.sectors() {
        return Err(LoadError::Damaged);
    }
    let content: &Block = bytes(content)?.as_array().ok_or(LoadError::Damaged)?;
    Ok(store.put(sector, content)?)
}

/// Writes the sectors that a list says.
fn put_sectors<S: Store>(store: &mut S, value: &Value) -> Result<(), LoadError>
    ensures { OnOk result ((S.stored store.new).sectors ≡ (S.stored store.old).sectors) }
{
    for value in list(value)? {
        put_sector(store, value)?;
    }
    Ok(())
}

/// The form's name and version.
fn see_form(name: &Value, version: &Value) -> Result<(), LoadError> {
    match name {
        Value::Bytes(content) if content.as_slice() == FORM_NAME.as_slice() => {}
        _ => return Err(LoadError::NotADrive),
    }
    match version {
        Value::Number(FORM_VERSION) => Ok(()),
        _ => Err(LoadError::Version),
    }
}

/// The drive that these results say. It is off.
pub(crate) fn drive_of(alloc: Global, results: &[Value]) -> Result<Drive, LoadError>
    ensures { IfOk result IsOff }
{
    let [name, version, rest @ ..] = results else {
        return Err(LoadError::NotADrive);
    };
    see_form(name, version)?;
    let [made, admin, locking, table_bytes, sectors, next, drawn] = rest else {
        return Err(LoadError::Damaged);
    };
    let config = config(made)?;
    let mut media = Media::new(alloc, config.sectors());
    put_sectors(&mut media, sectors)?;
    let mut bytes = Mbr::new(alloc, config.table_sizes().sectors());
    put_sectors(&mut bytes, table_bytes)?;
    let admin = cells(alloc, admin)?;
    let locking = cells(alloc, locking)?;
    let tables = match restored(alloc, config, &admin, &locking) {
        Ok(tables) => tables,
        Err(RestoreError::OutOfMemory) => return Err(LoadError::OutOfMemory),
        Err(RestoreError::Foreign) => return Err(LoadError::Damaged),
    };
    let (next, drawn) = (number(next)?, number(drawn)?);
    Ok(Drive::resumed(alloc, tables, bytes, media, next, drawn)?)
}
