//! The calls that phrases write.

ghost use Rattle.std.specs.Prelude.{◌≡◌, ◌++◌, map, option_map, IfOk, OnOk};
ghost use Rattle.tcg_tokens.specs.Message.{message};
ghost use Rattle.tcg_tokens.specs.Tree.{tree, bytes};
ghost use Rattle.tcg_calls.specs.CellValues.{uid_tree};
ghost use Rattle.script_lines.specs.Calls.{call_with, optional, host_session, start_call, cellblock_of, get_call, set_call, authenticate_call, activate_call, revert_call};

use crate::named_lines::words::uid_value;
use sp_cells::{Column, Uid};
use std::alloc::{AllocError, Global};
use tcg_calls::call_shapes::{list_value, named_value, parameter};
use tcg_tokens::{Bytes, Call, Item, Value};

/// The host session number that a phrase gives.
const HOST_SESSION: u64 = 1;

/// The call of a method of an object, with a status of zeros.
fn call_with(object: Uid, method: Uid, args: Vec<Value>) -> Item
    ensures { message result ≡ call_with object method (map tree args.items) }
{
    Item::Call(Call {
        object: object.0.to_be_bytes(),
        method: method.0.to_be_bytes(),
        args,
        status: [0, 0, 0],
    })
}

/// Adds an argument with a name, where there is one.
fn add_optional(
    alloc: Global,
    name: u64,
    value: Option<Value>,
    args: &mut Vec<Value>,
) -> Result<(), AllocError>
    ensures { OnOk result (map tree args.new.items
        ≡ map tree args.old.items ++ optional name (option_map tree value)) }
{
    if let Some(value) = value {
        args.push(named_value(alloc, Value::Number(name), value)?)?;
    }
    Ok(())
}

/// Bytes as a value, where there are some.
fn bytes_value_if_any(content: Option<Bytes>) -> Option<Value>
    ensures { option_map tree result ≡ option_map bytes content }
{
    match content {
        Some(content) => Some(Value::Bytes(content)),
        None => None,
    }
}

/// An object as a value, where there is one.
fn uid_value_if_any(alloc: Global, object: Option<Uid>) -> Result<Option<Value>, AllocError>
    ensures { IfOk result (λ value. option_map tree value ≡ option_map uid_tree object) }
{
    match object {
        Some(object) => Ok(Some(uid_value(alloc, object)?)),
        None => Ok(None),
    }
}

/// StartSession on an SP, of everyone or of an authority, by a PIN.
pub(crate) fn start_call(
    alloc: Global,
    sp: Uid,
    authority: Option<Uid>,
    pin: Option<Bytes>,
) -> Result<Item, AllocError>
    ensures { IfOk result (λ item. message item ≡ start_call sp authority pin) }
{
    let mut args = Vec::new(alloc);
    args.push(Value::Number(HOST_SESSION))?;
    args.push(uid_value(alloc, sp)?)?;
    args.push(Value::Number(1))?;
    let challenge = bytes_value_if_any(pin);
    add_optional(alloc, parameter::HOST_CHALLENGE, challenge, &mut args)?;
    let authority = uid_value_if_any(alloc, authority)?;
    add_optional(
        alloc,
        parameter::HOST_SIGNING_AUTHORITY,
        authority,
        &mut args,
    )?;
    Ok(call_with(Uid::SESSION_MANAGER, Uid::START_SESSION, args))
}

/// The columns that a Get names, from one to another.
fn cellblock_of(
    alloc: Global,
    first: Option<Column>,
    last: Option<Column>,
) -> Result<Vec<Value>, AllocError>
    ensures { IfOk result (λ values. map tree values.items ≡ cellblock_of first last) }
{
    let mut values = Vec::new(alloc);
    let Some(first) = first else {
        return Ok(values);
    };
    let last = last.unwrap_or(first);
    let start = Value::Number(parameter::START_COLUMN);
    values.push(named_value(alloc, start, Value::Number(first.0))?)?;
    let end = Value::Number(parameter::END_COLUMN);
    values.push(named_value(alloc, end, Value::Number(last.0))?)?;
    Ok(values)
}

/// Get of columns of an object, from one to another; all where there is none.
pub(crate) fn get_call(
    alloc: Global,
    object: Uid,
    first: Option<Column>,
    last: Option<Column>,
) -> Result<Item, AllocError>
    ensures { IfOk result (λ item. message item ≡ get_call object first last) }
{
    let mut args = Vec::new(alloc);
    args.push(list_value(cellblock_of(alloc, first, last)?))?;
    Ok(call_with(object, Uid::GET, args))
}

/// Set of cells of an object, each with its column as its name.
pub(crate) fn set_call(alloc: Global, object: Uid, cells: Vec<Value>) -> Result<Item, AllocError>
    ensures { IfOk result (λ item. message item ≡ set_call object (map tree cells.items)) }
{
    let mut args = Vec::new(alloc);
    let name = Value::Number(parameter::VALUES);
    args.push(named_value(alloc, name, list_value(cells))?)?;
    Ok(call_with(object, Uid::SET, args))
}

/// Authenticate of an authority, by its proof.
pub(crate) fn authenticate_call(
    alloc: Global,
    authority: Uid,
    proof: Option<Bytes>,
) -> Result<Item, AllocError>
    ensures { IfOk result (λ item. message item ≡ authenticate_call authority proof) }
{
    let mut args = Vec::new(alloc);
    args.push(uid_value(alloc, authority)?)?;
    add_optional(
        alloc,
        parameter::PROOF,
        bytes_value_if_any(proof),
        &mut args,
    )?;
    Ok(call_with(Uid::THIS_SP, Uid::AUTHENTICATE, args))
}

/// Activate of the Locking SP.
pub(crate) fn activate_call(alloc: Global) -> Item
    ensures { message result ≡ activate_call }
{
    call_with(Uid::LOCKING_SP, Uid::ACTIVATE, Vec::new(alloc))
}

/// Revert of an SP.
pub(crate) fn revert_call(alloc: Global, sp: Uid) -> Item
    ensures { message result ≡ revert_call sp }
{
    call_with(sp, Uid::REVERT, Vec::new(alloc))
}
