//! How objects and columns are called: by the names of the standards, or else by their numbers.

ghost use Rattle.std.specs.Prelude.{◌≡◌, ◌++◌, OnOk, decimal};
ghost use Rattle.audit.specs.Names.{uid_text};
ghost use Rattle.reasons.specs.Called.{called_object, called_column};

use basics::{append_decimal, append_hex};
use sp_cells::{Column, Uid};
use std::alloc::{AllocError, Global};
use tcg_calls::tcg_names::{column_name, object_name};

/// Appends the name of an object or a method, as `Locking_Range1`; where the standards give it none, the sixteen hex
/// digits of its UID.
///
/// # Errors
///
/// An allocation was refused.
pub fn append_object_name(alloc: Global, text: &mut Vec<u8>, object: Uid) -> Result<(), AllocError>
    ensures { OnOk result (text.new.items ≡ text.old.items ++ called_object object) }
{
    match object_name(alloc, object)? {
        Some(name) => text.extend_from_slice(name.as_bytes())?,
        None => append_hex(text, &object.0.to_be_bytes())?,
    }
    Ok(())
}

/// Appends the name of a column of the table that has this object, as `ReadLocked`; where the standards give it none,
/// its number.
///
/// # Errors
///
/// An allocation was refused.
pub fn append_column_name(
    alloc: Global,
    text: &mut Vec<u8>,
    object: Uid,
    column: Column,
) -> Result<(), AllocError>
    ensures { OnOk result (text.new.items ≡ text.old.items ++ called_column object column) }
{
    match column_name(object.table(), column) {
        Some(name) => text.extend_from_slice(name.as_bytes())?,
        None => append_decimal(alloc, text, column.0)?,
    }
    Ok(())
}
