//! A drive of bytes.

ghost use Rattle.std.specs.Prelude.{◌≡◌, List, IfOk, OnOk};
ghost use Rattle.history.specs.Opening.{Origin};
ghost use Rattle.history.specs.History.{Act};
ghost use Rattle.drive.specs.State.{Agrees};
ghost use Rattle.drive.specs.Rest.{IsOff};
ghost use Rattle.saved.specs.Saved.{IsSaved, IsSavedBy};

use crate::error::{LoadError, SaveError};
use crate::reading::drive_of;
use crate::saving::save_off;
use drive::Drive;
use std::alloc::Global;
use tcg_tokens::{Item, TokenError, read_item};

/// The drive that one reply says. It is off.
fn read_drive(alloc: Global, text: &[u8]) -> Result<Drive, LoadError>
    ensures { IfOk result IsOff }
{
    match read_item(alloc, text) {
        Ok(Item::Reply { results, .. }) => drive_of(alloc, &results),
        Ok(_) => Err(LoadError::NotADrive),
        Err(TokenError::OutOfMemory) => Err(LoadError::OutOfMemory),
        Err(_) => Err(LoadError::NotADrive),
    }
}

/// The bytes of a drive that is off, which was loaded.
fn save_again(alloc: Global, drive: &Drive) -> Result<Vec<u8>, LoadError>
    ensures { IfOk result (λ text. IsOff drive.now → IsSaved text.items drive.now) }
{
    match save_off(alloc, drive) {
        Ok(text) => Ok(text),
        Err(SaveError::OutOfMemory) => Err(LoadError::OutOfMemory),
        Err(SaveError::Unwritable) => Err(LoadError::Damaged),
    }
}

/// Sees that what a drive is saved as again is what it was loaded of.
fn see_same(own: &[u8], text: &[u8]) -> Result<(), LoadError>
    ensures { OnOk result (own.now ≡ text.now) }
{
    if own != text {
        return Err(LoadError::Damaged);
    }
    Ok(())
}

/// The drive that was saved as these bytes. It is off, as a power cycle leaves it: each answer from now on is the one
/// that the saved drive gives behind a power cycle.
///
/// # Errors
///
/// `OutOfMemory`; `NotADrive`, `Version` and `Damaged` where no drive is saved as these bytes. They are looked at
/// twice: a drive is given only where it is saved as just these bytes again.
pub fn load(alloc: Global, text: &[u8]) -> Result<Drive, LoadError>
    ensures agrees { IfOk result (λ drive. (o : Origin) (acts : List Act)
        → IsSavedBy text.now o acts → Agrees drive o acts) }
    ensures saved { IfOk result (IsSaved text.now) }
{
    let drive = read_drive(alloc, text)?;
    let own = save_again(alloc, &drive)?;
    see_same(&own, text)?;
    Ok(drive)
}
