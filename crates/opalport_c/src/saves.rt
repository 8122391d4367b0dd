//! A drive that is saved as bytes, one that is loaded from them, and a controller over such a one.

ghost use Rattle.std.specs.Prelude.{◌≡◌, List, IfOk, IfErr};
ghost use Rattle.history.specs.Opening.{Origin};
ghost use Rattle.history.specs.History.{Act};
ghost use Rattle.drive.specs.State.{Agrees};
ghost use Rattle.saved.specs.Saved.{IsSavedBy};
ghost use Rattle.host_memory.specs.Access.{width_by};
ghost use Rattle.opalport_c.specs.About.{drive_of};
ghost use Rattle.opalport_c.specs.Saves.{IsTextOf, IsFormFault, IsLoadedDrive, IsLoadedHba, SavesTo, SavesByHandle, Loads};

use crate::copies::of_drive;
use crate::drive_desk::DriveDesk;
use crate::handle::Handle;
use crate::hbas::hba_over;
use crate::object::Object;
use drive::Drive;
use hba::AddressWidth;
use library_calls::byte_calls::{CallError, Count, DONE, copy_out};
use saved::{LoadError, SaveError, load, save};
use std::alloc::Global;

/// The bytes of a drive, as a power cycle leaves it. It is a call of its own for the stack that it takes, as are those below.
#[inline(never)]
fn text_of(alloc: Global, drive: &Drive) -> Result<Vec<u8>, CallError>
    ensures text { IfOk result (λ text. IsTextOf drive.now text.items) }
    ensures why { IfErr result IsFormFault }
{
    match save(alloc, drive) {
        Ok(text) => Ok(text),
        Err(SaveError::OutOfMemory) => Err(CallError::OutOfMemory),
        Err(SaveError::Unwritable) => Err(CallError::Malformed),
    }
}

/// Copies them into a buffer.
fn copy_drive(alloc: Global, drive: &Drive, into: &mut [u8]) -> Count
    ensures { SavesTo drive.now into.old into.new result }
{
    match text_of(alloc, drive) {
        Ok(text) => copy_out(&text, into),
        Err(error) => Count::refused(error),
    }
}

impl Object {
    ghost use Rattle.opalport_c.specs.About.{drive_of};

    /// Copies the bytes of its drive.
    fn save(&self, alloc: Global, into: &mut [u8]) -> Count
        ensures { SavesTo (drive_of self.now) into.old into.new result }
    {
        copy_drive(alloc, self.drive(), into)
    }
}

/// The drive that was saved as these bytes.
#[inline(never)]
fn drive_of_text(alloc: Global, text: &[u8]) -> Result<Drive, CallError>
    ensures loaded { IfOk result (λ drive. (o : Origin) (acts : List Act)
        → IsSavedBy text.now o acts → Agrees drive o acts) }
    ensures why { IfErr result IsFormFault }
{
    match load(alloc, text) {
        Ok(drive) => Ok(drive),
        Err(LoadError::OutOfMemory) => Err(CallError::OutOfMemory),
        Err(LoadError::NotADrive | LoadError::Version | LoadError::Damaged) => {
            Err(CallError::Malformed)
        }
    }
}

/// Its desk, in a box.
#[inline(never)]
fn desk_of_text(alloc: Global, text: &[u8]) -> Result<Box<Object>, CallError>
    ensures loaded { IfOk result (λ object. IsLoadedDrive text.now object.value) }
    ensures why { IfErr result IsFormFault }
{
    let drive = drive_of_text(alloc, text)?;
    let desk = DriveDesk::new(alloc, drive);
    let object = of_drive(alloc, desk)?;
    Ok(object)
}

/// A controller over it, whose addresses have so many bits, in a box.
#[inline(never)]
fn hba_of_text(alloc: Global, text: &[u8], width: AddressWidth) -> Result<Box<Object>, CallError>
    ensures loaded { IfOk result (λ object. IsLoadedHba width text.now object.value) }
    ensures why { IfErr result IsFormFault }
{
    let drive = drive_of_text(alloc, text)?;
    let object = hba_over(alloc, drive, width)?;
    Ok(object)
}

/// Copies the bytes of the handle's drive, as a power cycle leaves it, into a buffer: `opal_save` of the header. A buffer that
/// is too short is as before, and the number of the bytes is told. What the handle has is as before.
#[unsafe(no_mangle)]
pub extern "C" fn opal_raw_save(handle: &mut Handle, alloc: Global, into: &mut [u8]) -> Count
    ensures { SavesByHandle handle.old.place.kept handle.new.place.kept into.old into.new result }
{
    let Some(object) = handle.take(alloc) else {
        return Count::refused(CallError::NotOpen);
    };
    let told = object.save(alloc, into);
    handle.put(object);
    told
}

/// Makes the drive that was saved as these bytes, at a handle with nothing: `opal_drive_load` of the header. It tells 0, or the
/// number of the refusal: `InUse`, want of memory, `Malformed` where no drive is saved as these bytes. Then nothing was made.
#[unsafe(no_mangle)]
pub extern "C" fn opal_raw_drive_load(handle: &mut Handle, alloc: Global, text: &[u8]) -> u32
    ensures { Loads handle.old.place.kept handle.new.place.kept (IsLoadedDrive text.now) result }
{
    if handle.is_open() {
        return CallError::InUse.code();
    }
    match desk_of_text(alloc, text) {
        Ok(object) => {
            handle.put(object);
            DONE
        }
        Err(error) => error.code(),
    }
}

/// Makes a controller over the drive that was saved as these bytes, at a handle with nothing: `opal_hba_load` of the header. Its
/// registers are as after its reset, its addresses have 64 bits where it is `wide`, and it counts the acts of its drive from now
/// on. It tells what `opal_raw_drive_load` does.
#[unsafe(no_mangle)]
pub extern "C" fn opal_raw_hba_load(
    handle: &mut Handle,
    alloc: Global,
    text: &[u8],
    wide: bool,
) -> u32
    ensures { Loads handle.old.place.kept handle.new.place.kept
        (IsLoadedHba (width_by wide) text.now) result }
{
    if handle.is_open() {
        return CallError::InUse.code();
    }
    match hba_of_text(alloc, text, AddressWidth::by(wide)) {
        Ok(object) => {
            handle.put(object);
            DONE
        }
        Err(error) => error.code(),
    }
}
