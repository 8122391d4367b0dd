//! Calls of a drive by its handle.

ghost use Rattle.std.specs.Prelude.{◌≡◌, None, map, IfOk, IfErr, OnOk, MatchOption};
ghost use Rattle.sp_cells.specs.Config.{Config};
ghost use Rattle.opalport_c.specs.Asked.{CanBe, ConfigAsked, IsMakingFault, StartsAs, row_asked};
ghost use Rattle.opalport_c.specs.Desks.{IsNewDesk};
ghost use Rattle.opalport_c.specs.declared.drive_desk.DriveDesk.{DriveDesk};
ghost use Rattle.opalport_c.specs.declared.object.Object.TheVariants as objects;
ghost use Rattle.opalport_c.specs.Calls.{AcceptsBy, AcceptsInto, FinishesBy, FinishesInto, Resets, CountsPayload, CountsExpected, TellsFailure, CopiesData, CopiesDenial, MakesDrive};
ghost use Rattle.library_calls.specs.Refusals.{done_code, code_of_call};
ghost use Rattle.library_calls.specs.declared.byte_calls.error.CallError.TheVariants.{NotOpen, OutOfMemory};

use crate::answer::Answer;
use crate::asked::{Names, RangeCells, Size, drive_made};
use crate::drive_desk::DriveDesk;
use crate::failed::Failed;
use crate::handle::Handle;
use crate::object::Object;
use drive::Drive;
use library_calls::byte_calls::{CallError, Count, DONE};
use std::alloc::Global;

/// This drive, that has answered nothing. It is a call of its own for the stack that it takes, as that of a port.
#[inline(never)]
fn desk_over(alloc: Global, drive: Drive) -> Result<Box<Object>, CallError>
    ensures made { IfOk result (λ object. (desk : DriveDesk)
        × (object.value ≡ objects.Drive desk) × IsNewDesk desk × (desk.drive ≡ drive)) }
    ensures why { IfErr result (λ e. e ≡ OutOfMemory) }
{
    Object::Drive(DriveDesk::new(alloc, drive)).boxed(alloc)
}

/// The drive that is asked for.
fn desk_asked(
    alloc: Global,
    size: &Size,
    names: &Names<'_>,
    cells: &[RangeCells],
) -> Result<Box<Object>, CallError>
    ensures made { IfOk result (λ object. (desk : DriveDesk) × (object.value ≡ objects.Drive desk)
        × IsNewDesk desk × ((config : Config)
        × ConfigAsked size.now names.now.msid.now names.now.serial.now
        names.now.model.now names.now.psid.now config
        × StartsAs config (map row_asked cells.now) desk.drive)) }
    ensures can { OnOk result (CanBe size.now names.now.msid.now names.now.serial.now
        names.now.model.now names.now.psid.now cells.now) }
    ensures why { IfErr result (IsMakingFault size.now names.now.msid.now names.now.serial.now
        names.now.model.now names.now.psid.now cells.now) }
{
    let drive = drive_made(alloc, size, names, cells)?;
    desk_over(alloc, drive)
}

/// Makes the drive that is asked for, at a handle with nothing. It tells 0, or the number of the refusal: `InUse`,
/// a setting that no drive has ([`drive_made`]), `NoRange`, `Overlap`, `Beyond`, want of memory. Then nothing was made.
fn drive_new(
    handle: &mut Handle,
    alloc: Global,
    size: &Size,
    names: &Names<'_>,
    cells: &[RangeCells],
) -> u32
    ensures { MakesDrive handle.old.place.kept handle.new.place.kept size.now names.now.msid.now
        names.now.serial.now names.now.model.now names.now.psid.now cells.now result }
{
    if handle.is_open() {
        return CallError::InUse.code();
    }
    match desk_asked(alloc, size, names, cells) {
        Ok(object) => {
            handle.put(object);
            DONE
        }
        Err(error) => error.code(),
    }
}

/// Makes it as [`drive_new`] does, with the parts of the configuration one by one: `opal_drive_new` of the header.
#[unsafe(no_mangle)]
pub extern "C" fn opal_raw_drive_new(
    handle: &mut Handle,
    alloc: Global,
    size: Size,
    msid: &[u8],
    serial: &[u8],
    model: &[u8],
    psid: &[u8],
    cells: &[RangeCells],
) -> u32
    ensures { MakesDrive handle.old.place.kept handle.new.place.kept size msid.now serial.now
        model.now psid.now cells.now result }
{
    let names = Names {
        msid,
        serial,
        model,
        psid,
    };
    drive_new(handle, alloc, &size, &names, cells)
}

/// Frees what the handle has: it has nothing then. It tells 0, or the number of `NotOpen`.
#[unsafe(no_mangle)]
pub extern "C" fn opal_raw_free(handle: &mut Handle, alloc: Global) -> u32
    ensures none { handle.new.place.kept ≡ None }
    ensures code { MatchOption handle.old.place.kept (result ≡ code_of_call NotOpen)
        (λ object. result ≡ done_code) }
{
    match handle.take(alloc) {
        Some(_) => DONE,
        None => CallError::NotOpen.code(),
    }
}

/// Gives the drive the FIS of a command, with the payload that it brings.
#[unsafe(no_mangle)]
pub extern "C" fn opal_raw_drive_accept(
    handle: &mut Handle,
    alloc: Global,
    fis: &[u8],
    payload: &[u8],
) -> Answer
    ensures { AcceptsBy handle.old.place.kept handle.new.place.kept fis.now payload.now result }
{
    let Some(mut object) = handle.take(alloc) else {
        return Answer::refused(CallError::NotOpen);
    };
    let told = object.take_command(fis, payload);
    handle.put(object);
    told
}

/// Has the drive complete what it holds under a tag, with the payload that this brings.
#[unsafe(no_mangle)]
pub extern "C" fn opal_raw_drive_complete(
    handle: &mut Handle,
    alloc: Global,
    tag: u8,
    payload: &[u8],
) -> Answer
    ensures { FinishesBy handle.old.place.kept handle.new.place.kept tag payload.now result }
{
    let Some(mut object) = handle.take(alloc) else {
        return Answer::refused(CallError::NotOpen);
    };
    let told = object.finish(tag, payload);
    handle.put(object);
    told
}

/// [`opal_raw_drive_accept`], with the data of the answer at the front of a buffer, where they have room there. A buffer that
/// is too short is as before: [`opal_raw_drive_data`] gives the data then.
#[unsafe(no_mangle)]
pub extern "C" fn opal_raw_drive_accept_into(
    handle: &mut Handle,
    alloc: Global,
    fis: &[u8],
    payload: &[u8],
    into: &mut [u8],
) -> Answer
    ensures { AcceptsInto handle.old.place.kept handle.new.place.kept fis.now payload.now
        into.old into.new result }
{
    let Some(mut object) = handle.take(alloc) else {
        return Answer::refused(CallError::NotOpen);
    };
    let told = object.take_command_into(fis, payload, into);
    handle.put(object);
    told
}

/// [`opal_raw_drive_complete`], with the data of the answer in a buffer, as [`opal_raw_drive_accept_into`] has it.
#[unsafe(no_mangle)]
pub extern "C" fn opal_raw_drive_complete_into(
    handle: &mut Handle,
    alloc: Global,
    tag: u8,
    payload: &[u8],
    into: &mut [u8],
) -> Answer
    ensures { FinishesInto handle.old.place.kept handle.new.place.kept tag payload.now
        into.old into.new result }
{
    let Some(mut object) = handle.take(alloc) else {
        return Answer::refused(CallError::NotOpen);
    };
    let told = object.finish_into(tag, payload, into);
    handle.put(object);
    told
}

/// Resets the drive: 0 is a power cycle, 1 a hardware reset.
#[unsafe(no_mangle)]
pub extern "C" fn opal_raw_drive_reset(handle: &mut Handle, alloc: Global, kind: u32) -> u32
    ensures { Resets handle.old.place.kept handle.new.place.kept kind result }
{
    let Some(mut object) = handle.take(alloc) else {
        return CallError::NotOpen.code();
    };
    let told = object.reset(kind);
    handle.put(object);
    told
}

/// How many bytes a command brings, by its FIS.
#[unsafe(no_mangle)]
pub extern "C" fn opal_raw_drive_payload(handle: &mut Handle, alloc: Global, fis: &[u8]) -> Count
    ensures { CountsPayload handle.old.place.kept handle.new.place.kept fis.now result }
{
    let Some(mut object) = handle.take(alloc) else {
        return Count::refused(CallError::NotOpen);
    };
    let told = object.payload_length(fis);
    handle.put(object);
    told
}

/// How many bytes a completion under a tag brings.
#[unsafe(no_mangle)]
pub extern "C" fn opal_raw_drive_expects(handle: &mut Handle, alloc: Global, tag: u8) -> Count
    ensures { CountsExpected handle.old.place.kept handle.new.place.kept tag result }
{
    let Some(mut object) = handle.take(alloc) else {
        return Count::refused(CallError::NotOpen);
    };
    let told = object.expected_length(tag);
    handle.put(object);
    told
}

/// How the queue of the drive has failed, if it has.
#[unsafe(no_mangle)]
pub extern "C" fn opal_raw_drive_failure(handle: &mut Handle, alloc: Global) -> Failed
    ensures { TellsFailure handle.old.place.kept handle.new.place.kept result }
{
    let Some(mut object) = handle.take(alloc) else {
        return Failed::refused(CallError::NotOpen);
    };
    let told = object.failure();
    handle.put(object);
    told
}

/// Copies the data of the last answer.
#[unsafe(no_mangle)]
pub extern "C" fn opal_raw_drive_data(handle: &mut Handle, alloc: Global, into: &mut [u8]) -> Count
    ensures { CopiesData handle.old.place.kept handle.new.place.kept into.old into.new result }
{
    let Some(mut object) = handle.take(alloc) else {
        return Count::refused(CallError::NotOpen);
    };
    let told = object.copy_data(into);
    handle.put(object);
    told
}

/// Copies the line of the audit log that tells what denied the last command.
#[unsafe(no_mangle)]
pub extern "C" fn opal_raw_drive_denial(
    handle: &mut Handle,
    alloc: Global,
    client: u32,
    into: &mut [u8],
) -> Count
    ensures { CopiesDenial handle.old.place.kept handle.new.place.kept
        client into.old into.new result }
{
    let Some(mut object) = handle.take(alloc) else {
        return Count::refused(CallError::NotOpen);
    };
    let told = object.copy_denial(alloc, client, into);
    handle.put(object);
    told
}
