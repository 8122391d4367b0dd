//! Calls of a port by its handle.

ghost use Rattle.std.specs.Prelude.{◌≡◌, map, IfOk, IfErr, OnOk};
ghost use Rattle.sp_cells.specs.Config.{Config};
ghost use Rattle.port_history.specs.Requests.{no_bytes};
ghost use Rattle.port_history.specs.declared.step.Step.TheVariants as steps;
ghost use Rattle.library_calls.specs.declared.port_calls.desk.PortDesk.{PortDesk};
ghost use Rattle.opalport_c.specs.Asked.{CanBe, ConfigAsked, IsMakingFault, row_asked};
ghost use Rattle.opalport_c.specs.PortCalls.{MakesPort, PortOver, PortStartsAs, PutsByHandle, StepsByHandle, RecoversByHandle, ResetsByHandle, TakesByHandle, TurnsByHandle, ListsByHandle, CopiesTaken, CopiesLogged, ShowsByHandle};
ghost use Rattle.opalport_c.specs.declared.object.Object.TheVariants as objects;
ghost use Rattle.library_calls.specs.declared.byte_calls.error.CallError.TheVariants.{OutOfMemory};

use crate::asked::{Names, RangeCells, Size, drive_made};
use crate::handle::Handle;
use crate::object::Object;
use drive::Drive;
use library_calls::byte_calls::{CallError, Count, DONE};
use library_calls::port_calls::{Asked, PortDesk, ReadyStep, Shown, Taken};
use port::LivePort;
use std::alloc::Global;

/// The port over this drive, of which nothing was taken yet. What it takes of the stack is large: so it is a call of its own,
/// and not there while the drive is made.
#[inline(never)]
fn port_over(alloc: Global, drive: Drive) -> Result<Box<Object>, CallError>
    ensures made { IfOk result (λ object. (desk : PortDesk) × (object.value ≡ objects.Port desk)
        × (desk.last ≡ no_bytes) × PortOver drive desk.port) }
    ensures why { IfErr result (λ e. e ≡ OutOfMemory) }
{
    match LivePort::new(alloc, drive) {
        Ok(port) => Object::Port(PortDesk::new(port)).boxed(alloc),
        Err(_) => Err(CallError::OutOfMemory),
    }
}

/// The port that is asked for.
fn port_asked(
    alloc: Global,
    size: &Size,
    names: &Names<'_>,
    cells: &[RangeCells],
) -> Result<Box<Object>, CallError>
    ensures made { IfOk result (λ object. (desk : PortDesk) × (object.value ≡ objects.Port desk)
        × (desk.last ≡ no_bytes) × ((config : Config)
        × ConfigAsked size.now names.now.msid.now names.now.serial.now
        names.now.model.now names.now.psid.now config
        × PortStartsAs config (map row_asked cells.now) desk.port)) }
    ensures can { OnOk result (CanBe size.now names.now.msid.now names.now.serial.now
        names.now.model.now names.now.psid.now cells.now) }
    ensures why { IfErr result (IsMakingFault size.now names.now.msid.now names.now.serial.now
        names.now.model.now names.now.psid.now cells.now) }
{
    let drive = drive_made(alloc, size, names, cells)?;
    port_over(alloc, drive)
}

/// Makes a port over the drive that is asked for, at a handle with nothing. It tells 0, or the number of the refusal, as
/// `drive_new` does. Then nothing was made.
fn port_new(
    handle: &mut Handle,
    alloc: Global,
    size: &Size,
    names: &Names<'_>,
    cells: &[RangeCells],
) -> u32
    ensures { MakesPort handle.old.place.kept handle.new.place.kept size.now names.now.msid.now
        names.now.serial.now names.now.model.now names.now.psid.now cells.now result }
{
    if handle.is_open() {
        return CallError::InUse.code();
    }
    match port_asked(alloc, size, names, cells) {
        Ok(object) => {
            handle.put(object);
            DONE
        }
        Err(error) => error.code(),
    }
}

/// Makes it as [`port_new`] does, with the parts of the configuration one by one: `opal_port_new` of the header.
#[unsafe(no_mangle)]
pub extern "C" fn opal_raw_port_new(
    handle: &mut Handle,
    alloc: Global,
    size: Size,
    msid: &[u8],
    serial: &[u8],
    model: &[u8],
    psid: &[u8],
    cells: &[RangeCells],
) -> u32
    ensures { MakesPort handle.old.place.kept handle.new.place.kept size msid.now serial.now
        model.now psid.now cells.now result }
{
    let names = Names {
        msid,
        serial,
        model,
        psid,
    };
    port_new(handle, alloc, &size, &names, cells)
}

/// A client puts a request in the slot of a tag, with a copy of its payload: [`PortDesk::put`].
#[unsafe(no_mangle)]
pub extern "C" fn opal_raw_port_put(
    handle: &mut Handle,
    alloc: Global,
    client: u32,
    tag: u8,
    asked: Asked,
    payload: &[u8],
) -> Count
    ensures { PutsByHandle handle.old.place.kept handle.new.place.kept
        client tag asked payload.now result }
{
    let Some(mut object) = handle.take(alloc) else {
        return Count::refused(CallError::NotOpen);
    };
    let told = object.put(alloc, client, tag, &asked, payload);
    handle.put(object);
    told
}

/// The port issues a prepared command: [`PortDesk::issue`].
#[unsafe(no_mangle)]
pub extern "C" fn opal_raw_port_issue(handle: &mut Handle, alloc: Global, tag: u8) -> Count
    ensures { StepsByHandle handle.old.place.kept handle.new.place.kept steps.Issue tag result }
{
    let Some(mut object) = handle.take(alloc) else {
        return Count::refused(CallError::NotOpen);
    };
    let told = object.issue(tag);
    handle.put(object);
    told
}

/// The device takes an issued command: [`PortDesk::accept`].
#[unsafe(no_mangle)]
pub extern "C" fn opal_raw_port_accept(handle: &mut Handle, alloc: Global, tag: u8) -> Count
    ensures { StepsByHandle handle.old.place.kept handle.new.place.kept steps.Accept tag result }
{
    let Some(mut object) = handle.take(alloc) else {
        return Count::refused(CallError::NotOpen);
    };
    let told = object.accept(tag);
    handle.put(object);
    told
}

/// The device moves the data of an accepted command, and ends it: [`PortDesk::complete`].
#[unsafe(no_mangle)]
pub extern "C" fn opal_raw_port_complete(handle: &mut Handle, alloc: Global, tag: u8) -> Count
    ensures { StepsByHandle handle.old.place.kept handle.new.place.kept steps.Complete tag result }
{
    let Some(mut object) = handle.take(alloc) else {
        return Count::refused(CallError::NotOpen);
    };
    let told = object.complete(tag);
    handle.put(object);
    told
}

/// The port recovers from a failed command: [`PortDesk::recover`].
#[unsafe(no_mangle)]
pub extern "C" fn opal_raw_port_recover(handle: &mut Handle, alloc: Global) -> Count
    ensures { RecoversByHandle handle.old.place.kept handle.new.place.kept result }
{
    let Some(mut object) = handle.take(alloc) else {
        return Count::refused(CallError::NotOpen);
    };
    let told = object.recover();
    handle.put(object);
    told
}

/// A client resets the port and the drive: 0 is a power cycle, 1 a hardware reset.
#[unsafe(no_mangle)]
pub extern "C" fn opal_raw_port_reset(
    handle: &mut Handle,
    alloc: Global,
    client: u32,
    kind: u32,
) -> Count
    ensures { ResetsByHandle handle.old.place.kept handle.new.place.kept client kind result }
{
    let Some(mut object) = handle.take(alloc) else {
        return Count::refused(CallError::NotOpen);
    };
    let told = object.reset_port(client, kind);
    handle.put(object);
    told
}

/// A client takes its answer, and the slot is free: [`PortDesk::take`].
#[unsafe(no_mangle)]
pub extern "C" fn opal_raw_port_take(
    handle: &mut Handle,
    alloc: Global,
    client: u32,
    tag: u8,
) -> Taken
    ensures { TakesByHandle handle.old.place.kept handle.new.place.kept client tag result }
{
    let Some(mut object) = handle.take(alloc) else {
        return Taken::refused(CallError::NotOpen.code());
    };
    let told = object.take_answer(client, tag);
    handle.put(object);
    told
}

/// The engine does the step at `choice`, modulo their number, of those that are ready: [`PortDesk::turn`].
#[unsafe(no_mangle)]
pub extern "C" fn opal_raw_port_turn(handle: &mut Handle, alloc: Global, choice: usize) -> Count
    ensures { TurnsByHandle handle.old.place.kept handle.new.place.kept choice result }
{
    let Some(mut object) = handle.take(alloc) else {
        return Count::refused(CallError::NotOpen);
    };
    let told = object.turn(choice);
    handle.put(object);
    told
}

/// Writes the steps that the engine may do now into a buffer.
#[unsafe(no_mangle)]
pub extern "C" fn opal_raw_port_ready(
    handle: &mut Handle,
    alloc: Global,
    into: &mut [ReadyStep],
) -> Count
    ensures { ListsByHandle handle.old.place.kept handle.new.place.kept into.old into.new result }
{
    let Some(mut object) = handle.take(alloc) else {
        return Count::refused(CallError::NotOpen);
    };
    let told = object.copy_ready(into);
    handle.put(object);
    told
}

/// Copies the data of what was taken last.
#[unsafe(no_mangle)]
pub extern "C" fn opal_raw_port_data(handle: &mut Handle, alloc: Global, into: &mut [u8]) -> Count
    ensures { CopiesTaken handle.old.place.kept handle.new.place.kept into.old into.new result }
{
    let Some(mut object) = handle.take(alloc) else {
        return Count::refused(CallError::NotOpen);
    };
    let told = object.copy_taken(into);
    handle.put(object);
    told
}

/// What the port shows: its registers, and how many denials there were.
#[unsafe(no_mangle)]
pub extern "C" fn opal_raw_port_shown(handle: &mut Handle, alloc: Global) -> Shown
    ensures { ShowsByHandle handle.old.place.kept handle.new.place.kept result }
{
    let Some(mut object) = handle.take(alloc) else {
        return Shown::refused(CallError::NotOpen);
    };
    let told = object.shown();
    handle.put(object);
    told
}

/// Copies the line of the audit log at a place, 0 the oldest, if it is one of the 64 latest: else no bytes.
#[unsafe(no_mangle)]
pub extern "C" fn opal_raw_port_denial(
    handle: &mut Handle,
    alloc: Global,
    place: usize,
    into: &mut [u8],
) -> Count
    ensures { CopiesLogged handle.old.place.kept handle.new.place.kept
        place into.old into.new result }
{
    let Some(mut object) = handle.take(alloc) else {
        return Count::refused(CallError::NotOpen);
    };
    let told = object.copy_logged(alloc, place, into);
    handle.put(object);
    told
}
