//! Calls of a controller by its handle.

ghost use Rattle.std.specs.Prelude.{◌≡◌, None, map, IfOk, IfErr, OnOk};
ghost use Rattle.sp_cells.specs.Config.{Config};
ghost use Rattle.host_memory.specs.Access.{width_by};
ghost use Rattle.library_calls.specs.declared.hba_calls.desk.HbaDesk.{HbaDesk};
ghost use Rattle.opalport_c.specs.Asked.{CanBe, ConfigAsked, IsMakingFault, row_asked};
ghost use Rattle.opalport_c.specs.HbaCalls.{MakesHba, HbaOver, HbaStartsAs, ReadsWord, TellsInterrupt, WritesByHandle, CyclesByHandle, WorksByHandle, WorksWithin, CopiesDenied};
ghost use Rattle.opalport_c.specs.declared.object.Object.TheVariants as objects;
ghost use Rattle.library_calls.specs.declared.byte_calls.error.CallError.TheVariants.{OutOfMemory};

use crate::asked::{Names, RangeCells, Size, drive_made};
use crate::handle::Handle;
use crate::object::Object;
use drive::Drive;
use hba::{AddressWidth, Hba};
use library_calls::byte_calls::{CallError, Count, DONE};
use library_calls::hba_calls::{HbaDesk, Region, Worked};
use std::alloc::Global;

/// The controller over this drive, whose addresses have so many bits. It is a call of its own for the stack that it takes, as that of a port.
#[inline(never)]
pub(crate) fn hba_over(
    alloc: Global,
    drive: Drive,
    width: AddressWidth,
) -> Result<Box<Object>, CallError>
    ensures made { IfOk result (λ object. (desk : HbaDesk) × (object.value ≡ objects.Hba desk)
        × (desk.denied ≡ None) × HbaOver width drive desk.hba) }
    ensures why { IfErr result (λ e. e ≡ OutOfMemory) }
{
    Object::Hba(HbaDesk::new(Hba::with_addresses(alloc, drive, width))).boxed(alloc)
}

/// The controller that is asked for.
fn hba_asked(
    alloc: Global,
    size: &Size,
    names: &Names<'_>,
    cells: &[RangeCells],
) -> Result<Box<Object>, CallError>
    ensures made { IfOk result (λ object. (desk : HbaDesk) × (object.value ≡ objects.Hba desk)
        × (desk.denied ≡ None) × ((config : Config)
        × ConfigAsked size.now names.now.msid.now names.now.serial.now
        names.now.model.now names.now.psid.now config
        × HbaStartsAs (width_by size.now.wide) config (map row_asked cells.now) desk.hba)) }
    ensures can { OnOk result (CanBe size.now names.now.msid.now names.now.serial.now
        names.now.model.now names.now.psid.now cells.now) }
    ensures why { IfErr result (IsMakingFault size.now names.now.msid.now names.now.serial.now
        names.now.model.now names.now.psid.now cells.now) }
{
    let drive = drive_made(alloc, size, names, cells)?;
    hba_over(alloc, drive, AddressWidth::by(size.wide))
}

/// Makes a controller over the drive that is asked for, at a handle with nothing. It tells 0, or the number of the refusal,
/// as `drive_new` does. Then nothing was made.
fn hba_new(
    handle: &mut Handle,
    alloc: Global,
    size: &Size,
    names: &Names<'_>,
    cells: &[RangeCells],
) -> u32
    ensures { MakesHba handle.old.place.kept handle.new.place.kept size.now names.now.msid.now
        names.now.serial.now names.now.model.now names.now.psid.now cells.now result }
{
    if handle.is_open() {
        return CallError::InUse.code();
    }
    match hba_asked(alloc, size, names, cells) {
        Ok(object) => {
            handle.put(object);
            DONE
        }
        Err(error) => error.code(),
    }
}

/// Makes it as [`hba_new`] does, with the parts of the configuration one by one: `opal_hba_new` of the header.
#[unsafe(no_mangle)]
pub extern "C" fn opal_raw_hba_new(
    handle: &mut Handle,
    alloc: Global,
    size: Size,
    msid: &[u8],
    serial: &[u8],
    model: &[u8],
    psid: &[u8],
    cells: &[RangeCells],
) -> u32
    ensures { MakesHba handle.old.place.kept handle.new.place.kept size msid.now serial.now
        model.now psid.now cells.now result }
{
    let names = Names {
        msid,
        serial,
        model,
        psid,
    };
    hba_new(handle, alloc, &size, &names, cells)
}

/// The word that the host reads at an offset of the register space: 0 where no register stands.
#[unsafe(no_mangle)]
pub extern "C" fn opal_raw_hba_read(handle: &mut Handle, alloc: Global, offset: u32) -> Count
    ensures { ReadsWord handle.old.place.kept handle.new.place.kept offset result }
{
    let Some(mut object) = handle.take(alloc) else {
        return Count::refused(CallError::NotOpen);
    };
    let told = object.read(offset);
    handle.put(object);
    told
}

/// The host's write of a word at an offset of the register space.
#[unsafe(no_mangle)]
pub extern "C" fn opal_raw_hba_write(
    handle: &mut Handle,
    alloc: Global,
    offset: u32,
    value: u32,
) -> u32
    ensures { WritesByHandle handle.old.place.kept handle.new.place.kept offset value result }
{
    let Some(mut object) = handle.take(alloc) else {
        return CallError::NotOpen.code();
    };
    let told = object.write(offset, value);
    handle.put(object);
    told
}

/// The controller and its drive lose power, and have it again: [`HbaDesk::power_cycle`].
#[unsafe(no_mangle)]
pub extern "C" fn opal_raw_hba_power_cycle(handle: &mut Handle, alloc: Global) -> u32
    ensures { CyclesByHandle handle.old.place.kept handle.new.place.kept result }
{
    let Some(mut object) = handle.take(alloc) else {
        return CallError::NotOpen.code();
    };
    let told = object.power_cycle();
    handle.put(object);
    told
}

/// The interrupt line, as 0 or 1.
#[unsafe(no_mangle)]
pub extern "C" fn opal_raw_hba_interrupt(handle: &mut Handle, alloc: Global) -> Count
    ensures { TellsInterrupt handle.old.place.kept handle.new.place.kept result }
{
    let Some(mut object) = handle.take(alloc) else {
        return Count::refused(CallError::NotOpen);
    };
    let told = object.interrupt();
    handle.put(object);
    told
}

/// The controller does the work of the number `choice`, modulo how many are ready, over the memory whose bytes these are,
/// from the address `base` on.
#[unsafe(no_mangle)]
pub extern "C" fn opal_raw_hba_turn(
    handle: &mut Handle,
    alloc: Global,
    choice: usize,
    base: u64,
    bytes: &mut [u8],
) -> Worked
    ensures { WorksByHandle handle.old.place.kept handle.new.place.kept choice base
        bytes.old bytes.new result }
{
    let Some(mut object) = handle.take(alloc) else {
        return Worked::refused(CallError::NotOpen);
    };
    let told = object.work(choice, base, bytes);
    handle.put(object);
    told
}

/// The same, where of those bytes the ones that lie in the regions alone are memory.
#[unsafe(no_mangle)]
pub extern "C" fn opal_raw_hba_turn_within(
    handle: &mut Handle,
    alloc: Global,
    choice: usize,
    base: u64,
    bytes: &mut [u8],
    regions: &[Region],
) -> Worked
    ensures { WorksWithin handle.old.place.kept handle.new.place.kept choice base regions.now
        bytes.old bytes.new result }
{
    let Some(mut object) = handle.take(alloc) else {
        return Worked::refused(CallError::NotOpen);
    };
    let told = object.work_within(choice, base, bytes, regions);
    handle.put(object);
    told
}

/// Copies the line of the audit log that tells what denied the command of the last turn.
#[unsafe(no_mangle)]
pub extern "C" fn opal_raw_hba_denial(handle: &mut Handle, alloc: Global, into: &mut [u8]) -> Count
    ensures { CopiesDenied handle.old.place.kept handle.new.place.kept into.old into.new result }
{
    let Some(mut object) = handle.take(alloc) else {
        return Count::refused(CallError::NotOpen);
    };
    let told = object.copy_denied(alloc, into);
    handle.put(object);
    told
}
