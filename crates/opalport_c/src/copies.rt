//! What a handle has once more.

ghost use Rattle.std.specs.Prelude.{◌≡◌, Some, None, IfOk, IfErr};
ghost use Rattle.opalport_c.specs.Calls.{Copies, CopiesObject, IsCopyFault};
ghost use Rattle.opalport_c.specs.declared.object.Object.{Object as ObjectValue};
ghost use Rattle.opalport_c.specs.declared.object.Object.TheVariants as objects;
ghost use Rattle.library_calls.specs.declared.byte_calls.error.CallError.TheVariants.{OutOfMemory};

use crate::drive_desk::DriveDesk;
use crate::handle::Handle;
use crate::object::Object;
use library_calls::byte_calls::{CallError, DONE};
use library_calls::hba_calls::HbaDesk;
use library_calls::port_calls::PortDesk;
use std::alloc::Global;

/// A drive's desk in a box. It is a call of its own for the stack that it takes, as are the two below.
#[inline(never)]
pub(crate) fn of_drive(alloc: Global, desk: DriveDesk) -> Result<Box<Object>, CallError>
    ensures value { IfOk result (λ object. object.value ≡ objects.Drive desk) }
    ensures why { IfErr result (λ e. e ≡ OutOfMemory) }
{
    Object::Drive(desk).boxed(alloc)
}

/// That of a port.
#[inline(never)]
fn of_port(alloc: Global, desk: PortDesk) -> Result<Box<Object>, CallError>
    ensures value { IfOk result (λ object. object.value ≡ objects.Port desk) }
    ensures why { IfErr result (λ e. e ≡ OutOfMemory) }
{
    Object::Port(desk).boxed(alloc)
}

/// That of a controller.
#[inline(never)]
fn of_hba(alloc: Global, desk: HbaDesk) -> Result<Box<Object>, CallError>
    ensures value { IfOk result (λ object. object.value ≡ objects.Hba desk) }
    ensures why { IfErr result (λ e. e ≡ OutOfMemory) }
{
    Object::Hba(desk).boxed(alloc)
}

/// A drive once more.
#[inline(never)]
fn copied_drive(alloc: Global, desk: &DriveDesk) -> Result<Box<Object>, CallError>
    ensures copied { IfOk result (λ copied. CopiesObject (objects.Drive desk.now) copied.value) }
    ensures why { IfErr result (λ e. e ≡ OutOfMemory) }
{
    of_drive(alloc, desk.copy(alloc)?)
}

/// A port once more.
#[inline(never)]
fn copied_port(alloc: Global, desk: &PortDesk) -> Result<Box<Object>, CallError>
    ensures copied { IfOk result (λ copied. CopiesObject (objects.Port desk.now) copied.value) }
    ensures why { IfErr result (λ e. e ≡ OutOfMemory) }
{
    of_port(alloc, desk.copy()?)
}

/// A controller once more.
#[inline(never)]
fn copied_hba(alloc: Global, desk: &HbaDesk) -> Result<Box<Object>, CallError>
    ensures copied { IfOk result (λ copied. CopiesObject (objects.Hba desk.now) copied.value) }
    ensures why { IfErr result (λ e. e ≡ OutOfMemory) }
{
    of_hba(alloc, desk.copy()?)
}

/// An object once more, in a box of its own.
fn copied(alloc: Global, object: &Object) -> Result<Box<Object>, CallError>
    ensures copied { IfOk result (λ copied. CopiesObject object.now copied.value) }
    ensures why { IfErr result (λ e. e ≡ OutOfMemory) }
{
    match object {
        Object::Drive(desk) => copied_drive(alloc, desk),
        Object::Port(desk) => copied_port(alloc, desk),
        Object::Hba(desk) => copied_hba(alloc, desk),
    }
}

/// What the handle has once more. It has it still.
fn copied_from(from: &mut Handle, alloc: Global) -> Result<Box<Object>, CallError>
    ensures other { from.new.place.kept ≡ from.old.place.kept }
    ensures copied { IfOk result (λ copied. (object : ObjectValue)
        × (from.old.place.kept ≡ Some object) × CopiesObject object copied.value) }
    ensures why { IfErr result (λ e. IsCopyFault None from.old.place.kept e) }
{
    let Some(object) = from.take(alloc) else {
        return Err(CallError::NotOpen);
    };
    let copied = copied(alloc, &object);
    from.put(object);
    copied
}

/// Makes what another handle has once more, at a handle with nothing: `opal_clone` of the header. It tells 0, or the number of
/// the refusal: `InUse`, `NotOpen` of the other one, want of memory. Then nothing was made.
#[unsafe(no_mangle)]
pub extern "C" fn opal_raw_clone(handle: &mut Handle, alloc: Global, from: &mut Handle) -> u32
    ensures { Copies handle.old.place.kept handle.new.place.kept from.old.place.kept
        from.new.place.kept result }
{
    if handle.is_open() {
        return CallError::InUse.code();
    }
    match copied_from(from, alloc) {
        Ok(object) => {
            handle.put(object);
            DONE
        }
        Err(error) => error.code(),
    }
}
