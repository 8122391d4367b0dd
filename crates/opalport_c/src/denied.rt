//! Calls that tell a denial as numbers.

ghost use Rattle.std.specs.Prelude.{◌≡◌};
ghost use Rattle.opalport_c.specs.DenialCalls.{TellsDriveDenied, TellsPortDenied, TellsHbaDenied};

use crate::handle::Handle;
use crate::object::Object;
use library_calls::byte_calls::CallError;
use library_calls::denied::Denied;
use std::alloc::Global;

impl Object {
    ghost use Rattle.std.specs.Prelude.{◌≡◌};
    ghost use Rattle.port.specs.Live.{line_kept};
    ghost use Rattle.library_calls.specs.Denied.{refused_denied, line_numbers};
    ghost use Rattle.opalport_c.specs.Calls.{OfDrive};
    ghost use Rattle.opalport_c.specs.HbaCalls.{OfHba};
    ghost use Rattle.opalport_c.specs.PortCalls.{OfPort};
    ghost use Rattle.opalport_c.specs.Denials.{denied_at};

    /// What denied a drive's last command.
    fn drive_denied(&mut self, client: u32) -> Denied
        ensures { OfDrive self.old self.new (λ e. result ≡ refused_denied e)
            (λ d e. (result ≡ denied_at d client) × (e ≡ d)) }
    {
        match self {
            Object::Drive(desk) => desk.denied(client),
            Object::Port(_) | Object::Hba(_) => Denied::refused(CallError::OtherKind),
        }
    }

    /// What denied a step of a port.
    fn port_denied(&mut self, place: usize) -> Denied
        ensures { OfPort self.old self.new (λ e. result ≡ refused_denied e)
            (λ d e. (result ≡ line_numbers (line_kept d.port place)) × (e ≡ d)) }
    {
        match self {
            Object::Port(desk) => desk.denied(place),
            Object::Drive(_) | Object::Hba(_) => Denied::refused(CallError::OtherKind),
        }
    }

    /// What denied the command of a controller's last turn.
    fn hba_denied(&mut self) -> Denied
        ensures { OfHba self.old self.new (λ e. result ≡ refused_denied e)
            (λ d e. (result ≡ line_numbers d.denied) × (e ≡ d)) }
    {
        match self {
            Object::Hba(desk) => desk.denied(),
            Object::Drive(_) | Object::Port(_) => Denied::refused(CallError::OtherKind),
        }
    }
}

/// What denied the last command of a drive; its client is the caller's to say.
#[unsafe(no_mangle)]
pub extern "C" fn opal_raw_drive_denied(handle: &mut Handle, alloc: Global, client: u32) -> Denied
    ensures { TellsDriveDenied handle.old.place.kept handle.new.place.kept client result }
{
    let Some(mut object) = handle.take(alloc) else {
        return Denied::refused(CallError::NotOpen);
    };
    let told = object.drive_denied(client);
    handle.put(object);
    told
}

/// The denial at a place of a port's audit log, 0 the oldest, if it is one of the 64 latest: else none.
#[unsafe(no_mangle)]
pub extern "C" fn opal_raw_port_denied(handle: &mut Handle, alloc: Global, place: usize) -> Denied
    ensures { TellsPortDenied handle.old.place.kept handle.new.place.kept place result }
{
    let Some(mut object) = handle.take(alloc) else {
        return Denied::refused(CallError::NotOpen);
    };
    let told = object.port_denied(place);
    handle.put(object);
    told
}

/// What denied the command of a controller's last turn.
#[unsafe(no_mangle)]
pub extern "C" fn opal_raw_hba_denied(handle: &mut Handle, alloc: Global) -> Denied
    ensures { TellsHbaDenied handle.old.place.kept handle.new.place.kept result }
{
    let Some(mut object) = handle.take(alloc) else {
        return Denied::refused(CallError::NotOpen);
    };
    let told = object.hba_denied();
    handle.put(object);
    told
}
