//! What would lift a denial.

ghost use Rattle.std.specs.Prelude.{◌≡◌, Some, IfOk};
ghost use Rattle.opalport_c.specs.Remedies.{TellsRemedy, remedy_for};

use crate::drive_desk::DriveDesk;
use crate::handle::Handle;
use crate::object::Object;
use audit::Why;
use drive::Drive;
use library_calls::byte_calls::{CallError, Count, copy_out, copy_text};
use reasons::remedies::remedy_bytes;
use std::alloc::{AllocError, Global};

/// What would lift a denial, by the rows in force of a drive.
fn remedy_by(alloc: Global, drive: &Drive, why: &Why) -> Result<Vec<u8>, AllocError>
    ensures { IfOk result (λ text. text.items ≡ remedy_for drive.now (Some why.now)) }
{
    let rows = drive.in_force();
    remedy_bytes(alloc, &rows, why)
}

impl DriveDesk {
    ghost use Rattle.std.specs.Prelude.{◌≡◌, option_copied};
    ghost use Rattle.opalport_c.specs.Remedies.{command_denier};

    /// What denied the last command.
    fn why(&self) -> Option<&Why>
        ensures { option_copied result ≡ command_denier self.now.done self.now.answer.denied }
    {
        match self.done {
            Some(_) => None,
            None => self.answer.denied.as_ref(),
        }
    }
}

impl Object {
    ghost use Rattle.std.specs.Prelude.{◌≡◌, option_copied};
    ghost use Rattle.library_calls.specs.Copies.{IsWrittenOut};
    ghost use Rattle.opalport_c.specs.Remedies.{denier_in, remedy_in};

    /// What denied: a drive's last command, the step of a port at a place of its audit log, the command of a controller's last
    /// turn.
    fn why(&self, place: usize) -> Option<&Why>
        ensures { option_copied result ≡ denier_in self.now place }
    {
        match self {
            Object::Drive(desk) => desk.why(),
            Object::Port(desk) => match desk.port.denial(place as u64) {
                Some(line) => Some(&line.why),
                None => None,
            },
            Object::Hba(desk) => match &desk.denied {
                Some(line) => Some(&line.why),
                None => None,
            },
        }
    }

    /// Copies what would lift it.
    fn copy_remedy(&self, alloc: Global, place: usize, into: &mut [u8]) -> Count
        ensures { IsWrittenOut (remedy_in self.now place) into.old into.new result }
    {
        let Some(why) = self.why(place) else {
            return copy_out(&[], into);
        };
        copy_text(remedy_by(alloc, self.drive(), why), into)
    }
}

/// Copies what would lift a denial, by the rows in force: of a drive's last command, of the line at a place of a port's audit
/// log, of the command of a controller's last turn. No bytes, where there is none.
#[unsafe(no_mangle)]
pub extern "C" fn opal_raw_remedy(
    handle: &mut Handle,
    alloc: Global,
    place: usize,
    into: &mut [u8],
) -> Count
    ensures { TellsRemedy handle.old.place.kept handle.new.place.kept place into.old into.new
        result }
{
    let Some(object) = handle.take(alloc) else {
        return Count::refused(CallError::NotOpen);
    };
    let told = object.copy_remedy(alloc, place, into);
    handle.put(object);
    told
}
