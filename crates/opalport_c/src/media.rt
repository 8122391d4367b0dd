//! A look at the media, which is no act.

ghost use Rattle.std.specs.Prelude.{◌≡◌};
ghost use Rattle.opalport_c.specs.About.{drive_of};
ghost use Rattle.opalport_c.specs.Media.{LooksAt, LooksByHandle};

use crate::handle::Handle;
use crate::object::Object;
use drive::Drive;
use library_calls::byte_calls::{CallError, Count, copy_out};
use std::alloc::Global;

/// Copies the bytes of a sector that the media of a drive hold.
fn look(drive: &Drive, lba: u64, into: &mut [u8]) -> Count
    ensures { LooksAt drive.now lba into.old into.new result }
{
    match drive.sector(lba) {
        Some(bytes) => copy_out(bytes, into),
        None => Count::refused(CallError::Number),
    }
}

impl Object {
    ghost use Rattle.opalport_c.specs.About.{drive_of};
    ghost use Rattle.opalport_c.specs.Media.{LooksAt};

    /// Copies the bytes of a sector that the media hold.
    pub(crate) fn look(&self, lba: u64, into: &mut [u8]) -> Count
        ensures { LooksAt (drive_of self.now) lba into.old into.new result }
    {
        look(self.drive(), lba, into)
    }
}

/// Copies the bytes of a sector that the media of the handle's drive hold, whatever is locked or shadowed. `Number` beyond the
/// drive.
#[unsafe(no_mangle)]
pub extern "C" fn opal_raw_media(
    handle: &mut Handle,
    alloc: Global,
    lba: u64,
    into: &mut [u8],
) -> Count
    ensures { LooksByHandle handle.old.place.kept handle.new.place.kept lba into.old into.new
        result }
{
    let Some(object) = handle.take(alloc) else {
        return Count::refused(CallError::NotOpen);
    };
    let told = object.look(lba, into);
    handle.put(object);
    told
}
