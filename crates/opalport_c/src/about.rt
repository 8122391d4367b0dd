//! What a handle has, as numbers.

ghost use Rattle.std.specs.Prelude.{◌≡◌};
ghost use Rattle.opalport_c.specs.About.{TellsAbout, about_numbers, about_of, drive_of, kind_number, profile_number, refused_about};

use crate::handle::Handle;
use crate::object::Object;
use basics::Profile;
use drive::{Drive, DriveConfig};
use library_calls::byte_calls::{CallError, DONE};
use std::alloc::Global;

/// What a handle has, and what its drive is made with.
#[repr(C)]
#[derive(Clone, Copy, Debug, PartialEq, Eq)]
pub struct About {
    /// 0, or the number of the refusal; then all else is 0.
    pub code: u32,
    /// 1 is a drive, 2 a port, 3 a controller.
    pub kind: u8,
    /// 0 is `Base`, 1 is `Field`, 2 is `Opal`.
    pub profile: u8,
    /// The sectors of the drive, or of the drive behind it.
    pub sectors: u64,
    /// Those of them that the shadow MBR can have.
    pub shadow: u64,
}

/// The number of a profile.
fn profile_number(profile: Profile) -> u8
    ensures { result ≡ profile_number profile }
{
    match profile {
        Profile::Base => 0,
        Profile::Field => 1,
        Profile::Opal => 2,
    }
}

impl About {
    ghost use Rattle.std.specs.Prelude.{◌≡◌};
    ghost use Rattle.opalport_c.specs.About.{about_numbers, refused_about};

    /// The call was refused.
    fn refused(error: CallError) -> About
        ensures { result ≡ refused_about error }
    {
        About {
            code: error.code(),
            kind: 0,
            profile: 0,
            sectors: 0,
            shadow: 0,
        }
    }

    /// An object of this kind whose drive is made with this.
    fn of(kind: u8, config: &DriveConfig) -> About
        ensures { result ≡ about_numbers kind config.now }
    {
        About {
            code: DONE,
            kind,
            profile: profile_number(config.profile()),
            sectors: config.sectors(),
            shadow: config.mbr_sectors(),
        }
    }
}

impl Object {
    ghost use Rattle.std.specs.Prelude.{◌≡◌};
    ghost use Rattle.opalport_c.specs.About.{about_of, drive_of, kind_number};

    /// The number of its kind.
    fn kind(&self) -> u8
        ensures { result ≡ kind_number self.now }
    {
        match self {
            Object::Drive(_) => 1,
            Object::Port(_) => 2,
            Object::Hba(_) => 3,
        }
    }

    /// The drive, or the drive behind it.
    pub(crate) fn drive(&self) -> &Drive
        ensures { result.now ≡ drive_of self.now }
    {
        match self {
            Object::Drive(desk) => &desk.drive,
            Object::Port(desk) => desk.port.drive(),
            Object::Hba(desk) => desk.hba.drive(),
        }
    }

    /// What it is.
    pub(crate) fn about(&self) -> About
        ensures { result ≡ about_of self.now }
    {
        About::of(self.kind(), self.drive().in_force().config())
    }
}

/// Tells what the handle has.
#[unsafe(no_mangle)]
pub extern "C" fn opal_raw_about(handle: &mut Handle, alloc: Global) -> About
    ensures { TellsAbout handle.old.place.kept handle.new.place.kept result }
{
    let Some(object) = handle.take(alloc) else {
        return About::refused(CallError::NotOpen);
    };
    let told = object.about();
    handle.put(object);
    told
}
