//! A drive, as a caller from outside asks for it.

ghost use Rattle.std.specs.Prelude.{◌≡◌, ◌⊎◌, [], None, Some, ◌==◌, map, IfOk, IfErr, IfSome, OnOk, SomeIff, MatchOption, MatchResult};
ghost use Rattle.basics.specs.declared.profile.Profile.TheVariants.{Base};
ghost use Rattle.sp_cells.specs.Config.{config_in};
ghost use Rattle.drive.specs.State.{Agrees};
ghost use Rattle.opalport_c.specs.Asked.{row_asked, profile_asked, bytes_or, is_bare, store_or, config_of, FitsBase, FitsBeyond, CanBe, ConfigAsked, StartsAs, IsStartFault, IsMadeAs, IsMakingFault};
ghost use Rattle.library_calls.specs.declared.byte_calls.error.CallError.TheVariants.{OutOfMemory};

use crate::refusals::of_set;
use crate::settings::{names_twice, takes_seed, wrong_setting};
use basics::Profile;
use drive::{Drive, DriveConfig, RangeRow};
use library_calls::byte_calls::CallError;
use sp_cells::config::{NEW_MODEL, NEW_PSID, NEW_SERIAL, new_datastore_of};
use std::alloc::{AllocError, Global};

/// The number that stands for a DataStore of the size that a drive has where none is asked for.
pub const ANY_SIZE: u64 = u64::MAX;

/// The numbers of a drive that is asked for.
#[repr(C)]
#[derive(Clone, Copy, Debug, PartialEq, Eq)]
pub struct Size {
    /// 1 to 2^48 sectors of 512 bytes.
    pub sectors: u64,
    /// Those of them that the shadow MBR can have: at most 262,144, and of a drive of the profile 2 just so many.
    pub shadow: u64,
    /// The bytes of DataStore, at most 16,777,216, or [`ANY_SIZE`]. A drive of the profile 0 takes `ANY_SIZE` alone, and one
    /// of the profile 2 at least 10,485,760.
    pub datastore: u64,
    /// The seed of the random bytes. A drive of the profiles 0 and 1 takes 0 alone.
    pub seed: u64,
    /// 0 is `Base`, 1 is `Field`, 2 is `Opal`.
    pub profile: u32,
    /// Whether a controller's addresses have 64 bits; of a drive and of a port it says nothing.
    pub wide: bool,
}

/// The texts and PINs of a drive that is asked for. But for the MSID, an empty one stands for that of a drive that is
/// given none; a drive of the profile 0 takes empty ones alone.
#[derive(Clone, Copy)]
pub struct Names<'a> {
    /// 1 to 32 bytes.
    pub msid: &'a [u8],
    /// At most 20 characters of printable ASCII.
    pub serial: &'a [u8],
    /// At most 40.
    pub model: &'a [u8],
    /// At most 32 bytes.
    pub psid: &'a [u8],
}

/// The cells of a locking range, as numbers (Opal SSC 2.01, Locking table).
#[repr(C)]
#[derive(Clone, Copy, Debug, PartialEq, Eq)]
pub struct RangeCells {
    pub start: u64,
    pub length: u64,
    /// 0 is the global range.
    pub range: u8,
    /// 0 is false, and any other number true, here and below.
    pub read_lock_enabled: u8,
    pub write_lock_enabled: u8,
    pub read_locked: u8,
    pub write_locked: u8,
}

impl RangeCells {
    /// The row of these cells.
    fn row(&self) -> RangeRow
        ensures { result ≡ row_asked self.now }
    {
        RangeRow {
            range: self.range,
            start: self.start,
            length: self.length,
            read_enabled: self.read_lock_enabled != 0,
            write_enabled: self.write_lock_enabled != 0,
            read_locked: self.read_locked != 0,
            write_locked: self.write_locked != 0,
        }
    }
}

/// The profile of a number.
pub(crate) fn profile_asked(number: u32) -> Option<Profile>
    ensures { result ≡ profile_asked number }
{
    match number {
        0 => Some(Profile::Base),
        1 => Some(Profile::Field),
        2 => Some(Profile::Opal),
        _ => None,
    }
}

/// Bytes, or others where they are empty.
fn bytes_or<'a>(bytes: &'a [u8], other: &'a [u8]) -> &'a [u8]
    ensures { result.now ≡ bytes_or bytes.now other.now }
{
    if bytes.is_empty() { other } else { bytes }
}

impl Names<'_> {
    ghost use Rattle.std.specs.Prelude.{◌≡◌};
    ghost use Rattle.opalport_c.specs.Asked.{is_bare};

    /// Whether there are none but the MSID.
    fn is_bare(&self) -> bool
        ensures { result ≡ is_bare self.now.serial.now self.now.model.now self.now.psid.now }
    {
        self.serial.is_empty() && self.model.is_empty() && self.psid.is_empty()
    }
}

/// The bytes of DataStore that are asked for.
pub(crate) fn store_or(profile: Profile, datastore: u64) -> u64
    ensures { result ≡ store_or profile datastore }
{
    if datastore == ANY_SIZE {
        new_datastore_of(profile)
    } else {
        datastore
    }
}

/// The configuration of a drive of `Base`, if there is one with these numbers and no names.
fn base_config(size: &Size, names: &Names<'_>) -> Option<DriveConfig>
    ensures { SomeIff result (FitsBase size.now names.now.msid.now names.now.serial.now
        names.now.model.now names.now.psid.now)
        (config_in Base size.now.sectors size.now.shadow names.now.msid.now) }
{
    let config = DriveConfig::new(size.sectors, size.shadow, names.msid)?;
    if !names.is_bare() || size.datastore != ANY_SIZE || !takes_seed(Profile::Base, size.seed) {
        return None;
    }
    Some(config)
}

/// The configuration of a drive of a further profile, if there is one with these numbers and names.
fn config_of(profile: Profile, size: &Size, names: &Names<'_>) -> Option<DriveConfig>
    ensures { SomeIff result (FitsBeyond profile size.now names.now.msid.now names.now.serial.now
        names.now.model.now names.now.psid.now)
        (config_of profile size.now names.now.msid.now names.now.serial.now names.now.model.now
        names.now.psid.now) }
{
    if !takes_seed(profile, size.seed) {
        return None;
    }
    let config = DriveConfig::of_profile(profile, size.sectors, size.shadow, names.msid)?;
    let serial = bytes_or(names.serial, &NEW_SERIAL);
    let model = bytes_or(names.model, &NEW_MODEL);
    let config = config.with_names(serial, model)?;
    let config = config.with_psid(bytes_or(names.psid, &NEW_PSID))?;
    let config = config.with_datastore(store_or(profile, size.datastore))?;
    Some(config.with_seed(size.seed))
}

/// The configuration that is asked for, if there is such a drive.
pub fn config_asked(size: &Size, names: &Names<'_>, cells: &[RangeCells]) -> Option<DriveConfig>
    ensures value { IfSome result (ConfigAsked size.now names.now.msid.now names.now.serial.now
        names.now.model.now names.now.psid.now) }
    ensures limits { MatchOption result
        (CanBe size.now names.now.msid.now names.now.serial.now names.now.model.now
        names.now.psid.now cells.now → ⊥)
        (λ config. CanBe size.now names.now.msid.now names.now.serial.now names.now.model.now
        names.now.psid.now cells.now) }
{
    if names_twice(cells) {
        return None;
    }
    match profile_asked(size.profile)? {
        Profile::Base => base_config(size, names),
        Profile::Field => config_of(Profile::Field, size, names),
        Profile::Opal => config_of(Profile::Opal, size, names),
    }
}

/// The rows of cells.
fn rows_asked(alloc: Global, cells: &[RangeCells]) -> Result<Vec<RangeRow>, AllocError>
    ensures { IfOk result (λ rows. rows.items ≡ map row_asked cells.now) }
{
    let mut rows = Vec::with_capacity(alloc, cells.len())?;
    for one in cells {
        rows.push(one.row())?;
    }
    Ok(rows)
}

/// The drive of this configuration: with no cells as it leaves the factory, and with some with an active Locking SP and
/// these cells of its ranges.
///
/// # Errors
///
/// `NoRange` for a range above the last, `Overlap`, `Beyond`, of the first row that has one. Want of memory.
pub fn drive_asked(
    alloc: Global,
    config: DriveConfig,
    cells: &[RangeCells],
) -> Result<Drive, CallError>
    ensures { MatchResult result (StartsAs config (map row_asked cells.now))
        (IsStartFault config (map row_asked cells.now)) }
{
    let rows = rows_asked(alloc, cells)?;
    match Drive::opened(alloc, config, &rows) {
        Ok(drive) => Ok(drive),
        Err(error) => Err(of_set(error)),
    }
}

/// The drive that is asked for.
///
/// # Errors
///
/// The first setting that is outside its limits ([`wrong_setting`]); those of [`drive_asked`].
pub fn drive_made(
    alloc: Global,
    size: &Size,
    names: &Names<'_>,
    cells: &[RangeCells],
) -> Result<Drive, CallError>
    ensures { MatchResult result
        (IsMadeAs size.now names.now.msid.now names.now.serial.now names.now.model.now
        names.now.psid.now cells.now)
        (IsMakingFault size.now names.now.msid.now names.now.serial.now names.now.model.now
        names.now.psid.now cells.now) }
{
    let Some(config) = config_asked(size, names, cells) else {
        return Err(wrong_setting(size, names, cells));
    };
    let drive = drive_asked(alloc, config, cells)?;
    Ok(drive)
}
