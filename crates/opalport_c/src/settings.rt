//! Which setting of a drive that is asked for no drive has.

ghost use Rattle.std.specs.Prelude.{◌≡◌};
ghost use Rattle.std.specs.List.{list_all, list_any};
ghost use Rattle.sp_cells.specs.Config.{is_printable};
ghost use Rattle.opalport_c.specs.Asked.{is_row_of, names_twice, has_sectors, has_shadow, has_msid, takes_name, takes_label, fits_store, takes_store, takes_seed, wrong_name, wrong_number, wrong_setting};

use crate::asked::{ANY_SIZE, Names, RangeCells, Size, profile_asked, store_or};
use basics::{ADDRESS_LIMIT, Profile};
use library_calls::byte_calls::CallError;
use sp_cells::config::{is_own_shadow, is_own_store};
use sp_cells::limits::{
    MOST_DATASTORE_BYTES, MOST_MBR_SECTORS, MOST_MODEL_BYTES, MOST_PIN_BYTES, MOST_SERIAL_BYTES,
    NEW_SEED,
};

/// Whether one of the rows is of this range.
fn has_row_of(cells: &[RangeCells], range: u8) -> bool
    ensures { result ≡ list_any (is_row_of range) cells.now }
{
    cells.iter().any(|other| other.range == range)
}

/// Whether two rows are of one range.
pub(crate) fn names_twice(cells: &[RangeCells]) -> bool
    ensures { result ≡ names_twice cells.now }
{
    for place in 0..cells.len() {
        if has_row_of(&cells[place + 1..], cells[place].range) {
            return true;
        }
    }
    false
}

impl Size {
    ghost use Rattle.std.specs.Prelude.{◌≡◌};
    ghost use Rattle.opalport_c.specs.Asked.{has_sectors, has_shadow};

    /// Whether a drive has so many sectors.
    fn has_sectors(&self) -> bool
        ensures { result ≡ has_sectors self.now.sectors }
    {
        self.sectors >= 1 && self.sectors <= ADDRESS_LIMIT
    }

    /// Whether so many of them can be shadowed on a drive of this profile.
    fn has_shadow(&self, profile: Profile) -> bool
        ensures { result ≡ has_shadow profile self.now.sectors self.now.shadow }
    {
        self.shadow <= MOST_MBR_SECTORS
            && self.shadow <= self.sectors
            && is_own_shadow(profile, self.shadow)
    }
}

/// Whether a drive has such an MSID.
fn has_msid(msid: &[u8]) -> bool
    ensures { result ≡ has_msid msid.now }
{
    msid.len() >= 1 && msid.len() <= MOST_PIN_BYTES
}

/// Whether each byte is printable ASCII.
fn are_printable(bytes: &[u8]) -> bool
    ensures { result ≡ list_all is_printable bytes.now }
{
    bytes.iter().all(|byte| *byte >= 32 && *byte <= 126)
}

/// Whether a drive of this profile is given such a name, of at most so many characters of printable ASCII.
fn takes_name(profile: Profile, most: usize, name: &[u8]) -> bool
    ensures { result ≡ takes_name profile most name.now }
{
    match profile {
        Profile::Base => name.is_empty(),
        Profile::Field | Profile::Opal => name.len() <= most && are_printable(name),
    }
}

/// Whether a drive of this profile is given such a PIN on its label.
fn takes_label(profile: Profile, psid: &[u8]) -> bool
    ensures { result ≡ takes_label profile psid.now }
{
    match profile {
        Profile::Base => psid.is_empty(),
        Profile::Field | Profile::Opal => psid.len() <= MOST_PIN_BYTES,
    }
}

/// Whether DataStore of a drive of this profile has so many bytes.
fn fits_store(profile: Profile, datastore: u64) -> bool
    ensures { result ≡ fits_store profile datastore }
{
    datastore <= MOST_DATASTORE_BYTES && is_own_store(profile, datastore)
}

/// Whether a drive of this profile is told such a size of DataStore.
fn takes_store(profile: Profile, datastore: u64) -> bool
    ensures { result ≡ takes_store profile datastore }
{
    match profile {
        Profile::Base => datastore == ANY_SIZE,
        Profile::Field => fits_store(Profile::Field, store_or(Profile::Field, datastore)),
        Profile::Opal => fits_store(Profile::Opal, store_or(Profile::Opal, datastore)),
    }
}

/// Whether a drive of this profile is given such a seed.
pub(crate) fn takes_seed(profile: Profile, seed: u64) -> bool
    ensures { result ≡ takes_seed profile seed }
{
    match profile {
        Profile::Base | Profile::Field => seed == NEW_SEED,
        Profile::Opal => true,
    }
}

/// Which of the names, the label and DataStore is outside its limits, the first; `Seed` where none is.
fn wrong_name(profile: Profile, datastore: u64, names: &Names<'_>) -> CallError
    ensures { result ≡ wrong_name profile datastore names.now.serial.now names.now.model.now
        names.now.psid.now }
{
    if !takes_name(profile, MOST_SERIAL_BYTES, names.serial) {
        return CallError::Serial;
    }
    if !takes_name(profile, MOST_MODEL_BYTES, names.model) {
        return CallError::Model;
    }
    if !takes_label(profile, names.psid) {
        return CallError::Psid;
    }
    if !takes_store(profile, datastore) {
        return CallError::Datastore;
    }
    CallError::Seed
}

/// Which of the sizes and texts is outside its limits, the first; `Seed` where none of the others is.
fn wrong_number(profile: Profile, size: &Size, names: &Names<'_>) -> CallError
    ensures { result ≡ wrong_number profile size.now names.now.msid.now names.now.serial.now
        names.now.model.now names.now.psid.now }
{
    if !size.has_sectors() {
        return CallError::Sectors;
    }
    if !size.has_shadow(profile) {
        return CallError::Shadow;
    }
    if !has_msid(names.msid) {
        return CallError::Msid;
    }
    wrong_name(profile, size.datastore, names)
}

/// Which setting is outside its limits, the first: `RangeTwice`, `Profile`, `Sectors`, `Shadow`, `Msid`, `Serial`, `Model`,
/// `Psid`, `Datastore`; `Seed` where none of the others is.
pub(crate) fn wrong_setting(size: &Size, names: &Names<'_>, cells: &[RangeCells]) -> CallError
    ensures { result ≡ wrong_setting size.now names.now.msid.now names.now.serial.now
        names.now.model.now names.now.psid.now cells.now }
{
    if names_twice(cells) {
        return CallError::RangeTwice;
    }
    match profile_asked(size.profile) {
        Some(profile) => wrong_number(profile, size, names),
        None => CallError::Profile,
    }
}
