//! What a drive is made with.

ghost use Rattle.std.specs.Prelude.{◌≡◌, ◌≤◌, ◌<◌, ◌^◌, List, length, IfOk, SomeIff};
ghost use Rattle.std.specs.List.{list_all};
ghost use Rattle.sp_cells.specs.Config.{Config, IsWithinLimits, HasOwnShadow, HasOwnStore, is_own_shadow, is_own_store, IsAtaText, AreNames, IsLabel, is_printable, new_serial, new_model, new_psid, new_datastore, config_in, base_config, field_config, opal_config, named_config, labelled_config, stored_config, seeded_config, sizes_in};
ghost use Rattle.basics.specs.declared.profile.Profile.TheVariants.{Opal};
ghost use Rattle.sp_cells.specs.Limits.{most_mbr_sectors, most_datastore_bytes, most_pin_bytes, most_serial_bytes, most_model_bytes};

use crate::byte_tables::TableSizes;
use crate::limits::{
    LEAST_OPAL_DATASTORE_BYTES, MOST_DATASTORE_BYTES, MOST_MBR_SECTORS, MOST_MODEL_BYTES,
    MOST_PIN_BYTES, MOST_SERIAL_BYTES, NEW_DATASTORE_BYTES, NEW_SEED, OPAL_MBR_SECTORS,
};
use arrayvec::ArrayVec;
use basics::{ADDRESS_LIMIT, Profile};
use std::alloc::AllocError;
use std::marker::Model;

/// The serial number of a drive that is given none.
pub const NEW_SERIAL: [u8; 10] = *b"0000000001";

/// The model number of a drive that is given none.
pub const NEW_MODEL: [u8; 8] = *b"Opalport";

/// The PSID of a drive that is given none.
pub const NEW_PSID: [u8; 21] = *b"the PSID of the label";

/// What a drive is made with.
#[derive(Drop)]
pub struct DriveConfig {
    sectors: u64,
    mbr_sectors: u64,
    msid: ArrayVec<u8, MOST_PIN_BYTES>,
    profile: Profile,
    serial: ArrayVec<u8, MOST_SERIAL_BYTES>,
    model: ArrayVec<u8, MOST_MODEL_BYTES>,
    psid: ArrayVec<u8, MOST_PIN_BYTES>,
    datastore: u64,
    seed: u64,
}

impl Model for DriveConfig {
    ghost use Rattle.std.specs.Prelude.{◌≤◌};
    ghost use Rattle.sp_cells.specs.Config.{Config, IsWithinLimits, HasOwnShadow, HasOwnStore, AreNames, IsLabel};
    ghost use Rattle.sp_cells.specs.Limits.{most_datastore_bytes};

    ghost Value = { Config };

    ghost view = { λ c. record {
      sectors = c.sectors;
      mbr_sectors = c.mbr_sectors;
      msid = c.msid.items;
      profile = c.profile;
      serial = c.serial.items;
      model = c.model.items;
      psid = c.psid.items;
      datastore = c.datastore;
      seed = c.seed;
    } };

    ghost invariant = { λ c. IsWithinLimits c.sectors c.mbr_sectors c.msid.items
        × AreNames c.serial.items c.model.items × IsLabel c.psid.items
        × (c.datastore ≤ most_datastore_bytes)
        × HasOwnShadow c.profile c.mbr_sectors × HasOwnStore c.profile c.datastore };
}

impl DriveConfig {
    /// A drive of the profile `Base`: 1 to 2^48 sectors of 512 bytes, of which at most 262,144, and at most all, can be
    /// shadowed; the MSID has 1 to 32 bytes. None exactly where a number is outside these limits.
    pub fn new(sectors: u64, mbr_sectors: u64, msid: &[u8]) -> Option<DriveConfig>
        ensures { SomeIff result (IsWithinLimits sectors mbr_sectors msid.now)
            (base_config sectors mbr_sectors msid.now) }
    {
        DriveConfig::of_profile(Profile::Base, sectors, mbr_sectors, msid)
    }

    /// A drive of the profile `Field`, with the same limits.
    pub fn field(sectors: u64, mbr_sectors: u64, msid: &[u8]) -> Option<DriveConfig>
        ensures { SomeIff result (IsWithinLimits sectors mbr_sectors msid.now)
            (field_config sectors mbr_sectors msid.now) }
    {
        DriveConfig::of_profile(Profile::Field, sectors, mbr_sectors, msid)
    }

    /// A drive of the profile `Opal`, with the same limits, of which exactly 262,144 sectors can be shadowed.
    pub fn opal(sectors: u64, mbr_sectors: u64, msid: &[u8]) -> Option<DriveConfig>
        ensures { SomeIff result
            (IsWithinLimits sectors mbr_sectors msid.now × HasOwnShadow Opal mbr_sectors)
            (opal_config sectors mbr_sectors msid.now) }
    {
        DriveConfig::of_profile(Profile::Opal, sectors, mbr_sectors, msid)
    }

    /// A drive of this profile, with the same limits. None also where the profile is `Opal`, and the sectors that can be
    /// shadowed are not 262,144.
    pub fn of_profile(
        profile: Profile,
        sectors: u64,
        mbr_sectors: u64,
        msid: &[u8],
    ) -> Option<DriveConfig>
        ensures { SomeIff result
            (IsWithinLimits sectors mbr_sectors msid.now × HasOwnShadow profile mbr_sectors)
            (config_in profile sectors mbr_sectors msid.now) }
    {
        if sectors == 0 || sectors > ADDRESS_LIMIT {
            return None;
        }
        if mbr_sectors > MOST_MBR_SECTORS || mbr_sectors > sectors {
            return None;
        }
        if !is_own_shadow(profile, mbr_sectors) {
            return None;
        }
        if msid.is_empty() || msid.len() > MOST_PIN_BYTES {
            return None;
        }
        Some(DriveConfig {
            sectors,
            mbr_sectors,
            msid: kept(msid),
            profile,
            serial: kept(&NEW_SERIAL),
            model: kept(&NEW_MODEL),
            psid: kept(&NEW_PSID),
            datastore: new_datastore_of(profile),
            seed: NEW_SEED,
        })
    }

    /// The same drive with these names, a serial number of at most 20 bytes and a model number of at most 40, of
    /// printable ASCII. None exactly where one is longer or has another byte. Only `Base` does not tell them.
    pub fn with_names(self, serial: &[u8], model: &[u8]) -> Option<DriveConfig>
        ensures { SomeIff result (AreNames serial.now model.now)
            (named_config self serial.now model.now) }
    {
        if serial.len() > MOST_SERIAL_BYTES || !are_printable(serial) {
            return None;
        }
        if model.len() > MOST_MODEL_BYTES || !are_printable(model) {
            return None;
        }
        Some(DriveConfig {
            serial: kept(serial),
            model: kept(model),
            ..self
        })
    }

    /// The same drive with this PIN on its label, of 1 to 32 bytes; None exactly where it has none or more. Only `Base`
    /// does not take it.
    pub fn with_psid(self, psid: &[u8]) -> Option<DriveConfig>
        ensures { SomeIff result (IsLabel psid.now) (labelled_config self psid.now) }
    {
        if psid.is_empty() || psid.len() > MOST_PIN_BYTES {
            return None;
        }
        Some(DriveConfig {
            psid: kept(psid),
            ..self
        })
    }

    /// The same drive with a DataStore of so many bytes, up to 16,777,216, and of an Opal drive at least 10,485,760; None
    /// exactly where they are more or fewer. Only `Base` has none.
    pub fn with_datastore(self, datastore: u64) -> Option<DriveConfig>
        ensures { SomeIff result
            ((datastore ≤ most_datastore_bytes) × HasOwnStore self.profile datastore)
            (stored_config self datastore) }
    {
        if datastore > MOST_DATASTORE_BYTES || !is_own_store(self.profile, datastore) {
            return None;
        }
        Some(DriveConfig { datastore, ..self })
    }

    /// The same drive whose random bytes come of this seed. Only `Opal` gives any.
    pub fn with_seed(self, seed: u64) -> DriveConfig
        ensures { result ≡ seeded_config self seed }
    {
        DriveConfig { seed, ..self }
    }

    /// The drive's sectors.
    pub fn sectors(&self) -> u64
        ensures value { result ≡ self.now.sectors }
        ensures limits { IsWithinLimits self.now.sectors self.now.mbr_sectors self.now.msid }
    {
        self.sectors
    }

    /// The sectors that can be shadowed.
    pub fn mbr_sectors(&self) -> u64
        ensures value { result ≡ self.now.mbr_sectors }
        ensures limits { IsWithinLimits self.now.sectors self.now.mbr_sectors self.now.msid }
    {
        self.mbr_sectors
    }

    /// The PIN that a new drive's SID has.
    pub fn msid(&self) -> &[u8]
        ensures value { result.now ≡ self.now.msid }
        ensures limits { IsWithinLimits self.now.sectors self.now.mbr_sectors self.now.msid }
    {
        self.msid.as_slice()
    }

    /// The drive's profile.
    pub fn profile(&self) -> Profile
        ensures { result ≡ self.now.profile }
    {
        self.profile
    }

    /// The serial number.
    pub fn serial(&self) -> &[u8]
        ensures value { result.now ≡ self.now.serial }
        ensures limits { AreNames self.now.serial self.now.model }
    {
        self.serial.as_slice()
    }

    /// The model number.
    pub fn model(&self) -> &[u8]
        ensures value { result.now ≡ self.now.model }
        ensures limits { AreNames self.now.serial self.now.model }
    {
        self.model.as_slice()
    }

    /// The PIN on the label, which PSID has.
    pub fn psid(&self) -> &[u8]
        ensures value { result.now ≡ self.now.psid }
        ensures limits { IsLabel self.now.psid }
    {
        self.psid.as_slice()
    }

    /// The bytes of DataStore.
    pub fn datastore(&self) -> u64
        ensures value { result ≡ self.now.datastore }
        ensures limits { self.now.datastore ≤ most_datastore_bytes }
    {
        self.datastore
    }

    /// The seed of the random bytes.
    pub fn seed(&self) -> u64
        ensures value { result ≡ self.now.seed }
        ensures limits { self.now.seed < 2 ^ 64 }
    {
        self.seed
    }

    /// How large the byte tables are.
    pub fn table_sizes(&self) -> TableSizes
        ensures value { result ≡ sizes_in self.now }
        ensures shadow { result.mbr_sectors ≤ most_mbr_sectors }
        ensures few { result.datastore ≤ most_datastore_bytes }
    {
        TableSizes {
            mbr_sectors: self.mbr_sectors,
            datastore: self.datastore,
        }
    }

    /// The same configuration once more. It takes no memory of its own.
    pub fn copy(&self) -> Result<DriveConfig, AllocError>
        ensures { IfOk result (λ c. c ≡ self.now) }
    {
        let msid = self.msid.clone()?;
        let serial = self.serial.clone()?;
        let model = self.model.clone()?;
        let psid = self.psid.clone()?;
        Ok(DriveConfig {
            sectors: self.sectors,
            mbr_sectors: self.mbr_sectors,
            msid,
            profile: self.profile,
            serial,
            model,
            psid,
            datastore: self.datastore,
            seed: self.seed,
        })
    }
}

/// The bytes of DataStore of a drive that is told none.
pub fn new_datastore_of(profile: Profile) -> u64
    ensures value { result ≡ new_datastore profile }
    ensures limits { result ≤ most_datastore_bytes }
    ensures own { HasOwnStore profile result }
{
    match profile {
        Profile::Base => 0,
        Profile::Field => NEW_DATASTORE_BYTES,
        Profile::Opal => LEAST_OPAL_DATASTORE_BYTES,
    }
}

/// Whether a drive of this profile can have a shadow of so many sectors.
pub fn is_own_shadow(profile: Profile, mbr_sectors: u64) -> bool
    ensures { result ≡ is_own_shadow profile mbr_sectors }
{
    match profile {
        Profile::Base | Profile::Field => true,
        Profile::Opal => mbr_sectors == OPAL_MBR_SECTORS,
    }
}

/// Whether a drive of this profile can have a DataStore of so many bytes.
pub fn is_own_store(profile: Profile, datastore: u64) -> bool
    ensures { result ≡ is_own_store profile datastore }
{
    match profile {
        Profile::Base | Profile::Field => true,
        Profile::Opal => datastore >= LEAST_OPAL_DATASTORE_BYTES,
    }
}

/// Whether each byte is printable ASCII.
fn are_printable(bytes: &[u8]) -> bool
    ensures { result ≡ list_all is_printable bytes.now }
{
    bytes.iter().all(|byte| *byte >= 32 && *byte <= 126)
}

/// The bytes, kept.
fn kept<const MOST: usize>(bytes: &[u8]) -> ArrayVec<u8, MOST>
    requires { length bytes.now ≤ MOST }
    ensures { result.items ≡ bytes.now }
{
    let mut copy = ArrayVec::new();
    for byte in bytes {
        copy.push(*byte);
    }
    copy
}
