//! What a drive is opened with.

ghost use Rattle.std.specs.Prelude.{◌≡◌};
ghost use Rattle.std.specs.Prelude.{IfOk, IfErr, Ok, Err, ◌≢◌, option_map};
ghost use Rattle.tool.specs.OptionTexts.{profile_named, new_sectors, new_shadow, size_or, text_or, label_of, is_empty_text};
ghost use Rattle.hex.specs.Hex.{decode_of};
ghost use Rattle.hex.specs.declared.error.FromHexError.{FromHexError};
ghost use Rattle.hex.specs.declared.error.FromHexError.TheVariants as hex_faults;

use basics::{ADDRESS_LIMIT, Profile};
use hex::FromHexError;
use script_lines::number_up_to;
use sp_cells::DriveConfig;
use sp_cells::config::{NEW_MODEL, NEW_PSID, NEW_SERIAL, new_datastore_of};
use sp_cells::limits::{
    LEAST_OPAL_DATASTORE_BYTES, MOST_DATASTORE_BYTES, MOST_MBR_SECTORS, MOST_MODEL_BYTES,
    MOST_PIN_BYTES, MOST_SERIAL_BYTES, NEW_SEED, OPAL_MBR_SECTORS,
};
use std::alloc::Global;
use std::error::Error;
use std::fmt;
use std::marker::Model;

/// Why options open no drive.
#[derive(Clone, Copy, Debug, PartialEq, Eq)]
pub enum OptionsFault {
    Sectors,
    Shadow,
    Seed,
    Msid(FromHexError),
    Psid(FromHexError),
    /// The text names no profile.
    Profile,
    /// A drive of the profile `Base` tells no names, and has no label.
    NamesOfBase,
    /// A drive of the profile `Base` has no DataStore.
    DatastoreOfBase,
    /// Only a drive of the profile `Opal` gives random bytes.
    SeedBelowOpal,
    Datastore,
    /// The serial number or the model number is given, and has no character.
    EmptyName,
    /// The values are not within the limits of a configuration.
    NoDrive {
        profile: Profile,
        sectors: u64,
        shadow: u64,
        msid: usize,
    },
    /// The serial number or the model number is not printable ASCII, or too long.
    Names,
    /// The PIN on the label has no byte, or too many.
    Label {
        psid: usize,
    },
    /// DataStore has too many bytes, or too few for the profile.
    DatastoreSize {
        datastore: u64,
    },
    OutOfMemory,
}

/// Writes which value is beyond the limits of a configuration.
fn write_limit<W: fmt::Write>(
    f: &mut fmt::Formatter<W>,
    profile: Profile,
    sectors: u64,
    shadow: u64,
    msid: usize,
) -> fmt::Result {
    if sectors == 0 || sectors > ADDRESS_LIMIT {
        return write!(
            f,
            "--sectors {sectors}: a drive has 1 to {ADDRESS_LIMIT} sectors"
        );
    }
    if shadow > MOST_MBR_SECTORS {
        return write!(
            f,
            "--shadow {shadow}: a shadow has at most {MOST_MBR_SECTORS} sectors"
        );
    }
    if shadow > sectors {
        return write!(
            f,
            "a shadow of {shadow} sectors is larger than the drive of {sectors}"
        );
    }
    if profile == Profile::Opal && shadow != OPAL_MBR_SECTORS {
        return write!(
            f,
            "--shadow {shadow}: the shadow of an Opal drive has {OPAL_MBR_SECTORS} sectors"
        );
    }
    write!(
        f,
        "--msid: an MSID has 1 to {MOST_PIN_BYTES} bytes, not {msid}"
    )
}

/// Writes which limit the bytes of DataStore are beyond.
fn write_store_limit<W: fmt::Write>(f: &mut fmt::Formatter<W>, datastore: u64) -> fmt::Result {
    if datastore > MOST_DATASTORE_BYTES {
        return write!(
            f,
            "--datastore {datastore}: a DataStore has at most {MOST_DATASTORE_BYTES} bytes"
        );
    }
    write!(
        f,
        "--datastore {datastore}: the DataStore of an Opal drive has at least \
         {LEAST_OPAL_DATASTORE_BYTES} bytes"
    )
}

impl fmt::Display for OptionsFault {
    fn fmt<W: fmt::Write>(&self, f: &mut fmt::Formatter<W>) -> fmt::Result {
        match *self {
            OptionsFault::Sectors => f.write_str("--sectors is no decimal number of 64 bits"),
            OptionsFault::Shadow => f.write_str("--shadow is no decimal number of 64 bits"),
            OptionsFault::Seed => f.write_str("--seed is no decimal number of 64 bits"),
            OptionsFault::Msid(fault) => write!(f, "--msid is not written in hex: {fault}"),
            OptionsFault::Psid(fault) => write!(f, "--psid is not written in hex: {fault}"),
            OptionsFault::Profile => { f.write_str("--profile is none of base, field and opal") }
            OptionsFault::NamesOfBase => {
                f.write_str("--serial, --model and --psid want --profile field or opal")
            }
            OptionsFault::DatastoreOfBase => {
                f.write_str("--datastore wants --profile field or opal")
            }
            OptionsFault::SeedBelowOpal => f.write_str("--seed wants --profile opal"),
            OptionsFault::Datastore => {
                f.write_str("--datastore is no decimal number of 64 bits")
            }
            OptionsFault::EmptyName => {
                f.write_str("--serial and --model have one character at least")
            }
            OptionsFault::NoDrive {
                profile,
                sectors,
                shadow,
                msid,
            } => write_limit(f, profile, sectors, shadow, msid),
            OptionsFault::Names => write!(
                f,
                "--serial has at most {MOST_SERIAL_BYTES} and --model at most {MOST_MODEL_BYTES} \
                 characters of printable ASCII"
            ),
            OptionsFault::Label { psid } => {
                write!(
                    f,
                    "--psid: a PSID has 1 to {MOST_PIN_BYTES} bytes, not {psid}"
                )
            }
            OptionsFault::DatastoreSize { datastore } => write_store_limit(f, datastore),
            OptionsFault::OutOfMemory => f.write_str("out of memory"),
        }
    }
}

impl Error for OptionsFault {}

/// The options that say which drive, as they are written; `None` for one that is left out, which then is as in a new
/// drive of the profile.
#[derive(Clone, Copy)]
pub struct DriveTexts<'a> {
    pub sectors: Option<&'a str>,
    pub shadow: Option<&'a str>,
    pub msid: &'a str,
    pub profile: &'a str,
    pub serial: Option<&'a str>,
    pub model: Option<&'a str>,
    pub psid: Option<&'a str>,
    pub datastore: Option<&'a str>,
    pub seed: Option<&'a str>,
}

/// The sectors of a drive of the profiles `Base` and `Field` that is told none.
const NEW_SECTORS: u64 = 1000;

/// The sectors of its shadow.
const NEW_MBR_SECTORS: u64 = 8;

/// The sectors of a drive of the profile `Opal` that is told none: twice its shadow.
const NEW_OPAL_SECTORS: u64 = 524_288;

/// The profile of a name.
fn profile_named(name: &[u8]) -> Option<Profile>
    ensures { result ≡ profile_named name.now }
{
    if name == b"base".as_slice() {
        Some(Profile::Base)
    } else if name == b"field".as_slice() {
        Some(Profile::Field)
    } else if name == b"opal".as_slice() {
        Some(Profile::Opal)
    } else {
        None
    }
}

/// The sectors of a drive that is told none.
fn new_sectors_of(profile: Option<Profile>) -> u64
    ensures { result ≡ new_sectors profile }
{
    match profile {
        None | Some(Profile::Base) | Some(Profile::Field) => NEW_SECTORS,
        Some(Profile::Opal) => NEW_OPAL_SECTORS,
    }
}

/// The sectors of the shadow of a drive that is told none.
fn new_shadow_of(profile: Option<Profile>) -> u64
    ensures { result ≡ new_shadow profile }
{
    match profile {
        None | Some(Profile::Base) | Some(Profile::Field) => NEW_MBR_SECTORS,
        Some(Profile::Opal) => OPAL_MBR_SECTORS,
    }
}

/// The number that a text writes, or another one where there is no text.
fn size_or(other: u64, text: Option<&str>) -> Option<u64>
    ensures { result ≡ size_or other (option_map (λ s. s.now) text.entry) }
{
    match text {
        None => Some(other),
        Some(text) => number_up_to(u64::MAX, text.as_bytes()),
    }
}

/// The bytes of a text, or others where there is no text.
fn text_or<'a>(other: &'a [u8], text: Option<&'a str>) -> &'a [u8]
    ensures { result.now ≡ text_or other.now (option_map (λ s. s.now) text.entry) }
{
    match text {
        None => other,
        Some(text) => text.as_bytes(),
    }
}

/// Whether a text is given, and is empty.
fn is_empty_text(text: Option<&str>) -> bool
    ensures { result ≡ is_empty_text (option_map (λ s. s.now) text.entry) }
{
    match text {
        None => false,
        Some(text) => text.is_empty(),
    }
}

/// The bytes that the hex writes; where there is none, the PSID of a drive that is given none.
fn label_in(alloc: Global, text: Option<&str>) -> Result<Vec<u8>, FromHexError>
    ensures read { IfOk result (λ psid. label_of (option_map (λ s. s.now) text.entry)
        ≡ Ok psid.items) }
    ensures fault { IfErr result (λ fault. fault ≢ hex_faults.OutOfMemory
        → label_of (option_map (λ s. s.now) text.entry) ≡ Err fault) }
{
    match text {
        None => Ok(NEW_PSID.to_vec(alloc)?),
        Some(text) => hex::decode(alloc, text.as_bytes()),
    }
}

/// What a drive is opened with: within the limits of a configuration.
#[derive(Drop)]
pub struct Options {
    config: DriveConfig,
}

impl Model for Options {
    ghost use Rattle.sp_cells.specs.Config.{Config};
    ghost use Rattle.tool.specs.OptionTexts.{IsOfDrive};

    ghost Value = { Config };

    ghost view = { λ o. o.config };

    ghost invariant = { λ o. IsOfDrive o.config };
}

impl Options {
    ghost use Rattle.std.specs.Prelude.{◌≡◌, IfOk, IfErr};
    ghost use Rattle.sp_cells.specs.Config.{seeded_config};
    ghost use Rattle.tool.specs.OptionTexts.{WritesConfig, IsFirstOptionFault, drive_text};

    /// Reads the values as they are written on the command line: two decimal numbers, hex, the name of a profile, two
    /// names, hex, and two decimal numbers. The first fault is told: `Sectors`, `Shadow`, `Seed`, `Msid`, `Psid`, `Profile`,
    /// `NamesOfBase`, `DatastoreOfBase`, `SeedBelowOpal`, `Datastore`, `EmptyName`, `NoDrive`, `Names`, `Label`,
    /// `DatastoreSize`.
    pub fn parse(alloc: Global, texts: &DriveTexts<'_>) -> Result<Options, OptionsFault>
        ensures read { IfOk result (λ options. WritesConfig (drive_text texts.now) options) }
        ensures fault { IfErr result (λ fault. IsFirstOptionFault (drive_text texts.now) fault) }
    {
        let sectors = texts.sectors_in().ok_or(OptionsFault::Sectors)?;
        let shadow = texts.shadow_in().ok_or(OptionsFault::Shadow)?;
        let seed = texts.seed_in().ok_or(OptionsFault::Seed)?;
        let msid = match hex::decode(alloc, texts.msid.as_bytes()) {
            Ok(msid) => msid,
            Err(FromHexError::OutOfMemory) => return Err(OptionsFault::OutOfMemory),
            Err(fault) => return Err(OptionsFault::Msid(fault)),
        };
        let psid = match label_in(alloc, texts.psid) {
            Ok(psid) => psid,
            Err(FromHexError::OutOfMemory) => return Err(OptionsFault::OutOfMemory),
            Err(fault) => return Err(OptionsFault::Psid(fault)),
        };
        let profile = profile_named(texts.profile.as_bytes()).ok_or(OptionsFault::Profile)?;
        let datastore = texts.store_for(profile)?;
        let Some(config) = DriveConfig::of_profile(profile, sectors, shadow, &msid) else {
            return Err(OptionsFault::NoDrive {
                profile,
                sectors,
                shadow,
                msid: msid.len(),
            });
        };
        let serial = text_or(&NEW_SERIAL, texts.serial);
        let model = text_or(&NEW_MODEL, texts.model);
        let Some(config) = config.with_names(serial, model) else {
            return Err(OptionsFault::Names);
        };
        let Some(config) = config.with_psid(&psid) else {
            return Err(OptionsFault::Label { psid: psid.len() });
        };
        match config.with_datastore(datastore) {
            Some(config) => Ok(Options {
                config: config.with_seed(seed),
            }),
            None => Err(OptionsFault::DatastoreSize { datastore }),
        }
    }

    /// The same, where random bytes come of this seed.
    pub fn with_seed(&self, seed: u64) -> Options
        ensures { result ≡ seeded_config self.now seed }
    {
        Options {
            config: self.config().with_seed(seed),
        }
    }

    /// The configuration of the drive.
    pub fn config(&self) -> DriveConfig
        ensures { result ≡ self.now }
    {
        let config = &self.config;
        DriveConfig::of_profile(
            config.profile(),
            config.sectors(),
            config.mbr_sectors(),
            config.msid(),
        )
        .unwrap()
        .with_names(config.serial(), config.model())
        .unwrap()
        .with_psid(config.psid())
        .unwrap()
        .with_datastore(config.datastore())
        .unwrap()
        .with_seed(config.seed())
    }
}

impl DriveTexts<'_> {
    ghost use Rattle.std.specs.Prelude.{◌≡◌};
    ghost use Rattle.std.specs.Prelude.{IfOk, IfErr};
    ghost use Rattle.tool.specs.OptionTexts.{drive_text, sectors_in, shadow_in, seed_in, has_names, may_have_names, may_have_store, may_have_seed, has_empty_name, IsStore, IsStoreFault};

    /// The sectors that the texts write.
    fn sectors_in(&self) -> Option<u64>
        ensures { result ≡ sectors_in (drive_text self.now) }
    {
        size_or(
            new_sectors_of(profile_named(self.profile.as_bytes())),
            self.sectors,
        )
    }

    /// The sectors of the shadow that the texts write.
    fn shadow_in(&self) -> Option<u64>
        ensures { result ≡ shadow_in (drive_text self.now) }
    {
        size_or(
            new_shadow_of(profile_named(self.profile.as_bytes())),
            self.shadow,
        )
    }

    /// The seed that the texts write.
    fn seed_in(&self) -> Option<u64>
        ensures { result ≡ seed_in (drive_text self.now) }
    {
        size_or(NEW_SEED, self.seed)
    }

    /// Whether a serial number, a model number or a PSID is given.
    fn has_names(&self) -> bool
        ensures { result ≡ has_names (drive_text self.now) }
    {
        self.serial.is_some() || self.model.is_some() || self.psid.is_some()
    }

    /// Whether a drive of this profile may have the names that are given.
    fn may_have_names(&self, profile: Profile) -> bool
        ensures { result ≡ may_have_names profile (drive_text self.now) }
    {
        match profile {
            Profile::Base => !self.has_names(),
            Profile::Field | Profile::Opal => true,
        }
    }

    /// Whether a drive of this profile may have the DataStore whose size is given.
    fn may_have_store(&self, profile: Profile) -> bool
        ensures { result ≡ may_have_store profile (drive_text self.now) }
    {
        match profile {
            Profile::Base => self.datastore.is_none(),
            Profile::Field | Profile::Opal => true,
        }
    }

    /// Whether a drive of this profile may have the seed that is given.
    fn may_have_seed(&self, profile: Profile) -> bool
        ensures { result ≡ may_have_seed profile (drive_text self.now) }
    {
        match profile {
            Profile::Base | Profile::Field => self.seed.is_none(),
            Profile::Opal => true,
        }
    }

    /// Whether a name is given that has no character.
    fn has_empty_name(&self) -> bool
        ensures { result ≡ has_empty_name (drive_text self.now) }
    {
        is_empty_text(self.serial) || is_empty_text(self.model)
    }

    /// The bytes of DataStore, of a drive of this profile, that may have what is given.
    fn store_for(&self, profile: Profile) -> Result<u64, OptionsFault>
        ensures read { IfOk result (IsStore profile (drive_text self.now)) }
        ensures fault { IfErr result (IsStoreFault profile (drive_text self.now)) }
    {
        if !self.may_have_names(profile) {
            return Err(OptionsFault::NamesOfBase);
        }
        if !self.may_have_store(profile) {
            return Err(OptionsFault::DatastoreOfBase);
        }
        if !self.may_have_seed(profile) {
            return Err(OptionsFault::SeedBelowOpal);
        }
        let Some(datastore) = size_or(new_datastore_of(profile), self.datastore) else {
            return Err(OptionsFault::Datastore);
        };
        if self.has_empty_name() {
            return Err(OptionsFault::EmptyName);
        }
        Ok(datastore)
    }
}
