//! The limits of this drive, and the states of an SP.

/// The most sectors of a shadow MBR.
pub const MOST_MBR_SECTORS: u64 = 262_144;

/// The most bytes of DataStore.
pub const MOST_DATASTORE_BYTES: u64 = 16_777_216;

/// The bytes of DataStore where none is told.
pub const NEW_DATASTORE_BYTES: u64 = 4096;

/// The sectors of the shadow MBR of an Opal drive.
pub const OPAL_MBR_SECTORS: u64 = 262_144;

/// The least bytes of DataStore of an Opal drive, which has them where none are told.
pub const LEAST_OPAL_DATASTORE_BYTES: u64 = 10_485_760;

/// The seed of the random bytes of a drive that is given none.
pub const NEW_SEED: u64 = 0;

/// The most bytes of a PIN.
pub const MOST_PIN_BYTES: usize = 32;

/// The most bytes of a serial number.
pub const MOST_SERIAL_BYTES: usize = 20;

/// The most bytes of a model number.
pub const MOST_MODEL_BYTES: usize = 40;

/// The most bytes of the name that a host gives to a row.
pub const MOST_COMMON_NAME_BYTES: usize = 32;

/// The most elements of an expression under the profiles `Base` and `Field`.
pub const MOST_SHORT_ELEMENTS: usize = 31;

/// The most elements of an expression: under the profile `Opal` it can join each User with the Admins.
pub const MOST_ELEMENTS: usize = 33;

/// The wrong attempts that a new PIN row allows.
pub const NEW_TRY_LIMIT: u64 = 5;

/// The limit of a PIN row that allows any number of wrong attempts.
pub const NO_TRY_LIMIT: u64 = 0;

/// The one way in which this drive removes data: cryptographic erase.
pub const CRYPTOGRAPHIC_ERASE: u64 = 2;

/// The life cycle state of an SP that is not in use yet.
pub const MANUFACTURED_INACTIVE: u64 = 8;

/// The life cycle state of an SP that is in use.
pub const MANUFACTURED: u64 = 9;
