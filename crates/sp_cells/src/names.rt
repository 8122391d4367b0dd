//! The names of objects, methods and columns, each with its number: no other file of the code has one.

ghost use Rattle.std.specs.Prelude.{◌≡◌, ◌+◌, ◌-◌, ◌<◌, ◌≤◌, ◌^◌};
ghost use Rattle.std.specs.Int.{w64, to_be_bytes, from_be_bytes};
ghost use Rattle.sp_cells.specs.Names.{table_of, range_uid, key_uid, admin_uid, user_uid, admin_pin_uid, user_pin_uid, ace_c_pin_user_set_pin, ace_user_set_common_name, ace_range_get, ace_range_set_read_locked, ace_range_set_write_locked, ace_key_gen_key};
ghost use Rattle.sp_cells.specs.Numbers.{number_behind, admin_number, user_number, admin_pin_number, user_pin_number, range_number, user_ace_number, user_common_name_ace_number, range_get_ace_number, read_locked_ace_number, write_locked_ace_number, gen_key_ace_number, key_number};

/// The number of ranges beside the global one: they are numbered from 1.
pub const RANGES: u8 = 16;

/// The number of Users: they are numbered from 1.
pub const USERS: u8 = 16;

/// The number of Admins of the Locking SP: they are numbered from 1.
pub const ADMINS: u8 = 4;

const ADMIN_BASE: u64 = 0x0000_0009_0001_0000;

const USER_BASE: u64 = 0x0000_0009_0003_0000;

const ADMIN_PIN_BASE: u64 = 0x0000_000b_0001_0000;

const USER_PIN_BASE: u64 = 0x0000_000b_0003_0000;

const RANGE_BASE: u64 = 0x0000_0802_0003_0000;

const USER_ACE_BASE: u64 = 0x0000_0008_0003_a800;

const USER_COMMON_NAME_ACE_BASE: u64 = 0x0000_0008_0004_4000;

const KEY_BASE: u64 = 0x0000_0806_0003_0000;

const GEN_KEY_ACE_BASE: u64 = 0x0000_0008_0003_b800;

const RANGE_GET_ACE_BASE: u64 = 0x0000_0008_0003_d000;

const READ_LOCKED_ACE_BASE: u64 = 0x0000_0008_0003_e000;

const WRITE_LOCKED_ACE_BASE: u64 = 0x0000_0008_0003_e800;

/// The tables of objects, as the upper four bytes of their rows' names have them.
pub mod tables {
    pub const TABLE: u64 = 0x0001;

    pub const SP_INFO: u64 = 0x0002;

    pub const SP_TEMPLATES: u64 = 0x0003;

    pub const METHOD_ID: u64 = 0x0006;

    pub const ACCESS_CONTROL: u64 = 0x0007;

    pub const ACE: u64 = 0x0008;

    pub const AUTHORITY: u64 = 0x0009;

    pub const C_PIN: u64 = 0x000b;

    pub const SECRET_PROTECT: u64 = 0x001d;

    pub const TEMPLATE: u64 = 0x0204;

    pub const SP: u64 = 0x0205;

    pub const LOCKING_INFO: u64 = 0x0801;

    pub const LOCKING: u64 = 0x0802;

    pub const MBR_CONTROL: u64 = 0x0803;

    pub const TPER_INFO: u64 = 0x0201;

    pub const K_AES_256: u64 = 0x0806;

    pub const DATA_REMOVAL: u64 = 0x1101;
}

/// A security provider of the drive (Opal SSC 2.01, sections 4.2 and 4.3).
#[derive(Clone, Copy, Debug, PartialEq, Eq)]
pub enum Sp {
    Admin,
    Locking,
}

/// The name of an object: its eight bytes, the most significant first (Core 2.01, section 5.1). The upper four
/// name the table, the lower four the row.
#[derive(Clone, Copy, Debug, Default, PartialEq, Eq)]
pub struct Uid(pub u64);

impl Uid {
    /// The eight zeros that stand for no object.
    pub const NONE: Uid = Uid(0);

    /// The SP that a session is on.
    pub const THIS_SP: Uid = Uid(0x0000_0000_0000_0001);

    /// The one row of the SPInfo table of an SP.
    pub const SP_INFO: Uid = Uid(0x0000_0002_0000_0001);

    /// The row of the SPTemplates table of an SP on the template that each SP has.
    pub const SP_TEMPLATE_BASE: Uid = Uid(0x0000_0003_0000_0001);

    /// The row of the SPTemplates table of an SP on its own template.
    pub const SP_TEMPLATE_OWN: Uid = Uid(0x0000_0003_0000_0002);

    /// The row of the Template table on the template that each SP has.
    pub const TEMPLATE_BASE: Uid = Uid(0x0000_0204_0000_0001);

    /// The row of the Template table on the Admin SP's template.
    pub const TEMPLATE_ADMIN: Uid = Uid(0x0000_0204_0000_0002);

    /// The row of the Template table on the Locking SP's template.
    pub const TEMPLATE_LOCKING: Uid = Uid(0x0000_0204_0000_0006);

    /// The table AccessControl as an object.
    pub const ACCESS_CONTROL: Uid = Uid(0x0000_0007_0000_0000);

    /// The row of SecretProtect on the column Key of K_AES_256.
    pub const SECRET_PROTECT_KEY: Uid = Uid(0x0000_001d_0000_001e);

    /// The one row of the TPerInfo table.
    pub const TPER_INFO: Uid = Uid(0x0000_0201_0003_0001);

    /// The row of the Admin SP in the SP table.
    pub const ADMIN_SP: Uid = Uid(0x0000_0205_0000_0001);

    /// The row of the Locking SP in the SP table.
    pub const LOCKING_SP: Uid = Uid(0x0000_0205_0000_0002);

    /// The authority that everyone is.
    pub const ANYBODY: Uid = Uid(0x0000_0009_0000_0001);

    /// The owner of the drive.
    pub const SID: Uid = Uid(0x0000_0009_0000_0006);

    /// The class of the Locking SP's Admins.
    pub const ADMINS: Uid = Uid(0x0000_0009_0000_0002);

    /// The class of the Locking SP's Users.
    pub const USERS: Uid = Uid(0x0000_0009_0003_0000);

    /// The Admin SP's class Makers.
    pub const MAKERS: Uid = Uid(0x0000_0009_0000_0003);

    /// The Admin SP's Admin1, of the class of its Admins.
    pub const ADMIN_SP_ADMIN: Uid = Uid(0x0000_0009_0000_0201);

    /// Who holds the label of the drive (PSID feature set 1.00).
    pub const PSID: Uid = Uid(0x0000_0009_0001_ff01);

    /// The PIN row of SID.
    pub const C_PIN_SID: Uid = Uid(0x0000_000b_0000_0001);

    /// The PIN row that anybody may read.
    pub const C_PIN_MSID: Uid = Uid(0x0000_000b_0000_8402);

    /// The PIN row of the Admin SP's Admin1.
    pub const C_PIN_ADMIN_SP_ADMIN: Uid = Uid(0x0000_000b_0000_0201);

    /// The PIN row of PSID.
    pub const C_PIN_PSID: Uid = Uid(0x0000_000b_0001_ff01);

    /// The one row of the LockingInfo table.
    pub const LOCKING_INFO: Uid = Uid(0x0000_0801_0000_0001);

    /// The row of the global range in the Locking table.
    pub const GLOBAL_RANGE: Uid = Uid(0x0000_0802_0000_0001);

    /// The one row of the MBRControl table.
    pub const MBR_CONTROL: Uid = Uid(0x0000_0803_0000_0001);

    /// The key of the global range.
    pub const GLOBAL_KEY: Uid = Uid(0x0000_0806_0000_0001);

    /// The row of the Table table that tells of the byte table of the shadow MBR.
    pub const MBR_TABLE_ROW: Uid = Uid(0x0000_0001_0000_0804);

    /// The byte table of the shadow MBR.
    pub const MBR_TABLE: Uid = Uid(0x0000_0804_0000_0000);

    /// The row of the Table table that tells of the byte table DataStore.
    pub const DATASTORE_TABLE_ROW: Uid = Uid(0x0000_0001_0000_1001);

    /// The byte table DataStore, in which a host keeps what it likes.
    pub const DATASTORE_TABLE: Uid = Uid(0x0000_1001_0000_0000);

    /// The one row of the DataRemovalMechanism table.
    pub const DATA_REMOVAL: Uid = Uid(0x0000_1101_0000_0001);

    /// The ACE that everyone fulfils.
    pub const ACE_ANYBODY: Uid = Uid(0x0000_0008_0000_0001);

    /// The ACE that the Admins of the Locking SP fulfil (ACE_Admin).
    pub const ACE_ADMINS: Uid = Uid(0x0000_0008_0000_0002);

    /// Everyone may read the name that a host gave.
    pub const ACE_ANYBODY_GET_COMMON_NAME: Uid = Uid(0x0000_0008_0000_0003);

    /// The Admins may name a range and an Admin (ACE_Admins_Set_CommonName).
    pub const ACE_ADMINS_SET_COMMON_NAME: Uid = Uid(0x0000_0008_0000_0004);

    /// Who may read ACEs (ACE_ACE_Get_All).
    pub const ACE_ACE_GET_ALL: Uid = Uid(0x0000_0008_0003_8000);

    /// Who may read authorities (ACE_Authority_Get_All).
    pub const ACE_AUTHORITY_GET_ALL: Uid = Uid(0x0000_0008_0003_9000);

    /// Who may read the mode of a key (ACE_K_AES_Mode).
    pub const ACE_KEY_MODE: Uid = Uid(0x0000_0008_0003_bfff);

    /// Who may enable the Admin SP's Makers and its Admin1 (ACE_Set_Enabled).
    pub const ACE_SET_ENABLED: Uid = Uid(0x0000_0008_0003_0001);

    /// Who may read the C_PIN row of SID but for its PIN.
    pub const ACE_C_PIN_SID_GET_NOPIN: Uid = Uid(0x0000_0008_0000_8c02);

    /// Who may set SID's PIN.
    pub const ACE_C_PIN_SID_SET_PIN: Uid = Uid(0x0000_0008_0000_8c03);

    /// Who may read the MSID.
    pub const ACE_C_PIN_MSID_GET_PIN: Uid = Uid(0x0000_0008_0000_8c04);

    /// Who may read the C_PIN row of PSID but for its PIN.
    pub const ACE_C_PIN_GET_PSID_NOPIN: Uid = Uid(0x0000_0008_0001_00e0);

    /// PSID may revert the drive.
    pub const ACE_SP_PSID: Uid = Uid(0x0000_0008_0001_00e1);

    /// Who may activate and revert the SPs.
    pub const ACE_SP_SID: Uid = Uid(0x0000_0008_0003_0002);

    /// Who may let a command reset the drive.
    pub const ACE_TPER_INFO_SET_PROGRAMMATIC_RESET_ENABLE: Uid = Uid(0x0000_0008_0003_0003);

    /// Who may choose how the drive removes data (ACE_DataRemovalMechanism_Set_ActiveDataRemovalMechanism).
    pub const ACE_DATA_REMOVAL_SET_ACTIVE: Uid = Uid(0x0000_0008_0005_0001);

    /// Who may set an ACE's expression.
    pub const ACE_ACE_SET_BOOLEAN_EXPRESSION: Uid = Uid(0x0000_0008_0003_8001);

    /// Who may enable an authority.
    pub const ACE_AUTHORITY_SET_ENABLED: Uid = Uid(0x0000_0008_0003_9001);

    /// Who may read the C_PIN rows of the Locking SP but for their PINs.
    pub const ACE_C_PIN_ADMINS_GET_ALL_NOPIN: Uid = Uid(0x0000_0008_0003_a000);

    /// Who may set an Admin's PIN.
    pub const ACE_C_PIN_ADMINS_SET_PIN: Uid = Uid(0x0000_0008_0003_a001);

    /// Who may read the ranges (ACE_Locking_GlobalRange_Get_RangeStartToActiveKey).
    pub const ACE_LOCKING_GET_ALL: Uid = Uid(0x0000_0008_0003_d000);

    /// Who may set the global range.
    pub const ACE_LOCKING_GLOBAL_RANGE_ADMINS_SET: Uid = Uid(0x0000_0008_0003_f000);

    /// Who may set a numbered range (ACE_Locking_Admins_RangeStartToLOR).
    pub const ACE_LOCKING_ADMINS_SET: Uid = Uid(0x0000_0008_0003_f001);

    /// Who may set the control of the shadow MBR.
    pub const ACE_MBR_CONTROL_ADMINS_SET: Uid = Uid(0x0000_0008_0003_f800);

    /// Who may lift the shadow MBR.
    pub const ACE_MBR_CONTROL_SET_DONE_TO_DOR: Uid = Uid(0x0000_0008_0003_f801);

    /// Who may read the bytes of DataStore (ACE_DataStore_Get_All).
    pub const ACE_DATASTORE_GET_ALL: Uid = Uid(0x0000_0008_0003_fc00);

    /// Who may write the bytes of DataStore (ACE_DataStore_Set_All).
    pub const ACE_DATASTORE_SET_ALL: Uid = Uid(0x0000_0008_0003_fc01);

    /// The method Get.
    pub const GET: Uid = Uid(0x0000_0006_0000_0016);

    /// The method Set.
    pub const SET: Uid = Uid(0x0000_0006_0000_0017);

    /// The method Authenticate.
    pub const AUTHENTICATE: Uid = Uid(0x0000_0006_0000_001c);

    /// The method Revert.
    pub const REVERT: Uid = Uid(0x0000_0006_0000_0202);

    /// The method Activate.
    pub const ACTIVATE: Uid = Uid(0x0000_0006_0000_0203);

    /// The session manager, which begins and describes sessions.
    pub const SESSION_MANAGER: Uid = Uid(0x0000_0000_0000_00ff);

    /// The session manager's method Properties.
    pub const PROPERTIES: Uid = Uid(0x0000_0000_0000_ff01);

    /// The session manager's method StartSession.
    pub const START_SESSION: Uid = Uid(0x0000_0000_0000_ff02);

    /// The session manager's method SyncSession, which answers a StartSession.
    pub const SYNC_SESSION: Uid = Uid(0x0000_0000_0000_ff03);

    /// The method GenKey.
    pub const GEN_KEY: Uid = Uid(0x0000_0006_0000_0010);

    /// The method RevertSP.
    pub const REVERT_SP: Uid = Uid(0x0000_0006_0000_0011);

    /// The method Next.
    pub const NEXT: Uid = Uid(0x0000_0006_0000_0008);

    /// The method GetACL.
    pub const GET_ACL: Uid = Uid(0x0000_0006_0000_000d);

    /// The method Random.
    pub const RANDOM: Uid = Uid(0x0000_0006_0000_0601);

    /// The row of a range in the Locking table; 0 is the global range.
    pub fn range(number: u8) -> Uid
        ensures { result ≡ range_uid number }
    {
        if number == 0 {
            Uid::GLOBAL_RANGE
        } else {
            Uid(RANGE_BASE + u64::from(number))
        }
    }

    /// The number of the range whose row this is; 0 is the global range.
    pub fn range_number(self) -> Option<u8>
        ensures { result ≡ range_number self }
    {
        if self == Uid::GLOBAL_RANGE {
            return Some(0);
        }
        self.number_behind(RANGE_BASE, RANGES)
    }

    /// The key of a range; 0 is the global range.
    pub fn key(number: u8) -> Uid
        ensures { result ≡ key_uid number }
    {
        if number == 0 {
            Uid::GLOBAL_KEY
        } else {
            Uid(KEY_BASE + u64::from(number))
        }
    }

    /// An Admin of the Locking SP, numbered from 1.
    pub fn admin(number: u8) -> Uid
        ensures { result ≡ admin_uid number }
    {
        Uid(ADMIN_BASE + u64::from(number))
    }

    /// The number of an Admin of the Locking SP, where this is one.
    pub fn admin_number(self) -> Option<u8>
        ensures { result ≡ admin_number self }
    {
        self.number_behind(ADMIN_BASE, ADMINS)
    }

    /// A User, numbered from 1.
    pub fn user(number: u8) -> Uid
        ensures { result ≡ user_uid number }
    {
        Uid(USER_BASE + u64::from(number))
    }

    /// The number of a User, where this is one.
    pub fn user_number(self) -> Option<u8>
        ensures { result ≡ user_number self }
    {
        self.number_behind(USER_BASE, USERS)
    }

    /// The PIN row of an Admin of the Locking SP, numbered from 1.
    pub fn pin_of_admin(number: u8) -> Uid
        ensures { result ≡ admin_pin_uid number }
    {
        Uid(ADMIN_PIN_BASE + u64::from(number))
    }

    /// The number of the Admin whose PIN row this is.
    pub fn admin_pin_number(self) -> Option<u8>
        ensures { result ≡ admin_pin_number self }
    {
        self.number_behind(ADMIN_PIN_BASE, ADMINS)
    }

    /// The PIN row of a User, numbered from 1.
    pub fn pin_of_user(number: u8) -> Uid
        ensures { result ≡ user_pin_uid number }
    {
        Uid(USER_PIN_BASE + u64::from(number))
    }

    /// The number of the User whose PIN row this is.
    pub fn user_pin_number(self) -> Option<u8>
        ensures { result ≡ user_pin_number self }
    {
        self.number_behind(USER_PIN_BASE, USERS)
    }

    /// Who may set a User's PIN (ACE_C_PIN_User1_Set_PIN and those behind it).
    pub fn ace_c_pin_user_set_pin(number: u8) -> Uid
        ensures { result ≡ ace_c_pin_user_set_pin number }
    {
        Uid(USER_ACE_BASE + u64::from(number))
    }

    /// The number of the User whose PIN this ACE lets set.
    pub fn user_ace_number(self) -> Option<u8>
        ensures { result ≡ user_ace_number self }
    {
        self.number_behind(USER_ACE_BASE, USERS)
    }

    /// Who may name a User (ACE_User1_Set_CommonName and those behind it).
    pub fn ace_user_set_common_name(number: u8) -> Uid
        ensures { result ≡ ace_user_set_common_name number }
    {
        Uid(USER_COMMON_NAME_ACE_BASE + u64::from(number))
    }

    /// The number of the User whom this ACE lets name.
    pub fn user_common_name_ace_number(self) -> Option<u8>
        ensures { result ≡ user_common_name_ace_number self }
    {
        self.number_behind(USER_COMMON_NAME_ACE_BASE, USERS)
    }

    /// Who may read a range under the profile `Field`, 0 being the global one
    /// (ACE_Locking_GlobalRange_Get_RangeStartToActiveKey and those behind it).
    pub fn ace_range_get(number: u8) -> Uid
        ensures { result ≡ ace_range_get number }
    {
        Uid(RANGE_GET_ACE_BASE + u64::from(number))
    }

    /// The number of the range that this ACE lets read.
    pub fn range_get_ace_number(self) -> Option<u8>
        ensures { result ≡ range_get_ace_number self }
    {
        if self.0 == RANGE_GET_ACE_BASE {
            return Some(0);
        }
        self.number_behind(RANGE_GET_ACE_BASE, RANGES)
    }

    /// Who may make a new key for a range, 0 being the global one (ACE_K_AES_256_GlobalRange_GenKey and those behind
    /// it).
    pub fn ace_key_gen_key(number: u8) -> Uid
        ensures { result ≡ ace_key_gen_key number }
    {
        Uid(GEN_KEY_ACE_BASE + u64::from(number))
    }

    /// The number of the range for which this ACE lets make a key.
    pub fn gen_key_ace_number(self) -> Option<u8>
        ensures { result ≡ gen_key_ace_number self }
    {
        if self.0 == GEN_KEY_ACE_BASE {
            return Some(0);
        }
        self.number_behind(GEN_KEY_ACE_BASE, RANGES)
    }

    /// Who may set the ReadLocked flag of a range, 0 being the global one (ACE_Locking_GlobalRange_Set_RdLocked and
    /// those behind it).
    pub fn ace_range_set_read_locked(number: u8) -> Uid
        ensures { result ≡ ace_range_set_read_locked number }
    {
        Uid(READ_LOCKED_ACE_BASE + u64::from(number))
    }

    /// The number of the range whose ReadLocked flag this ACE lets set.
    pub fn read_locked_ace_number(self) -> Option<u8>
        ensures { result ≡ read_locked_ace_number self }
    {
        if self.0 == READ_LOCKED_ACE_BASE {
            return Some(0);
        }
        self.number_behind(READ_LOCKED_ACE_BASE, RANGES)
    }

    /// Who may set the WriteLocked flag of a range, 0 being the global one (ACE_Locking_GlobalRange_Set_WrLocked and
    /// those behind it).
    pub fn ace_range_set_write_locked(number: u8) -> Uid
        ensures { result ≡ ace_range_set_write_locked number }
    {
        Uid(WRITE_LOCKED_ACE_BASE + u64::from(number))
    }

    /// The number of the range whose WriteLocked flag this ACE lets set.
    pub fn write_locked_ace_number(self) -> Option<u8>
        ensures { result ≡ write_locked_ace_number self }
    {
        if self.0 == WRITE_LOCKED_ACE_BASE {
            return Some(0);
        }
        self.number_behind(WRITE_LOCKED_ACE_BASE, RANGES)
    }

    /// The number of the range whose key's row this is; 0 is the global range.
    pub fn key_number(self) -> Option<u8>
        ensures { result ≡ key_number self }
    {
        if self == Uid::GLOBAL_KEY {
            return Some(0);
        }
        self.number_behind(KEY_BASE, RANGES)
    }

    /// The upper four bytes: the table that the object is a row of.
    pub fn table(self) -> u64
        ensures { result ≡ table_of self }
    {
        self.0 / 0x1_0000_0000
    }

    /// The name that these eight bytes write, the most significant first.
    pub fn from_bytes(bytes: [u8; 8]) -> Uid
        ensures { result.0 ≡ from_be_bytes w64 bytes }
    {
        Uid(u64::from_be_bytes(bytes))
    }

    /// The eight bytes of the name, the most significant first.
    pub fn to_bytes(self) -> [u8; 8]
        ensures value { result ≡ to_be_bytes w64 self.0 }
        ensures back { from_be_bytes w64 result ≡ self.0 }
    {
        self.0.to_be_bytes()
    }

    /// The number of a row, where it is one of `count` behind this name.
    fn number_behind(self, base: u64, count: u8) -> Option<u8>
        requires { base + count < 2 ^ 64 }
        ensures { result ≡ number_behind base count self }
    {
        if self.0 <= base || self.0 > base + u64::from(count) {
            return None;
        }
        Some((self.0 - base) as u8)
    }
}

/// The number of a column; what it means depends on the table.
#[derive(Clone, Copy, Debug, Default, PartialEq, Eq)]
pub struct Column(pub u64);

impl Column {
    /// The object's own name, in every table.
    pub const UID: Column = Column(0);

    /// The name of the row, in every table but MBRControl.
    pub const NAME: Column = Column(1);

    /// The name that the host gives, in most tables.
    pub const COMMON_NAME: Column = Column(2);

    /// The SP of a row of the SPInfo table.
    pub const SP_ID: Column = Column(1);

    /// The name of that SP.
    pub const SP_NAME: Column = Column(2);

    /// The bytes of that SP.
    pub const SIZE: Column = Column(3);

    /// The bytes of that SP that are in use.
    pub const SIZE_IN_USE: Column = Column(4);

    /// The time that a session of that SP lasts.
    pub const SP_SESSION_TIMEOUT: Column = Column(5);

    /// Whether that SP may be used.
    pub const SP_ENABLED: Column = Column(6);

    /// The template of a row of the SPTemplates table.
    pub const TEMPLATE_ID: Column = Column(1);

    /// The name of that template.
    pub const TEMPLATE_NAME: Column = Column(2);

    /// The version of that template.
    pub const TEMPLATE_VERSION: Column = Column(3);

    /// The revision of a template.
    pub const REVISION_NUMBER: Column = Column(2);

    /// How many SPs have a template.
    pub const INSTANCES: Column = Column(3);

    /// How many SPs can have a template.
    pub const MAX_INSTANCES: Column = Column(4);

    /// The table whose column is protected.
    pub const PROTECTED_TABLE: Column = Column(1);

    /// The number of that column.
    pub const COLUMN_NUMBER: Column = Column(2);

    /// How that column is protected.
    pub const PROTECT_MECHANISMS: Column = Column(3);

    /// The authority that made an SP.
    pub const ORG: Column = Column(2);

    /// What was in force as an SP was made.
    pub const EFFECTIVE_AUTH: Column = Column(3);

    /// The bytes of an SP.
    pub const SP_BYTES: Column = Column(5);

    /// Whether an SP is frozen.
    pub const FROZEN: Column = Column(7);

    /// The bytes of the TPer.
    pub const TPER_BYTES: Column = Column(1);

    /// The identifier of the TPer.
    pub const GUDID: Column = Column(2);

    /// The generation of the TPer.
    pub const GENERATION: Column = Column(3);

    /// The firmware of the TPer.
    pub const FIRMWARE_VERSION: Column = Column(4);

    /// The protocol of the TPer.
    pub const PROTOCOL_VERSION: Column = Column(5);

    /// The bytes that new SPs can have.
    pub const SPACE_FOR_ISSUANCE: Column = Column(6);

    /// The names of the security subsystem classes of the TPer.
    pub const SSC: Column = Column(7);

    /// The mode in which a key is used.
    pub const MODE: Column = Column(4);

    /// The secret of a C_PIN row.
    pub const PIN: Column = Column(3);

    /// The characters that a PIN may have.
    pub const CHAR_SET: Column = Column(4);

    /// How many wrong attempts a C_PIN row allows; 0 is no limit.
    pub const TRY_LIMIT: Column = Column(5);

    /// The wrong attempts on a C_PIN row so far.
    pub const TRIES: Column = Column(6);

    /// Whether the wrong attempts outlast a power cycle.
    pub const PERSISTENCE: Column = Column(7);

    /// Whether an authority is a class of others.
    pub const IS_CLASS: Column = Column(3);

    /// The class that an authority belongs to.
    pub const CLASS: Column = Column(4);

    /// Whether an authority may be used.
    pub const ENABLED: Column = Column(5);

    /// Whether an authority wants its messages secured.
    pub const SECURE: Column = Column(6);

    /// How an authority hashes and signs.
    pub const HASH_AND_SIGN: Column = Column(7);

    /// Whether an authority shows a certificate.
    pub const PRESENT_CERTIFICATE: Column = Column(8);

    /// Who signs the answer to an authority.
    pub const RESPONSE_SIGN: Column = Column(11);

    /// Who exchanges keys with an authority.
    pub const RESPONSE_EXCH: Column = Column(12);

    /// How often an authority may be used.
    pub const LIMIT: Column = Column(15);

    /// How often an authority was used.
    pub const USES: Column = Column(16);

    /// What of an authority's use is logged.
    pub const LOG: Column = Column(17);

    /// Where it is logged.
    pub const LOG_TO: Column = Column(18);

    /// How an authority proves itself.
    pub const OPERATION: Column = Column(9);

    /// The C_PIN row of an authority.
    pub const CREDENTIAL: Column = Column(10);

    /// The life cycle state of an SP.
    pub const LIFE_CYCLE_STATE: Column = Column(6);

    /// The first sector of a range.
    pub const RANGE_START: Column = Column(3);

    /// The number of sectors of a range.
    pub const RANGE_LENGTH: Column = Column(4);

    /// Whether a range's lock on reads counts.
    pub const READ_LOCK_ENABLED: Column = Column(5);

    /// Whether a range's lock on writes counts.
    pub const WRITE_LOCK_ENABLED: Column = Column(6);

    /// Whether a range is locked for reads.
    pub const READ_LOCKED: Column = Column(7);

    /// Whether a range is locked for writes.
    pub const WRITE_LOCKED: Column = Column(8);

    /// The resets that lock a range.
    pub const LOCK_ON_RESET: Column = Column(9);

    /// The key of a range.
    pub const ACTIVE_KEY: Column = Column(10);

    /// The version of the LockingInfo table.
    pub const VERSION: Column = Column(2);

    /// Whether the drive encrypts.
    pub const ENCRYPT_SUPPORT: Column = Column(3);

    /// How many ranges the drive has beside the global one.
    pub const MAX_RANGES: Column = Column(4);

    /// How many ranges can be encrypted anew at once.
    pub const MAX_RE_ENCRYPTIONS: Column = Column(5);

    /// How keys are kept.
    pub const KEYS_AVAILABLE_CFG: Column = Column(6);

    /// Whether ranges must lie at multiples of the granularity.
    pub const ALIGNMENT_REQUIRED: Column = Column(7);

    /// The bytes of a sector.
    pub const LOGICAL_BLOCK_SIZE: Column = Column(8);

    /// The sectors at whose multiples ranges should lie.
    pub const ALIGNMENT_GRANULARITY: Column = Column(9);

    /// The first sector that is aligned.
    pub const LOWEST_ALIGNED_LBA: Column = Column(10);

    /// Whether a table has bytes or objects.
    pub const KIND: Column = Column(4);

    /// The rows of a table; of a byte table its bytes.
    pub const ROWS: Column = Column(7);

    /// The bytes by whose multiples a byte table is written.
    pub const MANDATORY_WRITE_GRANULARITY: Column = Column(13);

    /// The bytes by whose multiples a byte table is best read and written.
    pub const RECOMMENDED_ACCESS_GRANULARITY: Column = Column(14);

    /// How the drive removes data.
    pub const ACTIVE_DATA_REMOVAL_MECHANISM: Column = Column(1);

    /// Whether the shadow MBR is in use.
    pub const MBR_ENABLE: Column = Column(1);

    /// Whether the shadow MBR is lifted.
    pub const MBR_DONE: Column = Column(2);

    /// The resets that bring the shadow MBR back.
    pub const MBR_DONE_ON_RESET: Column = Column(3);

    /// Whether a command may reset the drive.
    pub const PROGRAMMATIC_RESET_ENABLE: Column = Column(8);

    /// The expression of an ACE.
    pub const BOOLEAN_EXPR: Column = Column(3);

    /// The columns that an ACE speaks of.
    pub const COLUMNS: Column = Column(4);
}
