//! The rows of a new drive whose cells no host sets (Opal SSC 2.01, sections 4.2 and 4.3), a row for each entry.

ghost use Rattle.std.specs.Prelude.{◌≡◌};
ghost use Rattle.std.specs.List.{flat_map};
ghost use Rattle.basics.specs.declared.profile.Profile.{Profile};
ghost use Rattle.sp_tables.specs.Factory.{in_opal, admin_constants, locking_constants};
ghost use Rattle.sp_tables.specs.Entries.{entry_items, constant_items};

use crate::sp_rows::constants::{AuthorityCells, Constant, Constants, OneRow, XTS};
use crate::sp_rows::entries::{Drives, Entry};
use sp_cells::names::tables;
use sp_cells::{ADMINS, Column, ResetTypes, USERS, Uid};

/// The names of rows of the Table table begin here.
pub(crate) const TABLES: u64 = tables::TABLE << 32;

/// What Kind is of a table of objects.
const OBJECT_TABLE: u64 = 1;

/// The column Key of K_AES_256.
const KEY: u64 = 3;

/// The further columns of an authority.
const OF_AUTHORITY: [(Column, Constant); 9] = [
    (Column::SECURE, Constant::Number(0)),
    (Column::HASH_AND_SIGN, Constant::Number(0)),
    (Column::PRESENT_CERTIFICATE, Constant::Number(0)),
    (Column::RESPONSE_SIGN, Constant::Uid(Uid::NONE)),
    (Column::RESPONSE_EXCH, Constant::Uid(Uid::NONE)),
    (Column::LIMIT, Constant::Number(0)),
    (Column::USES, Constant::Number(0)),
    (Column::LOG, Constant::Number(0)),
    (Column::LOG_TO, Constant::Uid(Uid::NONE)),
];

/// Those of an SP.
const OF_SP: [(Column, Constant); 4] = [
    (Column::ORG, Constant::Uid(Uid::NONE)),
    (Column::EFFECTIVE_AUTH, Constant::Text("")),
    (Column::SP_BYTES, Constant::Number(0)),
    (Column::FROZEN, Constant::Number(0)),
];

/// Those of what the drive says of itself.
const OF_TPER_INFO: [(Column, Constant); 7] = [
    (Column::TPER_BYTES, Constant::Number(0)),
    (Column::GUDID, Constant::Bytes(&[0; 12])),
    (Column::GENERATION, Constant::Number(0)),
    (Column::FIRMWARE_VERSION, Constant::Number(0)),
    (Column::PROTOCOL_VERSION, Constant::Number(1)),
    (Column::SPACE_FOR_ISSUANCE, Constant::Number(0)),
    (Column::SSC, Constant::OneName("Opal")),
];

/// An entry of further columns of a row.
macro_rules! further {
    ($object:expr, $cells:expr) => {
        Entry {
            drives: Drives::Opal,
            rows: Constants::One(OneRow {
                object: $object,
                cells: $cells,
            }),
        }
    };
}

/// An entry of a row: its name, and its cells but that of its name.
macro_rules! row {
    ($object:expr; $($column:ident: $value:expr),+) => {
        further!(
            $object,
            &[(Column::UID, Constant::Uid($object)), $((Column::$column, $value)),+]
        )
    };
}

/// An entry of the row of a table of objects in the Table table.
macro_rules! object_table {
    ($table:ident, $name:expr) => {
        row!(
            Uid(TABLES + tables::$table);
            NAME: Constant::Text($name),
            COMMON_NAME: Constant::Text(""),
            KIND: Constant::Number(OBJECT_TABLE),
            MANDATORY_WRITE_GRANULARITY: Constant::Number(0),
            RECOMMENDED_ACCESS_GRANULARITY: Constant::Number(0)
        )
    };
}

/// An entry of a method.
macro_rules! method {
    ($method:ident, $name:expr) => {
        row!(
            Uid::$method;
            NAME: Constant::Text($name),
            COMMON_NAME: Constant::Text("")
        )
    };
}

/// An entry of what an SP says of itself.
macro_rules! sp_info {
    ($sp:ident, $name:expr) => {
        row!(
            Uid::SP_INFO;
            SP_ID: Constant::Uid(Uid::$sp),
            SP_NAME: Constant::Text($name),
            SIZE: Constant::Number(0),
            SIZE_IN_USE: Constant::Number(0),
            SP_SESSION_TIMEOUT: Constant::Number(0),
            SP_ENABLED: Constant::Number(1)
        )
    };
}

/// An entry of a template that an SP was made by.
macro_rules! sp_template {
    ($object:ident, $template:ident, $name:expr) => {
        row!(
            Uid::$object;
            TEMPLATE_ID: Constant::Uid(Uid::$template),
            TEMPLATE_NAME: Constant::Text($name),
            TEMPLATE_VERSION: Constant::Bytes(&[0, 0, 0, 2])
        )
    };
}

/// An entry of a template, with the number of SPs that are made by it.
macro_rules! template {
    ($object:ident, $name:expr, $instances:expr) => {
        row!(
            Uid::$object;
            NAME: Constant::Text($name),
            REVISION_NUMBER: Constant::Number(1),
            INSTANCES: Constant::Number($instances),
            MAX_INSTANCES: Constant::Number($instances)
        )
    };
}

/// The Admin SP's.
static ADMIN_CONSTANTS: [Entry<Constants>; 35] = [
    object_table!(TABLE, "Table"),
    object_table!(SP_INFO, "SPInfo"),
    object_table!(SP_TEMPLATES, "SPTemplates"),
    object_table!(METHOD_ID, "MethodID"),
    object_table!(ACCESS_CONTROL, "AccessControl"),
    object_table!(ACE, "ACE"),
    object_table!(AUTHORITY, "Authority"),
    object_table!(C_PIN, "C_PIN"),
    object_table!(TPER_INFO, "TPerInfo"),
    object_table!(TEMPLATE, "Template"),
    object_table!(SP, "SP"),
    object_table!(DATA_REMOVAL, "DataRemovalMechanism"),
    method!(NEXT, "Next"),
    method!(GET_ACL, "GetACL"),
    method!(GET, "Get"),
    method!(SET, "Set"),
    method!(AUTHENTICATE, "Authenticate"),
    method!(REVERT, "Revert"),
    method!(ACTIVATE, "Activate"),
    method!(RANDOM, "Random"),
    sp_info!(ADMIN_SP, "Admin"),
    sp_template!(SP_TEMPLATE_BASE, TEMPLATE_BASE, "Base"),
    sp_template!(SP_TEMPLATE_OWN, TEMPLATE_ADMIN, "Admin"),
    template!(TEMPLATE_BASE, "Base", 2),
    template!(TEMPLATE_ADMIN, "Admin", 1),
    template!(TEMPLATE_LOCKING, "Locking", 1),
    further!(Uid::ADMIN_SP, &OF_SP),
    further!(Uid::LOCKING_SP, &OF_SP),
    further!(Uid::TPER_INFO, &OF_TPER_INFO),
    further!(Uid::ANYBODY, &OF_AUTHORITY),
    further!(Uid::ADMINS, &OF_AUTHORITY),
    further!(Uid::MAKERS, &OF_AUTHORITY),
    further!(Uid::SID, &OF_AUTHORITY),
    further!(Uid::ADMIN_SP_ADMIN, &OF_AUTHORITY),
    further!(Uid::PSID, &OF_AUTHORITY),
];

/// The Locking SP's.
static LOCKING_CONSTANTS: [Entry<Constants>; 32] = [
    object_table!(TABLE, "Table"),
    object_table!(SP_INFO, "SPInfo"),
    object_table!(SP_TEMPLATES, "SPTemplates"),
    object_table!(METHOD_ID, "MethodID"),
    object_table!(ACCESS_CONTROL, "AccessControl"),
    object_table!(ACE, "ACE"),
    object_table!(AUTHORITY, "Authority"),
    object_table!(C_PIN, "C_PIN"),
    object_table!(SECRET_PROTECT, "SecretProtect"),
    object_table!(LOCKING_INFO, "LockingInfo"),
    object_table!(LOCKING, "Locking"),
    object_table!(MBR_CONTROL, "MBRControl"),
    object_table!(K_AES_256, "K_AES_256"),
    method!(NEXT, "Next"),
    method!(GET_ACL, "GetACL"),
    method!(GEN_KEY, "GenKey"),
    method!(REVERT_SP, "RevertSP"),
    method!(GET, "Get"),
    method!(SET, "Set"),
    method!(AUTHENTICATE, "Authenticate"),
    method!(RANDOM, "Random"),
    sp_info!(LOCKING_SP, "Locking"),
    sp_template!(SP_TEMPLATE_BASE, TEMPLATE_BASE, "Base"),
    sp_template!(SP_TEMPLATE_OWN, TEMPLATE_LOCKING, "Locking"),
    row!(
        Uid::SECRET_PROTECT_KEY;
        PROTECTED_TABLE: Constant::Uid(Uid(TABLES + tables::K_AES_256)),
        COLUMN_NUMBER: Constant::Number(KEY),
        PROTECT_MECHANISMS: Constant::Resets(ResetTypes {
            power_cycle: false,
            hardware: true,
            programmatic: false,
        })
    ),
    row!(
        Uid::GLOBAL_KEY;
        NAME: Constant::Text("K_AES_256_GlobalRange_Key"),
        COMMON_NAME: Constant::Text(""),
        MODE: Constant::Number(XTS)
    ),
    Entry {
        drives: Drives::Opal,
        rows: Constants::OfKeys,
    },
    further!(Uid::ANYBODY, &OF_AUTHORITY),
    further!(Uid::ADMINS, &OF_AUTHORITY),
    Entry {
        drives: Drives::Opal,
        rows: Constants::OfAuthorities(AuthorityCells {
            number: 0x1_0000,
            count: ADMINS,
            cells: &OF_AUTHORITY,
        }),
    },
    further!(Uid::USERS, &OF_AUTHORITY),
    Entry {
        drives: Drives::Opal,
        rows: Constants::OfAuthorities(AuthorityCells {
            number: 0x3_0000,
            count: USERS,
            cells: &OF_AUTHORITY,
        }),
    },
];

/// The Admin SP's.
pub(crate) fn admin_constant_entries() -> &'static [Entry<Constants>]
    ensures { (p : Profile) → flat_map (entry_items constant_items p) result.now
        ≡ in_opal p admin_constants }
{
    &ADMIN_CONSTANTS
}

/// The Locking SP's.
pub(crate) fn locking_constant_entries() -> &'static [Entry<Constants>]
    ensures { (p : Profile) → flat_map (entry_items constant_items p) result.now
        ≡ in_opal p locking_constants }
{
    &LOCKING_CONSTANTS
}
