//! Objects that have a name of their own.

ghost use Rattle.std.specs.Prelude.{◌≡◌, ◌++◌, MatchOption, Some, None};
ghost use Rattle.tcg_calls.specs.Objects.{name_in, object_in, object_singles, table_singles, table_row_singles, authority_singles, admin_ace_singles, locking_ace_singles, method_singles};
ghost use Rattle.tcg_calls.specs.Tables.{pairs};

use sp_cells::Uid;
use sp_cells::names::tables;

/// An object, and its name.
pub(crate) type Named = (Uid, &'static str);

/// The objects of tables that have one row or few.
const OBJECTS: [Named; 18] = [
    (Uid::THIS_SP, "ThisSP"),
    (Uid::ADMIN_SP, "AdminSP"),
    (Uid::LOCKING_SP, "LockingSP"),
    (Uid::TPER_INFO, "TPerInfo"),
    (Uid::LOCKING_INFO, "LockingInfo"),
    (Uid::MBR_CONTROL, "MBRControl"),
    (Uid::MBR_TABLE, "MBR"),
    (Uid::MBR_TABLE_ROW, "Table_MBR"),
    (Uid::DATASTORE_TABLE, "DataStore"),
    (Uid::DATASTORE_TABLE_ROW, "Table_DataStore"),
    (Uid::DATA_REMOVAL, "DataRemovalMechanism"),
    (Uid::SP_INFO, "SPInfo"),
    (Uid::SP_TEMPLATE_BASE, "SPTemplates_Base"),
    (Uid::SP_TEMPLATE_OWN, "SPTemplates_Own"),
    (Uid::TEMPLATE_BASE, "Template_Base"),
    (Uid::TEMPLATE_ADMIN, "Template_Admin"),
    (Uid::TEMPLATE_LOCKING, "Template_Locking"),
    (Uid::SECRET_PROTECT_KEY, "SecretProtect_K_AES_256_Key"),
];

/// A table has so many names: the first is its own, the others are those of its rows.
const NAMES_OF_TABLE: u64 = 0x1_0000_0000;

/// The name of the Table table.
const TABLE_TABLE: u64 = tables::TABLE * NAMES_OF_TABLE;

/// The tables that have more than one row.
const TABLES: [Named; 12] = [
    (Uid(tables::TABLE * NAMES_OF_TABLE), "Table"),
    (Uid(tables::SP_TEMPLATES * NAMES_OF_TABLE), "SPTemplates"),
    (Uid(tables::METHOD_ID * NAMES_OF_TABLE), "MethodID"),
    (Uid::ACCESS_CONTROL, "AccessControl"),
    (Uid(tables::ACE * NAMES_OF_TABLE), "ACE"),
    (Uid(tables::AUTHORITY * NAMES_OF_TABLE), "Authority"),
    (Uid(tables::C_PIN * NAMES_OF_TABLE), "C_PIN"),
    (
        Uid(tables::SECRET_PROTECT * NAMES_OF_TABLE),
        "SecretProtect",
    ),
    (Uid(tables::TEMPLATE * NAMES_OF_TABLE), "Template"),
    (Uid(tables::SP * NAMES_OF_TABLE), "SP"),
    (Uid(tables::LOCKING * NAMES_OF_TABLE), "Locking_Table"),
    (Uid(tables::K_AES_256 * NAMES_OF_TABLE), "K_AES_256"),
];

/// The rows of the Table table, but for those of the byte tables.
const TABLE_ROWS: [Named; 17] = [
    (Uid(TABLE_TABLE + tables::TABLE), "Table_Table"),
    (Uid(TABLE_TABLE + tables::SP_INFO), "Table_SPInfo"),
    (Uid(TABLE_TABLE + tables::SP_TEMPLATES), "Table_SPTemplates"),
    (Uid(TABLE_TABLE + tables::METHOD_ID), "Table_MethodID"),
    (
        Uid(TABLE_TABLE + tables::ACCESS_CONTROL),
        "Table_AccessControl",
    ),
    (Uid(TABLE_TABLE + tables::ACE), "Table_ACE"),
    (Uid(TABLE_TABLE + tables::AUTHORITY), "Table_Authority"),
    (Uid(TABLE_TABLE + tables::C_PIN), "Table_C_PIN"),
    (
        Uid(TABLE_TABLE + tables::SECRET_PROTECT),
        "Table_SecretProtect",
    ),
    (Uid(TABLE_TABLE + tables::TPER_INFO), "Table_TPerInfo"),
    (Uid(TABLE_TABLE + tables::TEMPLATE), "Table_Template"),
    (Uid(TABLE_TABLE + tables::SP), "Table_SP"),
    (Uid(TABLE_TABLE + tables::LOCKING_INFO), "Table_LockingInfo"),
    (Uid(TABLE_TABLE + tables::LOCKING), "Table_Locking"),
    (Uid(TABLE_TABLE + tables::MBR_CONTROL), "Table_MBRControl"),
    (Uid(TABLE_TABLE + tables::K_AES_256), "Table_K_AES_256"),
    (
        Uid(TABLE_TABLE + tables::DATA_REMOVAL),
        "Table_DataRemovalMechanism",
    ),
];

/// Authorities, and the rows of their PINs.
const AUTHORITIES: [Named; 11] = [
    (Uid::ANYBODY, "Anybody"),
    (Uid::SID, "SID"),
    (Uid::PSID, "PSID"),
    (Uid::ADMINS, "Admins"),
    (Uid::USERS, "Users"),
    (Uid::C_PIN_SID, "C_PIN_SID"),
    (Uid::C_PIN_MSID, "C_PIN_MSID"),
    (Uid::C_PIN_PSID, "C_PIN_PSID"),
    (Uid::MAKERS, "Makers"),
    (Uid::ADMIN_SP_ADMIN, "AdminSP_Admin1"),
    (Uid::C_PIN_ADMIN_SP_ADMIN, "C_PIN_AdminSP_Admin1"),
];

/// The ACEs of the Admin SP, and those of both.
const ADMIN_ACES: [Named; 11] = [
    (Uid::ACE_ANYBODY, "ACE_Anybody"),
    (Uid::ACE_ADMINS, "ACE_Admin"),
    (Uid::ACE_C_PIN_SID_GET_NOPIN, "ACE_C_PIN_SID_Get_NOPIN"),
    (Uid::ACE_C_PIN_SID_SET_PIN, "ACE_C_PIN_SID_Set_PIN"),
    (Uid::ACE_C_PIN_MSID_GET_PIN, "ACE_C_PIN_MSID_Get_PIN"),
    (Uid::ACE_C_PIN_GET_PSID_NOPIN, "ACE_C_PIN_Get_PSID_NOPIN"),
    (Uid::ACE_SP_PSID, "ACE_SP_PSID"),
    (Uid::ACE_SP_SID, "ACE_SP_SID"),
    (
        Uid::ACE_TPER_INFO_SET_PROGRAMMATIC_RESET_ENABLE,
        "ACE_TPerInfo_Set_ProgrammaticResetEnable",
    ),
    (
        Uid::ACE_DATA_REMOVAL_SET_ACTIVE,
        "ACE_DataRemovalMechanism_Set_Active",
    ),
    (Uid::ACE_SET_ENABLED, "ACE_Set_Enabled"),
];

/// The ACEs of the Locking SP.
const LOCKING_ACES: [Named; 15] = [
    (
        Uid::ACE_ANYBODY_GET_COMMON_NAME,
        "ACE_Anybody_Get_CommonName",
    ),
    (
        Uid::ACE_ACE_SET_BOOLEAN_EXPRESSION,
        "ACE_ACE_Set_BooleanExpression",
    ),
    (Uid::ACE_AUTHORITY_SET_ENABLED, "ACE_Authority_Set_Enabled"),
    (
        Uid::ACE_C_PIN_ADMINS_GET_ALL_NOPIN,
        "ACE_C_PIN_Admins_Get_All_NOPIN",
    ),
    (Uid::ACE_C_PIN_ADMINS_SET_PIN, "ACE_C_PIN_Admins_Set_PIN"),
    (
        Uid::ACE_LOCKING_GLOBAL_RANGE_ADMINS_SET,
        "ACE_Locking_GlblRng_Admins_Set",
    ),
    (
        Uid::ACE_LOCKING_ADMINS_SET,
        "ACE_Locking_Admins_RangeStartToLOR",
    ),
    (Uid::ACE_MBR_CONTROL_ADMINS_SET, "ACE_MBRControl_Admins_Set"),
    (
        Uid::ACE_MBR_CONTROL_SET_DONE_TO_DOR,
        "ACE_MBRControl_Set_DoneToDOR",
    ),
    (Uid::ACE_DATASTORE_GET_ALL, "ACE_DataStore_Get_All"),
    (Uid::ACE_DATASTORE_SET_ALL, "ACE_DataStore_Set_All"),
    (Uid::ACE_ADMINS_SET_COMMON_NAME, "ACE_Admins_Set_CommonName"),
    (Uid::ACE_ACE_GET_ALL, "ACE_ACE_Get_All"),
    (Uid::ACE_AUTHORITY_GET_ALL, "ACE_Authority_Get_All"),
    (Uid::ACE_KEY_MODE, "ACE_K_AES_Mode"),
];

/// The session manager, and the methods.
const METHODS: [Named; 14] = [
    (Uid::SESSION_MANAGER, "SMUID"),
    (Uid::PROPERTIES, "Properties"),
    (Uid::START_SESSION, "StartSession"),
    (Uid::SYNC_SESSION, "SyncSession"),
    (Uid::GET, "Get"),
    (Uid::SET, "Set"),
    (Uid::AUTHENTICATE, "Authenticate"),
    (Uid::REVERT, "Revert"),
    (Uid::ACTIVATE, "Activate"),
    (Uid::GEN_KEY, "GenKey"),
    (Uid::REVERT_SP, "RevertSP"),
    (Uid::NEXT, "Next"),
    (Uid::GET_ACL, "GetACL"),
    (Uid::RANDOM, "Random"),
];

/// The name of an object in a table.
pub(crate) fn name_in(table: &[Named], object: Uid) -> Option<&'static str>
    ensures { MatchOption result (name_in (pairs table.now) object ≡ None)
        (λ name. name_in (pairs table.now) object ≡ Some name.now) }
{
    for (named, name) in table {
        if *named == object {
            return Some(name);
        }
    }
    None
}

/// The object of a name in a table.
pub(crate) fn object_in(table: &[Named], name: &str) -> Option<Uid>
    ensures { result ≡ object_in (pairs table.now) name.now }
{
    for (named, its) in table {
        if *its == name {
            return Some(*named);
        }
    }
    None
}

#[tactic(auto, unfolding(crate::specs::Objects::object_singles))]
pub(crate) fn objects() -> &'static [Named]
    ensures { pairs result.now ≡ object_singles }
{
    &OBJECTS
}

#[tactic(auto, unfolding(crate::specs::Objects::table_singles))]
pub(crate) fn object_tables() -> &'static [Named]
    ensures { pairs result.now ≡ table_singles }
{
    &TABLES
}

#[tactic(auto, unfolding(crate::specs::Objects::table_row_singles))]
pub(crate) fn table_rows() -> &'static [Named]
    ensures { pairs result.now ≡ table_row_singles }
{
    &TABLE_ROWS
}

#[tactic(auto, unfolding(crate::specs::Objects::authority_singles))]
pub(crate) fn authorities() -> &'static [Named]
    ensures { pairs result.now ≡ authority_singles }
{
    &AUTHORITIES
}

#[tactic(auto, unfolding(crate::specs::Objects::admin_ace_singles))]
pub(crate) fn admin_aces() -> &'static [Named]
    ensures { pairs result.now ≡ admin_ace_singles }
{
    &ADMIN_ACES
}

#[tactic(auto, unfolding(crate::specs::Objects::locking_ace_singles))]
pub(crate) fn locking_aces() -> &'static [Named]
    ensures { pairs result.now ≡ locking_ace_singles }
{
    &LOCKING_ACES
}

#[tactic(auto, unfolding(crate::specs::Objects::method_singles))]
pub(crate) fn methods() -> &'static [Named]
    ensures { pairs result.now ≡ method_singles }
{
    &METHODS
}
