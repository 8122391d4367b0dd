//! The tables of the ACEs of a new drive (Opal SSC 2.01, sections 4.2 and 4.3; PSID feature set 1.00): an entry for
//! each ACE, or for each family of them.

ghost use Rattle.std.specs.Prelude.{◌≡◌, ◌++◌};
ghost use Rattle.std.specs.List.{flat_map};
ghost use Rattle.basics.specs.declared.profile.Profile.{Profile};
ghost use Rattle.sp_tables.specs.Factory.{in_field, in_opal, admin_aces, label_aces, removal_aces, authority_aces, pin_aces, range_aces, mbr_aces, gen_key_aces, datastore_aces, opal_admin_aces, opal_locking_aces};
ghost use Rattle.sp_tables.specs.Entries.{entry_items, ace_items};

use crate::sp_rows::aces::{Ace, AceFamily, Aces, Who};
use crate::sp_rows::entries::{Drives, Entry};
use sp_cells::{Column, Uid};

/// The columns of a C_PIN row but for its names and the PIN.
const BUT_PIN: [Column; 5] = [
    Column::UID,
    Column::CHAR_SET,
    Column::TRY_LIMIT,
    Column::TRIES,
    Column::PERSISTENCE,
];

/// The columns that lock a range.
const LOCKS: [Column; 5] = [
    Column::READ_LOCK_ENABLED,
    Column::WRITE_LOCK_ENABLED,
    Column::READ_LOCKED,
    Column::WRITE_LOCKED,
    Column::LOCK_ON_RESET,
];

/// The columns that place a range and lock it.
const PLACE_AND_LOCKS: [Column; 7] = [
    Column::RANGE_START,
    Column::RANGE_LENGTH,
    Column::READ_LOCK_ENABLED,
    Column::WRITE_LOCK_ENABLED,
    Column::READ_LOCKED,
    Column::WRITE_LOCKED,
    Column::LOCK_ON_RESET,
];

/// The columns of a range that its own ACE lets read.
const BUT_NAMES: [Column; 8] = [
    Column::RANGE_START,
    Column::RANGE_LENGTH,
    Column::READ_LOCK_ENABLED,
    Column::WRITE_LOCK_ENABLED,
    Column::READ_LOCKED,
    Column::WRITE_LOCKED,
    Column::LOCK_ON_RESET,
    Column::ACTIVE_KEY,
];

/// An entry of one ACE: the drives that have it, its name and its Name cell, who fulfils it, and its columns.
macro_rules! one {
    ($drives:ident, $object:expr, $name:expr, $authority:expr, $columns:expr) => {
        Entry {
            drives: Drives::$drives,
            rows: Aces::One(Ace {
                object: $object,
                name: $name,
                authority: $authority,
                columns: $columns,
            }),
        }
    };
}

/// An entry of an ACE that an Admin fulfils, or the authority: as `one!`.
macro_rules! admins_or {
    ($drives:ident, $object:expr, $name:expr, $authority:expr, $columns:expr) => {
        Entry {
            drives: Drives::$drives,
            rows: Aces::AdminsOr(Ace {
                object: $object,
                name: $name,
                authority: $authority,
                columns: $columns,
            }),
        }
    };
}

/// An entry of a family of ACEs: the drives that have it, of whom it is, the number in the name of its member 0, the
/// texts of a Name cell, who fulfils it, and its columns.
macro_rules! each {
    ($drives:ident, $of:ident, $number:expr, $before:expr, $behind:expr, $who:expr, $columns:expr) => {
        Entry {
            drives: Drives::$drives,
            rows: Aces::$of(AceFamily {
                number: $number,
                before: $before,
                behind: $behind,
                who: $who,
                columns: $columns,
            }),
        }
    };
}

/// The ACEs of the Admin SP.
static ADMIN_ACES: [Entry<Aces>; 7] = [
    one!(All, Uid::ACE_ANYBODY, "Anybody", Uid::ANYBODY, &[]),
    one!(
        ButOpal,
        Uid::ACE_C_PIN_SID_GET_NOPIN,
        "C_PIN_SID_Get_NOPIN",
        Uid::SID,
        &BUT_PIN
    ),
    admins_or!(
        Opal,
        Uid::ACE_C_PIN_SID_GET_NOPIN,
        "C_PIN_SID_Get_NOPIN",
        Uid::SID,
        &BUT_PIN
    ),
    one!(
        All,
        Uid::ACE_C_PIN_SID_SET_PIN,
        "C_PIN_SID_Set_PIN",
        Uid::SID,
        &[Column::PIN]
    ),
    one!(
        All,
        Uid::ACE_C_PIN_MSID_GET_PIN,
        "C_PIN_MSID_Get_PIN",
        Uid::ANYBODY,
        &[Column::UID, Column::PIN]
    ),
    one!(All, Uid::ACE_SP_SID, "SP_SID", Uid::SID, &[]),
    one!(
        All,
        Uid::ACE_TPER_INFO_SET_PROGRAMMATIC_RESET_ENABLE,
        "TPerInfo_Set_ProgrammaticResetEnable",
        Uid::SID,
        &[Column::PROGRAMMATIC_RESET_ENABLE]
    ),
];

/// The ACEs of the label, and of how data are removed.
static LABEL_ACES: [Entry<Aces>; 3] = [
    one!(
        Field,
        Uid::ACE_C_PIN_GET_PSID_NOPIN,
        "C_PIN_Get_PSID_NOPIN",
        Uid::ANYBODY,
        &BUT_PIN
    ),
    one!(Field, Uid::ACE_SP_PSID, "SP_PSID", Uid::PSID, &[]),
    one!(
        Field,
        Uid::ACE_DATA_REMOVAL_SET_ACTIVE,
        "DataRemovalMechanism_Set_Active",
        Uid::SID,
        &[Column::ACTIVE_DATA_REMOVAL_MECHANISM]
    ),
];

/// The further ACEs of the Admin SP, on its Makers and its Admin1.
static OPAL_ADMIN_ACES: [Entry<Aces>; 3] = [
    one!(Opal, Uid::ACE_ADMINS, "Admins", Uid::ADMINS, &[]),
    one!(
        Opal,
        Uid::ACE_SET_ENABLED,
        "Set_Enabled",
        Uid::SID,
        &[Column::ENABLED]
    ),
    admins_or!(
        Opal,
        Uid::ACE_C_PIN_ADMINS_SET_PIN,
        "C_PIN_Admins_Set_PIN",
        Uid::SID,
        &[Column::PIN]
    ),
];

/// The ACEs of the Locking SP on authorities, ACEs and the tables as a whole.
static AUTHORITY_ACES: [Entry<Aces>; 5] = [
    one!(All, Uid::ACE_ANYBODY, "Anybody", Uid::ANYBODY, &[]),
    one!(All, Uid::ACE_ADMINS, "Admins", Uid::ADMINS, &[]),
    one!(
        All,
        Uid::ACE_ANYBODY_GET_COMMON_NAME,
        "Anybody_Get_CommonName",
        Uid::ANYBODY,
        &[Column::UID, Column::COMMON_NAME]
    ),
    one!(
        All,
        Uid::ACE_ACE_SET_BOOLEAN_EXPRESSION,
        "ACE_Set_BooleanExpr",
        Uid::ADMINS,
        &[Column::BOOLEAN_EXPR]
    ),
    one!(
        All,
        Uid::ACE_AUTHORITY_SET_ENABLED,
        "Authority_Set_Enabled",
        Uid::ADMINS,
        &[Column::ENABLED]
    ),
];

/// Those on C_PIN rows.
static PIN_ACES: [Entry<Aces>; 3] = [
    one!(
        All,
        Uid::ACE_C_PIN_ADMINS_GET_ALL_NOPIN,
        "C_PIN_Get_NOPIN",
        Uid::ADMINS,
        &BUT_PIN
    ),
    one!(
        All,
        Uid::ACE_C_PIN_ADMINS_SET_PIN,
        "C_PIN_Admins_Set_PIN",
        Uid::ADMINS,
        &[Column::PIN]
    ),
    each!(
        All,
        OfUsers,
        0x3_a800,
        "C_PIN_User",
        "_Set_PIN",
        Who::AdminsOrUser,
        &[Column::PIN]
    ),
];

/// Those on ranges.
static RANGE_ACES: [Entry<Aces>; 6] = [
    one!(
        Base,
        Uid::ACE_LOCKING_GET_ALL,
        "Locking_Get",
        Uid::ADMINS,
        &PLACE_AND_LOCKS
    ),
    each!(
        Field,
        OfRanges,
        0x3_d000,
        "Range_",
        "_Get",
        Who::Admins,
        &BUT_NAMES
    ),
    each!(
        All,
        OfRanges,
        0x3_e000,
        "Range_",
        "_Set_RdLocked",
        Who::Admins,
        &[Column::READ_LOCKED]
    ),
    each!(
        All,
        OfRanges,
        0x3_e800,
        "Range_",
        "_Set_WrLocked",
        Who::Admins,
        &[Column::WRITE_LOCKED]
    ),
    one!(
        All,
        Uid::ACE_LOCKING_GLOBAL_RANGE_ADMINS_SET,
        "Locking_Global_Set",
        Uid::ADMINS,
        &LOCKS
    ),
    one!(
        All,
        Uid::ACE_LOCKING_ADMINS_SET,
        "Locking_Range_Set",
        Uid::ADMINS,
        &PLACE_AND_LOCKS
    ),
];

/// Those on the shadow MBR.
static MBR_ACES: [Entry<Aces>; 2] = [
    one!(
        All,
        Uid::ACE_MBR_CONTROL_ADMINS_SET,
        "MBRControl_Set",
        Uid::ADMINS,
        &[
            Column::MBR_ENABLE,
            Column::MBR_DONE,
            Column::MBR_DONE_ON_RESET
        ]
    ),
    one!(
        All,
        Uid::ACE_MBR_CONTROL_SET_DONE_TO_DOR,
        "MBRControl_Set_DoneToDOR",
        Uid::ADMINS,
        &[Column::MBR_DONE, Column::MBR_DONE_ON_RESET]
    ),
];

/// Those on keys and DataStore.
static KEY_ACES: [Entry<Aces>; 3] = [
    each!(
        Field,
        OfRanges,
        0x3_b800,
        "K_AES_256_Range_",
        "_GenKey",
        Who::Admins,
        &[]
    ),
    one!(
        Field,
        Uid::ACE_DATASTORE_GET_ALL,
        "DataStore_Get_All",
        Uid::ADMINS,
        &[]
    ),
    one!(
        Field,
        Uid::ACE_DATASTORE_SET_ALL,
        "DataStore_Set_All",
        Uid::ADMINS,
        &[]
    ),
];

/// The further ACEs of the Locking SP, on names, on reading, and on the mode of a key.
static OPAL_LOCKING_ACES: [Entry<Aces>; 5] = [
    one!(
        Opal,
        Uid::ACE_ADMINS_SET_COMMON_NAME,
        "Admins_Set_CommonName",
        Uid::ADMINS,
        &[Column::COMMON_NAME]
    ),
    one!(Opal, Uid::ACE_ACE_GET_ALL, "ACE_Get_All", Uid::ADMINS, &[]),
    one!(
        Opal,
        Uid::ACE_AUTHORITY_GET_ALL,
        "Authority_Get_All",
        Uid::ADMINS,
        &[]
    ),
    each!(
        Opal,
        OfUsers,
        0x4_4000,
        "User",
        "_Set_CommonName",
        Who::AdminsOrUser,
        &[Column::COMMON_NAME]
    ),
    one!(
        Opal,
        Uid::ACE_KEY_MODE,
        "K_AES_Mode",
        Uid::ANYBODY,
        &[Column::MODE]
    ),
];

/// The ACEs of the Admin SP.
pub(crate) fn admin_entries() -> &'static [Entry<Aces>]
    ensures { (p : Profile) → flat_map (entry_items ace_items p) result.now ≡ admin_aces p }
{
    &ADMIN_ACES
}

/// The ACEs of the label, and of how data are removed.
pub(crate) fn label_entries() -> &'static [Entry<Aces>]
    ensures { (p : Profile) → flat_map (entry_items ace_items p) result.now
        ≡ in_field p label_aces ++ in_field p removal_aces }
{
    &LABEL_ACES
}

/// The further ACEs of the Admin SP.
pub(crate) fn opal_admin_entries() -> &'static [Entry<Aces>]
    ensures { (p : Profile) → flat_map (entry_items ace_items p) result.now
        ≡ in_opal p opal_admin_aces }
{
    &OPAL_ADMIN_ACES
}

/// The ACEs of the Locking SP on authorities, ACEs and the tables as a whole.
pub(crate) fn authority_entries() -> &'static [Entry<Aces>]
    ensures { (p : Profile) → flat_map (entry_items ace_items p) result.now ≡ authority_aces }
{
    &AUTHORITY_ACES
}

/// Those on C_PIN rows.
pub(crate) fn pin_entries() -> &'static [Entry<Aces>]
    ensures { (p : Profile) → flat_map (entry_items ace_items p) result.now ≡ pin_aces }
{
    &PIN_ACES
}

/// Those on ranges.
pub(crate) fn range_entries() -> &'static [Entry<Aces>]
    ensures { (p : Profile) → flat_map (entry_items ace_items p) result.now ≡ range_aces p }
{
    &RANGE_ACES
}

/// Those on the shadow MBR.
pub(crate) fn mbr_entries() -> &'static [Entry<Aces>]
    ensures { (p : Profile) → flat_map (entry_items ace_items p) result.now ≡ mbr_aces }
{
    &MBR_ACES
}

/// Those on keys and DataStore.
pub(crate) fn key_entries() -> &'static [Entry<Aces>]
    ensures { (p : Profile) → flat_map (entry_items ace_items p) result.now
        ≡ in_field p gen_key_aces ++ in_field p datastore_aces }
{
    &KEY_ACES
}

/// The further ACEs of the Locking SP.
pub(crate) fn opal_locking_entries() -> &'static [Entry<Aces>]
    ensures { (p : Profile) → flat_map (entry_items ace_items p) result.now
        ≡ in_opal p opal_locking_aces }
{
    &OPAL_LOCKING_ACES
}
