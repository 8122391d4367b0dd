//! The names of the rows of a table, rising, for the tables whose rows the method Next tells: they never come or go.

ghost use Rattle.std.specs.Prelude.{◌≡◌, ◌+◌, ◌≤◌, ◌++◌, List, ℕ, map, IfOk, OnOk};
ghost use Rattle.std.specs.List.{flat_map};
ghost use Rattle.basics.specs.declared.profile.Profile.TheVariants.{Opal};
ghost use Rattle.sp_cells.specs.declared.byte_tables.TableSizes.{TableSizes};
ghost use Rattle.sp_cells.specs.declared.names.Sp.TheVariants.{Admin, Locking};
ghost use Rattle.sp_cells.specs.Names.{table_table, sp_templates_table, method_id_table, ace_table, authority_table, c_pin_table, secret_protect_table, template_table, sp_table, locking_table, key_table};
ghost use Rattle.sp_tables.specs.Factory.{admin_factory, locking_factory};
ghost use Rattle.sp_tables.specs.RowNames.{numbered_uids, family_name, uids_in, listed_table, listed_tables, rows_of_table, AreRows};

use crate::sp_rows::TABLES;
use sp_cells::names::tables;
use sp_cells::{ADMINS, RANGES, Sp, USERS, Uid};
use std::alloc::{AllocError, Global};

/// Rows that have a number.
enum Family {
    Admins,
    Users,
    AdminPins,
    UserPins,
    Ranges,
    Keys,
    UserPinAces,
    UserNameAces,
    RangeGetAces,
    ReadLockedAces,
    WriteLockedAces,
    GenKeyAces,
}

/// Rows whose names follow one another.
enum Names {
    One(Uid),
    OfAdmins(Family),
    OfUsers(Family),
    /// One for each range, the global one first.
    OfRanges(Family),
}

/// The rows of a table.
struct TableRows {
    table: u64,
    rows: &'static [Names],
}

impl Family {
    /// The name of the row of a number.
    fn name(&self, n: u8) -> Uid
        ensures { result ≡ family_name self.now n }
    {
        match self {
            Family::Admins => Uid::admin(n),
            Family::Users => Uid::user(n),
            Family::AdminPins => Uid::pin_of_admin(n),
            Family::UserPins => Uid::pin_of_user(n),
            Family::Ranges => Uid::range(n),
            Family::Keys => Uid::key(n),
            Family::UserPinAces => Uid::ace_c_pin_user_set_pin(n),
            Family::UserNameAces => Uid::ace_user_set_common_name(n),
            Family::RangeGetAces => Uid::ace_range_get(n),
            Family::ReadLockedAces => Uid::ace_range_set_read_locked(n),
            Family::WriteLockedAces => Uid::ace_range_set_write_locked(n),
            Family::GenKeyAces => Uid::ace_key_gen_key(n),
        }
    }
}

/// Adds the names of so many rows of a family, from this number on.
fn push_numbered(
    names: &mut Vec<Uid>,
    family: &Family,
    first: u8,
    count: u8,
) -> Result<(), AllocError>
    requires { first + count ≤ 255 }
    ensures { OnOk result (names.new.items
        ≡ names.old.items ++ numbered_uids (family_name family.now) first count) }
{
    for i in 0..count {
        names.push(family.name(first + i))?;
    }
    Ok(())
}

impl Names {
    /// Adds the names.
    fn push_to(&self, names: &mut Vec<Uid>) -> Result<(), AllocError>
        ensures { OnOk result (names.new.items ≡ names.old.items ++ uids_in self.now) }
    {
        match self {
            Names::One(object) => names.push(*object)?,
            Names::OfAdmins(family) => push_numbered(names, family, 1, ADMINS)?,
            Names::OfUsers(family) => push_numbered(names, family, 1, USERS)?,
            Names::OfRanges(family) => push_numbered(names, family, 0, RANGES + 1)?,
        }
        Ok(())
    }
}

/// The row of a table in the Table table.
macro_rules! table {
    ($table:ident) => {
        Names::One(Uid(TABLES + tables::$table))
    };
}

/// A row of this name.
macro_rules! one {
    ($name:ident) => {
        Names::One(Uid::$name)
    };
}

/// The tables of the Admin SP that have Next.
static ADMIN_TABLES: [TableRows; 8] = [
    TableRows {
        table: tables::TABLE,
        rows: &[
            table!(TABLE),
            table!(SP_INFO),
            table!(SP_TEMPLATES),
            table!(METHOD_ID),
            table!(ACCESS_CONTROL),
            table!(ACE),
            table!(AUTHORITY),
            table!(C_PIN),
            table!(TPER_INFO),
            table!(TEMPLATE),
            table!(SP),
            table!(DATA_REMOVAL),
        ],
    },
    TableRows {
        table: tables::SP_TEMPLATES,
        rows: &[one!(SP_TEMPLATE_BASE), one!(SP_TEMPLATE_OWN)],
    },
    TableRows {
        table: tables::METHOD_ID,
        rows: &[
            one!(NEXT),
            one!(GET_ACL),
            one!(GET),
            one!(SET),
            one!(AUTHENTICATE),
            one!(REVERT),
            one!(ACTIVATE),
            one!(RANDOM),
        ],
    },
    TableRows {
        table: tables::ACE,
        rows: &[
            one!(ACE_ANYBODY),
            one!(ACE_ADMINS),
            one!(ACE_C_PIN_SID_GET_NOPIN),
            one!(ACE_C_PIN_SID_SET_PIN),
            one!(ACE_C_PIN_MSID_GET_PIN),
            one!(ACE_C_PIN_GET_PSID_NOPIN),
            one!(ACE_SP_PSID),
            one!(ACE_SET_ENABLED),
            one!(ACE_SP_SID),
            one!(ACE_TPER_INFO_SET_PROGRAMMATIC_RESET_ENABLE),
            one!(ACE_C_PIN_ADMINS_SET_PIN),
            one!(ACE_DATA_REMOVAL_SET_ACTIVE),
        ],
    },
    TableRows {
        table: tables::AUTHORITY,
        rows: &[
            one!(ANYBODY),
            one!(ADMINS),
            one!(MAKERS),
            one!(SID),
            one!(ADMIN_SP_ADMIN),
            one!(PSID),
        ],
    },
    TableRows {
        table: tables::C_PIN,
        rows: &[
            one!(C_PIN_SID),
            one!(C_PIN_ADMIN_SP_ADMIN),
            one!(C_PIN_MSID),
            one!(C_PIN_PSID),
        ],
    },
    TableRows {
        table: tables::TEMPLATE,
        rows: &[
            one!(TEMPLATE_BASE),
            one!(TEMPLATE_ADMIN),
            one!(TEMPLATE_LOCKING),
        ],
    },
    TableRows {
        table: tables::SP,
        rows: &[one!(ADMIN_SP), one!(LOCKING_SP)],
    },
];

/// The tables of the Locking SP that have Next.
static LOCKING_TABLES: [TableRows; 9] = [
    TableRows {
        table: tables::TABLE,
        rows: &[
            table!(TABLE),
            table!(SP_INFO),
            table!(SP_TEMPLATES),
            table!(METHOD_ID),
            table!(ACCESS_CONTROL),
            table!(ACE),
            table!(AUTHORITY),
            table!(C_PIN),
            table!(SECRET_PROTECT),
            table!(LOCKING_INFO),
            table!(LOCKING),
            table!(MBR_CONTROL),
            one!(MBR_TABLE_ROW),
            table!(K_AES_256),
            one!(DATASTORE_TABLE_ROW),
        ],
    },
    TableRows {
        table: tables::SP_TEMPLATES,
        rows: &[one!(SP_TEMPLATE_BASE), one!(SP_TEMPLATE_OWN)],
    },
    TableRows {
        table: tables::METHOD_ID,
        rows: &[
            one!(NEXT),
            one!(GET_ACL),
            one!(GEN_KEY),
            one!(REVERT_SP),
            one!(GET),
            one!(SET),
            one!(AUTHENTICATE),
            one!(RANDOM),
        ],
    },
    TableRows {
        table: tables::ACE,
        rows: &[
            one!(ACE_ANYBODY),
            one!(ACE_ADMINS),
            one!(ACE_ANYBODY_GET_COMMON_NAME),
            one!(ACE_ADMINS_SET_COMMON_NAME),
            one!(ACE_ACE_GET_ALL),
            one!(ACE_ACE_SET_BOOLEAN_EXPRESSION),
            one!(ACE_AUTHORITY_GET_ALL),
            one!(ACE_AUTHORITY_SET_ENABLED),
            one!(ACE_C_PIN_ADMINS_GET_ALL_NOPIN),
            one!(ACE_C_PIN_ADMINS_SET_PIN),
            Names::OfUsers(Family::UserPinAces),
            Names::OfRanges(Family::GenKeyAces),
            one!(ACE_KEY_MODE),
            Names::OfRanges(Family::RangeGetAces),
            Names::OfRanges(Family::ReadLockedAces),
            Names::OfRanges(Family::WriteLockedAces),
            one!(ACE_LOCKING_GLOBAL_RANGE_ADMINS_SET),
            one!(ACE_LOCKING_ADMINS_SET),
            one!(ACE_MBR_CONTROL_ADMINS_SET),
            one!(ACE_MBR_CONTROL_SET_DONE_TO_DOR),
            one!(ACE_DATASTORE_GET_ALL),
            one!(ACE_DATASTORE_SET_ALL),
            Names::OfUsers(Family::UserNameAces),
        ],
    },
    TableRows {
        table: tables::AUTHORITY,
        rows: &[
            one!(ANYBODY),
            one!(ADMINS),
            Names::OfAdmins(Family::Admins),
            one!(USERS),
            Names::OfUsers(Family::Users),
        ],
    },
    TableRows {
        table: tables::C_PIN,
        rows: &[
            Names::OfAdmins(Family::AdminPins),
            Names::OfUsers(Family::UserPins),
        ],
    },
    TableRows {
        table: tables::SECRET_PROTECT,
        rows: &[one!(SECRET_PROTECT_KEY)],
    },
    TableRows {
        table: tables::LOCKING,
        rows: &[Names::OfRanges(Family::Ranges)],
    },
    TableRows {
        table: tables::K_AES_256,
        rows: &[Names::OfRanges(Family::Keys)],
    },
];

/// The tables of an SP that have Next.
#[tactic(auto, unfolding(crate::specs::RowNames::listed_tables))]
fn tables_of(sp: Sp) -> &'static [TableRows]
    ensures { map listed_table result.now ≡ listed_tables sp }
{
    match sp {
        Sp::Admin => &ADMIN_TABLES,
        Sp::Locking => &LOCKING_TABLES,
    }
}

/// The rows of a table of an SP; none where the table has no Next.
fn names_of(sp: Sp, table: u64) -> &'static [Names]
    ensures { flat_map uids_in result.now ≡ rows_of_table sp table }
{
    for rows in tables_of(sp) {
        if rows.table == table {
            return rows.rows;
        }
    }
    &[]
}

/// The names of the rows of a table, by its number, of an SP of a drive of the profile `Opal`, rising; none where the
/// table has no Next.
pub fn rows_of(alloc: Global, sp: Sp, table: u64) -> Result<Vec<Uid>, AllocError>
    ensures { IfOk result (λ names. names.items ≡ rows_of_table sp table) }
{
    let mut names = Vec::new(alloc);
    for rows in names_of(sp, table) {
        rows.push_to(&mut names)?;
    }
    Ok(names)
}

/// The names are those of the rows of a new drive, all of them, and they rise.
pub fn laws_of_row_names()
    ensures admin_tables { (msid psid : List ℕ)
        → AreRows (admin_factory Opal msid psid) table_table (rows_of_table Admin table_table) }
    ensures admin_sp_templates { (msid psid : List ℕ)
        → AreRows (admin_factory Opal msid psid) sp_templates_table
        (rows_of_table Admin sp_templates_table) }
    ensures admin_methods { (msid psid : List ℕ)
        → AreRows (admin_factory Opal msid psid) method_id_table
        (rows_of_table Admin method_id_table) }
    ensures admin_aces { (msid psid : List ℕ)
        → AreRows (admin_factory Opal msid psid) ace_table (rows_of_table Admin ace_table) }
    ensures admin_authorities { (msid psid : List ℕ)
        → AreRows (admin_factory Opal msid psid) authority_table
        (rows_of_table Admin authority_table) }
    ensures admin_pins { (msid psid : List ℕ)
        → AreRows (admin_factory Opal msid psid) c_pin_table (rows_of_table Admin c_pin_table) }
    ensures admin_templates { (msid psid : List ℕ)
        → AreRows (admin_factory Opal msid psid) template_table
        (rows_of_table Admin template_table) }
    ensures admin_sps { (msid psid : List ℕ)
        → AreRows (admin_factory Opal msid psid) sp_table (rows_of_table Admin sp_table) }
    ensures locking_tables { (sizes : TableSizes)
        → AreRows (locking_factory Opal sizes) table_table (rows_of_table Locking table_table) }
    ensures locking_sp_templates { (sizes : TableSizes)
        → AreRows (locking_factory Opal sizes) sp_templates_table
        (rows_of_table Locking sp_templates_table) }
    ensures locking_methods { (sizes : TableSizes)
        → AreRows (locking_factory Opal sizes) method_id_table
        (rows_of_table Locking method_id_table) }
    ensures locking_aces { (sizes : TableSizes)
        → AreRows (locking_factory Opal sizes) ace_table (rows_of_table Locking ace_table) }
    ensures locking_authorities { (sizes : TableSizes)
        → AreRows (locking_factory Opal sizes) authority_table
        (rows_of_table Locking authority_table) }
    ensures locking_pins { (sizes : TableSizes)
        → AreRows (locking_factory Opal sizes) c_pin_table (rows_of_table Locking c_pin_table) }
    ensures locking_secrets { (sizes : TableSizes)
        → AreRows (locking_factory Opal sizes) secret_protect_table
        (rows_of_table Locking secret_protect_table) }
    ensures locking_ranges { (sizes : TableSizes)
        → AreRows (locking_factory Opal sizes) locking_table (rows_of_table Locking locking_table) }
    ensures locking_keys { (sizes : TableSizes)
        → AreRows (locking_factory Opal sizes) key_table (rows_of_table Locking key_table) }
{}
