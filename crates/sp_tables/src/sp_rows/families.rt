//! The authorities of a new drive with their PINs, and its ranges with their keys: those that have a number.

ghost use Rattle.std.specs.Prelude.{◌≡◌, ◌+◌, ◌++◌, ◌==◌, OnOk, if◌then◌else◌};
ghost use Rattle.sp_tables.specs.Items.{row_items};
ghost use Rattle.sp_tables.specs.Columns.{authority_columns};
ghost use Rattle.std.specs.List.{flat_map};
ghost use Rattle.basics.specs.declared.profile.Profile.{Profile};
ghost use Rattle.sp_tables.specs.Factory.{AddsRows, new_member, in_field, in_opal, admin_authorities, label_authorities, opal_authorities, locking_authorities, locking_pins};
ghost use Rattle.sp_tables.specs.Entries.{entry_items, authority_items, pin_items};

use crate::sp_rows::adding::{push_group, push_one};
use crate::sp_rows::entries::{Adds, Drives, Entry, Numbered, push_family};
use crate::sp_rows::new_rows::{member, pin, range, range_key};
use crate::sp_rows::{AuthorityRow, CPinRow, LockingRow, RangeKeyRow, Run};
use sp_cells::limits::NEW_TRY_LIMIT;
use sp_cells::names::tables;
use sp_cells::{ADMINS, USERS, Uid};
use std::alloc::{AllocError, Global};

/// The names of authorities begin here.
pub(crate) const AUTHORITIES: u64 = tables::AUTHORITY << 32;

/// The names of C_PIN rows begin here.
const PINS: u64 = tables::C_PIN << 32;

/// Anybody, or a class.
pub(crate) struct Group {
    pub(crate) object: Uid,
    pub(crate) name: &'static str,
    pub(crate) is_class: u64,
}

/// An authority that signs in with a PIN.
pub(crate) struct Member {
    pub(crate) object: Uid,
    pub(crate) name: &'static str,
    pub(crate) class: Uid,
    pub(crate) enabled: u64,
    pub(crate) credential: Uid,
}

/// Authorities of a class that have a number: in what their names end where it is 0, as those of their PINs do; the
/// text of the Name cell that it stands behind; their class; whether the first is enabled, as no other is; how many
/// they are.
pub(crate) struct AuthorityFamily {
    pub(crate) number: u32,
    pub(crate) name: &'static str,
    pub(crate) class: Uid,
    pub(crate) first_enabled: u64,
    pub(crate) count: u8,
}

/// The authorities of an entry.
pub(crate) enum Authorities {
    Group(Group),
    Member(Member),
    Each(AuthorityFamily),
}

impl AuthorityFamily {
    /// The Enabled cell of a number.
    fn enabled(&self, n: u8) -> u64
        ensures { result ≡ (if n == 1 then self.now.first_enabled else 0) }
    {
        if n == 1 { self.first_enabled } else { 0 }
    }
}

impl Numbered<AuthorityRow> for AuthorityFamily {
    ghost use Rattle.sp_tables.specs.Entries.{row_base, member_authority};
    ghost use Rattle.sp_cells.specs.Names.{authority_table};

    ghost base = { λ it. row_base authority_table + it.number };

    ghost values = { member_authority };

    fn first(&self) -> Uid {
        Uid(AUTHORITIES + u64::from(self.number) + 1)
    }

    fn row(&self, alloc: Global, n: u8) -> Result<AuthorityRow, AllocError> {
        let name = format!(in alloc; "{}{n}", self.name)?;
        Ok(member(
            alloc,
            Uid(AUTHORITIES + u64::from(self.number) + u64::from(n)),
            name,
            self.class,
            self.enabled(n),
            Uid(PINS + u64::from(self.number) + u64::from(n)),
        ))
    }
}

/// Adds an authority that signs in with a PIN.
fn push_member(
    alloc: Global,
    runs: &mut Vec<Run<AuthorityRow>>,
    it: &Member,
) -> Result<(), AllocError>
    ensures { OnOk result (AddsRows authority_columns runs.old.items runs.new.items
        (row_items it.now.object (new_member
        it.now.object it.now.name.now it.now.class it.now.enabled it.now.credential))) }
{
    let name = String::from_str(alloc, it.name)?;
    let row = member(alloc, it.object, name, it.class, it.enabled, it.credential);
    push_one(alloc, runs, it.object, row)?;
    Ok(())
}

impl Adds<AuthorityRow> for Authorities {
    ghost use Rattle.sp_tables.specs.Entries.{authority_items};

    ghost items = { authority_items };

    fn add(&self, alloc: Global, runs: &mut Vec<Run<AuthorityRow>>) -> Result<(), AllocError> {
        match self {
            Authorities::Group(it) => push_group(alloc, runs, it.object, it.name, it.is_class)?,
            Authorities::Member(it) => push_member(alloc, runs, it)?,
            Authorities::Each(members) => push_family(alloc, runs, members, members.count)?,
        }
        Ok(())
    }
}

/// The empty PINs of authorities that have a number.
pub(crate) struct PinFamily {
    pub(crate) number: u32,
    pub(crate) name: &'static str,
    pub(crate) count: u8,
}

impl Numbered<CPinRow> for PinFamily {
    ghost use Rattle.sp_tables.specs.Entries.{row_base, member_pin};
    ghost use Rattle.sp_cells.specs.Names.{c_pin_table};

    ghost base = { λ it. row_base c_pin_table + it.number };

    ghost values = { member_pin };

    fn first(&self) -> Uid {
        Uid(PINS + u64::from(self.number) + 1)
    }

    fn row(&self, alloc: Global, n: u8) -> Result<CPinRow, AllocError> {
        let name = format!(in alloc; "{}{n}", self.name)?;
        let object = Uid(PINS + u64::from(self.number) + u64::from(n));
        let row = pin(alloc, object, name, &[], NEW_TRY_LIMIT)?;
        Ok(row)
    }
}

impl Adds<CPinRow> for PinFamily {
    ghost use Rattle.sp_tables.specs.Entries.{pin_items};

    ghost items = { pin_items };

    fn add(&self, alloc: Global, runs: &mut Vec<Run<CPinRow>>) -> Result<(), AllocError> {
        push_family(alloc, runs, self, self.count)?;
        Ok(())
    }
}

/// The numbered ranges.
pub(crate) struct Ranges;

impl Numbered<LockingRow> for Ranges {
    ghost use Rattle.sp_cells.specs.Names.{range_base};
    ghost use Rattle.sp_tables.specs.Factory.{numbered_range};

    ghost base = { λ it. range_base };

    ghost values = { λ it. numbered_range };

    fn first(&self) -> Uid {
        Uid::range(1)
    }

    fn row(&self, alloc: Global, n: u8) -> Result<LockingRow, AllocError> {
        let name = format!(in alloc; "Locking_Range{n}")?;
        Ok(range(alloc, Uid::range(n), name))
    }
}

/// Their keys.
pub(crate) struct RangeKeys;

impl Numbered<RangeKeyRow> for RangeKeys {
    ghost use Rattle.sp_cells.specs.Names.{range_base};
    ghost use Rattle.sp_tables.specs.Factory.{range_key};

    ghost base = { λ it. range_base };

    ghost values = { λ it. range_key };

    fn first(&self) -> Uid {
        Uid::range(1)
    }

    fn row(&self, _alloc: Global, n: u8) -> Result<RangeKeyRow, AllocError> {
        Ok(range_key(Uid::key(n)))
    }
}

/// The authorities of the Admin SP.
static ADMIN_AUTHORITIES: [Entry<Authorities>; 6] = [
    Entry {
        drives: Drives::All,
        rows: Authorities::Group(Group {
            object: Uid::ANYBODY,
            name: "Anybody",
            is_class: 0,
        }),
    },
    Entry {
        drives: Drives::All,
        rows: Authorities::Member(Member {
            object: Uid::SID,
            name: "SID",
            class: Uid::NONE,
            enabled: 1,
            credential: Uid::C_PIN_SID,
        }),
    },
    Entry {
        drives: Drives::Field,
        rows: Authorities::Member(Member {
            object: Uid::PSID,
            name: "PSID",
            class: Uid::NONE,
            enabled: 1,
            credential: Uid::C_PIN_PSID,
        }),
    },
    Entry {
        drives: Drives::Opal,
        rows: Authorities::Group(Group {
            object: Uid::ADMINS,
            name: "Admins",
            is_class: 1,
        }),
    },
    Entry {
        drives: Drives::Opal,
        rows: Authorities::Group(Group {
            object: Uid::MAKERS,
            name: "Makers",
            is_class: 1,
        }),
    },
    Entry {
        drives: Drives::Opal,
        rows: Authorities::Member(Member {
            object: Uid::ADMIN_SP_ADMIN,
            name: "Admin1",
            class: Uid::ADMINS,
            enabled: 0,
            credential: Uid::C_PIN_ADMIN_SP_ADMIN,
        }),
    },
];

/// The authorities of the Locking SP.
static LOCKING_AUTHORITIES: [Entry<Authorities>; 5] = [
    Entry {
        drives: Drives::All,
        rows: Authorities::Group(Group {
            object: Uid::ANYBODY,
            name: "Anybody",
            is_class: 0,
        }),
    },
    Entry {
        drives: Drives::All,
        rows: Authorities::Group(Group {
            object: Uid::ADMINS,
            name: "Admins",
            is_class: 1,
        }),
    },
    Entry {
        drives: Drives::All,
        rows: Authorities::Each(AuthorityFamily {
            number: 0x1_0000,
            name: "Admin",
            class: Uid::ADMINS,
            first_enabled: 1,
            count: ADMINS,
        }),
    },
    Entry {
        drives: Drives::All,
        rows: Authorities::Group(Group {
            object: Uid::USERS,
            name: "Users",
            is_class: 1,
        }),
    },
    Entry {
        drives: Drives::All,
        rows: Authorities::Each(AuthorityFamily {
            number: 0x3_0000,
            name: "User",
            class: Uid::USERS,
            first_enabled: 0,
            count: USERS,
        }),
    },
];

/// The PINs of the Locking SP.
static LOCKING_PINS: [Entry<PinFamily>; 2] = [
    Entry {
        drives: Drives::All,
        rows: PinFamily {
            number: 0x1_0000,
            name: "C_PIN_Admin",
            count: ADMINS,
        },
    },
    Entry {
        drives: Drives::All,
        rows: PinFamily {
            number: 0x3_0000,
            name: "C_PIN_User",
            count: USERS,
        },
    },
];

/// The authorities of the Admin SP.
pub(crate) fn admin_authority_entries() -> &'static [Entry<Authorities>]
    ensures { (p : Profile) → flat_map (entry_items authority_items p) result.now
        ≡ admin_authorities ++ in_field p label_authorities ++ in_opal p opal_authorities }
{
    &ADMIN_AUTHORITIES
}

/// The authorities of the Locking SP.
pub(crate) fn locking_authority_entries() -> &'static [Entry<Authorities>]
    ensures { (p : Profile) → flat_map (entry_items authority_items p) result.now
        ≡ locking_authorities }
{
    &LOCKING_AUTHORITIES
}

/// The PINs of the Locking SP.
pub(crate) fn locking_pin_entries() -> &'static [Entry<PinFamily>]
    ensures { (p : Profile) → flat_map (entry_items pin_items p) result.now
        ≡ locking_pins }
{
    &LOCKING_PINS
}
