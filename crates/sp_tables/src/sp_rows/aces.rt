//! The ACEs of a new drive.

ghost use Rattle.std.specs.Prelude.{◌≡◌, ◌+◌, ◌++◌, IfOk, OnOk, string_bytes, decimal};
ghost use Rattle.sp_cells.specs.Names.{uid, ace_base};
ghost use Rattle.sp_tables.specs.Items.{row_items};
ghost use Rattle.sp_tables.specs.Columns.{ace_columns};
ghost use Rattle.sp_tables.specs.Factory.{AddsRows, admins_or_row, family};
ghost use Rattle.sp_tables.specs.Entries.{who_fulfils, member_ace, ace_items};

use crate::sp_rows::adding::{push_ace, push_one};
use crate::sp_rows::entries::{Adds, Numbered, push_family};
use crate::sp_rows::new_rows::{ace, either, only};
use crate::sp_rows::{AceRow, Run};
use sp_cells::names::tables;
use sp_cells::{Column, Expr, RANGES, USERS, Uid};
use std::alloc::{AllocError, Global};

/// Who fulfils the expression of an ACE of a family.
pub(crate) enum Who {
    Admins,
    /// An Admin, or the User of its number.
    AdminsOrUser,
}

/// An ACE that one authority, or one class, fulfils.
pub(crate) struct Ace {
    pub(crate) object: Uid,
    pub(crate) name: &'static str,
    pub(crate) authority: Uid,
    pub(crate) columns: &'static [Column],
}

/// ACEs that have a number: in what their names end where it is 0, the texts of the Name cell that it stands between,
/// who fulfils them, and their columns.
pub(crate) struct AceFamily {
    pub(crate) number: u32,
    pub(crate) before: &'static str,
    pub(crate) behind: &'static str,
    pub(crate) who: Who,
    pub(crate) columns: &'static [Column],
}

/// The ACEs of an entry.
pub(crate) enum Aces {
    One(Ace),
    /// One that an Admin fulfils, or its authority.
    AdminsOr(Ace),
    /// One for each User.
    OfUsers(AceFamily),
    /// One for each range, the global one first.
    OfRanges(AceFamily),
}

/// The names of ACEs begin here.
const ACES: u64 = tables::ACE << 32;

impl AceFamily {
    /// The name of the ACE of a number.
    fn object(&self, n: u8) -> Uid
        ensures { result ≡ uid (ace_base + self.now.number + n) }
    {
        Uid(ACES + u64::from(self.number) + u64::from(n))
    }

    /// Its Name cell.
    fn name(&self, alloc: Global, n: u8) -> Result<String, AllocError>
        ensures { IfOk result (λ name. string_bytes name
            ≡ self.now.before.now ++ decimal n ++ self.now.behind.now) }
    {
        let name = format!(in alloc; "{}{n}{}", self.before, self.behind)?;
        Ok(name)
    }

    /// Its expression.
    fn expression(&self, alloc: Global, n: u8) -> Result<Expr, AllocError>
        ensures { IfOk result (λ e. e ≡ who_fulfils self.now.who n) }
    {
        match self.who {
            Who::Admins => only(alloc, Uid::ADMINS),
            Who::AdminsOrUser => either(alloc, Uid::ADMINS, Uid::user(n)),
        }
    }
}

impl Numbered<AceRow> for AceFamily {
    ghost use Rattle.sp_cells.specs.Names.{ace_base};
    ghost use Rattle.sp_tables.specs.Entries.{member_ace};

    ghost base = { λ it. ace_base + it.number };

    ghost values = { member_ace };

    fn first(&self) -> Uid {
        self.object(1)
    }

    fn row(&self, alloc: Global, n: u8) -> Result<AceRow, AllocError> {
        let name = self.name(alloc, n)?;
        let expr = self.expression(alloc, n)?;
        let row = ace(alloc, self.object(n), name, expr, self.columns)?;
        Ok(row)
    }
}

/// Adds the ACE of the global range.
fn push_global(
    alloc: Global,
    runs: &mut Vec<Run<AceRow>>,
    members: &AceFamily,
) -> Result<(), AllocError>
    ensures { OnOk result (AddsRows ace_columns runs.old.items runs.new.items
        (row_items (uid (ace_base + members.now.number)) (member_ace members.now 0))) }
{
    let row = members.row(alloc, 0)?;
    push_one(alloc, runs, members.object(0), row)?;
    Ok(())
}

/// Adds the ACEs of all ranges, the global one first.
fn push_of_ranges(
    alloc: Global,
    runs: &mut Vec<Run<AceRow>>,
    members: &AceFamily,
) -> Result<(), AllocError>
    ensures { OnOk result (AddsRows ace_columns runs.old.items runs.new.items
        (row_items (uid (ace_base + members.now.number)) (member_ace members.now 0)
        ++ family (ace_base + members.now.number) (member_ace members.now) RANGES)) }
{
    push_global(alloc, runs, members)?;
    push_family(alloc, runs, members, RANGES)?;
    Ok(())
}

/// Adds an ACE that an Admin fulfils, or its authority.
fn push_admins_or(alloc: Global, runs: &mut Vec<Run<AceRow>>, it: &Ace) -> Result<(), AllocError>
    ensures { OnOk result (AddsRows ace_columns runs.old.items runs.new.items
        (admins_or_row it.now.object it.now.name.now it.now.authority it.now.columns.now)) }
{
    let name = String::from_str(alloc, it.name)?;
    let expr = either(alloc, Uid::ADMINS, it.authority)?;
    let row = ace(alloc, it.object, name, expr, it.columns)?;
    push_one(alloc, runs, it.object, row)?;
    Ok(())
}

impl Adds<AceRow> for Aces {
    ghost use Rattle.sp_tables.specs.Entries.{ace_items};

    ghost items = { ace_items };

    fn add(&self, alloc: Global, runs: &mut Vec<Run<AceRow>>) -> Result<(), AllocError> {
        match self {
            Aces::One(it) => push_ace(alloc, runs, it.object, it.name, it.authority, it.columns)?,
            Aces::AdminsOr(it) => push_admins_or(alloc, runs, it)?,
            Aces::OfUsers(members) => push_family(alloc, runs, members, USERS)?,
            Aces::OfRanges(members) => push_of_ranges(alloc, runs, members)?,
        }
        Ok(())
    }
}
