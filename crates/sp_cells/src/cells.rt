//! What the columns of rows keep: numbers, bytes, names, resets, expressions and columns.

ghost use Rattle.std.specs.Prelude.{◌≡◌, ◌≤◌, ◌<◌, ◌==◌, List, [], ◌∷◌, ◌++◌, length, IsTrue, IfOk, IfSome, IsSome, ◌↔◌, ◌||◌, SomeIff, count_by};
ghost use Rattle.std.specs.List.{list_any, list_all};
ghost use Rattle.sp_cells.specs.Limits.{most_elements};
ghost use Rattle.sp_cells.specs.Resets.{is_reset, is_reset_set as is_reset_set_of, reset_set, reset_numbers};

use crate::limits::MOST_ELEMENTS;
use crate::names::{Column, Uid};
use arrayvec::ArrayVec;
use basics::Bytes;
use std::alloc::{AllocError, Global};
use std::marker::Model;

/// The resets that a column names (Core 2.01, section 5.1.3, `reset_types`): a set of numbers of resets, of which
/// this drive has three: 0, 1 and 3.
#[derive(Clone, Copy, Debug, Default, PartialEq, Eq)]
pub struct ResetTypes {
    /// Number 0.
    pub power_cycle: bool,

    /// Number 1.
    pub hardware: bool,

    /// Number 3: the reset that a command makes.
    pub programmatic: bool,
}

impl ResetTypes {
    /// The set that these numbers write, in any order; none where a number is no reset of this drive or stands
    /// there twice.
    pub fn from_numbers(numbers: &[u64]) -> Option<ResetTypes>
        ensures { SomeIff result (IsTrue (is_reset_set_of numbers.now)) (reset_set numbers.now) }
    {
        if !is_reset_set(numbers) {
            return None;
        }
        Some(ResetTypes {
            power_cycle: numbers.contains(&0),
            hardware: numbers.contains(&1),
            programmatic: numbers.contains(&3),
        })
    }

    /// The numbers of the set, rising.
    pub fn numbers(&self) -> ArrayVec<u64, 3>
        ensures { result.items ≡ reset_numbers self.now }
    {
        let mut numbers = ArrayVec::new();
        if self.power_cycle {
            numbers.push(0);
        }
        if self.hardware {
            numbers.push(1);
        }
        if self.programmatic {
            numbers.push(3);
        }
        numbers
    }

    /// Whether the set has the reset of this number.
    pub fn contains(&self, number: u64) -> bool
        ensures { result ≡ list_any (λ n. n == number) (reset_numbers self.now) }
    {
        match number {
            0 => self.power_cycle,
            1 => self.hardware,
            3 => self.programmatic,
            _ => false,
        }
    }
}

/// Each number is a reset of this drive, and none stands there twice.
fn is_reset_set(numbers: &[u64]) -> bool
    ensures { result ≡ is_reset_set_of numbers.now }
{
    count_of(numbers, 0) <= 1
        && count_of(numbers, 1) <= 1
        && count_of(numbers, 3) <= 1
        && are_resets(numbers)
}

/// How often a number stands there.
fn count_of(numbers: &[u64], number: u64) -> usize
    ensures { result ≡ count_by (λ n. n == number) numbers.now }
{
    numbers.iter().filter(|n| **n == number).count()
}

/// Each number is a reset of this drive.
fn are_resets(numbers: &[u64]) -> bool
    ensures { result ≡ list_all is_reset numbers.now }
{
    numbers.iter().all(|n| *n == 0 || *n == 1 || *n == 3)
}

/// One element of an expression in postorder (Core 2.01, section 5.1.3, `ACE_expression`).
#[derive(Clone, Copy, Debug, Default, PartialEq, Eq)]
pub enum Element {
    /// True where the authority is held.
    Authority(Uid),

    #[default]
    And,

    Or,
}

/// An expression over authorities, of at most [`MOST_ELEMENTS`] elements, seen as their list.
#[derive(Drop)]
pub struct Expr {
    elements: Box<ArrayVec<Element, MOST_ELEMENTS>>,
}

impl Model for Expr {
    ghost use Rattle.std.specs.Prelude.{List, length, ◌≤◌};
    ghost use Rattle.sp_cells.specs.declared.cells.Element.{Element};
    ghost use Rattle.sp_cells.specs.Limits.{most_elements};

    ghost Value = { List Element };

    ghost view = { λ a. a.elements.value.items };

    ghost invariant = { λ a. length a.elements.value.items ≤ most_elements };
}

impl Expr {
    /// The expression of these elements.
    pub fn new(
        alloc: Global,
        elements: ArrayVec<Element, MOST_ELEMENTS>,
    ) -> Result<Expr, AllocError>
        ensures { IfOk result (λ e. e ≡ elements.items) }
    {
        let elements = Box::new(alloc, elements)?;
        Ok(Expr { elements })
    }

    /// The elements.
    pub fn as_slice(&self) -> &[Element]
        ensures value { result.now ≡ self.now }
        ensures short { length self.now ≤ most_elements }
    {
        self.elements.as_slice()
    }

    /// The same expression once more.
    pub fn copy(&self) -> Result<Expr, AllocError>
        ensures { IfOk result (λ e. e ≡ self.now) }
    {
        let elements = self.elements.clone()?;
        Ok(Expr { elements })
    }

    /// Whether another one has the same elements.
    pub fn is(&self, other: &Expr) -> bool
        ensures { IsTrue result ↔ (self.now ≡ other.now) }
    {
        self.as_slice() == other.as_slice()
    }
}

/// The columns that an ACE speaks of, seen as their list; the empty list stands for all.
#[derive(Drop)]
pub struct Columns {
    items: Vec<Column>,
}

impl Model for Columns {
    ghost use Rattle.std.specs.Prelude.{List};
    ghost use Rattle.sp_cells.specs.declared.names.Column.{Column};

    ghost Value = { List Column };

    ghost view = { λ a. a.items.items };
}

impl Columns {
    /// These columns.
    pub fn from_vec(items: Vec<Column>) -> Columns
        ensures { result ≡ items.items }
    {
        Columns { items }
    }

    /// The columns.
    pub fn as_slice(&self) -> &[Column]
        ensures { result.now ≡ self.now }
    {
        self.items.as_slice()
    }

    /// The same columns once more.
    pub fn copy(&self) -> Result<Columns, AllocError>
        ensures { IfOk result (λ c. c ≡ self.now) }
    {
        let items = self.items.clone()?;
        Ok(Columns { items })
    }

    /// Whether others are the same.
    pub fn is(&self, other: &Columns) -> bool
        ensures { IsTrue result ↔ (self.now ≡ other.now) }
    {
        self.as_slice() == other.as_slice()
    }
}

/// What a row keeps in a column.
#[derive(Drop)]
pub enum Cell {
    /// A number, a state, or a flag as 0 or 1.
    Number(u64),

    /// A name or a secret.
    Bytes(Bytes),

    /// The name of another object.
    Uid(Uid),

    /// A set of resets.
    Numbers(ResetTypes),

    /// The expression of an ACE.
    Expr(Expr),

    /// The columns of an ACE.
    Columns(Columns),

    /// A list of one name.
    OneName(Bytes),
}

impl Cell {
    /// The same value once more.
    pub fn copy(&self) -> Result<Cell, AllocError>
        ensures { IfOk result (λ c. c ≡ self.now) }
    {
        Ok(match self {
            Cell::Number(number) => Cell::Number(*number),
            Cell::Bytes(bytes) => Cell::Bytes(bytes.copy()?),
            Cell::Uid(uid) => Cell::Uid(*uid),
            Cell::Numbers(resets) => Cell::Numbers(*resets),
            Cell::Expr(expr) => Cell::Expr(expr.copy()?),
            Cell::Columns(columns) => Cell::Columns(columns.copy()?),
            Cell::OneName(name) => Cell::OneName(name.copy()?),
        })
    }

    /// Whether another one is the same value.
    pub fn is(&self, other: &Cell) -> bool
        ensures { IsTrue result ↔ (self.now ≡ other.now) }
    {
        match (self, other) {
            (Cell::Number(number), Cell::Number(it)) => *number == *it,
            (Cell::Bytes(bytes), Cell::Bytes(it)) => *bytes == *it,
            (Cell::Uid(uid), Cell::Uid(it)) => *uid == *it,
            (Cell::Numbers(resets), Cell::Numbers(it)) => *resets == *it,
            (Cell::Expr(expr), Cell::Expr(it)) => expr.is(it),
            (Cell::Columns(columns), Cell::Columns(it)) => columns.is(it),
            (Cell::OneName(name), Cell::OneName(it)) => *name == *it,
            _ => false,
        }
    }
}

/// These cells once more.
pub fn copy_cells(
    alloc: Global,
    cells: &[(Column, Cell)],
) -> Result<Vec<(Column, Cell)>, AllocError>
    ensures { IfOk result (λ v. v.items ≡ cells.now) }
{
    let mut copies = Vec::with_capacity(alloc, cells.len())?;
    for (column, cell) in cells {
        copies.push((*column, cell.copy()?))?;
    }
    Ok(copies)
}
