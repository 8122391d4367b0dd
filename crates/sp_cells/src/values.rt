//! Which value each column takes.

ghost use Rattle.std.specs.Prelude.{◌≡◌, ◌<◌, ◌≤◌};
ghost use Rattle.sp_cells.specs.Values.{is_of_type, type_at, sp_types, ace_types, authority_types, c_pin_types, locking_types, mbr_control_types, tper_info_types, data_removal_types, table_types, column_type as column_type_of, is_taken, takes_each};

use crate::cells::Cell;
use crate::limits::{CRYPTOGRAPHIC_ERASE, MOST_COMMON_NAME_BYTES, MOST_PIN_BYTES};
use crate::names::{Column, Uid, tables};

/// What a column takes.
#[derive(Clone, Copy, Debug, PartialEq, Eq)]
pub enum ColumnType {
    /// Bytes of any length.
    Name,

    /// Bytes, at most as many as the name has that a host gives.
    CommonName,

    /// Bytes, at most as many as a PIN has.
    Secret,

    /// The name of an object.
    Object,

    Number,

    /// The number 0 or 1.
    Flag,

    /// The number of a way to remove data that the drive has.
    Mechanism,

    /// A set of resets.
    Resets,

    /// A set of resets that has the power cycle (Opal SSC 2.01, sections 4.3.5.2.2 and 4.3.5.3.1).
    PowerCycleResets,

    /// An expression, as the profiles `Base` and `Field` take it.
    Expression,

    /// An expression, as the profile `Opal` takes it.
    LongExpression,

    Columns,

    /// A list of one name.
    OneName,
}

impl ColumnType {
    /// Whether the cell is a value of this type.
    fn takes(self, cell: &Cell) -> bool
        ensures { result ≡ is_of_type self cell.now }
    {
        match self {
            ColumnType::Name => matches!(cell, Cell::Bytes(_)),
            ColumnType::CommonName => match cell {
                Cell::Bytes(bytes) => bytes.as_slice().len() <= MOST_COMMON_NAME_BYTES,
                _ => false,
            },
            ColumnType::Secret => match cell {
                Cell::Bytes(bytes) => bytes.as_slice().len() <= MOST_PIN_BYTES,
                _ => false,
            },
            ColumnType::Object => matches!(cell, Cell::Uid(_)),
            ColumnType::Number => matches!(cell, Cell::Number(_)),
            ColumnType::Flag => match cell {
                Cell::Number(number) => *number <= 1,
                _ => false,
            },
            ColumnType::Mechanism => match cell {
                Cell::Number(number) => *number == CRYPTOGRAPHIC_ERASE,
                _ => false,
            },
            ColumnType::Resets => matches!(cell, Cell::Numbers(_)),
            ColumnType::PowerCycleResets => match cell {
                Cell::Numbers(resets) => resets.power_cycle,
                _ => false,
            },
            ColumnType::Expression | ColumnType::LongExpression => matches!(cell, Cell::Expr(_)),
            ColumnType::Columns => matches!(cell, Cell::Columns(_)),
            ColumnType::OneName => matches!(cell, Cell::OneName(_)),
        }
    }
}

fn sp_type(column: Column) -> Option<ColumnType>
    ensures { result ≡ type_at sp_types column }
{
    match column {
        Column::UID => Some(ColumnType::Object),
        Column::NAME => Some(ColumnType::Name),
        Column::LIFE_CYCLE_STATE => Some(ColumnType::Number),
        _ => None,
    }
}

fn ace_type(column: Column) -> Option<ColumnType>
    ensures { result ≡ type_at ace_types column }
{
    match column {
        Column::UID => Some(ColumnType::Object),
        Column::NAME | Column::COMMON_NAME => Some(ColumnType::Name),
        Column::BOOLEAN_EXPR => Some(ColumnType::Expression),
        Column::COLUMNS => Some(ColumnType::Columns),
        _ => None,
    }
}

fn authority_type(column: Column) -> Option<ColumnType>
    ensures { result ≡ type_at authority_types column }
{
    match column {
        Column::UID | Column::CLASS | Column::CREDENTIAL => Some(ColumnType::Object),
        Column::NAME | Column::COMMON_NAME => Some(ColumnType::Name),
        Column::IS_CLASS | Column::ENABLED => Some(ColumnType::Flag),
        Column::OPERATION => Some(ColumnType::Number),
        _ => None,
    }
}

fn c_pin_type(column: Column) -> Option<ColumnType>
    ensures { result ≡ type_at c_pin_types column }
{
    match column {
        Column::UID | Column::CHAR_SET => Some(ColumnType::Object),
        Column::NAME | Column::COMMON_NAME => Some(ColumnType::Name),
        Column::PIN => Some(ColumnType::Secret),
        Column::TRY_LIMIT | Column::TRIES => Some(ColumnType::Number),
        Column::PERSISTENCE => Some(ColumnType::Flag),
        _ => None,
    }
}

fn locking_type(column: Column) -> Option<ColumnType>
    ensures { result ≡ type_at locking_types column }
{
    match column {
        Column::UID => Some(ColumnType::Object),
        Column::NAME | Column::COMMON_NAME => Some(ColumnType::Name),
        Column::RANGE_START | Column::RANGE_LENGTH => Some(ColumnType::Number),
        Column::READ_LOCK_ENABLED
        | Column::WRITE_LOCK_ENABLED
        | Column::READ_LOCKED
        | Column::WRITE_LOCKED => Some(ColumnType::Flag),
        Column::LOCK_ON_RESET => Some(ColumnType::Resets),
        _ => None,
    }
}

fn mbr_control_type(column: Column) -> Option<ColumnType>
    ensures { result ≡ type_at mbr_control_types column }
{
    match column {
        Column::UID => Some(ColumnType::Object),
        Column::MBR_ENABLE | Column::MBR_DONE => Some(ColumnType::Flag),
        Column::MBR_DONE_ON_RESET => Some(ColumnType::Resets),
        _ => None,
    }
}

fn tper_info_type(column: Column) -> Option<ColumnType>
    ensures { result ≡ type_at tper_info_types column }
{
    match column {
        Column::UID => Some(ColumnType::Object),
        Column::PROGRAMMATIC_RESET_ENABLE => Some(ColumnType::Flag),
        _ => None,
    }
}

fn data_removal_type(column: Column) -> Option<ColumnType>
    ensures { result ≡ type_at data_removal_types column }
{
    match column {
        Column::UID => Some(ColumnType::Object),
        Column::ACTIVE_DATA_REMOVAL_MECHANISM => Some(ColumnType::Mechanism),
        _ => None,
    }
}

/// The type of a column of an object, by the object's table.
fn column_type(object: Uid, column: Column) -> Option<ColumnType>
    ensures { result ≡ column_type_of object column }
{
    match object.table() {
        tables::ACE => ace_type(column),
        tables::AUTHORITY => authority_type(column),
        tables::C_PIN => c_pin_type(column),
        tables::SP => sp_type(column),
        tables::LOCKING => locking_type(column),
        tables::MBR_CONTROL => mbr_control_type(column),
        tables::TPER_INFO => tper_info_type(column),
        tables::DATA_REMOVAL => data_removal_type(column),
        _ => None,
    }
}

/// Whether a column of an object takes this value.
fn is_value(object: Uid, column: Column, cell: &Cell) -> bool
    ensures { result ≡ is_taken (column_type_of object column) cell.now }
{
    match column_type(object, column) {
        Some(kind) => kind.takes(cell),
        None => false,
    }
}

/// Whether each of these columns of an object takes its value.
pub fn are_values(object: Uid, changes: &[(Column, Cell)]) -> bool
    ensures { result ≡ takes_each object changes.now }
{
    changes
        .iter()
        .all(|change| is_value(object, change.0, &change.1))
}
