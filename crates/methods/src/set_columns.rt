//! The columns that Set takes of each kind of object, with the types of their values.

ghost use Rattle.std.specs.Prelude.{◌≡◌, ◌∷◌, []};
ghost use Rattle.methods.specs.Columns.{set_types_of, field_set_types_of, opal_set_types_of, range_set_types, opal_range_set_types, mbr_control_set_types, opal_mbr_control_set_types};

use crate::kinds::Kind;
use basics::Profile;
use sp_cells::Column;
use sp_cells::values::ColumnType;

/// A column with the type of its values.
type Typed = (Column, ColumnType);

static NONE: [Typed; 0] = [];

static AUTHORITY: [Typed; 1] = [(Column::ENABLED, ColumnType::Flag)];

static OPAL_AUTHORITY: [Typed; 2] = [
    (Column::COMMON_NAME, ColumnType::CommonName),
    (Column::ENABLED, ColumnType::Flag),
];

static C_PIN: [Typed; 1] = [(Column::PIN, ColumnType::Secret)];

static ACE: [Typed; 1] = [(Column::BOOLEAN_EXPR, ColumnType::Expression)];

static OPAL_ACE: [Typed; 1] = [(Column::BOOLEAN_EXPR, ColumnType::LongExpression)];

static LOCKING: [Typed; 7] = [
    (Column::RANGE_START, ColumnType::Number),
    (Column::RANGE_LENGTH, ColumnType::Number),
    (Column::READ_LOCK_ENABLED, ColumnType::Flag),
    (Column::WRITE_LOCK_ENABLED, ColumnType::Flag),
    (Column::READ_LOCKED, ColumnType::Flag),
    (Column::WRITE_LOCKED, ColumnType::Flag),
    (Column::LOCK_ON_RESET, ColumnType::Resets),
];

static OPAL_LOCKING: [Typed; 8] = [
    (Column::COMMON_NAME, ColumnType::CommonName),
    (Column::RANGE_START, ColumnType::Number),
    (Column::RANGE_LENGTH, ColumnType::Number),
    (Column::READ_LOCK_ENABLED, ColumnType::Flag),
    (Column::WRITE_LOCK_ENABLED, ColumnType::Flag),
    (Column::READ_LOCKED, ColumnType::Flag),
    (Column::WRITE_LOCKED, ColumnType::Flag),
    (Column::LOCK_ON_RESET, ColumnType::PowerCycleResets),
];

static MBR_CONTROL: [Typed; 3] = [
    (Column::MBR_ENABLE, ColumnType::Flag),
    (Column::MBR_DONE, ColumnType::Flag),
    (Column::MBR_DONE_ON_RESET, ColumnType::Resets),
];

static OPAL_MBR_CONTROL: [Typed; 3] = [
    (Column::MBR_ENABLE, ColumnType::Flag),
    (Column::MBR_DONE, ColumnType::Flag),
    (Column::MBR_DONE_ON_RESET, ColumnType::PowerCycleResets),
];

static TPER_INFO: [Typed; 1] = [(Column::PROGRAMMATIC_RESET_ENABLE, ColumnType::Flag)];

static DATA_REMOVAL: [Typed; 1] = [(Column::ACTIVE_DATA_REMOVAL_MECHANISM, ColumnType::Mechanism)];

/// Those of every profile but `Opal`.
fn field_set_types(kind: Option<Kind>) -> &'static [Typed]
    ensures { result.now ≡ field_set_types_of kind }
{
    match kind {
        Some(Kind::Authority) => &AUTHORITY,
        Some(Kind::CPin) => &C_PIN,
        Some(Kind::Ace) => &ACE,
        Some(Kind::Locking) => &LOCKING,
        Some(Kind::MbrControl) => &MBR_CONTROL,
        Some(Kind::TperInfo) => &TPER_INFO,
        Some(Kind::DataRemoval) => &DATA_REMOVAL,
        _ => &NONE,
    }
}

/// Those of the profile `Opal`.
fn opal_set_types(kind: Option<Kind>) -> &'static [Typed]
    ensures { result.now ≡ opal_set_types_of kind }
{
    match kind {
        Some(Kind::Authority) => &OPAL_AUTHORITY,
        Some(Kind::CPin) => &C_PIN,
        Some(Kind::Ace) => &OPAL_ACE,
        Some(Kind::Locking) => &OPAL_LOCKING,
        Some(Kind::MbrControl) => &OPAL_MBR_CONTROL,
        Some(Kind::TperInfo) => &TPER_INFO,
        Some(Kind::DataRemoval) => &DATA_REMOVAL,
        _ => &NONE,
    }
}

/// The columns that Set takes of an object of this kind, in a drive of this profile.
pub fn set_types(profile: Profile, kind: Option<Kind>) -> &'static [Typed]
    ensures { result.now ≡ set_types_of profile kind }
{
    match profile {
        Profile::Base | Profile::Field => field_set_types(kind),
        Profile::Opal => opal_set_types(kind),
    }
}
