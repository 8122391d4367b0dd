//! The kinds of objects.

ghost use Rattle.std.specs.Prelude.{◌≡◌, ◌/◌, ◌%◌, ◌<◌, ◌≤◌, ◌==◌};
ghost use Rattle.methods.specs.Kinds.{kind_of as kind_of_object, kind_of_table, is_whole_table, byte_table_of as byte_table_by};

use sp_cells::names::tables;
use sp_cells::{ByteTable, Sp, Uid};

/// What an object is: the SP of the session, a table as a whole, or a row of one of the tables. A row of the Table table
/// is of the kind `Table` where it tells of a byte table, and else of the kind `ObjectTable`.
#[derive(Clone, Copy, Debug, PartialEq, Eq)]
pub enum Kind {
    ThisSp,
    Sp,
    Authority,
    CPin,
    Ace,
    Locking,
    MbrControl,
    TperInfo,
    LockingInfo,
    Table,
    MbrTable,
    DataStore,
    Key,
    DataRemoval,
    WholeTable,
    AccessControl,
    ObjectTable,
    SpInfo,
    SpTemplates,
    MethodId,
    SecretProtect,
    Template,
}

/// What does a call of a method that a kind of object has.
#[derive(Clone, Copy, Debug, PartialEq, Eq)]
pub enum Handler {
    ReadCells,
    ReadBytes,
    WriteCells,
    WriteBytes,
    Authenticate,
    Activate,
    Revert,
    GenKey,
    RevertSp,
    ListRows,
    ReadAcl,
    Draw,
}

/// The kind of the rows of a table, by the upper four bytes of their names.
fn table_kind(table: u64) -> Option<Kind>
    ensures { result ≡ kind_of_table table }
{
    match table {
        tables::ACE => Some(Kind::Ace),
        tables::AUTHORITY => Some(Kind::Authority),
        tables::C_PIN => Some(Kind::CPin),
        tables::SP => Some(Kind::Sp),
        tables::LOCKING => Some(Kind::Locking),
        tables::MBR_CONTROL => Some(Kind::MbrControl),
        tables::TPER_INFO => Some(Kind::TperInfo),
        tables::LOCKING_INFO => Some(Kind::LockingInfo),
        tables::TABLE => Some(Kind::ObjectTable),
        tables::SP_INFO => Some(Kind::SpInfo),
        tables::SP_TEMPLATES => Some(Kind::SpTemplates),
        tables::METHOD_ID => Some(Kind::MethodId),
        tables::SECRET_PROTECT => Some(Kind::SecretProtect),
        tables::TEMPLATE => Some(Kind::Template),
        tables::K_AES_256 => Some(Kind::Key),
        tables::DATA_REMOVAL => Some(Kind::DataRemoval),
        _ => None,
    }
}

/// Whether the object is a table as a whole.
fn is_whole_table(object: Uid) -> bool
    ensures { result ≡ is_whole_table object }
{
    object.0 % 0x1_0000_0000 == 0
}

/// The kind of an object in a session of an SP. The byte tables are two in the Locking SP alone.
pub fn kind_of(sp: Sp, object: Uid) -> Option<Kind>
    ensures { result ≡ kind_of_object sp object }
{
    if object == Uid::THIS_SP {
        return Some(Kind::ThisSp);
    }
    if object == Uid::MBR_TABLE && sp == Sp::Locking {
        return Some(Kind::MbrTable);
    }
    if object == Uid::DATASTORE_TABLE && sp == Sp::Locking {
        return Some(Kind::DataStore);
    }
    if object == Uid::ACCESS_CONTROL {
        return Some(Kind::AccessControl);
    }
    if is_whole_table(object) {
        return Some(Kind::WholeTable);
    }
    if object == Uid::MBR_TABLE_ROW || object == Uid::DATASTORE_TABLE_ROW {
        return Some(Kind::Table);
    }
    table_kind(object.table())
}

/// The byte table that an object of this kind is; one that is none has no bytes to ask for.
pub fn byte_table_of(kind: Option<Kind>) -> ByteTable
    ensures { result ≡ byte_table_by kind }
{
    match kind {
        Some(Kind::DataStore) => ByteTable::DataStore,
        _ => ByteTable::ShadowMbr,
    }
}
