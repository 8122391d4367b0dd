//! The columns of the tables, and their names.

ghost use Rattle.std.specs.Prelude.{◌≡◌, MatchOption, Some, None};
ghost use Rattle.tcg_calls.specs.Columns.{column_pairs, column_name_in, column_in, names_of_table, column_name, column_by_name, sp_info_names, sp_templates_names, method_id_names, template_names, secret_protect_names, sp_names, tper_info_names, c_pin_names, authority_names, ace_names, locking_names, mbr_control_names, locking_info_names, table_names, key_names, data_removal_names};

use sp_cells::Column;
use sp_cells::names::tables;

/// A column, and its name.
type NamedColumn = (Column, &'static str);

const SP_INFO: [NamedColumn; 7] = [
    (Column::UID, "UID"),
    (Column::SP_ID, "SPID"),
    (Column::SP_NAME, "Name"),
    (Column::SIZE, "Size"),
    (Column::SIZE_IN_USE, "SizeInUse"),
    (Column::SP_SESSION_TIMEOUT, "SPSessionTimeout"),
    (Column::SP_ENABLED, "Enabled"),
];

const SP_TEMPLATES: [NamedColumn; 4] = [
    (Column::UID, "UID"),
    (Column::TEMPLATE_ID, "TemplateID"),
    (Column::TEMPLATE_NAME, "Name"),
    (Column::TEMPLATE_VERSION, "Version"),
];

const METHOD_ID: [NamedColumn; 3] = [
    (Column::UID, "UID"),
    (Column::NAME, "Name"),
    (Column::COMMON_NAME, "CommonName"),
];

const TEMPLATE: [NamedColumn; 5] = [
    (Column::UID, "UID"),
    (Column::NAME, "Name"),
    (Column::REVISION_NUMBER, "RevisionNumber"),
    (Column::INSTANCES, "Instances"),
    (Column::MAX_INSTANCES, "MaxInstances"),
];

const SECRET_PROTECT: [NamedColumn; 4] = [
    (Column::UID, "UID"),
    (Column::PROTECTED_TABLE, "Table"),
    (Column::COLUMN_NUMBER, "ColumnNumber"),
    (Column::PROTECT_MECHANISMS, "ProtectMechanisms"),
];

const SP: [NamedColumn; 7] = [
    (Column::UID, "UID"),
    (Column::NAME, "Name"),
    (Column::ORG, "ORG"),
    (Column::EFFECTIVE_AUTH, "EffectiveAuth"),
    (Column::SP_BYTES, "Bytes"),
    (Column::LIFE_CYCLE_STATE, "LifeCycleState"),
    (Column::FROZEN, "Frozen"),
];

const TPER_INFO: [NamedColumn; 9] = [
    (Column::UID, "UID"),
    (Column::TPER_BYTES, "Bytes"),
    (Column::GUDID, "GUDID"),
    (Column::GENERATION, "Generation"),
    (Column::FIRMWARE_VERSION, "FirmwareVersion"),
    (Column::PROTOCOL_VERSION, "ProtocolVersion"),
    (Column::SPACE_FOR_ISSUANCE, "SpaceForIssuance"),
    (Column::SSC, "SSC"),
    (Column::PROGRAMMATIC_RESET_ENABLE, "ProgrammaticResetEnable"),
];

const C_PIN: [NamedColumn; 8] = [
    (Column::UID, "UID"),
    (Column::NAME, "Name"),
    (Column::COMMON_NAME, "CommonName"),
    (Column::PIN, "PIN"),
    (Column::CHAR_SET, "CharSet"),
    (Column::TRY_LIMIT, "TryLimit"),
    (Column::TRIES, "Tries"),
    (Column::PERSISTENCE, "Persistence"),
];

const AUTHORITY: [NamedColumn; 17] = [
    (Column::UID, "UID"),
    (Column::NAME, "Name"),
    (Column::COMMON_NAME, "CommonName"),
    (Column::IS_CLASS, "IsClass"),
    (Column::CLASS, "Class"),
    (Column::ENABLED, "Enabled"),
    (Column::SECURE, "Secure"),
    (Column::HASH_AND_SIGN, "HashAndSign"),
    (Column::PRESENT_CERTIFICATE, "PresentCertificate"),
    (Column::OPERATION, "Operation"),
    (Column::CREDENTIAL, "Credential"),
    (Column::RESPONSE_SIGN, "ResponseSign"),
    (Column::RESPONSE_EXCH, "ResponseExch"),
    (Column::LIMIT, "Limit"),
    (Column::USES, "Uses"),
    (Column::LOG, "Log"),
    (Column::LOG_TO, "LogTo"),
];

const ACE: [NamedColumn; 5] = [
    (Column::UID, "UID"),
    (Column::NAME, "Name"),
    (Column::COMMON_NAME, "CommonName"),
    (Column::BOOLEAN_EXPR, "BooleanExpr"),
    (Column::COLUMNS, "Columns"),
];

const LOCKING: [NamedColumn; 11] = [
    (Column::UID, "UID"),
    (Column::NAME, "Name"),
    (Column::COMMON_NAME, "CommonName"),
    (Column::RANGE_START, "RangeStart"),
    (Column::RANGE_LENGTH, "RangeLength"),
    (Column::READ_LOCK_ENABLED, "ReadLockEnabled"),
    (Column::WRITE_LOCK_ENABLED, "WriteLockEnabled"),
    (Column::READ_LOCKED, "ReadLocked"),
    (Column::WRITE_LOCKED, "WriteLocked"),
    (Column::LOCK_ON_RESET, "LockOnReset"),
    (Column::ACTIVE_KEY, "ActiveKey"),
];

const MBR_CONTROL: [NamedColumn; 4] = [
    (Column::UID, "UID"),
    (Column::MBR_ENABLE, "Enable"),
    (Column::MBR_DONE, "Done"),
    (Column::MBR_DONE_ON_RESET, "DoneOnReset"),
];

const LOCKING_INFO: [NamedColumn; 11] = [
    (Column::UID, "UID"),
    (Column::NAME, "Name"),
    (Column::VERSION, "Version"),
    (Column::ENCRYPT_SUPPORT, "EncryptSupport"),
    (Column::MAX_RANGES, "MaxRanges"),
    (Column::MAX_RE_ENCRYPTIONS, "MaxReEncryptions"),
    (Column::KEYS_AVAILABLE_CFG, "KeysAvailableCfg"),
    (Column::ALIGNMENT_REQUIRED, "AlignmentRequired"),
    (Column::LOGICAL_BLOCK_SIZE, "LogicalBlockSize"),
    (Column::ALIGNMENT_GRANULARITY, "AlignmentGranularity"),
    (Column::LOWEST_ALIGNED_LBA, "LowestAlignedLBA"),
];

const TABLE: [NamedColumn; 7] = [
    (Column::UID, "UID"),
    (Column::NAME, "Name"),
    (Column::COMMON_NAME, "CommonName"),
    (Column::KIND, "Kind"),
    (Column::ROWS, "Rows"),
    (
        Column::MANDATORY_WRITE_GRANULARITY,
        "MandatoryWriteGranularity",
    ),
    (
        Column::RECOMMENDED_ACCESS_GRANULARITY,
        "RecommendedAccessGranularity",
    ),
];

const K_AES_256: [NamedColumn; 4] = [
    (Column::UID, "UID"),
    (Column::NAME, "Name"),
    (Column::COMMON_NAME, "CommonName"),
    (Column::MODE, "Mode"),
];

const DATA_REMOVAL: [NamedColumn; 2] = [
    (Column::UID, "UID"),
    (
        Column::ACTIVE_DATA_REMOVAL_MECHANISM,
        "ActiveDataRemovalMechanism",
    ),
];

/// The columns of a table, by the upper four bytes of its rows' names.
#[tactic(auto, unfolding(crate::specs::Columns::sp_info_names, crate::specs::Columns::sp_templates_names, crate::specs::Columns::method_id_names, crate::specs::Columns::template_names, crate::specs::Columns::secret_protect_names, crate::specs::Columns::sp_names, crate::specs::Columns::tper_info_names, crate::specs::Columns::c_pin_names, crate::specs::Columns::authority_names, crate::specs::Columns::ace_names, crate::specs::Columns::locking_names, crate::specs::Columns::mbr_control_names, crate::specs::Columns::locking_info_names, crate::specs::Columns::table_names, crate::specs::Columns::key_names, crate::specs::Columns::data_removal_names))]
fn names_of_table(table: u64) -> &'static [NamedColumn]
    ensures { column_pairs result.now ≡ names_of_table table }
{
    match table {
        tables::SP => &SP,
        tables::TPER_INFO => &TPER_INFO,
        tables::C_PIN => &C_PIN,
        tables::AUTHORITY => &AUTHORITY,
        tables::ACE => &ACE,
        tables::LOCKING => &LOCKING,
        tables::MBR_CONTROL => &MBR_CONTROL,
        tables::LOCKING_INFO => &LOCKING_INFO,
        tables::TABLE => &TABLE,
        tables::K_AES_256 => &K_AES_256,
        tables::DATA_REMOVAL => &DATA_REMOVAL,
        tables::SP_INFO => &SP_INFO,
        tables::SP_TEMPLATES => &SP_TEMPLATES,
        tables::METHOD_ID => &METHOD_ID,
        tables::TEMPLATE => &TEMPLATE,
        tables::SECRET_PROTECT => &SECRET_PROTECT,
        _ => &[],
    }
}

/// The name of a column among these.
fn name_among(columns: &[NamedColumn], column: Column) -> Option<&'static str>
    ensures { MatchOption result (column_name_in (column_pairs columns.now) column ≡ None)
        (λ name. column_name_in (column_pairs columns.now) column ≡ Some name.now) }
{
    for (named, name) in columns {
        if *named == column {
            return Some(name);
        }
    }
    None
}

/// The column of a name among these.
fn column_among(columns: &[NamedColumn], name: &str) -> Option<Column>
    ensures { result ≡ column_in (column_pairs columns.now) name.now }
{
    for (named, its) in columns {
        if *its == name {
            return Some(*named);
        }
    }
    None
}

/// The name of a column of a table, as the standards give it: column 7 of the Locking table is `ReadLocked`.
///
/// `table` has the upper four bytes of its rows' names ([`sp_cells::Uid::table`]).
pub fn column_name(table: u64, column: Column) -> Option<&'static str>
    ensures { MatchOption result (column_name table column ≡ None)
        (λ name. column_name table column ≡ Some name.now) }
{
    name_among(names_of_table(table), column)
}

/// The column of a table that has this name.
pub fn column_by_name(table: u64, name: &str) -> Option<Column>
    ensures { result ≡ column_by_name table name.now }
{
    column_among(names_of_table(table), name)
}
