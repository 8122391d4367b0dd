//! The table of cases.

/// One row for each kind of object and each method that it has: the columns with the types of their values, and the
/// handler of the call; those that Set takes are `set_types`. The macro named first makes the arms of a body of these
/// rows.
macro_rules! method_cases {
    ($arms:ident $args:tt) => {
        $arms! { $args
            [ThisSp:
                Authenticate [] Authenticate,
                RevertSp [] RevertSp,
                Random [] Draw]
            [Sp:
                GetCells [
                    UID Object, NAME Name, ORG Object, EFFECTIVE_AUTH Name, SP_BYTES Number, LIFE_CYCLE_STATE Number,
                    FROZEN Flag
                ] ReadCells,
                Activate [] Activate,
                Revert [] Revert]
            [Authority:
                GetCells [
                    UID Object, NAME Name, COMMON_NAME Name, IS_CLASS Flag, CLASS Object, ENABLED Flag,
                    SECURE Number, HASH_AND_SIGN Number, PRESENT_CERTIFICATE Flag, OPERATION Number,
                    CREDENTIAL Object, RESPONSE_SIGN Object, RESPONSE_EXCH Object, LIMIT Number, USES Number,
                    LOG Number, LOG_TO Object
                ] ReadCells,
                SetCells [] WriteCells]
            [CPin:
                GetCells [
                    UID Object, NAME Name, COMMON_NAME Name, PIN Secret, CHAR_SET Object, TRY_LIMIT Number,
                    TRIES Number, PERSISTENCE Flag
                ] ReadCells,
                SetCells [] WriteCells]
            [Ace:
                GetCells [
                    UID Object, NAME Name, COMMON_NAME Name, BOOLEAN_EXPR Expression, COLUMNS Columns
                ] ReadCells,
                SetCells [] WriteCells]
            [Locking:
                GetCells [
                    UID Object, NAME Name, COMMON_NAME Name, RANGE_START Number, RANGE_LENGTH Number,
                    READ_LOCK_ENABLED Flag, WRITE_LOCK_ENABLED Flag, READ_LOCKED Flag, WRITE_LOCKED Flag,
                    LOCK_ON_RESET Resets, ACTIVE_KEY Object
                ] ReadCells,
                SetCells [] WriteCells]
            [MbrControl:
                GetCells [UID Object, MBR_ENABLE Flag, MBR_DONE Flag, MBR_DONE_ON_RESET Resets] ReadCells,
                SetCells [] WriteCells]
            [TperInfo:
                GetCells [
                    UID Object, TPER_BYTES Number, GUDID Name, GENERATION Number, FIRMWARE_VERSION Number,
                    PROTOCOL_VERSION Number, SPACE_FOR_ISSUANCE Number, SSC OneName, PROGRAMMATIC_RESET_ENABLE Flag
                ] ReadCells,
                SetCells [] WriteCells]
            [LockingInfo:
                GetCells [
                    UID Object, NAME Name, VERSION Number, ENCRYPT_SUPPORT Number, MAX_RANGES Number,
                    MAX_RE_ENCRYPTIONS Number, KEYS_AVAILABLE_CFG Number, ALIGNMENT_REQUIRED Flag,
                    LOGICAL_BLOCK_SIZE Number, ALIGNMENT_GRANULARITY Number, LOWEST_ALIGNED_LBA Number
                ] ReadCells]
            [Table:
                GetCells [
                    UID Object, NAME Name, COMMON_NAME Name, KIND Number, ROWS Number,
                    MANDATORY_WRITE_GRANULARITY Number, RECOMMENDED_ACCESS_GRANULARITY Number
                ] ReadCells]
            [MbrTable:
                GetBytes [] ReadBytes,
                SetBytes [] WriteBytes]
            [DataStore:
                GetBytes [] ReadBytes,
                SetBytes [] WriteBytes]
            [Key:
                GetCells [UID Object, NAME Name, COMMON_NAME Name, MODE Number] ReadCells,
                GenKey [] GenKey]
            [DataRemoval:
                GetCells [UID Object, ACTIVE_DATA_REMOVAL_MECHANISM Mechanism] ReadCells,
                SetCells [] WriteCells]
            [WholeTable: Next [] ListRows]
            [AccessControl: GetAcl [] ReadAcl]
            [ObjectTable:
                GetCells [
                    UID Object, NAME Name, COMMON_NAME Name, KIND Number, MANDATORY_WRITE_GRANULARITY Number,
                    RECOMMENDED_ACCESS_GRANULARITY Number
                ] ReadCells]
            [SpInfo:
                GetCells [
                    UID Object, SP_ID Object, SP_NAME Name, SIZE Number, SIZE_IN_USE Number,
                    SP_SESSION_TIMEOUT Number, SP_ENABLED Flag
                ] ReadCells]
            [SpTemplates:
                GetCells [UID Object, TEMPLATE_ID Object, TEMPLATE_NAME Name, TEMPLATE_VERSION Name] ReadCells]
            [MethodId:
                GetCells [UID Object, NAME Name, COMMON_NAME Name] ReadCells]
            [SecretProtect:
                GetCells [
                    UID Object, PROTECTED_TABLE Object, COLUMN_NUMBER Number, PROTECT_MECHANISMS Resets
                ] ReadCells]
            [Template:
                GetCells [
                    UID Object, NAME Name, REVISION_NUMBER Number, INSTANCES Number, MAX_INSTANCES Number
                ] ReadCells]
        }
    };
}

pub(crate) use method_cases;
