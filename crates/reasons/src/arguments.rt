//! Which argument of a method has not the shape that the method wants.

ghost use Rattle.std.specs.Prelude.{◌≡◌, ◌++◌, [], ◌∷◌, is_some, map, option_map, IfOk, OnOk};
ghost use Rattle.tcg_tokens.specs.Tree.{tree};
ghost use Rattle.tcg_calls.specs.Asks.{is_byte_table as is_byte_table_of};
ghost use Rattle.tcg_calls.specs.Named.{options, number_or as number_or_in, number_if_any as number_if_any_in};
ghost use Rattle.tcg_calls.specs.Parameters.{start_row_parameter, end_row_parameter, start_column_parameter, end_column_parameter, where_parameter, values_parameter, next_where_parameter, next_count_parameter, proof_parameter, keep_global_range_key_parameter};
ghost use Rattle.reasons.specs.Lives.{life_on};
ghost use Rattle.reasons.specs.Sent.{call_seen};
ghost use Rattle.reasons.specs.Arguments.{row_order_fault, rows_fault, column_order_fault, columns_fault, block_fault, get_fault, list_fault, values_fault, cells_fault, content_fault, bytes_fault, put_fault, proof_fault, attempt_fault, none_fault, keep_fault, revert_sp_fault, is_row, next_fault, line_fault, random_fault, field_fault, opal_fault, other_fault, argument_fault, argument_words, argument_line, shape_line, arguments_text};

use crate::explained::SessionChronicle;
use crate::rulings::append_because;
use crate::sent::{call_sent, session_named};
use crate::untaken::sp_of_session;
use basics::Profile;
use sp_cells::{Sp, Uid};
use std::alloc::{AllocError, Global};
use tcg_calls::call_shapes::{
    bytes_or_empty, list_in, parameter, read_assignments, read_options, uid_in, uid_of,
};
use tcg_tokens::{Call, Value};

/// What is wrong with the arguments of a method.
#[derive(Clone, Copy, Debug, PartialEq, Eq)]
pub enum ArgumentFault {
    /// Get has no cellblock.
    Cellblock,
    /// The cellblock names something else than rows, or one twice.
    RowNames,
    /// The first row is no number.
    StartRow,
    /// The last row is no number.
    EndRow,
    /// The first row lies behind the last.
    RowOrder,
    /// The cellblock names something else than columns, or one twice.
    ColumnNames,
    /// The first column is no number.
    StartColumn,
    /// The last column is no number.
    EndColumn,
    /// The first column lies behind the last.
    ColumnOrder,
    /// Set of columns has something else than Values, or it twice.
    SetNames,
    /// The values of a Set are no list.
    ValueList,
    /// A value of a Set names no column, or one twice.
    ValueNames,
    /// Set of bytes has something else than its two parameters, or one twice.
    SetBytesNames,
    /// The row of a Set is no number.
    SetWhere,
    /// What a Set puts into a byte table is no byte string.
    ValueBytes,
    /// The authority of Authenticate is no name.
    Authority,
    /// Authenticate has something else than a proof, or it twice.
    ProofNames,
    /// The proof is no byte string.
    Proof,
    /// The method has an argument, and takes none.
    NoneTaken,
    /// RevertSP has something else than its parameter, or it twice.
    KeepNames,
    /// The parameter of RevertSP is neither 0 nor 1.
    Keep,
    /// Next has something else than its two parameters, or one twice.
    NextNames,
    /// The row of a Next is no name.
    NextWhere,
    /// The count of a Next is no number.
    NextCount,
    /// GetACL has something else than two names.
    Line,
    /// Random has something else than one number.
    RandomCount,
}

/// An optional number, with what stands for it where it is absent; None where something else stands there.
fn number_or(absent: u64, value: Option<&Value>) -> Option<u64>
    ensures { result ≡ number_or_in absent (option_map (λ v. tree v.now) value.entry) }
{
    match value {
        None => Some(absent),
        Some(Value::Number(number)) => Some(*number),
        Some(_) => None,
    }
}

/// An optional number that nothing stands for.
fn number_if_any(value: Option<&Value>) -> Option<Option<u64>>
    ensures { result ≡ number_if_any_in (option_map (λ v. tree v.now) value.entry) }
{
    match value {
        None => Some(None),
        Some(Value::Number(number)) => Some(Some(*number)),
        Some(_) => None,
    }
}

/// What is wrong with the first and the last row.
fn row_order_fault(first: Option<u64>, last: Option<Option<u64>>) -> Option<ArgumentFault>
    ensures { result ≡ row_order_fault first last }
{
    let Some(first) = first else {
        return Some(ArgumentFault::StartRow);
    };
    match last {
        None => Some(ArgumentFault::EndRow),
        Some(None) => None,
        Some(Some(last)) => {
            if first <= last {
                None
            } else {
                Some(ArgumentFault::RowOrder)
            }
        }
    }
}

/// What is wrong with the cellblock of a byte table.
fn rows_fault(alloc: Global, block: &[Value]) -> Result<Option<ArgumentFault>, AllocError>
    ensures { IfOk result (λ fault. fault ≡ rows_fault
        (options (start_row_parameter ∷ end_row_parameter ∷ []) (map tree block.now))) }
{
    match read_options(alloc, &[parameter::START_ROW, parameter::END_ROW], block)? {
        None => Ok(Some(ArgumentFault::RowNames)),
        Some(named) => Ok(row_order_fault(
            number_or(0, named.get(parameter::START_ROW)),
            number_if_any(named.get(parameter::END_ROW)),
        )),
    }
}

/// What is wrong with the first and the last column.
fn column_order_fault(first: Option<u64>, last: Option<u64>) -> Option<ArgumentFault>
    ensures { result ≡ column_order_fault first last }
{
    let Some(first) = first else {
        return Some(ArgumentFault::StartColumn);
    };
    match last {
        None => Some(ArgumentFault::EndColumn),
        Some(last) => {
            if first <= last {
                None
            } else {
                Some(ArgumentFault::ColumnOrder)
            }
        }
    }
}

/// What is wrong with the cellblock of an object.
fn columns_fault(alloc: Global, block: &[Value]) -> Result<Option<ArgumentFault>, AllocError>
    ensures { IfOk result (λ fault. fault ≡ columns_fault
        (options (start_column_parameter ∷ end_column_parameter ∷ []) (map tree block.now))) }
{
    match read_options(
        alloc,
        &[parameter::START_COLUMN, parameter::END_COLUMN],
        block,
    )? {
        None => Ok(Some(ArgumentFault::ColumnNames)),
        Some(named) => Ok(column_order_fault(
            number_or(0, named.get(parameter::START_COLUMN)),
            number_or(u64::MAX, named.get(parameter::END_COLUMN)),
        )),
    }
}

/// What is wrong with the arguments of Get.
fn get_fault(
    alloc: Global,
    of_bytes: bool,
    args: &[Value],
) -> Result<Option<ArgumentFault>, AllocError>
    ensures { IfOk result (λ fault. fault ≡ get_fault of_bytes (map tree args.now)) }
{
    let [block] = args else {
        return Ok(Some(ArgumentFault::Cellblock));
    };
    let Some(block) = list_in(block) else {
        return Ok(Some(ArgumentFault::Cellblock));
    };
    if of_bytes {
        rows_fault(alloc, block)
    } else {
        columns_fault(alloc, block)
    }
}

/// What is wrong with the values of a Set of columns.
fn values_fault(alloc: Global, values: Option<&Value>) -> Result<Option<ArgumentFault>, AllocError>
    ensures { IfOk result
        (λ fault. fault ≡ values_fault (option_map (λ v. tree v.now) values.entry)) }
{
    let Some(values) = values else {
        return Ok(Some(ArgumentFault::ValueList));
    };
    let Some(values) = list_in(values) else {
        return Ok(Some(ArgumentFault::ValueList));
    };
    match read_assignments(alloc, values)? {
        None => Ok(Some(ArgumentFault::ValueNames)),
        Some(_) => Ok(None),
    }
}

/// What is wrong with the arguments of a Set of columns.
fn cells_fault(alloc: Global, args: &[Value]) -> Result<Option<ArgumentFault>, AllocError>
    ensures { IfOk result
        (λ fault. fault ≡ cells_fault (options (values_parameter ∷ []) (map tree args.now))) }
{
    match read_options(alloc, &[parameter::VALUES], args)? {
        None => Ok(Some(ArgumentFault::SetNames)),
        Some(named) => values_fault(alloc, named.get(parameter::VALUES)),
    }
}

/// What is wrong with what a Set puts into a byte table.
fn content_fault(content: Option<&Value>) -> Option<ArgumentFault>
    ensures { result ≡ content_fault (option_map (λ v. tree v.now) content.entry) }
{
    match content {
        Some(Value::Bytes(_)) => None,
        Some(_) => Some(ArgumentFault::ValueBytes),
        None => Some(ArgumentFault::ValueBytes),
    }
}

/// What is wrong with the arguments of a Set of bytes.
fn bytes_fault(alloc: Global, args: &[Value]) -> Result<Option<ArgumentFault>, AllocError>
    ensures { IfOk result (λ fault. fault ≡ bytes_fault
        (options (where_parameter ∷ values_parameter ∷ []) (map tree args.now))) }
{
    let Some(named) = read_options(alloc, &[parameter::WHERE, parameter::VALUES], args)? else {
        return Ok(Some(ArgumentFault::SetBytesNames));
    };
    if number_or(0, named.get(parameter::WHERE)).is_some() {
        Ok(content_fault(named.get(parameter::VALUES)))
    } else {
        Ok(Some(ArgumentFault::SetWhere))
    }
}

/// What is wrong with the arguments of Set.
fn put_fault(
    alloc: Global,
    of_bytes: bool,
    args: &[Value],
) -> Result<Option<ArgumentFault>, AllocError>
    ensures { IfOk result (λ fault. fault ≡ put_fault of_bytes (map tree args.now)) }
{
    if of_bytes {
        bytes_fault(alloc, args)
    } else {
        cells_fault(alloc, args)
    }
}

/// What is wrong with the proof of an authority.
fn proof_fault(alloc: Global, args: &[Value]) -> Result<Option<ArgumentFault>, AllocError>
    ensures { IfOk result
        (λ fault. fault ≡ proof_fault (options (proof_parameter ∷ []) (map tree args.now))) }
{
    match read_options(alloc, &[parameter::PROOF], args)? {
        None => Ok(Some(ArgumentFault::ProofNames)),
        Some(named) => match bytes_or_empty(named.get(parameter::PROOF)) {
            None => Ok(Some(ArgumentFault::Proof)),
            Some(_) => Ok(None),
        },
    }
}

/// What is wrong with the arguments of Authenticate.
fn attempt_fault(alloc: Global, args: &[Value]) -> Result<Option<ArgumentFault>, AllocError>
    ensures { IfOk result (λ fault. fault ≡ attempt_fault (map tree args.now)) }
{
    let [authority, rest @ ..] = args else {
        return Ok(Some(ArgumentFault::Authority));
    };
    if uid_in(authority).is_some() {
        proof_fault(alloc, rest)
    } else {
        Ok(Some(ArgumentFault::Authority))
    }
}

/// What is wrong with the arguments of a method that takes none.
fn none_fault(args: &[Value]) -> Option<ArgumentFault>
    ensures { result ≡ none_fault (map tree args.now) }
{
    match args {
        [] => None,
        _ => Some(ArgumentFault::NoneTaken),
    }
}

/// What is wrong with the arguments of RevertSP.
fn revert_sp_fault(alloc: Global, args: &[Value]) -> Result<Option<ArgumentFault>, AllocError>
    ensures { IfOk result (λ fault. fault ≡ revert_sp_fault
        (options (keep_global_range_key_parameter ∷ []) (map tree args.now))) }
{
    let Some(named) = read_options(alloc, &[parameter::KEEP_GLOBAL_RANGE_KEY], args)? else {
        return Ok(Some(ArgumentFault::KeepNames));
    };
    match number_or(0, named.get(parameter::KEEP_GLOBAL_RANGE_KEY)) {
        Some(0) => Ok(None),
        Some(1) => Ok(None),
        _ => Ok(Some(ArgumentFault::Keep)),
    }
}

/// Whether a value that may be absent is the name of a row.
fn is_row(value: Option<&Value>) -> bool
    ensures { result ≡ is_row (option_map (λ v. tree v.now) value.entry) }
{
    match value {
        None => true,
        Some(row) => uid_in(row).is_some(),
    }
}

/// What is wrong with the arguments of Next.
fn next_fault(alloc: Global, args: &[Value]) -> Result<Option<ArgumentFault>, AllocError>
    ensures { IfOk result (λ fault. fault ≡ next_fault
        (options (next_where_parameter ∷ next_count_parameter ∷ []) (map tree args.now))) }
{
    let Some(named) = read_options(alloc, &[parameter::NEXT_WHERE, parameter::NEXT_COUNT], args)?
    else {
        return Ok(Some(ArgumentFault::NextNames));
    };
    if !is_row(named.get(parameter::NEXT_WHERE)) {
        return Ok(Some(ArgumentFault::NextWhere));
    }
    match number_if_any(named.get(parameter::NEXT_COUNT)) {
        None => Ok(Some(ArgumentFault::NextCount)),
        Some(_) => Ok(None),
    }
}

/// What is wrong with the arguments of GetACL.
fn line_fault(args: &[Value]) -> Option<ArgumentFault>
    ensures { result ≡ line_fault (map tree args.now) }
{
    let [object, method] = args else {
        return Some(ArgumentFault::Line);
    };
    if uid_in(object).is_some() && uid_in(method).is_some() {
        None
    } else {
        Some(ArgumentFault::Line)
    }
}

/// What is wrong with the arguments of Random.
fn random_fault(args: &[Value]) -> Option<ArgumentFault>
    ensures { result ≡ random_fault (map tree args.now) }
{
    match args {
        [Value::Number(_)] => None,
        _ => Some(ArgumentFault::RandomCount),
    }
}

/// What is wrong with the arguments of a method that the field profile has besides.
fn field_fault(
    alloc: Global,
    method: Uid,
    args: &[Value],
) -> Result<Option<ArgumentFault>, AllocError>
    ensures { IfOk result (λ fault. fault ≡ field_fault method (map tree args.now)) }
{
    match method {
        Uid::GEN_KEY => Ok(none_fault(args)),
        Uid::REVERT_SP => revert_sp_fault(alloc, args),
        _ => Ok(None),
    }
}

/// What is wrong with the arguments of a method that the opal profile has besides.
fn opal_fault(
    alloc: Global,
    method: Uid,
    args: &[Value],
) -> Result<Option<ArgumentFault>, AllocError>
    ensures { IfOk result (λ fault. fault ≡ opal_fault method (map tree args.now)) }
{
    match method {
        Uid::NEXT => next_fault(alloc, args),
        Uid::GET_ACL => Ok(line_fault(args)),
        Uid::RANDOM => Ok(random_fault(args)),
        _ => field_fault(alloc, method, args),
    }
}

/// What is wrong with the arguments of a method that is none of the five.
fn other_fault(
    alloc: Global,
    profile: Profile,
    method: Uid,
    args: &[Value],
) -> Result<Option<ArgumentFault>, AllocError>
    ensures { IfOk result (λ fault. fault ≡ other_fault profile method (map tree args.now)) }
{
    match profile {
        Profile::Base => Ok(None),
        Profile::Field => field_fault(alloc, method, args),
        Profile::Opal => opal_fault(alloc, method, args),
    }
}

/// Whether a table of a session's SP has rows of one byte each, in a drive of this profile.
fn is_byte_table(profile: Profile, sp: Sp, object: Uid) -> bool
    ensures { result ≡ is_byte_table_of profile sp object }
{
    match (profile, sp) {
        (Profile::Base, Sp::Admin) => false,
        (Profile::Field | Profile::Opal, Sp::Admin) => false,
        (Profile::Base, Sp::Locking) => object == Uid::MBR_TABLE,
        (Profile::Field | Profile::Opal, Sp::Locking) => {
            object == Uid::MBR_TABLE || object == Uid::DATASTORE_TABLE
        }
    }
}

/// What is wrong with the arguments of a method.
fn argument_fault(
    alloc: Global,
    profile: Profile,
    sp: Sp,
    object: Uid,
    method: Uid,
    args: &[Value],
) -> Result<Option<ArgumentFault>, AllocError>
    ensures { IfOk result (λ fault. fault
        ≡ argument_fault profile sp object method (map tree args.now)) }
{
    match method {
        Uid::GET => get_fault(alloc, is_byte_table(profile, sp, object), args),
        Uid::SET => put_fault(alloc, is_byte_table(profile, sp, object), args),
        Uid::AUTHENTICATE => attempt_fault(alloc, args),
        Uid::ACTIVATE => Ok(none_fault(args)),
        Uid::REVERT => Ok(none_fault(args)),
        _ => other_fault(alloc, profile, method, args),
    }
}

/// The same in words.
fn argument_words(fault: ArgumentFault) -> &'static [u8]
    ensures { result.now ≡ argument_words fault }
{
    match fault {
        ArgumentFault::Cellblock => b"Get wants a cellblock, one list",
        ArgumentFault::RowNames => {
            b"the cellblock of Get names startRow and endRow alone, each at most once"
        }
        ArgumentFault::StartRow => b"startRow of Get is no number",
        ArgumentFault::EndRow => b"endRow of Get is no number",
        ArgumentFault::RowOrder => b"startRow of Get lies behind endRow",
        ArgumentFault::ColumnNames => {
            b"the cellblock of Get names startColumn and endColumn alone, each at most once"
        }
        ArgumentFault::StartColumn => b"startColumn of Get is no number",
        ArgumentFault::EndColumn => b"endColumn of Get is no number",
        ArgumentFault::ColumnOrder => b"startColumn of Get lies behind endColumn",
        ArgumentFault::SetNames => b"Set of columns takes Values alone, once",
        ArgumentFault::ValueList => b"Values of Set is no list",
        ArgumentFault::ValueNames => {
            b"Values of Set names each column by its number, and none twice"
        }
        ArgumentFault::SetBytesNames => {
            b"Set of bytes takes Where and Values alone, each at most once"
        }
        ArgumentFault::SetWhere => b"Where of Set is no number",
        ArgumentFault::ValueBytes => b"Values of Set is no byte string",
        ArgumentFault::Authority => b"the authority of Authenticate is no name of eight bytes",
        ArgumentFault::ProofNames => b"Authenticate takes Proof alone behind its authority, once",
        ArgumentFault::Proof => b"Proof of Authenticate is no byte string",
        ArgumentFault::NoneTaken => b"the method takes no argument",
        ArgumentFault::KeepNames => b"RevertSP takes KeepGlobalRangeKey alone, once",
        ArgumentFault::Keep => b"KeepGlobalRangeKey of RevertSP is neither 0 nor 1",
        ArgumentFault::NextNames => b"Next takes Where and Count alone, each at most once",
        ArgumentFault::NextWhere => b"Where of Next is no name of eight bytes",
        ArgumentFault::NextCount => b"Count of Next is no number",
        ArgumentFault::Line => b"GetACL wants two names of eight bytes, an object and a method",
        ArgumentFault::RandomCount => b"Random wants one number, how many bytes",
    }
}

/// Appends the line of a fault, if there is one.
fn append_fault(text: &mut Vec<u8>, fault: Option<ArgumentFault>) -> Result<(), AllocError>
    ensures { OnOk result (text.new.items ≡ text.old.items ++ argument_line fault) }
{
    if let Some(fault) = fault {
        append_because(text, argument_words(fault))?;
    }
    Ok(())
}

/// What is wrong with the arguments of a call.
#[tactic(auto, using(crate::proofs::asked::Values::values_are))]
fn fault_of_call(
    alloc: Global,
    profile: Profile,
    sp: Sp,
    call: &Call,
) -> Result<Option<ArgumentFault>, AllocError>
    ensures { IfOk result (λ fault. fault ≡ argument_fault profile sp (call_seen call.now).object
        (call_seen call.now).method (call_seen call.now).args) }
{
    let object = uid_of(&call.object);
    let method = uid_of(&call.method);
    let fault = argument_fault(alloc, profile, sp, object, method, &call.args)?;
    Ok(fault)
}

/// Appends what is wrong with the arguments of a call in a session of an SP.
fn append_call(
    alloc: Global,
    text: &mut Vec<u8>,
    profile: Profile,
    sp: Sp,
    call: Option<&Call>,
) -> Result<(), AllocError>
    ensures { OnOk result (text.new.items ≡ text.old.items
        ++ shape_line profile sp (option_map (λ c. call_seen c.now) call.entry)) }
{
    let Some(call) = call else {
        return Ok(());
    };
    let fault = fault_of_call(alloc, profile, sp, call)?;
    append_fault(text, fault)
}

/// Appends which argument of a call that was sent has not the shape that its method wants.
pub(crate) fn append_arguments(
    alloc: Global,
    text: &mut Vec<u8>,
    profile: Profile,
    sessions: &SessionChronicle,
    payload: &[u8],
) -> Result<(), AllocError>
    ensures { OnOk result (text.new.items ≡ text.old.items
        ++ arguments_text profile (life_on sessions.now) payload.now) }
{
    let session = u64::from(session_named(payload));
    if let Some(sp) = sp_of_session(sessions, session) {
        let call = call_sent(alloc, payload)?;
        append_call(alloc, text, profile, sp, call.as_ref())?;
    }
    Ok(())
}
