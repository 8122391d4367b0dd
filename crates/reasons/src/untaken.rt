//! Which column of a Set takes no such value.

ghost use Rattle.std.specs.Prelude.{◌≡◌, ◌++◌, is_some, option_map, IfOk, OnOk};
ghost use Rattle.tcg_tokens.specs.Tree.{tree};
ghost use Rattle.sp_cells.specs.Values.{type_at as type_in};
ghost use Rattle.methods.specs.Columns.{set_types_of};
ghost use Rattle.methods.specs.Kinds.{kind_of as kind_of_object};
ghost use Rattle.methods.specs.Settings.{cell_for};
ghost use Rattle.reasons.specs.Lives.{life_on};
ghost use Rattle.reasons.specs.Sent.{call_seen};
ghost use Rattle.reasons.specs.Untaken.{bytes_words, expression_words, unlike_words, cell_words, untaken_words, first_untaken, untaken_line, untaken_by, values_text, set_text, sp_of_session, untaken_on, untaken_text};

use crate::asked::{ask_in, is_its_session};
use crate::explained::{SessionChronicle, append_number};
use crate::remedies::{append_column_name, append_object_name};
use crate::rulings::append_because;
use crate::sent::{call_sent, session_named};
use basics::Profile;
use methods::{kind_of, set_types};
use sp_cells::limits::{
    CRYPTOGRAPHIC_ERASE, MOST_COMMON_NAME_BYTES, MOST_ELEMENTS, MOST_PIN_BYTES, MOST_SHORT_ELEMENTS,
};
use sp_cells::values::ColumnType;
use sp_cells::{Column, Sp, Uid};
use std::alloc::{AllocError, Global};
use tcg_calls::call_shapes::{Ask, Assignments, cell_of, uid_of};
use tcg_tokens::{Call, Value};

/// Appends that it is no byte string of at most so many bytes.
fn append_bytes(alloc: Global, words: &mut Vec<u8>, most: usize) -> Result<(), AllocError>
    ensures { OnOk result (words.new.items ≡ words.old.items ++ bytes_words most) }
{
    append_number(alloc, words, b" is no byte string of at most ", most as u64)?;
    words.extend_from_slice(b" bytes")?;
    Ok(())
}

/// Appends which way to remove data there is.
fn append_mechanism(alloc: Global, words: &mut Vec<u8>) -> Result<(), AllocError>
    ensures { OnOk result (words.new.items
        ≡ words.old.items ++ unlike_words ColumnType.Mechanism) }
{
    append_number(alloc, words, b" is not ", CRYPTOGRAPHIC_ERASE)?;
    words.extend_from_slice(b", the cryptographic erase")?;
    Ok(())
}

/// Appends that it is no expression of at most so many elements.
fn append_expression(alloc: Global, words: &mut Vec<u8>, most: usize) -> Result<(), AllocError>
    ensures { OnOk result (words.new.items ≡ words.old.items ++ expression_words most) }
{
    append_number(alloc, words, b" is no expression of at most ", most as u64)?;
    words.extend_from_slice(b" elements")?;
    Ok(())
}

/// Appends what a value is not, which a column of this type does not take.
fn append_unlike(alloc: Global, words: &mut Vec<u8>, kind: ColumnType) -> Result<(), AllocError>
    ensures { OnOk result (words.new.items ≡ words.old.items ++ unlike_words kind) }
{
    match kind {
        ColumnType::CommonName => append_bytes(alloc, words, MOST_COMMON_NAME_BYTES)?,
        ColumnType::Secret => append_bytes(alloc, words, MOST_PIN_BYTES)?,
        ColumnType::Mechanism => append_mechanism(alloc, words)?,
        ColumnType::Expression => append_expression(alloc, words, MOST_SHORT_ELEMENTS)?,
        ColumnType::LongExpression => append_expression(alloc, words, MOST_ELEMENTS)?,
        ColumnType::Name => words.extend_from_slice(b" is no byte string")?,
        ColumnType::Object => words.extend_from_slice(b" is no name of eight bytes")?,
        ColumnType::Number => words.extend_from_slice(b" is no number")?,
        ColumnType::Flag => words.extend_from_slice(b" is neither 0 nor 1")?,
        ColumnType::Resets => words.extend_from_slice(
            b" is no list of kinds of reset: 0, 1 and 3, each at most once",
        )?,
        ColumnType::PowerCycleResets => words.extend_from_slice(
            b" is no list of kinds of reset that has 0: 0, 1 and 3, each at most once",
        )?,
        ColumnType::Columns => words.extend_from_slice(b" is no list of columns")?,
        ColumnType::OneName => words.extend_from_slice(b" is no list of one name")?,
    }
    Ok(())
}

/// Appends a column by its names.
fn append_cell(
    alloc: Global,
    words: &mut Vec<u8>,
    object: Uid,
    column: Column,
) -> Result<(), AllocError>
    ensures { OnOk result (words.new.items ≡ words.old.items ++ cell_words object column) }
{
    append_object_name(alloc, words, object)?;
    words.extend_from_slice(b" ")?;
    append_column_name(alloc, words, object, column)?;
    Ok(())
}

/// That a column of this type, or of none, does not take its value, in words.
fn words_of(
    alloc: Global,
    object: Uid,
    column: Column,
    kind: Option<ColumnType>,
) -> Result<Vec<u8>, AllocError>
    ensures { IfOk result (λ words. words.items ≡ untaken_words object column kind) }
{
    let mut words = Vec::new(alloc);
    match kind {
        Some(kind) => {
            words.extend_from_slice(b"the value of ")?;
            append_cell(alloc, &mut words, object, column)?;
            append_unlike(alloc, &mut words, kind)?;
        }
        None => {
            words.extend_from_slice(b"Set sets no ")?;
            append_cell(alloc, &mut words, object, column)?;
        }
    }
    Ok(words)
}

/// The type of a column among these.
fn type_at(types: &[(Column, ColumnType)], column: Column) -> Option<ColumnType>
    ensures { result ≡ type_in types.now column }
{
    for (other, kind) in types {
        if *other == column {
            return Some(*kind);
        }
    }
    None
}

/// Whether a column takes a value.
fn is_taken(
    alloc: Global,
    types: &[(Column, ColumnType)],
    column: u64,
    value: &Value,
) -> Result<bool, AllocError>
    ensures { IfOk result (λ taken. taken ≡ is_some (cell_for types.now (column, tree value.now))) }
{
    let Some(kind) = type_at(types, Column(column)) else {
        return Ok(false);
    };
    let cell = cell_of(alloc, kind, value)?;
    Ok(cell.is_some())
}

/// The first column that does not take its value.
fn first_untaken(
    alloc: Global,
    types: &[(Column, ColumnType)],
    values: &Assignments,
) -> Result<Option<u64>, AllocError>
    ensures { IfOk result (λ column. column ≡ first_untaken types.now values.now) }
{
    for (column, value) in values.as_slice() {
        if !is_taken(alloc, types, *column, value)? {
            return Ok(Some(*column));
        }
    }
    Ok(None)
}

/// Appends the line of a column that does not take its value, if there is one.
fn append_line(
    alloc: Global,
    text: &mut Vec<u8>,
    object: Uid,
    types: &[(Column, ColumnType)],
    column: Option<u64>,
) -> Result<(), AllocError>
    ensures { OnOk result (text.new.items
        ≡ text.old.items ++ untaken_line object types.now column) }
{
    if let Some(column) = column {
        let column = Column(column);
        let words = words_of(alloc, object, column, type_at(types, column))?;
        append_because(text, &words)?;
    }
    Ok(())
}

/// Appends which column does not take its value, by the types that Set takes.
fn append_untaken_by(
    alloc: Global,
    text: &mut Vec<u8>,
    object: Uid,
    types: &[(Column, ColumnType)],
    values: &Assignments,
) -> Result<(), AllocError>
    ensures { OnOk result (text.new.items
        ≡ text.old.items ++ untaken_by object types.now values.now) }
{
    let column = first_untaken(alloc, types, values)?;
    append_line(alloc, text, object, types, column)?;
    Ok(())
}

/// Appends which column does not take its value, of a Set of columns in a session of an SP.
fn append_values(
    alloc: Global,
    text: &mut Vec<u8>,
    profile: Profile,
    sp: Sp,
    object: Uid,
    ask: Option<&Ask>,
) -> Result<(), AllocError>
    ensures { OnOk result (text.new.items
        ≡ text.old.items ++ values_text profile sp object (option_map (λ a. a.now) ask.entry)) }
{
    match ask {
        Some(Ask::SetCells(values)) => {
            let types = set_types(profile, kind_of(sp, object));
            append_untaken_by(alloc, text, object, types, values)
        }
        _ => Ok(()),
    }
}

/// The same of a call.
fn append_set_values(
    alloc: Global,
    text: &mut Vec<u8>,
    profile: Profile,
    sp: Sp,
    call: Option<&Call>,
) -> Result<(), AllocError>
    ensures { OnOk result (text.new.items ≡ text.old.items
        ++ set_text profile sp (option_map (λ c. call_seen c.now) call.entry)) }
{
    let Some(call) = call else {
        return Ok(());
    };
    let ask = ask_in(alloc, profile, sp, call)?;
    let object = uid_of(&call.object);
    append_values(alloc, text, profile, sp, object, ask.as_ref())
}

/// The SP on which the session of a number lives.
pub(crate) fn sp_of_session(sessions: &SessionChronicle, session: u64) -> Option<Sp>
    ensures { result ≡ sp_of_session (life_on sessions.now) session }
{
    if is_its_session(session, &sessions.on(Sp::Admin)) {
        Some(Sp::Admin)
    } else if is_its_session(session, &sessions.on(Sp::Locking)) {
        Some(Sp::Locking)
    } else {
        None
    }
}

/// Appends which column of a Set that was sent does not take its value.
pub(crate) fn append_untaken(
    alloc: Global,
    text: &mut Vec<u8>,
    profile: Profile,
    sessions: &SessionChronicle,
    payload: &[u8],
) -> Result<(), AllocError>
    ensures { OnOk result (text.new.items ≡ text.old.items
        ++ untaken_text profile (life_on sessions.now) payload.now) }
{
    let session = u64::from(session_named(payload));
    if let Some(sp) = sp_of_session(sessions, session) {
        let call = call_sent(alloc, payload)?;
        append_set_values(alloc, text, profile, sp, call.as_ref())?;
    }
    Ok(())
}
