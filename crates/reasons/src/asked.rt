//! What of a call a rule found at fault: the range that another one would meet, the rows of a byte table.

ghost use Rattle.std.specs.Prelude.{◌≡◌, ◌++◌, true, codes, option_map, IfOk, OnOk};
ghost use Rattle.reasons.specs.Reasons.{worded_number};
ghost use Rattle.tcg_calls.specs.Asks.{ask_of};
ghost use Rattle.tcg_tokens.specs.Tree.{tree};
ghost use Rattle.sp_cells.specs.ByteTables.{bytes_of_table};
ghost use Rattle.sp_cells.specs.Ranges.{meets};
ghost use Rattle.methods.specs.Effects.{last_row};
ghost use Rattle.methods.specs.Kinds.{kind_of, byte_table_of};
ghost use Rattle.sp_cells.specs.declared.names.Sp.TheVariants.{Locking};
ghost use Rattle.reasons.specs.Lives.{life_on};
ghost use Rattle.reasons.specs.Sent.{call_seen};
ghost use Rattle.reasons.specs.Asked.{seen_with, is_last, is_its_session, number_set, place_set, meets_place, met_from, met_by, met_text, overlap_text, beyond_text, rows_words, table_words, outside_text, unset_text, rows_wanted, bytes_ahead, response_bytes, host_text, is_long, long_text, cells_text, set_bytes_text, get_bytes_text, ask_text, called_text, asked_text};

use crate::explained::{Place, SessionChronicle, SpLife, append_number, append_place};
use crate::rulings::append_because;
use crate::sent::{call_sent, session_named};
use audit::rules::Rule;
use basics::Profile;
use methods::{Kind, kind_of};
use sp_cells::{ByteTable, Column, RANGES, Rows, SetError, Sp, Uid, number_of_range};
use std::alloc::{AllocError, Global};
use tcg_calls::call_shapes::{Ask, Assignments, number_in, read_ask, uid_of};
use tcg_tokens::{Call, Value};

/// How many bytes of tokens a response has beside the bytes that it brings and what stands before them.
const BESIDE: u64 = 8;

/// So many bytes have two bytes before them in a response (TCG Core 2.01, 3.2.2.3.1, medium atoms).
const LEAST_MEDIUM: u64 = 16;

/// So many have four (the same section, long atoms).
const LEAST_LONG: u64 = 2048;

/// So many bytes have no atom that takes them.
const LEAST_HUGE: u64 = 1 << 24;

/// Whether a number is that of the last session.
pub(crate) fn is_last(session: u64, last: Option<u64>) -> bool
    ensures { result ≡ is_last session last }
{
    match last {
        Some(last) => last == session,
        None => false,
    }
}

/// Whether a number is that of the session that lives on an SP.
pub(crate) fn is_its_session(session: u64, life: &SpLife) -> bool
    ensures { result ≡ is_its_session session life.now }
{
    life.busy.is_some() && is_last(session, life.last)
}

/// The number that a Set puts into a column, which had this one.
fn number_set(was: u64, value: Option<&Value>) -> u64
    ensures { result ≡ number_set was (option_map (λ v. tree v.now) value.entry) }
{
    match value {
        Some(value) => number_in(value).unwrap_or(was),
        None => was,
    }
}

/// Where a Set of these values would put a range.
fn place_set<R: Rows>(rows: &R, range: u8, values: &Assignments) -> Place
    ensures { result ≡ place_set (R.look_up rows.now) range values.now }
{
    let start = number_of_range(rows, range, Column::RANGE_START);
    let length = number_of_range(rows, range, Column::RANGE_LENGTH);
    Place {
        start: number_set(start, values.get(Column::RANGE_START.0)),
        length: number_set(length, values.get(Column::RANGE_LENGTH.0)),
    }
}

/// Whether two runs of sectors have one in common.
fn meets(start: u64, length: u64, other: Place) -> bool
    ensures { result ≡ meets start length other.start other.length }
{
    length > 0
        && other.length > 0
        && u128::from(start) < u128::from(other.start) + u128::from(other.length)
        && u128::from(other.start) < u128::from(start) + u128::from(length)
}

/// Whether another range has a sector of the place of a range.
fn meets_place<R: Rows>(rows: &R, range: u8, place: Place, other: u8) -> bool
    ensures { result ≡ meets_place (R.look_up rows.now) range place other }
{
    other != range && meets(place.start, place.length, Place::of_range(rows, other))
}

/// The first of the numbered ranges that has a sector of the place of a range.
#[tactic(auto, using(crate::proofs::asked::Mets::next), unfolding(crate::specs::Asked::met_from))]
fn met_by<R: Rows>(rows: &R, range: u8, place: Place) -> Option<u8>
    ensures { result ≡ met_by (R.look_up rows.now) range place }
{
    for other in 1..RANGES + 1 {
        if meets_place(rows, range, place, other) {
            return Some(other);
        }
    }
    None
}

/// Appends which range would be met.
fn append_met<R: Rows>(
    alloc: Global,
    text: &mut Vec<u8>,
    rows: &R,
    range: u8,
    place: Place,
    other: Option<u8>,
) -> Result<(), AllocError>
    ensures { OnOk result (text.new.items
        ≡ text.old.items ++ met_text (R.look_up rows.now) range place other) }
{
    if let Some(other) = other {
        let mut words = Vec::new(alloc);
        append_place(alloc, &mut words, range, place)?;
        words.extend_from_slice(b" would meet ")?;
        append_place(alloc, &mut words, other, Place::of_range(rows, other))?;
        append_because(text, &words)?;
    }
    Ok(())
}

/// Appends which range a Set of a range would meet.
fn append_overlap<R: Rows>(
    alloc: Global,
    text: &mut Vec<u8>,
    rows: &R,
    range: Option<u8>,
    values: &Assignments,
) -> Result<(), AllocError>
    ensures { OnOk result (text.new.items
        ≡ text.old.items ++ overlap_text (R.look_up rows.now) range values.now) }
{
    if let Some(range) = range {
        let place = place_set(rows, range, values);
        append_met(alloc, text, rows, range, place, met_by(rows, range, place))?;
    }
    Ok(())
}

/// Appends where a numbered range would lie, which would end behind the last sector.
fn append_beyond<R: Rows>(
    alloc: Global,
    text: &mut Vec<u8>,
    rows: &R,
    range: Option<u8>,
    values: &Assignments,
) -> Result<(), AllocError>
    ensures { OnOk result (text.new.items
        ≡ text.old.items ++ beyond_text (R.look_up rows.now) range values.now) }
{
    match range {
        Some(range) if range > 0 => {
            let mut words = Vec::new(alloc);
            append_place(alloc, &mut words, range, place_set(rows, range, values))?;
            words.extend_from_slice(b" would end behind the last sector")?;
            append_because(text, &words)?;
            Ok(())
        }
        _ => Ok(()),
    }
}

/// Appends rows, from the first to the last, or on from the first.
fn append_rows(
    alloc: Global,
    words: &mut Vec<u8>,
    first: u64,
    last: Option<u64>,
) -> Result<(), AllocError>
    ensures { OnOk result (words.new.items ≡ words.old.items ++ rows_words first last) }
{
    match last {
        Some(last) => {
            append_number(alloc, words, b"rows ", first)?;
            append_number(alloc, words, b" to ", last)?;
        }
        None => {
            append_number(alloc, words, b"rows from ", first)?;
            words.extend_from_slice(b" on")?;
        }
    }
    Ok(())
}

/// Appends how many rows a table has.
fn append_table(alloc: Global, words: &mut Vec<u8>, size: u64) -> Result<(), AllocError>
    ensures { OnOk result (words.new.items ≡ words.old.items ++ table_words size) }
{
    append_number(alloc, words, b", and the table has ", size)?;
    Ok(())
}

/// Appends which rows are asked for that are not all within the table.
fn append_outside(
    alloc: Global,
    text: &mut Vec<u8>,
    size: u64,
    first: u64,
    last: Option<u64>,
) -> Result<(), AllocError>
    ensures { OnOk result (text.new.items ≡ text.old.items ++ outside_text size first last) }
{
    let mut words = Vec::new(alloc);
    append_rows(alloc, &mut words, first, last)?;
    words.extend_from_slice(b" are asked for")?;
    append_table(alloc, &mut words, size)?;
    append_because(text, &words)?;
    Ok(())
}

/// Appends which rows are set that are not all within the table.
fn append_unset(
    alloc: Global,
    text: &mut Vec<u8>,
    size: u64,
    at: u64,
    count: u64,
) -> Result<(), AllocError>
    ensures { OnOk result (text.new.items ≡ text.old.items ++ unset_text size at count) }
{
    let mut words = Vec::new(alloc);
    append_number(alloc, &mut words, b"", count)?;
    append_number(alloc, &mut words, b" rows are set from row ", at)?;
    words.extend_from_slice(b" on")?;
    append_table(alloc, &mut words, size)?;
    append_because(text, &words)?;
    Ok(())
}

/// How many rows are asked for, within the table.
fn rows_wanted(size: u64, first: u64, last: u64) -> u64
    ensures { result ≡ rows_wanted size first last }
{
    if last < size {
        (last + 1).saturating_sub(first)
    } else {
        0
    }
}

/// The last row that is asked for; the last one of the table where none is named.
fn last_row(size: u64, last: Option<u64>) -> u64
    ensures { result ≡ last_row size last }
{
    match last {
        Some(last) => last,
        None => size.saturating_sub(1),
    }
}

/// How many bytes stand before so many bytes in a response.
fn bytes_ahead(count: u64) -> u64
    ensures { result ≡ bytes_ahead count }
{
    if count < LEAST_LONG { 2 } else { 4 }
}

/// Whether so many bytes have two bytes or four before them.
fn is_long(count: u64) -> bool
    ensures { result ≡ is_long count }
{
    LEAST_MEDIUM <= count && count < LEAST_HUGE
}

/// Appends how much the host of a response takes, on a drive that goes by that.
fn append_host(
    alloc: Global,
    words: &mut Vec<u8>,
    profile: Profile,
    room: u64,
) -> Result<(), AllocError>
    ensures { OnOk result (words.new.items ≡ words.old.items ++ host_text profile room) }
{
    match profile {
        Profile::Base | Profile::Field => Ok(()),
        Profile::Opal => append_number(alloc, words, b", and its host takes ", room),
    }
}

/// How long a response with so many bytes would be.
fn long_words(alloc: Global, profile: Profile, room: u64, count: u64) -> Result<Vec<u8>, AllocError>
    requires { is_long count ≡ true }
    ensures { IfOk result (λ words. words.items
        ≡ worded_number (codes "the response would have ") (response_bytes count)
        ++ codes " bytes of tokens" ++ host_text profile room) }
{
    let mut words = Vec::new(alloc);
    let bytes = count + (bytes_ahead(count) + BESIDE);
    append_number(alloc, &mut words, b"the response would have ", bytes)?;
    words.extend_from_slice(b" bytes of tokens")?;
    append_host(alloc, &mut words, profile, room)?;
    Ok(words)
}

/// Appends how long a response with so many bytes would be, and how much its host takes.
fn append_long(
    alloc: Global,
    text: &mut Vec<u8>,
    profile: Profile,
    room: u64,
    count: u64,
) -> Result<(), AllocError>
    ensures { OnOk result (text.new.items ≡ text.old.items ++ long_text profile room count) }
{
    if is_long(count) {
        let words = long_words(alloc, profile, room, count)?;
        append_because(text, &words)?;
    }
    Ok(())
}

/// Appends what a rule found at fault in a Set of columns.
fn append_cells<R: Rows>(
    alloc: Global,
    text: &mut Vec<u8>,
    rows: &R,
    room: u64,
    object: Uid,
    rule: Rule,
    values: &Assignments,
) -> Result<(), AllocError>
    ensures { OnOk result (text.new.items ≡ text.old.items
        ++ cells_text (seen_with (R.profile_of rows.now) (R.look_up rows.now)
        (R.sizes_of rows.now) room) object rule values.now) }
{
    match rule {
        Rule::NotSet(SetError::Overlap) => {
            append_overlap(alloc, text, rows, object.range_number(), values)
        }
        Rule::NotSet(SetError::Beyond) => {
            append_beyond(alloc, text, rows, object.range_number(), values)
        }
        _ => Ok(()),
    }
}

/// Appends what a rule found at fault in a Set of bytes of a table of this size.
fn append_set_bytes(
    alloc: Global,
    text: &mut Vec<u8>,
    size: u64,
    rule: Rule,
    at: u64,
    content: &[u8],
) -> Result<(), AllocError>
    ensures { OnOk result (text.new.items
        ≡ text.old.items ++ set_bytes_text size rule at content.now) }
{
    match rule {
        Rule::WrongValue => append_unset(alloc, text, size, at, content.len() as u64),
        _ => Ok(()),
    }
}

/// Appends what a rule found at fault in a Get of bytes of a table of this size.
fn append_get_bytes<R: Rows>(
    alloc: Global,
    text: &mut Vec<u8>,
    rows: &R,
    room: u64,
    size: u64,
    rule: Rule,
    first: u64,
    last: Option<u64>,
) -> Result<(), AllocError>
    ensures { OnOk result (text.new.items ≡ text.old.items
        ++ get_bytes_text (seen_with (R.profile_of rows.now) (R.look_up rows.now)
        (R.sizes_of rows.now) room) size rule first last) }
{
    match rule {
        Rule::OutsideTable => append_outside(alloc, text, size, first, last),
        Rule::TooLong => {
            let count = rows_wanted(size, first, last_row(size, last));
            append_long(alloc, text, rows.profile(), room, count)
        }
        _ => Ok(()),
    }
}

/// How many bytes the byte table has that an object is.
fn table_size<R: Rows>(rows: &R, object: Uid) -> u64
    ensures { result
        ≡ bytes_of_table (R.sizes_of rows.now) (byte_table_of (kind_of Locking object)) }
{
    let table = match kind_of(Sp::Locking, object) {
        Some(Kind::DataStore) => ByteTable::DataStore,
        _ => ByteTable::ShadowMbr,
    };
    rows.table_sizes().bytes_of(table)
}

/// Appends what a rule found at fault in what a call asks.
fn append_ask<R: Rows>(
    alloc: Global,
    text: &mut Vec<u8>,
    rows: &R,
    room: u64,
    object: Uid,
    rule: Rule,
    ask: Option<&Ask>,
) -> Result<(), AllocError>
    ensures { OnOk result (text.new.items ≡ text.old.items
        ++ ask_text (seen_with (R.profile_of rows.now) (R.look_up rows.now)
        (R.sizes_of rows.now) room) object rule (option_map (λ a. a.now) ask.entry)) }
{
    match ask {
        Some(Ask::SetCells(values)) => {
            append_cells(alloc, text, rows, room, object, rule, values)
        }
        Some(Ask::SetBytes { at, bytes }) => {
            let size = table_size(rows, object);
            append_set_bytes(alloc, text, size, rule, *at, bytes.as_slice())
        }
        Some(Ask::GetBytes { first, last }) => {
            let size = table_size(rows, object);
            append_get_bytes(alloc, text, rows, room, size, rule, *first, *last)
        }
        _ => Ok(()),
    }
}

/// What a call asks of an SP.
#[tactic(auto, using(crate::proofs::asked::Values::values_are))]
pub(crate) fn ask_in<'a>(
    alloc: Global,
    profile: Profile,
    sp: Sp,
    call: &'a Call,
) -> Result<Option<Ask<'a>>, AllocError>
    ensures { IfOk result (λ ask. ask ≡ ask_of profile sp (call_seen call.now).object
        (call_seen call.now).method (call_seen call.now).args) }
{
    let object = uid_of(&call.object);
    let method = uid_of(&call.method);
    let ask = read_ask(alloc, profile, sp, object, method, &call.args)?;
    Ok(ask)
}

/// Appends what a rule found at fault in a call of a session on the Locking SP.
fn append_called<R: Rows>(
    alloc: Global,
    text: &mut Vec<u8>,
    rows: &R,
    room: u64,
    rule: Rule,
    call: Option<&Call>,
) -> Result<(), AllocError>
    ensures { OnOk result (text.new.items ≡ text.old.items
        ++ called_text (seen_with (R.profile_of rows.now) (R.look_up rows.now)
        (R.sizes_of rows.now) room) rule (option_map (λ c. call_seen c.now) call.entry)) }
{
    let Some(call) = call else {
        return Ok(());
    };
    let ask = ask_in(alloc, rows.profile(), Sp::Locking, call)?;
    append_ask(
        alloc,
        text,
        rows,
        room,
        uid_of(&call.object),
        rule,
        ask.as_ref(),
    )
}

/// Appends what a rule found at fault in what was sent, where that is of the session on the Locking SP.
pub(crate) fn append_asked<R: Rows>(
    alloc: Global,
    text: &mut Vec<u8>,
    rows: &R,
    room: u64,
    sessions: &SessionChronicle,
    payload: &[u8],
    rule: Rule,
) -> Result<(), AllocError>
    ensures { OnOk result (text.new.items ≡ text.old.items
        ++ asked_text (seen_with (R.profile_of rows.now) (R.look_up rows.now)
        (R.sizes_of rows.now) room) (life_on sessions.now) payload.now rule) }
{
    let session = u64::from(session_named(payload));
    if is_its_session(session, &sessions.on(Sp::Locking)) {
        let call = call_sent(alloc, payload)?;
        append_called(alloc, text, rows, room, rule, call.as_ref())?;
    }
    Ok(())
}
