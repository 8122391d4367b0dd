//! Fields of structures in bytes, and the lines that tell them.

ghost use Rattle.std.specs.Prelude.{◌≡◌, ◌++◌, ◌==◌, if◌then◌else◌, bit_and, codes, OnOk, IfOk, MatchOption, Some, None, decimal, take, drop, slice_index};
ghost use Rattle.decoded.specs.Fields.{field_row, rows_of, octets_at, octets_number, prefixed_hex, printable, quoted, value_text, field_line, row_line, row_lines, reaches, cut_field};
ghost use Rattle.decoded.specs.Faults.{Checks, fields_fault, size_fault};

use crate::fault::DecodeFault;
use basics::{append_decimal, append_hex};
use byteorder::{BigEndian, ByteOrder};
use std::alloc::{AllocError, Global};

/// How the value of a field is told.
#[derive(Clone, Copy)]
pub(crate) enum Form {
    /// A number in decimal.
    Decimal,
    /// `0x` and hex.
    Hex,
    /// 1 where one of these bits is set, else 0.
    Flag(u64),
    /// These low bits, in decimal.
    Low(u64),
    /// The bits above the lowest four, in decimal.
    High,
    /// Characters between quotes.
    Text,
}

/// A field of a structure: its name, the places of its bytes with that of the highest one first, and how it is told.
#[derive(Clone, Copy)]
pub(crate) struct Field(pub &'static str, pub &'static [usize], pub Form);

/// A byte, or 0 where there is none.
pub(crate) fn byte_at(bytes: &[u8], place: usize) -> u8
    ensures { result ≡ slice_index bytes.now place }
{
    match bytes.get(place) {
        Some(byte) => *byte,
        None => 0,
    }
}

/// The bytes at these places.
fn octets_at(alloc: Global, places: &[usize], bytes: &[u8]) -> Result<Vec<u8>, AllocError>
    ensures { IfOk result (λ octets. octets.items ≡ octets_at places.now bytes.now) }
{
    places
        .iter()
        .map(|place| byte_at(bytes, *place))
        .collect(alloc)
}

/// The number that one to eight bytes write, the highest first.
pub(crate) fn number(octets: &[u8]) -> u64
    ensures { result ≡ octets_number octets.now }
{
    let size = octets.len();
    if 1 <= size && size <= 8 {
        BigEndian::read_uint(octets, size)
    } else {
        0
    }
}

/// A character of printable ASCII, or a question mark.
fn printable(octet: u8) -> u8
    ensures { result ≡ printable octet }
{
    match octet {
        32..=126 => octet,
        _ => b'?',
    }
}

/// Appends `0x` and bytes in hex.
pub(crate) fn append_prefixed_hex(text: &mut Vec<u8>, octets: &[u8]) -> Result<(), AllocError>
    ensures { OnOk result (text.new.items ≡ text.old.items ++ prefixed_hex octets.now) }
{
    text.extend_from_slice(b"0x")?;
    append_hex(text, octets)
}

/// Appends characters between quotes.
fn append_quoted(alloc: Global, text: &mut Vec<u8>, octets: &[u8]) -> Result<(), AllocError>
    ensures { OnOk result (text.new.items ≡ text.old.items ++ quoted octets.now) }
{
    let characters: Vec<u8> = octets.iter().map(|octet| printable(*octet)).collect(alloc)?;
    text.extend_from_slice(b"\"")?;
    text.extend_from_slice(&characters)?;
    text.extend_from_slice(b"\"")?;
    Ok(())
}

/// 1 where a bit of the mask is set, else 0.
fn flag_digit(number: u64, mask: u64) -> &'static str
    ensures { result.now ≡ (if bit_and number mask == 0 then codes "0" else codes "1") }
{
    if number & mask == 0 { "0" } else { "1" }
}

/// Appends the value of a field that has these bytes.
fn append_value(
    alloc: Global,
    text: &mut Vec<u8>,
    form: Form,
    octets: &[u8],
) -> Result<(), AllocError>
    ensures { OnOk result (text.new.items ≡ text.old.items ++ value_text form octets.now) }
{
    match form {
        Form::Decimal => append_decimal(alloc, text, number(octets))?,
        Form::Hex => append_prefixed_hex(text, octets)?,
        Form::Flag(mask) => text.extend_from_slice(flag_digit(number(octets), mask).as_bytes())?,
        Form::Low(mask) => append_decimal(alloc, text, number(octets) & mask)?,
        Form::High => append_decimal(alloc, text, number(octets) / 16)?,
        Form::Text => append_quoted(alloc, text, octets)?,
    }
    Ok(())
}

/// Appends a line of a name and a value.
pub(crate) fn append_line(text: &mut Vec<u8>, name: &str, value: &[u8]) -> Result<(), AllocError>
    ensures { OnOk result (text.new.items ≡ text.old.items ++ field_line name.now value.now) }
{
    text.extend_from_slice(name.as_bytes())?;
    text.extend_from_slice(b" ")?;
    text.extend_from_slice(value)?;
    text.extend_from_slice(b"\n")?;
    Ok(())
}

/// Appends a line of a name and bytes in hex.
pub(crate) fn append_hex_line(
    alloc: Global,
    text: &mut Vec<u8>,
    name: &str,
    octets: &[u8],
) -> Result<(), AllocError>
    ensures { OnOk result
        (text.new.items ≡ text.old.items ++ field_line name.now (prefixed_hex octets.now)) }
{
    let mut value = Vec::new(alloc);
    append_prefixed_hex(&mut value, octets)?;
    append_line(text, name, &value)?;
    Ok(())
}

/// Appends the line of a field.
fn append_row(
    alloc: Global,
    text: &mut Vec<u8>,
    field: &Field,
    bytes: &[u8],
) -> Result<(), AllocError>
    ensures { OnOk result (text.new.items ≡ text.old.items
        ++ row_line (field_row field.now) bytes.now) }
{
    let octets = octets_at(alloc, field.1, bytes)?;
    let mut value = Vec::new(alloc);
    append_value(alloc, &mut value, field.2, &octets)?;
    append_line(text, field.0, &value)?;
    Ok(())
}

/// Appends the lines of the fields of a structure.
pub(crate) fn append_rows(
    alloc: Global,
    text: &mut Vec<u8>,
    fields: &[Field],
    bytes: &[u8],
) -> Result<(), AllocError>
    ensures { OnOk result (text.new.items ≡ text.old.items
        ++ row_lines (rows_of fields.now) bytes.now) }
{
    for field in fields {
        append_row(alloc, text, field, bytes)?;
    }
    Ok(())
}

/// Whether one of the places lies behind so many bytes.
fn reaches(places: &[usize], size: usize) -> bool
    ensures { result ≡ reaches places.now size }
{
    for place in places {
        if *place >= size {
            return true;
        }
    }
    false
}

/// The first field that so many bytes cut off.
pub(crate) fn cut_field(fields: &[Field], size: usize) -> Option<&'static str>
    ensures { MatchOption result (cut_field (rows_of fields.now) size ≡ None)
        (λ name. cut_field (rows_of fields.now) size ≡ Some name.now) }
{
    for field in fields {
        if reaches(field.1, size) {
            return Some(field.0);
        }
    }
    None
}

/// Sees that no field of a structure is cut off.
pub(crate) fn check_fields(fields: &[Field], bytes: &[u8]) -> Result<(), DecodeFault>
    ensures { Checks (fields_fault (rows_of fields.now) bytes.now) result }
{
    match cut_field(fields, bytes.len()) {
        Some(name) => Err(DecodeFault::Cut(name)),
        None => Ok(()),
    }
}

/// Sees that there are so many bytes; else they end within a part.
pub(crate) fn check_size(size: usize, part: &'static str, bytes: &[u8]) -> Result<(), DecodeFault>
    ensures { Checks (size_fault size part.now bytes.now) result }
{
    if bytes.len() < size {
        Err(DecodeFault::Cut(part))
    } else {
        Ok(())
    }
}

/// The first bytes, so many where there are as many.
#[tactic(auto, using(std::proofs::lemmas::List::take_min))]
pub(crate) fn front(bytes: &[u8], size: usize) -> &[u8]
    ensures { result.now ≡ take size bytes.now }
{
    &bytes[..size.min(bytes.len())]
}

/// The bytes behind the first so many.
#[tactic(auto, using(std::proofs::lemmas::List::drop_min))]
pub(crate) fn behind(bytes: &[u8], size: usize) -> &[u8]
    ensures { result.now ≡ drop size bytes.now }
{
    &bytes[size.min(bytes.len())..]
}
