//! Pieces of a value change dump.

ghost use Rattle.std.specs.Prelude.{◌≡◌, ◌++◌, OnOk, decimal};
ghost use Rattle.drawing.specs.Dumps.{wire_code, digit_of, binary, declared_wire, declaration, preamble, definitions_end, values_begin, values_end, scalar, vector, wire_value, changed_value, time_text};

use basics::append_decimal;
use std::alloc::{AllocError, Global};

/// Appends the code of the signal of a place.
fn append_code(text: &mut Vec<u8>, place: usize) -> Result<(), AllocError>
    ensures { OnOk result (text.new.items ≡ text.old.items ++ wire_code place) }
{
    let high = 33 + (place / 94 % 94) as u8;
    let low = 33 + (place % 94) as u8;
    text.extend_from_slice(&[high, low])?;
    Ok(())
}

/// A bit of a value, as a digit.
fn digit_of(value: u64, bit: u8) -> u8
    ensures { result ≡ digit_of value bit }
{
    if bit < 64 && value >> bit & 1 == 1 {
        b'1'
    } else {
        b'0'
    }
}

/// Appends the lowest so many bits of a value, the highest first.
fn append_binary(text: &mut Vec<u8>, bits: u8, value: u64) -> Result<(), AllocError>
    ensures { OnOk result (text.new.items ≡ text.old.items ++ binary bits value) }
{
    for passed in 0..bits {
        text.push(digit_of(value, bits - 1 - passed))?;
    }
    Ok(())
}

/// Appends the beginning of a declaration.
#[tactic(auto, unfolding(crate::specs::Dumps::declared_wire))]
fn append_wire(alloc: Global, text: &mut Vec<u8>, place: usize, bits: u8) -> Result<(), AllocError>
    ensures { OnOk result (text.new.items ≡ text.old.items ++ declared_wire place bits) }
{
    text.extend_from_slice(b"$var wire ")?;
    append_decimal(alloc, text, u64::from(bits))?;
    text.extend_from_slice(b" ")?;
    append_code(text, place)?;
    Ok(())
}

/// Appends the declaration of the signal of a place, with so many bits.
///
/// # Errors
///
/// An allocation was refused.
#[tactic(auto, unfolding(crate::specs::Dumps::declaration))]
pub fn append_declaration(
    alloc: Global,
    text: &mut Vec<u8>,
    place: usize,
    bits: u8,
    name: &[u8],
) -> Result<(), AllocError>
    ensures { OnOk result (text.new.items ≡ text.old.items ++ declaration place bits name.now) }
{
    append_wire(alloc, text, place, bits)?;
    text.extend_from_slice(b" ")?;
    text.extend_from_slice(name)?;
    text.extend_from_slice(b" $end\n")?;
    Ok(())
}

/// Appends what stands before the declarations.
///
/// # Errors
///
/// An allocation was refused.
#[tactic(auto, unfolding(crate::specs::Dumps::preamble))]
pub fn append_preamble(text: &mut Vec<u8>) -> Result<(), AllocError>
    ensures { OnOk result (text.new.items ≡ text.old.items ++ preamble) }
{
    text.extend_from_slice(b"$timescale 1 ns $end\n$scope module opalport $end\n")?;
    Ok(())
}

/// Appends what ends the declarations.
///
/// # Errors
///
/// An allocation was refused.
#[tactic(auto, unfolding(crate::specs::Dumps::definitions_end))]
pub fn append_definitions_end(text: &mut Vec<u8>) -> Result<(), AllocError>
    ensures { OnOk result (text.new.items ≡ text.old.items ++ definitions_end) }
{
    text.extend_from_slice(b"$upscope $end\n$enddefinitions $end\n")?;
    Ok(())
}

/// Appends what stands before the values at time 0.
///
/// # Errors
///
/// An allocation was refused.
#[tactic(auto, unfolding(crate::specs::Dumps::values_begin))]
pub fn append_values_begin(text: &mut Vec<u8>) -> Result<(), AllocError>
    ensures { OnOk result (text.new.items ≡ text.old.items ++ values_begin) }
{
    text.extend_from_slice(b"#0\n$dumpvars\n")?;
    Ok(())
}

/// Appends what stands behind the values at time 0.
///
/// # Errors
///
/// An allocation was refused.
#[tactic(auto, unfolding(crate::specs::Dumps::values_end))]
pub fn append_values_end(text: &mut Vec<u8>) -> Result<(), AllocError>
    ensures { OnOk result (text.new.items ≡ text.old.items ++ values_end) }
{
    text.extend_from_slice(b"$end\n")?;
    Ok(())
}

/// Appends the value of a signal of one bit.
#[tactic(auto, unfolding(crate::specs::Dumps::scalar))]
fn append_scalar(text: &mut Vec<u8>, place: usize, value: u64) -> Result<(), AllocError>
    ensures { OnOk result (text.new.items ≡ text.old.items ++ scalar place value) }
{
    append_binary(text, 1, value)?;
    append_code(text, place)?;
    text.push(b'\n')?;
    Ok(())
}

/// Appends the value of a signal of several bits.
#[tactic(auto, unfolding(crate::specs::Dumps::vector))]
fn append_vector(text: &mut Vec<u8>, place: usize, bits: u8, value: u64) -> Result<(), AllocError>
    ensures { OnOk result (text.new.items ≡ text.old.items ++ vector place bits value) }
{
    text.extend_from_slice(b"b")?;
    append_binary(text, bits, value)?;
    text.extend_from_slice(b" ")?;
    append_code(text, place)?;
    text.push(b'\n')?;
    Ok(())
}

/// Appends the value of a signal.
///
/// # Errors
///
/// An allocation was refused.
pub fn append_value(
    text: &mut Vec<u8>,
    place: usize,
    bits: u8,
    value: u64,
) -> Result<(), AllocError>
    ensures { OnOk result (text.new.items ≡ text.old.items ++ wire_value place bits value) }
{
    if bits == 1 {
        append_scalar(text, place, value)
    } else {
        append_vector(text, place, bits, value)
    }
}

/// Appends the value of a signal, where it is another than before.
///
/// # Errors
///
/// An allocation was refused.
pub fn append_changed(
    text: &mut Vec<u8>,
    place: usize,
    bits: u8,
    before: u64,
    value: u64,
) -> Result<(), AllocError>
    ensures { OnOk result (text.new.items
        ≡ text.old.items ++ changed_value place bits before value) }
{
    if before == value {
        return Ok(());
    }
    append_value(text, place, bits, value)
}

/// Appends a time.
///
/// # Errors
///
/// An allocation was refused.
#[tactic(auto, unfolding(crate::specs::Dumps::time_text))]
pub fn append_time(alloc: Global, text: &mut Vec<u8>, time: u64) -> Result<(), AllocError>
    ensures { OnOk result (text.new.items ≡ text.old.items ++ time_text time) }
{
    text.extend_from_slice(b"#")?;
    append_decimal(alloc, text, time)?;
    text.push(b'\n')?;
    Ok(())
}
