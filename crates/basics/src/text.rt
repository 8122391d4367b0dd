//! Numbers and bytes as text.

ghost use Rattle.std.specs.Prelude.{◌≡◌, ◌<◌, ◌++◌, ◌*◌, OnOk, decimal, length, slice_index};
ghost use Rattle.hex.specs.Hex.{encode_lower, lower_digits};

use std::alloc::{AllocError, Global};

/// Appends a number in decimal.
///
/// # Errors
///
/// An allocation was refused.
pub fn append_decimal(alloc: Global, text: &mut Vec<u8>, number: u64) -> Result<(), AllocError>
    ensures { OnOk result (text.new.items ≡ text.old.items ++ decimal number) }
{
    let digits = number.to_string(alloc)?;
    text.extend_from_slice(digits.as_bytes())?;
    Ok(())
}

/// Appends bytes in hex, two digits in lower case for each.
///
/// # Errors
///
/// An allocation was refused.
pub fn append_hex(text: &mut Vec<u8>, bytes: &[u8]) -> Result<(), AllocError>
    ensures { OnOk result (text.new.items ≡ text.old.items ++ encode_lower bytes.now) }
{
    let start = text.len();
    let digits = bytes.len().checked_mul(2).ok_or(AllocError)?;
    let end = start.checked_add(digits).ok_or(AllocError)?;
    text.resize(end, 0)?;
    spell_hex(bytes, &mut text[start..]);
    Ok(())
}

/// Writes the hex digits of bytes to their room. LLVM does many at once.
pub fn spell_hex(bytes: &[u8], room: &mut [u8])
    requires { length room.old ≡ 2 * length bytes.now }
    ensures { room.new ≡ encode_lower bytes.now }
{
    for i in 0..bytes.len() {
        let byte = bytes[i];
        room[2 * i] = digit(byte / 16);
        room[2 * i + 1] = digit(byte % 16);
    }
}

/// The hex digit of a number below 16.
#[inline(always)]
#[tactic(auto, using(crate::proofs::HexDigits::letter, crate::proofs::HexDigits::numeral))]
fn digit(n: u8) -> u8
    requires { n < 16 }
    ensures { result ≡ slice_index lower_digits n }
{
    if n > 9 { n + (b'a' - 10) } else { n + b'0' }
}
