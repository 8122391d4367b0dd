//! Numbers and bytes in hex digits.

ghost use Rattle.std.specs.Prelude.{◌≡◌, ◌≤◌, ◌<◌, ◌^◌, ◌++◌, false, OnOk, IfSome};
ghost use Rattle.std.specs.Fmt.{digits};
ghost use Rattle.hba_program.specs.Digits.{hex_number, word_text};

use basics::append_hex;
use std::alloc::{AllocError, Global};

/// The number that hex digits of either case write, 1 to `most` of them.
pub fn hex_number(most: usize, text: &[u8]) -> Option<u64>
    requires { most ≤ 16 }
    ensures exact { result ≡ hex_number most text.now }
    ensures small { IfSome result (λ n. n < 16 ^ most) }
{
    if text.is_empty() || text.len() > most {
        return None;
    }
    let mut number: u64 = 0;
    for i in 0..text.len() {
        number = number * 16 + u64::from(char::from(text[i]).to_digit(16)?);
    }
    Some(number)
}

/// Appends a number in hex digits, without zeros in front.
pub(crate) fn append_number(
    alloc: Global,
    text: &mut Vec<u8>,
    number: u64,
) -> Result<(), AllocError>
    ensures { OnOk result (text.new.items ≡ text.old.items ++ digits 16 false number) }
{
    let digits = format!(in alloc; "{number:x}")?;
    text.extend_from_slice(digits.as_bytes())?;
    Ok(())
}

/// Appends a word in eight hex digits.
pub(crate) fn append_word(text: &mut Vec<u8>, word: u32) -> Result<(), AllocError>
    ensures { OnOk result (text.new.items ≡ text.old.items ++ word_text word) }
{
    append_hex(text, &word.to_be_bytes())
}
