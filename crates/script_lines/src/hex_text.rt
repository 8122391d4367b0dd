//! Bytes that a line writes in hex text.

ghost use Rattle.std.specs.Prelude.{◌≡◌, ◌<◌, ◌*◌, ◌==◌, ◌∷◌, [], ℕ, Some, IfSome, Ok, IsOk, true, false, length};
ghost use Rattle.std.specs.List.{list_all};
ghost use Rattle.hex.specs.Hex.{decode_of, decode_sized, hex_digit_value, is_hex_digit, pair_value};
ghost use Rattle.script_lines.specs.Hexes.{is_hex_up_to};

use std::alloc::AllocError;
use std::marker::Model;

/// Bytes that stand as hex text in a line.
#[derive(Drop)]
pub struct Hex<'a> {
    digits: &'a [u8],
}

impl<'a> Model for Hex<'a> {
    ghost use Rattle.std.specs.Prelude.{List, ℕ, IsOk, []};
    ghost use Rattle.std.specs.Result.{result_unwrap_or};
    ghost use Rattle.hex.specs.Hex.{decode_of};

    ghost Value = { List ℕ };

    ghost view = { λ h. result_unwrap_or (decode_of h.digits.now) [] };

    ghost invariant = { λ h. IsOk (decode_of h.digits.now) };
}

impl<'a> Hex<'a> {
    ghost use Rattle.std.specs.Prelude.{◌≡◌, ◌≤◌, ◌*◌, ◌++◌, length, IfSome, OnOk, OnErr};
    ghost use Rattle.script_lines.specs.Hexes.{bytes_up_to};

    /// The bytes that a text of hex digits writes, where it writes at most so many.
    #[tactic(auto, using(crate::proofs::HexTexts::is_decoded, crate::proofs::HexTexts::is_value, crate::proofs::HexTexts::is_none, crate::proofs::HexTexts::value_length, crate::proofs::HexTexts::within))]
    pub(crate) fn up_to(most: usize, text: &'a [u8]) -> Option<Hex<'a>>
        ensures exact { result ≡ bytes_up_to most text.now }
        ensures most { IfSome result (λ bytes. length bytes ≤ most) }
        ensures half { IfSome result (λ bytes. 2 * length bytes ≡ length text.now) }
    {
        if is_hex_up_to(most, text) {
            Some(Hex { digits: text })
        } else {
            None
        }
    }

    /// How many bytes these are.
    #[tactic(auto, using(crate::proofs::HexTexts::value_length))]
    pub fn len(&self) -> usize
        ensures { result ≡ length self.now }
    {
        self.digits.len() / 2
    }

    /// Appends the bytes. Where memory is refused nothing is appended.
    ///
    /// # Errors
    ///
    /// Want of memory.
    pub fn decode_into(&self, bytes: &mut Vec<u8>) -> Result<(), AllocError>
        ensures appended { OnOk result (bytes.new.items ≡ bytes.old.items ++ self.now) }
        ensures kept { OnErr result (bytes.new.items ≡ bytes.old.items) }
    {
        let start = bytes.len();
        let end = start.checked_add(self.len()).ok_or(AllocError)?;
        bytes.resize(end, 0)?;
        self.fill(&mut bytes[start..]);
        Ok(())
    }

    /// Writes the bytes to their room.
    fn fill(&self, room: &mut [u8])
        requires { length room.old ≡ length self.now }
        ensures { room.new ≡ self.now }
    {
        decode(self.digits, room);
    }
}

/// The value of a hex digit, of either case.
#[inline(always)]
#[tactic(auto, using(crate::proofs::Digits::value_is, crate::proofs::Digits::is_small))]
fn value_of(digit: u8) -> u8
    requires { is_hex_digit digit ≡ true }
    ensures value { hex_digit_value digit ≡ Some result }
    ensures small { result < 16 }
{
    digit % 16 + 9 * (digit / 64)
}

/// The byte of two hex digits.
#[inline(always)]
fn byte_of(high: u8, low: u8) -> u8
    requires high { is_hex_digit high ≡ true }
    requires low { is_hex_digit low ≡ true }
    ensures { (at : ℕ) → pair_value high low at ≡ Ok result }
{
    value_of(high) * 16 + value_of(low)
}

/// The byte that a text of two hex digits writes.
#[inline(always)]
pub(crate) fn byte_in(text: &[u8]) -> Option<u8>
    ensures value { IfSome result (λ byte. decode_sized text.now 1 ≡ Ok (byte ∷ [])) }
    ensures some { IfSome result (λ byte. (length text.now == 0) ≡ false) }
{
    match text {
        [high, low] if high.is_ascii_hexdigit() && low.is_ascii_hexdigit() => {
            Some(byte_of(*high, *low))
        }
        _ => None,
    }
}

/// Writes the bytes of a text of digits to their room. LLVM does many at once.
fn decode(digits: &[u8], room: &mut [u8])
    requires digits { IsOk (decode_of digits.now) }
    requires room { 2 * length room.old ≡ length digits.now }
    ensures { decode_of digits.now ≡ Ok room.new }
{
    for i in 0..room.len() {
        room[i] = byte_of(digits[2 * i], digits[2 * i + 1]);
    }
}

/// Whether a text is digits alone, two for each of at most so many bytes.
fn is_hex_up_to(most: usize, text: &[u8]) -> bool
    ensures { result ≡ is_hex_up_to most text.now }
{
    text.len() % 2 == 0 && text.len() / 2 <= most && are_digits(text)
}

/// Whether all of a text are hex digits. It looks at all of them, so that it can look at many at once.
fn are_digits(text: &[u8]) -> bool
    ensures { result ≡ list_all is_hex_digit text.now }
{
    let mut are = true;
    for digit in text {
        are &= digit.is_ascii_hexdigit();
    }
    are
}
