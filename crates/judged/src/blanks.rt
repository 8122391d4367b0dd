//! Sectors that nothing has written: what is read of them stands whatever bytes the writes before wrote. And random bytes, which
//! are others by another seed.

ghost use Rattle.std.specs.Prelude.{◌≡◌, ◌++◌, map, take, OnOk, IfOk};
ghost use Rattle.script_lines.specs.Words.{after_words};
ghost use Rattle.judged.specs.Blanks.{other_digit, byte_place, with_other_digits, other_line, expects, other_text, first_answer, is_digit, is_blank_digit, may_be, differs_in_blanks, differs_by_blanks, other_seed, other_config, is_random_digit, may_be_random, differs_in_random, differs_by_random};

use crate::entry::Entry;
use crate::received::DATA_PLACE;
use crate::text::Text;
use basics::Bytes;
use script_lines::Words;
use std::alloc::{AllocError, Global};
use tool::Options;

/// A hex digit for another one, of which no bit is the same; any other byte stays.
fn other_digit(byte: u8) -> u8
    ensures { result ≡ other_digit byte }
{
    if b'0' <= byte && byte <= b'5' {
        150 - byte
    } else if b'6' <= byte && byte <= b'9' {
        111 - byte
    } else if b'a' <= byte && byte <= b'f' {
        150 - byte
    } else if b'A' <= byte && byte <= b'F' {
        118 - byte
    } else {
        byte
    }
}

/// Which word of a line, from 0, says the byte that it writes, where it writes one.
fn byte_place(line: &[u8]) -> Option<usize>
    ensures { result ≡ byte_place line.now }
{
    let mut words = Words::new(line);
    let verb = words.next_word();
    words.next_word();
    words.next_word();
    let asked = words.next_word();
    if verb == b"dwrite".as_slice() {
        Some(4)
    } else if verb == b"write".as_slice() {
        Some(5)
    } else if verb == b"put".as_slice()
        && (asked == b"write".as_slice() || asked == b"dwrite".as_slice())
    {
        Some(6)
    } else {
        None
    }
}

/// What stands behind so many words.
#[tactic(auto, using(crate::proofs::BehindWords::one_more))]
pub(crate) fn behind_words(line: &[u8], count: usize) -> &[u8]
    ensures { result.now ≡ after_words count line.now }
{
    let mut words = Words::new(line);
    for _word in 0..count {
        words.next_word();
    }
    words.rest
}

/// The first bytes of a line, as far as there are so many.
pub(crate) fn front(line: &[u8], size: usize) -> &[u8]
    ensures { result.now ≡ take size line.now }
{
    &line[..size.min(line.len())]
}

/// Appends bytes, with other digits.
fn append_other_digits(text: &mut Text, bytes: &[u8]) -> Result<(), AllocError>
    ensures { OnOk result (text.new ≡ text.old ++ map other_digit bytes.now) }
{
    for byte in bytes {
        text.append(&[other_digit(*byte)])?;
    }
    Ok(())
}

/// Appends a line that writes another byte, where it writes one.
pub(crate) fn append_other_line(text: &mut Text, line: &[u8]) -> Result<(), AllocError>
    ensures { OnOk result (text.new ≡ text.old ++ other_line line.now) }
{
    let Some(words) = byte_place(line) else {
        return text.append(line);
    };
    let rest = behind_words(line, words);
    text.append(front(line, line.len().saturating_sub(rest.len())))?;
    append_other_digits(text, rest)
}

/// Whether a line looks at what was printed.
fn expects(line: &[u8]) -> bool
    ensures { result ≡ expects line.now }
{
    Words::new(line).next_word() == b"expect".as_slice()
}

/// Appends what stands for a line in a script in which every line writes another byte.
pub(crate) fn append_other_text(text: &mut Text, entry: &Entry) -> Result<(), AllocError>
    ensures { OnOk result (text.new ≡ text.old ++ other_text entry.now) }
{
    let line = entry.line.as_slice();
    if entry.number == 0 {
        return entry.append_remarks(text);
    }
    if expects(line) {
        return Ok(());
    }
    append_other_line(text, line)?;
    text.append(b"\r\n")
}

/// The first of some lines, or an empty one.
pub(crate) fn first_answer(lines: &[Bytes]) -> &[u8]
    ensures { result.now ≡ first_answer lines.now }
{
    match lines {
        [] => &[],
        [first, ..] => first.as_slice(),
    }
}

/// Whether a byte is a hex digit, as it is printed.
pub(crate) fn is_digit(byte: u8) -> bool
    ensures { result ≡ is_digit byte }
{
    (b'0' <= byte && byte <= b'9') || (b'a' <= byte && byte <= b'f')
}

/// Whether a digit stands for one that is zero, also where other bytes were written.
fn is_blank_digit(heard: u8, wanted: u8, other: u8) -> bool
    ensures { result ≡ is_blank_digit heard wanted other }
{
    is_digit(heard) && wanted == b'0' && other == b'0'
}

/// Whether a byte may stand where another is wanted.
fn may_be(heard: u8, wanted: u8, other: u8) -> bool
    ensures { result ≡ may_be heard wanted other }
{
    heard == wanted || is_blank_digit(heard, wanted, other)
}

/// Whether two lines differ in such digits alone.
fn differs_in_blanks(heard: &[u8], wanted: &[u8], other: &[u8]) -> bool
    ensures { result ≡ differs_in_blanks heard.now wanted.now other.now }
{
    let size = heard.len();
    if wanted.len() != size {
        return false;
    }
    if other.len() != size {
        return false;
    }
    for i in 0..size {
        if !may_be(heard[i], wanted[i], other[i]) {
            return false;
        }
    }
    true
}

/// Whether the answer to a read that was served differs from the model's in such digits alone, where the model answers
/// `other` if every write before writes another byte.
pub(crate) fn differs_by_blanks(heard: &[u8], wanted: &[u8], other: &[u8]) -> bool
    ensures { result ≡ differs_by_blanks heard.now wanted.now other.now }
{
    front(wanted, 3) == b"ok ".as_slice() && differs_in_blanks(heard, wanted, other)
}

/// What a seed has more by which both digits of each random byte are others.
const SEED_ADDED: u64 = 0x88 << 56;

/// How many bytes the headers of a response have, in front of its tokens (TCG Core 2.01, section 3.2.3).
const HEADERS_SIZE: usize = 56;

/// Another seed, by which all random bytes are others.
fn other_seed(seed: u64) -> u64
    ensures { result ≡ other_seed seed }
{
    seed.wrapping_add(SEED_ADDED)
}

/// The same drive, whose random bytes are others.
pub(crate) fn other_options(options: &Options) -> Options
    ensures { result ≡ other_config options.now }
{
    options.with_seed(other_seed(options.config().seed()))
}

/// Whether a digit of tokens, at its place of a line `data HEX`, stands for one that is another where random bytes are others.
fn is_random_digit(place: usize, heard: u8, wanted: u8, other: u8) -> bool
    ensures { result ≡ is_random_digit place heard wanted other }
{
    DATA_PLACE + 2 * HEADERS_SIZE <= place && is_digit(heard) && wanted != other
}

/// Whether a byte may stand at a place where another is wanted.
fn may_be_random(place: usize, heard: u8, wanted: u8, other: u8) -> bool
    ensures { result ≡ may_be_random place heard wanted other }
{
    heard == wanted || is_random_digit(place, heard, wanted, other)
}

/// Whether two lines differ in such digits alone.
fn differs_in_random(heard: &[u8], wanted: &[u8], other: &[u8]) -> bool
    ensures { result ≡ differs_in_random 0 heard.now wanted.now other.now }
{
    let size = heard.len();
    if wanted.len() != size {
        return false;
    }
    if other.len() != size {
        return false;
    }
    for i in 0..size {
        if !may_be_random(i, heard[i], wanted[i], other[i]) {
            return false;
        }
    }
    true
}

/// Whether a response differs from the model's in such digits alone, where the model answers `other` if random bytes are
/// others.
pub(crate) fn differs_by_random(heard: &[u8], wanted: &[u8], other: &[u8]) -> bool
    ensures { result ≡ differs_by_random heard.now wanted.now other.now }
{
    front(wanted, DATA_PLACE) == b"data ".as_slice() && differs_in_random(heard, wanted, other)
}
