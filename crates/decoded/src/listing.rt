//! Lists of like lines: words, logs, pages and quadwords.

ghost use Rattle.std.specs.Prelude.{◌≡◌, ◌≤◌, ◌<◌, ◌++◌, OnOk};
ghost use Rattle.decoded.specs.Listings.{word_octets, qword_octets, is_in_text, word_line, log_pages_line, supported_page_line, qword_line, listing_line, listing_lines};

use crate::field::{append_hex_line, append_prefixed_hex, byte_at, number};
use basics::append_decimal;
use std::alloc::{AllocError, Global};

/// What is listed.
#[derive(Clone, Copy)]
pub(crate) enum Listing {
    /// The words of IDENTIFY DEVICE that are not 0.
    Words,
    /// The logs that have pages.
    Logs,
    /// The pages that a list of pages names.
    Pages,
    /// The quadwords of a page that are not 0.
    Qwords,
}

/// The bytes of a word, the highest first.
fn word_octets(bytes: &[u8], n: u16) -> [u8; 2]
    ensures { result ≡ word_octets bytes.now n }
{
    let at = 2 * usize::from(n);
    [byte_at(bytes, at + 1), byte_at(bytes, at)]
}

/// The bytes of a quadword, the highest first.
fn qword_octets(bytes: &[u8], n: u16) -> [u8; 8]
    ensures { result ≡ qword_octets bytes.now n }
{
    let at = 8 * usize::from(n);
    [
        byte_at(bytes, at + 7),
        byte_at(bytes, at + 6),
        byte_at(bytes, at + 5),
        byte_at(bytes, at + 4),
        byte_at(bytes, at + 3),
        byte_at(bytes, at + 2),
        byte_at(bytes, at + 1),
        byte_at(bytes, at),
    ]
}

/// Whether a word has the characters of a name.
fn is_in_text(word: u16) -> bool
    ensures { result ≡ is_in_text word }
{
    matches!(word, 10..=19 | 23..=46)
}

/// Appends the line of a word that is not 0, and has no characters.
fn append_word(alloc: Global, text: &mut Vec<u8>, bytes: &[u8], n: u16) -> Result<(), AllocError>
    ensures { OnOk result (text.new.items ≡ text.old.items ++ word_line bytes.now n) }
{
    let octets = word_octets(bytes, n);
    if is_in_text(n) || number(&octets) == 0 {
        return Ok(());
    }
    text.extend_from_slice(b"Word ")?;
    append_decimal(alloc, text, u64::from(n))?;
    text.extend_from_slice(b" ")?;
    append_prefixed_hex(text, &octets)?;
    text.extend_from_slice(b"\n")?;
    Ok(())
}

/// Appends the line of a log that has pages.
fn append_log(alloc: Global, text: &mut Vec<u8>, bytes: &[u8], n: u16) -> Result<(), AllocError>
    requires { n < 256 }
    ensures { OnOk result (text.new.items ≡ text.old.items ++ log_pages_line bytes.now n) }
{
    let pages = number(&word_octets(bytes, n));
    if n == 0 || pages == 0 {
        return Ok(());
    }
    text.extend_from_slice(b"Log ")?;
    append_prefixed_hex(text, &[n as u8])?;
    text.extend_from_slice(b" ")?;
    append_decimal(alloc, text, pages)?;
    text.extend_from_slice(b"\n")?;
    Ok(())
}

/// Appends the line of a page that is there.
fn append_page(alloc: Global, text: &mut Vec<u8>, bytes: &[u8], n: u16) -> Result<(), AllocError>
    ensures { OnOk result (text.new.items ≡ text.old.items ++ supported_page_line bytes.now n) }
{
    let page = byte_at(bytes, 9 + usize::from(n));
    append_hex_line(alloc, text, "SupportedPage", &[page])?;
    Ok(())
}

/// Appends the line of a quadword that is not 0.
fn append_qword(alloc: Global, text: &mut Vec<u8>, bytes: &[u8], n: u16) -> Result<(), AllocError>
    ensures { OnOk result (text.new.items ≡ text.old.items ++ qword_line bytes.now n) }
{
    let octets = qword_octets(bytes, n);
    if n == 0 || number(&octets) == 0 {
        return Ok(());
    }
    text.extend_from_slice(b"Qword ")?;
    append_decimal(alloc, text, u64::from(n))?;
    text.extend_from_slice(b" ")?;
    append_prefixed_hex(text, &octets)?;
    text.extend_from_slice(b"\n")?;
    Ok(())
}

/// Appends a line of a list.
fn append_listed(
    alloc: Global,
    text: &mut Vec<u8>,
    listing: Listing,
    bytes: &[u8],
    n: u16,
) -> Result<(), AllocError>
    requires { n < 256 }
    ensures { OnOk result (text.new.items ≡ text.old.items ++ listing_line listing bytes.now n) }
{
    match listing {
        Listing::Words => append_word(alloc, text, bytes, n),
        Listing::Logs => append_log(alloc, text, bytes, n),
        Listing::Pages => append_page(alloc, text, bytes, n),
        Listing::Qwords => append_qword(alloc, text, bytes, n),
    }
}

/// Appends so many lines of a list, from number 0 on.
pub(crate) fn append_listing(
    alloc: Global,
    text: &mut Vec<u8>,
    listing: Listing,
    bytes: &[u8],
    count: u16,
) -> Result<(), AllocError>
    requires { count ≤ 256 }
    ensures { OnOk result (text.new.items ≡ text.old.items
        ++ listing_lines listing bytes.now count) }
{
    for n in 0..count {
        append_listed(alloc, text, listing, bytes, n)?;
    }
    Ok(())
}
