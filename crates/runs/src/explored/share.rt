//! One of the parts of a search.

ghost use Rattle.std.specs.Prelude.{◌≡◌, ◌≤◌, ◌+◌, ◌*◌, ◌/◌, length, IfSome};
ghost use Rattle.runs.specs.Shares.{IsShare, size_before, text_before_byte, text_behind_byte, share_written, edge};

use script_lines::number_up_to;

/// How many parts a search has at most.
const MOST_PARTS: u64 = 100_000;

/// One of so many parts of a search; the first has the number 1.
#[derive(Clone, Copy)]
pub struct Share {
    pub number: u32,
    pub count: u32,
}

/// How many bytes stand in front of the first that is this one; all, where none is.
pub(crate) fn size_before(byte: u8, text: &[u8]) -> usize
    ensures size { result ≡ size_before byte text.now }
    ensures within { result ≤ length text.now }
{
    for i in 0..text.len() {
        if text[i] == byte {
            return i;
        }
    }
    text.len()
}

/// The text in front of a byte, and what stands behind that byte.
pub(crate) fn split_at_byte(byte: u8, text: &[u8]) -> (&[u8], &[u8])
    ensures before { result.0.now ≡ text_before_byte byte text.now }
    ensures behind { result.1.now ≡ text_behind_byte byte text.now }
{
    let size = size_before(byte, text);
    (&text[..size], text.get(size + 1..).unwrap_or(&[]))
}

/// Where the lists of a part end, of so many lists.
pub(crate) fn edge(count: u32, size: usize, number: u32) -> usize
    requires some { 1 ≤ count }
    requires within { number ≤ count }
    ensures exact { result ≡ edge count size number }
    ensures within { result ≤ size }
{
    (u128::from(number) * size as u128 / u128::from(count)) as usize
}

/// The numbers of the parts of a search.
pub fn laws_of_shares()
    ensures { MOST_PARTS ≡ 100000 }
{}

impl Share {
    /// Reads `K/N`, where K is a number from 1 to N.
    pub fn parse(text: &[u8]) -> Option<Share>
        ensures exact { result ≡ share_written text.now }
        ensures fits { IfSome result (λ share. IsShare share) }
    {
        let (number, count) = split_at_byte(b'/', text);
        let number = number_up_to(MOST_PARTS, number)?;
        let count = number_up_to(MOST_PARTS, count)?;
        if 1 <= number && number <= count {
            return Some(Share {
                number: number as u32,
                count: count as u32,
            });
        }
        None
    }
}
