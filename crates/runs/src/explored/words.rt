//! What the lines of a script are, by their words.

ghost use Rattle.std.specs.Prelude.{◌≡◌};
ghost use Rattle.runs.specs.Alphabets.{is_letters_mark, is_range_line, is_expect_line, is_letter, opens};

use script_lines::{Words, is_port_line, is_remark};

/// Whether the letters stand behind this line.
pub(crate) fn is_letters_mark(line: &[u8]) -> bool
    ensures { result ≡ is_letters_mark line.now }
{
    line == b"# letters".as_slice()
}

/// Whether it sets a range.
fn is_range_line(line: &[u8]) -> bool
    ensures { result ≡ is_range_line line.now }
{
    Words::new(line).next_word() == b"range".as_slice()
}

/// Whether it tells what is expected.
fn is_expect_line(line: &[u8]) -> bool
    ensures { result ≡ is_expect_line line.now }
{
    Words::new(line).next_word() == b"expect".as_slice()
}

/// Whether it is of the opening of a script, where it has a mark or has none.
pub(crate) fn opens(marked: bool, line: &[u8]) -> bool
    ensures { result ≡ opens marked line.now }
{
    if marked {
        return !is_letters_mark(line);
    }
    is_remark(line) || is_port_line(line) || is_range_line(line)
}

/// Whether it can be a letter: neither a comment nor an expectation.
pub(crate) fn is_letter(line: &[u8]) -> bool
    ensures { result ≡ is_letter line.now }
{
    !(is_remark(line) || is_expect_line(line))
}
