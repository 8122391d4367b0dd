//! Remarks: lines that say nothing, where a script may hold some.

ghost use Rattle.std.specs.Prelude.{◌≡◌};
ghost use Rattle.script_lines.specs.Remarks.{is_remark};

use crate::words::Words;

/// Whether a line is blank, or begins with `#`, behind blanks or not.
pub fn is_remark(text: &[u8]) -> bool
    ensures { result ≡ is_remark text.now }
{
    let mut words = Words::new(text);
    match words.next_word() {
        [] => true,
        [first, ..] => *first == b'#',
    }
}
