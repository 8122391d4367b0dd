//! How a line ended, by what it printed.

ghost use Rattle.std.specs.Prelude.{◌≡◌};
ghost use Rattle.pictures.specs.Looks.{first_letter, ending_of, is_denial};

use drawing::Paint;

/// The first letter of what was printed; 0 where nothing was.
fn first_letter(last: &[u8]) -> u8
    ensures { result ≡ first_letter last.now }
{
    match last {
        [] => 0,
        [letter, ..] => *letter,
    }
}

/// How a line ended, by the last line that it printed: `ok` and `data` tell that it was done, `reset` and `refused` that it
/// was not, and `fail` and `audit` that it failed.
pub fn ending_of(last: &[u8]) -> Paint
    ensures { result ≡ ending_of last.now }
{
    match first_letter(last) {
        b'o' | b'd' => Paint::Done,
        b'r' => Paint::Stopped,
        _ => Paint::Failed,
    }
}

/// Whether it is the audit line of a denial.
pub(crate) fn is_denial(last: &[u8]) -> bool
    ensures { result ≡ is_denial last.now }
{
    first_letter(last) == b'a'
}
