//! Remarks of a script, which do nothing.

ghost use Rattle.std.specs.Prelude.{◌≡◌};
ghost use Rattle.tool.specs.Laws.{LineNumberLaw, OtherScriptLaw, RemarkLaw};
ghost use Rattle.tool.specs.Scripts.{is_skipped, may_hold_remarks};

use script_lines::is_remark;

/// Whether a script with this first line may hold remarks: whether the line begins with `#`.
pub fn may_hold_remarks(first: &[u8]) -> bool
    ensures { result ≡ may_hold_remarks first.now }
{
    match first {
        [] => false,
        [byte, ..] => *byte == b'#',
    }
}

/// Whether a line is a remark, where remarks may stand.
pub fn is_skipped(remarks: bool, line: &[u8]) -> bool
    ensures { result ≡ is_skipped remarks line.now }
{
    remarks && is_remark(line)
}

/// In a script whose first line begins with `#`, a remark does nothing; in any other each line does what it says. Where no
/// reasons are told, the numbers of lines make no difference.
#[tactic(auto, using(crate::proofs::SkippedLines::of_remarks, crate::proofs::LineNumbers::of_numbers))]
pub fn laws_of_remarks()
    ensures remarks { RemarkLaw }
    ensures others { OtherScriptLaw }
    ensures numbers { LineNumberLaw }
{}
