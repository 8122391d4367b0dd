//! Writing a whole text.

ghost use Rattle.std.specs.Prelude.{◌≡◌, OnOk, IfErr};
ghost use Rattle.std.specs.Io.KnownBytes.{Appends};
ghost use Rattle.tool.specs.declared.ending.RunError.{RunError};

use crate::ending::RunError;
use script_lines::write_whole;
use std::io::Write;

/// Writes a text, and has the writer pass it on.
///
/// # Errors
///
/// `Write`.
pub fn write_text<W: Write>(output: &mut W, text: &[u8]) -> Result<(), RunError>
    ensures written { OnOk result
        (Appends (W.contents output.old) (W.contents output.new) text.now) }
    ensures errors { IfErr result (λ error. error ≡ RunError.Write) }
{
    write_whole(output, text).map_err(|_| RunError::Write)
}
