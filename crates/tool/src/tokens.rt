//! One item of a token stream, told as text.

ghost use Rattle.std.specs.Prelude.{◌≡◌, ◌++◌, ◌∷◌, [], ℕ, List, ◌⊎◌, IfOk, IfErr, Ok, Err};
ghost use Rattle.std.specs.Io.KnownBytes.{Appends};
ghost use Rattle.hex.specs.Hex.{decode_of};
ghost use Rattle.hex.specs.declared.error.FromHexError.{FromHexError};
ghost use Rattle.tcg_calls.specs.TokenTexts.{token_text};
ghost use Rattle.tool.specs.declared.ending.RunError.{RunError};

use crate::ending::RunError;
use crate::writing::write_text;
use hex::FromHexError;
use std::alloc::Global;
use std::io;
use std::io::Write;
use tcg_calls::named_tokens::{Naming, token_text};

/// Prints the item that hex digits spell, or `malformed N NAME`, with status 0. Where the digits are no
/// hex nothing is printed, it is told to `faults` why, and the status is 2.
pub fn run_tokens_with_faults<W: Write, E: Write>(
    alloc: Global,
    hex: &str,
    naming: Naming,
    output: &mut W,
    faults: &mut E,
) -> Result<u8, RunError>
    ensures printed { (bytes : List ℕ) → decode_of hex.now ≡ Ok bytes
        → IfOk result (λ status. (status ≡ 0)
        × Appends (W.contents output.old) (W.contents output.new)
        (token_text naming bytes ++ 10 ∷ [])) }
    ensures memory { result ≡ Err RunError.Memory → W.contents output.new ≡ W.contents output.old }
    ensures errors { IfErr result (λ error. (error ≡ RunError.Memory) ⊎ (error ≡ RunError.Write)) }
    ensures no_hex { (e : FromHexError) → decode_of hex.now ≡ Err e
        → IfOk result (λ status. (status ≡ 2) × (W.contents output.new ≡ W.contents output.old)) }
{
    let bytes = match hex::decode(alloc, hex.as_bytes()) {
        Ok(bytes) => bytes,
        Err(FromHexError::OutOfMemory) => return Err(RunError::Memory),
        Err(fault) => {
            writeln!(faults, "error: HEX is not written in hex: {fault}").map_err(
                |_| RunError::Write,
            )?;
            return Ok(2);
        }
    };
    let mut line = token_text(alloc, naming, &bytes)?;
    line.push_str("\n")?;
    write_text(output, line.as_bytes())?;
    Ok(0)
}

/// Prints what hex digits spell, as `run_tokens_with_faults` does, and drops the text of the fault.
pub fn run_tokens<W: Write>(
    alloc: Global,
    hex: &str,
    naming: Naming,
    output: &mut W,
) -> Result<u8, RunError>
    ensures printed { (bytes : List ℕ) → decode_of hex.now ≡ Ok bytes
        → IfOk result (λ status. (status ≡ 0)
        × Appends (W.contents output.old) (W.contents output.new)
        (token_text naming bytes ++ 10 ∷ [])) }
    ensures memory { result ≡ Err RunError.Memory → W.contents output.new ≡ W.contents output.old }
    ensures errors { IfErr result (λ error. (error ≡ RunError.Memory) ⊎ (error ≡ RunError.Write)) }
    ensures no_hex { (e : FromHexError) → decode_of hex.now ≡ Err e
        → IfOk result (λ status. (status ≡ 2) × (W.contents output.new ≡ W.contents output.old)) }
{
    run_tokens_with_faults(alloc, hex, naming, output, &mut io::sink())
}
