//! Bytes in hex, told as the lines of their fields.

ghost use Rattle.std.specs.Prelude.{◌≡◌, ◌≤◌, ◌⊎◌, IfOk, IfErr, IfSome, OnOk, Ok, Err};
ghost use Rattle.std.specs.Io.KnownBytes.{Appends};
ghost use Rattle.std.specs.IoError.{error_kind};
ghost use Rattle.std.specs.declared.io.ErrorKind.TheVariants.{OutOfMemory};
ghost use Rattle.hex.specs.Hex.{decode_of};
ghost use Rattle.hex.specs.declared.error.FromHexError.{FromHexError};
ghost use Rattle.decoded.specs.Decodings.{separates, without_separators, lines_of_hex, hex_given, TextEnds, DecodeEnds};
ghost use Rattle.decoded.specs.declared.run.DecodeError.{DecodeError};

use crate::kind::{Kind, check, kind_called, lines};
use hex::FromHexError;
use std::alloc::{AllocError, Global};
use std::io;
use std::io::{ErrorKind, Read, Write};
use thiserror::Error;

/// Why bytes could not be told to the end.
#[derive(Clone, Copy, Debug, PartialEq, Eq, Error)]
pub enum DecodeError {
    #[error("out of memory")]
    Memory,
    #[error("the input could not be read")]
    Read,
    #[error("the output could not be written")]
    Write,
}

impl From<AllocError> for DecodeError {
    ghost use Rattle.std.specs.Prelude.{◌≡◌};
    ghost use Rattle.decoded.specs.declared.run.DecodeError.TheVariants.{Memory};

    ghost from_gives = { λ _ error. error ≡ Memory };

    fn from(_error: AllocError) -> DecodeError {
        DecodeError::Memory
    }
}

/// The error of a call that reads: its kind decides.
fn reading_error(error: io::Error) -> DecodeError
    ensures either { (result ≡ DecodeError.Memory) ⊎ (result ≡ DecodeError.Read) }
    ensures memory { error_kind error ≡ OutOfMemory → result ≡ DecodeError.Memory }
    ensures read { (error_kind error ≡ OutOfMemory → ⊥) → result ≡ DecodeError.Read }
{
    match error.kind() {
        ErrorKind::OutOfMemory => DecodeError::Memory,
        _ => DecodeError::Read,
    }
}

/// Whether a byte is a blank, a tab or a part of a line's end.
fn separates(byte: u8) -> bool
    ensures { result ≡ separates byte }
{
    byte == b' ' || byte == b'\t' || byte == b'\n' || byte == b'\r'
}

/// The bytes that hex text writes, with blanks and lines in any place.
fn bytes_in(alloc: Global, text: &[u8]) -> Result<Vec<u8>, FromHexError>
    ensures ok { IfOk result (λ bytes. decode_of (without_separators text.now) ≡ Ok bytes.items) }
    ensures err { IfErr result (λ e. (e ≡ FromHexError.OutOfMemory)
        ⊎ (decode_of (without_separators text.now) ≡ Err e)) }
{
    let digits: Vec<u8> = text
        .iter()
        .copied()
        .filter(|byte| !separates(*byte))
        .collect(alloc)
        .map_err(|_| FromHexError::OutOfMemory)?;
    hex::decode(alloc, digits.as_slice())
}

/// Writes bytes, and has the writer pass them on.
fn write_whole<W: Write>(output: &mut W, bytes: &[u8]) -> Result<(), DecodeError>
    ensures written { OnOk result
        (Appends (W.contents output.old) (W.contents output.new) bytes.now) }
    ensures error { IfErr result (λ e. e ≡ DecodeError.Write) }
{
    output.write_all(bytes).map_err(|_| DecodeError::Write)?;
    output.flush().map_err(|_| DecodeError::Write)?;
    Ok(())
}

/// The text that is to be told: a word, or all of the input where the word is empty.
fn given<R: Read + Drop>(alloc: Global, hex: &str, input: R) -> Result<Vec<u8>, DecodeError>
    ensures { IfOk result (λ text. IfSome (hex_given hex.now (R.remaining input))
        (λ given. text.items ≡ given)) }
{
    let mut text = Vec::new(alloc);
    if hex.is_empty() {
        let mut input = input;
        input.read_to_end(&mut text).map_err(reading_error)?;
    } else {
        text.extend_from_slice(hex.as_bytes())?;
    }
    Ok(text)
}

/// Prints the lines of bytes that are written in hex, and gives the status.
fn print_lines<W: Write, E: Write>(
    alloc: Global,
    kind: Kind,
    text: &[u8],
    output: &mut W,
    faults: &mut E,
) -> Result<u8, DecodeError>
    ensures most { IfOk result (λ status. status ≤ 2) }
    ensures ends { IfOk result (λ status. TextEnds (lines_of_hex kind text.now) status
        (W.contents output.old) (W.contents output.new)) }
    ensures unwritten { IfErr result (λ e. (e ≡ DecodeError.Write)
        ⊎ (W.contents output.new ≡ W.contents output.old)) }
{
    let bytes = match bytes_in(alloc, text) {
        Ok(bytes) => bytes,
        Err(FromHexError::OutOfMemory) => return Err(DecodeError::Memory),
        Err(fault) => {
            writeln!(faults, "error: HEX is not written in hex: {fault}").map_err(
                |_| DecodeError::Write,
            )?;
            return Ok(2);
        }
    };
    match check(kind, &bytes) {
        Ok(()) => {
            let told = lines(alloc, kind, &bytes)?;
            write_whole(output, &told)?;
            Ok(0)
        }
        Err(fault) => {
            writeln!(faults, "error: {fault}").map_err(|_| DecodeError::Write)?;
            Ok(2)
        }
    }
}

/// Prints the lines of bytes of a kind that are written in hex, in a word, or in the input where the word is empty, with
/// status 0. Where no kind has the name, where the text is no hex, and where something is wrong with the bytes, nothing is
/// printed, it is told to `faults` why, and the status is 2.
///
/// # Errors
///
/// Want of memory; a call of the reader or of a writer that fails. Unless it was a writer, nothing is printed.
pub fn run_decode<R: Read + Drop, W: Write, E: Write>(
    alloc: Global,
    name: &str,
    hex: &str,
    input: R,
    output: &mut W,
    faults: &mut E,
) -> Result<u8, DecodeError>
    ensures most { IfOk result (λ status. status ≤ 2) }
    ensures ends { IfOk result (λ status. DecodeEnds name.now hex.now (R.remaining input) status
        (W.contents output.old) (W.contents output.new)) }
    ensures unwritten { IfErr result (λ e. (e ≡ DecodeError.Write)
        ⊎ (W.contents output.new ≡ W.contents output.old)) }
{
    match kind_called(name.as_bytes()) {
        Some(kind) => {
            let text = given(alloc, hex, input)?;
            print_lines(alloc, kind, &text, output, faults)
        }
        None => {
            writeln!(
                faults,
                "error: KIND is none of level0, compacket, fis, identify, log00, log10 and log30"
            )
            .map_err(|_| DecodeError::Write)?;
            Ok(2)
        }
    }
}
