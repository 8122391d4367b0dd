//! Lines that ask the host for its memory, and what the host answers.

ghost use Rattle.std.specs.Prelude.{◌≡◌, ◌++◌, OnOk, Ok, length};
ghost use Rattle.hex.specs.Hex.{decode_sized};
ghost use Rattle.hba_program.specs.MemoryLines.{read_question, write_question, answer_to_read, answer_to_write};
ghost use Rattle.hba_program.specs.declared.hba_lines.memory_line.Answer.TheVariants.{Given};

use crate::hba_lines::digits::append_number;
use basics::append_hex;
use std::alloc::{AllocError, Global};

/// What the host answers.
#[derive(Clone, Copy, Debug, PartialEq, Eq)]
pub enum Answer {
    /// It is done.
    Given,
    /// A byte of it is no memory.
    Refused,
    /// The line is no answer.
    Wrong,
}

/// Appends the line that asks for so many bytes at an address.
///
/// # Errors
///
/// Want of memory: then a part of the line may stand there.
pub fn append_read(alloc: Global, text: &mut Vec<u8>, at: u64, len: usize) -> Result<(), AllocError>
    ensures { OnOk result (text.new.items ≡ text.old.items ++ read_question at len) }
{
    text.extend_from_slice(b"m ")?;
    append_number(alloc, text, at)?;
    text.push(b' ')?;
    append_number(alloc, text, len as u64)?;
    text.push(b'\n')?;
    Ok(())
}

/// Appends the line that gives the host bytes for an address.
///
/// # Errors
///
/// Want of memory: then a part of the line may stand there.
pub fn append_write(
    alloc: Global,
    text: &mut Vec<u8>,
    at: u64,
    bytes: &[u8],
) -> Result<(), AllocError>
    ensures { OnOk result (text.new.items ≡ text.old.items ++ write_question at bytes.now) }
{
    text.extend_from_slice(b"p ")?;
    append_number(alloc, text, at)?;
    text.push(b' ')?;
    append_hex(text, bytes)?;
    text.push(b'\n')?;
    Ok(())
}

/// What a line answers that was asked for bytes, as many as there is room for. Where it gives them, they
/// fill the room; else what the room holds is not said.
pub fn read_answer(line: &[u8], room: &mut [u8]) -> Answer
    ensures answer { result ≡ answer_to_read line.now (length room.old) }
    ensures given { result ≡ Given → decode_sized line.now (length room.old) ≡ Ok room.new }
{
    if line == b"none".as_slice() {
        return Answer::Refused;
    }
    match hex::decode_to_slice(line, room) {
        Ok(()) => Answer::Given,
        Err(_) => Answer::Wrong,
    }
}

/// What a line answers that was given bytes.
pub fn write_answer(line: &[u8]) -> Answer
    ensures { result ≡ answer_to_write line.now }
{
    if line == b"ok".as_slice() {
        Answer::Given
    } else if line == b"none".as_slice() {
        Answer::Refused
    } else {
        Answer::Wrong
    }
}
