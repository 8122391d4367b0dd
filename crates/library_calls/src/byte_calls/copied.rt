//! Bytes that a caller from outside is given.

ghost use Rattle.std.specs.Prelude.{◌≡◌, ℕ, List, IfOk};
ghost use Rattle.library_calls.specs.Copies.{IsCopied, IsWrittenOut, short_count};

use crate::byte_calls::count::Count;
use crate::byte_calls::error::CallError;
use std::alloc::AllocError;

/// Copies bytes into a buffer, and tells how many they are. Where they have no room, nothing is written.
pub fn copy_out(bytes: &[u8], into: &mut [u8]) -> Count
    ensures { IsCopied bytes.now into.old into.new result }
{
    let number = bytes.len();
    if number > into.len() {
        return short(number);
    }
    into[..number].copy_from_slice(bytes);
    Count::of(number)
}

/// [`copy_out`] of a text, if there was memory for it.
pub fn copy_text(text: Result<Vec<u8>, AllocError>, into: &mut [u8]) -> Count
    ensures { (bytes : List ℕ) → IfOk text (λ said. said.items ≡ bytes)
        → IsWrittenOut bytes into.old into.new result }
{
    match text {
        Ok(text) => copy_out(&text, into),
        Err(_) => Count::refused(CallError::OutOfMemory),
    }
}

/// A buffer is too short for so many bytes.
fn short(number: usize) -> Count
    ensures { result ≡ short_count number }
{
    Count {
        code: CallError::Room.code(),
        number,
    }
}
