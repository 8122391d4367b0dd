//! Names of what a sample shows.

ghost use Rattle.std.specs.Prelude.{◌≡◌, ◌++◌, IfOk, OnOk};
ghost use Rattle.pictures.specs.Names.{digits_of, numbered_name};

use basics::append_decimal;
use std::alloc::{AllocError, Global};

/// Appends a number in decimal, where there is one.
fn append_digits(alloc: Global, text: &mut Vec<u8>, number: Option<u8>) -> Result<(), AllocError>
    ensures { OnOk result (text.new.items ≡ text.old.items ++ digits_of number) }
{
    if let Some(number) = number {
        append_decimal(alloc, text, u64::from(number))?;
    }
    Ok(())
}

/// A word, and a number behind it where there are several of its kind.
pub(crate) fn numbered_name(
    alloc: Global,
    word: &[u8],
    number: Option<u8>,
) -> Result<Vec<u8>, AllocError>
    ensures { IfOk result (λ name. name.items ≡ numbered_name word.now number) }
{
    let mut name = Vec::new(alloc);
    name.extend_from_slice(word)?;
    append_digits(alloc, &mut name, number)?;
    Ok(name)
}
