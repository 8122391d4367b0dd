//! Which version of the library this is.

ghost use Rattle.std.specs.Prelude.{◌≡◌};
ghost use Rattle.library_calls.specs.Copies.{IsCopied};
ghost use Rattle.opalport_c.specs.Version.{version_number, version_text};

use library_calls::byte_calls::{Count, copy_out};

/// The version of the library: major, minor and patch, a byte each, the first the most significant.
const VERSION: u32 = 0x0000_0200;

/// The same as a text. A build without proofs has ` unproved` behind it (packaging/unproved).
const VERSION_TEXT: [u8; 5] = *b"0.2.0";

/// The version of the library, as a number.
#[unsafe(no_mangle)]
pub extern "C" fn opal_raw_version() -> u32
    ensures { result ≡ version_number }
{
    VERSION
}

/// Copies the version of the library, as a text.
#[unsafe(no_mangle)]
pub extern "C" fn opal_raw_version_text(into: &mut [u8]) -> Count
    ensures { IsCopied version_text into.old into.new result }
{
    copy_out(&VERSION_TEXT, into)
}
