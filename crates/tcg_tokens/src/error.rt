//! Why bytes are no item.

ghost use Rattle.std.specs.Prelude.{◌≡◌};
ghost use Rattle.tcg_tokens.specs.declared.error.TokenError.TheVariants.{OutOfMemory};
ghost use Rattle.tcg_tokens.specs.Fault.{code_of_fault, name_of_fault};

use std::alloc::{AllocError, AllocFailed};
use thiserror::Error;

/// What is wrong with the bytes, or that memory ran out.
///
/// The leftmost token that earns a fault decides. Within a token the order is Reserved, Signed,
/// Continued, Truncated, TooBig, Unbalanced, Deep.
#[derive(Clone, Copy, Debug, PartialEq, Eq, Error)]
pub enum TokenError {
    /// The bytes end inside a token, or before their item does.
    #[error("the bytes end before the item does")]
    Truncated,
    /// A byte that begins no token: E4 to EF, F4 to F7, FD, FE.
    #[error("a byte that begins no token")]
    Reserved,
    /// A signed atom, 40 to 7F among them.
    #[error("a signed number")]
    Signed,
    /// An atom of bytes that another one continues.
    #[error("bytes that go on in another atom")]
    Continued,
    /// A number past 64 bits.
    #[error("a number past 64 bits")]
    TooBig,
    /// A token that can't stand where it does.
    #[error("a token that cannot stand where it does")]
    Unbalanced,
    /// A byte other than FF behind the item.
    #[error("a byte behind the item")]
    Extra,
    /// A list or a named value nested deeper than the limit.
    #[error("lists and named values nested too deep")]
    Deep,
    /// An allocation was refused.
    #[error("out of memory")]
    OutOfMemory,
}

impl TokenError {
    /// The fault's number, from 1, in the order of the variants.
    pub fn code(self) -> u8
        ensures { result ≡ code_of_fault self }
    {
        match self {
            TokenError::Truncated => 1,
            TokenError::Reserved => 2,
            TokenError::Signed => 3,
            TokenError::Continued => 4,
            TokenError::TooBig => 5,
            TokenError::Unbalanced => 6,
            TokenError::Extra => 7,
            TokenError::Deep => 8,
            TokenError::OutOfMemory => 9,
        }
    }

    /// The name of the variant.
    pub fn name(self) -> &'static str
        ensures { result.now ≡ name_of_fault self }
    {
        match self {
            TokenError::Truncated => "Truncated",
            TokenError::Reserved => "Reserved",
            TokenError::Signed => "Signed",
            TokenError::Continued => "Continued",
            TokenError::TooBig => "TooBig",
            TokenError::Unbalanced => "Unbalanced",
            TokenError::Extra => "Extra",
            TokenError::Deep => "Deep",
            TokenError::OutOfMemory => "OutOfMemory",
        }
    }
}

impl From<AllocError> for TokenError {
    ghost from_gives = { λ _ e. e ≡ OutOfMemory };

    fn from(_e: AllocError) -> TokenError {
        TokenError::OutOfMemory
    }
}

impl<T: Drop> From<AllocFailed<T>> for TokenError {
    ghost from_gives = { λ _ e. e ≡ OutOfMemory };

    fn from(_e: AllocFailed<T>) -> TokenError {
        TokenError::OutOfMemory
    }
}
