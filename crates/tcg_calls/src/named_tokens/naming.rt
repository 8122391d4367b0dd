//! The text of what bytes spell, with names or with numbers.

ghost use Rattle.std.specs.Prelude.{◌≡◌, IfOk, string_bytes};
ghost use Rattle.tcg_tokens.specs.Message.{message};
ghost use Rattle.tcg_calls.specs.TokenTexts.{naming_of, text_as, token_text};

use crate::named_tokens::text::named_item_text;
use std::alloc::{AllocError, Global};
use tcg_tokens::{Item, TokenError, fault_text, item_text, read_item};

/// How objects, methods and columns are told.
#[derive(Clone, Copy, Debug, PartialEq, Eq)]
pub enum Naming {
    /// By their numbers.
    Numbers,
    /// By their names, where they have one.
    Names,
}

impl Naming {
    /// Names, or numbers.
    pub fn by_name(by_name: bool) -> Naming
        ensures { result ≡ naming_of by_name }
    {
        if by_name {
            Naming::Names
        } else {
            Naming::Numbers
        }
    }

    /// The text of an item.
    fn item_text(self, alloc: Global, item: &Item) -> Result<String, AllocError>
        ensures { IfOk result (λ text. string_bytes text ≡ text_as self (message item.now)) }
    {
        match self {
            Naming::Numbers => item_text(alloc, item),
            Naming::Names => named_item_text(alloc, item),
        }
    }
}

/// The text of the item that bytes spell, or of what is wrong with them, `malformed N NAME`.
///
/// # Errors
///
/// An allocation was refused.
pub fn token_text(alloc: Global, naming: Naming, bytes: &[u8]) -> Result<String, AllocError>
    ensures { IfOk result (λ text. string_bytes text ≡ token_text naming bytes.now) }
{
    match read_item(alloc, bytes) {
        Ok(item) => naming.item_text(alloc, &item),
        Err(TokenError::OutOfMemory) => Err(AllocError),
        Err(fault) => fault_text(alloc, fault),
    }
}
