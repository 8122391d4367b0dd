//! A caller of `tcg_tokens`.

ghost use Rattle.std.specs.Prelude.{◌≡◌, IfOk};
ghost use Rattle.tcg_tokens.specs.Grammar.{Spells};
ghost use Rattle.tcg_tokens.specs.Message.{Message};
ghost use Rattle.uses.specs.Status.{status_in};

use std::alloc::Global;
use tcg_tokens::{Item, TokenError, read_item};

/// The status of a method's response: 0 where the method succeeded (TCG Core 2.01, 5.1.5). None where the bytes
/// are another item.
pub fn status_of(alloc: Global, bytes: &[u8]) -> Result<Option<u64>, TokenError>
    ensures { IfOk result (λ status. (m : Message) × Spells bytes.now m × (status ≡ status_in m)) }
{
    let item = read_item(alloc, bytes)?;
    match &item {
        Item::Reply { status, .. } => Ok(Some(status[0])),
        _ => Ok(None),
    }
}
