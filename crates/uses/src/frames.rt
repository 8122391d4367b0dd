//! A caller of `compacket`, and of `tcg_tokens` before it.

ghost use Rattle.std.specs.Prelude.{◌≡◌, ◌++◌, List, ℕ, IfOk, IfSome, IsTrue};
ghost use Rattle.compacket.specs.Frames.{IsFrame};
ghost use Rattle.tcg_tokens.specs.Grammar.{IsFill};
ghost use Rattle.tcg_tokens.specs.Message.{message};
ghost use Rattle.tcg_tokens.specs.Reading.{reading};
ghost use Rattle.tcg_tokens.specs.Writable.{is_writable};

use compacket::{ComId, MAX_PAYLOAD, Session, frame};
use std::alloc::{AllocError, Global};
use tcg_tokens::{Item, write_item};

/// The ComPacket that carries an item in a session: what it carries is read as this item, whatever stands behind it.
/// None where the item is too long for a ComPacket.
pub fn framed(
    alloc: Global,
    com_id: ComId,
    session: Session,
    item: &Item,
) -> Result<Option<Vec<u8>>, AllocError>
    requires { IsTrue (is_writable (message item.now)) }
    ensures { IfOk result (λ framed. IfSome framed (λ bytes. (payload : List ℕ)
        × ((fill : List ℕ) → IsFill fill → reading (payload ++ fill) ≡ Ok (message item.now))
        × ((rest : List ℕ) → IsFrame (bytes.items ++ rest)
        (record { com_id = com_id; session = session; payload = payload })))) }
{
    let tokens = write_item(alloc, item)?;
    if tokens.is_empty() || tokens.len() > MAX_PAYLOAD {
        return Ok(None);
    }
    let bytes = frame(alloc, com_id, session, &tokens)?;
    Ok(Some(bytes))
}
