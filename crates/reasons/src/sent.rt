//! What a payload carries.

ghost use Rattle.std.specs.Prelude.{◌≡◌, IfOk, option_map, map};
ghost use Rattle.compacket.specs.Frames.{reading as frame_in};
ghost use Rattle.sessions.specs.Starts.{sp_named as sp_of_name};
ghost use Rattle.tcg_tokens.specs.Reading.{reading as message_in};
ghost use Rattle.tcg_tokens.specs.Tree.{tree};
ghost use Rattle.reasons.specs.Sent.{call_seen, call_of_reading, call_sent, session_of_frame, sp_of_args};

use compacket::open;
use sp_cells::{Sp, Uid};
use std::alloc::{AllocError, Global};
use tcg_calls::call_shapes::uid_in;
use tcg_tokens::{Call, Item, TokenError, Value, read_item};

/// The call that tokens write, if they write one.
fn call_of_tokens(alloc: Global, tokens: &[u8]) -> Result<Option<Call>, AllocError>
    ensures { IfOk result
        (λ call. option_map call_seen call ≡ call_of_reading (message_in tokens.now)) }
{
    match read_item(alloc, tokens) {
        Ok(Item::Call(call)) => Ok(Some(call)),
        Ok(_) => Ok(None),
        Err(TokenError::OutOfMemory) => Err(AllocError),
        Err(_) => Ok(None),
    }
}

/// The call that a payload carries in a frame, if it carries one.
pub(crate) fn call_sent(alloc: Global, payload: &[u8]) -> Result<Option<Call>, AllocError>
    ensures { IfOk result (λ call. option_map call_seen call ≡ call_sent payload.now) }
{
    match open(payload) {
        Ok(frame) => call_of_tokens(alloc, frame.payload),
        Err(_) => Ok(None),
    }
}

/// The number of the session that the frame of a payload names; 0 where it is none.
pub fn session_named(payload: &[u8]) -> u32
    ensures { result ≡ session_of_frame (frame_in payload.now) }
{
    match open(payload) {
        Ok(frame) => frame.session.tsn,
        Err(_) => 0,
    }
}

/// The SP that a name names.
fn sp_named(uid: Uid) -> Option<Sp>
    ensures { result ≡ sp_of_name uid }
{
    if uid == Uid::ADMIN_SP {
        Some(Sp::Admin)
    } else if uid == Uid::LOCKING_SP {
        Some(Sp::Locking)
    } else {
        None
    }
}

/// The SP that a StartSession with these arguments names.
pub(crate) fn sp_of_args(args: &[Value]) -> Option<Sp>
    ensures { result ≡ sp_of_args (map tree args.now) }
{
    let [_, spid, ..] = args else {
        return None;
    };
    sp_named(uid_in(spid)?)
}
