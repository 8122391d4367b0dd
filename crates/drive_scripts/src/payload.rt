//! The bytes that go with a command.

ghost use Rattle.std.specs.Prelude.{◌≡◌, ◌≤◌, ◌<◌, IfOk, OnOk, length, replicate};
ghost use Rattle.compacket.specs.Spelling.{frame_bytes};
ghost use Rattle.script_lines.specs.Fields.{most_call_bytes, most_send_bytes};
ghost use Rattle.drive_scripts.specs.Acts.{block_count, in_blocks};

use compacket::{ComId, Session, frame_into, frame_len};
use std::alloc::AllocError;
use trusted_cmds::SECTOR_SIZE;

/// Fills a buffer with so many bytes, all the same.
pub fn fill(buffer: &mut Vec<u8>, size: usize, byte: u8) -> Result<(), AllocError>
    ensures { OnOk result (buffer.new.items ≡ replicate size byte) }
{
    buffer.clear();
    buffer.resize(size, byte)?;
    Ok(())
}

/// Puts the frame of tokens into a buffer.
pub fn put_frame(
    com_id: ComId,
    session: Session,
    tokens: &[u8],
    buffer: &mut Vec<u8>,
) -> Result<(), AllocError>
    requires some { 0 < length tokens.now }
    requires most { length tokens.now ≤ most_call_bytes }
    ensures { OnOk result (buffer.new.items ≡ frame_bytes com_id session tokens.now) }
{
    buffer.clear();
    buffer.reserve(frame_len(tokens.len()))?;
    frame_into(com_id, session, tokens, buffer);
    Ok(())
}

/// Puts zeros behind the bytes to the end of a block, and gives the number of blocks.
pub fn pad(buffer: &mut Vec<u8>) -> Result<u16, AllocError>
    requires { length buffer.old.items ≤ most_send_bytes }
    ensures blocks { IfOk result (λ blocks. blocks ≡ block_count (length buffer.old.items)) }
    ensures bytes { OnOk result (buffer.new.items ≡ in_blocks buffer.old.items) }
{
    let blocks = (buffer.len() + (SECTOR_SIZE - 1)) / SECTOR_SIZE;
    buffer.resize(SECTOR_SIZE * blocks, 0)?;
    Ok(blocks as u16)
}
