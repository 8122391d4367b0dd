//! The host's memory: commands that wait in their slots, their data, and what the device sent (AHCI 1.3.1, 4.2).

ghost use Rattle.std.specs.Prelude.{◌≡◌, ◌≤◌, ◌<◌, ◌^◌, ℕ, List, IfOk, IfSome, length, false, true};
ghost use Rattle.fis.specs.Tags.{slot_count};
ghost use Rattle.slots.specs.Layout.{memory_with, memory_part, buffer_place, buffer_size};
ghost use Rattle.trusted_cmds.specs.Commands.{lba_of, IsCounted};
ghost use Rattle.port_history.specs.Requests.{command_fis, log_fis, to_device, bytes_moved};
ghost use Rattle.port.specs.Answers.{buffer_front, answer_of};
ghost use Rattle.port.specs.Host.{IsLaid, AreSameButReceived, AreSameButBuffer, AreSameButSlot};
ghost use Rattle.port.specs.State.{Receives, IsFilled};

use crate::outcome::Outcome;
use fis::{Fis, H2D_LENGTH, Tag};
use port_history::{Answer, ReplyBytes};
use slots::{BUFFER, CommandBlock, PortMemory};
use std::alloc::{AllocError, Global};
use trusted_cmds::{Command, SECTOR_SIZE, to_fis};

/// Stores the FISes that the device sent, in their order.
pub(crate) fn receive(memory: &mut PortMemory, fises: &[Fis])
    ensures received { Receives memory.old memory.new fises.now }
    ensures elsewhere { AreSameButReceived memory.old memory.new }
{
    for fis in fises {
        memory.post(fis);
    }
}

/// The first bytes of a slot's buffer, or all of them where there are not so many.
pub(crate) fn front(memory: &PortMemory, tag: Tag, len: usize) -> &[u8]
    ensures value { result.now ≡ buffer_front memory.now tag len }
    ensures len { len ≤ buffer_size → length result.now ≡ len }
{
    let buffer = memory.buffer(tag);
    &buffer[..len.min(BUFFER)]
}

/// Bytes as far as a buffer has room for them.
fn within_buffer(bytes: &[u8]) -> &[u8]
    ensures fits { length result.now ≤ buffer_size }
    ensures whole { length bytes.now ≤ buffer_size → result.now ≡ bytes.now }
{
    &bytes[..bytes.len().min(BUFFER)]
}

/// Stores the FISes that the device sent, and, but for a command that is held or failed in the queue, the data that it
/// gave: in the slot's buffer, as far as there is room. It answers how many bytes these are.
pub(crate) fn take_in(
    memory: &mut PortMemory,
    tag: Tag,
    queued: bool,
    fises: &[Fis],
    bytes: &[u8],
) -> usize
    ensures received { Receives memory.old memory.new fises.now }
    ensures filled { (kept : List ℕ) × (result ≡ length kept)
        × IsFilled memory.old memory.new tag queued bytes.now kept }
{
    receive(memory, fises);
    let bytes = within_buffer(bytes);
    if !queued {
        fill(memory, tag, bytes);
    }
    bytes.len()
}

/// Stores data in a slot's buffer.
fn fill(memory: &mut PortMemory, tag: Tag, bytes: &[u8])
    requires { length bytes.now ≤ buffer_size }
    ensures filled { buffer_front memory.new tag (length bytes.now) ≡ bytes.now }
    ensures elsewhere { AreSameButBuffer memory.old memory.new tag }
{
    write_buffer(memory, tag, bytes);
}

fn write_buffer(memory: &mut PortMemory, tag: Tag, bytes: &[u8])
    requires { length bytes.now ≤ buffer_size }
    ensures exact { memory.new ≡ memory_with memory.old (buffer_place tag) bytes.now }
    ensures long { length (memory_part memory.old (buffer_place tag) buffer_size) ≡ buffer_size }
{
    overlay(memory.buffer_mut(tag), bytes);
}

/// Lays bytes over the first ones.
fn overlay(buffer: &mut [u8], bytes: &[u8])
    requires { length bytes.now ≤ length buffer.old }
    ensures { buffer.new ≡ memory_with buffer.old 0 bytes.now }
{
    buffer[..bytes.len()].copy_from_slice(bytes);
}

/// The bytes of the FIS that carries a command.
fn block(command: Command, tag: Tag) -> [u8; H2D_LENGTH]
    requires address { IfSome (lba_of command) (λ lba. lba < 2 ^ 48) }
    requires counted { IsCounted command }
    ensures { result ≡ command_fis command tag }
{
    to_fis(&command, tag).to_bytes()
}

/// The FIS that reads log page 10h in its form by DMA (ACS-3, READ LOG DMA EXT).
pub(crate) fn log_fis() -> [u8; H2D_LENGTH]
    ensures { result ≡ log_fis }
{
    block(Command::ReadLog10 { dma: true }, Tag::low_bits(0))
}

/// Whether a command's data go to the device.
fn is_to_device(command: Command) -> bool
    ensures { result ≡ to_device command }
{
    match command {
        Command::WriteQueued { .. }
        | Command::WriteDma { .. }
        | Command::WritePio { .. }
        | Command::Trim { .. }
        | Command::Send { .. } => true,
        Command::ReadQueued { .. }
        | Command::ReadDma { .. }
        | Command::Receive { .. }
        | Command::Identify
        | Command::ReadLog10 { .. }
        | Command::Flush
        | Command::SetFeatures { .. }
        | Command::ReadLog { .. }
        | Command::ReadPio { .. }
        | Command::Verify { .. }
        | Command::Control { .. } => false,
    }
}

/// How many bytes a command moves.
fn bytes_moved(command: Command) -> u32
    requires { bytes_moved command ≤ buffer_size }
    ensures { result ≡ bytes_moved command }
{
    let blocks = match command {
        Command::ReadQueued { count, .. }
        | Command::WriteQueued { count, .. }
        | Command::ReadDma { count, .. }
        | Command::WriteDma { count, .. }
        | Command::ReadPio { count, .. }
        | Command::WritePio { count, .. } => count,
        Command::Send { blocks, .. } | Command::Receive { blocks, .. } | Command::Trim { blocks } =>
            { u32::from(blocks) }
        Command::Identify | Command::ReadLog10 { .. } => 1,
        Command::ReadLog { pages, .. } => u32::from(pages.count()),
        Command::Flush
        | Command::SetFeatures { .. }
        | Command::Verify { .. }
        | Command::Control { .. } => 0,
    };
    SECTOR_SIZE as u32 * blocks
}

/// The FIS of a command, as a slot holds it.
pub(crate) fn command_block(command: Command, tag: Tag) -> CommandBlock
    requires address { IfSome (lba_of command) (λ lba. lba < 2 ^ 48) }
    requires counted { IsCounted command }
    ensures { result ≡ command_fis command tag }
{
    CommandBlock::new(block(command, tag)).unwrap()
}

/// Lays a command, whose FIS is built, with its data in its slot.
pub(crate) fn lay_block(
    memory: &mut PortMemory,
    tag: Tag,
    fis: &CommandBlock,
    command: Command,
    bytes: &[u8],
)
    requires built { fis.now ≡ command_fis command tag }
    requires moved { bytes_moved command ≤ buffer_size }
    requires fits { length bytes.now ≤ buffer_size }
    ensures laid { IsLaid memory.new tag command bytes.now }
    ensures elsewhere { AreSameButSlot memory.old memory.new tag }
{
    memory.place(tag, fis, is_to_device(command), bytes_moved(command));
    fill(memory, tag, bytes);
}

/// Lays a command with its data in its slot.
pub(crate) fn lay(memory: &mut PortMemory, tag: Tag, command: Command, bytes: &[u8])
    requires address { IfSome (lba_of command) (λ lba. lba < 2 ^ 48) }
    requires counted { IsCounted command }
    requires moved { bytes_moved command ≤ buffer_size }
    requires fits { length bytes.now ≤ buffer_size }
    ensures laid { IsLaid memory.new tag command bytes.now }
    ensures elsewhere { AreSameButSlot memory.old memory.new tag }
{
    let fis = command_block(command, tag);
    lay_block(memory, tag, &fis, command, bytes);
}

/// The answer that an outcome stands for.
pub(crate) fn answer(
    memory: &PortMemory,
    alloc: Global,
    tag: Tag,
    outcome: Outcome,
) -> Result<Answer, AllocError>
    ensures { IfOk result (λ a. a ≡ answer_of memory.now tag outcome) }
{
    match outcome {
        Outcome::Done(len) => {
            let bytes = ReplyBytes::new(alloc, front(memory, tag, len))?;
            Ok(Answer::Done(bytes))
        }
        Outcome::Failed { status, error } => Ok(Answer::Failed { status, error }),
        Outcome::Reset => Ok(Answer::Reset),
    }
}
