//! What clients ask, and what they are answered.

ghost use Rattle.std.specs.Prelude.{◌≡◌, ◌≤◌, ◌<◌, ◌^◌, ◌/◌, ◌*◌, ◌&&◌, ℕ, List, IfOk, IfSome, MatchOption, true, length};
ghost use Rattle.trusted_cmds.specs.Commands.{lba_of, IsCounted, sector_size};
ghost use Rattle.port_history.specs.Requests.{no_bytes, is_address, are_blocks, are_whole, is_sized, request_command, request_payload, most_blocks, bytes_moved};
ghost use Rattle.port_history.specs.declared.request.Answer.TheVariants as answers;

use crate::reply::ReplyBytes;
use basics::Bytes;
use std::alloc::{AllocError, Global};
use trusted_cmds::{Command, SECTOR_SIZE};

/// How many blocks of 512 bytes a transfer of a port has at most.
pub const MOST_BLOCKS: u32 = 256;

/// Addresses are below this.
const ADDRESSES: u64 = 1 << 48;

/// Trusted commands take their forms by DMA.
const BY_DMA: bool = true;

/// What a client asks of the drive. Addresses and counts are of blocks of 512 bytes. Two are `==` where they ask the
/// same: the bytes count, and not where they lie.
#[derive(Debug, Drop, PartialEq, Eq)]
pub enum Request {
    /// Reads so many blocks, in the queue.
    Read {
        lba: u64,
        count: u32,
    },
    /// Reads so many blocks, out of the queue.
    ReadDma {
        lba: u64,
        count: u32,
    },
    /// Writes whole blocks, in the queue.
    Write {
        lba: u64,
        bytes: Bytes,
    },
    /// Writes whole blocks, out of the queue.
    WriteDma {
        lba: u64,
        bytes: Bytes,
    },
    /// Sends whole blocks to a ComID of a security protocol.
    Send {
        protocol: u8,
        com_id: u16,
        bytes: Bytes,
    },
    /// Receives so many blocks from a ComID of a security protocol.
    Receive {
        protocol: u8,
        com_id: u16,
        blocks: u16,
    },
    /// Asks for the 512 bytes of IDENTIFY DEVICE.
    Identify,
    /// Flushes the cache.
    Flush,
}

/// What a client is answered.
#[derive(Debug, Drop, PartialEq, Eq)]
pub enum Answer {
    /// Done, with the bytes that were read.
    Done(ReplyBytes),
    /// Failed, with the Status and Error registers.
    Failed { status: u8, error: u8 },
    /// Stopped by a reset.
    Reset,
}

impl Answer {
    /// The reply of every step but a Take: done, with no bytes.
    pub fn nothing() -> Answer
        ensures { result ≡ no_bytes }
    {
        Answer::Done(ReplyBytes::none())
    }

    /// The bytes of an answer that is done.
    pub fn bytes(&self) -> Option<&[u8]>
        ensures { MatchOption result ((bytes : List ℕ) → self.now ≡ answers.Done bytes → ⊥)
            (λ bytes. self.now ≡ answers.Done bytes.now) }
    {
        match *self {
            Answer::Done(ref bytes) => Some(bytes.as_slice()),
            Answer::Failed { .. } | Answer::Reset => None,
        }
    }

    /// The same answer once more, its bytes in the same memory.
    pub fn share(&self) -> Result<Answer, AllocError>
        ensures { IfOk result (λ a. a ≡ self.now) }
    {
        match *self {
            Answer::Done(ref bytes) => {
                let bytes = bytes.share()?;
                Ok(Answer::Done(bytes))
            }
            Answer::Failed { status, error } => Ok(Answer::Failed { status, error }),
            Answer::Reset => Ok(Answer::Reset),
        }
    }
}

/// Whether an address has 48 bits.
fn is_address(lba: u64) -> bool
    ensures { result ≡ is_address lba }
{
    lba < ADDRESSES
}

/// Whether a port moves so many blocks.
fn are_blocks(count: u32) -> bool
    ensures { result ≡ are_blocks count }
{
    1 <= count && count <= MOST_BLOCKS
}

/// Whether bytes are whole blocks, as many as a port moves.
fn are_whole(bytes: &Bytes) -> bool
    ensures { result ≡ are_whole bytes.now }
{
    let size = bytes.as_slice().len();
    let count = size / SECTOR_SIZE;
    size % SECTOR_SIZE == 0 && 1 <= count && count <= MOST_BLOCKS as usize
}

/// How many blocks bytes are.
fn blocks_of(bytes: &Bytes) -> u32
    requires { are_whole bytes.now ≡ true }
    ensures { result ≡ length bytes.now / sector_size }
{
    (bytes.as_slice().len() / SECTOR_SIZE) as u32
}

/// The same bytes once more.
fn copy_of(alloc: Global, bytes: &Bytes) -> Result<Bytes, AllocError>
    ensures { IfOk result (λ b. b ≡ bytes.now) }
{
    Ok(Bytes::from_vec(bytes.as_slice().to_vec(alloc)?))
}

impl Request {
    /// Whether a port takes it: 1 to 256 whole blocks, from an address of 48 bits on.
    pub fn is_sized(&self) -> bool
        ensures { result ≡ is_sized self.now }
    {
        match *self {
            Request::Read { lba, count } | Request::ReadDma { lba, count } => {
                are_blocks(count) && is_address(lba)
            }
            Request::Write { lba, ref bytes } | Request::WriteDma { lba, ref bytes } => {
                are_whole(bytes) && is_address(lba)
            }
            Request::Send { ref bytes, .. } => are_whole(bytes),
            Request::Receive { blocks, .. } => are_blocks(u32::from(blocks)),
            Request::Identify | Request::Flush => true,
        }
    }

    /// The command that asks it.
    pub fn command(&self) -> Command
        requires { is_sized self.now ≡ true }
        ensures value { result ≡ request_command self.now }
        ensures address { IfSome (lba_of result) (λ lba. lba < 2 ^ 48) }
        ensures counted { IsCounted result }
        ensures fits { bytes_moved result ≤ sector_size * most_blocks }
        ensures payload { length (request_payload self.now) ≤ sector_size * most_blocks }
    {
        match *self {
            Request::Read { lba, count } => Command::ReadQueued { lba, count },
            Request::ReadDma { lba, count } => Command::ReadDma { lba, count },
            Request::Write { lba, ref bytes } => Command::WriteQueued {
                lba,
                count: blocks_of(bytes),
            },
            Request::WriteDma { lba, ref bytes } => Command::WriteDma {
                lba,
                count: blocks_of(bytes),
            },
            Request::Send {
                protocol,
                com_id,
                ref bytes,
            } => Command::Send {
                protocol,
                sp_specific: com_id,
                blocks: blocks_of(bytes) as u16,
                dma: BY_DMA,
            },
            Request::Receive {
                protocol,
                com_id,
                blocks,
            } => Command::Receive {
                protocol,
                sp_specific: com_id,
                blocks,
                dma: BY_DMA,
            },
            Request::Identify => Command::Identify,
            Request::Flush => Command::Flush,
        }
    }

    /// The data that go to the device.
    pub fn payload(&self) -> &[u8]
        ensures { result.now ≡ request_payload self.now }
    {
        match *self {
            Request::Write { ref bytes, .. }
            | Request::WriteDma { ref bytes, .. }
            | Request::Send { ref bytes, .. } => bytes.as_slice(),
            Request::Read { .. }
            | Request::ReadDma { .. }
            | Request::Receive { .. }
            | Request::Identify
            | Request::Flush => &[],
        }
    }

    /// The same request once more.
    pub fn copy(&self, alloc: Global) -> Result<Request, AllocError>
        ensures { IfOk result (λ r. r ≡ self.now) }
    {
        match *self {
            Request::Read { lba, count } => Ok(Request::Read { lba, count }),
            Request::ReadDma { lba, count } => Ok(Request::ReadDma { lba, count }),
            Request::Write { lba, ref bytes } => {
                let bytes = copy_of(alloc, bytes)?;
                Ok(Request::Write { lba, bytes })
            }
            Request::WriteDma { lba, ref bytes } => {
                let bytes = copy_of(alloc, bytes)?;
                Ok(Request::WriteDma { lba, bytes })
            }
            Request::Send {
                protocol,
                com_id,
                ref bytes,
            } => {
                let bytes = copy_of(alloc, bytes)?;
                Ok(Request::Send {
                    protocol,
                    com_id,
                    bytes,
                })
            }
            Request::Receive {
                protocol,
                com_id,
                blocks,
            } => Ok(Request::Receive {
                protocol,
                com_id,
                blocks,
            }),
            Request::Identify => Ok(Request::Identify),
            Request::Flush => Ok(Request::Flush),
        }
    }
}
