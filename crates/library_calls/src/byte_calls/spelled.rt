//! The FISes of commands (Serial ATA, "Register Host to Device FIS"; ACS-3).

ghost use Rattle.std.specs.Prelude.{◌≡◌, ◌<◌, IfSome, Some, None};
ghost use Rattle.basics.specs.Addresses.{address_limit};
ghost use Rattle.trusted_cmds.specs.Commands.{IsCounted, lba_of};
ghost use Rattle.library_calls.specs.Spelled.{command_asked, trusted_asked, SpelledAs, AskedAs};

use crate::byte_calls::copied::copy_out;
use crate::byte_calls::count::Count;
use crate::byte_calls::error::CallError;
use basics::ADDRESS_LIMIT;
use fis::Tag;
use trusted_cmds::{Command, to_fis};

/// The sectors of a transfer.
#[derive(Clone, Copy, Debug, PartialEq, Eq)]
pub struct Transfer {
    pub lba: u64,
    /// 1 to 65,536.
    pub count: u32,
}

/// The most sectors that a count field asks for.
const MOST_SECTORS: u32 = 65_536;

impl Transfer {
    ghost use Rattle.std.specs.Prelude.{◌≡◌};
    ghost use Rattle.library_calls.specs.Spelled.{names_sectors};

    /// Whether a command can name these sectors.
    fn is_named(&self) -> bool
        ensures { result ≡ names_sectors self.now.lba self.now.count }
    {
        self.lba < ADDRESS_LIMIT && self.count >= 1 && self.count <= MOST_SECTORS
    }
}

/// The command of a number.
fn command_asked(kind: u32, transfer: &Transfer) -> Option<Command>
    ensures asked { result ≡ command_asked kind transfer.now.lba transfer.now.count }
    ensures address { IfSome result (λ c. IfSome (lba_of c) (λ lba. lba < address_limit)) }
    ensures counted { IfSome result IsCounted }
{
    let Transfer { lba, count } = *transfer;
    match kind {
        4 => return Some(Command::Identify),
        5 => return Some(Command::ReadLog10 { dma: true }),
        6 => return Some(Command::Flush),
        _ => {}
    }
    if !transfer.is_named() {
        return None;
    }
    match kind {
        0 => Some(Command::ReadQueued { lba, count }),
        1 => Some(Command::WriteQueued { lba, count }),
        2 => Some(Command::ReadDma { lba, count }),
        3 => Some(Command::WriteDma { lba, count }),
        _ => None,
    }
}

/// Copies the FIS of a command.
fn spell(command: &Command, tag: Tag, into: &mut [u8]) -> Count
    requires address { IfSome (lba_of command.now) (λ lba. lba < address_limit) }
    requires counted { IsCounted command.now }
    ensures { SpelledAs command.now tag into.old into.new result }
{
    copy_out(&to_fis(command, tag).to_bytes(), into)
}

/// Copies the FIS of a command: 0 is READ FPDMA QUEUED, 1 WRITE FPDMA QUEUED, 2 READ DMA EXT, 3 WRITE DMA EXT, of these
/// sectors; 4 IDENTIFY DEVICE, 5 READ LOG DMA EXT of log 10h, 6 FLUSH CACHE EXT. Only queued commands have a tag.
/// Refused with `Tag` above 31, and with `Number` for another command, or sectors that no command names.
pub fn transfer_fis(kind: u32, transfer: &Transfer, tag: u8, into: &mut [u8]) -> Count
    ensures { AskedAs (command_asked kind transfer.now.lba transfer.now.count) tag into.old into.new
        result }
{
    let Some(tag) = Tag::new(tag) else {
        return Count::refused(CallError::Tag);
    };
    match command_asked(kind, transfer) {
        Some(command) => spell(&command, tag, into),
        None => Count::refused(CallError::Number),
    }
}

/// Copies the FIS of TRUSTED SEND DMA, or of TRUSTED RECEIVE DMA, of so many blocks of 512 bytes.
pub fn trusted_fis(
    is_send: bool,
    protocol: u8,
    sp_specific: u16,
    blocks: u16,
    into: &mut [u8],
) -> Count
    ensures { SpelledAs (trusted_asked is_send protocol sp_specific blocks) 0 into.old into.new
        result }
{
    let dma = true;
    let command = if is_send {
        Command::Send {
            protocol,
            sp_specific,
            blocks,
            dma,
        }
    } else {
        Command::Receive {
            protocol,
            sp_specific,
            blocks,
            dma,
        }
    };
    spell(&command, Tag::low_bits(0), into)
}
