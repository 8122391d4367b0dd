//! The commands and resets that lines ask for.

ghost use Rattle.std.specs.Prelude.{◌≡◌, ◌<◌, ◌^◌, IfSome};
ghost use Rattle.trusted_cmds.specs.Commands.{lba_of, IsCounted};
ghost use Rattle.drive_scripts.specs.Acts.{read_of, write_of, read_dma_of, write_dma_of, sent_by, received_by, tper_reset, kind_named};

use drive::ResetKind;
use script_lines::{DmaTransfer, Reset, Transfer};
use trusted_cmds::{Command, RESET_COM_ID, RESET_PROTOCOL, sectors};

/// The security protocol whose SP Specific field is a ComID.
pub const COM_ID_PROTOCOL: u8 = 1;

/// A queued read.
pub fn read_of(transfer: &Transfer) -> Command
    ensures value { result ≡ read_of transfer.now }
    ensures address { IfSome (lba_of result) (λ lba. lba < 2 ^ 48) }
    ensures counted { IsCounted result }
{
    Command::ReadQueued {
        lba: transfer.lba.number(),
        count: sectors(transfer.count),
    }
}

/// A queued write.
pub fn write_of(transfer: &Transfer) -> Command
    ensures value { result ≡ write_of transfer.now }
    ensures address { IfSome (lba_of result) (λ lba. lba < 2 ^ 48) }
    ensures counted { IsCounted result }
{
    Command::WriteQueued {
        lba: transfer.lba.number(),
        count: sectors(transfer.count),
    }
}

/// A read that is not queued.
pub fn read_dma_of(transfer: &DmaTransfer) -> Command
    ensures value { result ≡ read_dma_of transfer.now }
    ensures address { IfSome (lba_of result) (λ lba. lba < 2 ^ 48) }
    ensures counted { IsCounted result }
{
    Command::ReadDma {
        lba: transfer.lba.number(),
        count: sectors(transfer.count),
    }
}

/// A write that is not queued.
pub fn write_dma_of(transfer: &DmaTransfer) -> Command
    ensures value { result ≡ write_dma_of transfer.now }
    ensures address { IfSome (lba_of result) (λ lba. lba < 2 ^ 48) }
    ensures counted { IsCounted result }
{
    Command::WriteDma {
        lba: transfer.lba.number(),
        count: sectors(transfer.count),
    }
}

/// A send of so many blocks by a security protocol.
pub fn sent_by(protocol: u8, sp_specific: u16, blocks: u16) -> Command
    ensures { result ≡ sent_by protocol sp_specific blocks }
{
    Command::Send {
        protocol,
        sp_specific,
        blocks,
        dma: true,
    }
}

/// A receive of so many blocks by a security protocol.
pub fn received_by(protocol: u8, sp_specific: u16, blocks: u16) -> Command
    ensures { result ≡ received_by protocol sp_specific blocks }
{
    Command::Receive {
        protocol,
        sp_specific,
        blocks,
        dma: true,
    }
}

/// The command that resets the drive, with one block.
pub fn tper_reset() -> Command
    ensures { result ≡ tper_reset }
{
    Command::Send {
        protocol: RESET_PROTOCOL,
        sp_specific: RESET_COM_ID,
        blocks: 1,
        dma: true,
    }
}

/// The kind of a reset.
pub fn kind_named(kind: Reset) -> ResetKind
    ensures { result ≡ kind_named kind }
{
    match kind {
        Reset::Power => ResetKind::Power,
        Reset::Hardware => ResetKind::Hardware,
    }
}
