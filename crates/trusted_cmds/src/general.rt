//! The commands that `Opal` reads beside: those of every ATA device (ACS-3, General feature set), and WRITE DMA FUA EXT.

ghost use Rattle.std.specs.Prelude.{◌≡◌, ◌<◌, ◌≤◌, Option, Some, None, IfSome, ℕ, true, false, if◌then◌else◌};
ghost use Rattle.trusted_cmds.specs.declared.command.Command.{Command};
ghost use Rattle.trusted_cmds.specs.Commands.{IsCounted, most_sectors, has_lba_bit};
ghost use Rattle.trusted_cmds.specs.General.{CarriesMore, moves_more, first_moved, sectors_moved, blocks_brought, asks_trim, moving, more};

use crate::codes::{
    DATA_SET_MANAGEMENT, is_short_code, moves_more, reads_pio, verifies, writes_more, writes_pio,
};
use crate::command::Command;
use crate::control::control_named;
use crate::fields::{has_lba_bit, sectors, short_lba, short_sectors};
use crate::trim::are_trim_blocks;
use fis::RegH2d;

/// The first sector of such a transfer.
fn first_moved(h: &RegH2d) -> u64
    ensures { result ≡ first_moved h.now }
{
    if is_short_code(h.command) {
        short_lba(h)
    } else {
        h.lba.number()
    }
}

/// How many sectors such a transfer has.
pub(crate) fn sectors_moved(h: &RegH2d) -> u32
    ensures value { result ≡ sectors_moved h.now }
    ensures some { 0 < result }
    ensures most { result ≤ most_sectors }
{
    if is_short_code(h.command) {
        short_sectors(h)
    } else {
        sectors(h.count)
    }
}

/// How many blocks come with a command that brings some.
pub(crate) fn blocks_brought(h: &RegH2d) -> u32
    ensures value { result ≡ blocks_brought h.now }
    ensures most { result ≤ most_sectors }
{
    if writes_more(h.command) {
        sectors_moved(h)
    } else {
        u32::from(h.count)
    }
}

/// Whether a FIS carries DATA SET MANAGEMENT with TRIM, and as many blocks as the drive takes.
fn asks_trim(h: &RegH2d) -> bool
    ensures { result ≡ asks_trim h.now }
{
    h.command == DATA_SET_MANAGEMENT && h.feature % 2 == 1 && are_trim_blocks(h.count)
}

/// The command of such a transfer.
fn moving(h: &RegH2d) -> Command
    requires { moves_more h.now.command ≡ true }
    ensures value { result ≡ moving h.now }
    ensures counted { IsCounted result }
{
    let lba = first_moved(h);
    let count = sectors_moved(h);
    if reads_pio(h.command) {
        Command::ReadPio { lba, count }
    } else if writes_pio(h.command) {
        Command::WritePio { lba, count }
    } else if verifies(h.command) {
        Command::Verify { lba, count }
    } else {
        Command::WriteDma { lba, count }
    }
}

/// The command of such a transfer, where its Device field has bit 6.
fn transfer_in(h: &RegH2d) -> Option<Command>
    requires { moves_more h.now.command ≡ true }
    ensures value { result ≡ (if has_lba_bit h.now.device then Some (moving h.now) else None) }
    ensures counted { IfSome result (λ c. IsCounted c) }
{
    if has_lba_bit(h.device) {
        Some(moving(h))
    } else {
        None
    }
}

/// What `Opal` reads in a FIS, beside what `Field` does.
pub(crate) fn more(h: &RegH2d) -> Option<Command>
    ensures value { result ≡ more h.now }
    ensures found { IfSome result (λ c. CarriesMore h.now c None) }
    ensures only { (c : Command) (t : Option ℕ) → CarriesMore h.now c t
        → (t ≡ None) × (result ≡ Some c) }
    ensures counted { IfSome result (λ c. IsCounted c) }
{
    if !h.is_command {
        return None;
    }
    if moves_more(h.command) {
        return transfer_in(h);
    }
    if asks_trim(h) {
        return Some(Command::Trim { blocks: h.count });
    }
    let control = control_named(h)?;
    Some(Command::Control { control })
}
