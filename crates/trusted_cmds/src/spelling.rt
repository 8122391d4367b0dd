//! The FIS of a command.

ghost use Rattle.std.specs.Prelude.{◌≡◌, ◌<◌, ◌≤◌, ◌+◌, ◌*◌, ◌/◌, ◌%◌, ◌^◌, IfSome, Ok, true};
ghost use Rattle.trusted_cmds.specs.Commands.{most_sectors, IsCounted, by_dma, lba_of, fis_with, queued_fis, unqueued_fis, trusted_fis, log_read_fis, feature_fis, fis_of, tag_with};
ghost use Rattle.trusted_cmds.specs.Profiles.{is_offered, reading_in};
ghost use Rattle.basics.specs.declared.profile.Profile.{Profile};

use crate::codes::*;
use crate::command::Command;
use crate::feature::Feature;
use crate::fields::{ERROR_LOG_ADDRESS, LBA_DEVICE, sectors_field};
use crate::log_pages::log_place;
use fis::{Lba, PortNumber, RegH2d, Tag};

/// The bit TRIM of Feature.
const TRIM_BIT: u16 = 1;

/// A FIS with these fields, and zeros in those that no command has.
fn fis_with(code: u8, feature: u16, lba: u64, device: u8, count: u16) -> RegH2d
    requires { lba < 2 ^ 48 }
    ensures { result ≡ fis_with code feature lba device count }
{
    RegH2d {
        is_command: true,
        port: PortNumber::low_bits(0),
        command: code,
        feature,
        lba: Lba::new(lba).unwrap(),
        device,
        count,
        icc: 0,
        control: 0,
    }
}

/// A queued transfer: the count of sectors stands in Feature, the tag in Count.
fn queued(code: u8, lba: u64, count: u32, tag: Tag) -> RegH2d
    requires address { lba < 2 ^ 48 }
    requires count { count ≤ most_sectors }
    ensures { result ≡ queued_fis code lba count tag }
{
    let tag = 8 * u16::from(tag.number());
    fis_with(code, sectors_field(count), lba, LBA_DEVICE, tag)
}

/// Another transfer: the count of sectors stands in Count.
fn unqueued(code: u8, lba: u64, count: u32) -> RegH2d
    requires address { lba < 2 ^ 48 }
    requires count { count ≤ most_sectors }
    ensures { result ≡ unqueued_fis code lba count }
{
    fis_with(code, 0, lba, LBA_DEVICE, sectors_field(count))
}

/// A trusted command.
fn trusted(code: u8, protocol: u8, sp_specific: u16, blocks: u16) -> RegH2d
    ensures { result ≡ trusted_fis code protocol sp_specific blocks }
{
    let lba = u64::from(blocks / 256) + 256 * u64::from(sp_specific);
    fis_with(code, u16::from(protocol), lba, 0, blocks % 256)
}

/// The first code, or the second, which is that of the form by DMA.
fn by_dma(dma: bool, pio_code: u8, dma_code: u8) -> u8
    ensures { result ≡ by_dma dma pio_code dma_code }
{
    if dma { dma_code } else { pio_code }
}

/// A read of so many pages of a log.
fn log_read(place: u64, pages: u16, dma: bool) -> RegH2d
    requires { place < 2 ^ 48 }
    ensures { result ≡ log_read_fis place pages dma }
{
    fis_with(by_dma(dma, READ_LOG, READ_LOG_DMA), 0, place, 0, pages)
}

/// A SET FEATURES.
fn set_features(feature: Feature) -> RegH2d
    ensures { result ≡ feature_fis feature }
{
    let subcommand = u16::from(feature.subcommand());
    fis_with(SET_FEATURES, subcommand, 0, 0, u16::from(feature.mode()))
}

/// The FIS that carries the command, under the tag where it is queued, with zeros in the fields that it does not name.
/// `of_fis` gives the command back under each profile that has it, and the tag of one that is queued.
pub fn to_fis(command: &Command, tag: Tag) -> RegH2d
    requires address { IfSome (lba_of command.now) (λ lba. lba < 2 ^ 48) }
    requires counted { IsCounted command.now }
    ensures exact { result ≡ fis_of command.now tag }
    ensures back { (p : Profile) → is_offered p command.now ≡ true
        → reading_in p result ≡ Ok (command.now, tag_with command.now tag) }
{
    match *command {
        Command::ReadQueued { lba, count } => queued(READ_QUEUED, lba, count, tag),
        Command::WriteQueued { lba, count } => queued(WRITE_QUEUED, lba, count, tag),
        Command::ReadDma { lba, count } => unqueued(READ_DMA, lba, count),
        Command::WriteDma { lba, count } => unqueued(WRITE_DMA, lba, count),
        Command::Send {
            protocol,
            sp_specific,
            blocks,
            dma,
        } => trusted(
            by_dma(dma, TRUSTED_SEND, TRUSTED_SEND_DMA),
            protocol,
            sp_specific,
            blocks,
        ),
        Command::Receive {
            protocol,
            sp_specific,
            blocks,
            dma,
        } => trusted(
            by_dma(dma, TRUSTED_RECEIVE, TRUSTED_RECEIVE_DMA),
            protocol,
            sp_specific,
            blocks,
        ),
        Command::Identify => fis_with(IDENTIFY_DEVICE, 0, 0, 0, 0),
        Command::ReadLog10 { dma } => log_read(ERROR_LOG_ADDRESS, 1, dma),
        Command::Flush => fis_with(FLUSH_CACHE, 0, 0, 0, 0),
        Command::SetFeatures { feature } => set_features(feature),
        Command::ReadLog { pages, dma } => log_read(log_place(&pages), pages.count(), dma),
        Command::ReadPio { lba, count } => unqueued(READ_SECTORS_EXT, lba, count),
        Command::WritePio { lba, count } => unqueued(WRITE_SECTORS_EXT, lba, count),
        Command::Verify { lba, count } => unqueued(VERIFY_SECTORS_EXT, lba, count),
        Command::Trim { blocks } => fis_with(DATA_SET_MANAGEMENT, TRIM_BIT, 0, 0, blocks),
        Command::Control { control } => fis_with(control.code(), 0, 0, 0, control.count()),
    }
}
