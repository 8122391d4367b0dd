//! How much data comes with a command.

ghost use Rattle.std.specs.Prelude.{◌≡◌};
ghost use Rattle.trusted_cmds.specs.Commands.{payload_length};
ghost use Rattle.trusted_cmds.specs.Profiles.{payload_length_in};
ghost use Rattle.fis.specs.declared.h2d.RegH2d.{RegH2d};

use crate::codes::{SHORT_WRITE_DMA, TRUSTED_SEND, TRUSTED_SEND_DMA, WRITE_DMA, brings_more};
use crate::fields::{blocks, sectors, short_sectors};
use crate::general::blocks_brought;
use basics::Profile;
use fis::RegH2d;

/// How many bytes a sector has, and a block of a trusted command.
pub const SECTOR_SIZE: usize = 512;

/// How many bytes come with an unqueued command that each drive has.
fn base_len(h: &RegH2d) -> usize
    ensures { result ≡ payload_length h.now }
{
    match h.command {
        WRITE_DMA => SECTOR_SIZE * sectors(h.count) as usize,
        TRUSTED_SEND => SECTOR_SIZE * usize::from(blocks(h)),
        TRUSTED_SEND_DMA => SECTOR_SIZE * usize::from(blocks(h)),
        _ => 0,
    }
}

/// How many bytes come with an unqueued command: 512 for each sector of WRITE DMA EXT and for each block of TRUSTED SEND,
/// but under `Base` for each sector of WRITE DMA too, under `Opal` for each sector of its other writes and each block of DATA SET MANAGEMENT, else none. The command
/// code alone tells which it is, whatever the C bit and the Device field are (ACS-3, "WRITE DMA EXT", "WRITE DMA", "TRUSTED
/// SEND", "TRUSTED SEND DMA", "WRITE SECTOR(S)", "WRITE MULTIPLE", "WRITE DMA FUA EXT").
pub fn payload_len(profile: Profile, h: &RegH2d) -> usize
    ensures { result ≡ payload_length_in profile h.now }
{
    match profile {
        Profile::Opal if brings_more(h.command) => SECTOR_SIZE * blocks_brought(h) as usize,
        Profile::Field | Profile::Opal if h.command == SHORT_WRITE_DMA => {
            SECTOR_SIZE * short_sectors(h) as usize
        }
        _ => base_len(h),
    }
}
