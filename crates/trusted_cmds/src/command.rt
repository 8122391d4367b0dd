//! The commands of the drive, and why a FIS carries none (ACS-3).

use crate::control::Control;
use crate::feature::Feature;
use crate::log_pages::LogPages;
use thiserror::Error;

/// A command of the drive. Addresses are below 2^48; counts are of sectors, 1 to 65,536; a block has 512 bytes. `dma`
/// tells the form whose data go by DMA from the one whose data go by PIO.
#[derive(Clone, Copy, Debug, PartialEq, Eq)]
pub enum Command {
    /// READ FPDMA QUEUED (ACS-3, "READ FPDMA QUEUED").
    ReadQueued {
        lba: u64,
        count: u32,
    },
    /// WRITE FPDMA QUEUED (ACS-3, "WRITE FPDMA QUEUED").
    WriteQueued {
        lba: u64,
        count: u32,
    },
    /// READ DMA EXT (ACS-3, "READ DMA EXT").
    ReadDma {
        lba: u64,
        count: u32,
    },
    /// WRITE DMA EXT (ACS-3, "WRITE DMA EXT").
    WriteDma {
        lba: u64,
        count: u32,
    },
    /// TRUSTED SEND and TRUSTED SEND DMA (ACS-3, "TRUSTED SEND"): the SP Specific field is a ComID.
    Send {
        protocol: u8,
        sp_specific: u16,
        blocks: u16,
        dma: bool,
    },
    /// TRUSTED RECEIVE and TRUSTED RECEIVE DMA (ACS-3, "TRUSTED RECEIVE").
    Receive {
        protocol: u8,
        sp_specific: u16,
        blocks: u16,
        dma: bool,
    },
    /// IDENTIFY DEVICE (ACS-3, "IDENTIFY DEVICE").
    Identify,
    /// READ LOG EXT and READ LOG DMA EXT of the NCQ Command Error log, address 10h (ACS-3, "READ LOG EXT").
    ReadLog10 {
        dma: bool,
    },
    /// FLUSH CACHE EXT (ACS-3, "FLUSH CACHE EXT").
    Flush,
    /// SET FEATURES (ACS-3, "SET FEATURES"), of the features that IDENTIFY DEVICE tells of. Only `Field` has it.
    SetFeatures {
        feature: Feature,
    },
    /// READ LOG EXT and READ LOG DMA EXT of pages of the device's own logs (ACS-3, "READ LOG EXT"). Only `Field` has it.
    ReadLog {
        pages: LogPages,
        dma: bool,
    },
    /// READ SECTOR(S), READ MULTIPLE and their forms EXT (ACS-3): the sectors go to the host by PIO, one in each block. Only
    /// `Opal` has it.
    ReadPio {
        lba: u64,
        count: u32,
    },
    /// WRITE SECTOR(S), WRITE MULTIPLE and their forms EXT (ACS-3): the sectors come from the host by PIO, one in each block.
    /// Only `Opal` has it.
    WritePio {
        lba: u64,
        count: u32,
    },
    /// READ VERIFY SECTOR(S) and its form EXT (ACS-3): the sectors are read, and none of them goes to the host. Only `Opal`
    /// has it.
    Verify {
        lba: u64,
        count: u32,
    },
    /// DATA SET MANAGEMENT with TRIM (ACS-3): so many blocks of entries come, 1 to 8, and each names sectors that are to hold
    /// nothing (`extents_in`). Only `Opal` has it.
    Trim {
        blocks: u16,
    },
    /// A command of no sectors and no data. Only `Opal` has it.
    Control {
        control: Control,
    },
}

/// Why a FIS is no command of the drive: `NotCommand` is told first, then `Unknown`, `Device`, `LogPage`.
#[derive(Clone, Copy, Debug, PartialEq, Eq, Error)]
pub enum CommandError {
    /// The command code is none that the drive knows, or SET FEATURES asks for what the drive does not have.
    #[error("the command is not known")]
    Unknown,
    /// Bit C of the FIS is clear: it carries the Control register.
    #[error("the FIS carries no command")]
    NotCommand,
    /// The drive has no such log, or not so many pages of it from the first on.
    #[error("the drive has no such log page")]
    LogPage,
    /// Bit 6 of the Device field is clear, where the command wants it set.
    #[error("bit 6 of Device is clear")]
    Device,
}
