//! Transfers: sectors that move to the host or from it (ACS-3, NCQ feature set).

ghost use Rattle.std.specs.Prelude.{◌≡◌, ◌<◌, ◌≤◌};
ghost use Rattle.trusted_cmds.specs.Commands.{most_sectors};

use locking::Op;
use shadow_mbr::SECTOR_SIZE;
use std::marker::Model;

/// Sectors that a command moves, and in which direction.
#[derive(Clone, Copy, Debug, PartialEq, Eq)]
pub struct Transfer {
    pub op: Op,
    pub lba: u64,
    pub count: SectorCount,
}

/// A transfer that was permitted: a shadowed one reads the shadow MBR's bytes.
#[derive(Clone, Copy, Debug, PartialEq, Eq)]
pub struct Held {
    pub transfer: Transfer,
    pub is_shadowed: bool,
}

/// How the data of a transfer go that is not queued.
#[derive(Clone, Copy, Debug, PartialEq, Eq)]
pub enum Way {
    /// By DMA.
    Dma,
    /// By PIO.
    Pio,
    /// Nowhere: the sectors are verified, and none of them goes to the host.
    Verify,
}

/// How many sectors a command moves: 1 to 65,536.
#[derive(Clone, Copy, Debug, PartialEq, Eq)]
pub struct SectorCount {
    number: u32,
}

impl Model for SectorCount {
    ghost use Rattle.std.specs.Prelude.{ℕ, ◌<◌, ◌≤◌};
    ghost use Rattle.trusted_cmds.specs.Commands.{most_sectors};

    ghost Value = { ℕ };

    ghost view = { λ c. c.number };

    ghost invariant = { λ c. (0 < c.number) × (c.number ≤ most_sectors) };

    ghost inverse = { λ n. record { number = n } };
}

impl SectorCount {
    fn of(number: u32) -> SectorCount
        requires some { 0 < number }
        requires most { number ≤ most_sectors }
        ensures { result ≡ number }
    {
        SectorCount { number }
    }

    /// The number, 1 to 65,536.
    pub fn number(self) -> u32
        ensures value { result ≡ self }
        ensures some { 0 < result }
        ensures most { result ≤ most_sectors }
    {
        self.number
    }
}

impl Transfer {
    ghost use Rattle.drive.specs.Transfer.{transfer_by, size_of, payload_size_of, is_on_drive};

    /// So many sectors from `lba` on.
    pub(crate) fn by(op: Op, lba: u64, count: u32) -> Transfer
        requires some { 0 < count }
        requires most { count ≤ most_sectors }
        ensures { result ≡ transfer_by op lba count }
    {
        Transfer {
            op,
            lba,
            count: SectorCount::of(count),
        }
    }

    /// How many bytes move.
    pub(crate) fn size(&self) -> u32
        ensures { result ≡ size_of self.now }
    {
        SECTOR_SIZE as u32 * self.count.number()
    }

    /// How many bytes come with it: those of a write.
    pub(crate) fn payload_size(&self) -> usize
        ensures { result ≡ payload_size_of self.now }
    {
        match self.op {
            Op::Read => 0,
            Op::Write => self.size() as usize,
        }
    }

    /// Whether a drive of so many sectors has each of these.
    pub(crate) fn fits(&self, sectors: u64) -> bool
        ensures { result ≡ is_on_drive sectors self.now }
    {
        self.lba <= sectors && u64::from(self.count.number()) <= sectors - self.lba
    }
}
