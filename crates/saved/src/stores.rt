//! What has sectors: the media, and the byte tables.

ghost use Rattle.std.specs.Prelude.{◌≡◌, ◌+◌, ◌*◌, ◌<◌, ◌≤◌, length, IfOk, OnOk};
ghost use Rattle.std.specs.Map.{keys_of};
ghost use Rattle.shadow_mbr.specs.Stored.{StoredSectors, IsSound, sector_at, sector_size};

use shadow_mbr::{Block, Mbr, Media, SECTOR_SIZE};
use std::alloc::{AllocError, Global};

/// Sectors of 512 bytes, of which some are kept.
pub(crate) trait Store {
    ghost stored: { Self → StoredSectors };

    /// How many there are.
    fn sectors(&self) -> u64
        ensures { result ≡ (stored self.now).sectors };

    /// What a sector holds.
    fn sector(&self, sector: u64) -> &Block
        requires { sector < (stored self.now).sectors }
        ensures { result.now ≡ sector_at (stored self.now) sector };

    /// The numbers of those that are kept.
    fn kept(&self, alloc: Global) -> Result<Vec<u64>, AllocError>
        ensures kept { IfOk result (λ v. v.items ≡ keys_of (stored self.now).kept) }
        ensures sound { IsSound (stored self.now) };

    /// Writes a sector.
    fn put(&mut self, sector: u64, content: &Block) -> Result<(), AllocError>
        requires { sector < (stored self.old).sectors }
        ensures { (stored self.new).sectors ≡ (stored self.old).sectors };
}

impl Store for Media {
    ghost stored = { λ media. media };

    fn sectors(&self) -> u64 {
        self.sectors()
    }

    fn sector(&self, sector: u64) -> &Block {
        self.sector(sector)
    }

    fn kept(&self, alloc: Global) -> Result<Vec<u64>, AllocError> {
        self.kept(alloc)
    }

    fn put(&mut self, sector: u64, content: &Block) -> Result<(), AllocError> {
        self.write(sector, content)
    }
}

impl Store for Mbr {
    ghost stored = { λ bytes. bytes };

    /// A place that is too great is refused as memory is.
    fn put(&mut self, sector: u64, content: &Block) -> Result<(), AllocError> {
        match sector.checked_mul(SECTOR_SIZE as u64) {
            Some(at) => self.write(at, content),
            None => Err(AllocError),
        }
    }

    fn kept(&self, alloc: Global) -> Result<Vec<u64>, AllocError> {
        self.kept(alloc)
    }

    fn sector(&self, sector: u64) -> &Block {
        self.sector(sector)
    }

    fn sectors(&self) -> u64 {
        self.sectors()
    }
}
