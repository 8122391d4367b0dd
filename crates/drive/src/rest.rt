//! What a drive keeps without power.

ghost use Rattle.std.specs.Prelude.{◌≡◌, IfOk};
ghost use Rattle.drive.specs.Rest.{PowerOffLaw, SameRestLaw};
ghost use Rattle.sp_cells.specs.Config.{table_sectors};

use crate::boxes::{boxed_media, new_queue, resumed_tper};
use crate::drive::Drive;
use device_data::Settings;
use locking::Ranges;
use shadow_mbr::{Mbr, Media};
use sp_tables::Tables;
use std::alloc::{AllocError, Global};

/// What a drive that is off keeps.
#[derive(Clone, Copy)]
pub struct Rest<'a> {
    /// The rows of both SPs, and what the drive was made with.
    pub tables: &'a Tables,
    /// The bytes of the byte tables.
    pub bytes: &'a Mbr,
    /// The sectors.
    pub media: &'a Media,
    /// The number that the next session will have.
    pub next_session: u64,
    /// How many random bytes were given.
    pub drawn: u64,
}

impl Drive {
    ghost use Rattle.std.specs.Prelude.{◌≤◌, ◌^◌};
    ghost use Rattle.drive.specs.Rest.{Rest, IsOff, KeepsRest};

    /// What the drive keeps without power. It is all that a drive has which is off, as behind a power cycle.
    pub fn rest(&self) -> Rest<'_>
        ensures rests { IsOff self.now → KeepsRest (record {
          tables = result.tables.now;
          bytes = result.bytes.now;
          media = result.media.now;
          next = result.next_session;
          drawn = result.drawn;
        }) self.now }
        ensures config { result.tables.now.config ≡ self.now.tper.store.config }
        ensures bytes { result.bytes.now.sectors ≡ table_sectors result.tables.now.config }
        ensures media { result.media.now.sectors ≡ result.tables.now.config.sectors }
    {
        let (tables, bytes) = self.tper.kept();
        Rest {
            tables,
            bytes,
            media: &self.media,
            next_session: self.tper.next_session(),
            drawn: self.tper.drawn(),
        }
    }

    /// A drive that is off and keeps this.
    pub fn resumed(
        alloc: Global,
        tables: Tables,
        bytes: Mbr,
        media: Media,
        next_session: u64,
        drawn: u64,
    ) -> Result<Drive, AllocError>
        requires bytes { bytes.sectors ≡ table_sectors tables.config }
        requires media { media.sectors ≡ tables.config.sectors }
        ensures off { IfOk result IsOff }
        ensures rests { IfOk result (KeepsRest (record {
          tables = tables;
          bytes = bytes;
          media = media;
          next = next_session;
          drawn = drawn;
        })) }
    {
        let config = tables.config();
        let sectors = config.sectors();
        let profile = config.profile();
        let tper = resumed_tper(alloc, tables, bytes, next_session, drawn)?;
        let ranges = Ranges::of(alloc, &tper.in_force())?;
        let queue = new_queue(alloc)?;
        let media = boxed_media(alloc, media)?;
        Ok(Drive {
            tper,
            media,
            queue,
            ranges,
            settings: Settings::first(),
            spare: Vec::new(alloc),
            alloc,
            sectors,
            profile,
        })
    }
}

/// Laws of what a drive keeps without power.
///
/// `off`: behind a power cycle a drive is off. `same`: of two drives that are off and keep the same, what is true of the
/// acts of the one is true of those of the other.
pub fn laws_of_rest()
    ensures off { PowerOffLaw }
    ensures same { SameRestLaw }
{}
