//! What the media hold, whatever is locked.

use crate::drive::Drive;

impl Drive {
    ghost use Rattle.std.specs.Prelude.{◌≡◌, ◌<◌, List, IfSome, is_some, nat_lt};
    ghost use Rattle.shadow_mbr.specs.Stored.{sector_at};
    ghost use Rattle.history.specs.Opening.{Origin};
    ghost use Rattle.history.specs.History.{Act, log};
    ghost use Rattle.history.specs.Readers.{sector as sector_in};
    ghost use Rattle.drive.specs.State.{Agrees};

    /// The bytes that the media hold at a sector, whatever is locked or shadowed; `None` where there is none. It
    /// is no act: nothing changes.
    pub fn sector(&self, lba: u64) -> Option<&[u8]>
        ensures found { is_some result ≡ nat_lt lba self.now.tper.store.config.sectors }
        ensures bytes { IfSome result (λ bytes. bytes.now ≡ sector_at self.now.media lba) }
        ensures told { (o : Origin) (acts : List Act) → Agrees self.now o acts
            → IfSome result (λ bytes. bytes.now ≡ sector_in (log o acts) lba) }
    {
        if lba < self.media.sectors() {
            Some(self.media.sector(lba).as_slice())
        } else {
            None
        }
    }
}
