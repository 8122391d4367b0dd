//! How much data a drive is to be given with a FIS.

ghost use Rattle.std.specs.Prelude.{◌≡◌, List};

use crate::drive::Drive;
use fis::{H2D_LENGTH, H2D_TYPE, RegH2d};
use trusted_cmds::payload_len;

impl Drive {
    ghost use Rattle.std.specs.Prelude.{slice_index};
    ghost use Rattle.fis.specs.H2d.{h2d_at};
    ghost use Rattle.fis.specs.Types.{h2d_type};
    ghost use Rattle.history.specs.Answers.{payload_of};
    ghost use Rattle.history.specs.History.{Act};
    ghost use Rattle.history.specs.Opening.{Origin};
    ghost use Rattle.drive.specs.State.{Agrees};

    /// [`Drive::payload_len`] of a FIS whose fields were read, so that they are not read again.
    pub fn payload_len_of(&self, fis: &[u8; H2D_LENGTH], h: &RegH2d) -> usize
        requires kind { slice_index fis.now 0 ≡ h2d_type }
        requires read { h.now ≡ h2d_at fis.now }
        ensures { result ≡ payload_of self.now.tper.store.config fis.now }
    {
        payload_len(self.profile(), h)
    }

    /// How many bytes [`Drive::accept`] wants with these: those that the command brings, and none where
    /// the first byte is not the 27h of a host's register FIS, so that they carry no command (Serial
    /// ATA, "Register Host to Device FIS").
    pub fn payload_len(&self, fis: &[u8; H2D_LENGTH]) -> usize
        ensures stands { result ≡ payload_of self.now.tper.store.config fis.now }
        ensures told { (o : Origin) (acts : List Act) → Agrees self.now o acts
            → result ≡ payload_of o.tables.config fis.now }
    {
        if fis[0] == H2D_TYPE {
            self.payload_len_of(fis, &RegH2d::read(fis))
        } else {
            0
        }
    }
}
