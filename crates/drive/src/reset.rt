//! The reset that a command makes (TCG Storage, "Reset types"), and the software reset, which is none of those (ACS-3,
//! SRST in the Device Control field).

ghost use Rattle.std.specs.Prelude.{◌≡◌};

use crate::drive::Drive;
use crate::queue::Queue;

/// The number that the LockOnReset and DoneOnReset columns have for it.
pub(crate) const PROGRAMMATIC: u8 = 3;

impl Drive {
    ghost use Rattle.std.specs.Prelude.{[], ◌∷◌, ◌++◌, List};
    ghost use Rattle.history.specs.History.{Act, SoftwareReset};
    ghost use Rattle.history.specs.Opening.{Origin};
    ghost use Rattle.drive.specs.Queue.{empty_queue};
    ghost use Rattle.drive.specs.State.{Agrees, AgreesInOrder};

    /// A software reset: what is held goes, and none of it is answered; a queue that had failed is over. All else
    /// stands: locks, sessions, transactions, Tries, the responses that wait, and media. It takes no memory.
    pub fn software_reset(&mut self)
        ensures agrees { (o : Origin) (acts : List Act) → Agrees self.old o acts
            → Agrees self.new o (SoftwareReset ∷ acts) }
        ensures in_order { (o : Origin) (acts : List Act) → AgreesInOrder self.old o acts
            → AgreesInOrder self.new o (acts ++ SoftwareReset ∷ []) }
    {
        self.end_queue();
    }

    /// Drops all that is held, and the failure.
    fn end_queue(&mut self)
        ensures { self.new ≡ record self.old { queue = empty_queue } }
    {
        *self.queue = Queue::new();
    }
}
