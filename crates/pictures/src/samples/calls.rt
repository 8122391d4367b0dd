//! What is open on a security provider.

use drive::Drive;
use sp_cells::Sp;

/// What is open on a security provider (TCG Core 2.01, 3.3.7 and 3.3.9).
#[derive(Clone, Copy, Debug, PartialEq, Eq)]
pub struct Calls {
    /// A session lives.
    pub session: bool,
    /// A transaction is open.
    pub transaction: bool,
}

impl Calls {
    ghost use Rattle.std.specs.Prelude.{◌≡◌, List};
    ghost use Rattle.history.specs.Facts.{facts};
    ghost use Rattle.history.specs.History.{Act, log};
    ghost use Rattle.history.specs.Opening.{Origin};
    ghost use Rattle.drive.specs.State.{Agrees};
    ghost use Rattle.pictures.specs.Samples.{calls_on};

    /// What is open on a security provider of a drive.
    pub fn on(drive: &Drive, sp: Sp) -> Calls
        ensures { (o : Origin) (acts : List Act) → Agrees drive.now o acts
            → result ≡ calls_on (facts o (log o acts)) sp }
    {
        Calls {
            session: drive.has_session(sp),
            transaction: drive.has_transaction(sp),
        }
    }
}
