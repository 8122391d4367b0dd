//! One look at a controller, and at the drive behind it.

use crate::words::Words;
use hba::Hba;
use pictures::samples::Sample;
use std::alloc::{AllocError, Global};

/// What one look at a controller shows: its drive, its registers, and whether its interrupt line is up.
#[derive(Drop)]
pub struct Look {
    pub drive: Sample,
    pub words: Words,
    pub line: bool,
}

impl Look {
    ghost use Rattle.std.specs.Prelude.{◌≡◌, IfOk, List};
    ghost use Rattle.hba.specs.History.{Opened, Operation, AgreesHba};
    ghost use Rattle.hba_waves.specs.Looks.{look_after};

    /// A look at a controller.
    ///
    /// # Errors
    ///
    /// An allocation was refused.
    pub fn of(alloc: Global, hba: &Hba) -> Result<Look, AllocError>
        ensures { IfOk result (λ look. (o : Opened) (list : List Operation)
            → AgreesHba hba.now o list → look ≡ look_after o list) }
    {
        let drive = Sample::of_drive(alloc, hba.drive())?;
        Ok(Look {
            drive,
            words: Words::of(hba),
            line: hba.interrupt(),
        })
    }
}
