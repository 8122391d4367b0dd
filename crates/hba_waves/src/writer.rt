//! A dump that is written as a controller serves.

ghost use Rattle.std.specs.Prelude.{◌≡◌, ◌∷◌, [], List, OnOk};
ghost use Rattle.hba.specs.History.{Opened, Operation, AgreesHba};
ghost use Rattle.hba_waves.specs.Looks.{moment_after};
ghost use Rattle.hba_waves.specs.Written.{GoesOnIf};

use crate::dump::append_look;
use crate::look::Look;
use hba::Hba;
use std::alloc::{AllocError, Global};
use std::io::Write;
use thiserror::Error;

/// Why a dump could not be written to its end.
#[derive(Clone, Copy, Debug, PartialEq, Eq, Error)]
pub enum DumpError {
    #[error("out of memory")]
    Memory,
    #[error("the dump could not be written")]
    Write,
}

impl From<AllocError> for DumpError {
    ghost use Rattle.std.specs.Prelude.{◌≡◌};
    ghost use Rattle.hba_waves.specs.declared.writer.DumpError.TheVariants.{Memory};

    ghost from_gives = { λ _ error. error ≡ Memory };

    fn from(_error: AllocError) -> DumpError {
        DumpError::Memory
    }
}

/// A dump that is written as a controller serves.
#[derive(Drop)]
pub struct Dump<D> {
    pub alloc: Global,
    /// What the last look showed.
    pub shown: Option<Look>,
    /// What is written next.
    pub text: Vec<u8>,
    pub out: D,
}

impl<D: Write + Drop> Dump<D> {
    ghost use Rattle.std.specs.Prelude.{◌++◌, None, Some, OnErr};
    ghost use Rattle.std.specs.Io.KnownBytes.{Appends};
    ghost use Rattle.hba_waves.specs.Dumps.{look_text};
    ghost use Rattle.hba_waves.specs.Written.{GoesOn};

    /// A dump that shows nothing yet.
    pub fn new(alloc: Global, out: D) -> Dump<D>
        ensures out { result.out ≡ out }
        ensures shown { result.shown ≡ None }
    {
        Dump {
            alloc,
            shown: None,
            text: Vec::new(alloc),
            out,
        }
    }

    /// Puts down what a look at this time adds.
    fn append(&mut self, time: u64, look: Look) -> Result<(), AllocError>
        ensures out { self.new.out ≡ self.old.out }
        ensures text { OnOk result (self.new.text.items
            ≡ look_text self.old.shown time look) }
        ensures shown { OnOk result (self.new.shown ≡ Some look) }
    {
        self.text.clear();
        append_look(self.alloc, &mut self.text, self.shown.as_ref(), time, &look)?;
        self.shown = Some(look);
        Ok(())
    }

    /// Writes what was put down, and has the writer pass it on.
    fn write(&mut self) -> Result<(), DumpError>
        ensures shown { self.new.shown ≡ self.old.shown }
        ensures written { OnOk result (Appends (D.contents self.old.out) (D.contents self.new.out)
            self.old.text.items) }
    {
        self.out
            .write_all(&self.text)
            .map_err(|_| DumpError::Write)?;
        self.out.flush().map_err(|_| DumpError::Write)?;
        Ok(())
    }

    /// Writes what a look at a controller shows at this time.
    ///
    /// # Errors
    ///
    /// An allocation was refused, or the writer failed.
    pub fn show(&mut self, time: u64, hba: &Hba) -> Result<(), DumpError>
        ensures { OnOk result ((o : Opened) (list : List Operation) → AgreesHba hba.now o list
            → GoesOn D.contents (moment_after o time list ∷ []) self.old self.new) }
    {
        let look = Look::of(self.alloc, hba)?;
        self.append(time, look)?;
        self.write()
    }
}

/// Writes what a look at a controller shows at this time, where a dump is wanted.
///
/// # Errors
///
/// An allocation was refused, or the writer failed.
pub fn show_if<D: Write + Drop>(
    dump: &mut Option<Dump<D>>,
    time: u64,
    hba: &Hba,
) -> Result<(), DumpError>
    ensures { OnOk result ((o : Opened) (list : List Operation) → AgreesHba hba.now o list
        → GoesOnIf D.contents (moment_after o time list ∷ []) dump.old dump.new) }
{
    match dump {
        Some(dump) => dump.show(time, hba),
        None => Ok(()),
    }
}
