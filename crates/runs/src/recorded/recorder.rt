//! Who keeps the frames of a run.

ghost use Rattle.std.specs.Prelude.{◌++◌, ◌∷◌, [], ℕ, List, Option, OnOk};
ghost use Rattle.pictures.specs.declared.samples.frame.Frame.{Frame};

use crate::recorded::error::RecordError;
use pictures::samples::Frame;

/// Who keeps the frames of a run, as they come.
pub trait Recorder {
    /// That these frames came, behind what a writer held before, where there is one.
    ghost holds: { Option (List ℕ) → Self → List Frame → Type 0 };

    /// Takes the next frame.
    fn record(&mut self, frame: Frame) -> Result<(), RecordError>
        ensures { OnOk result ((before : Option (List ℕ)) (frames : List Frame)
            → holds before self.old frames → holds before self.new (frames ++ frame ∷ [])) };

    /// Passes on what came.
    fn hand_on(&mut self) -> Result<(), RecordError>
        ensures { OnOk result ((before : Option (List ℕ)) (frames : List Frame)
            → holds before self.old frames → holds before self.new frames) };
}
