//! The frames of a run that is drawn.

use crate::recorded::error::RecordError;
use crate::recorded::recorder::Recorder;
use pictures::pictured::MOST_FRAMES;
use pictures::samples::Frame;
use std::alloc::{AllocError, Global};

/// The frames of a run that is drawn: as many as a picture has room for.
#[derive(Drop)]
pub struct Frames {
    pub frames: Vec<Frame>,
}

impl Frames {
    ghost use Rattle.std.specs.Prelude.{◌≡◌, []};

    /// None came.
    pub fn new(alloc: Global) -> Frames
        ensures { result.frames.items ≡ [] }
    {
        Frames {
            frames: Vec::new(alloc),
        }
    }
}

impl Recorder for Frames {
    ghost use Rattle.std.specs.Prelude.{◌≡◌};

    ghost holds = { λ _ s frames. s.frames.items ≡ frames };

    fn record(&mut self, frame: Frame) -> Result<(), RecordError> {
        if self.frames.len() >= MOST_FRAMES {
            return Err(RecordError::Full);
        }
        if self.frames.push(frame).is_err() {
            return Err(AllocError.into());
        }
        Ok(())
    }

    fn hand_on(&mut self) -> Result<(), RecordError> {
        Ok(())
    }
}
