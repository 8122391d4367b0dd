//! What the engine of a port may do, as numbers.

ghost use Rattle.std.specs.Prelude.{◌≡◌, map};
ghost use Rattle.library_calls.specs.Listed.{ready_numbers, IsWrittenList};

use crate::byte_calls::{CallError, Count};
use port::EngineStep;

/// A step that the engine may do.
#[repr(C)]
#[derive(Clone, Copy, Debug, PartialEq, Eq)]
pub struct ReadyStep {
    /// 0 is Issue, 1 Accept, 2 Complete, 3 Recover.
    pub kind: u8,
    /// Its tag; 0 of a Recover.
    pub tag: u8,
}

impl ReadyStep {
    /// The numbers of a step.
    fn of(step: EngineStep) -> ReadyStep
        ensures { result ≡ ready_numbers step }
    {
        let (kind, tag) = match step {
            EngineStep::Issue { tag } => (0, tag.number()),
            EngineStep::Accept { tag } => (1, tag.number()),
            EngineStep::Complete { tag } => (2, tag.number()),
            EngineStep::Recover => (3, 0),
        };
        ReadyStep { kind, tag }
    }
}

/// Writes steps to the front of a buffer, and tells how many they are. Where they have no room, nothing is written.
pub(crate) fn list_out(steps: &[EngineStep], into: &mut [ReadyStep]) -> Count
    ensures { IsWrittenList (map ready_numbers steps.now) into.old into.new result }
{
    let number = steps.len();
    if number > into.len() {
        return Count {
            code: CallError::Room.code(),
            number,
        };
    }
    for i in 0..number {
        into[i] = ReadyStep::of(steps[i]);
    }
    Count::of(number)
}
