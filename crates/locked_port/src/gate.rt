//! Who chooses what the engine does.

use port::EngineStep;

/// What a gate answers.
#[derive(Clone, Copy, Debug, PartialEq, Eq)]
pub enum Pick {
    /// The step at this place of those that are ready, modulo their number.
    Do(usize),
    /// No step in this turn.
    Hold,
    /// The engine ends.
    Stop,
}

/// Chooses the engine's next step among those that are ready. It is asked under the lock.
pub trait Gate {
    fn pick(&self, ready: &[EngineStep]) -> Pick;
}
