//! What the lines of a script do on a drive, what they print, and what is told of a denial behind that.
#![tactic(auto)]

mod commands;
mod drive_phase;
mod explainer;
mod payload;
mod printing;
mod running;
mod source;
mod turn;

pub use commands::{COM_ID_PROTOCOL, kind_named};
pub use drive_phase::DrivePhase;
pub use explainer::Explainer;
pub use payload::{fill, pad};
pub use printing::shown;
pub use reasons::explained::Source;
pub use source::source_of;
pub use turn::{Fault, Turn, expectation};
