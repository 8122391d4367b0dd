//! A port for callers that are no Rattle: its steps in bytes and numbers.

mod asked;
mod desk;
mod ready;
mod refusals;
mod shown;
mod taken;

pub use asked::Asked;
pub use desk::PortDesk;
pub use ready::ReadyStep;
pub use shown::Shown;
pub use taken::Taken;
