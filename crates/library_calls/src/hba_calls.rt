//! A controller for callers that are no Rattle: its registers and its turns over a window of their memory, in numbers.

mod desk;
mod over;
mod regions;
mod worked;

pub use desk::HbaDesk;
pub use regions::Region;
pub use worked::Worked;
