//! One AHCI port with 32 command slots, the drive behind it, and the clients that share it (AHCI 1.3.1; ACS-3, NCQ
//! feature set).
#![tactic(auto)]

mod acting;
mod bare;
mod bare_checks;
mod bare_ready;
mod bare_steps;
mod built;
mod checks;
mod engine;
mod host;
mod lines;
mod live;
mod live_steps;
mod outcome;
mod port;
mod promises;
mod registers;
mod restarts;
mod stages;

pub use built::{Built, fits};
pub use lines::copy_line;
pub use live::{LivePort, laws_of_lines};
pub use outcome::Outcome;
pub use port::Port;
pub use port_history::{
    Answer, EngineStep, Entries, Entry, EntryRef, PlayError, PortError, Put, ReplyBytes, Request,
    Stage, Step, StepRef,
};
