//! What a list of steps of an AHCI port means, and laws of it (AHCI 1.3.1, 5.5 and 6.2; ACS-3, NCQ
//! feature set).
#![tactic(auto)]

mod entries;
mod error;
mod laws;
mod reply;
mod request;
mod showing;
mod stages;
mod step;

pub use entries::{Entries, EntryRef, StepRef};
pub use error::{PlayError, PortError};
pub use laws::{laws_of_equality, laws_of_limits, laws_of_steps};
pub use reply::ReplyBytes;
pub use request::{Answer, MOST_BLOCKS, Request};
pub use showing::show_all;
pub use stages::{Put, Stage, is_queued};
pub use step::{EngineStep, Entry, Step};
