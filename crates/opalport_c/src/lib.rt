//! The library for C: a drive, a port and a controller for callers that are no Rattle, behind handles, in bytes and numbers.
//! `include/opalport.h` declares its exports.
#![tactic(auto)]

mod about;
mod answer;
mod asked;
mod bytes;
mod copies;
mod denials;
mod denied;
mod drive_desk;
mod drives;
mod failed;
mod handle;
mod hba_object;
mod hbas;
mod media;
mod numbers;
mod object;
mod parts;
mod place;
mod port_object;
mod ports;
mod refusals;
mod remedy;
mod saves;
mod settings;
mod version;

pub use about::About;
pub use answer::Answer;
pub use asked::{ANY_SIZE, Names, RangeCells, Size, config_asked, drive_asked, drive_made};
pub use drive_desk::DriveDesk;
pub use failed::Failed;
pub use handle::Handle;
pub use numbers::Given;
pub use object::Object;
pub use place::Place;
