//! A self-locking drive: transfers over locking ranges, a queue, and the TPer behind its ComIDs (ACS-3; TCG Opal
//! SSC 2.01).
#![tactic(auto)]

mod answer;
mod boxes;
mod deciding;
mod decision;
mod drive;
mod error;
mod executing;
mod heads;
mod interface;
mod laws;
mod lending;
mod memory;
mod opening;
mod payload;
mod queue;
mod reset;
mod rest;
mod seen;
mod stack;
mod stored;
mod transfer;
mod trimming;

pub use answer::{Accepted, Completed, Form};
pub use audit::Why;
pub use device_data::Failure;
pub use drive::Drive;
pub use error::DriveError;
pub use history::ResetKind;
pub use laws::laws_of_openings;
pub use lending::{Given, Run};
pub use locking::RangeRow;
pub use opening::Opening;
pub use rest::{Rest, laws_of_rest};
pub use sp_cells::{DriveConfig, SetError};
