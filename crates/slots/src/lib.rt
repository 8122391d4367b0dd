//! The memory that a host shares with one AHCI port: the command list, the received FISes, the
//! command tables and a buffer for each slot.
#![tactic(auto)]

mod command_block;
mod error;
mod fetched;
pub mod fields;
mod layout;
mod memory;
mod parts;

pub use command_block::CommandBlock;
pub use error::FetchError;
pub use fetched::Fetched;
pub use layout::{BUFFER, MEMORY};
pub use memory::PortMemory;
