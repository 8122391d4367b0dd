//! ATA commands of a self-locking drive, and the FISes that carry them (ACS-3).
#![tactic(auto)]

mod block;
mod codes;
mod command;
mod control;
mod feature;
mod fields;
mod general;
mod log_pages;
mod payload;
mod reading;
mod reset;
mod spelling;
mod trim;

pub use block::{BLOCK_COM_ID, SidBlock, is_block_sid};
pub use codes::is_queued;
pub use command::{Command, CommandError};
pub use control::Control;
pub use feature::{Feature, is_multiword, is_ultra};
pub use fields::{sectors, tag_of};
pub use log_pages::LogPages;
pub use payload::{SECTOR_SIZE, payload_len};
pub use reading::{laws_of_profiles, of_fis};
pub use reset::{
    RESET_COM_ID, RESET_PROTOCOL, is_certificate_data, is_programmatic_reset, is_protocol_list,
};
pub use spelling::to_fis;
pub use trim::{Extent, MOST_TRIM_BLOCKS, extents_in};
