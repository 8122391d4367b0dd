//! The media of a drive and the bytes of its shadow MBR, kept by the sectors that were written.
//!
//! Each byte is the last one that was written there since `new`, `wipe` or an erasure of it, else zero. A sector
//! that was never written takes no memory.
#![tactic(auto)]

mod erased;
mod erasing;
mod erasure;
mod group_map;
mod indexes;
mod kept;
mod laws;
mod listing;
mod mbr;
mod media;
mod piece;
mod places;
mod sectors;
mod shrinking;

pub use erased::Erased;
pub use erasure::{Erasure, MOST_RUNS, Run, Runs};
pub use kept::{Block, HEAD_SIZE, SECTOR_SIZE};
pub use laws::laws_of_kept;
pub use mbr::Mbr;
pub use media::Media;
