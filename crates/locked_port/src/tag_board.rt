//! Tags of command slots that threads claim and give back without a lock (AHCI 1.3.1, 3.1.1).

mod plays;
mod seat;

pub use seat::{TagBoard, TagSeat};
