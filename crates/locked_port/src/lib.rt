//! A port that clients and an engine share under one lock, while tags are claimed without it (AHCI 1.3.1, 5.5).
#![tactic(auto)]

mod desk;
mod gate;
mod locked;
mod pass;
mod receipts;
pub mod tag_board;
mod ticket;

pub use gate::{Gate, Pick};
pub use locked::{Closed, LockedPort};
pub use pass::{Pass, PortName};
pub use receipts::check_receipts;
pub use ticket::{Receipt, Ticket};
