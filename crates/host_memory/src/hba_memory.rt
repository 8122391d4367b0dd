//! What an HBA asks of the host's memory for a command: its header, its data, and the places of FISes (AHCI 1.3.1,
//! section 4).

mod delivery;
mod miss;
mod reading;

pub use delivery::{Arrival, Place, deliver, post_all};
pub use miss::Miss;
pub use reading::{Header, Moved, gather, header_by, is_command};
