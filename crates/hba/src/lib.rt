//! An AHCI host bus adapter with one port, by its registers, over a drive (AHCI 1.3.1).
#![tactic(auto)]

mod blocks;
mod engine;
mod gift;
mod hba;
mod laws;
mod registers;
mod showing;
mod software_reset;
mod turning;
mod work;

pub use hba::Hba;
pub use host_memory::{AddressWidth, HostMemory, Window};
pub use laws::{
    laws_of_access, laws_of_addresses, laws_of_bits, laws_of_blocks, laws_of_failures,
    laws_of_orders, laws_of_queues, laws_of_service, laws_of_slots, laws_of_writes,
};
pub use registers::Registers;
pub use work::{Done, HbaError, Heard, MemoryFault, Turned, TurnedHeard, Work};
