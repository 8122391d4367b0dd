//! The host's memory, as a controller reaches it.
#![tactic(auto)]

pub mod hba_memory;
mod host;
mod laws;
mod reach;
mod width;
mod window;
mod windows;

pub use host::{HostMemory, Source};
pub use laws::{laws_of_deliveries, laws_of_headers, laws_of_orders, laws_of_windows};
pub use reach::{read_array, read_at, write_at, write_source_at};
pub use width::AddressWidth;
pub use window::{Window, copy_from, copy_source, copy_to};
pub use windows::Windows;
