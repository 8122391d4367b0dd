//! Frame information structures (FISes) of Serial ATA, as values and as bytes.
#![tactic(auto)]

mod any;
mod bytes;
mod d2h;
mod dma_setup;
mod error;
mod fields;
mod h2d;
mod pio_setup;
mod set_device_bits;
mod tag;

pub use any::Fis;
pub use d2h::RegD2h;
pub use dma_setup::DmaSetup;
pub use error::FisError;
pub use fields::{Lba, PortNumber, StatusBits};
pub use h2d::{H2D_LENGTH, H2D_TYPE, RegH2d};
pub use pio_setup::PioSetup;
pub use set_device_bits::SetDeviceBits;
pub use tag::{SLOT_COUNT, Tag};
