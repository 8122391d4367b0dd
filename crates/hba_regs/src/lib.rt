//! The registers of one AHCI port, by their offsets in the port's block.
#![tactic(auto)]

mod command;
mod error;
mod interrupt;
mod laws;
mod port;
mod register;

pub use command::PxCmd;
pub use error::RegError;
pub use interrupt::PxIs;
pub use laws::laws_of_access;
pub use port::PortRegs;
pub use register::Register;
