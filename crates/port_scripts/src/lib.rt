//! What the lines of a script do on a port, what they print, and what is told of a refusal behind that.
#![tactic(auto)]

mod ahead;
mod explaining;
mod port_desk;
mod port_phase;
mod port_reasons;

pub use port_desk::PortDesk;
pub use port_phase::{PortPhase, request_of};
pub use port_reasons::{port_refusal, slot_refusal};
