//! Calls in bytes and numbers, for callers that are no Rattle: tokens, frames and FISes, a port, a controller.
#![tactic(auto)]

pub mod byte_calls;
pub mod denied;
pub mod hba_calls;
pub mod port_calls;
