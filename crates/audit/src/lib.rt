//! The audit log of a self-locking drive: why an act was denied, and the line of text that says so.
#![tactic(auto)]

mod line;
mod names;
mod reason;
pub mod rules;

pub use line::line_bytes;
pub use reason::{AttemptFailure, AuditLine, Why};
