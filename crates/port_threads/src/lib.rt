//! Clients and an engine at one port, each in a thread of its own.
#![tactic(auto)]

mod error;
mod facts;
mod load;
mod log;
mod run;
mod work;

pub use error::LoadError;
pub use load::{Load, LoadFault};
pub use run::{run_load, run_threads};
