//! Bytes of a drive's structures as lines: of each field the name that its standard gives it, and its value.
#![tactic(auto)]

mod com_packet;
mod device;
mod fault;
mod field;
mod fis_fields;
mod kind;
mod level0;
mod listing;
mod run;

pub use fault::DecodeFault;
pub use kind::{Kind, check, lines};
pub use run::{DecodeError, run_decode};
