//! Waveforms of a controller: what a look at its registers and at its drive shows behind each line of a host, as signals over
//! time.
#![tactic(auto)]

mod dump;
mod look;
mod signal;
mod words;
mod writer;

pub use dump::append_look;
pub use look::Look;
pub use signal::{SIGNALS, Signal, signal_at, signal_bits, signal_name, signal_value};
pub use words::Words;
pub use writer::{Dump, DumpError, show_if};
