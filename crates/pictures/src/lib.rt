//! Pictures and waveforms of a run: a look at a drive or a port after each line, as lanes of a picture and as signals.
#![tactic(auto)]

pub mod pictured;
pub mod samples;
pub mod waved;
