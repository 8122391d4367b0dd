//! Records of runs: what each line of a script left behind, as a picture and as a dump of waveforms.

mod draw;
mod dump;
mod error;
mod frames;
mod front;
mod look;
mod recorder;
mod script;
mod stepped;

pub use draw::draw_script;
pub use dump::{Dump, run_script_with_dump};
pub use error::RecordError;
pub use frames::Frames;
pub use recorder::Recorder;
pub use script::record_script;
pub use stepped::SteppedRun;
