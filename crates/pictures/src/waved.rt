//! The value change dump of a run: what each line left behind, as signals over time.

mod dump;
mod wave;

pub use dump::append_frame;
pub use wave::{Wave, wave_at, wave_bits, wave_name, wave_value};
