//! What a line of a script left behind.

use crate::samples::sample::Sample;
use basics::Bytes;

/// What a line of a script left behind: the line with its number, the last line that was printed then, and what a look
/// showed. The frame of an opening has the number 0, and no line.
#[derive(Drop)]
pub struct Frame {
    pub number: u64,
    pub line: Bytes,
    pub last: Bytes,
    pub sample: Sample,
}
