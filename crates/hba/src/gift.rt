//! What a drive's answer gives, as bytes for the host's memory.

use drive::Given;
use host_memory::Source;

/// What a drive's answer gives.
#[derive(Drop)]
pub(crate) struct Gift<'a> {
    pub(crate) given: Given<'a>,
}

impl Source for Gift<'_> {
    ghost bytes = { λ gift. gift.given };

    fn len(&self) -> usize {
        self.given.len()
    }

    fn fill(&self, from: usize, into: &mut [u8]) {
        self.given.fill(from, into)
    }
}
