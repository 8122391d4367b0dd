//! What a host's memory answers.

ghost use Rattle.std.specs.Prelude.{◌≡◌, ◌≤◌, ◌+◌, ◌-◌, ℕ, List, length, slice_range};
ghost use Rattle.host_memory.specs.Access.{Access, Asked, Laid, memory_end, read_answer};

/// Bytes that stand anywhere, and are copied from there to where they are wanted.
pub trait Source {
    /// The bytes.
    ghost bytes: { Self → List ℕ };

    /// How many there are.
    fn len(&self) -> usize
        ensures { result ≡ length (bytes self.now) };

    /// Fills `into` with the bytes from a place on.
    fn fill(&self, from: usize, into: &mut [u8])
        requires { from + length into.old ≤ length (bytes self.now) }
        ensures { into.new ≡ slice_range (bytes self.now) from (from + length into.old) };
}

impl Source for &[u8] {
    ghost use Rattle.std.specs.Prelude.{ℕ, List};

    ghost bytes = { λ s. s.now };

    fn len(&self) -> usize {
        let bytes: &[u8] = self;
        bytes.len()
    }

    fn fill(&self, from: usize, into: &mut [u8]) {
        into.copy_from_slice(&self[from..from + into.len()]);
    }
}

/// A host's memory. It may be a window of bytes, or somebody behind a pipe who answers each access as he likes: what an access
/// is answered, and what memory is left, is the type's own to say. An address has 64 bits, and so has the one behind the last
/// byte of an access.
pub trait HostMemory {
    /// An access, between the memory before it and the memory after it.
    ghost does: { Self → Access → Self → Type 0 };

    /// Fills `into` with the bytes at an address; false where one of them is no memory. What stands in `into` then
    /// is not said.
    fn read(&mut self, at: u64, into: &mut [u8]) -> bool
        requires { at + length into.old ≤ memory_end }
        ensures { does self.old (Asked at (length into.old) (read_answer result into.new))
            self.new };

    /// Writes bytes at an address; false where one of them is no memory, and nothing is written then.
    fn write(&mut self, at: u64, bytes: &[u8]) -> bool
        requires { at + length bytes.now ≤ memory_end }
        ensures { does self.old (Laid at bytes.now result) self.new };

    /// Writes bytes of a source at an address, those from a place up to another; false where one of them is no memory,
    /// and nothing is written then.
    fn write_from<S: Source>(&mut self, at: u64, source: &S, from: usize, to: usize) -> bool
        requires order { from ≤ to }
        requires there { to ≤ length (S.bytes source.now) }
        requires low { at + (to - from) ≤ memory_end }
        ensures { does self.old
            (Laid at (slice_range (S.bytes source.now) from to) result) self.new };
}
