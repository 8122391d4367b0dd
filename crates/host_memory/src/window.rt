//! A host's memory of bytes that stand at a base address.

ghost use Rattle.std.specs.Prelude.{◌≡◌, ◌≤◌, ◌+◌, ◌-◌, ◌^◌, ◌<◌, length, slice_range, true};
ghost use Rattle.host_memory.specs.Access.{read_answer, memory_end};
ghost use Rattle.host_memory.specs.Window.{is_held, bytes_held_at, bytes_laid};

use crate::host::{HostMemory, Source};

/// Bytes of the host's memory, from a base address on. Those that stand past the last address are never reached.
#[repr(C)]
#[derive(Drop)]
pub struct Window<'a> {
    pub base: u64,
    pub bytes: &'a mut [u8],
}

/// Whether so many bytes at an address stand among these.
fn is_held(base: u64, bytes: &[u8], at: u64, len: usize) -> bool
    requires { at + len ≤ memory_end }
    ensures { result ≡ is_held base bytes.now at len }
{
    base <= at && len <= bytes.len() && at - base <= (bytes.len() - len) as u64
}

/// Fills with the bytes that stand at an address of the host's memory, of which `bytes` are those from `base` on: byte
/// `at - base` and those behind it. `false` where one of them stands before `base` or behind the last.
///
/// A caller sees to it that `at + into.len()` has 64 bits.
pub fn copy_from(base: u64, bytes: &[u8], at: u64, into: &mut [u8]) -> bool
    requires { at + length into.old ≤ memory_end }
    ensures { read_answer result into.new ≡ bytes_held_at base bytes.now at (length into.old) }
{
    if !is_held(base, bytes, at, into.len()) {
        return false;
    }
    let place = (at - base) as usize;
    into.copy_from_slice(&bytes[place..place + into.len()]);
    true
}

/// [`copy_to`] of the bytes of a source, those from a place up to another.
pub fn copy_source<S: Source>(
    base: u64,
    bytes: &mut [u8],
    at: u64,
    source: &S,
    from: usize,
    to: usize,
) -> bool
    requires order { from ≤ to }
    requires there { to ≤ length (S.bytes source.now) }
    requires low { at + (to - from) ≤ memory_end }
    ensures done { result ≡ is_held base bytes.old at (to - from) }
    ensures bytes { bytes.new
        ≡ bytes_laid base bytes.old at (slice_range (S.bytes source.now) from to) }
{
    let len = to - from;
    if !is_held(base, bytes, at, len) {
        return false;
    }
    let place = (at - base) as usize;
    source.fill(from, &mut bytes[place..place + len]);
    true
}

/// Writes bytes at an address of the host's memory, of which `bytes` are those from `base` on: in the place of byte
/// `at - base` and those behind it. `false` where one of these stands before `base` or behind the last; then nothing is
/// written.
///
/// A caller sees to it that `at + others.len()` has 64 bits.
pub fn copy_to(base: u64, bytes: &mut [u8], at: u64, others: &[u8]) -> bool
    requires { at + length others.now ≤ memory_end }
    ensures done { result ≡ is_held base bytes.old at (length others.now) }
    ensures bytes { bytes.new ≡ bytes_laid base bytes.old at others.now }
{
    if !is_held(base, bytes, at, others.len()) {
        return false;
    }
    let place = (at - base) as usize;
    bytes[place..place + others.len()].copy_from_slice(others);
    true
}

impl<'a> Window<'a> {
    ghost use Rattle.std.specs.Prelude.{◌≡◌, ◌≤◌, ◌+◌, length};
    ghost use Rattle.host_memory.specs.Access.{read_answer, memory_end};
    ghost use Rattle.host_memory.specs.Window.{is_held, bytes_held_at};

    /// Bytes that stand at a base address.
    pub fn new(base: u64, bytes: &'a mut [u8]) -> Window<'a>
        ensures same_reference { result.bytes.ghost_name ≡ bytes.entry.ghost_name }
        ensures base { result.base ≡ base }
        ensures bytes { result.bytes.now ≡ bytes.old }
    {
        Window { base, bytes }
    }

    /// Whether the window has so many bytes at an address.
    pub(crate) fn has(&self, at: u64, len: usize) -> bool
        requires { at + len ≤ memory_end }
        ensures { result ≡ is_held self.now.base self.now.bytes.now at len }
    {
        is_held(self.base, self.bytes, at, len)
    }

    pub(crate) fn fill(&self, at: u64, into: &mut [u8]) -> bool
        requires { at + length into.old ≤ memory_end }
        ensures { read_answer result into.new
            ≡ bytes_held_at self.now.base self.now.bytes.now at (length into.old) }
    {
        copy_from(self.base, self.bytes, at, into)
    }
}

impl HostMemory for Window<'_> {
    ghost use Rattle.host_memory.specs.WindowLaws.{WindowDoes};

    ghost does = { WindowDoes };

    fn read(&mut self, at: u64, into: &mut [u8]) -> bool {
        self.fill(at, into)
    }

    fn write(&mut self, at: u64, bytes: &[u8]) -> bool {
        copy_to(self.base, self.bytes, at, bytes)
    }

    fn write_from<S: Source>(&mut self, at: u64, source: &S, from: usize, to: usize) -> bool {
        copy_source(self.base, self.bytes, at, source, from, to)
    }
}
