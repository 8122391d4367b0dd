//! Bytes of the host's memory of which some regions alone are memory.

ghost use Rattle.std.specs.Prelude.{◌≡◌};
ghost use Rattle.std.specs.List.{list_any};
ghost use Rattle.library_calls.specs.Regions.{lies_in};

use hba::HostMemory;
use host_memory::{Source, copy_from, copy_source, copy_to};

/// A region of the host's memory: the address of its first byte, and how many bytes it has.
#[repr(C)]
#[derive(Clone, Copy, Debug, PartialEq, Eq)]
pub struct Region {
    pub begin: u64,
    pub length: u64,
}

/// Whether so many bytes at an address lie in a region.
fn lies_in(region: &Region, at: u64, len: usize) -> bool
    ensures { result ≡ lies_in at len region.now }
{
    let end = u128::from(region.begin) + u128::from(region.length);
    region.begin <= at && u128::from(at) + len as u128 <= end
}

/// Whether so many bytes at an address lie in one of the regions.
fn lies_in_any(regions: &[Region], at: u64, len: usize) -> bool
    ensures { result ≡ list_any (lies_in at len) regions.now }
{
    regions.iter().any(|region| lies_in(region, at, len))
}

/// Bytes at a base address, of which those in these regions alone are memory. An access is answered where all its bytes lie in
/// one of them; any other is refused.
#[derive(Drop)]
pub struct Regions<'a, 'b> {
    pub base: u64,
    pub bytes: &'a mut [u8],
    pub regions: &'b [Region],
}

impl<'a, 'b> Regions<'a, 'b> {
    ghost use Rattle.std.specs.Prelude.{◌≡◌};

    /// Bytes that stand at a base address.
    pub fn new(base: u64, bytes: &'a mut [u8], regions: &'b [Region]) -> Regions<'a, 'b>
        ensures same_reference { result.bytes.ghost_name ≡ bytes.entry.ghost_name }
        ensures base { result.base ≡ base }
        ensures bytes { result.bytes.now ≡ bytes.old }
        ensures regions { result.regions.now ≡ regions.now }
    {
        Regions {
            base,
            bytes,
            regions,
        }
    }
}

impl Regions<'_, '_> {
    ghost use Rattle.std.specs.Prelude.{◌≡◌, ◌≤◌, ◌+◌, length};
    ghost use Rattle.host_memory.specs.Access.{Asked, read_answer, memory_end};
    ghost use Rattle.library_calls.specs.Regions.{StandsWithin};

    /// Fills with the bytes at an address, where they are memory.
    fn copy(&self, at: u64, into: &mut [u8]) -> bool
        requires { at + length into.old ≤ memory_end }
        ensures { StandsWithin self.now.regions.now self.now.base self.now.bytes.now
            (Asked at (length into.old) (read_answer result into.new)) self.now.bytes.now }
    {
        if !lies_in_any(self.regions, at, into.len()) {
            return false;
        }
        copy_from(self.base, self.bytes, at, into)
    }
}

impl HostMemory for Regions<'_, '_> {
    ghost use Rattle.library_calls.specs.Regions.{RegionsDo};

    ghost does = { RegionsDo };

    fn read(&mut self, at: u64, into: &mut [u8]) -> bool {
        self.copy(at, into)
    }

    fn write(&mut self, at: u64, bytes: &[u8]) -> bool {
        lies_in_any(self.regions, at, bytes.len()) && copy_to(self.base, self.bytes, at, bytes)
    }

    fn write_from<S: Source>(&mut self, at: u64, source: &S, from: usize, to: usize) -> bool {
        lies_in_any(self.regions, at, to - from)
            && copy_source(self.base, self.bytes, at, source, from, to)
    }
}
