//! A host's memory of several windows.

ghost use Rattle.std.specs.Prelude.{◌≡◌, ◌≤◌, ◌+◌, ◌-◌, length, slice_range, MatchOption, IfSome, ◌<◌};
ghost use Rattle.host_memory.specs.Access.{Access, Asked, Laid, memory_end, read_answer};
ghost use Rattle.host_memory.specs.Window.{is_held};
ghost use Rattle.host_memory.specs.WindowLaws.{WindowDoes};
ghost use Rattle.host_memory.specs.Windows.{IsFirst, NoWindowHas, WindowsStand};

use crate::host::{HostMemory, Source};
use crate::window::Window;

/// Windows of the host's memory. An access is answered by the first that has all its bytes.
#[derive(Drop)]
pub struct Windows<'a, 'b> {
    pub windows: &'b mut [Window<'a>],
}

/// The place of the first window that has so many bytes at an address.
fn first_with(windows: &[Window<'_>], at: u64, len: usize) -> Option<usize>
    requires { at + len ≤ memory_end }
    ensures first { MatchOption result (NoWindowHas at len windows.now) (λ place.
        IsFirst at len windows.now place) }
    ensures there { IfSome result (λ place. place < length windows.now) }
{
    for place in 0..windows.len() {
        if windows[place].has(at, len) {
            return Some(place);
        }
    }
    None
}

/// Fills with the bytes at an address.
fn read_in(windows: &mut [Window<'_>], at: u64, into: &mut [u8]) -> bool
    requires { at + length into.old ≤ memory_end }
    ensures { WindowsStand windows.old (Asked at (length into.old) (read_answer result into.new))
        windows.new }
{
    let Some(place) = first_with(windows, at, into.len()) else {
        return false;
    };
    windows[place].fill(at, into)
}

/// Writes bytes at an address.
fn write_in(windows: &mut [Window<'_>], at: u64, bytes: &[u8]) -> bool
    requires { at + length bytes.now ≤ memory_end }
    ensures { WindowsStand windows.old (Laid at bytes.now result) windows.new }
{
    let Some(place) = first_with(windows, at, bytes.len()) else {
        return false;
    };
    windows[place].write(at, bytes)
}

/// Writes bytes of a source at an address, those from a place up to another.
fn write_source_in<S: Source>(
    windows: &mut [Window<'_>],
    at: u64,
    source: &S,
    from: usize,
    to: usize,
) -> bool
    requires order { from ≤ to }
    requires there { to ≤ length (S.bytes source.now) }
    requires low { at + (to - from) ≤ memory_end }
    ensures { WindowsStand windows.old
        (Laid at (slice_range (S.bytes source.now) from to) result) windows.new }
{
    let Some(place) = first_with(windows, at, to - from) else {
        return false;
    };
    windows[place].write_from(at, source, from, to)
}

impl HostMemory for Windows<'_, '_> {
    ghost use Rattle.host_memory.specs.Windows.{WindowsDo};

    ghost does = { WindowsDo };

    fn read(&mut self, at: u64, into: &mut [u8]) -> bool {
        read_in(self.windows, at, into)
    }

    fn write(&mut self, at: u64, bytes: &[u8]) -> bool {
        write_in(self.windows, at, bytes)
    }

    fn write_from<S: Source>(&mut self, at: u64, source: &S, from: usize, to: usize) -> bool {
        write_source_in(self.windows, at, source, from, to)
    }
}
