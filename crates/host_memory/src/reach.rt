//! Accesses of a host's memory at any address, by how many bits addresses have: bytes past the last are no memory.

ghost use Rattle.std.specs.Prelude.{◌≡◌, ◌≤◌, ◌+◌, ◌-◌, ◌^◌, ◌<◌, nat_le, length, slice_range};
ghost use Rattle.host_memory.specs.Access.{Asked, Laid, IsAccess, address_end, read_answer};

use crate::host::{HostMemory, Source};
use crate::width::AddressWidth;

/// Whether so many bytes at an address all have addresses. A sum of addresses has up to 128 bits, so that none wraps.
fn is_reachable(width: AddressWidth, at: u128, len: usize) -> bool
    ensures { result ≡ nat_le (at + len) (address_end width) }
{
    let end = u128::from(width.end());
    at <= end && len as u128 <= end - at
}

/// Fills `into` with the bytes at an address; false where one of them is no memory.
pub fn read_at<M: HostMemory>(
    memory: &mut M,
    width: AddressWidth,
    at: u128,
    into: &mut [u8],
) -> bool
    ensures { IsAccess width M.does memory.old
        (Asked at (length into.old) (read_answer result into.new)) memory.new }
{
    if !is_reachable(width, at, into.len()) {
        return false;
    }
    memory.read(at as u64, into)
}

/// Writes bytes at an address; false where one of them is no memory, and nothing is written then.
pub fn write_at<M: HostMemory>(memory: &mut M, width: AddressWidth, at: u128, bytes: &[u8]) -> bool
    ensures { IsAccess width M.does memory.old (Laid at bytes.now result) memory.new }
{
    if !is_reachable(width, at, bytes.len()) {
        return false;
    }
    memory.write(at as u64, bytes)
}

/// Writes bytes of a source at an address, those from a place up to another; false where one of them is no memory, and
/// nothing is written then.
pub fn write_source_at<M: HostMemory, S: Source>(
    memory: &mut M,
    width: AddressWidth,
    at: u128,
    source: &S,
    from: usize,
    to: usize,
) -> bool
    requires order { from ≤ to }
    requires there { to ≤ length (S.bytes source.now) }
    ensures { IsAccess width M.does memory.old
        (Laid at (slice_range (S.bytes source.now) from to) result) memory.new }
{
    if !is_reachable(width, at, to - from) {
        return false;
    }
    memory.write_from(at as u64, source, from, to)
}

/// So many bytes at an address; `None` where one of them is no memory.
pub fn read_array<M: HostMemory, const N: usize>(
    memory: &mut M,
    width: AddressWidth,
    at: u128,
) -> Option<[u8; N]>
    ensures { IsAccess width M.does memory.old (Asked at N result) memory.new }
{
    let mut bytes = [0; N];
    if read_at(memory, width, at, &mut bytes) {
        Some(bytes)
    } else {
        None
    }
}
