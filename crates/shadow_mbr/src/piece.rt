//! The sectors that the bytes of a transfer stand in, and its pieces, which lie in one sector each.

ghost use Rattle.std.specs.Prelude.{◌≡◌, ◌+◌, ◌*◌, ◌%◌, ◌^◌, ◌<◌, ◌≤◌, ◌&&◌, ℕ, nat_le, nat_lt};
ghost use Rattle.shadow_mbr.specs.Stored.{sector_size, has_byte};

use crate::kept::SECTOR_SIZE;

pub(crate) const SECTOR: u64 = SECTOR_SIZE as u64;

/// How many of the bytes from a place on are in its sector.
pub(crate) fn piece_len(place: u64, len: usize) -> usize
    requires { 0 < len }
    ensures fits { place % sector_size + result ≤ sector_size }
    ensures within { result ≤ len }
    ensures some { 0 < result }
{
    ((SECTOR - place % SECTOR) as usize).min(len)
}

/// The first sector that has one of so many bytes from a place on, and the one behind the last.
#[tactic(auto, using(crate::proofs::Touched::has_byte_between))]
pub(crate) fn sectors_of(at: u64, len: usize) -> (u64, u64)
    requires { at + len < 2 ^ 64 }
    ensures from { result.0 ≤ result.1 }
    ensures within { (sectors : ℕ) → at + len ≤ sector_size * sectors → result.1 ≤ sectors }
    ensures touched { (s : ℕ) → has_byte at len s ≡ (nat_le result.0 s && nat_lt s result.1) }
{
    if len == 0 {
        (0, 0)
    } else {
        (at / SECTOR, (at + len as u64 - 1) / SECTOR + 1)
    }
}
