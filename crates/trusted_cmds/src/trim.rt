//! The sectors that a DATA SET MANAGEMENT command with TRIM names (ACS-3, "DATA SET MANAGEMENT").

ghost use Rattle.std.specs.Prelude.{◌≡◌, ◌<◌, ◌^◌, ◌++◌, IfOk, OnOk};
ghost use Rattle.trusted_cmds.specs.Trims.{are_trim_blocks, extent_of, some_sectors, extents_of, extents_in, count_unit};

use byteorder::{ByteOrder, LittleEndian};
use std::alloc::{AllocError, Global};

/// Sectors that follow one another.
#[derive(Clone, Copy, Debug, PartialEq, Eq)]
pub struct Extent {
    /// The first; below 2^48.
    pub lba: u64,
    /// How many there are.
    pub count: u16,
}

/// How many blocks of entries a command brings at most.
pub const MOST_TRIM_BLOCKS: u16 = 8;

/// How many bytes an entry has.
const ENTRY_SIZE: usize = 8;

/// Whether a command may bring so many blocks of entries.
pub(crate) fn are_trim_blocks(blocks: u16) -> bool
    ensures { result ≡ are_trim_blocks blocks }
{
    0 < blocks && blocks <= MOST_TRIM_BLOCKS
}

/// The sectors of an entry: bits 47:0 are the first, 63:48 how many there are.
fn extent_of(entry: u64) -> Extent
    ensures value { result ≡ extent_of entry }
    ensures address { result.lba < count_unit }
{
    Extent {
        lba: entry % (1 << 48),
        count: (entry >> 48) as u16,
    }
}

/// Appends the sectors of an entry, where it has some.
fn append_extent(into: &mut Vec<Extent>, entry: u64) -> Result<(), AllocError>
    ensures { OnOk result (into.new.items ≡ into.old.items ++ some_sectors (extent_of entry)) }
{
    let extent = extent_of(entry);
    if extent.count != 0 {
        into.push(extent)?;
    }
    Ok(())
}

/// The sectors that the entries of a payload name, in their order: each entry has eight bytes, the low one first, and one of no
/// sectors is left out.
///
/// # Errors
///
/// An allocation was refused.
#[tactic(auto, unfolding(crate::specs::Trims::extents_of))]
pub fn extents_in(alloc: Global, payload: &[u8]) -> Result<Vec<Extent>, AllocError>
    ensures { IfOk result (λ extents. extents.items ≡ extents_in payload.now) }
{
    let mut extents = Vec::new(alloc);
    for n in 0..payload.len() / ENTRY_SIZE {
        append_extent(
            &mut extents,
            LittleEndian::read_u64(&payload[ENTRY_SIZE * n..]),
        )?;
    }
    Ok(extents)
}
