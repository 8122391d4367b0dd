//! The first bytes of sectors.

ghost use Rattle.std.specs.Prelude.{◌≡◌, ◌<◌, ◌++◌, ◌*◌, ◌/◌, IfOk, OnOk, length, take, drop};
ghost use Rattle.shadow_mbr.specs.Stored.{sector_size, head_size, heads};

use shadow_mbr::{HEAD_SIZE, SECTOR_SIZE};
use std::alloc::{AllocError, Global};

/// Appends the first bytes of a sector.
fn append_head(heads: &mut Vec<u8>, bytes: &[u8], sector: usize) -> Result<(), AllocError>
    requires { sector < length bytes.now / sector_size }
    ensures { OnOk result (heads.new.items
        ≡ heads.old.items ++ take head_size (drop (sector_size * sector) bytes.now)) }
{
    let at = SECTOR_SIZE * sector;
    heads.extend_from_slice(&bytes[at..at + HEAD_SIZE])?;
    Ok(())
}

/// The first bytes of each whole sector.
pub(crate) fn heads(alloc: Global, bytes: &[u8]) -> Result<Vec<u8>, AllocError>
    ensures { IfOk result (λ v. v.items ≡ heads bytes.now) }
{
    let mut heads = Vec::new(alloc);
    for sector in 0..bytes.len() / SECTOR_SIZE {
        append_head(&mut heads, bytes, sector)?;
    }
    Ok(heads)
}
