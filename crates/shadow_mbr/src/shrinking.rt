//! Blocks that are zeros are let go.

ghost use Rattle.std.specs.Prelude.{◌≡◌, IfOk, OnOk, false, is_some, nat_eq, true, ℕ, if◌then◌else◌};
ghost use Rattle.std.specs.List.{list_any};
ghost use Rattle.shadow_mbr.specs.Stored.{block_in, kept_sector, zeros};

use crate::kept::{Block, Kept, zeros};
use std::alloc::{AllocError, Global};

/// Whether a block is zeros.
pub(crate) fn is_zeros(block: &Block) -> bool
    ensures { result ≡ true → block.now ≡ zeros }
{
    block.as_slice() == zeros().as_slice()
}

/// Lists the sectors among some whose bytes are not all zeros.
fn list_filled(kept: &Kept, filled: &mut Vec<u64>, sectors: &[u64]) -> Result<(), AllocError>
    ensures { OnOk result ((s : ℕ) → list_any (nat_eq s) sectors.now ≡ true
        → list_any (nat_eq s) filled.new.items ≡ false → kept_sector kept.now s ≡ zeros) }
{
    for sector in sectors {
        if !is_zeros(kept.sector(*sector)) {
            filled.push(*sector)?;
        }
    }
    Ok(())
}

/// Gives sectors, which are kept, the bytes that they have elsewhere.
fn copy_sectors(from: &Kept, to: &mut Kept, sectors: &[u64])
    requires { (s : ℕ) → list_any (nat_eq s) sectors.now ≡ true
        → is_some (block_in to.old s) ≡ true }
    ensures sectors { (s : ℕ) → kept_sector to.new s
        ≡ (if list_any (nat_eq s) sectors.now then kept_sector from.now s
        else kept_sector to.old s) }
{
    for sector in sectors {
        to.put(*sector, from.sector(*sector));
    }
}

/// The same sectors, but for those that are zeros: these are kept no more.
pub(crate) fn without_zeros(kept: &Kept, alloc: Global) -> Result<Kept, AllocError>
    ensures sectors { IfOk result (λ k. (s : ℕ) → kept_sector k s ≡ kept_sector kept.now s) }
{
    let sectors = kept.sectors(alloc)?;
    let mut filled = Vec::new(alloc);
    list_filled(kept, &mut filled, &sectors)?;
    let mut fewer = Kept::new(alloc);
    fewer.add_all(&filled)?;
    copy_sectors(kept, &mut fewer, &filled);
    Ok(fewer)
}
