//! The blocks of the sectors that are erased, group by group.

ghost use Rattle.std.specs.Prelude.{◌≡◌, ◌+◌, ◌<◌, ◌≤◌, ◌^◌, length, set};
ghost use Rattle.shadow_mbr.specs.Stored.{zeros};
ghost use Rattle.shadow_mbr.specs.Places.{group_size, placed_from};
ghost use Rattle.shadow_mbr.specs.Erasure.{is_erased, block_erased, blocks_erased};

use crate::erasure::Erasure;
use crate::group_map::Group;
use crate::kept::{Block, zeros};

/// Makes zeros of the block at a place, if there is one.
fn clear(blocks: &mut Vec<Block>, place: usize)
    ensures { blocks.new.items ≡ set blocks.old.items place zeros }
{
    if place < blocks.len() {
        blocks[place] = *zeros();
    }
}

/// Makes zeros of the block of a sector, where it has one and is erased.
fn erase_block(erasure: &Erasure, sector: u128, place: Option<u32>, blocks: &mut Vec<Block>)
    ensures { blocks.new.items
        ≡ block_erased (is_erased erasure.now) sector place blocks.old.items }
{
    if let Some(place) = place {
        if erasure.erases(sector) {
            clear(blocks, place as usize);
        }
    }
}

/// Makes zeros of the blocks of the sectors of a group that are erased.
pub(crate) fn erase_group(erasure: &Erasure, first: u128, group: &Group, blocks: &mut Vec<Block>)
    requires { first + group_size < 2 ^ 128 }
    ensures erased { blocks.new.items
        ≡ blocks_erased (is_erased erasure.now) (placed_from first group.now) blocks.old.items }
    ensures long { length group.now ≡ group_size }
{
    for (i, place) in group.iter().enumerate() {
        erase_block(erasure, first + i as u128, *place, blocks);
    }
}
