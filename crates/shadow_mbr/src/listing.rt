//! The sectors that have a place, listed group by group.

ghost use Rattle.std.specs.Prelude.{IfOk, OnOk, ◌≡◌, ◌+◌, ◌<◌, ◌^◌, ◌++◌, [], ◌∷◌, length};
ghost use Rattle.std.specs.Map.{keys_of};
ghost use Rattle.shadow_mbr.specs.Places.{group_size, placed_from};

use crate::group_map::Group;
use std::alloc::AllocError;

/// The number of a sector in eight bytes. One that is too great is refused as memory is.
fn number_of(sector: u128) -> Result<u64, AllocError>
    ensures { IfOk result (λ number. number ≡ sector) }
{
    if sector <= u64::MAX as u128 {
        Ok(sector as u64)
    } else {
        Err(AllocError)
    }
}

/// Appends a sector, where it has a place.
#[tactic(auto, unfolding(crate::specs::Places::placed_from))]
fn list_sector(sectors: &mut Vec<u64>, sector: u128, place: Option<u32>) -> Result<(), AllocError>
    ensures { OnOk result (sectors.new.items
        ≡ sectors.old.items ++ keys_of (placed_from sector (place ∷ []))) }
{
    if place.is_some() {
        sectors.push(number_of(sector)?)?;
    }
    Ok(())
}

/// Appends the sectors of a group that have a place.
pub(crate) fn list_group(
    sectors: &mut Vec<u64>,
    first: u128,
    group: &Group,
) -> Result<(), AllocError>
    requires { first + group_size < 2 ^ 128 }
    ensures listed { OnOk result
        (sectors.new.items ≡ sectors.old.items ++ keys_of (placed_from first group.now)) }
    ensures long { length group.now ≡ group_size }
{
    for (i, place) in group.iter().enumerate() {
        list_sector(sectors, first + i as u128, *place)?;
    }
    Ok(())
}
