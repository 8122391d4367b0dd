//! Who can act in the Locking SP.

ghost use Rattle.std.specs.Prelude.{◌≡◌, ◌==◌};
ghost use Rattle.std.specs.List.{list_any};
ghost use Rattle.sp_cells.specs.Authorities.{authorities_of_locking};

use crate::names::Uid;

/// Whether this is the name of an authority, or of a class, of the Locking SP.
#[tactic(auto, unfolding(crate::specs::Authorities::authorities_of_locking))]
pub fn is_locking_authority(authority: Uid) -> bool
    ensures { result ≡ list_any (λ a. a.0 == authority.0) authorities_of_locking }
{
    match authority {
        Uid::ANYBODY | Uid::ADMINS | Uid::USERS => true,
        _ => authority.admin_number().is_some() || authority.user_number().is_some(),
    }
}
