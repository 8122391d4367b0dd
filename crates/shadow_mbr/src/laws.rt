//! What is kept of sectors tells all that they hold.

ghost use Rattle.std.specs.Prelude.{◌≡◌, ℕ, nat_eq, is_some};
ghost use Rattle.std.specs.List.{list_any};
ghost use Rattle.std.specs.Map.{keys_of};
ghost use Rattle.shadow_mbr.specs.Stored.{StoredSectors, IsSound, kept_at, sector_at, byte_at};
ghost use Rattle.shadow_mbr.specs.Same.{KeepSame};

/// A sector is kept exactly if its number is one of those that are kept. Two values with as many sectors, of which the
/// same are kept with the same bytes, hold the same everywhere: they are one.
#[tactic(auto, using(crate::proofs::Same::same_kept))]
pub fn laws_of_kept()
    ensures kept { (a : StoredSectors) (sector : ℕ)
        → is_some (kept_at a sector) ≡ list_any (nat_eq sector) (keys_of a.kept) }
    ensures same { (a b : StoredSectors) → IsSound a → IsSound b → KeepSame a b → a ≡ b }
    ensures sectors { (a b : StoredSectors) → IsSound a → IsSound b → KeepSame a b
        → (sector : ℕ) → sector_at a sector ≡ sector_at b sector }
    ensures bytes { (a b : StoredSectors) → IsSound a → IsSound b → KeepSame a b
        → (place : ℕ) → byte_at a place ≡ byte_at b place }
{}
