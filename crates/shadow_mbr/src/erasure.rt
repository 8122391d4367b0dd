//! Which sectors an act makes zeros.

ghost use Rattle.std.specs.Prelude.{◌≡◌, ◌≤◌, ◌<◌, ◌+◌, ◌^◌, ℕ, true};
ghost use Rattle.std.specs.List.{list_any};
ghost use Rattle.shadow_mbr.specs.Erasure.{is_in_run, is_erased, no_sectors, all_sectors, names_all};

use arrayvec::ArrayVec;

/// How many runs of sectors an erasure can name.
pub const MOST_RUNS: usize = 16;

/// Sectors that follow one another.
#[derive(Clone, Copy, Debug, Default, PartialEq, Eq)]
pub struct Run {
    pub start: u64,
    pub len: u64,
}

/// Runs of sectors.
pub type Runs = ArrayVec<Run, MOST_RUNS>;

/// Which sectors become zeros.
#[derive(Drop)]
pub enum Erasure {
    /// Those that lie within one of the runs.
    Within(Runs),

    /// Those that lie outside of all of them.
    Outside(Runs),
}

impl Run {
    /// Whether a sector lies in it.
    fn has(&self, sector: u128) -> bool
        ensures { result ≡ is_in_run sector self.now }
    {
        let start = u128::from(self.start);
        start <= sector && sector < start + u128::from(self.len)
    }
}

/// Whether a sector lies in one of the runs.
fn is_in_any_run(runs: &[Run], sector: u128) -> bool
    ensures { result ≡ list_any (is_in_run sector) runs.now }
{
    runs.iter().any(|run| run.has(sector))
}

impl Erasure {
    /// No sector.
    pub fn none() -> Erasure
        ensures { result ≡ no_sectors }
    {
        Erasure::Within(Runs::new())
    }

    /// All sectors.
    pub fn all() -> Erasure
        ensures { result ≡ all_sectors }
    {
        Erasure::Outside(Runs::new())
    }

    /// Whether it says of itself that it is all sectors: those outside of no run.
    pub(crate) fn names_all(&self) -> bool
        ensures exact { result ≡ names_all self.now }
        ensures all { result ≡ true → (sector : ℕ) → is_erased self.now sector ≡ true }
    {
        match self {
            Erasure::Within(_) => false,
            Erasure::Outside(runs) => runs.is_empty(),
        }
    }

    /// Whether a sector becomes zeros. Its number may be one that no drive has.
    pub(crate) fn erases(&self, sector: u128) -> bool
        ensures { result ≡ is_erased self.now sector }
    {
        match self {
            Erasure::Within(runs) => is_in_any_run(runs.as_slice(), sector),
            Erasure::Outside(runs) => !is_in_any_run(runs.as_slice(), sector),
        }
    }
}
