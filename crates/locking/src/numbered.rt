//! The numbered ranges, found by a binary search over where they start.

ghost use Rattle.std.specs.Prelude.{◌≡◌, ◌++◌, ◌∷◌, [], ℕ, ◌≤◌, ◌<◌, length, slice_index_or, vec_len, vec_capacity};
ghost use Rattle.std.specs.List.Sorted.{IsNonDecreasingBy};
ghost use Rattle.locking.specs.declared.numbered.Start.{Start};
ghost use Rattle.locking.specs.Starts.{AddsStart};

use crate::range::RangeRow;
use sp_cells::RANGES;
use std::alloc::{AllocError, Global};
use std::marker::Model;

/// The rows of the numbered ranges, of which no two have a sector in common.
#[derive(Drop)]
pub(crate) struct NumberedRanges {
    rows: Vec<RangeRow>,
    /// The ranges that have sectors, by where they start.
    starts: Vec<Start>,
}

/// The first sector of a range, and the place of its row.
#[derive(Clone, Copy, Debug, PartialEq, Eq)]
struct Start {
    sector: u64,
    place: usize,
}

/// Sectors of one range: its row, and the sector behind the last of them.
#[derive(Clone, Copy, Debug, PartialEq, Eq)]
pub(crate) struct Piece {
    pub(crate) row: RangeRow,
    pub(crate) end: u64,
}

impl Model for NumberedRanges {
    ghost use Rattle.std.specs.Prelude.{List, ◌≤◌, vec_capacity};
    ghost use Rattle.sp_cells.specs.declared.names.TheConstants.{RANGES};
    ghost use Rattle.locking.specs.declared.range.RangeRow.{RangeRow};
    ghost use Rattle.locking.specs.Starts.{AreStarts};

    ghost Value = { List RangeRow };

    ghost view = { λ a. a.rows.items };

    ghost invariant = { λ a. AreStarts a.rows.items a.starts.items × (RANGES ≤ vec_capacity a.rows)
        × (RANGES ≤ vec_capacity a.starts) };
}

/// How many of the starts stand at or before a sector.
fn begun_by(starts: &[Start], sector: u64) -> usize
    requires { IsNonDecreasingBy (λ s. s.sector) starts.now }
    ensures bound { result ≤ length starts.now }
    ensures before { (k : ℕ) (d : Start) → k < result
        → (slice_index_or starts.now k d).sector ≤ sector }
    ensures behind { (k : ℕ) (d : Start) → result ≤ k → k < length starts.now
        → sector < (slice_index_or starts.now k d).sector }
{
    starts.partition_point(|start| start.sector <= sector)
}

/// Puts one more start in its place, which takes no memory where there is room.
fn add_start(starts: &mut Vec<Start>, start: Start)
    requires rising { IsNonDecreasingBy (λ s. s.sector) starts.old.items }
    requires room { vec_len starts.old < vec_capacity starts.old }
    ensures added { AddsStart starts.old.items starts.new.items start }
    ensures capacity { vec_capacity starts.old ≤ vec_capacity starts.new }
{
    let index = begun_by(starts, start.sector);
    let _ = starts.insert(index, start);
}

/// Adds a row behind the others, which takes no memory where there is room, and gives its place.
fn add_row(rows: &mut Vec<RangeRow>, row: RangeRow) -> usize
    requires room { vec_len rows.old < vec_capacity rows.old }
    ensures place { result ≡ length rows.old.items }
    ensures added { rows.new.items ≡ rows.old.items ++ row ∷ [] }
    ensures capacity { vec_capacity rows.old ≤ vec_capacity rows.new }
{
    let place = rows.len();
    let _ = rows.push(row);
    place
}

impl NumberedRanges {
    ghost use Rattle.std.specs.Prelude.{◌≡◌, ◌≤◌, ◌<◌, ◌^◌, ◌-◌, ◌++◌, ℕ, List, [], ◌∷◌, IfOk, All, length, false};
    ghost use Rattle.sp_cells.specs.declared.names.TheConstants.{RANGES};
    ghost use Rattle.sp_cells.specs.Ranges.{meets};
    ghost use Rattle.locking.specs.Range.{row_in};

    /// No range yet, with room for all of them.
    pub(crate) fn new(alloc: Global) -> Result<NumberedRanges, AllocError>
        ensures { IfOk result (λ ranges. ranges ≡ []) }
    {
        let rows = Vec::with_capacity(alloc, usize::from(RANGES))?;
        let starts = Vec::with_capacity(alloc, usize::from(RANGES))?;
        Ok(NumberedRanges { rows, starts })
    }

    /// Forgets all ranges, and keeps the room.
    pub(crate) fn clear(&mut self)
        ensures { self.new ≡ [] }
    {
        self.rows.clear();
        self.starts.clear();
    }

    /// Adds a range, which takes no memory: there is room for all.
    pub(crate) fn push(&mut self, row: RangeRow)
        requires room { length self.old < RANGES }
        requires apart { All
            (λ other. meets other.start other.length row.start row.length ≡ false) self.old }
        ensures { self.new ≡ self.old ++ row ∷ [] }
    {
        let place = add_row(&mut self.rows, row);
        if row.length > 0 {
            let sector = row.start;
            add_start(&mut self.starts, Start { sector, place });
        }
    }

    /// The sectors from one on that belong to the same range, the global range's row being given.
    pub(crate) fn piece_at(&self, global: RangeRow, sector: u64) -> Piece
        ensures row { result.row ≡ row_in self.now global sector }
        ensures some { sector < 2 ^ 64 - 1 → sector < result.end }
        ensures same { (s : ℕ) → sector ≤ s → s < result.end
            → row_in self.now global s ≡ result.row }
    {
        let begun = begun_by(&self.starts, sector);
        if begun > 0 {
            let row = self.rows[self.starts[begun - 1].place];
            if row.covers(sector) {
                let end = row.start.saturating_add(row.length);
                return Piece { row, end };
            }
        }
        let end = match self.starts.get(begun) {
            Some(next) => next.sector,
            None => u64::MAX,
        };
        Piece { row: global, end }
    }
}
