//! What the parts of a search printed, joined.

ghost use Rattle.std.specs.Prelude.{◌≡◌, IfOk, OnOk};
ghost use Rattle.std.specs.List.{fold};
ghost use Rattle.runs.specs.Merges.{is_same_search, kind_of_row, with_row_named, with_row_at, with_part_at, merged};

use crate::explored::findings::Findings;
use crate::explored::kinds::Kind;
use crate::explored::part::Part;
use crate::explored::rows::{Row, RowName};
use std::alloc::{AllocError, Global};

/// Whether two rows ask for the same search.
pub(crate) fn is_same_search(one: &Row, other: &Row) -> bool
    ensures { result ≡ is_same_search one.now other.now }
{
    one.size == other.size
        && one.text.as_slice() == other.text.as_slice()
        && one.list.as_slice() == other.list.as_slice()
}

/// The kind that a row tells of.
fn kind_of_row(row: &Row) -> Result<Kind, AllocError>
    ensures { IfOk result (λ kind. kind ≡ kind_of_row row.now) }
{
    Ok(Kind {
        text: row.text.copy()?,
        times: row.count,
        list: row.list.copy()?,
    })
}

impl Findings {
    /// With what a row tells.
    fn add_row(&mut self, alloc: Global, row: &Row) -> Result<(), AllocError>
        ensures { OnOk result (self.new ≡ with_row_named row.now.name self.old row.now) }
    {
        match row.name {
            RowName::Lists => self.lists = self.lists.wrapping_add(row.count),
            RowName::State => self.states.add(alloc, row.text.as_slice())?,
            RowName::Found => self.kinds.add_counted(kind_of_row(row)?)?,
            RowName::Check | RowName::Place | RowName::Asked => {}
        }
        Ok(())
    }

    /// With the rows that tell of lists of so many letters.
    fn add_rows_at(&mut self, alloc: Global, size: u64, rows: &[Row]) -> Result<(), AllocError>
        ensures { OnOk result (self.new ≡ fold (with_row_at size) self.old rows.now) }
    {
        for row in rows {
            if row.size == size {
                self.add_row(alloc, row)?;
            }
        }
        Ok(())
    }

    /// With what the parts found behind lists of so many letters.
    fn add_parts_at(&mut self, alloc: Global, size: u64, parts: &[Part]) -> Result<(), AllocError>
        ensures { OnOk result (self.new ≡ fold (with_part_at size) self.old parts.now) }
    {
        for part in parts {
            self.add_rows_at(alloc, size, part.rows.as_slice())?;
        }
        Ok(())
    }
}

/// What the parts found by lists of at most so many letters.
#[tactic(auto, unfolding(crate::specs::Merges::merged))]
pub(crate) fn merged(alloc: Global, parts: &[Part], steps: u64) -> Result<Findings, AllocError>
    ensures { IfOk result (λ found. found ≡ merged parts.now steps) }
{
    let mut found = Findings::new(alloc);
    for size in 0..steps {
        found.add_parts_at(alloc, size, parts)?;
    }
    Ok(found)
}
