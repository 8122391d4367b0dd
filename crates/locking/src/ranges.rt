//! The ranges that rows describe, the range of a sector, and the verdict on a transfer.

ghost use Rattle.std.specs.Prelude.{◌≡◌, ◌≤◌, ℕ};
ghost use Rattle.sp_cells.specs.declared.names.TheConstants.{RANGES};
ghost use Rattle.locking.specs.Ranges.{row_of, range_rows_from, is_shadow_up, shadowed_sectors};
ghost use Rattle.locking.specs.Verdict.{why_of, shadow_why, denial_why, verdict_by, verdict_inside};

use crate::numbered::NumberedRanges;
use crate::range::{Op, RangeRow};
use audit::Why;
use sp_cells::{Column, RANGES, Rows, Sp, Uid, number_at, number_of_range};
use std::alloc::{AllocError, Global};
use std::marker::Model;

/// The ranges that rows describe, and what the shadow MBR covers.
#[derive(Drop)]
pub struct Ranges {
    global: RangeRow,
    numbered: NumberedRanges,
    /// The first sectors of the drive, so many of them, are shadowed.
    shadowed: u64,
}

/// What a transfer is answered.
#[derive(Debug, Drop, PartialEq, Eq)]
pub enum Verdict {
    /// No sector is shadowed, and each sector's range permits it.
    Serve,
    /// A read of shadowed sectors alone: it gives the bytes of the shadow MBR.
    Shadow,
    /// The shadow or some sector's range denies it.
    Denied(Why),
}

/// What denies a transfer.
#[derive(Clone, Copy, Debug, PartialEq, Eq)]
pub enum Denier {
    /// The shadow MBR.
    Shadow,
    /// The range of this number, by the lock of the transfer's direction.
    Range(u8),
}

/// The verdict on a transfer that is at hand.
#[derive(Clone, Copy, Debug, PartialEq, Eq)]
pub enum Judgement {
    Serves,
    GivesShadow,
    Denies(Denier),
}

impl Denier {
    /// The reason of its denial of a transfer.
    pub fn why(self, op: Op, lba: u64, count: u32) -> Why
        ensures { result ≡ denial_why op lba count self }
    {
        match self {
            Denier::Shadow => shadow_why(op, lba, count),
            Denier::Range(range) => why_of(op, lba, count, range),
        }
    }
}

impl Judgement {
    /// The verdict on the transfer.
    fn verdict(self, op: Op, lba: u64, count: u32) -> Verdict
        ensures { result ≡ verdict_by op lba count self }
    {
        match self {
            Judgement::Serves => Verdict::Serve,
            Judgement::GivesShadow => Verdict::Shadow,
            Judgement::Denies(denier) => Verdict::Denied(denier.why(op, lba, count)),
        }
    }
}

impl Model for Ranges {
    ghost use Rattle.locking.specs.Range.{RangeRows};

    ghost Value = { RangeRows };

    ghost view = { λ a. record {
      global = a.global;
      numbered = a.numbered;
      shadowed = a.shadowed;
    } };
}

impl Ranges {
    ghost use Rattle.std.specs.Prelude.{◌≡◌, ◌+◌, ◌<◌, ◌≤◌, ◌^◌, IfOk};
    ghost use Rattle.locking.specs.Ranges.{ranges_in};
    ghost use Rattle.locking.specs.Range.{row_at, IsRangeOf};
    ghost use Rattle.locking.specs.declared.range.RangeRow.{RangeRow};
    ghost use Rattle.locking.specs.Verdict.{IsVerdict, verdict_by, verdict_of, AreOpen};

    /// The ranges that the rows describe. It takes room for all of them.
    pub fn of<R: Rows>(alloc: Global, rows: &R) -> Result<Ranges, AllocError>
        ensures { IfOk result
            (λ ranges. ranges ≡ ranges_in (R.shadow_sectors rows.now) (R.look_up rows.now)) }
    {
        let mut ranges = Ranges {
            global: row_of(rows, 0),
            numbered: NumberedRanges::new(alloc)?,
            shadowed: 0,
        };
        ranges.refresh(rows);
        Ok(ranges)
    }

    /// Makes these the ranges that the rows describe, without memory.
    #[tactic(auto, unfolding(crate::specs::Ranges::ranges_in))]
    pub fn refresh<R: Rows>(&mut self, rows: &R)
        ensures { self.new ≡ ranges_in (R.shadow_sectors rows.now) (R.look_up rows.now) }
    {
        self.global = row_of(rows, 0);
        self.shadowed = shadowed_sectors(rows);
        fill(&mut self.numbered, rows);
    }

    /// The row of the range that a sector belongs to: the numbered one that covers it, else the
    /// global one.
    fn row_at(&self, sector: u64) -> RangeRow
        ensures { result ≡ row_at self.now sector }
    {
        self.numbered.piece_at(self.global, sector).row
    }

    /// The number of the range that a sector belongs to, 0 for the global range.
    #[tactic(auto, using(crate::proofs::Covering::is_range_of))]
    pub fn range_of(&self, sector: u64) -> u8
        ensures exact { result ≡ (row_at self.now sector).range }
        ensures covering { (row : RangeRow) × IsRangeOf self.now sector row × (result ≡ row.range) }
    {
        self.row_at(sector).range
    }

    /// Served where no sector is shadowed and each sector's range permits it. A read of shadowed
    /// sectors alone gives the shadow's bytes, whatever the locks. Else denied: by the shadow where a
    /// sector is shadowed, else by the range and flag of the least denied sector.
    #[tactic(auto, using(crate::proofs::Verdicts::is_verdict_of))]
    pub fn verdict(&self, op: Op, lba: u64, count: u32) -> Verdict
        requires some { 0 < count }
        requires room { lba + count ≤ 2 ^ 48 }
        ensures by_sectors { IsVerdict self.now op lba count result }
        ensures exact { result ≡ verdict_of self.now op lba count }
    {
        self.judged(op, lba, count).verdict(op, lba, count)
    }

    /// What the verdict comes to, without the reason of a denial.
    #[tactic(auto, using(crate::proofs::Verdicts::is_verdict_of))]
    pub fn judge(&self, op: Op, lba: u64, count: u32) -> Judgement
        requires some { 0 < count }
        requires room { lba + count ≤ 2 ^ 48 }
        ensures by_sectors { IsVerdict self.now op lba count (verdict_by op lba count result) }
        ensures exact { verdict_by op lba count result ≡ verdict_of self.now op lba count }
    {
        self.judged(op, lba, count)
    }

    /// By the shadow where it covers the first sector, else by the ranges.
    fn judged(&self, op: Op, lba: u64, count: u32) -> Judgement
        requires some { 0 < count }
        requires room { lba + count ≤ 2 ^ 48 }
        ensures { IsVerdict self.now op lba count (verdict_by op lba count result) }
    {
        if lba < self.shadowed {
            let wholly = lba + u64::from(count) <= self.shadowed;
            judged_inside(op, wholly)
        } else {
            self.judged_by_pieces(op, lba, count)
        }
    }

    /// A transfer that touches no shadowed sector: this goes over the pieces that belong to one range
    /// each.
    fn judged_by_pieces(&self, op: Op, lba: u64, count: u32) -> Judgement
        requires some { 0 < count }
        requires room { lba + count ≤ 2 ^ 48 }
        requires opened { AreOpen self.now lba (lba + count) }
        ensures { IsVerdict self.now op lba count (verdict_by op lba count result) }
    {
        let end = lba + u64::from(count);
        let mut sector = lba;
        while sector < end {
            let piece = self.numbered.piece_at(self.global, sector);
            if !piece.row.permits(op) {
                return Judgement::Denies(Denier::Range(piece.row.range));
            }
            sector = piece.end;
        }
        Judgement::Serves
    }
}

/// The reason of a denial by a range.
fn why_of(op: Op, lba: u64, count: u32, range: u8) -> Why
    ensures { result ≡ why_of op lba count range }
{
    match op {
        Op::Read => Why::ReadLocked { lba, count, range },
        Op::Write => Why::WriteLocked { lba, count, range },
    }
}

/// The reason of a denial by the shadow.
fn shadow_why(op: Op, lba: u64, count: u32) -> Why
    ensures { result ≡ shadow_why op lba count }
{
    match op {
        Op::Read => Why::ReadShadow { lba, count },
        Op::Write => Why::WriteShadow { lba, count },
    }
}

/// A transfer that touches the shadow, by whether it is wholly inside.
fn judged_inside(op: Op, wholly: bool) -> Judgement
    ensures { (lba count : ℕ)
        → verdict_by op lba count result ≡ verdict_inside op lba count wholly }
{
    match op {
        Op::Read if wholly => Judgement::GivesShadow,
        _ => Judgement::Denies(Denier::Shadow),
    }
}

fn row_of<R: Rows>(rows: &R, range: u8) -> RangeRow
    ensures { result ≡ row_of (R.look_up rows.now) range }
{
    RangeRow {
        range,
        start: number_of_range(rows, range, Column::RANGE_START),
        length: number_of_range(rows, range, Column::RANGE_LENGTH),
        read_enabled: number_of_range(rows, range, Column::READ_LOCK_ENABLED) == 1,
        write_enabled: number_of_range(rows, range, Column::WRITE_LOCK_ENABLED) == 1,
        read_locked: number_of_range(rows, range, Column::READ_LOCKED) == 1,
        write_locked: number_of_range(rows, range, Column::WRITE_LOCKED) == 1,
    }
}

/// Whether the shadow MBR is up: it is enabled, and not done (Opal SSC 2.01, 4.3.5.3).
pub fn is_shadow_up<R: Rows>(rows: &R) -> bool
    ensures { result ≡ is_shadow_up (R.look_up rows.now) }
{
    let enabled = number_at(rows, Sp::Locking, Uid::MBR_CONTROL, Column::MBR_ENABLE);
    let done = number_at(rows, Sp::Locking, Uid::MBR_CONTROL, Column::MBR_DONE);
    enabled == 1 && done == 0
}

/// How many sectors are shadowed now.
fn shadowed_sectors<R: Rows>(rows: &R) -> u64
    ensures { result ≡ shadowed_sectors (R.shadow_sectors rows.now) (R.look_up rows.now) }
{
    if is_shadow_up(rows) {
        rows.mbr_sectors()
    } else {
        0
    }
}

/// Makes these the numbered ranges that the rows describe.
fn fill<R: Rows>(numbered: &mut NumberedRanges, rows: &R)
    ensures { numbered.new ≡ range_rows_from (R.look_up rows.now) 1 RANGES }
{
    // No two of them have a sector in common: the rows say so once one is read.
    let _ = rows.cell(Sp::Locking, Uid::range(0), Column::RANGE_START);
    numbered.clear();
    for range in 1..RANGES + 1 {
        numbered.push(row_of(rows, range));
    }
}
