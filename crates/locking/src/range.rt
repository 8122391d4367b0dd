//! What a transfer does, and the cells of one range.

/// What a transfer does with its sectors.
#[derive(Clone, Copy, Debug, PartialEq, Eq)]
pub enum Op {
    Read,
    Write,
}

/// The columns of a locking range that say which sectors it has and what is locked (Opal SSC,
/// Locking table). Range 0 is the global range.
#[derive(Clone, Copy, Debug, PartialEq, Eq)]
pub struct RangeRow {
    pub range: u8,
    pub start: u64,
    pub length: u64,
    pub read_enabled: bool,
    pub write_enabled: bool,
    pub read_locked: bool,
    pub write_locked: bool,
}

impl RangeRow {
    ghost use Rattle.std.specs.Prelude.{◌≡◌};
    ghost use Rattle.locking.specs.Range.{covers, permits};

    /// Whether the sector is one of the range's. A range of length 0 has none.
    pub fn covers(&self, sector: u64) -> bool
        ensures { result ≡ covers self.now sector }
    {
        self.start <= sector && sector - self.start < self.length
    }

    /// Whether the range has no enabled lock against the operation.
    pub fn permits(&self, op: Op) -> bool
        ensures { result ≡ permits op self.now }
    {
        match op {
            Op::Read => !(self.read_enabled && self.read_locked),
            Op::Write => !(self.write_enabled && self.write_locked),
        }
    }
}
