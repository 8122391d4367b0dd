//! What a bar tells by its colour.

/// What a bar tells by its colour.
#[derive(Clone, Copy, Debug, PartialEq, Eq)]
pub enum Paint {
    /// A command that was done.
    Done,
    /// A command that failed.
    Failed,
    /// A command that a reset stopped.
    Stopped,
    /// A command that still waits.
    Waiting,
    /// A session that lives.
    Session,
    /// A transaction that is open.
    Transaction,
    /// Reads of a range are locked.
    ReadLocked,
    /// Writes to a range are locked.
    WriteLocked,
    /// Reads of a range and writes to it are locked.
    Locked,
    /// The shadow MBR is up.
    Shadow,
    /// The queue has failed.
    Failure,
}

impl Paint {
    ghost use Rattle.std.specs.Prelude.{◌≡◌};
    ghost use Rattle.drawing.specs.Paints.{colour_text};

    /// The colour, as SVG writes it.
    #[tactic(auto, unfolding(crate::specs::Paints::colour_text))]
    pub(crate) fn colour(self) -> &'static [u8]
        ensures { result.now ≡ colour_text self }
    {
        match self {
            Paint::Done => b"#a5d6a7",
            Paint::Failed => b"#ef9a9a",
            Paint::Stopped => b"#cfd8dc",
            Paint::Waiting => b"#90caf9",
            Paint::Session => b"#b39ddb",
            Paint::Transaction => b"#fff59d",
            Paint::ReadLocked => b"#ffcc80",
            Paint::WriteLocked => b"#bcaaa4",
            Paint::Locked => b"#ffab91",
            Paint::Shadow => b"#80cbc4",
            Paint::Failure => b"#e57373",
        }
    }
}
