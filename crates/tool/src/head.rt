//! What the lines in front of a script say of it.

/// What the lines of a script are.
#[derive(Clone, Copy, Debug, PartialEq, Eq)]
pub enum ScriptKind {
    /// Lines on a drive.
    Drive,
    /// Lines on a drive, which may write calls by name.
    DriveWithNames,
    /// Steps of a port.
    Port,
}

impl ScriptKind {
    ghost use Rattle.std.specs.Prelude.{◌≡◌};
    ghost use Rattle.tool.specs.Scripts.{drive_kind};

    /// The kind of a script on a drive: where remarks may stand in it, its lines may write calls by name.
    pub fn of_drive(remarks: bool) -> ScriptKind
        ensures { result ≡ drive_kind remarks }
    {
        if remarks {
            ScriptKind::DriveWithNames
        } else {
            ScriptKind::Drive
        }
    }
}

/// What the lines in front of a script say of it, and how it is run.
#[derive(Clone, Copy)]
pub struct Head {
    /// Whether remarks may stand in it, which do nothing.
    pub remarks: bool,
    /// Whether each refusal is told with its reason.
    pub explains: bool,
    /// What its lines are.
    pub kind: ScriptKind,
    /// How many lines stand before the line at hand.
    pub lines: u64,
}
