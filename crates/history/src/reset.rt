//! The kinds of reset (TCG Storage, "Reset types").

ghost use Rattle.std.specs.Prelude.{◌≡◌};
ghost use Rattle.history.specs.Resets.{reset_kind_number};

/// A reset, as the LockOnReset and DoneOnReset columns name it.
#[derive(Clone, Copy, Debug, PartialEq, Eq)]
pub enum ResetKind {
    /// A power cycle: 0.
    Power,
    /// A hardware reset: 1.
    Hardware,
}

impl ResetKind {
    /// The number that those columns have for it.
    pub fn number(self) -> u8
        ensures { result ≡ reset_kind_number self }
    {
        match self {
            ResetKind::Power => 0,
            ResetKind::Hardware => 1,
        }
    }
}
