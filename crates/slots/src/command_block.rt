//! The command FIS that a slot takes.

ghost use Rattle.std.specs.Prelude.{◌≡◌, ◌≤◌, ◌↔◌, IsTrue, length};
ghost use Rattle.fis.specs.Types.{h2d_length};
ghost use Rattle.slots.specs.Table.{is_command};

use crate::fields::is_command;
use fis::H2D_LENGTH;
use std::marker::Model;

/// The bytes of a Register FIS to the device whose C bit is set.
#[derive(Clone, Copy, Debug, PartialEq, Eq)]
pub struct CommandBlock {
    bytes: [u8; H2D_LENGTH],
}

impl Model for CommandBlock {
    ghost use Rattle.std.specs.Prelude.{ℕ, List, ◌≡◌, true};
    ghost use Rattle.slots.specs.Table.{is_command};

    ghost Value = { List ℕ };

    ghost view = { λ c. c.bytes };

    ghost invariant = { λ c. is_command c.bytes ≡ true };

    ghost inverse = { λ b. record { bytes = b } };
}

impl CommandBlock {
    ghost use Rattle.std.specs.Prelude.{◌≡◌, ◌↔◌, IsSome, IfSome, length, true};
    ghost use Rattle.fis.specs.Types.{h2d_length};
    ghost use Rattle.slots.specs.Table.{is_command};

    /// The command in these bytes, or `None` where they are none.
    pub fn new(bytes: [u8; H2D_LENGTH]) -> Option<CommandBlock>
        ensures some { IsSome result ↔ (is_command bytes ≡ true) }
        ensures value { IfSome result (λ c. c ≡ bytes) }
    {
        if is_command(&bytes) {
            Some(CommandBlock { bytes })
        } else {
            None
        }
    }

    /// The bytes of the FIS.
    pub fn bytes(&self) -> &[u8; H2D_LENGTH]
        ensures value { result.now ≡ self.now }
        ensures len { length self.now ≡ h2d_length }
        ensures command { is_command self.now ≡ true }
    {
        &self.bytes
    }
}
