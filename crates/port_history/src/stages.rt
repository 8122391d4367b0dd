//! The stages of a slot.

ghost use Rattle.std.specs.Prelude.{◌≡◌};
ghost use Rattle.port_history.specs.Stages.{is_queued_command};

use trusted_cmds::Command;

/// A command that a client put: the client, the number of the step, and the command.
#[derive(Clone, Copy, Debug, PartialEq, Eq)]
pub struct Put {
    pub client: u32,
    pub number: u64,
    pub command: Command,
}

/// How far the command of a slot has come.
#[derive(Clone, Copy, Debug, PartialEq, Eq)]
pub enum Stage {
    /// There is no command.
    Free,
    /// A client put it.
    Prepared(Put),
    /// It waits for the device.
    Issued(Put),
    /// The device holds it, or failed it and waits for the port to recover.
    Accepted(Put),
    /// Its answer waits for the client.
    Answered(Put),
}

impl Stage {
    ghost use Rattle.std.specs.Prelude.{◌≡◌};
    ghost use Rattle.port_history.specs.Stages.{put_at};

    /// The command that was put in the slot; None where the slot is free.
    pub fn put(self) -> Option<Put>
        ensures { result ≡ put_at self }
    {
        match self {
            Stage::Free => None,
            Stage::Prepared(put)
            | Stage::Issued(put)
            | Stage::Accepted(put)
            | Stage::Answered(put) => Some(put),
        }
    }
}

/// Whether a command goes through the queue.
pub fn is_queued(command: Command) -> bool
    ensures { result ≡ is_queued_command command }
{
    matches!(
        command,
        Command::ReadQueued { .. } | Command::WriteQueued { .. }
    )
}
