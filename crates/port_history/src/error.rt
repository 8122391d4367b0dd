//! Why a step is refused.

use std::alloc::AllocError;
use thiserror::Error;

/// Why a step is refused. After a refusal the port is as before.
#[derive(Clone, Copy, Debug, PartialEq, Eq, Error)]
pub enum PortError {
    /// The slot is not free.
    #[error("the slot is not free")]
    SlotBusy,
    /// The slot has no prepared command.
    #[error("the slot has no prepared command")]
    NotPrepared,
    /// Queued and unqueued commands would mix.
    #[error("queued and unqueued commands would mix")]
    Queue,
    /// The slot has no issued command.
    #[error("the slot has no issued command")]
    NotIssued,
    /// The slot has no accepted command.
    #[error("the slot has no accepted command")]
    NotAccepted,
    /// The port has not failed.
    #[error("the port has not failed")]
    NotFailed,
    /// The port has failed, and waits for `recover` or `reset`.
    #[error("the port has failed")]
    Failed,
    /// The slot has no answer.
    #[error("the slot has no answer")]
    NotAnswered,
    /// The answer is another client's.
    #[error("the answer is another client's")]
    NotYours,
    /// The transfer is empty, above 256 blocks, no whole blocks, or beyond addresses of 48 bits.
    #[error("the transfer has no size that the port takes")]
    Size,
    /// The history has no room for a step.
    #[error("the history is full")]
    HistoryFull,
    /// A growth was refused.
    #[error("out of memory")]
    OutOfMemory,
}

impl PortError {
    ghost use Rattle.std.specs.Prelude.{◌≡◌};
    ghost use Rattle.port_history.specs.Refusals.{refusal_number};

    /// The number of the refusal, 1 to 12, in the order of the variants.
    pub fn number(self) -> u8
        ensures { result ≡ refusal_number self }
    {
        match self {
            PortError::SlotBusy => 1,
            PortError::NotPrepared => 2,
            PortError::Queue => 3,
            PortError::NotIssued => 4,
            PortError::NotAccepted => 5,
            PortError::NotFailed => 6,
            PortError::Failed => 7,
            PortError::NotAnswered => 8,
            PortError::NotYours => 9,
            PortError::Size => 10,
            PortError::HistoryFull => 11,
            PortError::OutOfMemory => 12,
        }
    }
}

/// Where a list of steps was stopped, and why. The steps before it are done.
#[derive(Clone, Copy, Debug, PartialEq, Eq, Error)]
#[error("the step at {at} is refused: {error}")]
pub struct PlayError {
    pub at: usize,
    pub error: PortError,
}

impl From<AllocError> for PortError {
    ghost use Rattle.std.specs.Prelude.{◌≡◌};
    ghost use Rattle.port_history.specs.declared.error.PortError.TheVariants.{OutOfMemory};

    ghost from_gives = { λ _ e. e ≡ OutOfMemory };

    fn from(_error: AllocError) -> PortError {
        PortError::OutOfMemory
    }
}
