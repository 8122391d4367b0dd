//! How commands end.

ghost use Rattle.std.specs.Prelude.{◌≡◌};
ghost use Rattle.port.specs.Answers.{outcome_after_reset, outcome_recovered};
ghost use Rattle.port.specs.State.{has_error_status, executed_outcome, outcome_then};

use drive::Accepted;

/// How a command ended. Its data stand in the buffer of its slot until the client takes them.
#[derive(Clone, Copy, Debug, PartialEq, Eq)]
pub enum Outcome {
    /// Done, with so many bytes for the host.
    Done(usize),
    /// Failed, with the Status and Error registers.
    Failed { status: u8, error: u8 },
    /// Stopped by a reset.
    Reset,
}

/// The outcome of a command that was executed whole, with so many bytes for the host.
fn executed(answer: &Accepted, len: usize) -> Outcome
    ensures { result ≡ executed_outcome
        (has_error_status answer.now) answer.now.status answer.now.error len }
{
    let (status, error) = (answer.status, answer.error);
    if answer.has_failed() {
        Outcome::Failed { status, error }
    } else {
        Outcome::Done(len)
    }
}

/// The outcome after an acceptance: a queued command is not answered by it.
pub(crate) fn outcome_then(
    queued: bool,
    answer: &Accepted,
    len: usize,
    before: Option<Outcome>,
) -> Option<Outcome>
    ensures { result ≡ outcome_then queued answer.now len before }
{
    if queued {
        before
    } else {
        Some(executed(answer, len))
    }
}

/// The outcome after a reset.
pub(crate) fn outcome_after_reset(pending: bool, outcome: Option<Outcome>) -> Option<Outcome>
    ensures { result ≡ outcome_after_reset pending outcome }
{
    if pending {
        Some(Outcome::Reset)
    } else {
        outcome
    }
}

/// The outcome after a recovery: that of the command which failed is its status and error.
pub(crate) fn outcome_recovered(
    is_failed: bool,
    status: u8,
    error: u8,
    outcome: Option<Outcome>,
) -> Option<Outcome>
    ensures { result ≡ outcome_recovered is_failed status error outcome }
{
    if is_failed {
        Some(Outcome::Failed { status, error })
    } else {
        outcome
    }
}
