//! What one client does, in a thread of its own.

ghost use Rattle.std.specs.Prelude.{◌≡◌, ◌*◌, ◌≤◌, vec_len};
ghost use Rattle.port_threads.specs.Rounds.{steps_of_round, Made};

use crate::log::Log;
use locked_port::{LockedPort, Pass, PortName, Receipt};
use port::PortError;
use std::alloc::Global;
use std::sync::Wait;

/// The pass of a client that has ended, its receipts, how many rounds it made, and the error that ended it, if one did.
/// That the receipts are enough for the
/// rounds bounds these by memory, so that the rounds of all clients can be added.
#[derive(Drop)]
pub(crate) struct Work<L: PortName> {
    pub(crate) pass: Pass<L>,
    pub(crate) receipts: Vec<Receipt>,
    pub(crate) rounds: u64,
    pub(crate) refusal: Option<PortError>,
    ghost told: { steps_of_round * rounds ≤ vec_len receipts },
}

/// What a client did that has this log.
fn work_of<L: PortName>(pass: Pass<L>, log: Log, rounds: u32) -> Work<L>
    requires { steps_of_round * rounds ≤ vec_len log.receipts }
    ensures receipts { result.receipts ≡ log.receipts }
    ensures rounds { result.rounds ≡ rounds }
{
    let Log { receipts, refusal } = log;
    Work {
        pass,
        receipts,
        rounds: u64::from(rounds),
        refusal,
    }
}

/// Makes so many rounds, each with the low byte of its number. It ends before that where a round is refused, or reads
/// back something else than what was written.
pub(crate) fn make_rounds<L: PortName, R: Wait>(
    rt: &R,
    alloc: Global,
    port: &LockedPort<L>,
    mut pass: Pass<L>,
    rounds: u32,
) -> Work<L>
    ensures { Made pass.client rounds result.rounds result.receipts.items }
{
    let mut log = Log::new(alloc);
    for round in 0..rounds {
        if !log.makes(rt, alloc, port, &mut pass, (round % 256) as u8) {
            return work_of(pass, log, round);
        }
    }
    work_of(pass, log, rounds)
}
