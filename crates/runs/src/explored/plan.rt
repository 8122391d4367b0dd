//! How far a script is explored.

ghost use Rattle.std.specs.Prelude.{◌≡◌, ◌≢◌, IfOk, IfErr};
ghost use Rattle.runs.specs.Plans.{WritesPlan, WritesSomePlan};

use basics::Bytes;
use script_lines::number_up_to;
use std::alloc::{AllocError, Global};
use thiserror::Error;

/// How many letters a list has at most.
pub(crate) const MOST_STEPS: u64 = 1000;

/// How many lists of one length are gone on from at most.
const MOST_LISTS: u64 = 10_000_000;

/// How far a script is explored, and what is looked for.
#[derive(Drop)]
pub struct Plan {
    /// How many letters a list has at most.
    pub steps: u32,
    /// How many lists of one length are gone on from, at most.
    pub limit: usize,
    /// A text that a printed line has; empty where failures are looked for.
    pub find: Bytes,
}

/// What is wrong with the texts of a plan.
#[derive(Clone, Copy, Debug, PartialEq, Eq, Error)]
pub enum PlanFault {
    #[error("out of memory")]
    OutOfMemory,
    #[error("--steps is no number from 0 to 1000")]
    Steps,
    #[error("--limit is no number from 0 to 10000000")]
    Limit,
}

impl From<AllocError> for PlanFault {
    ghost use Rattle.std.specs.Prelude.{◌≡◌};
    ghost use Rattle.runs.specs.declared.explored.plan.PlanFault.TheVariants.{OutOfMemory};

    ghost from_gives = { λ _ error. error ≡ OutOfMemory };

    fn from(_error: AllocError) -> PlanFault {
        PlanFault::OutOfMemory
    }
}

/// The numbers of a plan.
pub fn laws_of_plans()
    ensures steps { MOST_STEPS ≡ 1000 }
    ensures limit { MOST_LISTS ≡ 10000000 }
{}

impl Plan {
    /// Reads a plan as it is written: two decimal numbers, and any text.
    ///
    /// # Errors
    ///
    /// `Steps` and `Limit` where the one is no number up to 1,000, or else the other none up to 10,000,000; `OutOfMemory`.
    pub fn parse(alloc: Global, steps: &[u8], limit: &[u8], find: &[u8]) -> Result<Plan, PlanFault>
        ensures read { IfOk result (λ plan. WritesPlan steps.now limit.now find.now plan) }
        ensures fault { IfErr result (λ fault. fault ≢ PlanFault.OutOfMemory
            → WritesSomePlan steps.now limit.now → ⊥) }
    {
        let steps = number_up_to(MOST_STEPS, steps).ok_or(PlanFault::Steps)?;
        let limit = number_up_to(MOST_LISTS, limit).ok_or(PlanFault::Limit)?;
        let find = Vec::from_slice(alloc, find)?;
        Ok(Plan {
            steps: steps as u32,
            limit: limit as usize,
            find: Bytes::from_vec(find),
        })
    }
}
