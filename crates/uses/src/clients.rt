//! A caller of `locked_port`.

ghost use Rattle.std.specs.Prelude.{◌≡◌, ℕ, IfOk};
ghost use Rattle.port_history.specs.declared.step.Step.TheVariants as steps;

use locked_port::{LockedPort, Pass, PortName, Receipt};
use port::{PortError, Request};
use std::sync::Wait;

/// A client puts a request and waits for its answer; others may do so at the same time.
pub fn ask<L: PortName, R: Wait>(
    rt: &R,
    port: &LockedPort<L>,
    pass: &mut Pass<L>,
    request: &Request,
) -> Result<Receipt, PortError>
    // The receipt is of a Take by this client.
    ensures { IfOk result (λ receipt. (tag : ℕ) × (receipt.step ≡ steps.Take pass.old.client tag)) }
{
    let ticket = port.submit(rt, pass, request)?;
    let receipt = port.await_answer(rt, pass, ticket)?;
    Ok(receipt)
}
