//! A caller of `port`.

ghost use Rattle.std.specs.Prelude.{◌∷◌, List, OnOk, IfOk};
ghost use Rattle.headline.specs.Transfers.{IsServedAnswer};
ghost use Rattle.history.specs.Opening.{Origin};
ghost use Rattle.history.specs.Tcg.{tcg};
ghost use Rattle.port.specs.Agreement.{PortAgrees};
ghost use Rattle.port_history.specs.declared.step.Step.{Step};
ghost use Rattle.port_history.specs.declared.step.Step.TheVariants as steps;
ghost use Rattle.uses.specs.Alone.{served_steps};

use fis::Tag;
use port::{Answer, Port, PortError, Request};

/// A command that is not queued, from its put to its answer: the port does these four steps and no other.
pub fn serve_alone(
    port: &mut Port,
    client: u32,
    tag: Tag,
    request: Request,
) -> Result<Answer, PortError>
    ensures agrees { OnOk result ((o : Origin) (list : List Step) → PortAgrees port.old o list
        → PortAgrees port.new o
        (steps.Take client tag ∷ served_steps client tag request list)) }
    // A read or a write is done exactly where every range that it touches permits it.
    ensures served { IfOk result (λ answer. (o : Origin) (list : List Step)
        → PortAgrees port.old o list
        → IsServedAnswer tcg o (served_steps client tag request list) tag answer) }
{
    port.put(client, tag, request)?;
    port.issue(tag)?;
    port.accept(tag)?;
    let (_, answer) = port.take(client, tag)?;
    Ok(answer)
}
