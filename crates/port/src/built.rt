//! Requests whose command is built before the port is asked.

ghost use Rattle.std.specs.Prelude.{◌≡◌, IfOk, true};
ghost use Rattle.port_history.specs.Requests.{is_sized};

use crate::host;
use crate::port::Port;
use fis::Tag;
use port_history::{PortError, Request};
use slots::CommandBlock;
use std::marker::Model;

/// Whether a port takes a request, by its size: false exactly where `put` answers `Size`.
pub fn fits(request: &Request) -> bool
    ensures { result ≡ is_sized request.now }
{
    request.is_sized()
}

/// A request under a tag, with the FIS of its command.
#[derive(Drop)]
pub struct Built {
    tag: Tag,
    request: Request,
    fis: CommandBlock,
}

impl Model for Built {
    ghost use Rattle.std.specs.Prelude.{◌≡◌, true};
    ghost use Rattle.port_history.specs.Requests.{is_sized, request_command, command_fis};
    ghost use Rattle.port.specs.Built.{BuiltRequest};

    ghost Value = { BuiltRequest };

    ghost view = { λ b. record { tag = b.tag; request = b.request } };

    ghost invariant = { λ b. (is_sized b.request ≡ true)
        × (b.fis ≡ command_fis (request_command b.request) b.tag) };
}

impl Built {
    /// Builds the command of a request.
    pub fn new(request: Request, tag: Tag) -> Built
        requires { is_sized request ≡ true }
        ensures { (result.tag ≡ tag) × (result.request ≡ request) }
    {
        let fis = host::command_block(request.command(), tag);
        Built { tag, request, fis }
    }

    /// The tag.
    pub fn tag(&self) -> Tag
        ensures { result ≡ self.now.tag }
    {
        self.tag
    }
}

impl Port {
    ghost use Rattle.std.specs.Prelude.{◌≡◌, ◌+◌, ◌<◌, List, ◌∷◌, length, OnOk, OnErr, IfOk, IfErr};
    ghost use Rattle.fis.specs.Tags.{slot_count};
    ghost use Rattle.history.specs.Opening.{Origin};
    ghost use Rattle.port_history.specs.declared.step.Step.{Step};
    ghost use Rattle.port_history.specs.declared.step.Step.TheVariants as steps;
    ghost use Rattle.port_history.specs.Refusals.{refusal};
    ghost use Rattle.port_history.specs.Steps.{trace};
    ghost use Rattle.port.specs.Agreement.{PortAgrees, MakesStep, NumbersStep};
    ghost use Rattle.port.specs.Built.{IsGivenBack};
    ghost use Rattle.port.specs.State.{refusal_on, IsPut};

    /// A client puts what was built in its slot. It answers the number of the step.
    ///
    /// # Errors
    ///
    /// In this order: `HistoryFull`, `SlotBusy`, `OutOfMemory`; what was built comes back. The port is then as before.
    pub fn put_built(&mut self, client: u32, built: Built) -> Result<u64, (PortError, Built)>
        ensures agrees { MakesStep self.old self.new (steps.Put client built.tag built.request)
            result }
        ensures number { NumbersStep self.old result }
        ensures refused { (o : Origin) (list : List Step) → PortAgrees self.old o list
            → IsGivenBack (refusal (trace o list) (steps.Put client built.tag built.request)) built
            result }
        ensures err { OnErr result (self.new ≡ self.old) }
    {
        self.do_put_built(client, built)
    }

    fn do_put_built(&mut self, client: u32, built: Built) -> Result<u64, (PortError, Built)>
        ensures refused { IsGivenBack
            (refusal_on self.old (steps.Put client built.tag built.request)) built result }
        ensures number { IfOk result (λ n. n ≡ 1 + length self.old.history) }
        ensures state { OnOk result (IsPut self.old self.new client built.tag built.request) }
        ensures slot { built.tag < slot_count }
        ensures err { OnErr result (self.new ≡ self.old) }
    {
        if let Err(error) = self.may_put(built.tag, &built.request) {
            return Err((error, built));
        }
        let Ok(number) = self.bare.next_number() else {
            return Err((PortError::OutOfMemory, built));
        };
        if self.history.reserve_put().is_err() {
            return Err((PortError::OutOfMemory, built));
        }
        let Built { tag, request, fis } = built;
        self.bare.lay_built(client, tag, &fis, &request, number);
        self.history.push_put(client, tag, request);
        Ok(number)
    }
}
