//! What is known of a step before it is done.

ghost use Rattle.std.specs.Prelude.{◌≡◌, ◌<◌, List, [], IfOk, IfSome, slice_index, length, None, Some};
ghost use Rattle.compacket.specs.Frames.{reading as frame_in};
ghost use Rattle.fis.specs.H2d.{h2d_at};
ghost use Rattle.fis.specs.Tags.{slot_count};
ghost use Rattle.fis.specs.Types.{h2d_type};
ghost use Rattle.history.specs.Opening.{Origin};
ghost use Rattle.history.specs.Resets.{reset_kind_number};
ghost use Rattle.port.specs.Answers.{buffer_front, stage_at};
ghost use Rattle.port.specs.Live.{LiveAgrees};
ghost use Rattle.port_history.specs.Refusals.{refusal};
ghost use Rattle.port_history.specs.Steps.{trace};
ghost use Rattle.port_history.specs.declared.step.Step.{Step as StepOf};
ghost use Rattle.reasons.specs.Onsets.{cause_in};
ghost use Rattle.port_scripts.specs.PortActs.{LinedStep, bare_steps, put_in_slot, slot_of};
ghost use Rattle.port_scripts.specs.PortReasons.{Brings, BringsAccepted, IsAhead};

use crate::port_reasons::slot_of;
use fis::{H2D_LENGTH, H2D_TYPE, RegH2d, Tag};
use port::LivePort;
use port_history::{Put, Step};
use reasons::explained::{Cause, cause_in};
use slots::{BUFFER, PortMemory};
use std::alloc::{AllocError, Global};

/// What a step does on the drive: by what it can bring something into force, and the bytes that come with it.
#[derive(Drop)]
pub(crate) struct Brought {
    pub cause: Cause,
    pub payload: Vec<u8>,
}

/// What is known of a step before it is done.
#[derive(Drop)]
pub(crate) struct Ahead {
    /// The command of the slot that it names.
    pub put: Option<Put>,
    /// How many denials there were.
    pub place: u64,
    pub brought: Brought,
}

/// The first bytes of a slot's buffer, or all of them where there are not so many.
fn front(memory: &PortMemory, tag: Tag, len: usize) -> &[u8]
    ensures { result.now ≡ buffer_front memory.now tag len }
{
    let buffer = memory.buffer(tag);
    &buffer[..len.min(BUFFER)]
}

/// By what the command of a FIS with these bytes can bring something into force.
fn cause_of(fis: &[u8; H2D_LENGTH], payload: &[u8]) -> Cause
    ensures { slice_index fis.now 0 ≡ h2d_type
        → result ≡ cause_in (h2d_at fis.now) (frame_in payload.now) }
{
    if fis[0] == H2D_TYPE {
        cause_in(&RegH2d::read(fis), payload)
    } else {
        Cause::NoCause
    }
}

/// A step that brings nothing.
fn nothing(alloc: Global) -> Brought
    ensures cause { result.cause ≡ Cause.NoCause }
    ensures payload { result.payload.items ≡ [] }
{
    Brought {
        cause: Cause::NoCause,
        payload: Vec::new(alloc),
    }
}

/// What the acceptance of a slot's command brings.
fn accepted(alloc: Global, port: &LivePort, tag: Tag) -> Result<Brought, AllocError>
    ensures brings { IfOk result (BringsAccepted port.now.bare tag) }
    ensures slot { tag < slot_count }
{
    let Ok(command) = port.memory().fetch(tag) else {
        return Ok(nothing(alloc));
    };
    let len = port.drive().payload_len(&command.fis);
    let payload = Vec::from_slice(alloc, front(port.memory(), tag, len))?;
    let cause = cause_of(&command.fis, &payload);
    Ok(Brought { cause, payload })
}

/// What a step brings to the drive.
fn brought_by(alloc: Global, port: &LivePort, step: &Step) -> Result<Brought, AllocError>
    ensures { IfOk result (λ brought. (o : Origin) (list : List StepOf) → LiveAgrees port.now o list
        → refusal (trace o list) step.now ≡ None → Brings brought o list step.now) }
{
    match *step {
        Step::Accept { tag } => accepted(alloc, port, tag),
        Step::Reset { kind, .. } => Ok(Brought {
            cause: Cause::ResetBy(kind.number()),
            payload: Vec::new(alloc),
        }),
        Step::Put { .. }
        | Step::Issue { .. }
        | Step::Complete { .. }
        | Step::Recover
        | Step::Take { .. } => Ok(nothing(alloc)),
    }
}

/// The command of a slot, if there is one.
fn put_in_slot(port: &LivePort, slot: Option<Tag>) -> Option<Put>
    ensures { result ≡ put_in_slot (stage_at port.now.bare.slots) slot }
{
    port.stage(slot?).put()
}

/// What is known of a step before it is done.
pub(crate) fn ahead_of(alloc: Global, port: &LivePort, step: &Step) -> Result<Ahead, AllocError>
    ensures { IfOk result (λ ahead. (o : Origin) (past : List LinedStep)
        → LiveAgrees port.now o (bare_steps past)
        → refusal (trace o (bare_steps past)) step.now ≡ None → IsAhead ahead o past step.now) }
{
    let put = put_in_slot(port, slot_of(step));
    let place = port.denials();
    let brought = brought_by(alloc, port, step)?;
    Ok(Ahead {
        put,
        place,
        brought,
    })
}
