//! What is told behind a step of a port, and what is kept for it.

ghost use Rattle.std.specs.Prelude.{◌≡◌, ◌∷◌, List, IfOk, OnOk, None};
ghost use Rattle.drive.specs.State.{Agrees};
ghost use Rattle.history.specs.Opening.{Origin};
ghost use Rattle.history.specs.History.{Act};
ghost use Rattle.port.specs.Live.{LiveAgrees, line_kept};
ghost use Rattle.reasons.specs.Onsets.{Sourced};
ghost use Rattle.reasons.specs.declared.explained.onset.Counted.TheVariants.{Steps};
ghost use Rattle.drive_scripts.specs.Explanations.{denial_text};
ghost use Rattle.drive_scripts.specs.Kept.{RecountsAll};
ghost use Rattle.port_scripts.specs.PortActs.{LinedStep, bare_steps, command_put, source_of_put, steps_done};
ghost use Rattle.port_scripts.specs.PortReasons.{ExplainsStep, IsAhead, line_denial, reasons_by, steps_behind};

use crate::ahead::Ahead;
use crate::port_reasons::step_refusal;
use drive_scripts::{Explainer, Source};
use port::LivePort;
use port_history::{PortError, Put, Step};
use reasons::explained::Counted;
use script_lines::Report;
use std::alloc::{AllocError, Global};
use trusted_cmds::Command;

/// The command that was put.
fn command_of(put: Option<Put>) -> Option<Command>
    ensures { result ≡ command_put put }
{
    Some(put?.command)
}

/// Where the act of a step of this line comes from, which serves this command.
fn source_of_put(line: u64, put: Option<Put>) -> Source
    ensures { result ≡ source_of_put line put }
{
    let client = match put {
        Some(put) => put.client,
        None => 0,
    };
    Source { line, client }
}

/// What is told of the command that a port accepted last, as on a drive, since which step.
fn acceptance_of(
    port: &LivePort,
    explainer: &Explainer,
    ahead: &Ahead,
) -> Result<Vec<u8>, AllocError>
    ensures { IfOk result (λ text. (o : Origin) (past : List Sourced) (acts : List Act)
        → Agrees port.now.bare.drive o acts → RecountsAll explainer.now o past
        → text.items ≡ denial_text Steps o past acts (command_put ahead.now.put)
        ahead.now.brought.payload.items
        (line_denial (line_kept port.now ahead.now.place)) port.now.bare.rule) }
{
    let drive = port.drive();
    let command = command_of(ahead.put);
    let payload = &ahead.brought.payload;
    match port.denial(ahead.place) {
        Some(line) => {
            let why = Some(&line.why);
            explainer.reasons(Counted::Steps, drive, command, payload, why, port.rule())
        }
        None => explainer.reasons(Counted::Steps, drive, command, payload, None, port.rule()),
    }
}

/// What is told behind a step that was not refused.
fn reasons_behind(
    alloc: Global,
    port: &LivePort,
    explainer: &Explainer,
    step: &Step,
    ahead: &Ahead,
) -> Result<Vec<u8>, AllocError>
    ensures { IfOk result (λ text. (o : Origin) (past : List LinedStep)
        → LiveAgrees port.now o (step.now ∷ bare_steps past) → IsAhead ahead.now o past step.now
        → RecountsAll explainer.now o (steps_done o past)
        → text.items ≡ reasons_by o past step.now None) }
{
    match step {
        Step::Accept { .. } => acceptance_of(port, explainer, ahead),
        _ => Ok(Vec::new(alloc)),
    }
}

/// Notes a step that a port has done.
fn note_step(port: &LivePort, explainer: &mut Explainer, ahead: &Ahead, line: u64)
    ensures { (o : Origin) (past : List LinedStep) (step : Step)
        → LiveAgrees port.now o (step ∷ bare_steps past) → IsAhead ahead.now o past step
        → RecountsAll explainer.old o (steps_done o past)
        → RecountsAll explainer.new o (steps_done o (steps_behind past line step None)) }
{
    let source = source_of_put(line, ahead.put);
    explainer.note(port.drive(), source, ahead.brought.cause);
}

/// Tells why a step was refused, or what there is to tell of the command that it accepted, and notes it where it was done.
pub(crate) fn explain_step(
    alloc: Global,
    port: &LivePort,
    explainer: &mut Explainer,
    step: &Step,
    refused: Option<PortError>,
    ahead: &Ahead,
    line: u64,
    report: &mut Report,
) -> Result<(), AllocError>
    ensures explains { OnOk result ((o : Origin) (past : List LinedStep)
        → (refused ≡ None → IsAhead ahead.now o past step.now)
        → LiveAgrees port.now o (bare_steps (steps_behind past line step.now refused))
        → RecountsAll explainer.old o (steps_done o past)
        → ExplainsStep o past step.now line refused explainer.new report.old report.new) }
    ensures last { report.new.last ≡ report.old.last }
{
    if let Some(error) = refused {
        let text = step_refusal(alloc, port, step, error)?;
        report.pending.extend_from_slice(&text)?;
        return Ok(());
    }
    let text = reasons_behind(alloc, port, explainer, step, ahead)?;
    report.pending.extend_from_slice(&text)?;
    note_step(port, explainer, ahead, line);
    Ok(())
}
