//! What is told of the commands that a host's drive refuses.

ghost use Rattle.std.specs.Prelude.{◌≡◌, ℕ, List, ◌∷◌, [], Option, Some, is_some, true, IfOk};
ghost use Rattle.history.specs.Opening.{Origin};
ghost use Rattle.history.specs.History.{Act, Accept, log, event};
ghost use Rattle.drive.specs.State.{Agrees};
ghost use Rattle.reasons.specs.Onsets.{Sourced, bare_acts, with_act, cause_at};
ghost use Rattle.drive_scripts.specs.Kept.{RecountsAll};
ghost use Rattle.reasons.specs.declared.explained.onset.Counted.TheVariants.{Acts};
ghost use Rattle.reasons.specs.Rulings.{command_carried};
ghost use Rattle.drive_scripts.specs.Explanations.{denial_text, told_reasons};
ghost use Rattle.hba.specs.History.{over_new_by, State, Operation, HasActed, Adds, HeardSo, act_count};
ghost use Rattle.hba.specs.Engine.{done_of};
ghost use Rattle.host_memory.specs.declared.width.AddressWidth.{AddressWidth};
ghost use Rattle.hba_program.specs.Explained.{ExplainsActs, ExplainsOperation, HearsOperation, IsOwn, StartsTelling};

use audit::AuditLine;
use drive::Drive;
use drive_scripts::{Explainer, Source};
use hba::{Hba, Heard};
use reasons::explained::{Cause, Counted};
use reasons::rulings::command_in;
use std::alloc::{AllocError, Global};
use std::marker::Model;

/// What denied a command, and the lines that were told of it.
#[derive(Drop)]
pub struct Denial {
    pub line: AuditLine,
    pub reasons: Vec<u8>,
}

impl Model for Denial {
    ghost use Rattle.hba_program.specs.Sayings.{DeniedCommand};

    ghost Value = { DeniedCommand };

    ghost view = { λ d. record { line = d.line; reasons = d.reasons.items } };
}

/// What explains the denials of a drive that has done no act, if reasons are told.
pub fn first_explainer(alloc: Global, drive: &Drive, explains: bool) -> Option<Explainer>
    ensures { StartsTelling explains result drive.now }
{
    if explains {
        Some(Explainer::new(alloc, drive))
    } else {
        None
    }
}

/// The lines that tell by what a command was refused, if it was. The drive has done it, and it is not noted yet.
fn reasons_of(explainer: &Explainer, drive: &Drive, heard: &Heard) -> Result<Vec<u8>, AllocError>
    ensures { IfOk result (λ text. (o : Origin) (past : List Sourced) (acts : List Act)
        → Agrees drive.now o acts → RecountsAll explainer.now o past
        → text.items ≡ denial_text Acts o past acts (command_carried heard.now.header)
        heard.now.payload.items heard.now.denied heard.now.rule) }
{
    let command = command_in(&heard.header);
    let denied = heard.denied.as_ref();
    let text = explainer.reasons(
        Counted::Acts,
        drive,
        command,
        &heard.payload,
        denied,
        heard.rule,
    )?;
    Ok(text)
}

/// Tells by what a command was refused, if it was, and notes it. The drive has done it.
fn explain_command(
    explainer: &mut Explainer,
    drive: &Drive,
    heard: &Heard,
    source: Source,
) -> Result<Vec<u8>, AllocError>
    ensures { IfOk result (λ text. (o : Origin) (past : List Sourced) (fis payload : List ℕ)
        → HeardSo heard.now fis payload (event o (log o (bare_acts past)) (Accept fis payload))
        → Agrees drive.now o (Accept fis payload ∷ bare_acts past)
        → RecountsAll explainer.old o past
        → ExplainsActs source o past (Accept fis payload ∷ bare_acts past) explainer.new
        text.items) }
{
    let text = reasons_of(explainer, drive, heard)?;
    explainer.note_command(drive, &heard.header, &heard.payload, false, source);
    Ok(text)
}

/// Notes an act of this cause that was no command, if the drive has done one since it had done so many.
fn note_act(explainer: &mut Explainer, hba: &Hba, acts: u64, cause: Cause, source: Source)
    ensures { (width : AddressWidth) (o : Origin) (past : List Sourced) (act : Option Act)
        → (is_some act ≡ true → cause_at act ≡ cause)
        → told_reasons o past (with_act act (bare_acts past)) ≡ []
        → HasActed hba.now (over_new_by width o) (with_act act (bare_acts past))
        → acts ≡ act_count (bare_acts past) → RecountsAll explainer.old o past
        → ExplainsActs source o past (with_act act (bare_acts past)) explainer.new [] }
{
    if hba.acts() != acts {
        explainer.note(hba.drive(), source, cause);
    }
}

/// Notes what the host did by itself, by an act of this cause, if reasons are told.
pub fn note_own(
    explainer: &mut Option<Explainer>,
    hba: &Hba,
    acts: u64,
    cause: Cause,
    source: Source,
)
    ensures { (before : State) (operation : Operation) → acts ≡ before.acts
        → IsOwn operation cause → Adds operation before hba.now
        → ExplainsOperation source explainer.old explainer.new before operation [] }
{
    if let Some(explainer) = explainer {
        note_act(explainer, hba, acts, cause, source);
    }
}

/// Tells by what the command that a work gave to the drive was refused, if reasons are told, and notes what the drive has
/// done since it had done so many acts.
pub fn explain_work(
    alloc: Global,
    explainer: &mut Option<Explainer>,
    hba: &Hba,
    acts: u64,
    heard: &Option<Heard>,
    source: Source,
) -> Result<Vec<u8>, AllocError>
    ensures { IfOk result (λ text. (before : State) (operation : Operation) → acts ≡ before.acts
        → is_some (done_of operation) ≡ true
        → HearsOperation before hba.now heard.now operation
        → ExplainsOperation source explainer.old explainer.new before operation text.items) }
{
    let Some(explainer) = explainer else {
        return Ok(Vec::new(alloc));
    };
    match heard {
        Some(heard) => explain_command(explainer, hba.drive(), heard, source),
        None => {
            note_act(explainer, hba, acts, Cause::NoCause, source);
            Ok(Vec::new(alloc))
        }
    }
}
