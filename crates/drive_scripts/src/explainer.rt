//! What explains the denials of a drive that a script runs on.

ghost use Rattle.std.specs.Prelude.{◌≡◌, ◌++◌, OnOk};
ghost use Rattle.drive_scripts.specs.Explanations.{sp_asked, pending_text, session_named_on, sp_denied, session_denied};

use audit::rules::Rule;
use audit::{AttemptFailure, Why};
use drive::{Accepted, Drive, ResetKind};
use fis::RegH2d;
use reasons::details::details_of;
use reasons::explained::{Cause, Chronicle, Counted, SessionChronicle, Source, cause_in};
use reasons::remedies::{append_object_name, sp_object};
use reasons::rulings::{command_in, ruling_of};
use reasons::sent::session_named;
use script_lines::Report;
use sp_cells::Sp;
use std::alloc::{AllocError, Global};
use std::marker::Model;
use transactions::SessionId;
use trusted_cmds::Command;

/// The SP whose rows a denial went by that a transaction may have changed.
fn sp_asked(why: &Why) -> Option<Sp>
    ensures { result ≡ sp_asked why.now }
{
    match why {
        Why::NoEntryHolds { sp, .. } => Some(*sp),
        Why::AttemptFailed {
            sp,
            failure: AttemptFailure::Disabled,
            ..
        } => Some(*sp),
        _ => None,
    }
}

/// The session that the frame of a payload names, on an SP.
fn session_named_on(payload: &[u8], sp: Sp) -> SessionId
    ensures { result ≡ session_named_on payload.now sp }
{
    SessionId {
        tsn: session_named(payload),
        sp,
    }
}

/// The SP in whose session a command was denied; a transfer is denied in none.
fn sp_denied(why: &Why) -> Sp
    ensures { result ≡ sp_denied why.now }
{
    match why {
        Why::NoEntryHolds { sp, .. } => *sp,
        Why::NoAccessRow { sp, .. } | Why::AttemptFailed { sp, .. } => *sp,
        _ => Sp::Locking,
    }
}

/// The session in which a command with this payload was denied.
fn session_denied(payload: &[u8], why: &Why) -> SessionId
    ensures { result ≡ session_denied payload.now why.now }
{
    session_named_on(payload, sp_denied(why))
}

/// Appends that a transaction is open on an SP, if one is, in a line with its line feed.
fn append_pending(
    alloc: Global,
    text: &mut Vec<u8>,
    is_open: bool,
    sp: Sp,
) -> Result<(), AllocError>
    ensures { OnOk result (text.new.items ≡ text.old.items ++ pending_text is_open sp) }
{
    if is_open {
        text.extend_from_slice(b"because a transaction is open on ")?;
        append_object_name(alloc, text, sp_object(sp))?;
        text.extend_from_slice(b": its session sees what it set, and all do behind its commit")?;
        text.extend_from_slice(b"\n")?;
    }
    Ok(())
}

/// Since which act of a drive each of its locks has been in force, and a session has lived on each SP.
#[derive(Drop)]
pub struct Explainer {
    alloc: Global,
    chronicle: Chronicle,
    sessions: SessionChronicle,
}

impl Model for Explainer {
    ghost use Rattle.drive_scripts.specs.Kept.{KeptReasons};

    ghost Value = { KeptReasons };

    ghost view = { λ e. record { onsets = e.chronicle; sessions = e.sessions } };
}

impl Explainer {
    ghost use Rattle.std.specs.Prelude.{◌≡◌, ◌∷◌, ◌++◌, [], ℕ, List, is_some, option_map, IfOk, OnOk};
    ghost use Rattle.fis.specs.H2d.{h2d_at};
    ghost use Rattle.history.specs.Opening.{Origin};
    ghost use Rattle.history.specs.History.{Act, Reset, log};
    ghost use Rattle.history.specs.Readers.{in_force, open_on, session_on};
    ghost use Rattle.sp_cells.specs.declared.names.Sp.{Sp};
    ghost use Rattle.history.specs.Resets.{reset_kind_number};
    ghost use Rattle.drive.specs.State.{Agrees};
    ghost use Rattle.reasons.specs.Onsets.{Sourced, bare_acts, cause_at};
    ghost use Rattle.drive_scripts.specs.Kept.{RecountsAll};
    ghost use Rattle.reasons.specs.declared.explained.onset.Counted.TheVariants.{Acts};
    ghost use Rattle.reasons.specs.Lives.{life_of};
    ghost use Rattle.reasons.specs.Details.{details_text};
    ghost use Rattle.reasons.specs.Rulings.{command_carried, ruled_text};
    ghost use Rattle.drive_scripts.specs.Explanations.{attributed, once_served, open_text, session_denied, seen_after, told_after, refusal_text, denial_text};

    /// Of a drive that has done no act.
    pub fn new(alloc: Global, drive: &Drive) -> Explainer
        ensures { (o : Origin) → Agrees drive.now o [] → RecountsAll result o [] }
    {
        let chronicle = Chronicle::opened(&drive.in_force());
        let sessions = SessionChronicle::opened();
        Explainer {
            alloc,
            chronicle,
            sessions,
        }
    }

    /// Notes an act of this source and cause, or a step of a port that does none, by the rows in force and the sessions now:
    /// they are those behind it.
    pub fn note(&mut self, drive: &Drive, source: Source, cause: Cause)
        ensures { (o : Origin) (s : Sourced) (past : List Sourced) (acts : List Act)
            → s.source ≡ source → cause_at s.act ≡ cause → Agrees drive.now o acts
            → in_force o (log o acts) ≡ in_force o (log o (bare_acts (s ∷ past)))
            → ((sp : Sp) → session_on (log o acts) sp
            ≡ session_on (log o (bare_acts (s ∷ past))) sp)
            → RecountsAll self.old o past → RecountsAll self.new o (s ∷ past) }
    {
        self.chronicle.note_act(&drive.in_force(), source, cause);
        let on_admin = drive.has_session(Sp::Admin);
        let on_locking = drive.has_session(Sp::Locking);
        self.sessions.note_act(on_admin, on_locking, source, cause);
    }

    /// Notes a command: its acceptance with the FIS and the payload, and where it was held its completion. The drive has
    /// done both.
    pub fn note_command(
        &mut self,
        drive: &Drive,
        h: &RegH2d,
        payload: &[u8],
        held: bool,
        source: Source,
    )
        ensures { (o : Origin) (past : List Sourced) (acts : List Act) (fis : List ℕ) (tag : ℕ)
            (bytes : List ℕ) → h2d_at fis ≡ h.now
            → acts ≡ once_served held fis payload.now tag bytes (bare_acts past)
            → Agrees drive.now o acts → RecountsAll self.old o past
            → RecountsAll self.new o (attributed source acts past) }
    {
        self.note(drive, source, cause_in(h, payload));
        if held {
            self.note(drive, source, Cause::NoCause);
        }
    }

    /// Notes a reset of this kind, which the drive has done.
    pub fn note_reset(&mut self, drive: &Drive, kind: ResetKind, source: Source)
        ensures { (o : Origin) (past : List Sourced)
            → Agrees drive.now o (Reset (reset_kind_number kind) ∷ bare_acts past)
            → RecountsAll self.old o past
            → RecountsAll self.new o
            (attributed source (Reset (reset_kind_number kind) ∷ bare_acts past) past) }
    {
        self.note(drive, source, Cause::ResetBy(kind.number()));
    }

    /// What more is told of the bytes of a command that a rule refused.
    fn detail_lines(
        &self,
        counted: Counted,
        drive: &Drive,
        payload: &[u8],
        rule: Option<Rule>,
    ) -> Result<Vec<u8>, AllocError>
        ensures { IfOk result (λ text. (o : Origin) (past : List Sourced) (acts : List Act)
            → Agrees drive.now o acts → RecountsAll self.now o past
            → text.items ≡ details_text counted (seen_after o acts payload.now) (life_of o past)
            payload.now rule) }
    {
        let session = session_named_on(payload, Sp::Locking);
        let seen = drive.seen_by(session);
        let room = drive.room(session);
        let sessions = &self.sessions;
        let text = details_of(self.alloc, counted, &seen, room, sessions, payload, rule)?;
        Ok(text)
    }

    /// The lines that tell by which rule a command was refused, each with its line feed; none where none did.
    fn ruled_lines(
        &self,
        drive: &Drive,
        command: Option<Command>,
        rule: Option<Rule>,
    ) -> Result<Vec<u8>, AllocError>
        ensures { IfOk result (λ text. (o : Origin) (acts : List Act) → Agrees drive.now o acts
            → text.items ≡ ruled_text o.tables.config.profile (in_force o (log o acts)) command
            rule) }
    {
        let text = ruling_of(self.alloc, &drive.in_force(), command, rule)?;
        Ok(text)
    }

    /// The same, and what more is told of its bytes.
    fn rule_lines(
        &self,
        counted: Counted,
        drive: &Drive,
        command: Option<Command>,
        payload: &[u8],
        rule: Option<Rule>,
    ) -> Result<Vec<u8>, AllocError>
        ensures { IfOk result (λ text. (o : Origin) (past : List Sourced) (acts : List Act)
            → Agrees drive.now o acts → RecountsAll self.now o past
            → text.items ≡ refusal_text counted o past acts command payload.now rule) }
    {
        let mut text = self.ruled_lines(drive, command, rule)?;
        let details = self.detail_lines(counted, drive, payload, rule)?;
        text.extend_from_slice(&details)?;
        Ok(text)
    }

    /// The line that tells that a transaction is open on an SP, with its line feed; none where none is.
    fn pending_line(&self, drive: &Drive, sp: Sp) -> Result<Vec<u8>, AllocError>
        ensures { IfOk result (λ text. (o : Origin) (acts : List Act) → Agrees drive.now o acts
            → text.items ≡ pending_text (is_some (open_on (log o acts) sp)) sp) }
    {
        let mut text = Vec::new(self.alloc);
        append_pending(self.alloc, &mut text, drive.has_transaction(sp), sp)?;
        Ok(text)
    }

    /// The same of the SP of a denial, if it has one.
    fn open_line(&self, drive: &Drive, sp: Option<Sp>) -> Result<Vec<u8>, AllocError>
        ensures { IfOk result (λ text. (o : Origin) (acts : List Act) → Agrees drive.now o acts
            → text.items ≡ open_text (log o acts) sp) }
    {
        match sp {
            Some(sp) => self.pending_line(drive, sp),
            None => Ok(Vec::new(self.alloc)),
        }
    }

    /// The lines that tell what the session of a denied command holds, since when what denied it has been in force, and what
    /// would lift it.
    fn explanation(
        &self,
        counted: Counted,
        drive: &Drive,
        session: SessionId,
        why: &Why,
    ) -> Result<Vec<u8>, AllocError>
        ensures { IfOk result (λ text. (o : Origin) (past : List Sourced) (acts : List Act)
            → Agrees drive.now o acts → RecountsAll self.now o past
            → text.items ≡ told_after counted o past acts session why.now) }
    {
        let rows = drive.in_force();
        let seen = drive.seen_by(session);
        let held = drive.authorities(session);
        let number = session.tsn;
        let text = self
            .chronicle
            .explain_by(self.alloc, counted, &rows, &seen, number, held, why)?;
        Ok(text)
    }

    /// The lines that tell what denied a command with these bytes, each with its line feed.
    fn denial_lines(
        &self,
        counted: Counted,
        drive: &Drive,
        payload: &[u8],
        why: &Why,
    ) -> Result<Vec<u8>, AllocError>
        ensures { IfOk result (λ text. (o : Origin) (past : List Sourced) (acts : List Act)
            → Agrees drive.now o acts → RecountsAll self.now o past
            → text.items ≡ open_text (log o acts) (sp_asked why.now)
            ++ told_after counted o past acts (session_denied payload.now why.now) why.now) }
    {
        let mut text = self.open_line(drive, sp_asked(why))?;
        let told = self.explanation(counted, drive, session_denied(payload, why), why)?;
        text.extend_from_slice(&told)?;
        Ok(text)
    }

    /// The lines that tell why a command with these bytes was refused, by what denied it, or else by the rule, each with its line
    /// feed; none where neither did. The drive has done the command, which is not noted yet.
    ///
    /// # Errors
    ///
    /// Want of memory.
    pub fn reasons(
        &self,
        counted: Counted,
        drive: &Drive,
        command: Option<Command>,
        payload: &[u8],
        denied: Option<&Why>,
        rule: Option<Rule>,
    ) -> Result<Vec<u8>, AllocError>
        ensures { IfOk result (λ text. (o : Origin) (past : List Sourced) (acts : List Act)
            → Agrees drive.now o acts → RecountsAll self.now o past
            → text.items ≡ denial_text counted o past acts command payload.now
            (option_map (λ why. why.now) denied.entry) rule) }
    {
        match denied {
            Some(why) => self.denial_lines(counted, drive, payload, why),
            None => self.rule_lines(counted, drive, command, payload, rule),
        }
    }

    /// Prints why the command of a FIS with these bytes was refused with this answer, behind what it printed: what is expected
    /// is not held against these lines. The drive has done the command, which is not noted yet.
    ///
    /// # Errors
    ///
    /// Want of memory.
    pub fn explain(
        &self,
        drive: &Drive,
        h: &RegH2d,
        payload: &[u8],
        answer: &Accepted,
        report: &mut Report,
    ) -> Result<(), AllocError>
        ensures pending { OnOk result ((o : Origin) (past : List Sourced) (acts : List Act)
            → Agrees drive.now o acts → RecountsAll self.now o past
            → report.new.pending.items
            ≡ report.old.pending.items
            ++ denial_text Acts o past acts (command_carried h.now) payload.now answer.now.denied
            answer.now.rule) }
        ensures last { report.new.last ≡ report.old.last }
    {
        let command = command_in(h);
        let denied = answer.denied.as_ref();
        let text = self.reasons(Counted::Acts, drive, command, payload, denied, answer.rule)?;
        report.pending.extend_from_slice(&text)?;
        Ok(())
    }
}
