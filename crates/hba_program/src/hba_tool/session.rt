//! What a controller does for a host, request by request.

ghost use Rattle.std.specs.Prelude.{◌≡◌, ◌++◌, ◌∷◌, [], None, Some, OnOk, IfOk, IfSome, is_some, true};
ghost use Rattle.script_lines.specs.Texts.{audit_text};
ghost use Rattle.hba.specs.History.{over_new_by, State, Operation, Adds, denial_heard};
ghost use Rattle.hba.specs.Engine.{done_of};
ghost use Rattle.hba_program.specs.Explained.{ExplainsOperation, HearsOperation, IsOwn, StartsTelling, source_at};
ghost use Rattle.hba_program.specs.Sayings.{part_by, work_tag, fetch_reply, complete_reply, work_reply, work_text, denials_text, sector_line, kept_denial};

use crate::hba_lines::{MemoryPart, Reply, Request};
use crate::hba_tool::explaining::{Denial, explain_work, first_explainer, note_own};
use crate::hba_tool::way::Way;
use crate::hba_wire::{Wire, WireError};
use audit::{AuditLine, Why, line_bytes};
use basics::append_hex;
use drive::Drive;
use drive_scripts::{Explainer, Source};
use hba::{Done, Hba, Heard, MemoryFault, TurnedHeard, Work};
use reasons::explained::Cause;
use std::alloc::{AllocError, Global};
use std::io::{Read, Write};

/// What is told of a work: its last line, and the lines that tell why its command was refused, where it was and reasons are
/// told.
#[derive(Drop)]
pub struct Told {
    pub reply: Reply,
    pub reasons: Vec<u8>,
}

/// A controller, and the denials that were not told.
#[derive(Drop)]
pub struct Session {
    pub alloc: Global,
    pub hba: Hba,
    /// Since when what denies a command has been in force, where reasons are told.
    pub explainer: Option<Explainer>,
    pub denials: Vec<Denial>,
    /// Lines that are not said yet.
    pub text: Vec<u8>,
}

/// What brings something into force where the host resets the drive by the registers, and where it cycles the power (TCG
/// Core 2.01, 5.1.3, reset_types).
const HARDWARE_RESET: Cause = Cause::ResetBy(1);

const POWER_CYCLE: Cause = Cause::ResetBy(0);

/// The name of what a work could not have.
fn part_of(fault: MemoryFault) -> MemoryPart
    ensures { result ≡ part_by fault }
{
    match fault {
        MemoryFault::List => MemoryPart::List,
        MemoryFault::Table => MemoryPart::Table,
        MemoryFault::Data => MemoryPart::Data,
        MemoryFault::Fis => MemoryPart::Fis,
    }
}

/// The tag of a work; the signature has none.
fn tag_of(work: &Work) -> u8
    ensures { result ≡ work_tag work.now }
{
    match *work {
        Work::Signature => 0,
        Work::Fetch(tag) => tag.number(),
        Work::Complete(tag) => tag.number(),
    }
}

/// The last line of a fetch.
fn fetch_reply(tag: u8, done: Done) -> Reply
    ensures { result ≡ fetch_reply tag done }
{
    match done {
        Done::Fault(fault) => Reply::Fault(tag, part_of(fault)),
        Done::Control => Reply::Control(tag),
        Done::Posted => Reply::Fetch(tag),
        Done::Served => Reply::Fetch(tag),
    }
}

/// The last line of a completion.
fn complete_reply(tag: u8, done: Done) -> Reply
    ensures { result ≡ complete_reply tag done }
{
    match done {
        Done::Fault(fault) => Reply::Fault(tag, part_of(fault)),
        _ => Reply::Complete(tag),
    }
}

/// The last line of a work.
fn reply_of(work: &Work, done: Done) -> Reply
    ensures { result ≡ work_reply work.now done }
{
    match *work {
        Work::Signature => Reply::Signature,
        Work::Fetch(tag) => fetch_reply(tag.number(), done),
        Work::Complete(tag) => complete_reply(tag.number(), done),
    }
}

/// Appends an audit line.
fn append_audit(alloc: Global, text: &mut Vec<u8>, line: &AuditLine) -> Result<(), AllocError>
    ensures { OnOk result (text.new.items ≡ text.old.items ++ audit_text line.now) }
{
    let line = line_bytes(alloc, line)?;
    text.extend_from_slice(b"audit ")?;
    text.extend_from_slice(&line)?;
    Ok(())
}

/// Appends the audit line of a denial, and what was told of it.
fn append_denial(alloc: Global, text: &mut Vec<u8>, denial: &Denial) -> Result<(), AllocError>
    ensures { OnOk result (text.new.items
        ≡ text.old.items ++ (audit_text denial.now.line ++ 10 ∷ denial.now.reasons)) }
{
    append_audit(alloc, text, &denial.line)?;
    text.push(b'\n')?;
    text.extend_from_slice(&denial.reasons)?;
    Ok(())
}

/// Appends the audit lines of denials, and what was told of each.
fn append_denials(alloc: Global, text: &mut Vec<u8>, denials: &[Denial]) -> Result<(), AllocError>
    ensures { OnOk result (text.new.items ≡ text.old.items ++ denials_text denials.now) }
{
    for denial in denials {
        append_denial(alloc, text, denial)?;
    }
    Ok(())
}

/// Appends the bytes of a sector, in hex.
fn append_sector(text: &mut Vec<u8>, bytes: &[u8]) -> Result<(), AllocError>
    ensures { OnOk result (text.new.items ≡ text.old.items ++ sector_line bytes.now) }
{
    append_hex(text, bytes)?;
    text.push(b'\n')?;
    Ok(())
}

impl Session {
    ghost use Rattle.history.specs.Opening.{Origin};
    ghost use Rattle.drive.specs.State.{Agrees};
    ghost use Rattle.std.specs.Prelude.{false};
    ghost use Rattle.hba.specs.History.{AgreesHba, Wrote, Powered};
    ghost use Rattle.hba.specs.Registers.{word_at, line};
    ghost use Rattle.hba_program.specs.Replies.{reply_line};
    ghost use Rattle.hba_program.specs.declared.hba_lines.reply.Reply.TheVariants as says;
    ghost use Rattle.hba_program.specs.Steps.{stand, TellsHost, WorksIf, Turns, TurnsOn, RunsOut, Operates, TellsWhy, sector_text, AnswersHost};

    /// A controller over a drive that has done no act, which serves a host in this way.
    pub fn new(alloc: Global, drive: Drive, way: Way) -> Session
        ensures hba { (o : Origin) → Agrees drive o []
            → AgreesHba result.hba (over_new_by way.width o) [] }
        ensures kept { StartsTelling way.explains result.explainer drive }
        ensures denials { result.denials.items ≡ [] }
    {
        let explainer = first_explainer(alloc, &drive, way.explains);
        Session {
            alloc,
            hba: Hba::with_addresses(alloc, drive, way.width),
            explainer,
            denials: Vec::new(alloc),
            text: Vec::new(alloc),
        }
    }

    /// Lets go of the controller, and of its drive.
    pub(crate) fn end(self) {}

    /// What is said of a register.
    fn word(&self, offset: u32) -> Reply
        ensures { result ≡ says.Word (word_at self.now.hba.registers offset) }
    {
        Reply::Word(self.hba.read(offset))
    }

    /// What is said of the interrupt line.
    fn interrupt_line(&self) -> Reply
        ensures { result ≡ says.Line (line self.now.hba.registers) }
    {
        Reply::Line(self.hba.interrupt())
    }

    /// SaysLines one line.
    fn say<R: Read + Drop, W: Write>(
        &mut self,
        reply: Reply,
        wire: &mut Wire<'_, R, W>,
    ) -> Result<(), WireError>
        ensures { OnOk result (TellsHost R.remaining W.contents (reply_line reply)
            (stand self.old wire.old) (stand self.new wire.new)) }
    {
        self.text.clear();
        reply.append_to(self.alloc, &mut self.text)?;
        wire.say(&self.text)?;
        Ok(())
    }

    /// Keeps what denied a command of a tag, and what was told of it.
    fn keep_denial(&mut self, tag: u8, why: Why, reasons: &[u8]) -> Result<(), AllocError>
        ensures kept { OnOk result (self.new.denials.items
            ≡ self.old.denials.items ++ kept_denial self.old.hba.acts tag (Some why) reasons.now) }
        ensures hba { self.new.hba ≡ self.old.hba }
        ensures explainer { self.new.explainer ≡ self.old.explainer }
    {
        let step = self.hba.acts();
        let client = u32::from(tag);
        let mut told = Vec::new(self.alloc);
        told.extend_from_slice(reasons)?;
        self.denials.push(Denial {
            line: AuditLine { step, client, why },
            reasons: told,
        })?;
        Ok(())
    }

    /// The same of the command of a work, if it was denied. Its bytes go back to the controller.
    fn keep(&mut self, tag: u8, heard: Option<Heard>, reasons: &[u8]) -> Result<(), AllocError>
        ensures kept { OnOk result (self.new.denials.items
            ≡ self.old.denials.items
            ++ kept_denial self.old.hba.acts tag (denial_heard heard) reasons.now) }
        ensures hba { self.new.hba ≡ self.old.hba }
        ensures explainer { self.new.explainer ≡ self.old.explainer }
    {
        let Some(heard) = heard else {
            return Ok(());
        };
        self.hba.put_back(heard.payload);
        match heard.denied {
            Some(why) => self.keep_denial(tag, why, reasons),
            None => Ok(()),
        }
    }

    /// Tells why the command of a work was refused, if it was and reasons are told.
    fn explain(
        &mut self,
        acts: u64,
        heard: &Option<Heard>,
        source: Source,
    ) -> Result<Vec<u8>, AllocError>
        ensures explains { IfOk result (λ text. (before : State) (operation : Operation)
            → acts ≡ before.acts → is_some (done_of operation) ≡ true
            → HearsOperation before self.old.hba heard.now operation
            → ExplainsOperation source self.old.explainer self.new.explainer before operation
            text.items) }
        ensures hba { self.new.hba ≡ self.old.hba }
        ensures denials { self.new.denials ≡ self.old.denials }
    {
        let text = explain_work(
            self.alloc,
            &mut self.explainer,
            &self.hba,
            acts,
            heard,
            source,
        )?;
        Ok(text)
    }

    /// What is told of a work that was done.
    fn told(&mut self, number: u64, acts: u64, turned: TurnedHeard) -> Result<Told, AllocError>
        ensures reply { IfOk result (λ told. told.reply ≡ work_reply turned.work turned.done) }
        ensures kept { IfOk result (λ told. self.new.denials.items
            ≡ self.old.denials.items ++ kept_denial self.old.hba.acts (work_tag turned.work)
            (denial_heard turned.heard) told.reasons.items) }
        ensures explains { IfOk result (λ told. (before : State) (operation : Operation)
            → acts ≡ before.acts → is_some (done_of operation) ≡ true
            → HearsOperation before self.old.hba turned.heard operation
            → ExplainsOperation (source_at number (work_tag turned.work)) self.old.explainer
            self.new.explainer before operation told.reasons.items) }
        ensures hba { OnOk result (self.new.hba ≡ self.old.hba) }
    {
        let reply = reply_of(&turned.work, turned.done);
        let tag = tag_of(&turned.work);
        let source = Source {
            line: number,
            client: u32::from(tag),
        };
        let reasons = self.explain(acts, &turned.heard, source)?;
        self.keep(tag, turned.heard, &reasons)?;
        Ok(Told { reply, reasons })
    }

    /// Does the work of a number in the request of a number; `None` where none is ready.
    fn work<R: Read + Drop, W: Write>(
        &mut self,
        number: u64,
        choice: usize,
        wire: &mut Wire<'_, R, W>,
    ) -> Result<Option<Told>, WireError>
        ensures works { IfOk result (λ told. WorksIf R.remaining W.contents number choice told
            (stand self.old wire.old) (stand self.new wire.new)) }
        ensures stands { OnOk result (wire.new.failure ≡ None) }
    {
        let acts = self.hba.acts();
        let turned = self.hba.turn_heard(choice, wire)?;
        wire.stands()?;
        let Some(turned) = turned else {
            return Ok(None);
        };
        let told = self.told(number, acts, turned)?;
        Ok(Some(told))
    }

    /// Says the last line of a work, or that none was ready, and behind it what is told of its command.
    fn say_work<R: Read + Drop, W: Write>(
        &mut self,
        told: &Option<Told>,
        wire: &mut Wire<'_, R, W>,
    ) -> Result<(), WireError>
        ensures { OnOk result (TellsHost R.remaining W.contents (work_text told.now)
            (stand self.old wire.old) (stand self.new wire.new)) }
    {
        let Some(told) = told else {
            return self.say(Reply::Idle, wire);
        };
        self.text.clear();
        told.reply.append_to(self.alloc, &mut self.text)?;
        self.text.extend_from_slice(&told.reasons)?;
        wire.say(&self.text)?;
        Ok(())
    }

    /// Does the work of a number, and says its last line.
    fn turn<R: Read + Drop, W: Write>(
        &mut self,
        number: u64,
        choice: usize,
        wire: &mut Wire<'_, R, W>,
    ) -> Result<(), WireError>
        ensures { OnOk result (Turns R.remaining W.contents number choice
            (stand self.old wire.old) (stand self.new wire.new)) }
    {
        let told = self.work(number, choice, wire)?;
        if wire.is_cut_off {
            return Ok(());
        }
        self.say_work(&told, wire)?;
        Ok(())
    }

    /// Does work until none is ready, and says how much.
    fn run<R: Read + Drop, W: Write>(
        &mut self,
        number: u64,
        wire: &mut Wire<'_, R, W>,
    ) -> Result<(), WireError>
        requires { wire.old.is_cut_off ≡ false }
        ensures { OnOk result (RunsOut R.remaining W.contents number
            (stand self.old wire.old) (stand self.new wire.new)) }
    {
        for count in 0..u32::MAX {
            let told = self.work(number, 0, wire)?;
            if told.is_none() {
                self.say(Reply::Ran(count), wire)?;
                return Ok(());
            }
            if wire.is_cut_off {
                return Ok(());
            }
            self.say_work(&told, wire)?;
        }
        self.say(Reply::Ran(u32::MAX), wire)?;
        Ok(())
    }

    /// TellsHost the denials that were not told.
    fn tell<R: Read + Drop, W: Write>(&mut self, wire: &mut Wire<'_, R, W>) -> Result<(), WireError>
        ensures { OnOk result (TellsWhy R.remaining W.contents
            (stand self.old wire.old) (stand self.new wire.new)) }
    {
        self.text.clear();
        Reply::Denials(self.denials.len() as u64).append_to(self.alloc, &mut self.text)?;
        append_denials(self.alloc, &mut self.text, &self.denials)?;
        self.denials.clear();
        wire.say(&self.text)?;
        Ok(())
    }

    /// SaysLines the bytes of a sector, whatever is locked.
    fn sector<R: Read + Drop, W: Write>(
        &mut self,
        lba: u64,
        wire: &mut Wire<'_, R, W>,
    ) -> Result<(), WireError>
        ensures { OnOk result (TellsHost R.remaining W.contents (sector_text self.old.hba.drive lba)
            (stand self.old wire.old) (stand self.new wire.new)) }
    {
        let Some(bytes) = self.hba.drive().sector(lba) else {
            self.say(Reply::NoSector, wire)?;
            return Ok(());
        };
        self.text.clear();
        append_sector(&mut self.text, bytes)?;
        wire.say(&self.text)?;
        Ok(())
    }

    /// Notes what the host did by itself in the request of a number, if reasons are told.
    fn note(&mut self, acts: u64, cause: Cause, number: u64)
        ensures explains { (before : State) (operation : Operation) → acts ≡ before.acts
            → IsOwn operation cause → Adds operation before self.old.hba
            → ExplainsOperation (source_at number 0) self.old.explainer self.new.explainer before
            operation [] }
        ensures hba { self.new.hba ≡ self.old.hba }
        ensures denials { self.new.denials ≡ self.old.denials }
    {
        let source = Source {
            line: number,
            client: 0,
        };
        note_own(&mut self.explainer, &self.hba, acts, cause, source);
    }

    /// Writes a register, and says that it is done.
    fn write<R: Read + Drop, W: Write>(
        &mut self,
        number: u64,
        offset: u32,
        value: u32,
        wire: &mut Wire<'_, R, W>,
    ) -> Result<(), WireError>
        ensures { OnOk result (Operates R.remaining W.contents number (Wrote offset value)
            (stand self.old wire.old) (stand self.new wire.new)) }
    {
        let acts = self.hba.acts();
        self.hba.write(offset, value);
        self.note(acts, HARDWARE_RESET, number);
        self.say(Reply::Done, wire)?;
        Ok(())
    }

    /// Has a power cycle, and says that it is done.
    fn power_cycle<R: Read + Drop, W: Write>(
        &mut self,
        number: u64,
        wire: &mut Wire<'_, R, W>,
    ) -> Result<(), WireError>
        ensures { OnOk result (Operates R.remaining W.contents number Powered
            (stand self.old wire.old) (stand self.new wire.new)) }
    {
        let acts = self.hba.acts();
        self.hba.power_cycle();
        self.note(acts, POWER_CYCLE, number);
        self.say(Reply::Done, wire)?;
        Ok(())
    }

    /// Does what the host asks for, as the request of a number.
    pub fn answer<R: Read + Drop, W: Write>(
        &mut self,
        number: u64,
        request: Request,
        wire: &mut Wire<'_, R, W>,
    ) -> Result<(), WireError>
        requires { wire.old.is_cut_off ≡ false }
        ensures { OnOk result (AnswersHost R.remaining W.contents number request
            (stand self.old wire.old) (stand self.new wire.new)) }
    {
        match request {
            Request::Read { offset } => self.say(self.word(offset), wire)?,
            Request::Write { offset, value } => self.write(number, offset, value, wire)?,
            Request::Turn { choice } => self.turn(number, choice as usize, wire)?,
            Request::Run => self.run(number, wire)?,
            Request::Interrupt => self.say(self.interrupt_line(), wire)?,
            Request::Why => self.tell(wire)?,
            Request::PowerCycle => self.power_cycle(number, wire)?,
            Request::Sector { lba } => self.sector(lba, wire)?,
        }
        Ok(())
    }
}
