//! The phase of a script that runs on a port: a port, and what the lines do with it.

ghost use Rattle.std.specs.Prelude.{◌≡◌, ◌<◌, ◌≤◌, ◌∷◌, [], IfOk, OnOk, length};
ghost use Rattle.compacket.specs.Spelling.{frame_bytes};
ghost use Rattle.port.specs.Live.{line_kept};
ghost use Rattle.port_history.specs.declared.request.Request.TheVariants as requests;
ghost use Rattle.script_lines.specs.Fields.{most_call_bytes, most_send_bytes};
ghost use Rattle.script_lines.specs.PortLines.{FitsPort, FitsPut};
ghost use Rattle.script_lines.specs.Texts.{Prints};
ghost use Rattle.drive_scripts.specs.Acts.{in_blocks, com_id_protocol};
ghost use Rattle.port_scripts.specs.PortEffects.{same_bytes, request_of, step_in, turn_without, PrintsError, bytes_text, taken_text, audit_lines};

use basics::Bytes;
use compacket::{ComId, Session, frame};
use drive::ResetKind;
use drive_scripts::{COM_ID_PROTOCOL, Fault, Turn, expectation, fill, kind_named, pad, shown};
use fis::{Lba, Tag};
use port::{Answer, LivePort, PortError, Put, Request, Step};
use script_lines::{Hex, PortLine, PutRequest, Report};
use std::alloc::{AllocError, Global};
use trusted_cmds::{Command, SECTOR_SIZE};

/// How many steps a script makes on a port: as many as a history has room for.
const MOST_STEPS_MADE: u64 = 1_048_576;

/// So many sectors whose bytes are all the same.
fn same_bytes(alloc: Global, count: u16, byte: u8) -> Result<Bytes, AllocError>
    ensures { IfOk result (λ bytes. bytes ≡ same_bytes count byte) }
{
    let mut bytes = Vec::new(alloc);
    fill(&mut bytes, SECTOR_SIZE * usize::from(count), byte)?;
    Ok(Bytes::from_vec(bytes))
}

/// Bytes with zeros behind them to the end of a block.
fn in_blocks(mut bytes: Vec<u8>) -> Result<Bytes, AllocError>
    requires { length bytes.items ≤ most_send_bytes }
    ensures { IfOk result (λ padded. padded ≡ in_blocks bytes.items) }
{
    pad(&mut bytes)?;
    Ok(Bytes::from_vec(bytes))
}

/// The ComPacket of tokens, in whole blocks.
fn framed(
    alloc: Global,
    com_id: ComId,
    session: Session,
    tokens: &Hex<'_>,
) -> Result<Bytes, AllocError>
    requires some { 0 < length tokens.now }
    requires most { length tokens.now ≤ most_call_bytes }
    ensures { IfOk result (λ bytes. bytes ≡ in_blocks (frame_bytes com_id session tokens.now)) }
{
    let mut decoded = Vec::new(alloc);
    tokens.decode_into(&mut decoded)?;
    let packet = frame(alloc, com_id, session, &decoded)?;
    in_blocks(packet)
}

/// The bytes of a ComPacket, in whole blocks.
fn packed(alloc: Global, packet: &Hex<'_>) -> Result<Bytes, AllocError>
    requires { length packet.now ≤ most_send_bytes }
    ensures { IfOk result (λ bytes. bytes ≡ in_blocks packet.now) }
{
    let mut bytes = Vec::new(alloc);
    packet.decode_into(&mut bytes)?;
    in_blocks(bytes)
}

/// A queued write of sectors whose bytes are all the same.
fn write_of(alloc: Global, lba: Lba, count: u16, byte: u8) -> Result<Request, AllocError>
    ensures { IfOk result (λ request. request ≡ requests.Write lba (same_bytes count byte)) }
{
    let bytes = same_bytes(alloc, count, byte)?;
    let lba = lba.number();
    Ok(Request::Write { lba, bytes })
}

/// The same, not queued.
fn write_dma_of(alloc: Global, lba: Lba, count: u16, byte: u8) -> Result<Request, AllocError>
    ensures { IfOk result (λ request. request ≡ requests.WriteDma lba (same_bytes count byte)) }
{
    let bytes = same_bytes(alloc, count, byte)?;
    let lba = lba.number();
    Ok(Request::WriteDma { lba, bytes })
}

/// A send of bytes by a security protocol, in whole blocks.
fn send_of(
    alloc: Global,
    protocol: u8,
    com_id: u16,
    payload: &Hex<'_>,
) -> Result<Request, AllocError>
    requires { length payload.now ≤ most_send_bytes }
    ensures { IfOk result
        (λ request. request ≡ requests.Send protocol com_id (in_blocks payload.now)) }
{
    let bytes = packed(alloc, payload)?;
    Ok(Request::Send {
        protocol,
        com_id,
        bytes,
    })
}

/// A receive of blocks by a security protocol.
fn receive_of(protocol: u8, com_id: u16, blocks: u16) -> Request
    ensures { result ≡ requests.Receive protocol com_id blocks }
{
    Request::Receive {
        protocol,
        com_id,
        blocks,
    }
}

/// A send of a ComPacket that carries tokens.
fn call_of(
    alloc: Global,
    com_id: ComId,
    session: Session,
    tokens: &Hex<'_>,
) -> Result<Request, AllocError>
    requires some { 0 < length tokens.now }
    requires most { length tokens.now ≤ most_call_bytes }
    ensures { IfOk result (λ request. request
        ≡ requests.Send com_id_protocol com_id
        (in_blocks (frame_bytes com_id session tokens.now))) }
{
    let bytes = framed(alloc, com_id, session, tokens)?;
    Ok(Request::Send {
        protocol: COM_ID_PROTOCOL,
        com_id,
        bytes,
    })
}

/// The request that a `put` line asks.
pub fn request_of(alloc: Global, asked: &PutRequest<'_>) -> Result<Request, AllocError>
    requires { FitsPut asked.now }
    ensures { IfOk result (λ request. request ≡ request_of asked.now) }
{
    match asked {
        PutRequest::Read { lba, count } => Ok(Request::Read {
            lba: lba.number(),
            count: u32::from(*count),
        }),
        PutRequest::Write { lba, count, byte } => write_of(alloc, *lba, *count, *byte),
        PutRequest::ReadDma { lba, count } => Ok(Request::ReadDma {
            lba: lba.number(),
            count: u32::from(*count),
        }),
        PutRequest::WriteDma { lba, count, byte } => write_dma_of(alloc, *lba, *count, *byte),
        PutRequest::Call {
            com_id,
            session,
            tokens,
        } => call_of(alloc, *com_id, *session, tokens),
        PutRequest::Send { com_id, packet } => send_of(alloc, COM_ID_PROTOCOL, *com_id, packet),
        PutRequest::Receive { com_id, blocks } => {
            Ok(receive_of(COM_ID_PROTOCOL, *com_id, *blocks))
        }
        PutRequest::SecurityIn {
            protocol,
            sp_specific,
            blocks,
        } => Ok(receive_of(*protocol, *sp_specific, *blocks)),
        PutRequest::SecurityOut {
            protocol,
            sp_specific,
            payload,
        } => send_of(alloc, *protocol, *sp_specific, payload),
        PutRequest::Identify => Ok(Request::Identify),
    }
}

/// The step that a line asks for, if it asks for one.
#[inline(always)]
pub(crate) fn step_in(alloc: Global, line: &PortLine<'_>) -> Result<Option<Step>, AllocError>
    requires { FitsPort line.now }
    ensures { IfOk result (λ step. step ≡ step_in line.now) }
{
    let step = match line {
        PortLine::Range(_) | PortLine::Expect => return Ok(None),
        PortLine::Put {
            client,
            tag,
            request,
        } => Step::Put {
            client: *client,
            tag: *tag,
            request: request_of(alloc, request)?,
        },
        PortLine::Issue { tag } => Step::Issue { tag: *tag },
        PortLine::Accept { tag } => Step::Accept { tag: *tag },
        PortLine::Complete { tag } => Step::Complete { tag: *tag },
        PortLine::Recover => Step::Recover,
        PortLine::Reset { client, kind } => Step::Reset {
            client: *client,
            kind: kind_named(*kind),
        },
        PortLine::Take { client, tag } => Step::Take {
            client: *client,
            tag: *tag,
        },
    };
    Ok(Some(step))
}

/// How a script goes on behind a line that asks for no step.
fn turn_without(line: &PortLine<'_>, text: &[u8], report: &Report) -> Turn
    ensures { result ≡ turn_without line.now report.now.last.items text.now }
{
    match line {
        PortLine::Range(_) => Turn::Bad(Fault::LateRange),
        _ => expectation(text, report),
    }
}

/// Prints a refusal, and gives it. Want of memory stays an error.
fn refused(error: PortError, report: &mut Report) -> Result<Option<PortError>, AllocError>
    ensures prints { OnOk result (PrintsError error report.old report.new) }
    ensures gives { IfOk result (λ told. told ≡ Some error) }
{
    match error {
        PortError::OutOfMemory => Err(AllocError),
        _ => {
            report.print_refused(error.number())?;
            Ok(Some(error))
        }
    }
}

/// Prints that a command is done, with its data.
fn print_bytes(put: Option<Put>, bytes: &[u8], report: &mut Report) -> Result<(), AllocError>
    ensures { OnOk result (Prints report.old report.new (bytes_text put bytes.now ∷ [])) }
{
    let Some(put) = put else {
        report.print_ok()?;
        return Ok(());
    };
    match put.command {
        Command::ReadQueued { .. } | Command::ReadDma { .. } => report.print_data(bytes)?,
        Command::Receive {
            protocol,
            sp_specific,
            ..
        } => report.print_hex(shown(protocol, sp_specific, bytes))?,
        Command::Identify => report.print_hex(bytes)?,
        _ => report.print_ok()?,
    }
    Ok(())
}

/// Prints the answer of a command.
fn print_answer(put: Option<Put>, answer: &Answer, report: &mut Report) -> Result<(), AllocError>
    ensures { OnOk result (Prints report.old report.new (taken_text put answer.now ∷ [])) }
{
    match answer {
        Answer::Done(bytes) => print_bytes(put, bytes.as_slice(), report)?,
        Answer::Failed { status, error } => report.print_failure(*status, *error)?,
        Answer::Reset => report.print_reset()?,
    }
    Ok(())
}

/// Prints the denial at a place of a port's audit log, if it is there.
fn print_denial(port: &LivePort, place: u64, report: &mut Report) -> Result<(), AllocError>
    ensures { OnOk result (Prints report.old report.new (audit_lines (line_kept port.now place))) }
{
    if let Some(line) = port.denial(place) {
        report.print_audit(line)?;
    }
    Ok(())
}

/// A port that a script runs on. It keeps no history, and yet makes no more steps than one has room for.
#[derive(Drop)]
pub struct PortPhase {
    port: LivePort,
    /// How many steps were made.
    made: u64,
    alloc: Global,
}

impl PortPhase {
    ghost use Rattle.std.specs.Prelude.{◌≡◌, ℕ, List, [], IfOk, OnOk, Ok, Err};
    ghost use Rattle.script_lines.specs.PortLines.{port_line_of, FitsPort};
    ghost use Rattle.script_lines.specs.Texts.{done_text};
    ghost use Rattle.script_lines.specs.declared.port_line.PortLine.{PortLine};
    ghost use Rattle.script_lines.specs.declared.fault.LineFault.{LineFault};
    ghost use Rattle.history.specs.Opening.{Origin};
    ghost use Rattle.port_history.specs.Refusals.{refusal, refusal_with_room};
    ghost use Rattle.port_history.specs.declared.step.Step.{Step};
    ghost use Rattle.port_history.specs.declared.step.Step.TheVariants as steps;
    ghost use Rattle.port.specs.Live.{LiveAgrees};
    ghost use Rattle.port_scripts.specs.PortEffects.{PortRunsOn, PortMakes, PortDoes, PrintsStep, made_by, refusal_in};
    ghost use Rattle.drive_scripts.specs.declared.turn.Fault.{Fault};

    /// A port on which nothing was done.
    pub fn new(alloc: Global, port: LivePort) -> PortPhase
        ensures { (o : Origin) → LiveAgrees port o [] → PortRunsOn result o [] }
    {
        PortPhase {
            port,
            made: 0,
            alloc,
        }
    }

    /// The port.
    pub fn port(&self) -> &LivePort
        ensures { result.now ≡ self.now.port }
    {
        &self.port
    }

    /// Where it takes memory from.
    pub fn allocator(&self) -> Global {
        self.alloc
    }

    /// Does what one line says. A line that is none, or that gives the cells of a range, changes
    /// nothing.
    pub fn turn(&mut self, text: &[u8], report: &mut Report) -> Result<Turn, AllocError>
        ensures bad_line { (fault : LineFault) → port_line_of text.now ≡ Err fault
            → result ≡ Ok (Turn.Bad (Fault.Line fault)) }
        ensures nothing_acts { (fault : LineFault) → port_line_of text.now ≡ Err fault
            → self.new ≡ self.old }
        ensures nothing_prints { (fault : LineFault) → port_line_of text.now ≡ Err fault
            → report.new ≡ report.old }
        ensures does { (line : PortLine) → port_line_of text.now ≡ Ok line → IfOk result
            (λ turn. (o : Origin) (list : List Step) → PortRunsOn self.old o list
            → PortDoes line text.now turn self.old self.new o list report.old report.new) }
    {
        match &PortLine::parse(text) {
            Ok(line) => self.act(line, text, report),
            Err(fault) => Ok(Turn::Bad(Fault::Line(*fault))),
        }
    }

    #[inline(always)]
    fn act(
        &mut self,
        line: &PortLine<'_>,
        text: &[u8],
        report: &mut Report,
    ) -> Result<Turn, AllocError>
        requires { FitsPort line.now }
        ensures { IfOk result (λ turn. (o : Origin) (list : List Step) → PortRunsOn self.old o list
            → PortDoes line.now text.now turn self.old self.new o list report.old report.new) }
    {
        let Some(step) = step_in(self.alloc, line)? else {
            return Ok(turn_without(line, text, report));
        };
        self.step(&step, report)?;
        Ok(Turn::Goes { aborted: false })
    }

    /// Does a step, and prints that, or that it is refused. It gives why it is refused.
    #[inline(always)]
    pub fn step(
        &mut self,
        step: &Step,
        report: &mut Report,
    ) -> Result<Option<PortError>, AllocError>
        ensures { IfOk result (PortMakes refusal step.now
            self.old self.new report.old report.new) }
    {
        if self.made >= MOST_STEPS_MADE {
            return refused(PortError::HistoryFull, report);
        }
        self.make(step, report)
    }

    /// Does a step for which there is room.
    #[inline(always)]
    fn make(&mut self, step: &Step, report: &mut Report) -> Result<Option<PortError>, AllocError>
        ensures { IfOk result (PortMakes refusal_with_room step.now
            self.old self.new report.old report.new) }
    {
        match *step {
            Step::Put {
                client,
                tag,
                ref request,
            } => self.put(client, tag, request, report),
            Step::Issue { tag } => self.issue(tag, report),
            Step::Accept { tag } => self.accept(tag, report),
            Step::Complete { tag } => self.complete(tag, report),
            Step::Recover => self.recover(report),
            Step::Reset { client, kind } => self.reset(client, kind, report),
            Step::Take { client, tag } => self.take(client, tag, report),
        }
    }

    /// Prints that a step is done, and counts it, or prints why it is refused, and gives that.
    #[inline(always)]
    fn told(
        &mut self,
        done: Result<u64, PortError>,
        report: &mut Report,
    ) -> Result<Option<PortError>, AllocError>
        ensures prints { OnOk result (PrintsStep (λ _. done_text) done report.old report.new) }
        ensures gives { IfOk result (λ told. told ≡ refusal_in done) }
        ensures port { self.new.port ≡ self.old.port }
        ensures made { OnOk result (self.new.made ≡ made_by self.old.made done) }
    {
        match done {
            Ok(number) => {
                report.print_ok()?;
                self.made = number;
                Ok(None)
            }
            Err(error) => refused(error, report),
        }
    }

    fn put(
        &mut self,
        client: u32,
        tag: Tag,
        request: &Request,
        report: &mut Report,
    ) -> Result<Option<PortError>, AllocError>
        ensures { IfOk result (PortMakes refusal_with_room (steps.Put client tag request.now)
            self.old self.new report.old report.new) }
    {
        let done = self.port.put(client, tag, request);
        self.told(done, report)
    }

    fn issue(&mut self, tag: Tag, report: &mut Report) -> Result<Option<PortError>, AllocError>
        ensures { IfOk result (PortMakes refusal_with_room (steps.Issue tag)
            self.old self.new report.old report.new) }
    {
        let done = self.port.issue(tag);
        self.told(done, report)
    }

    /// An acceptance prints the line of the audit log that comes with it, too.
    fn accept(&mut self, tag: Tag, report: &mut Report) -> Result<Option<PortError>, AllocError>
        ensures { IfOk result (PortMakes refusal_with_room (steps.Accept tag)
            self.old self.new report.old report.new) }
    {
        let place = self.port.denials();
        let done = self.port.accept(tag);
        let told = self.told(done, report)?;
        print_denial(&self.port, place, report)?;
        Ok(told)
    }

    fn complete(&mut self, tag: Tag, report: &mut Report) -> Result<Option<PortError>, AllocError>
        ensures { IfOk result (PortMakes refusal_with_room (steps.Complete tag)
            self.old self.new report.old report.new) }
    {
        let done = self.port.complete(tag);
        self.told(done, report)
    }

    fn recover(&mut self, report: &mut Report) -> Result<Option<PortError>, AllocError>
        ensures { IfOk result (PortMakes refusal_with_room steps.Recover
            self.old self.new report.old report.new) }
    {
        let done = self.port.recover();
        self.told(done, report)
    }

    fn reset(
        &mut self,
        client: u32,
        kind: ResetKind,
        report: &mut Report,
    ) -> Result<Option<PortError>, AllocError>
        ensures { IfOk result (PortMakes refusal_with_room (steps.Reset client kind)
            self.old self.new report.old report.new) }
    {
        let done = self.port.reset(client, kind);
        self.told(done, report)
    }

    fn take(
        &mut self,
        client: u32,
        tag: Tag,
        report: &mut Report,
    ) -> Result<Option<PortError>, AllocError>
        ensures { IfOk result (PortMakes refusal_with_room (steps.Take client tag)
            self.old self.new report.old report.new) }
    {
        let put = self.port.stage(tag).put();
        match self.port.take(client, tag) {
            Ok((number, answer)) => {
                print_answer(put, &answer, report)?;
                self.made = number;
                Ok(None)
            }
            Err(error) => refused(error, report),
        }
    }
}
