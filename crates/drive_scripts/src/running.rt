//! The running phase of a script: a drive, and what the lines do with it.

use crate::commands::{
    COM_ID_PROTOCOL, kind_named, read_dma_of, read_of, received_by, sent_by, tper_reset,
    write_dma_of, write_of,
};
use crate::explainer::Explainer;
use crate::payload::{fill, pad, put_frame};
use crate::printing::{print_answer, print_failure};
use crate::turn::{Fault, Turn, expectation};
use compacket::{ComId, Session};
use drive::{Accepted, Drive};
use fis::{RegH2d, Tag};
use reasons::explained::Source;
use script_lines::{DmaTransfer, Hex, Line, Report, Reset, Transfer};
use std::alloc::{AllocError, Global};
use std::mem::replace;
use trusted_cmds::{Command, SECTOR_SIZE, sectors, to_fis};

/// A drive that a script runs on.
#[derive(Drop)]
pub struct RunningPhase {
    drive: Drive,
    /// How many acts the drive has done.
    acts: u64,
    /// Whether the queue had failed before the last command.
    had_failed: bool,
    /// The bytes that go with the next act.
    payload: Vec<u8>,
    /// The tokens that the payload frames.
    tokens: Vec<u8>,
    /// The FIS of the last command.
    header: RegH2d,
    /// What the drive answered to the last command.
    answer: Accepted,
    /// Whether the last command was held, and is completed.
    completed: bool,
}

impl RunningPhase {
    ghost use Rattle.std.specs.Prelude.{◌≡◌, ◌<◌, ◌≤◌, ◌^◌, ℕ, List, [], length, true, false, IfSome, IfOk, OnOk, Ok, Err};
    ghost use Rattle.script_lines.specs.Fields.{most_call_bytes, most_send_bytes};
    ghost use Rattle.trusted_cmds.specs.Commands.{lba_of, IsCounted, payload_length, fis_of};
    ghost use Rattle.trusted_cmds.specs.General.{is_general};
    ghost use Rattle.script_lines.specs.Lines.{line_said, HasBytesWithinLimits};
    ghost use Rattle.script_lines.specs.declared.line.Line.{Line};
    ghost use Rattle.script_lines.specs.declared.fault.LineFault.{LineFault};
    ghost use Rattle.history.specs.Opening.{Origin};
    ghost use Rattle.history.specs.History.{Act, log};
    ghost use Rattle.reasons.specs.Onsets.{Sourced, bare_acts};
    ghost use Rattle.drive_scripts.specs.Kept.{RecountsAll};
    ghost use Rattle.drive.specs.State.{Agrees};
    ghost use Rattle.drive_scripts.specs.Effects.{RunsOn, IsReached, Accepts, Has, Makes, completion_effect, transferred, command_effect, sends, receives, effect_of, reset_effect, Does, GoesTruly, Answered, Acted};
    ghost use Rattle.drive_scripts.specs.DriveCourses.{line_course, DriveSteps, Explains};
    ghost use Rattle.drive_scripts.specs.declared.turn.Fault.{Fault};

    /// A drive on which nothing was done.
    pub fn new(alloc: Global, drive: Drive) -> RunningPhase
        ensures { (o : Origin) → Agrees drive o [] → RunsOn result o [] }
    {
        RunningPhase {
            drive,
            acts: 0,
            had_failed: false,
            payload: Vec::new(alloc),
            tokens: Vec::new(alloc),
            header: RegH2d::default(),
            answer: Accepted::none(alloc),
            completed: false,
        }
    }

    /// The drive.
    pub fn drive(&self) -> &Drive
        ensures { result.now ≡ self.now.drive }
    {
        &self.drive
    }

    /// Does what one line says. A line that is none, or that gives the cells of a range, changes
    /// nothing.
    pub fn turn(&mut self, text: &[u8], report: &mut Report) -> Result<Turn, AllocError>
        requires { IsReached self.old }
        ensures stands { OnOk result (IsReached self.new) }
        ensures bad_line { (fault : LineFault) → line_said text.now ≡ Err fault
            → result ≡ Ok (Turn.Bad (Fault.Line fault)) }
        ensures nothing_acts { (fault : LineFault) → line_said text.now ≡ Err fault
            → self.new ≡ self.old }
        ensures nothing_prints { (fault : LineFault) → line_said text.now ≡ Err fault
            → report.new ≡ report.old }
        ensures does { (line : Line) → line_said text.now ≡ Ok line → IfOk result
            (λ turn. (o : Origin) (acts : List Act) → RunsOn self.old o acts
            → Does line text.now turn self.old self.new o acts report.old report.new) }
        ensures steps { IfOk result (λ turn. (o : Origin) (acts : List Act) → RunsOn self.old o acts
            → DriveSteps turn (line_course o acts report.old.last.items text.now
            (line_said text.now))
            self.new o report.old report.new) }
    {
        match &Line::parse(text) {
            Ok(line) => self.act(line, text, report),
            Err(fault) => Ok(Turn::Bad(Fault::Line(*fault))),
        }
    }

    fn act(&mut self, line: &Line<'_>, text: &[u8], report: &mut Report) -> Result<Turn, AllocError>
        requires { HasBytesWithinLimits line.now }
        ensures { IfOk result (λ turn. (o : Origin) (acts : List Act) → RunsOn self.old o acts
            → Does line.now text.now turn self.old self.new o acts report.old report.new) }
    {
        match line {
            Line::Range(_) => Ok(Turn::Bad(Fault::LateRange)),
            Line::Read(transfer) => self.read(transfer, report),
            Line::Write(transfer, byte) => self.write(transfer, *byte, report),
            Line::ReadDma(transfer) => self.read_dma(transfer, report),
            Line::WriteDma(transfer, byte) => self.write_dma(transfer, *byte, report),
            Line::Call {
                client,
                com_id,
                session,
                tokens,
            } => self.call(*client, *com_id, *session, tokens, report),
            Line::Send {
                client,
                com_id,
                packet,
            } => self.send(*client, COM_ID_PROTOCOL, *com_id, packet, report),
            Line::Receive {
                client,
                com_id,
                blocks,
            } => self.receive(*client, COM_ID_PROTOCOL, *com_id, *blocks, report),
            Line::SecurityIn {
                client,
                protocol,
                sp_specific,
                blocks,
            } => self.receive(*client, *protocol, *sp_specific, *blocks, report),
            Line::SecurityOut {
                client,
                protocol,
                sp_specific,
                payload,
            } => self.send(*client, *protocol, *sp_specific, payload, report),
            Line::Identify { client } => self.identify(*client, report),
            Line::Log { client } => self.read_log(*client, report),
            Line::Reset { kind, .. } => self.reset(*kind, report),
            Line::TperReset { client } => self.reset_tper(*client, report),
            Line::Expect => Ok(expectation(text, report)),
        }
    }

    /// Gives the drive the FIS of a command, with the payload at hand. Its answer stays here.
    #[inline(always)]
    #[tactic(auto, using(crate::proofs::Acts::brings))]
    fn accept(&mut self, command: &Command, tag: Tag) -> Result<(), AllocError>
        requires address { IfSome (lba_of command.now) (λ lba. lba < 2 ^ 48) }
        requires counted { IsCounted command.now }
        requires known { is_general command.now ≡ false }
        requires payload { length self.old.payload.items ≡ payload_length (fis_of command.now tag) }
        ensures accepts { OnOk result ((o : Origin) (acts : List Act) → RunsOn self.old o acts
            → Accepts self.new o acts command.now tag self.old.payload.items self.new.answer) }
        ensures header { OnOk result (self.new.header ≡ fis_of command.now tag) }
        ensures payload { self.new.payload ≡ self.old.payload }
        ensures completed { OnOk result (self.new.completed ≡ false) }
    {
        let h = to_fis(command, tag);
        let fis = h.to_bytes();
        self.drive
            .accept_command(&fis, &h, &self.payload, &mut self.answer)?;
        self.acts = self.acts.wrapping_add(1);
        self.header = h;
        self.completed = false;
        Ok(())
    }

    /// Whether the command that comes, where it fails, is the first one that a failed queue aborts: the
    /// queue has failed, and had not before the command before it.
    fn is_first_abort(&mut self, has_failed: bool) -> bool
        ensures told { result ≡ true → has_failed ≡ true }
        ensures runs { (o : Origin) (acts : List Act) → RunsOn self.old o acts
            → RunsOn self.new o acts }
        ensures payload { self.new.payload ≡ self.old.payload }
    {
        let had_failed = replace(&mut self.had_failed, has_failed);
        has_failed && !had_failed
    }

    /// Completes a held transfer, whose payload has this byte in each place, and prints its data.
    #[tactic(auto, using(crate::proofs::Acts::expects_so))]
    fn serve(&mut self, tag: Tag, byte: u8, report: &mut Report) -> Result<(), AllocError>
        ensures serves { OnOk result
            ((o : Origin) (acts : List Act) → RunsOn self.old o acts
            → Has self.new o report.old report.new (completion_effect o acts tag byte)) }
        ensures header { self.new.header ≡ self.old.header }
        ensures answer { self.new.answer ≡ self.old.answer }
        ensures payload { self.new.payload ≡ self.old.payload }
        ensures completed { OnOk result (self.new.completed ≡ true) }
    {
        // what is held completes, unless memory is refused
        let Ok(done) = self.drive.complete_with_heads(tag, byte) else {
            return Err(AllocError);
        };
        self.acts = self.acts.wrapping_add(1);
        self.completed = true;
        report.print_heads(&done.bytes)?;
        self.drive.give_back(done.bytes);
        Ok(())
    }

    /// Accepts a queued transfer, and completes it where it is held. It tells whether the transfer is the
    /// first command that the failed queue aborts.
    fn transfer(
        &mut self,
        command: &Command,
        transfer: &Transfer,
        byte: u8,
        report: &mut Report,
    ) -> Result<bool, AllocError>
        requires address { IfSome (lba_of command.now) (λ lba. lba < 2 ^ 48) }
        requires counted { IsCounted command.now }
        requires known { is_general command.now ≡ false }
        requires payload { payload_length (fis_of command.now transfer.now.tag) ≡ 0 }
        ensures { IfOk result (λ aborted. Makes
            (λ o acts. transferred o acts command.now transfer.now byte)
            self.old self.new report.old report.new (Turn.Goes aborted)) }
    {
        let has_failed = self.drive.failure().is_some();
        let aborted = self.is_first_abort(has_failed);
        self.payload.clear();
        self.accept(command, transfer.tag)?;
        if self.answer.held {
            self.serve(transfer.tag, byte, report)?;
            return Ok(false);
        }
        print_failure(report, self.acts, transfer.client, &mut self.answer)?;
        Ok(aborted)
    }

    /// Gives the drive an unqueued command with the payload at hand, and prints what came of it. It tells
    /// whether the command is the first one that the failed queue aborts.
    fn command(
        &mut self,
        client: u32,
        command: &Command,
        report: &mut Report,
    ) -> Result<bool, AllocError>
        requires address { IfSome (lba_of command.now) (λ lba. lba < 2 ^ 48) }
        requires counted { IsCounted command.now }
        requires known { is_general command.now ≡ false }
        requires payload { length self.old.payload.items ≡ payload_length (fis_of command.now 0) }
        ensures { IfOk result
            (λ aborted. Makes
            (λ o acts. command_effect o acts client command.now self.old.payload.items)
            self.old self.new report.old report.new (Turn.Goes aborted)) }
    {
        let has_failed = self.drive.failure().is_some();
        let is_first = self.is_first_abort(has_failed);
        self.accept(command, Tag::low_bits(0))?;
        let aborted = self.answer.has_failed() && is_first;
        print_answer(report, self.acts, client, command, &mut self.answer)?;
        self.drive.give_back_from(&mut self.answer.bytes);
        Ok(aborted)
    }

    fn read(&mut self, transfer: &Transfer, report: &mut Report) -> Result<Turn, AllocError>
        ensures { IfOk result (Makes (λ o acts. effect_of o acts (Line.Read transfer.now))
            self.old self.new report.old report.new) }
    {
        let aborted = self.transfer(&read_of(transfer), transfer, 0, report)?;
        Ok(Turn::Goes { aborted })
    }

    fn write(
        &mut self,
        transfer: &Transfer,
        byte: u8,
        report: &mut Report,
    ) -> Result<Turn, AllocError>
        ensures { IfOk result (Makes (λ o acts. effect_of o acts (Line.Write transfer.now byte))
            self.old self.new report.old report.new) }
    {
        let aborted = self.transfer(&write_of(transfer), transfer, byte, report)?;
        Ok(Turn::Goes { aborted })
    }

    fn read_dma(&mut self, transfer: &DmaTransfer, report: &mut Report) -> Result<Turn, AllocError>
        ensures { IfOk result (Makes (λ o acts. effect_of o acts (Line.ReadDma transfer.now))
            self.old self.new report.old report.new) }
    {
        self.payload.clear();
        let aborted = self.command(transfer.client, &read_dma_of(transfer), report)?;
        Ok(Turn::Goes { aborted })
    }

    fn write_dma(
        &mut self,
        transfer: &DmaTransfer,
        byte: u8,
        report: &mut Report,
    ) -> Result<Turn, AllocError>
        ensures { IfOk result (Makes (λ o acts. effect_of o acts (Line.WriteDma transfer.now byte))
            self.old self.new report.old report.new) }
    {
        let size = SECTOR_SIZE * sectors(transfer.count) as usize;
        fill(&mut self.payload, size, byte)?;
        let aborted = self.command(transfer.client, &write_dma_of(transfer), report)?;
        Ok(Turn::Goes { aborted })
    }

    /// Sends the bytes at hand by a security protocol.
    fn send_bytes(
        &mut self,
        client: u32,
        protocol: u8,
        sp_specific: u16,
        report: &mut Report,
    ) -> Result<Turn, AllocError>
        requires { length self.old.payload.items ≤ most_send_bytes }
        ensures { IfOk result
            (Makes (λ o acts. sends o acts client protocol sp_specific self.old.payload.items)
            self.old self.new report.old report.new) }
    {
        let blocks = pad(&mut self.payload)?;
        let aborted = self.command(client, &sent_by(protocol, sp_specific, blocks), report)?;
        Ok(Turn::Goes { aborted })
    }

    fn call(
        &mut self,
        client: u32,
        com_id: ComId,
        session: Session,
        tokens: &Hex<'_>,
        report: &mut Report,
    ) -> Result<Turn, AllocError>
        requires some { 0 < length tokens.now }
        requires most { length tokens.now ≤ most_call_bytes }
        ensures { IfOk result
            (Makes (λ o acts. effect_of o acts (Line.Call client com_id session tokens.now))
            self.old self.new report.old report.new) }
    {
        self.tokens.clear();
        tokens.decode_into(&mut self.tokens)?;
        put_frame(com_id, session, &self.tokens, &mut self.payload)?;
        self.send_bytes(client, COM_ID_PROTOCOL, com_id, report)
    }

    fn send(
        &mut self,
        client: u32,
        protocol: u8,
        sp_specific: u16,
        payload: &Hex<'_>,
        report: &mut Report,
    ) -> Result<Turn, AllocError>
        requires { length payload.now ≤ most_send_bytes }
        ensures { IfOk result
            (Makes (λ o acts. sends o acts client protocol sp_specific payload.now)
            self.old self.new report.old report.new) }
    {
        self.payload.clear();
        payload.decode_into(&mut self.payload)?;
        self.send_bytes(client, protocol, sp_specific, report)
    }

    fn receive(
        &mut self,
        client: u32,
        protocol: u8,
        sp_specific: u16,
        blocks: u16,
        report: &mut Report,
    ) -> Result<Turn, AllocError>
        ensures { IfOk result
            (Makes (λ o acts. receives o acts client protocol sp_specific blocks)
            self.old self.new report.old report.new) }
    {
        self.payload.clear();
        let aborted = self.command(client, &received_by(protocol, sp_specific, blocks), report)?;
        Ok(Turn::Goes { aborted })
    }

    fn identify(&mut self, client: u32, report: &mut Report) -> Result<Turn, AllocError>
        ensures { IfOk result (Makes (λ o acts. effect_of o acts (Line.Identify client))
            self.old self.new report.old report.new) }
    {
        self.payload.clear();
        let aborted = self.command(client, &Command::Identify, report)?;
        Ok(Turn::Goes { aborted })
    }

    fn read_log(&mut self, client: u32, report: &mut Report) -> Result<Turn, AllocError>
        ensures { IfOk result (Makes (λ o acts. effect_of o acts (Line.Log client))
            self.old self.new report.old report.new) }
    {
        self.payload.clear();
        let aborted = self.command(client, &Command::ReadLog10 { dma: true }, report)?;
        Ok(Turn::Goes { aborted })
    }

    fn reset_tper(&mut self, client: u32, report: &mut Report) -> Result<Turn, AllocError>
        ensures { IfOk result (Makes (λ o acts. effect_of o acts (Line.TperReset client))
            self.old self.new report.old report.new) }
    {
        fill(&mut self.payload, SECTOR_SIZE, 0)?;
        let aborted = self.command(client, &tper_reset(), report)?;
        Ok(Turn::Goes { aborted })
    }

    fn reset(&mut self, kind: Reset, report: &mut Report) -> Result<Turn, AllocError>
        ensures { IfOk result (λ turn. (o : Origin) (acts : List Act) → RunsOn self.old o acts
            → Has self.new o report.old report.new (reset_effect acts kind)
            × GoesTruly turn (log o acts)) }
    {
        self.drive.reset(kind_named(kind));
        self.acts = self.acts.wrapping_add(1);
        report.print_ok()?;
        Ok(Turn::Goes { aborted: false })
    }

    /// Prints why the command at hand was refused, where it was, and notes what it did.
    fn explain_command(
        &self,
        source: Source,
        explainer: &mut Explainer,
        report: &mut Report,
    ) -> Result<(), AllocError>
        ensures { OnOk result ((o : Origin) (past : List Sourced) (acts : List Act)
            → RunsOn self.now o acts → Answered self.now o (bare_acts past) acts
            → RecountsAll explainer.old o past
            → Explains source o past acts explainer.new report.old report.new) }
    {
        explainer.explain(
            &self.drive,
            &self.header,
            &self.payload,
            &self.answer,
            report,
        )?;
        explainer.note_command(
            &self.drive,
            &self.header,
            &self.payload,
            self.completed,
            source,
        );
        Ok(())
    }

    /// Prints, behind what a line printed that was done, why its command was refused, where it was, and notes what the line
    /// did.
    pub fn explain(
        &self,
        source: Source,
        line: &Line<'_>,
        explainer: &mut Explainer,
        report: &mut Report,
    ) -> Result<(), AllocError>
        ensures { OnOk result ((o : Origin) (past : List Sourced) (acts : List Act)
            → RunsOn self.now o acts → Acted line.now self.now o (bare_acts past) acts
            → RecountsAll explainer.old o past
            → Explains source o past acts explainer.new report.old report.new) }
    {
        match line {
            Line::Range(_) => Ok(()),
            Line::Expect => Ok(()),
            Line::Reset { kind, .. } => {
                explainer.note_reset(&self.drive, kind_named(*kind), source);
                Ok(())
            }
            _ => self.explain_command(source, explainer, report),
        }
    }
}
