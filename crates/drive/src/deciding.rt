//! What the drive decides on a command (ACS-3, NCQ and trusted computing feature sets).

ghost use Rattle.std.specs.Prelude.{◌≡◌, ◌<◌, ◌≤◌, ℕ, List, Some, None, Ok, is_some, IfSome, true};
ghost use Rattle.history.specs.Facts.{Facts};
ghost use Rattle.history.specs.Decisions.{aborted, while_failed, admitted, receive, is_trusted, asks_stack, queued_transfer, unqueued_transfer};
ghost use Rattle.history.specs.Tcg.{commanded, known, unqueued, send, command_read};
ghost use Rattle.trusted_cmds.specs.Commands.{IsCounted, most_sectors, read_queued, write_queued, is_queued};
ghost use Rattle.device_data.specs.ErrorLog.{failure_by};
ghost use Rattle.drive.specs.declared.decision.Decision.{Decision};
ghost use Rattle.drive.specs.declared.decision.Cause.{Cause};
ghost use Rattle.drive.specs.Transfer.{by_op, queued_command};
ghost use Rattle.sp_cells.specs.Config.{Config};

use crate::decision::{ABORTED, Cause, Decision};
use crate::drive::Drive;
use crate::transfer::{Held, Transfer, Way};
use audit::rules::Rule;
use basics::Profile;
use compacket::{ComId, MAX_COM_PACKET};
use device_data::Failure;
use fis::{RegH2d, Tag};
use locking::Op;
use tper::is_session_com_id;
use trusted_cmds::{
    Command, RESET_PROTOCOL, SECTOR_SIZE, is_certificate_data, is_protocol_list, is_queued, of_fis,
    sectors, tag_of,
};

/// The ComID of Level 0 discovery.
pub(crate) const DISCOVERY_COM_ID: u16 = 1;

/// The security protocol of the TCG.
const TCG_PROTOCOL: u8 = 1;

/// The codes of the queued commands, READ and WRITE FPDMA QUEUED.
const READ_QUEUED: u8 = 0x60;

const WRITE_QUEUED: u8 = 0x61;

/// The bit of Device that a transfer has.
const LBA_DEVICE: u8 = 0x40;

/// Which way the data of a queued command move.
fn queued_op(code: u8) -> Option<Op>
    ensures { IfSome result (λ op. code ≡ by_op op read_queued write_queued) }
{
    match code {
        READ_QUEUED => Some(Op::Read),
        WRITE_QUEUED => Some(Op::Write),
        _ => None,
    }
}

/// The queued transfer that a FIS carries, with its tag: what `of_fis` reads, of the commands that come most.
#[tactic(auto, using(crate::proofs::Queued::reads_so))]
#[inline(always)]
fn queued_in(h: &RegH2d) -> Option<(Tag, Transfer)>
    ensures reads { IfSome result (λ r. (config : Config)
        → command_read config h.now ≡ Ok (queued_command r.1, Some r.0)) }
    ensures command { IfSome result (λ r. h.now.is_command ≡ true) }
    ensures queued { IfSome result (λ r. is_queued h.now.command ≡ true) }
{
    if !h.is_command || h.device / LBA_DEVICE % 2 != 1 {
        return None;
    }
    let op = queued_op(h.command)?;
    let transfer = Transfer::by(op, h.lba.number(), sectors(h.feature));
    Some((tag_of(h), transfer))
}

/// Security protocol 01h, with one block at least.
fn is_trusted(protocol: u8, blocks: u16) -> bool
    ensures { result ≡ is_trusted protocol blocks }
{
    protocol == TCG_PROTOCOL && blocks > 0
}

/// What is sent to the stack of a ComID, or received of it, on a drive of `Opal`: security protocol 02h, with one block at
/// least.
fn asks_stack(profile: Profile, protocol: u8, com_id: ComId, blocks: u16) -> bool
    ensures { result ≡ asks_stack profile protocol com_id blocks }
{
    profile.has_opal() && protocol == RESET_PROTOCOL && is_session_com_id(com_id) && blocks > 0
}

/// Aborted by a rule, and nothing changes.
fn aborts(rule: Rule) -> Decision
    ensures { result ≡ Decision.Aborts aborted (Cause.Rule rule) }
{
    Decision::Aborts {
        error: ABORTED,
        cause: Cause::Rule(rule),
    }
}

/// The command of a FIS fails by a rule, and the queue with it.
fn fails_queue(tag: Option<Tag>, h: &RegH2d, rule: Rule) -> Decision
    ensures { result ≡ Decision.FailsQueue (failure_by tag aborted h.now) (Cause.Rule rule) }
{
    Decision::FailsQueue {
        failure: Failure::of(tag, ABORTED, h),
        cause: Cause::Rule(rule),
    }
}

impl Drive {
    ghost use Rattle.std.specs.Prelude.{◌≡◌, ◌<◌, ◌&&◌, not, ℕ, List, Some, None, Ok, is_some, IfSome, true, false};
    ghost use Rattle.fis.specs.Tags.{slot_count};
    ghost use Rattle.trusted_cmds.specs.Commands.{is_queued};
    ghost use Rattle.trusted_cmds.specs.BlockSid.{is_block_sid};
    ghost use Rattle.history.specs.Decisions.{any_below, resets, asks_certificates, tells_protocols};
    ghost use Rattle.history.specs.Tcg.{takes_blocks};
    ghost use Rattle.drive.specs.Decision.{untaken};
    ghost use Rattle.tper.specs.Tper.{response_at};
    ghost use Rattle.transactions.specs.Sights.{look_up, committed_sight};
    ghost use Rattle.drive.specs.Decision.{DecidesUnqueued, decision_event, transfer_deed, is_for_stack, IsDue, IsTrustedCommand};
    ghost use Rattle.drive.specs.State.{kept_facts};
    ghost use Rattle.drive.specs.Queue.{held_at};
    ghost use Rattle.drive.specs.Transfer.{queued_command, unqueued_command, CanGo};

    /// The queued transfer of a FIS that the drive holds, as `decide` says: its tag is free, and it is permitted.
    #[tactic(auto, using(crate::proofs::Queued::held_so))]
    #[inline(always)]
    pub(crate) fn held_at_once(&self, h: &RegH2d) -> Option<(Tag, Held)>
        ensures event { IfSome result (λ r. (f : Facts) (payload : List ℕ) → decision_event
            (kept_facts self.now f) payload (Decision.Holds r.0 r.1)
            ≡ commanded (kept_facts self.now f) h.now payload) }
        ensures due { IfSome result (λ r. IsDue self.now h.now (Decision.Holds r.0 r.1)) }
    {
        let (tag, transfer) = queued_in(h)?;
        if self.failure().is_some() || self.held(tag).is_some() {
            return None;
        }
        let is_shadowed = self.permission(&transfer)?;
        let held = Held {
            transfer,
            is_shadowed,
        };
        Some((tag, held))
    }

    /// What the drive does with the command of a FIS.
    #[inline(always)]
    pub(crate) fn decide(&self, h: &RegH2d) -> Decision
        ensures event { (f : Facts) (payload : List ℕ) → decision_event
            (kept_facts self.now f) payload result
            ≡ commanded (kept_facts self.now f) h.now payload }
        ensures due { IsDue self.now h.now result }
    {
        if !h.is_command {
            return aborts(Rule::NoCommand);
        }
        if self.failure().is_some() {
            return self.while_failed(h);
        }
        if self.is_mixing(h) {
            return fails_queue(None, h, Rule::Mixed);
        }
        self.known(h)
    }

    /// Whether a command that is not queued comes while one is held.
    fn is_mixing(&self, h: &RegH2d) -> bool
        ensures { result ≡ (any_below (λ tag. is_some (held_at self.now.queue tag)) slot_count
            && not (is_queued h.now.command)) }
    {
        !is_queued(h.command) && self.is_busy()
    }

    /// While the queue has failed, log page 10h alone is read.
    fn while_failed(&self, h: &RegH2d) -> Decision
        requires { is_some self.now.queue.failure ≡ true }
        ensures event { (f : Facts) (payload : List ℕ) → decision_event
            (kept_facts self.now f) payload result
            ≡ while_failed (command_read self.now.tper.store.config h.now) }
        ensures due { IsDue self.now h.now result }
    {
        match of_fis(self.profile(), h) {
            Ok((Command::ReadLog10 { dma }, _)) => Decision::Executes(Command::ReadLog10 { dma }),
            _ => aborts(Rule::QueueFailed),
        }
    }

    /// A command that the mixing of queues does not refuse. A queued one whose FIS has a fault fails the queue.
    fn known(&self, h: &RegH2d) -> Decision
        requires { self.now.queue.failure ≡ None }
        ensures event { (f : Facts) (payload : List ℕ) → decision_event
            (kept_facts self.now f) payload result
            ≡ known (kept_facts self.now f) h.now payload
            (command_read self.now.tper.store.config h.now) }
        ensures due { IsDue self.now h.now result }
    {
        match of_fis(self.profile(), h) {
            Err(fault) if is_queued(h.command) => {
                fails_queue(Some(tag_of(h)), h, Rule::Unreadable(fault))
            }
            Err(fault) => aborts(Rule::Unreadable(fault)),
            Ok((command, Some(tag))) => self.queued(h, tag, command),
            Ok((command, None)) => self.unqueued(h, command),
        }
    }

    /// A queued command: a tag that is held fails the queue.
    fn queued(&self, h: &RegH2d, tag: Tag, command: Command) -> Decision
        requires reads { command_read self.now.tper.store.config h.now ≡ Ok (command, Some tag) }
        requires counted { IsCounted command }
        ensures event { (f : Facts) (payload : List ℕ) → decision_event
            (kept_facts self.now f) payload result
            ≡ admitted (kept_facts self.now f) h.now tag command (is_some
            (held_at self.now.queue tag)) }
        ensures due { IsDue self.now h.now result }
    {
        if self.held(tag).is_some() {
            return fails_queue(Some(tag), h, Rule::TagHeld);
        }
        match command {
            Command::ReadQueued { lba, count } => {
                self.queued_transfer(h, tag, Transfer::by(Op::Read, lba, count))
            }
            Command::WriteQueued { lba, count } => {
                self.queued_transfer(h, tag, Transfer::by(Op::Write, lba, count))
            }
            _ => aborts(Rule::NoCommand),
        }
    }

    /// A queued transfer under a tag that is free: it is held where it is permitted, and else fails the queue.
    #[tactic(auto, using(crate::proofs::Policies::queued_held, crate::proofs::Policies::queued_refused))]
    fn queued_transfer(&self, h: &RegH2d, tag: Tag, transfer: Transfer) -> Decision
        requires reads { command_read self.now.tper.store.config h.now
            ≡ Ok (queued_command transfer, Some tag) }
        requires slot { tag < slot_count }
        ensures event { (f : Facts) (payload : List ℕ) → decision_event
            (kept_facts self.now f) payload result
            ≡ queued_transfer (kept_facts self.now f) h.now tag (queued_command transfer)
            transfer.op transfer.lba transfer.count }
        ensures due { IsDue self.now h.now result }
    {
        match self.policy(&transfer) {
            Ok(is_shadowed) => Decision::Holds {
                tag,
                held: Held {
                    transfer,
                    is_shadowed,
                },
            },
            Err(refusal) => Decision::FailsQueue {
                failure: Failure::of(Some(tag), refusal.error, h),
                cause: refusal.cause,
            },
        }
    }

    /// A command that is not queued.
    fn unqueued(&self, h: &RegH2d, command: Command) -> Decision
        requires mended { self.now.queue.failure ≡ None }
        requires reads { command_read self.now.tper.store.config h.now ≡ Ok (command, None) }
        requires counted { IsCounted command }
        ensures event { DecidesUnqueued self.now command result }
        ensures due { IsDue self.now h.now result }
    {
        match command {
            Command::ReadDma { lba, count } => {
                self.unqueued_transfer(h, Way::Dma, Transfer::by(Op::Read, lba, count))
            }
            Command::WriteDma { lba, count } => {
                self.unqueued_transfer(h, Way::Dma, Transfer::by(Op::Write, lba, count))
            }
            Command::ReadPio { lba, count } => {
                self.unqueued_transfer(h, Way::Pio, Transfer::by(Op::Read, lba, count))
            }
            Command::WritePio { lba, count } => {
                self.unqueued_transfer(h, Way::Pio, Transfer::by(Op::Write, lba, count))
            }
            Command::Verify { lba, count } => {
                self.unqueued_transfer(h, Way::Verify, Transfer::by(Op::Read, lba, count))
            }
            Command::Trim { blocks } => Decision::Trims { blocks },
            Command::Send { .. } if self.resets(&command) => Decision::Restarts(command),
            Command::Send { .. } if self.blocks_sid(&command) => self.block(h, command),
            Command::Send { .. } | Command::Receive { .. } => self.trusted(h, command),
            Command::Identify
            | Command::ReadLog10 { .. }
            | Command::Flush
            | Command::SetFeatures { .. }
            | Command::ReadLog { .. }
            | Command::Control { .. } => Decision::Executes(command),
            Command::ReadQueued { .. } | Command::WriteQueued { .. } => aborts(Rule::NoCommand),
        }
    }

    /// A transfer that is not queued: it moves its data in its way where it is permitted, and else fails.
    #[tactic(auto, using(crate::proofs::Policies::unqueued_moved, crate::proofs::Policies::unqueued_refused, crate::proofs::Policies::permitted))]
    fn unqueued_transfer(&self, h: &RegH2d, way: Way, transfer: Transfer) -> Decision
        requires reads { command_read self.now.tper.store.config h.now
            ≡ Ok (unqueued_command way transfer, None) }
        requires goes { CanGo way transfer.op }
        ensures event { (f : Facts) (payload : List ℕ) → decision_event
            (kept_facts self.now f) payload result
            ≡ unqueued_transfer (kept_facts self.now f) (transfer_deed transfer payload)
            transfer.op transfer.lba transfer.count }
        ensures due { IsDue self.now h.now result }
    {
        match self.policy(&transfer) {
            Ok(is_shadowed) => Decision::Moves {
                held: Held {
                    transfer,
                    is_shadowed,
                },
                way,
            },
            Err(refusal) => Decision::Aborts {
                error: refusal.error,
                cause: refusal.cause,
            },
        }
    }

    /// Whether the drive tells what a command asks for by security protocol 00h: the list of security protocols, and of a
    /// drive of `Opal` the certificates.
    fn tells_protocols(&self, command: &Command) -> bool
        ensures { result ≡ tells_protocols self.now.tper.store.config.profile command.now }
    {
        match self.profile() {
            Profile::Base => false,
            Profile::Field => is_protocol_list(command),
            Profile::Opal => is_protocol_list(command) || is_certificate_data(command),
        }
    }

    /// Whether a command asks for the certificates, of a drive of `Opal`.
    pub(crate) fn asks_certificates(&self, command: &Command) -> bool
        ensures { result ≡ asks_certificates self.now.tper.store.config.profile command.now }
    {
        match self.profile() {
            Profile::Base | Profile::Field => false,
            Profile::Opal => is_certificate_data(command),
        }
    }

    /// Whether a send may have so many blocks: of a drive of `Opal` no more bytes than the largest ComPacket has.
    fn takes_blocks(&self, blocks: u16) -> bool
        ensures { result ≡ takes_blocks self.now.tper.store.config.profile blocks }
    {
        match self.profile() {
            Profile::Base | Profile::Field => true,
            Profile::Opal => SECTOR_SIZE * usize::from(blocks) <= MAX_COM_PACKET,
        }
    }

    /// Why a trusted command is not taken.
    fn untaken(&self, command: &Command) -> Rule
        ensures { result ≡ untaken (λ com_id. is_some (response_at self.now.tper.waiting com_id))
            command.now }
    {
        match *command {
            Command::Send {
                protocol,
                sp_specific,
                blocks,
                ..
            } => {
                if !is_trusted(protocol, blocks) {
                    Rule::Protocol
                } else if !is_session_com_id(sp_specific) {
                    Rule::ComId
                } else if self.is_waiting(sp_specific) {
                    Rule::ResponseWaits
                } else {
                    Rule::LongTransfer
                }
            }
            Command::Receive {
                protocol,
                blocks,
                ..
            } if is_trusted(protocol, blocks) => Rule::ComId,
            _ => Rule::Protocol,
        }
    }

    /// The command that blocks SID: it is refused where SID has a PIN of its own, or is blocked.
    #[tactic(auto, using(crate::proofs::Commands::block_made, crate::proofs::Commands::block_refused))]
    fn block(&self, h: &RegH2d, command: Command) -> Decision
        requires reads { command_read self.now.tper.store.config h.now ≡ Ok (command, None) }
        requires is { is_block_sid self.now.tper.store.config.profile command ≡ true }
        requires kept { resets (look_up (committed_sight self.now.tper.store)) command ≡ false }
        ensures event { DecidesUnqueued self.now command result }
        ensures due { IsDue self.now h.now result }
    {
        if self.keeps_sid() {
            return aborts(Rule::SidKept);
        }
        Decision::Blocks(command)
    }

    /// Another trusted command: it is for the stack of a ComID, or an item is sent or received.
    #[tactic(auto, using(crate::proofs::Commands::stack_asked))]
    fn trusted(&self, h: &RegH2d, command: Command) -> Decision
        requires reads { command_read self.now.tper.store.config h.now ≡ Ok (command, None) }
        requires trusted { IsTrustedCommand command }
        requires kept { resets (look_up (committed_sight self.now.tper.store)) command ≡ false }
        requires other { is_block_sid self.now.tper.store.config.profile command ≡ false }
        ensures event { DecidesUnqueued self.now command result }
        ensures due { IsDue self.now h.now result }
    {
        if self.asks_stack(&command) {
            return Decision::AsksStack(command);
        }
        self.trusted_item(h, command)
    }

    /// Whether a command is for the stack of a ComID, of a drive of `Opal`.
    fn asks_stack(&self, command: &Command) -> bool
        requires { IsTrustedCommand command.now }
        ensures { result ≡ is_for_stack self.now.tper.store.config.profile command.now }
    {
        match *command {
            Command::Send {
                protocol,
                sp_specific,
                blocks,
                ..
            } => asks_stack(self.profile(), protocol, sp_specific, blocks),
            Command::Receive {
                protocol,
                sp_specific,
                blocks,
                ..
            } => asks_stack(self.profile(), protocol, sp_specific, blocks),
            _ => unreachable!(),
        }
    }

    /// An item that is sent or received: of security protocol 01h, with one block at least, on a ComID that takes it, or a
    /// receive of what security protocol 00h tells. A send while a response waits there is aborted, and one that is too
    /// long.
    fn trusted_item(&self, h: &RegH2d, command: Command) -> Decision
        requires reads { command_read self.now.tper.store.config h.now ≡ Ok (command, None) }
        requires trusted { IsTrustedCommand command }
        requires kept { resets (look_up (committed_sight self.now.tper.store)) command ≡ false }
        requires other { is_block_sid self.now.tper.store.config.profile command ≡ false }
        requires apart { is_for_stack self.now.tper.store.config.profile command ≡ false }
        ensures event { DecidesUnqueued self.now command result }
        ensures due { IsDue self.now h.now result }
    {
        let is_taken = match command {
            Command::Send {
                protocol,
                sp_specific,
                blocks,
                ..
            } => {
                is_trusted(protocol, blocks)
                    && is_session_com_id(sp_specific)
                    && self.takes_blocks(blocks)
                    && !self.is_waiting(sp_specific)
            }
            Command::Receive {
                protocol,
                sp_specific,
                blocks,
                ..
            } => {
                self.tells_protocols(&command)
                    || is_trusted(protocol, blocks)
                        && (is_session_com_id(sp_specific) || sp_specific == DISCOVERY_COM_ID)
            }
            _ => unreachable!(),
        };
        if is_taken {
            Decision::Executes(command)
        } else {
            aborts(self.untaken(&command))
        }
    }
}
