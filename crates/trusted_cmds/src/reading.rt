//! The command that a FIS carries.

ghost use Rattle.std.specs.Prelude.{◌≡◌, ◌⊎◌, Option, Some, None, IfOk, IfErr, IfSome, Ok, Err, ℕ, true, false};
ghost use Rattle.trusted_cmds.specs.declared.command.Command.{Command};
ghost use Rattle.trusted_cmds.specs.Commands.{Carries, IsCounted, fault_of, command_of, command_without_sectors, tag_in, reading};
ghost use Rattle.trusted_cmds.specs.Profiles.{CarriesIn, CarriesBeside, is_short_transfer, short_transfer, beside_without_sectors, beside, reading_in, read_or, payload_length_in};
ghost use Rattle.trusted_cmds.specs.General.{CarriesMore, more, brings_more};
ghost use Rattle.trusted_cmds.specs.BlockSid.{is_block_sid};
ghost use Rattle.basics.specs.declared.profile.Profile.TheVariants.{Base, Field, Opal};

use crate::codes::*;
use crate::command::{Command, CommandError};
use crate::feature::feature_named;
use crate::fields::{
    blocks, has_lba_bit, names_error_log, protocol_of, sectors, short_lba, short_sectors,
    sp_specific_of, tag_of,
};
use crate::general::more;
use crate::log_pages::pages_named;
use basics::Profile;
use fis::{RegH2d, Tag};

/// The first thing that is wrong with a FIS, if something is.
fn fault_of(h: &RegH2d) -> Option<CommandError>
    ensures { result ≡ fault_of h.now }
{
    if !h.is_command {
        Some(CommandError::NotCommand)
    } else if !is_known(h.command) {
        Some(CommandError::Unknown)
    } else if is_transfer(h.command) && !has_lba_bit(h.device) {
        Some(CommandError::Device)
    } else if is_log_read(h.command) && !names_error_log(h) {
        Some(CommandError::LogPage)
    } else {
        None
    }
}

/// The command of a FIS that has no fault.
fn command_of(h: &RegH2d) -> Command
    ensures value { result ≡ command_of h.now }
    ensures counted { IsCounted result }
{
    let lba = h.lba.number();
    match h.command {
        READ_QUEUED => Command::ReadQueued {
            lba,
            count: sectors(h.feature),
        },
        WRITE_QUEUED => Command::WriteQueued {
            lba,
            count: sectors(h.feature),
        },
        READ_DMA => Command::ReadDma {
            lba,
            count: sectors(h.count),
        },
        WRITE_DMA => Command::WriteDma {
            lba,
            count: sectors(h.count),
        },
        _ => command_without_sectors(h),
    }
}

/// The command of a FIS that has no fault and moves no sectors.
fn command_without_sectors(h: &RegH2d) -> Command
    ensures value { result ≡ command_without_sectors h.now }
    ensures counted { IsCounted result }
{
    match h.command {
        TRUSTED_SEND | TRUSTED_SEND_DMA => Command::Send {
            protocol: protocol_of(h),
            sp_specific: sp_specific_of(h),
            blocks: blocks(h),
            dma: h.command == TRUSTED_SEND_DMA,
        },
        TRUSTED_RECEIVE | TRUSTED_RECEIVE_DMA => Command::Receive {
            protocol: protocol_of(h),
            sp_specific: sp_specific_of(h),
            blocks: blocks(h),
            dma: h.command == TRUSTED_RECEIVE_DMA,
        },
        READ_LOG | READ_LOG_DMA => Command::ReadLog10 {
            dma: h.command == READ_LOG_DMA,
        },
        IDENTIFY_DEVICE => Command::Identify,
        _ => Command::Flush,
    }
}

/// The tag of a FIS, where its command is queued.
fn tag_in(h: &RegH2d) -> Option<Tag>
    ensures { result ≡ tag_in h.now }
{
    if is_queued(h.command) {
        Some(tag_of(h))
    } else {
        None
    }
}

/// What each drive reads in a FIS.
fn base_of(h: &RegH2d) -> Result<(Command, Option<Tag>), CommandError>
    ensures exact { result ≡ reading h.now }
    ensures found { IfOk result (λ r. Carries h.now r.0 r.1) }
    ensures only { (c : Command) (t : Option ℕ) → Carries h.now c t → result ≡ Ok (c, t) }
    ensures counted { IfOk result (λ r. IsCounted r.0) }
    ensures fault { IfErr result (λ e. fault_of h.now ≡ Some e) }
{
    match fault_of(h) {
        Some(error) => Err(error),
        None => Ok((command_of(h), tag_in(h))),
    }
}

/// The command of a transfer of 28 bits.
fn short_transfer(h: &RegH2d) -> Command
    ensures value { result ≡ short_transfer h.now }
    ensures counted { IsCounted result }
{
    let lba = short_lba(h);
    let count = short_sectors(h);
    match h.command {
        SHORT_READ_DMA => Command::ReadDma { lba, count },
        _ => Command::WriteDma { lba, count },
    }
}

/// A command that moves no sectors.
fn beside_without_sectors(h: &RegH2d) -> Option<Command>
    requires command { h.now.is_command ≡ true }
    requires moves_none { is_short_transfer h.now.command ≡ false }
    ensures value { result ≡ beside_without_sectors h.now }
    ensures found { IfSome result (λ c. CarriesBeside h.now c None) }
    ensures only { (c : Command) (t : Option ℕ) → CarriesBeside h.now c t
        → (t ≡ None) × (result ≡ Some c) }
    ensures counted { IfSome result (λ c. IsCounted c) }
{
    match h.command {
        SHORT_FLUSH_CACHE => Some(Command::Flush),
        SET_FEATURES => {
            let feature = feature_named(h)?;
            Some(Command::SetFeatures { feature })
        }
        READ_LOG | READ_LOG_DMA => {
            let dma = h.command == READ_LOG_DMA;
            let pages = pages_named(h)?;
            Some(Command::ReadLog { pages, dma })
        }
        _ => None,
    }
}

/// What `Field` and `Opal` read in a FIS, beside what each drive reads.
fn beside(h: &RegH2d) -> Option<Command>
    ensures value { result ≡ beside h.now }
    ensures found { IfSome result (λ c. CarriesBeside h.now c None) }
    ensures only { (c : Command) (t : Option ℕ) → CarriesBeside h.now c t
        → (t ≡ None) × (result ≡ Some c) }
    ensures counted { IfSome result (λ c. IsCounted c) }
{
    if h.is_command && is_short_transfer(h.command) {
        if has_lba_bit(h.device) {
            Some(short_transfer(h))
        } else {
            None
        }
    } else if h.is_command {
        beside_without_sectors(h)
    } else {
        None
    }
}

/// The same, or else the error.
fn beside_or(h: &RegH2d, error: CommandError) -> Result<(Command, Option<Tag>), CommandError>
    ensures exact { result ≡ read_or (Err error) (beside h.now) }
    ensures found { IfOk result (λ r. CarriesBeside h.now r.0 r.1) }
    ensures only { (c : Command) (t : Option ℕ) → CarriesBeside h.now c t → result ≡ Ok (c, t) }
    ensures counted { IfOk result (λ r. IsCounted r.0) }
    ensures refused { IfErr result (λ e. e ≡ error) }
{
    match beside(h) {
        Some(command) => Ok((command, None)),
        None => Err(error),
    }
}

/// The same, or else what `Opal` has beside, or the error.
#[tactic(auto, using(crate::proofs::Apart::apart))]
fn more_or(h: &RegH2d, error: CommandError) -> Result<(Command, Option<Tag>), CommandError>
    ensures exact { result ≡ read_or (read_or (Err error) (beside h.now)) (more h.now) }
    ensures found { IfOk result (λ r. CarriesBeside h.now r.0 r.1 ⊎ CarriesMore h.now r.0 r.1) }
    ensures beside { (c : Command) (t : Option ℕ) → CarriesBeside h.now c t → result ≡ Ok (c, t) }
    ensures more { (c : Command) (t : Option ℕ) → CarriesMore h.now c t → result ≡ Ok (c, t) }
    ensures counted { IfOk result (λ r. IsCounted r.0) }
    ensures refused { IfErr result (λ e. e ≡ error) }
{
    match (beside(h), more(h)) {
        (Some(command), _) => Ok((command, None)),
        (None, Some(command)) => Ok((command, None)),
        (None, None) => Err(error),
    }
}

/// The command that a FIS carries under a profile, with its tag where it is queued. What `Base` reads, each profile reads
/// the same; a few FISes that `Base` refuses are commands under `Field`, and more of them under `Opal`, which reads what
/// `Field` does. The errors come in this order: `NotCommand`, `Unknown`, `Device`, `LogPage`.
#[tactic(auto, using(crate::proofs::Profiles::faulty, crate::proofs::Apart::unknown))]
pub fn of_fis(profile: Profile, h: &RegH2d) -> Result<(Command, Option<Tag>), CommandError>
    ensures exact { result ≡ reading_in profile h.now }
    ensures found { IfOk result (λ r. CarriesIn profile h.now r.0 r.1) }
    ensures only { (c : Command) (t : Option ℕ) → CarriesIn profile h.now c t → result ≡ Ok (c, t) }
    ensures counted { IfOk result (λ r. IsCounted r.0) }
    ensures fault { IfErr result (λ e. fault_of h.now ≡ Some e) }
{
    let read = base_of(h);
    match (read, profile) {
        (Err(error), Profile::Field) => beside_or(h, error),
        (Err(error), Profile::Opal) => more_or(h, error),
        (read, _) => read,
    }
}

/// What each drive reads, it reads under every profile, and `Base` reads nothing else. `Opal` reads what `Field` does, and
/// as much comes with it; and it reads more, with which sectors come where they are written.
pub fn laws_of_profiles()
    ensures base { (h : RegH2d) → reading_in Base h ≡ reading h }
    ensures known { (p : Profile) (h : RegH2d) → fault_of h ≡ None → reading_in p h ≡ reading h }
    ensures field { (h : RegH2d) → reading_in Field h ≡ read_or (reading h) (beside h) }
    ensures opal { (h : RegH2d) → reading_in Opal h ≡ read_or (reading_in Field h) (more h) }
    ensures brought { (h : RegH2d) → brings_more h.command ≡ false
        → payload_length_in Opal h ≡ payload_length_in Field h }
    ensures blocking { (c : Command) → is_block_sid Opal c ≡ is_block_sid Field c }
{}
