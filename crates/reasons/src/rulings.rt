//! Why a rule refused a command, in words: by what a trusted command asked for, or else by the rule.

ghost use Rattle.std.specs.Prelude.{◌≡◌, ◌++◌, IfOk, OnOk};
ghost use Rattle.reasons.specs.Rulings.{is_by_protocol_0, other_than_told, is_send_to_discovery, matter_of_protocol, matter_of_com_id, matter_of_length, matter_of, matter_at, because_text, no_reset_words, no_reset_text, long_words, host_words, matter_text, rule_text, ruled_text, command_carried, ResetRuleLaw};

use crate::remedies::{append_column_name, append_object_name, append_set};
use audit::rules::{Rule, rule_words};
use basics::{Profile, append_decimal};
use compacket::ComId;
use fis::RegH2d;
use sp_cells::{Column, Rows, Sp, Uid};
use std::alloc::{AllocError, Global};
use tcg_calls::call_shapes::limits::MOST_RESPONSE;
use trusted_cmds::{Command, is_programmatic_reset, of_fis};

/// The ComID of Level 0 discovery.
pub const DISCOVERY_COM_ID: ComId = 1;

/// How many bytes of tokens a response carries to a host that has told nothing of itself (Opal SSC 2.01, section 4.1.1.1).
const LEAST_ROOM: u64 = 1992;

/// What a trusted command asks for that its rule does not tell.
#[derive(Clone, Copy, Debug, PartialEq, Eq)]
pub enum Matter {
    /// The reset of the drive, TPER_RESET.
    Reset,
    /// Something else than the list of security protocols, of a drive that has the list.
    OtherThanList,
    /// Something else than that list and the certificates, of a drive that tells both.
    OtherThanCertificates,
    /// A send to the ComID of Level 0 discovery.
    SendToDiscovery,
    /// More than a response carries.
    LongResponse,
    /// More than a response carries to a host that takes no more.
    LongForHost,
    /// Nothing that the rule does not tell.
    Plain,
}

/// Whether a command is a trusted one by security protocol 00h.
fn is_by_protocol_0(command: &Command) -> bool
    ensures { result ≡ is_by_protocol_0 command.now }
{
    match *command {
        Command::Send { protocol, .. } | Command::Receive { protocol, .. } => protocol == 0,
        _ => false,
    }
}

/// Something else than what security protocol 00h tells on a drive of this profile.
fn other_than_told(profile: Profile) -> Matter
    ensures { result ≡ other_than_told profile }
{
    match profile {
        Profile::Base => Matter::Plain,
        Profile::Field => Matter::OtherThanList,
        Profile::Opal => Matter::OtherThanCertificates,
    }
}

/// Whether a command is a send to the ComID of Level 0 discovery.
fn is_send_to_discovery(command: &Command) -> bool
    ensures { result ≡ is_send_to_discovery command.now }
{
    match *command {
        Command::Send { sp_specific, .. } => sp_specific == DISCOVERY_COM_ID,
        _ => false,
    }
}

/// What a command asks for that is refused for its protocol or its blocks.
fn matter_of_protocol(profile: Profile, command: &Command) -> Matter
    ensures { result ≡ matter_of_protocol profile command.now }
{
    if is_programmatic_reset(command) {
        Matter::Reset
    } else if is_by_protocol_0(command) {
        other_than_told(profile)
    } else {
        Matter::Plain
    }
}

/// What a command asks for that is refused for its ComID.
fn matter_of_com_id(command: &Command) -> Matter
    ensures { result ≡ matter_of_com_id command.now }
{
    if is_send_to_discovery(command) {
        Matter::SendToDiscovery
    } else {
        Matter::Plain
    }
}

/// What a command asks for that is longer than a response.
fn matter_of_length(profile: Profile) -> Matter
    ensures { result ≡ matter_of_length profile }
{
    match profile {
        Profile::Base | Profile::Field => Matter::LongResponse,
        Profile::Opal => Matter::LongForHost,
    }
}

/// What a command asks for that a rule refused.
fn matter_of(profile: Profile, command: &Command, rule: Rule) -> Matter
    ensures { result ≡ matter_of profile command.now rule }
{
    match rule {
        Rule::Protocol => matter_of_protocol(profile, command),
        Rule::ComId => matter_of_com_id(command),
        Rule::TooLong => matter_of_length(profile),
        _ => Matter::Plain,
    }
}

/// The same; nothing in particular where there is no command.
fn matter_at(profile: Profile, command: Option<Command>, rule: Rule) -> Matter
    ensures { result ≡ matter_at profile command rule }
{
    match command {
        Some(command) => matter_of(profile, &command, rule),
        None => Matter::Plain,
    }
}

/// Appends a line that begins with `because `, with its line feed.
pub(crate) fn append_because(text: &mut Vec<u8>, words: &[u8]) -> Result<(), AllocError>
    ensures { OnOk result (text.new.items ≡ text.old.items ++ because_text words.now) }
{
    text.extend_from_slice(b"because ")?;
    text.extend_from_slice(words)?;
    text.extend_from_slice(b"\n")?;
    Ok(())
}

/// That no command resets the drive, by the column's name.
fn no_reset_words(alloc: Global) -> Result<Vec<u8>, AllocError>
    ensures { IfOk result (λ words. words.items ≡ no_reset_words) }
{
    let mut words = Vec::new(alloc);
    append_object_name(alloc, &mut words, Uid::TPER_INFO)?;
    words.extend_from_slice(b" ")?;
    append_column_name(
        alloc,
        &mut words,
        Uid::TPER_INFO,
        Column::PROGRAMMATIC_RESET_ENABLE,
    )?;
    words.extend_from_slice(b" = 0")?;
    Ok(words)
}

/// Appends that no command resets the drive, and who may let it.
fn append_no_reset<R: Rows>(alloc: Global, text: &mut Vec<u8>, rows: &R) -> Result<(), AllocError>
    ensures { OnOk result (text.new.items ≡ text.old.items
        ++ no_reset_text (R.profile_of rows.now) (R.look_up rows.now)) }
{
    let words = no_reset_words(alloc)?;
    append_because(text, &words)?;
    text.extend_from_slice(b"lifted by: ")?;
    append_set(
        alloc,
        text,
        rows,
        Sp::Admin,
        Uid::TPER_INFO,
        Column::PROGRAMMATIC_RESET_ENABLE,
        1,
    )?;
    text.extend_from_slice(b"\n")?;
    Ok(())
}

/// How much a response carries.
fn long_words(alloc: Global) -> Result<Vec<u8>, AllocError>
    ensures { IfOk result (λ words. words.items ≡ long_words) }
{
    let mut words = Vec::new(alloc);
    words.extend_from_slice(b"a response carries at most ")?;
    append_decimal(alloc, &mut words, MOST_RESPONSE)?;
    words.extend_from_slice(b" bytes of tokens")?;
    Ok(words)
}

/// Appends how much a response carries.
fn append_long(alloc: Global, text: &mut Vec<u8>) -> Result<(), AllocError>
    ensures { OnOk result (text.new.items ≡ text.old.items ++ because_text long_words) }
{
    let words = long_words(alloc)?;
    append_because(text, &words)
}

/// How much a response carries to its host.
fn host_words(alloc: Global) -> Result<Vec<u8>, AllocError>
    ensures { IfOk result (λ words. words.items ≡ host_words) }
{
    let mut words = Vec::new(alloc);
    words.extend_from_slice(b"a response carries what its host takes by Properties, at first ")?;
    append_decimal(alloc, &mut words, LEAST_ROOM)?;
    words.extend_from_slice(b" and at most ")?;
    append_decimal(alloc, &mut words, MOST_RESPONSE)?;
    words.extend_from_slice(b" bytes of tokens")?;
    Ok(words)
}

/// Appends how much a response carries to its host.
fn append_for_host(alloc: Global, text: &mut Vec<u8>) -> Result<(), AllocError>
    ensures { OnOk result (text.new.items ≡ text.old.items ++ because_text host_words) }
{
    let words = host_words(alloc)?;
    append_because(text, &words)
}

/// Appends why a rule refused what a command asked for.
fn append_matter<R: Rows>(
    alloc: Global,
    text: &mut Vec<u8>,
    rows: &R,
    rule: Rule,
    matter: Matter,
) -> Result<(), AllocError>
    ensures { OnOk result (text.new.items ≡ text.old.items
        ++ matter_text (R.profile_of rows.now) (R.look_up rows.now) rule matter) }
{
    match matter {
        Matter::Reset => append_no_reset(alloc, text, rows),
        Matter::OtherThanList => append_because(
            text,
            b"security protocol 00h is its list alone: a receive, SP Specific 0000h, one block or more",
        ),
        Matter::OtherThanCertificates => append_because(
            text,
            b"security protocol 00h is a receive, SP Specific 0000h or 0001h, one block or more",
        ),
        Matter::SendToDiscovery => append_because(
            text,
            b"Level 0 discovery, ComID 0001h, is received and takes no send",
        ),
        Matter::LongResponse => append_long(alloc, text),
        Matter::LongForHost => append_for_host(alloc, text),
        Matter::Plain => append_because(text, rule_words(rule)),
    }
}

/// The line that tells by which rule a command was refused, with its line feed; nothing where there is none.
///
/// # Errors
///
/// An allocation was refused.
pub fn ruling(alloc: Global, rule: Option<Rule>) -> Result<Vec<u8>, AllocError>
    ensures { IfOk result (λ text. text.items ≡ rule_text rule) }
{
    let mut text = Vec::new(alloc);
    if let Some(rule) = rule {
        append_because(&mut text, rule_words(rule))?;
    }
    Ok(text)
}

/// The lines that tell why a rule refused a command, each with its line feed: by what it asked for, and by the rows in
/// force, or else by the rule; nothing where there is none.
///
/// # Errors
///
/// An allocation was refused.
pub fn ruling_of<R: Rows>(
    alloc: Global,
    rows: &R,
    command: Option<Command>,
    rule: Option<Rule>,
) -> Result<Vec<u8>, AllocError>
    ensures { IfOk result (λ text. text.items
        ≡ ruled_text (R.profile_of rows.now) (R.look_up rows.now) command rule) }
{
    let mut text = Vec::new(alloc);
    if let Some(rule) = rule {
        let matter = matter_at(rows.profile(), command, rule);
        append_matter(alloc, &mut text, rows, rule, matter)?;
    }
    Ok(text)
}

/// The command of a FIS, if it carries one that each drive knows.
pub fn command_in(h: &RegH2d) -> Option<Command>
    ensures { result ≡ command_carried h.now }
{
    match of_fis(Profile::Base, h) {
        Ok((command, _)) => Some(command),
        Err(_) => None,
    }
}

/// What is told of refused commands.
///
/// `resets`: where the command that resets the drive is refused for its protocol, the rows don't let it reset.
#[tactic(auto, using(crate::proofs::rulings::RulingLaws::resets))]
pub fn laws_of_rulings()
    ensures resets { ResetRuleLaw }
{}
