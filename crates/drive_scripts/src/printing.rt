//! What a command prints.

ghost use Rattle.std.specs.Prelude.{◌≡◌, ◌∷◌, [], OnOk, take};
ghost use Rattle.compacket.specs.Frames.{com_packet_size};
ghost use Rattle.script_lines.specs.Texts.{Prints, denial_lines, refusal_lines};
ghost use Rattle.drive_scripts.specs.Effects.{protocol_list_size, certificate_data_size, told_size, stack_size, discovery_size, shown_bytes, served_text, told_lines};

use audit::{AuditLine, Why};
use byteorder::{BigEndian, ByteOrder};
use compacket::{COM_PACKET_HEADER, ComId};
use drive::Accepted;
use reasons::rulings::DISCOVERY_COM_ID;
use script_lines::Report;
use std::alloc::AllocError;
use trusted_cmds::{Command, RESET_PROTOCOL};

/// How many bytes of Level 0 discovery say how many follow.
const DISCOVERY_HEADER: usize = 4;

/// How many bytes stand in front of the security protocols that are listed.
const PROTOCOL_LIST_HEADER: usize = 8;

/// How many bytes stand in front of the certificates.
const CERTIFICATE_DATA_HEADER: usize = 4;

/// How many bytes stand in front of what is told of the stack of a ComID.
const STACK_HEADER: usize = 12;

/// The SP Specific field by which security protocol 00h tells the certificates.
const CERTIFICATE_DATA: u16 = 1;

/// The header of a ComPacket and the bytes that it counts, as far as they are there.
fn com_packet(bytes: &[u8]) -> &[u8]
    ensures { result.now ≡ take (com_packet_size bytes.now) bytes.now }
{
    if bytes.len() < COM_PACKET_HEADER {
        return bytes;
    }
    let size = COM_PACKET_HEADER + BigEndian::read_u32(&bytes[16..]) as usize;
    &bytes[..size.min(bytes.len())]
}

/// The list of security protocols, as far as it is there.
fn protocol_list(bytes: &[u8]) -> &[u8]
    ensures { result.now ≡ take (protocol_list_size bytes.now) bytes.now }
{
    if bytes.len() < PROTOCOL_LIST_HEADER {
        return bytes;
    }
    let size = PROTOCOL_LIST_HEADER + usize::from(BigEndian::read_u16(&bytes[6..]));
    &bytes[..size.min(bytes.len())]
}

/// The certificates, as far as they are there.
fn certificate_data(bytes: &[u8]) -> &[u8]
    ensures { result.now ≡ take (certificate_data_size bytes.now) bytes.now }
{
    if bytes.len() < CERTIFICATE_DATA_HEADER {
        return bytes;
    }
    let size = CERTIFICATE_DATA_HEADER + usize::from(BigEndian::read_u16(&bytes[2..]));
    &bytes[..size.min(bytes.len())]
}

/// What security protocol 00h tells, as far as it is there.
fn told(sp_specific: u16, bytes: &[u8]) -> &[u8]
    ensures { result.now ≡ take (told_size sp_specific bytes.now) bytes.now }
{
    if sp_specific == CERTIFICATE_DATA {
        certificate_data(bytes)
    } else {
        protocol_list(bytes)
    }
}

/// What is told of the stack of a ComID, as far as it is there.
fn stack(bytes: &[u8]) -> &[u8]
    ensures { result.now ≡ take (stack_size bytes.now) bytes.now }
{
    if bytes.len() < STACK_HEADER {
        return bytes;
    }
    let size = STACK_HEADER + usize::from(BigEndian::read_u16(&bytes[10..]));
    &bytes[..size.min(bytes.len())]
}

/// Level 0 discovery, as far as it is there.
fn discovery(bytes: &[u8]) -> &[u8]
    ensures { result.now ≡ take (discovery_size bytes.now) bytes.now }
{
    if bytes.len() < DISCOVERY_HEADER {
        return bytes;
    }
    let size = DISCOVERY_HEADER + BigEndian::read_u32(bytes) as usize;
    &bytes[..size.min(bytes.len())]
}

/// What a receive shows.
pub fn shown(protocol: u8, com_id: ComId, bytes: &[u8]) -> &[u8]
    ensures { result.now ≡ shown_bytes protocol com_id bytes.now }
{
    if protocol == 0 {
        told(com_id, bytes)
    } else if protocol == RESET_PROTOCOL {
        stack(bytes)
    } else if com_id == DISCOVERY_COM_ID {
        discovery(bytes)
    } else {
        com_packet(bytes)
    }
}

/// Prints that a command was served, with its data.
fn print_served(report: &mut Report, command: &Command, bytes: &[u8]) -> Result<(), AllocError>
    ensures { OnOk result (Prints report.old report.new (served_text command.now bytes.now ∷ [])) }
{
    match *command {
        Command::ReadDma { .. } | Command::ReadPio { .. } => report.print_data(bytes)?,
        Command::Receive {
            protocol,
            sp_specific,
            ..
        } => report.print_hex(shown(protocol, sp_specific, bytes))?,
        Command::Identify | Command::ReadLog10 { .. } => report.print_hex(bytes)?,
        _ => report.print_ok()?,
    }
    Ok(())
}

/// Prints under the number of an act what denied it to a client, where something did.
fn print_denial(
    report: &mut Report,
    step: u64,
    client: u32,
    denied: &mut Option<Why>,
) -> Result<(), AllocError>
    ensures prints { OnOk result
        (Prints report.old report.new (denial_lines step client denied.old)) }
    ensures denied { OnOk result (denied.new ≡ denied.old) }
{
    if let Some(why) = denied.take() {
        let line = AuditLine { step, client, why };
        report.print_audit(&line)?;
        *denied = Some(line.why);
    }
    Ok(())
}

/// Prints that a command failed, and under the number of its act what denied it to a client.
pub fn print_failure(
    report: &mut Report,
    step: u64,
    client: u32,
    answer: &mut Accepted,
) -> Result<(), AllocError>
    ensures prints { OnOk result (Prints report.old report.new
        (refusal_lines step client answer.old.status answer.old.error answer.old.denied)) }
    ensures answer { OnOk result (answer.new ≡ answer.old) }
{
    report.print_failure(answer.status, answer.error)?;
    print_denial(report, step, client, &mut answer.denied)?;
    Ok(())
}

/// Prints that a command was served, with its data, and under the number of its act what it denied
/// to a client.
fn print_success(
    report: &mut Report,
    step: u64,
    client: u32,
    command: &Command,
    answer: &mut Accepted,
) -> Result<(), AllocError>
    ensures prints { OnOk result (Prints report.old report.new
        (served_text command.now answer.old.bytes.items
        ∷ denial_lines step client answer.old.denied)) }
    ensures answer { OnOk result (answer.new ≡ answer.old) }
{
    print_served(report, command, &answer.bytes)?;
    print_denial(report, step, client, &mut answer.denied)?;
    Ok(())
}

/// Prints what came of a command, and under the number of its act what denied it to a client.
pub fn print_answer(
    report: &mut Report,
    step: u64,
    client: u32,
    command: &Command,
    answer: &mut Accepted,
) -> Result<(), AllocError>
    ensures prints { OnOk result (Prints report.old report.new
        (told_lines step client command.now answer.old)) }
    ensures answer { OnOk result (answer.new ≡ answer.old) }
{
    if answer.has_failed() {
        print_failure(report, step, client, answer)?;
    } else {
        print_success(report, step, client, command, answer)?;
    }
    Ok(())
}
