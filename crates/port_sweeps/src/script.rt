//! The steps of a script of a port.

use crate::error::SweepError;
use basics::Bytes;
use compacket::{ComId, MAX_PAYLOAD, Session, frame};
use drive::{RangeRow, ResetKind};
use port::{Request, Step};
use script_lines::{Hex, PortLine, PutRequest, Reset};
use std::alloc::{AllocError, Global};

/// How many bytes a block has.
const BLOCK: usize = 512;

/// The security protocol whose sends go to ComIDs.
const COM_ID_PROTOCOL: u8 = 1;

/// The ranges of a drive, and the steps of a port in front of it.
#[derive(Drop)]
pub struct Script {
    pub rows: Vec<RangeRow>,
    pub steps: Vec<Step>,
}

/// The kind of a reset.
fn kind_of(kind: Reset) -> ResetKind {
    match kind {
        Reset::Power => ResetKind::Power,
        Reset::Hardware => ResetKind::Hardware,
    }
}

/// So many sectors of one byte.
fn same_bytes(alloc: Global, count: u16, byte: u8) -> Result<Bytes, AllocError> {
    let mut bytes = Vec::new(alloc);
    bytes.resize(BLOCK * usize::from(count), byte)?;
    Ok(Bytes::from_vec(bytes))
}

/// A queued write of sectors of one byte.
fn write_of(alloc: Global, lba: u64, count: u16, byte: u8) -> Result<Request, AllocError> {
    let bytes = same_bytes(alloc, count, byte)?;
    Ok(Request::Write { lba, bytes })
}

/// A write of sectors of one byte that is not queued.
fn write_dma_of(alloc: Global, lba: u64, count: u16, byte: u8) -> Result<Request, AllocError> {
    let bytes = same_bytes(alloc, count, byte)?;
    Ok(Request::WriteDma { lba, bytes })
}

/// The bytes that digits write.
fn decoded(alloc: Global, digits: &Hex<'_>) -> Result<Vec<u8>, AllocError> {
    let mut bytes = Vec::new(alloc);
    digits.decode_into(&mut bytes)?;
    Ok(bytes)
}

/// A send of bytes by a security protocol, with zeros behind them to the end of a block.
fn send_of(protocol: u8, com_id: u16, mut bytes: Vec<u8>) -> Result<Request, AllocError> {
    let blocks = bytes.len().div_ceil(BLOCK);
    bytes.resize(blocks.saturating_mul(BLOCK), 0)?;
    Ok(Request::Send {
        protocol,
        com_id,
        bytes: Bytes::from_vec(bytes),
    })
}

/// A receive of blocks by a security protocol.
fn receive_of(protocol: u8, com_id: u16, blocks: u16) -> Request {
    Request::Receive {
        protocol,
        com_id,
        blocks,
    }
}

/// A send of tokens in a session; of no bytes, which no port takes, where a frame has not so many.
fn call_of(
    alloc: Global,
    com_id: ComId,
    session: Session,
    tokens: &Hex<'_>,
) -> Result<Request, AllocError> {
    let tokens = decoded(alloc, tokens)?;
    let frames = !tokens.is_empty() && tokens.len() <= MAX_PAYLOAD;
    let bytes = if frames {
        frame(alloc, com_id, session, &tokens)?
    } else {
        Vec::new(alloc)
    };
    send_of(COM_ID_PROTOCOL, com_id, bytes)
}

/// The request of a line.
fn request_of(alloc: Global, asked: &PutRequest<'_>) -> Result<Request, AllocError> {
    match asked {
        PutRequest::Read { lba, count } => Ok(Request::Read {
            lba: lba.number(),
            count: u32::from(*count),
        }),
        PutRequest::Write { lba, count, byte } => write_of(alloc, lba.number(), *count, *byte),
        PutRequest::ReadDma { lba, count } => Ok(Request::ReadDma {
            lba: lba.number(),
            count: u32::from(*count),
        }),
        PutRequest::WriteDma { lba, count, byte } => {
            write_dma_of(alloc, lba.number(), *count, *byte)
        }
        PutRequest::Call {
            com_id,
            session,
            tokens,
        } => call_of(alloc, *com_id, *session, tokens),
        PutRequest::Send { com_id, packet } => {
            send_of(COM_ID_PROTOCOL, *com_id, decoded(alloc, packet)?)
        }
        PutRequest::Receive { com_id, blocks } => {
            Ok(receive_of(COM_ID_PROTOCOL, *com_id, *blocks))
        }
        PutRequest::SecurityIn {
            protocol,
            sp_specific,
            blocks,
        } => Ok(receive_of(*protocol, *sp_specific, *blocks)),
        PutRequest::SecurityOut {
            protocol,
            sp_specific,
            payload,
        } => send_of(*protocol, *sp_specific, decoded(alloc, payload)?),
        PutRequest::Identify => Ok(Request::Identify),
    }
}

/// The step that a line says, but for a range line and one that expects a text.
fn step_of(alloc: Global, line: &PortLine<'_>) -> Result<Option<Step>, AllocError> {
    match line {
        PortLine::Range(_) | PortLine::Expect => Ok(None),
        PortLine::Put {
            client,
            tag,
            request,
        } => {
            let request = request_of(alloc, request)?;
            Ok(Some(Step::Put {
                client: *client,
                tag: *tag,
                request,
            }))
        }
        PortLine::Issue { tag } => Ok(Some(Step::Issue { tag: *tag })),
        PortLine::Accept { tag } => Ok(Some(Step::Accept { tag: *tag })),
        PortLine::Complete { tag } => Ok(Some(Step::Complete { tag: *tag })),
        PortLine::Recover => Ok(Some(Step::Recover)),
        PortLine::Reset { client, kind } => Ok(Some(Step::Reset {
            client: *client,
            kind: kind_of(*kind),
        })),
        PortLine::Take { client, tag } => Ok(Some(Step::Take {
            client: *client,
            tag: *tag,
        })),
    }
}

/// Adds what a line says. It tells whether it is a line.
fn add_line(alloc: Global, script: &mut Script, text: &[u8]) -> Result<bool, AllocError> {
    let Ok(line) = PortLine::parse(text) else {
        return Ok(false);
    };
    if let PortLine::Range(row) = &line {
        script.rows.push(*row)?;
        return Ok(true);
    }
    if let Some(step) = step_of(alloc, &line)? {
        script.steps.push(step)?;
    }
    Ok(true)
}

/// The steps of a text, behind its first line.
pub fn script_in(alloc: Global, text: &str) -> Result<Script, SweepError> {
    let mut script = Script {
        rows: Vec::new(alloc),
        steps: Vec::new(alloc),
    };
    for line in text.lines().skip(1) {
        if !add_line(alloc, &mut script, line.as_bytes())? {
            return Err(SweepError::Line);
        }
    }
    Ok(script)
}
