//! A request, as a caller from outside asks it of a port.

ghost use Rattle.std.specs.Prelude.{◌≡◌};
ghost use Rattle.library_calls.specs.Requested.{receive_request, bare_request, is_laden, laden_request, request_asked, IsAskedAs};

use crate::byte_calls::CallError;
use basics::Bytes;
use port::Request;
use std::alloc::Global;

/// The numbers of a request.
#[repr(C)]
#[derive(Clone, Copy, Debug, PartialEq, Eq)]
pub struct Asked {
    pub lba: u64,
    /// 0 and 1 read and write in the queue, 2 and 3 out of it; 4 is IDENTIFY DEVICE, 6 FLUSH CACHE EXT, 7 TRUSTED SEND
    /// DMA, 8 TRUSTED RECEIVE DMA.
    pub kind: u32,
    /// How many blocks of 512 bytes a read or a receive moves. A write and a send move their payload.
    pub count: u32,
    /// Of a send and a receive, as the next field.
    pub com_id: u16,
    pub protocol: u8,
}

/// The receive of these numbers.
fn receive(asked: &Asked) -> Option<Request>
    ensures { result ≡ receive_request asked.now }
{
    let Asked {
        count,
        com_id,
        protocol,
        ..
    } = *asked;
    if count > u32::from(u16::MAX) {
        return None;
    }
    let blocks = count as u16;
    Some(Request::Receive {
        protocol,
        com_id,
        blocks,
    })
}

/// The request of these numbers, where it brings no bytes.
fn bare(asked: &Asked) -> Option<Request>
    ensures { result ≡ bare_request asked.now }
{
    let Asked { lba, count, .. } = *asked;
    match asked.kind {
        0 => Some(Request::Read { lba, count }),
        2 => Some(Request::ReadDma { lba, count }),
        4 => Some(Request::Identify),
        6 => Some(Request::Flush),
        8 => receive(asked),
        _ => None,
    }
}

/// Whether a request brings bytes.
fn is_laden(kind: u32) -> bool
    ensures { result ≡ is_laden kind }
{
    kind == 1 || kind == 3 || kind == 7
}

/// The request of these numbers, with the bytes that it brings.
fn laden(asked: &Asked, bytes: Bytes) -> Request
    ensures { result ≡ laden_request asked.now bytes }
{
    let Asked {
        lba,
        com_id,
        protocol,
        ..
    } = *asked;
    match asked.kind {
        1 => Request::Write { lba, bytes },
        3 => Request::WriteDma { lba, bytes },
        _ => Request::Send {
            protocol,
            com_id,
            bytes,
        },
    }
}

/// The request that is asked for, with a copy of the payload.
///
/// # Errors
///
/// `Length`: a request that brings no bytes has a payload. `Number`: there is no such request. Want of memory, where
/// there is one.
pub(crate) fn request_asked(
    alloc: Global,
    asked: &Asked,
    payload: &[u8],
) -> Result<Request, CallError>
    ensures { IsAskedAs (request_asked asked.now payload.now) result }
{
    if let Some(request) = bare(asked) {
        return if payload.is_empty() {
            Ok(request)
        } else {
            Err(CallError::Length)
        };
    }
    if !is_laden(asked.kind) {
        return Err(CallError::Number);
    }
    let bytes = payload.to_vec(alloc)?;
    Ok(laden(asked, Bytes::from_vec(bytes)))
}
