//! What bytes are, and what is told of them.

ghost use Rattle.std.specs.Prelude.{◌≡◌, IfOk};
ghost use Rattle.decoded.specs.Faults.{Checks};
ghost use Rattle.decoded.specs.Decodings.{kind_called, kind_fault, kind_lines};

use crate::com_packet::{append_com_packet, check_com_packet};
use crate::device::{
    append_data_page, append_directory, append_identify, append_queued_error, check_data_page,
    check_directory, check_identify, check_queued_error,
};
use crate::fault::DecodeFault;
use crate::fis_fields::{append_fis, check_fis};
use crate::level0::{append_level0, check_level0};
use std::alloc::{AllocError, Global};

/// What bytes are.
#[derive(Clone, Copy, Debug, PartialEq, Eq)]
pub enum Kind {
    /// Level 0 discovery.
    Level0,
    /// A ComPacket.
    ComPacket,
    /// A FIS.
    Fis,
    /// The answer to IDENTIFY DEVICE.
    Identify,
    /// Log 00h: how many pages each log has.
    LogDirectory,
    /// Log 10h: how a queued command failed.
    QueuedError,
    /// A page of log 30h.
    DataPage,
}

/// The kind of a name: `level0`, `compacket`, `fis`, `identify`, `log00`, `log10` or `log30`.
pub(crate) fn kind_called(name: &[u8]) -> Option<Kind>
    ensures { result ≡ kind_called name.now }
{
    if name == b"level0".as_slice() {
        Some(Kind::Level0)
    } else if name == b"compacket".as_slice() {
        Some(Kind::ComPacket)
    } else if name == b"fis".as_slice() {
        Some(Kind::Fis)
    } else if name == b"identify".as_slice() {
        Some(Kind::Identify)
    } else if name == b"log00".as_slice() {
        Some(Kind::LogDirectory)
    } else if name == b"log10".as_slice() {
        Some(Kind::QueuedError)
    } else if name == b"log30".as_slice() {
        Some(Kind::DataPage)
    } else {
        None
    }
}

/// Sees that bytes are of a kind.
///
/// # Errors
///
/// The first thing that is wrong with them.
pub fn check(kind: Kind, bytes: &[u8]) -> Result<(), DecodeFault>
    ensures { Checks (kind_fault kind bytes.now) result }
{
    match kind {
        Kind::Level0 => check_level0(bytes),
        Kind::ComPacket => check_com_packet(bytes),
        Kind::Fis => check_fis(bytes),
        Kind::Identify => check_identify(bytes),
        Kind::LogDirectory => check_directory(bytes),
        Kind::QueuedError => check_queued_error(bytes),
        Kind::DataPage => check_data_page(bytes),
    }
}

/// The lines of bytes of a kind: of each field its name, a blank and its value. Of bytes that `check` refuses, what is
/// missing is told as zeros.
///
/// # Errors
///
/// An allocation was refused.
pub fn lines(alloc: Global, kind: Kind, bytes: &[u8]) -> Result<Vec<u8>, AllocError>
    ensures { IfOk result (λ text. text.items ≡ kind_lines kind bytes.now) }
{
    let mut text = Vec::new(alloc);
    match kind {
        Kind::Level0 => append_level0(alloc, &mut text, bytes)?,
        Kind::ComPacket => append_com_packet(alloc, &mut text, bytes)?,
        Kind::Fis => append_fis(alloc, &mut text, bytes)?,
        Kind::Identify => append_identify(alloc, &mut text, bytes)?,
        Kind::LogDirectory => append_directory(alloc, &mut text, bytes)?,
        Kind::QueuedError => append_queued_error(alloc, &mut text, bytes)?,
        Kind::DataPage => append_data_page(alloc, &mut text, bytes)?,
    }
    Ok(text)
}
