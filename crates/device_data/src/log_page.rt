//! Log page 10h (ACS-3, "NCQ Command Error log").

ghost use Rattle.std.specs.Prelude.{◌≡◌, ◌%◌, Option, ℕ, IfOk};
ghost use Rattle.fis.specs.declared.h2d.RegH2d.{RegH2d};
ghost use Rattle.device_data.specs.Checksums.{with_sum};
ghost use Rattle.device_data.specs.ErrorLog.{page_head, error_log};

use basics::byte_sum;
use fis::{Lba, RegH2d, Tag};
use std::alloc::{AllocError, Global};

/// What log page 10h tells of the command that failed the queue.
#[derive(Clone, Copy, Debug, PartialEq, Eq)]
pub struct Failure {
    /// The tag, or `None` where the command was not queued.
    pub tag: Option<Tag>,
    pub error: u8,
    pub lba: Lba,
    pub device: u8,
    pub count: u16,
}

impl Failure {
    ghost use Rattle.device_data.specs.ErrorLog.{failure_by};

    /// The failure of the command that the FIS carried.
    pub fn of(tag: Option<Tag>, error: u8, h: &RegH2d) -> Failure
        ensures { result ≡ failure_by tag error h.now }
    {
        Failure {
            tag,
            error,
            lba: h.lba,
            device: h.device,
            count: h.count,
        }
    }
}

/// The status of a command that failed.
const FAILED: u8 = 0x51;

/// Bit NQ: the command that failed was not queued.
const NOT_QUEUED: u8 = 0x80;

/// How many bytes the page has.
const PAGE_LENGTH: usize = 512;

/// The bytes of the page that are not zeros by themselves.
fn page_head(failure: &Failure) -> [u8; 14]
    ensures { result ≡ page_head (Some failure.now) }
{
    let tag = match failure.tag {
        Some(tag) => tag.number(),
        None => NOT_QUEUED,
    };
    let lba = failure.lba.number().to_le_bytes();
    let count = failure.count.to_le_bytes();
    [
        tag,
        0,
        FAILED,
        failure.error,
        lba[0],
        lba[1],
        lba[2],
        failure.device,
        lba[3],
        lba[4],
        lba[5],
        0,
        count[0],
        count[1],
    ]
}

/// The 512 bytes of log page 10h: the tag, the error and fields of the FIS of the command that failed
/// the queue, or bit 7 of byte 0 alone where none failed. The last byte makes the sum of all a
/// multiple of 256.
pub fn error_log(alloc: Global, failure: &Option<Failure>) -> Result<Vec<u8>, AllocError>
    ensures { IfOk result (λ bytes. bytes.items ≡ error_log failure.now) }
{
    let mut bytes = Vec::with_capacity(alloc, PAGE_LENGTH)?;
    match failure {
        Some(failure) => bytes.extend_from_slice(&page_head(failure))?,
        None => bytes.push(NOT_QUEUED)?,
    }
    bytes.resize(PAGE_LENGTH - 1, 0)?;
    let sum = byte_sum(&bytes);
    bytes.push(sum.wrapping_neg())?;
    Ok(bytes)
}
