//! How a queue has failed, as numbers (ACS-3, NCQ Command Error log).

ghost use Rattle.std.specs.Prelude.{◌≡◌, Option};
ghost use Rattle.opalport_c.specs.Failures.{failure_numbers, no_failure, refused_failure};

use drive::Failure;
use library_calls::byte_calls::{CallError, DONE};

/// How the queue of a drive has failed, if it has: what log page 10h tells.
#[repr(C)]
#[derive(Clone, Copy, Debug, PartialEq, Eq)]
pub struct Failed {
    /// 0, or the number of the refusal; then all else is 0.
    pub code: u32,
    /// Whether the queue has failed; else all else is 0.
    pub failed: bool,
    /// Whether the command that failed was queued; else its tag is 0.
    pub queued: bool,
    /// Its tag.
    pub tag: u8,
    /// Its error: 04h or 10h.
    pub error: u8,
    /// Its Device field.
    pub device: u8,
    /// Its Count field.
    pub count: u16,
    /// Its address.
    pub lba: u64,
}

impl Failed {
    /// The call was refused.
    pub fn refused(error: CallError) -> Failed
        ensures { result ≡ refused_failure error }
    {
        Failed {
            code: error.code(),
            ..Failed::none()
        }
    }

    /// The queue has not failed.
    fn none() -> Failed
        ensures { result ≡ no_failure }
    {
        Failed {
            code: DONE,
            failed: false,
            queued: false,
            tag: 0,
            error: 0,
            device: 0,
            count: 0,
            lba: 0,
        }
    }

    /// How a queue has failed.
    pub fn of(failure: Option<Failure>) -> Failed
        ensures { result ≡ failure_numbers failure }
    {
        let Some(failure) = failure else {
            return Failed::none();
        };
        let (queued, tag) = match failure.tag {
            Some(tag) => (true, tag.number()),
            None => (false, 0),
        };
        Failed {
            code: DONE,
            failed: true,
            queued,
            tag,
            error: failure.error,
            device: failure.device,
            count: failure.count,
            lba: failure.lba.number(),
        }
    }
}
