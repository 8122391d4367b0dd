//! What a client takes, as numbers.

ghost use Rattle.std.specs.Prelude.{◌≡◌};
ghost use Rattle.library_calls.specs.PortCallsTold.{refused_take, given_answer};

use crate::byte_calls::DONE;
use port::Answer;

/// What a client took.
#[repr(C)]
#[derive(Clone, Copy, Debug, PartialEq, Eq)]
pub struct Taken {
    /// 0, or the number of the refusal; then all else is 0, and nothing was done.
    pub code: u32,
    /// 0 is done, 1 failed, 2 stopped by a reset.
    pub kind: u8,
    /// The Status register of a command that failed; else 0.
    pub status: u8,
    /// The Error register of a command that failed; else 0.
    pub error: u8,
    /// The number of the step.
    pub number: usize,
    /// How many bytes of data there are.
    pub length: usize,
}

impl Taken {
    /// The call was refused.
    pub fn refused(code: u32) -> Taken
        ensures { result ≡ refused_take code }
    {
        Taken {
            code,
            kind: 0,
            status: 0,
            error: 0,
            number: 0,
            length: 0,
        }
    }

    /// What a client took, by the step of this number.
    pub(crate) fn of(number: u64, answer: &Answer) -> Taken
        ensures { result ≡ given_answer number answer.now }
    {
        let (kind, status, error, length) = match *answer {
            Answer::Done(ref bytes) => (0, 0, 0, bytes.as_slice().len()),
            Answer::Failed { status, error } => (1, status, error, 0),
            Answer::Reset => (2, 0, 0, 0),
        };
        Taken {
            code: DONE,
            kind,
            status,
            error,
            number: number as usize,
            length,
        }
    }
}
