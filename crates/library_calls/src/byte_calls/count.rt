//! A number that a call from outside is answered.

ghost use Rattle.std.specs.Prelude.{◌≡◌};
ghost use Rattle.library_calls.specs.Counts.{refused_count, given_count};

use crate::byte_calls::error::CallError;

/// The number of a call that was done.
pub const DONE: u32 = 0;

/// A number, where the call was done.
#[repr(C)]
#[derive(Clone, Copy, Debug, PartialEq, Eq)]
pub struct Count {
    /// 0, or the number of the refusal.
    pub code: u32,
    /// The number. Of a buffer that is too short, how many bytes there are; of another refusal, 0.
    pub number: usize,
}

impl Count {
    /// The call was refused.
    pub fn refused(error: CallError) -> Count
        ensures { result ≡ refused_count error }
    {
        Count {
            code: error.code(),
            number: 0,
        }
    }

    /// The call was done, and gives this number.
    pub fn of(number: usize) -> Count
        ensures { result ≡ given_count number }
    {
        Count { code: DONE, number }
    }
}
