//! What a drive answers, as numbers.

ghost use Rattle.std.specs.Prelude.{◌≡◌};
ghost use Rattle.opalport_c.specs.Answers.{refused_answer};

use library_calls::byte_calls::CallError;

/// What a drive answers to a command or to a completion.
#[repr(C)]
#[derive(Clone, Copy, Debug, PartialEq, Eq)]
pub struct Answer {
    /// 0, or the number of the refusal; then all else is 0, and nothing was done.
    pub code: u32,
    /// The Status register (ACS-3): 50h, or 51h with an error.
    pub status: u8,
    /// The Error register: 04h aborted or denied, 10h beyond the drive.
    pub error: u8,
    /// Whether the command is held until it is completed.
    pub held: bool,
    /// Whether the command, or what it sent, was denied.
    pub denied: bool,
    /// How many bytes of data there are.
    pub length: usize,
}

impl Answer {
    /// The call was refused.
    pub fn refused(error: CallError) -> Answer
        ensures { result ≡ refused_answer error }
    {
        Answer {
            code: error.code(),
            status: 0,
            error: 0,
            held: false,
            denied: false,
            length: 0,
        }
    }
}
