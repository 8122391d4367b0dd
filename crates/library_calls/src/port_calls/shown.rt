//! What a port shows, as numbers.

ghost use Rattle.std.specs.Prelude.{◌≡◌};
ghost use Rattle.library_calls.specs.Shown.{shown_word, refused_shown, shown_numbers};

use crate::byte_calls::{CallError, DONE};
use port::LivePort;

/// What a port shows: words of its registers (AHCI 1.3.1, 3.3), and how many denials there were.
#[repr(C)]
#[derive(Clone, Copy, Debug, PartialEq, Eq)]
pub struct Shown {
    /// 0, or the number of the refusal; then all else is 0.
    pub code: u32,
    /// PxIS: why the port interrupts.
    pub interrupts: u32,
    /// PxTFD: Status, and Error from bit 8 on.
    pub task: u32,
    /// PxSACT: the tags of queued commands.
    pub active: u32,
    /// PxCI: the tags of issued commands.
    pub issued: u32,
    /// How many denials there were: so many lines its audit log has.
    pub denials: usize,
}

/// The word at an offset in the block of a port.
fn word(port: &LivePort, offset: u32) -> u32
    ensures { result ≡ shown_word port.now offset }
{
    port.regs().read(offset).unwrap_or(0)
}

impl Shown {
    /// The call was refused.
    pub fn refused(error: CallError) -> Shown
        ensures { result ≡ refused_shown error }
    {
        Shown {
            code: error.code(),
            interrupts: 0,
            task: 0,
            active: 0,
            issued: 0,
            denials: 0,
        }
    }

    /// What a port shows.
    pub(crate) fn of(port: &LivePort) -> Shown
        ensures { result ≡ shown_numbers port.now }
    {
        Shown {
            code: DONE,
            interrupts: word(port, 0x10),
            task: word(port, 0x20),
            active: word(port, 0x34),
            issued: word(port, 0x38),
            denials: port.denials() as usize,
        }
    }
}
