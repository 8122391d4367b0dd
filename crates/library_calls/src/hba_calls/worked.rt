//! What a controller did in a turn, as numbers.

ghost use Rattle.std.specs.Prelude.{◌≡◌};
ghost use Rattle.library_calls.specs.Worked.{work_number, worked_tag, done_number, fault_number, refused_worked, idle_worked, worked_numbers, told_worked};

use crate::byte_calls::{CallError, DONE};
use hba::{Done, MemoryFault, Turned, Work};
use std::alloc::AllocError;

/// What a controller did in a turn.
#[repr(C)]
#[derive(Clone, Copy, Debug, PartialEq, Eq)]
pub struct Worked {
    /// 0, or the number of the refusal; then all else is 0, and nothing was done.
    pub code: u32,
    /// 0: nothing was ready, and all else is 0. 1 is the signature of the device, 2 a command that was fetched, 3 one that
    /// was completed.
    pub work: u8,
    /// Its tag; 0 of the signature.
    pub tag: u8,
    /// 0: the signature was posted. 1: the drive took the command, or completed it. 2: the FIS was no command. What of the
    /// memory was not there: 3 the header, 4 the table, 5 the data, 6 the place of a FIS.
    pub done: u8,
    /// Whether the command that was fetched, or what it sent, was denied.
    pub denied: bool,
}

/// The number of a work.
fn work_number(work: Work) -> u8
    ensures { result ≡ work_number work }
{
    match work {
        Work::Signature => 1,
        Work::Fetch(_) => 2,
        Work::Complete(_) => 3,
    }
}

/// The tag of a work.
pub(crate) fn worked_tag(work: Work) -> u8
    ensures { result ≡ worked_tag work }
{
    match work {
        Work::Signature => 0,
        Work::Fetch(tag) => tag.number(),
        Work::Complete(tag) => tag.number(),
    }
}

/// The number of what was not there.
fn fault_number(fault: MemoryFault) -> u8
    ensures { result ≡ fault_number fault }
{
    match fault {
        MemoryFault::List => 3,
        MemoryFault::Table => 4,
        MemoryFault::Data => 5,
        MemoryFault::Fis => 6,
    }
}

/// The number of how a work went.
fn done_number(done: Done) -> u8
    ensures { result ≡ done_number done }
{
    match done {
        Done::Posted => 0,
        Done::Served => 1,
        Done::Control => 2,
        Done::Fault(fault) => fault_number(fault),
    }
}

impl Worked {
    /// The call was refused.
    pub fn refused(error: CallError) -> Worked
        ensures { result ≡ refused_worked error }
    {
        Worked {
            code: error.code(),
            ..Worked::idle()
        }
    }

    /// Nothing was ready.
    fn idle() -> Worked
        ensures { result ≡ idle_worked }
    {
        Worked {
            code: DONE,
            work: 0,
            tag: 0,
            done: 0,
            denied: false,
        }
    }

    /// What was done.
    fn of(turned: &Turned) -> Worked
        ensures { result ≡ worked_numbers turned.now }
    {
        Worked {
            code: DONE,
            work: work_number(turned.work),
            tag: worked_tag(turned.work),
            done: done_number(turned.done),
            denied: turned.denied.is_some(),
        }
    }

    /// What a turn is told by.
    pub(crate) fn told(outcome: &Result<Option<Turned>, AllocError>) -> Worked
        ensures { result ≡ told_worked outcome.now }
    {
        match outcome {
            Ok(Some(turned)) => Worked::of(turned),
            Ok(None) => Worked::idle(),
            Err(_) => Worked::refused(CallError::OutOfMemory),
        }
    }
}
