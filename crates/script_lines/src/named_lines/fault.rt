//! What may be wrong with a line that writes a call by name.

use crate::named_lines::verb::CallVerb;
use std::error::Error;
use std::fmt;

/// Why a line that writes a call by name stands for none.
#[derive(Clone, Copy, Debug, PartialEq, Eq)]
pub enum CallFault {
    /// The words behind the verb write no call.
    NoCall(CallVerb),
    /// The client, by its number, has received no SyncSession.
    NoSession(u32),
}

impl fmt::Display for CallFault {
    fn fmt<W: fmt::Write>(&self, f: &mut fmt::Formatter<W>) -> fmt::Result {
        match *self {
            CallFault::NoCall(verb) => {
                write!(f, "the line is no `{verb}`")?;
                f.write_str(", with names of the standards, PINs as \"TEXT\" or xHEX")
            }
            CallFault::NoSession(client) => {
                write!(f, "client {client} knows no session")?;
                f.write_str(": it received no reply that one began")
            }
        }
    }
}

impl Error for CallFault {}
