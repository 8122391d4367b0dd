//! What may be wrong with a line.

use crate::field::Field;
use std::error::Error;
use std::fmt;

/// Why a line is none.
#[derive(Clone, Copy, Debug, PartialEq, Eq)]
pub enum LineFault {
    /// The first word is none of a line.
    UnknownWord,
    /// The first word is none of a line of a port script.
    UnknownStep,
    /// The word of a `put` line that says what is asked is no request.
    UnknownRequest,
    /// The line ends before the word of a field.
    Missing(Field),
    /// The word is not what its field holds.
    Wrong(Field),
    /// Words stand behind the last field.
    Extra,
}

/// Says what the word of a field is to be.
fn write_wanted<W: fmt::Write>(f: &mut fmt::Formatter<W>, field: Field) -> fmt::Result {
    match field {
        Field::Byte | Field::DmaByte | Field::PutByte => f.write_str("two hex digits"),
        Field::Tokens
        | Field::ComPacket
        | Field::SecurityBytes
        | Field::PutTokens
        | Field::PutComPacket
        | Field::PutSecurityBytes => {
            write!(
                f,
                "hex text, two digits for each of 1 to {} bytes",
                field.most()
            )
        }
        Field::ResetKind => f.write_str("0 (power) or 1 (hardware)"),
        _ => write!(f, "a number from 0 to {}", field.most()),
    }
}

impl fmt::Display for LineFault {
    fn fmt<W: fmt::Write>(&self, f: &mut fmt::Formatter<W>) -> fmt::Result {
        match *self {
            LineFault::UnknownWord => {
                f.write_str("the first word is none of ")?;
                f.write_str(
                    "range, read, write, dread, dwrite, call, send, recv, secin, secout, identify, ",
                )?;
                f.write_str("log, reset, tper and expect")
            }
            LineFault::UnknownStep => {
                f.write_str("the first word is none of ")?;
                f.write_str("range, put, issue, accept, complete, recover, reset, take and expect")
            }
            LineFault::UnknownRequest => {
                f.write_str("word 4, the request, is none of ")?;
                f.write_str(
                    "read, write, dread, dwrite, call, send, recv, secin, secout and identify",
                )
            }
            LineFault::Missing(field) => {
                write!(f, "{field} is missing: ")?;
                write_wanted(f, field)
            }
            LineFault::Wrong(field) => {
                write!(f, "{field} is not ")?;
                write_wanted(f, field)
            }
            LineFault::Extra => f.write_str("there are words behind the last one"),
        }
    }
}

impl Error for LineFault {}
