//! What a host asks a controller for.

ghost use Rattle.std.specs.Prelude.{◌≡◌, option_map};
ghost use Rattle.hba_program.specs.Requests.{word_number, read_in, write_in, turn_in, sector_in, alone};
ghost use Rattle.hba_program.specs.declared.hba_lines.request.Request.{Request};

use crate::hba_lines::digits::hex_number;
use crate::hba_lines::words::cut;
use std::error::Error;
use std::fmt;

/// What a line asks for.
#[derive(Clone, Copy, Debug, PartialEq, Eq)]
pub enum Request {
    /// The register at an offset.
    Read { offset: u32 },
    /// A write of the register at an offset.
    Write { offset: u32, value: u32 },
    /// One ready work, by its number.
    Turn { choice: u32 },
    /// Works until none is ready.
    Run,
    /// The interrupt line.
    Interrupt,
    /// The denials that were not told.
    Why,
    /// A power cycle.
    PowerCycle,
    /// The bytes of a sector of the media.
    Sector { lba: u64 },
}

/// Why a line is no request.
#[derive(Clone, Copy, Debug, PartialEq, Eq)]
pub enum RequestFault {
    /// The first word is none of a request.
    UnknownVerb,
    /// Words stand behind a verb that stands alone.
    NotAlone,
    /// What stands behind `r` is no offset.
    Read,
    /// What stands behind `w` is no offset and a value.
    Write,
    /// What stands behind `turn` is no number.
    Turn,
    /// What stands behind `sector` is no address.
    Sector,
}

impl RequestFault {
    ghost use Rattle.hba_program.specs.Requests.{request_fault_text};

    /// What is wrong.
    pub fn text(self) -> &'static str
        ensures { result.now ≡ request_fault_text self }
    {
        match self {
            RequestFault::UnknownVerb => {
                "the first word is none of r, w, turn, run, irq, why, power and sector"
            }
            RequestFault::NotAlone => "words stand behind a request that stands alone",
            RequestFault::Read => "r OFFSET: an offset is 1 to 8 hex digits",
            RequestFault::Write => "w OFFSET VALUE: each is 1 to 8 hex digits",
            RequestFault::Turn => "turn or turn N: a number is 1 to 8 hex digits",
            RequestFault::Sector => "sector LBA: an address is 1 to 12 hex digits",
        }
    }
}

impl fmt::Display for RequestFault {
    fn fmt<W: fmt::Write>(&self, f: &mut fmt::Formatter<W>) -> fmt::Result {
        f.write_str(self.text())
    }
}

impl Error for RequestFault {}

/// A number of 32 bits.
fn word(text: &[u8]) -> Option<u32>
    ensures { result ≡ word_number text.now }
{
    let number = hex_number(8, text)?;
    Some(number as u32)
}

/// Behind a verb that stands alone.
fn alone(request: Request, rest: Option<&[u8]>) -> Result<Request, RequestFault>
    ensures { result ≡ alone request (option_map (λ rest. rest.now) rest.entry) }
{
    match rest {
        None => Ok(request),
        Some(_) => Err(RequestFault::NotAlone),
    }
}

/// Behind `r`.
fn read_in(rest: Option<&[u8]>) -> Result<Request, RequestFault>
    ensures { result ≡ read_in (option_map (λ rest. rest.now) rest.entry) }
{
    let Some(text) = rest else {
        return Err(RequestFault::Read);
    };
    let Some(offset) = word(text) else {
        return Err(RequestFault::Read);
    };
    Ok(Request::Read { offset })
}

/// Behind `w`.
fn write_in(rest: Option<&[u8]>) -> Result<Request, RequestFault>
    ensures { result ≡ write_in (option_map (λ rest. rest.now) rest.entry) }
{
    let Some(text) = rest else {
        return Err(RequestFault::Write);
    };
    let (first, second) = cut(text);
    let Some(second) = second else {
        return Err(RequestFault::Write);
    };
    match (word(first), word(second)) {
        (Some(offset), Some(value)) => Ok(Request::Write { offset, value }),
        _ => Err(RequestFault::Write),
    }
}

/// Behind `turn`.
fn turn_in(rest: Option<&[u8]>) -> Result<Request, RequestFault>
    ensures { result ≡ turn_in (option_map (λ rest. rest.now) rest.entry) }
{
    let Some(text) = rest else {
        return Ok(Request::Turn { choice: 0 });
    };
    let Some(choice) = word(text) else {
        return Err(RequestFault::Turn);
    };
    Ok(Request::Turn { choice })
}

/// Behind `sector`.
fn sector_in(rest: Option<&[u8]>) -> Result<Request, RequestFault>
    ensures { result ≡ sector_in (option_map (λ rest. rest.now) rest.entry) }
{
    let Some(text) = rest else {
        return Err(RequestFault::Sector);
    };
    let Some(lba) = hex_number(12, text) else {
        return Err(RequestFault::Sector);
    };
    Ok(Request::Sector { lba })
}

impl Request {
    ghost use Rattle.hba_program.specs.Requests.{host_request};

    /// What a line asks for, without its line feed. One blank parts its words, and its numbers are hex.
    ///
    /// # Errors
    ///
    /// What is wrong with a line that is no request.
    pub fn parse(line: &[u8]) -> Result<Request, RequestFault>
        ensures { result ≡ host_request line.now }
    {
        let (verb, rest) = cut(line);
        if verb == b"r".as_slice() {
            read_in(rest)
        } else if verb == b"w".as_slice() {
            write_in(rest)
        } else if verb == b"turn".as_slice() {
            turn_in(rest)
        } else if verb == b"run".as_slice() {
            alone(Request::Run, rest)
        } else if verb == b"irq".as_slice() {
            alone(Request::Interrupt, rest)
        } else if verb == b"why".as_slice() {
            alone(Request::Why, rest)
        } else if verb == b"power".as_slice() {
            alone(Request::PowerCycle, rest)
        } else if verb == b"sector".as_slice() {
            sector_in(rest)
        } else {
            Err(RequestFault::UnknownVerb)
        }
    }
}
