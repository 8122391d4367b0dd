//! What the standards leave to a drive.

ghost use Rattle.std.specs.Prelude.{◌≡◌};
ghost use Rattle.judged.specs.Freedoms.{error_in, are_open_bits, are_open_errors, differs_by_error_bits, has_digit, has_some_digit, may_stand, differs_within, asks_level0, digits_at, has_opal_feature, has_com_ids, differs_by_com_ids, asks_identity, line_adds_up};

use crate::answers::behind;
use crate::blanks::{differs_by_blanks, differs_by_random, front, is_digit};
use crate::properties::differs_by_properties;
use crate::received::{DATA_PLACE, differs_by_number};
use basics::byte_sum;
use script_lines::Words;
use std::alloc::{AllocError, Global};
use std::marker::Model;
use thiserror::Error;

/// What the standards leave to a drive.
#[derive(Clone, Copy, Debug, PartialEq, Eq)]
pub enum Freedom {
    /// Bits of the Error field that have no meaning, beside ABRT (ACS-3, section 6.3).
    ErrorBits,
    /// What sectors hold that nothing has written, or that an erasure wiped: no command of ACS-3 says it, nor does Opal SSC
    /// 2.01 (section 5.1.2).
    BlankSectors,
    /// Bytes 16 to 47 of Level 0 discovery, which are the vendor's (TCG Core 2.01, section 3.3.6).
    VendorBytes,
    /// The serial number, the firmware's version, the model number and the World Wide Name, and the checksum, which a drive
    /// need not have, but which has to add up (ACS-3, IDENTIFY DEVICE).
    Identity,
    /// The number that the TPer gives a session (TCG Core 2.01, sections 3.3.7.1.3 and 5.2.3): an answer that hands out another
    /// one differs by it. The answers behind it have that number.
    SessionNumbers,
    /// The first of the ComIDs, and how many there are, in the descriptor of the Opal SSC V2 feature of Level 0 discovery (Opal
    /// SSC 2.01, section 3.1.1.5).
    ComIds,
    /// The bytes that Random gives (TCG Core 2.01, section 5.6.4.1).
    RandomBytes,
    /// The values that the TPer tells of itself by Properties, none below the least that Opal SSC 2.01 wants (section 4.1.1.1).
    Properties,
}

/// The bits of the Error field that have a meaning.
const TOLD_ERROR_BITS: u8 = 0xd4;

/// The bit of an aborted command.
const ABORT_BIT: u8 = 4;

/// How many bytes stand in front of the error in a line `fail 51 04`.
const ERROR_PLACE: usize = 8;

/// All that the model knows.
const ALL_FREEDOMS: [Freedom; 8] = [
    Freedom::ErrorBits,
    Freedom::BlankSectors,
    Freedom::VendorBytes,
    Freedom::Identity,
    Freedom::SessionNumbers,
    Freedom::ComIds,
    Freedom::RandomBytes,
    Freedom::Properties,
];

/// The error in a line `fail 51 04`.
fn error_in(line: &[u8]) -> Option<u8>
    ensures { result ≡ error_in line.now }
{
    let digits = line.get(ERROR_PLACE..).unwrap_or(&[]);
    let mut error = [0; 1];
    match hex::decode_to_slice(digits, &mut error) {
        Ok(()) => Some(error[0]),
        Err(_) => None,
    }
}

/// Whether two errors of an aborted command differ in bits alone that have no meaning.
fn are_open_bits(heard: u8, wanted: u8) -> bool
    ensures { result ≡ are_open_bits heard wanted }
{
    wanted & ABORT_BIT != 0 && heard & TOLD_ERROR_BITS == wanted & TOLD_ERROR_BITS
}

/// The same of errors as they are read.
fn are_open_errors(heard: Option<u8>, wanted: Option<u8>) -> bool
    ensures { result ≡ are_open_errors heard wanted }
{
    match (heard, wanted) {
        (Some(heard), Some(wanted)) => are_open_bits(heard, wanted),
        _ => false,
    }
}

/// Whether a failure differs from another in bits of its error alone that have no meaning.
fn differs_by_error_bits(heard: &[u8], wanted: &[u8]) -> bool
    ensures { result ≡ differs_by_error_bits heard.now wanted.now }
{
    front(wanted, 5) == b"fail ".as_slice()
        && front(heard, ERROR_PLACE) == front(wanted, ERROR_PLACE)
        && are_open_errors(error_in(heard), error_in(wanted))
}

/// Bytes of an answer, from one on, in front of another.
#[derive(Clone, Copy, Debug, PartialEq, Eq)]
pub struct Span {
    pub first: u16,
    pub limit: u16,
}

/// The vendor's bytes of Level 0 discovery.
const VENDOR_SPANS: [Span; 1] = [Span {
    first: 16,
    limit: 48,
}];

/// How many bytes IDENTIFY DEVICE data have.
const IDENTITY_SIZE: usize = 512;

/// The place of the byte that says that the last is a checksum, and what stands there then.
const CHECKSUM_SIGN_PLACE: usize = 510;

const CHECKSUM_SIGN: u8 = 0xa5;

/// The serial number; the firmware's version and the model number; the World Wide Name; the checksum.
const IDENTITY_SPANS: [Span; 4] = [
    Span {
        first: 20,
        limit: 40,
    },
    Span {
        first: 46,
        limit: 94,
    },
    Span {
        first: 216,
        limit: 224,
    },
    Span {
        first: 510,
        limit: 512,
    },
];

/// Whether a place of a line `data HEX` has a digit of these bytes.
fn has_digit(span: &Span, place: usize) -> bool
    ensures { result ≡ has_digit place span.now }
{
    let first = DATA_PLACE + 2 * span.first as usize;
    let limit = DATA_PLACE + 2 * span.limit as usize;
    first <= place && place < limit
}

/// Whether a place of such a line has a digit of one of the spans.
fn has_some_digit(spans: &[Span], place: usize) -> bool
    ensures { result ≡ has_some_digit spans.now place }
{
    for span in spans {
        if has_digit(span, place) {
            return true;
        }
    }
    false
}

/// Whether a line may have this byte at a place, where another has that one.
fn may_stand(spans: &[Span], place: usize, heard: u8, wanted: u8) -> bool
    ensures { result ≡ may_stand spans.now place heard wanted }
{
    heard == wanted || (is_digit(heard) && has_some_digit(spans, place))
}

/// Whether two lines `data HEX` differ in digits of these bytes alone.
fn differs_within(spans: &[Span], heard: &[u8], wanted: &[u8]) -> bool
    ensures { result ≡ differs_within spans.now 0 heard.now wanted.now }
{
    if heard.len() != wanted.len() {
        return false;
    }
    for i in 0..heard.len() {
        if !may_stand(spans, i, heard[i], wanted[i]) {
            return false;
        }
    }
    true
}

/// Whether a line receives Level 0 discovery.
pub(crate) fn asks_level0(line: &[u8]) -> bool
    ensures { result ≡ asks_level0 line.now }
{
    let mut words = Words::new(line);
    let verb = words.next_word();
    words.next_word();
    verb == b"recv".as_slice() && words.next_word() == b"1".as_slice()
}

/// The first of the ComIDs, and how many there are.
const COM_ID_SPANS: [Span; 1] = [Span {
    first: 116,
    limit: 120,
}];

/// So many hex digits of a line `data HEX`, from those of a byte on.
fn digits_at(line: &[u8], first: u16, count: usize) -> &[u8]
    ensures { result.now ≡ digits_at first count line.now }
{
    front(behind(line, DATA_PLACE + 2 * first as usize), count)
}

/// Whether Level 0 has the Opal SSC V2 feature at byte 112.
fn has_opal_feature(line: &[u8]) -> bool
    ensures { result ≡ has_opal_feature line.now }
{
    digits_at(line, 112, 4) == b"0203".as_slice()
}

/// Whether its ComIDs are some that a drive can have: one at least, from 1000h on.
fn has_com_ids(line: &[u8]) -> bool
    ensures { result ≡ has_com_ids line.now }
{
    digits_at(line, 116, 1) != b"0".as_slice() && digits_at(line, 118, 4) != b"0000".as_slice()
}

/// Whether an answer to a line that receives Level 0 differs from the model's in its ComIDs alone.
fn differs_by_com_ids(asked: &[u8], heard: &[u8], wanted: &[u8]) -> bool
    ensures { result ≡ differs_by_com_ids asked.now heard.now wanted.now }
{
    asks_level0(asked)
        && has_opal_feature(wanted)
        && differs_within(&COM_ID_SPANS, heard, wanted)
        && has_com_ids(heard)
}

/// Whether a line asks what the drive says that it is.
fn asks_identity(line: &[u8]) -> bool
    ensures { result ≡ asks_identity line.now }
{
    Words::new(line).next_word() == b"identify".as_slice()
}

/// Whether the checksum of a line with IDENTIFY DEVICE data adds up, where it says that there is one.
fn line_adds_up(line: &[u8]) -> bool
    ensures { result ≡ line_adds_up line.now }
{
    let digits = line.get(DATA_PLACE..).unwrap_or(&[]);
    let mut bytes = [0; IDENTITY_SIZE];
    match hex::decode_to_slice(digits, &mut bytes) {
        Ok(()) => bytes[CHECKSUM_SIGN_PLACE] != CHECKSUM_SIGN || byte_sum(&bytes) == 0,
        Err(_) => false,
    }
}

impl Freedom {
    ghost use Rattle.std.specs.Prelude.{◌≡◌, IfOk};
    ghost use Rattle.judged.specs.Freedoms.{is_by, freedom_name, freedom_named};

    /// Whether the answer of a drive to a line differs from the model's by this freedom alone.
    fn is_by(
        self,
        alloc: Global,
        asked: &[u8],
        heard: &[u8],
        wanted: &[u8],
        other: &[u8],
    ) -> Result<bool, AllocError>
        ensures { IfOk result (λ differs. differs
            ≡ is_by asked.now heard.now wanted.now other.now self) }
    {
        match self {
            Freedom::ErrorBits => Ok(differs_by_error_bits(heard, wanted)),
            Freedom::BlankSectors => Ok(differs_by_blanks(heard, wanted, other)),
            Freedom::VendorBytes => {
                Ok(asks_level0(asked) && differs_within(&VENDOR_SPANS, heard, wanted))
            }
            Freedom::Identity => Ok(
                asks_identity(asked)
                    && differs_within(&IDENTITY_SPANS, heard, wanted)
                    && line_adds_up(heard),
            ),
            Freedom::SessionNumbers => differs_by_number(alloc, heard, wanted),
            Freedom::ComIds => Ok(differs_by_com_ids(asked, heard, wanted)),
            Freedom::RandomBytes => Ok(differs_by_random(heard, wanted, other)),
            Freedom::Properties => differs_by_properties(alloc, heard, wanted),
        }
    }

    /// Its name.
    pub fn name(self) -> &'static [u8]
        ensures { result.now ≡ freedom_name self }
    {
        match self {
            Freedom::ErrorBits => b"error-bits",
            Freedom::BlankSectors => b"blank-sectors",
            Freedom::VendorBytes => b"vendor-bytes",
            Freedom::Identity => b"identity",
            Freedom::SessionNumbers => b"session-numbers",
            Freedom::ComIds => b"com-ids",
            Freedom::RandomBytes => b"random-bytes",
            Freedom::Properties => b"properties",
        }
    }

    /// The freedom of a name.
    pub fn named(name: &[u8]) -> Option<Freedom>
        ensures { result ≡ freedom_named name.now }
    {
        if name == b"error-bits".as_slice() {
            Some(Freedom::ErrorBits)
        } else if name == b"blank-sectors".as_slice() {
            Some(Freedom::BlankSectors)
        } else if name == b"vendor-bytes".as_slice() {
            Some(Freedom::VendorBytes)
        } else if name == b"identity".as_slice() {
            Some(Freedom::Identity)
        } else if name == b"session-numbers".as_slice() {
            Some(Freedom::SessionNumbers)
        } else if name == b"com-ids".as_slice() {
            Some(Freedom::ComIds)
        } else if name == b"random-bytes".as_slice() {
            Some(Freedom::RandomBytes)
        } else if name == b"properties".as_slice() {
            Some(Freedom::Properties)
        } else {
            None
        }
    }
}

/// Freedoms that are given.
#[derive(Drop)]
pub struct Freedoms {
    items: Vec<Freedom>,
}

impl Model for Freedoms {
    ghost use Rattle.std.specs.Prelude.{List};
    ghost use Rattle.judged.specs.declared.freedom.Freedom.{Freedom};

    ghost Value = { List Freedom };

    ghost view = { λ a. a.items.items };
}

/// What is wrong with the names of freedoms.
#[derive(Clone, Copy, Debug, PartialEq, Eq, Error)]
pub enum FreedomFault {
    #[error("out of memory")]
    OutOfMemory,
    #[error("--freedom is none of error-bits, blank-sectors, vendor-bytes, identity, session-numbers, com-ids, random-bytes and properties")]
    Unknown,
}

impl From<AllocError> for FreedomFault {
    ghost use Rattle.std.specs.Prelude.{◌≡◌};
    ghost use Rattle.judged.specs.declared.freedom.FreedomFault.TheVariants.{OutOfMemory};

    ghost from_gives = { λ _ error. error ≡ OutOfMemory };

    fn from(_error: AllocError) -> FreedomFault {
        FreedomFault::OutOfMemory
    }
}

impl Freedoms {
    ghost use Rattle.std.specs.Prelude.{◌≡◌, ◌≢◌, [], Some, None, map, IfOk, IfErr};
    ghost use Rattle.judged.specs.Freedoms.{freedom_between, freedoms_named, freedoms_asked, all_freedoms};
    ghost use Rattle.judged.specs.declared.freedom.FreedomFault.TheVariants.{OutOfMemory};

    /// None is given.
    fn none(alloc: Global) -> Freedoms
        ensures { result ≡ [] }
    {
        Freedoms {
            items: Vec::new(alloc),
        }
    }

    /// All are given.
    fn all(alloc: Global) -> Result<Freedoms, AllocError>
        ensures { IfOk result (λ freedoms. freedoms ≡ all_freedoms) }
    {
        let items = Vec::from_slice(alloc, &ALL_FREEDOMS)?;
        Ok(Freedoms { items })
    }

    /// Those of these names.
    fn named(alloc: Global, names: &[&str]) -> Result<Freedoms, FreedomFault>
        ensures read { IfOk result (λ freedoms. freedoms_named (map (λ s. s.now) names.now)
            ≡ Some freedoms) }
        ensures fault { IfErr result (λ fault. fault ≢ OutOfMemory
            → freedoms_named (map (λ s. s.now) names.now) ≡ None) }
    {
        let mut items = Vec::new(alloc);
        for name in names {
            let Some(freedom) = Freedom::named(name.as_bytes()) else {
                return Err(FreedomFault::Unknown);
            };
            if items.push(freedom).is_err() {
                return Err(FreedomFault::OutOfMemory);
            }
        }
        Ok(Freedoms { items })
    }

    /// Those that the words of a command line give: none where it is strict, or else those that are named, and all where none
    /// is.
    ///
    /// # Errors
    ///
    /// `Unknown` where a name is none of a freedom; `OutOfMemory`.
    pub fn asked(alloc: Global, strict: bool, names: &[&str]) -> Result<Freedoms, FreedomFault>
        ensures read { IfOk result (λ freedoms. freedoms_asked strict (map (λ s. s.now) names.now)
            ≡ Some freedoms) }
        ensures fault { IfErr result (λ fault. fault ≢ OutOfMemory
            → freedoms_asked strict (map (λ s. s.now) names.now) ≡ None) }
    {
        if strict {
            return Ok(Freedoms::none(alloc));
        }
        if names.is_empty() {
            return Ok(Freedoms::all(alloc)?);
        }
        Freedoms::named(alloc, names)
    }

    /// The first by which the answer of a drive to a line differs from the model's, which answers `other` if every write
    /// before writes another byte, and random bytes are others.
    #[tactic(auto, unfolding(crate::specs::Freedoms::freedom_between))]
    pub fn between(
        &self,
        alloc: Global,
        asked: &[u8],
        heard: &[u8],
        wanted: &[u8],
        other: &[u8],
    ) -> Result<Option<Freedom>, AllocError>
        ensures { IfOk result (λ freedom. freedom
            ≡ freedom_between self.now asked.now heard.now wanted.now other.now) }
    {
        for freedom in &self.items {
            if freedom.is_by(alloc, asked, heard, wanted, other)? {
                return Ok(Some(*freedom));
            }
        }
        Ok(None)
    }
}
