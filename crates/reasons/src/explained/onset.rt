//! Since when something holds: the opening of the drive, or an act.

ghost use Rattle.std.specs.Prelude.{◌≡◌};
ghost use Rattle.compacket.specs.Frames.{reading as frame_in};
ghost use Rattle.reasons.specs.Onsets.{is_end_of_transaction, carries_reset, cause_of_frame, cause_in, onset_after};

use basics::Profile;
use compacket::open;
use fis::RegH2d;
use trusted_cmds::{is_programmatic_reset, of_fis};

/// The token that ends a transaction (TCG Core 2.01, 3.2.2.4).
const END_OF_TRANSACTION: u8 = 0xfc;

/// The empty token, which may stand before any other.
const EMPTY: u8 = 0xff;

/// The number of the reset by a command (TCG Core 2.01, 5.1.3, reset_types).
const PROGRAMMATIC: u8 = 3;

/// Where an act comes from: the line of a script, and the client.
#[derive(Clone, Copy, Debug, PartialEq, Eq)]
pub struct Source {
    pub line: u64,
    pub client: u32,
}

/// By what an act brings something into force.
#[derive(Clone, Copy, Debug, PartialEq, Eq)]
pub enum Cause {
    /// A call in the session of this number.
    SetIn(u32),
    /// The end of a transaction in the session of this number.
    CommittedIn(u32),
    /// A reset of this kind: 0 a power cycle, 1 a hardware reset, 3 one by a command.
    ResetBy(u8),
    /// None: a completion brings nothing into force, nor does what is no frame.
    NoCause,
}

/// What the numbers of onsets count.
#[derive(Clone, Copy, Debug, PartialEq, Eq)]
pub enum Counted {
    /// The acts of a drive.
    Acts,
    /// The steps of a port.
    Steps,
}

/// Since when something holds without a break.
#[derive(Clone, Copy, Debug, PartialEq, Eq)]
pub enum Onset {
    AtOpening,
    /// The act of this number, counted from 1; behind a port the step.
    AtAct {
        number: u64,
        source: Source,
        cause: Cause,
    },
}

/// Whether these tokens end a transaction.
fn is_end_of_transaction(tokens: &[u8]) -> bool
    ensures { result ≡ is_end_of_transaction tokens.now }
{
    for byte in tokens {
        if *byte != EMPTY {
            return *byte == END_OF_TRANSACTION;
        }
    }
    false
}

/// Whether a FIS carries the command that resets the drive, TPER_RESET.
fn carries_reset(h: &RegH2d) -> bool
    ensures { result ≡ carries_reset h.now }
{
    match of_fis(Profile::Base, h) {
        Ok((command, _)) => is_programmatic_reset(&command),
        Err(_) => false,
    }
}

/// By what a payload can bring something into force, if it is a frame.
fn cause_of_frame(payload: &[u8]) -> Cause
    ensures { result ≡ cause_of_frame (frame_in payload.now) }
{
    match open(payload) {
        Ok(frame) if is_end_of_transaction(frame.payload) => Cause::CommittedIn(frame.session.tsn),
        Ok(frame) => Cause::SetIn(frame.session.tsn),
        Err(_) => Cause::NoCause,
    }
}

/// By what the command of a FIS with this payload can bring something into force.
pub fn cause_in(h: &RegH2d, payload: &[u8]) -> Cause
    ensures { result ≡ cause_in h.now (frame_in payload.now) }
{
    if carries_reset(h) {
        Cause::ResetBy(PROGRAMMATIC)
    } else {
        cause_of_frame(payload)
    }
}

/// Since when something holds, that held since `before` and holds now or not.
pub(crate) fn onset_after(before: Option<Onset>, holds: bool, now: Onset) -> Option<Onset>
    ensures { result ≡ onset_after before holds now }
{
    if !holds {
        return None;
    }
    match before {
        Some(onset) => Some(onset),
        None => Some(now),
    }
}
