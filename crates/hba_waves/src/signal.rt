//! A signal of a controller's dump.

ghost use Rattle.std.specs.Prelude.{◌≡◌, ◌<◌, IfOk};
ghost use Rattle.hba_waves.specs.Signals.{signal_at, signal_count, register_name, signal_name, signal_bits, word_value, signal_value};

use crate::look::Look;
use crate::words::Words;
use pictures::waved::{Wave, wave_at, wave_bits, wave_name, wave_value};
use std::alloc::{AllocError, Global};

/// A signal of a controller's dump.
#[derive(Clone, Copy, Debug, PartialEq, Eq)]
pub enum Signal {
    /// GHC.
    Control,
    /// IS.
    Pending,
    /// PxIS.
    Interrupts,
    /// PxIE.
    Enabled,
    /// PxCMD.
    Command,
    /// PxTFD.
    Task,
    /// PxSIG.
    Signature,
    /// PxSSTS.
    Link,
    /// PxSERR.
    Errors,
    /// PxSACT.
    Active,
    /// PxCI.
    Issued,
    /// The interrupt line.
    Line,
    /// What the drive behind it shows.
    Drive(Wave),
}

/// How many signals there are.
pub const SIGNALS: u8 = 67;

/// The signal of a place.
pub fn signal_at(place: u8) -> Signal
    requires { place < signal_count }
    ensures { result ≡ signal_at place }
{
    match place {
        0 => Signal::Control,
        1 => Signal::Pending,
        2 => Signal::Interrupts,
        3 => Signal::Enabled,
        4 => Signal::Command,
        5 => Signal::Task,
        6 => Signal::Signature,
        7 => Signal::Link,
        8 => Signal::Errors,
        9 => Signal::Active,
        10 => Signal::Issued,
        11 => Signal::Line,
        12..=49 => Signal::Drive(wave_at(place - 5)),
        _ => Signal::Drive(wave_at(place + 27)),
    }
}

/// The name of a register, or of the interrupt line.
#[tactic(auto, unfolding(crate::specs::Signals::register_name))]
fn register_name(signal: Signal) -> &'static [u8]
    ensures { result.now ≡ register_name signal }
{
    match signal {
        Signal::Issued => b"PxCI",
        Signal::Active => b"PxSACT",
        Signal::Interrupts => b"PxIS",
        Signal::Enabled => b"PxIE",
        Signal::Task => b"PxTFD",
        Signal::Command => b"PxCMD",
        Signal::Link => b"PxSSTS",
        Signal::Errors => b"PxSERR",
        Signal::Signature => b"PxSIG",
        Signal::Control => b"GHC",
        Signal::Pending => b"IS",
        Signal::Line => b"interrupt",
        Signal::Drive(_) => b"",
    }
}

/// The name of a signal.
///
/// # Errors
///
/// An allocation was refused.
pub fn signal_name(alloc: Global, signal: Signal) -> Result<Vec<u8>, AllocError>
    ensures { IfOk result (λ name. name.items ≡ signal_name signal) }
{
    if let Signal::Drive(wave) = signal {
        return wave_name(alloc, wave);
    }
    Vec::from_slice(alloc, register_name(signal))
}

/// How many bits a signal has.
pub fn signal_bits(signal: Signal) -> u8
    ensures { result ≡ signal_bits signal }
{
    match signal {
        Signal::Drive(wave) => wave_bits(wave),
        Signal::Line => 1,
        _ => 32,
    }
}

/// The value of a register.
fn word_value(signal: Signal, words: &Words) -> u32
    ensures { result ≡ word_value signal words.now }
{
    match signal {
        Signal::Issued => words.issued,
        Signal::Active => words.active,
        Signal::Interrupts => words.interrupts,
        Signal::Enabled => words.enabled,
        Signal::Task => words.task,
        Signal::Command => words.command,
        Signal::Link => words.link,
        Signal::Errors => words.errors,
        Signal::Signature => words.signature,
        Signal::Control => words.control,
        Signal::Pending => words.pending,
        Signal::Line | Signal::Drive(_) => 0,
    }
}

/// The value of a signal in a look.
pub fn signal_value(signal: Signal, look: &Look) -> u64
    ensures { result ≡ signal_value signal look.now }
{
    match signal {
        Signal::Drive(wave) => wave_value(wave, &look.drive),
        Signal::Line => u64::from(look.line),
        _ => u64::from(word_value(signal, &look.words)),
    }
}
