//! A signal of a dump.

ghost use Rattle.std.specs.Prelude.{◌≡◌, IfOk, option_copied};
ghost use Rattle.pictures.specs.Waves.{wave_at, wave_word, wave_number, wave_name, wave_bits, flag_value, stage_value, locks_value, held_value, register_value, port_value, wave_value};

use crate::samples::{Locks, Registers, Sample, numbered_name};
use port::Stage;
use sp_cells::Sp;
use std::alloc::{AllocError, Global};

/// A signal of a dump.
#[derive(Clone, Copy, Debug, PartialEq, Eq)]
pub enum Wave {
    /// PxCI.
    Issued,
    /// PxSACT.
    Active,
    /// PxIS.
    Interrupts,
    /// PxIE.
    Enabled,
    /// PxTFD.
    Task,
    /// PxCMD.
    Command,
    /// Whether the port interrupts.
    Interrupt,
    /// Whether the queue has failed.
    Failure,
    /// Whether a session of a security provider lives.
    Session(Sp),
    /// Whether a transaction is open on a security provider.
    Transaction(Sp),
    /// Whether the shadow MBR is up.
    Shadow,
    /// Whether the drive holds a command under this tag.
    Held(u8),
    /// The stage of the slot of this tag.
    Slot(u8),
    /// The locks of the range of this number; 0 is the global range.
    Range(u8),
}

/// How many signals there are.
pub(crate) const WAVES: u8 = 94;

/// The signal of a place.
pub fn wave_at(place: u8) -> Wave
    ensures { result ≡ wave_at place }
{
    match place {
        0 => Wave::Issued,
        1 => Wave::Active,
        2 => Wave::Interrupts,
        3 => Wave::Enabled,
        4 => Wave::Task,
        5 => Wave::Command,
        6 => Wave::Interrupt,
        7 => Wave::Failure,
        8 => Wave::Session(Sp::Admin),
        9 => Wave::Session(Sp::Locking),
        10 => Wave::Transaction(Sp::Admin),
        11 => Wave::Transaction(Sp::Locking),
        12 => Wave::Shadow,
        13..=44 => Wave::Held(place - 13),
        45..=76 => Wave::Slot(place - 45),
        _ => Wave::Range(place - 77),
    }
}

/// The word of a signal's name.
#[tactic(auto, unfolding(crate::specs::Waves::wave_word))]
fn wave_word(wave: Wave) -> &'static [u8]
    ensures { result.now ≡ wave_word wave }
{
    match wave {
        Wave::Issued => b"PxCI",
        Wave::Active => b"PxSACT",
        Wave::Interrupts => b"PxIS",
        Wave::Enabled => b"PxIE",
        Wave::Task => b"PxTFD",
        Wave::Command => b"PxCMD",
        Wave::Interrupt => b"interrupt",
        Wave::Failure => b"queue_failed",
        Wave::Session(Sp::Admin) => b"admin_session",
        Wave::Session(Sp::Locking) => b"locking_session",
        Wave::Transaction(Sp::Admin) => b"admin_transaction",
        Wave::Transaction(Sp::Locking) => b"locking_transaction",
        Wave::Shadow => b"shadow",
        Wave::Held(_) => b"held",
        Wave::Slot(_) => b"slot",
        Wave::Range(_) => b"range",
    }
}

/// The number behind the word.
fn wave_number(wave: Wave) -> Option<u8>
    ensures { result ≡ wave_number wave }
{
    match wave {
        Wave::Held(tag) => Some(tag),
        Wave::Slot(tag) => Some(tag),
        Wave::Range(range) => Some(range),
        _ => None,
    }
}

/// The name of a signal.
///
/// # Errors
///
/// An allocation was refused.
pub fn wave_name(alloc: Global, wave: Wave) -> Result<Vec<u8>, AllocError>
    ensures { IfOk result (λ name. name.items ≡ wave_name wave) }
{
    numbered_name(alloc, wave_word(wave), wave_number(wave))
}

/// How many bits a signal has.
pub fn wave_bits(wave: Wave) -> u8
    ensures { result ≡ wave_bits wave }
{
    match wave {
        Wave::Issued
        | Wave::Active
        | Wave::Interrupts
        | Wave::Enabled
        | Wave::Task
        | Wave::Command => 32,
        Wave::Slot(_) => 3,
        Wave::Range(_) => 2,
        _ => 1,
    }
}

/// The value of a flag.
fn flag_value(holds: bool) -> u64
    ensures { result ≡ flag_value holds }
{
    if holds { 1 } else { 0 }
}

/// The value of a stage.
fn stage_value(stage: Option<&Stage>) -> u64
    ensures { result ≡ stage_value (option_copied stage.entry) }
{
    match stage {
        Some(Stage::Free) | None => 0,
        Some(Stage::Prepared(_)) => 1,
        Some(Stage::Issued(_)) => 2,
        Some(Stage::Accepted(_)) => 3,
        Some(Stage::Answered(_)) => 4,
    }
}

/// The value of the locks of a range.
fn locks_value(locks: Option<&Locks>) -> u64
    ensures { result ≡ locks_value (option_copied locks.entry) }
{
    match locks {
        Some(locks) => flag_value(locks.read) + 2 * flag_value(locks.write),
        None => 0,
    }
}

/// The value of what a tag holds.
fn held_value(held: Option<&bool>) -> u64
    ensures { result ≡ held_value (option_copied held.entry) }
{
    match held {
        Some(holds) => flag_value(*holds),
        None => 0,
    }
}

/// The value of a register.
fn register_value(wave: Wave, registers: &Registers) -> u64
    ensures { result ≡ register_value wave registers.now }
{
    match wave {
        Wave::Issued => u64::from(registers.issued),
        Wave::Active => u64::from(registers.active),
        Wave::Interrupts => u64::from(registers.interrupts),
        Wave::Enabled => u64::from(registers.enabled),
        Wave::Task => u64::from(registers.task),
        Wave::Command => u64::from(registers.command),
        Wave::Interrupt => flag_value(registers.interrupts & registers.enabled != 0),
        _ => 0,
    }
}

/// The value of a register, where there are some.
fn port_value(wave: Wave, registers: Option<Registers>) -> u64
    ensures { result ≡ port_value wave registers }
{
    match registers {
        Some(registers) => register_value(wave, &registers),
        None => 0,
    }
}

/// The value of a signal in a sample.
pub fn wave_value(wave: Wave, sample: &Sample) -> u64
    ensures { result ≡ wave_value wave sample.now }
{
    match wave {
        Wave::Failure => flag_value(sample.has_failed()),
        Wave::Session(sp) => flag_value(sample.calls(sp).session),
        Wave::Transaction(sp) => flag_value(sample.calls(sp).transaction),
        Wave::Shadow => flag_value(sample.is_shadow_up()),
        Wave::Held(tag) => held_value(sample.held().get(usize::from(tag))),
        Wave::Slot(tag) => stage_value(sample.slots().get(usize::from(tag))),
        Wave::Range(range) => locks_value(sample.locks().get(usize::from(range))),
        _ => port_value(wave, sample.registers()),
    }
}
