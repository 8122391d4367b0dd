//! The dump of looks.

ghost use Rattle.std.specs.Prelude.{◌≡◌, ◌++◌, OnOk, option_copied};
ghost use Rattle.hba_waves.specs.Signals.{signal_count};
ghost use Rattle.hba_waves.specs.Dumps.{signals_to, first_values_to, new_values_to, signals_head, start_values, start_text, later_text, look_text};

use crate::look::Look;
use crate::signal::{SIGNALS, signal_at, signal_bits, signal_name, signal_value};
use drawing::waveform::{
    append_changed, append_declaration, append_definitions_end, append_preamble, append_time,
    append_value, append_values_begin, append_values_end,
};
use std::alloc::{AllocError, Global};

/// Appends the declarations of all signals.
fn append_signals(alloc: Global, text: &mut Vec<u8>) -> Result<(), AllocError>
    ensures { OnOk result (text.new.items ≡ text.old.items ++ signals_to signal_count) }
{
    for place in 0..SIGNALS {
        let signal = signal_at(place);
        let name = signal_name(alloc, signal)?;
        append_declaration(alloc, text, usize::from(place), signal_bits(signal), &name)?;
    }
    Ok(())
}

/// Appends the values of all signals.
fn append_first_values(text: &mut Vec<u8>, look: &Look) -> Result<(), AllocError>
    ensures { OnOk result (text.new.items
        ≡ text.old.items ++ first_values_to look.now signal_count) }
{
    for place in 0..SIGNALS {
        let signal = signal_at(place);
        let value = signal_value(signal, look);
        append_value(text, usize::from(place), signal_bits(signal), value)?;
    }
    Ok(())
}

/// Appends the values of the signals that changed.
fn append_new_values(text: &mut Vec<u8>, before: &Look, look: &Look) -> Result<(), AllocError>
    ensures { OnOk result (text.new.items
        ≡ text.old.items ++ new_values_to before.now look.now signal_count) }
{
    for place in 0..SIGNALS {
        let signal = signal_at(place);
        let old = signal_value(signal, before);
        let new = signal_value(signal, look);
        append_changed(text, usize::from(place), signal_bits(signal), old, new)?;
    }
    Ok(())
}

/// Appends the declarations, with what stands around them.
#[tactic(auto, unfolding(crate::specs::Dumps::signals_head))]
fn append_head(alloc: Global, text: &mut Vec<u8>) -> Result<(), AllocError>
    ensures { OnOk result (text.new.items ≡ text.old.items ++ signals_head) }
{
    append_preamble(text)?;
    append_signals(alloc, text)?;
    append_definitions_end(text)?;
    Ok(())
}

/// Appends the values at time 0.
#[tactic(auto, unfolding(crate::specs::Dumps::start_values))]
fn append_first(text: &mut Vec<u8>, look: &Look) -> Result<(), AllocError>
    ensures { OnOk result (text.new.items ≡ text.old.items ++ start_values look.now) }
{
    append_values_begin(text)?;
    append_first_values(text, look)?;
    append_values_end(text)?;
    Ok(())
}

/// Appends a time, and what changed then.
fn append_moment(
    alloc: Global,
    text: &mut Vec<u8>,
    time: u64,
    before: &Look,
    look: &Look,
) -> Result<(), AllocError>
    ensures { OnOk result (text.new.items
        ≡ text.old.items ++ later_text time before.now look.now) }
{
    append_time(alloc, text, time)?;
    append_new_values(text, before, look)?;
    Ok(())
}

/// Appends the declarations, and what the first look shows.
#[tactic(auto, unfolding(crate::specs::Dumps::start_text))]
fn append_start(alloc: Global, text: &mut Vec<u8>, look: &Look) -> Result<(), AllocError>
    ensures { OnOk result (text.new.items ≡ text.old.items ++ start_text look.now) }
{
    append_head(alloc, text)?;
    append_first(text, look)?;
    Ok(())
}

/// Appends what a look at this time adds to a dump, behind what one showed before. The first look is that at time 0.
///
/// # Errors
///
/// An allocation was refused.
pub fn append_look(
    alloc: Global,
    text: &mut Vec<u8>,
    shown: Option<&Look>,
    time: u64,
    look: &Look,
) -> Result<(), AllocError>
    ensures { OnOk result (text.new.items
        ≡ text.old.items ++ look_text (option_copied shown.entry) time look.now) }
{
    match shown {
        None => append_start(alloc, text, look),
        Some(before) => append_moment(alloc, text, time, before, look),
    }
}
