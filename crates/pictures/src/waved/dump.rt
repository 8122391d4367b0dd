//! The dump of frames.

ghost use Rattle.std.specs.Prelude.{◌≡◌, ◌++◌, OnOk, option_copied};
ghost use Rattle.pictures.specs.Waves.{wave_count};
ghost use Rattle.pictures.specs.Dumps.{declared_to, values_to, changes_to, dump_head, first_text, opening_text, moment_text, frame_text};

use crate::samples::{Frame, Sample};
use crate::waved::wave::{WAVES, wave_at, wave_bits, wave_name, wave_value};
use drawing::waveform::{
    append_changed, append_declaration, append_definitions_end, append_preamble, append_time,
    append_value, append_values_begin, append_values_end,
};
use std::alloc::{AllocError, Global};

/// Appends the declarations of all signals.
fn append_declared(alloc: Global, text: &mut Vec<u8>) -> Result<(), AllocError>
    ensures { OnOk result (text.new.items ≡ text.old.items ++ declared_to wave_count) }
{
    for place in 0..WAVES {
        let wave = wave_at(place);
        let name = wave_name(alloc, wave)?;
        append_declaration(alloc, text, usize::from(place), wave_bits(wave), &name)?;
    }
    Ok(())
}

/// Appends the values of all signals.
fn append_values(text: &mut Vec<u8>, sample: &Sample) -> Result<(), AllocError>
    ensures { OnOk result (text.new.items ≡ text.old.items ++ values_to sample.now wave_count) }
{
    for place in 0..WAVES {
        let wave = wave_at(place);
        let value = wave_value(wave, sample);
        append_value(text, usize::from(place), wave_bits(wave), value)?;
    }
    Ok(())
}

/// Appends the values of the signals that changed.
fn append_changes(text: &mut Vec<u8>, before: &Sample, sample: &Sample) -> Result<(), AllocError>
    ensures { OnOk result (text.new.items
        ≡ text.old.items ++ changes_to before.now sample.now wave_count) }
{
    for place in 0..WAVES {
        let wave = wave_at(place);
        let old = wave_value(wave, before);
        let new = wave_value(wave, sample);
        append_changed(text, usize::from(place), wave_bits(wave), old, new)?;
    }
    Ok(())
}

/// Appends the declarations, with what stands around them.
#[tactic(auto, unfolding(crate::specs::Dumps::dump_head))]
fn append_head(alloc: Global, text: &mut Vec<u8>) -> Result<(), AllocError>
    ensures { OnOk result (text.new.items ≡ text.old.items ++ dump_head) }
{
    append_preamble(text)?;
    append_declared(alloc, text)?;
    append_definitions_end(text)?;
    Ok(())
}

/// Appends the values at time 0.
#[tactic(auto, unfolding(crate::specs::Dumps::first_text))]
fn append_first(text: &mut Vec<u8>, sample: &Sample) -> Result<(), AllocError>
    ensures { OnOk result (text.new.items ≡ text.old.items ++ first_text sample.now) }
{
    append_values_begin(text)?;
    append_values(text, sample)?;
    append_values_end(text)?;
    Ok(())
}

/// Appends a time, and what changed then.
fn append_moment(
    alloc: Global,
    text: &mut Vec<u8>,
    time: u64,
    before: &Sample,
    sample: &Sample,
) -> Result<(), AllocError>
    ensures { OnOk result (text.new.items
        ≡ text.old.items ++ moment_text time before.now sample.now) }
{
    append_time(alloc, text, time)?;
    append_changes(text, before, sample)?;
    Ok(())
}

/// Appends the declarations, and what the opening shows.
#[tactic(auto, unfolding(crate::specs::Dumps::opening_text))]
fn append_opening(alloc: Global, text: &mut Vec<u8>, sample: &Sample) -> Result<(), AllocError>
    ensures { OnOk result (text.new.items ≡ text.old.items ++ opening_text sample.now) }
{
    append_head(alloc, text)?;
    append_first(text, sample)?;
    Ok(())
}

/// Appends what a frame adds to the dump of a run, behind what a look showed before. The first frame shows the opening.
///
/// # Errors
///
/// An allocation was refused.
pub fn append_frame(
    alloc: Global,
    text: &mut Vec<u8>,
    shown: Option<&Sample>,
    frame: &Frame,
) -> Result<(), AllocError>
    ensures { OnOk result (text.new.items
        ≡ text.old.items ++ frame_text (option_copied shown.entry) frame.now) }
{
    match shown {
        None => append_opening(alloc, text, &frame.sample),
        Some(before) => append_moment(alloc, text, frame.number, before, &frame.sample),
    }
}
