//! A turn over bytes that stand at an address.

ghost use Rattle.std.specs.Prelude.{◌≡◌};
ghost use Rattle.host_memory.specs.Window.{StandsSo};
ghost use Rattle.library_calls.specs.Over.{TurnsOver};
ghost use Rattle.library_calls.specs.Regions.{StandsWithin};

use crate::hba_calls::regions::{Region, Regions};
use hba::{Hba, Turned, Window};
use std::alloc::AllocError;

/// The controller does the work of this number, modulo how many there are, over a window.
fn turn_window(
    hba: &mut Hba,
    choice: usize,
    window: &mut Window<'_>,
) -> Result<Option<Turned>, AllocError>
    ensures { (window.new.base ≡ window.old.base)
        × (window.new.bytes.ghost_name ≡ window.old.bytes.ghost_name)
        × TurnsOver choice (StandsSo window.old.base) hba.old window.old.bytes.now hba.new
        window.new.bytes.now result }
{
    let turned = hba.turn(choice, window);
    turned
}

/// The controller does the work of this number, modulo how many there are, over the bytes that stand at a base address.
/// There is no other memory.
pub(crate) fn turn_over(
    hba: &mut Hba,
    choice: usize,
    base: u64,
    bytes: &mut [u8],
) -> Result<Option<Turned>, AllocError>
    ensures { TurnsOver choice (StandsSo base) hba.old bytes.old hba.new bytes.new result }
{
    let mut window = Window::new(base, bytes);
    let turned = turn_window(hba, choice, &mut window);
    turned
}

/// The controller does the work of this number, modulo how many there are, over the regions of a window.
fn turn_regions(
    hba: &mut Hba,
    choice: usize,
    memory: &mut Regions<'_, '_>,
) -> Result<Option<Turned>, AllocError>
    ensures { (memory.new.base ≡ memory.old.base)
        × (memory.new.bytes.ghost_name ≡ memory.old.bytes.ghost_name)
        × TurnsOver choice (StandsWithin memory.old.regions.now memory.old.base) hba.old
        memory.old.bytes.now hba.new memory.new.bytes.now result }
{
    let turned = hba.turn(choice, memory);
    turned
}

/// The same over the bytes that stand at a base address, of which those in the regions alone are memory.
pub(crate) fn turn_within(
    hba: &mut Hba,
    choice: usize,
    base: u64,
    bytes: &mut [u8],
    regions: &[Region],
) -> Result<Option<Turned>, AllocError>
    ensures { TurnsOver choice (StandsWithin regions.now base) hba.old bytes.old hba.new bytes.new
        result }
{
    let mut memory = Regions::new(base, bytes, regions);
    let turned = turn_regions(hba, choice, &mut memory);
    turned
}
