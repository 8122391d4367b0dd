//! What follows from the definitions alone.

ghost use Rattle.hba_regs.specs.AccessTypes.{PortAccessLaw, PortFollowsLaw, PortPlaceLaw, PortOthersLaw, PortStartLaw};

/// Laws of the access types, over any registers and any written word (AHCI 1.3.1, section 3).
///
/// `access`: behind a write each bit of its register reads what the bit's type says: RO bits stay, RW bits are as
/// written, a written 1 clears an RWC bit, and sets an RW1 bit while ST is 1. `follows`: CR reads as ST, and FR as
/// FRE. `others`: a write leaves each other register, but for a written PxCMD, which ends the list of commands where
/// ST is 0 (`start`). `place`: each register stands at its offset.
pub fn laws_of_access()
    ensures access { PortAccessLaw }
    ensures follows { PortFollowsLaw }
    ensures others { PortOthersLaw }
    ensures start { PortStartLaw }
    ensures place { PortPlaceLaw }
{}
