//! Facts that follow from single clauses of the laws of `headline`, of `history` and of `port_history`, those laws' clauses as
//! these crates say them, and numbers of the standards that no other law says.

mod standing;

ghost use Rattle.std.specs.Prelude.{◌≡◌, true, false};
ghost use Rattle.port_history.specs.Registers.{carried, is_finished};

pub use standing::{deeds_stand, kept_stands, steps_stand, transfers_stand};

/// A Set Device Bits FIS carries bits 6 to 4 and 2 to 0 of the status, and leaves BSY and DRQ (Serial ATA, Set Device Bits
/// FIS; AHCI 1.3.1, 5.3); a command is not finished while BSY, DRQ or ERR is 1 (ACS-3, Status field).
pub fn laws_of_status()
    ensures none { carried 0x00 0xff ≡ 0x77 }
    ensures all { carried 0xff 0x00 ≡ 0x88 }
    ensures drq { carried 0x58 0x40 ≡ 0x48 }
    ensures ready { is_finished 0x50 ≡ true }
    ensures data { is_finished 0x58 ≡ false }
    ensures busy { is_finished 0xd0 ≡ false }
    ensures failed { is_finished 0x51 ≡ false }
{}
