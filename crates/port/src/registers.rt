//! The registers, as the FISes of the drive leave them (AHCI 1.3.1, 3.3 and 5.3).

ghost use Rattle.std.specs.Prelude.{◌≡◌, ◌&&◌, not};
ghost use Rattle.port_history.specs.Registers.{all_shown, restarted, restarted_if, reset_regs};

use fis::{Fis, Tag};
use hba_regs::PortRegs;
use port_history::show_all;

/// The status of a device that is ready.
const READY: u8 = 0x50;

/// The port stops and starts.
pub(crate) fn restart(regs: &mut PortRegs)
    ensures { regs.new ≡ restarted regs.old }
{
    regs.stop();
    regs.start();
}

/// Shows the FISes that answer a command; the port stops and starts after one that is not queued has failed.
pub(crate) fn show_answer(
    regs: &mut PortRegs,
    tag: Tag,
    queued: bool,
    has_failed: bool,
    fises: &[Fis],
)
    ensures { regs.new ≡ restarted_if (not queued && has_failed)
        (all_shown tag regs.old fises.now) }
{
    show_all(regs, tag, fises);
    if !queued && has_failed {
        restart(regs);
    }
}

/// The registers after a reset: the device is ready.
pub(crate) fn reset(regs: &mut PortRegs)
    ensures { regs.new ≡ reset_regs regs.old }
{
    restart(regs);
    regs.set_task(READY, 0);
}
