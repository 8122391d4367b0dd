//! What the FISes of a device make of a port's registers (AHCI 1.3.1, 3.3 and 5.3).

ghost use Rattle.std.specs.Prelude.{◌≡◌};
ghost use Rattle.port_history.specs.Registers.{is_finished, carried, with_task, shown, all_shown, no_more_issued, raised};

use fis::{Fis, Tag};
use hba_regs::{PortRegs, PxIs};

/// BSY, DRQ and ERR of a status (ACS-3, Status field).
const UNFINISHED: u8 = 0x89;

/// ERR.
const ERROR: u8 = 0x01;

/// The bits of a status that a Set Device Bits FIS carries.
const CARRIED: u8 = 0x77;

/// The bits that it leaves.
const KEPT: u8 = 0x88;

/// Whether a command is done, by the status.
fn is_finished(status: u8) -> bool
    ensures { result ≡ is_finished status }
{
    status & UNFINISHED == 0
}

/// The status with the bits that a Set Device Bits FIS carries.
fn carried(before: u8, status: u8) -> u8
    ensures { result ≡ carried before status }
{
    before & KEPT | status & CARRIED
}

/// Raises bits of PxIS where a FIS asks for it.
fn raise_if(regs: &mut PortRegs, bits: PxIs, raises: bool)
    ensures { regs.new ≡ raised bits.0 raises regs.old }
{
    if raises {
        regs.raise(bits);
    }
}

/// A command that is done is issued no more.
fn end_if(regs: &mut PortRegs, tag: Tag, ends: bool)
    ensures { regs.new ≡ no_more_issued tag ends regs.old }
{
    if ends {
        regs.clear_issue(tag);
    }
}

/// PxTFD takes a status and an error; ERR raises TFES.
fn set_task(regs: &mut PortRegs, status: u8, error: u8)
    ensures { regs.new ≡ with_task status error regs.old }
{
    regs.set_task(status, error);
    raise_if(regs, PxIs::TFES, status % 2 == ERROR);
}

/// Shows a FIS of the drive for the command of a tag.
fn show(regs: &mut PortRegs, tag: Tag, fis: &Fis)
    ensures { regs.new ≡ shown tag regs.old fis.now }
{
    match *fis {
        Fis::H2d(_) => {}
        Fis::D2h(f) => {
            set_task(regs, f.status, f.error);
            raise_if(regs, PxIs::DHRS, f.interrupt);
            end_if(regs, tag, is_finished(f.status));
        }
        Fis::PioSetup(f) => {
            set_task(regs, f.end_status, f.error);
            raise_if(regs, PxIs::PSS, f.interrupt);
            end_if(regs, tag, f.to_host && is_finished(f.end_status));
        }
        Fis::DmaSetup(f) => raise_if(regs, PxIs::DSS, f.interrupt),
        Fis::SetDeviceBits(f) => {
            let status = carried(regs.status(), f.status.bits());
            set_task(regs, status, f.error);
            raise_if(regs, PxIs::SDBS, f.interrupt);
            regs.clear_active(f.active);
        }
    }
}

/// Shows FISes in their order.
pub fn show_all(regs: &mut PortRegs, tag: Tag, fises: &[Fis])
    ensures { regs.new ≡ all_shown tag regs.old fises.now }
{
    for fis in fises {
        show(regs, tag, fis);
    }
}
