//! The registers, as the host reads and writes them (AHCI 1.3.1, section 3).

ghost use Rattle.std.specs.Prelude.{◌≡◌, ◌≤◌, ◌+◌, ◌*◌, ℕ};
ghost use Rattle.hba.specs.Registers.{capabilities, upper_written, fresh_port, is_up, speed_by, link_word};

use fis::Tag;
use hba_regs::{PortRegs, PxIs, Register};
use host_memory::AddressWidth;

/// CAP, where addresses are below 4 GiB, and with S64A.
const CAPABILITIES: u32 = 0x4124_9f00;

const WIDE_CAPABILITIES: u32 = 0xc124_9f00;

/// What a 1 in the upper half of an address counts.
const UPPER: u64 = 0x1_0000_0000;

/// GHC.HR, IE and AE.
const RESET: u32 = 0x1;

const ENABLE: u32 = 0x2;

const AHCI: u32 = 0x8000_0000;

/// VS.
const VERSION: u32 = 0x0001_0301;

/// Where the port's registers stand.
const PORT: u32 = 0x100;

/// PxIS.PCS and PRCS.
const CHANGE: u32 = 0x0000_0040;

const PHY_CHANGE: u32 = 0x0040_0000;

/// The bits of PxIE: those of PxIS that there are.
const ENABLED: u32 = 0x7dc0_007f;

/// PxCMD.FRE.
const RECEIVE: u32 = 0x10;

/// PxCMD.SUD and POD, CLO.
const POWER: u32 = 0x6;

const OVERRIDE: u32 = 0x8;

/// PxCMD.ATAPI and DLAE.
const PACKET: u32 = 0x0100_0000;

const LIGHT: u32 = 0x0200_0000;

/// BSY and DRQ.
const BUSY: u8 = 0x88;

/// The bits of a status but BSY and DRQ.
const IDLE: u8 = 0x77;

/// The status while the link is down.
const UNKNOWN: u8 = 0x7f;

/// The status of a device that the link has come up to, and that has not told its own: BSY.
pub(crate) const AWAITED: u8 = 0x80;

/// PxSIG of a disk, and before the device's first FIS.
const SIGNATURE: u32 = 0x101;

const NO_SIGNATURE: u32 = 0xffff_ffff;

/// PxSSTS with the link up, without its speed.
const LINK: u32 = 0x103;

/// The second generation's speed, as CAP has it.
const FASTEST: u8 = 2;

/// The bits that PxSCTL keeps.
const CONTROL: u32 = 0xfff;

/// PxSERR.DIAG.X and N.
const EXCHANGE: u32 = 0x0400_0000;

const PHY_ERROR: u32 = 0x0001_0000;

/// The offsets of registers in the port's block.
const PX_CLB: u32 = 0x00;

const PX_FB: u32 = 0x08;

const PX_IS: u32 = 0x10;

const PX_IE: u32 = 0x14;

const PX_CMD: u32 = 0x18;

const PX_SCTL: u32 = 0x2c;

const PX_SACT: u32 = 0x34;

const PX_CI: u32 = 0x38;

/// The registers of the HBA and of its port.
#[derive(Drop)]
pub struct Registers {
    /// How many bits addresses have: CAP.S64A.
    pub(crate) width: AddressWidth,
    pub(crate) port: PortRegs,
    /// PxCLBU and PxFBU.
    pub(crate) list_upper: u32,
    pub(crate) fis_upper: u32,
    /// GHC.IE.
    pub(crate) interrupts_enabled: bool,
    /// IS.IPS of the port.
    pub(crate) is_raised: bool,
    /// The device's signature has come.
    pub(crate) is_signed: bool,
    /// PxSERR.DIAG.X, and so PxIS.PCS.
    pub(crate) is_exchanged: bool,
    /// PxSERR.DIAG.N, and so PxIS.PRCS.
    pub(crate) has_phy_changed: bool,
    /// PxCMD.CCS.
    pub(crate) current: Tag,
    /// A status with ERR or a fault of memory came: nothing more is fetched until ST is cleared.
    pub(crate) is_halted: bool,
    /// PxCMD.ATAPI.
    pub(crate) is_packet: bool,
    /// PxCMD.DLAE.
    pub(crate) has_light: bool,
    /// PxSSTS.SPD, while the link is up.
    pub(crate) speed: u8,
    /// The device's SRST is set.
    pub(crate) in_reset: bool,
}

/// CAP.
fn capabilities(width: AddressWidth) -> u32
    ensures { result ≡ capabilities width }
{
    match width {
        AddressWidth::Bits32 => CAPABILITIES,
        AddressWidth::Bits64 => WIDE_CAPABILITIES,
    }
}

/// The upper half of an address behind a write.
fn upper_written(width: AddressWidth, before: u32, value: u32) -> u32
    ensures { result ≡ upper_written width before value }
{
    match width {
        AddressWidth::Bits32 => before,
        AddressWidth::Bits64 => value,
    }
}

/// Whether the link is up, by PxSCTL.
fn is_up(control: u32) -> bool
    ensures { result ≡ is_up control }
{
    control % 16 == 0
}

/// The speed that the link comes up with, by PxSCTL.
fn speed_by(control: u32) -> u8
    ensures { result ≡ speed_by control }
{
    if control / 16 % 16 == 1 { 1 } else { FASTEST }
}

/// PxSSTS, by its speed and PxSCTL.
fn link_word(speed: u8, control: u32) -> u32
    ensures { result ≡ link_word speed control }
{
    if is_up(control) {
        LINK + 16 * u32::from(speed)
    } else if control % 16 == 4 {
        4
    } else {
        0
    }
}

/// The port's registers after power on.
fn fresh_port() -> PortRegs
    ensures { result ≡ fresh_port }
{
    let mut port = PortRegs::new();
    let _ = port.write(PX_FB, 0);
    let _ = port.write(PX_CMD, 0);
    port.set_task(AWAITED, 0);
    port
}

impl Registers {
    ghost use Rattle.std.specs.Prelude.{◌≡◌, unwrap_or};
    ghost use Rattle.hba.specs.Ready.{is_working, is_telling, may_sign, may_fetch, may_complete, fetchable, completable};
    ghost use Rattle.hba_regs.specs.Registers.{register_at, word_at as port_word_at, written_at as port_written_at};
    ghost use Rattle.hba_regs.specs.declared.register.Register.TheVariants as registers;
    ghost use Rattle.hba.specs.Engine.{fises_at};
    ghost use Rattle.host_memory.specs.Memory.{upper_half};
    ghost use Rattle.hba.specs.Registers.{reset_registers, word_at, generic_word, port_word, port_word_of, interrupts, asks, noted, line, overridden, optioned, stopped_if, lost_if, found_if, goes_down, comes_up, port_written, port_written_of, after_hba_reset, generic_written, written_at, write_resets};

    /// After power on: the port is stopped, and the link has come up.
    pub fn new(width: AddressWidth) -> Registers
        ensures { result ≡ reset_registers width }
    {
        Registers {
            width,
            port: fresh_port(),
            list_upper: 0,
            fis_upper: 0,
            interrupts_enabled: false,
            is_raised: false,
            is_signed: false,
            is_exchanged: true,
            has_phy_changed: true,
            current: Tag::low_bits(0),
            is_halted: false,
            is_packet: false,
            has_light: false,
            speed: FASTEST,
            in_reset: false,
        }
    }

    /// The same registers once more.
    pub(crate) fn copy(&self) -> Registers
        ensures { result ≡ self.now }
    {
        Registers {
            width: self.width,
            port: self.port.copy(),
            list_upper: self.list_upper,
            fis_upper: self.fis_upper,
            interrupts_enabled: self.interrupts_enabled,
            is_raised: self.is_raised,
            is_signed: self.is_signed,
            is_exchanged: self.is_exchanged,
            has_phy_changed: self.has_phy_changed,
            current: self.current,
            is_halted: self.is_halted,
            is_packet: self.is_packet,
            has_light: self.has_light,
            speed: self.speed,
            in_reset: self.in_reset,
        }
    }

    /// A word of the port's own registers, 0 where none stands.
    fn kept_word(&self, offset: u32) -> u32
        ensures { result ≡ unwrap_or (port_word_at self.now.port offset) 0 }
    {
        self.port.read(offset).unwrap_or(0)
    }

    /// How many bits addresses have.
    pub(crate) fn width(&self) -> AddressWidth
        ensures { result ≡ self.now.width }
    {
        self.width
    }

    /// PxCLB and PxCLBU.
    pub(crate) fn list_base(&self) -> u64
        ensures { result ≡ self.now.port.list_base + upper_half self.now.list_upper }
    {
        u64::from(self.kept_word(PX_CLB)) + UPPER * u64::from(self.list_upper)
    }

    /// PxFB and PxFBU.
    fn fis_base(&self) -> u64
        ensures { result ≡ self.now.port.fis_base + upper_half self.now.fis_upper }
    {
        u64::from(self.kept_word(PX_FB)) + UPPER * u64::from(self.fis_upper)
    }

    /// Whether a bit of PxCMD is set.
    #[tactic(auto, using(crate::proofs::Words::starts, crate::proofs::Words::receives))]
    pub(crate) fn is_running(&self) -> bool
        ensures { result ≡ self.now.port.running }
    {
        self.kept_word(PX_CMD) & 1 == 1
    }

    #[tactic(auto, using(crate::proofs::Words::starts, crate::proofs::Words::receives))]
    pub(crate) fn is_receiving(&self) -> bool
        ensures { result ≡ self.now.port.receiving }
    {
        self.kept_word(PX_CMD) & RECEIVE == RECEIVE
    }

    /// Where received FISes go: at PxFB and PxFBU, while FRE is set.
    pub(crate) fn received_at(&self) -> Option<u64>
        ensures { result ≡ fises_at self.now }
    {
        if self.is_receiving() {
            Some(self.fis_base())
        } else {
            None
        }
    }

    /// Whether commands are taken: ST and FRE are set, no error halts the port, and the link is up.
    fn is_working(&self) -> bool
        ensures { result ≡ is_working self.now }
    {
        self.is_running()
            && self.is_receiving()
            && !self.is_halted
            && is_up(self.kept_word(PX_SCTL))
    }

    /// Whether the device tells what it has done: commands are taken, and it is not in reset.
    fn is_telling(&self) -> bool
        ensures { result ≡ is_telling self.now }
    {
        self.is_working() && !self.in_reset
    }

    /// Whether the signature can be told.
    pub(crate) fn may_sign(&self) -> bool
        ensures { result ≡ may_sign self.now }
    {
        self.is_receiving() && is_up(self.kept_word(PX_SCTL)) && !self.is_signed
    }

    /// The tags whose commands can be fetched, a bit for each.
    pub(crate) fn fetchable(&self) -> u32
        ensures { result ≡ fetchable self.now }
    {
        if self.is_working() && self.port.status() & BUSY == 0 {
            self.kept_word(PX_CI)
        } else {
            0
        }
    }

    /// The tags whose commands can be completed, if the drive holds them, a bit for each.
    pub(crate) fn completable(&self) -> u32
        ensures { result ≡ completable self.now }
    {
        if self.is_telling() {
            self.kept_word(PX_SACT)
        } else {
            0
        }
    }

    /// Whether the command of a tag can be fetched.
    pub(crate) fn may_fetch(&self, tag: Tag) -> bool
        ensures { result ≡ may_fetch self.now tag }
    {
        let bit = 1 << tag.number();
        self.is_working() && self.kept_word(PX_CI) & bit == bit && self.port.status() & BUSY == 0
    }

    /// Whether the command of a tag can be completed, if the drive holds it.
    pub(crate) fn may_complete(&self, tag: Tag) -> bool
        ensures { result ≡ may_complete self.now tag }
    {
        let bit = 1 << tag.number();
        self.is_telling() && self.kept_word(PX_SACT) & bit == bit
    }

    /// PxIS.
    fn interrupts(&self) -> u32
        ensures { result ≡ interrupts self.now }
    {
        let change = if self.is_exchanged { CHANGE } else { 0 };
        let phy = if self.has_phy_changed { PHY_CHANGE } else { 0 };
        self.kept_word(PX_IS) | change | phy
    }

    /// PxCMD.
    #[tactic(auto, using(crate::proofs::Words::command_word_fits))]
    fn command(&self) -> u32
        ensures { result ≡ port_word self.now registers.Command }
    {
        self.kept_word(PX_CMD)
            + POWER
            + 256 * u32::from(self.current.number())
            + PACKET * u32::from(self.is_packet)
            + LIGHT * u32::from(self.has_light)
    }

    /// PxSERR.
    fn link_errors(&self) -> u32
        ensures { result ≡ port_word self.now registers.SataError }
    {
        let exchange = if self.is_exchanged { EXCHANGE } else { 0 };
        let phy = if self.has_phy_changed { PHY_ERROR } else { 0 };
        exchange + phy
    }

    /// The word of a register of the port, at its offset.
    fn port_word(&self, offset: u32) -> u32
        ensures { result ≡ port_word_of self.now (register_at offset) }
    {
        match Register::at(offset) {
            Some(Register::ListBaseUpper) => self.list_upper,
            Some(Register::FisBaseUpper) => self.fis_upper,
            Some(Register::InterruptStatus) => self.interrupts(),
            Some(Register::Command) => self.command(),
            Some(Register::Signature) if self.is_signed => SIGNATURE,
            Some(Register::Signature) => NO_SIGNATURE,
            Some(Register::SataStatus) => link_word(self.speed, self.kept_word(PX_SCTL)),
            Some(Register::SataError) => self.link_errors(),
            _ => self.kept_word(offset),
        }
    }

    fn generic_word(&self, offset: u32) -> u32
        ensures { result ≡ generic_word self.now offset }
    {
        match offset {
            0x00 => capabilities(self.width),
            0x04 => AHCI + ENABLE * u32::from(self.interrupts_enabled),
            0x08 => u32::from(self.is_raised),
            0x0c => 1,
            0x10 => VERSION,
            _ => 0,
        }
    }

    /// The word that the host reads at an offset: 0 where no register stands.
    pub fn read(&self, offset: u32) -> u32
        ensures { result ≡ word_at self.now offset }
    {
        if offset >= PORT {
            self.port_word(offset - PORT)
        } else {
            self.generic_word(offset)
        }
    }

    /// Whether an enabled bit of PxIS is set.
    fn asks(&self) -> bool
        ensures { result ≡ asks self.now }
    {
        self.interrupts() & self.kept_word(PX_IE) != 0
    }

    /// Sets IS.IPS where an enabled bit of PxIS is set.
    pub(crate) fn note(&mut self)
        ensures { self.new ≡ noted self.old }
    {
        if self.asks() {
            self.is_raised = true;
        }
    }

    /// The interrupt line.
    pub fn line(&self) -> bool
        ensures { result ≡ line self.now }
    {
        self.interrupts_enabled && self.is_raised
    }

    /// Writes one of the port's own registers.
    fn keep(&mut self, offset: u32, value: u32)
        ensures { self.new ≡ record self.old { port = port_written_at self.old.port offset value } }
    {
        let _ = self.port.write(offset, value);
    }

    fn override_if(&mut self, asked: bool)
        ensures { self.new ≡ overridden asked self.old }
    {
        if asked {
            let (status, error) = (self.port.status(), self.port.error());
            self.port.set_task(status & IDLE, error);
        }
    }

    /// Keeps ATAPI and DLAE.
    fn keep_options(&mut self, value: u32)
        ensures { self.new ≡ optioned value self.old }
    {
        self.is_packet = value & PACKET == PACKET;
        self.has_light = value & LIGHT == LIGHT;
    }

    fn stop_if(&mut self, stops: bool)
        ensures { self.new ≡ stopped_if stops self.old }
    {
        if stops {
            self.current = Tag::low_bits(0);
            self.is_halted = false;
        }
    }

    /// The link goes down.
    fn lose_if(&mut self, goes: bool)
        ensures { self.new ≡ lost_if goes self.old }
    {
        if goes {
            self.port.set_task(UNKNOWN, 0);
            self.is_signed = false;
            self.has_phy_changed = true;
            self.in_reset = false;
        }
    }

    /// The link comes up.
    fn find_if(&mut self, comes: bool)
        ensures { self.new ≡ found_if comes self.old }
    {
        if comes {
            self.port.set_task(AWAITED, 0);
            self.is_exchanged = true;
            self.has_phy_changed = true;
            self.speed = speed_by(self.kept_word(PX_SCTL));
        }
    }

    /// Whether a write of PxSCTL takes the link down.
    fn goes_down(&self, value: u32) -> bool
        ensures { result ≡ goes_down self.now value }
    {
        is_up(self.kept_word(PX_SCTL)) && !is_up(value)
    }

    /// Whether a write of PxSCTL brings the link up.
    fn comes_up(&self, value: u32) -> bool
        ensures { result ≡ comes_up self.now value }
    {
        !is_up(self.kept_word(PX_SCTL)) && is_up(value)
    }

    fn write_list_upper(&mut self, value: u32)
        ensures { self.new ≡ port_written self.old registers.ListBaseUpper value }
    {
        self.list_upper = upper_written(self.width, self.list_upper, value);
    }

    fn write_fis_upper(&mut self, value: u32)
        ensures { self.new ≡ port_written self.old registers.FisBaseUpper value }
    {
        self.fis_upper = upper_written(self.width, self.fis_upper, value);
    }

    fn write_command(&mut self, value: u32)
        ensures { self.new ≡ port_written self.old registers.Command value }
    {
        self.keep(PX_CMD, value);
        self.keep_options(value);
        self.override_if(value & OVERRIDE == OVERRIDE);
        self.stop_if(value & 1 != 1);
    }

    fn clear_errors(&mut self, value: u32)
        ensures { self.new ≡ port_written self.old registers.SataError value }
    {
        self.is_exchanged = self.is_exchanged && value & EXCHANGE != EXCHANGE;
        self.has_phy_changed = self.has_phy_changed && value & PHY_ERROR != PHY_ERROR;
    }

    fn write_control(&mut self, value: u32)
        ensures { self.new ≡ port_written self.old registers.SataControl value }
    {
        let (goes_down, comes_up) = (self.goes_down(value), self.comes_up(value));
        self.keep(PX_SCTL, value & CONTROL);
        self.lose_if(goes_down);
        self.find_if(comes_up);
    }

    /// Writes a register of the port, at its offset.
    fn write_port(&mut self, offset: u32, value: u32)
        ensures { self.new ≡ port_written_of self.old (register_at offset) value }
    {
        match Register::at(offset) {
            Some(Register::ListBaseUpper) => self.write_list_upper(value),
            Some(Register::FisBaseUpper) => self.write_fis_upper(value),
            Some(Register::InterruptEnable) => self.keep(offset, value & ENABLED),
            Some(Register::Command) => self.write_command(value),
            Some(Register::SataControl) => self.write_control(value),
            Some(Register::SataError) => self.clear_errors(value),
            _ => self.keep(offset, value),
        }
    }

    /// A reset of the HBA: PxCLB and PxFB stay, with their upper halves (AHCI 1.3.1, 10.4.3).
    fn restart(&mut self)
        ensures { self.new ≡ after_hba_reset self.old }
    {
        let (list_base, fis_base) = (self.kept_word(PX_CLB), self.kept_word(PX_FB));
        let (list_upper, fis_upper) = (self.list_upper, self.fis_upper);
        *self = Registers::new(self.width);
        self.keep(PX_CLB, list_base);
        self.keep(PX_FB, fis_base);
        self.list_upper = list_upper;
        self.fis_upper = fis_upper;
    }

    fn write_generic(&mut self, offset: u32, value: u32)
        ensures { self.new ≡ generic_written self.old offset value }
    {
        match offset {
            0x04 if value & RESET == RESET => self.restart(),
            0x04 => self.interrupts_enabled = value & ENABLE == ENABLE,
            0x08 => self.is_raised = self.is_raised && value & 1 != 1,
            _ => {}
        }
    }

    /// What the host's write of a value at an offset makes of the registers.
    pub(crate) fn write(&mut self, offset: u32, value: u32)
        ensures { self.new ≡ written_at self.old offset value }
    {
        if offset >= PORT {
            self.write_port(offset - PORT, value);
        } else {
            self.write_generic(offset, value);
        }
        self.note();
    }

    /// Whether a write resets the drive.
    pub(crate) fn resets(&self, offset: u32, value: u32) -> bool
        ensures { result ≡ write_resets self.now offset value }
    {
        offset == 0x04 && value & RESET == RESET
            || offset == PORT + PX_SCTL && self.goes_down(value)
    }
}
