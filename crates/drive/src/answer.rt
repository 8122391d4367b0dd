//! What the drive answers (Serial ATA, FISes to the host; ACS-3, Status and Error).

ghost use Rattle.std.specs.Prelude.{◌≡◌, ◌==◌, ◌^◌, ◌<◌, ◌≤◌, ℕ, true, false, not, [], ◌∷◌, Some, None};
ghost use Rattle.history.specs.Answers.{answer_fis, diagnosed_fis, moved_fis, pio_fis, power_fis, served_fises, setup_fis, ready, errored};
ghost use Rattle.drive.specs.Answers.{form_fises, fises_in, fises_done};
ghost use Rattle.drive.specs.Transfer.{by_op, unqueued_command};
ghost use Rattle.drive.specs.declared.answer.Form.TheVariants.{Register};
ghost use Rattle.device_data.specs.declared.settings.Settings.{Settings};

use crate::decision::Objection;
use crate::transfer::{Transfer, Way};
use arrayvec::ArrayVec;
use audit::Why;
use audit::rules::Rule;
use device_data::Settings;
use fis::{DmaSetup, Fis, Lba, PioSetup, RegD2h, SetDeviceBits, StatusBits, Tag};
use locking::Op;
use shadow_mbr::SECTOR_SIZE;
use std::alloc::Global;
use trusted_cmds::{Command, Control};

/// What the drive answers to an accepted FIS.
#[derive(Drop)]
pub struct Accepted {
    /// The Status register: 50h, or 51h with an error.
    pub status: u8,
    /// The error: 04h aborted or denied, 10h beyond the drive, else 0. The FIS of [`Form::Diagnosed`] has a code of its own.
    pub error: u8,
    /// Whether the command is held until it is completed.
    pub held: bool,
    /// Which FISes go to the host: [`Accepted::fises`] gives them.
    pub form: Form,
    /// The data to the host.
    pub bytes: Vec<u8>,
    /// What denied the command, or the item that it sent.
    pub denied: Option<Why>,
    /// Which rule refused it, where nothing denied it.
    pub rule: Option<Rule>,
}

/// Which FISes answer a command.
#[derive(Clone, Copy, Debug, PartialEq, Eq)]
pub enum Form {
    /// A Register FIS, with the status and the error.
    Register,
    /// A PIO Setup FIS alone: data that go to the host by PIO.
    PioIn,
    /// A PIO Setup FIS, and then a Register FIS: data that come from the host by PIO.
    PioOut,
    /// A Register FIS with the signature of the device, and the code of tests that were passed.
    Diagnosed,
    /// A Register FIS with the power mode of the device.
    Powered { in_standby: bool },
}

/// What a completed command gives: its FISes and its data.
#[derive(Drop)]
pub struct Completed {
    /// The tag of the command.
    pub tag: Tag,
    /// Which way its data move.
    pub op: Op,
    /// How many bytes move.
    pub size: u32,
    /// The sectors of a read, none for a write.
    pub bytes: Vec<u8>,
}

/// The status of a device that is ready (ACS-3, Status field).
const READY: u8 = 0x50;

/// The status beside an error.
const FAILED: u8 = 0x51;

/// The status of a device that has or wants data.
const DATA_REQUESTED: u8 = 0x58;

/// The status of a device that takes data in.
const BUSY: u8 = 0xd0;

/// The address and the count of the signature of an ATA device (ACS-3, device signatures).
const SIGNATURE_LBA: u64 = 1;

const SIGNATURE_COUNT: u16 = 1;

/// The code of a device that passed its own tests (ACS-3, EXECUTE DEVICE DIAGNOSTIC).
const PASSED: u8 = 1;

/// The power mode of a device that is active, or idle (ACS-3, CHECK POWER MODE).
const ACTIVE_OR_IDLE: u16 = 0xff;

/// That of a device that is in standby.
const STANDBY: u16 = 0x00;

impl Accepted {
    /// Whether the command failed: the status is 51h.
    pub fn has_failed(&self) -> bool
        ensures { result ≡ (self.now.status == errored) }
    {
        self.status == FAILED
    }

    /// The FISes to the host, in their order.
    pub fn fises(&self) -> ArrayVec<Fis, 2>
        ensures { result.items ≡ fises_in self.now }
    {
        let mut fises = ArrayVec::new();
        match self.form {
            Form::Register => fises.push(answer_fis(!self.held, self.status, self.error)),
            Form::PioIn => fises.push(pio_fis(true, READY)),
            Form::PioOut => {
                fises.push(pio_fis(false, BUSY));
                fises.push(answer_fis(true, READY, 0));
            }
            Form::Diagnosed => fises.push(diagnosed_fis()),
            Form::Powered { in_standby } => fises.push(power_fis(in_standby)),
        }
        fises
    }

    /// What stands before the first answer: ready, and no data.
    pub fn none(alloc: Global) -> Accepted
        ensures status { result.status ≡ ready }
        ensures error { result.error ≡ 0 }
        ensures held { result.held ≡ false }
        ensures fises { fises_in result ≡ answer_fis true ready 0 ∷ [] }
        ensures bytes { result.bytes.items ≡ [] }
        ensures denied { result.denied ≡ None }
        ensures rule { result.rule ≡ None }
    {
        Accepted {
            status: READY,
            error: 0,
            held: false,
            form: Form::Register,
            bytes: Vec::new(alloc),
            denied: None,
            rule: None,
        }
    }

    /// The command failed.
    pub(crate) fn set_failed(&mut self, error: u8, objection: Objection)
        ensures status { self.new.status ≡ errored }
        ensures error { self.new.error ≡ error }
        ensures held { self.new.held ≡ false }
        ensures fises { fises_in self.new ≡ answer_fis true errored error ∷ [] }
        ensures bytes { self.new.bytes.items ≡ [] }
        ensures denied { self.new.denied ≡ objection.denied }
        ensures rule { self.new.rule ≡ objection.rule }
    {
        self.status = FAILED;
        self.error = error;
        self.held = false;
        self.form = Form::Register;
        self.bytes.clear();
        let Objection { denied, rule } = objection;
        self.denied = denied;
        self.rule = rule;
    }

    /// The command is held.
    pub(crate) fn set_held(&mut self)
        ensures status { self.new.status ≡ ready }
        ensures error { self.new.error ≡ 0 }
        ensures held { self.new.held ≡ true }
        ensures fises { fises_in self.new ≡ answer_fis false ready 0 ∷ [] }
        ensures bytes { self.new.bytes.items ≡ [] }
        ensures denied { self.new.denied ≡ None }
        ensures rule { self.new.rule ≡ None }
    {
        self.status = READY;
        self.error = 0;
        self.held = true;
        self.form = Form::Register;
        self.bytes.clear();
        self.denied = None;
        self.rule = None;
    }

    /// The command was executed: its form, its data, and what denied or refused the item that it sent.
    pub(crate) fn set_served(&mut self, form: Form, bytes: Vec<u8>, objection: Objection)
        ensures status { self.new.status ≡ ready }
        ensures error { self.new.error ≡ 0 }
        ensures held { self.new.held ≡ false }
        ensures fises { fises_in self.new ≡ form_fises form false ready 0 }
        ensures bytes { self.new.bytes.items ≡ bytes.items }
        ensures denied { self.new.denied ≡ objection.denied }
        ensures rule { self.new.rule ≡ objection.rule }
    {
        self.status = READY;
        self.error = 0;
        self.held = false;
        self.form = form;
        self.bytes = bytes;
        let Objection { denied, rule } = objection;
        self.denied = denied;
        self.rule = rule;
    }

    /// The command was executed, and has no data: its form.
    pub(crate) fn set_done(&mut self, form: Form)
        ensures status { self.new.status ≡ ready }
        ensures error { self.new.error ≡ 0 }
        ensures held { self.new.held ≡ false }
        ensures fises { fises_in self.new ≡ form_fises form false ready 0 }
        ensures bytes { self.new.bytes.items ≡ [] }
        ensures denied { self.new.denied ≡ None }
        ensures rule { self.new.rule ≡ None }
    {
        self.status = READY;
        self.error = 0;
        self.held = false;
        self.form = form;
        self.bytes.clear();
        self.denied = None;
        self.rule = None;
    }
}

impl Completed {
    ghost use Rattle.drive.specs.Transfer.{queued_command};
    ghost use Rattle.history.specs.Answers.{fises_of};

    /// The transfer under a tag was completed: its data.
    pub(crate) fn of(tag: Tag, transfer: &Transfer, bytes: Vec<u8>) -> Completed
        ensures fises { fises_done result ≡ fises_of tag (queued_command transfer.now) }
        ensures bytes { result.bytes.items ≡ bytes.items }
    {
        Completed {
            tag,
            op: transfer.op,
            size: transfer.size(),
            bytes,
        }
    }

    /// A DMA Setup FIS, and then a Set Device Bits FIS.
    pub fn fises(&self) -> ArrayVec<Fis, 2>
        ensures { result.items ≡ fises_done self.now }
    {
        let mut fises = ArrayVec::new();
        fises.push(setup_fis(self.tag, self.op, self.size));
        fises.push(moved_fis(self.tag));
        fises
    }
}

/// A register FIS with no field but these.
fn answer_fis(interrupt: bool, status: u8, error: u8) -> Fis
    ensures { result ≡ answer_fis interrupt status error }
{
    Fis::D2h(RegD2h {
        interrupt,
        status,
        error,
        ..RegD2h::default()
    })
}

/// A register FIS with the signature of the device, which passed its own tests.
fn diagnosed_fis() -> Fis
    ensures { result ≡ diagnosed_fis }
{
    Fis::D2h(RegD2h {
        interrupt: true,
        status: READY,
        error: PASSED,
        lba: Lba::new(SIGNATURE_LBA).unwrap(),
        count: SIGNATURE_COUNT,
        ..RegD2h::default()
    })
}

/// A register FIS with the power mode of the device.
fn power_fis(in_standby: bool) -> Fis
    ensures { result ≡ power_fis in_standby }
{
    Fis::D2h(RegD2h {
        interrupt: true,
        status: READY,
        count: if in_standby { STANDBY } else { ACTIVE_OR_IDLE },
        ..RegD2h::default()
    })
}

/// The PIO Setup FIS of a command whose data go by PIO, one for all blocks.
fn pio_fis(to_host: bool, end_status: u8) -> Fis
    ensures { result ≡ pio_fis to_host end_status }
{
    Fis::PioSetup(PioSetup {
        interrupt: to_host,
        to_host,
        status: DATA_REQUESTED,
        end_status,
        transfer_count: SECTOR_SIZE as u16,
        ..PioSetup::default()
    })
}

/// The form of a command that was executed, by what the host had chosen before: those that read by PIO have a PIO Setup FIS
/// alone, those that bring data by PIO have it in front.
pub(crate) fn served_form(command: &Command, settings: &Settings) -> Form
    ensures { form_fises result false ready 0 ≡ served_fises settings.now command.now }
{
    match *command {
        Command::Send { dma: false, .. } | Command::WritePio { .. } => Form::PioOut,
        Command::Receive { dma: false, .. } => Form::PioIn,
        Command::ReadLog10 { dma: false } => Form::PioIn,
        Command::ReadLog { dma: false, .. } => Form::PioIn,
        Command::Identify | Command::ReadPio { .. } => Form::PioIn,
        Command::Control {
            control: Control::Diagnose,
        } => Form::Diagnosed,
        Command::Control {
            control: Control::CheckPowerMode,
        } => Form::Powered {
            in_standby: settings.in_standby,
        },
        _ => Form::Register,
    }
}

/// The form of a transfer that is not queued, and was permitted.
pub(crate) fn moved_form(way: Way, transfer: &Transfer) -> Form
    ensures { (settings : Settings) → form_fises result false ready 0
        ≡ served_fises settings (unqueued_command way transfer.now) }
{
    match (way, transfer.op) {
        (Way::Pio, Op::Read) => Form::PioIn,
        (Way::Pio, Op::Write) => Form::PioOut,
        (Way::Dma | Way::Verify, _) => Form::Register,
    }
}

/// The DMA Setup FIS that begins the data of a queued command.
fn setup_fis(tag: Tag, op: Op, size: u32) -> Fis
    ensures { result ≡ setup_fis (by_op op true false) tag size }
{
    Fis::DmaSetup(DmaSetup {
        to_host: matches!(op, Op::Read),
        buffer_low: u32::from(tag.number()),
        count: size,
        ..DmaSetup::default()
    })
}

/// The Set Device Bits FIS that ends a queued command.
fn moved_fis(tag: Tag) -> Fis
    ensures { result ≡ moved_fis tag }
{
    Fis::SetDeviceBits(SetDeviceBits {
        interrupt: true,
        status: StatusBits::new(READY).unwrap(),
        active: 1 << u32::from(tag.number()),
        ..SetDeviceBits::default()
    })
}
