//! Commands of no sectors and no data (ACS-3, General feature set and Power Management feature set).

ghost use Rattle.std.specs.Prelude.{◌≡◌, ◌%◌, ◌==◌, ◌&&◌, ◌||◌, IfSome, Some, true};
ghost use Rattle.trusted_cmds.specs.declared.control.Control.{Control};
ghost use Rattle.trusted_cmds.specs.Commands.{control_code, control_count};
ghost use Rattle.trusted_cmds.specs.General.{names_control, control_named};

use fis::RegH2d;

/// What is asked of the drive. A block by PIO has one sector, whatever SET MULTIPLE MODE asks.
#[derive(Clone, Copy, Debug, PartialEq, Eq)]
pub enum Control {
    /// SET MULTIPLE MODE, code C6h, with a count of 1: a block of READ MULTIPLE and WRITE MULTIPLE has one sector. Another
    /// count is refused (IDENTIFY DEVICE word 47).
    SetMultiple,
    /// IDLE IMMEDIATE and IDLE, codes E1h and E3h: the drive leaves standby. It has no clock: the timer of IDLE never runs out.
    Idle,
    /// STANDBY IMMEDIATE, STANDBY and SLEEP, codes E0h, E2h and E6h: the drive goes to standby, until it reads or writes
    /// sectors, is told to be idle, or is reset. Its interface never sleeps: it answers commands after SLEEP too.
    Standby,
    /// CHECK POWER MODE, code E5h: the answer has 00h in Count in standby, else FFh, active or idle.
    CheckPowerMode,
    /// EXECUTE DEVICE DIAGNOSTIC, code 90h: the answer has the signature of an ATA device.
    Diagnose,
}

const EXECUTE_DIAGNOSTIC: u8 = 0x90;

const SET_MULTIPLE: u8 = 0xc6;

const STANDBY_IMMEDIATE: u8 = 0xe0;

const IDLE_IMMEDIATE: u8 = 0xe1;

const STANDBY: u8 = 0xe2;

const IDLE: u8 = 0xe3;

const CHECK_POWER_MODE: u8 = 0xe5;

const SLEEP: u8 = 0xe6;

/// How many sectors a block by PIO has.
const SECTORS_IN_BLOCK: u16 = 1;

impl Control {
    /// The code of the command.
    pub(crate) fn code(self) -> u8
        ensures { result ≡ control_code self }
    {
        match self {
            Control::SetMultiple => SET_MULTIPLE,
            Control::Idle => IDLE_IMMEDIATE,
            Control::Standby => STANDBY_IMMEDIATE,
            Control::CheckPowerMode => CHECK_POWER_MODE,
            Control::Diagnose => EXECUTE_DIAGNOSTIC,
        }
    }

    /// The count of sectors in a block, or 0 where the command has none.
    pub(crate) fn count(self) -> u16
        ensures { result ≡ control_count self }
    {
        match self {
            Control::SetMultiple => SECTORS_IN_BLOCK,
            Control::Idle | Control::Standby | Control::CheckPowerMode | Control::Diagnose => 0,
        }
    }
}

/// What a FIS asks: its command code says it, and SET MULTIPLE MODE has Count 7:0 of 1.
pub(crate) fn control_named(h: &RegH2d) -> Option<Control>
    ensures value { result ≡ control_named h.now }
    ensures found { IfSome result (λ c. names_control c h.now ≡ true) }
    ensures only { (c : Control) → names_control c h.now ≡ true → result ≡ Some c }
{
    match h.command {
        SET_MULTIPLE if h.count % 256 == SECTORS_IN_BLOCK => Some(Control::SetMultiple),
        IDLE_IMMEDIATE | IDLE => Some(Control::Idle),
        STANDBY_IMMEDIATE | STANDBY | SLEEP => Some(Control::Standby),
        CHECK_POWER_MODE => Some(Control::CheckPowerMode),
        EXECUTE_DIAGNOSTIC => Some(Control::Diagnose),
        _ => None,
    }
}
