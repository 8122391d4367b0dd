//! The command that blocks SID (Block SID Authentication feature set 1.00), and whether SID is blocked.

ghost use Rattle.std.specs.Prelude.{◌≡◌};
ghost use Rattle.trusted_cmds.specs.BlockSid.{is_block_sid, block_asked, is_blocked, ends_at_hardware_reset};

use crate::command::Command;
use crate::reset::RESET_PROTOCOL;
use basics::Profile;

/// The ComID of the command that blocks SID.
pub const BLOCK_COM_ID: u16 = 5;

/// Whether SID is blocked, and until when.
#[derive(Clone, Copy, Debug, PartialEq, Eq)]
pub enum SidBlock {
    /// It is not blocked.
    Free,
    /// It is blocked until the power goes.
    UntilPowerCycle,
    /// It is blocked until the power goes, or until a hardware reset.
    UntilHardwareReset,
}

impl SidBlock {
    /// What the payload of the command asks: bit 0 of its first byte is HardwareReset.
    pub fn asked(payload: &[u8]) -> SidBlock
        ensures { result ≡ block_asked payload.now }
    {
        match payload.first() {
            Some(first) if *first % 2 == 1 => SidBlock::UntilHardwareReset,
            _ => SidBlock::UntilPowerCycle,
        }
    }

    /// Whether SID is blocked.
    pub fn is_blocked(self) -> bool
        ensures { result ≡ is_blocked self }
    {
        match self {
            SidBlock::Free => false,
            SidBlock::UntilPowerCycle | SidBlock::UntilHardwareReset => true,
        }
    }

    /// Whether a hardware reset frees it.
    pub fn ends_at_hardware_reset(self) -> bool
        ensures { result ≡ ends_at_hardware_reset self }
    {
        match self {
            SidBlock::UntilHardwareReset => true,
            SidBlock::Free | SidBlock::UntilPowerCycle => false,
        }
    }
}

/// Whether a command blocks SID on a drive of this profile: a TRUSTED SEND, by DMA or not, of one block at least, of
/// security protocol 02h to the ComID 0005h. Whether it is taken is a matter of the drive's rows.
pub fn is_block_sid(profile: Profile, command: &Command) -> bool
    ensures { result ≡ is_block_sid profile command.now }
{
    match *command {
        Command::Send {
            protocol,
            sp_specific,
            blocks,
            ..
        } => {
            protocol == RESET_PROTOCOL
                && sp_specific == BLOCK_COM_ID
                && blocks > 0
                && profile.has_field()
        }
        _ => false,
    }
}
