//! What trusted commands ask for that go to no ComID of a session: the reset (TCG Storage, TPER_RESET), the list of
//! security protocols, and the certificates (SPC-4).

ghost use Rattle.std.specs.Prelude.{◌≡◌};
ghost use Rattle.trusted_cmds.specs.Commands.{is_programmatic_reset, is_protocol_list, is_certificate_data};

use crate::command::Command;

/// The security protocol of the TPER_RESET command.
pub const RESET_PROTOCOL: u8 = 2;

/// The ComID of the TPER_RESET command.
pub const RESET_COM_ID: u16 = 4;

/// Whether a command is TPER_RESET: a TRUSTED SEND, by DMA or not, of one block at least, of security protocol 02h to the
/// ComID 0004h. Whether it resets the drive is a matter of its rows.
pub fn is_programmatic_reset(command: &Command) -> bool
    ensures { result ≡ is_programmatic_reset command.now }
{
    match *command {
        Command::Send {
            protocol,
            sp_specific,
            blocks,
            ..
        } => protocol == RESET_PROTOCOL && sp_specific == RESET_COM_ID && blocks > 0,
        _ => false,
    }
}

/// Whether a command asks for the list of security protocols: a TRUSTED RECEIVE, by DMA or not, of one block at least, of
/// security protocol 00h with 0000h as SP Specific.
pub fn is_protocol_list(command: &Command) -> bool
    ensures { result ≡ is_protocol_list command.now }
{
    match *command {
        Command::Receive {
            protocol,
            sp_specific,
            blocks,
            ..
        } => protocol == 0 && sp_specific == 0 && blocks > 0,
        _ => false,
    }
}

/// Whether a command asks for the certificates: a TRUSTED RECEIVE, by DMA or not, of one block at least, of security
/// protocol 00h with 0001h as SP Specific.
pub fn is_certificate_data(command: &Command) -> bool
    ensures { result ≡ is_certificate_data command.now }
{
    match *command {
        Command::Receive {
            protocol,
            sp_specific,
            blocks,
            ..
        } => protocol == 0 && sp_specific == 1 && blocks > 0,
        _ => false,
    }
}
