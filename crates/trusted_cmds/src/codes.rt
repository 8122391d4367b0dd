//! The codes of the commands (ACS-3, "Command codes").

ghost use Rattle.std.specs.Prelude.{◌≡◌, ◌==◌, ◌||◌};
ghost use Rattle.trusted_cmds.specs.Commands.{is_queued, is_transfer, is_send, is_receive, is_log_read, is_known_code};
ghost use Rattle.trusted_cmds.specs.Profiles.{is_short_transfer};
ghost use Rattle.trusted_cmds.specs.General.{reads_pio, writes_pio, verifies, writes_through, moves_more, writes_more, brings_more, is_short_code};

pub(crate) const DATA_SET_MANAGEMENT: u8 = 0x06;

pub(crate) const READ_SECTORS: u8 = 0x20;

pub(crate) const READ_SECTORS_EXT: u8 = 0x24;

pub(crate) const READ_DMA: u8 = 0x25;

pub(crate) const READ_MULTIPLE_EXT: u8 = 0x29;

pub(crate) const READ_LOG: u8 = 0x2f;

pub(crate) const WRITE_SECTORS: u8 = 0x30;

pub(crate) const WRITE_SECTORS_EXT: u8 = 0x34;

pub(crate) const WRITE_DMA: u8 = 0x35;

pub(crate) const WRITE_MULTIPLE_EXT: u8 = 0x39;

pub(crate) const WRITE_DMA_FUA: u8 = 0x3d;

pub(crate) const VERIFY_SECTORS: u8 = 0x40;

pub(crate) const VERIFY_SECTORS_EXT: u8 = 0x42;

pub(crate) const READ_LOG_DMA: u8 = 0x47;

pub(crate) const TRUSTED_RECEIVE: u8 = 0x5c;

pub(crate) const TRUSTED_RECEIVE_DMA: u8 = 0x5d;

pub(crate) const TRUSTED_SEND: u8 = 0x5e;

pub(crate) const TRUSTED_SEND_DMA: u8 = 0x5f;

pub(crate) const READ_QUEUED: u8 = 0x60;

pub(crate) const WRITE_QUEUED: u8 = 0x61;

pub(crate) const READ_MULTIPLE: u8 = 0xc4;

pub(crate) const WRITE_MULTIPLE: u8 = 0xc5;

pub(crate) const SHORT_READ_DMA: u8 = 0xc8;

pub(crate) const SHORT_WRITE_DMA: u8 = 0xca;

pub(crate) const WRITE_MULTIPLE_FUA: u8 = 0xce;

pub(crate) const SHORT_FLUSH_CACHE: u8 = 0xe7;

pub(crate) const FLUSH_CACHE: u8 = 0xea;

pub(crate) const IDENTIFY_DEVICE: u8 = 0xec;

pub(crate) const SET_FEATURES: u8 = 0xef;

/// Whether a command code is one of the queued commands, READ and WRITE FPDMA QUEUED.
pub fn is_queued(command: u8) -> bool
    ensures { result ≡ is_queued command }
{
    command == READ_QUEUED || command == WRITE_QUEUED
}

/// Whether a command code is one of those that move sectors.
pub(crate) fn is_transfer(command: u8) -> bool
    ensures { result ≡ is_transfer command }
{
    is_queued(command) || command == READ_DMA || command == WRITE_DMA
}

/// Whether a command code is one of those that move sectors at addresses of 28 bits.
pub(crate) fn is_short_transfer(command: u8) -> bool
    ensures { result ≡ is_short_transfer command }
{
    command == SHORT_READ_DMA || command == SHORT_WRITE_DMA
}

/// Whether a command code is TRUSTED SEND, or its form by DMA.
pub(crate) fn is_send(command: u8) -> bool
    ensures { result ≡ is_send command }
{
    command == TRUSTED_SEND || command == TRUSTED_SEND_DMA
}

/// Whether a command code is TRUSTED RECEIVE, or its form by DMA.
pub(crate) fn is_receive(command: u8) -> bool
    ensures { result ≡ is_receive command }
{
    command == TRUSTED_RECEIVE || command == TRUSTED_RECEIVE_DMA
}

/// Whether a command code is READ LOG EXT, or its form by DMA.
pub(crate) fn is_log_read(command: u8) -> bool
    ensures { result ≡ is_log_read command }
{
    command == READ_LOG || command == READ_LOG_DMA
}

/// Whether a command code is one that the drive knows.
pub(crate) fn is_known(command: u8) -> bool
    ensures { result ≡ is_known_code command }
{
    is_transfer(command)
        || is_send(command)
        || is_receive(command)
        || is_log_read(command)
        || command == IDENTIFY_DEVICE
        || command == FLUSH_CACHE
}

/// Whether a command code is one of those that read sectors by PIO.
pub(crate) fn reads_pio(command: u8) -> bool
    ensures { result ≡ reads_pio command }
{
    command == READ_SECTORS
        || command == READ_SECTORS_EXT
        || command == READ_MULTIPLE
        || command == READ_MULTIPLE_EXT
}

/// Whether a command code is one of those that write sectors by PIO.
pub(crate) fn writes_pio(command: u8) -> bool
    ensures { result ≡ writes_pio command }
{
    command == WRITE_SECTORS
        || command == WRITE_SECTORS_EXT
        || command == WRITE_MULTIPLE
        || command == WRITE_MULTIPLE_EXT
        || command == WRITE_MULTIPLE_FUA
}

/// Whether a command code is one of those that verify sectors.
pub(crate) fn verifies(command: u8) -> bool
    ensures { result ≡ verifies command }
{
    command == VERIFY_SECTORS || command == VERIFY_SECTORS_EXT
}

/// Whether a command code is WRITE DMA FUA EXT.
pub(crate) fn writes_through(command: u8) -> bool
    ensures { result ≡ writes_through command }
{
    command == WRITE_DMA_FUA
}

/// Whether a command code is one of the transfers that `Opal` has beside.
pub(crate) fn moves_more(command: u8) -> bool
    ensures { result ≡ moves_more command }
{
    reads_pio(command) || writes_pio(command) || verifies(command) || writes_through(command)
}

/// Whether it is one of them that brings sectors.
pub(crate) fn writes_more(command: u8) -> bool
    ensures { result ≡ writes_more command }
{
    writes_pio(command) || writes_through(command)
}

/// Whether a command code is one of those that `Opal` has beside, and that bring data.
pub(crate) fn brings_more(command: u8) -> bool
    ensures { result ≡ brings_more command }
{
    writes_more(command) || command == DATA_SET_MANAGEMENT
}

/// Whether it is one of them whose address has 28 bits.
pub(crate) fn is_short_code(command: u8) -> bool
    ensures { result ≡ is_short_code command }
{
    command == READ_SECTORS
        || command == READ_MULTIPLE
        || command == WRITE_SECTORS
        || command == WRITE_MULTIPLE
        || command == VERIFY_SECTORS
}
