//! Frame information structures (Serial ATA; ACS-3).

use fis::*;

/// READ FPDMA QUEUED of 8 sectors from 123456h under tag 5 (Serial ATA, "Register - Host to Device";
/// ACS-3, READ FPDMA QUEUED).
const READ: [u8; 20] = [
    0x27, 0x80, 0x60, 0x08, 0x56, 0x34, 0x12, 0x40, 0, 0, 0, 0, 0x28, 0, 0, 0, 0, 0, 0, 0,
];

/// Whether the FIS is read, and written again.
fn is_read() -> bool {
    let Some(lba) = Lba::new(0x12_3456) else {
        return false;
    };
    let expected = Fis::H2d(RegH2d {
        is_command: true,
        port: PortNumber::low_bits(0),
        command: 0x60,
        feature: 8,
        lba,
        device: 0x40,
        count: 0x28,
        icc: 0,
        control: 0,
    });
    Fis::read(&READ) == Ok(expected) && expected.to_bytes().as_slice() == READ.as_slice()
}

/// Bytes with a value of its own in each field, and with each flag set alone, of each type (Serial ATA, FIS types).
const COMMAND: [u8; 20] = [
    0x27, 0x8a, 0x61, 0x22, 0x01, 0x02, 0x03, 0xc4, 0x04, 0x05, 0x06, 0x44, 0x0d, 0x0c, 0x55, 0x66,
    0, 0, 0, 0,
];

const CONTROL: [u8; 20] = [
    0x27, 0x05, 0, 0, 0, 0, 0, 0, 0, 0, 0, 0, 0, 0, 0, 0x04, 0, 0, 0, 0,
];

const ANSWER: [u8; 20] = [
    0x34, 0x45, 0x51, 0x84, 0x11, 0x12, 0x13, 0xe4, 0x14, 0x15, 0x16, 0, 0x18, 0x17, 0, 0, 0, 0, 0,
    0,
];

const SIGNATURE: [u8; 20] = [
    0x34, 0x0a, 0x50, 0x01, 0x01, 0, 0, 0, 0, 0, 0, 0, 0x01, 0, 0, 0, 0, 0, 0, 0,
];

const NOTIFIED: [u8; 8] = [0xa1, 0x85, 0x57, 0x84, 0x81, 0x02, 0x03, 0x04];

const ENDED: [u8; 8] = [0xa1, 0x4a, 0x70, 0, 0x20, 0, 0, 0];

const ACTIVATED: [u8; 28] = [
    0x41, 0x85, 0, 0, 0x11, 0x12, 0x13, 0x14, 0x15, 0x16, 0x17, 0x18, 0, 0, 0, 0, 0x21, 0x22, 0x23,
    0x24, 0x25, 0x26, 0x27, 0x28, 0, 0, 0, 0,
];

const TO_HOST: [u8; 28] = [
    0x41, 0x2a, 0, 0, 5, 0, 0, 0, 0, 0, 0, 0, 0, 0, 0, 0, 0, 0, 0, 0, 0, 0x02, 0, 0, 0, 0, 0, 0,
];

const INTERRUPTS: [u8; 28] = [
    0x41, 0x40, 0, 0, 0, 0, 0, 0, 0, 0, 0, 0, 0, 0, 0, 0, 0, 0, 0, 0, 0, 0, 0, 0, 0, 0, 0, 0,
];

const BLOCK_IN: [u8; 20] = [
    0x5f, 0x25, 0x58, 0x84, 0x11, 0x12, 0x13, 0xe4, 0x14, 0x15, 0x16, 0, 0x18, 0x17, 0, 0xd0, 0x1a,
    0x19, 0, 0,
];

const BLOCK_OUT: [u8; 20] = [
    0x5f, 0x4a, 0x58, 0, 0, 0, 0, 0, 0, 0, 0, 0, 0, 0, 0, 0x50, 0, 0x02, 0, 0,
];

/// Whether bytes are read as a FIS, and written of it.
fn is_both_ways(bytes: &[u8], fis: Fis) -> bool {
    Fis::read(bytes) == Ok(fis) && fis.to_bytes().as_slice() == bytes
}

/// The fields of a FIS of a host.
fn are_of_a_host() -> bool {
    let command = Fis::H2d(RegH2d {
        is_command: true,
        port: PortNumber::low_bits(10),
        command: 0x61,
        feature: 0x4422,
        lba: Lba::from_bytes([1, 2, 3, 4, 5, 6]),
        device: 0xc4,
        count: 0x0c0d,
        icc: 0x55,
        control: 0x66,
    });
    let control = Fis::H2d(RegH2d {
        is_command: false,
        port: PortNumber::low_bits(5),
        command: 0,
        feature: 0,
        lba: Lba::from_bytes([0, 0, 0, 0, 0, 0]),
        device: 0,
        count: 0,
        icc: 0,
        control: 4,
    });
    is_both_ways(&COMMAND, command)
        && is_both_ways(&CONTROL, control)
        && Lba::from_bytes([1, 2, 3, 4, 5, 6]).number() == 0x0605_0403_0201
}

/// The fields of a register FIS of a device.
fn are_of_a_device() -> bool {
    let answer = Fis::D2h(RegD2h {
        interrupt: true,
        port: PortNumber::low_bits(5),
        status: 0x51,
        error: 0x84,
        lba: Lba::from_bytes([0x11, 0x12, 0x13, 0x14, 0x15, 0x16]),
        device: 0xe4,
        count: 0x1718,
    });
    let signature = Fis::D2h(RegD2h {
        interrupt: false,
        port: PortNumber::low_bits(10),
        status: 0x50,
        error: 1,
        lba: Lba::from_bytes([1, 0, 0, 0, 0, 0]),
        device: 0,
        count: 1,
    });
    is_both_ways(&ANSWER, answer) && is_both_ways(&SIGNATURE, signature)
}

/// A FIS of the bits of a device.
fn bits(notification: bool, port: u8, status: u8, error: u8, active: u32) -> Option<Fis> {
    Some(Fis::SetDeviceBits(SetDeviceBits {
        notification,
        interrupt: !notification,
        port: PortNumber::low_bits(port),
        status: StatusBits::new(status)?,
        error,
        active,
    }))
}

/// The fields of such a FIS.
fn are_bits() -> bool {
    let (Some(notified), Some(ended)) = (
        bits(true, 5, 0x57, 0x84, 0x0403_0281),
        bits(false, 10, 0x70, 0, 0x20),
    ) else {
        return false;
    };
    is_both_ways(&NOTIFIED, notified) && is_both_ways(&ENDED, ended)
}

/// The fields of a FIS that sets a transfer by DMA up.
fn are_of_dma() -> bool {
    let activated = DmaSetup {
        auto_activate: true,
        interrupt: false,
        to_host: false,
        port: PortNumber::low_bits(5),
        buffer_low: 0x1413_1211,
        buffer_high: 0x1817_1615,
        offset: 0x2423_2221,
        count: 0x2827_2625,
    };
    let to_host = DmaSetup {
        auto_activate: false,
        to_host: true,
        port: PortNumber::low_bits(10),
        buffer_low: 5,
        buffer_high: 0,
        offset: 0,
        count: 0x200,
        ..activated
    };
    let interrupts = DmaSetup {
        interrupt: true,
        to_host: false,
        port: PortNumber::low_bits(0),
        buffer_low: 0,
        count: 0,
        ..to_host
    };
    is_both_ways(&ACTIVATED, Fis::DmaSetup(activated))
        && is_both_ways(&TO_HOST, Fis::DmaSetup(to_host))
        && is_both_ways(&INTERRUPTS, Fis::DmaSetup(interrupts))
}

/// The fields of a FIS that sets a block by PIO up.
fn are_of_pio() -> bool {
    let block_in = PioSetup {
        interrupt: false,
        to_host: true,
        port: PortNumber::low_bits(5),
        status: 0x58,
        error: 0x84,
        lba: Lba::from_bytes([0x11, 0x12, 0x13, 0x14, 0x15, 0x16]),
        device: 0xe4,
        count: 0x1718,
        end_status: 0xd0,
        transfer_count: 0x191a,
    };
    let block_out = PioSetup {
        interrupt: true,
        to_host: false,
        port: PortNumber::low_bits(10),
        status: 0x58,
        error: 0,
        lba: Lba::from_bytes([0, 0, 0, 0, 0, 0]),
        device: 0,
        count: 0,
        end_status: 0x50,
        transfer_count: 512,
    };
    is_both_ways(&BLOCK_IN, Fis::PioSetup(block_in))
        && is_both_ways(&BLOCK_OUT, Fis::PioSetup(block_out))
}

/// Whether the first error is told of bytes that are none: too short, of no type, with a reserved bit.
fn are_errors_told() -> bool {
    Fis::read(&[]).err() == Some(FisError::Short)
        && Fis::read(&[0x28]).err() == Some(FisError::UnknownType)
        && Fis::read(&READ[..19]).err() == Some(FisError::Short)
        && Fis::read(&[0xa1, 0, 0x08, 0, 0, 0, 0, 0]).err() == Some(FisError::ReservedSet)
}

#[test]
fn fises_are_read_and_written(rt: HostRuntime) {
    assert!(rt; is_read() && are_errors_told());
}

#[test]
fn fields_of_fises(rt: HostRuntime) {
    let are_registers = are_of_a_host() && are_of_a_device() && are_bits();
    assert!(rt; are_registers && are_of_dma() && are_of_pio());
}
