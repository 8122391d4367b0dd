//! The Set Device Bits FIS.

use crate::bytes::u32_at;
use crate::error::FisError;
use crate::fields::{PortNumber, StatusBits};

/// The first byte of the FIS.
pub(crate) const SET_DEVICE_BITS_TYPE: u8 = 0xa1;

/// How many bytes the FIS has.
pub(crate) const SET_DEVICE_BITS_LENGTH: usize = 8;

/// A Set Device Bits FIS (Serial ATA, "Set Device Bits - Device to Host").
#[derive(Clone, Copy, Debug, Default, PartialEq, Eq)]
pub struct SetDeviceBits {
    /// Bit N: the device asks for attention.
    pub notification: bool,
    /// Bit I: the port raises an interrupt.
    pub interrupt: bool,
    pub port: PortNumber,
    pub status: StatusBits,
    pub error: u8,
    /// SActive: the tags whose commands are done.
    pub active: u32,
}

impl SetDeviceBits {
    ghost use Rattle.std.specs.Prelude.{◌≡◌, ◌≤◌, IfOk, OnErr, Err, Ok, length, slice_index};
    ghost use Rattle.fis.specs.Types.{set_device_bits_type, set_device_bits_length};
    ghost use Rattle.fis.specs.SetDeviceBits.{IsSetDeviceBits};
    ghost use Rattle.fis.specs.declared.set_device_bits.SetDeviceBits.{SetDeviceBits};

    /// The bytes of the FIS, with zeros in what it reserves.
    pub fn to_bytes(&self) -> [u8; SET_DEVICE_BITS_LENGTH]
        ensures { IsSetDeviceBits result self.now }
    {
        let active = self.active.to_le_bytes();
        let flags = 128 * u8::from(self.notification)
            + 64 * u8::from(self.interrupt)
            + self.port.number();
        [
            SET_DEVICE_BITS_TYPE,
            flags,
            self.status.bits(),
            self.error,
            active[0],
            active[1],
            active[2],
            active[3],
        ]
    }

    /// Reads the FIS from bytes of its type. The only error is `ReservedSet`.
    pub fn read(bytes: &[u8]) -> Result<SetDeviceBits, FisError>
        requires long { set_device_bits_length ≤ length bytes.now }
        requires kind { slice_index bytes.now 0 ≡ set_device_bits_type }
        ensures found { IfOk result (λ f. IsSetDeviceBits bytes.now f) }
        ensures only { (f : SetDeviceBits) → IsSetDeviceBits bytes.now f → result ≡ Ok f }
        ensures error { OnErr result (result ≡ Err FisError.ReservedSet) }
    {
        let flags = bytes[1];
        if flags >> 4 & 3 != 0 {
            return Err(FisError::ReservedSet);
        }
        match StatusBits::new(bytes[2]) {
            None => Err(FisError::ReservedSet),
            Some(status) => Ok(SetDeviceBits {
                notification: flags >> 7 == 1,
                interrupt: flags >> 6 & 1 == 1,
                port: PortNumber::low_bits(flags),
                status,
                error: bytes[3],
                active: u32_at(bytes, 4),
            }),
        }
    }
}
