//! The register FIS from the host to the device.

use crate::bytes::u16_at;
use crate::fields::{Lba, PortNumber};

/// The first byte of a Register FIS from the host to the device.
pub const H2D_TYPE: u8 = 0x27;

/// How many bytes the FIS has.
pub const H2D_LENGTH: usize = 20;

/// A Register FIS from the host to the device (Serial ATA, "Register - Host to Device"). What no
/// field names is not kept.
#[derive(Clone, Copy, Debug, Default, PartialEq, Eq)]
pub struct RegH2d {
    /// Set for a command, clear for a write of the Control byte.
    pub is_command: bool,
    pub port: PortNumber,
    pub command: u8,
    pub feature: u16,
    pub lba: Lba,
    pub device: u8,
    pub count: u16,
    pub icc: u8,
    pub control: u8,
}

impl RegH2d {
    ghost use Rattle.std.specs.Prelude.{◌≡◌, ◌≤◌, length, slice_index};
    ghost use Rattle.fis.specs.Types.{h2d_type, h2d_length};
    ghost use Rattle.fis.specs.H2d.{IsH2d, IsH2dSpelling, h2d_at};
    ghost use Rattle.fis.specs.declared.h2d.RegH2d.{RegH2d};

    /// The bytes of the FIS, with zeros in what no field names.
    pub fn to_bytes(&self) -> [u8; H2D_LENGTH]
        ensures { IsH2dSpelling result self.now }
    {
        let lba = self.lba.number().to_le_bytes();
        let count = self.count.to_le_bytes();
        let feature = self.feature.to_le_bytes();
        let flags = u8::from(self.is_command) << 7 | self.port.number();
        [
            H2D_TYPE,
            flags,
            self.command,
            feature[0],
            lba[0],
            lba[1],
            lba[2],
            self.device,
            lba[3],
            lba[4],
            lba[5],
            feature[1],
            count[0],
            count[1],
            self.icc,
            self.control,
            0,
            0,
            0,
            0,
        ]
    }

    /// Reads the FIS from bytes of its type, whatever stands in what no field names.
    pub fn read(bytes: &[u8]) -> RegH2d
        requires long { h2d_length ≤ length bytes.now }
        requires kind { slice_index bytes.now 0 ≡ h2d_type }
        ensures exact { result ≡ h2d_at bytes.now }
        ensures found { IsH2d bytes.now result }
        ensures only { (f : RegH2d) → IsH2d bytes.now f → result ≡ f }
    {
        RegH2d {
            is_command: bytes[1] >= 0x80,
            port: PortNumber::low_bits(bytes[1]),
            command: bytes[2],
            feature: u16::from_le_bytes([bytes[3], bytes[11]]),
            lba: Lba::from_bytes([bytes[4], bytes[5], bytes[6], bytes[8], bytes[9], bytes[10]]),
            device: bytes[7],
            count: u16_at(bytes, 12),
            icc: bytes[14],
            control: bytes[15],
        }
    }
}
