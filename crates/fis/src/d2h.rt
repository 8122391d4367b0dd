//! The register FIS from the device to the host.

ghost use Rattle.std.specs.Prelude.{◌≡◌, ◌≤◌, ◌↔◌, IsTrue, length, [], ◌∷◌};
ghost use Rattle.fis.specs.Bytes.{AreClear};
ghost use Rattle.fis.specs.Types.{d2h_length};

use crate::bytes::u16_at;
use crate::error::FisError;
use crate::fields::{Lba, PortNumber};

/// The first byte of the FIS.
pub(crate) const D2H_TYPE: u8 = 0x34;

/// How many bytes the FIS has.
pub(crate) const D2H_LENGTH: usize = 20;

/// A Register FIS from the device to the host (Serial ATA, "Register - Device to Host").
#[derive(Clone, Copy, Debug, Default, PartialEq, Eq)]
pub struct RegD2h {
    /// Bit I: the port raises an interrupt.
    pub interrupt: bool,
    pub port: PortNumber,
    pub status: u8,
    pub error: u8,
    pub lba: Lba,
    pub device: u8,
    pub count: u16,
}

/// Whether the bytes of no field are zeros.
fn reserved_bytes_clear(bytes: &[u8]) -> bool
    requires { d2h_length ≤ length bytes.now }
    ensures { IsTrue result ↔ AreClear bytes.now (11 ∷ 14 ∷ 15 ∷ 16 ∷ 17 ∷ 18 ∷ 19 ∷ []) }
{
    bytes[11] == 0
        && bytes[14] == 0
        && bytes[15] == 0
        && bytes[16] == 0
        && bytes[17] == 0
        && bytes[18] == 0
        && bytes[19] == 0
}

impl RegD2h {
    ghost use Rattle.std.specs.Prelude.{◌≡◌, ◌≤◌, ◌<◌, ◌↔◌, IfOk, IsErrOf, OnErr, Err, Ok, length, slice_index};
    ghost use Rattle.fis.specs.Types.{d2h_type, d2h_length};
    ghost use Rattle.fis.specs.D2h.{IsD2h};
    ghost use Rattle.fis.specs.declared.d2h.RegD2h.{RegD2h};

    /// The bytes of the FIS, with zeros in what it reserves.
    pub fn to_bytes(&self) -> [u8; D2H_LENGTH]
        ensures { IsD2h result self.now }
    {
        let lba = self.lba.number().to_le_bytes();
        let count = self.count.to_le_bytes();
        let flags = 64 * u8::from(self.interrupt) + self.port.number();
        [
            D2H_TYPE,
            flags,
            self.status,
            self.error,
            lba[0],
            lba[1],
            lba[2],
            self.device,
            lba[3],
            lba[4],
            lba[5],
            0,
            count[0],
            count[1],
            0,
            0,
            0,
            0,
            0,
            0,
        ]
    }

    /// Reads the FIS from bytes of its type. The only error is `ReservedSet`.
    #[tactic(auto, using(crate::proofs::Flags::one_flag))]
    pub fn read(bytes: &[u8]) -> Result<RegD2h, FisError>
        requires long { d2h_length ≤ length bytes.now }
        requires kind { slice_index bytes.now 0 ≡ d2h_type }
        ensures found { IfOk result (λ f. IsD2h bytes.now f) }
        ensures only { (f : RegD2h) → IsD2h bytes.now f → result ≡ Ok f }
        ensures error { OnErr result (result ≡ Err FisError.ReservedSet) }
    {
        let flags = bytes[1];
        if flags >> 7 != 0 {
            return Err(FisError::ReservedSet);
        }
        if flags >> 4 & 3 != 0 {
            return Err(FisError::ReservedSet);
        }
        if !reserved_bytes_clear(bytes) {
            return Err(FisError::ReservedSet);
        }
        Ok(RegD2h {
            interrupt: flags >> 6 & 1 == 1,
            port: PortNumber::low_bits(flags),
            status: bytes[2],
            error: bytes[3],
            lba: Lba::from_bytes([bytes[4], bytes[5], bytes[6], bytes[8], bytes[9], bytes[10]]),
            device: bytes[7],
            count: u16_at(bytes, 12),
        })
    }
}
