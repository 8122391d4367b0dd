//! The PIO Setup FIS.

ghost use Rattle.std.specs.Prelude.{◌≡◌, ◌≤◌, ◌↔◌, IsTrue, length, [], ◌∷◌};
ghost use Rattle.fis.specs.Bytes.{AreClear};
ghost use Rattle.fis.specs.Types.{pio_setup_length};

use crate::bytes::u16_at;
use crate::error::FisError;
use crate::fields::{Lba, PortNumber};

/// The first byte of the FIS.
pub(crate) const PIO_SETUP_TYPE: u8 = 0x5f;

/// How many bytes the FIS has.
pub(crate) const PIO_SETUP_LENGTH: usize = 20;

/// A PIO Setup FIS (Serial ATA, "PIO Setup - Device to Host").
#[derive(Clone, Copy, Debug, Default, PartialEq, Eq)]
pub struct PioSetup {
    /// Bit I: the port raises an interrupt.
    pub interrupt: bool,
    /// Bit D: the data goes to the host.
    pub to_host: bool,
    pub port: PortNumber,
    /// The status as the transfer begins.
    pub status: u8,
    pub error: u8,
    pub lba: Lba,
    pub device: u8,
    pub count: u16,
    /// E_Status: the status as the transfer ends.
    pub end_status: u8,
    /// How many bytes move.
    pub transfer_count: u16,
}

/// Whether the bytes of no field are zeros.
fn reserved_bytes_clear(bytes: &[u8]) -> bool
    requires { pio_setup_length ≤ length bytes.now }
    ensures { IsTrue result ↔ AreClear bytes.now (11 ∷ 14 ∷ 18 ∷ 19 ∷ []) }
{
    bytes[11] == 0 && bytes[14] == 0 && bytes[18] == 0 && bytes[19] == 0
}

impl PioSetup {
    ghost use Rattle.std.specs.Prelude.{◌≡◌, ◌≤◌, IfOk, OnErr, Err, Ok, length, slice_index};
    ghost use Rattle.fis.specs.Types.{pio_setup_type, pio_setup_length};
    ghost use Rattle.fis.specs.PioSetup.{IsPioSetup};
    ghost use Rattle.fis.specs.declared.pio_setup.PioSetup.{PioSetup};

    /// The 20 bytes of the FIS.
    pub fn to_bytes(&self) -> [u8; PIO_SETUP_LENGTH]
        ensures { IsPioSetup result self.now }
    {
        let lba = self.lba.number().to_le_bytes();
        let count = self.count.to_le_bytes();
        let transfer_count = self.transfer_count.to_le_bytes();
        let flags = 64 * u8::from(self.interrupt)
            + 32 * u8::from(self.to_host)
            + self.port.number();
        [
            PIO_SETUP_TYPE,
            flags,
            self.status,
            self.error,
            lba[0],
            lba[1],
            lba[2],
            self.device,
            lba[3],
            lba[4],
            lba[5],
            0,
            count[0],
            count[1],
            0,
            self.end_status,
            transfer_count[0],
            transfer_count[1],
            0,
            0,
        ]
    }

    /// Reads the FIS from bytes of its type. The only error is `ReservedSet`.
    #[tactic(auto, using(crate::proofs::Flags::two_flags))]
    pub fn read(bytes: &[u8]) -> Result<PioSetup, FisError>
        requires long { pio_setup_length ≤ length bytes.now }
        requires kind { slice_index bytes.now 0 ≡ pio_setup_type }
        ensures found { IfOk result (λ f. IsPioSetup bytes.now f) }
        ensures only { (f : PioSetup) → IsPioSetup bytes.now f → result ≡ Ok f }
        ensures error { OnErr result (result ≡ Err FisError.ReservedSet) }
    {
        let flags = bytes[1];
        if flags >> 7 != 0 {
            return Err(FisError::ReservedSet);
        }
        if flags >> 4 & 1 != 0 {
            return Err(FisError::ReservedSet);
        }
        if !reserved_bytes_clear(bytes) {
            return Err(FisError::ReservedSet);
        }
        Ok(PioSetup {
            interrupt: flags >> 6 & 1 == 1,
            to_host: flags >> 5 & 1 == 1,
            port: PortNumber::low_bits(flags),
            status: bytes[2],
            error: bytes[3],
            lba: Lba::from_bytes([bytes[4], bytes[5], bytes[6], bytes[8], bytes[9], bytes[10]]),
            device: bytes[7],
            count: u16_at(bytes, 12),
            end_status: bytes[15],
            transfer_count: u16_at(bytes, 16),
        })
    }
}
