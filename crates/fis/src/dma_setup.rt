//! The DMA Setup FIS.

ghost use Rattle.std.specs.Prelude.{◌≤◌, ◌↔◌, IsTrue, length, [], ◌∷◌};
ghost use Rattle.fis.specs.Bytes.{AreClear};
ghost use Rattle.fis.specs.Types.{dma_setup_length};

use crate::bytes::u32_at;
use crate::error::FisError;
use crate::fields::PortNumber;

/// The first byte of the FIS.
pub(crate) const DMA_SETUP_TYPE: u8 = 0x41;

/// How many bytes the FIS has.
pub(crate) const DMA_SETUP_LENGTH: usize = 28;

/// A DMA Setup FIS (Serial ATA, "DMA Setup - Device to Host or Host to Device").
#[derive(Clone, Copy, Debug, Default, PartialEq, Eq)]
pub struct DmaSetup {
    /// Bit A: the transfer needs no DMA Activate FIS.
    pub auto_activate: bool,
    /// Bit I: the port raises an interrupt when the data has moved.
    pub interrupt: bool,
    /// Bit D: the data goes to the host.
    pub to_host: bool,
    pub port: PortNumber,
    /// The low half of the buffer's identifier: the tag of a queued command.
    pub buffer_low: u32,
    pub buffer_high: u32,
    /// Where in the buffer the data begins, in bytes.
    pub offset: u32,
    /// How many bytes move.
    pub count: u32,
}

/// Whether the bytes of no field are zeros.
fn reserved_clear(bytes: &[u8]) -> bool
    requires { dma_setup_length ≤ length bytes.now }
    ensures { IsTrue result
        ↔ AreClear bytes.now (2 ∷ 3 ∷ 12 ∷ 13 ∷ 14 ∷ 15 ∷ 24 ∷ 25 ∷ 26 ∷ 27 ∷ []) }
{
    bytes[2] == 0
        && bytes[3] == 0
        && bytes[12] == 0
        && bytes[13] == 0
        && bytes[14] == 0
        && bytes[15] == 0
        && bytes[24] == 0
        && bytes[25] == 0
        && bytes[26] == 0
        && bytes[27] == 0
}

impl DmaSetup {
    ghost use Rattle.std.specs.Prelude.{◌≡◌, ◌≤◌, IfOk, OnErr, Err, Ok, length, slice_index};
    ghost use Rattle.fis.specs.Types.{dma_setup_type, dma_setup_length};
    ghost use Rattle.fis.specs.DmaSetup.{IsDmaSetup, flags_of};
    ghost use Rattle.fis.specs.declared.dma_setup.DmaSetup.{DmaSetup};

    /// The bytes of the FIS, with zeros in what it reserves.
    pub fn to_bytes(&self) -> [u8; DMA_SETUP_LENGTH]
        ensures { IsDmaSetup result self.now }
    {
        let low = self.buffer_low.to_le_bytes();
        let high = self.buffer_high.to_le_bytes();
        let offset = self.offset.to_le_bytes();
        let count = self.count.to_le_bytes();
        let flags = self.flags() + self.port.number();
        [
            DMA_SETUP_TYPE,
            flags,
            0,
            0,
            low[0],
            low[1],
            low[2],
            low[3],
            high[0],
            high[1],
            high[2],
            high[3],
            0,
            0,
            0,
            0,
            offset[0],
            offset[1],
            offset[2],
            offset[3],
            count[0],
            count[1],
            count[2],
            count[3],
            0,
            0,
            0,
            0,
        ]
    }

    /// The three flags, at their bits of the second byte.
    fn flags(&self) -> u8
        ensures { result ≡ flags_of self.now }
    {
        128 * u8::from(self.auto_activate)
            + 64 * u8::from(self.interrupt)
            + 32 * u8::from(self.to_host)
    }

    /// Reads the FIS from bytes of its type. The only error is `ReservedSet`.
    #[tactic(auto, using(crate::proofs::Flags::three_flags))]
    pub fn read(bytes: &[u8]) -> Result<DmaSetup, FisError>
        requires long { dma_setup_length ≤ length bytes.now }
        requires kind { slice_index bytes.now 0 ≡ dma_setup_type }
        ensures found { IfOk result (λ f. IsDmaSetup bytes.now f) }
        ensures only { (f : DmaSetup) → IsDmaSetup bytes.now f → result ≡ Ok f }
        ensures error { OnErr result (result ≡ Err FisError.ReservedSet) }
    {
        let flags = bytes[1];
        if flags >> 4 & 1 != 0 {
            return Err(FisError::ReservedSet);
        }
        if !reserved_clear(bytes) {
            return Err(FisError::ReservedSet);
        }
        Ok(DmaSetup {
            auto_activate: flags >> 7 == 1,
            interrupt: flags >> 6 & 1 == 1,
            to_host: flags >> 5 & 1 == 1,
            port: PortNumber::low_bits(flags),
            buffer_low: u32_at(bytes, 4),
            buffer_high: u32_at(bytes, 8),
            offset: u32_at(bytes, 16),
            count: u32_at(bytes, 20),
        })
    }
}
