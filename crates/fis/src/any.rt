//! A FIS of any kind that a device sends, or a host.

ghost use Rattle.std.specs.Prelude.{◌≡◌, ◌<◌, ◌≤◌, ◌↔◌, IfOk, OnErr, IsErrOf, Ok, Err, Some, None, length, slice_index};
ghost use Rattle.fis.specs.Fis.{IsWriting, length_of, least_length, IsUnknown, blank_register_fis};
ghost use Rattle.fis.specs.declared.any.Fis.{Fis};

use crate::d2h::{D2H_LENGTH, D2H_TYPE, RegD2h};
use crate::dma_setup::{DMA_SETUP_LENGTH, DMA_SETUP_TYPE, DmaSetup};
use crate::error::FisError;
use crate::h2d::{H2D_LENGTH, H2D_TYPE, RegH2d};
use crate::pio_setup::{PIO_SETUP_LENGTH, PIO_SETUP_TYPE, PioSetup};
use crate::set_device_bits::{SET_DEVICE_BITS_LENGTH, SET_DEVICE_BITS_TYPE, SetDeviceBits};
use arrayvec::ArrayVec;

/// A FIS of any type that passes between the host and the drive (Serial ATA, "FIS types").
#[derive(Clone, Copy, Debug, PartialEq, Eq)]
pub enum Fis {
    H2d(RegH2d),
    D2h(RegD2h),
    SetDeviceBits(SetDeviceBits),
    DmaSetup(DmaSetup),
    PioSetup(PioSetup),
}

/// A register FIS to the host with zeros in all its fields.
impl Default for Fis {
    ghost is_default = { λ f. f ≡ blank_register_fis };

    fn default() -> Fis {
        Fis::D2h(RegD2h::default())
    }
}

/// How many bytes a FIS has, by its first.
fn length_of(kind: u8) -> Option<usize>
    ensures { result ≡ length_of kind }
{
    match kind {
        H2D_TYPE => Some(H2D_LENGTH),
        D2H_TYPE => Some(D2H_LENGTH),
        SET_DEVICE_BITS_TYPE => Some(SET_DEVICE_BITS_LENGTH),
        DMA_SETUP_TYPE => Some(DMA_SETUP_LENGTH),
        PIO_SETUP_TYPE => Some(PIO_SETUP_LENGTH),
        _ => None,
    }
}

/// The bytes in a vector that takes no memory.
fn gathered(bytes: &[u8]) -> ArrayVec<u8, 28>
    requires { length bytes.now ≤ 28 }
    ensures { result.items ≡ bytes.now }
{
    let mut gathered = ArrayVec::new();
    gathered.try_extend_from_slice(bytes).unwrap();
    gathered
}

/// Reads a FIS whose type is known and whose bytes are all there.
fn read_whole(bytes: &[u8], len: usize) -> Result<Fis, FisError>
    requires known { length_of (slice_index bytes.now 0) ≡ Some len }
    requires long { len ≤ length bytes.now }
    ensures found { IfOk result (λ f. IsWriting bytes.now f) }
    ensures only { (f : Fis) → IsWriting bytes.now f → result ≡ Ok f }
    ensures error { OnErr result (result ≡ Err FisError.ReservedSet) }
{
    let kind = bytes[0];
    if kind == H2D_TYPE {
        return Ok(Fis::H2d(RegH2d::read(bytes)));
    }
    if kind == D2H_TYPE {
        return Ok(Fis::D2h(RegD2h::read(bytes)?));
    }
    if kind == SET_DEVICE_BITS_TYPE {
        return Ok(Fis::SetDeviceBits(SetDeviceBits::read(bytes)?));
    }
    if kind == DMA_SETUP_TYPE {
        return Ok(Fis::DmaSetup(DmaSetup::read(bytes)?));
    }
    Ok(Fis::PioSetup(PioSetup::read(bytes)?))
}

impl Fis {
    ghost use Rattle.std.specs.Prelude.{◌≡◌, ◌<◌, ◌↔◌, ◌++◌, ℕ, List, IfOk, IsErrOf, Ok, length};
    ghost use Rattle.fis.specs.Fis.{IsWriting, IsSpelling, IsUnknown, least_length};
    ghost use Rattle.fis.specs.declared.any.Fis.{Fis};

    /// The bytes of the FIS, with zeros in all bits that its type reserves.
    pub fn to_bytes(&self) -> ArrayVec<u8, 28>
        ensures { IsSpelling result.items self.now }
    {
        match self {
            Fis::H2d(f) => gathered(&f.to_bytes()),
            Fis::D2h(f) => gathered(&f.to_bytes()),
            Fis::SetDeviceBits(f) => gathered(&f.to_bytes()),
            Fis::DmaSetup(f) => gathered(&f.to_bytes()),
            Fis::PioSetup(f) => gathered(&f.to_bytes()),
        }
    }

    /// Reads the FIS at the front of the bytes. Bytes behind it are not looked at.
    ///
    /// The errors come in this order: `Short` for no bytes, `UnknownType` by the first byte,
    /// `Short` for a FIS that is cut, `ReservedSet`.
    pub fn read(bytes: &[u8]) -> Result<Fis, FisError>
        ensures found { IfOk result (λ f. IsWriting bytes.now f) }
        ensures only { (f : Fis) → IsWriting bytes.now f → result ≡ Ok f }
        ensures followed { (f : Fis) (written rest : List ℕ) → IsWriting written f
            → bytes.now ≡ written ++ rest → result ≡ Ok f }
        ensures unknown { IsErrOf result FisError.UnknownType ↔ IsUnknown bytes.now }
        ensures short { IsErrOf result FisError.Short
            ↔ (length bytes.now < least_length bytes.now) }
    {
        read_front(bytes)
    }
}

/// Reads the FIS at the front of the bytes.
fn read_front(bytes: &[u8]) -> Result<Fis, FisError>
    ensures found { IfOk result (λ f. IsWriting bytes.now f) }
    ensures only { (f : Fis) → IsWriting bytes.now f → result ≡ Ok f }
    ensures unknown { IsErrOf result FisError.UnknownType ↔ IsUnknown bytes.now }
    ensures short { IsErrOf result FisError.Short ↔ (length bytes.now < least_length bytes.now) }
{
    if bytes.is_empty() {
        return Err(FisError::Short);
    }
    match length_of(bytes[0]) {
        None => Err(FisError::UnknownType),
        Some(len) => {
            if bytes.len() < len {
                return Err(FisError::Short);
            }
            read_whole(bytes, len)
        }
    }
}
