//! Frame information structures (Serial ATA, "FIS types").

ghost use Rattle.std.specs.Prelude.{◌≡◌, ◌++◌, OnOk, MatchOption, Some, None};
ghost use Rattle.decoded.specs.Faults.{Checks};
ghost use Rattle.decoded.specs.FisLayouts.{layout_said, layout_of, reserved_place, reserved_fault, layout_fault, fis_fault, fis_lines};

use crate::fault::DecodeFault;
use crate::field::{Field, Form, append_line, append_rows, byte_at, check_fields, check_size};
use std::alloc::{AllocError, Global};

const HOST: [Field; 11] = [
    Field("FISType", &[0], Form::Hex),
    Field("C", &[1], Form::Flag(0x80)),
    Field("PMPort", &[1], Form::Low(0x0f)),
    Field("Command", &[2], Form::Hex),
    Field("Features", &[11, 3], Form::Hex),
    Field("LBA", &[10, 9, 8, 6, 5, 4], Form::Decimal),
    Field("Device", &[7], Form::Hex),
    Field("Count", &[13, 12], Form::Decimal),
    Field("ICC", &[14], Form::Hex),
    Field("Control", &[15], Form::Hex),
    Field("Auxiliary", &[19, 18, 17, 16], Form::Hex),
];

const DEVICE: [Field; 8] = [
    Field("FISType", &[0], Form::Hex),
    Field("I", &[1], Form::Flag(0x40)),
    Field("PMPort", &[1], Form::Low(0x0f)),
    Field("Status", &[2], Form::Hex),
    Field("Error", &[3], Form::Hex),
    Field("LBA", &[10, 9, 8, 6, 5, 4], Form::Decimal),
    Field("Device", &[7], Form::Hex),
    Field("Count", &[13, 12], Form::Decimal),
];

const DEVICE_BITS: [Field; 7] = [
    Field("FISType", &[0], Form::Hex),
    Field("N", &[1], Form::Flag(0x80)),
    Field("I", &[1], Form::Flag(0x40)),
    Field("PMPort", &[1], Form::Low(0x0f)),
    Field("Status", &[2], Form::Hex),
    Field("Error", &[3], Form::Hex),
    Field("SActive", &[7, 6, 5, 4], Form::Hex),
];

const DMA: [Field; 9] = [
    Field("FISType", &[0], Form::Hex),
    Field("A", &[1], Form::Flag(0x80)),
    Field("I", &[1], Form::Flag(0x40)),
    Field("D", &[1], Form::Flag(0x20)),
    Field("PMPort", &[1], Form::Low(0x0f)),
    Field("DMABufferIdentifierLow", &[7, 6, 5, 4], Form::Decimal),
    Field("DMABufferIdentifierHigh", &[11, 10, 9, 8], Form::Decimal),
    Field("DMABufferOffset", &[19, 18, 17, 16], Form::Decimal),
    Field("DMATransferCount", &[23, 22, 21, 20], Form::Decimal),
];

const PIO: [Field; 11] = [
    Field("FISType", &[0], Form::Hex),
    Field("I", &[1], Form::Flag(0x40)),
    Field("D", &[1], Form::Flag(0x20)),
    Field("PMPort", &[1], Form::Low(0x0f)),
    Field("Status", &[2], Form::Hex),
    Field("Error", &[3], Form::Hex),
    Field("LBA", &[10, 9, 8, 6, 5, 4], Form::Decimal),
    Field("Device", &[7], Form::Hex),
    Field("Count", &[13, 12], Form::Decimal),
    Field("E_Status", &[15], Form::Hex),
    Field("TransferCount", &[17, 16], Form::Decimal),
];

/// Bits that a type reserves: a byte, and a mask.
type Reserved = (usize, u8);

const DEVICE_RESERVED: [Reserved; 8] = [
    (1, 0xb0),
    (11, 255),
    (14, 255),
    (15, 255),
    (16, 255),
    (17, 255),
    (18, 255),
    (19, 255),
];

const DEVICE_BITS_RESERVED: [Reserved; 2] = [(1, 0x30), (2, 0x88)];

const DMA_RESERVED: [Reserved; 11] = [
    (1, 0x10),
    (2, 255),
    (3, 255),
    (12, 255),
    (13, 255),
    (14, 255),
    (15, 255),
    (24, 255),
    (25, 255),
    (26, 255),
    (27, 255),
];

const PIO_RESERVED: [Reserved; 5] = [(1, 0x90), (11, 255), (14, 255), (18, 255), (19, 255)];

/// A type of FIS: its name, how many bytes it has, its fields, and what it reserves.
#[derive(Clone, Copy)]
pub(crate) struct Layout {
    pub name: &'static str,
    pub size: usize,
    pub fields: &'static [Field],
    pub reserved: &'static [Reserved],
}

/// The layout of a type, by the first byte.
#[tactic(auto, unfolding(crate::specs::FisLayouts::host_fields, crate::specs::FisLayouts::device_fields, crate::specs::FisLayouts::device_bits_fields, crate::specs::FisLayouts::dma_fields, crate::specs::FisLayouts::pio_fields, crate::specs::FisLayouts::device_reserved, crate::specs::FisLayouts::device_bits_reserved, crate::specs::FisLayouts::dma_reserved, crate::specs::FisLayouts::pio_reserved))]
fn layout_of(kind: u8) -> Option<Layout>
    ensures { MatchOption result (layout_of kind ≡ None)
        (λ layout. layout_of kind ≡ Some (layout_said layout)) }
{
    match kind {
        0x27 => Some(Layout {
            name: "RegisterHostToDevice",
            size: 20,
            fields: &HOST,
            reserved: &[],
        }),
        0x34 => Some(Layout {
            name: "RegisterDeviceToHost",
            size: 20,
            fields: &DEVICE,
            reserved: &DEVICE_RESERVED,
        }),
        0xa1 => Some(Layout {
            name: "SetDeviceBits",
            size: 8,
            fields: &DEVICE_BITS,
            reserved: &DEVICE_BITS_RESERVED,
        }),
        0x41 => Some(Layout {
            name: "DMASetup",
            size: 28,
            fields: &DMA,
            reserved: &DMA_RESERVED,
        }),
        0x5f => Some(Layout {
            name: "PIOSetup",
            size: 20,
            fields: &PIO,
            reserved: &PIO_RESERVED,
        }),
        _ => None,
    }
}

/// The first byte in which a reserved bit is set.
fn reserved_place(reserved: &[Reserved], bytes: &[u8]) -> Option<usize>
    ensures { result ≡ reserved_place reserved.now bytes.now }
{
    for (place, mask) in reserved {
        if byte_at(bytes, *place) & *mask != 0 {
            return Some(*place);
        }
    }
    None
}

/// Sees that no reserved bit is set.
fn check_reserved(reserved: &[Reserved], bytes: &[u8]) -> Result<(), DecodeFault>
    ensures { Checks (reserved_fault reserved.now bytes.now) result }
{
    match reserved_place(reserved, bytes) {
        Some(place) => Err(DecodeFault::Reserved(place)),
        None => Ok(()),
    }
}

/// Sees that the bytes have all of a layout.
fn check_layout(layout: &Layout, bytes: &[u8]) -> Result<(), DecodeFault>
    ensures { Checks (layout_fault (layout_said layout.now) bytes.now) result }
{
    check_fields(layout.fields, bytes)?;
    check_size(layout.size, "Reserved", bytes)?;
    check_reserved(layout.reserved, bytes)?;
    Ok(())
}

/// Sees that bytes begin with a FIS.
pub(crate) fn check_fis(bytes: &[u8]) -> Result<(), DecodeFault>
    ensures { Checks (fis_fault bytes.now) result }
{
    check_size(1, "FISType", bytes)?;
    let kind = byte_at(bytes, 0);
    match layout_of(kind) {
        Some(layout) => {
            check_layout(&layout, bytes)?;
            Ok(())
        }
        None => Err(DecodeFault::UnknownType(kind)),
    }
}

/// Appends the lines of a FIS.
pub(crate) fn append_fis(alloc: Global, text: &mut Vec<u8>, bytes: &[u8]) -> Result<(), AllocError>
    ensures { OnOk result (text.new.items ≡ text.old.items ++ fis_lines bytes.now) }
{
    match layout_of(byte_at(bytes, 0)) {
        Some(layout) => {
            append_line(text, "FIS", layout.name.as_bytes())?;
            append_rows(alloc, text, layout.fields, bytes)?;
            Ok(())
        }
        None => Ok(()),
    }
}
