//! Where the parts of the memory stand.

ghost use Rattle.std.specs.Prelude.{◌≡◌, ◌≤◌, ◌+◌};
ghost use Rattle.slots.specs.Layout.{header_place, table_place, buffer_place, received_place, memory_size, received_at, received_size, buffers_at};
ghost use Rattle.fis.specs.Types.{dma_setup_length};
ghost use Rattle.fis.specs.declared.any.Fis.{Fis};

use crate::fields::{HEADER, received_offset};
use fis::{Fis, SLOT_COUNT, Tag};

/// Where received FISes stand. The command list stands at 0.
const RECEIVED: usize = 0x400;

/// Where the command tables stand.
const TABLES: usize = 0x800;

/// How many bytes a command table has.
pub(crate) const TABLE: usize = 0x100;

/// Where the buffers stand.
const BUFFERS: usize = 0x1_0000;

/// How many bytes the buffer of a slot has.
pub const BUFFER: usize = 0x2_0000;

/// How many bytes the memory of a port has: the buffers stand last.
pub const MEMORY: usize = BUFFERS + SLOT_COUNT * BUFFER;

pub(crate) fn header_place(tag: Tag) -> usize
    ensures value { result ≡ header_place tag }
    ensures inside { result + HEADER ≤ received_at }
{
    HEADER * usize::from(tag.number())
}

pub(crate) fn table_place(tag: Tag) -> usize
    ensures value { result ≡ table_place tag }
    ensures inside { result + TABLE ≤ buffers_at }
{
    TABLES + TABLE * usize::from(tag.number())
}

pub(crate) fn buffer_place(tag: Tag) -> usize
    ensures value { result ≡ buffer_place tag }
    ensures inside { result + BUFFER ≤ MEMORY }
{
    BUFFERS + BUFFER * usize::from(tag.number())
}

/// Where a FIS of this type is received. One that no device sends is stored as unknown.
pub(crate) fn received_place(fis: &Fis) -> usize
    ensures value { result ≡ received_place fis.now }
    ensures inside { result + dma_setup_length ≤ received_at + received_size }
{
    RECEIVED + received_offset(fis)
}
