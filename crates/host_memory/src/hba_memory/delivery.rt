//! What the engine puts into the host's memory: data, their count, and received FISes (AHCI 1.3.1, 4.2 and 5.4.1).

ghost use Rattle.std.specs.Prelude.{◌≡◌, ◌≤◌, ◌<◌, ◌+◌, ◌^◌, ◌&&◌, ◌||◌, ℕ, List, Some, None, length};
ghost use Rattle.std.specs.Result.{result_err};
ghost use Rattle.fis.specs.Fis.{IsSpelling};
ghost use Rattle.host_memory.specs.Access.{Access, Accessed, IsAccess, Laid};
ghost use Rattle.host_memory.specs.Memory.{tells_error, takes_data, data_taken, written_by, moved_by, runs_short, ending, Scatters, Counts, Posts, PostsTo, Then, EndsBy, Delivers};

use crate::hba_memory::miss::Miss;
use crate::hba_memory::reading::{Header, Moved, data_at, data_len};
use crate::{AddressWidth, HostMemory, Source, read_array, write_at, write_source_at};
use byteorder::{ByteOrder, LittleEndian};
use fis::Fis;
use slots::fields::{DESCRIPTOR, received_offset};

/// Where PRDBC stands in a command header (AHCI 1.3.1, 4.2.2).
const BYTE_COUNT: u128 = 4;

/// Lays data over the blocks that so many descriptors from an address on name, one after the other. A descriptor is read
/// where bytes go to its block alone. Gives how they moved, and what was missed behind them.
fn scatter<M: HostMemory, S: Source>(
    memory: &mut M,
    width: AddressWidth,
    at: u128,
    entries: u16,
    source: &S,
) -> (Moved, Option<Miss>)
    requires { at < 2 ^ 65 }
    ensures talk { (talk : List Access)
        × Accessed (IsAccess width M.does) memory.old talk memory.new
        × Scatters at entries (S.bytes source.now) talk result.1
        × (result.0 ≡ moved_by talk (written_by talk)) }
    ensures most { result.0.len ≤ length (S.bytes source.now) }
{
    let len = source.len();
    let mut moved = Moved::none();
    for k in 0..entries {
        if moved.len == len {
            return (moved, None);
        }
        let Some(entry) = read_array(memory, width, at + DESCRIPTOR as u128 * u128::from(k)) else {
            return (moved, Some(Miss::Table));
        };
        let end = moved.len + data_len(&entry).min(len - moved.len);
        if !write_source_at(memory, width, data_at(&entry), source, moved.len, end) {
            return (moved, Some(Miss::Block));
        }
        moved = moved.with(&entry, end);
    }
    if moved.len == len {
        (moved, None)
    } else {
        (moved, Some(Miss::Overflow))
    }
}

/// Stores PRDBC in the header at an address, where bytes moved.
///
/// # Errors
///
/// Where memory failed.
fn count<M: HostMemory>(
    memory: &mut M,
    width: AddressWidth,
    header: u128,
    moved: usize,
) -> Result<(), Miss>
    requires { header < 2 ^ 65 }
    ensures { (talk : List Access) × Accessed (IsAccess width M.does) memory.old talk memory.new
        × Counts header moved talk (result_err result) }
{
    if moved == 0 {
        return Ok(());
    }
    let mut bytes = [0; 4];
    LittleEndian::write_u32(&mut bytes, (moved % 0x1_0000_0000) as u32);
    if write_at(memory, width, header + BYTE_COUNT, &bytes) {
        Ok(())
    } else {
        Err(Miss::List)
    }
}

/// Whether a FIS tells that the device fails its command.
fn tells_error(fis: &Fis) -> bool
    ensures { result ≡ tells_error fis.now }
{
    match fis {
        Fis::D2h(f) => f.status % 2 == 1,
        Fis::H2d(_) | Fis::PioSetup(_) | Fis::DmaSetup(_) | Fis::SetDeviceBits(_) => false,
    }
}

/// Whether the device took the bytes that were brought: not where it fails the command.
fn takes_data(fises: &[Fis]) -> bool
    ensures { result ≡ takes_data fises.now }
{
    match fises {
        [fis, ..] => !tells_error(fis),
        [] => true,
    }
}

/// How many of the bytes that were brought the device took.
fn data_taken(fises: &[Fis], brought: usize) -> usize
    ensures value { result ≡ data_taken fises.now brought }
    ensures most { result ≤ brought }
{
    if takes_data(fises) { brought } else { 0 }
}

/// Whether a block is done whose descriptor asks to tell of it, among those of bytes that were brought and laid.
fn is_processed(fises: &[Fis], brought: Moved, laid: Moved) -> bool
    ensures { result
        ≡ (takes_data fises.now && brought.is_processed || laid.is_processed) }
{
    takes_data(fises) && brought.is_processed || laid.is_processed
}

/// Stores a FIS at an address; false where memory failed.
fn store<M: HostMemory>(memory: &mut M, width: AddressWidth, at: u128, fis: &Fis) -> bool
    ensures { (bytes : List ℕ) × IsSpelling bytes fis.now
        × IsAccess width M.does memory.old (Laid at bytes result) memory.new }
{
    match fis {
        Fis::H2d(f) => write_at(memory, width, at, &f.to_bytes()),
        Fis::D2h(f) => write_at(memory, width, at, &f.to_bytes()),
        Fis::SetDeviceBits(f) => write_at(memory, width, at, &f.to_bytes()),
        Fis::DmaSetup(f) => write_at(memory, width, at, &f.to_bytes()),
        Fis::PioSetup(f) => write_at(memory, width, at, &f.to_bytes()),
    }
}

/// Stores received FISes at a place, in their order.
///
/// # Errors
///
/// Where memory failed. FISes before it are stored.
fn post<M: HostMemory>(
    memory: &mut M,
    width: AddressWidth,
    at: u64,
    fises: &[Fis],
) -> Result<(), Miss>
    ensures { (talk : List Access) × Accessed (IsAccess width M.does) memory.old talk memory.new
        × Posts at fises.now talk (result_err result) }
{
    for fis in fises {
        let place = u128::from(at) + received_offset(fis) as u128;
        if !store(memory, width, place, fis) {
            return Err(Miss::Fis);
        }
    }
    Ok(())
}

/// Stores received FISes, where there is a place for them.
///
/// # Errors
///
/// Where memory failed. FISes before it are stored.
pub fn post_all<M: HostMemory>(
    memory: &mut M,
    width: AddressWidth,
    to: Option<u64>,
    fises: &[Fis],
) -> Result<(), Miss>
    ensures { (talk : List Access) × Accessed (IsAccess width M.does) memory.old talk memory.new
        × PostsTo to fises.now talk (result_err result) }
{
    match to {
        Some(at) => post(memory, width, at, fises),
        None => Ok(()),
    }
}

/// Where a command's header stands, what it names, and where received FISes go.
#[derive(Clone, Copy, Debug, PartialEq, Eq)]
pub struct Place {
    pub at: u128,
    pub header: Header,
    pub to: Option<u64>,
}

/// How what an act gives arrived in the memory.
#[derive(Clone, Copy, Debug, PartialEq, Eq)]
pub struct Arrival {
    /// The PRDT had no room for all data.
    pub is_short: bool,
    /// A block is done whose descriptor asks to tell of it.
    pub is_processed: bool,
    /// What was missed.
    pub missed: Option<Miss>,
}

/// Whether the PRDT had no room for some bytes.
fn runs_short(missed: Option<Miss>) -> bool
    ensures { result ≡ runs_short missed }
{
    match missed {
        Some(Miss::Overflow) => true,
        Some(Miss::List | Miss::Table | Miss::Block | Miss::Fis) | None => false,
    }
}

/// What ends a command of which data were laid: the end of the PRDT does not.
fn ending(missed: Option<Miss>) -> Option<Miss>
    ensures { result ≡ ending missed }
{
    match missed {
        Some(Miss::Overflow) => None,
        Some(Miss::List | Miss::Table | Miss::Block | Miss::Fis) | None => missed,
    }
}

/// Stores PRDBC, and then received FISes; tells what was missed.
fn count_and_post<M: HostMemory>(
    memory: &mut M,
    width: AddressWidth,
    header: u128,
    moved: usize,
    to: Option<u64>,
    fises: &[Fis],
) -> Option<Miss>
    requires { header < 2 ^ 65 }
    ensures { (talk : List Access) × Accessed (IsAccess width M.does) memory.old talk memory.new
        × Then (Counts header moved) (PostsTo to fises.now) talk result }
{
    match count(memory, width, header, moved) {
        Ok(()) => post_all(memory, width, to, fises).err(),
        Err(miss) => Some(miss),
    }
}

/// Stores PRDBC, and received FISes unless the data ended by what was missed; tells what was missed first.
fn end<M: HostMemory>(
    memory: &mut M,
    width: AddressWidth,
    ended: Option<Miss>,
    header: u128,
    moved: usize,
    to: Option<u64>,
    fises: &[Fis],
) -> Option<Miss>
    requires { header < 2 ^ 65 }
    ensures { (talk : List Access) × Accessed (IsAccess width M.does) memory.old talk memory.new
        × EndsBy ended (Counts header moved) (PostsTo to fises.now) talk result }
{
    match ended {
        Some(miss) => {
            let _ = count(memory, width, header, moved);
            Some(miss)
        }
        None => count_and_post(memory, width, header, moved, to, fises),
    }
}

/// What an act gives reaches the memory: its data over their blocks, as far as the PRDT and the memory go, the count of
/// the bytes that moved, those that it took of what was brought among them, and its FISes.
pub fn deliver<M: HostMemory, S: Source>(
    memory: &mut M,
    width: AddressWidth,
    place: Place,
    brought: Moved,
    fises: &[Fis],
    source: &S,
) -> Arrival
    requires near { place.at < 2 ^ 65 }
    requires short { brought.len < 2 ^ 63 }
    requires few { length (S.bytes source.now) < 2 ^ 63 }
    ensures { (talk : List Access) × Accessed (IsAccess width M.does) memory.old talk memory.new
        × Delivers place brought fises.now (S.bytes source.now) talk result }
{
    let (laid, lost) = scatter(
        memory,
        width,
        place.header.descriptors(),
        place.header.entries,
        source,
    );
    let is_processed = is_processed(fises, brought, laid);
    let moved = data_taken(fises, brought.len) + laid.len;
    let missed = end(
        memory,
        width,
        ending(lost),
        place.at,
        moved,
        place.to,
        fises,
    );
    Arrival {
        is_short: runs_short(lost),
        is_processed,
        missed,
    }
}
