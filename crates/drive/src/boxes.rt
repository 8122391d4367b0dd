//! The large parts of a drive, each in a box of its own: so a drive is moved as a few words.

ghost use Rattle.std.specs.Prelude.{◌≡◌, ◌≤◌, ℕ, [], IfOk, None};
ghost use Rattle.shadow_mbr.specs.Stored.{sector_at, zeros};
ghost use Rattle.history.specs.Opening.{origin_on};
ghost use Rattle.history.specs.Agreement.{HasNoTries};
ghost use Rattle.history.specs.KeptStore.{HasKnownRows};
ghost use Rattle.basics.specs.Addresses.{address_limit};
ghost use Rattle.sessions.specs.Beside.{new_beside};
ghost use Rattle.sessions.specs.Live.{session_at};
ghost use Rattle.sp_cells.specs.Config.{table_sectors};
ghost use Rattle.tper.specs.Tper.{Keeps, response_at};
ghost use Rattle.transactions.specs.Stored.{new_store};
ghost use Rattle.drive.specs.Queue.{AllFit, empty_queue};

use crate::queue::Queue;
use shadow_mbr::{Mbr, Media};
use sp_tables::Tables;
use std::alloc::{AllocError, Global};
use tper::Tper;

/// A value in a box of its own.
#[inline(always)]
fn boxed<T: Drop>(alloc: Global, value: T) -> Result<Box<T>, AllocError>
    ensures { IfOk result (λ b. b.value ≡ value) }
{
    match Box::new(alloc, value) {
        Ok(boxed) => Ok(boxed),
        Err(refused) => {
            drop(refused.value);
            Err(AllocError)
        }
    }
}

/// A TPer over these tables. It is a call of its own for the stack that it takes, as are the two below.
#[inline(never)]
pub(crate) fn tper_over(alloc: Global, tables: Tables) -> Result<Box<Tper>, AllocError>
    ensures kept { IfOk result (λ tper. HasNoTries (origin_on tables)
        → HasKnownRows (origin_on tables) → Keeps tper.value (origin_on tables) []) }
    ensures config { IfOk result (λ tper. tper.value.store.config ≡ tables.config) }
{
    boxed(alloc, Tper::new(alloc, tables))
}

/// A TPer over these tables and bytes, in which no session lives.
#[inline(never)]
pub(crate) fn resumed_tper(
    alloc: Global,
    tables: Tables,
    bytes: Mbr,
    next: u64,
    drawn: u64,
) -> Result<Box<Tper>, AllocError>
    requires { bytes.sectors ≡ table_sectors tables.config }
    ensures store { IfOk result (λ tper. tper.value.store ≡ new_store tables bytes) }
    ensures sessions { IfOk result (λ tper. (n : ℕ) → session_at tper.value.live n ≡ None) }
    ensures next { IfOk result (λ tper. tper.value.live.next ≡ next) }
    ensures beside { IfOk result (λ tper.
        tper.value.live.beside ≡ record new_beside { drawn = drawn }) }
    ensures waiting { IfOk result (λ tper. (com_id : ℕ)
        → response_at tper.value.waiting com_id ≡ None) }
{
    boxed(alloc, Tper::resumed(alloc, tables, bytes, next, drawn))
}

/// A queue that holds nothing.
#[inline(never)]
pub(crate) fn new_queue(alloc: Global) -> Result<Box<Queue>, AllocError>
    ensures empty { IfOk result (λ queue. queue.value ≡ empty_queue) }
    ensures fits { IfOk result (λ queue. (sectors mbr : ℕ) → AllFit sectors mbr queue.value) }
{
    let queue: Queue = Queue::new();
    match Box::new(alloc, queue) {
        Ok(boxed) => Ok(boxed),
        Err(_) => Err(AllocError),
    }
}

/// Media of zeros.
#[inline(never)]
pub(crate) fn new_media(alloc: Global, sectors: u64) -> Result<Box<Media>, AllocError>
    requires { sectors ≤ address_limit }
    ensures sectors { IfOk result (λ media. media.value.sectors ≡ sectors) }
    ensures blank { IfOk result (λ media. (s : ℕ) → sector_at media.value s ≡ zeros) }
{
    boxed(alloc, Media::new(alloc, sectors))
}

/// These media.
#[inline(never)]
pub(crate) fn boxed_media(alloc: Global, media: Media) -> Result<Box<Media>, AllocError>
    ensures { IfOk result (λ b. b.value ≡ media) }
{
    boxed(alloc, media)
}

/// The same TPer once more. It is a call of its own for the stack that it takes, as are the two below.
#[inline(never)]
pub(crate) fn copy_tper(alloc: Global, tper: &Tper) -> Result<Box<Tper>, AllocError>
    ensures { IfOk result (λ copied. copied.value ≡ tper.now) }
{
    boxed(alloc, tper.copy()?)
}

/// The same queue once more.
#[inline(never)]
pub(crate) fn copy_queue(alloc: Global, queue: &Queue) -> Result<Box<Queue>, AllocError>
    ensures { IfOk result (λ copied. copied.value ≡ queue.now) }
{
    match Box::new(alloc, *queue) {
        Ok(boxed) => Ok(boxed),
        Err(_) => Err(AllocError),
    }
}

/// The same media once more.
#[inline(never)]
pub(crate) fn copy_media(alloc: Global, media: &Media) -> Result<Box<Media>, AllocError>
    ensures { IfOk result (λ copied. copied.value ≡ media.now) }
{
    boxed(alloc, media.copy()?)
}
