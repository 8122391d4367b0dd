//! FISes of commands whose data are several blocks (Serial ATA, PIO data-in and PIO data-out).

ghost use Rattle.std.specs.Prelude.{◌≡◌, ◌+◌, ◌/◌, map, length};
ghost use Rattle.hba.specs.Blocks.{block_size};
ghost use Rattle.hba.specs.Blocks.{of_last_block};

use arrayvec::ArrayVec;
use fis::{Fis, PioSetup};

/// How many bytes a DRQ block has.
const BLOCK: usize = 512;

/// What stands for the FISes of so many blocks: of PIO Setup FISes the last.
fn of_last_block(fis: &Fis, blocks: usize) -> Fis
    ensures { result ≡ of_last_block blocks fis.now }
{
    match *fis {
        Fis::PioSetup(f) => Fis::PioSetup(PioSetup {
            interrupt: f.interrupt || 2 <= blocks,
            ..f
        }),
        other => other,
    }
}

/// The FISes of a command that is in so many blocks.
fn all_of_last_block(fises: &ArrayVec<Fis, 2>, blocks: usize) -> ArrayVec<Fis, 2>
    ensures { result.items ≡ map (of_last_block blocks) fises.now.items }
{
    let mut told = ArrayVec::new();
    for fis in fises.as_slice() {
        told.push(of_last_block(fis, blocks));
    }
    told
}

/// The FISes of a command of which so many bytes move, to the drive or from it. A D2H Register FIS alone stays as it is.
pub(crate) fn by_blocks(fises: ArrayVec<Fis, 2>, moved: usize) -> ArrayVec<Fis, 2>
    ensures { result.items ≡ map (of_last_block (moved / block_size)) fises.items }
{
    if let [Fis::D2h(_)] = fises.as_slice() {
        return fises;
    }
    all_of_last_block(&fises, moved / BLOCK)
}
