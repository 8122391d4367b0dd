//! Lists of receipts for one history, each with one fault.

use fis::Tag;
use locked_port::{Receipt, check_receipts};
use port::{Answer, EngineStep, Entries, ReplyBytes, Request, Step};
use std::alloc::{AllocError, Global};

const CLIENT: u32 = 1;

/// A receipt of the history's Put, of a read of a sector, or of its Take, with a sector of one byte.
#[derive(Clone, Copy)]
enum Row {
    Put(u64),
    Take(u8),
}

/// Lists, and whether they are the receipts of the history: one of each step, in either order; a receipt twice; another
/// answer; another request; one left out.
const LISTS: [(&[Row], bool); 7] = [
    (&[Row::Put(100), Row::Take(0x55)], true),
    (&[Row::Take(0x55), Row::Put(100)], true),
    (&[Row::Put(100), Row::Take(0x55), Row::Take(0x55)], false),
    (&[Row::Put(100), Row::Take(0x54)], false),
    (&[Row::Put(101), Row::Take(0x55)], false),
    (&[Row::Put(100)], false),
    (&[Row::Take(0x55)], false),
];

/// The Put of a read of one sector.
fn read(lba: u64) -> Request {
    Request::Read { lba, count: 1 }
}

fn put(lba: u64) -> Step {
    Step::Put {
        client: CLIENT,
        tag: Tag::low_bits(3),
        request: read(lba),
    }
}

fn take() -> Step {
    Step::Take {
        client: CLIENT,
        tag: Tag::low_bits(3),
    }
}

/// A sector of one byte.
fn sector(alloc: Global, byte: u8) -> Result<Answer, AllocError> {
    Ok(Answer::Done(ReplyBytes::new(alloc, &[byte; 512])?))
}

/// A client's read of sector 100, which holds 55h bytes.
fn history(alloc: Global) -> Result<Entries, AllocError> {
    let tag = Tag::low_bits(3);
    let mut history = Entries::new(alloc);
    history.reserve_put()?;
    history.push_put(CLIENT, tag, read(100));
    for step in [
        EngineStep::Issue { tag },
        EngineStep::Accept { tag },
        EngineStep::Complete { tag },
    ] {
        history.reserve()?;
        history.push_engine(step);
    }
    let reply = sector(alloc, 0x55)?;
    history.reserve_take()?;
    history.push_take(CLIENT, tag, reply);
    Ok(history)
}

/// The receipt of a row.
fn receipt(alloc: Global, row: Row) -> Result<Receipt, AllocError> {
    match row {
        Row::Put(lba) => Ok(Receipt {
            number: 1,
            step: put(lba),
            reply: Answer::nothing(),
        }),
        Row::Take(byte) => Ok(Receipt {
            number: 5,
            step: take(),
            reply: sector(alloc, byte)?,
        }),
    }
}

/// The receipts of a list.
fn receipts(alloc: Global, rows: &[Row]) -> Result<Vec<Receipt>, AllocError> {
    let mut receipts = Vec::new(alloc);
    for row in rows {
        receipts.push(receipt(alloc, *row)?)?;
    }
    Ok(receipts)
}

/// Whether a list is the receipts of the history.
fn passes(alloc: Global, rows: &[Row]) -> Result<bool, AllocError> {
    let history = history(alloc)?;
    let receipts = receipts(alloc, rows)?;
    Ok(check_receipts(&history, &receipts))
}

/// Whether whole lists pass, and they alone.
pub fn whole_lists_pass_alone(alloc: Global) -> bool {
    let mut are_right = true;
    for (rows, pass) in LISTS {
        are_right &= passes(alloc, rows) == Ok(pass);
    }
    are_right
}
