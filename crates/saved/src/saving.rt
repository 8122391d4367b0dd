//! A drive as bytes.

ghost use Rattle.std.specs.Prelude.{◌≡◌, [], ◌∷◌, List, IfOk, Ok};
ghost use Rattle.sp_cells.specs.Resets.{power_cycle};
ghost use Rattle.shadow_mbr.specs.Stored.{IsSound};
ghost use Rattle.tcg_tokens.specs.Message.{reply};
ghost use Rattle.tcg_tokens.specs.Reading.{reading};
ghost use Rattle.tcg_tokens.specs.Tree.{trees};
ghost use Rattle.history.specs.Opening.{Origin};
ghost use Rattle.history.specs.History.{Act, Reset};
ghost use Rattle.drive.specs.State.{Agrees};
ghost use Rattle.drive.specs.Rest.{IsOff};
ghost use Rattle.saved.specs.Saved.{saved, IsSaved, IsSavedBy};

use crate::error::SaveError;
use crate::stores::Store;
use crate::values::{config_value, items_value, sectors_value};
use drive::{Drive, ResetKind, Rest};
use sp_cells::Sp;
use std::alloc::{AllocError, Global};
use tcg_calls::call_shapes::bytes_value;
use tcg_tokens::{Item, Value, writable, write_item};

/// The name of the form.
pub(crate) const FORM_NAME: [u8; 8] = *b"Opalport";

/// Its version.
pub(crate) const FORM_VERSION: u64 = 1;

/// Nine values as a vector.
fn all_of(alloc: Global, values: [Value; 9]) -> Result<Vec<Value>, AllocError>
    ensures { IfOk result (λ v. v.items ≡ values) }
{
    Ok(Vec::from_array(alloc, values)?)
}

/// What a drive keeps, as the results of a reply.
fn results_of(alloc: Global, rest: &Rest<'_>) -> Result<Vec<Value>, SaveError>
    ensures written { IfOk result (λ vs. trees vs.items ≡ saved (record {
      tables = rest.now.tables.now;
      bytes = rest.now.bytes.now;
      media = rest.now.media.now;
      next = rest.now.next_session;
      drawn = rest.now.drawn;
    })) }
    ensures bytes { IfOk result (λ _. IsSound rest.now.bytes.now) }
    ensures media { IfOk result (λ _. IsSound rest.now.media.now) }
{
    let admin_cells = rest.tables.cells(alloc, Sp::Admin)?;
    let locking_cells = rest.tables.cells(alloc, Sp::Locking)?;
    let name = bytes_value(alloc, &FORM_NAME)?;
    let made = config_value(alloc, rest.tables.config())?;
    let admin = items_value(alloc, &admin_cells)?;
    let locking = items_value(alloc, &locking_cells)?;
    let bytes = sectors_value(alloc, rest.bytes)?;
    let media = sectors_value(alloc, rest.media)?;
    let values = [
        name,
        Value::Number(FORM_VERSION),
        made,
        admin,
        locking,
        bytes,
        media,
        Value::Number(rest.next_session),
        Value::Number(rest.drawn),
    ];
    let results = all_of(alloc, values)?;
    Ok(results)
}

/// The bytes of a reply with these results.
fn spelled(alloc: Global, results: Vec<Value>) -> Result<Vec<u8>, SaveError>
    ensures { IfOk result (λ text. reading text.items
        ≡ Ok (reply (trees results.items) (0 ∷ 0 ∷ 0 ∷ []))) }
{
    let item = Item::Reply {
        results,
        status: [0, 0, 0],
    };
    if !writable(&item) {
        return Err(SaveError::Unwritable);
    }
    let text = write_item(alloc, &item)?;
    Ok(text)
}

/// The bytes of a drive that is off.
pub(crate) fn save_off(alloc: Global, drive: &Drive) -> Result<Vec<u8>, SaveError>
    ensures { IfOk result (λ text. IsOff drive.now → IsSaved text.items drive.now) }
{
    let rest = drive.rest();
    let results = results_of(alloc, &rest)?;
    let text = spelled(alloc, results)?;
    Ok(text)
}

/// The drive as bytes, as a power cycle leaves it: the rows, the bytes of the byte tables, the media, and what its
/// sessions and random bytes are counted by. The drive itself goes on as it was.
///
/// # Errors
///
/// `OutOfMemory`; `Unwritable` where it keeps what no token holds.
pub fn save(alloc: Global, drive: &Drive) -> Result<Vec<u8>, SaveError>
    ensures { IfOk result (λ text. (o : Origin) (acts : List Act) → Agrees drive.now o acts
        → IsSavedBy text.items o (Reset power_cycle ∷ acts)) }
{
    let mut off = drive.copy()?;
    off.reset(ResetKind::Power);
    let text = save_off(alloc, &off)?;
    Ok(text)
}
