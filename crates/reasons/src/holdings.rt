//! What a session holds in which a method was denied.

ghost use Rattle.std.specs.Prelude.{◌≡◌, ◌++◌, filter, IfOk, OnOk, option_copied};
ghost use Rattle.ace_eval.specs.Truth.{has};
ghost use Rattle.reasons.specs.Holdings.{held_rows, more_names_text, names_text, holds_line, holds_text};

use crate::details::append_session;
use crate::remedies::append_object_name;
use crate::rulings::append_because;
use ace_eval::Authorities;
use sp_cells::names::tables;
use sp_cells::{Sp, Uid};
use sp_tables::rows_of;
use std::alloc::{AllocError, Global};

/// Those of these authorities that are held.
fn those_held(
    alloc: Global,
    authorities: &[Uid],
    held: &Authorities,
) -> Result<Vec<Uid>, AllocError>
    ensures { IfOk result (λ those. those.items ≡ filter (has held.now) authorities.now) }
{
    let mut those = Vec::new(alloc);
    for authority in authorities {
        if held.contains(*authority) {
            those.push(*authority)?;
        }
    }
    Ok(those)
}

/// The authorities of an SP that are held, in the order of its Authority table.
fn held_rows(alloc: Global, sp: Sp, held: &Authorities) -> Result<Vec<Uid>, AllocError>
    ensures { IfOk result (λ those. those.items ≡ held_rows sp held.now) }
{
    let authorities = rows_of(alloc, sp, tables::AUTHORITY)?;
    let those = those_held(alloc, &authorities, held)?;
    Ok(those)
}

/// Appends objects by their names, each behind a comma.
fn append_more_names(alloc: Global, text: &mut Vec<u8>, objects: &[Uid]) -> Result<(), AllocError>
    ensures { OnOk result (text.new.items ≡ text.old.items ++ more_names_text objects.now) }
{
    for object in objects {
        text.extend_from_slice(b", ")?;
        append_object_name(alloc, text, *object)?;
    }
    Ok(())
}

/// Appends authorities by their names, with commas between them.
fn append_names(alloc: Global, text: &mut Vec<u8>, objects: &[Uid]) -> Result<(), AllocError>
    ensures { OnOk result (text.new.items ≡ text.old.items ++ names_text objects.now) }
{
    match objects.split_first() {
        None => text.extend_from_slice(b"no authority")?,
        Some((object, others)) => {
            append_object_name(alloc, text, *object)?;
            append_more_names(alloc, text, others)?;
        }
    }
    Ok(())
}

/// Appends what a session holds, as a line with its line feed.
fn append_holds_line(
    alloc: Global,
    text: &mut Vec<u8>,
    sp: Sp,
    session: u32,
    held: &Authorities,
) -> Result<(), AllocError>
    ensures { OnOk result (text.new.items ≡ text.old.items ++ holds_line sp session held.now) }
{
    let mut words = Vec::new(alloc);
    append_session(alloc, &mut words, sp, u64::from(session))?;
    words.extend_from_slice(b" holds ")?;
    let those = held_rows(alloc, sp, held)?;
    append_names(alloc, &mut words, &those)?;
    append_because(text, &words)?;
    Ok(())
}

/// The same, where the session lives.
pub(crate) fn append_holds(
    alloc: Global,
    text: &mut Vec<u8>,
    sp: Sp,
    session: u32,
    held: Option<&Authorities>,
) -> Result<(), AllocError>
    ensures { OnOk result (text.new.items
        ≡ text.old.items ++ holds_text sp session (option_copied held.entry)) }
{
    match held {
        Some(held) => append_holds_line(alloc, text, sp, session, held),
        None => Ok(()),
    }
}
