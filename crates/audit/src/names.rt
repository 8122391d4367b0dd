//! How objects, methods and security providers are written.

ghost use Rattle.std.specs.Prelude.{◌≡◌, ◌++◌, OnOk};
ghost use Rattle.audit.specs.Names.{sp_text, uid_text, method_text, others_text, uids_text};

use basics::append_hex;
use sp_cells::{Sp, Uid};
use std::alloc::AllocError;

/// The name of a security provider.
pub fn sp_name(sp: Sp) -> &'static [u8]
    ensures { result.now ≡ sp_text sp }
{
    match sp {
        Sp::Admin => b"Admin",
        Sp::Locking => b"Locking",
    }
}

/// Appends a UID as sixteen hex digits.
pub fn append_uid(text: &mut Vec<u8>, uid: Uid) -> Result<(), AllocError>
    ensures { OnOk result (text.new.items ≡ text.old.items ++ uid_text uid) }
{
    append_hex(text, &uid.0.to_be_bytes())
}

/// Appends the name of a method, or its UID where it has none.
pub fn append_method(text: &mut Vec<u8>, method: Uid) -> Result<(), AllocError>
    ensures { OnOk result (text.new.items ≡ text.old.items ++ method_text method) }
{
    if method == Uid::GET {
        text.extend_from_slice(b"Get")?;
    } else if method == Uid::SET {
        text.extend_from_slice(b"Set")?;
    } else if method == Uid::AUTHENTICATE {
        text.extend_from_slice(b"Authenticate")?;
    } else if method == Uid::REVERT {
        text.extend_from_slice(b"Revert")?;
    } else if method == Uid::ACTIVATE {
        text.extend_from_slice(b"Activate")?;
    } else {
        append_uid(text, method)?;
    }
    Ok(())
}

/// Appends UIDs with a comma between each two, or `none`.
pub fn append_uids(text: &mut Vec<u8>, uids: &[Uid]) -> Result<(), AllocError>
    ensures { OnOk result (text.new.items ≡ text.old.items ++ uids_text uids.now) }
{
    match uids.split_first() {
        None => text.extend_from_slice(b"none")?,
        Some((first, others)) => {
            append_uid(text, *first)?;
            append_others(text, others)?;
        }
    }
    Ok(())
}

/// Appends UIDs with a comma before each.
fn append_others(text: &mut Vec<u8>, others: &[Uid]) -> Result<(), AllocError>
    ensures { OnOk result (text.new.items ≡ text.old.items ++ others_text others.now) }
{
    for other in others {
        text.extend_from_slice(b",")?;
        append_uid(text, *other)?;
    }
    Ok(())
}
