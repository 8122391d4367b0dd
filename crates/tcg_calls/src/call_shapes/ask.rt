//! What a method call asks, by its method and its arguments.

ghost use Rattle.std.specs.Prelude.{◌≡◌, ◌==◌, ◌<◌, ◌^◌, [], ◌∷◌, List, map, length, IfOk, option_map, ℕ, None, Some, if◌then◌else◌};
ghost use Rattle.std.specs.Int.{w64, from_be_bytes};
ghost use Rattle.tcg_tokens.specs.Tree.{tree};
ghost use Rattle.tcg_calls.specs.Named.{options as options_of, pair_of};
ghost use Rattle.tcg_calls.specs.Parameters.{start_row_parameter, end_row_parameter, start_column_parameter, end_column_parameter, next_where_parameter, next_count_parameter};
ghost use Rattle.tcg_calls.specs.Asks.{uid_of as uid_of_octets, uid_by, uid_in as uid_of_tree, is_mbr_table as is_mbr_table_of, is_datastore as is_datastore_of, is_byte_table as is_byte_table_of, cellblock, columns_asked_in, rows_in, cells_in, bytes_in, proof_in, attempt_in, without_arguments as without_arguments_of, get_of, set_of, revert_sp_in, row_if_any as row_if_any_in, next_of, get_acl_of, random_of, field_ask_of, opal_ask_of, other_ask_of, ask_of as ask_by};

use crate::call_shapes::named::{
    Assignments, Pair, bytes_or_empty, list_in, number_if_any, number_or, read_assignments,
    read_options, read_pair,
};
use crate::call_shapes::parameter;
use basics::Profile;
use sp_cells::{Sp, Uid};
use std::alloc::{AllocError, Global};
use std::marker::Model;
use tcg_tokens::{Call, Value};

/// Bytes of a call, seen as their list.
#[derive(Drop)]
pub struct Octets<'a> {
    octets: &'a [u8],
}

impl<'a> Model for Octets<'a> {
    ghost use Rattle.std.specs.Prelude.{List, ℕ};

    ghost Value = { List ℕ };

    ghost view = { λ a. a.octets.now };
}

impl<'a> Octets<'a> {
    /// These bytes.
    pub fn new(octets: &'a [u8]) -> Octets<'a>
        ensures { result ≡ octets.now }
    {
        Octets { octets }
    }

    /// The bytes.
    pub fn as_slice(&self) -> &'a [u8]
        ensures { result.now ≡ self.now }
    {
        self.octets
    }
}

/// What a call asks of its object.
#[derive(Drop)]
pub enum Ask<'a> {
    /// Get: the columns from the first to the last.
    GetCells {
        first: u64,
        last: u64,
    },

    /// Get of a byte table: the rows from the first to the last, or to the end of the table.
    GetBytes {
        first: u64,
        last: Option<u64>,
    },

    /// Set: values for columns.
    SetCells(Assignments<'a>),

    /// Set of a byte table: bytes from a row on.
    SetBytes {
        at: u64,
        bytes: Octets<'a>,
    },

    /// Authenticate: an authority, and what proves it.
    Authenticate {
        authority: Uid,
        proof: Octets<'a>,
    },

    Activate,

    Revert,

    /// GenKey: a new key for the data of a range.
    GenKey,

    /// RevertSP: whether the data of the global range are kept.
    RevertSp {
        keep: bool,
    },

    /// Next: the row behind which it goes on, where one is named, and how many rows it gives at most.
    Next {
        after: Option<Uid>,
        count: Option<u64>,
    },

    /// GetACL: the object and the method whose line of the access list is asked for.
    GetAcl {
        object: Uid,
        method: Uid,
    },

    /// Random: how many bytes.
    Random {
        count: u64,
    },

    /// A method that the profile does not know.
    Other,
}

/// The object or the method that eight bytes name.
pub fn uid_of(octets: &[u8; 8]) -> Uid
    ensures { result ≡ uid_of_octets octets.now }
{
    Uid(u64::from_be_bytes(*octets))
}

/// The byte table of the shadow MBR, in a session of its SP.
fn is_mbr_table(sp: Sp, object: Uid) -> bool
    ensures { result ≡ is_mbr_table_of sp object }
{
    match sp {
        Sp::Admin => false,
        Sp::Locking => object == Uid::MBR_TABLE,
    }
}

/// The byte table DataStore, in a session of its SP.
fn is_datastore(sp: Sp, object: Uid) -> bool
    ensures { result ≡ is_datastore_of sp object }
{
    match sp {
        Sp::Admin => false,
        Sp::Locking => object == Uid::DATASTORE_TABLE,
    }
}

/// A byte table of a drive of this profile, in a session of its SP.
fn is_byte_table(profile: Profile, sp: Sp, object: Uid) -> bool
    ensures { result ≡ is_byte_table_of profile sp object }
{
    match profile {
        Profile::Base => is_mbr_table(sp, object),
        Profile::Field | Profile::Opal => is_mbr_table(sp, object) || is_datastore(sp, object),
    }
}

/// What a cellblock names: one list.
fn read_cellblock<'a>(first: u64, last: u64, args: &'a [Value]) -> Option<Pair<'a>>
    requires { first < last }
    ensures { result ≡ option_map (pair_of first last) (cellblock first last (map tree args.now)) }
{
    let [block] = args else {
        return None;
    };
    read_pair(first, last, list_in(block)?)
}

/// Get of columns.
fn columns_asked<'a>(args: &'a [Value]) -> Option<Ask<'a>>
    ensures { result ≡ columns_asked_in
        (cellblock start_column_parameter end_column_parameter (map tree args.now)) }
{
    let block = read_cellblock(parameter::START_COLUMN, parameter::END_COLUMN, args)?;
    let first = number_or(0, block.first)?;
    let last = number_or(u64::MAX, block.last)?;
    if first > last {
        return None;
    }
    Some(Ask::GetCells { first, last })
}

/// Get of bytes.
fn rows_asked<'a>(args: &'a [Value]) -> Option<Ask<'a>>
    ensures { result ≡ rows_in
        (cellblock start_row_parameter end_row_parameter (map tree args.now)) }
{
    let block = read_cellblock(parameter::START_ROW, parameter::END_ROW, args)?;
    let first = number_or(0, block.first)?;
    let last = number_if_any(block.last)?;
    match last {
        Some(last) if last < first => None,
        _ => Some(Ask::GetBytes { first, last }),
    }
}

/// Set of columns.
fn cells_asked<'a>(alloc: Global, args: &Assignments<'a>) -> Result<Option<Ask<'a>>, AllocError>
    ensures { IfOk result (λ ask. ask ≡ cells_in (Some args.now)) }
{
    let Some(cells) = args.get(parameter::VALUES) else {
        return Ok(None);
    };
    let Some(cells) = list_in(cells) else {
        return Ok(None);
    };
    match read_assignments(alloc, cells)? {
        Some(assignments) => Ok(Some(Ask::SetCells(assignments))),
        None => Ok(None),
    }
}

/// Set of bytes.
fn bytes_asked<'a>(args: &Assignments<'a>) -> Option<Ask<'a>>
    ensures { result ≡ bytes_in (Some args.now) }
{
    let at = number_or(0, args.get(parameter::WHERE))?;
    match args.get(parameter::VALUES) {
        Some(Value::Bytes(bytes)) => Some(Ask::SetBytes {
            at,
            bytes: Octets::new(bytes.as_slice()),
        }),
        _ => None,
    }
}

/// The object that bytes name, where they are eight.
pub(crate) fn authority_of(octets: &[u8]) -> Option<Uid>
    ensures { result ≡ uid_by octets.now }
{
    match octets.split_first_chunk::<8>() {
        Some((octets, [])) => Some(uid_of(octets)),
        _ => None,
    }
}

/// The object that a value names.
pub fn uid_in(value: &Value) -> Option<Uid>
    ensures { result ≡ uid_of_tree (tree value.now) }
{
    match value {
        Value::Bytes(octets) => authority_of(octets.as_slice()),
        _ => None,
    }
}

/// Authenticate.
fn attempt_asked<'a>(alloc: Global, args: &'a [Value]) -> Result<Option<Ask<'a>>, AllocError>
    ensures { IfOk result (λ ask. ask ≡ attempt_in (map tree args.now)) }
{
    let [Value::Bytes(name), rest @ ..] = args else {
        return Ok(None);
    };
    let Some(authority) = authority_of(name.as_slice()) else {
        return Ok(None);
    };
    let Some(named) = read_options(alloc, &[parameter::PROOF], rest)? else {
        return Ok(None);
    };
    let Some(proof) = bytes_or_empty(named.get(parameter::PROOF)) else {
        return Ok(None);
    };
    Ok(Some(Ask::Authenticate {
        authority,
        proof: Octets::new(proof),
    }))
}

/// A method without arguments.
fn without_arguments<'a>(ask: Ask<'a>, args: &[Value]) -> Option<Ask<'a>>
    ensures { result ≡ without_arguments_of ask.entry (map tree args.now) }
{
    match args {
        [] => Some(ask),
        _ => None,
    }
}

/// RevertSP: its one optional argument says by 0 or 1 whether the global range's data are kept.
fn revert_sp_asked<'a>(alloc: Global, args: &'a [Value]) -> Result<Option<Ask<'a>>, AllocError>
    ensures { IfOk result (λ ask. ask ≡ revert_sp_in (map tree args.now)) }
{
    let Some(named) = read_options(alloc, &[parameter::KEEP_GLOBAL_RANGE_KEY], args)? else {
        return Ok(None);
    };
    match number_or(0, named.get(parameter::KEEP_GLOBAL_RANGE_KEY)) {
        Some(0) => Ok(Some(Ask::RevertSp { keep: false })),
        Some(1) => Ok(Some(Ask::RevertSp { keep: true })),
        _ => Ok(None),
    }
}

/// The row that an argument names, where there is one.
fn row_if_any(value: Option<&Value>) -> Option<Option<Uid>>
    ensures { result ≡ row_if_any_in (option_map (λ v. tree v.now) value.entry) }
{
    match value {
        None => Some(None),
        Some(row) => Some(Some(uid_in(row)?)),
    }
}

/// Next.
fn next_asked<'a>(args: &'a [Value]) -> Option<Ask<'a>>
    ensures { result ≡ next_of (map tree args.now) }
{
    let named = read_pair(parameter::NEXT_WHERE, parameter::NEXT_COUNT, args)?;
    let after = row_if_any(named.first)?;
    let count = number_if_any(named.last)?;
    Some(Ask::Next { after, count })
}

/// GetACL.
fn get_acl_asked<'a>(args: &'a [Value]) -> Option<Ask<'a>>
    ensures { result ≡ get_acl_of (map tree args.now) }
{
    let [object, method] = args else {
        return None;
    };
    let object = uid_in(object)?;
    let method = uid_in(method)?;
    Some(Ask::GetAcl { object, method })
}

/// Random.
fn random_asked<'a>(args: &'a [Value]) -> Option<Ask<'a>>
    ensures { result ≡ random_of (map tree args.now) }
{
    match args {
        [Value::Number(count)] => Some(Ask::Random { count: *count }),
        _ => None,
    }
}

/// A method that the field profile has besides; any other takes any arguments.
fn field_asked<'a>(
    alloc: Global,
    method: Uid,
    args: &'a [Value],
) -> Result<Option<Ask<'a>>, AllocError>
    ensures { IfOk result (λ ask. ask ≡ field_ask_of method (map tree args.now)) }
{
    match method {
        Uid::GEN_KEY => Ok(without_arguments(Ask::GenKey, args)),
        Uid::REVERT_SP => revert_sp_asked(alloc, args),
        _ => Ok(Some(Ask::Other)),
    }
}

/// A method that the opal profile has besides.
fn opal_asked<'a>(
    alloc: Global,
    method: Uid,
    args: &'a [Value],
) -> Result<Option<Ask<'a>>, AllocError>
    ensures { IfOk result (λ ask. ask ≡ opal_ask_of method (map tree args.now)) }
{
    match method {
        Uid::NEXT => Ok(next_asked(args)),
        Uid::GET_ACL => Ok(get_acl_asked(args)),
        Uid::RANDOM => Ok(random_asked(args)),
        _ => field_asked(alloc, method, args),
    }
}

/// A method that is none of the five: the base profile knows no other.
fn other_asked<'a>(
    alloc: Global,
    profile: Profile,
    method: Uid,
    args: &'a [Value],
) -> Result<Option<Ask<'a>>, AllocError>
    ensures { IfOk result (λ ask. ask ≡ other_ask_of profile method (map tree args.now)) }
{
    match profile {
        Profile::Base => Ok(Some(Ask::Other)),
        Profile::Field => field_asked(alloc, method, args),
        Profile::Opal => opal_asked(alloc, method, args),
    }
}

/// What a call in a session of an SP asks; None where its arguments have not the shape that its method wants. A
/// method that the profile does not know takes any.
pub fn read_ask<'a>(
    alloc: Global,
    profile: Profile,
    sp: Sp,
    object: Uid,
    method: Uid,
    args: &'a [Value],
) -> Result<Option<Ask<'a>>, AllocError>
    ensures { IfOk result (λ ask. ask ≡ ask_by profile sp object method (map tree args.now)) }
{
    match method {
        Uid::GET => Ok(get_asked(is_byte_table(profile, sp, object), args)),
        Uid::SET => set_asked(alloc, is_byte_table(profile, sp, object), args),
        Uid::AUTHENTICATE => attempt_asked(alloc, args),
        Uid::ACTIVATE => Ok(without_arguments(Ask::Activate, args)),
        Uid::REVERT => Ok(without_arguments(Ask::Revert, args)),
        _ => other_asked(alloc, profile, method, args),
    }
}

/// Get, of a byte table or of columns.
fn get_asked<'a>(of_bytes: bool, args: &'a [Value]) -> Option<Ask<'a>>
    ensures { result ≡ get_of of_bytes (map tree args.now) }
{
    if of_bytes {
        rows_asked(args)
    } else {
        columns_asked(args)
    }
}

/// Set, of a byte table or of columns.
fn set_asked<'a>(
    alloc: Global,
    of_bytes: bool,
    args: &'a [Value],
) -> Result<Option<Ask<'a>>, AllocError>
    ensures { IfOk result (λ ask. ask ≡ set_of of_bytes (map tree args.now)) }
{
    if of_bytes {
        match read_options(alloc, &[parameter::WHERE, parameter::VALUES], args)? {
            Some(named) => Ok(bytes_asked(&named)),
            None => Ok(None),
        }
    } else {
        match read_options(alloc, &[parameter::VALUES], args)? {
            Some(named) => Ok(cells_asked(alloc, &named)?),
            None => Ok(None),
        }
    }
}
