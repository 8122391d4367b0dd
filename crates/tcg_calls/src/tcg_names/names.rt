//! Objects by their names, and names by their objects.

ghost use Rattle.std.specs.Prelude.{◌≡◌, MatchOption, IfOk, Some, None, option_map, string_bytes};
ghost use Rattle.tcg_calls.specs.Objects.{name_in, object_in, singles, named_objects, object_name, object_by_name};

use crate::tcg_names::families::{authority_between, member_named, range_between};
use crate::tcg_names::singles::{
    admin_aces, authorities, locking_aces, methods, name_in, object_in, object_tables, objects,
    table_rows,
};
use sp_cells::Uid;
use std::alloc::{AllocError, Global};

/// The name of an object that has one of its own.
#[tactic(auto, using(crate::proofs::tcg_names::Joins::names))]
fn single_name(object: Uid) -> Option<&'static str>
    ensures { MatchOption result (name_in singles object ≡ None)
        (λ name. name_in singles object ≡ Some name.now) }
{
    if let Some(name) = name_in(objects(), object) {
        return Some(name);
    }
    if let Some(name) = name_in(object_tables(), object) {
        return Some(name);
    }
    if let Some(name) = name_in(table_rows(), object) {
        return Some(name);
    }
    if let Some(name) = name_in(authorities(), object) {
        return Some(name);
    }
    if let Some(name) = name_in(admin_aces(), object) {
        return Some(name);
    }
    if let Some(name) = name_in(locking_aces(), object) {
        return Some(name);
    }
    name_in(methods(), object)
}

/// The object that has this name of its own.
#[tactic(auto, using(crate::proofs::tcg_names::Joins::objects))]
fn single_named(name: &str) -> Option<Uid>
    ensures { result ≡ object_in singles name.now }
{
    if let Some(object) = object_in(objects(), name) {
        return Some(object);
    }
    if let Some(object) = object_in(object_tables(), name) {
        return Some(object);
    }
    if let Some(object) = object_in(table_rows(), name) {
        return Some(object);
    }
    if let Some(object) = object_in(authorities(), name) {
        return Some(object);
    }
    if let Some(object) = object_in(admin_aces(), name) {
        return Some(object);
    }
    if let Some(object) = object_in(locking_aces(), name) {
        return Some(object);
    }
    object_in(methods(), name)
}

/// The name that the standards give to an object or a method, where they give it one: `Locking_Range1`, `Admin1`,
/// `ACE_C_PIN_User1_Set_PIN`, `Get`.
///
/// # Errors
///
/// An allocation was refused.
#[tactic(auto, using(crate::proofs::tcg_names::Joins::names), unfolding(crate::specs::Objects::named_objects))]
pub fn object_name(alloc: Global, object: Uid) -> Result<Option<String>, AllocError>
    ensures { IfOk result (λ name. option_map string_bytes name ≡ object_name object) }
{
    if let Some(name) = single_name(object) {
        return Ok(Some(name.to_string(alloc)?));
    }
    if let Some(its) = authority_between(object) {
        return Ok(Some(its.number_text(alloc)?));
    }
    match range_between(object) {
        None => Ok(None),
        Some(its) => Ok(Some(its.range_text(alloc)?)),
    }
}

/// The object or the method that has this name.
///
/// # Errors
///
/// An allocation was refused.
#[tactic(auto, using(crate::proofs::tcg_names::Joins::objects), unfolding(crate::specs::Objects::named_objects))]
pub fn object_by_name(alloc: Global, name: &str) -> Result<Option<Uid>, AllocError>
    ensures { IfOk result (λ object. object ≡ object_by_name name.now) }
{
    if let Some(object) = single_named(name) {
        return Ok(Some(object));
    }
    let object = member_named(alloc, name)?;
    Ok(object)
}
