//! The ACL of each method that an SP offers under the profile `Opal` alone.

ghost use Rattle.std.specs.Prelude.{◌≡◌, ◌-◌, ◌%◌, ◌==◌, nat_lt, Some, None, if◌then◌else◌};
ghost use Rattle.sp_cells.specs.Names.{table_of, table_row};
ghost use Rattle.ace_eval.specs.Access.{IsAnsweredByGrants, sp_grants, own_grants, listed_grants, told_grants, method_grants, maker_grants, name_grants, mode_grants};
ghost use Rattle.sp_cells.specs.declared.names.Sp.TheVariants.{Admin, Locking};

use crate::access_list::access::{ace_getters, one, settable};
use arrayvec::ArrayVec;
use basics::Profile;
use sp_cells::names::tables;
use sp_cells::{Sp, Uid};

/// The ACEs of what anybody may ask each SP of itself.
#[tactic(auto, using(crate::proofs::access_list::Joins::joins))]
pub fn sp_row(sp: Sp, object: Uid, method: Uid) -> Option<ArrayVec<Uid, 4>>
    ensures { IsAnsweredByGrants (sp_grants sp) sp object method result }
{
    if let Some(aces) = own_row(sp, object, method) {
        return Some(aces);
    }
    if let Some(aces) = listed_row(sp, object, method) {
        return Some(aces);
    }
    if let Some(aces) = told_row(sp, object, method) {
        return Some(aces);
    }
    method_row(sp, object, method)
}

#[tactic(auto, unfolding(crate::specs::Access::own_grants))]
fn own_row(sp: Sp, object: Uid, method: Uid) -> Option<ArrayVec<Uid, 4>>
    ensures { IsAnsweredByGrants (own_grants sp) sp object method result }
{
    match (object, method) {
        (Uid::ACCESS_CONTROL, Uid::GET_ACL)
        | (Uid::THIS_SP, Uid::RANDOM)
        | (Uid::SP_INFO | Uid::SP_TEMPLATE_BASE | Uid::SP_TEMPLATE_OWN, Uid::GET) => {
            Some(one(Uid::ACE_ANYBODY))
        }
        _ => None,
    }
}

/// The table that this object is.
fn table_at(object: Uid) -> Option<u64>
    ensures { result ≡ (if object.0 % 0x100000000 == 0 then Some (table_of object) else None) }
{
    if object.0 % (1 << 32) != 0 {
        return None;
    }
    Some(object.table())
}

#[tactic(auto, unfolding(crate::specs::Access::listed_grants))]
fn listed_row(sp: Sp, object: Uid, method: Uid) -> Option<ArrayVec<Uid, 4>>
    ensures { IsAnsweredByGrants (listed_grants sp) sp object method result }
{
    if method != Uid::NEXT {
        return None;
    }
    match (sp, table_at(object)?) {
        (
            _,
            tables::TABLE
            | tables::SP_TEMPLATES
            | tables::METHOD_ID
            | tables::ACE
            | tables::AUTHORITY
            | tables::C_PIN,
        )
        | (Sp::Admin, tables::TEMPLATE | tables::SP)
        | (Sp::Locking, tables::SECRET_PROTECT | tables::LOCKING | tables::K_AES_256) => {
            Some(one(Uid::ACE_ANYBODY))
        }
        _ => None,
    }
}

/// The table of which this row of the Table table tells.
fn table_told(object: Uid) -> Option<u64>
    ensures { result ≡ (if nat_lt object.0 (table_row 0).0 then None else
        Some (object.0 - (table_row 0).0)) }
{
    object.0.checked_sub(tables::TABLE << 32)
}

#[tactic(auto, unfolding(crate::specs::Access::told_grants))]
fn told_row(sp: Sp, object: Uid, method: Uid) -> Option<ArrayVec<Uid, 4>>
    ensures { IsAnsweredByGrants (told_grants sp) sp object method result }
{
    if method != Uid::GET {
        return None;
    }
    match (sp, table_told(object)?) {
        (
            _,
            tables::TABLE
            | tables::SP_INFO
            | tables::SP_TEMPLATES
            | tables::METHOD_ID
            | tables::ACCESS_CONTROL
            | tables::ACE
            | tables::AUTHORITY
            | tables::C_PIN,
        )
        | (Sp::Admin, tables::TPER_INFO | tables::TEMPLATE | tables::SP | tables::DATA_REMOVAL)
        | (
            Sp::Locking,
            tables::SECRET_PROTECT
            | tables::LOCKING_INFO
            | tables::LOCKING
            | tables::MBR_CONTROL
            | tables::K_AES_256,
        ) => Some(one(Uid::ACE_ANYBODY)),
        _ => None,
    }
}

#[tactic(auto, unfolding(crate::specs::Access::method_grants))]
fn method_row(sp: Sp, object: Uid, method: Uid) -> Option<ArrayVec<Uid, 4>>
    ensures { IsAnsweredByGrants (method_grants sp) sp object method result }
{
    if method != Uid::GET {
        return None;
    }
    match (sp, object) {
        (_, Uid::NEXT | Uid::GET_ACL | Uid::GET | Uid::SET | Uid::AUTHENTICATE | Uid::RANDOM)
        | (Sp::Admin, Uid::REVERT | Uid::ACTIVATE)
        | (Sp::Locking, Uid::GEN_KEY | Uid::REVERT_SP) => Some(one(Uid::ACE_ANYBODY)),
        _ => None,
    }
}

/// The ACEs of the Admin SP's Makers and Admin1, and of the templates.
#[tactic(auto, unfolding(crate::specs::Access::maker_grants))]
pub fn maker_row(object: Uid, method: Uid) -> Option<ArrayVec<Uid, 4>>
    ensures { IsAnsweredByGrants maker_grants Admin object method result }
{
    match (object, method) {
        (
            Uid::ADMINS
            | Uid::MAKERS
            | Uid::ADMIN_SP_ADMIN
            | Uid::ACE_ADMINS
            | Uid::ACE_SET_ENABLED
            | Uid::ACE_C_PIN_ADMINS_SET_PIN
            | Uid::TEMPLATE_BASE
            | Uid::TEMPLATE_ADMIN
            | Uid::TEMPLATE_LOCKING,
            Uid::GET,
        ) => Some(one(Uid::ACE_ANYBODY)),
        (Uid::MAKERS | Uid::ADMIN_SP_ADMIN, Uid::SET) => Some(one(Uid::ACE_SET_ENABLED)),
        (Uid::C_PIN_ADMIN_SP_ADMIN, Uid::GET) => Some(one(Uid::ACE_C_PIN_SID_GET_NOPIN)),
        (Uid::C_PIN_ADMIN_SP_ADMIN, Uid::SET) => Some(one(Uid::ACE_C_PIN_ADMINS_SET_PIN)),
        _ => None,
    }
}

/// The ACEs of the Locking SP's first Admin, and of the ACEs on names and on reading.
#[tactic(auto, unfolding(crate::specs::Access::name_grants))]
pub fn name_row(object: Uid, method: Uid) -> Option<ArrayVec<Uid, 4>>
    ensures { IsAnsweredByGrants name_grants Locking object method result }
{
    match (object, method) {
        (
            Uid::ACE_ADMINS_SET_COMMON_NAME
            | Uid::ACE_ACE_GET_ALL
            | Uid::ACE_AUTHORITY_GET_ALL
            | Uid::ACE_KEY_MODE,
            Uid::GET,
        ) => Some(ace_getters(Profile::Opal)),
        (_, Uid::SET) if object.admin_number() == Some(1) => {
            Some(one(Uid::ACE_ADMINS_SET_COMMON_NAME))
        }
        _ => {
            object.user_common_name_ace_number()?;
            settable(Profile::Opal, method)
        }
    }
}

/// The ACEs of the mode of a key, and of how the keys are protected.
#[tactic(auto, unfolding(crate::specs::Access::mode_grants))]
pub fn mode_row(object: Uid, method: Uid) -> Option<ArrayVec<Uid, 4>>
    ensures { IsAnsweredByGrants mode_grants Locking object method result }
{
    if method != Uid::GET {
        return None;
    }
    if object == Uid::SECRET_PROTECT_KEY {
        return Some(one(Uid::ACE_ANYBODY));
    }
    object.key_number()?;
    Some(one(Uid::ACE_KEY_MODE))
}
