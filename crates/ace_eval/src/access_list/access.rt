//! The access control list (ACL) of each method of each object: which ACEs may allow it.

ghost use Rattle.std.specs.Prelude.{◌≡◌, ◌<◌, ◌≤◌, ◌==◌, [], ◌∷◌, ◌++◌, length, map, option_map, Some, None, if◌then◌else◌};
ghost use Rattle.sp_cells.specs.Names.{get, set, ace_ace_set_boolean_expression, ace_admins_set_common_name};
ghost use Rattle.sp_cells.specs.Authorities.{authorities_of_locking};
ghost use Rattle.ace_eval.specs.Access.{IsAnsweredByGrants, of_field, of_opal, reverters as reverters_of, reverters_of_locking as reverters_of_locking_sp, ace_getters as ace_getters_of, authority_getters as authority_getters_of, namers as namers_of, sp_grants, maker_grants, name_grants, mode_grants, owner_grants, label_grants, removal_grants, admin_grants, authority_grants, fixed_ace_gets, user_ace_grants, range_get_ace_grants, gen_key_ace_grants, read_locked_ace_grants, write_locked_ace_grants, done_ace_grants, pin_grants, range_get_grants, range_set_grants, mbr_grants, info_grants, datastore_grants, key_grants, locking_grants, access_list};
ghost use Rattle.sp_cells.specs.declared.names.Sp.TheVariants.{Admin, Locking};

use crate::access_list::opal::{maker_row, mode_row, name_row, sp_row};
use arrayvec::ArrayVec;
use basics::Profile;
use sp_cells::{Sp, Uid};

/// The ACEs that may allow a method of an object, in their order; None where the method is not offered.
#[tactic(auto, using(crate::proofs::access_list::Joins::joins), unfolding(crate::specs::Access::this_sp_grants))]
pub fn access_row(profile: Profile, sp: Sp, object: Uid, method: Uid) -> Option<ArrayVec<Uid, 4>>
    ensures { IsAnsweredByGrants (access_list profile) sp object method result }
{
    if object == Uid::THIS_SP && method == Uid::AUTHENTICATE {
        return Some(one(Uid::ACE_ANYBODY));
    }
    match sp {
        Sp::Admin => admin_row(profile, object, method),
        Sp::Locking => locking_row(profile, object, method),
    }
}

#[tactic(auto, using(crate::proofs::access_list::Joins::joins))]
fn admin_row(profile: Profile, object: Uid, method: Uid) -> Option<ArrayVec<Uid, 4>>
    ensures { IsAnsweredByGrants (admin_grants profile) Admin object method result }
{
    if let Some(aces) = owner_row(profile, object, method) {
        return Some(aces);
    }
    if let Some(aces) = admin_field_row(profile, object, method) {
        return Some(aces);
    }
    admin_opal_row(profile, object, method)
}

/// The ACEs of what the Admin SP has under each profile but `Base`.
#[tactic(auto, using(crate::proofs::access_list::Joins::joins))]
fn admin_field_row(profile: Profile, object: Uid, method: Uid) -> Option<ArrayVec<Uid, 4>>
    ensures { IsAnsweredByGrants (of_field profile (label_grants ++ removal_grants)) Admin object
        method result }
{
    if !profile.has_field() {
        return None;
    }
    if let Some(aces) = label_row(object, method) {
        return Some(aces);
    }
    removal_row(object, method)
}

/// The ACEs of what the Admin SP has under the profile `Opal` alone.
#[tactic(auto, using(crate::proofs::access_list::Joins::joins))]
fn admin_opal_row(profile: Profile, object: Uid, method: Uid) -> Option<ArrayVec<Uid, 4>>
    ensures { IsAnsweredByGrants (of_opal profile (sp_grants Admin ++ maker_grants)) Admin object
        method result }
{
    if profile != Profile::Opal {
        return None;
    }
    if let Some(aces) = sp_row(Sp::Admin, object, method) {
        return Some(aces);
    }
    maker_row(object, method)
}

#[tactic(auto, unfolding(crate::specs::Access::removal_grants))]
fn removal_row(object: Uid, method: Uid) -> Option<ArrayVec<Uid, 4>>
    ensures { IsAnsweredByGrants removal_grants Admin object method result }
{
    match (object, method) {
        (Uid::DATA_REMOVAL | Uid::ACE_DATA_REMOVAL_SET_ACTIVE, Uid::GET) => {
            Some(one(Uid::ACE_ANYBODY))
        }
        (Uid::DATA_REMOVAL, Uid::SET) => Some(one(Uid::ACE_DATA_REMOVAL_SET_ACTIVE)),
        _ => None,
    }
}

/// The ACEs that may revert the drive.
fn reverters(profile: Profile) -> ArrayVec<Uid, 4>
    ensures { result.items ≡ reverters_of profile }
{
    match profile {
        Profile::Base => one(Uid::ACE_SP_SID),
        Profile::Field => two(Uid::ACE_SP_SID, Uid::ACE_SP_PSID),
        Profile::Opal => three(Uid::ACE_SP_SID, Uid::ACE_ADMINS, Uid::ACE_SP_PSID),
    }
}

/// The ACEs that may revert the Locking SP from the Admin SP.
fn reverters_of_locking(profile: Profile) -> ArrayVec<Uid, 4>
    ensures { result.items ≡ reverters_of_locking_sp profile }
{
    match profile {
        Profile::Base | Profile::Field => one(Uid::ACE_SP_SID),
        Profile::Opal => two(Uid::ACE_SP_SID, Uid::ACE_ADMINS),
    }
}

/// The ACEs that may read an ACE of the Locking SP.
pub fn ace_getters(profile: Profile) -> ArrayVec<Uid, 4>
    ensures { result.items ≡ ace_getters_of profile }
{
    match profile {
        Profile::Base | Profile::Field => two(Uid::ACE_ADMINS, Uid::ACE_ANYBODY_GET_COMMON_NAME),
        Profile::Opal => one(Uid::ACE_ACE_GET_ALL),
    }
}

/// The ACEs that may read an authority of the Locking SP.
fn authority_getters(profile: Profile) -> ArrayVec<Uid, 4>
    ensures { result.items ≡ authority_getters_of profile }
{
    let all = match profile {
        Profile::Base | Profile::Field => Uid::ACE_ADMINS,
        Profile::Opal => Uid::ACE_AUTHORITY_GET_ALL,
    };
    two(all, Uid::ACE_ANYBODY_GET_COMMON_NAME)
}

/// These ACEs, and behind them the one on the name of the row, where a host can name it.
fn with_namer(profile: Profile, aces: ArrayVec<Uid, 4>, namer: Uid) -> ArrayVec<Uid, 4>
    requires { length aces.items < 4 }
    ensures { result.items ≡ aces.items ++ namers_of profile namer }
{
    let mut aces = aces;
    if profile == Profile::Opal {
        aces.push(namer);
    }
    aces
}

#[tactic(auto, unfolding(crate::specs::Access::label_grants))]
fn label_row(object: Uid, method: Uid) -> Option<ArrayVec<Uid, 4>>
    ensures { IsAnsweredByGrants label_grants Admin object method result }
{
    match (object, method) {
        (Uid::PSID | Uid::ACE_C_PIN_GET_PSID_NOPIN | Uid::ACE_SP_PSID, Uid::GET) => {
            Some(one(Uid::ACE_ANYBODY))
        }
        (Uid::C_PIN_PSID, Uid::GET) => Some(one(Uid::ACE_C_PIN_GET_PSID_NOPIN)),
        _ => None,
    }
}

#[tactic(auto, unfolding(crate::specs::Access::owner_grants))]
fn owner_row(profile: Profile, object: Uid, method: Uid) -> Option<ArrayVec<Uid, 4>>
    ensures { IsAnsweredByGrants (owner_grants profile) Admin object method result }
{
    match (object, method) {
        (Uid::C_PIN_SID, Uid::GET) => Some(one(Uid::ACE_C_PIN_SID_GET_NOPIN)),
        (Uid::C_PIN_SID, Uid::SET) => Some(one(Uid::ACE_C_PIN_SID_SET_PIN)),
        (Uid::C_PIN_MSID, Uid::GET) => Some(one(Uid::ACE_C_PIN_MSID_GET_PIN)),
        (Uid::LOCKING_SP, Uid::ACTIVATE) => Some(one(Uid::ACE_SP_SID)),
        (Uid::LOCKING_SP, Uid::REVERT) => Some(reverters_of_locking(profile)),
        (Uid::ADMIN_SP, Uid::REVERT) => Some(reverters(profile)),
        (Uid::TPER_INFO, Uid::SET) => Some(one(Uid::ACE_TPER_INFO_SET_PROGRAMMATIC_RESET_ENABLE)),
        (
            Uid::ADMIN_SP
            | Uid::LOCKING_SP
            | Uid::ANYBODY
            | Uid::SID
            | Uid::ACE_ANYBODY
            | Uid::ACE_C_PIN_SID_GET_NOPIN
            | Uid::ACE_C_PIN_SID_SET_PIN
            | Uid::ACE_C_PIN_MSID_GET_PIN
            | Uid::ACE_SP_SID
            | Uid::ACE_TPER_INFO_SET_PROGRAMMATIC_RESET_ENABLE
            | Uid::TPER_INFO,
            Uid::GET,
        ) => Some(one(Uid::ACE_ANYBODY)),
        _ => None,
    }
}

#[tactic(auto, using(crate::proofs::access_list::Joins::joins))]
fn locking_row(profile: Profile, object: Uid, method: Uid) -> Option<ArrayVec<Uid, 4>>
    ensures { IsAnsweredByGrants (locking_grants profile) Locking object method result }
{
    if let Some(aces) = authority_row(profile, object, method) {
        return Some(aces);
    }
    if let Some(aces) = fixed_ace(profile, object, method) {
        return Some(aces);
    }
    if let Some(aces) = user_ace(profile, object, method) {
        return Some(aces);
    }
    if let Some(aces) = range_get_ace(profile, object, method) {
        return Some(aces);
    }
    if let Some(aces) = read_locked_ace(profile, object, method) {
        return Some(aces);
    }
    if let Some(aces) = write_locked_ace(profile, object, method) {
        return Some(aces);
    }
    if let Some(aces) = done_ace(profile, object, method) {
        return Some(aces);
    }
    if let Some(aces) = pin_row(object, method) {
        return Some(aces);
    }
    if let Some(aces) = range_get(profile, object, method) {
        return Some(aces);
    }
    if let Some(aces) = range_set(profile, object, method) {
        return Some(aces);
    }
    if let Some(aces) = mbr_row(object, method) {
        return Some(aces);
    }
    if let Some(aces) = field_row(profile, object, method) {
        return Some(aces);
    }
    opal_row(profile, object, method)
}

/// The ACEs of what a drive has under each profile but `Base`.
#[tactic(auto, using(crate::proofs::access_list::Joins::joins))]
fn field_row(profile: Profile, object: Uid, method: Uid) -> Option<ArrayVec<Uid, 4>>
    ensures { IsAnsweredByGrants
        (of_field profile (gen_key_ace_grants profile ++ info_grants ++ datastore_grants profile
        ++ key_grants))
        Locking object method result }
{
    if !profile.has_field() {
        return None;
    }
    if let Some(aces) = gen_key_ace(profile, object, method) {
        return Some(aces);
    }
    if let Some(aces) = info_row(object, method) {
        return Some(aces);
    }
    if let Some(aces) = datastore_row(profile, object, method) {
        return Some(aces);
    }
    key_row(object, method)
}

/// The ACEs of what the Locking SP has under the profile `Opal` alone.
#[tactic(auto, using(crate::proofs::access_list::Joins::joins))]
fn opal_row(profile: Profile, object: Uid, method: Uid) -> Option<ArrayVec<Uid, 4>>
    ensures { IsAnsweredByGrants (of_opal profile (sp_grants Locking ++ name_grants ++ mode_grants))
        Locking object method result }
{
    if profile != Profile::Opal {
        return None;
    }
    if let Some(aces) = sp_row(Sp::Locking, object, method) {
        return Some(aces);
    }
    if let Some(aces) = name_row(object, method) {
        return Some(aces);
    }
    mode_row(object, method)
}

#[tactic(auto, unfolding(crate::specs::Access::key_grants))]
fn key_row(object: Uid, method: Uid) -> Option<ArrayVec<Uid, 4>>
    ensures { IsAnsweredByGrants key_grants Locking object method result }
{
    match (object.key_number(), method) {
        (Some(range), Uid::GEN_KEY) => Some(one(Uid::ace_key_gen_key(range))),
        (None, Uid::REVERT_SP) if object == Uid::THIS_SP => Some(one(Uid::ACE_ADMINS)),
        _ => None,
    }
}

#[tactic(auto, unfolding(crate::specs::Access::gen_key_ace_grants))]
fn gen_key_ace(profile: Profile, object: Uid, method: Uid) -> Option<ArrayVec<Uid, 4>>
    ensures { IsAnsweredByGrants (gen_key_ace_grants profile) Locking object method result }
{
    object.gen_key_ace_number()?;
    settable(profile, method)
}

#[tactic(auto, unfolding(crate::specs::Access::info_grants))]
fn info_row(object: Uid, method: Uid) -> Option<ArrayVec<Uid, 4>>
    ensures { IsAnsweredByGrants info_grants Locking object method result }
{
    match (object, method) {
        (Uid::LOCKING_INFO | Uid::MBR_TABLE_ROW | Uid::DATASTORE_TABLE_ROW, Uid::GET) => {
            Some(one(Uid::ACE_ANYBODY))
        }
        _ => None,
    }
}

#[tactic(auto, unfolding(crate::specs::Access::datastore_grants))]
fn datastore_row(profile: Profile, object: Uid, method: Uid) -> Option<ArrayVec<Uid, 4>>
    ensures { IsAnsweredByGrants (datastore_grants profile) Locking object method result }
{
    match (object, method) {
        (Uid::DATASTORE_TABLE, Uid::GET) => Some(one(Uid::ACE_DATASTORE_GET_ALL)),
        (Uid::DATASTORE_TABLE, Uid::SET) => Some(one(Uid::ACE_DATASTORE_SET_ALL)),
        (Uid::ACE_DATASTORE_GET_ALL | Uid::ACE_DATASTORE_SET_ALL, _) => settable(profile, method),
        _ => None,
    }
}

#[tactic(auto, unfolding(crate::specs::Access::authority_grants, sp_cells::specs::Authorities::authorities_of_locking))]
fn authority_row(profile: Profile, object: Uid, method: Uid) -> Option<ArrayVec<Uid, 4>>
    ensures { IsAnsweredByGrants (authority_grants profile) Locking object method result }
{
    let is_class = matches!(object, Uid::ANYBODY | Uid::ADMINS | Uid::USERS);
    let admin = object.admin_number();
    let user = object.user_number();
    match method {
        Uid::GET if is_class || admin.is_some() || user.is_some() => {
            Some(authority_getters(profile))
        }
        Uid::SET => {
            let namer = match (admin, user) {
                (Some(2..), _) => Uid::ACE_ADMINS_SET_COMMON_NAME,
                (_, Some(user)) => Uid::ace_user_set_common_name(user),
                _ => return None,
            };
            Some(with_namer(profile, one(Uid::ACE_AUTHORITY_SET_ENABLED), namer))
        }
        _ => None,
    }
}

#[tactic(auto, unfolding(crate::specs::Access::fixed_ace_gets))]
fn fixed_ace(profile: Profile, object: Uid, method: Uid) -> Option<ArrayVec<Uid, 4>>
    ensures { IsAnsweredByGrants (fixed_ace_gets profile) Locking object method result }
{
    if method != Uid::GET {
        return None;
    }
    match object {
        Uid::ACE_ANYBODY
        | Uid::ACE_ADMINS
        | Uid::ACE_ANYBODY_GET_COMMON_NAME
        | Uid::ACE_ACE_SET_BOOLEAN_EXPRESSION
        | Uid::ACE_AUTHORITY_SET_ENABLED
        | Uid::ACE_C_PIN_ADMINS_GET_ALL_NOPIN
        | Uid::ACE_C_PIN_ADMINS_SET_PIN
        | Uid::ACE_LOCKING_GLOBAL_RANGE_ADMINS_SET
        | Uid::ACE_LOCKING_ADMINS_SET
        | Uid::ACE_MBR_CONTROL_ADMINS_SET => { Some(ace_getters(profile)) }
        _ => None,
    }
}

/// The ACEs of a method of an ACE whose expression can be set.
pub fn settable(profile: Profile, method: Uid) -> Option<ArrayVec<Uid, 4>>
    ensures { option_map (λ v. v.items) result ≡ (
        if method.0 == get.0 then Some (ace_getters_of profile) else
        if method.0 == set.0 then Some (ace_ace_set_boolean_expression ∷ []) else None) }
{
    match method {
        Uid::GET => Some(ace_getters(profile)),
        Uid::SET => Some(one(Uid::ACE_ACE_SET_BOOLEAN_EXPRESSION)),
        _ => None,
    }
}

#[tactic(auto, unfolding(crate::specs::Access::user_ace_grants))]
fn user_ace(profile: Profile, object: Uid, method: Uid) -> Option<ArrayVec<Uid, 4>>
    ensures { IsAnsweredByGrants (user_ace_grants profile) Locking object method result }
{
    object.user_ace_number()?;
    settable(profile, method)
}

#[tactic(auto, unfolding(crate::specs::Access::range_get_ace_grants))]
fn range_get_ace(profile: Profile, object: Uid, method: Uid) -> Option<ArrayVec<Uid, 4>>
    ensures { IsAnsweredByGrants (range_get_ace_grants profile) Locking object method result }
{
    match profile {
        Profile::Base => match (object, method) {
            (Uid::ACE_LOCKING_GET_ALL, Uid::GET) => {
                Some(two(Uid::ACE_ADMINS, Uid::ACE_ANYBODY_GET_COMMON_NAME))
            }
            _ => None,
        },
        Profile::Field | Profile::Opal => {
            object.range_get_ace_number()?;
            settable(profile, method)
        }
    }
}

#[tactic(auto, unfolding(crate::specs::Access::read_locked_ace_grants))]
fn read_locked_ace(profile: Profile, object: Uid, method: Uid) -> Option<ArrayVec<Uid, 4>>
    ensures { IsAnsweredByGrants (read_locked_ace_grants profile) Locking object method result }
{
    object.read_locked_ace_number()?;
    settable(profile, method)
}

#[tactic(auto, unfolding(crate::specs::Access::write_locked_ace_grants))]
fn write_locked_ace(profile: Profile, object: Uid, method: Uid) -> Option<ArrayVec<Uid, 4>>
    ensures { IsAnsweredByGrants (write_locked_ace_grants profile) Locking object method result }
{
    object.write_locked_ace_number()?;
    settable(profile, method)
}

#[tactic(auto, unfolding(crate::specs::Access::done_ace_grants))]
fn done_ace(profile: Profile, object: Uid, method: Uid) -> Option<ArrayVec<Uid, 4>>
    ensures { IsAnsweredByGrants (done_ace_grants profile) Locking object method result }
{
    match object {
        Uid::ACE_MBR_CONTROL_SET_DONE_TO_DOR => settable(profile, method),
        _ => None,
    }
}

#[tactic(auto, unfolding(crate::specs::Access::pin_grants))]
fn pin_row(object: Uid, method: Uid) -> Option<ArrayVec<Uid, 4>>
    ensures { IsAnsweredByGrants pin_grants Locking object method result }
{
    let admin = object.admin_pin_number();
    let user = object.user_pin_number();
    match method {
        Uid::GET if admin.is_some() || user.is_some() => {
            Some(one(Uid::ACE_C_PIN_ADMINS_GET_ALL_NOPIN))
        }
        Uid::SET if admin.is_some() => Some(one(Uid::ACE_C_PIN_ADMINS_SET_PIN)),
        Uid::SET => Some(one(Uid::ace_c_pin_user_set_pin(user?))),
        _ => None,
    }
}

#[tactic(auto, unfolding(crate::specs::Access::range_get_grants))]
fn range_get(profile: Profile, object: Uid, method: Uid) -> Option<ArrayVec<Uid, 4>>
    ensures { IsAnsweredByGrants (range_get_grants profile) Locking object method result }
{
    let range = object.range_number()?;
    let all = match (profile, method) {
        (Profile::Base, Uid::GET) => Uid::ACE_LOCKING_GET_ALL,
        (Profile::Field | Profile::Opal, Uid::GET) => Uid::ace_range_get(range),
        _ => return None,
    };
    Some(two(all, Uid::ACE_ANYBODY_GET_COMMON_NAME))
}

#[tactic(auto, unfolding(crate::specs::Access::range_set_grants))]
fn range_set(profile: Profile, object: Uid, method: Uid) -> Option<ArrayVec<Uid, 4>>
    ensures { IsAnsweredByGrants (range_set_grants profile) Locking object method result }
{
    let range = object.range_number()?;
    if method != Uid::SET {
        return None;
    }
    let first = if range == 0 {
        Uid::ACE_LOCKING_GLOBAL_RANGE_ADMINS_SET
    } else {
        Uid::ACE_LOCKING_ADMINS_SET
    };
    let read = Uid::ace_range_set_read_locked(range);
    let aces = three(first, read, Uid::ace_range_set_write_locked(range));
    Some(with_namer(profile, aces, Uid::ACE_ADMINS_SET_COMMON_NAME))
}

#[tactic(auto, unfolding(crate::specs::Access::mbr_grants))]
fn mbr_row(object: Uid, method: Uid) -> Option<ArrayVec<Uid, 4>>
    ensures { IsAnsweredByGrants mbr_grants Locking object method result }
{
    match (object, method) {
        (Uid::MBR_CONTROL | Uid::MBR_TABLE, Uid::GET) => Some(one(Uid::ACE_ANYBODY)),
        (Uid::MBR_CONTROL, Uid::SET) => Some(two(
            Uid::ACE_MBR_CONTROL_ADMINS_SET,
            Uid::ACE_MBR_CONTROL_SET_DONE_TO_DOR,
        )),
        (Uid::MBR_TABLE, Uid::SET) => Some(one(Uid::ACE_ADMINS)),
        _ => None,
    }
}

/// The list of one ACE.
pub fn one(a: Uid) -> ArrayVec<Uid, 4>
    ensures { result.items ≡ a ∷ [] }
{
    let mut aces = ArrayVec::new();
    aces.push(a);
    aces
}

fn two(a: Uid, b: Uid) -> ArrayVec<Uid, 4>
    ensures { result.items ≡ a ∷ b ∷ [] }
{
    let mut aces = one(a);
    aces.push(b);
    aces
}

fn three(a: Uid, b: Uid, c: Uid) -> ArrayVec<Uid, 4>
    ensures { result.items ≡ a ∷ b ∷ c ∷ [] }
{
    let mut aces = two(a, b);
    aces.push(c);
    aces
}
