//! How many lines the access list has.

ghost use Rattle.std.specs.Prelude.{◌≡◌, IsTrue};
ghost use Rattle.ace_eval.specs.Access.{access_list, line_count, lines_differ, have_room};
ghost use Rattle.basics.specs.declared.profile.Profile.TheVariants.{Base, Field, Opal};
ghost use Rattle.sp_cells.specs.declared.names.Sp.TheVariants.{Admin, Locking};

/// The access list has these counts of lines, no two of them for one method of one object of one SP, and each has from
/// one to four ACEs (Opal SSC 2.01, sections 4.2.1.6 and 4.3.1.6, table AccessControl).
#[tactic(auto, unfolding(sp_cells::specs::Authorities::authorities_of_locking, crate::specs::Access::this_sp_grants, crate::specs::Access::owner_grants, crate::specs::Access::label_grants, crate::specs::Access::removal_grants, crate::specs::Access::own_grants, crate::specs::Access::listed_grants, crate::specs::Access::told_grants, crate::specs::Access::method_grants, crate::specs::Access::maker_grants, crate::specs::Access::authority_grants, crate::specs::Access::fixed_ace_gets, crate::specs::Access::user_ace_grants, crate::specs::Access::range_get_ace_grants, crate::specs::Access::gen_key_ace_grants, crate::specs::Access::read_locked_ace_grants, crate::specs::Access::write_locked_ace_grants, crate::specs::Access::done_ace_grants, crate::specs::Access::pin_grants, crate::specs::Access::range_get_grants, crate::specs::Access::range_set_grants, crate::specs::Access::mbr_grants, crate::specs::Access::info_grants, crate::specs::Access::datastore_grants, crate::specs::Access::key_grants, crate::specs::Access::name_grants, crate::specs::Access::mode_grants))]
pub fn laws_of_access_list()
    ensures base { (line_count Admin (access_list Base) ≡ 19)
        × (line_count Locking (access_list Base) ≡ 234) }
    ensures field { (line_count Admin (access_list Field) ≡ 26)
        × (line_count Locking (access_list Field) ≡ 328) }
    ensures opal { (line_count Admin (access_list Opal) ≡ 72)
        × (line_count Locking (access_list Opal) ≡ 418) }
    ensures room_base { IsTrue (have_room (access_list Base)) }
    ensures room_field { IsTrue (have_room (access_list Field)) }
    ensures room_opal { IsTrue (have_room (access_list Opal)) }
    ensures distinct_base { IsTrue (lines_differ (access_list Base)) }
    ensures distinct_field { IsTrue (lines_differ (access_list Field)) }
    ensures distinct_opal { IsTrue (lines_differ (access_list Opal)) }
{}
