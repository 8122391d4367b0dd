//! The numbers of the standards: the code and the definitions have the same, and these.

ghost use Rattle.std.specs.Prelude.{◌≡◌, ◌^◌};
ghost use Rattle.basics.specs.Addresses.{address_limit};
ghost use Rattle.sp_cells.specs.Names.{none, this_sp, admin_sp, locking_sp, anybody, sid, admins_class, users_class, c_pin_sid, c_pin_msid, psid, c_pin_psid, locking_info, global_key, global_range, mbr_control, mbr_table, mbr_table_row, datastore_table, datastore_table_row, data_removal, sp_info, sp_template_base, sp_template_own, template_base, template_admin, template_locking, access_control, secret_protect_key, makers_class, admin_sp_admin, c_pin_admin_sp_admin, get, set, authenticate, revert, activate, gen_key, revert_sp, next, get_acl, random, session_manager, properties, start_session, sync_session, tper_info};
ghost use Rattle.sp_cells.specs.Names.{table_table, sp_info_table, sp_templates_table, method_id_table, access_control_table, secret_protect_table, template_table, ace_table, authority_table, c_pin_table, sp_table, locking_info_table, key_table, data_removal_table, locking_table, mbr_control_table, tper_info_table};
ghost use Rattle.sp_cells.specs.Names.{ace_anybody, ace_admins, ace_anybody_get_common_name, ace_admins_set_common_name, ace_ace_get_all, ace_authority_get_all, ace_key_mode, ace_set_enabled, ace_c_pin_sid_get_nopin, ace_c_pin_sid_set_pin, ace_c_pin_msid_get_pin, ace_c_pin_get_psid_nopin, ace_sp_psid, ace_sp_sid, ace_tper_info_set_programmatic_reset_enable, ace_ace_set_boolean_expression, ace_authority_set_enabled, ace_c_pin_admins_get_all_nopin, ace_c_pin_admins_set_pin, ace_locking_get_all, ace_locking_global_range_admins_set, ace_locking_admins_set, ace_mbr_control_admins_set, ace_mbr_control_set_done_to_dor, ace_datastore_get_all, ace_datastore_set_all, ace_data_removal_set_active};
ghost use Rattle.sp_cells.specs.ColumnNames.{sp_id_column, sp_name_column, size_column, size_in_use_column, sp_session_timeout_column, sp_enabled_column, template_id_column, template_name_column, template_version_column, revision_number_column, instances_column, max_instances_column, protected_table_column, column_number_column, protect_mechanisms_column, org_column, effective_auth_column, sp_bytes_column, frozen_column, tper_bytes_column, gudid_column, generation_column, firmware_version_column, protocol_version_column, space_for_issuance_column, ssc_column, mode_column};
ghost use Rattle.sp_cells.specs.ColumnNames.{secure_column, hash_and_sign_column, present_certificate_column, response_sign_column, response_exch_column, limit_column, uses_column, log_column, log_to_column};
ghost use Rattle.sp_cells.specs.ColumnNames.{uid_column, name_column, common_name_column, life_cycle_state_column, programmatic_reset_enable_column, pin_column, char_set_column, try_limit_column, tries_column, persistence_column};
ghost use Rattle.sp_cells.specs.ColumnNames.{is_class_column, class_column, enabled_column, operation_column, credential_column, boolean_expr_column, columns_column};
ghost use Rattle.sp_cells.specs.ColumnNames.{range_start_column, range_length_column, read_lock_enabled_column, write_lock_enabled_column, read_locked_column, write_locked_column, lock_on_reset_column, mbr_enable_column, mbr_done_column, mbr_done_on_reset_column};
ghost use Rattle.sp_cells.specs.ColumnNames.{active_key_column, version_column, encrypt_support_column, max_ranges_column, max_re_encryptions_column, keys_available_cfg_column, alignment_required_column, logical_block_size_column, alignment_granularity_column, lowest_aligned_lba_column, kind_column, rows_column, mandatory_write_granularity_column, recommended_access_granularity_column, active_data_removal_mechanism_column};
ghost use Rattle.sp_cells.specs.Limits.{most_mbr_sectors, most_datastore_bytes, new_datastore_bytes, opal_mbr_sectors, least_opal_datastore_bytes, new_seed, cryptographic_erase, most_pin_bytes, most_serial_bytes, most_model_bytes, most_common_name_bytes, most_short_elements, most_elements, new_try_limit, no_try_limit, manufactured_inactive, manufactured};
ghost use Rattle.sp_cells.specs.declared.names.TheConstants.{RANGES, USERS, ADMINS};
ghost use Rattle.sp_cells.specs.declared.names.TheConstants.Uid as uids;
ghost use Rattle.sp_cells.specs.declared.names.TheConstants.Column as columns;
ghost use Rattle.sp_cells.specs.declared.names.tables.TheConstants as tables;
ghost use Rattle.sp_cells.specs.declared.limits.TheConstants as limits;

/// Each name of the code has the number that the standard gives to the object or the column of its name (TCG Core
/// 2.01, chapter 5; Opal SSC 2.01, sections 4.2 and 4.3), and this drive has 16 numbered ranges, 16 Users and 4 Admins.
pub fn laws_of_names()
    ensures counts { (RANGES ≡ 16) × (USERS ≡ 16) × (ADMINS ≡ 4) }
    ensures sps { (uids.NONE ≡ none) × (uids.THIS_SP ≡ this_sp) × (uids.ADMIN_SP ≡ admin_sp)
        × (uids.LOCKING_SP ≡ locking_sp) }
    ensures authorities { (uids.ANYBODY ≡ anybody) × (uids.SID ≡ sid) × (uids.ADMINS ≡ admins_class)
        × (uids.USERS ≡ users_class) }
    ensures pins { (uids.C_PIN_SID ≡ c_pin_sid) × (uids.C_PIN_MSID ≡ c_pin_msid) }
    ensures label { (uids.PSID ≡ psid) × (uids.C_PIN_PSID ≡ c_pin_psid)
        × (uids.ACE_C_PIN_GET_PSID_NOPIN ≡ ace_c_pin_get_psid_nopin)
        × (uids.ACE_SP_PSID ≡ ace_sp_psid) }
    ensures templates { (uids.SP_INFO ≡ sp_info) × (uids.SP_TEMPLATE_BASE ≡ sp_template_base)
        × (uids.SP_TEMPLATE_OWN ≡ sp_template_own) × (uids.TEMPLATE_BASE ≡ template_base)
        × (uids.TEMPLATE_ADMIN ≡ template_admin) × (uids.TEMPLATE_LOCKING ≡ template_locking) }
    ensures access_control { (uids.ACCESS_CONTROL ≡ access_control)
        × (uids.SECRET_PROTECT_KEY ≡ secret_protect_key) }
    ensures admin_sp_members { (uids.MAKERS ≡ makers_class)
        × (uids.ADMIN_SP_ADMIN ≡ admin_sp_admin)
        × (uids.C_PIN_ADMIN_SP_ADMIN ≡ c_pin_admin_sp_admin) }
    ensures tper_info { (uids.TPER_INFO ≡ tper_info) }
    ensures locking_info { (uids.LOCKING_INFO ≡ locking_info) }
    ensures keys { (uids.GLOBAL_KEY ≡ global_key) }
    ensures table_rows { (uids.MBR_TABLE_ROW ≡ mbr_table_row)
        × (uids.DATASTORE_TABLE_ROW ≡ datastore_table_row) }
    ensures datastore { (uids.DATASTORE_TABLE ≡ datastore_table)
        × (uids.ACE_DATASTORE_GET_ALL ≡ ace_datastore_get_all)
        × (uids.ACE_DATASTORE_SET_ALL ≡ ace_datastore_set_all) }
    ensures data_removal { (uids.DATA_REMOVAL ≡ data_removal)
        × (uids.ACE_DATA_REMOVAL_SET_ACTIVE ≡ ace_data_removal_set_active) }
    ensures ranges { (uids.GLOBAL_RANGE ≡ global_range) }
    ensures mbr { (uids.MBR_CONTROL ≡ mbr_control) × (uids.MBR_TABLE ≡ mbr_table) }
    ensures methods { (uids.GET ≡ get) × (uids.SET ≡ set) × (uids.AUTHENTICATE ≡ authenticate)
        × (uids.REVERT ≡ revert) × (uids.ACTIVATE ≡ activate) × (uids.GEN_KEY ≡ gen_key)
        × (uids.REVERT_SP ≡ revert_sp) }
    ensures opal_methods { (uids.NEXT ≡ next) × (uids.GET_ACL ≡ get_acl) × (uids.RANDOM ≡ random) }
    ensures session_manager { (uids.SESSION_MANAGER ≡ session_manager)
        × (uids.PROPERTIES ≡ properties)
        × (uids.START_SESSION ≡ start_session) × (uids.SYNC_SESSION ≡ sync_session) }
    ensures admin_sp_aces { (uids.ACE_C_PIN_SID_GET_NOPIN ≡ ace_c_pin_sid_get_nopin)
        × (uids.ACE_C_PIN_SID_SET_PIN ≡ ace_c_pin_sid_set_pin)
        × (uids.ACE_C_PIN_MSID_GET_PIN ≡ ace_c_pin_msid_get_pin)
        × (uids.ACE_SP_SID ≡ ace_sp_sid)
        × (uids.ACE_TPER_INFO_SET_PROGRAMMATIC_RESET_ENABLE
        ≡ ace_tper_info_set_programmatic_reset_enable) }
    ensures aces { (uids.ACE_ANYBODY ≡ ace_anybody) × (uids.ACE_ADMINS ≡ ace_admins)
        × (uids.ACE_ANYBODY_GET_COMMON_NAME ≡ ace_anybody_get_common_name)
        × (uids.ACE_ACE_SET_BOOLEAN_EXPRESSION ≡ ace_ace_set_boolean_expression)
        × (uids.ACE_AUTHORITY_SET_ENABLED ≡ ace_authority_set_enabled) }
    ensures opal_aces { (uids.ACE_ADMINS_SET_COMMON_NAME ≡ ace_admins_set_common_name)
        × (uids.ACE_ACE_GET_ALL ≡ ace_ace_get_all)
        × (uids.ACE_AUTHORITY_GET_ALL ≡ ace_authority_get_all)
        × (uids.ACE_KEY_MODE ≡ ace_key_mode)
        × (uids.ACE_SET_ENABLED ≡ ace_set_enabled) }
    ensures pin_aces { (uids.ACE_C_PIN_ADMINS_GET_ALL_NOPIN ≡ ace_c_pin_admins_get_all_nopin)
        × (uids.ACE_C_PIN_ADMINS_SET_PIN ≡ ace_c_pin_admins_set_pin) }
    ensures range_aces { (uids.ACE_LOCKING_GET_ALL ≡ ace_locking_get_all)
        × (uids.ACE_LOCKING_GLOBAL_RANGE_ADMINS_SET ≡ ace_locking_global_range_admins_set)
        × (uids.ACE_LOCKING_ADMINS_SET ≡ ace_locking_admins_set) }
    ensures mbr_aces { (uids.ACE_MBR_CONTROL_ADMINS_SET ≡ ace_mbr_control_admins_set)
        × (uids.ACE_MBR_CONTROL_SET_DONE_TO_DOR ≡ ace_mbr_control_set_done_to_dor) }
    ensures tables { (tables.TABLE ≡ table_table) × (tables.ACE ≡ ace_table)
        × (tables.AUTHORITY ≡ authority_table)
        × (tables.C_PIN ≡ c_pin_table) × (tables.SP ≡ sp_table)
        × (tables.LOCKING_INFO ≡ locking_info_table)
        × (tables.LOCKING ≡ locking_table) × (tables.MBR_CONTROL ≡ mbr_control_table)
        × (tables.TPER_INFO ≡ tper_info_table) × (tables.K_AES_256 ≡ key_table)
        × (tables.DATA_REMOVAL ≡ data_removal_table) }
    ensures opal_tables { (tables.SP_INFO ≡ sp_info_table)
        × (tables.SP_TEMPLATES ≡ sp_templates_table) × (tables.METHOD_ID ≡ method_id_table)
        × (tables.ACCESS_CONTROL ≡ access_control_table)
        × (tables.SECRET_PROTECT ≡ secret_protect_table) × (tables.TEMPLATE ≡ template_table) }
    ensures every_row { (columns.UID ≡ uid_column) × (columns.NAME ≡ name_column)
        × (columns.COMMON_NAME ≡ common_name_column) }
    ensures sp_info_row { (columns.SP_ID ≡ sp_id_column) × (columns.SP_NAME ≡ sp_name_column)
        × (columns.SIZE ≡ size_column) × (columns.SIZE_IN_USE ≡ size_in_use_column)
        × (columns.SP_SESSION_TIMEOUT ≡ sp_session_timeout_column)
        × (columns.SP_ENABLED ≡ sp_enabled_column) }
    ensures sp_templates_row { (columns.TEMPLATE_ID ≡ template_id_column)
        × (columns.TEMPLATE_NAME ≡ template_name_column)
        × (columns.TEMPLATE_VERSION ≡ template_version_column) }
    ensures template_row { (columns.REVISION_NUMBER ≡ revision_number_column)
        × (columns.INSTANCES ≡ instances_column)
        × (columns.MAX_INSTANCES ≡ max_instances_column) }
    ensures secret_protect_row { (columns.PROTECTED_TABLE ≡ protected_table_column)
        × (columns.COLUMN_NUMBER ≡ column_number_column)
        × (columns.PROTECT_MECHANISMS ≡ protect_mechanisms_column) }
    ensures whole_sp_row { (columns.ORG ≡ org_column)
        × (columns.EFFECTIVE_AUTH ≡ effective_auth_column)
        × (columns.SP_BYTES ≡ sp_bytes_column) × (columns.FROZEN ≡ frozen_column) }
    ensures whole_tper_info_row { (columns.TPER_BYTES ≡ tper_bytes_column)
        × (columns.GUDID ≡ gudid_column) × (columns.GENERATION ≡ generation_column)
        × (columns.FIRMWARE_VERSION ≡ firmware_version_column)
        × (columns.PROTOCOL_VERSION ≡ protocol_version_column)
        × (columns.SPACE_FOR_ISSUANCE ≡ space_for_issuance_column)
        × (columns.SSC ≡ ssc_column) }
    ensures whole_authority_row { (columns.SECURE ≡ secure_column)
        × (columns.HASH_AND_SIGN ≡ hash_and_sign_column)
        × (columns.PRESENT_CERTIFICATE ≡ present_certificate_column)
        × (columns.RESPONSE_SIGN ≡ response_sign_column)
        × (columns.RESPONSE_EXCH ≡ response_exch_column)
        × (columns.LIMIT ≡ limit_column) × (columns.USES ≡ uses_column)
        × (columns.LOG ≡ log_column) × (columns.LOG_TO ≡ log_to_column) }
    ensures key_row { (columns.MODE ≡ mode_column) }
    ensures sp_row { (columns.LIFE_CYCLE_STATE ≡ life_cycle_state_column) }
    ensures tper_info_row { (columns.PROGRAMMATIC_RESET_ENABLE ≡ programmatic_reset_enable_column) }
    ensures pin_row { (columns.PIN ≡ pin_column) × (columns.CHAR_SET ≡ char_set_column)
        × (columns.TRY_LIMIT ≡ try_limit_column) × (columns.TRIES ≡ tries_column)
        × (columns.PERSISTENCE ≡ persistence_column) }
    ensures authority_row { (columns.IS_CLASS ≡ is_class_column) × (columns.CLASS ≡ class_column)
        × (columns.ENABLED ≡ enabled_column) × (columns.OPERATION ≡ operation_column)
        × (columns.CREDENTIAL ≡ credential_column) }
    ensures ace_row { (columns.BOOLEAN_EXPR ≡ boolean_expr_column)
        × (columns.COLUMNS ≡ columns_column) }
    ensures range_bounds { (columns.RANGE_START ≡ range_start_column)
        × (columns.RANGE_LENGTH ≡ range_length_column) }
    ensures range_locks { (columns.READ_LOCK_ENABLED ≡ read_lock_enabled_column)
        × (columns.WRITE_LOCK_ENABLED ≡ write_lock_enabled_column)
        × (columns.READ_LOCKED ≡ read_locked_column)
        × (columns.WRITE_LOCKED ≡ write_locked_column)
        × (columns.LOCK_ON_RESET ≡ lock_on_reset_column) }
    ensures range_key { (columns.ACTIVE_KEY ≡ active_key_column) }
    ensures locking_info_row { (columns.VERSION ≡ version_column)
        × (columns.ENCRYPT_SUPPORT ≡ encrypt_support_column)
        × (columns.MAX_RANGES ≡ max_ranges_column)
        × (columns.MAX_RE_ENCRYPTIONS ≡ max_re_encryptions_column)
        × (columns.KEYS_AVAILABLE_CFG ≡ keys_available_cfg_column)
        × (columns.ALIGNMENT_REQUIRED ≡ alignment_required_column)
        × (columns.LOGICAL_BLOCK_SIZE ≡ logical_block_size_column)
        × (columns.ALIGNMENT_GRANULARITY ≡ alignment_granularity_column)
        × (columns.LOWEST_ALIGNED_LBA ≡ lowest_aligned_lba_column) }
    ensures table_row { (columns.KIND ≡ kind_column) × (columns.ROWS ≡ rows_column)
        × (columns.MANDATORY_WRITE_GRANULARITY ≡ mandatory_write_granularity_column)
        × (columns.RECOMMENDED_ACCESS_GRANULARITY ≡ recommended_access_granularity_column) }
    ensures data_removal_row { (columns.ACTIVE_DATA_REMOVAL_MECHANISM
        ≡ active_data_removal_mechanism_column) }
    ensures mbr_control_row { (columns.MBR_ENABLE ≡ mbr_enable_column)
        × (columns.MBR_DONE ≡ mbr_done_column)
        × (columns.MBR_DONE_ON_RESET ≡ mbr_done_on_reset_column) }
{}

/// The limits of the code are those of the definitions, and these numbers.
pub fn laws_of_limits()
    ensures sectors { address_limit ≡ 2 ^ 48 }
    ensures shadow { (limits.MOST_MBR_SECTORS ≡ most_mbr_sectors) × (most_mbr_sectors ≡ 262144) }
    ensures datastore { (limits.MOST_DATASTORE_BYTES ≡ most_datastore_bytes)
        × (most_datastore_bytes ≡ 16777216) }
    ensures new_datastore { (limits.NEW_DATASTORE_BYTES ≡ new_datastore_bytes)
        × (new_datastore_bytes ≡ 4096) }
    ensures opal_shadow { (limits.OPAL_MBR_SECTORS ≡ opal_mbr_sectors)
        × (opal_mbr_sectors ≡ 262144) }
    ensures opal_datastore { (limits.LEAST_OPAL_DATASTORE_BYTES ≡ least_opal_datastore_bytes)
        × (least_opal_datastore_bytes ≡ 10485760) }
    ensures seed { (limits.NEW_SEED ≡ new_seed) × (new_seed ≡ 0) }
    ensures removal { (limits.CRYPTOGRAPHIC_ERASE ≡ cryptographic_erase)
        × (cryptographic_erase ≡ 2) }
    ensures pin { (limits.MOST_PIN_BYTES ≡ most_pin_bytes) × (most_pin_bytes ≡ 32) }
    ensures serial { (limits.MOST_SERIAL_BYTES ≡ most_serial_bytes) × (most_serial_bytes ≡ 20) }
    ensures model { (limits.MOST_MODEL_BYTES ≡ most_model_bytes) × (most_model_bytes ≡ 40) }
    ensures common_name { (limits.MOST_COMMON_NAME_BYTES ≡ most_common_name_bytes)
        × (most_common_name_bytes ≡ 32) }
    ensures short_expression { (limits.MOST_SHORT_ELEMENTS ≡ most_short_elements)
        × (most_short_elements ≡ 31) }
    ensures expression { (limits.MOST_ELEMENTS ≡ most_elements) × (most_elements ≡ 33) }
    ensures tries { (limits.NEW_TRY_LIMIT ≡ new_try_limit) × (new_try_limit ≡ 5) }
    ensures any_tries { (limits.NO_TRY_LIMIT ≡ no_try_limit) × (no_try_limit ≡ 0) }
    ensures inactive { (limits.MANUFACTURED_INACTIVE ≡ manufactured_inactive)
        × (manufactured_inactive ≡ 8) }
    ensures active { (limits.MANUFACTURED ≡ manufactured) × (manufactured ≡ 9) }
{}
