//! The numbers of statuses and of optional parameters: the code and the definitions have the same, and these.

ghost use Rattle.std.specs.Prelude.{◌≡◌};
ghost use Rattle.tcg_calls.specs.Statuses.{success, not_authorized, sp_busy, no_sessions_available, invalid_parameter, transaction_failure, response_overflow, authority_locked_out, fail};
ghost use Rattle.tcg_calls.specs.Parameters.{start_row_parameter, end_row_parameter, start_column_parameter, end_column_parameter, where_parameter, values_parameter, next_where_parameter, next_count_parameter, proof_parameter, host_challenge_parameter, host_signing_authority_parameter, keep_global_range_key_parameter, host_properties_parameter};
ghost use Rattle.tcg_calls.specs.declared.call_shapes.status.TheConstants as statuses;
ghost use Rattle.tcg_calls.specs.declared.call_shapes.parameter.TheConstants as parameters;

/// Each status and each optional parameter has the number that the standard gives it (TCG Core 2.01, sections 5.1.5,
/// 5.2.2, 5.2.3.1, 5.3.3 and 5.3.4; Opal SSC 2.01, section 5.1).
pub fn laws_of_numbers()
    ensures success { (statuses.SUCCESS ≡ success) × (success ≡ 0x00) }
    ensures not_authorized { (statuses.NOT_AUTHORIZED ≡ not_authorized) × (not_authorized ≡ 0x01) }
    ensures sp_busy { (statuses.SP_BUSY ≡ sp_busy) × (sp_busy ≡ 0x03) }
    ensures no_sessions { (statuses.NO_SESSIONS_AVAILABLE ≡ no_sessions_available)
        × (no_sessions_available ≡ 0x07) }
    ensures invalid { (statuses.INVALID_PARAMETER ≡ invalid_parameter)
        × (invalid_parameter ≡ 0x0c) }
    ensures transaction { (statuses.TRANSACTION_FAILURE ≡ transaction_failure)
        × (transaction_failure ≡ 0x10) }
    ensures overflow { (statuses.RESPONSE_OVERFLOW ≡ response_overflow)
        × (response_overflow ≡ 0x11) }
    ensures locked_out { (statuses.AUTHORITY_LOCKED_OUT ≡ authority_locked_out)
        × (authority_locked_out ≡ 0x12) }
    ensures fail { (statuses.FAIL ≡ fail) × (fail ≡ 0x3f) }
    ensures rows { (parameters.START_ROW ≡ start_row_parameter) × (start_row_parameter ≡ 1)
        × (parameters.END_ROW ≡ end_row_parameter) × (end_row_parameter ≡ 2) }
    ensures columns { (parameters.START_COLUMN ≡ start_column_parameter)
        × (start_column_parameter ≡ 3)
        × (parameters.END_COLUMN ≡ end_column_parameter) × (end_column_parameter ≡ 4) }
    ensures set { (parameters.WHERE ≡ where_parameter) × (where_parameter ≡ 0)
        × (parameters.VALUES ≡ values_parameter) × (values_parameter ≡ 1) }
    ensures next { (parameters.NEXT_WHERE ≡ next_where_parameter) × (next_where_parameter ≡ 0)
        × (parameters.NEXT_COUNT ≡ next_count_parameter) × (next_count_parameter ≡ 1) }
    ensures authenticate { (parameters.PROOF ≡ proof_parameter) × (proof_parameter ≡ 0) }
    ensures start_session { (parameters.HOST_CHALLENGE ≡ host_challenge_parameter)
        × (host_challenge_parameter ≡ 0)
        × (parameters.HOST_SIGNING_AUTHORITY ≡ host_signing_authority_parameter)
        × (host_signing_authority_parameter ≡ 3) }
    ensures revert_sp { (parameters.KEEP_GLOBAL_RANGE_KEY ≡ keep_global_range_key_parameter)
        × (keep_global_range_key_parameter ≡ 0x060000) }
    ensures properties { (parameters.HOST_PROPERTIES ≡ host_properties_parameter)
        × (host_properties_parameter ≡ 0) }
{}
