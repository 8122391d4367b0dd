//! The numbers of ComIDs, resets and errors: the definitions have these.

ghost use Rattle.std.specs.Prelude.{◌≡◌};
ghost use Rattle.trusted_cmds.specs.Commands.{reset_protocol, reset_com_id};
ghost use Rattle.trusted_cmds.specs.BlockSid.{block_com_id};
ghost use Rattle.sp_cells.specs.Resets.{power_cycle, hardware, programmatic};
ghost use Rattle.device_data.specs.Discovery.{first_com_id};
ghost use Rattle.history.specs.Decisions.{aborted, not_found, last_com_id, discovery_com_id};
ghost use Rattle.history.specs.Readers.{first_number};
ghost use Rattle.history.specs.Resets.{reset_kind_number};
ghost use Rattle.history.specs.declared.reset.ResetKind.TheVariants.{Power, Hardware};

/// The numbers of this drive.
///
/// `com_ids`: sessions have the ComIDs 1000h to 1003h. `discovery`: Level 0 discovery has 0001h.
/// `reset`: the command that resets is of security protocol 02h, and to the ComID 0004h; `block`: that
/// which blocks SID is to the ComID 0005h. `kinds`: a power cycle is the reset of kind 0, a hardware
/// reset of kind 1, that of a command of kind 3.
/// `sessions`: the first session is 1000h. `errors`: ABRT is 04h, IDNF 10h.
pub fn laws_of_numbers()
    ensures com_ids { (first_com_id ≡ 0x1000) × (last_com_id ≡ 0x1003) }
    ensures discovery { discovery_com_id ≡ 0x0001 }
    ensures reset { (reset_protocol ≡ 0x02) × (reset_com_id ≡ 0x0004) }
    ensures block { block_com_id ≡ 0x0005 }
    ensures kinds { (power_cycle ≡ 0) × (hardware ≡ 1) × (programmatic ≡ 3) }
    ensures asked { (reset_kind_number Power ≡ 0) × (reset_kind_number Hardware ≡ 1) }
    ensures sessions { first_number ≡ 0x1000 }
    ensures errors { (aborted ≡ 0x04) × (not_found ≡ 0x10) }
{}
