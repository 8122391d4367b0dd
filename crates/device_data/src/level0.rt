//! Level 0 discovery (Core 2.01, section 3.3.6; Opal SSC 2.01, section 3.1.1).

ghost use Rattle.std.specs.Prelude.{◌≡◌, ◌≤◌, ◌||◌};
ghost use Rattle.sp_cells.specs.declared.names.TheConstants.{RANGES};
ghost use Rattle.device_data.specs.Discovery.{is_set, has_lock, any_range_below, is_locked, is_manufactured, is_shadow_flag, locking_flags, discovery, has_owner, field_discovery};

use sp_cells::limits::MANUFACTURED;
use sp_cells::{ADMINS, Cell, Column, RANGES, Rows, Sp, USERS, Uid, number_at};
use trusted_cmds::SidBlock;

/// How many bytes Level 0 discovery has.
pub const DISCOVERY_LENGTH: usize = 132;

/// How many bytes it has on a drive of the field profile.
pub const FIELD_DISCOVERY_LENGTH: usize = 184;

/// Whether a column of a range has 1 in it.
fn is_set<R: Rows>(rows: &R, range: u8, column: Column) -> bool
    requires { range ≤ RANGES }
    ensures { result ≡ is_set (R.look_up rows.now) range column }
{
    number_at(rows, Sp::Locking, Uid::range(range), column) == 1
}

/// Whether a lock of a range is set, and enabled.
fn has_lock<R: Rows>(rows: &R, range: u8) -> bool
    requires { range ≤ RANGES }
    ensures { result ≡ has_lock (R.look_up rows.now) range }
{
    is_set(rows, range, Column::READ_LOCK_ENABLED) && is_set(rows, range, Column::READ_LOCKED)
        || is_set(rows, range, Column::WRITE_LOCK_ENABLED)
            && is_set(rows, range, Column::WRITE_LOCKED)
}

/// Whether one of the ranges before was locked, or this one is.
fn or_locked<R: Rows>(before: bool, rows: &R, range: u8) -> bool
    requires { range ≤ RANGES }
    ensures { result ≡ (before || has_lock (R.look_up rows.now) range) }
{
    before || has_lock(rows, range)
}

/// Whether some range is locked.
#[tactic(auto, unfolding(crate::specs::Discovery::any_range_below))]
fn is_locked<R: Rows>(rows: &R) -> bool
    ensures { result ≡ is_locked (R.look_up rows.now) }
{
    let mut locked = false;
    for range in 0..RANGES + 1 {
        locked = or_locked(locked, rows, range);
    }
    locked
}

/// Whether the Locking SP is Manufactured.
fn is_manufactured<R: Rows>(rows: &R) -> bool
    ensures { result ≡ is_manufactured (R.look_up rows.now) }
{
    number_at(rows, Sp::Admin, Uid::LOCKING_SP, Column::LIFE_CYCLE_STATE) == MANUFACTURED
}

/// A flag of the shadow MBR.
fn shadow_flag<R: Rows>(rows: &R, column: Column) -> bool
    ensures { result ≡ is_shadow_flag (R.look_up rows.now) column }
{
    number_at(rows, Sp::Locking, Uid::MBR_CONTROL, column) == 1
}

/// The flags of the Locking feature.
fn locking_flags<R: Rows>(rows: &R) -> u8
    ensures { result ≡ locking_flags (R.look_up rows.now) }
{
    1 + 2 * u8::from(is_manufactured(rows))
        + 4 * u8::from(is_locked(rows))
        + 16 * u8::from(shadow_flag(rows, Column::MBR_ENABLE))
        + 32 * u8::from(shadow_flag(rows, Column::MBR_DONE))
}

/// Level 0 discovery by these rows: the header, and the features TPer, Locking, Geometry and Opal SSC 2.
pub fn discovery<R: Rows>(rows: &R) -> [u8; DISCOVERY_LENGTH]
    ensures { result ≡ discovery (R.look_up rows.now) }
{
    let flags = locking_flags(rows);
    [
        // the header: the length of what follows, version 1, 40 reserved and vendor's bytes
        0, 0, 0, 0x80, 0, 0, 0, 1, 0, 0, 0, 0, 0, 0, 0, 0, //
        0, 0, 0, 0, 0, 0, 0, 0, 0, 0, 0, 0, 0, 0, 0, 0, //
        0, 0, 0, 0, 0, 0, 0, 0, 0, 0, 0, 0, 0, 0, 0, 0, //
        // TPer
        0x00, 0x01, 0x10, 12, 0x11, 0, 0, 0, 0, 0, 0, 0, 0, 0, 0, 0, //
        // Locking
        0x00, 0x02, 0x10, 12, flags, 0, 0, 0, 0, 0, 0, 0, 0, 0, 0, 0, //
        // Geometry: sectors of 512 bytes, aligned to one
        0x00, 0x03, 0x10, 28, 0, 0, 0, 0, 0, 0, 0, 0, 0, 0, 2, 0, //
        0, 0, 0, 0, 0, 0, 0, 1, 0, 0, 0, 0, 0, 0, 0, 0, //
        // Opal SSC 2: ComIDs from 1000h on, four of them, the Admins and the Users
        0x02, 0x03, 0x10, 16, 0x10, 0x00, 0, 4, 0, 0, ADMINS, 0, USERS, 0, 0, 0, //
        0, 0, 0, 0,
    ]
}

/// Whether SID has a PIN of its own: that of C_PIN_SID is not the MSID.
pub fn has_owner<R: Rows>(rows: &R) -> bool
    ensures { result ≡ has_owner (R.look_up rows.now) }
{
    let own = rows.cell(Sp::Admin, Uid::C_PIN_SID, Column::PIN);
    let printed = rows.cell(Sp::Admin, Uid::C_PIN_MSID, Column::PIN);
    match (own, printed) {
        (Some(Cell::Bytes(own)), Some(Cell::Bytes(printed))) => own.as_slice()
            != printed.as_slice(),
        _ => true,
    }
}

/// Level 0 discovery of the field profile by these rows, and by whether SID is blocked: what `discovery` gives, with
/// media that are encrypted, and the features Block SID Authentication and Data Removal.
pub fn field_discovery<R: Rows>(rows: &R, block: SidBlock) -> [u8; FIELD_DISCOVERY_LENGTH]
    ensures { result ≡ field_discovery (R.look_up rows.now) block }
{
    let flags = 8 + locking_flags(rows);
    let sid = u8::from(has_owner(rows)) + 2 * u8::from(block.is_blocked());
    let hardware = u8::from(block.ends_at_hardware_reset());
    [
        // the header: the length of what follows, version 1, 40 reserved and vendor's bytes
        0, 0, 0, 0xb4, 0, 0, 0, 1, 0, 0, 0, 0, 0, 0, 0, 0, //
        0, 0, 0, 0, 0, 0, 0, 0, 0, 0, 0, 0, 0, 0, 0, 0, //
        0, 0, 0, 0, 0, 0, 0, 0, 0, 0, 0, 0, 0, 0, 0, 0, //
        // TPer
        0x00, 0x01, 0x10, 12, 0x11, 0, 0, 0, 0, 0, 0, 0, 0, 0, 0, 0, //
        // Locking
        0x00, 0x02, 0x10, 12, flags, 0, 0, 0, 0, 0, 0, 0, 0, 0, 0, 0, //
        // Geometry: sectors of 512 bytes, aligned to one
        0x00, 0x03, 0x10, 28, 0, 0, 0, 0, 0, 0, 0, 0, 0, 0, 2, 0, //
        0, 0, 0, 0, 0, 0, 0, 1, 0, 0, 0, 0, 0, 0, 0, 0, //
        // Opal SSC 2: ComIDs from 1000h on, four of them, the Admins and the Users
        0x02, 0x03, 0x10, 16, 0x10, 0x00, 0, 4, 0, 0, ADMINS, 0, USERS, 0, 0, 0, //
        0, 0, 0, 0, //
        // Block SID Authentication
        0x04, 0x02, 0x10, 12, sid, hardware, 0, 0, 0, 0, 0, 0, 0, 0, 0, 0, //
        // Data Removal: by keys, in two seconds
        0x04, 0x04, 0x10, 32, 0, 0, 4, 0, 0, 0, 0, 0, 0, 1, 0, 0, //
        0, 0, 0, 0, 0, 0, 0, 0, 0, 0, 0, 0, 0, 0, 0, 0, //
        0, 0, 0, 0,
    ]
}
