//! The tables of a new drive, by the standard's numbers. What a Set of a cell takes stands in `cases/cells.cases`.

use sp_tables::{Cell, Column, DriveConfig, Element, RANGES, Rows, Sp, Tables, Uid, number_at};
use std::alloc::Global;

const MSID: &[u8] = b"OPALMSID";

fn is_number(tables: &Tables, sp: Sp, object: Uid, column: Column, number: u64) -> bool {
    matches!(tables.get_cell(sp, object, column), Some(Cell::Number(n)) if *n == number)
}

fn is_bytes(tables: &Tables, sp: Sp, object: Uid, column: Column, bytes: &[u8]) -> bool {
    match tables.get_cell(sp, object, column) {
        Some(Cell::Bytes(b)) => b.as_slice() == bytes,
        _ => false,
    }
}

fn is_uid(tables: &Tables, sp: Sp, object: Uid, column: Column, uid: Uid) -> bool {
    matches!(tables.get_cell(sp, object, column), Some(Cell::Uid(u)) if *u == uid)
}

fn is_power_cycle_alone(tables: &Tables, object: Uid, column: Column) -> bool {
    match tables.get_cell(Sp::Locking, object, column) {
        Some(Cell::Numbers(resets)) => resets.power_cycle && !resets.hardware,
        _ => false,
    }
}

fn is_expr(tables: &Tables, sp: Sp, ace: u64, elements: &[Element]) -> bool {
    match tables.get_cell(
        sp,
        Uid(0x0000_0008_0000_0000 + ace % 0x10_0000),
        Column::BOOLEAN_EXPR,
    ) {
        Some(Cell::Expr(expr)) => expr.as_slice() == elements,
        _ => false,
    }
}

fn has_columns(tables: &Tables, sp: Sp, ace: u64, columns: &[Column]) -> bool {
    match tables.get_cell(
        sp,
        Uid(0x0000_0008_0000_0000 + ace % 0x10_0000),
        Column::COLUMNS,
    ) {
        Some(Cell::Columns(c)) => c.as_slice() == columns,
        _ => false,
    }
}

/// Objects of a new drive by the standard's numbers, and their names.
const NAMES: [(Sp, u64, &str); 13] = [
    (Sp::Admin, 0x0000_0205_0000_0002, "Locking"),
    (Sp::Admin, 0x0000_0009_0000_0006, "SID"),
    (Sp::Admin, 0x0000_000b_0000_8402, "C_PIN_MSID"),
    (Sp::Admin, 0x0000_0008_0000_8c02, "C_PIN_SID_Get_NOPIN"),
    (Sp::Locking, 0x0000_0009_0001_0004, "Admin4"),
    (Sp::Locking, 0x0000_0009_0003_0000, "Users"),
    (Sp::Locking, 0x0000_000b_0003_0003, "C_PIN_User3"),
    (Sp::Locking, 0x0000_0802_0000_0001, "Locking_GlobalRange"),
    (Sp::Locking, 0x0000_0802_0003_0010, "Locking_Range16"),
    (Sp::Locking, 0x0000_0008_0003_a805, "C_PIN_User5_Set_PIN"),
    (Sp::Locking, 0x0000_0008_0003_e000, "Range_0_Set_RdLocked"),
    (Sp::Locking, 0x0000_0008_0003_e810, "Range_16_Set_WrLocked"),
    (
        Sp::Locking,
        0x0000_0008_0003_f801,
        "MBRControl_Set_DoneToDOR",
    ),
];

/// Whether the objects have their names.
fn are_named(tables: &Tables) -> bool {
    let mut are = true;
    for (sp, object, name) in NAMES {
        let object = Uid(object);
        are &= is_bytes(tables, sp, object, Column::NAME, name.as_bytes());
        are &= is_uid(tables, sp, object, Column::UID, object);
    }
    are
}

/// Whether cells of a new drive have their numbers.
fn are_numbers(tables: &Tables) -> bool {
    let mut are = true;
    for (sp, object, column, number) in [
        (Sp::Admin, Uid::ADMIN_SP, Column::LIFE_CYCLE_STATE, 9),
        (Sp::Admin, Uid::LOCKING_SP, Column::LIFE_CYCLE_STATE, 8),
        (Sp::Admin, Uid::C_PIN_SID, Column::TRY_LIMIT, 5),
        (Sp::Admin, Uid::C_PIN_MSID, Column::TRY_LIMIT, 0),
        (Sp::Locking, Uid::admin(1), Column::ENABLED, 1),
        (Sp::Locking, Uid::admin(2), Column::ENABLED, 0),
        (Sp::Locking, Uid::user(16), Column::ENABLED, 0),
        (Sp::Locking, Uid::USERS, Column::IS_CLASS, 1),
        (Sp::Locking, Uid::user(16), Column::OPERATION, 1),
        (Sp::Locking, Uid::range(3), Column::RANGE_LENGTH, 0),
        (Sp::Locking, Uid::MBR_CONTROL, Column::MBR_DONE, 0),
    ] {
        are &= is_number(tables, sp, object, column, number);
    }
    are
}

/// Whether the PINs are those of a new drive, and a user has its class and its PIN.
fn are_users(tables: &Tables) -> bool {
    let user = Uid::user(2);
    let pin = Uid::pin_of_user(2);
    is_bytes(tables, Sp::Admin, Uid::C_PIN_SID, Column::PIN, MSID)
        && is_bytes(tables, Sp::Locking, Uid::pin_of_admin(1), Column::PIN, b"")
        && is_uid(tables, Sp::Locking, user, Column::CLASS, Uid::USERS)
        && is_uid(tables, Sp::Locking, user, Column::CREDENTIAL, pin)
}

/// The expression of the ACE that sets User7's PIN.
const EITHER: [Element; 3] = [
    Element::Authority(Uid(0x0000_0009_0000_0002)),
    Element::Authority(Uid(0x0000_0009_0003_0007)),
    Element::Or,
];

/// Whether resets, an expression and the columns of two ACEs are those of a new drive.
fn are_sets(tables: &Tables) -> bool {
    is_power_cycle_alone(tables, Uid::range(0), Column::LOCK_ON_RESET)
        && is_power_cycle_alone(tables, Uid::MBR_CONTROL, Column::MBR_DONE_ON_RESET)
        && is_expr(tables, Sp::Locking, 0x3_a807, &EITHER)
        && has_columns(tables, Sp::Locking, 0x3_9001, &[Column(5)])
        && has_columns(tables, Sp::Locking, 1, &[])
}

/// Whether no new drive has two cells, and the readers of numbers say those of a new drive.
fn are_bounds(tables: &Tables) -> bool {
    let beyond = tables.get_cell(Sp::Locking, Uid::range(RANGES + 1), Column::UID);
    let unnamed = tables.get_cell(Sp::Admin, Uid::LOCKING_SP, Column::COMMON_NAME);
    let (object, column) = (Uid::LOCKING_SP, Column::LIFE_CYCLE_STATE);
    let state = number_at(tables, Sp::Admin, object, column);
    beyond.is_none() && unnamed.is_none() && tables.mbr_sectors() == 8 && state == 8
}

/// Whether all that holds of tables.
fn are_new(tables: &Tables) -> bool {
    are_named(tables)
        && are_numbers(tables)
        && are_users(tables)
        && are_sets(tables)
        && are_bounds(tables)
}

/// Whether it holds of those of a drive of 1,000 sectors with a shadow of 8, as it leaves the factory.
fn is_new(alloc: Global) -> bool {
    let Some(config) = DriveConfig::new(1000, 8, MSID) else {
        return false;
    };
    match Tables::factory(alloc, &config) {
        Ok(tables) => are_new(&tables),
        Err(_) => false,
    }
}

#[test]
fn cells_of_a_new_drive(rt: HostRuntime) {
    assert!(rt; is_new(rt.alloc()));
}
