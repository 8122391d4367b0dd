//! New ports.

ghost use Rattle.std.specs.Prelude.{◌≡◌, IfOk};
ghost use Rattle.locked_port.specs.Counts.{Stands};

use drive::{Drive, DriveConfig, RangeRow};
use port::{Entries, Port, PortError};
use std::alloc::Global;

/// How many sectors the drive has, and its shadow; its MSID.
const SECTORS: u64 = 1_000;

const SHADOW: u64 = 8;

const MSID: &[u8] = b"OPALMSID";

/// A port over a drive with these ranges, on which nothing was done.
pub fn port_with(alloc: Global, rows: &[RangeRow]) -> Result<Port, PortError>
    ensures { IfOk result (λ port. Stands port 0) }
{
    let Some(config) = DriveConfig::new(SECTORS, SHADOW, MSID) else {
        return Err(PortError::OutOfMemory);
    };
    let Ok(drive) = Drive::with_ranges(alloc, config, rows) else {
        return Err(PortError::OutOfMemory);
    };
    let port = Port::new(alloc, drive)?;
    Ok(port)
}

/// A drive as it leaves the factory.
fn new_drive(alloc: Global) -> Result<Drive, PortError> {
    let Some(config) = DriveConfig::new(SECTORS, SHADOW, MSID) else {
        return Err(PortError::OutOfMemory);
    };
    Drive::new(alloc, config).map_err(PortError::from)
}

/// A port over it.
fn new_port(alloc: Global) -> Result<Port, PortError> {
    match new_drive(alloc) {
        Ok(drive) => Port::new(alloc, drive),
        Err(error) => Err(error),
    }
}

/// A port over the drive of a script with these range lines: without one it is as it leaves the factory.
pub fn port_of(alloc: Global, rows: &[RangeRow]) -> Result<Port, PortError> {
    if rows.is_empty() {
        return new_port(alloc);
    }
    port_with(alloc, rows)
}

/// Whether two histories are the same.
fn have_same_entries(one: &Entries, two: &Entries) -> bool {
    let mut are_same = one.len() == two.len();
    for at in 0..one.len() {
        are_same &= match (one.get(at), two.get(at)) {
            (Some(one), Some(two)) => one == two,
            _ => false,
        };
    }
    are_same
}

/// Whether two ports have the same history, answers and audit log.
pub fn are_same(one: &Port, two: &Port) -> bool {
    have_same_entries(one.history(), two.history()) && one.audit() == two.audit()
}
