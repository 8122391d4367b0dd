//! The lines of the audit log, at a late step and with the largest numbers. Each text stands in the scripts and cases.

use audit::{AuditLine, Why, line_bytes};
use std::alloc::{AllocError, Global};

/// Whether a reason has this text.
fn is_text(
    alloc: Global,
    step: u64,
    client: u32,
    why: Why,
    text: &[u8],
) -> Result<bool, AllocError> {
    let line = line_bytes(alloc, &AuditLine { step, client, why })?;
    Ok(line.as_slice() == text)
}

fn is_late(alloc: Global) -> Result<bool, AllocError> {
    let why = Why::ReadLocked {
        lba: 99,
        count: 3,
        range: 8,
    };
    let text = b"100001 3 deny read 99+3 range 8 ReadLocked";
    is_text(alloc, 100_001, 3, why, text)
}

fn is_largest(alloc: Global) -> Result<bool, AllocError> {
    let why = Why::WriteLocked {
        lba: 0xffff_ffff_ffff,
        count: 65_536,
        range: 0,
    };
    let text =
        b"18446744073709551615 4294967295 deny write 281474976710655+65536 range 0 WriteLocked";
    is_text(alloc, u64::MAX, u32::MAX, why, text)
}

#[test]
fn lines_of_transfers(rt: HostRuntime) {
    assert!(rt; is_late(rt.alloc()) == Ok(true) && is_largest(rt.alloc()) == Ok(true));
}
