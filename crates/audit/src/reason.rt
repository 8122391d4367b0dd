//! Why something was denied.

use arrayvec::ArrayVec;
use sp_cells::{Column, Sp, Uid};

/// How an attempt to authenticate failed (Core 2.01, section 5.3.4.1).
#[derive(Clone, Copy, Debug, PartialEq, Eq)]
pub enum AttemptFailure {
    /// The PIN was not the authority's.
    WrongPin,
    /// The authority's tries were used up.
    LockedOut,
    /// The authority is not enabled.
    Disabled,
    /// SID is blocked (Block SID Authentication feature set 1.00).
    Blocked,
    /// The authority is unknown to the security provider, or a class of others.
    Unknown,
}

/// What denied an act. Addresses and counts are of sectors; range 0 is the global range.
#[derive(Debug, Drop, PartialEq, Eq)]
pub enum Why {
    /// A read over a range whose read lock is enabled and set.
    ReadLocked {
        lba: u64,
        count: u32,
        range: u8,
    },
    /// A write over a range whose write lock is enabled and set.
    WriteLocked {
        lba: u64,
        count: u32,
        range: u8,
    },
    /// A read of sectors of which the shadow MBR covers some, and others not.
    ReadShadow {
        lba: u64,
        count: u32,
    },
    /// A write to sectors of which the shadow MBR covers one or more.
    WriteShadow {
        lba: u64,
        count: u32,
    },
    /// A method for which no ACE holds. The column is the first that is denied, or none where the call
    /// names none. `need` has the ACEs of which one would have to hold, in the order of the ACL: those that name
    /// the column, or all of them where no column is named. It is empty where no ACE names the column.
    NoEntryHolds {
        sp: Sp,
        object: Uid,
        method: Uid,
        column: Option<Column>,
        need: ArrayVec<Uid, 4>,
    },
    /// A method that the access list does not offer on this object.
    NoAccessRow {
        sp: Sp,
        object: Uid,
        method: Uid,
    },
    /// A failed attempt to authenticate.
    AttemptFailed {
        sp: Sp,
        authority: Uid,
        failure: AttemptFailure,
    },
}

/// A line of the audit log: the number of the step that was denied, the client, and the reason.
#[derive(Debug, Drop, PartialEq, Eq)]
pub struct AuditLine {
    pub step: u64,
    pub client: u32,
    pub why: Why,
}
