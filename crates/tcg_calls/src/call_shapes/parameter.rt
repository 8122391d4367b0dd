//! The numbers that name the optional parameters of methods (Core 2.01, sections 5.2.2, 5.2.3.1, 5.3.3 and 5.3.4): no
//! other file of the code has them.

/// Get, in a cellblock: the first row of a byte table.
pub const START_ROW: u64 = 1;

/// Get, in a cellblock: the last row of a byte table.
pub const END_ROW: u64 = 2;

/// Get, in a cellblock: the first column.
pub const START_COLUMN: u64 = 3;

/// Get, in a cellblock: the last column.
pub const END_COLUMN: u64 = 4;

/// Set: the row from which bytes are set.
pub const WHERE: u64 = 0;

/// Set: what is set.
pub const VALUES: u64 = 1;

/// Next: the row behind which it goes on (Core 2.01, section 5.3.3.8).
pub const NEXT_WHERE: u64 = 0;

/// Next: how many rows it gives at most.
pub const NEXT_COUNT: u64 = 1;

/// Authenticate: what proves the authority.
pub const PROOF: u64 = 0;

/// StartSession: what proves the authority that signs.
pub const HOST_CHALLENGE: u64 = 0;

/// StartSession: the authority that signs.
pub const HOST_SIGNING_AUTHORITY: u64 = 3;

/// RevertSP: whether the data of the global range are kept.
pub const KEEP_GLOBAL_RANGE_KEY: u64 = 0x06_0000;

/// Properties: those of the host.
pub const HOST_PROPERTIES: u64 = 0;
