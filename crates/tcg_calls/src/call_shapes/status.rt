//! The statuses of answers (Core 2.01, section 5.1.5): no other file of the code has their numbers.

pub const SUCCESS: u64 = 0x00;

pub const NOT_AUTHORIZED: u64 = 0x01;

pub const SP_BUSY: u64 = 0x03;

pub const NO_SESSIONS_AVAILABLE: u64 = 0x07;

pub const INVALID_PARAMETER: u64 = 0x0c;

pub const TRANSACTION_FAILURE: u64 = 0x10;

pub const RESPONSE_OVERFLOW: u64 = 0x11;

pub const AUTHORITY_LOCKED_OUT: u64 = 0x12;

pub const FAIL: u64 = 0x3f;
