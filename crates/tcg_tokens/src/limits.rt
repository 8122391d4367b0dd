//! What this project takes of what the encoding could say.

ghost use Rattle.std.specs.Prelude.{◌≡◌};
ghost use Rattle.tcg_tokens.specs.declared.limits.TheConstants as limits;

/// How deep lists and named values may be nested. The outermost list has depth 1, and each list or
/// named value inside another one more.
pub const NESTING_LIMIT: u8 = 8;

/// The bits of a number: an atom may have any length whose value fits them.
pub const NUMBER_BITS: u32 = 64;

/// The bits of the length of the longest atom.
pub const LENGTH_BITS: u32 = 24;

/// The limits are these numbers.
pub fn laws_of_limits()
    ensures nesting { limits.NESTING_LIMIT ≡ 8 }
    ensures number { limits.NUMBER_BITS ≡ 64 }
    ensures length { limits.LENGTH_BITS ≡ 24 }
{}
