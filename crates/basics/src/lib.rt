//! What the layers share: bytes as a value, numbers and bytes as text, how far the addresses of sectors go, and the
//! profiles of a drive.
#![tactic(auto)]

pub mod addresses;
pub mod bytes;
pub mod profile;
pub mod sums;
pub mod text;

pub use addresses::{ADDRESS_LIMIT, laws_of_addresses};
pub use bytes::Bytes;
pub use profile::{Profile, laws_of_profiles};
pub use sums::byte_sum;
pub use text::{append_decimal, append_hex, spell_hex};
