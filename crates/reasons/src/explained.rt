//! Why a drive denies a transfer: since which act each lock has been in force, and its range where it is.

mod chronicle;
mod condition;
mod laws;
mod lives;
mod onset;
mod onsets;
mod reason;

pub use chronicle::Chronicle;
pub use condition::{Condition, Flag, Place, conditions_of, range_named};
pub use laws::{laws_of_onsets, laws_of_reasons};
pub use lives::{SessionChronicle, SpLife};
pub use onset::{Cause, Counted, Onset, Source, cause_in};
pub(crate) use reason::{
    append_client, append_number, append_place, append_set_cell, counted_word, reset_kind,
};
