//! Locking ranges of a self-locking drive (TCG Opal SSC 2.01), and the verdict on a transfer.
#![tactic(auto)]

mod numbered;
mod range;
mod ranges;

pub use range::{Op, RangeRow};
pub use ranges::{Denier, Judgement, Ranges, Verdict, is_shadow_up};
