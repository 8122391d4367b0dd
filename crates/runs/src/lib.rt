//! Runs of whole scripts: one recorded as a picture or a dump, and all short lists of lines, one after the other.
#![tactic(auto)]

pub mod explored;
pub mod recorded;
