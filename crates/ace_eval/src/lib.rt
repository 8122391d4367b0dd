//! Who may do what: expressions over authorities, and the access control element (ACE) that allows a method.
#![tactic(auto)]

pub mod access_list;
pub mod aces;
pub mod authorities;
pub mod expressions;

pub use aces::{Missing, entry};
pub use authorities::{Authorities, MOST_AUTHORITIES, laws_of_limits};
pub use expressions::holds;
