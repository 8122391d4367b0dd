//! Why a denial came: since which act what denied it has been in force, and who may lift it, by the rows in force; and
//! why a rule refused what nothing denied.
#![tactic(auto)]

mod arguments;
mod asked;
pub mod details;
pub mod explained;
mod holdings;
pub mod remedies;
pub mod rulings;
pub mod sent;
mod untaken;
