//! A caller of each crate that others build on. Each is proved, and the `CALLING.md` of its crate quotes it.
#![tactic(auto)]

mod clients;
mod drives;
mod frames;
mod ports;
mod ranges;
mod tokens;

pub use clients::ask;
pub use drives::hand_over;
pub use frames::framed;
pub use ports::serve_alone;
pub use ranges::is_served;
pub use tokens::status_of;
