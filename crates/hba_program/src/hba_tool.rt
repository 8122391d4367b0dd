//! A controller over standard streams: it does what a host asks for, line by line.

mod error;
mod explaining;
mod opening;
mod serving;
mod session;
mod way;

pub use crate::hba_wire::WireError;
pub use error::ServeError;
pub use opening::{RangeFault, drive_with_ranges};
pub use serving::serve;
pub use way::Way;
