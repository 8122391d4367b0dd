//! The cells of a self-locking drive's tables: the names of objects and columns, the values that columns take, what a
//! drive is made with, and how rows are read.
#![tactic(auto)]

pub mod authorities;
pub mod byte_tables;
pub mod cells;
pub mod config;
pub mod error;
mod laws;
pub mod limits;
pub mod look;
pub mod names;
mod trees;
pub mod values;

pub use authorities::is_locking_authority;
pub use basics::Bytes;
pub use byte_tables::{ByteTable, TableSizes};
pub use cells::{Cell, Columns, Element, Expr, ResetTypes, copy_cells};
pub use config::DriveConfig;
pub use error::SetError;
pub use laws::{laws_of_limits, laws_of_names};
pub use look::{Rows, number_at, number_of_range};
pub use names::{ADMINS, Column, RANGES, Sp, USERS, Uid};
pub use values::are_values;
