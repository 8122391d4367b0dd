//! The rows of one security provider of a self-locking drive: a struct for each kind of row, the search and the
//! exchange of a cell among them, and the rows of a new drive.

mod ace_tables;
mod aces;
mod adding;
mod constant_tables;
pub mod constants;
mod copies;
mod entries;
pub mod exchange;
pub mod factory;
mod families;
mod field_rows;
pub mod halves;
pub mod listing;
mod new_rows;
pub mod rows;
pub mod runs;

pub(crate) use constant_tables::TABLES;
pub use constants::ConstantRow;
pub use exchange::{exchange_all, new_cells};
pub use factory::{laws_of_factory, new_halves, new_locking_sp};
pub use halves::{FieldTables, SpTables};
pub use listing::ListedCell;
pub use rows::{
    AceRow, AuthorityRow, CPinRow, DataRemovalRow, LockingInfoRow, LockingRow, MbrControlRow,
    RangeKeyRow, Row, SpRow, TableRow, TperInfoRow,
};
pub use runs::{Run, find_cell, swap_in};
