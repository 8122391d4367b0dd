//! The tables of a self-locking drive's two security providers: their rows as typed values, their factory
//! contents, and the names of the rows of a table.
#![tactic(auto)]

mod checks;
mod halves;
mod resets;
pub mod restoring;
pub mod row_names;
pub mod sp_rows;
mod undo;
pub mod whole;

pub use halves::is_pin;
pub use restoring::{RestoreError, restored};
pub use row_names::rows_of;
pub use sp_cells::{
    ADMINS, ByteTable, Bytes, Cell, Column, Columns, DriveConfig, Element, Expr, RANGES,
    ResetTypes, Rows, SetError, Sp, TableSizes, USERS, Uid, copy_cells, number_at,
};
pub use sp_rows::ListedCell;
pub use whole::Tables;
