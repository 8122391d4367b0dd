//! The names that the standards give to objects, methods and columns, and what has a name.

mod columns;
mod families;
mod laws;
mod names;
mod singles;

pub use columns::{column_by_name, column_name};
pub use laws::{laws_of_column_names, laws_of_object_names};
pub use names::{object_by_name, object_name};
