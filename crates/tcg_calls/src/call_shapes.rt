//! What a method call asks, by the shape of its arguments, and the cells of tables as values of token streams.
//!
//! [`ask`] reads the arguments of a call; a call whose arguments have not the shape that its method wants asks
//! nothing. [`value_of`] writes a cell as Get gives it, [`cell_of`] reads a value as Set takes it.

mod ask;
mod cell_values;
mod laws;
pub mod limits;
mod named;
mod numbers;
pub mod parameter;
pub mod status;

pub use ask::{Ask, Octets, read_ask, uid_in, uid_of};
pub use cell_values::{bytes_value, cell_of, list_value, named_value, number_in, value_of};
pub use laws::{laws_of_cells, laws_of_limits};
pub use named::{Assignments, assigned, bytes_or_empty, list_in, read_assignments, read_options};
pub use numbers::laws_of_numbers;
