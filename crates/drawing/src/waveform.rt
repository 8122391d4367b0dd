//! Pieces of a value change dump, which tells how signals change over time (IEEE 1364-2005, 18.2).

mod text;

pub use text::{
    append_changed, append_declaration, append_definitions_end, append_preamble, append_time,
    append_value, append_values_begin, append_values_end,
};
