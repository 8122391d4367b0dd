//! Calls of methods as their token streams say them: names, arguments by their shape, cells as values, items as text.
#![tactic(auto)]

pub mod call_shapes;
pub mod named_tokens;
pub mod tcg_names;
