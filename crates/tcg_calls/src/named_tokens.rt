//! Items of token streams as text, with the names of objects, methods and columns in place of their numbers.

mod naming;
mod place;
mod text;

pub use naming::{Naming, token_text};
pub use text::named_item_text;
