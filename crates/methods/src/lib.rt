//! What the methods of a session do: who may call them, what Get lists, which values Set takes.
#![tactic(auto)]

mod calls;
mod cases;
mod changes;
mod erasures;
mod grants;
mod handlers;
mod kinds;
mod laws;
mod lists;
mod outcome;
mod plain;
mod random;
mod set_columns;
mod settings;
mod tables;

pub use calls::invoke;
pub use changes::apply_set;
pub use grants::denied;
pub use kinds::{Kind, kind_of};
pub use laws::{laws_of_cases, laws_of_grants, laws_of_lists, laws_of_orders, laws_of_sets};
pub use lists::list_columns;
pub use outcome::{MethodFault, Outcome};
pub use plain::{PlainGet, get_plainly, read_plain_get};
pub use random::MOST_RANDOM_BYTES;
pub use set_columns::set_types;
pub use settings::check_set;
