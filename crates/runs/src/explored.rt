//! All short lists of the lines of a script, run one after the other: what they can lead to, and by which shortest list.

mod alphabet;
mod answers;
mod cells;
mod findings;
mod front;
mod kinds;
mod lines;
mod merge;
mod merge_script;
mod part;
mod part_laws;
mod part_rows;
mod part_script;
mod parting;
mod plan;
mod rows;
mod script;
mod search;
mod share;
mod telling;
mod tries;
mod words;

pub use answers::printed_text;
pub use front::laws_of_fronts;
pub use lines::{Lines, first_line};
pub use merge_script::{PartFault, merge_parts};
pub use part_laws::law_of_parts;
pub use part_script::explore_part;
pub use plan::{Plan, PlanFault, laws_of_plans};
pub use script::{explore_script, whole_text};
pub use share::{Share, laws_of_shares};
