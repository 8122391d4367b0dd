//! The program's library: scripts of lines, run on a drive or on a port, and token streams, told as text.
#![tactic(auto)]

mod ending;
mod head;
mod level0;
mod named_phase;
mod opening;
mod options;
mod phase;
mod reading;
mod remarks;
mod script;
mod tokens;
mod writing;

pub use drive_scripts::{DrivePhase, Fault, Turn};
pub use ending::{End, RunError, tell, tell_abort};
pub use head::{Head, ScriptKind};
pub use level0::run_level0;
pub use named_phase::NamedPhase;
pub use opening::{OpeningPhase, OpeningTurn};
pub use options::{DriveTexts, Options, OptionsFault};
pub use phase::Phase;
pub use port_scripts::{PortDesk, request_of};
pub use reading::{answer, line_at_hand, lines_of, read_line, without_end};
pub use remarks::{is_skipped, laws_of_remarks, may_hold_remarks};
pub use script::{
    laws_of_limits, run_explained_script, run_script, run_script_with_faults, run_text,
};
pub use tcg_calls::named_tokens::Naming;
pub use tokens::{run_tokens, run_tokens_with_faults};
pub use writing::write_text;
