//! Transcripts of another drive, judged by the model: which of its answers are the model's, which differ by what the
//! standards leave to a drive, and which are wrong.
#![tactic(auto)]

mod answers;
mod bench;
mod blanks;
mod entry;
mod freedom;
mod judging;
mod known;
mod laws;
mod pairs;
mod properties;
mod reading;
mod received;
mod ruling;
mod script;
mod shown;
mod telling;
mod text;

pub use freedom::{Freedom, FreedomFault, Freedoms};
pub use laws::{laws_of_names, laws_of_transcripts, laws_of_verdicts};
pub use script::{Terms, judge_transcript};
