//! The rules by which a drive refuses what nothing denies: a command that is aborted, an item that is answered with a
//! status of failure. Each rule has words of its own.

mod rule;
mod words;

pub use rule::Rule;
pub use words::rule_words;
