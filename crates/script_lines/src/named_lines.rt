//! Lines that write a method call by name, the tokens of the call, and the `call` line that such a line stands for.

mod calls;
mod fault;
mod known;
mod line;
mod phrase;
mod verb;
mod words;

pub use fault::CallFault;
pub use known::{KnownSession, KnownSessions, call_verb_in};
pub use line::NamedLine;
pub use verb::CallVerb;
