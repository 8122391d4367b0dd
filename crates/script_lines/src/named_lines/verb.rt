//! The first words of lines that write a call by name.

ghost use Rattle.std.specs.Prelude.{◌≡◌};
ghost use Rattle.script_lines.specs.CallVerbs.{call_verb_of};

use crate::words::is_word;
use std::fmt;

/// Which call a line writes by name, by its first word.
#[derive(Clone, Copy, Debug, PartialEq, Eq)]
pub enum CallVerb {
    Start,
    Get,
    Set,
    Authenticate,
    Activate,
    Revert,
    Begin,
    Commit,
    Abort,
    End,
}

/// The verb that a word is.
pub(crate) fn call_verb_of(word: &[u8]) -> Option<CallVerb>
    ensures { result ≡ call_verb_of word.now }
{
    if is_word(word, b"start") {
        Some(CallVerb::Start)
    } else if is_word(word, b"get") {
        Some(CallVerb::Get)
    } else if is_word(word, b"set") {
        Some(CallVerb::Set)
    } else if is_word(word, b"authenticate") {
        Some(CallVerb::Authenticate)
    } else if is_word(word, b"activate") {
        Some(CallVerb::Activate)
    } else if is_word(word, b"revert") {
        Some(CallVerb::Revert)
    } else if is_word(word, b"begin") {
        Some(CallVerb::Begin)
    } else if is_word(word, b"commit") {
        Some(CallVerb::Commit)
    } else if is_word(word, b"abort") {
        Some(CallVerb::Abort)
    } else if is_word(word, b"end") {
        Some(CallVerb::End)
    } else {
        None
    }
}

impl CallVerb {
    ghost use Rattle.std.specs.Prelude.{◌≡◌};
    ghost use Rattle.script_lines.specs.CallVerbs.{begins_session};

    /// Whether the call begins a session, and is one of the session manager.
    pub(crate) fn begins_session(self) -> bool
        ensures { result ≡ begins_session self }
    {
        matches!(self, CallVerb::Start)
    }
}

/// The words of its lines, as a user writes them.
impl fmt::Display for CallVerb {
    fn fmt<W: fmt::Write>(&self, f: &mut fmt::Formatter<W>) -> fmt::Result {
        f.write_str(match *self {
            CallVerb::Start => "start C ID SP [AUTHORITY [PIN]]",
            CallVerb::Get => "get C OBJECT [FIRST [LAST]]",
            CallVerb::Set => "set C OBJECT COLUMN=VALUE ..",
            CallVerb::Authenticate => "authenticate C AUTHORITY [PIN]",
            CallVerb::Activate => "activate C",
            CallVerb::Revert => "revert C SP",
            CallVerb::Begin => "begin C",
            CallVerb::Commit => "commit C",
            CallVerb::Abort => "abort C",
            CallVerb::End => "end C",
        })
    }
}
