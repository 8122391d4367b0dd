//! The first word of a line.

ghost use Rattle.std.specs.Prelude.{◌≡◌};
ghost use Rattle.script_lines.specs.Verbs.{verb_of};
ghost use Rattle.script_lines.specs.PortLines.{port_verb_of};

use crate::words::is_word;

/// What a line does, by its first word.
#[derive(Clone, Copy, Debug, PartialEq, Eq)]
pub enum Verb {
    Range,
    Read,
    Write,
    ReadDma,
    WriteDma,
    Call,
    Send,
    Receive,
    SecurityIn,
    SecurityOut,
    Identify,
    Log,
    Reset,
    TperReset,
    Expect,
}

/// The verb that a word is.
pub(crate) fn verb_of(word: &[u8]) -> Option<Verb>
    ensures { result ≡ verb_of word.now }
{
    if is_word(word, b"read") {
        Some(Verb::Read)
    } else if is_word(word, b"write") {
        Some(Verb::Write)
    } else if is_word(word, b"expect") {
        Some(Verb::Expect)
    } else if is_word(word, b"range") {
        Some(Verb::Range)
    } else if is_word(word, b"dread") {
        Some(Verb::ReadDma)
    } else if is_word(word, b"dwrite") {
        Some(Verb::WriteDma)
    } else if is_word(word, b"call") {
        Some(Verb::Call)
    } else if is_word(word, b"send") {
        Some(Verb::Send)
    } else if is_word(word, b"recv") {
        Some(Verb::Receive)
    } else if is_word(word, b"log") {
        Some(Verb::Log)
    } else if is_word(word, b"reset") {
        Some(Verb::Reset)
    } else if is_word(word, b"tper") {
        Some(Verb::TperReset)
    } else if is_word(word, b"secin") {
        Some(Verb::SecurityIn)
    } else if is_word(word, b"secout") {
        Some(Verb::SecurityOut)
    } else if is_word(word, b"identify") {
        Some(Verb::Identify)
    } else {
        None
    }
}

/// What a line of a port script does, by its first word.
#[derive(Clone, Copy, Debug, PartialEq, Eq)]
pub enum PortVerb {
    Range,
    Put,
    Issue,
    Accept,
    Complete,
    Recover,
    Reset,
    Take,
    Expect,
}

/// The verb of a port script that a word is.
pub(crate) fn port_verb_of(word: &[u8]) -> Option<PortVerb>
    ensures { result ≡ port_verb_of word.now }
{
    if is_word(word, b"put") {
        Some(PortVerb::Put)
    } else if is_word(word, b"issue") {
        Some(PortVerb::Issue)
    } else if is_word(word, b"accept") {
        Some(PortVerb::Accept)
    } else if is_word(word, b"complete") {
        Some(PortVerb::Complete)
    } else if is_word(word, b"take") {
        Some(PortVerb::Take)
    } else if is_word(word, b"recover") {
        Some(PortVerb::Recover)
    } else if is_word(word, b"reset") {
        Some(PortVerb::Reset)
    } else if is_word(word, b"expect") {
        Some(PortVerb::Expect)
    } else if is_word(word, b"range") {
        Some(PortVerb::Range)
    } else {
        None
    }
}
