//! Kinds of lines that were printed, each with how often it was, and the first list behind which it was.

ghost use Rattle.std.specs.Prelude.{◌≡◌, ◌++◌, [], not, OnOk};
ghost use Rattle.std.specs.Str.{bytes_eq};
ghost use Rattle.std.specs.List.{prefix_len};
ghost use Rattle.tool.specs.Scripts.{script_lines};
ghost use Rattle.runs.specs.Merges.{with_counted};
ghost use Rattle.runs.specs.Findings.{kind_text, is_failure_word, stands_in, is_wanted, with_kind, with_printed, noting_try};

use crate::explored::lines::Lines;
use crate::explored::tries::Try;
use basics::Bytes;
use script_lines::Words;
use std::alloc::{AllocError, Global};
use std::marker::Model;

/// A kind of line that is printed.
#[derive(Drop)]
pub struct Kind {
    /// The line, without the numbers of its step and its client where it is an audit line.
    pub text: Bytes,
    /// How often it was printed.
    pub times: u64,
    /// The first list of letters behind which it was, as lines of a script.
    pub list: Bytes,
}

/// Kinds, each once, in the order in which they were seen.
#[derive(Drop)]
pub struct Kinds {
    items: Vec<Kind>,
}

impl Model for Kinds {
    ghost use Rattle.std.specs.Prelude.{List};
    ghost use Rattle.runs.specs.declared.explored.kinds.Kind.{Kind};

    ghost Value = { List Kind };

    ghost view = { λ a. a.items.items };
}

/// Appends a line's kind.
pub(crate) fn append_kind_text(text: &mut Vec<u8>, line: &[u8]) -> Result<(), AllocError>
    ensures { OnOk result (text.new.items ≡ text.old.items ++ kind_text line.now) }
{
    let mut words = Words::new(line);
    if words.next_word() != b"audit".as_slice() {
        return text.extend_from_slice(line);
    }
    words.next_word();
    words.next_word();
    text.extend_from_slice(b"audit")?;
    text.extend_from_slice(words.rest)
}

/// Whether it begins a line that tells of a denial, a failure, a refusal, or a command that a reset stopped.
fn is_failure_word(word: &[u8]) -> bool
    ensures { result ≡ is_failure_word word.now }
{
    word == b"audit".as_slice()
        || word == b"fail".as_slice()
        || word == b"refused".as_slice()
        || word == b"reset".as_slice()
}

/// Whether a text stands in another.
fn stands_in(needle: &[u8], text: &[u8]) -> bool
    ensures { result ≡ stands_in needle.now text.now }
{
    for i in 0..text.len() {
        if text[i..].starts_with(needle) {
            return true;
        }
    }
    needle.is_empty()
}

/// Whether a kind is looked for.
fn is_wanted(find: &[u8], text: &[u8]) -> bool
    ensures { result ≡ is_wanted find.now text.now }
{
    if find.is_empty() {
        return is_failure_word(Words::new(text).next_word());
    }
    stands_in(find, text)
}

/// The place of the kind that has a text; their number, where none has it.
fn place_of(kinds: &[Kind], text: &[u8]) -> usize
    ensures { result ≡ prefix_len (λ kind. not (bytes_eq kind.text text.now)) kinds.now }
{
    for i in 0..kinds.len() {
        if kinds[i].text.as_slice() == text {
            return i;
        }
    }
    kinds.len()
}

impl Kinds {
    /// None was seen yet.
    pub fn new(alloc: Global) -> Kinds
        ensures { result ≡ [] }
    {
        Kinds {
            items: Vec::new(alloc),
        }
    }

    /// All, one after the other.
    pub fn as_slice(&self) -> &[Kind]
        ensures { result.now ≡ self.now }
    {
        self.items.as_slice()
    }

    /// One that was seen behind a list.
    fn add(&mut self, alloc: Global, text: Bytes, list: &[u8]) -> Result<(), AllocError>
        ensures { OnOk result (self.new ≡ with_kind self.old text list.now) }
    {
        let place = place_of(&self.items, text.as_slice());
        if place < self.items.len() {
            self.items[place].times = self.items[place].times.wrapping_add(1);
            return Ok(());
        }
        let list = Bytes::from_vec(Vec::from_slice(alloc, list)?);
        self.items.push(Kind {
            text,
            times: 1,
            list,
        })?;
        Ok(())
    }

    /// One that a part has found.
    pub fn add_counted(&mut self, kind: Kind) -> Result<(), AllocError>
        ensures { OnOk result (self.new ≡ with_counted self.old kind) }
    {
        let place = place_of(&self.items, kind.text.as_slice());
        if place < self.items.len() {
            self.items[place].times = self.items[place].times.wrapping_add(kind.times);
            return Ok(());
        }
        self.items.push(kind)?;
        Ok(())
    }

    /// The kind of a line that a list printed, where it is looked for.
    fn add_printed(
        &mut self,
        alloc: Global,
        find: &[u8],
        list: &[u8],
        line: &[u8],
    ) -> Result<(), AllocError>
        ensures { OnOk result (self.new ≡ with_printed find.now list.now self.old line.now) }
    {
        let mut text = Vec::new(alloc);
        append_kind_text(&mut text, line)?;
        if !is_wanted(find, &text) {
            return Ok(());
        }
        self.add(alloc, Bytes::from_vec(text), list)
    }

    /// The kinds of what a list printed, as far as they are looked for.
    pub fn add_try(&mut self, alloc: Global, find: &[u8], item: &Try) -> Result<(), AllocError>
        ensures { OnOk result (self.new ≡ noting_try find.now self.old item.now) }
    {
        let lines = Lines::of_script(alloc, item.answer.as_slice())?;
        for line in lines.as_slice() {
            self.add_printed(alloc, find, item.list.as_slice(), line.as_slice())?;
        }
        Ok(())
    }
}
