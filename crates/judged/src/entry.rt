//! A line of the script, and what another drive answered to it.

ghost use Rattle.std.specs.Prelude.{◌≡◌};
ghost use Rattle.judged.specs.Transcripts.{is_answer_line, behind_blank, answer_told};

use crate::text::Text;
use basics::Bytes;
use runs::explored::Lines;
use std::alloc::{AllocError, Global};
use std::marker::Model;

/// Whether a line tells what another drive answered: whether it begins with `=`.
pub(crate) fn is_answer_line(line: &[u8]) -> bool
    ensures { result ≡ is_answer_line line.now }
{
    match line {
        [] => false,
        [byte, ..] => *byte == b'=',
    }
}

/// A text without one blank in front.
fn behind_blank(text: &[u8]) -> &[u8]
    ensures { result.now ≡ behind_blank text.now }
{
    match text {
        [] => text,
        [byte, rest @ ..] => {
            if *byte == b' ' {
                return rest;
            }
            text
        }
    }
}

/// The answer that such a line tells.
pub(crate) fn answer_told(line: &[u8]) -> &[u8]
    ensures { result.now ≡ answer_told line.now }
{
    match line {
        [] => line,
        [_, rest @ ..] => behind_blank(rest),
    }
}

/// A line of the script, and what another drive answered to it.
#[derive(Drop)]
pub struct Entry {
    /// The number of the line in the transcript; 0 of what stands in front of the first.
    pub number: u64,
    pub line: Bytes,
    /// The remarks behind the line.
    pub behind: Lines,
    pub answers: Lines,
}

/// The lines of a script, each with its answers.
#[derive(Drop)]
pub struct Entries {
    items: Vec<Entry>,
}

impl Model for Entries {
    ghost use Rattle.std.specs.Prelude.{List};
    ghost use Rattle.judged.specs.declared.entry.Entry.{Entry};

    ghost Value = { List Entry };

    ghost view = { λ a. a.items.items };
}

impl Entry {
    ghost use Rattle.std.specs.Prelude.{◌≡◌, ◌++◌, IfOk, OnOk};
    ghost use Rattle.judged.specs.Transcripts.{front_entry, fresh_entry, with_answer, with_remark, own_line_text, remarks_text, entry_text};

    /// What stands in front of the first line.
    pub fn front(alloc: Global) -> Entry
        ensures { result ≡ front_entry }
    {
        Entry {
            number: 0,
            line: Bytes::from_vec(Vec::new(alloc)),
            behind: Lines::new(alloc),
            answers: Lines::new(alloc),
        }
    }

    /// A line, with its number.
    pub fn new(alloc: Global, number: u64, text: &[u8]) -> Result<Entry, AllocError>
        ensures { IfOk result (λ entry. entry
            ≡ fresh_entry (record { number = number; text = text.now })) }
    {
        let line = Vec::from_slice(alloc, text)?;
        Ok(Entry {
            number,
            line: Bytes::from_vec(line),
            behind: Lines::new(alloc),
            answers: Lines::new(alloc),
        })
    }

    /// Appends the line as it stands in the text of the script; in front of the first line there is none.
    pub fn append_line_text(&self, text: &mut Text) -> Result<(), AllocError>
        ensures { OnOk result (text.new ≡ text.old ++ own_line_text self.now) }
    {
        if self.number == 0 {
            return Ok(());
        }
        text.append_line(self.line.as_slice())
    }

    /// Appends the remarks behind it.
    pub fn append_remarks(&self, text: &mut Text) -> Result<(), AllocError>
        ensures { OnOk result (text.new ≡ text.old ++ remarks_text self.now) }
    {
        for line in self.behind.as_slice() {
            text.append_line(line.as_slice())?;
        }
        Ok(())
    }

    /// Appends the line, and the remarks behind it.
    pub fn append_text(&self, text: &mut Text) -> Result<(), AllocError>
        ensures { OnOk result (text.new ≡ text.old ++ entry_text self.now) }
    {
        self.append_line_text(text)?;
        self.append_remarks(text)
    }

    /// One more answer, where remarks may stand in the script or not.
    pub fn add_answer(
        &mut self,
        alloc: Global,
        remarks: bool,
        answer: &[u8],
    ) -> Result<(), AllocError>
        ensures { OnOk result (self.new ≡ with_answer remarks self.old answer.now) }
    {
        if remarks {
            self.behind.push(alloc, b"#")?;
        }
        self.answers.push(alloc, answer)
    }

    /// A remark behind the line.
    pub fn add_remark(&mut self, alloc: Global, text: &[u8]) -> Result<(), AllocError>
        ensures { OnOk result (self.new ≡ with_remark self.old text.now) }
    {
        self.behind.push(alloc, text)
    }
}

impl Entries {
    ghost use Rattle.std.specs.Prelude.{◌≡◌, ◌++◌, ◌∷◌, [], OnOk};

    /// No line.
    pub fn new(alloc: Global) -> Entries
        ensures { result ≡ [] }
    {
        Entries {
            items: Vec::new(alloc),
        }
    }

    /// All, one after the other.
    pub fn as_slice(&self) -> &[Entry]
        ensures { result.now ≡ self.now }
    {
        self.items.as_slice()
    }

    /// One more, behind the others.
    pub fn push(&mut self, entry: Entry) -> Result<(), AllocError>
        ensures { OnOk result (self.new ≡ self.old ++ entry ∷ []) }
    {
        self.items.push(entry)?;
        Ok(())
    }
}
