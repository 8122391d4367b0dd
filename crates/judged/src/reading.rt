//! Transcripts as they are read.

ghost use Rattle.std.specs.Prelude.{◌≡◌, IfOk};
ghost use Rattle.tool.specs.Scripts.{script_lines};
ghost use Rattle.judged.specs.Transcripts.{holds_remarks, entries_of};

use crate::entry::{Entries, Entry, answer_told, is_answer_line};
use runs::explored::first_line;
use std::alloc::{AllocError, Global};
use std::mem;
use tool::{is_skipped, may_hold_remarks};

/// How far a transcript is read.
#[derive(Drop)]
pub struct Reading {
    /// The lines whose answers are all read.
    pub done: Entries,
    /// The line to which an answer would belong.
    pub current: Entry,
}

impl Reading {
    ghost use Rattle.std.specs.Prelude.{◌≡◌, ◌++◌, ◌∷◌, [], IfOk, OnOk};
    ghost use Rattle.judged.specs.Transcripts.{nothing_read, line_added, is_answer, all_entries, fresh_entry};

    /// Nothing is read.
    fn new(alloc: Global) -> Reading
        ensures { result ≡ nothing_read }
    {
        Reading {
            done: Entries::new(alloc),
            current: Entry::front(alloc),
        }
    }

    /// Whether a line tells an answer to the one above it.
    fn is_answer(&self, text: &[u8]) -> bool
        ensures { result ≡ is_answer self.now text.now }
    {
        is_answer_line(text) && self.current.number != 0
    }

    /// Goes on to a line of the script.
    fn begin(&mut self, alloc: Global, number: u64, text: &[u8]) -> Result<(), AllocError>
        ensures { OnOk result (self.new ≡ record {
          done = self.old.done ++ self.old.current ∷ [];
          current = fresh_entry (record { number = number; text = text.now });
        }) }
    {
        let next = Entry::new(alloc, number, text)?;
        let entry = mem::replace(&mut self.current, next);
        self.done.push(entry)
    }

    /// Reads one line more.
    fn add(
        &mut self,
        alloc: Global,
        remarks: bool,
        number: u64,
        text: &[u8],
    ) -> Result<(), AllocError>
        ensures { OnOk result (self.new
            ≡ line_added remarks self.old (record { number = number; text = text.now })) }
    {
        if self.is_answer(text) {
            return self.current.add_answer(alloc, remarks, answer_told(text));
        }
        if is_skipped(remarks, text) {
            return self.current.add_remark(alloc, text);
        }
        self.begin(alloc, number, text)
    }

    /// All lines that were read.
    fn into_entries(self) -> Result<Entries, AllocError>
        ensures { IfOk result (λ entries. entries ≡ all_entries self) }
    {
        let mut entries = self.done;
        entries.push(self.current)?;
        Ok(entries)
    }
}

/// Whether remarks may stand among the lines of a text.
fn holds_remarks(text: &[u8]) -> bool
    ensures { result ≡ holds_remarks (script_lines text.now) }
{
    if text.is_empty() {
        return false;
    }
    may_hold_remarks(first_line(text).0)
}

/// The lines of a transcript's script, each with its answers.
pub(crate) fn entries_of(alloc: Global, text: &[u8]) -> Result<Entries, AllocError>
    ensures { IfOk result (λ entries. entries ≡ entries_of (script_lines text.now)) }
{
    let remarks = holds_remarks(text);
    let mut reading = Reading::new(alloc);
    let mut rest = text;
    let mut number = 0;
    while !rest.is_empty() {
        let (line, behind) = first_line(rest);
        number += 1;
        reading.add(alloc, remarks, number, line)?;
        rest = behind;
    }
    reading.into_entries()
}
