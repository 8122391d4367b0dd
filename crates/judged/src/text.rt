//! A text that grows.

use basics::{Bytes, append_decimal};
use std::alloc::{AllocError, Global};
use std::marker::Model;

/// A text that grows, seen as the list of its bytes.
#[derive(Drop)]
pub struct Text {
    items: Vec<u8>,
}

impl Model for Text {
    ghost use Rattle.std.specs.Prelude.{List, ℕ};

    ghost Value = { List ℕ };

    ghost view = { λ a. a.items.items };
}

impl Text {
    ghost use Rattle.std.specs.Prelude.{◌≡◌, ◌++◌, [], decimal, IfOk, OnOk};
    ghost use Rattle.judged.specs.Shown.{put_over};
    ghost use Rattle.judged.specs.Transcripts.{with_line_end};

    /// An empty text.
    pub fn new(alloc: Global) -> Text
        ensures { result ≡ [] }
    {
        Text {
            items: Vec::new(alloc),
        }
    }

    /// A text of these bytes.
    pub fn of(alloc: Global, bytes: &[u8]) -> Result<Text, AllocError>
        ensures { IfOk result (λ text. text ≡ bytes.now) }
    {
        let items = Vec::from_slice(alloc, bytes)?;
        Ok(Text { items })
    }

    /// No byte any more, with the same room.
    pub fn clear(&mut self)
        ensures { self.new ≡ [] }
    {
        self.items.clear();
    }

    /// The bytes.
    pub fn as_slice(&self) -> &[u8]
        ensures { result.now ≡ self.now }
    {
        self.items.as_slice()
    }

    /// Puts bytes behind the others.
    pub fn append(&mut self, bytes: &[u8]) -> Result<(), AllocError>
        ensures { OnOk result (self.new ≡ self.old ++ bytes.now) }
    {
        self.items.extend_from_slice(bytes)
    }

    /// Puts bytes over those that stand from a place on.
    pub fn put(&mut self, place: usize, bytes: &[u8]) -> Result<(), AllocError>
        ensures { OnOk result (self.new ≡ put_over place bytes.now self.old) }
    {
        let size = self.items.len();
        if place <= size && bytes.len() <= size - place {
            self.items[place..place + bytes.len()].copy_from_slice(bytes);
            return Ok(());
        }
        self.items.truncate(place);
        self.items.extend_from_slice(bytes)
    }

    /// Puts the digits of a number behind the others.
    pub fn append_number(&mut self, alloc: Global, number: u64) -> Result<(), AllocError>
        ensures { OnOk result (self.new ≡ self.old ++ decimal number) }
    {
        append_decimal(alloc, &mut self.items, number)
    }

    /// Puts a line of a script behind the others, with its end.
    pub fn append_line(&mut self, line: &[u8]) -> Result<(), AllocError>
        ensures { OnOk result (self.new ≡ self.old ++ with_line_end line.now) }
    {
        self.items.extend_from_slice(line)?;
        self.items.extend_from_slice(b"\r\n")
    }

    /// The bytes, without taking memory.
    pub fn into_bytes(self) -> Bytes
        ensures { result ≡ self }
    {
        Bytes::from_vec(self.items)
    }
}
