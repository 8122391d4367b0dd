//! What a controller answers.

ghost use Rattle.std.specs.Prelude.{◌≡◌, ◌++◌, false, OnOk};
ghost use Rattle.std.specs.Fmt.{digits};
ghost use Rattle.hba_program.specs.Replies.{part_name, fault_text, error_line};

use crate::hba_lines::digits::{append_number, append_word};
use std::alloc::{AllocError, Global};

/// What of the host's memory a work could not have.
#[derive(Clone, Copy, Debug, PartialEq, Eq)]
pub enum MemoryPart {
    /// The command list.
    List,
    /// The command table.
    Table,
    /// A block of data.
    Data,
    /// The place of a received FIS.
    Fis,
}

impl MemoryPart {
    /// Its name in a line.
    fn name(self) -> &'static [u8]
        ensures { result.now ≡ part_name self }
    {
        match self {
            MemoryPart::List => b"list",
            MemoryPart::Table => b"table",
            MemoryPart::Data => b"data",
            MemoryPart::Fis => b"fis",
        }
    }
}

/// A line that answers, or ends a work.
#[derive(Clone, Copy, Debug, PartialEq, Eq)]
pub enum Reply {
    /// A register.
    Word(u32),
    /// What was asked is done.
    Done,
    /// The interrupt line.
    Line(bool),
    /// The signature was told.
    Signature,
    /// The command of a tag went to the drive.
    Fetch(u8),
    /// The FIS in the slot of a tag carried no command.
    Control(u8),
    /// What the drive held under a tag is completed.
    Complete(u8),
    /// The host's memory failed in the work of a tag.
    Fault(u8, MemoryPart),
    /// No work was ready.
    Idle,
    /// No work is ready any more, after so many.
    Ran(u32),
    /// So many audit lines follow.
    Denials(u64),
    /// The drive has no such sector.
    NoSector,
}

/// Appends a name, and a tag behind it.
fn append_tagged(alloc: Global, text: &mut Vec<u8>, name: &[u8], tag: u8) -> Result<(), AllocError>
    ensures { OnOk result (text.new.items ≡ text.old.items ++ (name.now ++ digits 16 false tag)) }
{
    text.extend_from_slice(name)?;
    append_number(alloc, text, u64::from(tag))?;
    Ok(())
}

/// Appends the tag of a work, and what of the memory failed.
fn append_fault(
    alloc: Global,
    text: &mut Vec<u8>,
    tag: u8,
    part: MemoryPart,
) -> Result<(), AllocError>
    ensures { OnOk result (text.new.items ≡ text.old.items ++ fault_text tag part) }
{
    append_tagged(alloc, text, b"fault ", tag)?;
    text.push(b' ')?;
    text.extend_from_slice(part.name())?;
    Ok(())
}

/// Appends a count in hex behind a name.
fn append_count(
    alloc: Global,
    text: &mut Vec<u8>,
    name: &[u8],
    count: u64,
) -> Result<(), AllocError>
    ensures { OnOk result (text.new.items ≡ text.old.items ++ (name.now ++ digits 16 false count)) }
{
    text.extend_from_slice(name)?;
    append_number(alloc, text, count)?;
    Ok(())
}

impl Reply {
    ghost use Rattle.hba_program.specs.Replies.{reply_text, reply_line};

    /// Appends the line without its line feed.
    fn append_text(&self, alloc: Global, text: &mut Vec<u8>) -> Result<(), AllocError>
        ensures { OnOk result (text.new.items ≡ text.old.items ++ reply_text self.now) }
    {
        match *self {
            Reply::Word(word) => append_word(text, word)?,
            Reply::Done => text.extend_from_slice(b"ok")?,
            Reply::Line(false) => text.extend_from_slice(b"0")?,
            Reply::Line(true) => text.extend_from_slice(b"1")?,
            Reply::Signature => text.extend_from_slice(b"did signature")?,
            Reply::Fetch(tag) => append_tagged(alloc, text, b"did fetch ", tag)?,
            Reply::Control(tag) => append_tagged(alloc, text, b"did control ", tag)?,
            Reply::Complete(tag) => append_tagged(alloc, text, b"did complete ", tag)?,
            Reply::Fault(tag, part) => append_fault(alloc, text, tag, part)?,
            Reply::Idle => text.extend_from_slice(b"idle")?,
            Reply::Ran(count) => append_count(alloc, text, b"idle ", u64::from(count))?,
            Reply::Denials(count) => append_number(alloc, text, count)?,
            Reply::NoSector => text.extend_from_slice(b"none")?,
        }
        Ok(())
    }

    /// Appends the line, with its line feed.
    ///
    /// # Errors
    ///
    /// Want of memory: then a part of the line may stand there.
    pub fn append_to(&self, alloc: Global, text: &mut Vec<u8>) -> Result<(), AllocError>
        ensures { OnOk result (text.new.items ≡ text.old.items ++ reply_line self.now) }
    {
        self.append_text(alloc, text)?;
        text.push(b'\n')?;
        Ok(())
    }
}

/// Appends the line that tells a fault, with its line feed.
///
/// # Errors
///
/// Want of memory: then a part of the line may stand there.
pub fn append_error(text: &mut Vec<u8>, fault: &str) -> Result<(), AllocError>
    ensures { OnOk result (text.new.items ≡ text.old.items ++ error_line fault.now) }
{
    text.extend_from_slice(b"error ")?;
    text.extend_from_slice(fault.as_bytes())?;
    text.push(b'\n')?;
    Ok(())
}
