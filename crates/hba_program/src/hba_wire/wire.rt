//! A reader of what a host says, and a writer to it.

ghost use Rattle.std.specs.Prelude.{◌≡◌, true, false, not, None, OnOk, IfOk, IfSome};
ghost use Rattle.std.specs.Io.BufRead.{strip_last};
ghost use Rattle.std.specs.Io.KnownBytes.{Appends};
ghost use Rattle.hba_program.specs.Replies.{error_line};
ghost use Rattle.hba_program.specs.Wires.{left_of, SameWriter, SameMarks, TakesOne};

use crate::hba_lines::append_error;
use crate::hba_wire::error::WireError;
use std::alloc::Global;
use std::io::{BufRead, BufReader, Read, Write};

/// How many bytes of the input are read ahead at most.
const AHEAD: usize = 65_536;

/// A pipe to a host.
#[derive(Drop)]
pub struct Wire<'a, R: Read + Drop, W: Write> {
    pub alloc: Global,
    pub reader: BufReader<R>,
    pub output: &'a mut W,
    /// The line that was read last, with its line feed.
    pub line: Vec<u8>,
    /// What is written next.
    pub text: Vec<u8>,
    /// The input ended where the host was asked for memory.
    pub is_cut_off: bool,
    /// The host was told of a line that is none.
    pub has_complained: bool,
    /// The first call in an access of memory that failed.
    pub failure: Option<WireError>,
}

/// Writes bytes, and has the writer pass them on.
fn write_whole<W: Write>(output: &mut W, bytes: &[u8]) -> Result<(), WireError>
    ensures { OnOk result (Appends (W.contents output.old) (W.contents output.new) bytes.now) }
{
    output.write_all(bytes).map_err(|_| WireError::Write)?;
    output.flush().map_err(|_| WireError::Write)?;
    Ok(())
}

/// A line without its line feed.
fn without_end(line: &[u8]) -> &[u8]
    ensures { result.now ≡ strip_last 10 line.now }
{
    line.strip_suffix(b"\n").unwrap_or(line)
}

impl<'a, R: Read + Drop, W: Write> Wire<'a, R, W> {
    /// A pipe over a reader and a writer.
    ///
    /// # Errors
    ///
    /// `Memory`.
    pub fn new(alloc: Global, input: R, output: &'a mut W) -> Result<Wire<'a, R, W>, WireError>
        ensures same { IfOk result (λ wire. wire.output.ghost_name ≡ output.entry.ghost_name) }
        ensures unwritten { IfOk result (λ wire. wire.output.now ≡ output.old) }
        ensures left { IfOk result (λ wire. left_of R.remaining wire ≡ R.remaining input) }
        ensures marks { IfOk result (λ wire. (wire.is_cut_off ≡ false)
            × (wire.has_complained ≡ false) × (wire.failure ≡ None)) }
    {
        let reader = BufReader::with_capacity(alloc, AHEAD, input).map_err(|_| WireError::Memory)?;
        Ok(Wire {
            alloc,
            reader,
            output,
            line: Vec::new(alloc),
            text: Vec::new(alloc),
            is_cut_off: false,
            has_complained: false,
            failure: None,
        })
    }

    /// The writer that was lent; what was read ahead is dropped.
    pub fn into_output(self) -> &'a mut W
        ensures same { result.ghost_name ≡ self.entry.output.ghost_name }
        ensures now { result.now ≡ self.entry.output.now }
    {
        let Wire {
            alloc: _alloc,
            reader: _reader,
            output,
            line: _line,
            text: _text,
            is_cut_off: _is_cut_off,
            has_complained: _has_complained,
            failure: _failure,
        } = self;
        output
    }

    /// The line that was read last, without its line feed.
    pub fn line(&self) -> &[u8]
        ensures { result.now ≡ strip_last 10 self.now.line.items }
    {
        without_end(&self.line)
    }

    /// Whether all calls in accesses of memory came to something.
    ///
    /// # Errors
    ///
    /// Why the first of them did not.
    pub fn stands(&self) -> Result<(), WireError>
        ensures { OnOk result (self.now.failure ≡ None) }
    {
        match self.failure {
            None => Ok(()),
            Some(error) => Err(error),
        }
    }

    /// Reads the next line; false where none is left.
    ///
    /// # Errors
    ///
    /// `Memory`, `Read`.
    pub fn next_line(&mut self) -> Result<bool, WireError>
        ensures taken { IfOk result (λ is_line. IfSome (left_of R.remaining self.old)
            (λ text. TakesOne is_line self.new.line.items text (left_of R.remaining self.new))) }
        ensures same { SameWriter self.old self.new }
        ensures unwritten { self.new.output.now ≡ self.old.output.now }
        ensures marks { SameMarks self.old self.new }
    {
        self.line.clear();
        let length = self
            .reader
            .read_until(b'\n', &mut self.line)
            .map_err(WireError::reading)?;
        Ok(length > 0)
    }

    /// Writes lines, and has the writer pass them on.
    ///
    /// # Errors
    ///
    /// `Write`.
    pub fn say(&mut self, text: &[u8]) -> Result<(), WireError>
        ensures said { OnOk result (Appends (W.contents self.old.output.now)
            (W.contents self.new.output.now) text.now) }
        ensures left { left_of R.remaining self.new ≡ left_of R.remaining self.old }
        ensures same { SameWriter self.old self.new }
        ensures marks { SameMarks self.old self.new }
    {
        write_whole(self.output, text)?;
        Ok(())
    }

    /// Tells the host that a line is none.
    ///
    /// # Errors
    ///
    /// `Memory`, `Write`.
    pub fn complain(&mut self, fault: &str) -> Result<(), WireError>
        ensures said { OnOk result (Appends (W.contents self.old.output.now)
            (W.contents self.new.output.now) (error_line fault.now)) }
        ensures left { left_of R.remaining self.new ≡ left_of R.remaining self.old }
        ensures same { SameWriter self.old self.new }
        ensures told { OnOk result (self.new.has_complained ≡ true) }
        ensures cut_off { self.new.is_cut_off ≡ self.old.is_cut_off }
        ensures failure { self.new.failure ≡ self.old.failure }
    {
        self.text.clear();
        append_error(&mut self.text, fault)?;
        self.has_complained = true;
        write_whole(self.output, &self.text)?;
        Ok(())
    }

    /// Tells the host what is to be said, and reads what it answers; false where nothing comes: the pipe is
    /// cut off then.
    pub(crate) fn ask(&mut self) -> Result<bool, WireError>
        ensures said { OnOk result (Appends (W.contents self.old.output.now)
            (W.contents self.new.output.now) self.old.text.items) }
        ensures taken { IfOk result (λ is_line. IfSome (left_of R.remaining self.old)
            (λ text. TakesOne is_line self.new.line.items text (left_of R.remaining self.new))) }
        ensures same { SameWriter self.old self.new }
        ensures cut_off { IfOk result (λ is_line. self.new.is_cut_off ≡ not is_line) }
        ensures complained { self.new.has_complained ≡ self.old.has_complained }
        ensures failure { self.new.failure ≡ self.old.failure }
    {
        write_whole(self.output, &self.text)?;
        let is_there = self.next_line()?;
        self.is_cut_off = !is_there;
        Ok(is_there)
    }
}
