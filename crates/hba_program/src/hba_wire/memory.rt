//! The host's memory across a pipe.

ghost use Rattle.std.specs.Prelude.{◌≡◌, ◌≤◌, ◌+◌, ◌-◌, false, None, IfOk, length, slice_range};
ghost use Rattle.host_memory.specs.Access.{read_answer, memory_end};
ghost use Rattle.hba_program.specs.Pipes.{piece_read, piece_written, whole_read, whole_written, most_moved};
ghost use Rattle.hba_program.specs.Wires.{left_of, SameWriter, SameMarks, Comes, ComesUnlessFailed, Judges};

use crate::hba_lines::{Answer, append_read, append_write, read_answer, write_answer};
use crate::hba_wire::error::WireError;
use crate::hba_wire::wire::Wire;
use host_memory::{HostMemory, Source};
use std::io::{Read, Write};

/// How many bytes move at most by a line.
const PIECE: usize = 65_536;

impl<'a, R: Read + Drop, W: Write> Wire<'a, R, W> {
    /// Tells the host of an answer that is none.
    fn judge(&mut self, answer: Answer, wanted: &str) -> Result<bool, WireError>
        ensures weighed { IfOk result (λ given. Judges R.remaining W.contents answer wanted.now
            self.old given self.new) }
        ensures same { SameWriter self.old self.new }
        ensures failure { self.new.failure ≡ self.old.failure }
    {
        match answer {
            Answer::Given => Ok(true),
            Answer::Refused => Ok(false),
            Answer::Wrong => {
                self.complain(wanted)?;
                Ok(false)
            }
        }
    }

    /// Reads bytes by one line.
    fn ask_for(&mut self, at: u64, room: &mut [u8]) -> Result<bool, WireError>
        requires { self.old.is_cut_off ≡ false }
        ensures comes { IfOk result (λ given. Comes R.remaining W.contents
            (piece_read at (length room.old)) self.old (read_answer given room.new) self.new) }
        ensures same { SameWriter self.old self.new }
        ensures failure { self.new.failure ≡ self.old.failure }
    {
        self.text.clear();
        append_read(self.alloc, &mut self.text, at, room.len())?;
        if !self.ask()? {
            return Ok(false);
        }
        let answer = read_answer(self.line(), room);
        let given = self.judge(
            answer,
            "an answer to m is none, or two hex digits for each byte",
        )?;
        Ok(given)
    }

    /// Writes bytes by one line.
    fn give(&mut self, at: u64, bytes: &[u8]) -> Result<bool, WireError>
        requires { self.old.is_cut_off ≡ false }
        ensures comes { IfOk result (λ given. Comes R.remaining W.contents
            (piece_written at bytes.now) self.old given self.new) }
        ensures same { SameWriter self.old self.new }
        ensures failure { self.new.failure ≡ self.old.failure }
    {
        self.text.clear();
        append_write(self.alloc, &mut self.text, at, bytes)?;
        if !self.ask()? {
            return Ok(false);
        }
        let answer = write_answer(self.line());
        let given = self.judge(answer, "an answer to p is ok or none")?;
        Ok(given)
    }

    /// Reads bytes by one line, and remembers a failure.
    fn read_piece(&mut self, at: u64, room: &mut [u8]) -> bool
        ensures comes { ComesUnlessFailed R.remaining W.contents
            (piece_read at (length room.old)) self.old (read_answer result room.new) self.new }
        ensures same { SameWriter self.old self.new }
    {
        if self.is_cut_off || self.failure.is_some() {
            return false;
        }
        match self.ask_for(at, room) {
            Ok(is_given) => is_given,
            Err(error) => {
                self.failure = Some(error);
                false
            }
        }
    }

    /// Writes bytes by one line, and remembers a failure.
    fn write_piece(&mut self, at: u64, bytes: &[u8]) -> bool
        ensures comes { ComesUnlessFailed R.remaining W.contents
            (piece_written at bytes.now) self.old result self.new }
        ensures same { SameWriter self.old self.new }
    {
        if self.is_cut_off || self.failure.is_some() {
            return false;
        }
        match self.give(at, bytes) {
            Ok(is_given) => is_given,
            Err(error) => {
                self.failure = Some(error);
                false
            }
        }
    }

    /// Reads bytes by as many lines as it takes.
    fn read_pieces(&mut self, at: u64, room: &mut [u8]) -> bool
        requires { at + length room.old ≤ memory_end }
        ensures comes { ComesUnlessFailed R.remaining W.contents
            (whole_read at (length room.old)) self.old (read_answer result room.new) self.new }
        ensures same { SameWriter self.old self.new }
    {
        if room.is_empty() {
            return true;
        }
        let size = room.len().min(PIECE);
        let (front, rest) = room.split_at_mut(size);
        self.read_piece(at, front) && self.read_pieces(at + size as u64, rest)
    }

    /// Writes bytes by as many lines as it takes.
    fn write_pieces(&mut self, at: u64, bytes: &[u8]) -> bool
        requires { at + length bytes.now ≤ memory_end }
        ensures comes { ComesUnlessFailed R.remaining W.contents
            (whole_written at bytes.now) self.old result self.new }
        ensures same { SameWriter self.old self.new }
    {
        if bytes.is_empty() {
            return true;
        }
        let size = bytes.len().min(PIECE);
        let (front, rest) = bytes.split_at(size);
        self.write_piece(at, front) && self.write_pieces(at + size as u64, rest)
    }

    /// Bytes of a source, those from a place up to another.
    fn bytes_of<S: Source>(&self, source: &S, from: usize, to: usize) -> Result<Vec<u8>, WireError>
        requires order { from ≤ to }
        requires there { to ≤ length (S.bytes source.now) }
        ensures { IfOk result (λ bytes. bytes.items ≡ slice_range (S.bytes source.now) from to) }
    {
        let mut bytes = Vec::new(self.alloc);
        bytes.resize(to - from, 0)?;
        source.fill(from, &mut bytes);
        Ok(bytes)
    }

    /// Writes bytes of a source by as many lines as it takes, and remembers a failure.
    fn write_source<S: Source>(&mut self, at: u64, source: &S, from: usize, to: usize) -> bool
        requires order { from ≤ to }
        requires there { to ≤ length (S.bytes source.now) }
        requires low { at + (to - from) ≤ memory_end }
        ensures comes { ComesUnlessFailed R.remaining W.contents
            (whole_written at (slice_range (S.bytes source.now) from to))
            self.old result self.new }
        ensures same { SameWriter self.old self.new }
    {
        match self.bytes_of(source, from, to) {
            Ok(bytes) => self.write_pieces(at, &bytes),
            Err(error) => {
                self.failure = Some(error);
                false
            }
        }
    }
}

impl<R: Read + Drop, W: Write> HostMemory for Wire<'_, R, W> {
    ghost use Rattle.hba_program.specs.Wires.{Accesses};

    ghost does = { Accesses R.remaining W.contents };

    fn read(&mut self, at: u64, into: &mut [u8]) -> bool {
        self.read_pieces(at, into)
    }

    fn write(&mut self, at: u64, bytes: &[u8]) -> bool {
        self.write_pieces(at, bytes)
    }

    fn write_from<S: Source>(&mut self, at: u64, source: &S, from: usize, to: usize) -> bool {
        self.write_source(at, source, from, to)
    }
}
