//! Lines as a value.

ghost use Rattle.std.specs.Prelude.{◌≡◌, ◌==◌, ◌≤◌, ◌<◌, ◌++◌, ◌∷◌, [], false, List, ℕ, length, IfOk, OnOk};
ghost use Rattle.std.specs.Io.BufRead.{take_through, drop_through};
ghost use Rattle.std.specs.List.{list_any};
ghost use Rattle.std.specs.Str.{bytes_eq};
ghost use Rattle.tool.specs.Scripts.{script_lines};
ghost use Rattle.runs.specs.Alphabets.{with_line};

use basics::Bytes;
use memchr::memchr;
use std::alloc::{AllocError, Global};
use std::marker::Model;
use tool::without_end;

/// Lines without their ends, in order.
#[derive(Drop)]
pub struct Lines {
    items: Vec<Bytes>,
}

impl Model for Lines {
    ghost use Rattle.std.specs.Prelude.{List, ℕ};

    ghost Value = { List (List ℕ) };

    ghost view = { λ a. a.items.items };
}

/// How many bytes the first line of a text has, with its end.
fn line_size(text: &[u8]) -> usize
    ensures size { result ≡ length (take_through 10 text.now) }
    ensures within { result ≤ length text.now }
{
    match memchr(b'\n', text) {
        Some(end) => end + 1,
        None => text.len(),
    }
}

/// The first line of a text, without its end, and what stands behind it.
pub fn first_line(text: &[u8]) -> (&[u8], &[u8])
    requires { (length text.now == 0) ≡ false }
    ensures lines { script_lines text.now ≡ result.0.now ∷ script_lines result.1.now }
    ensures shorter { length result.1.now < length text.now }
{
    let (line, rest) = text.split_at(line_size(text));
    (without_end(line), rest)
}

impl Lines {
    /// No line.
    pub fn new(alloc: Global) -> Lines
        ensures { result ≡ [] }
    {
        Lines {
            items: Vec::new(alloc),
        }
    }

    /// The lines of a script. A last line without an end counts.
    pub fn of_script(alloc: Global, text: &[u8]) -> Result<Lines, AllocError>
        ensures { IfOk result (λ lines. lines ≡ script_lines text.now) }
    {
        let mut lines = Lines::new(alloc);
        let mut rest = text;
        while !rest.is_empty() {
            let (line, behind) = first_line(rest);
            lines.push(alloc, line)?;
            rest = behind;
        }
        Ok(lines)
    }

    /// The lines, one after the other.
    pub fn as_slice(&self) -> &[Bytes]
        ensures { result.now ≡ self.now }
    {
        self.items.as_slice()
    }

    /// How many there are.
    pub fn len(&self) -> usize
        ensures { result ≡ length self.now }
    {
        self.items.len()
    }

    /// A line behind the others.
    pub fn push(&mut self, alloc: Global, line: &[u8]) -> Result<(), AllocError>
        ensures { OnOk result (self.new ≡ self.old ++ line.now ∷ []) }
    {
        let line = Vec::from_slice(alloc, line)?;
        self.items.push(Bytes::from_vec(line))?;
        Ok(())
    }

    /// Whether a line is among them.
    fn has(&self, line: &[u8]) -> bool
        ensures { result ≡ list_any (λ other. bytes_eq other line.now) self.now }
    {
        for other in &self.items {
            if other.as_slice() == line {
                return true;
            }
        }
        false
    }

    /// A line behind the others, where it is not among them.
    pub fn add(&mut self, alloc: Global, line: &[u8]) -> Result<(), AllocError>
        ensures { OnOk result (self.new ≡ with_line self.old line.now) }
    {
        if self.has(line) {
            return Ok(());
        }
        self.push(alloc, line)
    }
}
