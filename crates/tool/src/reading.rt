//! Reading the lines of a script, and answering before a read that could wait.

ghost use Rattle.std.specs.Prelude.{◌≡◌, ◌≤◌, ◌<◌, ◌++◌, ◌⊎◌, length, Some, is_some, OnOk, IfOk, IfErr, IfSome};
ghost use Rattle.std.specs.Io.Buffered.{reader_buffer, reader_remaining};
ghost use Rattle.std.specs.Io.BufRead.{take_through, drop_through};
ghost use Rattle.tool.specs.Scripts.{bare, has_line, IsAtHand, LeavesNobodyWaiting, TakesLine};
ghost use Rattle.tool.specs.Progress.{HandsOn};
ghost use Rattle.tool.specs.declared.ending.RunError.{RunError};

use crate::ending::RunError;
use memchr::memchr;
use script_lines::Report;
use std::alloc::{AllocError, Global};
use std::io::{BufRead, BufReader, Read, Write};

/// How many bytes of answers wait at most while whole lines stand in the reader's buffer.
const MOST_PENDING: usize = 65_536;

/// How many bytes of an input are read at once.
pub(crate) const READ_AT_ONCE: usize = 65_536;

/// A line without its line feed, and without one carriage return before it.
pub fn without_end(line: &[u8]) -> &[u8]
    ensures { result.now ≡ bare line.now }
{
    let line = line.strip_suffix(b"\n").unwrap_or(line);
    line.strip_suffix(b"\r").unwrap_or(line)
}

/// A reader of lines, with all that the input gives, and room for so many bytes of it, of which there is one at least.
///
/// # Errors
///
/// `Memory`.
pub(crate) fn lines_within<R: Read + Drop>(
    alloc: Global,
    room: usize,
    input: R,
) -> Result<BufReader<R>, RunError>
    requires { 0 < room }
    ensures reader { IfOk result (λ reader. reader_remaining R.remaining reader
        ≡ R.remaining input) }
    ensures memory { IfErr result (λ error. error ≡ RunError.Memory) }
{
    BufReader::with_capacity(alloc, room, input).map_err(|_| RunError::Memory)
}

/// A reader of lines, with all that the input gives.
///
/// # Errors
///
/// `Memory`.
pub fn lines_of<R: Read + Drop>(alloc: Global, input: R) -> Result<BufReader<R>, RunError>
    ensures reader { IfOk result (λ reader. reader_remaining R.remaining reader
        ≡ R.remaining input) }
    ensures memory { IfErr result (λ error. error ≡ RunError.Memory) }
{
    lines_within(alloc, READ_AT_ONCE, input)
}

/// How many bytes the first line has with its line feed, where it stands whole in what is at hand.
fn line_in(at_hand: &[u8]) -> Option<usize>
    ensures whole { is_some result ≡ has_line at_hand.now }
    ensures size { IfSome result (λ size. size ≡ length (take_through 10 at_hand.now)) }
    ensures within { IfSome result (λ size. size ≤ length at_hand.now) }
{
    match memchr(b'\n', at_hand) {
        Some(end) => Some(end + 1),
        None => None,
    }
}

/// How many bytes the next line has with its line feed, where it stands whole in the reader's buffer, so that
/// reading it does not wait.
#[inline(always)]
pub fn line_at_hand<R: Read + Drop>(reader: &BufReader<R>) -> Option<usize>
    ensures { IsAtHand (reader_buffer reader.now) result }
{
    line_in(reader.buffer())
}

/// Hands on what is printed where the next read could wait, and where it is much; it gives what `line_at_hand` does.
///
/// # Errors
///
/// `Write`.
pub fn answer<R: Read + Drop, W: Write>(
    reader: &BufReader<R>,
    report: &mut Report,
    output: &mut W,
) -> Result<Option<usize>, RunError>
    ensures at_hand { IfOk result (IsAtHand (reader_buffer reader.now)) }
    ensures answered { OnOk result (LeavesNobodyWaiting (reader_buffer reader.now)
        report.new.pending.items) }
    ensures written { OnOk result
        (HandsOn (W.contents output.old) (W.contents output.new) report.old.pending.items
        report.new.pending.items) }
    ensures last { report.new.last ≡ report.old.last }
    ensures errors { IfErr result (λ error. error ≡ RunError.Write) }
{
    let at_hand = line_at_hand(reader);
    if at_hand.is_none() || report.pending.len() > MOST_PENDING {
        report.hand_on(output).map_err(|_| RunError::Write)?;
    }
    Ok(at_hand)
}

/// Takes the next line, of so many bytes, which stands whole in the reader's buffer.
fn take_line<R: Read + Drop>(
    reader: &mut BufReader<R>,
    size: usize,
    line: &mut Vec<u8>,
) -> Result<(), AllocError>
    requires { IsAtHand (reader_buffer reader.old) (Some size) }
    ensures { OnOk result (IfSome (reader_remaining R.remaining reader.old) (λ text.
        (line.new.items ≡ line.old.items ++ take_through 10 text)
        × (reader_remaining R.remaining reader.new ≡ Some (drop_through 10 text)))) }
{
    line.extend_from_slice(&reader.buffer()[..size])?;
    reader.consume(size);
    Ok(())
}

/// Reads the next line, with its end; false where none is left. `at_hand` is what `line_at_hand` gives of the
/// reader. A client that waits was answered before: the report is looked at in the contract alone.
///
/// # Errors
///
/// `Memory`, `Read`.
#[inline(always)]
pub fn read_line<R: Read + Drop>(
    reader: &mut BufReader<R>,
    at_hand: Option<usize>,
    line: &mut Vec<u8>,
    _report: &Report,
) -> Result<bool, RunError>
    requires at_hand { IsAtHand (reader_buffer reader.old) at_hand }
    requires answered { LeavesNobodyWaiting (reader_buffer reader.old) _report.now.pending.items }
    ensures line { IfSome (reader_remaining R.remaining reader.old)
        (λ text. IfOk result (λ is_line. TakesLine is_line line.new.items text
        (reader_remaining R.remaining reader.new))) }
    ensures errors { IfErr result (λ error. (error ≡ RunError.Memory) ⊎ (error ≡ RunError.Read)) }
{
    line.clear();
    if let Some(size) = at_hand {
        take_line(reader, size, line)?;
        return Ok(true);
    }
    let length = reader.read_until(b'\n', line).map_err(RunError::reading)?;
    Ok(length > 0)
}
