//! Scripts over readers and writers that give and take little, and that fail.

ghost use Rattle.std.specs.Prelude.{◌≡◌};

use std::alloc::{AllocError, Global};
use std::io;
use std::io::{ErrorKind, Read, Write};
use std::test::Fail;
use tool::{DriveTexts, Options, RunError, run_script, run_script_with_faults};

/// Gives one line at each call, as a client over a pipe does, and fails at one call.
#[derive(Drop)]
struct Client<'a> {
    rest: &'a [u8],
    calls: usize,
    fails_at: usize,
}

impl<'a> Read for Client<'a> {
    fn read(&mut self, buf: &mut [u8]) -> io::Result<usize> {
        self.calls = self.calls.saturating_add(1);
        if self.calls == self.fails_at {
            return Err(io::Error::from(ErrorKind::BrokenPipe));
        }
        let end = self.rest.iter().position(|byte| *byte == b'\n');
        let line = end.unwrap_or(self.rest.len()).saturating_add(1);
        let size = line.min(buf.len());
        self.rest.read(&mut buf[..size])
    }
}

/// Takes bytes, at most so many at a call, and fails at one call of `write` or `flush`.
#[derive(Drop)]
struct Taker {
    taken: Vec<u8>,
    most: usize,
    largest: usize,
    calls: usize,
    fails_at: usize,
}

impl Taker {
    fn new(alloc: Global, most: usize, fails_at: usize) -> Taker {
        Taker {
            taken: Vec::new(alloc),
            most,
            largest: 0,
            calls: 0,
            fails_at,
        }
    }

    fn call(&mut self) -> io::Result<()> {
        self.calls = self.calls.saturating_add(1);
        if self.calls == self.fails_at {
            return Err(io::Error::from(ErrorKind::BrokenPipe));
        }
        Ok(())
    }
}

impl Write for Taker {
    fn write(&mut self, buf: &[u8]) -> io::Result<usize> {
        self.call()?;
        self.largest = self.largest.max(buf.len());
        let size = buf.len().min(self.most);
        self.taken.extend_from_slice(&buf[..size])?;
        Ok(size)
    }

    fn flush(&mut self) -> io::Result<()> {
        self.call()
    }
}

const SCRIPT: &[u8] = b"range 1 100 10 1 0 1 0\nread 7 5 95 5\nread 7 5 95 6\n";

const SERVED: &[u8] = b"ok 00000000 00000000 00000000 00000000 00000000\n";

const ALL: &[u8] =
    b"ok 00000000 00000000 00000000 00000000 00000000\nfail 51 04\naudit 3 7 deny read 95+6 range 1 ReadLocked\n";

const BEFORE_THE_FAULT: &[u8] =
    b"ok 00000000 00000000 00000000 00000000 00000000\nfail 51 04\naudit 3 7 deny read 95+6 range 1 ReadLocked\nfail 51 04\n";

fn options(alloc: Global, sectors: &str) -> Result<Options, Fail> {
    let texts = DriveTexts {
        sectors: Some(sectors),
        shadow: None,
        msid: "4f50414c4d534944",
        profile: "base",
        serial: None,
        model: None,
        psid: None,
        datastore: None,
        seed: None,
    };
    Ok(Options::parse(alloc, &texts)?)
}

/// How a script ends: at which call the reader fails, at which call the writer, and how many bytes that takes at one; the
/// end, what is written, and how many calls were made of the reader and of `write` and `flush`.
#[derive(Clone, Copy)]
struct Ending {
    reader_fails: usize,
    writer_fails: usize,
    most: usize,
    end: Result<u8, RunError>,
    written: &'static [u8],
    reads: usize,
    writes: usize,
}

fn at_read(reader_fails: usize, written: &'static [u8], writes: usize) -> Ending {
    Ending {
        reader_fails,
        writer_fails: 0,
        most: 1000,
        end: Err(RunError::Read),
        written,
        reads: reader_fails,
        writes,
    }
}

fn at_write(writer_fails: usize, most: usize, written: &'static [u8], reads: usize) -> Ending {
    Ending {
        reader_fails: 0,
        writer_fails,
        most,
        end: Err(RunError::Write),
        written,
        reads,
        writes: writer_fails,
    }
}

/// Where nothing fails each answer is a write and a flush.
const WHOLE: Ending = Ending {
    reader_fails: 0,
    writer_fails: 0,
    most: 1000,
    end: Ok(0),
    written: ALL,
    reads: 4,
    writes: 4,
};

/// Whether the script ends so.
fn ends_so(alloc: Global, ending: &Ending) -> Result<bool, Fail> {
    let options = options(alloc, "1000")?;
    let mut input = Client {
        rest: SCRIPT,
        calls: 0,
        fails_at: ending.reader_fails,
    };
    let mut output = Taker::new(alloc, ending.most, ending.writer_fails);
    let end = run_script(alloc, &mut input, &mut output, &options);
    let is_end = end == ending.end && output.taken.as_slice() == ending.written;
    Ok(is_end && input.calls == ending.reads && output.calls == ending.writes)
}

/// Whether the script ends so at each call: a reader that fails at its first call, at its second one, and so on: the answers
/// to what was read before are written, once. A writer that does: nothing is written once more, and no line is read behind
/// it; nor of an answer of which the writer took two bytes.
fn end_so(alloc: Global) -> Result<bool, Fail> {
    let mut end = true;
    for ending in [
        at_read(1, b"", 0),
        at_read(2, b"", 0),
        at_read(3, SERVED, 2),
        at_read(4, ALL, 4),
        at_write(1, 1000, b"", 2),
        at_write(2, 1000, SERVED, 2),
        at_write(3, 1000, SERVED, 3),
        at_write(4, 1000, ALL, 3),
        at_write(3, 1, b"ok", 2),
        WHOLE,
    ] {
        end &= ends_so(alloc, &ending)?;
    }
    Ok(end)
}

#[test]
fn ends_at_each_call_that_fails(rt: HostRuntime) -> Result<(), Fail> {
    assert!(rt; end_so(rt.alloc())?);
    Ok(())
}

/// Five hundred writes, each with the read of its sector, and their answers.
fn thousand_lines(alloc: Global) -> Result<(Vec<u8>, Vec<u8>), AllocError> {
    let mut script = Vec::new(alloc);
    let mut answers = Vec::new(alloc);
    for sector in 0..500u32 {
        let byte = sector % 251;
        let lines = format!(in alloc; "write 1 0 {sector} 1 {byte:02x}\nread 1 0 {sector} 1\n")?;
        script.extend_from_slice(lines.as_bytes())?;
        let printed = format!(in alloc; "ok\nok {byte:02x}{byte:02x}{byte:02x}{byte:02x}\n")?;
        answers.extend_from_slice(printed.as_bytes())?;
    }
    Ok((script, answers))
}

/// Whether all answers to a thousand lines are written, line by line, to a writer that takes seven bytes at a call.
fn are_answered(alloc: Global, end: &[u8], status: u8) -> Result<bool, Fail> {
    let options = options(alloc, "1000")?;
    let (mut script, answers) = thousand_lines(alloc)?;
    script.extend_from_slice(end)?;
    let mut output = Taker::new(alloc, 7, 0);
    let input = Client {
        rest: &script,
        calls: 0,
        fails_at: 0,
    };
    let told = run_script(alloc, input, &mut output, &options);
    Ok(told == Ok(status) && output.taken.as_slice() == answers.as_slice())
}

/// Whether no answer is lost, whatever ends the lines. `worked/a-thousand-lines.txt` has them as one stream.
fn are_all_answered(alloc: Global) -> Result<bool, Fail> {
    let behind = are_answered(alloc, b"", 0)?;
    let expected = are_answered(alloc, b"expect no\n", 1)?;
    Ok(behind && expected && are_answered(alloc, b"stop\n", 2)?)
}

#[test]
fn answers_a_thousand_lines(rt: HostRuntime) -> Result<(), Fail> {
    assert!(rt; are_all_answered(rt.alloc())?);
    Ok(())
}

/// Whether long answers to the lines of one buffer are handed on one after the other: 3 and 9 bytes for each of 65,536
/// sectors.
fn are_handed_on(alloc: Global) -> Result<bool, Fail> {
    let options = options(alloc, "65536")?;
    let script = b"read 1 0 0 0\nread 1 0 0 0\nread 1 0 0 0\nread 1 0 0 0\n".as_slice();
    let mut output = Taker::new(alloc, 1_000_000, 0);
    let end = run_script(alloc, script, &mut output, &options);
    Ok(end == Ok(0) && output.taken.len() == 4 * 589_827 && output.largest == 589_827)
}

#[test]
fn hands_on_long_answers(rt: HostRuntime) -> Result<(), Fail> {
    assert!(rt; are_handed_on(rt.alloc())?);
    Ok(())
}

/// Whether an error has this text.
fn is_text(alloc: Global, error: RunError, text: &str) -> Result<bool, AllocError> {
    let told = format!(in alloc; "{error}")?;
    Ok(told.as_str() == text)
}

/// Whether the sentences of ends that no run of the program comes to by itself are these.
fn are_texts(alloc: Global) -> Result<bool, AllocError> {
    let memory = is_text(alloc, RunError::Memory, "out of memory")?;
    let read = is_text(alloc, RunError::Read, "the input could not be read")?;
    let write = is_text(alloc, RunError::Write, "the output could not be written")?;
    let limit = "the script has more than 4294967295 lines";
    Ok(memory && read && write && is_text(alloc, RunError::ReadLimit, limit)?)
}

#[test]
fn tells_why_a_script_ends(rt: HostRuntime) -> Result<(), Fail> {
    assert!(rt; are_texts(rt.alloc())?);
    Ok(())
}

/// A writer of faults that fails, at a line whose command a failed queue aborts: the answers that were pending are
/// written all the same, that of the aborted command among them.
#[test]
fn answers_before_a_fault_that_fails(rt: HostRuntime) -> Result<(), Fail> {
    let options = options(rt.alloc(), "1000")?;
    let script =
        b"range 1 100 10 1 0 1 0\nread 7 5 95 5\nread 7 5 95 6\nread 7 5 0 1\nread 7 5 0 1\n";
    let mut output = Taker::new(rt.alloc(), 1000, 0);
    let mut faults = Taker::new(rt.alloc(), 1000, 1);
    assert_eq!(rt;
        run_script_with_faults(
            rt.alloc(),
            script.as_slice(),
            &mut output,
            &mut faults,
            &options
        ),
        Err(RunError::Write)
    );
    assert_eq!(rt; output.taken.as_slice(), BEFORE_THE_FAULT);
    Ok(())
}
