//! The lines of a host, to their end.

ghost use Rattle.std.specs.Prelude.{◌≡◌, ◌≤◌, false, OnOk, IfOk, List};
ghost use Rattle.hba_program.specs.Wires.{SameWriter};
ghost use Rattle.hba_program.specs.Steps.{stand, DoesHere, lines_status};
ghost use Rattle.hba_program.specs.Waves.{DoesAllWaved, ServesWaved};

use crate::hba_lines::Request;
use crate::hba_tool::error::ServeError;
use crate::hba_tool::session::Session;
use crate::hba_tool::way::Way;
use crate::hba_wire::{Wire, WireError};
use drive::Drive;
use hba_waves::{Dump, show_if};
use std::alloc::Global;
use std::io::{Read, Write};

/// Does what the line at hand asks for, as the request of a number, or tells the host that it is none.
fn turn<R: Read + Drop, W: Write>(
    session: &mut Session,
    number: u64,
    wire: &mut Wire<'_, R, W>,
) -> Result<(), WireError>
    requires { wire.old.is_cut_off ≡ false }
    ensures { OnOk result (DoesHere R.remaining W.contents number
        (stand session.old wire.old) (stand session.new wire.new)) }
{
    match Request::parse(wire.line()) {
        Ok(request) => session.answer(number, request, wire)?,
        Err(fault) => wire.complain(fault.text())?,
    }
    Ok(())
}

/// The status of the lines that were done.
fn lines_status<R: Read + Drop, W: Write>(wire: &Wire<'_, R, W>) -> u8
    ensures status { result ≡ lines_status wire.now }
    ensures most { result ≤ 2 }
{
    if wire.is_cut_off || wire.has_complained {
        2
    } else {
        0
    }
}

/// Does all lines, and gives the status. The dump, where one is wanted, shows the start, and what each line left.
fn all_lines<R: Read + Drop, W: Write, D: Write + Drop>(
    session: &mut Session,
    wire: &mut Wire<'_, R, W>,
    dump: &mut Option<Dump<D>>,
) -> Result<u8, ServeError>
    requires { wire.old.is_cut_off ≡ false }
    ensures most { IfOk result (λ status. status ≤ 2) }
    ensures done { IfOk result (λ status. DoesAllWaved R.remaining W.contents D.contents status
        (stand session.old wire.old) (stand session.new wire.new) dump.old dump.new) }
{
    show_if(dump, 0, &session.hba)?;
    for count in 0..u64::MAX {
        if !wire.next_line()? {
            return Ok(lines_status(wire));
        }
        turn(session, count + 1, wire)?;
        show_if(dump, count + 1, &session.hba)?;
        if wire.is_cut_off {
            return Ok(lines_status(wire));
        }
    }
    Ok(lines_status(wire))
}

/// Does all lines; the writer stays the caller's.
fn host_served<R: Read + Drop, W: Write, D: Write + Drop>(
    session: &mut Session,
    wire: &mut Wire<'_, R, W>,
    dump: &mut Option<Dump<D>>,
) -> Result<u8, ServeError>
    requires { wire.old.is_cut_off ≡ false }
    ensures most { IfOk result (λ status. status ≤ 2) }
    ensures done { IfOk result (λ status. DoesAllWaved R.remaining W.contents D.contents status
        (stand session.old wire.old) (stand session.new wire.new) dump.old dump.new) }
    ensures same { OnOk result (SameWriter wire.old wire.new) }
{
    let status = all_lines(session, wire, dump)?;
    Ok(status)
}

/// A controller over a drive that has done no act, for the host that a reader and a writer lead to: it does what
/// each line asks for, and writes the answer before it reads on. The host's memory stays with the host,
/// and is asked for by lines. Behind what was refused stands why, where its `way` explains. The dump, where one is wanted, is
/// written as the lines are done. It gives the status: 0, or 2 where a line was none or the input ended where an answer was due.
///
/// # Errors
///
/// Want of memory, and the first call of the reader or of a writer that fails.
pub fn serve<R: Read + Drop, W: Write, D: Write + Drop>(
    alloc: Global,
    input: R,
    output: &mut W,
    drive: Drive,
    way: Way,
    dump: &mut Option<Dump<D>>,
) -> Result<u8, ServeError>
    ensures most { IfOk result (λ status. status ≤ 2) }
    ensures served { IfOk result (λ status. ServesWaved R.remaining W.contents D.contents way
        drive (R.remaining input) status (W.contents output.old) (W.contents output.new)
        dump.old dump.new) }
{
    let mut session = Session::new(alloc, drive, way);
    let Ok(mut wire) = Wire::new(alloc, input, output) else {
        session.end();
        return Err(ServeError::Wire(WireError::Memory));
    };
    let served = host_served(&mut session, &mut wire, dump);
    session.end();
    let _ = wire.into_output();
    let status = served?;
    Ok(status)
}
