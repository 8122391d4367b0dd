//! What `hba --help` says.

/// What `hba --help` says of lines and statuses.
pub(crate) const LINES: &str = "\
Lines of the host, whose words one blank parts; numbers are hex, 1 to 8 digits, LBA 1 to 12:
  r OFFSET          the register at OFFSET: eight digits
  w OFFSET VALUE    a write of the register: ok
  turn, turn N      the ready work of this number, modulo how many there are: its last line,
                    did signature, did fetch T, did control T, did complete T,
                    fault T list|table|data|fis or idle
  run               works until none is ready: their last lines, and idle N
  irq               the interrupt line: 0 or 1
  why               N, and N audit lines: the denials since the last why
  power             a power cycle: ok
  sector LBA        the bytes of a sector, whatever is locked, or none

In turn and run the host's memory is asked for by lines, each of which the host answers at once:
  m ADDRESS LENGTH  the bytes in hex, two digits each, or none
  p ADDRESS HEX     ok, or none where a byte of it is no memory

A line that is none of these is answered by error TEXT. With --explain lines that begin with because or lifted
by stand behind the last line of a work whose command was refused, and behind each audit line of why.

Status: 0 done, 2 an error line, an end where an answer was due, bad usage or an error";
