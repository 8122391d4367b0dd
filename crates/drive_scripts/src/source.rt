//! Where the acts of a line come from.

ghost use Rattle.std.specs.Prelude.{◌≡◌};
ghost use Rattle.drive_scripts.specs.Sources.{asking_client, source_of};

use reasons::explained::Source;
use script_lines::Line;

/// The client of a line; 0 where it asks for nothing.
fn client_of(line: &Line<'_>) -> u32
    ensures { result ≡ asking_client line.now }
{
    match line {
        Line::Read(transfer) | Line::Write(transfer, _) => transfer.client,
        Line::ReadDma(transfer) | Line::WriteDma(transfer, _) => transfer.client,
        Line::Call { client, .. }
        | Line::Send { client, .. }
        | Line::Receive { client, .. }
        | Line::SecurityIn { client, .. }
        | Line::SecurityOut { client, .. }
        | Line::Identify { client }
        | Line::Log { client }
        | Line::Reset { client, .. }
        | Line::TperReset { client } => *client,
        Line::Range(_) | Line::Expect => 0,
    }
}

/// Where the acts of a line come from: the line of this number, and its client.
pub fn source_of(number: u64, line: &Line<'_>) -> Source
    ensures { result ≡ source_of number line.now }
{
    Source {
        line: number,
        client: client_of(line),
    }
}
