//! The lines that a script prints.

ghost use Rattle.std.specs.Prelude.{◌≡◌, ◌++◌, ◌∷◌, OnOk, length};
ghost use Rattle.std.specs.Io.KnownBytes.{Appends};
ghost use Rattle.hex.specs.Hex.{encode_lower};
ghost use Rattle.script_lines.specs.Texts.{sectors_text, heads_text};

use audit::{AuditLine, line_bytes};
use basics::{append_hex, spell_hex};
use shadow_mbr::HEAD_SIZE;
use std::alloc::{AllocError, Global};
use std::io;
use std::io::Write;
use trusted_cmds::SECTOR_SIZE;

/// Lines that are printed and not handed on yet, and the last of all.
#[derive(Drop)]
pub struct Report {
    alloc: Global,
    pub last: Vec<u8>,
    pub pending: Vec<u8>,
}

impl Report {
    ghost use Rattle.std.specs.Prelude.{◌≡◌, ◌++◌, ◌∷◌, [], ℕ, List, OnOk};
    ghost use Rattle.std.specs.Io.KnownBytes.{Appends};
    ghost use Rattle.shadow_mbr.specs.Stored.{heads as heads_of};
    ghost use Rattle.script_lines.specs.Texts.{done_text, data_text, given_text, hex_text, command_failure_text, audit_text, refused_text, reset_text, Prints};

    /// Nothing is printed.
    pub fn new(alloc: Global) -> Report
        ensures last { result.last.items ≡ [] }
        ensures pending { result.pending.items ≡ [] }
    {
        Report {
            alloc,
            last: Vec::new(alloc),
            pending: Vec::new(alloc),
        }
    }

    /// Adds the last line to what is pending.
    fn print_last(&mut self) -> Result<(), AllocError>
        ensures last { self.new.last.items ≡ self.old.last.items }
        ensures pending { OnOk result
            (self.new.pending.items ≡ self.old.pending.items ++ self.old.last.items ++ 10 ∷ []) }
    {
        self.pending.extend_from_slice(&self.last)?;
        self.pending.push(b'\n')?;
        Ok(())
    }

    /// Prints that something was done.
    ///
    /// # Errors
    ///
    /// Want of memory: then the line may be pending in part.
    pub fn print_ok(&mut self) -> Result<(), AllocError>
        ensures { OnOk result (Prints self.old self.new (done_text ∷ [])) }
    {
        if self.last.as_slice() != b"ok".as_slice() {
            self.last.clear();
            self.last.extend_from_slice(b"ok")?;
        }
        self.pending.extend_from_slice(b"ok\n")?;
        Ok(())
    }

    /// Prints bytes that were received.
    ///
    /// # Errors
    ///
    /// Want of memory: then the line may be pending in part.
    pub fn print_hex(&mut self, bytes: &[u8]) -> Result<(), AllocError>
        ensures { OnOk result (Prints self.old self.new (hex_text bytes.now ∷ [])) }
    {
        self.last.clear();
        self.last.extend_from_slice(b"data ")?;
        append_hex(&mut self.last, bytes)?;
        self.print_last()?;
        Ok(())
    }

    /// Prints that a transfer was served, with the data that it gave.
    ///
    /// # Errors
    ///
    /// Want of memory: then the line may be pending in part.
    pub fn print_data(&mut self, sectors: &[u8]) -> Result<(), AllocError>
        ensures { OnOk result (Prints self.old self.new (data_text sectors.now ∷ [])) }
    {
        self.last.clear();
        self.last.extend_from_slice(b"ok")?;
        append_sectors(&mut self.last, sectors)?;
        self.print_last()?;
        Ok(())
    }

    /// Prints that a transfer was served, by the heads of the sectors that it gave: the first four
    /// bytes of each.
    ///
    /// # Errors
    ///
    /// Want of memory: then the line may be pending in part.
    pub fn print_heads(&mut self, heads: &[u8]) -> Result<(), AllocError>
        ensures { OnOk result ((sectors : List ℕ) → heads.now ≡ heads_of sectors
            → Prints self.old self.new (data_text sectors ∷ [])) }
    {
        self.print_each(heads)?;
        Ok(())
    }

    /// Prints that a transfer was served, with the heads of its sectors.
    fn print_each(&mut self, heads: &[u8]) -> Result<(), AllocError>
        ensures { OnOk result (Prints self.old self.new (given_text heads.now ∷ [])) }
    {
        if heads.is_empty() {
            return self.print_ok();
        }
        self.last.clear();
        self.last.extend_from_slice(b"ok")?;
        append_heads(&mut self.last, heads)?;
        self.print_last()?;
        Ok(())
    }

    /// Prints the status and the error of a command that failed.
    ///
    /// # Errors
    ///
    /// Want of memory: then the line may be pending in part.
    pub fn print_failure(&mut self, status: u8, error: u8) -> Result<(), AllocError>
        ensures { OnOk result (Prints self.old self.new (command_failure_text status error ∷ [])) }
    {
        self.last.clear();
        self.last.extend_from_slice(b"fail ")?;
        append_hex(&mut self.last, &[status])?;
        self.last.push(b' ')?;
        append_hex(&mut self.last, &[error])?;
        self.print_last()?;
        Ok(())
    }

    /// Prints the audit line of a denial.
    ///
    /// # Errors
    ///
    /// Want of memory: then the line may be pending in part.
    pub fn print_audit(&mut self, line: &AuditLine) -> Result<(), AllocError>
        ensures { OnOk result (Prints self.old self.new (audit_text line.now ∷ [])) }
    {
        let text = line_bytes(self.alloc, line)?;
        self.last.clear();
        self.last.extend_from_slice(b"audit ")?;
        self.last.extend_from_slice(&text)?;
        self.print_last()?;
        Ok(())
    }

    /// Prints that a step was refused, with the number of the reason.
    ///
    /// # Errors
    ///
    /// Want of memory: then the line may be pending in part.
    pub fn print_refused(&mut self, number: u8) -> Result<(), AllocError>
        ensures { OnOk result (Prints self.old self.new (refused_text number ∷ [])) }
    {
        let text = format!(in self.alloc; "refused {number}")?;
        self.last.clear();
        self.last.extend_from_slice(text.as_bytes())?;
        self.print_last()?;
        Ok(())
    }

    /// Prints that a reset stopped a command.
    ///
    /// # Errors
    ///
    /// Want of memory: then the line may be pending in part.
    pub fn print_reset(&mut self) -> Result<(), AllocError>
        ensures { OnOk result (Prints self.old self.new (reset_text ∷ [])) }
    {
        self.last.clear();
        self.last.extend_from_slice(b"reset")?;
        self.print_last()?;
        Ok(())
    }

    /// Writes what is pending. Nothing is pending then, also where the writer failed: what it took of it
    /// is not written once more.
    ///
    /// # Errors
    ///
    /// What the writer answers.
    pub fn hand_on<W: Write>(&mut self, output: &mut W) -> io::Result<()>
        ensures written { OnOk result
            (Appends (W.contents output.old) (W.contents output.new) self.old.pending.items) }
        ensures cleared { self.new.pending.items ≡ [] }
        ensures last { self.new.last ≡ self.old.last }
    {
        if self.pending.is_empty() {
            return Ok(());
        }
        let written = write_whole(output, &self.pending);
        self.pending.clear();
        written
    }
}

/// Writes bytes, and has the writer pass them on.
///
/// # Errors
///
/// What the writer answers.
pub fn write_whole<W: Write>(output: &mut W, bytes: &[u8]) -> io::Result<()>
    ensures { OnOk result (Appends (W.contents output.old) (W.contents output.new) bytes.now) }
{
    output.write_all(bytes)?;
    output.flush()
}

/// Appends the first four bytes of each sector, in hex behind a blank.
#[tactic(auto, using(crate::proofs::Sectors::goes_on))]
fn append_sectors(line: &mut Vec<u8>, sectors: &[u8]) -> Result<(), AllocError>
    ensures { OnOk result (line.new.items ≡ line.old.items ++ sectors_text sectors.now) }
{
    for sector in 0..sectors.len() / SECTOR_SIZE {
        append_four(
            line,
            &sectors[SECTOR_SIZE * sector..SECTOR_SIZE * sector + 4],
        )?;
    }
    Ok(())
}

/// Appends the heads of sectors, each in hex behind a blank.
#[tactic(auto, using(crate::proofs::Heads::goes_on))]
fn append_heads(line: &mut Vec<u8>, heads: &[u8]) -> Result<(), AllocError>
    ensures { OnOk result (line.new.items ≡ line.old.items ++ heads_text heads.now) }
{
    for head in 0..heads.len() / HEAD_SIZE {
        append_four(line, &heads[HEAD_SIZE * head..HEAD_SIZE * head + HEAD_SIZE])?;
    }
    Ok(())
}

/// Appends a blank and four bytes in hex.
#[inline(always)]
fn append_four(line: &mut Vec<u8>, bytes: &[u8]) -> Result<(), AllocError>
    requires { length bytes.now ≡ 4 }
    ensures { OnOk result (line.new.items ≡ line.old.items ++ 32 ∷ encode_lower bytes.now) }
{
    let mut text = [b' '; 9];
    spell_hex(bytes, &mut text[1..]);
    line.extend_from_slice(&text)?;
    Ok(())
}
