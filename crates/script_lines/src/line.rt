//! Lines of a script, as they are written.

ghost use Rattle.std.specs.Prelude.{◌≡◌};
ghost use Rattle.script_lines.specs.Lines.{expected_text};

use crate::fault::LineFault;
use crate::field::Field;
use crate::hex_text::{Hex, byte_in};
use crate::number::number_in_front;
use crate::verb::{Verb, verb_of};
use crate::words::{Words, behind_word, skip_blanks};
use compacket::{ComId, Session};
use fis::{Lba, Tag};
use locking::RangeRow;

/// A queued transfer, with its count as the field writes it.
#[derive(Clone, Copy, Debug, PartialEq, Eq)]
pub struct Transfer {
    pub client: u32,
    pub tag: Tag,
    pub lba: Lba,
    pub count: u16,
}

/// A transfer that is not queued, with its count as the field writes it.
#[derive(Clone, Copy, Debug, PartialEq, Eq)]
pub struct DmaTransfer {
    pub client: u32,
    pub lba: Lba,
    pub count: u16,
}

/// What is turned off and on.
#[derive(Clone, Copy, Debug, PartialEq, Eq)]
pub enum Reset {
    Power,
    Hardware,
}

/// A line of a script. The bytes that it writes in hex stay where it stands.
#[derive(Drop)]
pub enum Line<'a> {
    /// The cells of a range.
    Range(RangeRow),
    /// A queued read.
    Read(Transfer),
    /// A queued write, whose bytes are all the same.
    Write(Transfer, u8),
    /// A read that is not queued.
    ReadDma(DmaTransfer),
    /// A write that is not queued, whose bytes are all the same.
    WriteDma(DmaTransfer, u8),
    /// Tokens that are sent to a ComID, in the session of these numbers.
    Call {
        client: u32,
        com_id: ComId,
        session: Session,
        tokens: Hex<'a>,
    },
    /// A ComPacket that is sent to a ComID, as it stands.
    Send {
        client: u32,
        com_id: ComId,
        packet: Hex<'a>,
    },
    /// So many blocks that are received from a ComID.
    Receive {
        client: u32,
        com_id: ComId,
        blocks: u16,
    },
    /// So many blocks that are received by a security protocol.
    SecurityIn {
        client: u32,
        protocol: u8,
        sp_specific: u16,
        blocks: u16,
    },
    /// Bytes that are sent by a security protocol.
    SecurityOut {
        client: u32,
        protocol: u8,
        sp_specific: u16,
        payload: Hex<'a>,
    },
    /// What the drive says that it is.
    Identify {
        client: u32,
    },
    /// The log page of the last queued error.
    Log {
        client: u32,
    },
    Reset {
        client: u32,
        kind: Reset,
    },
    /// The command that resets the drive.
    TperReset {
        client: u32,
    },
    /// What the last printed line is to be: `expected_text` gives it.
    Expect,
}

impl<'a> Words<'a> {
    ghost use Rattle.std.specs.Prelude.{◌≡◌, ◌<◌, ◌≤◌, length, IfOk, OnOk};
    ghost use Rattle.script_lines.specs.Verbs.{verb_of};
    ghost use Rattle.script_lines.specs.Words.{first_word, after_word, after_words};
    ghost use Rattle.script_lines.specs.Fields.{most_of, number_of_field, flag_in, byte_of_field, hex_in};
    ghost use Rattle.script_lines.specs.Groups.{range_in, transfer_in, dma_transfer_in, session_in, reset_in};
    ghost use Rattle.script_lines.specs.Lines.{HasBytesWithinLimits, ended, verb_line, range_line, read_line, write_line, read_dma_line, write_dma_line, call_line, send_line, receive_line, security_in_line, security_out_line, identify_line, log_line, reset_line, tper_reset_line};

    /// The next word as a verb. Of the most usual ones the length is known, and no blank is searched.
    #[inline(always)]
    fn verb(&mut self) -> Option<Verb>
        ensures verb { result ≡ verb_of (first_word self.old.rest.now) }
        ensures rest { self.new.rest.now ≡ after_word self.old.rest.now }
    {
        if let Some(rest) = behind_word(self.rest, b"read") {
            self.rest = rest;
            Some(Verb::Read)
        } else if let Some(rest) = behind_word(self.rest, b"write") {
            self.rest = rest;
            Some(Verb::Write)
        } else {
            verb_of(self.next_word())
        }
    }

    /// The next word as the number of a field.
    pub(crate) fn number(&mut self, field: Field) -> Result<u64, LineFault>
        ensures value { result ≡ number_of_field field (first_word self.old.rest.now) }
        ensures most { IfOk result (λ n. n ≤ most_of field) }
        ensures rest { OnOk result (self.new.rest.now ≡ after_word self.old.rest.now) }
    {
        let text = skip_blanks(self.rest);
        match number_in_front(field.most(), text) {
            Some((number, len)) => {
                self.rest = &text[len..];
                Ok(number)
            }
            None if text.is_empty() => Err(LineFault::Missing(field)),
            None => Err(LineFault::Wrong(field)),
        }
    }

    /// The next word as a flag, 0 or 1.
    fn flag(&mut self, field: Field) -> Result<bool, LineFault>
        ensures value { result ≡ flag_in field (first_word self.old.rest.now) }
        ensures rest { OnOk result (self.new.rest.now ≡ after_word self.old.rest.now) }
    {
        Ok(self.number(field)? == 1)
    }

    /// The next word as a byte of two hex digits.
    pub(crate) fn byte(&mut self, field: Field) -> Result<u8, LineFault>
        ensures value { result ≡ byte_of_field field (first_word self.old.rest.now) }
        ensures rest { self.new.rest.now ≡ after_word self.old.rest.now }
    {
        let word = self.next_word();
        if let Some(byte) = byte_in(word) {
            return Ok(byte);
        }
        if word.is_empty() {
            return Err(LineFault::Missing(field));
        }
        let mut byte = [0];
        match hex::decode_to_slice(word, &mut byte) {
            Ok(()) => Ok(byte[0]),
            Err(_) => Err(LineFault::Wrong(field)),
        }
    }

    /// The next word as the bytes that it writes in hex. A text of digits alone is a word, and is not searched for a blank.
    pub(crate) fn hex(&mut self, field: Field) -> Result<Hex<'a>, LineFault>
        ensures value { result ≡ hex_in field (first_word self.old.rest.now) }
        ensures some { IfOk result (λ bytes. 0 < length bytes) }
        ensures most { IfOk result (λ bytes. length bytes ≤ most_of field) }
        ensures rest { self.new.rest.now ≡ after_word self.old.rest.now }
    {
        let text = skip_blanks(self.rest);
        match Hex::up_to(field.most() as usize, text) {
            Some(bytes) if !text.is_empty() => {
                self.rest = &[];
                Ok(bytes)
            }
            _ => self.hex_word(field),
        }
    }

    /// The same, of a word behind which there may be more.
    fn hex_word(&mut self, field: Field) -> Result<Hex<'a>, LineFault>
        ensures value { result ≡ hex_in field (first_word self.old.rest.now) }
        ensures some { IfOk result (λ bytes. 0 < length bytes) }
        ensures most { IfOk result (λ bytes. length bytes ≤ most_of field) }
        ensures rest { self.new.rest.now ≡ after_word self.old.rest.now }
    {
        let word = self.next_word();
        if word.is_empty() {
            return Err(LineFault::Missing(field));
        }
        Hex::up_to(field.most() as usize, word).ok_or(LineFault::Wrong(field))
    }

    pub(crate) fn range(&mut self) -> Result<RangeRow, LineFault>
        ensures value { result ≡ range_in self.old.rest.now }
        ensures rest { OnOk result (self.new.rest.now ≡ after_words 7 self.old.rest.now) }
    {
        let range = self.number(Field::Range)? as u8;
        let start = self.number(Field::Start)?;
        let length = self.number(Field::Length)?;
        let read_enabled = self.flag(Field::ReadLockEnabled)?;
        let write_enabled = self.flag(Field::WriteLockEnabled)?;
        let read_locked = self.flag(Field::ReadLocked)?;
        let write_locked = self.flag(Field::WriteLocked)?;
        Ok(RangeRow {
            range,
            start,
            length,
            read_enabled,
            write_enabled,
            read_locked,
            write_locked,
        })
    }

    #[inline(always)]
    fn transfer(&mut self) -> Result<Transfer, LineFault>
        ensures value { result ≡ transfer_in self.old.rest.now }
        ensures rest { OnOk result (self.new.rest.now ≡ after_words 4 self.old.rest.now) }
    {
        let client = self.number(Field::Client)? as u32;
        let tag = Tag::new(self.number(Field::Tag)? as u8).unwrap();
        let lba = Lba::new(self.number(Field::Address)?).unwrap();
        let count = self.number(Field::Count)? as u16;
        Ok(Transfer {
            client,
            tag,
            lba,
            count,
        })
    }

    fn dma_transfer(&mut self) -> Result<DmaTransfer, LineFault>
        ensures value { result ≡ dma_transfer_in self.old.rest.now }
        ensures rest { OnOk result (self.new.rest.now ≡ after_words 3 self.old.rest.now) }
    {
        let client = self.number(Field::Client)? as u32;
        let lba = Lba::new(self.number(Field::DmaAddress)?).unwrap();
        let count = self.number(Field::DmaCount)? as u16;
        Ok(DmaTransfer { client, lba, count })
    }

    fn session(&mut self) -> Result<Session, LineFault>
        ensures value { result ≡ session_in self.old.rest.now }
        ensures rest { OnOk result (self.new.rest.now ≡ after_words 2 self.old.rest.now) }
    {
        let tsn = self.number(Field::TperSession)? as u32;
        let hsn = self.number(Field::HostSession)? as u32;
        Ok(Session { tsn, hsn })
    }

    pub(crate) fn reset(&mut self) -> Result<Reset, LineFault>
        ensures value { result ≡ reset_in (first_word self.old.rest.now) }
        ensures rest { OnOk result (self.new.rest.now ≡ after_word self.old.rest.now) }
    {
        if self.flag(Field::ResetKind)? {
            Ok(Reset::Hardware)
        } else {
            Ok(Reset::Power)
        }
    }

    /// The line, where no word is left.
    fn ended(&mut self, line: Line<'a>) -> Result<Line<'a>, LineFault>
        requires { HasBytesWithinLimits line }
        ensures exact { result ≡ ended self.old.rest.now line.entry }
        ensures fits { IfOk result HasBytesWithinLimits }
    {
        if self.rest.is_empty() || self.next_word().is_empty() {
            Ok(line)
        } else {
            Err(LineFault::Extra)
        }
    }

    fn range_line(&mut self) -> Result<Line<'a>, LineFault>
        ensures exact { result ≡ range_line self.old.rest.now }
        ensures fits { IfOk result HasBytesWithinLimits }
    {
        let row = self.range()?;
        self.ended(Line::Range(row))
    }

    fn read_line(&mut self) -> Result<Line<'a>, LineFault>
        ensures exact { result ≡ read_line self.old.rest.now }
        ensures fits { IfOk result HasBytesWithinLimits }
    {
        let transfer = self.transfer()?;
        self.ended(Line::Read(transfer))
    }

    fn write_line(&mut self) -> Result<Line<'a>, LineFault>
        ensures exact { result ≡ write_line self.old.rest.now }
        ensures fits { IfOk result HasBytesWithinLimits }
    {
        let transfer = self.transfer()?;
        let byte = self.byte(Field::Byte)?;
        self.ended(Line::Write(transfer, byte))
    }

    fn read_dma_line(&mut self) -> Result<Line<'a>, LineFault>
        ensures exact { result ≡ read_dma_line self.old.rest.now }
        ensures fits { IfOk result HasBytesWithinLimits }
    {
        let transfer = self.dma_transfer()?;
        self.ended(Line::ReadDma(transfer))
    }

    fn write_dma_line(&mut self) -> Result<Line<'a>, LineFault>
        ensures exact { result ≡ write_dma_line self.old.rest.now }
        ensures fits { IfOk result HasBytesWithinLimits }
    {
        let transfer = self.dma_transfer()?;
        let byte = self.byte(Field::DmaByte)?;
        self.ended(Line::WriteDma(transfer, byte))
    }

    fn call_line(&mut self) -> Result<Line<'a>, LineFault>
        ensures exact { result ≡ call_line self.old.rest.now }
        ensures fits { IfOk result HasBytesWithinLimits }
    {
        let client = self.number(Field::Client)? as u32;
        let com_id = self.number(Field::ComId)? as u16;
        let session = self.session()?;
        let tokens = self.hex(Field::Tokens)?;
        self.ended(Line::Call {
            client,
            com_id,
            session,
            tokens,
        })
    }

    fn send_line(&mut self) -> Result<Line<'a>, LineFault>
        ensures exact { result ≡ send_line self.old.rest.now }
        ensures fits { IfOk result HasBytesWithinLimits }
    {
        let client = self.number(Field::Client)? as u32;
        let com_id = self.number(Field::ComId)? as u16;
        let packet = self.hex(Field::ComPacket)?;
        self.ended(Line::Send {
            client,
            com_id,
            packet,
        })
    }

    fn receive_line(&mut self) -> Result<Line<'a>, LineFault>
        ensures exact { result ≡ receive_line self.old.rest.now }
        ensures fits { IfOk result HasBytesWithinLimits }
    {
        let client = self.number(Field::Client)? as u32;
        let com_id = self.number(Field::ComId)? as u16;
        let blocks = self.number(Field::Blocks)? as u16;
        self.ended(Line::Receive {
            client,
            com_id,
            blocks,
        })
    }

    fn security_in_line(&mut self) -> Result<Line<'a>, LineFault>
        ensures exact { result ≡ security_in_line self.old.rest.now }
        ensures fits { IfOk result HasBytesWithinLimits }
    {
        let client = self.number(Field::Client)? as u32;
        let protocol = self.number(Field::Protocol)? as u8;
        let sp_specific = self.number(Field::SpSpecific)? as u16;
        let blocks = self.number(Field::SecurityBlocks)? as u16;
        self.ended(Line::SecurityIn {
            client,
            protocol,
            sp_specific,
            blocks,
        })
    }

    fn security_out_line(&mut self) -> Result<Line<'a>, LineFault>
        ensures exact { result ≡ security_out_line self.old.rest.now }
        ensures fits { IfOk result HasBytesWithinLimits }
    {
        let client = self.number(Field::Client)? as u32;
        let protocol = self.number(Field::Protocol)? as u8;
        let sp_specific = self.number(Field::SpSpecific)? as u16;
        let payload = self.hex(Field::SecurityBytes)?;
        self.ended(Line::SecurityOut {
            client,
            protocol,
            sp_specific,
            payload,
        })
    }

    fn identify_line(&mut self) -> Result<Line<'a>, LineFault>
        ensures exact { result ≡ identify_line self.old.rest.now }
        ensures fits { IfOk result HasBytesWithinLimits }
    {
        let client = self.number(Field::Client)? as u32;
        self.ended(Line::Identify { client })
    }

    fn log_line(&mut self) -> Result<Line<'a>, LineFault>
        ensures exact { result ≡ log_line self.old.rest.now }
        ensures fits { IfOk result HasBytesWithinLimits }
    {
        let client = self.number(Field::Client)? as u32;
        self.ended(Line::Log { client })
    }

    fn reset_line(&mut self) -> Result<Line<'a>, LineFault>
        ensures exact { result ≡ reset_line self.old.rest.now }
        ensures fits { IfOk result HasBytesWithinLimits }
    {
        let client = self.number(Field::Client)? as u32;
        let kind = self.reset()?;
        self.ended(Line::Reset { client, kind })
    }

    fn tper_reset_line(&mut self) -> Result<Line<'a>, LineFault>
        ensures exact { result ≡ tper_reset_line self.old.rest.now }
        ensures fits { IfOk result HasBytesWithinLimits }
    {
        let client = self.number(Field::Client)? as u32;
        self.ended(Line::TperReset { client })
    }

    /// What stands behind the verb.
    #[inline(always)]
    fn line(&mut self, verb: Verb) -> Result<Line<'a>, LineFault>
        ensures exact { result ≡ verb_line verb self.old.rest.now }
        ensures fits { IfOk result HasBytesWithinLimits }
    {
        match verb {
            Verb::Range => self.range_line(),
            Verb::Read => self.read_line(),
            Verb::Write => self.write_line(),
            Verb::ReadDma => self.read_dma_line(),
            Verb::WriteDma => self.write_dma_line(),
            Verb::Call => self.call_line(),
            Verb::Send => self.send_line(),
            Verb::Receive => self.receive_line(),
            Verb::SecurityIn => self.security_in_line(),
            Verb::SecurityOut => self.security_out_line(),
            Verb::Identify => self.identify_line(),
            Verb::Log => self.log_line(),
            Verb::Reset => self.reset_line(),
            Verb::TperReset => self.tper_reset_line(),
            Verb::Expect => Ok(Line::Expect),
        }
    }
}

impl<'a> Line<'a> {
    ghost use Rattle.std.specs.Prelude.{◌≡◌, IfOk};
    ghost use Rattle.script_lines.specs.Lines.{line_said, HasBytesWithinLimits};

    /// Reads a line, which has no line feed.
    ///
    /// # Errors
    ///
    /// The first thing that is wrong with the line.
    #[inline(always)]
    pub fn parse(text: &'a [u8]) -> Result<Line<'a>, LineFault>
        ensures exact { result ≡ line_said text.now }
        ensures fits { IfOk result HasBytesWithinLimits }
    {
        let mut words = Words::new(text);
        let verb = words.verb().ok_or(LineFault::UnknownWord)?;
        words.line(verb)
    }
}

/// The text that an `expect` line asks for: all that stands behind the word and one blank.
pub fn expected_text(text: &[u8]) -> &[u8]
    ensures { result.now ≡ expected_text text.now }
{
    let mut words = Words::new(text);
    words.next_word();
    words.text()
}
