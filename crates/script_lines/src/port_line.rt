//! Lines of a port script, as they are written.

ghost use Rattle.std.specs.Prelude.{◌≡◌};
ghost use Rattle.script_lines.specs.PortLines.{is_port_line};

use crate::fault::LineFault;
use crate::field::Field;
use crate::hex_text::Hex;
use crate::line::Reset;
use crate::verb::{PortVerb, Verb, port_verb_of, verb_of};
use crate::words::{Words, behind_word};
use compacket::{ComId, Session};
use fis::{Lba, Tag};
use locking::RangeRow;

/// What a `put` line asks of the drive. The bytes that it writes in hex stay where it stands.
#[derive(Drop)]
pub enum PutRequest<'a> {
    /// A queued read.
    Read {
        lba: Lba,
        count: u16,
    },
    /// A queued write, whose bytes are all the same.
    Write {
        lba: Lba,
        count: u16,
        byte: u8,
    },
    /// A read that is not queued.
    ReadDma {
        lba: Lba,
        count: u16,
    },
    /// A write that is not queued, whose bytes are all the same.
    WriteDma {
        lba: Lba,
        count: u16,
        byte: u8,
    },
    /// Tokens that are sent to a ComID, in the session of these numbers.
    Call {
        com_id: ComId,
        session: Session,
        tokens: Hex<'a>,
    },
    /// A ComPacket that is sent to a ComID, as it stands.
    Send {
        com_id: ComId,
        packet: Hex<'a>,
    },
    /// So many blocks that are received from a ComID.
    Receive {
        com_id: ComId,
        blocks: u16,
    },
    /// So many blocks that are received by a security protocol.
    SecurityIn {
        protocol: u8,
        sp_specific: u16,
        blocks: u16,
    },
    /// Bytes that are sent by a security protocol.
    SecurityOut {
        protocol: u8,
        sp_specific: u16,
        payload: Hex<'a>,
    },
    /// What the drive says that it is.
    Identify,
}

/// A line of a port script, behind the first.
#[derive(Drop)]
pub enum PortLine<'a> {
    /// The cells of a range.
    Range(RangeRow),
    /// A client puts a request in a slot.
    Put {
        client: u32,
        tag: Tag,
        request: PutRequest<'a>,
    },
    Issue {
        tag: Tag,
    },
    Accept {
        tag: Tag,
    },
    Complete {
        tag: Tag,
    },
    Recover,
    Reset {
        client: u32,
        kind: Reset,
    },
    /// A client takes its answer.
    Take {
        client: u32,
        tag: Tag,
    },
    /// What the last printed line is to be: `expected_text` gives it.
    Expect,
}

impl<'a> Words<'a> {
    ghost use Rattle.std.specs.Prelude.{◌≡◌, IfOk, OnOk};
    ghost use Rattle.script_lines.specs.Words.{first_word, after_word, after_words};
    ghost use Rattle.script_lines.specs.PortLines.{port_verb_of, none_left, slot_in, transfer_words, FitsPut, FitsPort, read_words, write_words, read_dma_words, write_dma_words, call_words, send_words, receive_words, security_in_words, security_out_words, identify_words, request_words, range_words, put_words, issue_words, accept_words, complete_words, recover_words, reset_words, take_words, port_verb_words};

    /// The next word as a verb. Of the most usual ones the length is known, and no blank is searched.
    #[inline(always)]
    fn port_verb(&mut self) -> Option<PortVerb>
        ensures verb { result ≡ port_verb_of (first_word self.old.rest.now) }
        ensures rest { self.new.rest.now ≡ after_word self.old.rest.now }
    {
        if let Some(rest) = behind_word(self.rest, b"put") {
            self.rest = rest;
            Some(PortVerb::Put)
        } else if let Some(rest) = behind_word(self.rest, b"issue") {
            self.rest = rest;
            Some(PortVerb::Issue)
        } else if let Some(rest) = behind_word(self.rest, b"accept") {
            self.rest = rest;
            Some(PortVerb::Accept)
        } else if let Some(rest) = behind_word(self.rest, b"complete") {
            self.rest = rest;
            Some(PortVerb::Complete)
        } else if let Some(rest) = behind_word(self.rest, b"take") {
            self.rest = rest;
            Some(PortVerb::Take)
        } else {
            port_verb_of(self.next_word())
        }
    }

    /// No word is left.
    fn end(&mut self) -> Result<(), LineFault>
        ensures { result ≡ none_left self.old.rest.now }
    {
        if self.rest.is_empty() || self.next_word().is_empty() {
            Ok(())
        } else {
            Err(LineFault::Extra)
        }
    }

    /// The tag of a slot, as the first word behind the verb.
    fn slot(&mut self) -> Result<Tag, LineFault>
        ensures value { result ≡ slot_in self.old.rest.now }
        ensures rest { OnOk result (self.new.rest.now ≡ after_word self.old.rest.now) }
    {
        let tag = self.number(Field::Slot)? as u8;
        Ok(Tag::new(tag).unwrap())
    }

    /// Where a transfer begins, and its count.
    #[inline(always)]
    fn transfer_words(&mut self) -> Result<(Lba, u16), LineFault>
        ensures value { result ≡ transfer_words self.old.rest.now }
        ensures rest { OnOk result (self.new.rest.now ≡ after_words 2 self.old.rest.now) }
    {
        let lba = Lba::new(self.number(Field::PutAddress)?).unwrap();
        let count = self.number(Field::PutCount)? as u16;
        Ok((lba, count))
    }

    fn read_words(&mut self) -> Result<PutRequest<'a>, LineFault>
        ensures exact { result ≡ read_words self.old.rest.now }
        ensures fits { IfOk result FitsPut }
    {
        let (lba, count) = self.transfer_words()?;
        self.end()?;
        Ok(PutRequest::Read { lba, count })
    }

    fn write_words(&mut self) -> Result<PutRequest<'a>, LineFault>
        ensures exact { result ≡ write_words self.old.rest.now }
        ensures fits { IfOk result FitsPut }
    {
        let (lba, count) = self.transfer_words()?;
        let byte = self.byte(Field::PutByte)?;
        self.end()?;
        Ok(PutRequest::Write { lba, count, byte })
    }

    fn read_dma_words(&mut self) -> Result<PutRequest<'a>, LineFault>
        ensures exact { result ≡ read_dma_words self.old.rest.now }
        ensures fits { IfOk result FitsPut }
    {
        let (lba, count) = self.transfer_words()?;
        self.end()?;
        Ok(PutRequest::ReadDma { lba, count })
    }

    fn write_dma_words(&mut self) -> Result<PutRequest<'a>, LineFault>
        ensures exact { result ≡ write_dma_words self.old.rest.now }
        ensures fits { IfOk result FitsPut }
    {
        let (lba, count) = self.transfer_words()?;
        let byte = self.byte(Field::PutByte)?;
        self.end()?;
        Ok(PutRequest::WriteDma { lba, count, byte })
    }

    fn call_words(&mut self) -> Result<PutRequest<'a>, LineFault>
        ensures exact { result ≡ call_words self.old.rest.now }
        ensures fits { IfOk result FitsPut }
    {
        let com_id = self.number(Field::PutComId)? as u16;
        let tsn = self.number(Field::PutTperSession)? as u32;
        let hsn = self.number(Field::PutHostSession)? as u32;
        let tokens = self.hex(Field::PutTokens)?;
        self.end()?;
        Ok(PutRequest::Call {
            com_id,
            session: Session { tsn, hsn },
            tokens,
        })
    }

    fn send_words(&mut self) -> Result<PutRequest<'a>, LineFault>
        ensures exact { result ≡ send_words self.old.rest.now }
        ensures fits { IfOk result FitsPut }
    {
        let com_id = self.number(Field::PutComId)? as u16;
        let packet = self.hex(Field::PutComPacket)?;
        self.end()?;
        Ok(PutRequest::Send { com_id, packet })
    }

    fn receive_words(&mut self) -> Result<PutRequest<'a>, LineFault>
        ensures exact { result ≡ receive_words self.old.rest.now }
        ensures fits { IfOk result FitsPut }
    {
        let com_id = self.number(Field::PutComId)? as u16;
        let blocks = self.number(Field::PutBlocks)? as u16;
        self.end()?;
        Ok(PutRequest::Receive { com_id, blocks })
    }

    fn security_in_words(&mut self) -> Result<PutRequest<'a>, LineFault>
        ensures exact { result ≡ security_in_words self.old.rest.now }
        ensures fits { IfOk result FitsPut }
    {
        let protocol = self.number(Field::PutProtocol)? as u8;
        let sp_specific = self.number(Field::PutSpSpecific)? as u16;
        let blocks = self.number(Field::PutSecurityBlocks)? as u16;
        self.end()?;
        Ok(PutRequest::SecurityIn {
            protocol,
            sp_specific,
            blocks,
        })
    }

    fn security_out_words(&mut self) -> Result<PutRequest<'a>, LineFault>
        ensures exact { result ≡ security_out_words self.old.rest.now }
        ensures fits { IfOk result FitsPut }
    {
        let protocol = self.number(Field::PutProtocol)? as u8;
        let sp_specific = self.number(Field::PutSpSpecific)? as u16;
        let payload = self.hex(Field::PutSecurityBytes)?;
        self.end()?;
        Ok(PutRequest::SecurityOut {
            protocol,
            sp_specific,
            payload,
        })
    }

    fn identify_words(&mut self) -> Result<PutRequest<'a>, LineFault>
        ensures exact { result ≡ identify_words self.old.rest.now }
        ensures fits { IfOk result FitsPut }
    {
        self.end()?;
        Ok(PutRequest::Identify)
    }

    /// What is asked, by the word that says which request it is.
    fn request(&mut self, verb: Verb) -> Result<PutRequest<'a>, LineFault>
        ensures exact { result ≡ request_words verb self.old.rest.now }
        ensures fits { IfOk result FitsPut }
    {
        match verb {
            Verb::Read => self.read_words(),
            Verb::Write => self.write_words(),
            Verb::ReadDma => self.read_dma_words(),
            Verb::WriteDma => self.write_dma_words(),
            Verb::Call => self.call_words(),
            Verb::Send => self.send_words(),
            Verb::Receive => self.receive_words(),
            Verb::SecurityIn => self.security_in_words(),
            Verb::SecurityOut => self.security_out_words(),
            Verb::Identify => self.identify_words(),
            Verb::Range | Verb::Log | Verb::Reset | Verb::TperReset | Verb::Expect => {
                Err(LineFault::UnknownRequest)
            }
        }
    }

    fn range_words(&mut self) -> Result<PortLine<'a>, LineFault>
        ensures exact { result ≡ range_words self.old.rest.now }
        ensures fits { IfOk result FitsPort }
    {
        let row = self.range()?;
        self.end()?;
        Ok(PortLine::Range(row))
    }

    fn put_words(&mut self) -> Result<PortLine<'a>, LineFault>
        ensures exact { result ≡ put_words self.old.rest.now }
        ensures fits { IfOk result FitsPort }
    {
        let client = self.number(Field::Client)? as u32;
        let tag = Tag::new(self.number(Field::Tag)? as u8).unwrap();
        let verb = verb_of(self.next_word()).ok_or(LineFault::UnknownRequest)?;
        let request = self.request(verb)?;
        Ok(PortLine::Put {
            client,
            tag,
            request,
        })
    }

    fn issue_words(&mut self) -> Result<PortLine<'a>, LineFault>
        ensures exact { result ≡ issue_words self.old.rest.now }
        ensures fits { IfOk result FitsPort }
    {
        let tag = self.slot()?;
        self.end()?;
        Ok(PortLine::Issue { tag })
    }

    fn accept_words(&mut self) -> Result<PortLine<'a>, LineFault>
        ensures exact { result ≡ accept_words self.old.rest.now }
        ensures fits { IfOk result FitsPort }
    {
        let tag = self.slot()?;
        self.end()?;
        Ok(PortLine::Accept { tag })
    }

    fn complete_words(&mut self) -> Result<PortLine<'a>, LineFault>
        ensures exact { result ≡ complete_words self.old.rest.now }
        ensures fits { IfOk result FitsPort }
    {
        let tag = self.slot()?;
        self.end()?;
        Ok(PortLine::Complete { tag })
    }

    fn recover_words(&mut self) -> Result<PortLine<'a>, LineFault>
        ensures exact { result ≡ recover_words self.old.rest.now }
        ensures fits { IfOk result FitsPort }
    {
        self.end()?;
        Ok(PortLine::Recover)
    }

    fn reset_words(&mut self) -> Result<PortLine<'a>, LineFault>
        ensures exact { result ≡ reset_words self.old.rest.now }
        ensures fits { IfOk result FitsPort }
    {
        let client = self.number(Field::Client)? as u32;
        let kind = self.reset()?;
        self.end()?;
        Ok(PortLine::Reset { client, kind })
    }

    fn take_words(&mut self) -> Result<PortLine<'a>, LineFault>
        ensures exact { result ≡ take_words self.old.rest.now }
        ensures fits { IfOk result FitsPort }
    {
        let client = self.number(Field::Client)? as u32;
        let tag = Tag::new(self.number(Field::Tag)? as u8).unwrap();
        self.end()?;
        Ok(PortLine::Take { client, tag })
    }

    /// What stands behind the verb.
    #[inline(always)]
    fn port_line(&mut self, verb: PortVerb) -> Result<PortLine<'a>, LineFault>
        ensures exact { result ≡ port_verb_words verb self.old.rest.now }
        ensures fits { IfOk result FitsPort }
    {
        match verb {
            PortVerb::Range => self.range_words(),
            PortVerb::Put => self.put_words(),
            PortVerb::Issue => self.issue_words(),
            PortVerb::Accept => self.accept_words(),
            PortVerb::Complete => self.complete_words(),
            PortVerb::Recover => self.recover_words(),
            PortVerb::Reset => self.reset_words(),
            PortVerb::Take => self.take_words(),
            PortVerb::Expect => Ok(PortLine::Expect),
        }
    }
}

impl<'a> PortLine<'a> {
    ghost use Rattle.std.specs.Prelude.{◌≡◌, IfOk};
    ghost use Rattle.script_lines.specs.PortLines.{port_line_of, FitsPort};

    /// Reads a line of a port script, which has no line feed.
    ///
    /// # Errors
    ///
    /// The first thing that is wrong with the line.
    #[inline(always)]
    pub fn parse(text: &'a [u8]) -> Result<PortLine<'a>, LineFault>
        ensures exact { result ≡ port_line_of text.now }
        ensures fits { IfOk result FitsPort }
    {
        let mut words = Words::new(text);
        let verb = words.port_verb().ok_or(LineFault::UnknownStep)?;
        words.port_line(verb)
    }
}

/// Whether a line says that what follows is a port script: the word `port` alone.
pub fn is_port_line(text: &[u8]) -> bool
    ensures { result ≡ is_port_line text.now }
{
    let mut words = Words::new(text);
    words.next_word() == b"port".as_slice() && words.next_word().is_empty()
}
