//! Sessions with two numbers: the one that the drive gave it, and the model's.

ghost use Rattle.std.specs.Prelude.{◌≡◌, decimal, IfOk};
ghost use Rattle.script_lines.specs.Numbers.{largest, number_up_to};
ghost use Rattle.script_lines.specs.Words.{nth_word, after_word, after_words};
ghost use Rattle.judged.specs.SessionPairs.{named_by_drive, packet_place, number_place, number_sent, packet_with, with_word, with_number, with_packet, number_given};

use crate::answers::behind;
use crate::blanks::{behind_words, front};
use crate::entry::Entry;
use crate::freedom::Freedom;
use crate::received::{Received, packet_told, received_line};
use basics::{Bytes, append_decimal, append_hex};
use compacket::Session;
use runs::explored::Lines;
use script_lines::{Words, number_up_to};
use std::alloc::{AllocError, Global};
use std::marker::Model;

/// Where the digits of the TPer's number begin in those of a ComPacket (TCG Core 2.01, section 3.2.3).
const TSN_PLACE: usize = 40;

/// Where they end.
const TSN_END: usize = 48;

/// The two numbers of a session.
#[derive(Clone, Copy, Debug, PartialEq, Eq)]
pub struct SessionPair {
    /// The one that the drive gave it.
    pub drive: u32,
    /// The one that the model gave it.
    pub model: u32,
}

/// What was received, where its packet names its session by this number.
fn named_by_drive(number: u32, received: Received) -> Received
    ensures { result ≡ named_by_drive number received }
{
    let session = Session {
        tsn: number,
        hsn: received.session.hsn,
    };
    Received {
        session,
        ..received
    }
}

/// Which word of a line, from 0, is a ComPacket that is sent.
fn packet_place(line: &[u8]) -> Option<usize>
    ensures { result ≡ packet_place line.now }
{
    let mut words = Words::new(line);
    let verb = words.next_word();
    words.next_word();
    let protocol = words.next_word();
    let asked = words.next_word();
    let asked_protocol = words.next_word();
    if verb == b"send".as_slice() {
        Some(3)
    } else if verb == b"put".as_slice() && asked == b"send".as_slice() {
        Some(5)
    } else if verb == b"secout".as_slice() && protocol == b"1".as_slice() {
        Some(4)
    } else if verb == b"put".as_slice()
        && (asked == b"secout".as_slice() && asked_protocol == b"1".as_slice())
    {
        Some(6)
    } else {
        None
    }
}

/// Which one is the TPer's number of a session.
fn number_place(line: &[u8]) -> Option<usize>
    ensures { result ≡ number_place line.now }
{
    let mut words = Words::new(line);
    let verb = words.next_word();
    words.next_word();
    words.next_word();
    let asked = words.next_word();
    if verb == b"call".as_slice() {
        Some(3)
    } else if verb == b"put".as_slice() && asked == b"call".as_slice() {
        Some(5)
    } else {
        None
    }
}

/// The TPer's number in the digits of a ComPacket.
fn number_sent(word: &[u8]) -> Option<u32>
    ensures { result ≡ number_sent word.now }
{
    let mut number = [0; 4];
    match hex::decode_to_slice(front(behind(word, TSN_PLACE), 8), &mut number) {
        Ok(()) => Some(u32::from_be_bytes(number)),
        Err(_) => None,
    }
}

/// The digits of a ComPacket with this number.
fn packet_with(alloc: Global, word: &[u8], number: u32) -> Result<Bytes, AllocError>
    ensures { IfOk result (λ packet. packet ≡ packet_with word.now number) }
{
    let mut packet = Vec::from_slice(alloc, front(word, TSN_PLACE))?;
    append_hex(&mut packet, &number.to_be_bytes())?;
    packet.extend_from_slice(behind(word, TSN_END))?;
    Ok(Bytes::from_vec(packet))
}

/// The digits of a number.
fn decimal(alloc: Global, number: u32) -> Result<Bytes, AllocError>
    ensures { IfOk result (λ digits. digits ≡ decimal number) }
{
    let mut digits = Vec::new(alloc);
    append_decimal(alloc, &mut digits, u64::from(number))?;
    Ok(Bytes::from_vec(digits))
}

/// The word in a place of a line, and what stands behind it.
fn word_at(line: &[u8], place: usize) -> (&[u8], &[u8])
    ensures word { result.0.now ≡ nth_word place line.now }
    ensures behind { result.1.now ≡ after_word (after_words place line.now) }
{
    let mut words = Words::new(behind_words(line, place));
    let word = words.next_word();
    (word, words.rest)
}

/// A line with another word in this place.
fn with_word(alloc: Global, place: usize, line: &[u8], word: &[u8]) -> Result<Bytes, AllocError>
    ensures { IfOk result (λ made. made ≡ with_word place line.now word.now) }
{
    let (old, rest) = word_at(line, place);
    let size = line
        .len()
        .saturating_sub(old.len())
        .saturating_sub(rest.len());
    let mut made = Vec::from_slice(alloc, front(line, size))?;
    made.extend_from_slice(word)?;
    made.extend_from_slice(rest)?;
    Ok(Bytes::from_vec(made))
}

/// The number of 32 bits that a word writes.
fn number_in(word: &[u8]) -> Option<u32>
    ensures { result ≡ number_up_to (largest 32) word.now }
{
    match number_up_to(u64::from(u32::MAX), word) {
        Some(number) => Some(number as u32),
        None => None,
    }
}

/// A line whose word in this place is another number, where there is one.
fn with_number(
    alloc: Global,
    place: usize,
    line: &[u8],
    number: Option<u32>,
) -> Result<Bytes, AllocError>
    ensures { IfOk result (λ made. made ≡ with_number place line.now number) }
{
    match number {
        Some(number) => {
            let word = decimal(alloc, number)?;
            with_word(alloc, place, line, word.as_slice())
        }
        None => same(alloc, line),
    }
}

/// A line whose ComPacket in this place has another number, where there is one.
fn with_packet(
    alloc: Global,
    place: usize,
    line: &[u8],
    number: Option<u32>,
) -> Result<Bytes, AllocError>
    ensures { IfOk result (λ made. made ≡ with_packet place line.now number) }
{
    match number {
        Some(number) => {
            let (word, _) = word_at(line, place);
            let packet = packet_with(alloc, word, number)?;
            with_word(alloc, place, line, packet.as_slice())
        }
        None => same(alloc, line),
    }
}

/// The same bytes once more.
fn same(alloc: Global, bytes: &[u8]) -> Result<Bytes, AllocError>
    ensures { IfOk result (λ copy. copy ≡ bytes.now) }
{
    let items = Vec::from_slice(alloc, bytes)?;
    Ok(Bytes::from_vec(items))
}

/// The same lines once more.
fn copied(alloc: Global, lines: &[Bytes]) -> Result<Lines, AllocError>
    ensures { IfOk result (λ copy. copy ≡ lines.now) }
{
    let mut copy = Lines::new(alloc);
    for line in lines {
        copy.push(alloc, line.as_slice())?;
    }
    Ok(copy)
}

/// The number that the drive gave a session: the one that it told where a freedom allows it, and else the model's.
pub(crate) fn number_given(freedom: Option<Freedom>, heard: Option<u32>, model: u32) -> u32
    ensures { result ≡ number_given freedom heard model }
{
    match freedom {
        Some(Freedom::SessionNumbers) => heard.unwrap_or(model),
        _ => model,
    }
}

/// The numbers of the sessions that began, in their order.
#[derive(Drop)]
pub struct SessionPairs {
    items: Vec<SessionPair>,
}

impl Model for SessionPairs {
    ghost use Rattle.std.specs.Prelude.{List};
    ghost use Rattle.judged.specs.declared.pairs.SessionPair.{SessionPair};

    ghost Value = { List SessionPair };

    ghost view = { λ a. a.items.items };
}

impl SessionPairs {
    ghost use Rattle.std.specs.Prelude.{◌≡◌, [], IfOk, OnOk};
    ghost use Rattle.judged.specs.SessionPairs.{models_number, drive_by, drives_number, drives_line, drives_lines, other_number, in_number, in_packet, as_model, paired};

    /// No session began.
    pub fn new(alloc: Global) -> SessionPairs
        ensures { result ≡ [] }
    {
        SessionPairs {
            items: Vec::new(alloc),
        }
    }

    /// The model's number of the session to which the drive gave a number last; any other number stands for itself.
    fn models_number(&self, number: u32) -> u32
        ensures { result ≡ models_number self.now number }
    {
        let mut found = number;
        for pair in &self.items {
            if pair.drive == number {
                found = pair.model;
            }
        }
        found
    }

    /// The number that the drive gave to a session of the model.
    fn drive_by(&self, number: u32) -> u32
        ensures { result ≡ drive_by number number self.now }
    {
        let mut found = number;
        for pair in &self.items {
            if pair.model == number {
                found = pair.drive;
            }
        }
        found
    }

    /// The drive's number of a session; 0 where the drive gave it to another since.
    fn drives_number(&self, number: u32) -> u32
        ensures { result ≡ drives_number self.now number }
    {
        let given = self.drive_by(number);
        if self.models_number(given) == number {
            given
        } else {
            0
        }
    }

    /// A line that the model says, with the drive's number of the session.
    fn drives_line(&self, alloc: Global, line: &[u8]) -> Result<Bytes, AllocError>
        ensures { IfOk result (λ made. made ≡ drives_line self.now line.now) }
    {
        let Some(received) = packet_told(alloc, line)? else {
            return same(alloc, line);
        };
        let number = self.drives_number(received.session.tsn);
        if number == received.session.tsn {
            return same(alloc, line);
        }
        let made = received_line(alloc, &named_by_drive(number, received))?;
        Ok(made.into_bytes())
    }

    /// The lines that are said to a line, the first with the drive's number of the session.
    pub fn drives_lines(&self, alloc: Global, lines: &[Bytes]) -> Result<Lines, AllocError>
        ensures { IfOk result (λ made. made ≡ drives_lines self.now lines.now) }
    {
        let mut made = Lines::new(alloc);
        let [first, rest @ ..] = lines else {
            return Ok(made);
        };
        let first = self.drives_line(alloc, first.as_slice())?;
        made.push(alloc, first.as_slice())?;
        for line in rest {
            made.push(alloc, line.as_slice())?;
        }
        Ok(made)
    }

    /// The model's number in place of another one.
    fn other_number(&self, number: Option<u32>) -> Option<u32>
        ensures { result ≡ other_number self.now number }
    {
        let number = number?;
        let model = self.models_number(number);
        if model == number { None } else { Some(model) }
    }

    /// A line with the model's number of a session, where the word in this place is the TPer's number of one.
    fn in_number(
        &self,
        alloc: Global,
        line: &[u8],
        place: Option<usize>,
    ) -> Result<Bytes, AllocError>
        ensures { IfOk result (λ made. made ≡ in_number self.now line.now place) }
    {
        let Some(place) = place else {
            return same(alloc, line);
        };
        let (word, _) = word_at(line, place);
        with_number(alloc, place, line, self.other_number(number_in(word)))
    }

    /// The same, where the word in this place is a ComPacket.
    fn in_packet(
        &self,
        alloc: Global,
        line: &[u8],
        place: Option<usize>,
    ) -> Result<Bytes, AllocError>
        ensures { IfOk result (λ made. made ≡ in_packet self.now line.now place) }
    {
        let Some(place) = place else {
            return self.in_number(alloc, line, number_place(line));
        };
        let (word, _) = word_at(line, place);
        with_packet(alloc, place, line, self.other_number(number_sent(word)))
    }

    /// A line that was sent to the drive, and its answers, with the model's number of the session that it names.
    pub fn as_model(&self, alloc: Global, entry: &Entry) -> Result<Entry, AllocError>
        ensures { IfOk result (λ made. made ≡ as_model self.now entry.now) }
    {
        let line = entry.line.as_slice();
        Ok(Entry {
            number: entry.number,
            line: self.in_packet(alloc, line, packet_place(line))?,
            behind: copied(alloc, entry.behind.as_slice())?,
            answers: copied(alloc, entry.answers.as_slice())?,
        })
    }

    /// A session more: the model's number of it, and the drive's.
    pub fn add(&mut self, model: u32, drive: u32) -> Result<(), AllocError>
        ensures { OnOk result (self.new ≡ paired self.old model drive) }
    {
        self.items.push(SessionPair { drive, model })?;
        Ok(())
    }
}
