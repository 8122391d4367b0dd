//! What blank sectors were shown to hold, as long as no line may have changed it.

ghost use Rattle.std.specs.Prelude.{◌≡◌, ◌++◌, ◌<◌, if◌then◌else◌, length, ◌==◌, Some, None, IfOk, OnOk};
ghost use Rattle.script_lines.specs.Words.{nth_word};
ghost use Rattle.judged.specs.Shown.{read_place, write_place, count_place, number_in_place, first_read, only_looks, sector_count, is_in_extent, is_changed, digits_place, sector_digits, is_blank_at, blank_place_by, blank_place, with_digits, changed_text, changed_at, sectors_shown, words_and_number};

use crate::answers::behind;
use crate::blanks::{behind_words, front};
use crate::text::Text;
use basics::{ADDRESS_LIMIT, Bytes};
use runs::explored::Lines;
use script_lines::{Words, number_up_to};
use std::alloc::{AllocError, Global};
use std::marker::Model;

/// How many hex digits of a sector are told.
const DIGITS: usize = 8;

/// How many bytes stand in front of those of the first.
const DIGITS_PLACE: usize = 3;

/// How many sectors one command reads at most.
const MOST_SECTORS: u64 = 65_536;

/// What stands where digits are left open no more.
const TOLD_DIGITS: [u8; DIGITS] = *b"--------";

/// The digits of zeros.
const ZERO_DIGITS: [u8; DIGITS] = *b"00000000";

/// A blank sector, as it was shown.
#[derive(Clone, Copy, Debug, PartialEq, Eq)]
pub struct ShownSector {
    pub sector: u64,
    /// The digits of its first four bytes.
    pub digits: [u8; DIGITS],
    /// The number of the line to which they were answered.
    pub line: u64,
}

/// Which word of a line, from 0, is the first sector that it reads.
fn read_place(line: &[u8]) -> Option<usize>
    ensures { result ≡ read_place line.now }
{
    let verb = Words::new(line).next_word();
    if verb == b"dread".as_slice() {
        Some(2)
    } else if verb == b"read".as_slice() {
        Some(3)
    } else {
        None
    }
}

/// Which one is the first that it writes.
fn write_place(line: &[u8]) -> Option<usize>
    ensures { result ≡ write_place line.now }
{
    let verb = Words::new(line).next_word();
    if verb == b"dwrite".as_slice() {
        Some(2)
    } else if verb == b"write".as_slice() {
        Some(3)
    } else {
        None
    }
}

/// Which one says how many.
fn count_place(line: &[u8]) -> Option<usize>
    ensures { result ≡ count_place line.now }
{
    let verb = Words::new(line).next_word();
    if verb == b"dwrite".as_slice() {
        Some(3)
    } else if verb == b"write".as_slice() {
        Some(4)
    } else {
        None
    }
}

/// The word of a line in a place.
fn word_in(line: &[u8], place: usize) -> &[u8]
    ensures { result.now ≡ nth_word place line.now }
{
    Words::new(behind_words(line, place)).next_word()
}

/// The number in a place.
fn number_in_place(line: &[u8], place: Option<usize>) -> Option<u64>
    ensures { result ≡ number_in_place line.now place }
{
    match place {
        Some(place) => number_up_to(u64::MAX, word_in(line, place)),
        None => None,
    }
}

/// The first sector that a line reads, where it is a read.
pub(crate) fn first_read(line: &[u8]) -> Option<u64>
    ensures { result ≡ first_read line.now }
{
    number_in_place(line, read_place(line))
}

/// Whether a line changes nothing that a sector holds, nor which sectors the shadow MBR hides.
fn only_looks(line: &[u8]) -> bool
    ensures { result ≡ only_looks line.now }
{
    let verb = Words::new(line).next_word();
    verb == b"dread".as_slice()
        || verb == b"read".as_slice()
        || verb == b"recv".as_slice()
        || verb == b"secin".as_slice()
        || verb == b"identify".as_slice()
        || verb == b"log".as_slice()
        || verb == b"expect".as_slice()
}

/// How many sectors a command names.
fn sector_count(count: u64) -> u64
    ensures { result ≡ sector_count count }
{
    if count == 0 { MOST_SECTORS } else { count }
}

/// Whether a sector is one of so many from the first on.
fn is_in_extent(first: u64, count: u64, sector: u64) -> bool
    ensures { result ≡ is_in_extent first count sector }
{
    first <= sector && sector - first < count
}

/// Whether a line may change what a sector holds, which writes so many from the first on, or does something else.
fn is_changed(first: Option<u64>, count: Option<u64>, sector: u64) -> bool
    ensures { result ≡ is_changed first count sector }
{
    match (first, count) {
        (Some(first), Some(count)) => is_in_extent(first, sector_count(count), sector),
        _ => true,
    }
}

/// Where the digits of a sector stand in the answer to a read from the first on.
fn digits_place(first: u64, sector: u64) -> Option<usize>
    ensures { result ≡ digits_place first sector }
{
    if is_in_extent(first, MOST_SECTORS, sector) {
        return Some(DIGITS_PLACE + 9 * (sector - first) as usize);
    }
    None
}

/// The digits at a place of a line.
fn sector_digits(line: &[u8], place: usize) -> &[u8]
    ensures { result.now ≡ sector_digits place line.now }
{
    front(behind(line, place), DIGITS)
}

/// Whether the model reads zeros there, and would whatever bytes the writes before wrote.
fn is_blank_at(wanted: &[u8], other: &[u8], place: usize) -> bool
    ensures { result ≡ is_blank_at wanted.now other.now place }
{
    sector_digits(wanted, place) == ZERO_DIGITS.as_slice()
        && sector_digits(other, place) == ZERO_DIGITS.as_slice()
}

/// This place, where it is blank.
fn blank_place_by(wanted: &[u8], other: &[u8], place: Option<usize>) -> Option<usize>
    ensures { result ≡ blank_place_by wanted.now other.now place }
{
    match place {
        Some(place) if is_blank_at(wanted, other, place) => Some(place),
        _ => None,
    }
}

/// A line with other digits in a place, where there is one.
fn put_digits(line: &mut Text, digits: &[u8], place: Option<usize>) -> Result<(), AllocError>
    ensures { OnOk result (line.new ≡ with_digits digits.now line.old place) }
{
    match place {
        Some(place) => line.put(place, digits),
        None => Ok(()),
    }
}

/// Appends a number behind words.
fn append_number(
    alloc: Global,
    text: &mut Text,
    words: &[u8],
    number: u64,
) -> Result<(), AllocError>
    ensures { OnOk result (text.new ≡ text.old ++ words_and_number words.now number) }
{
    text.append(words)?;
    text.append_number(alloc, number)
}

/// Appends why a sector must be told as it was shown, where an answer tells other digits in this place.
fn append_changed(
    alloc: Global,
    text: &mut Text,
    heard: &[u8],
    shown: &ShownSector,
    place: Option<usize>,
) -> Result<(), AllocError>
    ensures { OnOk result (text.new ≡ text.old ++ changed_at heard.now shown.now place) }
{
    let Some(place) = place else {
        return Ok(());
    };
    if sector_digits(heard, place) == shown.digits.as_slice() {
        return Ok(());
    }
    shown.append_text(alloc, text)
}

/// How many sectors an answer shows.
fn sectors_shown(heard: &[u8]) -> usize
    ensures { result ≡ sectors_shown heard.now }
{
    heard.len().saturating_sub(2) / 9
}

/// A blank sector that an answer shows with these digits, if there are eight.
fn sector_with(line: u64, sector: u64, digits: &[u8]) -> Option<ShownSector>
    ensures { result ≡ (if length digits.now == 8
        then Some (record { sector = sector; digits = digits.now; line = line }) else None) }
{
    match digits.split_first_chunk::<DIGITS>() {
        Some((digits, [])) => Some(ShownSector {
            sector,
            digits: *digits,
            line,
        }),
        _ => None,
    }
}

impl ShownSector {
    ghost use Rattle.std.specs.Prelude.{◌≡◌, ◌++◌, OnOk};
    ghost use Rattle.judged.specs.Shown.{blank_place, changed_front, changed_text};

    /// Where it stands as a blank one in the answer to a read from this first sector on.
    fn blank_place(&self, first: u64, wanted: &[u8], other: &[u8]) -> Option<usize>
        ensures { result ≡ blank_place first wanted.now other.now self.now }
    {
        blank_place_by(wanted, other, digits_place(first, self.sector))
    }

    /// Appends which one it is, and where it was shown.
    fn append_front(&self, alloc: Global, text: &mut Text) -> Result<(), AllocError>
        ensures { OnOk result (text.new ≡ text.old ++ changed_front self.now) }
    {
        append_number(alloc, text, b"because line ", self.line)?;
        append_number(alloc, text, b" showed sector ", self.sector)?;
        Ok(())
    }

    /// Appends why it must be told as it was shown.
    fn append_text(&self, alloc: Global, text: &mut Text) -> Result<(), AllocError>
        ensures { OnOk result (text.new ≡ text.old ++ changed_text self.now) }
    {
        self.append_front(alloc, text)?;
        text.append(b" as ")?;
        text.append(&self.digits)?;
        text.append(b", and no line since may have changed it")?;
        text.append(b"\n")
    }
}

/// Blank sectors, as they were shown.
#[derive(Drop)]
pub struct ShownSectors {
    items: Vec<ShownSector>,
}

impl Model for ShownSectors {
    ghost use Rattle.std.specs.Prelude.{List};
    ghost use Rattle.judged.specs.declared.shown.ShownSector.{ShownSector};

    ghost Value = { List ShownSector };

    ghost view = { λ a. a.items.items };
}

impl ShownSectors {
    ghost use Rattle.std.specs.Prelude.{◌≡◌, ◌++◌, [], filter, not, IfOk, OnOk};
    ghost use Rattle.judged.specs.Shown.{is_changed, kept_behind, with_shown, with_told, shown_wanted, shown_other, shown_lines, changed_texts, changed_reasons, sector_shown, shown_from, newly_shown};

    /// None was shown.
    pub fn new(alloc: Global) -> ShownSectors
        ensures { result ≡ [] }
    {
        ShownSectors {
            items: Vec::new(alloc),
        }
    }

    /// Those of which a line may change nothing that writes so many from the first on, or does something else.
    fn unchanged(
        &self,
        alloc: Global,
        first: Option<u64>,
        count: Option<u64>,
    ) -> Result<ShownSectors, AllocError>
        ensures { IfOk result (λ kept. kept
            ≡ filter (λ shown. not (is_changed first count shown.sector)) self.now) }
    {
        let mut items = Vec::new(alloc);
        for shown in &self.items {
            if !is_changed(first, count, shown.sector) {
                items.push(*shown)?;
            }
        }
        Ok(ShownSectors { items })
    }

    /// Keeps those that stand behind a line.
    pub fn keep_behind(&mut self, alloc: Global, line: &[u8]) -> Result<(), AllocError>
        ensures { OnOk result (self.new ≡ kept_behind line.now self.old) }
    {
        if only_looks(line) {
            return Ok(());
        }
        let first = number_in_place(line, write_place(line));
        let count = number_in_place(line, count_place(line));
        let kept = self.unchanged(alloc, first, count)?;
        self.items = kept.items;
        Ok(())
    }

    /// What must be said to a read from this first sector on.
    fn with_shown(
        &self,
        alloc: Global,
        first: u64,
        wanted: &[u8],
        other: &[u8],
    ) -> Result<Text, AllocError>
        ensures { IfOk result (λ line. line ≡ with_shown self.now first wanted.now other.now) }
    {
        let mut line = Text::new(alloc);
        line.append(wanted)?;
        for shown in &self.items {
            let place = shown.blank_place(first, wanted, other);
            put_digits(&mut line, &shown.digits, place)?;
        }
        Ok(line)
    }

    /// What of it is still left open.
    fn with_told(
        &self,
        alloc: Global,
        first: u64,
        wanted: &[u8],
        other: &[u8],
    ) -> Result<Text, AllocError>
        ensures { IfOk result (λ line. line ≡ with_told self.now first wanted.now other.now) }
    {
        let mut line = Text::new(alloc);
        line.append(other)?;
        for shown in &self.items {
            let place = shown.blank_place(first, wanted, other);
            put_digits(&mut line, &TOLD_DIGITS, place)?;
        }
        Ok(line)
    }

    /// What must be said to a line whose first read sector is this.
    fn wanted(
        &self,
        alloc: Global,
        first: Option<u64>,
        wanted: &[u8],
        other: &[u8],
    ) -> Result<Text, AllocError>
        ensures { IfOk result (λ line. line ≡ shown_wanted self.now first wanted.now other.now) }
    {
        match first {
            Some(first) => self.with_shown(alloc, first, wanted, other),
            None => Text::of(alloc, wanted),
        }
    }

    /// What of it is still left open.
    pub fn other(
        &self,
        alloc: Global,
        first: Option<u64>,
        wanted: &[u8],
        other: &[u8],
    ) -> Result<Text, AllocError>
        ensures { IfOk result (λ line. line ≡ shown_other self.now first wanted.now other.now) }
    {
        match first {
            Some(first) => self.with_told(alloc, first, wanted, other),
            None => Text::of(alloc, other),
        }
    }

    /// The lines that must be said, of which the first tells what was read.
    pub fn lines(
        &self,
        alloc: Global,
        first: Option<u64>,
        other: &[u8],
        lines: &[Bytes],
    ) -> Result<Lines, AllocError>
        ensures { IfOk result (λ made. made ≡ shown_lines self.now first other.now lines.now) }
    {
        let mut made = Lines::new(alloc);
        let [wanted, rest @ ..] = lines else {
            return Ok(made);
        };
        let line = self.wanted(alloc, first, wanted.as_slice(), other)?;
        made.push(alloc, line.as_slice())?;
        for line in rest {
            made.push(alloc, line.as_slice())?;
        }
        Ok(made)
    }

    /// Why sectors must be told as they were shown, where an answer tells other digits.
    fn changed_texts(
        &self,
        alloc: Global,
        first: u64,
        heard: &[u8],
        wanted: &[u8],
        other: &[u8],
    ) -> Result<Text, AllocError>
        ensures { IfOk result (λ text. text
            ≡ changed_texts self.now first heard.now wanted.now other.now) }
    {
        let mut text = Text::new(alloc);
        for shown in &self.items {
            let place = shown.blank_place(first, wanted, other);
            append_changed(alloc, &mut text, heard, shown, place)?;
        }
        Ok(text)
    }

    /// The same of a line whose first read sector is this.
    pub fn changed_reasons(
        &self,
        alloc: Global,
        first: Option<u64>,
        heard: &[u8],
        wanted: &[u8],
        other: &[u8],
    ) -> Result<Text, AllocError>
        ensures { IfOk result (λ text. text
            ≡ changed_reasons self.now first heard.now wanted.now other.now) }
    {
        match first {
            Some(first) if heard.len() == wanted.len() => {
                self.changed_texts(alloc, first, heard, wanted, other)
            }
            _ => Ok(Text::new(alloc)),
        }
    }

    /// Learns a blank sector.
    fn add_sector(
        &mut self,
        line: u64,
        sector: u64,
        digits: &[u8],
        blank: bool,
    ) -> Result<(), AllocError>
        ensures { OnOk result (self.new
            ≡ self.old ++ sector_shown line sector digits.now blank) }
    {
        if !blank {
            return Ok(());
        }
        let Some(shown) = sector_with(line, sector, digits) else {
            return Ok(());
        };
        self.items.push(shown)?;
        Ok(())
    }

    /// Learns what the right answer to a read from this first sector on shows.
    fn add_from(
        &mut self,
        line: u64,
        first: u64,
        heard: &[u8],
        wanted: &[u8],
        other: &[u8],
    ) -> Result<(), AllocError>
        requires { first < ADDRESS_LIMIT }
        ensures { OnOk result (self.new ≡ self.old
            ++ shown_from (sectors_shown heard.now) line first 3 heard.now wanted.now other.now) }
    {
        let mut place = DIGITS_PLACE;
        let mut sector = first;
        for _count in 0..sectors_shown(heard) {
            let blank = is_blank_at(wanted, other, place);
            self.add_sector(line, sector, sector_digits(heard, place), blank)?;
            place += 9;
            sector += 1;
        }
        Ok(())
    }

    /// What the right answer to a line shows, whose first read sector is this.
    pub fn newly(
        alloc: Global,
        line: u64,
        first: u64,
        heard: &[u8],
        wanted: &[u8],
        other: &[u8],
    ) -> Result<ShownSectors, AllocError>
        ensures { IfOk result (λ shown. shown
            ≡ newly_shown line first heard.now wanted.now other.now) }
    {
        let mut shown = ShownSectors::new(alloc);
        if first < ADDRESS_LIMIT {
            shown.add_from(line, first, heard, wanted, other)?;
        }
        Ok(shown)
    }

    /// More, behind the others.
    pub fn append(&mut self, more: &ShownSectors) -> Result<(), AllocError>
        ensures { OnOk result (self.new ≡ self.old ++ more.now) }
    {
        self.items.extend_from_slice(&more.items)
    }
}
