//! The answers of a transcript, judged one after the other.

ghost use Rattle.std.specs.Prelude.{◌≡◌, ◌++◌, ◌∷◌, [], false, ℕ, Bool, List, Some, IfOk, IfSome, OnOk};
ghost use Rattle.runs.specs.Stepped.{RanTo, RunStands};
ghost use Rattle.judged.specs.declared.freedom.Freedom.{Freedom};
ghost use Rattle.judged.specs.Answers.{text_behind};
ghost use Rattle.judged.specs.Benches.{BenchFits, BenchStands};
ghost use Rattle.judged.specs.Transcripts.{entry_text};
ghost use Rattle.judged.specs.Judgements.{through, are_same, freedom_of, behind_commas, joined_answer, answer_behind_words, wrong_text, verdict_beside, answers_verdict, can_change, ruling_of, answers_agree, agreement_of, entry_verdict, freedom_at, wanted_at, is_by_blanks, shows_at, learned_by_read, learned_at, nothing_judged, judging_of, rulings_of, script_status};

use crate::answers::{agree_with, behind, is_receiving};
use crate::bench::{Bench, Printed};
use crate::blanks::{append_other_text, first_answer};
use crate::entry::Entry;
use crate::freedom::{Freedom, Freedoms, asks_level0};
use crate::known::{Known, other_at, own_reasons, reasons_at, said_at, wanted_at};
use crate::pairs::number_given;
use crate::received::number_told;
use crate::ruling::{Ruling, Rulings, Verdict};
use crate::shown::{ShownSectors, first_read};
use crate::text::Text;
use basics::Bytes;
use runs::recorded::SteppedRun;
use script_lines::Words;
use std::alloc::{AllocError, Global};
use tool::{Options, RunError};

/// Whether two answers have the same lines.
fn are_same(heard: &[Bytes], wanted: &[Bytes]) -> bool
    ensures { result ≡ are_same heard.now wanted.now }
{
    if heard.len() != wanted.len() {
        return false;
    }
    for i in 0..heard.len() {
        if heard[i].as_slice() != wanted[i].as_slice() {
            return false;
        }
    }
    true
}

/// The freedom by which answers differ from the model's, where they do by one.
fn freedom_of(
    alloc: Global,
    freedoms: &Freedoms,
    asked: &[u8],
    heard: &[Bytes],
    wanted: &[Bytes],
    other: &[u8],
) -> Result<Option<Freedom>, AllocError>
    ensures { IfOk result (λ freedom. freedom
        ≡ freedom_of freedoms.now asked.now heard.now wanted.now other.now) }
{
    match (heard, wanted) {
        ([x, xs @ ..], [y, ys @ ..]) => {
            if !are_same(xs, ys) {
                return Ok(None);
            }
            freedoms.between(alloc, asked, x.as_slice(), y.as_slice(), other)
        }
        _ => Ok(None),
    }
}

/// Appends lines, each behind a comma.
fn append_joined(text: &mut Text, lines: &[Bytes]) -> Result<(), AllocError>
    ensures { OnOk result (text.new ≡ text.old ++ behind_commas lines.now) }
{
    for line in lines {
        text.append(b", ")?;
        text.append(line.as_slice())?;
    }
    Ok(())
}

/// Appends an answer in one line.
fn append_answer(text: &mut Text, lines: &[Bytes]) -> Result<(), AllocError>
    ensures { OnOk result (text.new ≡ text.old ++ joined_answer lines.now) }
{
    match lines {
        [] => text.append(b"nothing"),
        [first, rest @ ..] => {
            text.append(first.as_slice())?;
            append_joined(text, rest)
        }
    }
}

/// Appends an answer behind words.
fn append_told(text: &mut Text, words: &[u8], lines: &[Bytes]) -> Result<(), AllocError>
    ensures { OnOk result (text.new ≡ text.old ++ answer_behind_words words.now lines.now) }
{
    text.append(words)?;
    append_answer(text, lines)
}

/// Appends reasons behind the end of a line.
fn append_reasons(text: &mut Text, reasons: &[u8]) -> Result<(), AllocError>
    ensures { OnOk result (text.new ≡ text.old ++ 10 ∷ reasons.now) }
{
    text.append(b"\n")?;
    text.append(reasons)
}

/// What is told of a wrong answer.
fn wrong_text(
    alloc: Global,
    heard: &[Bytes],
    wanted: &[Bytes],
    reasons: &[u8],
) -> Result<Bytes, AllocError>
    ensures { IfOk result (λ text. text ≡ wrong_text heard.now wanted.now reasons.now) }
{
    let mut text = Text::new(alloc);
    append_told(&mut text, b"the drive said ", heard)?;
    append_told(&mut text, b"; it must say ", wanted)?;
    append_reasons(&mut text, reasons)?;
    Ok(text.into_bytes())
}

/// How answers stand to what must be said, from which they differ.
fn verdict_beside(
    alloc: Global,
    freedom: Option<Freedom>,
    heard: &[Bytes],
    wanted: &[Bytes],
    reasons: &[u8],
) -> Result<Verdict, AllocError>
    ensures { IfOk result (λ verdict. verdict
        ≡ verdict_beside freedom heard.now wanted.now reasons.now) }
{
    match freedom {
        Some(freedom) => Ok(Verdict::Allowed(freedom)),
        None => {
            let text = wrong_text(alloc, heard, wanted, reasons)?;
            Ok(Verdict::Wrong(text))
        }
    }
}

/// How answers stand to what must be said.
fn answers_verdict(
    alloc: Global,
    freedoms: &Freedoms,
    asked: &[u8],
    heard: &[Bytes],
    wanted: &[Bytes],
    other: &[u8],
    reasons: &[u8],
) -> Result<Verdict, AllocError>
    ensures { IfOk result (λ verdict. verdict ≡ answers_verdict freedoms.now asked.now heard.now
        wanted.now other.now reasons.now) }
{
    if are_same(heard, wanted) {
        return Ok(Verdict::Agrees);
    }
    let freedom = freedom_of(alloc, freedoms, asked, heard, wanted, other)?;
    verdict_beside(alloc, freedom, heard, wanted, reasons)
}

/// Whether a wrong answer to a line may come of a drive that is now in another state than the model.
fn can_change(line: &[u8]) -> bool
    ensures { result ≡ can_change line.now }
{
    let verb = Words::new(line).next_word();
    !(verb == b"dread".as_slice()
        || verb == b"identify".as_slice()
        || verb == b"take".as_slice()
        || verb == b"range".as_slice()
        || verb == b"port".as_slice()
        || verb == b"expect".as_slice())
        && !asks_level0(line)
}

/// The answers to a line, judged so.
fn ruling_of(entry: &Entry, verdict: Verdict) -> Ruling
    ensures { result ≡ ruling_of entry.now verdict }
{
    let is_cause = verdict.is_wrong() && can_change(entry.line.as_slice());
    Ruling {
        number: entry.number,
        is_cause,
        verdict,
    }
}

/// How the answers to a line stand to what must be said.
fn entry_verdict(
    alloc: Global,
    freedoms: &Freedoms,
    known: &Known,
    asked: &[u8],
    entry: &Entry,
    printed: &Printed,
) -> Result<Verdict, AllocError>
    ensures { IfOk result (λ verdict. verdict
        ≡ entry_verdict freedoms.now known.now asked.now entry.now printed.now) }
{
    let wanted = wanted_at(alloc, known, entry, printed)?;
    if are_same(entry.answers.as_slice(), wanted.as_slice()) {
        return Ok(Verdict::Agrees);
    }
    let other = other_at(alloc, known, entry, printed)?;
    let reasons = reasons_at(alloc, known, asked, entry, printed)?;
    answers_verdict(
        alloc,
        freedoms,
        entry.line.as_slice(),
        entry.answers.as_slice(),
        wanted.as_slice(),
        other.as_slice(),
        reasons.as_slice(),
    )
}

/// The freedom by which the answers to a line differ from what must be said.
fn freedom_at(
    alloc: Global,
    freedoms: &Freedoms,
    known: &Known,
    entry: &Entry,
    printed: &Printed,
) -> Result<Option<Freedom>, AllocError>
    ensures { IfOk result (λ freedom. freedom
        ≡ freedom_at freedoms.now known.now entry.now printed.now) }
{
    let line = entry.line.as_slice();
    let heard = entry.answers.as_slice();
    let wanted = wanted_at(alloc, known, entry, printed)?;
    let other = other_at(alloc, known, entry, printed)?;
    freedom_of(
        alloc,
        freedoms,
        line,
        heard,
        wanted.as_slice(),
        other.as_slice(),
    )
}

/// Whether answers differ in what blank sectors hold.
fn is_by_blanks(freedom: Option<Freedom>) -> bool
    ensures { result ≡ is_by_blanks freedom }
{
    match freedom {
        Some(Freedom::BlankSectors) => true,
        _ => false,
    }
}

/// Whether the answers to a line show what blank sectors hold: they are what must be said, or differ in that alone.
fn shows_at(
    alloc: Global,
    freedoms: &Freedoms,
    known: &Known,
    entry: &Entry,
    printed: &Printed,
    wanted: &[Bytes],
) -> Result<bool, AllocError>
    requires { wanted.now ≡ wanted_at known.now entry.now printed.now }
    ensures { IfOk result (λ shows. shows
        ≡ shows_at freedoms.now known.now entry.now printed.now) }
{
    if are_same(entry.answers.as_slice(), wanted) {
        return Ok(true);
    }
    let freedom = freedom_at(alloc, freedoms, known, entry, printed)?;
    Ok(is_by_blanks(freedom))
}

/// What the answers to a line show of blank sectors, whose first read sector is this.
fn learned_by_read(
    alloc: Global,
    first: u64,
    freedoms: &Freedoms,
    known: &Known,
    entry: &Entry,
    printed: &Printed,
) -> Result<ShownSectors, AllocError>
    ensures { IfOk result (λ learned. learned
        ≡ learned_by_read (Some first) freedoms.now known.now entry.now printed.now) }
{
    let wanted = wanted_at(alloc, known, entry, printed)?;
    let wanted = wanted.as_slice();
    if !shows_at(alloc, freedoms, known, entry, printed, wanted)? {
        return Ok(ShownSectors::new(alloc));
    }
    let heard = first_answer(entry.answers.as_slice());
    let other = other_at(alloc, known, entry, printed)?;
    let wanted = first_answer(wanted);
    ShownSectors::newly(alloc, entry.number, first, heard, wanted, other.as_slice())
}

/// The same of any line.
fn learned_at(
    alloc: Global,
    freedoms: &Freedoms,
    known: &Known,
    entry: &Entry,
    printed: &Printed,
) -> Result<ShownSectors, AllocError>
    ensures { IfOk result (λ learned. learned
        ≡ learned_at freedoms.now known.now entry.now printed.now) }
{
    match first_read(entry.line.as_slice()) {
        Some(first) => learned_by_read(alloc, first, freedoms, known, entry, printed),
        None => Ok(ShownSectors::new(alloc)),
    }
}

/// How far a transcript is judged.
#[derive(Drop)]
pub struct Judging {
    /// The text of the script so far.
    pub script: Text,
    /// The same, with another byte in each line that writes one.
    pub other: Text,
    /// The reasons of the last line that does not receive.
    pub asked: Text,
    /// What is known of the drive.
    pub known: Known,
    pub rulings: Rulings,
}

impl Judging {
    ghost use Rattle.std.specs.Prelude.{◌≡◌, ◌++◌, ◌∷◌, [], OnOk};
    ghost use Rattle.judged.specs.Judgements.{nothing_judged, rulings_at, asked_behind, pairs_behind, known_behind, entry_added};

    /// Nothing is judged.
    fn new(alloc: Global) -> Judging
        ensures { result ≡ nothing_judged }
    {
        Judging {
            script: Text::new(alloc),
            other: Text::new(alloc),
            asked: Text::new(alloc),
            known: Known::new(alloc),
            rulings: Rulings::new(alloc),
        }
    }

    /// Judges the answers to a line, where it has some.
    fn judge(
        &mut self,
        alloc: Global,
        freedoms: &Freedoms,
        entry: &Entry,
        printed: &Printed,
    ) -> Result<(), AllocError>
        ensures script { self.new.script ≡ self.old.script }
        ensures other { self.new.other ≡ self.old.other }
        ensures asked { self.new.asked ≡ self.old.asked }
        ensures known { self.new.known ≡ self.old.known }
        ensures rulings { OnOk result (self.new.rulings ≡ self.old.rulings
            ++ rulings_at freedoms.now self.old.known self.old.asked entry.now printed.now) }
    {
        if entry.answers.as_slice().is_empty() {
            return Ok(());
        }
        let asked = self.asked.as_slice();
        let verdict = entry_verdict(alloc, freedoms, &self.known, asked, entry, printed)?;
        self.rulings.push(ruling_of(entry, verdict))
    }

    /// Keeps the reasons of a line that does not receive.
    fn keep_reasons(
        &mut self,
        alloc: Global,
        entry: &Entry,
        printed: &Printed,
    ) -> Result<(), AllocError>
        ensures script { self.new.script ≡ self.old.script }
        ensures other { self.new.other ≡ self.old.other }
        ensures rulings { self.new.rulings ≡ self.old.rulings }
        ensures known { self.new.known ≡ self.old.known }
        ensures asked { OnOk result (self.new.asked
            ≡ asked_behind self.old.asked entry.now printed.now) }
    {
        if is_receiving(entry.line.as_slice()) {
            return Ok(());
        }
        self.asked = Text::new(alloc);
        self.asked.append(own_reasons(printed))
    }

    /// Keeps the numbers of a session, where one begins.
    fn keep_numbers(
        &mut self,
        alloc: Global,
        freedoms: &Freedoms,
        entry: &Entry,
        printed: &Printed,
    ) -> Result<(), AllocError>
        ensures pairs { OnOk result (self.new.known.pairs
            ≡ pairs_behind freedoms.now self.old.known entry.now printed.now) }
        ensures shown { self.new.known.shown ≡ self.old.known.shown }
        ensures script { self.new.script ≡ self.old.script }
        ensures other { self.new.other ≡ self.old.other }
        ensures asked { self.new.asked ≡ self.old.asked }
        ensures rulings { self.new.rulings ≡ self.old.rulings }
    {
        let said = said_at(alloc, entry, printed)?;
        let Some(model) = number_told(alloc, first_answer(said.as_slice()))? else {
            return Ok(());
        };
        let freedom = freedom_at(alloc, freedoms, &self.known, entry, printed)?;
        let heard = number_told(alloc, first_answer(entry.answers.as_slice()))?;
        self.known
            .pairs
            .add(model, number_given(freedom, heard, model))
    }

    /// Keeps what is known of the drive.
    fn keep_known(
        &mut self,
        alloc: Global,
        freedoms: &Freedoms,
        entry: &Entry,
        printed: &Printed,
    ) -> Result<(), AllocError>
        ensures known { OnOk result (self.new.known
            ≡ known_behind freedoms.now self.old.known entry.now printed.now) }
        ensures script { self.new.script ≡ self.old.script }
        ensures other { self.new.other ≡ self.old.other }
        ensures asked { self.new.asked ≡ self.old.asked }
        ensures rulings { self.new.rulings ≡ self.old.rulings }
    {
        let learned = learned_at(alloc, freedoms, &self.known, entry, printed)?;
        self.keep_numbers(alloc, freedoms, entry, printed)?;
        self.known.shown.keep_behind(alloc, entry.line.as_slice())?;
        self.known.shown.append(&learned)
    }

    /// Judges the answers to one line more, for which the model prints this.
    fn add(
        &mut self,
        alloc: Global,
        freedoms: &Freedoms,
        entry: &Entry,
        printed: &Printed,
    ) -> Result<(), AllocError>
        ensures { OnOk result (self.new
            ≡ entry_added freedoms.now self.old entry.now printed.now) }
    {
        self.judge(alloc, freedoms, entry, printed)?;
        self.keep_reasons(alloc, entry, printed)?;
        self.keep_known(alloc, freedoms, entry, printed)?;
        entry.append_text(&mut self.script)?;
        append_other_text(&mut self.other, entry)
    }
}

/// Whether the answers to a line, if there are some, are what the model prints.
fn answers_agree(entry: &Entry, said: &[u8]) -> bool
    ensures { result ≡ answers_agree entry.now said.now }
{
    entry.answers.len() == 0 || agree_with(entry.answers.as_slice(), said)
}

/// Does a line and the remarks behind it, by a text that has room, and tells whether its answers are what the line prints.
fn entry_agrees(
    options: &Options,
    run: &mut SteppedRun,
    entry: &Entry,
    text: &mut Text,
) -> Result<bool, RunError>
    requires { RunStands run.old }
    ensures stands { OnOk result (RunStands run.new) }
    ensures ran { OnOk result ((explains : Bool) (before : List ℕ)
        → RanTo run.old explains options.now before
        → RanTo run.new explains options.now (before ++ entry_text entry.now)) }
    ensures agrees { IfOk result (λ agree. (explains : Bool) (before : List ℕ)
        → RanTo run.old explains options.now before
        → agree ≡ answers_agree entry.now (text_behind explains options.now before
        (through before entry.now))) }
{
    text.clear();
    entry.append_line_text(text)?;
    let size = run.printed().len();
    run.go_on(options, text.as_slice())?;
    let agree = answers_agree(entry, behind(run.printed(), size));
    text.clear();
    entry.append_remarks(text)?;
    run.go_on(options, text.as_slice())?;
    Ok(agree)
}

/// Judges the answers to a line that agree.
fn add_agreement(rulings: &mut Rulings, entry: &Entry) -> Result<(), AllocError>
    ensures { OnOk result (rulings.new ≡ rulings.old ++ agreement_of entry.now) }
{
    if entry.answers.len() == 0 {
        return Ok(());
    }
    rulings.push(ruling_of(entry, Verdict::Agrees))
}

/// The same of a run of the script alone, on which no line has run, where all answers agree.
fn agree_on(
    alloc: Global,
    options: &Options,
    run: &mut SteppedRun,
    entries: &[Entry],
) -> Result<Option<(Rulings, u8)>, RunError>
    requires stands { RunStands run.old }
    requires ran { RanTo run.old false options.now [] }
    ensures rulings { IfOk result (λ agreed. IfSome agreed (λ judged. (freedoms : List Freedom)
        → judged.0 ≡ rulings_of options.now freedoms entries.now)) }
    ensures status { IfOk result (λ agreed. IfSome agreed (λ judged. (freedoms : List Freedom)
        → judged.1 ≡ script_status options.now freedoms entries.now)) }
{
    let mut rulings = Rulings::new(alloc);
    let mut text = Text::new(alloc);
    for entry in entries {
        if !entry_agrees(options, run, entry, &mut text)? {
            return Ok(None);
        }
        add_agreement(&mut rulings, entry)?;
    }
    Ok(Some((rulings, run.status())))
}

/// How the answers of a transcript stand to what these runs print, of which no line has run, and the status of the script.
fn judge_on(
    alloc: Global,
    options: &Options,
    freedoms: &Freedoms,
    bench: &mut Bench,
    entries: &[Entry],
) -> Result<(Judging, u8), RunError>
    requires stands { BenchStands bench.old }
    requires fits { BenchFits bench.old options.now nothing_judged }
    ensures judging { IfOk result (λ judged. judged.0
        ≡ judging_of options.now freedoms.now entries.now) }
    ensures status { IfOk result (λ judged. judged.1
        ≡ script_status options.now freedoms.now entries.now) }
{
    let mut judging = Judging::new(alloc);
    for entry in entries {
        let entry = judging.known.pairs.as_model(alloc, entry)?;
        let printed = bench.print(alloc, options, &entry)?;
        judging.add(alloc, freedoms, &entry, &printed)?;
    }
    Ok((judging, bench.status()))
}

/// How the answers of a transcript stand to what the model prints, and the status of its script, line by line.
pub(crate) fn judge_each(
    alloc: Global,
    options: &Options,
    freedoms: &Freedoms,
    entries: &[Entry],
) -> Result<(Judging, u8), RunError>
    ensures judging { IfOk result (λ judged. judged.0
        ≡ judging_of options.now freedoms.now entries.now) }
    ensures status { IfOk result (λ judged. judged.1
        ≡ script_status options.now freedoms.now entries.now) }
{
    let mut bench = Bench::new(alloc);
    let judged = judge_on(alloc, options, freedoms, &mut bench, entries);
    drop(bench);
    judged
}

/// How the answers of a transcript stand to the model's, and the status of its script. The script runs once where all agree.
pub(crate) fn judge_all(
    alloc: Global,
    options: &Options,
    freedoms: &Freedoms,
    entries: &[Entry],
) -> Result<(Rulings, u8), RunError>
    ensures rulings { IfOk result (λ judged. judged.0
        ≡ rulings_of options.now freedoms.now entries.now) }
    ensures status { IfOk result (λ judged. judged.1
        ≡ script_status options.now freedoms.now entries.now) }
{
    let mut run = SteppedRun::new(alloc, false);
    let agreed = agree_on(alloc, options, &mut run, entries);
    drop(run);
    if let Some(judged) = agreed? {
        return Ok(judged);
    }
    let (judging, status) = judge_each(alloc, options, freedoms, entries)?;
    Ok((judging.rulings, status))
}
