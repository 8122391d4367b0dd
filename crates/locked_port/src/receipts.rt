//! Whether receipts are those of a history.

ghost use Rattle.std.specs.Prelude.{◌≡◌, ◌+◌, ◌^◌, ◌<◌, ◌≤◌, ◌⊎◌, ◌↔◌, length, slice_index_or, true, false, IsTrue, All, MatchOption};
ghost use Rattle.locked_port.specs.Counts.{is_client};
ghost use Rattle.port_history.specs.declared.step.Entry.{Entry};
ghost use Rattle.port_history.specs.Entries.{entry_lent, step_lent};
ghost use Rattle.locked_port.specs.Receipts.{HaveOwnNumbers, IsShown, AreNamed, AreApartIn, AreNamedIn, AreThere, AreOnly, AreMarked};

use crate::ticket::Receipt;
use port::{Entries, EntryRef, StepRef};

/// How many steps of a history are looked at in one go: for each so many of them the receipts are gone over once.
const WINDOW: usize = 65_536;

/// Whether receipts are for distinct steps of a history, each as the history has it, and for every client step of it. It
/// takes no memory, and goes over the receipts once for each window of the history, which has 17 at most in a port.
#[tactic(auto, using(crate::proofs::Windows::apart_of_shown))]
pub fn check_receipts(history: &Entries, receipts: &[Receipt]) -> bool
    ensures { IsTrue result ↔ (HaveOwnNumbers receipts.now
        × All (IsShown history.now.items) receipts.now
        × AreNamed history.now.items receipts.now) }
{
    are_shown(history, receipts) && are_matched(history, receipts)
}

/// Whether an entry is what a receipt says.
fn is_same(entry: &EntryRef<'_>, receipt: &Receipt) -> bool
    ensures { IsTrue result ↔ (entry_lent entry.now
        ≡ record { step = receipt.now.step; reply = receipt.now.reply }) }
{
    entry.matches(&receipt.step, &receipt.reply)
}

/// Whether the history has a receipt's step and reply at its number.
fn is_shown(history: &Entries, receipt: &Receipt) -> bool
    ensures { IsTrue result ↔ IsShown history.now.items receipt.now }
{
    let number = receipt.number;
    if number == 0 {
        return false;
    }
    match history.get(number as usize - 1) {
        None => false,
        Some(entry) => is_same(&entry, receipt),
    }
}

fn are_shown(history: &Entries, receipts: &[Receipt]) -> bool
    ensures { IsTrue result ↔ All (IsShown history.now.items) receipts.now }
{
    receipts.iter().all(|r| is_shown(history, r))
}

/// Whether a step is a client's Put or Take.
fn is_client(step: &StepRef<'_>) -> bool
    ensures { result ≡ is_client (step_lent step.now) }
{
    match *step {
        StepRef::Put { .. } | StepRef::Take { .. } => true,
        StepRef::Issue { .. }
        | StepRef::Accept { .. }
        | StepRef::Complete { .. }
        | StepRef::Recover
        | StepRef::Reset { .. } => false,
    }
}

/// Whether the step at a place of a history is a client's.
pub(crate) fn is_client_at(history: &Entries, place: usize) -> bool
    requires { place < length history.now.items }
    ensures { (d : Entry) → result ≡ is_client (slice_index_or history.now.items place d).step }
{
    match history.get(place) {
        None => false,
        Some(entry) => is_client(&entry.step),
    }
}

/// The place of a number in a window of so many numbers, the least of which is behind the first place.
fn place_in(number: u64, first: usize, size: usize) -> Option<usize>
    ensures { MatchOption result ((number ≤ first) ⊎ (first + size < number))
        (λ place. (place < size) × (number ≡ first + place + 1)) }
{
    if number <= first as u64 {
        return None;
    }
    let place = number - first as u64 - 1;
    if place < size as u64 {
        Some(place as usize)
    } else {
        None
    }
}

/// Marks the numbers of a window that receipts have, and tells whether each is that of one receipt alone.
fn mark(receipts: &[Receipt], first: usize, marks: &mut [bool]) -> bool
    requires { All (λ is_marked. is_marked ≡ false) marks.old }
    ensures size { length marks.new ≡ length marks.old }
    ensures apart { IsTrue result ↔ AreApartIn first (length marks.old) receipts.now }
    ensures there { result ≡ true → AreThere first receipts.now (length receipts.now) marks.new }
    ensures only { result ≡ true → AreOnly first receipts.now (length receipts.now) marks.new }
{
    for at in 0..receipts.len() {
        match place_in(receipts[at].number, first, marks.len()) {
            None => {}
            Some(place) => {
                if marks[place] {
                    return false;
                }
                marks[place] = true;
            }
        }
    }
    true
}

/// Whether each client step of a window is marked.
fn are_marked(history: &Entries, first: usize, marks: &[bool]) -> bool
    requires { first ≤ length history.now.items }
    ensures { IsTrue result ↔ AreMarked history.now.items first marks.now (length marks.now) }
{
    for k in 0..marks.len().min(history.len() - first) {
        if is_client_at(history, first + k) && !marks[k] {
            return false;
        }
    }
    true
}

/// Whether in a window of a history no two receipts have one number, and each client step has one.
fn is_matched<const SIZE: usize>(history: &Entries, receipts: &[Receipt], first: usize) -> bool
    requires size { SIZE < 2 ^ 32 }
    requires first { first ≤ length history.now.items }
    ensures apart { IsTrue result → AreApartIn first SIZE receipts.now }
    ensures named { IsTrue result → AreNamedIn first SIZE history.now.items receipts.now }
    ensures only { AreApartIn first SIZE receipts.now
        → AreNamedIn first SIZE history.now.items receipts.now
        → IsTrue result }
{
    let mut marks = [false; SIZE];
    mark(receipts, first, &mut marks) && are_marked(history, first, &marks)
}

/// Whether no two receipts have one number, and each client step has one, window by window.
fn are_matched(history: &Entries, receipts: &[Receipt]) -> bool
    ensures apart { IsTrue result → AreApartIn 0 (length history.now.items) receipts.now }
    ensures named { IsTrue result → AreNamed history.now.items receipts.now }
    ensures only { HaveOwnNumbers receipts.now
        → AreNamed history.now.items receipts.now
        → IsTrue result }
{
    for window in 0..history.len() / WINDOW + 1 {
        if !is_matched::<WINDOW>(history, receipts, WINDOW * window) {
            return false;
        }
    }
    true
}
