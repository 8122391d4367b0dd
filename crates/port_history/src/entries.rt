//! A history in little memory.

ghost use Rattle.std.specs.Prelude.{◌≡◌, ◌↔◌, ℕ, List, length, vec_len, vec_capacity, true, IsTrue, OnOk};
ghost use Rattle.port_history.specs.declared.step.Step.TheVariants as steps;
ghost use Rattle.port_history.specs.Entries.{entry_marked, step_marked, reply_marked, HasRequest, HasAnswer, IsKept, IsLast, step_lent, has_room};
ghost use Rattle.port_history.specs.Ready.{as_step};
ghost use Rattle.port_history.specs.Requests.{no_bytes};

use crate::request::{Answer, Request};
use crate::step::{EngineStep, Step};
use fis::Tag;
use history::ResetKind;
use std::alloc::{AllocError, Global};
use std::marker::Model;

/// How many requests and how many answers a history has room for: their places have 32 bits.
const PLACES: usize = 1 << 32;

/// A step in twelve bytes, with the place of a Put's request among the requests, or of a Take's answer among the answers.
#[derive(Clone, Copy, Debug, PartialEq, Eq)]
enum Mark {
    Put { tag: Tag, client: u32, place: u32 },
    Issue { tag: Tag },
    Accept { tag: Tag },
    Complete { tag: Tag },
    Recover,
    Reset { kind: ResetKind, client: u32 },
    Take { tag: Tag, client: u32, place: u32 },
}

/// A step that a history lends.
#[derive(Debug, Drop, PartialEq, Eq)]
pub enum StepRef<'a> {
    /// A client puts a request in a free slot.
    Put {
        client: u32,
        tag: Tag,
        request: &'a Request,
    },
    /// The port issues a prepared command.
    Issue {
        tag: Tag,
    },
    /// The device takes an issued command.
    Accept {
        tag: Tag,
    },
    /// The device moves the data of an accepted command and ends it.
    Complete {
        tag: Tag,
    },
    /// The port recovers from a failed command.
    Recover,
    /// A client resets the port and the device.
    Reset {
        client: u32,
        kind: ResetKind,
    },
    /// A client takes its answer, and the slot is free.
    Take {
        client: u32,
        tag: Tag,
    },
}

/// An entry that a history lends: a step, and what it answered.
#[derive(Debug, Drop, PartialEq, Eq)]
pub struct EntryRef<'a> {
    pub step: StepRef<'a>,
    pub reply: &'a Answer,
}

/// Whether a step is this Put.
fn is_put(step: &Step, client: u32, tag: Tag, request: &Request) -> bool
    ensures { IsTrue result ↔ (step.now ≡ steps.Put client tag request.now) }
{
    match step {
        Step::Put {
            client: its_client,
            tag: its_tag,
            request: its_request,
        } => *its_client == client && *its_tag == tag && *its_request == *request,
        Step::Issue { .. }
        | Step::Accept { .. }
        | Step::Complete { .. }
        | Step::Recover
        | Step::Reset { .. }
        | Step::Take { .. } => false,
    }
}

impl StepRef<'_> {
    ghost use Rattle.std.specs.Prelude.{◌≡◌, ◌↔◌, IsTrue, IfOk};
    ghost use Rattle.port_history.specs.Entries.{step_lent};

    /// Whether it is this step.
    pub fn matches(&self, step: &Step) -> bool
        ensures { IsTrue result ↔ (step_lent self.now ≡ step.now) }
    {
        match *self {
            StepRef::Put {
                client,
                tag,
                request,
            } => is_put(step, client, tag, request),
            StepRef::Issue { tag } => *step == Step::Issue { tag },
            StepRef::Accept { tag } => *step == Step::Accept { tag },
            StepRef::Complete { tag } => *step == Step::Complete { tag },
            StepRef::Recover => *step == Step::Recover,
            StepRef::Reset { client, kind } => *step == Step::Reset { client, kind },
            StepRef::Take { client, tag } => *step == Step::Take { client, tag },
        }
    }

    /// The step, with a copy of its request.
    ///
    /// # Errors
    ///
    /// `AllocError`.
    pub fn to_step(&self, alloc: Global) -> Result<Step, AllocError>
        ensures { IfOk result (λ step. step ≡ step_lent self.now) }
    {
        match *self {
            StepRef::Put {
                client,
                tag,
                request,
            } => {
                let request = request.copy(alloc)?;
                Ok(Step::Put {
                    client,
                    tag,
                    request,
                })
            }
            StepRef::Issue { tag } => Ok(Step::Issue { tag }),
            StepRef::Accept { tag } => Ok(Step::Accept { tag }),
            StepRef::Complete { tag } => Ok(Step::Complete { tag }),
            StepRef::Recover => Ok(Step::Recover),
            StepRef::Reset { client, kind } => Ok(Step::Reset { client, kind }),
            StepRef::Take { client, tag } => Ok(Step::Take { client, tag }),
        }
    }
}

impl EntryRef<'_> {
    ghost use Rattle.std.specs.Prelude.{◌≡◌, ◌↔◌, IsTrue};
    ghost use Rattle.port_history.specs.Entries.{entry_lent};

    /// Whether it is this step, answered so.
    pub fn matches(&self, step: &Step, reply: &Answer) -> bool
        ensures { IsTrue result
            ↔ (entry_lent self.now ≡ record { step = step.now; reply = reply.now }) }
    {
        self.step.matches(step) && *self.reply == *reply
    }
}

/// The entries of a history, the oldest first, seen as their list. A step has twelve bytes; the requests of Puts and the
/// answers of Takes stand beside them, each once. Of answers of zeros in a row, all of one length, the first stands for all.
#[derive(Drop)]
pub struct Entries {
    marks: Vec<Mark>,
    requests: Vec<Request>,
    answers: Vec<Answer>,
    /// What every step but a Take answers.
    nothing: Answer,
}

impl Model for Entries {
    ghost use Rattle.std.specs.Prelude.{◌≡◌, map, nat_lt, length, vec_len, vec_capacity, All};
    ghost use Rattle.port_history.specs.Entries.{EntriesState, entry_marked, HasRequest, HasAnswer, has_room};
    ghost use Rattle.port_history.specs.Requests.{no_bytes};

    ghost Value = { EntriesState };

    ghost view = { λ e. record {
      items = map (entry_marked e.requests.items e.answers.items) e.marks.items;
      room = nat_lt (vec_len e.marks) (vec_capacity e.marks);
      request_room = has_room (vec_len e.requests) (vec_capacity e.requests);
      answer_room = has_room (vec_len e.answers) (vec_capacity e.answers);
    } };

    ghost invariant = { λ e. All (HasRequest (length e.requests.items)) e.marks.items
        × All (HasAnswer (length e.answers.items)) e.marks.items
        × (e.nothing ≡ no_bytes) };
}

/// The step of a mark.
fn step_of(mark: Mark, requests: &[Request]) -> StepRef<'_>
    requires { HasRequest (length requests.now) mark }
    ensures { step_lent result ≡ step_marked requests.now mark }
{
    match mark {
        Mark::Put { tag, client, place } => StepRef::Put {
            client,
            tag,
            request: &requests[place as usize],
        },
        Mark::Issue { tag } => StepRef::Issue { tag },
        Mark::Accept { tag } => StepRef::Accept { tag },
        Mark::Complete { tag } => StepRef::Complete { tag },
        Mark::Recover => StepRef::Recover,
        Mark::Reset { kind, client } => StepRef::Reset { client, kind },
        Mark::Take { tag, client, .. } => StepRef::Take { client, tag },
    }
}

/// What the step of a mark answered.
fn reply_of<'a>(mark: Mark, answers: &'a [Answer], nothing: &'a Answer) -> &'a Answer
    requires answer { HasAnswer (length answers.now) mark }
    requires nothing { nothing.now ≡ no_bytes }
    ensures { result.now ≡ reply_marked answers.now mark }
{
    match mark {
        Mark::Take { place, .. } => &answers[place as usize],
        Mark::Put { .. }
        | Mark::Issue { .. }
        | Mark::Accept { .. }
        | Mark::Complete { .. }
        | Mark::Recover
        | Mark::Reset { .. } => nothing,
    }
}

/// The mark of a step of the engine.
fn mark_of(step: EngineStep) -> Mark
    ensures value { (requests : List Request) (answers : List Answer)
        → entry_marked requests answers result ≡ record { step = as_step step; reply = no_bytes } }
    ensures placed { (n : ℕ) → HasRequest n result × HasAnswer n result }
{
    match step {
        EngineStep::Issue { tag } => Mark::Issue { tag },
        EngineStep::Accept { tag } => Mark::Accept { tag },
        EngineStep::Complete { tag } => Mark::Complete { tag },
        EngineStep::Recover => Mark::Recover,
    }
}

/// Takes room for one more, whose place has 32 bits.
fn take_room<T>(items: &mut Vec<T>) -> Result<(), AllocError>
    ensures items { items.new.items ≡ items.old.items }
    ensures room { OnOk result (has_room (vec_len items.new) (vec_capacity items.new) ≡ true) }
{
    if items.len() >= PLACES {
        return Err(AllocError);
    }
    items.reserve(1)
}

/// The place of one more, for which there is room.
fn place_behind<T>(items: &Vec<T>) -> u32
    requires { has_room (vec_len items.now) (vec_capacity items.now) ≡ true }
    ensures { result ≡ length items.now.items }
{
    items.len() as u32
}

/// Whether an answer is the last one once more, which is seen without a look at bytes. False says nothing.
fn is_last_again(answers: &[Answer], answer: &Answer) -> bool
    ensures { result ≡ true → IsLast answers.now answer.now }
{
    let [.., last] = answers else {
        return false;
    };
    match (last, answer) {
        (Answer::Done(bytes), Answer::Done(more)) => bytes.are_the_same_zeros(more),
        _ => false,
    }
}

/// Keeps an answer, for which there is room, and tells its place. Where it is the last one once more, it has that one's place:
/// reads in a row, of one length, of sectors that were never written.
fn keep_answer(answers: &mut Vec<Answer>, answer: Answer) -> u32
    requires { has_room (vec_len answers.old) (vec_capacity answers.old) ≡ true }
    ensures { IsKept answers.old.items answers.new.items answer result }
{
    if is_last_again(answers.as_slice(), &answer) {
        return (answers.len() - 1) as u32;
    }
    let place = place_behind(answers);
    answers.push_reserved(answer);
    place
}

impl Entries {
    ghost use Rattle.std.specs.Prelude.{◌≡◌, ◌<◌, ◌^◌, ◌++◌, ◌∷◌, [], length, option_map, slice_get, true, OnOk};
    ghost use Rattle.port_history.specs.Entries.{entry_lent};
    ghost use Rattle.port_history.specs.Ready.{as_step};
    ghost use Rattle.port_history.specs.Requests.{no_bytes};
    ghost use Rattle.port_history.specs.declared.step.Step.TheVariants as steps;

    /// No entries.
    pub fn new(alloc: Global) -> Entries
        ensures { result.items ≡ [] }
    {
        Entries {
            marks: Vec::new(alloc),
            requests: Vec::new(alloc),
            answers: Vec::new(alloc),
            nothing: Answer::nothing(),
        }
    }

    /// How many entries there are.
    pub fn len(&self) -> usize
        ensures value { result ≡ length self.now.items }
        ensures bound { result < 2 ^ 63 }
    {
        self.marks.len()
    }

    /// The entry at a place, from 0, if there is one.
    pub fn get(&self, place: usize) -> Option<EntryRef<'_>>
        ensures { option_map entry_lent result ≡ slice_get self.now.items place }
    {
        match self.marks.get(place) {
            None => None,
            Some(mark) => {
                let step = step_of(*mark, self.requests.as_slice());
                let reply = reply_of(*mark, self.answers.as_slice(), &self.nothing);
                Some(EntryRef { step, reply })
            }
        }
    }

    /// Takes room for a step that is no Put and no Take.
    ///
    /// # Errors
    ///
    /// `AllocError`. The entries stay in any case.
    pub fn reserve(&mut self) -> Result<(), AllocError>
        ensures items { self.new.items ≡ self.old.items }
        ensures room { OnOk result (self.new.room ≡ true) }
    {
        self.marks.reserve(1)
    }

    /// Takes room for a Put.
    ///
    /// # Errors
    ///
    /// `AllocError`. The entries stay in any case.
    pub fn reserve_put(&mut self) -> Result<(), AllocError>
        ensures items { self.new.items ≡ self.old.items }
        ensures room { OnOk result (self.new.room ≡ true) }
        ensures request_room { OnOk result (self.new.request_room ≡ true) }
    {
        take_room(&mut self.requests)?;
        self.marks.reserve(1)
    }

    /// Takes room for a Take.
    ///
    /// # Errors
    ///
    /// `AllocError`. The entries stay in any case.
    pub fn reserve_take(&mut self) -> Result<(), AllocError>
        ensures items { self.new.items ≡ self.old.items }
        ensures room { OnOk result (self.new.room ≡ true) }
        ensures answer_room { OnOk result (self.new.answer_room ≡ true) }
    {
        take_room(&mut self.answers)?;
        self.marks.reserve(1)
    }

    /// Adds a step of the engine, for which there is room.
    pub fn push_engine(&mut self, step: EngineStep)
        requires { self.old.room ≡ true }
        ensures { self.new.items
            ≡ self.old.items ++ record { step = as_step step; reply = no_bytes } ∷ [] }
    {
        self.marks.push_reserved(mark_of(step));
    }

    /// Adds a Reset, for which there is room.
    pub fn push_reset(&mut self, client: u32, kind: ResetKind)
        requires { self.old.room ≡ true }
        ensures { self.new.items
            ≡ self.old.items ++ record { step = steps.Reset client kind; reply = no_bytes } ∷ [] }
    {
        self.marks.push_reserved(Mark::Reset { kind, client });
    }

    /// Adds a Put, for which there is room.
    pub fn push_put(&mut self, client: u32, tag: Tag, request: Request)
        requires room { self.old.room ≡ true }
        requires request_room { self.old.request_room ≡ true }
        ensures { self.new.items ≡ self.old.items
            ++ record { step = steps.Put client tag request; reply = no_bytes } ∷ [] }
    {
        let place = place_behind(&self.requests);
        self.requests.push_reserved(request);
        self.marks.push_reserved(Mark::Put { tag, client, place });
    }

    /// Adds a Take and what it took, for which there is room.
    pub fn push_take(&mut self, client: u32, tag: Tag, reply: Answer)
        requires room { self.old.room ≡ true }
        requires answer_room { self.old.answer_room ≡ true }
        ensures { self.new.items ≡ self.old.items
            ++ record { step = steps.Take client tag; reply = reply } ∷ [] }
    {
        let place = keep_answer(&mut self.answers, reply);
        self.marks.push_reserved(Mark::Take { tag, client, place });
    }
}
