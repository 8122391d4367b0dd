//! What the engine may do (AHCI 1.3.1, 5.3 and 5.5.1).

ghost use Rattle.std.specs.Prelude.{◌≡◌, ◌<◌, ◌≤◌, ◌+◌, ◌^◌, ◌++◌, List, [], None, MatchOption, length};
ghost use Rattle.hba_regs.specs.Registers.{has_bits};
ghost use Rattle.hba.specs.Ready.{IsLeast, picked};
ghost use Rattle.hba.specs.Showing.{fault_of};

use crate::hba::Hba;
use arrayvec::ArrayVec;
use audit::rules::Rule;
use drive::Why;
use fis::{RegH2d, Tag};
use host_memory::hba_memory::Miss;
use thiserror::Error;

/// A piece of work of the engine.
#[derive(Clone, Copy, Debug, Default, PartialEq, Eq)]
pub enum Work {
    /// The device tells its signature.
    #[default]
    Signature,
    /// The command that is issued under a tag is fetched.
    Fetch(Tag),
    /// What the drive holds under a tag is completed.
    Complete(Tag),
}

/// What of the host's memory was not there.
#[derive(Clone, Copy, Debug, PartialEq, Eq)]
pub enum MemoryFault {
    /// The command header. The command was not done, unless its header could be read, and the count of bytes that
    /// moved not be written.
    List,
    /// The command table, or a descriptor that is wanted; or the header is none of a command. Behind the act where it
    /// was wanted for data from the drive.
    Table,
    /// A block of data, or the PRDT names fewer bytes than go to the drive. Behind the act where data come from the
    /// drive; blocks before it have their bytes.
    Data,
    /// The place of a received FIS, behind the act; the registers show it all the same.
    Fis,
}

/// What is told of it.
pub(crate) fn fault_of(miss: Miss) -> MemoryFault
    ensures { result ≡ fault_of miss }
{
    match miss {
        Miss::List => MemoryFault::List,
        Miss::Table => MemoryFault::Table,
        Miss::Block | Miss::Overflow => MemoryFault::Data,
        Miss::Fis => MemoryFault::Fis,
    }
}

/// How a piece of work went.
#[derive(Clone, Copy, Debug, PartialEq, Eq)]
pub enum Done {
    /// The device's signature was told.
    Posted,
    /// The drive took the command, or completed it.
    Served,
    /// The FIS was no command, or it came to a device in reset.
    Control,
    /// The host's memory failed, and the HBA has halted.
    Fault(MemoryFault),
}

/// A command that the drive was given: its FIS as it is read, what came with it, and by what it was refused, if it was.
#[derive(Drop)]
pub struct Heard {
    pub header: RegH2d,
    /// The data to the drive; none of a command that takes none.
    pub payload: Vec<u8>,
    /// What denied the command, or the item that it sent.
    pub denied: Option<Why>,
    /// Which rule refused it, where nothing denied it.
    pub rule: Option<Rule>,
}

/// How a piece of work went, and the command that it gave to the drive.
#[derive(Drop)]
pub struct Outcome {
    pub done: Done,
    pub heard: Option<Heard>,
}

/// A piece of work, how it went, and the command that it gave to the drive.
#[derive(Drop)]
pub struct TurnedHeard {
    pub work: Work,
    pub done: Done,
    pub heard: Option<Heard>,
}

/// A piece of work, how it went, and what denied the command that it fetched.
#[derive(Debug, Drop, PartialEq, Eq)]
pub struct Turned {
    pub work: Work,
    pub done: Done,
    pub denied: Option<Why>,
}

/// Why a piece of work was not done.
#[derive(Clone, Copy, Debug, PartialEq, Eq, Error)]
pub enum HbaError {
    /// It is not to be done now.
    #[error("the engine has no such work")]
    NotReady,
    /// Memory for the payload or the answer.
    #[error("out of memory")]
    OutOfMemory,
}

/// Whether a tag is among those of a word.
fn has_tag(tags: u32, tag: Tag) -> bool
    ensures { result ≡ has_bits tags (2 ^ tag) }
{
    let bit = 1 << tag.number();
    tags & bit == bit
}

/// The least tag among those of a word.
fn least_tag(tags: u32) -> Option<Tag>
    ensures { MatchOption result (tags ≡ 0) (λ tag. IsLeast tags tag) }
{
    if tags == 0 {
        return None;
    }
    Some(Tag::low_bits(tags.trailing_zeros() as u8))
}

impl Hba {
    ghost use Rattle.hba.specs.History.{Opened, Operation, AgreesHba};
    ghost use Rattle.hba.specs.Ready.{is_ready_on, is_ready_after, if_ready, completable, fetches, completions, ready_on, ready_after, picked};
    ghost use Rattle.fis.specs.Tags.{slot_count};

    /// Whether the engine may do a piece of work.
    pub fn is_ready(&self, work: &Work) -> bool
        ensures stands { result ≡ is_ready_on self.now work.now }
        ensures told { (o : Opened) (list : List Operation) → AgreesHba self.now o list
            → result ≡ is_ready_after o list work.now }
    {
        self.may(work)
    }

    fn may(&self, work: &Work) -> bool
        ensures { result ≡ is_ready_on self.now work.now }
    {
        match *work {
            Work::Signature => self.registers.may_sign(),
            Work::Fetch(tag) => self.registers.may_fetch(tag),
            Work::Complete(tag) => self.registers.may_complete(tag) && self.drive.holds(tag),
        }
    }

    /// Adds a piece of work, if it may be done.
    fn add(&self, works: &mut ArrayVec<Work, 65>, is_ready: bool, work: Work)
        requires few { length works.old.items < 65 }
        requires ready { is_ready ≡ is_ready_on self.now work }
        ensures items { works.new.items ≡ works.old.items ++ if_ready (is_ready_on self.now) work }
        ensures few { length works.new.items ≤ length works.old.items + 1 }
    {
        if is_ready {
            works.push(work);
        }
    }

    #[tactic(auto, using(crate::proofs::Works::one_fetch, crate::proofs::Tags::fetch_tag))]
    fn add_fetches(&self, works: &mut ArrayVec<Work, 65>)
        requires { length works.old.items ≤ 1 }
        ensures items { works.new.items
            ≡ works.old.items ++ fetches (is_ready_on self.now) slot_count }
        ensures few { length works.new.items ≤ 33 }
    {
        let tags = self.registers.fetchable();
        for number in 0..32 {
            let tag = Tag::low_bits(number);
            self.add(works, has_tag(tags, tag), Work::Fetch(tag));
        }
    }

    /// Whether what the drive holds under a tag can be completed, by the tags that the registers name.
    #[tactic(auto, using(crate::proofs::Tags::complete_tag))]
    fn can_complete(&self, tags: u32, tag: Tag) -> bool
        requires { tags ≡ completable self.now.registers }
        ensures { result ≡ is_ready_on self.now (Work.Complete tag) }
    {
        has_tag(tags, tag) && self.drive.holds(tag)
    }

    #[tactic(auto, using(crate::proofs::Works::one_completion))]
    fn add_completions(&self, works: &mut ArrayVec<Work, 65>)
        requires { length works.old.items ≤ 33 }
        ensures { works.new.items
            ≡ works.old.items ++ completions (is_ready_on self.now) slot_count }
    {
        let tags = self.registers.completable();
        for number in 0..32 {
            let tag = Tag::low_bits(number);
            self.add(works, self.can_complete(tags, tag), Work::Complete(tag));
        }
    }

    /// The work that may be done: the signature, then fetches and then completions, the least tag first.
    #[tactic(auto, using(crate::proofs::Works::ready_same))]
    pub fn ready(&self) -> ArrayVec<Work, 65>
        ensures stands { result.items ≡ ready_on self.now }
        ensures told { (o : Opened) (list : List Operation) → AgreesHba self.now o list
            → result.items ≡ ready_after o list }
    {
        let works = self.works();
        works
    }

    fn works(&self) -> ArrayVec<Work, 65>
        ensures { result.items ≡ ready_on self.now }
    {
        let mut works = ArrayVec::new();
        self.add(&mut works, self.registers.may_sign(), Work::Signature);
        self.add_fetches(&mut works);
        self.add_completions(&mut works);
        works
    }

    /// The first completion that may be done.
    fn first_completion(&self) -> Option<Work>
        ensures { result ≡ picked 0 (completions (is_ready_on self.now) slot_count) }
    {
        let tags = self.registers.completable();
        if tags == 0 {
            return None;
        }
        for number in 0..32 {
            let tag = Tag::low_bits(number);
            if self.can_complete(tags, tag) {
                return Some(Work::Complete(tag));
            }
        }
        None
    }

    /// The first piece of work that may be done.
    fn first(&self) -> Option<Work>
        ensures { result ≡ picked 0 (ready_on self.now) }
    {
        if self.registers.may_sign() {
            return Some(Work::Signature);
        }
        match least_tag(self.registers.fetchable()) {
            Some(tag) => Some(Work::Fetch(tag)),
            None => self.first_completion(),
        }
    }

    /// The work of this number, modulo how many there are.
    pub(crate) fn pick(&self, choice: usize) -> Option<Work>
        ensures { result ≡ picked choice (ready_on self.now) }
    {
        if choice == 0 {
            return self.first();
        }
        let works = self.works();
        let work = pick(works.as_slice(), choice);
        work
    }
}

/// The work of a number, modulo how many there are.
fn pick(works: &[Work], choice: usize) -> Option<Work>
    ensures { result ≡ picked choice works.now }
{
    if works.is_empty() {
        return None;
    }
    Some(works[choice % works.len()])
}
