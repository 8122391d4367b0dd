//! The slots of held transfers (ACS-3, NCQ feature set).

ghost use Rattle.std.specs.Prelude.{◌≡◌, ◌<◌, ℕ, Option, None, Some, length, is_some};
ghost use Rattle.fis.specs.Tags.{slot_count};

use crate::transfer::Held;
use device_data::Failure;
use fis::{SLOT_COUNT, Tag};

/// What is held under each tag, and how the queue has failed. A failed queue holds nothing.
#[derive(Clone, Copy, Debug, PartialEq, Eq)]
pub struct Queue {
    pub slots: [Option<Held>; SLOT_COUNT],
    pub failure: Option<Failure>,
}

impl Queue {
    ghost use Rattle.history.specs.Decisions.{any_below};
    ghost use Rattle.drive.specs.Transfer.{StandsOnDrive};
    ghost use Rattle.drive.specs.Queue.{slot_at, held_at, empty_queue, failed_queue, mended_queue, with_slot, AllFit};

    /// A queue that holds nothing and has not failed.
    #[tactic(auto, unfolding(crate::specs::Queue::empty_slots), using(crate::proofs::Slots::none_fit))]
    pub(crate) fn new() -> Queue
        ensures empty { result ≡ empty_queue }
        ensures fits { (sectors mbr : ℕ) → AllFit sectors mbr result }
    {
        Queue {
            slots: [None; SLOT_COUNT],
            failure: None,
        }
    }

    /// What is held under the tag.
    pub(crate) fn at(&self, tag: Tag) -> Option<Held>
        ensures value { result ≡ slot_at self.now.slots tag }
        ensures slot { tag < slot_count }
    {
        self.slots[usize::from(tag.number())]
    }

    /// Whether something is held.
    pub(crate) fn is_busy(&self) -> bool
        ensures { result ≡ any_below (λ tag. is_some (held_at self.now tag)) slot_count }
    {
        for tag in 0..SLOT_COUNT {
            if self.slots[tag].is_some() {
                return true;
            }
        }
        false
    }

    /// Holds a transfer under the tag.
    #[tactic(auto, using(crate::proofs::Slots::fit_with))]
    pub(crate) fn hold(&mut self, tag: Tag, held: Held)
        ensures after { self.new ≡ with_slot tag (Some held) self.old }
        ensures slot { tag < slot_count }
        ensures fits { (sectors mbr : ℕ) → StandsOnDrive sectors mbr held
            → AllFit sectors mbr self.old → AllFit sectors mbr self.new }
    {
        self.slots[usize::from(tag.number())] = Some(held);
    }

    /// Lets what is held under the tag go.
    #[tactic(auto, using(crate::proofs::Slots::fit_without))]
    pub(crate) fn release(&mut self, tag: Tag)
        ensures after { self.new ≡ with_slot tag None self.old }
        ensures slot { tag < slot_count }
        ensures fits { (sectors mbr : ℕ) → AllFit sectors mbr self.old
            → AllFit sectors mbr self.new }
    {
        self.slots[usize::from(tag.number())] = None;
    }

    /// Drops all that is held.
    #[tactic(auto, unfolding(crate::specs::Queue::empty_slots), using(crate::proofs::Slots::none_fit))]
    pub(crate) fn fail(&mut self, failure: Failure)
        ensures after { self.new ≡ failed_queue failure }
        ensures fits { (sectors mbr : ℕ) → AllFit sectors mbr self.new }
    {
        let slots = [None; SLOT_COUNT];
        *self = Queue {
            slots,
            failure: Some(failure),
        };
    }

    /// Ends the failure.
    pub(crate) fn mend(&mut self)
        ensures { self.new ≡ mended_queue self.old }
    {
        self.failure = None;
    }
}
