//! The steps of a port.

use crate::request::{Answer, Request};
use fis::Tag;
use history::ResetKind;

/// A step of a port.
#[derive(Debug, Drop, PartialEq, Eq)]
pub enum Step {
    /// A client puts a request in a free slot.
    Put {
        client: u32,
        tag: Tag,
        request: Request,
    },
    /// The port issues a prepared command.
    Issue {
        tag: Tag,
    },
    /// The device takes an issued command.
    Accept {
        tag: Tag,
    },
    /// The device moves the data of an accepted command and ends it.
    Complete {
        tag: Tag,
    },
    /// The port recovers from a failed command.
    Recover,
    /// A client resets the port and the device.
    Reset {
        client: u32,
        kind: ResetKind,
    },
    /// A client takes its answer, and the slot is free.
    Take {
        client: u32,
        tag: Tag,
    },
}

/// A step that the port's engine does by itself.
#[derive(Clone, Copy, Debug, Default, PartialEq, Eq)]
pub enum EngineStep {
    Issue { tag: Tag },
    Accept { tag: Tag },
    Complete { tag: Tag },
    #[default]
    Recover,
}

/// A step of the history, and what it answered: the answer that a Take took, else that it is done,
/// with no bytes.
#[derive(Debug, Drop, PartialEq, Eq)]
pub struct Entry {
    pub step: Step,
    pub reply: Answer,
}
