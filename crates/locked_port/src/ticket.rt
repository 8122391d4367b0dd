//! What clients are told of their steps.

use fis::Tag;
use port::{Answer, Step};

/// A request that was put: the client, its tag, and the number of the Put.
#[derive(Clone, Copy, Debug, PartialEq, Eq)]
pub struct Ticket {
    pub client: u32,
    pub tag: Tag,
    pub number: u64,
}

/// A step of the history, as its client was told: its number, and what it answered.
#[derive(Debug, Drop, PartialEq, Eq)]
pub struct Receipt {
    pub number: u64,
    pub step: Step,
    pub reply: Answer,
}
