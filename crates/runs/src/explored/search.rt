//! All lists of at most so many letters, from the shortest on.

ghost use Rattle.std.specs.Prelude.{◌≡◌, IfOk, OnOk};
ghost use Rattle.std.specs.List.{fold};
ghost use Rattle.runs.specs.Lists.{with_list, with_longer, with_list_tried, lists_of, findings_of};

use crate::explored::answers::{goes_on, tries_behind};
use crate::explored::findings::Findings;
use crate::explored::lines::Lines;
use crate::explored::tries::Try;
use basics::Bytes;
use std::alloc::{AllocError, Global};
use std::io::Write;
use tool::{Options, RunError};

/// After so many lists of one length it is told how many were gone on from.
const TOLD: usize = 4096;

/// What is explored.
#[derive(Drop)]
pub struct Search {
    /// The lines in front of the letters, as text.
    pub opening: Bytes,
    /// The lines of which lists are made.
    pub letters: Lines,
    /// How many lists of one length are gone on from, at most.
    pub limit: usize,
    /// A text that is looked for; empty where failures are.
    pub find: Bytes,
}

/// How far a search has come: what was found, and the lists that are gone on from next.
#[derive(Drop)]
pub(crate) struct Found {
    pub findings: Findings,
    pub next: Lines,
}

/// The lists that are gone on from, with those of these that are.
fn add_lists(
    alloc: Global,
    limit: usize,
    lists: &mut Lines,
    tries: &[Try],
) -> Result<(), AllocError>
    ensures { OnOk result (lists.new ≡ fold (with_list limit) lists.old tries.now) }
{
    for item in tries {
        if goes_on(item.answer.as_slice()) && lists.len() < limit {
            lists.push(alloc, item.list.as_slice())?;
        }
    }
    Ok(())
}

impl Search {
    /// Puts each letter behind a list.
    fn try_list(
        &self,
        alloc: Global,
        options: &Options,
        found: &mut Found,
        list: &[u8],
    ) -> Result<(), RunError>
        ensures findings { OnOk result (found.new.findings
            ≡ with_list_tried options.now self.now found.old.findings list.now) }
        ensures next { OnOk result (found.new.next
            ≡ with_longer options.now self.now found.old.next list.now) }
    {
        let opening = self.opening.as_slice();
        let tries = tries_behind(alloc, options, opening, &self.letters, list)?;
        let find = self.find.as_slice();
        found.findings.add(alloc, find, tries.as_slice())?;
        add_lists(alloc, self.limit, &mut found.next, tries.as_slice())?;
        Ok(())
    }

    /// Puts each letter behind each of these lists, and tells now and then how many are done.
    pub(crate) fn try_lists<E: Write>(
        &self,
        alloc: Global,
        options: &Options,
        found: &mut Found,
        lists: &[Bytes],
        progress: &mut E,
    ) -> Result<(), RunError>
        ensures findings { OnOk result (found.new.findings
            ≡ fold (with_list_tried options.now self.now) found.old.findings lists.now) }
        ensures next { OnOk result (found.new.next
            ≡ fold (with_longer options.now self.now) found.old.next lists.now) }
    {
        let count = lists.len();
        for (place, list) in lists.iter().enumerate() {
            if place % TOLD == TOLD - 1 {
                writeln!(progress, "{place} of {count} lists").map_err(|_| RunError::Write)?;
            }
            self.try_list(alloc, options, found, list.as_slice())?;
        }
        Ok(())
    }

    /// What lists of at most so many letters lead to.
    #[tactic(auto, unfolding(crate::specs::Lists::lists_of, crate::specs::Lists::findings_of))]
    pub fn run<E: Write>(
        &self,
        alloc: Global,
        options: &Options,
        steps: u32,
        progress: &mut E,
    ) -> Result<Findings, RunError>
        ensures { IfOk result (λ findings. findings
            ≡ findings_of options.now self.now steps) }
    {
        let mut lists = Lines::new(alloc);
        lists.push(alloc, b"")?;
        let mut findings = Findings::new(alloc);
        for _size in 0..steps {
            let mut found = Found {
                findings,
                next: Lines::new(alloc),
            };
            self.try_lists(alloc, options, &mut found, lists.as_slice(), progress)?;
            findings = found.findings;
            lists = found.next;
        }
        Ok(findings)
    }
}
