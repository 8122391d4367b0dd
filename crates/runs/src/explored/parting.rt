//! A part of a search, length by length.

ghost use Rattle.std.specs.Prelude.{◌≡◌, ◌<◌, ◌≤◌, [], ◌++◌, nat_lt, length, IfOk, OnOk, None, Some};
ghost use Rattle.std.specs.List.{fold};
ghost use Rattle.runs.specs.Findings.{nothing_found};
ghost use Rattle.runs.specs.Lists.{with_list_tried};
ghost use Rattle.runs.specs.Shares.{IsShare, divided, next_front, told_in, front_of, segment_of};
ghost use Rattle.runs.specs.Merges.{rows_found};

use crate::explored::findings::Findings;
use crate::explored::front::Front;
use crate::explored::lines::Lines;
use crate::explored::part_rows::append_segment;
use crate::explored::rows::Rows;
use crate::explored::search::{Found, Search};
use crate::explored::share::Share;
use std::alloc::Global;
use std::io::Write;
use tool::{Options, RunError};

impl Search {
    /// What is found behind the lists of a part, and the lists that are one letter longer.
    fn try_front<E: Write>(
        &self,
        alloc: Global,
        options: &Options,
        share: Share,
        front: &Front,
        progress: &mut E,
    ) -> Result<(Findings, Front), RunError>
        ensures findings { IfOk result (λ found. found.0
            ≡ fold (with_list_tried options.now self.now) nothing_found (told_in share front.now)) }
        ensures next { IfOk result (λ found. found.1 ≡ next_front options.now self.now front.now) }
    {
        let mut found = Found {
            findings: Findings::new(alloc),
            next: Lines::new(alloc),
        };
        self.try_lists(alloc, options, &mut found, front.lists.as_slice(), progress)?;
        let next = Front {
            lists: found.next,
            is_divided: front.is_divided,
        };
        if front.is_told(share) {
            return Ok((found.findings, next));
        }
        Ok((Findings::new(alloc), next))
    }

    /// The rows of what a part finds; none, where lists of one length reach the limit.
    #[tactic(auto, unfolding(crate::specs::Merges::rows_found, crate::specs::Shares::front_of))]
    pub fn rows_found<E: Write>(
        &self,
        alloc: Global,
        options: &Options,
        steps: u32,
        share: Share,
        progress: &mut E,
    ) -> Result<Option<Rows>, RunError>
        requires { IsShare share }
        ensures { IfOk result (λ rows. rows ≡ rows_found options.now self.now share steps) }
    {
        let mut front = Front::new(alloc)?;
        let mut rows = Rows::new(alloc);
        for size in 0..steps {
            if self.limit <= front.lists.len() {
                return Ok(None);
            }
            let own = front.divided(alloc, share)?;
            let (segment, next) = self.try_front(alloc, options, share, &own, progress)?;
            append_segment(alloc, &mut rows, u64::from(size), &segment)?;
            front = next;
        }
        Ok(Some(rows))
    }
}
