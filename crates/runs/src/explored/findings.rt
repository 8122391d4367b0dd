//! What was found on the way.

ghost use Rattle.std.specs.Prelude.{◌≡◌, ◌++◌, IfOk, OnOk};
ghost use Rattle.std.specs.List.{fold};
ghost use Rattle.runs.specs.Findings.{answer_kinds, state_of, nothing_found, noting_try, noting_tries};

use crate::explored::kinds::{Kinds, append_kind_text};
use crate::explored::lines::Lines;
use crate::explored::tries::Try;
use std::alloc::{AllocError, Global};

/// What was found on the way.
#[derive(Drop)]
pub struct Findings {
    /// How many lists were run.
    pub lists: u64,
    /// What the letters print next, for each list that letters were put behind; each once.
    pub states: Lines,
    /// The kinds of lines that were looked for.
    pub kinds: Kinds,
}

/// Appends the kinds of lines that an answer has.
fn append_kind_lines(alloc: Global, text: &mut Vec<u8>, answer: &[u8]) -> Result<(), AllocError>
    ensures { OnOk result (text.new.items ≡ text.old.items ++ answer_kinds answer.now) }
{
    let lines = Lines::of_script(alloc, answer)?;
    for line in lines.as_slice() {
        append_kind_text(text, line.as_slice())?;
        text.extend_from_slice(b"\n")?;
    }
    Ok(())
}

/// What the letters print next, which is what tells a state from others.
fn state_of(alloc: Global, tries: &[Try]) -> Result<Vec<u8>, AllocError>
    ensures { IfOk result (λ state. state.items ≡ state_of tries.now) }
{
    let mut state = Vec::new(alloc);
    for item in tries {
        append_kind_lines(alloc, &mut state, item.answer.as_slice())?;
        state.extend_from_slice(b"\n")?;
    }
    Ok(state)
}

impl Findings {
    /// Nothing was found yet.
    pub fn new(alloc: Global) -> Findings
        ensures { result ≡ nothing_found }
    {
        Findings {
            lists: 0,
            states: Lines::new(alloc),
            kinds: Kinds::new(alloc),
        }
    }

    /// The kinds of what lists printed, as far as they are looked for.
    fn add_kinds(&mut self, alloc: Global, find: &[u8], tries: &[Try]) -> Result<(), AllocError>
        ensures kinds { OnOk result
            (self.new.kinds ≡ fold (noting_try find.now) self.old.kinds tries.now) }
        ensures lists { self.new.lists ≡ self.old.lists }
        ensures states { self.new.states ≡ self.old.states }
    {
        for item in tries {
            self.kinds.add_try(alloc, find, item)?;
        }
        Ok(())
    }

    /// What the letters behind one more list print.
    pub fn add(&mut self, alloc: Global, find: &[u8], tries: &[Try]) -> Result<(), AllocError>
        ensures { OnOk result (self.new ≡ noting_tries find.now self.old tries.now) }
    {
        let state = state_of(alloc, tries)?;
        self.states.add(alloc, &state)?;
        self.add_kinds(alloc, find, tries)?;
        self.lists = self.lists.wrapping_add(tries.len() as u64);
        Ok(())
    }
}
