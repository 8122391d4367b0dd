//! Lines that write a call by name.

ghost use Rattle.std.specs.Prelude.{◌≡◌, ◌-◌, ◌^◌, if◌then◌else◌};
ghost use Rattle.script_lines.specs.Numbers.{number_up_to};
ghost use Rattle.script_lines.specs.Words.{first_word, after_word};
ghost use Rattle.script_lines.specs.Said.{com_id_said};

use crate::named_lines::phrase::tokens_behind;
use crate::named_lines::verb::{CallVerb, call_verb_of};
use crate::{Words, number_up_to};
use std::alloc::{AllocError, Global};
use tcg_tokens::Bytes;

/// A call that a line writes by name.
#[derive(Drop)]
pub struct NamedLine {
    /// Whose session it is.
    pub client: u32,
    /// The ComID, where the line begins a session.
    pub com_id: Option<u16>,
    pub tokens: Bytes,
}

/// The number of a client.
fn client_said(word: &[u8]) -> Option<u32>
    ensures { result ≡ number_up_to (2 ^ 32 - 1) word.now }
{
    match number_up_to(u64::from(u32::MAX), word) {
        Some(client) => Some(client as u32),
        None => None,
    }
}

/// The ComID, where the line begins a session.
fn com_id_said(begins_session: bool, words: &mut Words<'_>) -> Option<Option<u16>>
    ensures said { result ≡ com_id_said begins_session (first_word words.old.rest.now) }
    ensures rest { words.new.rest.now ≡ (if begins_session then after_word words.old.rest.now
        else words.old.rest.now) }
{
    if !begins_session {
        return Some(None);
    }
    match number_up_to(u64::from(u16::MAX), words.next_word()) {
        Some(com_id) => Some(Some(com_id as u16)),
        None => None,
    }
}

impl NamedLine {
    ghost use Rattle.std.specs.Prelude.{◌≡◌, IfOk};
    ghost use Rattle.script_lines.specs.Said.{line_of_verb, named_line_said};

    /// What a line of this verb says.
    pub(crate) fn of_verb(
        alloc: Global,
        verb: CallVerb,
        text: &[u8],
    ) -> Result<Option<NamedLine>, AllocError>
        ensures { IfOk result (λ line. line ≡ line_of_verb verb text.now) }
    {
        let mut words = Words::new(text);
        words.next_word();
        let Some(client) = client_said(words.next_word()) else {
            return Ok(None);
        };
        let Some(com_id) = com_id_said(verb.begins_session(), &mut words) else {
            return Ok(None);
        };
        match tokens_behind(alloc, verb, &mut words)? {
            Some(tokens) => Ok(Some(NamedLine {
                client,
                com_id,
                tokens,
            })),
            None => Ok(None),
        }
    }

    /// What a line says: `start 1 4096 LockingSP Admin1 "OPALMSID"`, `get 1 Locking_Range1 RangeStart RangeLength`,
    /// `set 1 Locking_Range1 ReadLocked=0 WriteLocked=0`; `specs/Said` lists the lines. `None` where it is none of these.
    ///
    /// # Errors
    ///
    /// An allocation was refused.
    pub fn parse(alloc: Global, text: &[u8]) -> Result<Option<NamedLine>, AllocError>
        ensures { IfOk result (λ line. line ≡ named_line_said text.now) }
    {
        let mut words = Words::new(text);
        match call_verb_of(words.next_word()) {
            Some(verb) => NamedLine::of_verb(alloc, verb, text),
            None => Ok(None),
        }
    }
}
