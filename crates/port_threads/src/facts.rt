//! What a run tells.

ghost use Rattle.std.specs.Prelude.{◌≡◌, IfOk, string_bytes};
ghost use Rattle.port_threads.specs.Works.{rounds_line, steps_line, receipts_line, facts_text};

use locked_port::{Closed, Receipt, check_receipts};
use std::alloc::{AllocError, Global};

/// What a run tells: how many rounds its clients made, how many steps of its port are clients', and whether the
/// clients' receipts are those of its history.
#[derive(Clone, Copy, Debug, PartialEq, Eq)]
pub struct Facts {
    pub rounds: u64,
    pub client_steps: u64,
    pub receipts: bool,
}

impl Facts {
    ghost use Rattle.std.specs.Prelude.{◌≡◌, ◌↔◌, IsTrue};
    ghost use Rattle.port_threads.specs.Works.{AreWhole};

    /// What a port that is out of its lock tells, where its clients made so many rounds and have these receipts.
    pub(crate) fn of(closed: &Closed, rounds: u64, receipts: &[Receipt]) -> Facts
        ensures rounds { result.rounds ≡ rounds }
        ensures steps { result.client_steps ≡ closed.now.client_steps }
        ensures whole { IsTrue result.receipts ↔ AreWhole closed.now.port.history receipts.now }
    {
        Facts {
            rounds,
            client_steps: closed.client_steps,
            receipts: check_receipts(closed.port.history(), receipts),
        }
    }
}

fn rounds_line(alloc: Global, rounds: u64) -> Result<String, AllocError>
    ensures { IfOk result (λ text. string_bytes text ≡ rounds_line rounds) }
{
    let text = format!(in alloc; "rounds {rounds}\n")?;
    Ok(text)
}

fn steps_line(alloc: Global, client_steps: u64) -> Result<String, AllocError>
    ensures { IfOk result (λ text. string_bytes text ≡ steps_line client_steps) }
{
    let text = format!(in alloc; "client steps {client_steps}\n")?;
    Ok(text)
}

fn receipts_line<'a>(is_whole: bool) -> &'a str
    ensures { result.now ≡ receipts_line is_whole }
{
    if is_whole {
        "receipts ok\n"
    } else {
        "receipts wrong\n"
    }
}

/// The lines of the facts.
pub(crate) fn facts_text(alloc: Global, facts: &Facts) -> Result<String, AllocError>
    ensures { IfOk result (λ text. string_bytes text ≡ facts_text facts.now) }
{
    let mut text = rounds_line(alloc, facts.rounds)?;
    let steps = steps_line(alloc, facts.client_steps)?;
    text.push_str(&steps)?;
    text.push_str(receipts_line(facts.receipts))?;
    Ok(text)
}
