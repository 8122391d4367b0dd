//! The texts of parts, joined to what one search prints.

ghost use Rattle.std.specs.Prelude.{◌≡◌, ◌≤◌, ◌+◌, true, not, is_some, IfOk};
ghost use Rattle.tool.specs.Outcomes.{Yields};
ghost use Rattle.runs.specs.Merges.{has_its_place, all_fit, are_all_parts, parts_in, merge_of_parts, merge_of};

use crate::explored::merge::{is_same_search, merged};
use crate::explored::part::{Part, Parts, part_in};
use crate::explored::script::tell_findings;
use basics::Bytes;
use std::alloc::Global;
use std::io::Write;
use thiserror::Error;
use tool::RunError;

/// Why texts are not the parts of a search.
#[derive(Clone, Copy, Debug, PartialEq, Eq, Error)]
pub enum PartFault {
    #[error("it is no whole part of a search")]
    Damaged,
    #[error("it is a part of another search than the first")]
    OtherSearch,
    #[error("it is one of {count} parts, and {there} are given")]
    Count { count: u64, there: usize },
    #[error("it is part {number}, where part {wanted} is wanted")]
    Number { number: u64, wanted: u64 },
}

/// Tells what is wrong with the text in a place, by its name.
fn tell_fault<E: Write>(
    names: &[&str],
    place: usize,
    fault: PartFault,
    faults: &mut E,
) -> Result<(), RunError> {
    let name = names.get(place).copied().unwrap_or("");
    writeln!(faults, "error: {name}: {fault}").map_err(|_| RunError::Write)
}

/// What is wrong with a part where this one is wanted.
fn unfit(first: &Part, wanted: u64, part: &Part) -> Option<PartFault>
    ensures { is_some result ≡ not (has_its_place first.now wanted part.now) }
{
    if part.count != first.count {
        return Some(PartFault::OtherSearch);
    }
    if part.number != wanted {
        return Some(PartFault::Number {
            number: part.number,
            wanted,
        });
    }
    if !is_same_search(&first.asked, &part.asked) {
        return Some(PartFault::OtherSearch);
    }
    None
}

/// The first part that does not fit, and why.
fn first_unfit(first: &Part, parts: &[Part]) -> Option<(usize, PartFault)>
    ensures { is_some result ≡ not (all_fit first.now 1 parts.now) }
{
    for i in 0..parts.len() {
        if let Some(fault) = unfit(first, i as u64 + 1, &parts[i]) {
            return Some((i, fault));
        }
    }
    None
}

/// The first part that is wrong, and why.
fn wrong_part(parts: &[Part]) -> Option<(usize, PartFault)>
    ensures { is_some result ≡ not (are_all_parts parts.now) }
{
    match parts {
        [] => Some((0, PartFault::Damaged)),
        [first, ..] => {
            if first.count != parts.len() as u64 {
                let fault = PartFault::Count {
                    count: first.count,
                    there: parts.len(),
                };
                return Some((0, fault));
            }
            first_unfit(first, parts)
        }
    }
}

/// The parts that texts are; tells of the first that is none.
fn parts_in<E: Write>(
    alloc: Global,
    names: &[&str],
    texts: &[Bytes],
    faults: &mut E,
) -> Result<Option<Parts>, RunError>
    ensures { IfOk result (λ parts. parts ≡ parts_in texts.now) }
{
    let mut parts = Parts::new(alloc);
    for i in 0..texts.len() {
        match part_in(alloc, texts[i].as_slice())? {
            Some(part) => parts.push(part)?,
            None => {
                tell_fault(names, i, PartFault::Damaged, faults)?;
                return Ok(None);
            }
        }
    }
    Ok(Some(parts))
}

/// Tells what all parts found.
fn tell_merged<W: Write>(alloc: Global, parts: &[Part], output: &mut W) -> Result<u8, RunError>
    requires { are_all_parts parts.now ≡ true }
    ensures most { IfOk result (λ status. status ≤ 2) }
    ensures told { IfOk result (λ status. Yields (merge_of_parts parts.now) status
        (W.contents output.old) (W.contents output.new)) }
{
    match parts {
        [] => Ok(2),
        [first, ..] => {
            let found = merged(alloc, parts, first.asked.size)?;
            tell_findings(alloc, first.asked.text.as_slice(), &found, output)
        }
    }
}

/// Joins what the parts of a search printed, in their order, and writes to `output` what one search would have printed
/// that leaves no list out; to `faults` it tells what is wrong with a text, by its name. It gives the status: that of the
/// search, or 2 where the texts are not all parts of one search, each once and in their order.
///
/// # Errors
///
/// Want of memory, and the first call of a writer that fails.
pub fn merge_parts<W: Write, E: Write>(
    alloc: Global,
    names: &[&str],
    texts: &[Bytes],
    output: &mut W,
    faults: &mut E,
) -> Result<u8, RunError>
    ensures most { IfOk result (λ status. status ≤ 2) }
    ensures merges { IfOk result (λ status. Yields (merge_of texts.now) status
        (W.contents output.old) (W.contents output.new)) }
{
    let Some(parts) = parts_in(alloc, names, texts, faults)? else {
        return Ok(2);
    };
    let parts = parts.as_slice();
    if let Some((place, fault)) = wrong_part(parts) {
        tell_fault(names, place, fault, faults)?;
        return Ok(2);
    }
    tell_merged(alloc, parts, output)
}
