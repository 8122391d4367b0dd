//! The expression of an ACE as text.

ghost use Rattle.std.specs.Prelude.{◌≡◌, ◌++◌, OnOk, IfOk, None, Some, option_map, if◌then◌else◌};
ghost use Rattle.reasons.specs.Trees.{tree_written};
ghost use Rattle.reasons.specs.Phrases.{tree_text, expression_text, wording_text, worded};

use crate::remedies::phrase::{Phrase, Waiting};
use sp_cells::{Element, Expr};
use std::alloc::{AllocError, Global};

/// Appends an expression, as `(Admins or User1) and User2`, or `nobody` where it writes no tree, and so never holds.
pub(crate) fn append_expression(
    alloc: Global,
    text: &mut Vec<u8>,
    expr: &Expr,
) -> Result<(), AllocError>
    ensures { OnOk result (text.new.items ≡ text.old.items ++ expression_text expr.now) }
{
    match written_phrase(alloc, expr.as_slice())? {
        Some(phrase) => phrase.append(text)?,
        None => text.extend_from_slice(b"nobody")?,
    }
    Ok(())
}

/// The phrase that the elements write in postorder, where they write one.
fn written_phrase(alloc: Global, elements: &[Element]) -> Result<Option<Phrase>, AllocError>
    ensures { IfOk result (λ phrase. option_map wording_text phrase
        ≡ option_map tree_text (tree_written elements.now)) }
{
    let mut waiting = Waiting::new(alloc);
    for element in elements {
        if !apply(alloc, &mut waiting, *element)? {
            return Ok(None);
        }
    }
    Ok(waiting.take_lone())
}

/// One element more; false where an operator lacks an operand.
fn apply(alloc: Global, waiting: &mut Waiting, element: Element) -> Result<bool, AllocError>
    ensures { IfOk result (λ is. worded element waiting.old
        ≡ (if is then Some waiting.new else None)) }
{
    match element {
        Element::Authority(authority) => waiting.push(Phrase::of_authority(alloc, authority)?)?,
        Element::And => {
            let Some(right) = waiting.pop() else {
                return Ok(false);
            };
            let Some(left) = waiting.pop() else {
                return Ok(false);
            };
            waiting.push(Phrase::both(alloc, &left, &right)?)?;
        }
        Element::Or => {
            let Some(right) = waiting.pop() else {
                return Ok(false);
            };
            let Some(left) = waiting.pop() else {
                return Ok(false);
            };
            waiting.push(Phrase::either(alloc, &left, &right)?)?;
        }
    }
    Ok(true)
}
