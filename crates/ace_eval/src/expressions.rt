//! Whether an expression over authorities holds.

ghost use Rattle.std.specs.Prelude.{◌≡◌, ◌≤◌, ◌<◌, ◌↔◌, List, [], ◌∷◌, length, IsTrue, IfSome, IfNone, reverse, Bool, if◌then◌else◌, None, Some, true};
ghost use Rattle.sp_cells.specs.Limits.{most_elements};
ghost use Rattle.ace_eval.specs.Truth.{Holds};
ghost use Rattle.ace_eval.specs.Evaluation.{step, is_true, is_satisfied};

use crate::authorities::Authorities;
use arrayvec::ArrayVec;
use sp_cells::limits::MOST_ELEMENTS;
use sp_cells::{Element, Expr};
use std::marker::Model;

/// The truths of the trees that wait for an operator, seen with the latest first.
#[derive(Drop)]
struct Stack {
    values: ArrayVec<bool, MOST_ELEMENTS>,
}

impl Model for Stack {
    ghost use Rattle.std.specs.Prelude.{List, length, ◌≤◌, Bool, reverse};
    ghost use Rattle.sp_cells.specs.Limits.{most_elements};

    ghost Value = { List Bool };

    ghost view = { λ a. reverse a.values.items };

    ghost invariant = { λ a. length a.values.items ≤ most_elements };
}

impl Stack {
    fn new() -> Stack
        ensures { result ≡ [] }
    {
        Stack {
            values: ArrayVec::new(),
        }
    }

    fn push(&mut self, value: bool)
        requires { length self.old < most_elements }
        ensures { self.new ≡ value ∷ self.old }
    {
        self.values.push(value);
    }

    fn pop(&mut self) -> Option<bool>
        ensures some { IfSome result (λ value. self.old ≡ value ∷ self.new) }
        ensures none { IfNone result (self.old ≡ []) }
    {
        self.values.pop()
    }

    /// There is one value, and it is true.
    fn is_true(&self) -> bool
        ensures { result ≡ is_true (Some self.now) }
    {
        matches!(self.values.as_slice(), [true])
    }
}

/// One element more; false where an operator lacks an operand.
fn apply(stack: &mut Stack, element: Element, held: &Authorities) -> bool
    requires { length stack.old < most_elements }
    ensures { step held.now element stack.old ≡ (if result then Some stack.new else None) }
{
    match element {
        Element::Authority(authority) => stack.push(held.contains(authority)),
        Element::And => {
            let (Some(right), Some(left)) = (stack.pop(), stack.pop()) else {
                return false;
            };
            stack.push(left && right);
        }
        Element::Or => {
            let (Some(right), Some(left)) = (stack.pop(), stack.pop()) else {
                return false;
            };
            stack.push(left || right);
        }
    }
    true
}

/// Whether an expression holds for these authorities: it writes one tree in postorder, and the tree is true where a
/// leaf counts as true exactly if its authority is held. A list that writes no tree never holds.
#[tactic(auto, using(crate::proofs::Evaluations::evaluated))]
pub fn holds(expr: &Expr, held: &Authorities) -> bool
    ensures tree { IsTrue result ↔ Holds held.now expr.now }
    ensures exact { result ≡ is_satisfied held.now expr.now }
{
    evaluate(expr.as_slice(), held)
}

fn evaluate(elements: &[Element], held: &Authorities) -> bool
    requires { length elements.now ≤ most_elements }
    ensures { result ≡ is_satisfied held.now elements.now }
{
    let mut stack = Stack::new();
    for element in elements {
        if !apply(&mut stack, *element, held) {
            return false;
        }
    }
    stack.is_true()
}
