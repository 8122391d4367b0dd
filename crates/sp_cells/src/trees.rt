//! Whether the elements of an expression write a tree.

ghost use Rattle.std.specs.Prelude.{◌≡◌, ◌≤◌, ◌<◌, ◌+◌, ◌-◌, ◌↔◌, IsTrue, length};
ghost use Rattle.sp_cells.specs.Expressions.{WritesTree, completes, are_known, is_known_element as is_known_element_of};
ghost use Rattle.sp_cells.specs.Limits.{most_elements};

use crate::authorities::is_locking_authority;
use crate::cells::{Element, Expr};

impl Expr {
    /// Whether the elements write one tree in postorder.
    #[tactic(auto, using(crate::proofs::TreeLemmas::writes_tree))]
    pub fn writes_tree(&self) -> bool
        ensures tree { IsTrue result ↔ WritesTree self.now }
        ensures exact { result ≡ completes 0 self.now }
    {
        is_complete(self.as_slice())
    }

    /// Whether each authority that it names is one of the Locking SP.
    pub fn names_locking_authorities(&self) -> bool
        ensures { result ≡ are_known self.now }
    {
        are_known_elements(self.as_slice())
    }
}

/// Whether each authority among the elements is one of the Locking SP.
fn are_known_elements(elements: &[Element]) -> bool
    ensures { result ≡ are_known elements.now }
{
    elements.iter().all(|element| is_known_element(*element))
}

/// Whether the element is an operator or an authority of the Locking SP.
fn is_known_element(element: Element) -> bool
    ensures { result ≡ is_known_element_of element }
{
    match element {
        Element::Authority(authority) => is_locking_authority(authority),
        Element::And | Element::Or => true,
    }
}

/// Whether the elements write one tree in postorder: none is left over, and no operator lacks an operand.
fn is_complete(elements: &[Element]) -> bool
    requires { length elements.now ≤ most_elements }
    ensures { result ≡ completes 0 elements.now }
{
    let mut waiting = 0u8;
    for element in elements {
        match element {
            Element::Authority(_) => waiting += 1,
            Element::And | Element::Or => {
                if waiting < 2 {
                    return false;
                }
                waiting -= 1;
            }
        }
    }
    waiting == 1
}
