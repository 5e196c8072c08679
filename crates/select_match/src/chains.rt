//! Chains of compounds, searched from right to left (Selectors 3, section 8).

ghost use Rattle.std.specs.Prelude.{◌≡◌, map, reverse};
ghost use Rattle.std.specs.List.{list_any};
ghost use Rattle.page_tree.specs.Zippers.{first_node, earlier};
ghost use Rattle.selectors.specs.Forms.{compound_seen, selector_seen};
ghost use Rattle.select_match.specs.Elements.{elements};
ghost use Rattle.select_match.specs.Matches.{reached, left_holds, chain_holds, selector_matches};
ghost use Rattle.select_match.specs.Outcomes.{Tells};
ghost use Rattle.selectors.specs.declared.selector.Joint.TheVariants as joints;

use crate::elements::is_element;
use crate::outcome::Outcome;
use crate::simple::compound_holds;
use page_tree::NodeRef;
use selectors::{Compound, Joint, Selector};

/// Whether the selector matches the node: for a caller that tries many selectors on one node.
pub fn matches_node(s: &Selector, node: &NodeRef<'_>) -> bool
    ensures { result ≡ selector_matches (selector_seen s.now) node.now }
{
    !s.pseudo_element && chain_holds(s.compounds.as_slice(), node)
}

fn chain_holds(compounds: &[Compound], node: &NodeRef<'_>) -> bool
    ensures { result ≡ chain_holds (reverse (map compound_seen compounds.now)) node.now }
{
    match look_from(compounds, node) {
        Outcome::Found => true,
        Outcome::NotHere | Outcome::NotBeside | Outcome::Nowhere => false,
    }
}

/// The node is as the last of the compounds asks, and what is left of it as the others do.
#[cycle(look)]
fn look_from(compounds: &[Compound], node: &NodeRef<'_>) -> Outcome
    ensures { Tells result (chain_holds (reverse (map compound_seen compounds.now))) node.now }
{
    match compounds.split_last() {
        Some((last, left)) => {
            if !compound_holds(last, node) {
                return Outcome::NotHere;
            }
            look_left(left, last.joint, node)
        }
        None => {
            if is_element(node) {
                Outcome::Found
            } else {
                Outcome::NotHere
            }
        }
    }
}

/// What is left of the node is as the compounds ask.
#[cycle(look)]
pub fn look_left(left: &[Compound], joint: Joint, node: &NodeRef<'_>) -> Outcome
    ensures { Tells result (left_holds (reverse (map compound_seen left.now)) joint) node.now }
{
    if left.is_empty() {
        return Outcome::Found;
    }
    match joint {
        Joint::Descendant => look_above(left, node),
        Joint::Child => look_at_parent(left, node),
        Joint::Next => look_at_previous(left, node),
        Joint::Later => look_before(left, node),
    }
}

#[cycle(look)]
fn look_above(left: &[Compound], node: &NodeRef<'_>) -> Outcome
    ensures { Tells result (λ z. list_any (chain_holds (reverse (map compound_seen left.now))) (reached joints.Descendant z)) node.now }
{
    let mut at = node.parent();
    while let Some(other) = at {
        let outcome = look_from(left, &other);
        if outcome.ends_above() {
            return outcome;
        }
        at = other.parent();
    }
    Outcome::Nowhere
}

#[cycle(look)]
fn look_at_parent(left: &[Compound], node: &NodeRef<'_>) -> Outcome
    ensures { Tells result (λ z. list_any (chain_holds (reverse (map compound_seen left.now))) (reached joints.Child z)) node.now }
{
    let Some(parent) = node.parent() else {
        return Outcome::Nowhere;
    };
    look_from(left, &parent).at_child()
}

#[cycle(look)]
fn look_at_previous(left: &[Compound], node: &NodeRef<'_>) -> Outcome
    ensures { Tells result (λ z. list_any (chain_holds (reverse (map compound_seen left.now))) (reached joints.Next z)) node.now }
{
    let Some(other) = previous_element(node) else {
        return Outcome::NotBeside;
    };
    look_from(left, &other)
}

#[cycle(look)]
fn look_before(left: &[Compound], node: &NodeRef<'_>) -> Outcome
    ensures { Tells result (λ z. list_any (chain_holds (reverse (map compound_seen left.now))) (reached joints.Later z)) node.now }
{
    let mut at = node.previous_sibling();
    while let Some(other) = at {
        let outcome = look_from(left, &other);
        if outcome.ends_before() {
            return outcome;
        }
        at = other.previous_sibling();
    }
    Outcome::NotBeside
}

/// The nearest sibling before the node that is an element.
fn previous_element<'a>(node: &NodeRef<'a>) -> Option<NodeRef<'a>>
    ensures { result ≡ first_node (elements (earlier node.now)) }
{
    let mut at = node.previous_sibling();
    while let Some(other) = at {
        if is_element(&other) {
            return Some(other);
        }
        at = other.previous_sibling();
    }
    None
}
