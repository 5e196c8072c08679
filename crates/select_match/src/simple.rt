//! Simple selectors and compounds (Selectors 3, section 6).

ghost use Rattle.std.specs.Prelude.{◌≡◌, ◌≤◌, ◌==◌, ◌&&◌, map};
ghost use Rattle.page_tree.specs.Forms.{max_nodes};
ghost use Rattle.std.specs.List.{list_all};
ghost use Rattle.selectors.specs.Forms.{id, class, test_seen, simple_seen, compound_seen};
ghost use Rattle.select_match.specs.Texts.{same_name, has_word, compares, has_attribute};
ghost use Rattle.select_match.specs.Elements.{attributes_of, index, is_nth};
ghost use Rattle.select_match.specs.Subjects.{KnowsPlaces};
ghost use Rattle.select_match.specs.Matches.{test_holds, simple_holds, compound_holds};

use crate::elements::{index, is_element, is_filled, is_nth, is_only, is_root, nth_holds};
use crate::places::KnownPlaces;
use crate::texts::{compares, has_word, same_name};
use page_tree::NodeRef;
use selectors::{AttrOp, Compound, NthKind, Simple, Test};

fn has_id(value: &str, node: &NodeRef<'_>) -> bool
    ensures { result ≡ test_holds (id value.now) node.now }
{
    match node.attr("id") {
        Some(own) => own == value,
        None => false,
    }
}

fn has_class(word: &str, node: &NodeRef<'_>) -> bool
    ensures { result ≡ test_holds (class word.now) node.now }
{
    match node.attr("class") {
        Some(own) => has_word(word, own),
        None => false,
    }
}

/// An attribute has the name, in any ASCII case, and its value is as the operator and the operand ask.
fn attribute_holds(own: (&str, &str), name: &str, op: AttrOp, operand: &str) -> bool
    ensures { result ≡ (same_name own.entry.0.now name.now && compares op operand.now own.entry.1.now) }
{
    same_name(own.0, name) && compares(op, operand, own.1)
}

/// Some attribute has the name, in any ASCII case, and a value that is as the operator and the operand ask.
pub fn has_attribute(name: &str, op: AttrOp, operand: &str, node: &NodeRef<'_>) -> bool
    ensures { result ≡ has_attribute name.now (compares op operand.now) (attributes_of node.now) }
{
    for (own, value) in node.attrs() {
        if attribute_holds((own.as_str(), value.as_str()), name, op, operand) {
            return true;
        }
    }
    false
}

fn nth_holds_placed(
    kind: NthKind,
    step: i64,
    offset: i64,
    node: &NodeRef<'_>,
    places: &KnownPlaces,
) -> bool
    requires { KnowsPlaces places.now node.now }
    ensures { result ≡ is_nth step offset (index kind node.now) }
{
    match places.place(kind) {
        Some(_) => is_nth(step, offset, place_of(kind, node, places)),
        None => nth_holds(kind, step, offset, node),
    }
}

/// The place, counted only if it is not known.
fn place_of(kind: NthKind, node: &NodeRef<'_>, places: &KnownPlaces) -> u64
    requires { KnowsPlaces places.now node.now }
    ensures value { result ≡ index kind node.now }
    ensures bound { result ≤ max_nodes }
{
    node.are_few();
    match places.place(kind) {
        Some(place) => place,
        None => index(kind, node),
    }
}

fn is_only_placed(first: NthKind, last: NthKind, node: &NodeRef<'_>, places: &KnownPlaces) -> bool
    requires { KnowsPlaces places.now node.now }
    ensures { result ≡ (index first node.now == 1 && index last node.now == 1) }
{
    match places.place(first) {
        Some(_) => place_of(first, node, places) == 1 && place_of(last, node, places) == 1,
        None => is_only(first, last, node),
    }
}

fn test_holds(test: &Test, node: &NodeRef<'_>, places: &KnownPlaces) -> bool
    requires { KnowsPlaces places.now node.now }
    ensures { result ≡ test_holds (test_seen test.now) node.now }
{
    match test {
        Test::Any => true,
        Test::Tag(name) => same_name(node.name(), name.as_str()),
        Test::Id(value) => has_id(value.as_str(), node),
        Test::Class(word) => has_class(word.as_str(), node),
        Test::Attr { name, op, operand } => {
            has_attribute(name.as_str(), *op, operand.as_str(), node)
        }
        Test::Root => is_root(node),
        Test::Empty => !is_filled(node),
        Test::Nth { kind, step, offset } => nth_holds_placed(*kind, *step, *offset, node, places),
        Test::OnlyChild => is_only_placed(NthKind::Child, NthKind::LastChild, node, places),
        Test::OnlyOfType => is_only_placed(NthKind::OfType, NthKind::LastOfType, node, places),
        Test::Never => false,
    }
}

fn simple_holds(simple: &Simple, node: &NodeRef<'_>, places: &KnownPlaces) -> bool
    requires { KnowsPlaces places.now node.now }
    ensures { result ≡ simple_holds (simple_seen simple.now) node.now }
{
    match simple {
        Simple::Is(test) => test_holds(test, node, places),
        Simple::Not(test) => !test_holds(test, node, places),
    }
}

fn all_hold(tests: &[Simple], node: &NodeRef<'_>, places: &KnownPlaces) -> bool
    requires { KnowsPlaces places.now node.now }
    ensures { result ≡ list_all (λ s. simple_holds s node.now) (map simple_seen tests.now) }
{
    for simple in tests {
        if !simple_holds(simple, node, places) {
            return false;
        }
    }
    true
}

/// The node is an element that is as each part of the compound asks. The places that are known are not counted anew.
pub fn compound_holds_placed(compound: &Compound, node: &NodeRef<'_>, places: &KnownPlaces) -> bool
    requires { KnowsPlaces places.now node.now }
    ensures { result ≡ compound_holds (compound_seen compound.now) node.now }
{
    is_element(node) && all_hold(compound.tests.as_slice(), node, places)
}

/// The same, where none is known.
pub fn compound_holds(compound: &Compound, node: &NodeRef<'_>) -> bool
    ensures { result ≡ compound_holds (compound_seen compound.now) node.now }
{
    compound_holds_placed(compound, node, &KnownPlaces::new())
}
