//! An element that many selectors are tried on.

ghost use Rattle.std.specs.Prelude.{◌≡◌, ◌≤◌, ◌&&◌, ◌||◌, ◌==◌, not, map, reverse, IfOk};
ghost use Rattle.page_tree.specs.Forms.{max_nodes};
ghost use Rattle.std.specs.Char.{is_ascii_whitespace};
ghost use Rattle.std.specs.Str.{bytes_eq};
ghost use Rattle.std.specs.List.{list_any, list_all, slice_split};
ghost use Rattle.selectors.specs.Forms.{id, class, test_seen, simple_seen, compound_seen, selector_seen};
ghost use Rattle.selectors.specs.declared.selector.NthKind.TheVariants as sides;
ghost use Rattle.select_match.specs.Elements.{index, is_nth};
ghost use Rattle.select_match.specs.Matches.{test_holds, simple_holds, compound_holds, left_holds, chain_holds, selector_matches};
ghost use Rattle.select_match.specs.Subjects.{class_pieces, is_quick_test, is_quick};

use crate::chains::look_left;
use crate::elements::{index, is_element, is_filled, is_nth, is_only, is_root, nth_holds};
use crate::outcome::Outcome;
use crate::places::KnownPlaces;
use crate::simple::has_attribute;
use crate::stepped::left_by_steps;
use crate::steps::counts_many;
use crate::texts::same_name;
use page_tree::NodeRef;
use selectors::{Compound, Joint, NthKind, Selector, Simple, Test};
use std::alloc::{AllocError, Global};
use std::marker::Model;

/// An element that many selectors are tried on, with what they ask of it often, computed once: its id and the pieces of its
/// class when it is made, and each of its places among its siblings when a selector first asks for it.
#[derive(Drop)]
pub struct Subject<'a> {
    node: NodeRef<'a>,
    id: Option<&'a str>,
    classes: Vec<&'a [u8]>,
    places: KnownPlaces,
    alloc: Global,
}

impl<'a> Model for Subject<'a> {
    ghost use Rattle.std.specs.Prelude.{◌≡◌, map, option_map};
    ghost use Rattle.page_tree.specs.Zippers.{Zipper, coded_zipper};
    ghost use Rattle.select_match.specs.Subjects.{KnowsPlaces, element_id, class_pieces};

    ghost Value = { Zipper };

    ghost coded = { coded_zipper };

    ghost view = { λ s. s.node };

    ghost invariant = { λ s. (option_map (λ v. v.now) s.id ≡ element_id s.node) × (map (λ w. w.now) s.classes.items ≡ class_pieces s.node)
        × KnowsPlaces s.places s.node };
}

impl<'a> Subject<'a> {
    /// Nothing is known of the element's places yet.
    pub fn new(alloc: Global, node: NodeRef<'a>) -> Result<Subject<'a>, AllocError>
        ensures { IfOk result (λ s. s ≡ node.entry) }
    {
        let id = node.attr("id");
        let classes = class_pieces(alloc, &node)?;
        Ok(Subject {
            node,
            id,
            classes,
            places: KnownPlaces::new(),
            alloc,
        })
    }

    fn alloc(&self) -> Global {
        self.alloc
    }

    /// The node itself.
    pub fn node(&self) -> &NodeRef<'a>
        ensures { result.now ≡ self.now }
    {
        &self.node
    }

    fn has_id(&self, value: &str) -> bool
        ensures { result ≡ test_holds (id value.now) self.now }
    {
        match self.id {
            Some(own) => own == value,
            None => false,
        }
    }

    fn has_class(&self, word: &str) -> bool
        ensures { result ≡ test_holds (class word.now) self.now }
    {
        if word.is_empty() {
            return false;
        }
        is_one_of(self.classes.as_slice(), word.as_bytes())
    }

    /// Counts the siblings when it is first asked for this place.
    fn place(&mut self, kind: NthKind) -> u64
        ensures value { result ≡ index kind self.old }
        ensures bound { result ≤ max_nodes }
        ensures same { self.new ≡ self.old }
    {
        self.node().are_few();
        match self.places.place(kind) {
            Some(place) => place,
            None => {
                let place = index(kind, &self.node);
                self.places.set_place(kind, place);
                place
            }
        }
    }

    /// One of the first places is looked for; for other ones the siblings are counted once.
    fn nth_holds(&mut self, kind: NthKind, step: i64, offset: i64) -> bool
        ensures value { result ≡ is_nth step offset (index kind self.old) }
        ensures same { self.new ≡ self.old }
    {
        if step <= 0 && offset <= 16 {
            return nth_holds(kind, step, offset, &self.node);
        }
        is_nth(step, offset, self.place(kind))
    }

    fn is_only_of_type(&mut self) -> bool
        ensures value { result ≡ (index sides.OfType self.old == 1 && index sides.LastOfType self.old == 1) }
        ensures same { self.new ≡ self.old }
    {
        let before = self.place(NthKind::OfType);
        let behind = self.place(NthKind::LastOfType);
        before == 1 && behind == 1
    }
}

/// The pieces of the element's class.
fn class_pieces<'a>(alloc: Global, node: &NodeRef<'a>) -> Result<Vec<&'a [u8]>, AllocError>
    ensures { IfOk result (λ v. map (λ w. w.now) v.items ≡ class_pieces node.now) }
{
    match node.attr("class") {
        Some(class) => pieces_of(alloc, class.as_bytes()),
        None => Ok(Vec::new(alloc)),
    }
}

/// The pieces of a text that white space parts.
fn pieces_of(alloc: Global, text: &[u8]) -> Result<Vec<&[u8]>, AllocError>
    ensures { IfOk result (λ v. map (λ w. w.now) v.items ≡ slice_split is_ascii_whitespace text.now) }
{
    text.split(|b| b.is_ascii_whitespace()).collect(alloc)
}

fn is_one_of(pieces: &[&[u8]], word: &[u8]) -> bool
    ensures { result ≡ list_any (λ w. bytes_eq w word.now) (map (λ w. w.now) pieces.now) }
{
    for piece in pieces {
        if *piece == word {
            return true;
        }
    }
    false
}

/// What a test of the type, the id or a class says; another one says nothing here.
fn quick_test_holds(test: &Test, subject: &Subject<'_>) -> bool
    ensures { result ≡ (not (is_quick_test (test_seen test.now)) || test_holds (test_seen test.now) subject.now) }
{
    match test {
        Test::Tag(name) => same_name(subject.node().name(), name.as_str()),
        Test::Id(value) => subject.has_id(value.as_str()),
        Test::Class(word) => subject.has_class(word.as_str()),
        Test::Any
        | Test::Attr { .. }
        | Test::Root
        | Test::Empty
        | Test::Nth { .. }
        | Test::OnlyChild
        | Test::OnlyOfType
        | Test::Never => true,
    }
}

/// What a test says that is none of these; they say nothing here.
fn other_test_holds(test: &Test, subject: &mut Subject<'_>) -> bool
    ensures value { result ≡ (is_quick_test (test_seen test.now) || test_holds (test_seen test.now) subject.old) }
    ensures same { subject.new ≡ subject.old }
{
    match test {
        Test::Any | Test::Tag(_) | Test::Id(_) | Test::Class(_) => true,
        Test::Attr { name, op, operand } => {
            has_attribute(name.as_str(), *op, operand.as_str(), subject.node())
        }
        Test::Nth { kind, step, offset } => subject.nth_holds(*kind, *step, *offset),
        Test::OnlyChild => is_only(NthKind::Child, NthKind::LastChild, subject.node()),
        Test::OnlyOfType => subject.is_only_of_type(),
        Test::Root => is_root(subject.node()),
        Test::Empty => !is_filled(subject.node()),
        Test::Never => false,
    }
}

fn test_holds_on(test: &Test, subject: &mut Subject<'_>) -> bool
    ensures value { result ≡ test_holds (test_seen test.now) subject.old }
    ensures same { subject.new ≡ subject.old }
{
    if !quick_test_holds(test, subject) {
        return false;
    }
    other_test_holds(test, subject)
}

fn quick_holds(simple: &Simple, subject: &Subject<'_>) -> bool
    ensures { result ≡ (not (is_quick (simple_seen simple.now)) || simple_holds (simple_seen simple.now) subject.now) }
{
    match simple {
        Simple::Is(test) => quick_test_holds(test, subject),
        Simple::Not(_) => true,
    }
}

fn other_holds(simple: &Simple, subject: &mut Subject<'_>) -> bool
    ensures value { result ≡ (is_quick (simple_seen simple.now) || simple_holds (simple_seen simple.now) subject.old) }
    ensures same { subject.new ≡ subject.old }
{
    match simple {
        Simple::Is(test) => other_test_holds(test, subject),
        Simple::Not(test) => !test_holds_on(test, subject),
    }
}

/// The tests of the type, the id and the classes hold: most selectors fail by one of these.
fn all_quick_hold(tests: &[Simple], subject: &Subject<'_>) -> bool
    ensures { result ≡ list_all (λ s. not (is_quick s) || simple_holds s subject.now) (map simple_seen tests.now) }
{
    for simple in tests {
        if !quick_holds(simple, subject) {
            return false;
        }
    }
    true
}

fn all_others_hold(tests: &[Simple], subject: &mut Subject<'_>) -> bool
    ensures value { result ≡ list_all (λ s. is_quick s || simple_holds s subject.old) (map simple_seen tests.now) }
    ensures same { subject.new ≡ subject.old }
{
    for simple in tests {
        if !other_holds(simple, subject) {
            return false;
        }
    }
    true
}

/// The tests of the type, the id and the classes come first, so that no sibling is counted for an element that fails them.
fn compound_holds_on(compound: &Compound, subject: &mut Subject<'_>) -> bool
    ensures value { result ≡ compound_holds (compound_seen compound.now) subject.old }
    ensures same { subject.new ≡ subject.old }
{
    if !is_element(subject.node()) {
        return false;
    }
    if !all_quick_hold(compound.tests.as_slice(), subject) {
        return false;
    }
    all_others_hold(compound.tests.as_slice(), subject)
}

/// What is left of the node is as the compounds ask.
fn left_holds(alloc: Global, left: &[Compound], joint: Joint, node: &NodeRef<'_>) -> bool
    ensures { result ≡ left_holds (reverse (map compound_seen left.now)) joint node.now }
{
    if !left.is_empty() && counts_many(left, joint) {
        if let Ok(holds) = left_by_steps(alloc, left, joint, node) {
            return holds;
        }
    }
    left_by_search(left, joint, node)
}

fn left_by_search(left: &[Compound], joint: Joint, node: &NodeRef<'_>) -> bool
    ensures { result ≡ left_holds (reverse (map compound_seen left.now)) joint node.now }
{
    match look_left(left, joint, node) {
        Outcome::Found => true,
        Outcome::NotHere | Outcome::NotBeside | Outcome::Nowhere => false,
    }
}

fn chain_holds_on(compounds: &[Compound], subject: &mut Subject<'_>) -> bool
    ensures value { result ≡ chain_holds (reverse (map compound_seen compounds.now)) subject.old }
    ensures same { subject.new ≡ subject.old }
{
    match compounds.split_last() {
        Some((last, left)) => {
            if !compound_holds_on(last, subject) {
                return false;
            }
            left_holds(subject.alloc(), left, last.joint, subject.node())
        }
        None => is_element(subject.node()),
    }
}

/// Whether the selector matches the element: what `matches_node` answers, for a caller that tries many selectors on it.
pub fn matches_subject(s: &Selector, subject: &mut Subject<'_>) -> bool
    ensures value { result ≡ selector_matches (selector_seen s.now) subject.old }
    ensures same { subject.new ≡ subject.old }
{
    if s.pseudo_element {
        return false;
    }
    chain_holds_on(s.compounds.as_slice(), subject)
}
