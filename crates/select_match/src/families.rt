//! The places of siblings, each computed once as a walk meets them: how many elements stand before and behind, and of which name.

ghost use Rattle.std.specs.Prelude.{◌≡◌, ℕ, ◌+◌, ◌-◌, ◌<◌, cond, [], List, Option, Some, IfOk, OnOk};
ghost use Rattle.std.specs.Str.{bytes_eq};
ghost use Rattle.node_tree.specs.Numbers.{memory_limit};
ghost use Rattle.page_tree.specs.Zippers.{Zipper, next_of, earlier, later};
ghost use Rattle.select_match.specs.Subjects.{KnowsPlaces};
ghost use Rattle.select_match.specs.Families.{named_in, tally_count, one_of, Counts, Faces, FacesNext, LineFaces, SiblingsFace};
ghost use Rattle.select_match.specs.Families.{SiblingsFaceNext};

use crate::elements::is_element;
use crate::places::{ElementPlaces, KnownPlaces};
use page_tree::NodeRef;
use std::alloc::{AllocError, Global};
use std::collections::BTreeMap;

/// How many of some nodes are elements, and how many of these have each name.
#[derive(Drop)]
pub struct Tally<'a> {
    all: u64,
    names: BTreeMap<&'a str, u64>,
}

fn named_in(names: &BTreeMap<&str, u64>, name: &str) -> u64
    ensures { result ≡ named_in name.now names.now }
{
    match names.get(name) {
        Some(count) => *count,
        None => 0,
    }
}

fn put_count<'a>(
    name: &'a str,
    count: u64,
    names: &mut BTreeMap<&'a str, u64>,
) -> Result<(), AllocError>
    ensures { OnOk result ((q : List ℕ) → named_in q names.new ≡ cond (bytes_eq name.now q) count (named_in q names.old)) }
{
    match names.insert(name, count) {
        Ok(_) => Ok(()),
        Err(_) => Err(AllocError),
    }
}

fn one_more(n: u64) -> u64
    ensures { n < memory_limit → result ≡ n + 1 }
{
    n.saturating_add(1)
}

fn one_less(n: u64) -> u64
    ensures { result ≡ n - 1 }
{
    n.saturating_sub(1)
}

impl<'a> Tally<'a> {
    /// Nothing is counted yet.
    fn new(alloc: Global) -> Tally<'a>
        ensures { (key : Option (List ℕ)) → tally_count key result ≡ 0 }
    {
        Tally {
            all: 0,
            names: BTreeMap::new(alloc),
        }
    }

    /// Counts a node more.
    fn add(&mut self, node: &NodeRef<'a>) -> Result<(), AllocError>
        ensures { OnOk result ((key : Option (List ℕ)) → tally_count key self.old < memory_limit
            → tally_count key self.new ≡ tally_count key self.old + one_of key node.now) }
    {
        if !is_element(node) {
            return Ok(());
        }
        let name = node.name();
        let count = one_more(named_in(&self.names, name));
        put_count(name, count, &mut self.names)?;
        self.all = one_more(self.all);
        Ok(())
    }

    /// Counts a node less.
    fn take(&mut self, node: &NodeRef<'a>) -> Result<(), AllocError>
        ensures { OnOk result ((key : Option (List ℕ)) → tally_count key self.new ≡ tally_count key self.old - one_of key node.now) }
    {
        if !is_element(node) {
            return Ok(());
        }
        let name = node.name();
        let count = one_less(named_in(&self.names, name));
        put_count(name, count, &mut self.names)?;
        self.all = one_less(self.all);
        Ok(())
    }
}

/// What is counted of the siblings of a node, where a walk goes from one to the next.
#[derive(Drop)]
pub struct Family<'a> {
    before: Tally<'a>,
    after: Tally<'a>,
}

impl<'a> Family<'a> {
    /// All siblings of a node are counted, once, from the first of them.
    pub fn of_row(alloc: Global, first: &NodeRef<'a>) -> Result<Family<'a>, AllocError>
        requires { earlier first.now ≡ [] }
        ensures { IfOk result (λ f. Faces f first.now) }
    {
        first.are_few();
        let mut after = Tally::new(alloc);
        after.add(first)?;
        let mut at = first.next_sibling();
        while let Some(other) = at {
            after.add(&other)?;
            at = other.next_sibling();
        }
        Ok(Family {
            before: Tally::new(alloc),
            after,
        })
    }

    /// The places of the child that the walk has come to; then it goes on to the next.
    pub fn next_places(&mut self, child: &NodeRef<'a>) -> Result<KnownPlaces, AllocError>
        requires { Faces self.now child.now }
        ensures places { IfOk result (λ places. KnowsPlaces places child.now) }
        ensures next { OnOk result (FacesNext self.new (next_of child.now)) }
    {
        child.are_few();
        self.after.take(child)?;
        let places = self.places(child);
        self.before.add(child)?;
        Ok(places)
    }

    /// One more than what is counted on each side.
    fn places(&self, child: &NodeRef<'a>) -> KnownPlaces
        requires before { Counts self.now.before (earlier child.now) }
        requires after { Counts self.now.after (later child.now) }
        ensures { KnowsPlaces result child.now }
    {
        child.are_few();
        let name = child.name();
        KnownPlaces::of(ElementPlaces {
            child: one_more(self.before.all),
            last_child: one_more(self.after.all),
            of_type: one_more(named_in(&self.before.names, name)),
            last_of_type: one_more(named_in(&self.after.names, name)),
        })
    }
}

fn plus_if(test: bool, n: u64) -> u64
    ensures { n < memory_limit → result ≡ n + cond {A = ℕ} test 1 0 }
{
    if test { one_more(n) } else { n }
}

fn minus_if(test: bool, n: u64) -> u64
    ensures { result ≡ n - cond {A = ℕ} test 1 0 }
{
    if test { one_less(n) } else { n }
}

/// How many elements stand before a node, and from it on.
#[derive(Clone, Copy, Drop)]
pub struct Line {
    before: u64,
    after: u64,
}

impl Line {
    /// All siblings of a node are counted, once, from the first of them.
    fn of_row(first: &NodeRef<'_>) -> Line
        requires { earlier first.now ≡ [] }
        ensures { LineFaces result first.now }
    {
        first.are_few();
        let mut after = plus_if(is_element(first), 0);
        let mut at = first.next_sibling();
        while let Some(other) = at {
            after = plus_if(is_element(&other), after);
            at = other.next_sibling();
        }
        Line { before: 0, after }
    }

    /// The line of the next sibling.
    fn passed(self, child: &NodeRef<'_>) -> Line
        requires { LineFaces self child.now }
        ensures { (z : Zipper) → next_of child.now ≡ Some z → LineFaces result z }
    {
        child.are_few();
        let element = is_element(child);
        Line {
            before: plus_if(element, self.before),
            after: minus_if(element, self.after),
        }
    }

    fn places(self, child: &NodeRef<'_>) -> KnownPlaces
        requires { LineFaces self child.now }
        ensures { KnowsPlaces result child.now }
    {
        child.are_few();
        let behind = minus_if(is_element(child), self.after);
        KnownPlaces::of_child(one_more(self.before), one_more(behind))
    }
}

/// What a walk counts of siblings.
#[derive(Clone, Copy, Drop)]
pub enum Count {
    Nothing,
    Elements,
    Types,
}

/// What is counted of the siblings of a node, where a walk goes from one to the next.
#[derive(Drop)]
pub enum Siblings<'a> {
    Nothing,
    Elements(Line),
    Types(Family<'a>),
}

/// The siblings are counted as far as some test may have to.
pub fn siblings_of<'a>(
    alloc: Global,
    count: Count,
    first: &NodeRef<'a>,
) -> Result<Siblings<'a>, AllocError>
    requires { earlier first.now ≡ [] }
    ensures { IfOk result (λ s. SiblingsFace s first.now) }
{
    match count {
        Count::Nothing => Ok(Siblings::Nothing),
        Count::Elements => Ok(Siblings::Elements(Line::of_row(first))),
        Count::Types => match Family::of_row(alloc, first) {
            Ok(family) => Ok(Siblings::Types(family)),
            Err(stop) => Err(stop),
        },
    }
}

/// The places of the child that the walk has come to, as far as they are counted; then it goes on to the next.
pub fn places_of<'a>(
    siblings: &mut Siblings<'a>,
    child: &NodeRef<'a>,
) -> Result<KnownPlaces, AllocError>
    requires { SiblingsFace siblings.now child.now }
    ensures places { IfOk result (λ places. KnowsPlaces places child.now) }
    ensures next { OnOk result (SiblingsFaceNext siblings.new (next_of child.now)) }
{
    match siblings {
        Siblings::Nothing => Ok(KnownPlaces::new()),
        Siblings::Elements(line) => {
            let here = *line;
            *line = here.passed(child);
            Ok(here.places(child))
        }
        Siblings::Types(family) => family.next_places(child),
    }
}
