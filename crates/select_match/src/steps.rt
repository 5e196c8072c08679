//! The compounds of a list of selectors, one after the other, and where the chains that end with them hold around a node.

ghost use Rattle.std.specs.Prelude.{◌≡◌, ◌||◌, ◌&&◌, ◌++◌, [], cond, map, IfOk, OnOk, Some, None};
ghost use Rattle.selectors.specs.Forms.{compound_seen, selector_seen};
ghost use Rattle.selectors.specs.Lists.{list_seen};
ghost use Rattle.select_match.specs.Matches.{compound_holds};
ghost use Rattle.select_match.specs.Subjects.{KnowsPlaces};
ghost use Rattle.select_match.specs.Steps.{step_seen, steps_of_chain, steps_of_selector, steps_of, is_stepped, all_stepped, chains_in};
ghost use Rattle.select_match.specs.Steps.{leads, any_ends, around_of, beside_of, inside_of};

use crate::elements::is_element;
use crate::families::Count;
use crate::places::KnownPlaces;
use crate::simple::compound_holds_placed;
use page_tree::NodeRef;
use selectors::{Compound, Joint, NthKind, Selector, SelectorList, Simple, Test};
use std::alloc::{AllocError, Global};

/// A compound, and whether it is the last of its selector.
#[derive(Clone, Copy, Drop)]
pub struct Step<'a> {
    pub compound: &'a Compound,
    pub ends: bool,
}

/// Where around a node a test holds: at an ancestor, at the parent, at the element just before it, at a sibling before it.
#[derive(Clone, Copy, Drop)]
pub struct Around {
    pub above: bool,
    pub parent: bool,
    pub previous: bool,
    pub earlier: bool,
}

impl Around {
    ghost use Rattle.select_match.specs.Steps.{leads_by, passed, entered};

    /// Whether the combinator leads to a node where the test holds.
    pub fn leads(self, joint: Joint) -> bool
        ensures { result ≡ leads_by joint self }
    {
        match joint {
            Joint::Descendant => self.above,
            Joint::Child => self.parent,
            Joint::Next => self.previous,
            Joint::Later => self.earlier,
        }
    }

    /// The same of the next sibling, where the test holds or does not hold at this node.
    fn passed(self, holds: bool, element: bool) -> Around
        ensures { result ≡ passed self holds element }
    {
        Around {
            above: self.above,
            parent: self.parent,
            previous: if element { holds } else { self.previous },
            earlier: holds || self.earlier,
        }
    }

    /// The same of the first child.
    fn entered(self, holds: bool) -> Around
        ensures { result ≡ entered self holds }
    {
        Around {
            above: holds || self.above,
            parent: holds,
            previous: false,
            earlier: false,
        }
    }
}

fn leads(joint: Joint, left: Option<Around>) -> bool
    ensures { result ≡ leads joint left }
{
    match left {
        Some(around) => around.leads(joint),
        None => true,
    }
}

/// The node is as the step's compound asks, and the combinator leads to a node where what stands to the left holds.
fn step_holds(
    step: &Step<'_>,
    left: Option<Around>,
    node: &NodeRef<'_>,
    places: &KnownPlaces,
) -> bool
    requires { KnowsPlaces places.now node.now }
    ensures { result ≡ (leads (step_seen step.now).compound.joint left && compound_holds (step_seen step.now).compound node.now) }
{
    let compound = step.compound;
    leads(compound.joint, left) && compound_holds_placed(compound, node, places)
}

fn left_after(ends: bool, around: Around) -> Option<Around>
    ensures { result ≡ cond ends None (Some around) }
{
    if ends { None } else { Some(around) }
}

fn found_if(found: bool, ends: bool, holds: bool) -> bool
    ensures { result ≡ (found || (ends && holds)) }
{
    found || ends && holds
}

/// Tries each step on a node, and adds what then holds around its next sibling and around its first child.
pub fn visit(
    steps: &[Step<'_>],
    around: &[Around],
    node: &NodeRef<'_>,
    places: &KnownPlaces,
    beside: &mut Vec<Around>,
    inside: &mut Vec<Around>,
) -> Result<bool, AllocError>
    requires around { around.now ≡ map (around_of node.now) (chains_in [] (map step_seen steps.now)) }
    requires places { KnowsPlaces places.now node.now }
    ensures found { IfOk result (λ found. found ≡ any_ends [] (map step_seen steps.now) node.now) }
    ensures beside { OnOk result (beside.new.items
        ≡ beside.old.items ++ map (beside_of node.now) (chains_in [] (map step_seen steps.now))) }
    ensures inside { OnOk result (inside.new.items
        ≡ inside.old.items ++ map (inside_of node.now) (chains_in [] (map step_seen steps.now))) }
{
    let element = is_element(node);
    let mut left = None;
    let mut found = false;
    for i in 0..steps.len() {
        let step = steps[i];
        let here = around[i];
        let holds = step_holds(&step, left, node, places);
        beside.push(here.passed(holds, element))?;
        inside.push(here.entered(holds))?;
        found = found_if(found, step.ends, holds);
        left = left_after(step.ends, here);
    }
    Ok(found)
}

pub fn add_chain<'a>(compounds: &'a [Compound], steps: &mut Vec<Step<'a>>) -> Result<(), AllocError>
    ensures { OnOk result (map step_seen steps.new.items
        ≡ map step_seen steps.old.items ++ steps_of_chain (map compound_seen compounds.now)) }
{
    for i in 0..compounds.len() {
        steps.push(Step {
            compound: &compounds[i],
            ends: i + 1 == compounds.len(),
        })?;
    }
    Ok(())
}

fn add_selector<'a>(s: &'a Selector, steps: &mut Vec<Step<'a>>) -> Result<(), AllocError>
    ensures { OnOk result (map step_seen steps.new.items ≡ map step_seen steps.old.items ++ steps_of_selector (selector_seen s.now)) }
{
    if s.pseudo_element {
        return Ok(());
    }
    add_chain(s.compounds.as_slice(), steps)
}

/// The steps of a list of selectors.
pub fn steps_of(alloc: Global, l: &SelectorList) -> Result<Vec<Step<'_>>, AllocError>
    ensures { IfOk result (λ v. map step_seen v.items ≡ steps_of (list_seen l.now)) }
{
    let mut steps = Vec::new(alloc);
    for i in 0..l.len() {
        add_selector(l.at(i), &mut steps)?;
    }
    Ok(steps)
}

fn has_compound(s: &Selector) -> bool
    ensures { result ≡ is_stepped (selector_seen s.now) }
{
    !s.compounds.is_empty()
}

/// Each selector has a compound.
pub fn all_stepped(l: &SelectorList) -> bool
    ensures { result ≡ all_stepped (list_seen l.now) }
{
    for i in 0..l.len() {
        if !has_compound(l.at(i)) {
            return false;
        }
    }
    true
}

/// Whether a test may have to count far, or far among those of a type: among few first places it stops soon.
fn counts_siblings(test: &Test, types: bool) -> bool {
    match test {
        Test::Nth { kind, step, offset } => match kind {
            NthKind::Child | NthKind::LastChild => !types && (*step > 0 || *offset > 16),
            NthKind::OfType | NthKind::LastOfType => true,
        },
        Test::OnlyOfType => true,
        Test::Any
        | Test::Tag(_)
        | Test::Id(_)
        | Test::Class(_)
        | Test::Attr { .. }
        | Test::Root
        | Test::Empty
        | Test::OnlyChild
        | Test::Never => false,
    }
}

fn some_counts_siblings(tests: &[Simple], types: bool) -> bool {
    for simple in tests {
        let counts = match simple {
            Simple::Is(test) => counts_siblings(test, types),
            Simple::Not(test) => counts_siblings(test, types),
        };
        if counts {
            return true;
        }
    }
    false
}

fn is_later(joint: Joint) -> bool {
    match joint {
        Joint::Later => true,
        Joint::Descendant | Joint::Child | Joint::Next => false,
    }
}

/// Whether a search to the left may count the siblings of many siblings, each anew: then the steps are quicker.
pub fn counts_many(left: &[Compound], joint: Joint) -> bool {
    (is_later(joint) || some_goes_far(left)) && some_counts(left, false)
}

fn some_goes_far(compounds: &[Compound]) -> bool {
    for compound in compounds {
        if is_later(compound.joint) {
            return true;
        }
    }
    false
}

fn some_counts(compounds: &[Compound], types: bool) -> bool {
    for compound in compounds {
        if some_counts_siblings(compound.tests.as_slice(), types) {
            return true;
        }
    }
    false
}

/// Whether some test of the list may have to count far among siblings, or far among those of a type.
pub fn counts_far(l: &SelectorList, types: bool) -> bool {
    for i in 0..l.len() {
        if some_counts(l.at(i).compounds.as_slice(), types) {
            return true;
        }
    }
    false
}

/// Whether some selector has `~`: a search from right to left may then go over the same siblings again and again.
pub fn asks_siblings(l: &SelectorList) -> bool {
    for i in 0..l.len() {
        if some_goes_far(l.at(i).compounds.as_slice()) {
            return true;
        }
    }
    false
}

/// What a walk is to count for the tests of a list.
pub fn count_for(l: &SelectorList) -> Count {
    if counts_far(l, true) {
        return Count::Types;
    }
    if counts_far(l, false) {
        return Count::Elements;
    }
    Count::Nothing
}
