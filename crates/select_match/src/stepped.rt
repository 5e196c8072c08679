//! The elements below a node that the last steps of some selectors match, in document order. Each node is tried once on each step.

ghost use Rattle.std.specs.Prelude.{◌≡◌, ◌++◌, [], map, option_map, find, filter, replicate, reverse, length, ◌<◌, slice_get, Some};
ghost use Rattle.std.specs.Prelude.{IfOk, OnOk};
ghost use Rattle.page_tree.specs.Zippers.{below, serial_of, earlier};
ghost use Rattle.selectors.specs.Forms.{compound_seen};
ghost use Rattle.select_match.specs.declared.steps.Around.{Around};
ghost use Rattle.select_match.specs.Matches.{left_holds};
ghost use Rattle.select_match.specs.Families.{FacesLast};
ghost use Rattle.select_match.specs.Steps.{step_seen, chains_in, any_ends, around_of, around_by, inside_of, nothing, leads_by};

use crate::families::{Count, Family, places_of, siblings_of};
use crate::places::KnownPlaces;
use crate::steps::{Around, Step, add_chain, visit};
use crate::walks::add_if;
use page_tree::NodeRef;
use selectors::{Compound, Joint};
use std::alloc::{AllocError, Global};

/// Adds the serials of the nodes below the node that end some selector; `around` is what holds around its first child.
pub fn add_stepped(
    alloc: Global,
    steps: &[Step<'_>],
    count: Count,
    node: &NodeRef<'_>,
    around: Vec<Around>,
    found: &mut Vec<u64>,
) -> Result<(), AllocError>
    requires { around.items ≡ map (inside_of node.now) (chains_in [] (map step_seen steps.now)) }
    ensures { OnOk result (found.new.items
        ≡ found.old.items ++ map serial_of (filter (any_ends [] (map step_seen steps.now)) (below node.now))) }
{
    let Some(first) = node.first_child() else {
        return Ok(());
    };
    let mut family = siblings_of(alloc, count, &first)?;
    let mut around = around;
    let mut at = Some(first);
    while let Some(child) = at {
        let places = places_of(&mut family, &child)?;
        let mut beside = Vec::new(alloc);
        let mut inside = Vec::new(alloc);
        let holds = visit(
            steps,
            around.as_slice(),
            &child,
            &places,
            &mut beside,
            &mut inside,
        )?;
        add_if(holds, child.serial(), found)?;
        add_stepped(alloc, steps, count, &child, inside, found)?;
        around = beside;
        at = child.next_sibling();
    }
    Ok(())
}

/// The serial of the first node below the node that ends some selector; `around` is what holds around its first child.
pub fn first_stepped(
    alloc: Global,
    steps: &[Step<'_>],
    count: Count,
    node: &NodeRef<'_>,
    around: Vec<Around>,
) -> Result<Option<u64>, AllocError>
    requires { around.items ≡ map (inside_of node.now) (chains_in [] (map step_seen steps.now)) }
    ensures { IfOk result (λ r. r ≡ option_map serial_of (find (any_ends [] (map step_seen steps.now)) (below node.now))) }
{
    let Some(first) = node.first_child() else {
        return Ok(None);
    };
    let mut family = siblings_of(alloc, count, &first)?;
    let mut around = around;
    let mut at = Some(first);
    while let Some(child) = at {
        let places = places_of(&mut family, &child)?;
        let mut beside = Vec::new(alloc);
        let mut inside = Vec::new(alloc);
        if visit(
            steps,
            around.as_slice(),
            &child,
            &places,
            &mut beside,
            &mut inside,
        )? {
            return Ok(Some(child.serial()));
        }
        if let Some(found) = first_stepped(alloc, steps, count, &child, inside)? {
            return Ok(Some(found));
        }
        around = beside;
        at = child.next_sibling();
    }
    Ok(None)
}

/// What holds around a node: found from the root down, over the siblings before each node of the way.
#[cycle(around)]
pub fn around_node(
    alloc: Global,
    steps: &[Step<'_>],
    node: &NodeRef<'_>,
) -> Result<Vec<Around>, AllocError>
    ensures { IfOk result (λ v. v.items ≡ map (around_of node.now) (chains_in [] (map step_seen steps.now))) }
{
    let before = siblings_before(alloc, node)?;
    let around = around_first(alloc, steps, node)?;
    pass_row(alloc, steps, node, around, before)
}

/// What would hold around a node that had no sibling before it.
#[cycle(around)]
fn around_first(
    alloc: Global,
    steps: &[Step<'_>],
    node: &NodeRef<'_>,
) -> Result<Vec<Around>, AllocError>
    ensures { IfOk result (λ v. v.items ≡ map (around_by node.now []) (chains_in [] (map step_seen steps.now))) }
{
    match node.parent() {
        Some(parent) => inside_node(alloc, steps, &parent),
        None => nothing_around(alloc, steps.len()),
    }
}

/// What holds around the first child of a node.
#[cycle(around)]
pub fn inside_node(
    alloc: Global,
    steps: &[Step<'_>],
    node: &NodeRef<'_>,
) -> Result<Vec<Around>, AllocError>
    ensures { IfOk result (λ v. v.items ≡ map (inside_of node.now) (chains_in [] (map step_seen steps.now))) }
{
    let around = around_node(alloc, steps, node)?;
    let mut beside = Vec::new(alloc);
    let mut inside = Vec::new(alloc);
    let _found = visit(
        steps,
        around.as_slice(),
        node,
        &KnownPlaces::new(),
        &mut beside,
        &mut inside,
    )?;
    Ok(inside)
}

/// Nothing stands around the root.
fn nothing_around(alloc: Global, n: usize) -> Result<Vec<Around>, AllocError>
    ensures { IfOk result (λ v. v.items ≡ replicate n nothing) }
{
    let mut around = Vec::new(alloc);
    for _i in 0..n {
        around.push(Around {
            above: false,
            parent: false,
            previous: false,
            earlier: false,
        })?;
    }
    Ok(around)
}

/// The siblings before a node, the nearest first.
fn siblings_before<'a>(alloc: Global, node: &NodeRef<'a>) -> Result<Vec<NodeRef<'a>>, AllocError>
    ensures { IfOk result (λ v. v.items ≡ earlier node.now) }
{
    let mut before = Vec::new(alloc);
    let mut at = node.previous_sibling();
    while let Some(other) = at {
        let next = other.previous_sibling();
        before.push(other)?;
        at = next;
    }
    Ok(before)
}

/// Goes over the siblings before a node, from the first on.
fn pass_row<'a>(
    alloc: Global,
    steps: &[Step<'_>],
    node: &NodeRef<'a>,
    around: Vec<Around>,
    before: Vec<NodeRef<'a>>,
) -> Result<Vec<Around>, AllocError>
    requires before { before.items ≡ earlier node.now }
    requires around { around.items ≡ map (around_by node.now []) (chains_in [] (map step_seen steps.now)) }
    ensures { IfOk result (λ v. v.items ≡ map (around_of node.now) (chains_in [] (map step_seen steps.now))) }
{
    let Some(first) = before.last() else {
        return Ok(around);
    };
    let family = Family::of_row(alloc, first)?;
    pass_family(alloc, steps, node, around, before, family)
}

fn pass_family<'a>(
    alloc: Global,
    steps: &[Step<'_>],
    node: &NodeRef<'a>,
    around: Vec<Around>,
    before: Vec<NodeRef<'a>>,
    family: Family<'a>,
) -> Result<Vec<Around>, AllocError>
    requires before { before.items ≡ earlier node.now }
    requires around { around.items ≡ map (around_by node.now []) (chains_in [] (map step_seen steps.now)) }
    requires family { FacesLast family before.items }
    ensures { IfOk result (λ v. v.items ≡ map (around_of node.now) (chains_in [] (map step_seen steps.now))) }
{
    let mut before = before;
    let mut around = around;
    let mut family = family;
    while let Some(other) = before.pop() {
        let places = family.next_places(&other)?;
        let mut beside = Vec::new(alloc);
        let mut inside = Vec::new(alloc);
        let _found = visit(
            steps,
            around.as_slice(),
            &other,
            &places,
            &mut beside,
            &mut inside,
        )?;
        around = beside;
    }
    Ok(around)
}

/// Whether the combinator leads to a node where the chain at that place holds.
fn leads_at(joint: Joint, around: &[Around], i: usize) -> bool
    requires { i < length around.now }
    ensures { (a : Around) → slice_get around.now i ≡ Some a → result ≡ leads_by joint a }
{
    around[i].leads(joint)
}

/// Whether what is left of a node is as the compounds ask: found from the root down, over each sibling before the way once.
pub fn left_by_steps(
    alloc: Global,
    left: &[Compound],
    joint: Joint,
    node: &NodeRef<'_>,
) -> Result<bool, AllocError>
    requires { 0 < length left.now }
    ensures { IfOk result (λ r. r ≡ left_holds (reverse (map compound_seen left.now)) joint node.now) }
{
    let mut list = Vec::new(alloc);
    add_chain(left, &mut list)?;
    let around = around_node(alloc, list.as_slice(), node)?;
    Ok(leads_at(joint, around.as_slice(), left.len() - 1))
}
