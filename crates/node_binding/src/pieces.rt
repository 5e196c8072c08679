// The openings of a deal, listed.

ghost use Rattle.std.specs.Prelude.{◌≡◌, ◌++◌, map, OnOk, IfOk};
ghost use Rattle.node_tree.specs.Nodes.{alone};
ghost use Rattle.node_tree.specs.Levels.{most_told};
ghost use Rattle.node_binding.specs.Deals.{capped, dealt, smaller, more_told};
ghost use Rattle.node_binding.specs.Pieces.{opening_of, begun, left_below};

use crate::levels::{is_reached, less};
use node_tree::MOST_TOLD;
use shown_pages::{ShownNode, Walk};
use std::alloc::AllocError;

/// A container that is to be opened, and by how many levels; `None` stands for all.
#[derive(Drop)]
pub struct Opening<'a> {
    pub levels: Option<u64>,
    pub node: ShownNode<'a>,
}

/// At most the levels that one message tells.
pub fn capped(levels: Option<u64>) -> Option<u64>
    ensures { result ≡ capped most_told levels }
{
    match levels {
        None => Some(MOST_TOLD),
        Some(d) => Some(smaller(d)),
    }
}

fn smaller(d: u64) -> u64
    ensures { result ≡ smaller most_told d }
{
    if d < MOST_TOLD { d } else { MOST_TOLD }
}

// Where no level is left of the piece before, the container begins one. Gives how many are left below it.
fn begin<'a>(
    node: &ShownNode<'a>,
    left: u64,
    levels: Option<u64>,
    openings: &mut Vec<Opening<'a>>,
) -> Result<u64, AllocError>
    ensures left { IfOk result (λ below. below ≡ left_below more_told left) }
    ensures begun { OnOk result (map opening_of openings.new.items
        ≡ map opening_of openings.old.items ++ begun more_told left levels node.now) }
{
    if left == 0 {
        openings.push(Opening {
            levels: capped(levels),
            node: node.again(),
        })?;
        return Ok(MOST_TOLD - 1);
    }
    Ok(left - 1)
}

/// Appends the openings at and below a node of which `left` levels are opened already, down to `levels`: in document order the
/// containers that many levels below it, each by as many levels as one message tells, and below it, once it is opened, the next ones.
/// With `left` 0 these are the openings by which a container is opened of which nothing is.
#[cycle(deal)]
pub fn deal_node<'a>(
    node: &ShownNode<'a>,
    left: u64,
    levels: Option<u64>,
    openings: &mut Vec<Opening<'a>>,
) -> Result<(), AllocError>
    ensures { OnOk result (map opening_of openings.new.items
        ≡ map opening_of openings.old.items ++ dealt more_told left levels (alone node.now)) }
{
    if !is_reached(node.kind(), levels) {
        return Ok(());
    }
    let below = begin(node, left, levels, openings)?;
    let rest = less(levels);
    let mut children = node.walk();
    deal_children(&mut children, below, rest, openings)?;
    Ok(())
}

#[cycle(deal)]
fn deal_children<'a>(
    walk: &mut Walk<'a>,
    left: u64,
    levels: Option<u64>,
    openings: &mut Vec<Opening<'a>>,
) -> Result<(), AllocError>
    ensures { OnOk result (map opening_of openings.new.items
        ≡ map opening_of openings.old.items ++ dealt more_told left levels walk.old) }
{
    while let Some(node) = walk.next() {
        deal_node(&node, left, levels, openings)?;
    }
    Ok(())
}
