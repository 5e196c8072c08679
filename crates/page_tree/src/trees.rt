use node_tree::{Attributes, Kind, Text};
use std::marker::Model;

/// A node of a page with all below it. Its serial is the protocol's `backendNodeId`.
#[derive(Drop)]
pub struct Tree {
    pub serial: u64,
    pub kind: Kind,
    pub name: Text,
    pub value: Text,
    pub attributes: Attributes,
    pub children: Vec<Tree>,
}

impl Model for Tree {
    ghost use Rattle.node_tree.specs.Nodes.{Branch, nodes_of, branch_count, coded_branch, most_le-node_count};
    ghost use Rattle.page_tree.specs.Pages.{PageRow, coded_row};
    ghost use Rattle.std.proofs.Common.{arith};

    ghost Value = { Branch PageRow };

    ghost coded = { coded_branch coded_row };

    ghost view = { λ t. record {
      row = record { serial = t.serial; label = record { kind = t.kind; name = t.name; value = t.value; attributes = t.attributes } };
      children = nodes_of t.children.items;
    } };

    ghost size = { branch_count };

    ghost size_decreases = { λ t _. Prim.omega (arith, most_le-node_count t.children.items) };
}
