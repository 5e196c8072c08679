use node_tree::{Attributes, Kind, Text};
use std::marker::Model;

/// A node of a load, before it has a serial.
#[derive(Drop)]
pub struct NodeForm {
    pub kind: Kind,
    pub name: Text,
    pub value: Text,
    pub attributes: Attributes,
    pub children: Vec<NodeForm>,
}

impl Model for NodeForm {
    ghost use Rattle.node_tree.specs.Nodes.{Branch, nodes_of, branch_count, coded_branch, most_le-node_count};
    ghost use Rattle.node_tree.specs.Labels.{Label, coded_label};
    ghost use Rattle.std.proofs.Common.{arith};

    ghost Value = { Branch Label };

    ghost coded = { coded_branch coded_label };

    ghost view = { λ f. record {
      row = record { kind = f.kind; name = f.name; value = f.value; attributes = f.attributes };
      children = nodes_of f.children.items;
    } };

    ghost size = { branch_count };

    ghost size_decreases = { λ f _. Prim.omega (arith, most_le-node_count f.children.items) };
}
