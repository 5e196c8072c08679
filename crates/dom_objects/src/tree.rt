use node_tree::{Attributes, Kind, Text};
use std::marker::Model;

/// A node of the page as a message tells it (`DOM.Node`), which contracts see as a tree of told rows.
#[derive(Drop)]
pub struct NodeTree {
    /// The id in the session, 0 for a node that is described alone.
    pub id: u64,
    /// The serial in the page.
    pub serial: u64,
    /// The id of the parent, 0 for the document.
    pub parent: u64,
    pub kind: Kind,
    pub name: Text,
    pub value: Text,
    pub attributes: Attributes,
    /// The number of children, 0 for what can have none.
    pub count: u64,
    /// The children where they are shown.
    pub children: Option<Vec<NodeTree>>,
}

impl Model for NodeTree {
    ghost use Rattle.std.specs.Prelude.{is_some};
    ghost use Rattle.node_tree.specs.Nodes.{Branch, branch_count, coded_branch};
    ghost use Rattle.node_tree.specs.Labels.{holds};
    ghost use Rattle.dom_objects.specs.Told.{Told, coded_told, hold_of, shown_children};

    ghost Value = { Branch Told };

    ghost coded = { coded_branch coded_told };

    ghost view = { λ t. record {
      row = record {
        parent = t.parent;
        count = t.count;
        seen = record {
          id = t.id;
          serial = t.serial;
          label = record { kind = t.kind; name = t.name; value = t.value; attributes = t.attributes };
          hold = hold_of (is_some t.children) (holds t.kind) t.count;
        };
      };
      children = shown_children t.children;
    } };

    ghost size = { branch_count };

    ghost use Rattle.std.specs.Prelude.{◌≤◌, Some, None};
    ghost use Rattle.std.proofs.Common.{arith};
    ghost use Rattle.node_tree.specs.Nodes.{most_le-node_count};

    ghost size_decreases = { λ a h. (elim a.children as
        (λ o. child_size (record a { children = o }) ≤ size (view (record a { children = o })))
        [ None ↦ Prim.omega arith | Some v ↦ Prim.omega (arith, most_le-node_count v.items) ]) };
}
