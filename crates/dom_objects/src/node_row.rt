ghost use Rattle.std.specs.Prelude.{◌≡◌};
ghost use Rattle.dom_objects.specs.NodeRows.{told_by, unshown};

use crate::tree::NodeTree;
use node_tree::{Attributes, Kind};

/// A node of the page as a message tells it, but for its children, with the texts where they are.
#[derive(Drop)]
pub struct NodeRow<'a> {
    /// The id in the session, 0 for a node that is described alone.
    pub id: u64,
    /// The serial in the page.
    pub serial: u64,
    /// The id of the parent, 0 for the document.
    pub parent: u64,
    pub kind: Kind,
    pub name: &'a str,
    pub value: &'a str,
    pub attributes: &'a Attributes,
    /// The number of children, 0 for what can have none.
    pub count: u64,
}

impl NodeTree {
    /// The node without its children.
    pub(crate) fn row(&self) -> NodeRow<'_>
        ensures { told_by result ≡ unshown self.now.row }
    {
        NodeRow {
            id: self.id,
            serial: self.serial,
            parent: self.parent,
            kind: self.kind,
            name: self.name.as_str(),
            value: self.value.as_str(),
            attributes: &self.attributes,
            count: self.count,
        }
    }
}
