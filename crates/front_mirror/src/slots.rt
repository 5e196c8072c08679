// A known node as the table holds it.
ghost use Rattle.std.specs.Prelude.{◌≡◌};
ghost use Rattle.node_tree.specs.Nodes.{Nodes};
ghost use Rattle.node_tree.specs.Labels.{is_element, has_value};
ghost use Rattle.node_tree.specs.Seen.{Seen, is_opened, shows_count};
ghost use Rattle.dom_objects.specs.Told.{count_in};
ghost use Rattle.front_mirror.specs.Tables.{mirror_row, root_ids};

use crate::child_ids::ChildIds;
use node_tree::{Attributes, Kind, Text};

/// What is shown below a node.
#[derive(Drop)]
pub(crate) enum Below {
    /// It can have no children.
    Leaf,
    /// It has so many children, which are not shown.
    Counted(u64),
    /// Its children are shown.
    Opened,
}

/// A known node: all but its place, the id of its parent, and the ids of the children that are shown, in their order. The
/// document has no parent.
#[derive(Drop)]
pub(crate) struct Slot {
    pub(crate) id: u64,
    pub(crate) serial: u64,
    pub(crate) kind: Kind,
    pub(crate) name: Text,
    pub(crate) value: Text,
    pub(crate) attributes: Attributes,
    pub(crate) below: Below,
    pub(crate) parent: Option<u64>,
    pub(crate) children: ChildIds,
}

impl Slot {
    /// Whether its children are shown.
    pub(crate) fn is_opened(&self) -> bool
        ensures { result ≡ is_opened (mirror_row self.now).hold }
    {
        match &self.below {
            Below::Opened => true,
            Below::Leaf | Below::Counted(_) => false,
        }
    }

    /// Whether it can have children, and they are not shown.
    pub(crate) fn is_unopened(&self) -> bool
        ensures { result ≡ shows_count (mirror_row self.now).hold }
    {
        match &self.below {
            Below::Counted(_) => true,
            Below::Leaf | Below::Opened => false,
        }
    }

    /// Whether it is an element.
    pub(crate) fn is_element(&self) -> bool
        ensures { result ≡ is_element self.now.kind }
    {
        self.kind.is_element()
    }

    /// Whether it has a value.
    pub(crate) fn has_value(&self) -> bool
        ensures { result ≡ has_value self.now.kind }
    {
        match self.kind {
            Kind::Text | Kind::Comment => true,
            Kind::Document | Kind::Element | Kind::Doctype => false,
        }
    }

    /// How many children it has, shown or only counted.
    pub(crate) fn count(&self) -> u64
        ensures { (n : Nodes Seen) → self.now.children ≡ root_ids n → result ≡ count_in (mirror_row self.now).hold n }
    {
        match &self.below {
            Below::Leaf => 0,
            Below::Counted(count) => *count,
            Below::Opened => self.children.len() as u64,
        }
    }
}
