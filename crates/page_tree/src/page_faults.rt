//! Why an edit of a page is refused.

ghost use Rattle.std.specs.Prelude.{◌≡◌, ◌+◌, [], IsSome};
ghost use Rattle.node_tree.specs.Nodes.{branch_count, map_branch};
ghost use Rattle.page_tree.specs.Forms.{max_nodes};
ghost use Rattle.node_tree.specs.Levels.{max_level};
ghost use Rattle.page_tree.specs.Pages.{row_label, find_in, level_at};
ghost use Rattle.page_tree.specs.Edits.{children_at, is_among, form_at, sibling_after, moved_before};
ghost use Rattle.page_tree.specs.EditFaults.{is_live_or_0, is_place, is_low_below, has_room, may_hold, is_inside, first_fault};
ghost use Rattle.page_tree.specs.EditFaults.{insert_fault, move_fault, copy_fault, CanInsert};

use crate::edit_faults::EditFault;
use crate::edits::TreeEdit;
use crate::forms::NodeForm;
use crate::limits::{are_named, are_within, room_beside};
use crate::pages::Page;
use crate::tree_limits::{are_trees_named, are_trees_within, room_beside_trees};
use crate::trees::Tree;
use crate::walks::{are_children_within, room_beside_children};
use node_tree::{Kind, MAX_LEVEL, MAX_NODES, is_attribute_name};
use std::slice;

/// A node of the second kind may stand right below one of the first.
fn may_hold(above: Kind, below: Kind) -> bool
    ensures { result ≡ may_hold above below }
{
    match above {
        Kind::Document => true,
        Kind::Element => match below {
            Kind::Doctype => false,
            Kind::Document | Kind::Element | Kind::Text | Kind::Comment => true,
        },
        Kind::Text | Kind::Comment | Kind::Doctype => false,
    }
}

impl Page {
    /// How many more nodes the page has room for.
    fn room(&self) -> usize
        ensures { result + branch_count self.now.tree ≡ max_nodes }
    {
        MAX_NODES - self.arena.keys.len()
    }

    /// How many levels there are below a node.
    fn levels_below(&self, node: u64) -> u64
        requires { IsSome (find_in node self.now.tree) }
        ensures { result + level_at node self.now.tree ≡ max_level }
    {
        match self.arena.find(node) {
            Some(slot) => MAX_LEVEL - self.arena.climb(slot.parent, MAX_LEVEL),
            None => unreachable!(),
        }
    }

    fn is_live_or_0(&self, serial: u64) -> bool
        ensures { result ≡ is_live_or_0 serial self.now.tree }
    {
        if serial == 0 {
            return true;
        }
        self.live(serial)
    }

    fn has_child(&self, parent: u64, serial: u64) -> bool
        requires { IsSome (find_in parent self.now.tree) }
        ensures { result ≡ is_among serial (children_at parent self.now.tree) }
    {
        match self.arena.find(parent) {
            Some(slot) => self.arena.place(&slot.children, serial) < slot.children.len(),
            None => unreachable!(),
        }
    }

    fn is_place(&self, parent: u64, before: u64) -> bool
        requires { IsSome (find_in parent self.now.tree) }
        ensures { result ≡ is_place parent before self.now.tree }
    {
        if before == 0 {
            return true;
        }
        self.has_child(parent, before)
    }

    /// The serial of the child right after that one, and 0 where there is none.
    fn child_after(&self, parent: u64, serial: u64) -> u64
        requires { IsSome (find_in parent self.now.tree) }
        ensures { result ≡ sibling_after serial parent self.now.tree }
    {
        match self.arena.find(parent) {
            Some(slot) => self.arena.next_sibling(&slot.children, serial),
            None => unreachable!(),
        }
    }

    /// Before which child a move puts the node, as an attach says it.
    pub fn moved_before(&self, node: u64, parent: u64, before: u64) -> u64
        requires { IsSome (find_in parent self.now.tree) }
        ensures { result ≡ moved_before node parent before self.now.tree }
    {
        if before != node {
            return before;
        }
        if self.has_child(parent, node) {
            self.child_after(parent, node)
        } else {
            before
        }
    }

    /// The first serial is the other one's or stands below it.
    fn is_inside(&self, serial: u64, other: u64) -> bool
        requires live { IsSome (find_in serial self.now.tree) }
        requires other { IsSome (find_in other self.now.tree) }
        ensures { result ≡ is_inside serial other self.now.tree }
    {
        self.valid();
        let mut at = serial;
        while at != other {
            let parent = self.parent(at);
            if parent == 0 {
                return false;
            }
            at = parent;
        }
        true
    }

    fn is_low_form(&self, parent: u64, form: &NodeForm) -> bool
        requires { IsSome (find_in parent self.now.tree) }
        ensures { result ≡ is_low_below parent form.now self.now.tree }
    {
        are_within(slice::from_ref(form), self.levels_below(parent))
    }

    fn is_low_tree(&self, parent: u64, tree: &Tree) -> bool
        requires { IsSome (find_in parent self.now.tree) }
        ensures { result ≡ is_low_below parent (map_branch row_label tree.now) self.now.tree }
    {
        are_trees_within(slice::from_ref(tree), self.levels_below(parent))
    }

    fn is_low_node(&self, parent: u64, node: u64) -> bool
        requires parent { IsSome (find_in parent self.now.tree) }
        requires node { IsSome (find_in node self.now.tree) }
        ensures { result ≡ is_low_below parent (form_at node self.now.tree) self.now.tree }
    {
        let levels = self.levels_below(parent);
        if levels == 0 {
            return false;
        }
        are_children_within(&self.node(node).children(), levels - 1)
    }

    fn has_room_for_form(&self, form: &NodeForm) -> bool
        ensures { result ≡ has_room form.now self.now.tree }
    {
        room_beside(slice::from_ref(form), self.room()).is_some()
    }

    fn has_room_for_tree(&self, tree: &Tree) -> bool
        ensures { result ≡ has_room (map_branch row_label tree.now) self.now.tree }
    {
        room_beside_trees(slice::from_ref(tree), self.room()).is_some()
    }

    fn has_room_for_node(&self, node: u64) -> bool
        requires { IsSome (find_in node self.now.tree) }
        ensures { result ≡ has_room (form_at node self.now.tree) self.now.tree }
    {
        let room = self.room();
        if room == 0 {
            return false;
        }
        room_beside_children(&self.node(node).children(), room - 1).is_some()
    }

    fn set_attr_fault(&self, node: u64, name: &str) -> Option<EditFault>
        ensures { result ≡ first_fault (TreeEdit.SetAttr node name.now []) self.now.tree }
    {
        if !self.live(node) {
            return Some(EditFault::NoNode);
        }
        if !self.kind(node).is_element() {
            return Some(EditFault::NotElement);
        }
        if !is_attribute_name(name) {
            return Some(EditFault::BadName);
        }
        None
    }

    fn drop_attr_fault(&self, node: u64, name: &str) -> Option<EditFault>
        ensures { result ≡ first_fault (TreeEdit.DropAttr node name.now) self.now.tree }
    {
        if let Some(fault) = self.set_attr_fault(node, name) {
            return Some(fault);
        }
        if self.attr(node, name).is_none() {
            return Some(EditFault::NoAttr);
        }
        None
    }

    fn set_text_fault(&self, node: u64) -> Option<EditFault>
        ensures { result ≡ first_fault (TreeEdit.SetText node []) self.now.tree }
    {
        if !self.live(node) {
            return Some(EditFault::NoNode);
        }
        if !self.kind(node).has_value() {
            return Some(EditFault::NotText);
        }
        None
    }

    fn detach_fault(&self, node: u64) -> Option<EditFault>
        ensures { result ≡ first_fault (TreeEdit.Detach node) self.now.tree }
    {
        if !self.live(node) {
            return Some(EditFault::NoNode);
        }
        if self.kind(node) == Kind::Document {
            return Some(EditFault::IsDocument);
        }
        None
    }

    fn attach_fault(&self, parent: u64, before: u64, tree: &Tree) -> Option<EditFault>
        ensures { result ≡ first_fault (TreeEdit.Attach parent before tree.now) self.now.tree }
    {
        if !self.live(parent) {
            return Some(EditFault::NoNode);
        }
        if !self.is_live_or_0(before) {
            return Some(EditFault::NoNode);
        }
        if !self.is_place(parent, before) {
            return Some(EditFault::NotChild);
        }
        if !self.is_low_tree(parent, tree) {
            return Some(EditFault::TooDeep);
        }
        if !self.has_room_for_tree(tree) {
            return Some(EditFault::TooMany);
        }
        if !are_trees_named(slice::from_ref(tree)) {
            return Some(EditFault::BadName);
        }
        if !may_hold(self.kind(parent), tree.kind) {
            return Some(EditFault::NotContainer);
        }
        None
    }

    /// The first fault of an edit, by number.
    pub fn fault(&self, edit: &TreeEdit) -> Option<EditFault>
        ensures { result ≡ first_fault edit.now self.now.tree }
    {
        match edit {
            TreeEdit::SetAttr { node, name, .. } => self.set_attr_fault(*node, name.as_str()),
            TreeEdit::DropAttr { node, name } => self.drop_attr_fault(*node, name.as_str()),
            TreeEdit::SetText { node, .. } => self.set_text_fault(*node),
            TreeEdit::Attach {
                parent,
                before,
                tree,
            } => self.attach_fault(*parent, *before, tree),
            TreeEdit::Detach { node } => self.detach_fault(*node),
        }
    }

    /// The first fault of an insert of new nodes of that form, before the child `before` of the parent, or last where `before` is 0.
    pub fn insert_fault(&self, parent: u64, before: u64, form: &NodeForm) -> Option<EditFault>
        requires { CanInsert form.now }
        ensures { result ≡ insert_fault parent before form.now self.now.tree }
    {
        if !self.live(parent) {
            return Some(EditFault::NoNode);
        }
        if !self.is_live_or_0(before) {
            return Some(EditFault::NoNode);
        }
        if !self.is_place(parent, before) {
            return Some(EditFault::NotChild);
        }
        if !self.is_low_form(parent, form) {
            return Some(EditFault::TooDeep);
        }
        if !self.has_room_for_form(form) {
            return Some(EditFault::TooMany);
        }
        if !are_named(slice::from_ref(form)) {
            return Some(EditFault::BadName);
        }
        if !may_hold(self.kind(parent), form.kind) {
            return Some(EditFault::NotContainer);
        }
        None
    }

    /// The first fault of a move of a node, before the child `before` of the parent, or last where `before` is 0. Where `before` is the
    /// node itself, its next sibling counts.
    pub fn move_fault(&self, node: u64, parent: u64, before: u64) -> Option<EditFault>
        ensures { result ≡ move_fault node parent before self.now.tree }
    {
        if !self.live(node) {
            return Some(EditFault::NoNode);
        }
        if !self.live(parent) {
            return Some(EditFault::NoNode);
        }
        if !self.is_live_or_0(before) {
            return Some(EditFault::NoNode);
        }
        if self.kind(node) == Kind::Document {
            return Some(EditFault::IsDocument);
        }
        if !self.is_place(parent, self.moved_before(node, parent, before)) {
            return Some(EditFault::NotChild);
        }
        if self.is_inside(parent, node) {
            return Some(EditFault::Inside);
        }
        if !self.is_low_node(parent, node) {
            return Some(EditFault::TooDeep);
        }
        if !may_hold(self.kind(parent), self.kind(node)) {
            return Some(EditFault::NotContainer);
        }
        None
    }

    /// The first fault of a copy of a node with new serials, before the child `before` of the parent, or last where `before` is 0.
    pub fn copy_fault(&self, node: u64, parent: u64, before: u64) -> Option<EditFault>
        ensures { result ≡ copy_fault node parent before self.now.tree }
    {
        if !self.live(node) {
            return Some(EditFault::NoNode);
        }
        if !self.live(parent) {
            return Some(EditFault::NoNode);
        }
        if !self.is_live_or_0(before) {
            return Some(EditFault::NoNode);
        }
        if self.kind(node) == Kind::Document {
            return Some(EditFault::IsDocument);
        }
        if !self.is_place(parent, before) {
            return Some(EditFault::NotChild);
        }
        if !self.is_low_node(parent, node) {
            return Some(EditFault::TooDeep);
        }
        if !self.has_room_for_node(node) {
            return Some(EditFault::TooMany);
        }
        if !may_hold(self.kind(parent), self.kind(node)) {
            return Some(EditFault::NotContainer);
        }
        None
    }
}
