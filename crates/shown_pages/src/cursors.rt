//! Shown nodes, and walks over the shown children of a node, read off the page with no memory.

ghost use Rattle.std.specs.Prelude.{◌≡◌, ◌≤◌, ◌<◌, IfSome, Some, IsSome};
ghost use Rattle.node_tree.specs.Nodes.{from, width, tree_at};
ghost use Rattle.page_tree.specs.Pages.{find_in, node_at};
ghost use Rattle.shown_pages.specs.ShownPages.{shown_nodes, shown_branch, shown_page};
ghost use Rattle.shown_pages.specs.Walks.{IsNextShown, TakesFirst};

use crate::laws::shown_law;
use crate::modes::{Mode, is_hidden};
use page_tree::{Attributes, Children, Kind, Node, Page};
use std::marker::Model;

/// A node of a page, with what a mode shows below it. It sees what is below it, and not what is above.
#[derive(Drop)]
pub struct ShownNode<'a> {
    node: Node<'a>,
    mode: Mode,
}

impl<'a> Model for ShownNode<'a> {
    ghost use Rattle.node_tree.specs.Nodes.{Branch, coded_branch};
    ghost use Rattle.page_tree.specs.Pages.{PageRow, coded_row};
    ghost use Rattle.shown_pages.specs.ShownPages.{shown_branch};

    ghost Value = { Branch PageRow };

    ghost coded = { coded_branch coded_row };

    ghost view = { λ s. shown_branch s.mode s.node };
}

/// The shown children of a node that a walk has not taken yet, in their order. A walk over all of them is linear in the node's
/// children.
#[derive(Drop)]
pub struct Walk<'a> {
    children: Children<'a>,
    place: usize,
    mode: Mode,
}

impl<'a> Model for Walk<'a> {
    ghost use Rattle.std.specs.Prelude.{◌≤◌};
    ghost use Rattle.node_tree.specs.Nodes.{Nodes, coded_nodes, from, width};
    ghost use Rattle.page_tree.specs.Pages.{PageRow, coded_row};
    ghost use Rattle.shown_pages.specs.ShownPages.{shown_nodes};

    ghost Value = { Nodes PageRow };

    ghost coded = { coded_nodes coded_row };

    ghost view = { λ w. shown_nodes w.mode (from w.place w.children) };

    ghost invariant = { λ w. w.place ≤ width w.children };
}

/// A child that is shown, and the place behind it.
#[derive(Drop)]
struct Stop<'a> {
    node: Node<'a>,
    behind: usize,
}

/// The first shown child from that place on.
fn next_shown<'a>(children: &Children<'a>, place: usize, mode: Mode) -> Option<Stop<'a>>
    requires { place ≤ width children.now }
    ensures next { IsNextShown mode (from place children.now) result children.now }
    ensures inside { IfSome result (λ stop. stop.behind ≤ width children.now) }
{
    for i in place..children.len() {
        let node = children.at(i);
        if !is_hidden(&node, mode) {
            return Some(Stop {
                node,
                behind: i + 1,
            });
        }
    }
    None
}

/// How many of the children are shown.
fn count_shown(children: &Children<'_>, mode: Mode) -> usize
    ensures { result ≡ width (shown_nodes mode children.now) }
{
    let mut count = 0;
    for i in 0..children.len() {
        let node = children.at(i);
        if !is_hidden(&node, mode) {
            count += 1;
        }
    }
    count
}

/// The child at that place among all, if there is one.
fn child_of_all<'a>(children: &Children<'a>, i: usize) -> Option<Node<'a>>
    ensures { result ≡ tree_at i children.now }
{
    if i >= children.len() {
        return None;
    }
    Some(children.at(i))
}

impl<'a> ShownNode<'a> {
    /// A node of a page, with what the mode shows below it.
    pub(crate) fn of(node: Node<'a>, mode: Mode) -> ShownNode<'a>
        ensures { result ≡ shown_branch mode node.entry }
    {
        ShownNode { node, mode }
    }

    /// The document, which each mode shows.
    pub fn document(page: &'a Page, mode: Mode) -> ShownNode<'a>
        ensures { result ≡ (shown_page mode page.now).tree }
    {
        ShownNode {
            node: page.root(),
            mode,
        }
    }

    /// The node with that serial, if the mode shows one.
    pub fn find(page: &'a Page, serial: u64, mode: Mode) -> Option<ShownNode<'a>>
        ensures { result ≡ find_in serial (shown_page mode page.now).tree }
    {
        page.valid();
        shown_law();
        if !page.live(serial) {
            return None;
        }
        let node = page.node(serial);
        if is_hidden(&node, mode) {
            return None;
        }
        Some(ShownNode { node, mode })
    }

    /// The node with that serial.
    pub fn at(page: &'a Page, serial: u64, mode: Mode) -> ShownNode<'a>
        requires { IsSome (find_in serial (shown_page mode page.now).tree) }
        ensures { result ≡ node_at serial (shown_page mode page.now).tree }
    {
        match ShownNode::find(page, serial, mode) {
            Some(node) => node,
            None => unreachable!(),
        }
    }

    /// The node's serial.
    pub fn serial(&self) -> u64
        ensures { result ≡ self.now.row.serial }
    {
        self.node.serial()
    }

    /// The node's kind.
    pub fn kind(&self) -> Kind
        ensures { result ≡ self.now.row.label.kind }
    {
        self.node.kind()
    }

    /// An element's or a doctype's name, and else the empty text.
    pub fn name(&self) -> &'a str
        ensures { result.now ≡ self.now.row.label.name }
    {
        self.node.name()
    }

    /// A text's or a comment's value, and else the empty text.
    pub fn value(&self) -> &'a str
        ensures { result.now ≡ self.now.row.label.value }
    {
        self.node.value()
    }

    /// All attributes, in ascending order of their names' bytes.
    pub fn attributes(&self) -> &'a Attributes
        ensures { result.now ≡ self.now.row.label.attributes }
    {
        self.node.attributes()
    }

    /// The number of its shown children. Where texts may be hidden all its children are looked at.
    pub fn len(&self) -> usize
        ensures { result ≡ width self.now.children }
    {
        match self.mode {
            Mode::All => self.node.len(),
            Mode::NoBlank => count_shown(&self.node.children(), self.mode),
        }
    }

    /// A walk over its shown children.
    pub fn walk(&self) -> Walk<'a>
        ensures { result ≡ self.now.children }
    {
        Walk {
            children: self.node.children(),
            place: 0,
            mode: self.mode,
        }
    }

    /// The shown child at place `i` among the shown ones, counted from 0, if there is one. Where texts may be hidden all children
    /// before it are looked at.
    pub fn child_at(&self, i: usize) -> Option<ShownNode<'a>>
        ensures { result ≡ tree_at i self.now.children }
    {
        if let Mode::All = self.mode {
            let Some(node) = child_of_all(&self.node.children(), i) else {
                return None;
            };
            return Some(ShownNode::of(node, Mode::All));
        }
        let mut walk = self.walk();
        for _ in 0..i {
            walk.next()?;
        }
        walk.next()
    }

    /// The same node once more, since a node is not `Copy`.
    pub fn again(&self) -> ShownNode<'a>
        ensures { result ≡ self.now }
    {
        ShownNode {
            node: self.node.again(),
            mode: self.mode,
        }
    }
}

impl<'a> Walk<'a> {
    /// Takes the next shown child, if there is one.
    pub fn next(&mut self) -> Option<ShownNode<'a>>
        ensures { TakesFirst self.old result self.new }
    {
        let stop = next_shown(&self.children, self.place, self.mode)?;
        self.place = stop.behind;
        Some(ShownNode {
            node: stop.node,
            mode: self.mode,
        })
    }
}
