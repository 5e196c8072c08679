ghost use Rattle.std.specs.Prelude.{◌≡◌, ◌+◌, ◌<◌, ◌&&◌, false, not, cond, IsTrue, IsSome, IfOk, OnOk};
ghost use Rattle.std.specs.FinMap as map;
ghost use Rattle.std.specs.FinSet as set;
ghost use Rattle.node_tree.specs.Numbers.{drawn_before_nodes, drawn_limit};
ghost use Rattle.node_tree.specs.Nodes.{alone, node_count};
ghost use Rattle.node_tree.specs.Labels.{holds};
ghost use Rattle.page_tree.specs.Pages.{find_in, node_at};
ghost use Rattle.shown_pages.specs.ShownPages.{shown_page};
ghost use Rattle.node_binding.specs.Openings.{IsDepth, is_spent, levels_of};
ghost use Rattle.node_binding.specs.Bindings.{empty_from, in_mode, KnowsNothing, cleared, started, revealed, opened_down, with_bound};
ghost use Rattle.node_binding.specs.Bindings.{with_opened, forgotten, all_forgotten};

use crate::levels::{is_reached, less, levels_of};
use number_map::{NumberMap, NumberSet};
use page_tree::Page;
use shown_pages::{Mode, ShownNode, Walk};
use std::alloc::{AllocError, Global};
use std::marker::Model;

/// The opened containers, and the pairs of ids and serials of the known nodes, in what a mode shows of the page.
///
/// A look-up takes one step where the serials and ids follow one another, or nearly, and else time that grows with the
/// logarithm of the number of known nodes. After want of memory a binding may have a part of what was asked for.
#[derive(Drop)]
pub struct Binding {
    opened: NumberSet,
    ids: NumberMap,
    serials: NumberMap,
    next: u64,
    mode: Mode,
}

impl Model for Binding {
    ghost use Rattle.node_binding.specs.Bindings.{BindingValue, coded_bound};

    ghost Value = { BindingValue };

    ghost coded = { coded_bound };

    ghost view = { λ a. record { opened = a.opened; ids = a.ids; serials = a.serials; next = a.next; mode = a.mode } };
}

impl Binding {
    /// Nothing is known, the first id is 1, and the mode is `All`. Takes no memory.
    pub fn new(alloc: Global) -> Binding
        ensures { result ≡ empty_from 1 }
    {
        Binding {
            opened: NumberSet::new(alloc),
            ids: NumberMap::new(alloc),
            serials: NumberMap::new(alloc),
            next: 1,
            mode: Mode::All,
        }
    }

    /// What the client is shown of the page.
    pub fn mode(&self) -> Mode
        ensures { result ≡ self.now.mode }
    {
        self.mode
    }

    /// Another mode, while nothing is known.
    pub fn set_mode(&mut self, mode: Mode)
        requires { KnowsNothing self.old }
        ensures { self.new ≡ in_mode mode self.old }
    {
        self.change_mode(mode);
    }

    fn change_mode(&mut self, mode: Mode)
        ensures { self.new ≡ in_mode mode self.old }
    {
        self.mode = mode;
    }

    /// Resets, and then opens the document, as the mode shows it, by `depth` levels, or all of the page where it is -1. The known
    /// nodes get their ids in document order. The mode stays until the next start.
    pub fn start(&mut self, page: &Page, depth: i64, mode: Mode) -> Result<(), AllocError>
        requires depth { IsDepth depth }
        requires room { self.old.next < drawn_before_nodes }
        ensures { OnOk result
            (self.new ≡ started (levels_of depth) (alone (shown_page mode page.now).tree) (in_mode mode self.old)) }
    {
        self.change_mode(mode);
        self.begin(page, levels_of(depth))?;
        Ok(())
    }

    /// The same in the mode that it has, and by levels that may be few already, at least 1 of them.
    pub fn begin(&mut self, page: &Page, levels: Option<u64>) -> Result<(), AllocError>
        requires left { is_spent levels ≡ false }
        requires room { self.old.next < drawn_before_nodes }
        ensures { OnOk result (self.new ≡ started levels (alone (shown_page self.old.mode page.now).tree) self.old) }
    {
        page.valid();
        let root = ShownNode::document(page, self.mode);
        self.reset();
        let serial = root.serial();
        self.bind(serial)?;
        self.open(serial)?;
        let mut below = root.walk();
        self.reveal(&mut below, less(levels))?;
        Ok(())
    }

    /// The nodes become known, and the containers among them and below them are opened to that many levels.
    fn reveal(&mut self, walk: &mut Walk<'_>, levels: Option<u64>) -> Result<(), AllocError>
        requires { self.old.next + node_count walk.old < drawn_limit }
        ensures { OnOk result (self.new ≡ revealed levels walk.old self.old) }
    {
        while let Some(shown) = walk.next() {
            let serial = shown.serial();
            self.bind(serial)?;
            if is_reached(shown.kind(), levels) {
                self.open(serial)?;
                let mut inside = shown.walk();
                self.reveal(&mut inside, less(levels))?;
            }
        }
        Ok(())
    }

    /// Opens a container that is known and not opened by `levels` levels, or all below it where they are -1. What becomes
    /// known gets its ids in document order.
    pub fn open_down(&mut self, page: &Page, serial: u64, levels: i64) -> Result<(), AllocError>
        requires live { IsSome (find_in serial (shown_page self.old.mode page.now).tree) }
        requires container { IsTrue (holds (node_at serial (shown_page self.old.mode page.now).tree).row.label.kind) }
        requires depth { IsDepth levels }
        requires room { self.old.next < drawn_before_nodes }
        ensures { OnOk result
            (self.new ≡ opened_down (levels_of levels) (node_at serial (shown_page self.old.mode page.now).tree) self.old) }
    {
        page.valid();
        let node = ShownNode::at(page, serial, self.mode);
        self.open_tree(&node, levels_of(levels))?;
        Ok(())
    }

    /// The same of a node that the caller has found, and by levels that may be counted down already.
    pub fn open_tree(&mut self, node: &ShownNode<'_>, levels: Option<u64>) -> Result<(), AllocError>
        requires container { IsTrue (holds node.now.row.label.kind) }
        requires room { self.old.next + node_count node.now.children < drawn_limit }
        ensures { OnOk result (self.new ≡ opened_down levels node.now self.old) }
    {
        self.open_reached(node, levels)?;
        let left = less(levels);
        let mut below = node.walk();
        self.reveal(&mut below, left)?;
        Ok(())
    }

    fn open_reached(&mut self, node: &ShownNode<'_>, levels: Option<u64>) -> Result<(), AllocError>
        ensures { OnOk result (self.new
            ≡ cond (holds node.now.row.label.kind && not (is_spent levels)) (with_opened node.now.row.serial self.old) self.old) }
    {
        if !is_reached(node.kind(), levels) {
            return Ok(());
        }
        self.open(node.serial())?;
        Ok(())
    }

    /// A shown node that was attached below an opened one, and is not known yet, becomes known; it is not opened. Comes after the
    /// attach, or after the text that shows the node. Gives the node's id.
    pub fn bind_child(&mut self, _page: &Page, serial: u64) -> Result<u64, AllocError>
        requires shown { IsSome (find_in serial (shown_page self.old.mode _page.now).tree) }
        requires room { self.old.next < drawn_before_nodes }
        ensures id { IfOk result (λ id. id ≡ self.old.next) }
        ensures known { OnOk result (self.new ≡ with_bound serial self.old) }
    {
        let id = self.next;
        self.bind(serial)?;
        Ok(id)
    }

    /// The shown node and all that is shown below it are not opened and have no ids any more. Comes before the detach, or before
    /// the text that hides the node, while the page still has them; takes no memory.
    pub fn forget_subtree(&mut self, page: &Page, serial: u64)
        requires { IsSome (find_in serial (shown_page self.old.mode page.now).tree) }
        ensures { self.new ≡ all_forgotten (alone (node_at serial (shown_page self.old.mode page.now).tree)) self.old }
    {
        let node = ShownNode::at(page, serial, self.mode);
        self.forget_tree(&node);
    }

    /// The same of a node that the caller has found.
    pub fn forget_tree(&mut self, node: &ShownNode<'_>)
        ensures { self.new ≡ all_forgotten (alone node.now) self.old }
    {
        self.forget(node.serial());
        let mut kids = node.walk();
        self.forget_all(&mut kids);
    }

    fn forget_all(&mut self, walk: &mut Walk<'_>)
        ensures { self.new ≡ all_forgotten walk.old self.old }
    {
        while let Some(child) = walk.next() {
            self.forget(child.serial());
            let mut below = child.walk();
            self.forget_all(&mut below);
        }
    }

    fn forget(&mut self, serial: u64)
        ensures { self.new ≡ forgotten serial self.old }
    {
        self.opened.remove(serial);
        if let Some(id) = self.ids.remove(serial) {
            self.serials.remove(id);
        }
    }

    /// Nothing is known from now on, and the ids so far are dead; none of them is given again.
    pub fn reset(&mut self)
        ensures { self.new ≡ cleared self.old }
    {
        self.opened.clear();
        self.ids.clear();
        self.serials.clear();
    }

    /// The id of a known node.
    pub fn id_of(&self, serial: u64) -> Option<u64>
        ensures { result ≡ map.get self.now.ids serial }
    {
        self.ids.get(serial)
    }

    /// The known node that has the id.
    pub fn serial_of(&self, id: u64) -> Option<u64>
        ensures { result ≡ map.get self.now.serials id }
    {
        self.serials.get(id)
    }

    /// Whether the node is an opened container.
    pub fn is_opened(&self, serial: u64) -> bool
        ensures { result ≡ set.contains self.now.opened serial }
    {
        self.opened.contains(serial)
    }

    /// The id that the next node gets that becomes known. Ids count from 1 over the whole session.
    pub fn next_id(&self) -> u64
        ensures { result ≡ self.now.next }
    {
        self.next
    }

    fn bind(&mut self, serial: u64) -> Result<(), AllocError>
        requires { self.old.next < drawn_limit }
        ensures { OnOk result (self.new ≡ with_bound serial self.old) }
    {
        self.ids.insert(serial, self.next)?;
        self.serials.insert(self.next, serial)?;
        self.next += 1;
        Ok(())
    }

    fn open(&mut self, serial: u64) -> Result<(), AllocError>
        ensures { OnOk result (self.new ≡ with_opened serial self.old) }
    {
        self.opened.insert(serial)
    }
}
