ghost use Rattle.std.specs.Prelude.{◌≡◌, ◌∷◌, true, false, IsSome, OnOk, OnErr};
ghost use Rattle.page_tree.specs.Pages.{find_in};
ghost use Rattle.page_tree.specs.Ancestors.{ancestors_at};

use crate::climbing::{nearest_above, nearest_from};
use crate::pauses::Pause;
use crate::serial_sets::SerialSet;
use node_tree::WatchKind;
use page_tree::{Page, TreeEdit};
use std::alloc::{AllocError, Global};
use std::marker::Model;

/// The watched nodes of a page, named by their serials.
#[derive(Drop)]
pub struct Watches {
    subtree: SerialSet,
    attribute: SerialSet,
    removed: SerialSet,
}

impl Model for Watches {
    ghost use Rattle.dom_breakpoints.specs.Watched.{Watched, coded_watched};

    ghost Value = { Watched };

    ghost coded = { coded_watched };

    ghost view = { λ w. record { subtree = w.subtree; attribute = w.attribute; removed = w.removed } };
}

impl Watches {
    ghost use Rattle.dom_breakpoints.specs.Watched.{unwatched, is_watched, with_watch, without_watch, without_subtree};
    ghost use Rattle.dom_breakpoints.specs.Pauses.{edited_node, own_pause, subtree_pause, pause_of};

    /// No watches; takes no memory.
    pub fn new(alloc: Global) -> Watches
        ensures { result ≡ unwatched }
    {
        Watches {
            subtree: SerialSet::new(alloc),
            attribute: SerialSet::new(alloc),
            removed: SerialSet::new(alloc),
        }
    }

    /// Sets a watch on a node, by its serial; one that is set already stays.
    pub fn set(&mut self, node: u64, kind: WatchKind) -> Result<(), AllocError>
        ensures ok { OnOk result (self.new ≡ with_watch kind node self.old) }
        ensures err { OnErr result (self.new ≡ self.old) }
    {
        match kind {
            WatchKind::Subtree => self.subtree.insert(node),
            WatchKind::Attribute => self.attribute.insert(node),
            WatchKind::Removed => self.removed.insert(node),
        }
    }

    /// Takes a watch away; where there is no such watch, nothing changes.
    pub fn remove(&mut self, node: u64, kind: WatchKind)
        ensures { self.new ≡ without_watch kind node self.old }
    {
        match kind {
            WatchKind::Subtree => self.subtree.remove(node),
            WatchKind::Attribute => self.attribute.remove(node),
            WatchKind::Removed => self.removed.remove(node),
        }
    }

    /// The watch is set.
    fn has(&self, node: u64, kind: WatchKind) -> bool
        ensures { result ≡ is_watched kind self.now node }
    {
        match kind {
            WatchKind::Subtree => self.subtree.contains(node),
            WatchKind::Attribute => self.attribute.contains(node),
            WatchKind::Removed => self.removed.contains(node),
        }
    }

    /// The pause by a watch on the node itself.
    fn own_pause(&self, node: u64, kind: WatchKind) -> Option<Pause>
        ensures { result ≡ own_pause kind self.now node }
    {
        if self.has(node, kind) {
            Some(Pause {
                kind,
                node,
                target: None,
                insertion: false,
            })
        } else {
            None
        }
    }

    /// The pause by the nearest subtree watch above the node.
    fn pause_above(&self, page: &Page, node: u64) -> Option<Pause>
        requires { IsSome (find_in node page.now.tree) }
        ensures { result ≡ subtree_pause self.now node false (ancestors_at node page.now.tree) }
    {
        let nearest = nearest_above(&self.subtree, page, node)?;
        Some(Pause {
            kind: WatchKind::Subtree,
            node: nearest,
            target: Some(node),
            insertion: false,
        })
    }

    /// The pause of a node that is put into the parent.
    fn pause_into(&self, page: &Page, parent: u64) -> Option<Pause>
        requires { IsSome (find_in parent page.now.tree) }
        ensures { result ≡ subtree_pause self.now parent true (parent ∷ ancestors_at parent page.now.tree) }
    {
        let nearest = nearest_from(&self.subtree, page, parent)?;
        Some(Pause {
            kind: WatchKind::Subtree,
            node: nearest,
            target: Some(parent),
            insertion: true,
        })
    }

    /// The pause that an edit by script comes to, by the page before the edit; at most one.
    /// Takes no memory.
    pub fn pause_for(&self, page: &Page, e: &TreeEdit) -> Option<Pause>
        requires { IsSome (find_in (edited_node e.now) page.now.tree) }
        ensures { result ≡ pause_of self.now page.now.tree e.now }
    {
        match e {
            TreeEdit::SetAttr { node, .. } => self.own_pause(*node, WatchKind::Attribute),
            TreeEdit::DropAttr { node, .. } => self.own_pause(*node, WatchKind::Attribute),
            TreeEdit::SetText { node, .. } => self.pause_above(page, *node),
            TreeEdit::Attach { parent, .. } => self.pause_into(page, *parent),
            TreeEdit::Detach { node } => match self.own_pause(*node, WatchKind::Removed) {
                Some(pause) => Some(pause),
                None => self.pause_above(page, *node),
            },
        }
    }

    /// Forgets the watches at and below a node. This is called before the node is taken out, or before a text is shown no more.
    pub fn forget_subtree(&mut self, page: &Page, serial: u64)
        requires { IsSome (find_in serial page.now.tree) }
        ensures { self.new ≡ without_subtree serial page.now.tree self.old }
    {
        self.subtree.remove_within(page, serial);
        self.attribute.remove_within(page, serial);
        self.removed.remove_within(page, serial);
    }

    /// Forgets all watches.
    pub fn clear(&mut self)
        ensures { self.new ≡ unwatched }
    {
        self.subtree.clear();
        self.attribute.clear();
        self.removed.clear();
    }
}
