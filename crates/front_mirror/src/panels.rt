use crate::mirror::Mirror;
use std::alloc::AllocError;

/// What a panel shows.
#[derive(Clone, Copy)]
pub enum PanelKind {
    Outline,
    Counts,
    Watch(u64),
}

/// What became of the mirror.
#[derive(Clone, Copy)]
pub enum Change {
    /// It is empty.
    Cleared,
    /// Another document came.
    Document,
    /// The children of the node are known from now on.
    Opened {
        node: u64,
    },
    /// The node is a new child of the parent.
    Inserted {
        parent: u64,
        node: u64,
    },
    /// The node at that place of the parent left, with so many known nodes, itself among them.
    Removed {
        parent: u64,
        place: usize,
        node: u64,
        known: usize,
    },
    /// The node has other attributes, another value, or another number of children that are not shown.
    Changed {
        node: u64,
    },
}

/// An object that shows a face of the mirror.
pub trait Panel: Drop {
    ghost use Rattle.std.specs.Prelude.{◌≡◌, List, ℕ, OnOk};
    ghost use Rattle.node_tree.specs.Nodes.{Nodes};
    ghost use Rattle.node_tree.specs.Seen.{Seen};
    ghost use Rattle.front_mirror.specs.declared.panels.PanelKind.{PanelKind};
    ghost use Rattle.front_mirror.specs.Panels.{face, Turns, MayShow};

    ghost kind_of: { Self → PanelKind };

    ghost shown: { Self → List ℕ };

    /// What it shows.
    fn kind(&self) -> PanelKind
        ensures { result ≡ kind_of self.now };

    /// Tells it of a change that led to this mirror.
    fn note(&mut self, change: &Change, mirror: &Mirror) -> Result<(), AllocError>
        ensures kind { kind_of self.new ≡ kind_of self.old }
        ensures shows { (before : Nodes Seen) → Turns before change.now mirror.now
            → MayShow change.now (kind_of self.old) (shown self.old) before
            → OnOk result (shown self.new ≡ face (kind_of self.old) mirror.now) };

    /// The text that it shows.
    fn text(&self) -> &str
        ensures { result.now ≡ shown self.now };
}

impl Panel for Box<dyn Panel> {
    ghost kind_of = { λ b. (Panel-box b).kind_of b.value };

    ghost shown = { λ b. (Panel-box b).shown b.value };

    fn kind(&self) -> PanelKind {
        (**self).kind()
    }

    fn note(&mut self, change: &Change, mirror: &Mirror) -> Result<(), AllocError> {
        (**self).note(change, mirror)
    }

    fn text(&self) -> &str {
        (**self).text()
    }
}
