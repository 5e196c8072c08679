ghost use Rattle.std.specs.Prelude.{◌≡◌, reverse};

use page_tree::TreeEdit;
use std::alloc::Global;
use std::marker::Model;
use style_edits::Splice;

/// An edit that takes another one back. It is itself an edit of the page's tree or of a sheet's text.
#[derive(Drop)]
pub enum Inverse {
    Tree(TreeEdit),
    Sheet(Splice),
}

/// A list of edits, which contracts see as the list.
#[derive(Drop)]
pub struct Inverses {
    edits: Vec<Inverse>,
}

impl Model for Inverses {
    ghost use Rattle.std.specs.Prelude.{List};
    ghost use Rattle.undo_marks.specs.declared.inverse_lists.Inverse.{Inverse};
    ghost use Rattle.undo_marks.specs.Codes.{coded_inverses};

    ghost Value = { List Inverse };

    ghost coded = { coded_inverses };

    ghost view = { λ l. l.edits.items };
}

impl Inverses {
    /// Takes no memory.
    pub fn new(edits: Vec<Inverse>) -> Inverses
        ensures { result ≡ edits.items }
    {
        Inverses { edits }
    }

    /// The same edits, the last first. Takes no memory.
    pub(crate) fn reversed(mut edits: Vec<Inverse>) -> Inverses
        ensures { result ≡ reverse edits.items }
    {
        edits.reverse();
        Inverses { edits }
    }

    /// Gives the list back; takes no memory.
    pub fn into_vec(self) -> Vec<Inverse>
        ensures { result.items ≡ self }
    {
        self.edits
    }
}

/// What a history hands out.
#[derive(Drop)]
pub enum Popped {
    /// A group of edits, in the order in which they are to be applied.
    Group(Inverses),
    /// There is no group.
    Nothing,
    /// There is no group, since a change that is not the client's emptied the history.
    Crossed,
}
