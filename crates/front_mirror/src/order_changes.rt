// Where the ids of the nodes that come with an edit go in document order, and which give way to them.
ghost use Rattle.std.specs.Prelude.{◌≡◌, ◌==◌, ◌||◌, ◌++◌, IfOk, OnOk, IsSome, None, true};
ghost use Rattle.node_tree.specs.Nodes.{nodes_of};
ghost use Rattle.node_tree.specs.Keys.{find, spot};
ghost use Rattle.node_tree.specs.Seen.{seen_id};
ghost use Rattle.client_views.specs.Moves.{suits_change, has_tree};
ghost use Rattle.client_views.specs.Views.{keys};
ghost use Rattle.front_mirror.specs.Shown.{known_at, told_id};
ghost use Rattle.front_mirror.specs.Edits.{edit_change, edit_told, fits_edit, spot_fault, with_changed};
ghost use Rattle.front_mirror.specs.Orders.{ChangesOrder, place_behind, change_place, nodes_gone};

use crate::edits::NodeChange;
use crate::mirror::Mirror;
use crate::told::children_of;
use dom_objects::NodeTree;
use std::alloc::{AllocError, Global};

/// These ids come in place of so many others behind the first ones.
#[derive(Drop)]
pub(crate) struct OrderChange {
    pub(crate) place: usize,
    pub(crate) gone: usize,
    pub(crate) ids: Vec<u64>,
}

/// Appends the nodes' ids, in document order.
#[tactic(auto, using(crate::proofs::ToldLemmas::node_count_below))]
pub(crate) fn push_ids(nodes: &[NodeTree], ids: &mut Vec<u64>) -> Result<(), AllocError>
    ensures { OnOk result (ids.new.items ≡ ids.old.items ++ keys told_id (nodes_of nodes.now)) }
{
    for node in nodes {
        ids.push(node.id)?;
        push_ids(children_of(node), ids)?;
    }
    Ok(())
}

impl Mirror {
    /// Where a child goes that comes behind that of the id, or first where that is 0.
    fn place_behind(&self, parent: u64, previous: u64) -> usize
        requires known { IsSome (find seen_id parent self.now) }
        requires sibling { (previous == 0 || has_tree previous (known_at parent self.now).children) ≡ true }
        ensures { result ≡ place_behind parent previous self.now }
    {
        self.valid();
        let known = self.known_count();
        let _ = known;
        if previous == 0 {
            return self.rank(parent) + 1;
        }
        self.rank(previous) + self.size(previous)
    }

    /// The place at which an edit changes what stands in document order, and how many nodes leave there.
    fn span_of(&self, id: u64, edit: &NodeChange) -> (usize, usize)
        requires known { IsSome (find seen_id id self.now) }
        requires suits { suits_change (edit_change edit.now) (known_at id self.now) ≡ true }
        ensures place { result.0 ≡ change_place id (edit_change edit.now) self.now }
        ensures gone { result.1 ≡ nodes_gone (edit_change edit.now) self.now }
    {
        self.valid();
        match edit {
            NodeChange::Show(_) => (self.place_behind(id, 0), 0),
            NodeChange::Insert { previous, .. } => (self.place_behind(id, *previous), 0),
            NodeChange::Remove(child) => (self.rank(*child), self.size(*child)),
            NodeChange::Count(_)
            | NodeChange::SetAttribute { .. }
            | NodeChange::DropAttribute(_)
            | NodeChange::SetValue(_) => (0, 0),
        }
    }

    /// What an edit with which nothing is wrong makes of the ids in document order.
    pub(crate) fn order_change(
        &self,
        alloc: Global,
        id: u64,
        edit: &NodeChange,
    ) -> Result<OrderChange, AllocError>
        requires fits { fits_edit edit.now ≡ true }
        requires clear { spot_fault self.now (edit_told id edit.now) (spot seen_id id 0 self.now) ≡ None }
        ensures { IfOk result (λ turn. ChangesOrder turn self.now (with_changed id (edit_change edit.now) self.now)) }
    {
        self.valid();
        let mut ids = Vec::new(alloc);
        push_ids(edit.nodes(), &mut ids)?;
        let (place, gone) = self.span_of(id, edit);
        Ok(OrderChange { place, gone, ids })
    }
}
