// Trees that wait for the node that they hang below.
ghost use Rattle.std.specs.Prelude.{◌≡◌, ◌+◌, ◌<◌, [], ◌∷◌, ◌++◌, length, List, IfOk, OnOk};
ghost use Rattle.node_tree.specs.Labels.{Label};
ghost use Rattle.node_tree.specs.Numbers.{memory_limit};
ghost use Rattle.node_tree.specs.Nodes.{Nodes, nodes_of};
ghost use Rattle.drill_script.specs.Hanging.{hung, nothing_hangs};

use page_tree::NodeForm;
use std::alloc::{AllocError, Global};
use std::marker::Model;

/// For each div and the body the trees that hang below it so far, by its number.
#[derive(Drop)]
pub(crate) struct Hanging {
    /// Of each the last tree first.
    lists: Vec<Vec<NodeForm>>,
}

impl Model for Hanging {
    ghost use Rattle.std.specs.Prelude.{List, map, reverse};
    ghost use Rattle.std.specs.Coded.{coded_list};
    ghost use Rattle.node_tree.specs.Nodes.{Nodes, nodes_of, coded_nodes};
    ghost use Rattle.node_tree.specs.Labels.{Label, coded_label};

    ghost Value = { List (Nodes Label) };

    ghost coded = { coded_list (coded_nodes coded_label) };

    ghost view = { λ h. map (λ v. nodes_of (reverse v.items)) h.lists.items };
}

impl Hanging {
    /// Nothing hangs below the body and so many divs.
    pub(crate) fn new(alloc: Global, divs: usize) -> Result<Hanging, AllocError>
        requires { divs < memory_limit }
        ensures { IfOk result (λ h. h ≡ nothing_hangs (divs + 1)) }
    {
        let mut lists = Vec::new(alloc);
        for _ in 0..divs + 1 {
            lists.push(Vec::new(alloc))?;
        }
        Ok(Hanging { lists })
    }

    /// Takes what hangs below the last.
    pub(crate) fn take_last(&mut self, alloc: Global) -> Vec<NodeForm>
        ensures { (front : List (Nodes Label)) (trees : Nodes Label) → self.old ≡ front ++ trees ∷ []
            → (nodes_of result.items ≡ trees) × (self.new ≡ front) }
    {
        match self.lists.pop() {
            Some(mut trees) => {
                trees.reverse();
                trees
            },
            None => Vec::new(alloc),
        }
    }

    /// Hangs a tree below that number, before those that hang there.
    pub(crate) fn hang(&mut self, up: u64, form: NodeForm) -> Result<(), AllocError>
        requires { up < length self.old }
        ensures { OnOk result (self.new ≡ hung self.old up form) }
    {
        let trees = &mut self.lists[up as usize];
        trees.push(form)?;
        Ok(())
    }
}
