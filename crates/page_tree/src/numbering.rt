ghost use Rattle.std.specs.Prelude.{◌≡◌, ◌+◌, ◌<◌, IfOk};
ghost use Rattle.node_tree.specs.Numbers.{number_limit};
ghost use Rattle.node_tree.specs.Nodes.{nodes_of, node_count, branch_count};
ghost use Rattle.page_tree.specs.Pages.{numbered};
ghost use Rattle.page_tree.specs.Edits.{numbered_branch};

use crate::forms::NodeForm;
use crate::trees::Tree;
use std::alloc::{AllocError, Global};

/// The trees of the forms, with serials in document order from `first` on, and the serial after the last.
pub fn number_all(
    alloc: Global,
    first: u64,
    forms: Vec<NodeForm>,
) -> Result<(Vec<Tree>, u64), AllocError>
    requires { first + node_count (nodes_of forms.items) < number_limit }
    ensures { IfOk result (λ r. (nodes_of r.0.items ≡ numbered first (nodes_of forms.items))
        × (r.1 ≡ first + node_count (nodes_of forms.items))) }
{
    let mut trees = Vec::new(alloc);
    let mut next = first;
    for form in forms {
        let serial = next;
        let (children, after) = number_all(alloc, serial + 1, form.children)?;
        trees.push(Tree {
            serial,
            kind: form.kind,
            name: form.name,
            value: form.value,
            attributes: form.attributes,
            children,
        })?;
        next = after;
    }
    Ok((trees, next))
}

/// The tree of a form, with serials in document order from `first` on, and the serial after the last.
pub fn number_one(alloc: Global, first: u64, form: NodeForm) -> Result<(Tree, u64), AllocError>
    requires { first + branch_count form < number_limit }
    ensures { IfOk result (λ r. (r.0 ≡ numbered_branch first form) × (r.1 ≡ first + branch_count form)) }
{
    let (children, next) = number_all(alloc, first + 1, form.children)?;
    let tree = Tree {
        serial: first,
        kind: form.kind,
        name: form.name,
        value: form.value,
        attributes: form.attributes,
        children,
    };
    Ok((tree, next))
}
