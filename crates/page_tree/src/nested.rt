// Rows put together into nodes, from the last row to the first.

ghost use Rattle.std.specs.Prelude.{◌≡◌, [], ◌∷◌, ◌+◌, map, option_map, Option, IfOk, OnOk};
ghost use Rattle.node_tree.specs.Nodes.{nodes_of};
ghost use Rattle.page_tree.specs.Flat.{kids_of, others_of, under, top_trees, flat_nodes};
ghost use Rattle.page_tree.specs.FlatRows.{row_of, Takes, is_next, is_none_left};

use crate::flat_rows::Row;
use crate::forms::NodeForm;
use std::alloc::{AllocError, Global};
use std::marker::Model;

/// A tree that has no parent yet, with the number of its parent's row.
#[derive(Drop)]
pub(crate) struct Waiting {
    pub(crate) up: u64,
    pub(crate) form: NodeForm,
}

/// Such trees, the first one innermost.
#[derive(Drop)]
struct Stack {
    items: Vec<Waiting>,
}

impl Model for Stack {
    ghost use Rattle.std.specs.Prelude.{List, map, reverse};
    ghost use Rattle.page_tree.specs.Flat.{Pending, coded_pending};
    ghost use Rattle.page_tree.specs.FlatRows.{pending_of};

    ghost Value = { List Pending };

    ghost coded = { coded_pending };

    ghost view = { λ s. reverse (map pending_of s.items.items) };
}

impl Stack {
    fn new(alloc: Global) -> Stack
        ensures { result ≡ [] }
    {
        Stack {
            items: Vec::new(alloc),
        }
    }

    fn is_empty(&self) -> bool
        ensures { result ≡ is_none_left self.now }
    {
        self.items.is_empty()
    }

    fn push(&mut self, up: u64, form: NodeForm) -> Result<(), AllocError>
        ensures { OnOk result (self.new ≡ record { up = up; tree = form } ∷ self.old) }
    {
        self.items.push(Waiting { up, form })?;
        Ok(())
    }

    fn is_next(&self, i: u64) -> bool
        ensures { result ≡ is_next i self.now }
    {
        match self.items.last() {
            Some(first) => first.up == i,
            None => false,
        }
    }

    /// Takes the first tree, where its parent is the row `i`.
    fn take(&mut self, i: u64) -> Option<NodeForm>
        ensures { Takes i self.old result self.new }
    {
        if !self.is_next(i) {
            return None;
        }
        match self.items.pop() {
            Some(first) => Some(first.form),
            None => None,
        }
    }

    /// Takes the trees at the front whose parent is the row `i`.
    fn kids(&mut self, alloc: Global, i: u64) -> Result<Vec<NodeForm>, AllocError>
        ensures kids { IfOk result (λ kids. nodes_of kids.items ≡ kids_of i self.old) }
        ensures others { OnOk result (self.new ≡ others_of i self.old) }
    {
        let mut kids = Vec::new(alloc);
        while let Some(form) = self.take(i) {
            kids.push(form)?;
        }
        Ok(kids)
    }
}

/// A row takes the trees at the front that are its children.
fn put_under(alloc: Global, i: u64, row: Row, stack: &mut Stack) -> Result<(), AllocError>
    ensures { OnOk result (stack.new ≡ under i (row_of row) stack.old) }
{
    let children = stack.kids(alloc, i)?;
    let label = row.label;
    let form = NodeForm {
        kind: label.kind,
        name: label.name,
        value: label.value,
        attributes: label.attributes,
        children,
    };
    stack.push(row.up, form)?;
    Ok(())
}

/// The trees, if each stands below the document.
fn tops(alloc: Global, stack: &mut Stack) -> Result<Option<Vec<NodeForm>>, AllocError>
    ensures { IfOk result (λ o. option_map (λ v. nodes_of v.items) o ≡ top_trees stack.old) }
{
    let trees = stack.kids(alloc, 0)?;
    if !stack.is_empty() {
        return Ok(None);
    }
    Ok(Some(trees))
}

/// The nodes of rows, if they are those of some.
pub(crate) fn nest(alloc: Global, mut rows: Vec<Row>) -> Result<Option<Vec<NodeForm>>, AllocError>
    ensures { IfOk result (λ o. option_map (λ v. nodes_of v.items) o ≡ flat_nodes (map row_of rows.items)) }
{
    let mut stack = Stack::new(alloc);
    while let Some(row) = rows.pop() {
        let i = rows.len() as u64 + 1;
        put_under(alloc, i, row, &mut stack)?;
    }
    tops(alloc, &mut stack)
}
