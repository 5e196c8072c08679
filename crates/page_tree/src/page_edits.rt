ghost use Rattle.std.specs.Prelude.{◌≡◌, ◌+◌, ◌<◌, ◌≤◌, false, IsSome, IfOk, OnOk, OnErr};
ghost use Rattle.node_tree.specs.Numbers.{drawn_before_nodes};
ghost use Rattle.node_tree.specs.Nodes.{branch_count};
ghost use Rattle.node_tree.specs.Labels.{value_of, is_document};
ghost use Rattle.page_tree.specs.Forms.{max_nodes};
ghost use Rattle.page_tree.specs.Pages.{find_in, node_at, parent_at};
ghost use Rattle.page_tree.specs.Edits.{after, label_at, back_tree, restored, sibling_after, numbered_branch, drawn, form_at};
ghost use Rattle.page_tree.specs.EditFaults.{kind_at, first_fault, IsReady, CanApply, RefusesEdit};

use crate::edit_faults::EditErr;
use crate::edits::TreeEdit;
use crate::forms::NodeForm;
use crate::numbering::number_one;
use crate::pages::Page;
use crate::trees::Tree;
use crate::walks::copy_tree;
use node_tree::Text;
use std::alloc::AllocError;

impl Page {
    /// Sets the value of a text or a comment, and gives the old one.
    fn set_text(&mut self, serial: u64, value: Text) -> Text
        requires { CanApply self.old.next (TreeEdit.SetText serial value) self.old.tree }
        ensures after { self.new ≡ after (TreeEdit.SetText serial value) self.old }
        ensures was { result ≡ (label_at serial self.old.tree).value }
    {
        let Some(key) = self.arena.key(serial) else {
            unreachable!()
        };
        match self.arena.set_value(key, value) {
            Some(was) => was,
            None => unreachable!(),
        }
    }

    /// Sets an attribute of an element, and gives its old value.
    fn set_attr(&mut self, serial: u64, name: Text, value: Text) -> Result<Option<Text>, AllocError>
        requires { CanApply self.old.next (TreeEdit.SetAttr serial name value) self.old.tree }
        ensures ok { OnOk result (self.new ≡ after (TreeEdit.SetAttr serial name value) self.old) }
        ensures was { IfOk result (λ was. was ≡ value_of name (label_at serial self.old.tree).attributes) }
        ensures err { OnErr result (self.new ≡ self.old) }
    {
        let Some(key) = self.arena.key(serial) else {
            unreachable!()
        };
        self.arena.set_attr(key, name, value)
    }

    /// Takes an attribute of an element away, and gives its value.
    fn drop_attr(&mut self, serial: u64, name: &str) -> Option<Text>
        requires { CanApply self.old.next (TreeEdit.DropAttr serial name.now) self.old.tree }
        ensures after { self.new ≡ after (TreeEdit.DropAttr serial name.now) self.old }
        ensures was { result ≡ value_of name.now (label_at serial self.old.tree).attributes }
    {
        let Some(key) = self.arena.key(serial) else {
            unreachable!()
        };
        self.arena.drop_attr(key, name)
    }

    /// Puts a tree among the children of a node, before the one of that serial, or last where there is none.
    fn attach(&mut self, parent: u64, before: u64, tree: Tree) -> Result<(), AllocError>
        requires { CanApply self.old.next (TreeEdit.Attach parent before tree) self.old.tree }
        ensures ok { OnOk result (self.new ≡ after (TreeEdit.Attach parent before tree) self.old) }
        ensures err { OnErr result (self.new ≡ self.old) }
    {
        let Some(key) = self.arena.key(parent) else {
            unreachable!()
        };
        self.arena.attach(self.alloc, key, before, tree)
    }

    /// Takes a node out with all below it, and gives its tree.
    fn detach(&mut self, serial: u64) -> Result<Tree, AllocError>
        requires { CanApply self.old.next (TreeEdit.Detach serial) self.old.tree }
        ensures ok { OnOk result (self.new ≡ after (TreeEdit.Detach serial) self.old) }
        ensures tree { IfOk result (λ tree. tree ≡ node_at serial self.old.tree) }
        ensures err { OnErr result (self.new ≡ self.old) }
    {
        let above = match self.arena.find(serial) {
            Some(slot) => slot.parent,
            None => unreachable!(),
        };
        let Some(key) = above else { unreachable!() };
        self.arena.detach(self.alloc, key, serial)
    }

    /// The serial of the sibling right after a node, and 0 where there is none.
    fn sibling_after(&self, serial: u64) -> u64
        requires { CanApply self.now.next (TreeEdit.Detach serial) self.now.tree }
        ensures { result ≡ sibling_after serial (parent_at serial self.now.tree) self.now.tree }
    {
        let above = match self.arena.find(serial) {
            Some(slot) => slot.parent,
            None => unreachable!(),
        };
        let Some(key) = above else { unreachable!() };
        match self.arena.slots.get(key) {
            Some(over) => self.arena.next_sibling(&over.children, serial),
            None => unreachable!(),
        }
    }

    /// Carries an edit out that has no fault, and gives the edit that leads back.
    fn change(&mut self, edit: TreeEdit) -> Result<TreeEdit, AllocError>
        requires { CanApply self.old.next edit self.old.tree }
        ensures ok { OnOk result (self.new ≡ after edit self.old) }
        ensures back { IfOk result (λ back. back ≡ back_tree edit self.old.tree) }
        ensures err { OnErr result (self.new ≡ self.old) }
    {
        match edit {
            TreeEdit::SetAttr { node, name, value } => {
                let kept = name.try_clone()?;
                let was = self.set_attr(node, name, value)?;
                Ok(restored(node, kept, was))
            }
            TreeEdit::DropAttr { node, name } => {
                let was = self.drop_attr(node, name.as_str());
                Ok(restored(node, name, was))
            }
            TreeEdit::SetText { node, value } => {
                let value = self.set_text(node, value);
                Ok(TreeEdit::SetText { node, value })
            }
            TreeEdit::Attach {
                parent,
                before,
                tree,
            } => {
                let node = serial_of(&tree);
                self.attach(parent, before, tree)?;
                Ok(TreeEdit::Detach { node })
            }
            TreeEdit::Detach { node } => {
                let parent = self.parent(node);
                let before = self.sibling_after(node);
                let tree = self.detach(node)?;
                Ok(TreeEdit::Attach {
                    parent,
                    before,
                    tree,
                })
            }
        }
    }

    /// Carries an edit out, and gives the edit that leads back. A fault and want of memory leave the page as it was.
    pub fn apply(&mut self, edit: TreeEdit) -> Result<TreeEdit, EditErr>
        requires { IsReady self.old.next edit self.old.tree }
        ensures fault { RefusesEdit result (first_fault edit self.old.tree) }
        ensures after { OnOk result (self.new ≡ after edit self.old) }
        ensures back { IfOk result (λ back. back ≡ back_tree edit self.old.tree) }
        ensures err { OnErr result (self.new ≡ self.old) }
    {
        if let Some(fault) = self.fault(&edit) {
            return Err(EditErr::Fault(fault));
        }
        Ok(self.change(edit)?)
    }

    /// A new tree of that form, with serials in document order from the next one on. They are drawn, and nothing is attached.
    pub fn grow(&mut self, form: NodeForm) -> Result<Tree, AllocError>
        requires room { self.old.next < drawn_before_nodes }
        requires few { branch_count form ≤ max_nodes }
        ensures tree { IfOk result (λ tree. tree ≡ numbered_branch self.old.next form) }
        ensures drawn { OnOk result (self.new ≡ drawn form self.old) }
        ensures err { OnErr result (self.new ≡ self.old) }
    {
        let (tree, next) = number_one(self.alloc, self.next, form)?;
        self.next = next;
        Ok(tree)
    }

    /// A copy of a node with all below it, with serials in document order from the next one on. They are drawn, and nothing is attached.
    pub fn copy(&mut self, node: u64) -> Result<Tree, AllocError>
        requires live { IsSome (find_in node self.old.tree) }
        requires below { is_document (kind_at node self.old.tree) ≡ false }
        requires room { self.old.next < drawn_before_nodes }
        ensures tree { IfOk result (λ tree. tree ≡ numbered_branch self.old.next (form_at node self.old.tree)) }
        ensures drawn { OnOk result (self.new ≡ drawn (form_at node self.old.tree) self.old) }
        ensures err { OnErr result (self.new ≡ self.old) }
    {
        let (tree, next) = self.copied(node)?;
        self.next = next;
        Ok(tree)
    }

    /// The copy, and the serial after its last.
    fn copied(&self, node: u64) -> Result<(Tree, u64), AllocError>
        requires live { IsSome (find_in node self.now.tree) }
        requires room { self.now.next < drawn_before_nodes }
        ensures tree { IfOk result (λ r. r.0 ≡ numbered_branch self.now.next (form_at node self.now.tree)) }
        ensures next { IfOk result (λ r. r.1 ≡ self.now.next + branch_count (form_at node self.now.tree)) }
    {
        self.valid();
        copy_tree(self.alloc, self.next, &self.node(node))
    }
}

fn serial_of(tree: &Tree) -> u64
    ensures { result ≡ tree.now.row.serial }
{
    tree.serial
}

/// What sets the attribute to what it was.
fn restored(node: u64, name: Text, was: Option<Text>) -> TreeEdit
    ensures { result ≡ restored node name was }
{
    match was {
        Some(value) => TreeEdit::SetAttr { node, name, value },
        None => TreeEdit::DropAttr { node, name },
    }
}
